// One interface, and what a command changes of it.
ghost use Rattle.std.specs.Prelude.{◌≡◌};
ghost use Rattle.eg_router.specs.Interfaces.{changed, fresh};

use cm_text::Name;

/// An interface of the router.
#[derive(Debug, Drop)]
pub struct Interface {
    /// Its name, in upper case.
    pub name: Name,
    /// Its address as it was typed; nothing where it has none.
    pub address: Name,
    /// What it is for; nothing where nothing is said.
    pub description: Name,
    /// Whether it is shut down.
    pub is_down: bool,
}

/// What a command changes of an interface.
#[derive(Debug, Drop)]
pub enum Change {
    /// ADDRESS gives it one, and NO ADDRESS takes it.
    Address(Name),
    /// DESCRIPTION says what it is for, and NO DESCRIPTION that nothing is said.
    Description(Name),
    /// SHUTDOWN shuts it down, and NO SHUTDOWN takes it up.
    Shutdown(bool),
}

impl Interface {
    /// The interface of this name, which is up, with no settings.
    pub fn new(name: Name) -> Interface
        ensures { result ≡ fresh name }
    {
        Interface {
            name,
            address: Name::new(""),
            description: Name::new(""),
            is_down: false,
        }
    }

    /// Changes it.
    pub fn change(&mut self, change: Change)
        ensures { self.new ≡ changed change self.old }
    {
        match change {
            Change::Address(address) => self.address = address,
            Change::Description(text) => self.description = text,
            Change::Shutdown(is_down) => self.is_down = is_down,
        }
    }
}

impl Default for Interface {
    fn default() -> Interface {
        Interface::new(Name::new(""))
    }
}
