// The router in its course, and what a command makes of it.
ghost use Rattle.std.specs.Prelude.{◌≡◌, IfOk};
ghost use Rattle.eg_router.specs.Router.{above, entered, obeyed, router_start, with_setting};

use crate::grammar::RouterGrammar;
use crate::{Change, Command, Interfaces};
use cm_files::OneDirectory;
use cm_io::NoMemory;
use cm_run::Own;
use cm_text::Name;
use std::alloc::Global;

/// Where the router is: what its next line may be.
#[derive(Clone, Copy, Debug, PartialEq, Eq)]
pub enum Mode {
    /// At first, `router>`.
    User,
    /// After ENABLE, `router#`.
    Privileged,
    /// After CONFIGURE TERMINAL, `router(config)#`.
    Configuration,
    /// After INTERFACE, its name and `#`: of the interface at this place.
    Interface(usize),
    /// After ROUTER, `router(config-router)#`.
    Protocol,
    /// After EXIT in the first mode: the run has ended.
    Ended,
}

/// The router in its course.
#[derive(Drop)]
pub struct Router {
    /// The grammar that its lines are parsed under.
    pub grammar: Own<RouterGrammar>,
    /// The directories that a line may name, for grammars that read files. This one reads none.
    pub names: OneDirectory,
    /// Its interfaces. They are also the rules of its lines.
    pub interfaces: Interfaces,
    /// Where it is.
    pub mode: Mode,
}

impl Router {
    /// The router at its start: it has no interfaces, and is in its first mode. There is an error where there is no
    /// memory for the grammar.
    pub fn new(alloc: Global) -> Result<Router, NoMemory>
        ensures { IfOk result (λ router. router ≡ router_start) }
    {
        Ok(Router {
            grammar: Own::new(alloc)?,
            names: OneDirectory::nothing(),
            interfaces: Interfaces::new(),
            mode: Mode::User,
        })
    }

    /// Does what a command says.
    pub fn obey_command(&mut self, command: Command)
        // [router-setting]
        ensures { self.new ≡ obeyed command self.old }
    {
        match command {
            Command::Nothing | Command::Show(_) => {}
            Command::Go(mode) => self.mode = mode,
            Command::Exit => self.mode = above(self.mode),
            Command::Interface(name) => self.enter(&name),
            Command::NoInterface(name) => self.interfaces.remove(&name),
            Command::Set(change) => self.set(change),
        }
    }

    // Goes to the mode of an interface.
    fn enter(&mut self, name: &Name)
        ensures { self.new ≡ entered name.now self.old }
    {
        if self.interfaces.may_enter(name) {
            self.mode = Mode::Interface(self.interfaces.enter(name));
        }
    }

    // Changes the interface whose mode it is.
    fn set(&mut self, change: Change)
        ensures { self.new ≡ record self.old {
          interfaces = with_setting self.old.mode change self.old.interfaces;
        } }
    {
        if let Mode::Interface(at) = self.mode {
            self.interfaces.change(at, change);
        }
    }
}

// One mode up.
fn above(mode: Mode) -> Mode
    ensures { result ≡ above mode }
{
    match mode {
        Mode::User | Mode::Ended => Mode::Ended,
        Mode::Privileged => Mode::User,
        Mode::Configuration => Mode::Privileged,
        Mode::Interface(_) | Mode::Protocol => Mode::Configuration,
    }
}
