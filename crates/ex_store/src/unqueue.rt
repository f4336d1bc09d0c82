// An entry is taken out of the print queue.
ghost use Rattle.std.specs.Prelude.{◌≡◌, ◌<◌, length};
ghost use Rattle.std.specs.List.{remove};

use crate::Store;

impl Store {
    /// Takes an entry out of the print queue. The others keep their order, and no memory is taken or let go but the
    /// entry's own.
    pub fn unqueue(&mut self, i: u16)
        requires { i < length self.old.state.queue }
        ensures { self.new ≡ record self.old {
          state = record self.old.state { queue = remove self.old.state.queue i };
        } }
    {
        self.queue.remove(usize::from(i));
    }
}
