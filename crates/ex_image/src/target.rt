// The open file of a host.
ghost use Rattle.std.specs.Prelude.{◌≡◌, Bool, List, ℕ, IsTrue};
ghost use Rattle.ex_image.specs.Writing.{Appends, Outside};

use cm_io::{Host, Put};

/// A host with an open file, that bytes are appended to.
pub(crate) trait Target {
    /// Whether objects of this type tell their files.
    ghost tells: { Bool };

    /// What it tells.
    ghost outside: { Self → Outside };

    /// Appends the bytes to the open file. After Failed a prefix of them is appended.
    fn append(&mut self, bytes: &[u8]) -> Put
        requires { IsTrue (outside self.old).is_open }
        ensures { Appends tells (outside self.old) (outside self.new) bytes.now result };
}

impl<H: Host> Target for H {
    ghost tells = { H.tells };

    ghost outside = { λ host. record {
      is_open = H.is_open host;
      target = H.target host;
      files = H.files host;
      loads = H.loads host;
      creates = H.creates host;
      faults = H.faults host;
    } };

    fn append(&mut self, bytes: &[u8]) -> Put {
        self.write(bytes)
    }
}
