// What a directory is told by its name.
ghost use Rattle.std.specs.Prelude.{◌≡◌};
ghost use Rattle.ex_store.specs.Rows.{pages_in};
ghost use Rattle.ex_store.specs.State.{retention_of};

use crate::Store;

impl Store {
    /// How many generations of each file the directory of this name keeps; 0 where it keeps all, or where there is no
    /// such directory.
    pub fn retention_in(&self, directory: &str) -> u8
        ensures { result ≡ retention_of directory.now self.now.state.directories }
    {
        self.directories.retention_of(directory)
    }

    /// How many pages the files of the directory of this name have, those that are marked deleted too; 0 where there is
    /// no such directory.
    pub fn pages_in(&self, directory: &str) -> u32
        ensures { result ≡ pages_in directory.now self.now.state.rows }
    {
        self.files.pages_in(directory.as_bytes())
    }
}
