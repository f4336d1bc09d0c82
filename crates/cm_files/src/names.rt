// The catalogue that file specifications are looked up in.
// The Model of Names has Catalogue as its value, so that its calls close with nothing.
ghost use Rattle.std.specs.Prelude.{◌≡◌, ◌<◌, ◌≤◌, Some, IfSome, length, slice_get};
ghost use Rattle.cm_files.specs.Catalogue.{Catalogue, IsCatalogue, logical_of, row_of, rows_of};

use crate::Row;
use cm_text::NAME_LIMIT;

/// The names that a file specification may mean. Directories and files are each in ascending order of their
/// bytes, a beginning before what is longer, and none stands twice; generations ascend by value. The names of
/// both have their forms, in upper case. A logical name may be any text of at most 39 bytes, and stands for a
/// directory that is there.
pub trait Names {
    ghost catalogue: { Self → Catalogue };

    /// How many directories there are.
    fn directories(&self) -> u16
        ensures value { result ≡ length (catalogue self.now).directories }
        ensures lawful { IsCatalogue (catalogue self.now) };

    /// The name of the directory with this number.
    fn directory(&self, i: u16) -> &str
        requires { i < length (catalogue self.now).directories }
        ensures value { slice_get (catalogue self.now).directories i ≡ Some result.now }
        ensures short { length result.now ≤ NAME_LIMIT };

    /// The number of the directory that is connected: it is meant where none is given.
    fn connected(&self) -> u16
        ensures value { result ≡ (catalogue self.now).connected }
        ensures within { result < length (catalogue self.now).directories };

    /// The number of the directory that a logical name stands for, with no regard to the case of letters.
    /// None where there is no such logical name.
    fn logical(&self, name: &[u8]) -> Option<u16>
        ensures value { result ≡ logical_of (catalogue self.now) name.now }
        ensures within { IfSome result (λ directory. directory < length (catalogue self.now).directories) };

    /// How many files a directory has, each generation counted, those that are marked deleted too.
    fn rows(&self, directory: u16) -> u32
        requires { directory < length (catalogue self.now).directories }
        ensures value { result ≡ length (rows_of (catalogue self.now) directory) }
        ensures lawful { IsCatalogue (catalogue self.now) };

    /// One of the files of a directory, in ascending order of name, type and generation.
    fn row(&self, directory: u16, i: u32) -> Row<'_>
        requires directory { directory < length (catalogue self.now).directories }
        requires row { i < length (rows_of (catalogue self.now) directory) }
        ensures value { slice_get (rows_of (catalogue self.now) directory) i ≡ Some (row_of directory result) }
        ensures short { (length result.name.now ≤ NAME_LIMIT) × (length result.kind.now ≤ NAME_LIMIT) };
}
