// The records of a store's parts.
ghost use Rattle.std.specs.Prelude.{◌≡◌, ◌<◌, Bool, true, nat_lt, List, ℕ, [], ◌∷◌, ◌++◌, length, map, slice_get, Some, IsTrue};
ghost use Rattle.std.specs.List.{flat_map, list_all};
ghost use Rattle.ex_store.specs.declared.limits.TheConstants.{FORMS};
ghost use Rattle.ex_image.specs.declared.version.Version.TheVariants as versions;
ghost use Rattle.ex_image.specs.Image.{directory_record, file_record, logical_record, request_record};
ghost use Rattle.ex_image.specs.Record.{Entry, record_text};
ghost use Rattle.ex_image.specs.Writing.{Appends, Outside};

use crate::lines::{directory_line, file_line, logical_line, request_line};
use crate::target::Target;
use cm_io::Put;
use ex_store::{Parts, QueueEntry};

/// Parts of a store of one kind, in their order. Each has a record of its own.
pub(crate) trait Series {
    /// What their lines say, and the bytes after each.
    ghost records: { Self → List (Entry × List ℕ) };

    /// What a store sees to and their lines ask: that an entry of the print queue is for a form that there is.
    ghost is_sound: { Self → Bool };

    /// How many they are.
    fn count(&self) -> usize
        ensures { result ≡ length (records self.now) };

    /// Appends the record of one of them to the open file. After Failed a prefix of it is appended.
    fn put<T: Target>(&self, i: usize, target: &mut T) -> Put
        requires within { i < length (records self.now) }
        requires opened { IsTrue (T.outside target.old).is_open }
        requires sound { is_sound self.now ≡ true }
        ensures { (here : Entry × List ℕ) → slice_get (records self.now) i ≡ Some here
            → Appends T.tells (T.outside target.old) (T.outside target.new) (record_text here) result };
}

/// The directories.
#[derive(Drop)]
pub(crate) struct Directories<'a> {
    pub(crate) parts: &'a Parts<'a>,
}

impl Series for Directories<'_> {
    ghost records = { λ it. map directory_record it.parts.now.directories };

    ghost is_sound = { λ it. true };

    fn count(&self) -> usize {
        self.parts.directories()
    }

    fn put<T: Target>(&self, i: usize, target: &mut T) -> Put {
        target.append(directory_line(self.parts.directory(i)).as_bytes())
    }
}

/// The logical names.
#[derive(Drop)]
pub(crate) struct Logicals<'a> {
    pub(crate) parts: &'a Parts<'a>,
}

impl Series for Logicals<'_> {
    ghost records = { λ it. map logical_record it.parts.now.logical };

    ghost is_sound = { λ it. true };

    fn count(&self) -> usize {
        self.parts.logicals()
    }

    fn put<T: Target>(&self, i: usize, target: &mut T) -> Put {
        target.append(logical_line(self.parts.logical(i)).as_bytes())
    }
}

/// The files.
#[derive(Drop)]
pub(crate) struct Files<'a> {
    pub(crate) parts: &'a Parts<'a>,
}

impl Series for Files<'_> {
    ghost records = { λ it. map (file_record versions.Two) it.parts.now.rows };

    ghost is_sound = { λ it. true };

    fn count(&self) -> usize {
        self.parts.rows()
    }

    fn put<T: Target>(&self, i: usize, target: &mut T) -> Put {
        let row = self.parts.row(i);
        put_file(file_line(row).as_bytes(), row.file.bytes.as_slice(), target)
    }
}

/// The entries of the print queue.
#[derive(Drop)]
pub(crate) struct Requests<'a> {
    pub(crate) queue: &'a [QueueEntry],
}

impl Series for Requests<'_> {
    ghost records = { λ it. map request_record it.queue.now };

    ghost is_sound = { λ it. list_all (λ entry. nat_lt entry.form FORMS) it.queue.now };

    fn count(&self) -> usize {
        self.queue.len()
    }

    fn put<T: Target>(&self, i: usize, target: &mut T) -> Put {
        target.append(request_line(&self.queue[i]).as_bytes())
    }
}

// Appends the line of a file, its bytes and a line feed.
#[tactic(auto, using(crate::proofs::Appends::pieces))]
fn put_file<T: Target>(line: &[u8], bytes: &[u8], target: &mut T) -> Put
    requires { IsTrue (T.outside target.old).is_open }
    ensures { Appends T.tells (T.outside target.old) (T.outside target.new)
        (line.now ++ bytes.now ++ 10 ∷ []) result }
{
    if let Put::Failed = target.append(line) {
        return Put::Failed;
    }
    if let Put::Failed = target.append(bytes) {
        return Put::Failed;
    }
    target.append(b"\n")
}

/// Appends the records of some parts, one after the other.
pub(crate) fn put_each<S: Series, T: Target>(parts: &S, target: &mut T) -> Put
    requires opened { IsTrue (T.outside target.old).is_open }
    requires sound { S.is_sound parts.now ≡ true }
    ensures { Appends T.tells (T.outside target.old) (T.outside target.new)
        (flat_map record_text (S.records parts.now)) result }
{
    for i in 0..parts.count() {
        if let Put::Failed = parts.put(i, target) {
            return Put::Failed;
        }
    }
    Put::Done
}
