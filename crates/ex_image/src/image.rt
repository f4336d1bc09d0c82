// The image is written to a file.
ghost use Rattle.std.specs.Prelude.{◌≡◌, ◌≤◌, true, false, nat_lt, [], ◌++◌, map, IsTrue};
ghost use Rattle.std.specs.List.{flat_map, list_all};
ghost use Rattle.cm_io.specs.Fault.{PutCause, next_count};
ghost use Rattle.cm_io.specs.Host.{KeepsOthers};
ghost use Rattle.ex_store.specs.declared.limits.TheConstants.{FORMS};
ghost use Rattle.ex_image.specs.declared.version.Version.TheVariants as versions;
ghost use Rattle.ex_image.specs.Image.{Saves, directory_record, file_record, image_text, logical_record, request_record};
ghost use Rattle.ex_image.specs.Record.{record_text};
ghost use Rattle.ex_image.specs.Record as records;
ghost use Rattle.ex_image.specs.Writing.{Appends};

use crate::lines::connected_line;
use crate::records::{Directories, Files, Logicals, Requests, Series, put_each};
use crate::target::Target;
use cm_io::{Host, Put};
use ex_store::{Parts, Store};

// Appends a line and the records of some parts.
#[tactic(auto, using(crate::proofs::Appends::pieces))]
fn put_after<S: Series, T: Target>(line: &[u8], parts: &S, target: &mut T) -> Put
    requires opened { IsTrue (T.outside target.old).is_open }
    requires sound { S.is_sound parts.now ≡ true }
    ensures { Appends T.tells (T.outside target.old) (T.outside target.new)
        (line.now ++ flat_map record_text (S.records parts.now)) result }
{
    if let Put::Failed = target.append(line) {
        return Put::Failed;
    }
    put_each(parts, target)
}

// Appends the head, the directories, the connected one and the logical names.
fn put_names<T: Target>(parts: &Parts<'_>, target: &mut T) -> Put
    requires { IsTrue (T.outside target.old).is_open }
    ensures { Appends T.tells (T.outside target.old) (T.outside target.new)
        ((record_text (records.Head versions.Two, [])
        ++ flat_map record_text (map directory_record parts.now.directories))
        ++ (record_text (records.Connected parts.now.connected, [])
        ++ flat_map record_text (map logical_record parts.now.logical))) result }
{
    if let Put::Failed = put_after(b"EXEC20 2\n", &Directories { parts }, target) {
        return Put::Failed;
    }
    let line = connected_line(parts.connected());
    put_after(line.as_bytes(), &Logicals { parts }, target)
}

// Appends the files, the entries of the print queue and the end.
#[tactic(auto, using(crate::proofs::Appends::pieces))]
fn put_files<T: Target>(parts: &Parts<'_>, target: &mut T) -> Put
    requires opened { IsTrue (T.outside target.old).is_open }
    requires forms { list_all (λ entry. nat_lt entry.form FORMS) parts.now.queue ≡ true }
    ensures { Appends T.tells (T.outside target.old) (T.outside target.new)
        ((flat_map record_text (map (file_record versions.Two) parts.now.rows)
        ++ flat_map record_text (map request_record parts.now.queue))
        ++ record_text (records.End, [])) result }
{
    if let Put::Failed = put_each(&Files { parts }, target) {
        return Put::Failed;
    }
    let queue = parts.queue();
    if let Put::Failed = put_each(&Requests { queue }, target) {
        return Put::Failed;
    }
    target.append(b"E\n")
}

// Appends all records.
pub(crate) fn put_all<T: Target>(parts: &Parts<'_>, target: &mut T) -> Put
    requires opened { IsTrue (T.outside target.old).is_open }
    requires forms { list_all (λ entry. nat_lt entry.form FORMS) parts.now.queue ≡ true }
    ensures { Appends T.tells (T.outside target.old) (T.outside target.new) (image_text parts.now) result }
{
    if let Put::Failed = put_names(parts, target) {
        return Put::Failed;
    }
    put_files(parts, target)
}

/// Writes the image of a store, in version 2, to a file of a host: a head, a line for each directory, for the connected
/// one, for each logical name, for each file, with its bytes after it, and for each entry of the print queue, and an
/// end. It takes no memory. The file is created once. Where the host fails, the file is absent, as before, or holds a
/// prefix of the image. No file is open afterwards.
#[tactic(auto, using(cm_io::proofs::Additions::rose_early, cm_io::proofs::Additions::rose_late, crate::proofs::Soundness::forms_of_state,))]
pub fn encode<H: Host>(store: &Store, host: &mut H, name: &str) -> Put
    ensures saved { IsTrue H.tells
        → Saves (image_text store.now.state) (H.files host.old name.now) (H.files host.new name.now) result }
    ensures others { IsTrue H.tells → KeepsOthers name.now (H.files host.old) (H.files host.new) }
    // [image-written]
    ensures closed { H.is_open host.new ≡ false }
    ensures created { H.creates host.new ≡ next_count (H.creates host.old) }
    ensures loads { H.loads host.new ≡ H.loads host.old }
    ensures later { H.faults host.old ≤ H.faults host.new }
    ensures cause { PutCause (H.faults host.old) (H.faults host.new) result }
{
    if let Put::Failed = host.create(name) {
        return Put::Failed;
    }
    let written = put_all(&store.parts(), host);
    let closed = host.close();
    match written {
        Put::Done => closed,
        Put::Failed => Put::Failed,
    }
}
