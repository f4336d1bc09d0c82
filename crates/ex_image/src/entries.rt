// The lines of an image, as they are read.
ghost use Rattle.cm_io.specs.declared.status.Kind.TheVariants.{Form};
ghost use Rattle.ex_image.specs.Fields.{cut, file_of};
ghost use Rattle.ex_image.specs.Gives.{Gives};
ghost use Rattle.ex_image.specs.Lines.{connected_line, directory_line, entry_of, file_line, first_stamp, lettered, logical_line, request_line, second_stamp, stamp_at};
ghost use Rattle.ex_image.specs.LineViews.{entry_said, name_said, stamp_said};

use crate::Kind;
use crate::entry::{Entry, FileEntry, FileName, RequestEntry, Stamp};
use crate::fields::{
    after_of, cut, directory_of, form_of, logical_of, mark_of, name_of, note_of, number_of,
    optional_of, type_of,
};
use crate::version::Version;

// What is before the next space, and what follows it.
fn field(bytes: &[u8]) -> Result<(&[u8], &[u8]), Kind>
    ensures { Gives (λ x. (x.0.now, x.1.now)) result (cut 32 Form bytes.now) }
{
    cut(bytes, b' ', Kind::Form)
}

// The name, type and generation of a file in a directory.
#[tactic(auto, unfolding(crate::specs::Fields::file_of))]
fn file_of<'a>(directory: &'a str, bytes: &'a [u8]) -> Result<FileName<'a>, Kind>
    ensures { Gives name_said result (file_of directory.now bytes.now) }
{
    let (name, rest) = cut(bytes, b'.', Kind::Form)?;
    let name = name_of(name)?;
    let (kind, generation) = cut(rest, b'.', Kind::Form)?;
    let kind = type_of(kind)?;
    let generation = number_of(generation)?;
    Ok(FileName {
        directory,
        name,
        kind,
        generation,
    })
}

#[tactic(auto, unfolding(crate::specs::Lines::directory_line))]
fn directory_line(bytes: &[u8]) -> Result<Entry<'_>, Kind>
    ensures { Gives entry_said result (directory_line bytes.now) }
{
    let (name, rest) = field(bytes)?;
    let name = directory_of(name)?;
    let retention = number_of(rest)?;
    Ok(Entry::Directory { name, retention })
}

#[tactic(auto, unfolding(crate::specs::Lines::connected_line))]
fn connected_line(bytes: &[u8]) -> Result<Entry<'_>, Kind>
    ensures { Gives entry_said result (connected_line bytes.now) }
{
    let name = directory_of(bytes)?;
    Ok(Entry::Connected { name })
}

#[tactic(auto, unfolding(crate::specs::Lines::logical_line))]
fn logical_line(bytes: &[u8]) -> Result<Entry<'_>, Kind>
    ensures { Gives entry_said result (logical_line bytes.now) }
{
    let (name, rest) = field(bytes)?;
    let name = logical_of(name)?;
    let directory = directory_of(rest)?;
    Ok(Entry::Logical { name, directory })
}

// What a line of a file in version 1 says of how it is kept and when it was written, and what follows.
#[tactic(auto, unfolding(crate::specs::Lines::first_stamp))]
fn first_stamp(bytes: &[u8]) -> Result<(Stamp, &[u8]), Kind>
    ensures { Gives (λ x. (stamp_said x.0, x.1.now)) result (first_stamp bytes.now) }
{
    let (moment, rest) = field(bytes)?;
    let moment = number_of(moment)?;
    let stamp = Stamp {
        keep: 0,
        moment,
        read: None,
    };
    Ok((stamp, rest))
}

// The same of version 2.
#[tactic(auto, unfolding(crate::specs::Lines::second_stamp))]
fn second_stamp(bytes: &[u8]) -> Result<(Stamp, &[u8]), Kind>
    ensures { Gives (λ x. (stamp_said x.0, x.1.now)) result (second_stamp bytes.now) }
{
    let (keep, rest) = field(bytes)?;
    let keep = number_of(keep)?;
    let (moment, rest) = field(rest)?;
    let moment = number_of(moment)?;
    let (read, rest) = field(rest)?;
    let read = optional_of(read)?;
    Ok((Stamp { keep, moment, read }, rest))
}

// The same of either version.
fn stamp_at(version: Version, bytes: &[u8]) -> Result<(Stamp, &[u8]), Kind>
    ensures { Gives (λ x. (stamp_said x.0, x.1.now)) result (stamp_at version bytes.now) }
{
    match version {
        Version::One => first_stamp(bytes),
        Version::Two => second_stamp(bytes),
    }
}

#[tactic(auto, unfolding(crate::specs::Lines::file_line))]
fn file_line(version: Version, bytes: &[u8]) -> Result<Entry<'_>, Kind>
    ensures { Gives entry_said result (file_line version bytes.now) }
{
    let (directory, rest) = field(bytes)?;
    let directory = directory_of(directory)?;
    let (file, rest) = field(rest)?;
    let file = file_of(directory, file)?;
    let (mark, rest) = field(rest)?;
    let deleted = mark_of(mark)?;
    let (stamp, size) = stamp_at(version, rest)?;
    let size = number_of(size)?;
    Ok(Entry::File(FileEntry {
        version,
        file,
        deleted,
        stamp,
        size,
    }))
}

#[tactic(auto, unfolding(crate::specs::Lines::request_line))]
fn request_line(bytes: &[u8]) -> Result<Entry<'_>, Kind>
    ensures { Gives entry_said result (request_line bytes.now) }
{
    let (directory, rest) = field(bytes)?;
    let directory = directory_of(directory)?;
    let (file, rest) = field(rest)?;
    let file = file_of(directory, file)?;
    let (copies, rest) = field(rest)?;
    let copies = number_of(copies)?;
    let (form, rest) = field(rest)?;
    let form = form_of(form)?;
    let (after, rest) = field(rest)?;
    let after = after_of(after)?;
    let (job, note) = field(rest)?;
    let job = name_of(job)?;
    let note = note_of(note)?;
    Ok(Entry::Request(RequestEntry {
        file,
        copies,
        form,
        after,
        job,
        note,
    }))
}

// What follows the letter of a record.
#[tactic(auto, unfolding(crate::specs::Lines::lettered))]
fn lettered<'a>(version: Version, letter: &[u8], bytes: &'a [u8]) -> Result<Entry<'a>, Kind>
    ensures { Gives entry_said result (lettered version letter.now bytes.now) }
{
    match letter {
        b"D" => directory_line(bytes),
        b"C" => connected_line(bytes),
        b"L" => logical_line(bytes),
        b"F" => file_line(version, bytes),
        b"Q" => request_line(bytes),
        _ => Err(Kind::Form),
    }
}

/// What a line says in a version, without the line feed that ends it.
#[tactic(auto, unfolding(crate::specs::Lines::entry_of))]
pub(crate) fn entry_of(version: Version, line: &[u8]) -> Result<Entry<'_>, Kind>
    ensures { Gives entry_said result (entry_of version line.now) }
{
    if line == b"EXEC20 1".as_slice() {
        return Ok(Entry::Head(Version::One));
    }
    if line == b"EXEC20 2".as_slice() {
        return Ok(Entry::Head(Version::Two));
    }
    if line == b"E".as_slice() {
        return Ok(Entry::End);
    }
    let (letter, rest) = field(line)?;
    lettered(version, letter, rest)
}
