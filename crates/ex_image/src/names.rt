// The texts that names and notes may be.
ghost use Rattle.std.specs.Prelude.{◌≡◌, ◌==◌, ◌&&◌, ℕ, length, nat_lt};
ghost use Rattle.std.specs.List.{list_all, slice_split};
ghost use Rattle.std.specs.Str.{IsAscii};
ghost use Rattle.cm_files.specs.Catalogue.{is_directory_name, is_upper_name};
ghost use Rattle.cm_text.specs.Bytes.{is_text};
ghost use Rattle.ex_image.specs.Fields.{is_logical, is_note};
ghost use Rattle.ex_store.specs.WellFormed.{is_file_name, is_file_type};

use cm_files::is_logical_name;
use cm_text::{NAME_LIMIT, is_name, is_text};

// Whether these are the bytes of names, with no small letter.
fn is_upper_name(name: &[u8]) -> bool
    ensures { result ≡ is_upper_name name.now }
{
    name.iter()
        .all(|byte| is_name(*byte) && !byte.is_ascii_lowercase())
}

// Whether this may be between the points of a directory's name.
fn is_part(part: &[u8]) -> bool
    ensures { result ≡ nat_lt 0 (length part.now) && is_upper_name part.now }
{
    part.len() > 0 && is_upper_name(part)
}

fn are_parts(name: &[u8]) -> bool
    ensures { let parts = slice_split (λ byte. byte == 46) name.now in
        result ≡ list_all (λ part. nat_lt 0 (length part) && is_upper_name part) parts }
{
    name.split(|byte| *byte == b'.').all(|part| is_part(part))
}

/// Whether a directory may have this name.
pub(crate) fn is_directory_name(name: &[u8]) -> bool
    ensures { result ≡ is_directory_name name.now }
{
    name.len() <= NAME_LIMIT && are_parts(name)
}

/// Whether a file, or a job, may have this name.
pub(crate) fn is_file_name(name: &[u8]) -> bool
    ensures { result ≡ is_file_name name.now }
{
    !name.is_empty() && name.len() <= NAME_LIMIT && is_upper_name(name)
}

/// Whether a file may have this type.
pub(crate) fn is_file_type(kind: &[u8]) -> bool
    ensures { result ≡ is_file_type kind.now }
{
    kind.len() <= NAME_LIMIT && is_upper_name(kind)
}

/// Whether this may be a logical name, in upper case.
pub(crate) fn is_logical(name: &[u8]) -> bool
    ensures { result ≡ is_logical name.now }
{
    is_logical_name(name) && is_upper_name(name)
}

fn are_text(note: &[u8]) -> bool
    ensures { result ≡ list_all is_text note.now }
{
    note.iter().all(|byte| is_text(*byte))
}

/// Whether this may be beside an entry of the print queue.
pub(crate) fn is_note(note: &[u8]) -> bool
    ensures { result ≡ is_note note.now }
{
    note.len() <= NAME_LIMIT && are_text(note)
}

/// The text of ASCII bytes.
#[tactic(auto, using(cm_lists::proofs::Ascii::text_of_ascii))]
pub(crate) fn text_of(bytes: &[u8]) -> &str
    requires { IsAscii bytes.now }
    ensures { result.now ≡ bytes.now }
{
    match str::from_utf8(bytes) {
        Ok(text) => text,
        Err(_) => unreachable!(),
    }
}
