// The fields of an image's lines, as they are read.
ghost use Rattle.std.specs.Prelude.{◌≡◌, ◌==◌, ◌≤◌, true, if◌then◌else◌, length, pos, option_map};
ghost use Rattle.std.specs.List.{position_or_len};
ghost use Rattle.std.specs.Str.{IsAscii};
ghost use Rattle.cm_io.specs.declared.status.Kind.TheVariants.{Form};
ghost use Rattle.ex_image.specs.Fields.{after_of, content_at, cut, directory_of, form_of, formed, is_numeral, logical_of, mark_of, note_of, number_of, optional_of};
ghost use Rattle.ex_image.specs.Gives.{Gives};
ghost use Rattle.ex_store.specs.WellFormed.{is_file_name, is_file_type};

use crate::Kind;
use crate::names::{is_directory_name, is_file_name, is_file_type, is_logical, is_note, text_of};
use cm_fields::{NUMBER_LIMIT, are_digits, value_of};
use ex_store::form_text;

// How many bytes are before the first such byte.
fn part_size(bytes: &[u8], byte: u8) -> usize
    ensures value { result ≡ position_or_len (λ b. b == byte) bytes.now }
    ensures within { result ≤ length bytes.now }
{
    bytes.iter().take_while(|b| **b != byte).count()
}

/// What is before the first such byte, and what follows it.
#[tactic(auto, unfolding(crate::specs::Fields::cut))]
pub(crate) fn cut(bytes: &[u8], byte: u8, kind: Kind) -> Result<(&[u8], &[u8]), Kind>
    ensures { Gives (λ x. (x.0.now, x.1.now)) result (cut byte kind bytes.now) }
{
    let (before, rest) = bytes.split_at(part_size(bytes, byte));
    match rest {
        [_, after @ ..] => Ok((before, after)),
        [] => Err(kind),
    }
}

// Whether these are one to ten digits with no zero before them.
fn is_numeral(digits: &[u8]) -> bool
    ensures { result ≡ is_numeral digits.now }
{
    !digits.is_empty()
        && digits.len() <= 10
        && are_digits(digits)
        && (digits.len() == 1 || digits[0] != b'0')
}

/// The number that one to ten digits write.
#[tactic(auto, using(crate::proofs::ReaderFields::numeral_within), unfolding(crate::specs::Fields::number_of))]
pub(crate) fn number_of(digits: &[u8]) -> Result<u64, Kind>
    ensures { Gives (λ x. x) result (number_of digits.now) }
{
    if !is_numeral(digits) {
        return Err(Kind::Form);
    }
    match value_of(digits, NUMBER_LIMIT) {
        Some(number) => Ok(number),
        None => unreachable!(),
    }
}

// The text of bytes that pass a test of ASCII texts.
fn formed(bytes: &[u8], passes: bool) -> Result<&str, Kind>
    requires { passes ≡ true → IsAscii bytes.now }
    ensures { Gives (λ x. x.now) result (if passes then Ok bytes.now else Err Form) }
{
    if passes {
        Ok(text_of(bytes))
    } else {
        Err(Kind::Form)
    }
}

/// The name of a directory.
#[tactic(auto, using(crate::proofs::ReaderTexts::directory_is_ascii))]
pub(crate) fn directory_of(bytes: &[u8]) -> Result<&str, Kind>
    ensures { Gives (λ x. x.now) result (directory_of bytes.now) }
{
    formed(bytes, is_directory_name(bytes))
}

/// A logical name.
#[tactic(auto, using(crate::proofs::ReaderTexts::logical_is_ascii))]
pub(crate) fn logical_of(bytes: &[u8]) -> Result<&str, Kind>
    ensures { Gives (λ x. x.now) result (logical_of bytes.now) }
{
    formed(bytes, is_logical(bytes))
}

/// The name of a file or a job.
#[tactic(auto, using(crate::proofs::ReaderTexts::file_name_is_ascii))]
pub(crate) fn name_of(bytes: &[u8]) -> Result<&str, Kind>
    ensures { Gives (λ x. x.now) result (formed is_file_name bytes.now) }
{
    formed(bytes, is_file_name(bytes))
}

/// The type of a file.
#[tactic(auto, using(crate::proofs::ReaderTexts::file_type_is_ascii))]
pub(crate) fn type_of(bytes: &[u8]) -> Result<&str, Kind>
    ensures { Gives (λ x. x.now) result (formed is_file_type bytes.now) }
{
    formed(bytes, is_file_type(bytes))
}

/// What is beside an entry of the print queue.
#[tactic(auto, using(crate::proofs::ReaderTexts::note_is_ascii))]
pub(crate) fn note_of(bytes: &[u8]) -> Result<&str, Kind>
    ensures { Gives (λ x. x.now) result (note_of bytes.now) }
{
    formed(bytes, is_note(bytes))
}

/// Whether a file is marked as deleted.
#[tactic(auto, unfolding(crate::specs::Fields::mark_of))]
pub(crate) fn mark_of(bytes: &[u8]) -> Result<bool, Kind>
    ensures { Gives (λ x. x) result (mark_of bytes.now) }
{
    if bytes == b"U".as_slice() {
        Ok(false)
    } else if bytes == b"D".as_slice() {
        Ok(true)
    } else {
        Err(Kind::Form)
    }
}

/// The number of a form.
#[tactic(auto, unfolding(crate::specs::Fields::form_of))]
pub(crate) fn form_of(bytes: &[u8]) -> Result<u8, Kind>
    ensures { Gives (λ x. x) result (form_of bytes.now) }
{
    if bytes == form_text(0).as_bytes() {
        Ok(0)
    } else if bytes == form_text(1).as_bytes() {
        Ok(1)
    } else if bytes == form_text(2).as_bytes() {
        Ok(2)
    } else {
        Err(Kind::Form)
    }
}

/// A number; none for a hyphen.
#[tactic(auto, unfolding(crate::specs::Fields::optional_of))]
pub(crate) fn optional_of(bytes: &[u8]) -> Result<Option<u64>, Kind>
    ensures { Gives (λ x. x) result (optional_of bytes.now) }
{
    if bytes == b"-".as_slice() {
        return Ok(None);
    }
    let number = number_of(bytes)?;
    Ok(Some(number))
}

/// The number of a day; none for a hyphen.
#[tactic(auto, unfolding(crate::specs::Fields::after_of))]
pub(crate) fn after_of(bytes: &[u8]) -> Result<Option<u64>, Kind>
    ensures { Gives (λ x. option_map pos x) result (after_of bytes.now) }
{
    let day = optional_of(bytes)?;
    Ok(day)
}

/// So many bytes of a file, with the line feed after them, and what follows it.
#[tactic(auto, unfolding(crate::specs::Fields::content_at))]
pub(crate) fn content_at(size: u64, bytes: &[u8]) -> Result<(&[u8], &[u8]), Kind>
    ensures { Gives (λ x. (x.0.now, x.1.now)) result (content_at size bytes.now) }
{
    if bytes.len() as u64 <= size {
        return Err(Kind::Cut);
    }
    let (content, rest) = bytes.split_at(size as usize);
    match rest {
        [b'\n', after @ ..] => Ok((content, after)),
        _ => Err(Kind::Form),
    }
}
