// The control file that a word names.
ghost use Rattle.std.specs.Prelude.{◌≡◌, ◌≤◌, length};
ghost use Rattle.cm_text.specs.Text.{IsLine, finished};
ghost use Rattle.cm_text.specs.declared.text.TheConstants.{LINE_LIMIT};
ghost use Rattle.cm_fields.specs.declared.value.FileKind.TheVariants.{In};
ghost use Rattle.cm_blocks.specs.Words.{no_flags};
ghost use Rattle.cm_files.specs.Fields.{file as file_read};
ghost use Rattle.ex_store.specs.State.{catalogue_of};
ghost use Rattle.ex_batch.specs.ControlFile.{named_file, place_or_shape, place_said};

use crate::control::parsable;
use arrayvec::ArrayVec;
use cm_fields::{Code, FileKind, Try};
use cm_files::{Flags, file};
use cm_text::TEXT_LIMIT;
use ex_commands::place_by;
use ex_store::{Place, Store};

// A word, and what finishes it.
fn finished(word: &[u8]) -> ArrayVec<u8, TEXT_LIMIT>
    requires { length word.now ≤ LINE_LIMIT }
    ensures { result.items ≡ finished word.now }
{
    let mut text = ArrayVec::new();
    let _ = text.try_extend_from_slice(word);
    text.push(b'\r');
    text
}

// What a finished word says as a file that is there.
fn file_in(text: &[u8], store: &Store) -> Try
    requires { length text.now ≤ TEXT_LIMIT }
    ensures { result ≡ file_read (catalogue_of store.now.state) In no_flags text.now 0 }
{
    file(FileKind::In, Flags::default(), store, text, 0)
}

// The place of a value, where it has one.
fn place_or_shape(place: Option<Place>) -> Result<Place, Code>
    ensures { result ≡ place_or_shape place }
{
    match place {
        Some(place) => Ok(place),
        None => Err(Code::SpecShape),
    }
}

// The place that a finished word means, where the specification takes the whole word.
#[tactic(auto, using(cm_text::proofs::Ascii::finished_is_ascii, crate::proofs::FileNames::word_said, crate::proofs::FileNames::said_short, crate::proofs::FileNames::said_whole, crate::proofs::FileNames::said_refused, crate::proofs::FileNames::said_more))]
fn place_said(word: &[u8], text: &[u8], store: &Store) -> Result<Place, Code>
    requires line { IsLine word.now }
    requires text { text.now ≡ finished word.now }
    ensures { result ≡ place_said (catalogue_of store.now.state) word.now
        (file_read (catalogue_of store.now.state) In no_flags (finished word.now) 0) }
{
    match file_in(text, store) {
        Try::Accept { value, end, .. } => {
            if usize::from(end) == word.len() {
                place_or_shape(place_by(store, Flags::default(), text, &value))
            } else {
                Err(Code::SpecShape)
            }
        }
        Try::Refuse { code, .. } => Err(code),
        Try::More => Err(Code::SpecShape),
    }
}

/// The place that a word names: the file of a specification without wildcards that is there.
#[tactic(auto, unfolding(crate::specs::ControlFile::named_file))]
pub(crate) fn named_file(word: &[u8], store: &Store) -> Result<Place, Code>
    ensures { result ≡ named_file (catalogue_of store.now.state) word.now }
{
    match parsable(word) {
        Some(line) => place_said(line, &finished(line), store),
        None => Err(Code::SpecShape),
    }
}
