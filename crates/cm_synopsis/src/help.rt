// The help behind the parts of a command.
ghost use Rattle.std.specs.Prelude.{◌≡◌, ◌≤◌, length};
ghost use Rattle.std.specs.List.{prefix_len, suffix_len};
ghost use Rattle.cm_synopsis.specs.Bytes.{is_blank, is_fine};
ghost use Rattle.cm_synopsis.specs.Commands.{help_fault, help_text, without_blanks, without_end};

use crate::bytes::{blank_run, fine_run, is_blank, is_fine_text};
use crate::cut::{Word, rest_of};
use crate::fault::Fault;
use crate::reason::Reason;

// How many blanks are behind.
fn blanks_at_end(text: &[u8]) -> usize
    ensures value { result ≡ suffix_len is_blank text.now }
    ensures within { result ≤ length text.now }
{
    text.iter()
        .rev()
        .take_while(|byte| is_blank(**byte))
        .count()
}

// The text without the blanks behind.
pub(crate) fn without_end(text: &[u8]) -> &[u8]
    ensures { result.now ≡ without_end text.now }
{
    text.split_at(text.len() - blanks_at_end(text)).0
}

// The text without the blanks in front and behind.
pub(crate) fn without_blanks(text: &[u8]) -> &[u8]
    ensures { result.now ≡ without_blanks text.now }
{
    without_end(text.split_at(blank_run(text)).1)
}

// The help behind its mark.
pub(crate) fn help_text(line: &[u8], mark: Option<Word>) -> &[u8]
    ensures { result.now ≡ help_text line.now mark }
{
    match mark {
        Some(mark) => without_blanks(rest_of(line, mark.end)),
        None => &[],
    }
}

// Why there is none behind its mark.
pub(crate) fn help_fault(line: &[u8], mark: Option<Word>) -> Option<Fault>
    ensures { result ≡ help_fault line.now mark }
{
    let start = mark?.start;
    if !is_fine_text(line) {
        return Some(Fault {
            place: fine_run(line),
            reason: Reason::BadByte,
        });
    }
    if help_text(line, mark).is_empty() {
        return Some(Fault {
            place: start,
            reason: Reason::NoHelp,
        });
    }
    None
}
