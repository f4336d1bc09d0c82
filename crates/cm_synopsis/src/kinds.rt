// What a line is.
ghost use Rattle.std.specs.Prelude.{◌≡◌, ◌≤◌, not, length};
ghost use Rattle.std.specs.List.{prefix_len};
ghost use Rattle.cm_synopsis.specs.Bytes.{is_blank};
ghost use Rattle.cm_synopsis.specs.LineKinds.{kind_after, line_kind, run_kind};

use crate::bytes::{blank_run, is_blank};

/// What a line of a language is.
#[derive(Clone, Copy, Debug, PartialEq, Eq)]
pub enum LineKind {
    /// Blanks alone.
    Empty,
    /// A remark.
    Remark,
    /// The prompt.
    Prompt,
    /// Names for a field.
    Names,
    /// The help of a keyword.
    Help,
    /// A command.
    Command,
}

// How many bytes are before the first blank.
fn solid_run(line: &[u8]) -> usize
    ensures value { result ≡ prefix_len (λ byte. not (is_blank byte)) line.now }
    ensures within { result ≤ length line.now }
{
    line.iter().take_while(|byte| !is_blank(**byte)).count()
}

// What a line is that begins with these bytes before its first blank.
fn run_kind(run: &[u8]) -> LineKind
    ensures { result ≡ run_kind run.now }
{
    if run == b"prompt".as_slice() {
        LineKind::Prompt
    } else if run == b"list".as_slice() {
        LineKind::Names
    } else if run == b"help".as_slice() {
        LineKind::Help
    } else {
        LineKind::Command
    }
}

// What it is after its blanks, where its first bytes say this.
fn kind_after(kind: LineKind, rest: &[u8]) -> LineKind
    ensures { result ≡ kind_after kind rest.now }
{
    match rest.first() {
        None => LineKind::Empty,
        Some(&b'#') => LineKind::Remark,
        Some(_) => kind,
    }
}

/// What a line is. One of blanks alone is Empty, and one whose first other byte is `#` is a Remark. One that begins,
/// with no blank before it, with `prompt`, `list` or `help`, and a blank after it or no more, is Prompt, Names or Help.
/// Any other is a Command.
#[tactic(auto, unfolding(crate::specs::LineKinds::line_kind))]
pub fn line_kind(line: &[u8]) -> LineKind
    ensures { result ≡ line_kind line.now }
{
    let kind = run_kind(line.split_at(solid_run(line)).0);
    kind_after(kind, line.split_at(blank_run(line)).1)
}
