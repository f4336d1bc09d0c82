// What a key shows.
#![tactic(auto, using(cm_io::proofs::Texts::texts))]

ghost use Rattle.std.specs.Prelude.{◌≡◌, ◌+◌, ◌≤◌, ◌==◌, [], ◌++◌, length, slice_get};
ghost use Rattle.cm_io.specs.Writer.{Writes};
ghost use Rattle.cm_text.specs.ScreenBytes.{end_of_line, question, shown_byte};
ghost use Rattle.cm_text.specs.declared.text.TheConstants.{JOIN};
ghost use Rattle.cm_blocks.specs.Once.{fields_at};
ghost use Rattle.cm_blocks.specs.Setting.{setting};
ghost use Rattle.cm_help.specs.Help.{help_text};
ghost use Rattle.cm_state.specs.Label.{label_name};
ghost use Rattle.cm_state.specs.Echo.{again, awaited, complaint, has_join, missing, omission, prompt_text, refusal, ring, screen_line, taken_away, takes_join, with_prompt};

use crate::{Label, Prompt};
use arrayvec::ArrayVec;
use cm_blocks::{Ending, Fault, Field, Grammar};
use cm_fields::Code;
use cm_files::Names;
use cm_help::put_help;
use cm_hooks::Rules;
use cm_io::{Sink, Writer};
use cm_line::{KeyClass, Line};
use cm_text::{
    JOIN, LINE_LIMIT, Name, bell, end_of_line, join_shown, question, rubout, screen_byte,
};

// The most bytes that a line takes on the screen: three for a join byte.
const SHOWN_LIMIT: usize = 3 * LINE_LIMIT;

// The bytes of a line as they are shown.
#[tactic(auto, using(crate::proofs::ScreenLines::shown_more))]
fn screen_line(line: &[u8]) -> ArrayVec<u8, SHOWN_LIMIT>
    requires { length line.now ≤ LINE_LIMIT }
    ensures { result.items ≡ screen_line line.now }
{
    let mut bytes = ArrayVec::new();
    for byte in line {
        push_shown(*byte, &mut bytes);
    }
    bytes
}

// Puts a byte of a line, as it is shown, after others.
#[tactic(auto, unfolding(cm_text::specs::ScreenBytes::shown_byte, cm_text::specs::ScreenBytes::join_shown, cm_text::specs::ScreenBytes::end_of_line))]
fn push_shown(byte: u8, bytes: &mut ArrayVec<u8, SHOWN_LIMIT>)
    requires { length bytes.old.items + 3 ≤ SHOWN_LIMIT }
    ensures shown { bytes.new.items ≡ bytes.old.items ++ shown_byte byte }
    ensures few { length bytes.new.items ≤ length bytes.old.items + 3 }
{
    if byte == JOIN {
        let _ = bytes.try_extend_from_slice(join_shown());
    } else {
        bytes.push(screen_byte(byte));
    }
}

// Shows a line.
pub(crate) fn put_screen_line<S: Sink>(line: &[u8], out: &mut Writer<'_, S>)
    requires { length line.now ≤ LINE_LIMIT }
    ensures { Writes S.Sink out.old out.new (screen_line line.now) }
{
    out.put(screen_line(line).as_slice());
}

// Shows a prompt.
#[tactic(auto, using(cm_io::proofs::Texts::texts), unfolding(crate::specs::Echo::prompt_text))]
pub(crate) fn put_prompt<S: Sink>(prompt: &Prompt, out: &mut Writer<'_, S>)
    ensures { Writes S.Sink out.old out.new (prompt_text prompt.now) }
{
    match prompt {
        Prompt::Main => out.put(b"@"),
        Prompt::Sub => out.put(b"@@"),
        Prompt::Own(text) => out.put(text.as_bytes()),
        Prompt::Named(name, after) => put_named(name, after, out),
    }
}

// Shows a name and what follows it.
fn put_named<S: Sink>(name: &Label, after: &Label, out: &mut Writer<'_, S>)
    ensures { Writes S.Sink out.old out.new (label_name name.now ++ label_name after.now) }
{
    out.put(name.as_bytes());
    out.put(after.as_bytes());
}

// Shows a line after its prompt.
#[tactic(auto, using(cm_io::proofs::Texts::texts), unfolding(crate::specs::Echo::with_prompt))]
pub(crate) fn put_with_prompt<S: Sink>(prompt: &Prompt, line: &[u8], out: &mut Writer<'_, S>)
    requires { length line.now ≤ LINE_LIMIT }
    ensures { Writes S.Sink out.old out.new (with_prompt prompt.now line.now) }
{
    put_prompt(prompt, out);
    put_screen_line(line, out);
}

// Shows the end of the line, and the line again after its prompt.
#[tactic(auto, using(cm_io::proofs::Texts::texts), unfolding(crate::specs::Echo::again))]
pub(crate) fn put_again<S: Sink>(prompt: &Prompt, line: &[u8], out: &mut Writer<'_, S>)
    requires { length line.now ≤ LINE_LIMIT }
    ensures { Writes S.Sink out.old out.new (again prompt.now line.now) }
{
    out.put(end_of_line());
    put_with_prompt(prompt, line, out);
}

// Shows what may come after the line, and the line again.
pub(crate) fn put_help_and_line<N: Names, R: Rules, S: Sink>(
    grammar: &Grammar,
    fields: &[Option<Field>],
    ending: Ending,
    prompt: &Prompt,
    line: &[u8],
    names: &N,
    rules: &R,
    out: &mut Writer<'_, S>,
)
    requires line { length line.now ≤ LINE_LIMIT }
    ensures { Writes S.Sink out.old out.new
        (question ++ help_text (setting grammar.now (N.catalogue names.now) (R.meanings rules.now))
        (fields_at fields.now) ending line.now ++ again prompt.now line.now) }
{
    out.put(question());
    put_help(grammar, fields, ending, line, names, rules, out);
    put_again(prompt, line, out);
}

// Whether a key of this class takes a join byte away from a line.
#[tactic(auto, using(crate::proofs::ScreenLines::none_goes))]
pub(crate) fn takes_join(class: KeyClass, line: &Line) -> bool
    ensures { result ≡ takes_join class line.now }
{
    let bytes = line.bytes();
    match class {
        KeyClass::Rub => has_join(&bytes[bytes.len().saturating_sub(1)..]),
        KeyClass::Word => has_join(&bytes[line.word_start()..]),
        KeyClass::Erase => has_join(bytes),
        _ => false,
    }
}

// Whether a join byte is among these.
fn has_join(bytes: &[u8]) -> bool
    ensures { result ≡ has_join bytes.now }
{
    bytes.iter().any(|byte| *byte == JOIN)
}

// Takes bytes from the screen, from a line of the first size to the one that is left; where a join byte went, shows
// that one again.
pub(crate) fn put_taken<S: Sink>(
    joins: bool,
    prompt: &Prompt,
    before: usize,
    line: &[u8],
    out: &mut Writer<'_, S>,
)
    requires before { before ≤ LINE_LIMIT }
    requires line { length line.now ≤ LINE_LIMIT }
    ensures { Writes S.Sink out.old out.new (taken_away joins prompt.now before line.now) }
{
    if before == 0 {
        out.put(bell());
    } else if joins {
        put_again(prompt, line, out);
    } else {
        out.put_times(before.saturating_sub(line.len()) as u32, rubout());
    }
}

// Shows what was added to the line, and rings or not.
#[tactic(auto, using(cm_io::proofs::Texts::texts), unfolding(crate::specs::Echo::ring))]
pub(crate) fn put_inserted<S: Sink>(bytes: &[u8], rings_bell: bool, out: &mut Writer<'_, S>)
    ensures { Writes S.Sink out.old out.new (bytes.now ++ ring rings_bell) }
{
    out.put(bytes);
    out.put(if rings_bell { bell() } else { b"" });
}

// Ends the line on the screen, and shows what a refused line shows.
pub(crate) fn put_end<S: Sink>(
    grammar: &Grammar,
    line: &[u8],
    ending: Ending,
    out: &mut Writer<'_, S>,
)
    ensures { Writes S.Sink out.old out.new (end_of_line ++ complaint grammar.now line.now ending) }
{
    out.put(end_of_line());
    put_complaint(grammar, line, ending, out);
}

// Shows what a refused line shows.
#[tactic(auto, using(cm_io::proofs::Texts::writes_none), unfolding(crate::specs::Echo::complaint))]
fn put_complaint<S: Sink>(grammar: &Grammar, line: &[u8], ending: Ending, out: &mut Writer<'_, S>)
    ensures { Writes S.Sink out.old out.new (complaint grammar.now line.now ending) }
{
    match ending {
        Ending::Open(_) | Ending::Done => {}
        Ending::Fault(fault) => {
            if usize::from(fault.at) == line.len() {
                put_omission(grammar, fault, out);
            } else {
                put_refusal(fault.code, out);
            }
        }
    }
}

// Shows why a line is refused that ends before the field.
fn put_omission<S: Sink>(grammar: &Grammar, fault: Fault, out: &mut Writer<'_, S>)
    ensures { Writes S.Sink out.old out.new
        (omission (awaited (slice_get grammar.now.nodes fault.node)) fault.code) }
{
    if fault.node >= grammar.nodes() {
        return put_refusal(fault.code, out);
    }
    match &grammar.node(fault.node).awaits {
        Some(name) => put_missing(name, out),
        None => put_refusal(fault.code, out),
    }
}

#[tactic(auto, unfolding(crate::specs::Echo::missing))]
fn missing() -> &'static [u8]
    ensures { result.now ≡ missing }
{
    b"?Missing "
}

// Shows what a line is missing.
fn put_missing<S: Sink>(name: &Name, out: &mut Writer<'_, S>)
    ensures { Writes S.Sink out.old out.new (missing ++ (name.now ++ end_of_line)) }
{
    out.put(missing());
    out.put_line(name.as_bytes());
}

/// Shows why a line is refused: `?`, the text of the code, and the end of the line. So a program refuses what a
/// confirmed line commands, by a code of the library or by one of its own.
#[tactic(auto, using(cm_io::proofs::Texts::texts), unfolding(crate::specs::Echo::refusal))]
pub fn put_refusal<S: Sink>(code: Code, out: &mut Writer<'_, S>)
    ensures { Writes S.Sink out.old out.new (refusal code) }
{
    out.put(question());
    out.put_line(code.text().as_bytes());
}
