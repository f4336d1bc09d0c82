// What a line of a control file is.
// What a line is needs no proof file: each test is a Bool definition and a function, with if .. return in turn. Clauses
// view the lent enum as one over lists (control_view).
ghost use Rattle.std.specs.Prelude.{◌≡◌, ◌-◌, drop, length, take, true, IfSome, IfNone, option_copied, Some, None, if◌then◌else◌};
ghost use Rattle.std.specs.List.{list_all};
ghost use Rattle.cm_text.specs.Bytes.{is_text, is_word};
ghost use Rattle.cm_text.specs.Text.{IsLine};
ghost use Rattle.ex_batch.specs.Control.{AreNamed, IsNamed, begins_at, control_of, control_view, is_condition, is_exec, is_goto, is_label, is_label_name, is_nothing, is_parsable, name_in, order_of, order_view};

use crate::words::{colons, goto_word, if_error, if_no_error, if_word};
use cm_text::{LINE_LIMIT, NAME_LIMIT, begins_with, is_text, is_word};

/// What a line orders.
#[derive(Clone, Copy)]
pub enum Order<'a> {
    /// To go on at the label with this name.
    Goto(&'a [u8]),
    /// To do this line of the EXEC's.
    Exec(&'a [u8]),
    /// Nothing that a control file may order.
    Bad,
}

/// What a line of a control file is.
#[derive(Clone, Copy)]
pub enum Control<'a> {
    /// Nothing to do: an empty line, or a remark.
    Nothing,
    /// An order with a condition.
    Condition {
        /// It is done only where the line before was refused, or only where it was not.
        error: bool,
        /// What is done then.
        order: Order<'a>,
    },
    /// The label with this name.
    Label(&'a [u8]),
    /// An order.
    Plain(Order<'a>),
}

// Whether a line begins with this byte.
fn begins_at(byte: u8, line: &[u8]) -> bool
    ensures { result ≡ begins_at byte line.now }
{
    match line {
        [first, ..] => *first == byte,
        [] => false,
    }
}

// What is after as many bytes as a word has.
fn after<'a>(word: &[u8], line: &'a [u8]) -> &'a [u8]
    ensures { result.now ≡ drop (length word.now) line.now }
{
    &line[word.len().min(line.len())..]
}

// Word bytes alone.
fn is_of_word_bytes(name: &[u8]) -> bool
    ensures { result ≡ list_all is_word name.now }
{
    name.iter().all(|byte| is_word(*byte))
}

/// Whether a text can be the name of a label: 1 to 39 word bytes.
#[tactic(auto, unfolding(crate::specs::Control::is_label_name))]
pub fn is_label_name(name: &[u8]) -> bool
    ensures { result ≡ is_label_name name.now }
{
    0 < name.len() && (name.len() <= NAME_LIMIT && is_of_word_bytes(name))
}

// Whether a line is `@GOTO NAME`.
fn is_goto(line: &[u8]) -> bool
    ensures { result ≡ is_goto line.now }
{
    begins_with(line, goto_word()) && is_label_name(after(goto_word(), line))
}

// Whether a line is one of the EXEC's, after its `@`.
fn is_exec(line: &[u8]) -> bool
    ensures { result ≡ is_exec line.now }
{
    begins_at(b'@', line) && (!begins_with(line, if_word()) && !begins_with(line, goto_word()))
}

// What a line orders.
#[tactic(auto, using(crate::proofs::LabelNames::goto_named), unfolding(crate::specs::Control::order_of))]
fn order_of(line: &[u8]) -> Order<'_>
    ensures order { order_view result ≡ order_of line.now }
    ensures named { IsNamed (order_view result) }
{
    if is_goto(line) {
        return Order::Goto(after(goto_word(), line));
    }
    if is_exec(line) {
        return Order::Exec(after(b"@", line));
    }
    Order::Bad
}

// Whether a line is empty, or a remark.
fn is_nothing(line: &[u8]) -> bool
    ensures { result ≡ is_nothing line.now }
{
    match line {
        [first, ..] => *first == b'!',
        [] => true,
    }
}

// Whether a line begins with a condition, and goes on with an order after it.
fn is_condition(word: &[u8], line: &[u8]) -> bool
    ensures { result ≡ is_condition word.now line.now }
{
    begins_with(line, word) && begins_at(b'@', after(word, line))
}

// A line without its last two bytes.
fn name_in(line: &[u8]) -> &[u8]
    ensures { result.now ≡ name_in line.now }
{
    &line[..line.len().saturating_sub(2)]
}

// The last two bytes of a line.
fn end_of(line: &[u8]) -> &[u8]
    ensures { result.now ≡ drop (length line.now - 2) line.now }
{
    &line[line.len().saturating_sub(2)..]
}

// Whether a line is `NAME::`.
fn is_label(line: &[u8]) -> bool
    ensures { result ≡ is_label line.now }
{
    end_of(line) == colons() && is_label_name(name_in(line))
}

/// What a line of a control file is. A label that it names, or is, has the name of one.
#[tactic(auto, using(crate::proofs::LabelNames::label_named), unfolding(crate::specs::Control::control_of))]
pub fn control_of(line: &[u8]) -> Control<'_>
    ensures control { control_view result ≡ control_of line.now }
    ensures named { AreNamed (control_view result) }
{
    if is_nothing(line) {
        return Control::Nothing;
    }
    if is_condition(if_error(), line) {
        return Control::Condition {
            error: true,
            order: order_of(after(if_error(), line)),
        };
    }
    if is_condition(if_no_error(), line) {
        return Control::Condition {
            error: false,
            order: order_of(after(if_no_error(), line)),
        };
    }
    if is_label(line) {
        return Control::Label(name_in(line));
    }
    Control::Plain(order_of(line))
}

// Text bytes alone.
fn is_of_text_bytes(text: &[u8]) -> bool
    ensures { result ≡ list_all is_text text.now }
{
    text.iter().all(|byte| is_text(*byte))
}

// Whether a text can be parsed as a line of the EXEC's.
fn is_parsable(text: &[u8]) -> bool
    ensures { result ≡ is_parsable text.now }
{
    text.len() <= LINE_LIMIT && is_of_text_bytes(text)
}

/// A text, where it can be parsed as a line of the EXEC's: text bytes alone, and at most as many as a line has.
#[tactic(auto, using(crate::proofs::LabelNames::line_holds))]
pub fn parsable(text: &[u8]) -> Option<&[u8]>
    ensures value { option_copied result ≡ (if is_parsable text.now then Some text.now else None) }
    ensures line { IfSome (option_copied result) IsLine }
{
    if is_parsable(text) { Some(text) } else { None }
}
