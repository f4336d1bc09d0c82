// Whole commands.
ghost use Rattle.std.specs.Prelude.{◌≡◌, ◌-◌, ◌++◌, ◌∷◌, ◌≤◌, IfOk, Ok, length, not, slice_get, take, drop};
ghost use Rattle.std.specs.List.{prefix_len};
ghost use Rattle.std.specs.Option.{option_copied};
ghost use Rattle.cm_synopsis.specs.Commands.{before, command_at, command_in, command_of, end_fault, is_mark, next_openings, opening_start, part_count, places_after, read_next, start_of};

use crate::cut::{Word, word_text, words};
use crate::fault::Fault;
use crate::follow::{follow_fault, innermost, is_lead, may_be_number};
use crate::help::{help_fault, help_text};
use crate::opening::{Opening, Openings};
use crate::part::{Part, read_part};
use crate::reason::Reason;
use cm_text::Name;
use std::alloc::{AllocError, Global};
use std::marker::Model;

/// A command of a language. Contracts see its parts and its help.
#[derive(Debug, Drop)]
pub struct Command {
    /// The parts, in order: one at least.
    pub parts: Vec<Part>,
    /// The help, empty where none is written.
    pub help: Vec<u8>,
}

impl Model for Command {
    ghost use Rattle.cm_synopsis.specs.CommandView.{CommandView};

    ghost Value = { CommandView };

    ghost view = { λ command. record { parts = command.parts.items; help = command.help.items } };
}

// The brackets open behind a part, where it may stand there.
fn next_openings(
    parts: &[Part],
    openings: Openings,
    start: usize,
    part: &Part,
) -> Result<Openings, Reason>
    ensures { result ≡ next_openings (record { parts = parts.now; openings = openings }) start part.now }
{
    match follow_fault(innermost(openings.as_slice()), parts.last(), part) {
        Some(reason) => Err(reason),
        None => openings.after(start, part),
    }
}

// The part that a word is, and the brackets open behind it.
fn read_next(
    lists: &[Name],
    parts: &[Part],
    openings: Openings,
    start: usize,
    text: &[u8],
) -> Result<(Part, Openings), Reason>
    ensures { result ≡ read_next lists.now (record { parts = parts.now; openings = openings }) start text.now }
{
    let part = read_part(lists, may_be_number(parts.last()), text)?;
    let openings = next_openings(parts, openings, start, &part)?;
    Ok((part, openings))
}

// Whether a word ends the parts.
fn is_mark(line: &[u8], word: Word) -> bool
    ensures { result ≡ is_mark line.now word }
{
    word_text(line, word) == b"--".as_slice()
}

// How many words are before the first that does.
pub(crate) fn part_count(line: &[u8], words: &[Word]) -> usize
    ensures value { result ≡ part_count line.now words.now }
    ensures within { result ≤ length words.now }
{
    words
        .iter()
        .take_while(|word| !is_mark(line, **word))
        .count()
}

// Where a word begins.
fn start_of(word: Option<Word>) -> usize
    ensures { result ≡ start_of word }
{
    match word {
        Some(word) => word.start,
        None => 0,
    }
}

// Where the innermost bracket begins.
fn opening_start(openings: &[Opening]) -> usize
    ensures { result ≡ opening_start openings.now }
{
    match openings.last() {
        Some(opening) => opening.start,
        None => 0,
    }
}

// Why the parts may not end there.
fn end_fault(last: usize, mark: usize, parts: &[Part], openings: &[Opening]) -> Option<Fault>
    ensures { result ≡ end_fault last mark (record { parts = parts.now; openings = openings.now }) }
{
    if parts.is_empty() {
        return Some(Fault {
            place: mark,
            reason: Reason::NoPart,
        });
    }
    if is_lead(parts.last()) {
        return Some(Fault {
            place: last,
            reason: Reason::NoField,
        });
    }
    if openings.is_empty() {
        return None;
    }
    Some(Fault {
        place: opening_start(openings),
        reason: Reason::NotClosed,
    })
}

// The command with these parts, where neither its end nor its help is at fault.
fn finish(
    alloc: Global,
    line: &[u8],
    last: usize,
    mark: Option<Word>,
    parts: Vec<Part>,
    openings: &[Opening],
) -> Result<Result<Command, Fault>, AllocError>
    ensures { IfOk result (λ made. made ≡ command_at line.now last mark
        (Ok (record { parts = parts.items; openings = openings.now }))) }
{
    if let Some(fault) = end_fault(last, start_of(mark), &parts, openings) {
        return Ok(Err(fault));
    }
    if let Some(fault) = help_fault(line, mark) {
        return Ok(Err(fault));
    }
    let help = help_text(line, mark).to_vec(alloc)?;
    Ok(Ok(Command { parts, help }))
}

// The command whose parts are these words, before its mark.
fn command_in(
    alloc: Global,
    lists: &[Name],
    line: &[u8],
    front: &[Word],
    mark: Option<Word>,
) -> Result<Result<Command, Fault>, AllocError>
    ensures { IfOk result (λ made. made ≡ command_in lists.now line.now front.now mark) }
{
    let mut parts = Vec::new(alloc);
    let mut openings = Openings::none();
    for word in front {
        match read_next(lists, &parts, openings, word.start, word_text(line, *word)) {
            Ok((part, more)) => {
                parts.push(part)?;
                openings = more;
            }
            Err(reason) => {
                return Ok(Err(Fault {
                    place: word.start,
                    reason,
                }));
            }
        }
    }
    let last = start_of(front.last().copied());
    finish(alloc, line, last, mark, parts, openings.as_slice())
}

/// The command that a line is, under the lists that stand above it. A word `--` ends its parts, and its help is all
/// behind that without the blanks in front and behind. Else the first fault, in the order of the words, told at the
/// start of its word: what `read_part` refuses; NoField of a switch with a colon that no field follows, and of `..`
/// directly behind no field and no range; NotOpen of an end of a bracket that is not the innermost; NoBar of a bar
/// directly in no `< >` and no `{ }`; EmptyBracket of an end or a bar directly behind its bracket or a bar; NotOption
/// where an alternative in `{ }` begins with no keyword and no switch; NotLast of any part but an end or a bar behind a
/// field that may be the rest of the line; DeepBracket of a bracket in 16 others. Then NoPart where there is no part,
/// at the mark or 0; NoField of a switch with a colon at the end; NotClosed at the innermost bracket that is open;
/// BadByte at the byte of a help, and NoHelp at the mark with none behind it.
#[tactic(auto, unfolding(crate::specs::Commands::command_of))]
pub fn read_command(
    alloc: Global,
    lists: &[Name],
    line: &[u8],
) -> Result<Result<Command, Fault>, AllocError>
    ensures { IfOk result (λ made. made ≡ command_of lists.now line.now) }
{
    let all = words(alloc, line)?;
    let (front, behind) = all.split_at(part_count(line, &all));
    command_in(alloc, lists, line, front, behind.first().copied())
}
