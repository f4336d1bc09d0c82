// What one line of a language says.
ghost use Rattle.std.specs.Prelude.{◌≡◌, ◌≤◌, [], Err, IfOk, MatchResult, Ok, drop, length};
ghost use Rattle.std.specs.List.{list_all, list_any, prefix_len};
ghost use Rattle.cm_text.specs.Case.{equals};
ghost use Rattle.std.specs.Str.{bytes_eq};
ghost use Rattle.cm_synopsis.specs.Sayings.{and_then, behind};
ghost use Rattle.cm_synopsis.specs.declared.kinds.LineKind.TheVariants as kinds;
ghost use Rattle.cm_synopsis.specs.Commands.{command_of};
ghost use Rattle.cm_synopsis.specs.Sayings.{command_line, help_line, helped, is_print, is_taken, list_by, list_named, list_of, names_after, next_keyword, path_names, prompt_of, saying_by, saying_of, told_help, unless_taken, unless_there, word_name};

use crate::bytes::blank_run;
use crate::command::{part_count, read_command};
use crate::cut::{rest_of, word_text, words};
use crate::fault::Fault;
use crate::field::known_kind;
use crate::help::{help_fault, help_text, without_end};
use crate::kinds::line_kind;
use crate::line::{HELP_WORD_LIMIT, KeywordHelp, LIST_LIMIT, NameList, Saying};
use crate::reason::Reason;
use crate::short::{name_of, short_name};
use crate::{LineKind, Word};
use cm_text::{NAME_LIMIT, Name, equals};
use std::alloc::{AllocError, Global};

// Whether a prompt may have a byte.
#[tactic(auto, unfolding(crate::specs::Sayings::is_print))]
fn is_print(byte: u8) -> bool
    ensures { result ≡ is_print byte }
{
    matches!(byte, b' '..=b'~')
}

fn print_count(bytes: &[u8]) -> usize
    ensures value { result ≡ prefix_len is_print bytes.now }
    ensures within { result ≤ length bytes.now }
{
    bytes.iter().take_while(|byte| is_print(**byte)).count()
}

fn is_print_text(text: &[u8]) -> bool
    ensures { result ≡ list_all is_print text.now }
{
    text.iter().all(|byte| is_print(*byte))
}

// The end of a line from a place on, without the blanks in front.
fn behind(line: &[u8], at: usize) -> &[u8]
    ensures value { result.now ≡ behind line.now at }
    ensures within { length result.now ≤ length line.now }
{
    let rest = rest_of(line, at);
    rest.split_at(blank_run(rest)).1
}

// The prompt that the end of a line is.
#[tactic(auto, using(crate::proofs::Ascii::print_ascii))]
fn prompt_of(line: &[u8], from: &[u8]) -> Result<Saying, Fault>
    requires { length from.now ≤ length line.now }
    ensures { result ≡ prompt_of line.now from.now }
{
    let text = without_end(from);
    if text.is_empty() {
        return Err(Fault {
            place: line.len(),
            reason: Reason::NoName,
        });
    }
    if !is_print_text(text) {
        return Err(Fault {
            place: line.len() - (from.len() - print_count(from)),
            reason: Reason::BadByte,
        });
    }
    if text.len() > NAME_LIMIT {
        return Err(Fault {
            place: line.len() - from.len(),
            reason: Reason::LongWord,
        });
    }
    Ok(Saying::Prompt(short_name(text)))
}

// The name that a word of a line is.
fn word_name(line: &[u8], word: Word) -> Result<Name, Fault>
    ensures { result ≡ word_name line.now word }
{
    match name_of(word_text(line, word)) {
        Ok(name) => Ok(name),
        Err(reason) => Err(Fault {
            place: word.start,
            reason,
        }),
    }
}

// Whether one of some names is another, with no regard to the case of letters.
fn has_equal(names: &[Name], name: &Name) -> bool
    ensures { result ≡ list_any (λ other. equals other name.now) names.now }
{
    names
        .iter()
        .any(|other| equals(other.as_bytes(), name.as_bytes()))
}

// A name, where none of these is the same.
fn unless_there(place: usize, names: &[Name], name: Name) -> Result<Name, Fault>
    ensures { result ≡ unless_there place names.now name }
{
    if has_equal(names, &name) {
        return Err(Fault {
            place,
            reason: Reason::SameName,
        });
    }
    Ok(name)
}

// The next name of a list that has these.
fn next_name(line: &[u8], names: &[Name], word: Word) -> Result<Name, Fault>
    ensures { result ≡ and_then (unless_there word.start names.now) (word_name line.now word) }
{
    match word_name(line, word) {
        Ok(name) => unless_there(word.start, names, name),
        Err(fault) => Err(fault),
    }
}

// The names that words are.
fn names_of(
    alloc: Global,
    line: &[u8],
    words: &[Word],
) -> Result<Result<Vec<Name>, Fault>, AllocError>
    ensures { IfOk result (λ read. MatchResult read
        (λ names. names_after line.now [] words.now ≡ Ok names.items)
        (λ fault. names_after line.now [] words.now ≡ Err fault)) }
{
    let mut names = Vec::new(alloc);
    for word in words {
        match next_name(line, &names, *word) {
            Ok(name) => names.push(name)?,
            Err(fault) => return Ok(Err(fault)),
        }
    }
    Ok(Ok(names))
}

// Whether one of some names is another, byte for byte.
fn has_name(names: &[Name], name: &Name) -> bool
    ensures { result ≡ list_any (λ other. bytes_eq other name.now) names.now }
{
    names
        .iter()
        .any(|other| other.as_bytes() == name.as_bytes())
}

// Whether no list can have a name.
fn is_taken(lists: &[Name], name: &Name) -> bool
    ensures { result ≡ is_taken lists.now name.now }
{
    known_kind(name.as_bytes()).is_some() || has_name(lists, name)
}

// The name of a list that a word is, where it can have it.
fn list_name(lists: &[Name], line: &[u8], word: Word) -> Result<Name, Fault>
    ensures { result ≡ and_then (unless_taken word.start lists.now) (word_name line.now word) }
{
    let name = word_name(line, word)?;
    if is_taken(lists, &name) {
        return Err(Fault {
            place: word.start,
            reason: Reason::SameList,
        });
    }
    Ok(name)
}

// The list with a name that words tell.
fn list_named(
    alloc: Global,
    line: &[u8],
    words: &[Word],
    name: Name,
) -> Result<Result<Saying, Fault>, AllocError>
    ensures { IfOk result (λ read. read ≡ list_named line.now words.now name) }
{
    match names_of(alloc, line, words)? {
        Ok(names) => Ok(Ok(Saying::Listing(name, NameList::new(names)))),
        Err(fault) => Ok(Err(fault)),
    }
}

// The list that words tell, of which the name is one.
fn list_by(
    alloc: Global,
    lists: &[Name],
    line: &[u8],
    words: &[Word],
    name: Option<Word>,
) -> Result<Result<Saying, Fault>, AllocError>
    ensures { IfOk result (λ read. read ≡ list_by lists.now line.now words.now name) }
{
    let Some(word) = name else {
        return Ok(Err(Fault {
            place: line.len(),
            reason: Reason::NoName,
        }));
    };
    match list_name(lists, line, word) {
        Ok(name) => list_named(alloc, line, words, name),
        Err(fault) => Ok(Err(fault)),
    }
}

// The list that a line with these words tells.
fn list_of(
    alloc: Global,
    lists: &[Name],
    line: &[u8],
    all: &[Word],
) -> Result<Result<Saying, Fault>, AllocError>
    ensures { IfOk result (λ read. read ≡ list_of lists.now line.now all.now) }
{
    if lists.len() >= LIST_LIMIT {
        return Ok(Err(Fault {
            place: 0,
            reason: Reason::ManyLists,
        }));
    }
    let more = all.split_at(all.len().min(2)).1;
    list_by(alloc, lists, line, more, all.get(1).copied())
}

// The next keyword of a path that has so many.
fn next_keyword(line: &[u8], count: usize, word: Word) -> Result<Name, Fault>
    ensures { result ≡ next_keyword line.now count word }
{
    if count >= HELP_WORD_LIMIT {
        return Err(Fault {
            place: word.start,
            reason: Reason::ManyWords,
        });
    }
    word_name(line, word)
}

// The keywords that words are.
fn path_names(
    alloc: Global,
    line: &[u8],
    words: &[Word],
) -> Result<Result<Vec<Name>, Fault>, AllocError>
    ensures { IfOk result (λ read. MatchResult read
        (λ names. path_names line.now [] words.now ≡ Ok names.items)
        (λ fault. path_names line.now [] words.now ≡ Err fault)) }
{
    let mut names = Vec::new(alloc);
    for word in words {
        match next_keyword(line, names.len(), *word) {
            Ok(name) => names.push(name)?,
            Err(fault) => return Ok(Err(fault)),
        }
    }
    Ok(Ok(names))
}

// The help behind two hyphens, which are there.
fn told_help(
    alloc: Global,
    line: &[u8],
    dashes: Option<Word>,
) -> Result<Result<Vec<u8>, Fault>, AllocError>
    ensures { IfOk result (λ read. MatchResult read
        (λ help. told_help line.now dashes ≡ Ok help.items) (λ fault. told_help line.now dashes ≡ Err fault)) }
{
    if dashes.is_none() {
        return Ok(Err(Fault {
            place: line.len(),
            reason: Reason::NoHelp,
        }));
    }
    if let Some(fault) = help_fault(line, dashes) {
        return Ok(Err(fault));
    }
    Ok(Ok(help_text(line, dashes).to_vec(alloc)?))
}

// The help of the last of these keywords.
fn helped(
    alloc: Global,
    line: &[u8],
    dashes: Option<Word>,
    path: Vec<Name>,
) -> Result<Result<Saying, Fault>, AllocError>
    ensures { IfOk result (λ read. read ≡ helped line.now dashes path.items) }
{
    if path.is_empty() {
        return Ok(Err(Fault {
            place: line.len(),
            reason: Reason::NoName,
        }));
    }
    match told_help(alloc, line, dashes)? {
        Ok(text) => Ok(Ok(Saying::Help(KeywordHelp::new(path, text)))),
        Err(fault) => Ok(Err(fault)),
    }
}

// The words behind the first.
fn behind_first(words: &[Word]) -> &[Word]
    ensures { result.now ≡ drop 1 words.now }
{
    match words {
        [] => &[],
        [_, more @ ..] => more,
    }
}

// The help that a line tells, whose keywords are so many words but the first.
fn help_line(
    alloc: Global,
    line: &[u8],
    all: &[Word],
    count: usize,
) -> Result<Result<Saying, Fault>, AllocError>
    requires { count ≤ length all.now }
    ensures { IfOk result (λ read. read ≡ help_line line.now all.now count) }
{
    match path_names(alloc, line, behind_first(all.split_at(count).0))? {
        Ok(path) => helped(alloc, line, all.get(count).copied(), path),
        Err(fault) => Ok(Err(fault)),
    }
}

// The command that a line tells.
fn command_line(
    alloc: Global,
    lists: &[Name],
    line: &[u8],
) -> Result<Result<Saying, Fault>, AllocError>
    ensures { IfOk result (λ read. read ≡ command_line (command_of lists.now line.now)) }
{
    match read_command(alloc, lists, line)? {
        Ok(command) => Ok(Ok(Saying::Command(command))),
        Err(fault) => Ok(Err(fault)),
    }
}

// The prompt that a line tells, where none stands above.
fn prompt_line(prompted: bool, line: &[u8]) -> Result<Saying, Fault>
    ensures { result ≡ saying_by kinds.Prompt [] prompted line.now }
{
    if prompted {
        return Err(Fault {
            place: 0,
            reason: Reason::SecondPrompt,
        });
    }
    prompt_of(line, behind(line, 6))
}

// What a line says, under the lists that stand above, and behind a prompt or not.
#[tactic(auto, unfolding(crate::specs::Sayings::saying_of))]
pub(crate) fn saying_of(
    alloc: Global,
    lists: &[Name],
    prompted: bool,
    line: &[u8],
) -> Result<Result<Saying, Fault>, AllocError>
    ensures { IfOk result (λ read. read ≡ saying_of lists.now prompted line.now) }
{
    match line_kind(line) {
        LineKind::Prompt => Ok(prompt_line(prompted, line)),
        LineKind::Names => list_of(alloc, lists, line, &words(alloc, line)?),
        LineKind::Help => {
            let all = words(alloc, line)?;
            help_line(alloc, line, &all, part_count(line, &all))
        }
        LineKind::Command => command_line(alloc, lists, line),
        LineKind::Empty | LineKind::Remark => Ok(Ok(Saying::Nothing)),
    }
}
