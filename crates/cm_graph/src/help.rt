// The help of a keyword.
ghost use Rattle.std.specs.Prelude.{◌≡◌, ◌+◌, ◌<◌, ◌^◌, None, true};
ghost use Rattle.cm_graph.specs.Helps.{bad_help, depth_after, help_at, is_help, keyword_after, last_keyword};

use cm_synopsis::{Command, Part};
use cm_text::{NAME_LIMIT, Name, is_shown};
use std::str;

// How many brackets are open behind a part.
fn depth_after(depth: usize, part: &Part) -> usize
    requires { depth + 1 < 2 ^ 64 }
    ensures { result ≡ depth_after depth part.now }
{
    match part {
        Part::Open(_) => depth + 1,
        Part::Close(_) => depth.saturating_sub(1),
        _ => depth,
    }
}

fn keyword_after(place: usize, depth: usize, found: Option<usize>, part: &Part) -> Option<usize>
    ensures { result ≡ keyword_after place depth found part.now }
{
    match part {
        Part::Keyword(_) if depth == 0 => Some(place),
        _ => found,
    }
}

// The place of the last keyword outside brackets.
fn last_keyword(parts: &[Part]) -> Option<usize>
    ensures { result ≡ last_keyword 0 0 None parts.now }
{
    let mut depth = 0;
    let mut found = None;
    for place in 0..parts.len() {
        found = keyword_after(place, depth, found, &parts[place]);
        depth = depth_after(depth, &parts[place]);
    }
    found
}

// Whether a table takes a help.
fn is_help(help: &[u8]) -> bool
    ensures { result ≡ is_help help.now }
{
    !help.is_empty() && help.len() <= NAME_LIMIT && is_shown(help)
}

// The help as a name.
#[tactic(auto, using(crate::proofs::Shown::help_ascii, cm_lists::proofs::Ascii::text_of_ascii))]
fn help_name(help: &[u8]) -> Name
    requires { is_help help.now ≡ true }
    ensures { result ≡ help.now }
{
    match str::from_utf8(help) {
        Ok(text) => Name::new(text),
        Err(_) => unreachable!(),
    }
}

// The help of the part at a place of a command.
pub(crate) fn help_at(command: &Command, place: usize) -> Option<Name>
    ensures { result ≡ help_at command.now place }
{
    if last_keyword(&command.parts) == Some(place) && is_help(&command.help) {
        return Some(help_name(&command.help));
    }
    None
}

// The number of the first command whose help no table takes.
pub(crate) fn bad_help(commands: &[Command]) -> Option<usize>
    ensures { result ≡ bad_help 0 commands.now }
{
    for number in 0..commands.len() {
        let command = &commands[number];
        if !command.help.is_empty() && !is_help(&command.help) {
            return Some(number);
        }
    }
    None
}
