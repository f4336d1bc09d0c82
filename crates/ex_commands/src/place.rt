// What the fields of a line name: files, directories and names.
ghost use Rattle.std.specs.Prelude.{◌≡◌, ◌≤◌, ◌+◌, option_copied};
ghost use Rattle.std.specs.Option.{option_map};
ghost use Rattle.std.specs.Str.{IsAscii};
ghost use Rattle.cm_text.specs.declared.name.TheConstants.{NAME_LIMIT};
ghost use Rattle.ex_commands.specs.Line.{block_of, directory_by, directory_name, flags_of, place_by, upper};
ghost use Rattle.ex_commands.specs.NameParts.{IsSaid, IsShort};

use cm_blocks::{Block, Field, Grammar, Node};
use cm_fields::{Span, Value};
use cm_files::{Flags, Names};
use cm_state::{node_of, part};
use cm_text::Name;
use ex_store::Place;

// The block that took it.
fn block_of<'a>(field: &Field, grammar: &'a Grammar) -> Option<&'a Block>
    ensures { option_copied result ≡ block_of grammar.now field.now }
{
    match node_of(field, grammar) {
        Some(node) => node.chain.as_slice().get(usize::from(field.block())),
        None => None,
    }
}

// The flags under which a field was read.
pub(crate) fn flags_of(field: &Field, grammar: &Grammar) -> Flags
    ensures { result ≡ flags_of grammar.now field.now }
{
    match block_of(field, grammar) {
        Some(block) => block.flags,
        None => Flags::default(),
    }
}

// A part of a text, in upper case.
#[tactic(auto, using(cm_lists::proofs::Ascii::up_more, cm_lists::proofs::Ascii::up_all, std::proofs::lemmas::Str::Ascii::uppercase_ascii, crate::proofs::Uppercase::part_within))]
pub(crate) fn upper(text: &[u8], place: Span) -> Name
    requires ascii { IsAscii text.now }
    requires short { place.end ≤ place.start + NAME_LIMIT }
    ensures { result ≡ upper text.now place }
{
    let mut name = Name::new("");
    for byte in part(text, place) {
        name.push(byte.to_ascii_uppercase());
    }
    name
}

// The same of a part that may not be given.
fn upper_or_none(text: &[u8], place: Option<Span>) -> Option<Name>
    requires ascii { IsAscii text.now }
    requires short { IsShort place }
    ensures { result ≡ option_map (upper text.now) place }
{
    match place {
        Some(place) => Some(upper(text, place)),
        None => None,
    }
}

/// The name of the directory with this number.
pub fn directory_name<N: Names>(names: &N, number: u16) -> Name
    ensures { result ≡ directory_name (N.catalogue names.now) number }
{
    if number < names.directories() {
        Name::new(names.directory(number))
    } else {
        Name::new("")
    }
}

/// The files that a value means: those of the directory that it was resolved to.
pub fn place_by<N: Names>(names: &N, flags: Flags, text: &[u8], value: &Value) -> Option<Place>
    requires ascii { IsAscii text.now }
    requires said { IsSaid value.now }
    ensures { result ≡ place_by (N.catalogue names.now) flags text.now value.now }
{
    match value {
        Value::File {
            spec,
            directory,
            ..
        } => Some(Place {
            directory: directory_name(names, *directory),
            name: upper_or_none(text, spec.name),
            kind: upper_or_none(text, spec.kind),
            generation: spec.generation,
            flags,
        }),
        _ => None,
    }
}

// The directory that a value names.
pub(crate) fn directory_by<N: Names>(names: &N, text: &[u8], value: &Value) -> Option<Name>
    requires ascii { IsAscii text.now }
    requires said { IsSaid value.now }
    ensures { result ≡ directory_by (N.catalogue names.now) text.now value.now }
{
    match value {
        Value::User(directory) => Some(directory_name(names, *directory)),
        Value::Directory(directory) => Some(directory_name(names, *directory)),
        Value::NewDirectory(place) => Some(upper(text, *place)),
        _ => None,
    }
}
