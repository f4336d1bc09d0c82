// Places and names by their texts.
ghost use Rattle.std.specs.Prelude.{◌≡◌};

use cm_fields::Span;
use cm_files::{Flags, part, read_spec};
use cm_text::{LINE_LIMIT, NAME_LIMIT, Name};
use ex_store::Place;
use std::process::Abort;

// All generations, where none is given.
const EACH: Flags = Flags {
    wild: true,
    all_generations: true,
    deleted: false,
    default_all: false,
    from_source: false,
    new: false,
};

// Files that are marked as deleted.
const DELETED: Flags = Flags {
    wild: true,
    all_generations: false,
    deleted: true,
    default_all: false,
    from_source: false,
    new: false,
};

pub(super) fn name(rt: &impl Abort, text: &str) -> Name
    ensures { result ≡ text.now }
{
    assert!(rt; text.len() <= NAME_LIMIT, "{text} is too long");
    Name::new(text)
}

// The part of a text, as a name.
fn name_in(rt: &impl Abort, text: &str, place: Span) -> Name {
    assert!(rt; place.start <= place.end && usize::from(place.end) <= text.len());
    let mut name = Name::new("");
    for byte in part(text.as_bytes(), place) {
        assert!(rt; *byte < 128, "{text} is no name");
        assert!(rt; name.push(*byte), "{text} is too long");
    }
    name
}

fn part_in(rt: &impl Abort, text: &str, place: Option<Span>) -> Option<Name> {
    match place {
        Some(place) => Some(name_in(rt, text, place)),
        None => None,
    }
}

// The files of a specification, in OPERATOR where no directory is given.
fn place_with(rt: &impl Abort, text: &str, flags: Flags) -> Place {
    assert!(rt; text.len() <= LINE_LIMIT, "{text} is too long");
    let spec = read_spec(text.as_bytes()).expect(rt, "a specification");
    let directory = match spec.directory {
        Some(place) => name_in(rt, text, place),
        None => Name::new("OPERATOR"),
    };
    Place {
        directory,
        name: part_in(rt, text, spec.name),
        kind: part_in(rt, text, spec.kind),
        generation: spec.generation,
        flags,
    }
}

/// The files of a specification: after `each:` all generations where none is given, and after `deleted:` those that
/// are marked as deleted.
pub(super) fn place(rt: &impl Abort, text: &str) -> Place {
    match text.split_once(':') {
        Some(("each", text)) => place_with(rt, text, EACH),
        Some((_, text)) => place_with(rt, text, DELETED),
        None => place_with(rt, text, Flags::default()),
    }
}
