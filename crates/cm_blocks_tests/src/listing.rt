// The walk over what is selected, and how many files it looks at.
ghost use Rattle.std.specs.Prelude.{◌≤◌};
ghost use Rattle.cm_files.specs.declared.generation.TheConstants.{GENERATION_LIMIT};

use crate::cases::{Subject, debug_text, hold, numbered};
use crate::many::Many;
use crate::sample::Sample;
use cm_fields::Gen;
use cm_files::{Names, Sought, read_spec, select, selects};
use cm_text::LINE_LIMIT;
use std::alloc::Global;
use std::cell::Cell;
use std::test::Fail;

// All names and types, of the generation that a file specification says; after a word, those that are marked deleted.
fn sought(given: &str) -> Result<Sought<'static>, Fail> {
    let (deleted, spec) = match given.strip_prefix("deleted ") {
        Some(spec) => (true, spec),
        None => (false, given),
    };
    if spec.len() > LINE_LIMIT {
        return Err(Fail::new("a text is too long"));
    }
    Ok(Sought {
        name: Some(b"*"),
        kind: b"*",
        generation: read_spec(spec.as_bytes())?.generation,
        all_generations: false,
        deleted,
    })
}

// How many files of the connected directory are selected, one found after the other.
fn listed<N: Names>(names: &N, sought: &Sought<'_>) -> u32 {
    let directory = names.connected();
    let mut from = 0;
    for found in 0..=names.rows(directory) {
        match select(names, directory, sought, from) {
            Some(i) => from = i.saturating_add(1),
            None => return found,
        }
    }
    names.rows(directory)
}

// How many files are listed of so many generations, and how many looks that takes.
fn looks(count: u32, is_last: bool, sought: &Sought<'_>) -> (u32, u32)
    requires { count ≤ GENERATION_LIMIT }
{
    let unmarked = if is_last { count } else { 1 };
    let many = Many {
        count,
        unmarked,
        looked: Cell::new(0),
    };
    (listed(&many, sought), many.looked.get())
}

// How many are listed of 1,024 generations and of 4,096, of which the first or the last is not marked; and whether
// four times as many files take four times as many looks, at most five for each file.
struct Listings {
    is_last: bool,
}

impl Subject for Listings {
    fn answer(&self, alloc: Global, given: &str) -> Result<String, Fail> {
        let sought = sought(given)?;
        let (few, short) = looks(1024, self.is_last, &sought);
        let (more, long) = looks(4096, self.is_last, &sought);
        let are_few = u64::from(long) <= 4 * u64::from(short) + 16 && long <= 5 * 4096;
        debug_text(alloc, &(few, more, are_few))
    }
}

const LISTINGS: &str = "\
    deleted *.*.* => (1023, 4095, true)\n\
    deleted *.* => (1, 1, true)\n\
    deleted *.*.0 => (1, 1, true)\n\
    deleted *.*.-2 => (1, 1, true)\n\
    deleted *.*.2 => (1, 1, true)\n\
    deleted *.*.-1 => (0, 0, true)\n\
    *.*.0 => (1, 1, true)\n\
    *.*.-2 => (1, 1, true)\n\
    *.*.* => (1, 1, true)";

// All but one of the files are seen, or one alone, which is the first or the last.
#[test]
fn a_listing_takes_time_in_proportion(rt: HostRuntime) -> Result<(), Fail> {
    hold(rt.alloc(), &Listings { is_last: false }, LISTINGS)?;
    hold(rt.alloc(), &Listings { is_last: true }, LISTINGS)
}

// The next file that is selected, from a number on.
struct Next;

impl Subject for Next {
    fn answer(&self, alloc: Global, given: &str) -> Result<String, Fail> {
        let (from, rest) = numbered(given)?;
        debug_text(alloc, &select(&Sample, 0, &sought(rest)?, u32::from(from)))
    }
}

const NEXT: &str = "\
    0 *.* => Some(0)\n\
    1 *.* => Some(2)\n\
    3 *.* => None\n\
    0 deleted *.* => Some(1)\n\
    0 *.*.2 => None\n\
    0 *.*.-1 => None\n\
    1 *.*.* => Some(2)";

#[test]
fn the_next_file_that_is_selected(rt: HostRuntime) -> Result<(), Fail> {
    assert!(rt; selects(&Sample, 1, &sought("*.*.-2")?));
    hold(rt.alloc(), &Next, NEXT)
}

#[test]
fn no_name_selects_no_file(rt: HostRuntime) {
    let none = Sought {
        name: None,
        kind: b"*",
        generation: Gen::All,
        all_generations: false,
        deleted: false,
    };
    assert!(rt; !selects(&Sample, 0, &none));
    assert_eq!(rt; select(&Sample, 0, &none, 0), None);
}
