// What a catalogue tells, to a generic caller.

use crate::cases::{Subject, debug_text, hold, numbered};
use crate::sample::Sample;
use cm_files::{Names, OneDirectory};
use std::alloc::Global;
use std::test::Fail;

// How many directories there are, the name of the one with a number, and its row with a number.
#[derive(Drop)]
struct Rows<'a, N>(&'a N);

impl<'a, N: Names> Subject for Rows<'a, N> {
    fn answer(&self, alloc: Global, given: &str) -> Result<String, Fail> {
        let (directory, rest) = numbered(given)?;
        let i = rest.parse::<u32>()?;
        if directory >= self.0.directories() {
            return Err(Fail::new("no such directory"));
        }
        let row = if i < self.0.rows(directory) {
            Some(self.0.row(directory, i))
        } else {
            None
        };
        debug_text(
            alloc,
            &(self.0.directories(), self.0.directory(directory), row),
        )
    }
}

// The directory that a logical name stands for, and the one that is connected.
#[derive(Drop)]
struct LogicalNames<'a, N>(&'a N);

impl<'a, N: Names> Subject for LogicalNames<'a, N> {
    fn answer(&self, alloc: Global, given: &str) -> Result<String, Fail> {
        debug_text(
            alloc,
            &(self.0.logical(given.as_bytes()), self.0.connected()),
        )
    }
}

const ROWS: &str = "\
    0 0 => (2, \"OPERATOR\", Some(Row { name: \"A\", kind: \"FOR\", generation: 1, deleted: false }))\n\
    0 1 => (2, \"OPERATOR\", Some(Row { name: \"A\", kind: \"FOR\", generation: 2, deleted: true }))\n\
    0 2 => (2, \"OPERATOR\", Some(Row { name: \"AB\", kind: \"TXT\", generation: 1, deleted: false }))\n\
    0 3 => (2, \"OPERATOR\", None)\n\
    1 0 => (2, \"SMITH\", Some(Row { name: \"HELLO\", kind: \"\", generation: 7, deleted: false }))\n\
    1 1 => (2, \"SMITH\", None)";

const LOGICAL: &str = "SYS => (Some(1), 0)
sys => (Some(1), 0)
SY => (None, 0)
SYST => (None, 0)
 => (None, 0)";

#[test]
fn a_catalogue_is_told_call_by_call(rt: HostRuntime) -> Result<(), Fail> {
    hold(rt.alloc(), &Rows(&Sample), ROWS)?;
    hold(rt.alloc(), &LogicalNames(&Sample), LOGICAL)
}

#[test]
#[tactic(auto, unfolding(cm_text::specs::Bytes::is_name, cm_text::specs::Bytes::is_word))]
fn is_one_directory_and_no_more(rt: HostRuntime) -> Result<(), Fail> {
    let one = OneDirectory::new("LAMPS.UP-1");
    hold(rt.alloc(), &Rows(&one), "0 0 => (1, \"LAMPS.UP-1\", None)")?;
    hold(rt.alloc(), &LogicalNames(&one), "LAMPS.UP-1 => (None, 0)")
}
