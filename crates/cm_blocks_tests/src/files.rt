// Files by example.

use crate::cases::{Subject, debug_text, hold, place_of, text_of};
use crate::sample::Sample;
use cm_fields::{Code, FileKind, Try, Value};
use cm_files::{Flags, file};
use std::alloc::Global;
use std::test::Fail;

// The flags that are named.
pub(crate) fn flags_of(words: &str) -> Flags {
    Flags {
        wild: words.contains("wild"),
        all_generations: words.contains("all_generations"),
        deleted: words.contains("deleted"),
        default_all: words.contains("default_all"),
        from_source: words.contains("from_source"),
        new: words.contains("new"),
    }
}

// What a file is wanted for.
fn kind_of(words: &str) -> FileKind {
    if words.starts_with("in") {
        FileKind::In
    } else if words.starts_with("out") {
        FileKind::Out
    } else {
        FileKind::Any
    }
}

// The directory that a file means, or why it is refused; how many bytes decide, and where it ends.
fn meant(tried: Try) -> Option<(Result<u16, Code>, u16, Option<u16>)> {
    match tried {
        Try::Accept {
            value: Value::File { directory, .. },
            looked,
            end,
        } => Some((Ok(directory), looked, Some(end))),
        Try::Refuse { code, looked } => Some((Err(code), looked, None)),
        _ => None,
    }
}

// What a file is wanted for and its flags are given first.
struct Files;

impl Subject for Files {
    fn answer(&self, alloc: Global, given: &str) -> Result<String, Fail> {
        let (words, text) = given.split_once('|').ok_or("flags are given first")?;
        let tried = file(kind_of(words), flags_of(words), &Sample, text_of(text)?, 0);
        let (meant, looked, end) = meant(tried).ok_or("a file is not decided")?;
        debug_text(alloc, &(meant, looked, end))
    }
}

// All of what is said of a file.
struct Whole;

impl Subject for Whole {
    fn answer(&self, alloc: Global, given: &str) -> Result<String, Fail> {
        let given = place_of(given)?;
        let tried = file(
            FileKind::In,
            Flags::default(),
            &Sample,
            given.text,
            given.at,
        );
        Ok(format!(in alloc; "{tried:?}")?)
    }
}

const READ: &str = "in|A.FOR\r => (Ok(0), 6, Some(5))
in|a.for  => (Ok(0), 6, Some(5))
in|A.FOR.1\r => (Ok(0), 8, Some(7))
in|A.FOR.0, => (Ok(0), 8, Some(7))
in|A.FOR.-2\r => (Ok(0), 9, Some(8))
in|PS:AB.TXT\r => (Ok(0), 10, Some(9))
in|dsk:AB.TXT\r => (Ok(0), 11, Some(10))
in|SYS:HELLO\r => (Ok(1), 10, Some(9))
in|sys:hello..7\r => (Ok(1), 13, Some(12))
in|<SMITH>HELLO.\r => (Ok(1), 14, Some(13))
in|<smith>hello\r => (Ok(1), 13, Some(12))
in|SYS:<OPERATOR>A.FOR\r => (Ok(0), 20, Some(19))
in|\r => (Err(SpecShape), 1, None)
in|A:B:C\r => (Err(SpecShape), 6, None)
in|<A\r => (Err(SpecShape), 3, None)
in|A-NAME-OF-FORTY-BYTES-IN-ITS-LENGTH-OF-1\r => (Err(NameLong), 41, None)
in|A.B.131072\r => (Err(GenRange), 11, None)
in|PS:\r => (Err(SpecShape), 4, None)
in|TTY:\r => (Err(SpecShape), 5, None)
in|A.FOR.-1\r => (Err(GenRange), 9, None)
in|<S*>A*.*.-1\r => (Err(GenRange), 12, None)
in|<S*>A\r => (Err(WildHere), 6, None)
in|TTY:A*\r => (Err(WildHere), 7, None)
in|A.F%\r => (Err(WildHere), 5, None)
in|A.FOR.*\r => (Err(WildHere), 8, None)
in|A.FOR.-3\r => (Err(WildHere), 9, None)
in|TTY:A\r => (Err(Device), 6, None)
in|tty:<NONE>A\r => (Err(Device), 12, None)
in|X:A\r => (Err(NoLogical), 4, None)
in|X:<SMITH>A\r => (Err(NoLogical), 11, None)
in|<NONE>A\r => (Err(NoDirectory), 8, None)
in|A\r => (Err(NoFile), 2, None)
in|A.FOR.2\r => (Err(NoFile), 8, None)
in|A.FOR.3\r => (Err(NoFile), 8, None)
in|HELLO\r => (Err(NoFile), 6, None)
in|SYS:A.FOR\r => (Err(NoFile), 10, None)";

#[test]
fn files_that_are_read(rt: HostRuntime) -> Result<(), Fail> {
    hold(rt.alloc(), &Files, READ)
}

const READ_BY_FLAGS: &str = "in wild|*.*\r => (Ok(0), 4, Some(3))
in wild|A%.*.*\r => (Ok(0), 7, Some(6))
in wild|*\r => (Err(NoFile), 2, None)
in wild|A*R\r => (Err(NoFile), 4, None)
in wild|<S*>*\r => (Err(WildHere), 6, None)
in wild deleted|A.FOR\r => (Ok(0), 6, Some(5))
in wild deleted|A.FOR.2\r => (Ok(0), 8, Some(7))
in wild deleted|A.FOR.1\r => (Err(NoFile), 8, None)
in wild deleted|AB.*\r => (Err(NoFile), 5, None)
in wild default_all|A\r => (Ok(0), 2, Some(1))
in wild default_all|A.\r => (Err(NoFile), 3, None)
in wild default_all|PS:\r => (Ok(0), 4, Some(3))
in wild default_all|SYS:\r => (Ok(1), 5, Some(4))
in wild default_all|TTY:\r => (Err(Device), 5, None)
in from_source|<SMITH>\r => (Err(NoFile), 8, None)
in from_source|<NONE>\r => (Err(NoDirectory), 7, None)";

#[test]
fn files_that_are_read_by_flags(rt: HostRuntime) -> Result<(), Fail> {
    hold(rt.alloc(), &Files, READ_BY_FLAGS)
}

const WRITTEN: &str = "out|NEW.FILE\r => (Ok(0), 9, Some(8))
out|SYS:NEW.FILE.-1\r => (Ok(1), 16, Some(15))
out|A.FOR.1\r => (Ok(0), 8, Some(7))
out|\r => (Err(SpecShape), 1, None)
out|PS:\r => (Err(SpecShape), 4, None)
out wild from_source|PS:\r => (Ok(0), 4, Some(3))
out|A.B.0\r => (Err(GenRange), 6, None)
out wild|A*.B.-2\r => (Err(GenRange), 8, None)
out|*.B\r => (Err(WildHere), 4, None)
out wild|*.B\r => (Ok(0), 4, Some(3))
out wild|*.*\r => (Ok(0), 4, Some(3))
out wild|A*.B\r => (Err(WildHere), 5, None)
out wild|A.%\r => (Err(WildHere), 4, None)
out wild|A.**\r => (Err(WildHere), 5, None)
out wild|A.B.*\r => (Err(WildHere), 6, None)
out wild|TTY:A\r => (Err(Device), 6, None)
out wild|X:A\r => (Err(NoLogical), 4, None)
out wild|<NONE>A\r => (Err(NoDirectory), 8, None)
any|NEW.FILE\r => (Ok(0), 9, Some(8))
any|A.B.0\r => (Ok(0), 6, Some(5))
any|A.B.-1\r => (Ok(0), 7, Some(6))
any|A.B.*\r => (Err(WildHere), 6, None)
any wild|A*.B.*\r => (Ok(0), 7, Some(6))";

// [file-field]
#[test]
fn files_that_are_written(rt: HostRuntime) -> Result<(), Fail> {
    hold(rt.alloc(), &Files, WRITTEN)
}

const WHOLE: &str = "\
    5 COPY SYS:<SMITH>HELLO..7\r => Accept { value: File { kind: In, spec: Spec { \
    device: Some(Span { start: 5, end: 8 }), directory: Some(Span { start: 10, end: 15 }), \
    name: Some(Span { start: 16, end: 21 }), kind: Some(Span { start: 22, end: 22 }), \
    generation: Number(7) }, directory: 1 }, looked: 20, end: 24 }\n\
    5 COPY SYS:<SMITH>HELLO..7 => More";

#[test]
fn parts_are_places_of_the_text(rt: HostRuntime) -> Result<(), Fail> {
    hold(rt.alloc(), &Whole, WHOLE)
}
