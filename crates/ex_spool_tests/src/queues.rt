// Many copies, and many entries.
use crate::case::try_cases;
use std::alloc::{AllocError, Global};
use std::test::Fail;

// A case of 63 copies.
fn copies(alloc: Global) -> Result<String, AllocError> {
    let mut case = String::from_str(alloc, "queue Q OPERATOR A..1 63 NARROW - A {LF}")?;
    for copy in 1..64 {
        write!(
            case,
            "\nscreen {{SP}}JOB A{{EOL}} FILE <OPERATOR>A..1{{EOL}} FORM NARROW{{EOL}} COPY {copy} OF 63{{EOL}}{{FF}}\
HI{{EOL}}{{FF}}"
        )?;
    }
    Ok(case)
}

// A case of 64 entries, of which the odd ones are due.
fn entries(alloc: Global) -> Result<String, AllocError> {
    let mut case = String::from_str(alloc, "moment 86400")?;
    for number in 0..32 {
        write!(
            case,
            "\nqueue Q OPERATOR A..1 1 WIDE 2 N{number} {{LF}}Q OPERATOR A..1 1 NARROW 1 A {{LF}}\n\
left Q OPERATOR A..1 1 WIDE 2 N{number} {{LF}}\nscreen {{NARROW}}HI{{EOL}}{{FF}}"
        )?;
    }
    Ok(case)
}

// [printed-entry]
#[test]
fn all_copies_are_printed(rt: HostRuntime) -> Result<(), Fail> {
    try_cases(rt.alloc(), copies(rt.alloc())?.as_str())
}

#[test]
fn all_entries_are_looked_at(rt: HostRuntime) -> Result<(), Fail> {
    try_cases(rt.alloc(), entries(rt.alloc())?.as_str())
}
