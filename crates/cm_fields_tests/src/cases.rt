// Cases of tests, each a line whose parts are between bars.
use std::process::Abort;

// The part of a case at a position.
pub(crate) fn part<'a>(rt: &impl Abort, case: &'a str, position: usize) -> &'a str {
    match case.split('|').nth(position) {
        Some(part) => part,
        None => panic!(rt; "no part {position} in {case}"),
    }
}

// The number that a text is.
pub(crate) fn number(rt: &impl Abort, text: &str) -> u16 {
    match text.parse() {
        Ok(number) => number,
        Err(_) => panic!(rt; "{text} is no number"),
    }
}

// The last part of a case is what was found.
pub(crate) fn is_wanted(rt: &impl Abort, case: &str, found: &str) {
    assert_eq!(rt; case.split('|').last(), Some(found), "{case}");
}
