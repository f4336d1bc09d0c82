// Cases of tests, each a line: what goes in, a tilde, and what is wanted.
use std::process::Abort;

// What goes in.
pub(crate) fn given<'a>(rt: &impl Abort, case: &'a str) -> &'a str {
    match case.split_once('~') {
        Some((given, _)) => given,
        None => panic!(rt; "no tilde in {case}"),
    }
}

// What is after the tilde is what was found.
pub(crate) fn is_wanted(rt: &impl Abort, case: &str, found: &str) {
    assert_eq!(rt; case.split('~').last(), Some(found), "{case}");
}
