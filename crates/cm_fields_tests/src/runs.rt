// Runs of the bytes of a set by example.
use crate::fields::{Trial, tries};
use cm_text::ByteSet;
use std::test::Fail;

// Digits, points and slashes.
const ADDRESSES: &str = "\
|0|More
10.0.0.1/8|0|More
10.0.0.1/8\r|0|Accept { value: Word(Span { start: 0, end: 10 }), looked: 11, end: 10 }
to 10.0.0.1/8 x|3|Accept { value: Word(Span { start: 3, end: 13 }), looked: 11, end: 13 }
10-8\r|0|Accept { value: Word(Span { start: 0, end: 2 }), looked: 3, end: 2 }
eth0.100\r|0|Refuse { code: NoField, looked: 1 }
\r|0|Refuse { code: NoField, looked: 1 }
 1\r|0|Refuse { code: NoField, looked: 1 }
1000000000000000000000000000000000000000\r|0|Accept { value: Word(Span { start: 0, end: 40 }), looked: 4\
1, end: 40 }
1000000000000000000000000000000000000000|0|More";

#[test]
fn takes_runs_of_a_set(rt: HostRuntime) -> Result<(), Fail> {
    tries(&rt, rt.alloc(), Trial::Address, ADDRESSES)
}

// Which bytes are in a set: those that were named, and each from the first to the last of a range.
#[test]
fn a_set_has_its_bytes(rt: HostRuntime) -> Result<(), Fail> {
    let set = ByteSet::of(b"/.")
        .with_range(b'0', b'9')
        .with_range(b'Z', b'A');
    let found = b"-./09:AZ\xaf"
        .iter()
        .filter(|byte| set.has(**byte))
        .count();
    assert_eq!(rt;
        (found, set.is_empty(), ByteSet::of(b"").is_empty()),
        (4, false, true)
    );
    Ok(())
}

// A word has letters, digits and `-`, a name also `$` and `_`.
#[test]
fn words_and_names_have_theirs(rt: HostRuntime) -> Result<(), Fail> {
    let words = (0..=255).filter(|byte| ByteSet::words().has(*byte)).count();
    let names = (0..=255).filter(|byte| ByteSet::names().has(*byte)).count();
    assert_eq!(rt; (words, names), (63, 65));
    Ok(())
}
