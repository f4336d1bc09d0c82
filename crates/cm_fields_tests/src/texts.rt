// Classes of bytes, and texts compared.
use crate::cases::{is_wanted, number, part};
use cm_text::{begins_with, common_len, equals, is_blank, is_name, is_shown, is_text, is_word};
use std::alloc::Global;
use std::process::Abort;
use std::test::Fail;

// Whether each byte is a text byte, a word byte, a name byte and a blank.
const CLASSES: &str = "\
9|true false false true
32|true false false true
33|true false false false
36|true false true false
45|true true true false
46|true false false false
47|true false false false
48|true true true false
57|true true true false
58|true false false false
62|true false false false
63|false false false false
64|true false false false
65|true true true false
90|true true true false
91|true false false false
95|true false true false
96|true false false false
97|true true true false
122|true true true false
123|true false false false
126|true false false false
0|false false false false
8|false false false false
10|false false false true
13|false false false false
31|false false false false
127|false false false false
128|false false false false
255|false false false false";

fn has_its_classes(rt: &impl Abort, alloc: Global, case: &str) -> Result<(), Fail> {
    let byte = number(rt, part(rt, case, 0));
    assert!(rt; byte < 256);
    let byte = byte as u8;
    let (text, word) = (is_text(byte), is_word(byte));
    let (name, blank) = (is_name(byte), is_blank(byte));
    is_wanted(
        rt,
        case,
        format!(in alloc; "{text} {word} {name} {blank}")?.as_str(),
    );
    Ok(())
}

#[test]
fn each_byte_has_its_classes(rt: HostRuntime) -> Result<(), Fail> {
    for case in CLASSES.lines() {
        has_its_classes(&rt, rt.alloc(), case)?;
    }
    Ok(())
}

// Whether the first is the second, and whether it begins with it. `@` and a grave accent, `[` and `{`, and a hyphen and
// CR differ as a letter's two cases do.
const PAIRS: &str = "\
||true true
A||false true
|A|false false
Directory|dIRECTORY|true true
DIRECTORY|dir|false true
dir|DIRECTORY|false false
DIRECTORY|DIX|false false
LOGIN|LOGON|false false
A-1|a-1|true true
A@|A`|false false
A[|A{|false false
A-|A\r|false false";

fn compares(rt: &impl Abort, alloc: Global, case: &str) -> Result<(), Fail> {
    let text = part(rt, case, 0).as_bytes();
    let other = part(rt, case, 1).as_bytes();
    let (equal, begins) = (equals(text, other), begins_with(text, other));
    is_wanted(rt, case, format!(in alloc; "{equal} {begins}")?.as_str());
    Ok(())
}

#[test]
fn case_means_nothing(rt: HostRuntime) -> Result<(), Fail> {
    for case in PAIRS.lines() {
        compares(&rt, rt.alloc(), case)?;
    }
    Ok(())
}

// How many bytes the two begin with alike. What is alike after a difference does not count.
const BEGINNINGS: &str = "\
||0
|LOGIN|0
LOGIN||0
LOGIN|LOGOUT|3
LOG|LOGOUT|3
LOGOUT|LOG|3
LOGIN|LOGIN|5
LOGIN|Login|1
ABLE|BAKER|0
A-1|A+1|1
A-NAME-OF-THIRTY-NINE-BYTES-IN-LENGTH-1|A-NAME-OF-THIRTY-NINE-BYTES-IN-LENGTH-1|39";

#[test]
fn counts_what_is_alike(rt: HostRuntime) {
    for case in BEGINNINGS.lines() {
        let size = common_len(part(&rt, case, 0).as_bytes(), part(&rt, case, 1).as_bytes());
        assert_eq!(rt;
            size,
            usize::from(number(&rt, part(&rt, case, 2))),
            "{case}"
        );
    }
}

// Whether a text is shown as it is.
const TEXTS: &str = "\
|true
how bright, 0 to 100|true
 >@~|true
?|false
a?b|false
\tb|false
a\x1f|false
\x7f|false
\u{e9}|false";

#[test]
fn a_text_is_shown_as_it_is(rt: HostRuntime) -> Result<(), Fail> {
    let alloc = rt.alloc();
    for case in TEXTS.lines() {
        let shown = is_shown(part(&rt, case, 0).as_bytes());
        is_wanted(&rt, case, format!(in alloc; "{shown}")?.as_str());
    }
    Ok(())
}
