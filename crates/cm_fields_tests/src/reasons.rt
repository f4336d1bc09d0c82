// Reasons of an application's own, by example.
use crate::cases::{is_wanted, number, part};
use cm_fields::{Code, OWN_NUMBER, Reason};
use std::alloc::Global;
use std::process::Abort;
use std::test::Fail;

// A number and a text, and the number and the text of the code that they make. The texts of digits have 39 and 40
// bytes.
const REASONS: &str = "\
128|No such lamp|128 No such lamp
127|No such lamp|None
0|No such lamp|None
255|No such lamp|255 No such lamp
128||None
128|~|128 ~
128| |128  
200|123456789012345678901234567890123456789|200 123456789012345678901234567890123456789
200|1234567890123456789012345678901234567890|None
128|No such\tlamp|None
128|No such\x1flamp|None
128|No such\x7flamp|None
128|No such l\u{e4}mp|None";

fn makes_a_code(rt: &impl Abort, alloc: Global, case: &str) -> Result<(), Fail> {
    let number = number(rt, part(rt, case, 0));
    assert!(rt; number <= 255, "{case}");
    let told = match Reason::new(number as u8, part(rt, case, 1)) {
        Some(reason) => contents_of(alloc, Code::Own(reason))?,
        None => format!(in alloc; "None")?,
    };
    is_wanted(rt, case, told.as_str());
    Ok(())
}

fn contents_of(alloc: Global, code: Code) -> Result<String, Fail> {
    Ok(format!(in alloc; "{} {}", code.number(), code.text())?)
}

#[test]
fn a_reason_has_a_number_and_a_text_that_a_screen_may_show(rt: HostRuntime) -> Result<(), Fail> {
    for case in REASONS.lines() {
        makes_a_code(&rt, rt.alloc(), case)?;
    }
    Ok(())
}

#[test]
#[tactic(auto, unfolding(cm_fields::specs::Reason::is_reason, cm_fields::specs::Reason::is_reason_text))]
fn reasons_are_compared_by_number_and_text(rt: HostRuntime) -> Result<(), Fail> {
    let reason = Reason::of(OWN_NUMBER, "No such lamp");
    assert!(rt; Some(reason) == Reason::new(128, "No such lamp"));
    assert!(rt; reason != Reason::of(129, "No such lamp"));
    assert!(rt; reason != Reason::of(128, "No such lam"));
    assert!(rt; Code::Own(reason) != Code::Rejected);
    let told = format!(in rt.alloc(); "{reason:?}")?;
    assert_eq!(rt;
        told.as_str(),
        "Reason { number: 128, text: \"No such lamp\" }"
    );
    Ok(())
}
