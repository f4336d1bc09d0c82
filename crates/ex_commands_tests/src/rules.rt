// The rules of the EXEC, alone.
use crate::bytes::{cut, number};
use cm_hooks::{Rules, Tail};
use ex_grammar::ExecRules;
use std::process::Abort;

// Each line has an atom, and what the rule says of it.
fn has_verdicts(rt: &(impl Abort + AllocGlobal), id: u8, cases: &str) {
    for case in cases.lines() {
        has_verdict(rt, id, case.trim_start());
    }
}

fn has_verdict(rt: &(impl Abort + AllocGlobal), id: u8, case: &str) {
    let (atom, wanted) = cut(case);
    assert!(rt; atom.len() <= 255);
    let answer = ExecRules.verdict(id, atom.as_bytes());
    let said = format!(in rt.alloc(); "{answer:?}").expect(rt, "memory");
    assert_eq!(rt; said.as_str(), wanted, "rule {id} at {atom}");
}

#[test]
fn logical_names_are_told(rt: HostRuntime) {
    let cases = "|No
        A|Yes(1)
        sys-1$_|Yes(7)
        1A|No
        -A|No
        A.B|No
        PS|No
        ps|No
        DSK|No
        tty|No
        TTYS|Yes(4)
        A234567890123456789012345678901234567-9|Yes(39)
        A234567890123456789012345678901234567-90|No";
    has_verdicts(&rt, 0, cases);
}

#[test]
fn forms_are_abbreviated(rt: HostRuntime) {
    let cases = "|No
        N|No
        NA|Yes(0)
        narrow|Yes(0)
        NARROWS|No
        nO|Yes(1)
        NORMAL|Yes(1)
        w|Yes(2)
        WIDE|Yes(2)
        IDE|No";
    has_verdicts(&rt, 1, cases);
}

#[test]
fn retention_counts_end_at_63(rt: HostRuntime) {
    let cases = "|No
        0|Yes(0)
        63|Yes(63)
        64|No
        00000000000000000000000063|Yes(63)
        18446744073709551616|No
        18446744073709551679|No
        1A|No
        -1|No
        +1|No";
    has_verdicts(&rt, 2, cases);
}

// What a completion adds, and whether the atom is whole with it.
fn shown(tail: &Tail) -> (&'static str, &str) {
    match tail {
        Tail::None => ("None", ""),
        Tail::Part(text) => ("Part", text.as_str()),
        Tail::Whole(text) => ("Whole", text.as_str()),
    }
}

fn completes(rt: &(impl Abort + AllocGlobal), case: &str) {
    let (id, case) = cut(case);
    let (atom, wanted) = cut(case);
    let id = number(id);
    assert!(rt; id < 3 && atom.len() <= 255);
    let tail = ExecRules.completion(id as u8, atom.as_bytes());
    let said = format!(in rt.alloc(); "{:?}", shown(&tail)).expect(rt, "memory");
    assert_eq!(rt; said.as_str(), wanted, "{case}");
}

#[test]
fn only_forms_are_completed(rt: HostRuntime) {
    let cases = r#"0|A|("None", "")
        1||("None", "")
        1|N|("Part", "")
        1|n|("Part", "")
        1|NA|("Whole", "RROW")
        1|no|("Whole", "RMAL")
        1|NORMAL|("Whole", "")
        1|NORMALS|("None", "")
        1|W|("Whole", "IDE")
        1|X|("None", "")
        2|6|("None", "")"#;
    for case in cases.lines() {
        completes(&rt, case.trim_start());
    }
}

#[test]
fn each_rule_has_its_help(rt: HostRuntime) {
    assert_eq!(rt; ExecRules.help(0).as_str(), "logical name");
    assert_eq!(rt; ExecRules.help(1).as_str(), "form name");
    assert_eq!(rt; ExecRules.help(2).as_str(), "number from 0 to 63");
}
