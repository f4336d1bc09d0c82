// The rules, alone.
use cm_hooks::{Rules, Tail};
use cm_text::Name;
use eg_router::Interfaces;
use std::alloc::Global;
use std::test::Fail;

// ETH0, ETH0.100 and ETH1.
fn three() -> Interfaces {
    let mut interfaces = Interfaces::new();
    for name in [Name::new("ETH1"), Name::new("ETH0.100"), Name::new("ETH0")] {
        if interfaces.may_enter(&name) {
            interfaces.enter(&name);
        }
    }
    interfaces
}

// A hook, an atom, and the answer.
const VERDICTS: &str = "0|10.0.0.1|Yes(0)
0|255.255.255.255|Yes(0)
0|10.0.0|NoBecause(Reason { number: 131, text: \"Not an address\" })
0|10.0.0.256|NoBecause(Reason { number: 131, text: \"Not an address\" })
0|10.0.0.01|NoBecause(Reason { number: 131, text: \"Not an address\" })
0|10.0.0.1.|NoBecause(Reason { number: 131, text: \"Not an address\" })
1|eth0|Yes(0)
1|ETH1|Yes(0)
1|eth0.100|Yes(0)
1|eth|NoBecause(Reason { number: 128, text: \"No such interface\" })
1|eth01|NoBecause(Reason { number: 128, text: \"No such interface\" })
2|Eth1|Yes(0)
2|eth|Yes(0)
2|a-2|Yes(0)
2|eth1.200|Yes(0)
2|1..|Yes(0)
2|.1|NoBecause(Reason { number: 129, text: \"Not a name of an interface\" })
2|ABCDEFGHIJABCDEFGHIJABCDEFGHIJABCDEFGHI|Yes(0)
2|ABCDEFGHIJABCDEFGHIJABCDEFGHIJABCDEFGHIJ|NoBecause(Reason { number: 129, text: \"Not a name of an interface\" })
2|A_2|NoBecause(Reason { number: 129, text: \"Not a name of an interface\" })";

// The parts of a case: a hook, an atom, and what is wanted.
fn parts_of(case: &str) -> Option<(u8, &str, &str)> {
    let (id, rest) = case.split_once("|")?;
    let (atom, wanted) = rest.split_once("|")?;
    Some((id.as_bytes().first()?.wrapping_sub(b'0'), atom, wanted))
}

fn is_judged(alloc: Global, interfaces: &Interfaces, case: &str) -> Result<(), Fail> {
    let Some((id, atom, wanted)) = parts_of(case) else {
        return Err(Fail::new("a case has three parts"));
    };
    if atom.len() > 255 {
        return Err(Fail::new("an atom is too long"));
    }
    let answer = format!(in alloc; "{:?}", interfaces.verdict(id, atom.as_bytes()))?;
    if answer.as_str() != wanted {
        return Err(Fail::new(format_args!("{case}: {answer}")));
    }
    Ok(())
}

#[test]
fn addresses_and_names_are_judged(rt: HostRuntime) -> Result<(), Fail> {
    let interfaces = three();
    for case in VERDICTS.lines() {
        is_judged(rt.alloc(), &interfaces, case)?;
    }
    Ok(())
}

// How an atom goes on, and whether it is whole then.
fn rest_of(tail: &Tail) -> Option<(&str, bool)> {
    match tail {
        Tail::None => None,
        Tail::Part(text) => Some((text.as_str(), false)),
        Tail::Whole(text) => Some((text.as_str(), true)),
    }
}

#[test]
fn names_that_stand_complete(rt: HostRuntime) {
    let mut interfaces = three();
    for (id, atom, rest) in [
        (0, "2", None),
        (1, "e", Some(("TH", false))),
        (1, "eth1", Some(("", true))),
        (1, "x", None),
        // A name with a point is not completed.
        (1, "eth0.", None),
        (2, "et", Some(("H", false))),
    ] {
        let tail = interfaces.completion(id, atom.as_bytes());
        assert!(rt; rest_of(&tail) == rest, "{atom}");
    }
    interfaces.remove(&Name::new("ETH0"));
    let tail = interfaces.completion(1, b"e");
    assert!(rt; rest_of(&tail) == Some(("TH1", true)));
}

#[test]
fn names_that_stand_are_listed(rt: HostRuntime) {
    let interfaces = three();
    for (id, count) in [(0, 0), (1, 3), (2, 3)] {
        assert_eq!(rt; interfaces.names(id), count);
    }
}

#[test]
fn a_field_has_bytes_of_its_own(rt: HostRuntime) {
    let interfaces = Interfaces::new();
    for (id, byte, inside) in [
        (0, b'0', true),
        (0, b'.', true),
        (0, b'a', false),
        (1, b'.', true),
        (2, b'.', true),
        (2, b'a', true),
        (2, b'/', false),
    ] {
        assert_eq!(rt; interfaces.has_byte(id, byte), inside);
    }
}

#[test]
fn each_hook_explains_itself(rt: HostRuntime) {
    let interfaces = Interfaces::new();
    for (id, help) in [
        (0, "address, as 10.0.0.1"),
        (1, "name of an interface"),
        (2, "name of an interface, old or new"),
    ] {
        assert_eq!(rt; interfaces.help(id).as_str(), help);
    }
}
