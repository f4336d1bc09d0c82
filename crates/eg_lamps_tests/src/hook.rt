// The rules, alone.
use cm_hooks::{Answer, Rules, Tail};
use eg_lamps::RoomRules;

#[test]
fn rooms_are_abbreviated(rt: HostRuntime) {
    for (atom, answer) in [
        ("", Answer::No),
        ("H", Answer::Yes(0)),
        ("hall", Answer::Yes(0)),
        ("HALLS", Answer::No),
        ("kit", Answer::Yes(1)),
        ("ST", Answer::No),
        ("stA", Answer::Yes(2)),
        ("STU", Answer::Yes(3)),
        ("TUDY", Answer::No),
    ] {
        assert_eq!(rt; RoomRules.verdict(0, atom.as_bytes()), answer, "{atom}");
    }
}

// What a completion adds, and whether the atom is whole with it.
fn shown(tail: &Tail) -> Option<(&str, bool)> {
    match tail {
        Tail::None => None,
        Tail::Part(text) => Some((text.as_str(), false)),
        Tail::Whole(text) => Some((text.as_str(), true)),
    }
}

#[test]
fn rooms_are_completed(rt: HostRuntime) {
    for (atom, tail) in [
        ("", None),
        ("h", Some(("ALL", true))),
        ("KITCHEN", Some(("", true))),
        ("s", Some(("T", false))),
        ("ST", Some(("", false))),
        ("stu", Some(("DY", true))),
        ("X", None),
    ] {
        assert_eq!(rt;
            shown(&RoomRules.completion(0, atom.as_bytes())),
            tail,
            "{atom}"
        );
    }
    assert_eq!(rt; RoomRules.help(0).as_str(), "room");
}
