// What is taken, and how it goes on, by example.
use crate::cases::{given, is_wanted};
use crate::rules::{hook_and_rest, rules};
use cm_hooks::{Answer, Rules, Tail};
use cm_speech::SpeechRules;
use cm_text::LINE_LIMIT;
use std::alloc::Global;
use std::process::Abort;
use std::test::Fail;

// A hook and an atom, and whether it is taken: with which value, or with which reason not.
const VERDICTS: &str = "\
0 10.0.0.1~yes 167772161
0 0.0.0.0~yes 0
0 255.255.255.255~yes 4294967295
0 256.0.0.1~128 Not an IPv4 address
0 10.0.0~128 Not an IPv4 address
0 10.0.0.1/8~128 Not an IPv4 address
0 01.0.0.1~128 Not an IPv4 address
0 ~128 Not an IPv4 address
1 10.0.0.0/8~yes 0
1 10.0.0.1/32~yes 0
1 10.0.0.1/33~129 Not an IPv4 address and length
1 10.0.0.0/08~129 Not an IPv4 address and length
1 10.0.0.1~129 Not an IPv4 address and length
2 2001:db8::1~yes 0
2 ::~yes 0
2 ::ffff:10.0.0.1~yes 0
2 2001:db8::1::2~130 Not an IPv6 address
2 10.0.0.1~130 Not an IPv6 address
2 2001:db8::/32~130 Not an IPv6 address
3 2001:db8::/32~yes 0
3 ::/0~yes 0
3 ::/129~131 Not an IPv6 address and length
3 2001:db8::1~131 Not an IPv6 address and length
4 00-11-22-33-44-55~yes 0
4 00:11:22:aa:BB:cc~yes 0
4 00-11-22:33-44-55~132 Not a MAC address
4 00-11-22-33-44~132 Not a MAC address
4 001122334455~132 Not a MAC address
4 0g-11-22-33-44-55~132 Not a MAC address
5 eth0~yes 0
5 ETH0~yes 0
5 eth0.~yes 1
5 eth0.1~yes 1
5 eth0.100~yes 1
5 eth0.1000~no
5 eth1~yes 2
5 eth~no
5 e~no
5 w~yes 3
5 x~no
5 ~no
6 10~yes 0
6 100~yes 1
6 1000~yes 2
6 1~no
6 10000~no
7 a~yes 0
7 a b~yes 0
7 x~yes 1
8 red~no
8 r~no
8 g~yes 2
9 a~yes 1
10 red~no
255 red~no";

// A hook and an atom, and how it goes on.
const COMPLETIONS: &str = "\
0 10.~none
1 1~none
4 00~none
5 e~part:th
5 eth~part:
5 ETH~part:
5 eth0~whole:
5 eth0.~whole:100
5 W~whole:lan0
5 x~none
5 ~none
6 1~part:0
6 10~whole:
6 100~whole:
6 1000~whole:
7 a~none
7 x~none
8 r~part:ed
8 red~part:
8 g~whole:reen
9 a~whole:lpha
10 r~none
255 r~none";

fn answer_text(alloc: Global, answer: &Answer) -> Result<String, Fail> {
    match answer {
        Answer::Yes(value) => Ok(format!(in alloc; "yes {value}")?),
        Answer::No => Ok(format!(in alloc; "no")?),
        Answer::NoBecause(reason) => {
            Ok(format!(in alloc; "{} {}", reason.number(), reason.text())?)
        }
    }
}

fn tail_text(alloc: Global, tail: &Tail) -> Result<String, Fail> {
    match tail {
        Tail::None => Ok(format!(in alloc; "none")?),
        Tail::Part(text) => Ok(format!(in alloc; "part:{}", text.as_str())?),
        Tail::Whole(text) => Ok(format!(in alloc; "whole:{}", text.as_str())?),
    }
}

fn judges(rt: &impl Abort, alloc: Global, rules: &SpeechRules, case: &str) -> Result<(), Fail> {
    let (id, atom) = hook_and_rest(given(rt, case))?;
    assert!(rt; atom.len() <= LINE_LIMIT);
    let answer = rules.verdict(id, atom.as_bytes());
    is_wanted(rt, case, answer_text(alloc, &answer)?.as_str());
    Ok(())
}

fn completes(rt: &impl Abort, alloc: Global, rules: &SpeechRules, case: &str) -> Result<(), Fail> {
    let (id, atom) = hook_and_rest(given(rt, case))?;
    assert!(rt; atom.len() <= LINE_LIMIT);
    let tail = rules.completion(id, atom.as_bytes());
    is_wanted(rt, case, tail_text(alloc, &tail)?.as_str());
    Ok(())
}

#[test]
fn takes_addresses_and_names(rt: HostRuntime) -> Result<(), Fail> {
    let rules = rules(rt.alloc())?;
    for case in VERDICTS.split('\n') {
        judges(&rt, rt.alloc(), &rules, case)?;
    }
    Ok(())
}

#[test]
fn completes_names(rt: HostRuntime) -> Result<(), Fail> {
    let rules = rules(rt.alloc())?;
    for case in COMPLETIONS.split('\n') {
        completes(&rt, rt.alloc(), &rules, case)?;
    }
    Ok(())
}
