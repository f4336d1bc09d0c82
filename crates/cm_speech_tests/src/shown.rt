// What `?` shows and lists of a field, and its bytes, by example.
use crate::cases::{given, is_wanted};
use crate::rules::{hook_and_rest, rules};
use cm_hooks::Rules;
use cm_speech::SpeechRules;
use std::alloc::Global;
use std::process::Abort;
use std::test::Fail;

// A hook, its help, and the names that are listed.
const SHOWN: &str = "\
0 ~IPv4 address:
1 ~IPv4 address and length:
2 ~IPv6 address:
3 ~IPv6 address and length:
4 ~MAC address:
5 ~name:eth0;eth0.100;eth1;wlan0;
6 ~name:10;100;1000;
7 ~name:a b;x;
8 ~name:Red;red;green;
9 ~name:;alpha;
10 ~name:
255 ~name:";

// A hook and a byte: whether a field may have it.
const BYTES: &str = "\
0 .~true
0 9~true
0 /~true
2 :~true
2 a~true
4 -~true
5 Z~true
5 _~true
5 $~true
5 .~true
5  ~false
5 ?~false
5 %~false
5 ,~false
5 ;~false
255 @~false";

fn put_names(alloc: Global, rules: &SpeechRules, id: u8, text: &mut String) -> Result<(), Fail> {
    for number in 0..rules.names(id) {
        let name = rules.name(id, number).ok_or("no name")?;
        text.push_str(format!(in alloc; "{};", name.as_str())?.as_str())?;
    }
    Ok(())
}

// The help of a field, and its names.
fn shown(alloc: Global, rules: &SpeechRules, id: u8) -> Result<String, Fail> {
    let mut text = format!(in alloc; "{}:", rules.help(id).as_str())?;
    put_names(alloc, rules, id, &mut text)?;
    Ok(text)
}

fn shows(rt: &impl Abort, alloc: Global, rules: &SpeechRules, case: &str) -> Result<(), Fail> {
    let (id, _) = hook_and_rest(given(rt, case))?;
    assert!(rt; rules.name(id, rules.names(id)).is_none());
    is_wanted(rt, case, shown(alloc, rules, id)?.as_str());
    Ok(())
}

fn has(rt: &impl Abort, alloc: Global, rules: &SpeechRules, case: &str) -> Result<(), Fail> {
    let (id, text) = hook_and_rest(given(rt, case))?;
    let byte = *text.as_bytes().first().ok_or("a byte")?;
    is_wanted(
        rt,
        case,
        format!(in alloc; "{}", rules.has_byte(id, byte))?.as_str(),
    );
    Ok(())
}

#[test]
fn shows_helps_and_names(rt: HostRuntime) -> Result<(), Fail> {
    let rules = rules(rt.alloc())?;
    for case in SHOWN.split('\n') {
        shows(&rt, rt.alloc(), &rules, case)?;
    }
    Ok(())
}

#[test]
fn has_the_bytes_of_fields(rt: HostRuntime) -> Result<(), Fail> {
    let rules = rules(rt.alloc())?;
    for case in BYTES.split('\n') {
        has(&rt, rt.alloc(), &rules, case)?;
    }
    Ok(())
}

#[test]
fn lends_its_lists(rt: HostRuntime) -> Result<(), Fail> {
    let rules = rules(rt.alloc())?;
    assert_eq!(rt; rules.lists().len(), 5);
    Ok(())
}
