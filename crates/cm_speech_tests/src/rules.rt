// The lists that the tests read.
use cm_speech::SpeechRules;
use cm_text::{NAME_LIMIT, Name};
use std::alloc::Global;
use std::test::Fail;

// A line a list: interfaces, speeds, names that cannot be typed, names that are alike, and one with no bytes.
const LISTS: &str = "\
eth0;eth0.100;eth1;wlan0
10;100;1000
a b;x
Red;red;green
;alpha";

fn names(alloc: Global, line: &str) -> Result<Vec<Name>, Fail> {
    let mut names = Vec::new(alloc);
    for text in line.split(';') {
        if text.len() > NAME_LIMIT {
            return Err(Fail::from("a name that is too long"));
        }
        names.push(Name::new(text))?;
    }
    Ok(names)
}

// The rules for them: the lists are hooks 5 to 9.
pub(crate) fn rules(alloc: Global) -> Result<SpeechRules, Fail> {
    let mut lists = Vec::new(alloc);
    for line in LISTS.split('\n') {
        lists.push(names(alloc, line)?)?;
    }
    Ok(SpeechRules::new(lists))
}

// The number of a hook, which stands first in a case, and what is after it.
pub(crate) fn hook_and_rest(given: &str) -> Result<(u8, &str), Fail> {
    let (id, rest) = given.split_once(' ').ok_or("a hook and an atom")?;
    match id.parse::<u8>() {
        Ok(id) => Ok((id, rest)),
        Err(_) => Err(Fail::from("no hook")),
    }
}
