// Keyword tables by example.
ghost use Rattle.std.specs.Prelude.{◌≤◌, length};

use crate::cases::{is_wanted, number, part};
use cm_tables::{Entry, Flag, Table, TableFault};
use cm_text::{NAME_LIMIT, Name};
use std::alloc::{AllocError, Global};
use std::process::Abort;
use std::test::Fail;

fn entry(text: &str, flag: Flag) -> Entry
    requires { length text.now ≤ NAME_LIMIT }
{
    Entry {
        text: Name::new(text),
        flag,
        colon: false,
        code: 7,
        next: 0,
        help: None,
    }
}

// What is after the colon of a keyword: its flag, or the position of the entry that it stands for.
fn flag_of(rt: &impl Abort, word: &str) -> Flag {
    match word {
        "" => Flag::Plain,
        "Invisible" => Flag::Invisible,
        "NoRecognise" => Flag::NoRecognise,
        target => Flag::Short(number(rt, target)),
    }
}

// A keyword, `:` and its flag, and `=` and its help, of which each but the keyword may be left out.
fn entry_of(rt: &impl Abort, keyword: &str) -> Entry {
    let (keyword, help) = match keyword.split_once('=') {
        Some((keyword, help)) => (keyword, Some(help)),
        None => (keyword, None),
    };
    let (text, flag) = keyword.split_once(':').unwrap_or((keyword, ""));
    assert!(rt; text.len() <= NAME_LIMIT, "{keyword}");
    let entry = entry(text, flag_of(rt, flag));
    match help {
        Some(help) => {
            assert!(rt; help.len() <= NAME_LIMIT, "{keyword}");
            entry.with_help(help)
        }
        None => entry,
    }
}

pub(crate) fn entries_of(
    rt: &impl Abort,
    alloc: Global,
    keywords: &str,
) -> Result<Vec<Entry>, AllocError> {
    let mut entries = Vec::new(alloc);
    for keyword in keywords.split_whitespace() {
        entries.push(entry_of(rt, keyword))?;
    }
    Ok(entries)
}

// The entries of a list, and its first fault. A keyword of no bytes is a colon alone.
const FAULTS: &str = "\
|None
ABLE BAKER|None
ABLE ABLE|Some(Repeat(1))
BAKER ABLE|Some(Order(1))
:|Some(BadText(0))
ABLE bak_er|Some(BadText(1))
able Baker CHARLIE|None
A- a1 AB|None
able ABLE|Some(Repeat(1))
Able Baker bakeR Able|Some(Repeat(2))
Baker able|Some(Order(1))
a:1 Able|None
ABLE ABLE b|Some(Repeat(1))
A:1|Some(BadTarget(0))
A:1 ABLE:NoRecognise|Some(BadTarget(0))
A:1 BAKER|Some(BadTarget(0))
A:1 ABLE|None
ABLE B:0|Some(BadTarget(1))
ABLE=(it)~ BAKER=|None
ABLE=a?|Some(BadHelp(0))
ABLE=a BAKER=\x1fb|Some(BadHelp(1))
ABLE BAKER=a\x7f|Some(BadHelp(1))
ABLE=\u{e9} BAKER=?|Some(BadHelp(0))
ABLE=? ABLE|Some(Repeat(1))
ABLE=? B:0|Some(BadTarget(1))";

fn has_its_fault(rt: &impl Abort, alloc: Global, case: &str) -> Result<(), Fail> {
    let fault = Table::new(entries_of(rt, alloc, part(rt, case, 0))?).err();
    is_wanted(rt, case, format!(in alloc; "{fault:?}")?.as_str());
    Ok(())
}

#[test]
fn finds_the_first_fault(rt: HostRuntime) -> Result<(), Fail> {
    for case in FAULTS.lines() {
        has_its_fault(&rt, rt.alloc(), case)?;
    }
    Ok(())
}

fn fault_of_many(alloc: Global, count: u16) -> Result<Option<TableFault>, AllocError> {
    let mut entries = Vec::new(alloc);
    for _ in 0..count {
        entries.push(entry("ABLE", Flag::Plain))?;
    }
    Ok(Table::new(entries).err())
}

#[test]
fn counts_before_all(rt: HostRuntime) -> Result<(), Fail> {
    assert_eq!(rt;
        fault_of_many(rt.alloc(), 1024)?,
        Some(TableFault::Repeat(1))
    );
    assert_eq!(rt; fault_of_many(rt.alloc(), 1025)?, Some(TableFault::TooMany));
    Ok(())
}

// What a table answers to a question: what an atom finds, how it goes on, whether it is a whole text, or the next entry
// from a position on that a list shows.
fn answers(rt: &impl Abort, alloc: Global, table: &Table, case: &str) -> Result<(), Fail> {
    let atom = part(rt, case, 1).as_bytes();
    let answer = match part(rt, case, 0) {
        "look" => format!(in alloc; "{:?}", table.look(atom))?,
        "common" => format!(in alloc; "{}", table.common(atom).as_str())?,
        "whole" => format!(in alloc; "{}", table.has_text(atom))?,
        from => format!(in alloc; "{:?}", table.next_listed(number(rt, from), atom))?,
    };
    is_wanted(rt, case, answer.as_str());
    Ok(())
}

fn answer_all(rt: &impl Abort, alloc: Global, keywords: &str, cases: &str) -> Result<(), Fail> {
    let table = Table::new(entries_of(rt, alloc, keywords)?)?;
    for case in cases.lines() {
        answers(rt, alloc, &table, case)?;
    }
    Ok(())
}

#[test]
fn looks_up_plain_entries(rt: HostRuntime) -> Result<(), Fail> {
    let cases = "look|b|Abbrev(1)\nlook||Ambiguous";
    answer_all(&rt, rt.alloc(), "ABLE BAKER", cases)
}

const UNRECOGNISED: &str = "\
look|L|Ambiguous
look|LO|Ambiguous
look|LOG|Abbrev(4)
look|logout|Exact(4)
look|K|Abbrev(1)
look|X|None
look|I|Abbrev(0)";

// [abbreviation]
#[test]
fn looks_up_unrecognised_entries(rt: HostRuntime) -> Result<(), Fail> {
    let keywords = "INFORMATION KJOB:Invisible L:NoRecognise LO:NoRecognise LOGOUT";
    answer_all(&rt, rt.alloc(), keywords, UNRECOGNISED)
}

// The entries of a table with small letters.
const OF_LETTERS: &str = "\
look|INT|Ambiguous
look|Intern|Abbrev(1)
look|ROUTER|Exact(2)
look|interface|Exact(0)
look|ShO|Ambiguous
look|SHOW|Exact(4)
whole|INTERFACE|true
common|I|nter
common|INT|er
common|s|HO
common|sHo|
common|SHOR|T
common|r|outer
0|INT|Some(0)
1|int|Some(1)
2|int|None";

#[test]
fn looks_up_entries_in_small_letters(rt: HostRuntime) -> Result<(), Fail> {
    let keywords = "interface Internet Router SHORT show";
    answer_all(&rt, rt.alloc(), keywords, OF_LETTERS)
}

#[test]
fn looks_up_short_entries(rt: HostRuntime) -> Result<(), Fail> {
    let cases = "look|T|Exact(2)\nlook|TY|Abbrev(2)";
    answer_all(&rt, rt.alloc(), "T:2 TAKE TYPE", cases)
}

const SHARED: &str = "\
common|I|NFORMATION
common|k|JOB
common|L|OG
common|lo|G
common|LOG|
common|LOGO|UT
common|LOGOUT|
common|LOGOUTS|
common|X|
common||";

#[test]
fn goes_on_with_what_plain_and_invisible_entries_share(rt: HostRuntime) -> Result<(), Fail> {
    let keywords = "INFORMATION KJOB:Invisible LOGIN LOGOUT:Invisible";
    answer_all(&rt, rt.alloc(), keywords, SHARED)
}

const PAST_OTHERS: &str = "\
common|C|ONTINUE
common|con|TINUE
common|L|OGOUT
common|LO|GOUT
common|N|";

#[test]
fn goes_on_past_other_entries(rt: HostRuntime) -> Result<(), Fail> {
    let keywords = "CON:1 CONTINUE L:NoRecognise LO:NoRecognise LOGOUT NO:NoRecognise";
    answer_all(&rt, rt.alloc(), keywords, PAST_OTHERS)?;
    answer_all(&rt, rt.alloc(), "", "common||\ncommon|A|")
}

const WHOLE_TEXTS: &str = "\
whole|L|true
whole|l|true
whole|LO|false
whole|login|true
whole|LOGOUT|true
whole|LOGOUTS|false
whole||false";

#[test]
fn has_whole_texts_alone(rt: HostRuntime) -> Result<(), Fail> {
    let keywords = "L:NoRecognise LOGIN:Invisible LOGOUT";
    answer_all(&rt, rt.alloc(), keywords, WHOLE_TEXTS)
}

// From a position on, the next entry that a list shows.
const LISTED: &str = "\
0||Some(2)
2||Some(2)
3||Some(3)
4||Some(5)
5||Some(5)
6||None
7||None
65535||None
0|D|Some(2)
0|DI|Some(3)
0|di|Some(3)
0|directory|Some(3)
4|D|None
0|DEA|None
0|DIS|None
0|E|Some(5)
0|EXITS|None
0|X|None";

#[test]
fn lists_plain_entries_alone(rt: HostRuntime) -> Result<(), Fail> {
    let keywords = "D:2 DEASSIGN:Invisible DEFINE DIRECTORY DISMOUNT:NoRecognise EXIT";
    answer_all(&rt, rt.alloc(), keywords, LISTED)
}

#[test]
fn gives_its_entries(rt: HostRuntime) -> Result<(), Fail> {
    let table = Table::new(entries_of(&rt, rt.alloc(), "ABLE BAKER:Invisible")?)?;
    assert_eq!(rt; table.len(), 2);
    let baker = table.entry(1);
    assert_eq!(rt; baker.text.as_bytes(), b"BAKER".as_slice());
    assert_eq!(rt; baker.flag, Flag::Invisible);
    Ok(())
}

#[test]
#[tactic(auto, unfolding(cm_tables::specs::Order::table_fault, cm_text::specs::Case::begins_with, cm_text::specs::Case::equals))]
fn is_made_of_words(rt: HostRuntime) -> Result<(), Fail> {
    let alloc = rt.alloc();
    let entries = vec![in alloc; Entry::new("LIST", 3, 2), Entry::with_value("SIZE", 4, 6)]?;
    let table = Table::of(entries);
    assert_eq!(rt; table.len(), 2);
    let shown = format!(in alloc; "{:?}", table.entries())?;
    assert_eq!(rt;
        shown.as_str(),
        "[Entry { text: Name { text: \"LIST\" }, flag: Plain, colon: false, code: 3, next: 2, help: None }, \
        Entry { text: Name { text: \"SIZE\" }, flag: Plain, colon: true, code: 4, next: 6, help: None }]"
    );
    Ok(())
}
