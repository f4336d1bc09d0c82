// Keywords and switches by example.

use crate::cases::{Subject, debug_text, hold, place_of};
use crate::grammars::entry;
use cm_blocks::{key, switch};
use cm_tables::{Entry, Flag, Table};
use cm_text::Name;
use std::alloc::Global;
use std::test::Fail;

#[derive(Drop)]
struct Keywords<'a>(&'a Table);

impl<'a> Subject for Keywords<'a> {
    fn answer(&self, alloc: Global, given: &str) -> Result<String, Fail> {
        let given = place_of(given)?;
        debug_text(alloc, &key(self.0, given.text, given.at))
    }
}

#[derive(Drop)]
struct Switches<'a>(&'a Table);

impl<'a> Subject for Switches<'a> {
    fn answer(&self, alloc: Global, given: &str) -> Result<String, Fail> {
        let given = place_of(given)?;
        debug_text(alloc, &switch(self.0, given.text, given.at))
    }
}

fn keyword_table(alloc: Global) -> Result<Table, Fail> {
    let short = Entry {
        flag: Flag::Short(4),
        ..entry("T", false, 30, 0)
    };
    let unrecognised = Entry {
        flag: Flag::NoRecognise,
        ..entry("L", false, 10, 0)
    };
    let entries = [
        unrecognised,
        entry("LOGOUT", false, 20, 0),
        short,
        entry("TAKE", true, 40, 0),
        entry("TYPE", false, 50, 0),
    ];
    Ok(Table::new(Vec::from_array(alloc, entries)?)?)
}

const KEYWORDS: &str = "0  => More
0 LOG => More
0 X => More
9 LO LOGOUT => More
0 LOGOUT\r => Accept { value: Key { entry: 1, code: 20 }, looked: 7, end: 6 }
0 log, => Accept { value: Key { entry: 1, code: 20 }, looked: 4, end: 3 }
3 LO LO\r => Accept { value: Key { entry: 1, code: 20 }, looked: 3, end: 5 }
0 T\r => Accept { value: Key { entry: 4, code: 50 }, looked: 2, end: 1 }
0 ty/ => Accept { value: Key { entry: 4, code: 50 }, looked: 3, end: 2 }
0 TAKE:\r => Accept { value: Key { entry: 3, code: 40 }, looked: 5, end: 4 }
0 L\r => Refuse { code: Ambiguous, looked: 2 }
3 LO L\r => Refuse { code: Ambiguous, looked: 2 }
0 X\r => Refuse { code: NotKeyword, looked: 2 }
0 LOGOUTS\r => Refuse { code: NotKeyword, looked: 8 }
0 T-\r => Refuse { code: NotKeyword, looked: 3 }
0 \r => Refuse { code: NotKeyword, looked: 1 }
0  LOG\r => Refuse { code: NotKeyword, looked: 1 }";

#[test]
fn takes_keywords(rt: HostRuntime) -> Result<(), Fail> {
    hold(rt.alloc(), &Keywords(&keyword_table(rt.alloc())?), KEYWORDS)
}

fn switch_table(alloc: Global) -> Result<Table, Fail> {
    let entries = [
        entry("AFTER", true, 10, 0),
        entry("FAST", false, 20, 0),
        entry("FORMS", true, 30, 0),
    ];
    Ok(Table::new(Vec::from_array(alloc, entries)?)?)
}

const SWITCHES: &str = "0  => More
0 / => More
0 /AFTER => More
4 P/A: => More
0 /AFTER: => Accept { value: Switch { entry: 0, code: 10 }, looked: 7, end: 7 }
1 P/a:5\r => Accept { value: Switch { entry: 0, code: 10 }, looked: 3, end: 4 }
0 /FAST\r => Accept { value: Switch { entry: 1, code: 20 }, looked: 6, end: 5 }
0 /fa: => Accept { value: Switch { entry: 1, code: 20 }, looked: 4, end: 3 }
0 /FA/A => Accept { value: Switch { entry: 1, code: 20 }, looked: 4, end: 3 }
0 /AFTER\r => Refuse { code: NeedColon, looked: 7 }
0 /A : => Refuse { code: NeedColon, looked: 3 }
0 /F: => Refuse { code: Ambiguous, looked: 3 }
0 /X\r => Refuse { code: NotKeyword, looked: 3 }
1 P/AFTERS: => Refuse { code: NotKeyword, looked: 8 }
0 /\r => Refuse { code: NotKeyword, looked: 2 }
0 /: => Refuse { code: NotKeyword, looked: 2 }
0 AFTER:\r => Refuse { code: NotSwitch, looked: 1 }
0 \r => Refuse { code: NotSwitch, looked: 1 }";

#[test]
fn takes_switches(rt: HostRuntime) -> Result<(), Fail> {
    hold(rt.alloc(), &Switches(&switch_table(rt.alloc())?), SWITCHES)
}
