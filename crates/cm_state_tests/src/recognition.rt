// What ESC and control-F put in: the ending of a line, the line, what goes in, and whether it rings.

use crate::cabinet::Cabinet;
use crate::cases::repeat;
use crate::endings::{Question, tries};
use crate::judges::Judges;
use cm_blocks::{Ending, Grammar};
use cm_line::Line;
use cm_recognise::laws::{
    a_whole_completion_is_put_in, a_whole_completion_is_taken, what_is_put_in_is_shown,
};
use cm_recognise::{Mode, complete};
use std::alloc::Global;
use std::process::Abort;
use std::test::Fail;

// What goes in, a bar, and `bell` where it rings.
pub(crate) fn put_in(
    alloc: Global,
    mode: Mode,
    ending: Ending,
    line: &Line,
    grammar: &Grammar,
) -> Result<String, Fail> {
    let put = complete(grammar, &[], ending, line.bytes(), &Cabinet, &Judges, mode);
    let bell = if put.bell { "bell" } else { "" };
    Ok(format!(in alloc; "{}|{bell}", str::from_utf8(put.bytes.as_slice())?)?)
}

// After a keyword stands the guide word of the node that it leads to, or a space alone. A short form stands for
// another entry. What several share goes in, and it rings, as where an entry cannot be recognised. A line may be at a
// place further on, or at a node that is not there.
#[test]
fn keywords_go_on(rt: HostRuntime) -> Result<(), Fail> {
    let cases = "\
0.0@0|co|PY (FROM) |
0.0@0|LOGI|N |
0.0@0|LOGOUT| |
0.0@0|LO|GIN |
0.0@0|L|OG|bell
0.0@0|LOG||bell
0.0@0|||bell
0.0@0|KJOB||bell
0.0@0|KJ||bell
0.0@0|X||bell
0.0@3|!x!CO|PY (FROM) |
99.0@0|CO||bell";
    tries(&rt, rt.alloc(), Question::Completion(Mode::Escape), cases)
}

// What is missing goes in as the table has it, but after capitals alone in capitals.
#[test]
fn keywords_go_on_in_their_letters(rt: HostRuntime) -> Result<(), Fail> {
    let cases = "\
40.0@0|interf|ace |
40.0@0|Interf|ace |
40.0@0|INTERF|ACE |
40.0@0|INTERf|ace |
40.0@0|i|nter|bell
40.0@0|I|NTER|bell
40.0@0|inter||bell
40.0@0|r|outer |
40.0@0|R|OUTER |
40.0@0|Ro|uter |
40.0@0|s|HO|bell
40.0@0|Shor|T |
40.0@0|SHOW| |
40.0@0|3|com |
40.0@0|3C|OM |
40.1@0|/b|efore:|
40.1@0|/B|EFORE:|
40.1@0|/A|LL |";
    tries(&rt, rt.alloc(), Question::Completion(Mode::Escape), cases)
}

// The value of a switch follows its colon. The block after it is asked where it cannot go on, and alone where the line
// waits at it.
#[test]
fn switches_go_on(rt: HostRuntime) -> Result<(), Fail> {
    let cases = "\
3.0@0|/a|FTER:|
3.0@0|/F|AST (FROM) |
3.0@0|/||bell
3.0@0|/X||bell
3.0@0|AF||bell
3.0@0|CO|PY (FROM) |
3.1@0|CO|PY (FROM) |
3.2@0|CO||bell";
    tries(&rt, rt.alloc(), Question::Completion(Mode::Escape), cases)
}

// Of a token something has to be typed, and the rest of a line never ends.
#[test]
fn phrases_go_on(rt: HostRuntime) -> Result<(), Fail> {
    let cases = "\
1.0@5|COPY |(FROM) |
1.0@0|(fr|OM) |
1.0@0|(FX||bell
5.0@0|aL|l |
5.0@0|All| |
5.0@0|||bell
5.0@0|AX||bell
5.1@0|A||bell";
    tries(&rt, rt.alloc(), Question::Completion(Mode::Escape), cases)
}

// A quoted text goes on where it is closed, and the default is where nothing is typed. Hook 2 judges alone, and
// hook 1 goes on, hook 4 over a point.
#[test]
fn values_go_on(rt: HostRuntime) -> Result<(), Fail> {
    let cases = "\
2.0@0|12| |
2.0@0|1X||bell
4.0@0|\"a b\"| (FROM) |
4.0@0|\"a b||bell
2.0@0||7 |
2.0@6|LOGIN |7 |
6.0@0|AB| |
6.0@0|ABC||bell
7.0@0|AB|Z|bell
7.0@0|||bell
32.0@0|eth0|.100|bell
32.0@0|eth0.100|.100|bell
32.0@0|1/2|.100|bell";
    tries(&rt, rt.alloc(), Question::Completion(Mode::Escape), cases)
}

// A date goes on where it is whole, and only where there is such a day. Of one that is begun nothing is certain.
#[test]
fn dates_go_on(rt: HostRuntime) -> Result<(), Fail> {
    let cases = "\
9.0@0|5-JAN-1980| (FROM) |
9.0@0|29-feb-72| (FROM) |
19.0@0|31-DEC-2099| |
9.0@0|||bell
9.0@0|5||bell
9.0@0|5-JAN||bell
9.0@0|5-JAN-198||bell
9.0@0|5-JAX-1980||bell
9.0@0|0-JAN-1980||bell
9.0@0|5-JAN-1969||bell
9.0@0|31-APR-1980||bell
9.0@0|29-FEB-1981||bell
19.1@0|5-JAN-1980||bell";
    tries(&rt, rt.alloc(), Question::Completion(Mode::Escape), cases)
}

#[test]
fn what_does_not_fit_is_not_put_in(rt: HostRuntime) -> Result<(), Fail> {
    let cases = "\
0.0@243|[ ]co|PY (FROM) |
0.0@244|[ ] co||bell
0.0@253|[ ]          co||bell";
    tries(
        &rt,
        rt.alloc(),
        Question::Completion(Mode::Escape),
        &repeat(rt.alloc(), cases, 243)?,
    )
}

// A run of the bytes of a set is whole as it is typed, but not one that may have spaces. Control-F asks none.
#[test]
fn runs_of_a_set_go_on(rt: HostRuntime) -> Result<(), Fail> {
    let cases = "\
29.0@0|10.0.0.1/8| |
29.0@0|||bell
30.0@0|/usr/lib/eth0.100| |
31.0@0|two words||bell";
    tries(&rt, rt.alloc(), Question::Completion(Mode::Escape), cases)?;
    tries(
        &rt,
        rt.alloc(),
        Question::Completion(Mode::Part),
        "29.0@0|10.0.0.1/8||bell",
    )
}

#[test]
fn it_rings_where_no_block_waits(rt: HostRuntime) -> Result<(), Fail> {
    let cases = "\
done|CO||bell
NotKeyword|CO||bell
0@0|!CO||bell
0.0@3|CO||bell";
    tries(&rt, rt.alloc(), Question::Completion(Mode::Escape), cases)
}

#[test]
fn a_part_is_asked_of_no_keyword_and_no_date(rt: HostRuntime) -> Result<(), Fail> {
    let cases = "\
0.0@0|co||bell
2.0@0|||bell
9.0@0|5-JAN-1980||bell";
    tries(&rt, rt.alloc(), Question::Completion(Mode::Part), cases)
}

// One name goes on with its one type and its highest generation. It rings at several names that share nothing more, at
// none, at one that is marked deleted, and at a device or a directory that is none. After a device or a directory
// nothing has to be typed.
#[test]
fn names_go_on(rt: HostRuntime) -> Result<(), Fail> {
    let cases = "\
10.0@0|AB|.TXT.1 |
10.0@0|ab|.TXT.1 |
10.0@0|A||bell
10.0@0|X||bell
10.0@0|Q||bell
10.0@0|||bell
10.0@0|<SMITH>|HELLO..7 |
10.0@0|SYS:|HELLO..7 |
10.0@0|sys:h|ELLO..7 |
10.0@0|PS:<OPERATOR>AB|.TXT.1 |
10.0@0|PS:|A|bell
10.0@0|TTY:A||bell
10.0@0|NO:AB||bell
10.0@0|<NO>AB||bell";
    tries(&rt, rt.alloc(), Question::Completion(Mode::Escape), cases)
}

// A generation that is typed is taken as it is, where there is such a file. With a wildcard nothing is certain, and
// what is no specification goes on in no way.
#[test]
fn types_and_generations_go_on(rt: HostRuntime) -> Result<(), Fail> {
    let cases = "\
10.0@0|A.|FOR.2 |
10.0@0|a.f|OR.2 |
10.0@0|A.FOR|.2 |
10.0@0|A.FOR.|2 |
10.0@0|AB.TXT.|1 |
10.0@0|A.TXT||bell
10.0@0|B.||bell
10.0@0|A.FOR.1| |
10.0@0|A.FOR.9||bell
10.0@0|Q.R.||bell
10.0@0|A*||bell
10.0@0|A.FOR.1.||bell";
    tries(&rt, rt.alloc(), Question::Completion(Mode::Escape), cases)
}

// Node 15 reads a file that may be there, 16 those that are marked deleted, 17 all generations, which none stands for,
// and 18 a file that is written, of which nothing is known.
#[test]
fn flags_say_which_files_go_on(rt: HostRuntime) -> Result<(), Fail> {
    let cases = "\
15.0@0|A.FOR.|2 |
15.0@0|A.FOR.9| |
15.0@0|Q.R.| |
16.0@0|Q|.R.5 |
16.0@0|A|B.TXT.2 |
17.0@0|A.|FOR.* |
17.0@0|AB|.TXT.* |
18.0@0|NEW.X| |
18.0@0|A.FOR.| |";
    tries(&rt, rt.alloc(), Question::Completion(Mode::Escape), cases)
}

// Node 14 reads a directory that may be new, of which nothing is known. After a directory a file goes on.
#[test]
fn directories_go_on(rt: HostRuntime) -> Result<(), Fail> {
    let cases = "\
13.0@0|<o|PERATOR> |
13.0@0|PS:<O|PERATOR> |
13.0@0|<S|MITH|bell
13.0@0|<SMITH.|SUB> |
13.0@0|<SMITH||bell
13.0@0|<X||bell
13.0@0|<SMITH>| |
13.0@0|OPERATOR||bell
14.0@0|<O||bell
14.0@0|<O>| |
10.0@0|<o|PERATOR>|
10.0@0|<S|MITH|bell";
    tries(&rt, rt.alloc(), Question::Completion(Mode::Escape), cases)
}

// A directory with a point in its name is no user's.
#[test]
fn users_go_on(rt: HostRuntime) -> Result<(), Fail> {
    let cases = "\
12.0@0|s|MITH |
12.0@0|OPER|ATOR |
12.0@0|SMITH| |
12.0@0|SMITH.||bell
12.0@0|X||bell
12.0@0|||bell";
    tries(&rt, rt.alloc(), Question::Completion(Mode::Escape), cases)
}

// [completion]
// A generation and a directory are whole, for control-F too. It asks neither users nor files that are written.
#[test]
fn one_part_goes_on(rt: HostRuntime) -> Result<(), Fail> {
    let cases = "\
10.0@0|A.|FOR.|
10.0@0|AB|.|
10.0@0|SYS:|HELLO.|
10.0@0|A||bell
10.0@0|<o|PERATOR>|
10.0@0|A.FOR.|2 |
13.0@0|<o|PERATOR> |
15.0@0|AB.|TXT.|
12.0@0|s||bell
18.0@0|NEW.X||bell
11.0@0|||bell";
    tries(&rt, rt.alloc(), Question::Completion(Mode::Part), cases)
}

#[test]
fn the_laws_hold() {
    a_whole_completion_is_taken();
    a_whole_completion_is_put_in();
    what_is_put_in_is_shown();
}
