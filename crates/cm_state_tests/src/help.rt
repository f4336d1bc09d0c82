// What `?` shows: the ending of a line, the line, and what is shown of it.

use crate::cabinet::Cabinet;
use crate::cases::text_of;
use crate::endings::{Question, tries};
use crate::judges::Judges;
use cm_blocks::{Ending, Grammar};
use cm_help::help;
use cm_io::{MemSink, Put};
use cm_line::Line;
use std::alloc::Global;
use std::process::Abort;
use std::test::Fail;

pub(crate) fn shown(
    rt: &impl Abort,
    alloc: Global,
    ending: Ending,
    line: &Line,
    grammar: &Grammar,
) -> Result<String, Fail> {
    let mut screen = MemSink::new(alloc, 4096)?;
    let put = help(
        grammar,
        &[],
        ending,
        line.bytes(),
        &Cabinet,
        &Judges,
        &mut screen,
    );
    assert_eq!(rt; put, Put::Done);
    text_of(alloc, &screen)
}

#[test]
fn lists_what_may_come(rt: HostRuntime) -> Result<(), Fail> {
    let cases = "\
20.0@0|| one of the following:\r
  COPY\r
  SEND\r
  SET\r
  SETTLE\r
 or one of the following:\r
  /AFTER:\r
  /FAST\r
 or guide word (TO)\r
 or guide word (OF)\r
 or comma\r
 or decimal number\r
 or word\r
 or quoted string\r
 or \"TTY:\"\r
 or text to end of line\r
 or comma\r
 or lamp\r
 or confirm with carriage return

20.0@2|  se| one of the following:\r
  SEND\r
  SET\r
  SETTLE\r
 or guide word (TO)\r
 or decimal number\r
 or word\r
 or text to end of line\r
 or lamp

20.0@0|K| keyword, none matches\r
 or guide word (TO)\r
 or decimal number\r
 or word\r
 or text to end of line\r
 or lamp

20.1@1| /a| one of the following:\r
  /AFTER:\r
 or guide word (TO)\r
 or text to end of line

20.2@0|(t| guide word (TO)\r
 or text to end of line

20.5@0|\"a| quoted string\r
 or text to end of line

20.6@0|tty| \"TTY:\"\r
 or text to end of line\r
 or lamp

21.0@0|| guide word (OF)\r
 or word\r
 or comma

23.0@0|1| how bright, 0 to 100

9.0@0|| date, as 5-JAN-1980

19.0@0|| date, as 5-JAN-1980\r
 or quoted string

19.0@0|5-JAN-198| date, as 5-JAN-1980

19.1@0|\"5| quoted string

25.0@0|| user name\r
 or directory name\r
 or input file\r
 or output file\r
 or file specification";
    tries(&rt, rt.alloc(), Question::Help, cases)
}

#[test]
fn tells_what_a_keyword_is_for(rt: HostRuntime) -> Result<(), Fail> {
    let cases = "\
28.0@0|| one of the following:\r
  DIM  a lamp, by some levels\r
  LIST\r
  NAME  a room (again)\r
 or one of the following:\r
  /BY:  how many levels\r
  /FAST  at once\r
  /ONCE:

28.0@0|n| one of the following:\r
  NAME  a room (again)

28.0@0|L| one of the following:\r
  LIST

28.0@0|K| keyword, none matches

28.0@2|  /b| one of the following:\r
  /BY:  how many levels";
    tries(&rt, rt.alloc(), Question::Help, cases)
}

#[test]
fn lists_keywords_as_the_table_has_them(rt: HostRuntime) -> Result<(), Fail> {
    let cases = "\
40.0@0|| one of the following:\r
  3com\r
  interface\r
  Internet\r
  Router  the name\r
  SHORT\r
  show\r
 or one of the following:\r
  /all\r
  /Before:

40.0@0|INT| one of the following:\r
  interface\r
  Internet

40.1@0|/BE| one of the following:\r
  /Before:";
    tries(&rt, rt.alloc(), Question::Help, cases)
}

// [question-mark]
#[test]
fn tells_why_there_is_nothing_to_come(rt: HostRuntime) -> Result<(), Fail> {
    let cases = "\
NotKeyword|X | Unrecognized keyword

TooMany|| Too many fields

0@0|! x| comment

done||

24.1@0||

99.0@0||

20.0@2|A|";
    tries(&rt, rt.alloc(), Question::Help, cases)
}

// Names stand in columns, as wide as the longest that is listed, along rows of at most 78 bytes. Those past the first
// 60 are counted.
#[test]
fn lists_the_names_of_a_field(rt: HostRuntime) -> Result<(), Fail> {
    let cases = "\
32.0@0|| port\r
  eth0      eth0.100  1/2

32.0@0|eth| port\r
  eth0      eth0.100

32.0@0|ETH0.| port\r
  eth0.100

32.0@0|1| port\r
  1/2

32.0@0|x| port

33.0@0|| \r
  lamp  lamp  lamp  lamp  lamp  lamp  lamp  lamp  lamp  lamp  lamp  lamp  lamp\r
  lamp  lamp  lamp  lamp  lamp  lamp  lamp  lamp  lamp  lamp  lamp  lamp  lamp\r
  lamp  lamp  lamp  lamp  lamp  lamp  lamp  lamp  lamp  lamp  lamp  lamp  lamp\r
  lamp  lamp  lamp  lamp  lamp  lamp  lamp  lamp  lamp  lamp  lamp  lamp  lamp\r
  lamp  lamp  lamp  lamp  lamp  lamp  lamp  lamp\r
  and 1 more

33.0@0|x| 

34.0@0|a| \r
  a234567890123456789012345678901234567  a234567890123456789012345678901234568

34.0@0|b| \r
  b2345678901234567890123456789012345678\r
  b2345678901234567890123456789012345679

34.0@0|| \r
  a234567890123456789012345678901234567\r
  a234567890123456789012345678901234568\r
  b2345678901234567890123456789012345678\r
  b2345678901234567890123456789012345679";
    tries(&rt, rt.alloc(), Question::Help, cases)
}
