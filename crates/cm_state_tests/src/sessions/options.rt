// Options that a line may have in any order, each once.

use super::question::{Question, tries};
use crate::grammars::options;
use std::test::Fail;

// An abbreviation is the option too, and so is a switch; the entries at the same position of two tables are two
// options. The keyword of a block that has no such flag is none.
#[test]
fn takes_each_option_once_in_any_order(rt: HostRuntime) -> Result<(), Fail> {
    let cases = "\
1|MTU 1 SPEED 2 COMMENT A|Confirmed|0d 23 D 1.1k2@0-3 2.0#1@4-5 1.1k3@6-11 3.0#2@12-13 1.1k1@14-21 4.0w@22-23
1|MTU 1 COMMENT A SPEED 2|Confirmed|0d 23 D 1.1k2@0-3 2.0#1@4-5 1.1k1@6-13 4.0w@14-15 1.1k3@16-21 3.0#2@22-23
1|SPEED 2 MTU 1 COMMENT A|Confirmed|0d 23 D 1.1k3@0-5 3.0#2@6-7 1.1k2@8-11 2.0#1@12-13 1.1k1@14-21 4.0w@22-23
1|SPEED 2 COMMENT A MTU 1|Confirmed|0d 23 D 1.1k3@0-5 3.0#2@6-7 1.1k1@8-15 4.0w@16-17 1.1k2@18-21 2.0#1@22-23
1|COMMENT A MTU 1 SPEED 2|Confirmed|0d 23 D 1.1k1@0-7 4.0w@8-9 1.1k2@10-13 2.0#1@14-15 1.1k3@16-21 3.0#2@22-23
1|COMMENT A SPEED 2 MTU 1|Confirmed|0d 23 D 1.1k1@0-7 4.0w@8-9 1.1k3@10-15 3.0#2@16-17 1.1k2@18-21 2.0#1@22-23
1|MTU 1 MTU 2|Refused(Fault { code: Repeated, node: 1, at: 6 })|0d 11 F29.1@6 1.1k2@0-3 2.0#1@4-5
1|M 1 S 2 m 3|Refused(Fault { code: Repeated, node: 1, at: 8 })|0d 11 F29.1@8 1.1k2@0-1 2.0#1@2-3 1.1k3@4-5 3.0#2@6-7
1|/FAST M 1 /F|Refused(Fault { code: Repeated, node: 1, at: 10 })|0d 12 F29.1@10 1.2s4@0-5 1.1k2@6-7 2.0#1@8-9
1|/FAST COMMENT A /LIMIT:5|Confirmed|0d 24 D 1.2s4@0-5 1.1k1@6-13 4.0w@14-15 1.2s5@16-23 2.0#5@23-24
5|MTU 1 MTU 2|Confirmed|0d 11 D 5.1k2@0-3 2.0#1@4-5 1.1k2@6-9 2.0#2@10-11";
    tries(&rt, &rt, Question::Lines, options(rt.alloc())?, cases)
}

// Whether a field repeats an option is asked anew of each edited line, by the fields that are before it then.
#[test]
fn asks_an_edited_line_anew(rt: HostRuntime) -> Result<(), Fail> {
    let cases = "\
SET MTU 1 MTU 2\r\x08SPEED 2\r|Confirmed|@SET MTU 1 MTU 2\r
?Already given\r
@SET MTU 1 SPEED 2\r
@|
0d 17 D 0.0k9@0-3 1.1k2@4-7 2.0#1@8-9 1.1k3@10-15 3.0#2@16-17

SET MTU 1 MTU \x7f\x7f\x7f\x7fS 2\r|Confirmed|@SET MTU 1 MTU \x08 \x08\x08 \x08\x08 \x08\x08 \x08S 2\r
@|
20 14 F29.1@10 0.0k9@0-3 1.1k2@4-7 2.0#1@8-9
7f 13 O 0.0k9@0-3 1.1k2@4-7 2.0#1@8-9
7f 12 O 0.0k9@0-3 1.1k2@4-7 2.0#1@8-9
7f 11 O 0.0k9@0-3 1.1k2@4-7 2.0#1@8-9
7f 10 O 0.0k9@0-3 1.1k2@4-7 2.0#1@8-9
53 11 O 0.0k9@0-3 1.1k2@4-7 2.0#1@8-9
20 12 O 0.0k9@0-3 1.1k2@4-7 2.0#1@8-9 1.1k3@10-11
32 13 O 0.0k9@0-3 1.1k2@4-7 2.0#1@8-9 1.1k3@10-11
0d 13 D 0.0k9@0-3 1.1k2@4-7 2.0#1@8-9 1.1k3@10-11 3.0#2@12-13

SET M 1 M \x7f\x7f\x7f\x7f\x7f\x7fM 2\r|Confirmed|@SET M 1 M \x08 \x08\x08 \x08\x08 \x08\x08 \x08\x08 \x08\x08 \x08M 2\r
@|
20 10 F29.1@8 0.0k9@0-3 1.1k2@4-5 2.0#1@6-7
7f 9 O 0.0k9@0-3 1.1k2@4-5 2.0#1@6-7
7f 8 O 0.0k9@0-3 1.1k2@4-5 2.0#1@6-7
7f 7 O 0.0k9@0-3 1.1k2@4-5
7f 6 O 0.0k9@0-3 1.1k2@4-5
7f 5 O 0.0k9@0-3
7f 4 O 0.0k9@0-3
4d 5 O 0.0k9@0-3
20 6 O 0.0k9@0-3 1.1k2@4-5
32 7 O 0.0k9@0-3 1.1k2@4-5
0d 7 D 0.0k9@0-3 1.1k2@4-5 2.0#2@6-7";
    tries(&rt, &rt, Question::Keys, options(rt.alloc())?, cases)
}

// `?` lists the options that the line does not have yet, of those that go on from what is typed.
#[test]
fn lists_the_options_that_are_left(rt: HostRuntime) -> Result<(), Fail> {
    let cases = "\
SET MTU 1 ?|Edited|@SET MTU 1 ? confirm with carriage return\r
 or one of the following:\r
  COMMENT\r
  SPEED\r
 or one of the following:\r
  /FAST\r
  /LIMIT:\r
@SET MTU 1 |
3f 10 O 0.0k9@0-3 1.1k2@4-7 2.0#1@8-9

SET M 1 S 2 C A ?|Edited|@SET M 1 S 2 C A ? confirm with carriage return\r
 or keyword, none matches\r
 or one of the following:\r
  /FAST\r
  /LIMIT:\r
@SET M 1 S 2 C A |
3f 16 O 0.0k9@0-3 1.1k2@4-5 2.0#1@6-7 1.1k3@8-9 3.0#2@10-11 1.1k1@12-13 4.0w@14-15

SET /FAST M?|Edited|@SET /FAST M? one of the following:\r
  MTU\r
@SET /FAST M|
3f 11 O 0.0k9@0-3 1.2s4@4-9

SET MTU 1 M?|Edited|@SET MTU 1 M? keyword, none matches\r
@SET MTU 1 M|
3f 11 O 0.0k9@0-3 1.1k2@4-7 2.0#1@8-9

SET /FAST /?|Edited|@SET /FAST /? one of the following:\r
  /LIMIT:\r
@SET /FAST /|
3f 11 O 0.0k9@0-3 1.2s4@4-9";
    tries(&rt, &rt, Question::Keys, options(rt.alloc())?, cases)
}

// ESC leaves out what the line already has: another option goes on in its place, and it rings where none is left. Of
// two that begin alike the other is whole.
#[test]
fn completes_the_options_that_are_left(rt: HostRuntime) -> Result<(), Fail> {
    let cases = "\
SET MTU 1 M\x1b|Edited|@SET MTU 1 M\x07|

SET MTU 1 MTU\x1b|Edited|@SET MTU 1 MTU\x07|

SET MTU 1 S\x1b|Edited|@SET MTU 1 SPEED |

SET SPEED 2 M\x1b|Edited|@SET SPEED 2 MTU |

ADD C\x1b|Edited|@ADD CO\x07|

ADD COST C\x1b|Edited|@ADD COST COUNT |

ADD COUNT C\x1b|Edited|@ADD COUNT COST |

ADD COUNT COST C\x1b|Edited|@ADD COUNT COST C\x07|

ADD COST COUNT NUMBER \x1b|Edited|@ADD COST COUNT NUMBER NAME |

ADD COST COUNT NUMBER NAME \x1b|Edited|@ADD COST COUNT NUMBER NAME \x07|";
    tries(&rt, &rt, Question::Keys, options(rt.alloc())?, cases)
}

// A short form is left out with the entry that it stands for.
#[test]
fn leaves_out_a_short_form(rt: HostRuntime) -> Result<(), Fail> {
    let cases = "\
ADD N\x1b|Edited|@ADD NUMBER |

ADD NAME N\x1b|Edited|@ADD NAME NUMBER |

ADD NUMBER N\x1b|Edited|@ADD NUMBER NAME |

ADD N N\x1b|Edited|@ADD N NAME |

ADD NAME NUMBER N\x1b|Edited|@ADD NAME NUMBER N\x07|";
    tries(&rt, &rt, Question::Keys, options(rt.alloc())?, cases)
}

#[test]
fn completes_the_switches_that_are_left(rt: HostRuntime) -> Result<(), Fail> {
    let cases = "\
SET /\x1b|Edited|@SET /\x07|

SET /F\x1b|Edited|@SET /FAST |

SET /FAST /F\x1b|Edited|@SET /FAST /F\x07|

SET /FAST /\x1b|Edited|@SET /FAST /LIMIT:|

SET /LIMIT:5 /\x1b|Edited|@SET /LIMIT:5 /FAST |

SET /FAST M\x1b|Edited|@SET /FAST MTU |";
    tries(&rt, &rt, Question::Keys, options(rt.alloc())?, cases)
}
