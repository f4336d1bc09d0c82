// Whole sessions.
use crate::case::try_cases;
use std::test::Fail;

const SENDS_AND_READS: &str = "# a message is sent
clock 0
keys SEND SMITH \"HI\"{CR}BYE{CR}{^Z}QUIT{CR}
screen @SEND SMITH \"HI\"{EOL}BYE{EOL}^Z{EOL} Sent to SMITH 0001{EOL}@QUIT{EOL}
out {HEAD}F SMITH MSG-0001.MAIL.1 U 1 0 - 19{LF}OPERATOR: HI{EOL}BYE{EOL}{LF}E{LF}

# it is listed, read and deleted by its receiver
in {SMITH}F SMITH MSG-0001.MAIL.1 U 1 0 - 19{LF}OPERATOR: HI{EOL}BYE{EOL}{LF}E{LF}
clock 0
keys HEADERS{CR}READ 1{CR}DEL 1{CR}READ 1{CR}
screen @HEADERS{EOL} 0001 1-JAN-1970 OPERATOR: HI{EOL}@READ 1{EOL}OPERATOR: HI{EOL}BYE{EOL}@DEL 1{EOL} Deleted 0001{EOL}
screen @READ 1{EOL}?No such message{EOL}@{EOL}
out {SMITH}F SMITH MSG-0001.MAIL.1 D 1 0 - 19{LF}OPERATOR: HI{EOL}BYE{EOL}{LF}E{LF}

# both in one run: a message to oneself
clock 0
keys SEND OPERATOR \"HI\"{CR}BYE{CR}{^Z}HEADERS{CR}READ 1{CR}QUIT{CR}
screen @SEND OPERATOR \"HI\"{EOL}BYE{EOL}^Z{EOL} Sent to OPERATOR 0001{EOL}
screen @HEADERS{EOL} 0001 1-JAN-1970 OPERATOR: HI{EOL}@READ 1{EOL}OPERATOR: HI{EOL}BYE{EOL}@QUIT{EOL}
out {HEAD}F OPERATOR MSG-0001.MAIL.1 U 1 0 - 19{LF}OPERATOR: HI{EOL}BYE{EOL}{LF}E{LF}";

#[test]
fn sends_and_reads(rt: HostRuntime) -> Result<(), Fail> {
    try_cases(&rt, SENDS_AND_READS)
}

const ENDS_AT_QUIT: &str = "# no key is asked for after it
keys QUIT{CR}HEADERS{CR}
screen @QUIT{EOL}
left HEADERS{CR}
acts 1

# what is marked stays
in {HEAD}F OPERATOR MSG-0001.MAIL.1 D 1 0 - 2{LF}HI{LF}F OPERATOR OLD.TXT.1 D 1 0 - 2{LF}HI{LF}E{LF}
keys q{CR}
screen @q{EOL}

# the end of the keys is an end too, and the line that is open is ended
screen @{EOL}
acts 0

keys QUIT
screen @QUIT{EOL}
acts 0

# what is typed in is dropped there
keys SEND SMITH \"HI\"{CR}BYE
screen @SEND SMITH \"HI\"{EOL}BYE{EOL}
acts 1";

#[test]
fn ends_at_quit(rt: HostRuntime) -> Result<(), Fail> {
    try_cases(&rt, ENDS_AT_QUIT)
}

const TAKES_A_MOMENT_FOR_EACH_LINE: &str =
    "# an empty line and one that is refused by what it commands take one, and a message that of its line
keys SEND SMITH \"A\"{CR}{^Z}{CR}READ 1{CR}SEND SMITH \"B\"{CR}X{CR}Y{^Z}
screen @SEND SMITH \"A\"{EOL}^Z{EOL} Sent to SMITH 0001{EOL}@{EOL}@READ 1{EOL}?No such message{EOL}
screen @SEND SMITH \"B\"{EOL}X{EOL}Y^Z{EOL} Sent to SMITH 0002{EOL}@{EOL}
out {HEAD}F SMITH MSG-0001.MAIL.1 U 1 1 - 13{LF}OPERATOR: A{EOL}{LF}
out F SMITH MSG-0002.MAIL.1 U 1 4 - 17{LF}OPERATOR: B{EOL}X{EOL}Y{LF}E{LF}
acts 4

# one that is refused as it is read, or given up, takes none
keys READ{CR}HEADERS{^C}X{CR}
screen @READ{EOL}?Field is missing{EOL}@HEADERS^C{EOL}@X{EOL}?Unrecognized keyword{EOL}@{EOL}
acts 0

# a moment past the last day is the last moment
clock 4102444800
keys SEND OPERATOR \"A\"{CR}{^Z}HEADERS{CR}
screen @SEND OPERATOR \"A\"{EOL}^Z{EOL} Sent to OPERATOR 0001{EOL}@HEADERS{EOL} 0001 31-DEC-2099 OPERATOR: A{EOL}@{EOL}
out {HEAD}F OPERATOR MSG-0001.MAIL.1 U 1 4102444799 - 13{LF}OPERATOR: A{EOL}{LF}E{LF}";

#[test]
fn takes_a_moment_for_each_line(rt: HostRuntime) -> Result<(), Fail> {
    try_cases(&rt, TAKES_A_MOMENT_FOR_EACH_LINE)
}
