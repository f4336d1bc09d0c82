// Lines as they are edited, completed and helped.
use crate::case::try_cases;
use std::test::Fail;

const SHOWS_WHAT_MAY_COME: &str = "# at each node, in order
keys ?
screen @? confirm with carriage return{EOL} or one of the following:{EOL}  DELETE{EOL}  HEADERS{EOL}  QUIT{EOL}
screen   READ{EOL}  SEND{EOL}@{EOL}

keys READ ?
screen @READ ? guide word (MESSAGE){EOL} or message number{EOL}@READ {EOL}

keys DELETE (MESSAGE) ?
screen @DELETE (MESSAGE) ? message number{EOL}@DELETE (MESSAGE) {EOL}

keys READ 1?
screen @READ 1? message number{EOL}@READ 1{EOL}

keys SEND ?
screen @SEND ? guide word (TO){EOL} or user name{EOL}@SEND {EOL}

keys SEND (TO) ?
screen @SEND (TO) ? user name{EOL}@SEND (TO) {EOL}

keys SEND S?
screen @SEND S? user name{EOL}@SEND S{EOL}

keys HEADERS ?
screen @HEADERS ? confirm with carriage return{EOL}@HEADERS {EOL}

keys READ 1 ?
screen @READ 1 ? confirm with carriage return{EOL}@READ 1 {EOL}

keys SEND SMITH ?
screen @SEND SMITH ? guide word (ABOUT){EOL} or quoted string{EOL}@SEND SMITH {EOL}

keys SEND SMITH (ABOUT) ?
screen @SEND SMITH (ABOUT) ? quoted string{EOL}@SEND SMITH (ABOUT) {EOL}

keys SEND SMITH \"A?
screen @SEND SMITH \"A? quoted string{EOL}@SEND SMITH \"A{EOL}

# of a word, and of what is refused
keys R?
screen @R? one of the following:{EOL}  READ{EOL}@R{EOL}

keys X?
screen @X? keyword, none matches{EOL}@X{EOL}

keys READ 0 ?
screen @READ 0 ? Value not accepted{EOL}@READ 0 {EOL}";

#[test]
fn shows_what_may_come(rt: HostRuntime) -> Result<(), Fail> {
    try_cases(&rt, SHOWS_WHAT_MAY_COME)
}

const COMPLETES_WHAT_WAS_BEGUN: &str = "# a name of a user, with the guide word after it
keys SEND S{ESC}
screen @SEND SMITH (ABOUT) {EOL}

# several begin so, or none does
in EXEC20 2{LF}D OPERATOR 1{LF}D SMITH 1{LF}D SMYTHE 1{LF}C OPERATOR{LF}E{LF}
keys SEND S{ESC}I{ESC}
screen @SEND SM{BEL}ITH (ABOUT) {EOL}

keys SEND X{ESC}
screen @SEND X{BEL}{EOL}

# a directory with a point is none
in EXEC20 2{LF}D OPERATOR 1{LF}D SMITH 1{LF}D SMITH.SRC 1{LF}C OPERATOR{LF}E{LF}
keys SEND S{ESC}
screen @SEND SMITH (ABOUT) {EOL}

# commands and guide words
keys D{ESC}
screen @DELETE (MESSAGE) {EOL}

keys h{ESC}
screen @hEADERS {EOL}

keys SEND{ESC}O{ESC}\"A\"{ESC}{CR}{^Z}
clock 0
screen @SEND (TO) OPERATOR (ABOUT) \"A\" {EOL}^Z{EOL} Sent to OPERATOR 0001{EOL}@{EOL}
out {HEAD}F OPERATOR MSG-0001.MAIL.1 U 1 0 - 13{LF}OPERATOR: A{EOL}{LF}E{LF}

keys SEND SMITH {ESC}
screen @SEND SMITH (ABOUT) {EOL}

# a number that is one is whole, and nothing goes on to one
keys READ 12{ESC}
screen @READ 12 {EOL}

keys READ 0{ESC}
screen @READ 0{BEL}{EOL}

keys READ (MESSAGE) {ESC}
screen @READ (MESSAGE) {BEL}{EOL}

# no part of a file stands in a line
keys SEND S{^F}
screen @SEND S{BEL}{EOL}";

#[test]
fn completes_what_was_begun(rt: HostRuntime) -> Result<(), Fail> {
    try_cases(&rt, COMPLETES_WHAT_WAS_BEGUN)
}

const EDITS_LINES: &str = "# into a field that was read
in {HEAD}F OPERATOR MSG-0002.MAIL.1 U 1 0 - 1{LF}B{LF}E{LF}
keys READ 1{DEL}2{CR}
screen @READ 1{RUB}2{EOL}B{EOL}@{EOL}

in {HEAD}F OPERATOR MSG-0002.MAIL.1 U 1 0 - 1{LF}B{LF}E{LF}
keys DEL 2{^U}READ 2{CR}
screen @DEL 2{RUB}{RUB}{RUB}{RUB}{RUB}READ 2{EOL}B{EOL}@{EOL}

# what stood before the fault comes back, but not after a refusal of the command
keys READ X{CR}{^H}1{CR}{^H}
screen @READ X{EOL}?Value not accepted{EOL}@READ 1{EOL}?No such message{EOL}@{BEL}{EOL}

# an empty line, one of a comment, and one that is given up do nothing
keys {CR}! nothing{CR}{LF}READ 1{^C}
screen @{EOL}@! nothing{EOL}@{EOL}@READ 1^C{EOL}@{EOL}
acts 3

# no command, and more than a command may have
keys X{CR}LOGOUT{CR}HEADERS 1{CR}QUIT X{CR}
screen @X{EOL}?Unrecognized keyword{EOL}@LOGOUT{EOL}?Unrecognized keyword{EOL}@HEADERS 1{EOL}?Not confirmed{EOL}
screen @QUIT X{EOL}?Not confirmed{EOL}@{EOL}
acts 0";

#[test]
fn edits_lines(rt: HostRuntime) -> Result<(), Fail> {
    try_cases(&rt, EDITS_LINES)
}
