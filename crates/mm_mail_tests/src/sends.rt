// Messages as they are typed in and sent.
use crate::case::try_cases;
use std::test::Fail;

const TYPES_A_MESSAGE_IN: &str = "# without the end of a line
clock 0
keys SEND OPERATOR \"HI\"{CR}BYE{^Z}READ 1{CR}
screen @SEND OPERATOR \"HI\"{EOL}BYE^Z{EOL} Sent to OPERATOR 0001{EOL}@READ 1{EOL}OPERATOR: HI{EOL}BYE{EOL}@{EOL}
out {HEAD}F OPERATOR MSG-0001.MAIL.1 U 1 0 - 17{LF}OPERATOR: HI{EOL}BYE{LF}E{LF}

# with nothing after its subject
clock 0
keys SEND OPERATOR \"HI\"{CR}{^Z}READ 1{CR}
screen @SEND OPERATOR \"HI\"{EOL}^Z{EOL} Sent to OPERATOR 0001{EOL}@READ 1{EOL}OPERATOR: HI{EOL}@{EOL}
out {HEAD}F OPERATOR MSG-0001.MAIL.1 U 1 0 - 14{LF}OPERATOR: HI{EOL}{LF}E{LF}

# TAB, LF, DEL, and keys that ring: ESC, ?, which is a byte here, control-U and DEL after the end of a line
clock 0
keys SEND SMITH \"HI\"{CR}A{TAB}?{ESC}{^U}BC{DEL}{LF}{DEL}D{^Z}
screen @SEND SMITH \"HI\"{EOL}A ?{BEL}{BEL}BC{RUB}{EOL}{BEL}D^Z{EOL} Sent to SMITH 0001{EOL}@{EOL}
out {HEAD}F SMITH MSG-0001.MAIL.1 U 1 0 - 21{LF}OPERATOR: HI{EOL}A{TAB}?B{EOL}D{LF}E{LF}

# control-C drops it
keys SEND SMITH \"HI\"{CR}BYE{^C}HEADERS{CR}
screen @SEND SMITH \"HI\"{EOL}BYE^C{EOL}@HEADERS{EOL}@{EOL}
acts 2

# the case of letters does not count in a command or a name, and stays in a subject
clock 0
keys send (to) smith (about) \"hi\"{CR}{^Z}
screen @send (to) smith (about) \"hi\"{EOL}^Z{EOL} Sent to SMITH 0001{EOL}@{EOL}
out {HEAD}F SMITH MSG-0001.MAIL.1 U 1 0 - 14{LF}OPERATOR: hi{EOL}{LF}E{LF}

# a line that is continued
clock 0
keys SEND SMITH -{CR}\"HI\"{CR}{^Z}
screen @SEND SMITH -{EOL}\"HI\"{EOL}^Z{EOL} Sent to SMITH 0001{EOL}@{EOL}
out {HEAD}F SMITH MSG-0001.MAIL.1 U 1 0 - 14{LF}OPERATOR: HI{EOL}{LF}E{LF}

# the file keeps as many generations as its directory says
in EXEC20 2{LF}D OPERATOR 1{LF}D SMITH 5{LF}C OPERATOR{LF}E{LF}
clock 0
keys SEND SMITH \"HI\"{CR}{^Z}
screen @SEND SMITH \"HI\"{EOL}^Z{EOL} Sent to SMITH 0001{EOL}@{EOL}
out ..C OPERATOR{LF}F SMITH MSG-0001.MAIL.1 U 5 0 - 14{LF}OPERATOR: HI{EOL}{LF}E{LF}";

// [message]
#[test]
fn types_a_message_in(rt: HostRuntime) -> Result<(), Fail> {
    try_cases(&rt, TYPES_A_MESSAGE_IN)
}

const REFUSES_A_FILE_THAT_IS_TOO_LARGE: &str = "# of 65,536 bytes
clock 0
keys SEND SMITH \"HI\"{CR}{65522*A}{^Z}
screen @SEND SMITH \"HI\"{EOL}{65522*A}^Z{EOL} Sent to SMITH 0001{EOL}@{EOL}
out {HEAD}F SMITH MSG-0001.MAIL.1 U 1 0 - 65536{LF}OPERATOR: HI{EOL}{65522*A}{LF}E{LF}

# of 65,537
keys SEND SMITH \"HI\"{CR}{65523*A}{^Z}HEADERS{CR}
screen @SEND SMITH \"HI\"{EOL}{65523*A}^Z{EOL}?File too large{EOL}@HEADERS{EOL}@{EOL}
acts 2

# no more than 65,536 are typed in
keys SEND SMITH \"HI\"{CR}{65536*A}B{CR}{^Z}
screen @SEND SMITH \"HI\"{EOL}{65536*A}{BEL}{BEL}^Z{EOL}?File too large{EOL}@{EOL}";

#[test]
fn refuses_a_file_that_is_too_large(rt: HostRuntime) -> Result<(), Fail> {
    try_cases(&rt, REFUSES_A_FILE_THAT_IS_TOO_LARGE)
}

const TAKES_SUBJECTS: &str = "# of 39 bytes, with a quote that is typed twice and a TAB
clock 0
keys SEND SMITH \"{36*A}\"\"{TAB}B\"{CR}{^Z}
screen @SEND SMITH \"{36*A}\"\" B\"{EOL}^Z{EOL} Sent to SMITH 0001{EOL}@{EOL}
out {HEAD}F SMITH MSG-0001.MAIL.1 U 1 0 - 51{LF}OPERATOR: {36*A}\"{TAB}B{EOL}{LF}E{LF}

# of quotes alone
clock 0
keys SEND SMITH \"{39*\"\"}\"{CR}{^Z}
screen @SEND SMITH \"{39*\"\"}\"{EOL}^Z{EOL} Sent to SMITH 0001{EOL}@{EOL}
out {HEAD}F SMITH MSG-0001.MAIL.1 U 1 0 - 51{LF}OPERATOR: {39*\"}{EOL}{LF}E{LF}

# of none, and of what is no comment in it
clock 0
keys SEND SMITH \"\"{CR}{^Z}SEND SMITH \"a ! b ; (c)-\"{CR}{^Z}
screen @SEND SMITH \"\"{EOL}^Z{EOL} Sent to SMITH 0001{EOL}
screen @SEND SMITH \"a ! b ; (c)-\"{EOL}^Z{EOL} Sent to SMITH 0002{EOL}@{EOL}
out {HEAD}F SMITH MSG-0001.MAIL.1 U 1 0 - 12{LF}OPERATOR: {EOL}{LF}
out F SMITH MSG-0002.MAIL.1 U 1 0 - 24{LF}OPERATOR: a ! b ; (c)-{EOL}{LF}E{LF}

# of 40 bytes
keys SEND SMITH \"{37*A}\"\"{TAB}B\"{CR}SEND SMITH \"{40*A}\"{CR}
screen @SEND SMITH \"{37*A}\"\" B\"{EOL}?Field too long{EOL}@SEND SMITH \"{40*A}\"{EOL}?Field too long{EOL}@{EOL}
acts 0

# with a hyphen at the end of a row
keys SEND SMITH \"A-{CR}B\"{CR}
screen @SEND SMITH \"A-{EOL}B\"{EOL}?Closing quote is missing{EOL}@{EOL}
acts 0

# without a quote, or one of its quotes
keys SEND SMITH{CR}SEND SMITH HI{CR}SEND SMITH \"HI{CR}SEND SMITH \"HI\" X{CR}
screen @SEND SMITH{EOL}?Quoted string expected{EOL}@SEND SMITH HI{EOL}?Quoted string expected{EOL}
screen @SEND SMITH \"HI{EOL}?Closing quote is missing{EOL}@SEND SMITH \"HI\" X{EOL}?Not confirmed{EOL}@{EOL}
acts 0";

#[test]
fn takes_subjects(rt: HostRuntime) -> Result<(), Fail> {
    try_cases(&rt, TAKES_SUBJECTS)
}

const TAKES_RECEIVERS: &str = "# a directory with a point is no user, nor is what is none
in EXEC20 2{LF}D OPERATOR 1{LF}D SMITH 1{LF}D SMITH.SRC 1{LF}C OPERATOR{LF}E{LF}
keys SEND SMITH.SRC \"HI\"{CR}SEND JONES \"HI\"{CR}SEND <SMITH> \"HI\"{CR}SEND{CR}
screen @SEND SMITH.SRC \"HI\"{EOL}?No such user{EOL}@SEND JONES \"HI\"{EOL}?No such user{EOL}
screen @SEND <SMITH> \"HI\"{EOL}?No such user{EOL}@SEND{EOL}?No such user{EOL}@{EOL}
acts 0

# but it may send
in EXEC20 2{LF}D OPERATOR 1{LF}D SMITH 1{LF}D SMITH.SRC 1{LF}C SMITH.SRC{LF}E{LF}
clock 0
keys SEND SMITH \"HI\"{CR}{^Z}
screen @SEND SMITH \"HI\"{EOL}^Z{EOL} Sent to SMITH 0001{EOL}@{EOL}
out ..F SMITH MSG-0001.MAIL.1 U 1 0 - 15{LF}SMITH.SRC: HI{EOL}{LF}E{LF}";

#[test]
fn takes_receivers(rt: HostRuntime) -> Result<(), Fail> {
    try_cases(&rt, TAKES_RECEIVERS)
}
