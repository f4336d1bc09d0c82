// How a run ends.
use crate::case::try_cases;
use std::test::Fail;

const EACH_STATUS_HAS_ITS_CAUSE: &str = "# the keys fail within a message: it is not sent
get 19
keys SEND SMITH \"HI\"{CR}BYE{^Z}QUIT{CR}
screen @SEND SMITH \"HI\"{EOL}BYE{EOL}?Read fault{EOL}
status ReadFault
left {^Z}QUIT{CR}

# after it: it is sent
get 20
clock 0
keys SEND SMITH \"HI\"{CR}BYE{^Z}QUIT{CR}
screen @SEND SMITH \"HI\"{EOL}BYE^Z{EOL} Sent to SMITH 0001{EOL}@{EOL}?Read fault{EOL}
out {HEAD}F SMITH MSG-0001.MAIL.1 U 1 0 - 17{LF}OPERATOR: HI{EOL}BYE{LF}E{LF}
status ReadFault
left QUIT{CR}

# the screen fails in the echo of a line: no message is begun
room 17
keys SEND SMITH \"HI\"{CR}BYE{^Z}
screen @SEND SMITH \"HI\"{CR}
status WriteFault
left BYE{^Z}
acts 0

# in the echo of control-Z: the message is not sent
room 24
keys SEND SMITH \"HI\"{CR}BYE{^Z}QUIT{CR}
screen @SEND SMITH \"HI\"{EOL}BYE^Z{CR}
status WriteFault
left QUIT{CR}
acts 1

# in its reply: it is sent
room 30
clock 0
keys SEND SMITH \"HI\"{CR}BYE{^Z}QUIT{CR}
screen @SEND SMITH \"HI\"{EOL}BYE^Z{EOL} Sent
out {HEAD}F SMITH MSG-0001.MAIL.1 U 1 0 - 17{LF}OPERATOR: HI{EOL}BYE{LF}E{LF}
status WriteFault
left QUIT{CR}

# a message is deleted where the screen fails in the reply
in {HEAD}F OPERATOR MSG-0001.MAIL.1 U 1 0 - 1{LF}A{LF}E{LF}
room 12
keys DELETE 1{CR}QUIT{CR}
screen @DELETE 1{EOL} 
out {HEAD}F OPERATOR MSG-0001.MAIL.1 D 1 0 - 1{LF}A{LF}E{LF}
status WriteFault
left QUIT{CR}

# the file cannot be created, after the whole run
call 1
keys HEADERS{CR}QUIT{CR}
screen @HEADERS{EOL}@QUIT{EOL}?Host fault{EOL}
out none
status HostFault

# the image does not fit
file-room 10
keys QUIT{CR}
screen @QUIT{EOL}?Host fault{EOL}
out EXEC20 2{LF}D
status HostFault

# IN cannot be read
call 0
keys QUIT{CR}
screen ?Host fault{EOL}
out none
status HostFault
left QUIT{CR}

# IN is not there
in none
keys QUIT{CR}
screen ?No image{EOL}
out none
status NoImage
left QUIT{CR}

# IN is no image
in EXEC20 2{LF}X
keys QUIT{CR}
screen ?Image is bad at 9: Cut{EOL}
out none
status BadImage { at: 9, kind: Cut }
left QUIT{CR}";

// [close]
#[test]
fn each_status_has_its_cause(rt: HostRuntime) -> Result<(), Fail> {
    try_cases(&rt, EACH_STATUS_HAS_ITS_CAUSE)
}

// Words that ask for nothing, those of a run in a line, with commas between them; `{}` is a word of no bytes.
const OTHER: &str = "{}
IN
IN,IN
,OUT
IN,
-n,OUT
IN,-n
IN,-o
-w,IN,OUT
IN,OUT,-w
IN,OUT,X
IN,OUT,{}
A,B,C,D,E";

// Nothing else is touched.
const REFUSED: &str = "keys QUIT{CR}
status Usage
screen Usage: mm20 IN OUT{EOL}
out none
left QUIT{CR}
acts 0";

fn refuse(runtime: &HostRuntime, words: &str) -> Result<(), Fail> {
    let case = format!(in runtime.alloc(); "words {words}\n{REFUSED}")?;
    try_cases(runtime, case.as_str())
}

#[test]
fn shows_the_usage_of_other_words(rt: HostRuntime) -> Result<(), Fail> {
    for words in OTHER.lines() {
        refuse(&rt, words)?;
    }
    Ok(())
}
