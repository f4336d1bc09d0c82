// What is in a mailbox, and how it is listed, read and deleted.
use crate::case::try_cases;
use std::test::Fail;

const LISTS_MESSAGES: &str = "# none
keys HEADERS{CR}
screen @HEADERS{EOL}@{EOL}

# in the order of their numbers, with their days
in {HEAD}F OPERATOR MSG-0002.MAIL.1 U 1 86400 - 4{LF}B{CR}{LF}x{LF}
in F OPERATOR MSG-0010.MAIL.1 U 0 946684800 7 2{LF}CD{LF}E{LF}
keys H{CR}
screen @H{EOL} 0002 2-JAN-1970 B{EOL} 0010 1-JAN-2000 CD{EOL}@{EOL}

# a first line ends at CR or LF, whichever comes first, or where the file does
in {HEAD}F OPERATOR MSG-0001.MAIL.1 U 1 0 - 4{LF}A{CR}B{LF}{LF}F OPERATOR MSG-0002.MAIL.1 U 1 0 - 4{LF}A{LF}B{CR}{LF}
in F OPERATOR MSG-0003.MAIL.1 U 1 0 - 0{LF}{LF}F OPERATOR MSG-0004.MAIL.1 U 1 0 - 2{LF}{LF}A{LF}E{LF}
keys HEADERS{CR}
screen @HEADERS{EOL} 0001 1-JAN-1970 A{EOL} 0002 1-JAN-1970 A{EOL} 0003 1-JAN-1970 {EOL} 0004 1-JAN-1970 {EOL}@{EOL}

# of 90 bytes all are shown, and of 91 the first 90
in {HEAD}F OPERATOR MSG-0001.MAIL.1 U 1 0 - 90{LF}{89*A}B{LF}F OPERATOR MSG-0002.MAIL.1 U 1 0 - 91{LF}{89*A}BC{LF}
in F OPERATOR MSG-0003.MAIL.1 U 1 0 - 93{LF}{89*A}B{EOL}C{LF}E{LF}
keys HEADERS{CR}
screen @HEADERS{EOL} 0001 1-JAN-1970 {89*A}B{EOL} 0002 1-JAN-1970 {89*A}B{EOL} 0003 1-JAN-1970 {89*A}B{EOL}@{EOL}

# a byte that is not 32 to 126 is a dot
in {HEAD}F OPERATOR MSG-0001.MAIL.1 U 1 0 - 12{LF}A{0}{9}{31} ~{127}{128}{255}?BC{LF}E{LF}
keys HEADERS{CR}
screen @HEADERS{EOL} 0001 1-JAN-1970 A... ~...?BC{EOL}@{EOL}

# a TAB of a subject too
keys SEND OPERATOR \"A{TAB}B\"{CR}{^Z}HEADERS{CR}
screen @SEND OPERATOR \"A B\"{EOL}^Z{EOL} Sent to OPERATOR 0001{EOL}
screen @HEADERS{EOL} 0001 1-JAN-1970 OPERATOR: A.B{EOL}@{EOL}
out {HEAD}F OPERATOR MSG-0001.MAIL.1 U 1 1 - 15{LF}OPERATOR: A{TAB}B{EOL}{LF}E{LF}";

#[test]
fn lists_messages(rt: HostRuntime) -> Result<(), Fail> {
    try_cases(&rt, LISTS_MESSAGES)
}

const READS_MESSAGES: &str =
    "# the bytes as they are; the end of a line is shown after what ends in none
in {HEAD}F OPERATOR MSG-0001.MAIL.1 U 1 0 - 5{LF}A{9}{0}{255}B{LF}F OPERATOR MSG-0002.MAIL.1 U 1 0 5 2{LF}A{LF}{LF}
in F OPERATOR MSG-0003.MAIL.1 U 1 0 - 0{LF}{LF}F OPERATOR MSG-0004.MAIL.1 U 1 0 - 2{LF}A{CR}{LF}E{LF}
keys READ 1{CR}READ 2{CR}READ 3{CR}READ 4{CR}
screen @READ 1{EOL}A{9}{0}{255}B{EOL}@READ 2{EOL}A{LF}@READ 3{EOL}@READ 4{EOL}A{CR}{EOL}@{EOL}

# each is one of the connected directory
in {HEAD}F SMITH MSG-0001.MAIL.1 U 1 0 - 2{LF}HI{LF}E{LF}
keys READ 1{CR}DELETE 1{CR}HEADERS{CR}
screen @READ 1{EOL}?No such message{EOL}@DELETE 1{EOL}?No such message{EOL}@HEADERS{EOL}@{EOL}";

#[test]
fn reads_messages(rt: HostRuntime) -> Result<(), Fail> {
    try_cases(&rt, READS_MESSAGES)
}

const KEEPS_OUT_OTHER_FILES: &str = "# one that is marked is no message
in {HEAD}F OPERATOR MSG-0001.MAIL.1 D 1 0 - 2{LF}HI{LF}E{LF}
keys HEADERS{CR}READ 1{CR}DELETE 1{CR}
screen @HEADERS{EOL}@READ 1{EOL}?No such message{EOL}@DELETE 1{EOL}?No such message{EOL}@{EOL}

# nor is one of another generation
in {HEAD}F OPERATOR MSG-0001.MAIL.2 U 1 0 - 2{LF}HI{LF}E{LF}
keys HEADERS{CR}READ 1{CR}DELETE 1{CR}
screen @HEADERS{EOL}@READ 1{EOL}?No such message{EOL}@DELETE 1{EOL}?No such message{EOL}@{EOL}

# it is not touched where the message beside it is deleted
in {HEAD}F OPERATOR MSG-0001.MAIL.1 U 0 0 - 1{LF}A{LF}F OPERATOR MSG-0001.MAIL.2 U 0 0 - 1{LF}B{LF}E{LF}
keys HEADERS{CR}READ 1{CR}DELETE 1{CR}HEADERS{CR}
screen @HEADERS{EOL} 0001 1-JAN-1970 A{EOL}@READ 1{EOL}A{EOL}@DELETE 1{EOL} Deleted 0001{EOL}@HEADERS{EOL}@{EOL}
out {HEAD}F OPERATOR MSG-0001.MAIL.1 D 0 0 - 1{LF}A{LF}F OPERATOR MSG-0001.MAIL.2 U 0 0 - 1{LF}B{LF}E{LF}

# nor are those of another name or type
in {HEAD}F OPERATOR MSG-000.MAIL.1 U 1 0 - 0{LF}{LF}F OPERATOR MSG-0001.MAI.1 U 1 0 - 0{LF}{LF}
in F OPERATOR MSG-0001.MAILS.1 U 1 0 - 0{LF}{LF}F OPERATOR MSG-00010.MAIL.1 U 1 0 - 0{LF}{LF}
in F OPERATOR MSG-000A.MAIL.1 U 1 0 - 0{LF}{LF}F OPERATOR MSG00001.MAIL.1 U 1 0 - 0{LF}{LF}
in F OPERATOR XMSG-0001.MAIL.1 U 1 0 - 0{LF}{LF}E{LF}
keys HEADERS{CR}READ 1{CR}READ 10{CR}
screen @HEADERS{EOL}@READ 1{EOL}?No such message{EOL}@READ 10{EOL}?No such message{EOL}@{EOL}

# one with the number 0 is listed, and no number names it
in {HEAD}F OPERATOR MSG-0000.MAIL.1 U 1 0 - 1{LF}A{LF}E{LF}
keys HEADERS{CR}READ 0{CR}DELETE 0000{CR}
screen @HEADERS{EOL} 0000 1-JAN-1970 A{EOL}
screen @READ 0{EOL}?Value not accepted{EOL}@DELETE 0000{EOL}?Value not accepted{EOL}@{EOL}";

#[test]
fn keeps_out_other_files(rt: HostRuntime) -> Result<(), Fail> {
    try_cases(&rt, KEEPS_OUT_OTHER_FILES)
}
