// The numbers of messages, as they are typed and as they are given.
use crate::case::try_cases;
use std::test::Fail;

const READS_NUMBERS: &str = "# from 1 to 9999, with zeros before them or none
in {HEAD}F OPERATOR MSG-0001.MAIL.1 U 1 0 - 1{LF}A{LF}F OPERATOR MSG-0007.MAIL.1 U 1 0 - 1{LF}B{LF}
in F OPERATOR MSG-9999.MAIL.1 U 1 0 - 1{LF}C{LF}E{LF}
keys READ 1{CR}READ 0007{CR}READ (MESSAGE) 9999{CR}READ 000000000000000000000001{CR}
screen @READ 1{EOL}A{EOL}@READ 0007{EOL}B{EOL}@READ (MESSAGE) 9999{EOL}C{EOL}
screen @READ 000000000000000000000001{EOL}A{EOL}@{EOL}

in {HEAD}F OPERATOR MSG-0007.MAIL.1 U 1 0 - 1{LF}B{LF}E{LF}
keys DELETE 07{CR}
screen @DELETE 07{EOL} Deleted 0007{EOL}@{EOL}
out {HEAD}F OPERATOR MSG-0007.MAIL.1 D 1 0 - 1{LF}B{LF}E{LF}

# a number that no message has
keys READ 9999{CR}
screen @READ 9999{EOL}?No such message{EOL}@{EOL}

# no number of a message
keys READ 0{CR}READ 10000{CR}DELETE 99999999999999999999{CR}
screen @READ 0{EOL}?Value not accepted{EOL}@READ 10000{EOL}?Value not accepted{EOL}
screen @DELETE 99999999999999999999{EOL}?Value not accepted{EOL}@{EOL}
acts 0

keys READ 1A{CR}READ -1{CR}READ X{CR}
screen @READ 1A{EOL}?Value not accepted{EOL}@READ -1{EOL}?Value not accepted{EOL}
screen @READ X{EOL}?Value not accepted{EOL}@{EOL}
acts 0

# nothing where it has to stand, and more than one
keys READ{CR}DELETE (MESSAGE){CR}READ .{CR}READ 1 2{CR}
screen @READ{EOL}?Field is missing{EOL}@DELETE (MESSAGE){EOL}?Field is missing{EOL}@READ .{EOL}?Field is missing{EOL}
screen @READ 1 2{EOL}?Not confirmed{EOL}@{EOL}
acts 0";

#[test]
fn reads_numbers(rt: HostRuntime) -> Result<(), Fail> {
    try_cases(&rt, READS_NUMBERS)
}

const GIVES_THE_NEXT_NUMBER: &str = "# after the greatest, though smaller ones are free
in {HEAD}F SMITH MSG-0041.MAIL.1 U 1 0 - 0{LF}{LF}E{LF}
clock 0
keys SEND SMITH \"A\"{CR}{^Z}
screen @SEND SMITH \"A\"{EOL}^Z{EOL} Sent to SMITH 0042{EOL}@{EOL}
out {HEAD}F SMITH MSG-0041.MAIL.1 U 1 0 - 0{LF}{LF}F SMITH MSG-0042.MAIL.1 U 1 0 - 13{LF}OPERATOR: A{EOL}{LF}E{LF}

# those that are marked count
in {HEAD}F SMITH MSG-0004.MAIL.1 U 1 0 - 0{LF}{LF}F SMITH MSG-0005.MAIL.1 D 1 0 - 0{LF}{LF}E{LF}
clock 0
keys SEND SMITH \"A\"{CR}{^Z}
screen @SEND SMITH \"A\"{EOL}^Z{EOL} Sent to SMITH 0006{EOL}@{EOL}
out ..F SMITH MSG-0005.MAIL.1 D 1 0 - 0{LF}{LF}F SMITH MSG-0006.MAIL.1 U 1 0 - 13{LF}OPERATOR: A{EOL}{LF}E{LF}

# and those of another generation
in {HEAD}F SMITH MSG-0001.MAIL.2 U 1 0 - 0{LF}{LF}E{LF}
clock 0
keys SEND SMITH \"A\"{CR}{^Z}
screen @SEND SMITH \"A\"{EOL}^Z{EOL} Sent to SMITH 0002{EOL}@{EOL}
out ..F SMITH MSG-0001.MAIL.2 U 1 0 - 0{LF}{LF}F SMITH MSG-0002.MAIL.1 U 1 0 - 13{LF}OPERATOR: A{EOL}{LF}E{LF}

# and that with the number 0
in {HEAD}F SMITH MSG-0000.MAIL.1 U 1 0 - 0{LF}{LF}E{LF}
clock 0
keys SEND SMITH \"A\"{CR}{^Z}
screen @SEND SMITH \"A\"{EOL}^Z{EOL} Sent to SMITH 0001{EOL}@{EOL}
out ..F SMITH MSG-0001.MAIL.1 U 1 0 - 13{LF}OPERATOR: A{EOL}{LF}E{LF}

# but none of another name, type or directory
in {HEAD}F OPERATOR MSG-0009.MAIL.1 U 1 0 - 0{LF}{LF}F SMITH MSG-00010.MAIL.1 U 1 0 - 0{LF}{LF}
in F SMITH MSG-0007.TXT.1 U 1 0 - 0{LF}{LF}F SMITH MSG-008.MAIL.1 U 1 0 - 0{LF}{LF}E{LF}
clock 0
keys SEND SMITH \"A\"{CR}{^Z}
screen @SEND SMITH \"A\"{EOL}^Z{EOL} Sent to SMITH 0001{EOL}@{EOL}
out {HEAD}F OPERATOR MSG-0009.MAIL.1 U 1 0 - 0{LF}{LF}F SMITH MSG-0001.MAIL.1 U 1 0 - 13{LF}OPERATOR: A{EOL}{LF}
out F SMITH MSG-00010.MAIL.1 U 1 0 - 0{LF}{LF}F SMITH MSG-0007.TXT.1 U 1 0 - 0{LF}{LF}
out F SMITH MSG-008.MAIL.1 U 1 0 - 0{LF}{LF}E{LF}

# one that was deleted in the same run keeps its number
clock 0
keys SEND OPERATOR \"A\"{CR}{^Z}DELETE 1{CR}SEND OPERATOR \"B\"{CR}{^Z}
screen @SEND OPERATOR \"A\"{EOL}^Z{EOL} Sent to OPERATOR 0001{EOL}@DELETE 1{EOL} Deleted 0001{EOL}
screen @SEND OPERATOR \"B\"{EOL}^Z{EOL} Sent to OPERATOR 0002{EOL}@{EOL}
out {HEAD}F OPERATOR MSG-0001.MAIL.1 D 1 0 - 13{LF}OPERATOR: A{EOL}{LF}
out F OPERATOR MSG-0002.MAIL.1 U 1 0 - 13{LF}OPERATOR: B{EOL}{LF}E{LF}";

#[test]
fn gives_the_next_number(rt: HostRuntime) -> Result<(), Fail> {
    try_cases(&rt, GIVES_THE_NEXT_NUMBER)
}

const REFUSES_PAST_THE_LAST: &str = "# the last number is 9999
in {HEAD}F SMITH MSG-9998.MAIL.1 U 1 0 - 0{LF}{LF}E{LF}
clock 0
keys SEND SMITH \"A\"{CR}{^Z}SEND SMITH \"B\"{CR}{^Z}
screen @SEND SMITH \"A\"{EOL}^Z{EOL} Sent to SMITH 9999{EOL}@SEND SMITH \"B\"{EOL}^Z{EOL}?Mailbox is full{EOL}@{EOL}
out ..F SMITH MSG-9999.MAIL.1 U 1 0 - 13{LF}OPERATOR: A{EOL}{LF}E{LF}

# also where its file is marked
in {HEAD}F SMITH MSG-9999.MAIL.1 D 1 0 - 0{LF}{LF}E{LF}
keys SEND SMITH \"A\"{CR}{^Z}
screen @SEND SMITH \"A\"{EOL}^Z{EOL}?Mailbox is full{EOL}@{EOL}

# or of another generation
in {HEAD}F SMITH MSG-9999.MAIL.3 U 1 0 - 0{LF}{LF}E{LF}
keys SEND SMITH \"A\"{CR}{^Z}
screen @SEND SMITH \"A\"{EOL}^Z{EOL}?Mailbox is full{EOL}@{EOL}

# that is asked before the size of the file
in {HEAD}F SMITH MSG-9999.MAIL.1 U 1 0 - 0{LF}{LF}E{LF}
keys SEND SMITH \"A\"{CR}{65536*A}{^Z}
screen @SEND SMITH \"A\"{EOL}{65536*A}^Z{EOL}?Mailbox is full{EOL}@{EOL}

# and of the receiver, not of the sender
in {SMITH}F SMITH MSG-9999.MAIL.1 U 1 0 - 0{LF}{LF}E{LF}
clock 0
keys SEND OPERATOR \"A\"{CR}{^Z}
screen @SEND OPERATOR \"A\"{EOL}^Z{EOL} Sent to OPERATOR 0001{EOL}@{EOL}
out {SMITH}F OPERATOR MSG-0001.MAIL.1 U 1 0 - 10{LF}SMITH: A{EOL}{LF}F SMITH MSG-9999.MAIL.1 U 1 0 - 0{LF}{LF}E{LF}";

#[test]
fn refuses_past_the_last(rt: HostRuntime) -> Result<(), Fail> {
    try_cases(&rt, REFUSES_PAST_THE_LAST)
}
