// Runs that a fault of the outside cuts short.
use crate::case::try_cases;
use std::test::Fail;

const ENDS_THE_LINE_WHERE_THE_KEYS_FAIL: &str = "get 2
keys LOG
status ReadFault
screen @LO{EOL}?Read fault{EOL}
log 4c 1 O{LF}4f 2 O{LF}
left G

# A fault of the host takes its place: its first call is the create of OUT.
get 2
call 0
keys LOG
status HostFault
screen @LO{EOL}?Host fault{EOL}
log 4c 1 O{LF}4f 2 O{LF}
left G
out none

# The end of the line is a part of the message, and a message that fails leaves the status.
get 2
room 3
keys LOG
status ReadFault
screen @LO
log 4c 1 O{LF}4f 2 O{LF}
left G

get 2
room 4
keys LOG
status ReadFault
screen @LO{CR}
log 4c 1 O{LF}4f 2 O{LF}
left G

get 2
room 7
keys LOG
status ReadFault
screen @LO{EOL}?R
log 4c 1 O{LF}4f 2 O{LF}
left G";

#[test]
fn ends_the_line_where_the_keys_fail(rt: HostRuntime) -> Result<(), Fail> {
    try_cases(&rt, ENDS_THE_LINE_WHERE_THE_KEYS_FAIL)
}

const TAKES_NO_KEY_BEHIND_A_FAILED_SCREEN: &str = "# in the first prompt
room 0
keys INF VER{CR}LOG{CR}
status WriteFault
screen {}
left INF VER{CR}LOG{CR}

# in an echo: the key is not logged
room 5
keys INF VER{CR}LOG{CR}
status WriteFault
screen @INF{SP}
log ..{LF}20 4 O 0.1k9@0-3{LF}
left ER{CR}LOG{CR}

room 9
keys INF VER{CR}LOG{CR}
status WriteFault
screen @INF VER{CR}
log ..{LF}52 7 O 0.1k9@0-3 26.0n0@4-4{LF}
left LOG{CR}

# in a reply: the key is logged, and its line has acted
room 14
keys INF VER{CR}LOG{CR}
status WriteFault
screen @INF VER{EOL} EXE
log ..{LF}0d 7 D 0.1k9@0-3 26.0n0@4-4 27.0k4@4-7{LF}
left LOG{CR}
acts 1

# in the end of the line after the last key
room 4
keys LO
status WriteFault
screen @LO{CR}
log 4c 1 O{LF}4f 2 O{LF}";

#[test]
fn takes_no_key_after_a_failed_screen(rt: HostRuntime) -> Result<(), Fail> {
    try_cases(&rt, TAKES_NO_KEY_BEHIND_A_FAILED_SCREEN)
}

const LEAVES_A_LINE_UNDONE_WHOSE_LOG_FAILS: &str = "log-room 3
keys LOG
status WriteFault
screen @L
log 4c{SP}
left OG

# Seven keys take 122 bytes of the log.
log-room 125
keys INF VER{CR}LOG{CR}
status WriteFault
screen @INF VER{EOL}
log ..{LF}52 7 O 0.1k9@0-3 26.0n0@4-4{LF}0d{SP}
left LOG{CR}";

#[test]
fn leaves_a_line_undone_whose_log_fails(rt: HostRuntime) -> Result<(), Fail> {
    try_cases(&rt, LEAVES_A_LINE_UNDONE_WHOSE_LOG_FAILS)
}

const TELLS_THAT_THE_HOST_FAILED: &str = "call 0
keys INF VER{CR}
status HostFault
screen @INF VER{EOL} EXEC20 1{EOL}@{EOL}?Host fault{EOL}
log ..
out none
acts 1

call 1
keys INF VER{CR}
status HostFault
screen @INF VER{EOL} EXEC20 1{EOL}@{EOL}?Host fault{EOL}
log ..
out {}
acts 1

# After the file's creation and the writing of its four lines comes its closing.
call 2
keys INF VER{CR}
status HostFault
screen @INF VER{EOL} EXEC20 1{EOL}@{EOL}?Host fault{EOL}
log ..
out EXEC20 2{LF}
acts 1

call 5
keys INF VER{CR}
status HostFault
screen @INF VER{EOL} EXEC20 1{EOL}@{EOL}?Host fault{EOL}
log ..
acts 1

file-room 10
keys INF VER{CR}
status HostFault
screen @INF VER{EOL} EXEC20 1{EOL}@{EOL}?Host fault{EOL}
log ..
out EXEC20 2{LF}D
acts 1

get 2
call 1
keys INF VER{CR}
status HostFault
screen @IN{EOL}?Host fault{EOL}
log ..
out {}
left F VER{CR}

room 14
call 1
keys INF VER{CR}
status HostFault
screen @INF VER{EOL} EXE
log ..
out {}
acts 1

log-room 3
call 0
keys INF VER{CR}
status HostFault
screen @I?Host fault{EOL}
log ..
out none
left NF VER{CR}";

// [save]
#[test]
fn tells_that_the_host_failed(rt: HostRuntime) -> Result<(), Fail> {
    try_cases(&rt, TELLS_THAT_THE_HOST_FAILED)
}
