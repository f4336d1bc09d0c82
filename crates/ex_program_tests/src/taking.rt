// Command files.
use crate::case::try_cases;
use crate::given::{Given, outcome_of, words_of};
use crate::notation::push_said;
use std::test::Fail;

const TAKES_LINE_BY_LINE: &str =
    "# A file that takes itself is taken four times. The lines that are taken are not logged.
words -w,IN,OUT
in {HEAD}F OPERATOR L.CMD.1 U 1 0 - 19{LF}INF VER{LF}TAKE L.CMD{LF}{LF}E{LF}
clock 0
keys TAKE L.CMD{CR}
screen @TAKE L.CMD{EOL} EXEC20 1{EOL} EXEC20 1{EOL} EXEC20 1{EOL} EXEC20 1{EOL}?TAKE too deep{EOL}@{EOL}
log 54 1 O{LF}41 2 O{LF}4b 3 O{LF}45 4 O{LF}20 5 O 0.1k14@0-4{LF}4c 6 O 0.1k14@0-4 21.0n0@5-5{LF}
log 2e 7 O 0.1k14@0-4 21.0n0@5-5{LF}43 8 O 0.1k14@0-4 21.0n0@5-5{LF}4d 9 O 0.1k14@0-4 21.0n0@5-5{LF}
log 44 10 O 0.1k14@0-4 21.0n0@5-5{LF}0d 10 D 0.1k14@0-4 21.0n0@5-5 22.0i@5-10{LF}
out {HEAD}F OPERATOR L.CMD.1 U 1 0 - 19{LF}INF VER{LF}TAKE L.CMD{LF}{LF}E{LF}

# After the end of a file the one around it goes on.
words IN,OUT
in {HEAD}F OPERATOR A.CMD.1 U 1 0 - 19{LF}TAKE B.CMD{LF}INF DIR{LF}{LF}
in F OPERATOR B.CMD.1 U 1 0 - 8{LF}INF VER{LF}{LF}E{LF}
clock 0
keys TAKE A.CMD{CR}INF VER{CR}
screen @TAKE A.CMD{EOL} EXEC20 1{EOL} PS:<OPERATOR>{EOL} Generations to keep: 1{EOL} Pages: 2{EOL}
screen @INF VER{EOL} EXEC20 1{EOL}@{EOL}
out {HEAD}F OPERATOR A.CMD.1 U 1 0 - 19{LF}TAKE B.CMD{LF}INF DIR{LF}{LF}
out F OPERATOR B.CMD.1 U 1 0 - 8{LF}INF VER{LF}{LF}E{LF}

# Each line has the moment of the typed one, and takes none.
words IN,OUT
in {HEAD}F OPERATOR C.CMD.1 U 1 0 - 17{LF}COPY C.CMD D.CMD{LF}{LF}E{LF}
keys TAKE C.CMD{CR}
screen @TAKE C.CMD{EOL} <OPERATOR>C.CMD.1 => <OPERATOR>D.CMD.1 [OK]{EOL}@{EOL}
out {HEAD}F OPERATOR C.CMD.1 U 1 0 1 17{LF}COPY C.CMD D.CMD{LF}{LF}
out F OPERATOR D.CMD.1 U 1 1 - 17{LF}COPY C.CMD D.CMD{LF}{LF}E{LF}
acts 1

# LOGOUT ends the run.
words IN,OUT
in {HEAD}F OPERATOR L.CMD.1 U 1 0 - 23{LF}INF VER{LF}LOGOUT{LF}INF VER{LF}{LF}E{LF}
clock 0
keys TAKE L.CMD{CR}INF VER{CR}
screen @TAKE L.CMD{EOL} EXEC20 1{EOL}Logged out{EOL}
left INF VER{CR}
out {HEAD}F OPERATOR L.CMD.1 U 1 0 - 23{LF}INF VER{LF}LOGOUT{LF}INF VER{LF}{LF}E{LF}

# A file is taken as it stood, though it removes itself.
words IN,OUT
in {HEAD}F OPERATOR S.CMD.1 U 1 0 - 26{LF}DEL S.CMD{LF}EXPUNGE{LF}INF VER{LF}{LF}E{LF}
clock 0
keys TAKE S.CMD{CR}
screen @TAKE S.CMD{EOL} <OPERATOR>S.CMD.1 [OK]{EOL} <OPERATOR> [Pages freed: 1]{EOL} EXEC20 1{EOL}@{EOL}
out {HEAD}E{LF}";

#[test]
fn takes_line_by_line(rt: HostRuntime) -> Result<(), Fail> {
    try_cases(&rt, TAKES_LINE_BY_LINE)
}

const KNOWS_LINES_BY_THEIR_ENDS: &str = "words IN,OUT
in {HEAD}F OPERATOR E.CMD.1 U 1 0 - 18{LF}INF VER{EOL}INF VER{EOL}{LF}E{LF}
clock 0
keys TAKE E.CMD{CR}
screen @TAKE E.CMD{EOL} EXEC20 1{EOL} EXEC20 1{EOL}@{EOL}
out {HEAD}F OPERATOR E.CMD.1 U 1 0 - 18{LF}INF VER{EOL}INF VER{EOL}{LF}E{LF}

# The last line wants no end.
words IN,OUT
in {HEAD}F OPERATOR E.CMD.1 U 1 0 - 7{LF}INF VER{LF}E{LF}
clock 0
keys TAKE E.CMD{CR}
screen @TAKE E.CMD{EOL} EXEC20 1{EOL}@{EOL}
out {HEAD}F OPERATOR E.CMD.1 U 1 0 - 7{LF}INF VER{LF}E{LF}

# But a carriage return at its end is a byte of it then.
words IN,OUT
in {HEAD}F OPERATOR E.CMD.1 U 1 0 - 16{LF}INF VER{LF}INF VER{CR}{LF}E{LF}
clock 0
keys TAKE E.CMD{CR}
screen @TAKE E.CMD{EOL} EXEC20 1{EOL}?Invalid line in command file{EOL}@{EOL}
out {HEAD}F OPERATOR E.CMD.1 U 1 0 - 16{LF}INF VER{LF}INF VER{CR}{LF}E{LF}

# Nothing is in it.
words IN,OUT
in {HEAD}F OPERATOR E.CMD.1 U 1 0 - 0{LF}{LF}E{LF}
clock 0
keys TAKE E.CMD{CR}
screen @TAKE E.CMD{EOL}@{EOL}
out {HEAD}F OPERATOR E.CMD.1 U 1 0 - 0{LF}{LF}E{LF}";

#[test]
fn knows_lines_by_their_ends(rt: HostRuntime) -> Result<(), Fail> {
    try_cases(&rt, KNOWS_LINES_BY_THEIR_ENDS)
}

const STOPS_AT_A_REFUSAL: &str = "# What the lines before have done stands.
words IN,OUT
in {HEAD}F OPERATOR B.CMD.1 U 1 0 - 26{LF}BUILD <X>{LF}DEL Z{LF}BUILD <Y>{LF}{LF}E{LF}
clock 0
keys TAKE B.CMD{CR}
screen @TAKE B.CMD{EOL}?No such file{EOL}@{EOL}
out EXEC20 2{LF}D OPERATOR 1{LF}D X 1{LF}C OPERATOR{LF}
out F OPERATOR B.CMD.1 U 1 0 - 26{LF}BUILD <X>{LF}DEL Z{LF}BUILD <Y>{LF}{LF}E{LF}

# All files are closed, also where an act is refused.
words IN,OUT
in {HEAD}F OPERATOR A.CMD.1 U 1 0 - 19{LF}TAKE B.CMD{LF}INF VER{LF}{LF}
in F OPERATOR B.CMD.1 U 1 0 - 19{LF}COPY A.CMD B.CMD.1{LF}{LF}E{LF}
clock 0
keys TAKE A.CMD{CR}INF VER{CR}
screen @TAKE A.CMD{EOL}?File already exists{EOL}@INF VER{EOL} EXEC20 1{EOL}@{EOL}
out ..E{LF}

words IN,OUT
in {HEAD}F OPERATOR C.CMD.1 U 1 0 - 11{LF}COPY TTY: A{LF}E{LF}
clock 0
keys TAKE C.CMD{CR}
screen @TAKE C.CMD{EOL}?Not allowed in a command file{EOL}@{EOL}
out {HEAD}F OPERATOR C.CMD.1 U 1 0 - 11{LF}COPY TTY: A{LF}E{LF}

words IN,OUT
in {HEAD}F OPERATOR B.CMD.1 U 1 0 - 6{LF}INF ?{LF}{LF}E{LF}
clock 0
keys TAKE B.CMD{CR}
screen @TAKE B.CMD{EOL}?Invalid line in command file{EOL}@{EOL}
out {HEAD}F OPERATOR B.CMD.1 U 1 0 - 6{LF}INF ?{LF}{LF}E{LF}

words IN,OUT
in {HEAD}F OPERATOR B.CMD.1 U 1 0 - 10{LF}INF VER{BEL}{LF}{LF}{LF}E{LF}
clock 0
keys TAKE B.CMD{CR}
screen @TAKE B.CMD{EOL}?Invalid line in command file{EOL}@{EOL}
out {HEAD}F OPERATOR B.CMD.1 U 1 0 - 10{LF}INF VER{BEL}{LF}{LF}{LF}E{LF}

words IN,OUT
in {HEAD}F OPERATOR B.CMD.1 U 1 0 - 257{LF}{256*A}{LF}{LF}E{LF}
clock 0
keys TAKE B.CMD{CR}
screen @TAKE B.CMD{EOL}?Invalid line in command file{EOL}@{EOL}
out {HEAD}F OPERATOR B.CMD.1 U 1 0 - 257{LF}{256*A}{LF}{LF}E{LF}";

// [refused-line]
#[test]
fn stops_at_a_refusal(rt: HostRuntime) -> Result<(), Fail> {
    try_cases(&rt, STOPS_AT_A_REFUSAL)
}

const ADDS_SUBCOMMANDS_FROM_A_FILE: &str = "# The example of the list of commands.
words IN,OUT
in {HEAD}F OPERATOR A.TXT.1 U 1 0 - 0{LF}{LF}F OPERATOR DAILY.CMD.1 U 1 0 - 55{LF}
in BUILD <SRC>,{LF}GENERATIONS 3{LF}{LF}COPY *.TXT <SRC>*.*{LF}INF VER{LF}E{LF}
clock 0
keys TAKE DAILY.CMD{CR}
screen @TAKE DAILY.CMD{EOL} <OPERATOR>A.TXT.1 => <SRC>A.TXT.1 [OK]{EOL} EXEC20 1{EOL}@{EOL}
out ..F SRC A.TXT.1 U 3 0 - 0{LF}{LF}E{LF}

# The end of the file is an empty line of them.
words IN,OUT
in {HEAD}F OPERATOR B.CMD.1 U 1 0 - 17{LF}BUILD <X>,{LF}GEN 3{LF}{LF}E{LF}
clock 0
keys TAKE B.CMD{CR}
screen @TAKE B.CMD{EOL}@{EOL}
out EXEC20 2{LF}D OPERATOR 1{LF}D X 3{LF}C OPERATOR{LF}
out F OPERATOR B.CMD.1 U 1 0 - 17{LF}BUILD <X>,{LF}GEN 3{LF}{LF}E{LF}

words IN,OUT
in {HEAD}F OPERATOR B.CMD.1 U 1 0 - 26{LF}BUILD <X>,{LF}GEN 3{LF}{LF}INF VER{LF}{LF}E{LF}
clock 0
keys TAKE B.CMD{CR}
screen @TAKE B.CMD{EOL} EXEC20 1{EOL}@{EOL}
out EXEC20 2{LF}D OPERATOR 1{LF}D X 3{LF}C OPERATOR{LF}
out F OPERATOR B.CMD.1 U 1 0 - 26{LF}BUILD <X>,{LF}GEN 3{LF}{LF}INF VER{LF}{LF}E{LF}

# A refusal drops what waits.
words IN,OUT
in {HEAD}F OPERATOR B.CMD.1 U 1 0 - 18{LF}BUILD <X>,{LF}GEN 64{LF}{LF}E{LF}
clock 0
keys TAKE B.CMD{CR}INF VER{CR}
screen @TAKE B.CMD{EOL}?Value not accepted{EOL}@INF VER{EOL} EXEC20 1{EOL}@{EOL}
out {HEAD}F OPERATOR B.CMD.1 U 1 0 - 18{LF}BUILD <X>,{LF}GEN 64{LF}{LF}E{LF}";

#[test]
fn adds_subcommands_from_a_file(rt: HostRuntime) -> Result<(), Fail> {
    try_cases(&rt, ADDS_SUBCOMMANDS_FROM_A_FILE)
}

// Two command files, each with a byte that no line has: 0 and 200.
const NUL_AND_200: &[u8] =
    b"EXEC20 2\nD OPERATOR 1\nC OPERATOR\nF OPERATOR A.CMD.1 U 1 0 - 9\nINF VER\x00\n
F OPERATOR B.CMD.1 U 1 0 - 9\nINF VER\xc8\n
E\n";

const REFUSED_TWICE: &str = "@TAKE A.CMD{EOL}?Invalid line in command file{EOL}@TAKE B.CMD{EOL}
?Invalid line in command file{EOL}@{EOL}";

#[test]
fn refuses_bytes_that_are_no_text(rt: HostRuntime) -> Result<(), Fail> {
    let given = Given {
        keys: b"TAKE A.CMD\rTAKE B.CMD\r",
        input: Some(NUL_AND_200),
        has_moments: false,
        failing_get: None,
        failing_call: None,
        screen_room: 256,
        log_room: 0,
        file_room: 256,
    };
    let outcome = outcome_of(&rt, &words_of(&["IN", "OUT"]), &given)?;
    let mut screen = String::new(rt.alloc());
    for line in REFUSED_TWICE.lines() {
        push_said(line, &mut screen)?;
    }
    if outcome.screen.bytes() != screen.as_bytes() {
        return Err(Fail::new(format_args!("{:?}", outcome.screen.bytes())));
    }
    Ok(())
}

const TAKES_10000_LINES: &str = "words IN,OUT
file-room 20000
in {HEAD}F OPERATOR B.CMD.1 U 1 0 - 10000{LF}{10000*LF}{LF}E{LF}
clock 0
keys TAKE B.CMD{CR}
screen @TAKE B.CMD{EOL}@{EOL}
out ..E{LF}

words IN,OUT
file-room 20000
in {HEAD}F OPERATOR B.CMD.1 U 1 0 - 10001{LF}{10001*LF}{LF}E{LF}
clock 0
keys TAKE B.CMD{CR}
screen @TAKE B.CMD{EOL}?Too many lines{EOL}@{EOL}
out ..E{LF}

# The lines of all files of a typed line are counted together.
words IN,OUT
file-room 20000
in {HEAD}F OPERATOR A.CMD.1 U 1 0 - 5010{LF}{4999*LF}TAKE B.CMD{LF}{LF}
in F OPERATOR B.CMD.1 U 1 0 - 5000{LF}{5000*LF}{LF}E{LF}
clock 0
keys TAKE A.CMD{CR}TAKE A.CMD{CR}
screen @TAKE A.CMD{EOL}@TAKE A.CMD{EOL}@{EOL}
out ..E{LF}

words IN,OUT
file-room 20000
in {HEAD}F OPERATOR A.CMD.1 U 1 0 - 5010{LF}{4999*LF}TAKE B.CMD{LF}{LF}
in F OPERATOR B.CMD.1 U 1 0 - 5001{LF}{5001*LF}{LF}E{LF}
clock 0
keys TAKE A.CMD{CR}
screen @TAKE A.CMD{EOL}?Too many lines{EOL}@{EOL}
out ..E{LF}

# It is not even looked at, whatever it is.
words IN,OUT
file-room 20000
in {HEAD}F OPERATOR B.CMD.1 U 1 0 - 10002{LF}{10000*LF}?{LF}{LF}E{LF}
clock 0
keys TAKE B.CMD{CR}
screen @TAKE B.CMD{EOL}?Too many lines{EOL}@{EOL}
out ..E{LF}

words IN,OUT
file-room 80000
in {HEAD}F OPERATOR B.CMD.1 U 1 0 - 65536{LF}{65536*A}{LF}E{LF}
clock 0
keys TAKE B.CMD{CR}
screen @TAKE B.CMD{EOL}?Invalid line in command file{EOL}@{EOL}
out ..E{LF}";

#[test]
fn takes_10000_lines(rt: HostRuntime) -> Result<(), Fail> {
    try_cases(&rt, TAKES_10000_LINES)
}
