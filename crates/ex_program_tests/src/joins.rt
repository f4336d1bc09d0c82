// Lines of command files that are continued by a hyphen.
use crate::case::try_cases;
use std::test::Fail;

const JOINS_LINES: &str = "words IN,OUT
in {HEAD}F OPERATOR A.CMD.1 U 1 0 - 10{LF}INF -{LF}VER{LF}{LF}E{LF}
clock 0
keys TAKE A.CMD{CR}
screen @TAKE A.CMD{EOL} EXEC20 1{EOL}@{EOL}
out {HEAD}F OPERATOR A.CMD.1 U 1 0 - 10{LF}INF -{LF}VER{LF}{LF}E{LF}

# A line that is joined is joined again where it ends so.
words IN,OUT
in {HEAD}F OPERATOR A.CMD.1 U 1 0 - 20{LF}INF -{LF}-{LF}VER{LF}INF VER{LF}{LF}E{LF}
clock 0
keys TAKE A.CMD{CR}
screen @TAKE A.CMD{EOL} EXEC20 1{EOL} EXEC20 1{EOL}@{EOL}
out ..E{LF}

# An empty line ends a line too.
words IN,OUT
in {HEAD}F OPERATOR A.CMD.1 U 1 0 - 18{LF}INF VER-{LF}{LF}INF VER{LF}{LF}E{LF}
clock 0
keys TAKE A.CMD{CR}
screen @TAKE A.CMD{EOL} EXEC20 1{EOL} EXEC20 1{EOL}@{EOL}
out ..E{LF}

# Where carriage returns stand before line feeds.
words IN,OUT
in {HEAD}F OPERATOR A.CMD.1 U 1 0 - 12{LF}INF -{EOL}VER{EOL}{LF}E{LF}
clock 0
keys TAKE A.CMD{CR}
screen @TAKE A.CMD{EOL} EXEC20 1{EOL}@{EOL}
out ..E{LF}

# In a line of subcommands.
words IN,OUT
in {HEAD}F OPERATOR B.CMD.1 U 1 0 - 36{LF}BUILD <X>,{LF}GENERATIONS -{LF}3{LF}{LF}INF VER{LF}{LF}E{LF}
clock 0
keys TAKE B.CMD{CR}
screen @TAKE B.CMD{EOL} EXEC20 1{EOL}@{EOL}
out EXEC20 2{LF}D OPERATOR 1{LF}D X 3{LF}C OPERATOR{LF}
out F OPERATOR B.CMD.1 U 1 0 - 36{LF}BUILD <X>,{LF}GENERATIONS -{LF}3{LF}{LF}INF VER{LF}{LF}E{LF}";

#[test]
fn joins_lines(rt: HostRuntime) -> Result<(), Fail> {
    try_cases(&rt, JOINS_LINES)
}

const KEEPS_THE_LAST_HYPHEN: &str =
    "# The last line ends where the file does: its hyphen is a byte of a name.
words IN,OUT
in {HEAD}F OPERATOR A.TXT.1 U 1 0 - 0{LF}{LF}F OPERATOR J.CMD.1 U 1 0 - 13{LF}COPY A.TXT B-{LF}E{LF}
clock 0
keys TAKE J.CMD{CR}
screen @TAKE J.CMD{EOL} <OPERATOR>A.TXT.1 => <OPERATOR>B-.TXT.1 [OK]{EOL}@{EOL}
out ..F OPERATOR B-.TXT.1 U 1 0 - 0{LF}{LF}F OPERATOR J.CMD.1 U 1 0 - 13{LF}COPY A.TXT B-{LF}E{LF}

words IN,OUT
in {HEAD}F OPERATOR A.TXT.1 U 1 0 - 0{LF}{LF}F OPERATOR J.CMD.1 U 1 0 - 14{LF}COPY A.TXT B-{LF}{LF}E{LF}
clock 0
keys TAKE J.CMD{CR}
screen @TAKE J.CMD{EOL} <OPERATOR>A.TXT.1 => <OPERATOR>B-.TXT.1 [OK]{EOL}@{EOL}
out ..E{LF}";

#[test]
fn keeps_the_last_hyphen(rt: HostRuntime) -> Result<(), Fail> {
    try_cases(&rt, KEEPS_THE_LAST_HYPHEN)
}

const REFUSES_JOINED_LINES: &str = "# A joined line has 255 bytes, as each line.
words IN,OUT
in {HEAD}F OPERATOR A.CMD.1 U 1 0 - 257{LF}INF -{LF}{247*SP}VER{LF}{LF}E{LF}
clock 0
keys TAKE A.CMD{CR}
screen @TAKE A.CMD{EOL} EXEC20 1{EOL}@{EOL}
out ..E{LF}

words IN,OUT
in {HEAD}F OPERATOR A.CMD.1 U 1 0 - 258{LF}INF -{LF}{248*SP}VER{LF}{LF}E{LF}
clock 0
keys TAKE A.CMD{CR}
screen @TAKE A.CMD{EOL}?Invalid line in command file{EOL}@{EOL}
out ..E{LF}

# Of a byte that is none of a line it is refused whole.
words IN,OUT
in {HEAD}F OPERATOR A.CMD.1 U 1 0 - 18{LF}INF VER{LF}INF -{LF}VE?{LF}{LF}E{LF}
clock 0
keys TAKE A.CMD{CR}
screen @TAKE A.CMD{EOL} EXEC20 1{EOL}?Invalid line in command file{EOL}@{EOL}
out ..E{LF}

# A carriage return before a hyphen is such a byte.
words IN,OUT
in {HEAD}F OPERATOR A.CMD.1 U 1 0 - 11{LF}INF {CR}-{LF}VER{LF}{LF}E{LF}
clock 0
keys TAKE A.CMD{CR}
screen @TAKE A.CMD{EOL}?Invalid line in command file{EOL}@{EOL}
out ..E{LF}";

#[test]
fn refuses_joined_lines(rt: HostRuntime) -> Result<(), Fail> {
    try_cases(&rt, REFUSES_JOINED_LINES)
}

const COUNTS_JOINED_LINES_ONCE: &str = "words IN,OUT
file-room 40000
in {HEAD}F OPERATOR B.CMD.1 U 1 0 - 30000{LF}{10000*JOINED}{LF}E{LF}
clock 0
keys TAKE B.CMD{CR}
screen @TAKE B.CMD{EOL}@{EOL}
out ..E{LF}

words IN,OUT
file-room 40000
in {HEAD}F OPERATOR B.CMD.1 U 1 0 - 30003{LF}{10001*JOINED}{LF}E{LF}
clock 0
keys TAKE B.CMD{CR}
screen @TAKE B.CMD{EOL}?Too many lines{EOL}@{EOL}
out ..E{LF}";

// [joined-line]
#[test]
fn counts_joined_lines_once(rt: HostRuntime) -> Result<(), Fail> {
    try_cases(&rt, COUNTS_JOINED_LINES_ONCE)
}
