// The pages of a file.
use crate::case::try_cases;
use std::test::Fail;

const COPIES: &str = "# two copies, each with its banner
queue Q OPERATOR A..1 2 NARROW - A {LF}
screen {SP}JOB A{EOL} FILE <OPERATOR>A..1{EOL} FORM NARROW{EOL} COPY 1 OF 2{EOL}{FF}HI{EOL}{FF}
screen {SP}JOB A{EOL} FILE <OPERATOR>A..1{EOL} FORM NARROW{EOL} COPY 2 OF 2{EOL}{FF}HI{EOL}{FF}

# a note with quotes and a TAB stands on the banner as it is
queue Q OPERATOR A..1 1 WIDE - J a \"b\"{TAB}c{LF}
screen {SP}JOB J{EOL} FILE <OPERATOR>A..1{EOL} FORM WIDE{EOL} COPY 1 OF 1{EOL} NOTE a \"b\"{TAB}c{EOL}{FF}HI{EOL}{FF}

# a file that is not there has one page, whatever the copies
file none
queue Q OPERATOR A..1 2 NARROW - A {LF}
screen {SP}FILE <OPERATOR>A..1 IS NOT THERE{EOL}{FF}

# a file that is marked as deleted is printed
in {HEAD}F OPERATOR A..1 D 1 0 - 2{LF}HI{LF}Q OPERATOR A..1 1 NARROW - A {LF}E{LF}
out {HEAD}F OPERATOR A..1 D 1 0 - 2{LF}HI{LF}E{LF}
screen {NARROW}HI{EOL}{FF}";

const ROWS: &str = "# an empty file has no page after its banner
file {}
screen {NARROW}

# 60 rows are one page
file {60*ROW}
screen {NARROW}{60*ROW}{FF}

# 61 rows are two
file {61*ROW}
screen {NARROW}{60*ROW}{FF}{ROW}{FF}

# 120 rows are two, and no third
file {120*ROW}
screen {NARROW}{60*ROW}{FF}{60*ROW}{FF}

# an empty line is an empty row
file {LF}a{LF}{LF}
screen {NARROW}{EOL}a{EOL}{EOL}{FF}

# 60 empty lines are a page
file {60*LF}
screen {NARROW}{60*EOL}{FF}

# a line of 80 bytes on NARROW
file {80*x}{CR}{LF}
screen {NARROW}{80*x}{EOL}{FF}

# and one of 81
file {81*x}{CR}{LF}
screen {NARROW}{80*x}{EOL}x{EOL}{FF}

# three rows of a line
file {161*x}
screen {NARROW}{80*x}{EOL}{80*x}{EOL}x{EOL}{FF}

# a line of 132 bytes on NORMAL
queue Q OPERATOR A..1 1 NORMAL - A {LF}
file {132*x}{LF}
screen {NORMAL}{132*x}{EOL}{FF}

# and one of 133
queue Q OPERATOR A..1 1 NORMAL - A {LF}
file {133*x}{LF}
screen {NORMAL}{132*x}{EOL}x{EOL}{FF}

# a line of 200 bytes on WIDE
queue Q OPERATOR A..1 1 WIDE - A {LF}
file {200*x}{LF}
screen {WIDE}{200*x}{EOL}{FF}

# and one of 201
queue Q OPERATOR A..1 1 WIDE - A {LF}
file {201*x}{LF}
screen {WIDE}{200*x}{EOL}x{EOL}{FF}

# a line that goes on over the end of a page
file {59*ROW}{81*x}{LF}
screen {NARROW}{59*ROW}{80*x}{EOL}{FF}x{EOL}{FF}";

const BYTES: &str = "# a byte that does not print is a dot
file a{0}b{9}c{127}d{255}e{31}{32}{126}{LF}
screen {NARROW}a.b.c.d.e. ~{EOL}{FF}

# a carriage return is a dot, but for one before a line feed
file a{CR}b{CR}{LF}c{CR}{CR}{LF}d{CR}
screen {NARROW}a.b{EOL}c.{EOL}d.{EOL}{FF}

# a hyphen at the end of a line joins nothing
file a-{LF}b
screen {NARROW}a-{EOL}b{EOL}{FF}

# a form feed ends no page
file a{12}b
screen {NARROW}a.b{EOL}{FF}";

#[test]
fn each_copy_has_its_banner(rt: HostRuntime) -> Result<(), Fail> {
    try_cases(rt.alloc(), COPIES)
}

// [page]
#[test]
fn rows_are_cut_and_pages_filled(rt: HostRuntime) -> Result<(), Fail> {
    try_cases(rt.alloc(), ROWS)
}

#[test]
fn bytes_that_do_not_print_are_dots(rt: HostRuntime) -> Result<(), Fail> {
    try_cases(rt.alloc(), BYTES)
}
