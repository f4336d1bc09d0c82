// What files keep and when they were read: SET, the reading of TYPE, and the listing of it.
use crate::script::run;

#[test]
fn files_keep_what_is_set(rt: HostRuntime) {
    run(
        &rt,
        "WRITE A.TXT.1 text
        STAMPS|<OPERATOR>A.TXT.1 1 -
        SET A.TXT 2|Ok| <OPERATOR>A.TXT.1 [OK]^M^J
        STAMPS|<OPERATOR>A.TXT.1 2 -
        COPY A.TXT A.TXT|Ok| <OPERATOR>A.TXT.1 => <OPERATOR>A.TXT.2 [OK]^M^J
        STAMPS|<OPERATOR>A.TXT.1 2 0<OPERATOR>A.TXT.2 2 -
        SET A.TXT.1 0|Ok| <OPERATOR>A.TXT.1 [OK]^M^J
        SET A.TXT.2 63|Ok| <OPERATOR>A.TXT.2 [OK]^M^J
        STAMPS|<OPERATOR>A.TXT.1 0 0<OPERATOR>A.TXT.2 63 -",
    );
}

#[test]
fn set_marks_no_file(rt: HostRuntime) {
    run(
        &rt,
        "BUILD SMITH 0|Ok
        WRITE <SMITH>A.TXT HI
        WRITE <SMITH>A.TXT HI
        WRITE <SMITH>A.TXT HI
        SET <SMITH>A.TXT 1|Ok| <SMITH>A.TXT.3 [OK]^M^J
        STAMPS|<SMITH>A.TXT.1 0 -<SMITH>A.TXT.2 0 -<SMITH>A.TXT.3 1 -
        COPY <SMITH>A.TXT <SMITH>A.TXT|Ok| <SMITH>A.TXT.3 => <SMITH>A.TXT.4 [OK]^M^J
        STAMPS|<SMITH>A.TXT.1- 0 -<SMITH>A.TXT.2- 0 -<SMITH>A.TXT.3- 1 0<SMITH>A.TXT.4 1 -",
    );
}

#[test]
fn set_of_marked_files_and_of_none(rt: HostRuntime) {
    run(
        &rt,
        "WRITE A.TXT.1 text
        SET B.TXT 5|Ok
        DELETE A.TXT|Ok| <OPERATOR>A.TXT.1 [OK]^M^J
        SET A.TXT 5|Ok
        STAMPS|<OPERATOR>A.TXT.1- 1 -
        SET -A.TXT 5|Ok| <OPERATOR>A.TXT.1 [OK]^M^J
        STAMPS|<OPERATOR>A.TXT.1- 5 -",
    );
}

#[test]
fn a_file_that_is_typed_out_is_read(rt: HostRuntime) {
    run(
        &rt,
        "WRITE A.TXT text
        WRITE B.TXT more
        WRITE C.TXT last
        DELETE C.TXT|Ok| <OPERATOR>C.TXT.1 [OK]^M^J
        7:TYPE *.*|Ok|text^M^Jmore^M^J
        STAMPS|<OPERATOR>A.TXT.1 1 7<OPERATOR>B.TXT.1 1 7<OPERATOR>C.TXT.1- 1 -
        5:TYPE A.TXT|Ok|text^M^J
        STAMPS|<OPERATOR>A.TXT.1 1 5<OPERATOR>B.TXT.1 1 7<OPERATOR>C.TXT.1- 1 -
        4102444800:TYPE B.TXT|Ok|more^M^J
        STAMPS|<OPERATOR>A.TXT.1 1 5<OPERATOR>B.TXT.1 1 4102444799<OPERATOR>C.TXT.1- 1 -
        HOLDS|0 text",
    );
}

// The reply is cut in the first of two files, or before both.
#[test]
fn files_are_read_though_a_reply_is_cut(rt: HostRuntime) {
    run(
        &rt,
        "WRITE A.TXT text
        WRITE B.TXT more
        7:3#TYPE *.*|Failed|tex
        STAMPS|<OPERATOR>A.TXT.1 1 7<OPERATOR>B.TXT.1 1 7
        8:0#TYPE *.*|Failed
        STAMPS|<OPERATOR>A.TXT.1 1 8<OPERATOR>B.TXT.1 1 8
        5#SET *.* 3|Failed| <OPE
        STAMPS|<OPERATOR>A.TXT.1 3 8<OPERATOR>B.TXT.1 3 8",
    );
}

#[test]
fn other_commands_read_no_file(rt: HostRuntime) {
    run(
        &rt,
        "WRITE A.TXT text
        7:TAKE A.TXT|Take
        7:PRINT A.TXT 1 1|Ok| Queued <OPERATOR>A.TXT.1^M^J
        7:DIRECTORY *.*|Ok|   PS:<OPERATOR>^M^J A.TXT.1 1 4 1-JAN-1970^M^J Total of 1 files^M^J
        7:DELETE A.TXT|Ok| <OPERATOR>A.TXT.1 [OK]^M^J
        STAMPS|<OPERATOR>A.TXT.1- 1 -",
    );
}

// Days: 0 is 1-JAN-1970. SINCE and BEFORE ask when a file was written, also where it is listed when it was read.
#[test]
fn days_of_reading_are_listed(rt: HostRuntime) {
    run(
        &rt,
        "WRITE A.TXT
        86400:WRITE B.TXT
        172800:TYPE A.TXT|Ok
        DIRECTORY *.* READ|Ok|   PS:<OPERATOR>^M^J A.TXT.1 0 0 3-JAN-1970^M^J B.TXT.1 0 0 Never^M^J \
            Total of 2 files^M^J
        DIRECTORY *.* READ SINCE=1|Ok|   PS:<OPERATOR>^M^J B.TXT.1 0 0 Never^M^J Total of 1 files^M^J
        DIRECTORY *.* READ BEFORE=1|Ok|   PS:<OPERATOR>^M^J A.TXT.1 0 0 3-JAN-1970^M^J Total of 1 files^M^J
        DIRECTORY *.* READ SINCE=2|Refused(NoMatch)|?No files match^M^J
        DIRECTORY *.*|Ok|   PS:<OPERATOR>^M^J A.TXT.1 0 0 1-JAN-1970^M^J B.TXT.1 0 0 2-JAN-1970^M^J \
            Total of 2 files^M^J
        33#DIRECTORY B.TXT READ|Failed|   PS:<OPERATOR>^M^J B.TXT.1 0 0 Ne",
    );
}
