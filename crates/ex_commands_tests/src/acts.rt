// Commands one after the other: what each answers and shows, and which files are left.
use crate::script::run;

#[test]
fn a_directory_is_built_and_connected(rt: HostRuntime) {
    run(
        &rt,
        "BUILD SMITH|Ok
        CONNECT SMITH|Ok
        CONNECTED|SMITH 2
        BUILD SMITH|Ok
        CONNECTED|SMITH 2",
    );
}

#[test]
fn a_file_is_copied_onto_its_own_name(rt: HostRuntime) {
    run(
        &rt,
        "WRITE A.TXT.1 text
        COPY A.TXT A.TXT|Ok| <OPERATOR>A.TXT.1 => <OPERATOR>A.TXT.2 [OK]^M^J
        FILES|<OPERATOR>A.TXT.1-<OPERATOR>A.TXT.2",
    );
}

#[test]
fn files_are_copied_to_another_directory(rt: HostRuntime) {
    run(
        &rt,
        "WRITE A.TXT.7 text
        BUILD SMITH|Ok
        COPY *.* <SMITH>A.TXT|Ok| <OPERATOR>A.TXT.7 => <SMITH>A.TXT.1 [OK]^M^J
        COPY -A.TXT <SMITH>A.TXT|Ok
        FILES|<OPERATOR>A.TXT.7<SMITH>A.TXT.1",
    );
}

#[test]
fn a_copy_after_the_last_generation_is_refused(rt: HostRuntime) {
    run(
        &rt,
        "WRITE A.TXT.131071 text
        COPY A.TXT A.TXT|Refused(GenFull)|?No higher generation^M^J
        FILES|<OPERATOR>A.TXT.131071",
    );
}

#[test]
fn a_copy_onto_a_file_is_refused(rt: HostRuntime) {
    run(
        &rt,
        "WRITE A.TXT.1 text
        COPY A.TXT A.TXT.1|Refused(FileExists)|?File already exists^M^J
        FILES|<OPERATOR>A.TXT.1",
    );
}

#[test]
fn files_are_put_after_one(rt: HostRuntime) {
    run(
        &rt,
        "WRITE A.TXT HI^M^J
        WRITE B.TXT YO^M^J
        APPEND *.TXT C.TXT|Ok| <OPERATOR>A.TXT.1 => <OPERATOR>C.TXT.1 [OK]^M^J \
            <OPERATOR>B.TXT.1 => <OPERATOR>C.TXT.1 [OK]^M^J
        TYPE C.TXT|Ok|HI^M^JYO^M^J
        FILES|<OPERATOR>A.TXT.1<OPERATOR>B.TXT.1<OPERATOR>C.TXT.1",
    );
}

#[test]
fn files_are_typed_out(rt: HostRuntime) {
    run(
        &rt,
        "WRITE A.TXT
        TYPE A.TXT|Ok
        WRITE B.TXT HI
        TYPE B.TXT|Ok|HI^M^J
        WRITE C.TXT HI^M
        TYPE C.TXT|Ok|HI^M^M^J
        WRITE D.TXT HI^J
        TYPE D.TXT|Ok|HI^J
        WRITE E.TXT ^@^M^J
        TYPE E.TXT|Ok|^@^M^J",
    );
}

#[test]
fn the_line_of_each_file_is_ended(rt: HostRuntime) {
    run(
        &rt,
        "WRITE A.TXT.3 text
        WRITE B.TXT more
        TYPE *.*|Ok|text^M^Jmore^M^J
        FILES|<OPERATOR>A.TXT.3<OPERATOR>B.TXT.1",
    );
}

#[test]
fn the_lines_of_a_file_are_taken_next(rt: HostRuntime) {
    run(
        &rt,
        "WRITE A.CMD INF VER^M^J
        TAKE A.CMD|Take
        7:0#TAKE A.CMD|Take
        TAKE B.CMD|Take
        FILES|<OPERATOR>A.CMD.1
        HOLDS|0 INF VER^M^J",
    );
}

#[test]
fn a_command_file_is_read_whole(rt: HostRuntime) {
    run(
        &rt,
        "BUILD SMITH 0|Ok
        WRITE A.CMD.1 old
        WRITE A.CMD.2 INF VER^M^Jlast
        WRITE <SMITH>A.CMD.3 three
        WRITE <SMITH>A.CMD.4 four
        WRITE <SMITH>B.CMD ^@^J
        READS A.CMD|INF VER^M^Jlast
        READS A.CMD.2|INF VER^M^Jlast
        READS A.CMD.1|
        READS -A.CMD.1|old
        READS <SMITH>A.CMD|four
        READS <SMITH>A.CMD.3|three
        READS <SMITH>B.CMD|^@^J
        READS <SMITH>*.CMD|four
        READS <SMITH>C.CMD|",
    );
}

#[test]
fn files_are_renamed(rt: HostRuntime) {
    run(
        &rt,
        "WRITE A.FOR HI
        WRITE B.FOR YO
        RENAME *.FOR *.OLD|Ok| <OPERATOR>A.FOR.1 => <OPERATOR>A.OLD.1 [OK]^M^J \
            <OPERATOR>B.FOR.1 => <OPERATOR>B.OLD.1 [OK]^M^J
        FILES|<OPERATOR>A.OLD.1<OPERATOR>B.OLD.1",
    );
}

#[test]
fn all_or_none_are_renamed(rt: HostRuntime) {
    run(
        &rt,
        "WRITE A.FOR
        WRITE B.FOR
        WRITE C.FOR
        WRITE C.OLD.131071
        RENAME *.FOR *.OLD|Refused(GenFull)|?No higher generation^M^J
        FILES|<OPERATOR>A.FOR.1<OPERATOR>B.FOR.1<OPERATOR>C.FOR.1<OPERATOR>C.OLD.131071",
    );
}

#[test]
fn what_is_typed_in_wants_a_name(rt: HostRuntime) {
    run(
        &rt,
        "WRITE A.TXT.1 text
        COPYTTY *.*|Refused(NameNeeded)|?File name is needed^M^J
        COPYTTY A.TXT|Data
        FILES|<OPERATOR>A.TXT.1",
    );
}

#[test]
fn what_was_typed_in_is_written(rt: HostRuntime) {
    run(
        &rt,
        "7:TYPE-IN A.TXT.1 AB^M|Ok| TTY: => <OPERATOR>A.TXT.1 [OK]^M^J
        FILES|<OPERATOR>A.TXT.1
        HOLDS|7 AB^M^J
        7:TYPE-IN A.TXT.1 C|Refused(FileExists)|?File already exists^M^J
        FILES|<OPERATOR>A.TXT.1
        HOLDS|7 AB^M^J
        TYPE-IN A.TXT XXXX|Ok| TTY: => <OPERATOR>A.TXT.2 [OK]^M^J
        COPY A.TXT B.TXT|Ok| <OPERATOR>A.TXT.2 => <OPERATOR>B.TXT.1 [OK]^M^J",
    );
}

#[test]
fn files_are_marked_and_unmarked(rt: HostRuntime) {
    run(
        &rt,
        "WRITE A.TXT.1 text
        DELETE A.TXT|Ok| <OPERATOR>A.TXT.1 [OK]^M^J
        DELETE A.TXT|Ok
        FILES|<OPERATOR>A.TXT.1-
        UNDELETE -A.TXT|Ok| <OPERATOR>A.TXT.1 [OK]^M^J
        UNDELETE -A.TXT|Ok
        FILES|<OPERATOR>A.TXT.1",
    );
}

#[test]
fn the_line_of_each_file_tells_its_name(rt: HostRuntime) {
    run(
        &rt,
        "WRITE A.TXT.2
        WRITE B.TXT
        DELETE *.*|Ok| <OPERATOR>A.TXT.2 [OK]^M^J <OPERATOR>B.TXT.1 [OK]^M^J",
    );
}

#[test]
fn files_are_listed(rt: HostRuntime) {
    run(
        &rt,
        "WRITE A.TXT.2 text
        BUILD SMITH|Ok
        DIRECTORY *.*|Ok|   PS:<OPERATOR>^M^J A.TXT.2 1 4 1-JAN-1970^M^J Total of 1 files^M^J
        DIRECTORY <SMITH>A.TXT|Refused(NoMatch)|?No files match^M^J",
    );
}

#[test]
fn pages_and_days_are_listed(rt: HostRuntime) {
    run(
        &rt,
        "WRITE A.TXT
        946684800:WRITE B.TXT X*2561
        DIRECTORY *.*|Ok|   PS:<OPERATOR>^M^J A.TXT.1 0 0 1-JAN-1970^M^J \
            B.TXT.1 2 2561 1-JAN-2000^M^J Total of 2 files^M^J
        DIRECTORY A.TXT|Ok|   PS:<OPERATOR>^M^J A.TXT.1 0 0 1-JAN-1970^M^J Total of 1 files^M^J",
    );
}

// Days: 0 is 1-JAN-1970. A file is of the day of its moment, up to the last second of it.
#[test]
fn files_of_some_days_are_listed(rt: HostRuntime) {
    run(
        &rt,
        "86399:WRITE A.TXT
        86400:WRITE B.TXT
        172799:WRITE C.TXT
        172800:WRITE D.TXT
        DIRECTORY *.* SINCE=1 BEFORE=2|Ok|   PS:<OPERATOR>^M^J \
            B.TXT.1 0 0 2-JAN-1970^M^J C.TXT.1 0 0 2-JAN-1970^M^J Total of 2 files^M^J
        DIRECTORY *.* SINCE=2|Ok|   PS:<OPERATOR>^M^J D.TXT.1 0 0 3-JAN-1970^M^J Total of 1 files^M^J
        DIRECTORY *.* BEFORE=1|Ok|   PS:<OPERATOR>^M^J A.TXT.1 0 0 1-JAN-1970^M^J Total of 1 files^M^J
        DIRECTORY *.* SINCE=3|Refused(NoMatch)|?No files match^M^J
        DIRECTORY *.* BEFORE=0|Refused(NoMatch)|?No files match^M^J
        DIRECTORY *.* SINCE=1 BEFORE=1|Refused(NoMatch)|?No files match^M^J",
    );
}

#[test]
fn marked_files_are_listed(rt: HostRuntime) {
    run(
        &rt,
        "WRITE A.TXT
        WRITE B.TXT
        DIRECTORY *.* DELETED|Refused(NoMatch)|?No files match^M^J
        DELETE A.TXT|Ok| <OPERATOR>A.TXT.1 [OK]^M^J
        DIRECTORY *.* DELETED|Ok|   PS:<OPERATOR>^M^J A.TXT.1 0 0 1-JAN-1970^M^J Total of 1 files^M^J
        DIRECTORY *.* DELETED SINCE=1|Refused(NoMatch)|?No files match^M^J",
    );
}

#[test]
fn what_waits_changes_nothing(rt: HostRuntime) {
    run(
        &rt,
        "WRITE A.TXT
        DIRECTORY *.* ,|Pending
        DIRECTORY X.* ,|Pending
        BUILD SMITH ,|Pending
        CONNECTED|OPERATOR 1",
    );
}

#[test]
fn a_directory_keeps_generations(rt: HostRuntime) {
    run(
        &rt,
        "BUILD SMITH 2|Ok
        CONNECT SMITH|Ok
        WRITE <SMITH>A.TXT HI
        WRITE <SMITH>A.TXT HI
        WRITE <SMITH>A.TXT HI
        FILES|<SMITH>A.TXT.1-<SMITH>A.TXT.2<SMITH>A.TXT.3
        INFORMATION 1|Ok| PS:<SMITH>^M^J Generations to keep: 2^M^J Pages: 3^M^J
        BUILD SMITH 1|Ok
        FILES|<SMITH>A.TXT.1-<SMITH>A.TXT.2<SMITH>A.TXT.3
        BUILD SMITH 0|Ok
        INFORMATION 1|Ok| PS:<SMITH>^M^J Generations to keep: 0^M^J Pages: 3^M^J
        CONNECT OPERATOR|Ok
        INFORMATION 1|Ok| PS:<OPERATOR>^M^J Generations to keep: 1^M^J Pages: 0^M^J",
    );
}

#[test]
fn logical_names_stand_for_directories(rt: HostRuntime) {
    run(
        &rt,
        "BUILD SMITH|Ok
        DEFINE SYS SMITH|Ok
        DEFINE A OPERATOR|Ok
        INFORMATION 2|Ok| A: => PS:<OPERATOR>^M^J SYS: => PS:<SMITH>^M^J
        DEFINE SYS OPERATOR|Ok
        INFORMATION 2|Ok| A: => PS:<OPERATOR>^M^J SYS: => PS:<OPERATOR>^M^J
        DEFINE A|Ok
        DEFINE A|Refused(NoDefinition)|?Logical name is not defined^M^J
        INFORMATION 2|Ok| SYS: => PS:<OPERATOR>^M^J",
    );
}

#[test]
fn files_are_queued(rt: HostRuntime) {
    run(
        &rt,
        "WRITE A.
        WRITE B.TXT
        PRINT *.* 0 1|Refused(CopyRange)|?Copies must be 1 to 63^M^J
        PRINT *.* 64 1|Refused(CopyRange)|?Copies must be 1 to 63^M^J
        PRINT *.* 34359738367 1|Refused(CopyRange)|?Copies must be 1 to 63^M^J
        INFORMATION 3|Ok
        PRINT *.* 1 1|Ok| Queued <OPERATOR>A..1^M^J Queued <OPERATOR>B.TXT.1^M^J
        PRINT B.TXT 63 2 say \"hi\"|Ok| Queued <OPERATOR>B.TXT.1^M^J
        PRINT A. 2 0 AFTER=4 x|Ok| Queued <OPERATOR>A..1^M^J
        INFORMATION 3|Ok| <OPERATOR>A..1 /COPIES:1 /FORMS:NORMAL /JOBNAME:A^M^J \
<OPERATOR>B.TXT.1 /COPIES:1 /FORMS:NORMAL /JOBNAME:B^M^J \
<OPERATOR>B.TXT.1 /COPIES:63 /FORMS:WIDE /JOBNAME:B /NOTE:\"say \"\"hi\"\"\"^M^J \
<OPERATOR>A..1 /COPIES:2 /FORMS:NARROW /JOBNAME:A /AFTER:5-JAN-1970 /NOTE:\"AFTER=4 x\"^M^J",
    );
}

#[test]
fn a_marked_file_is_not_listed(rt: HostRuntime) {
    run(
        &rt,
        "86399:WRITE A.TXT XXXX
        86400:WRITE B.TXT XXXX
        DELETE A.TXT|Ok| <OPERATOR>A.TXT.1 [OK]^M^J
        DIRECTORY *.*|Ok|   PS:<OPERATOR>^M^J B.TXT.1 1 4 2-JAN-1970^M^J Total of 1 files^M^J",
    );
}

#[test]
fn a_copy_has_the_moment_of_its_line(rt: HostRuntime) {
    run(
        &rt,
        "WRITE A.TXT.1 text
        2764799:COPY A.TXT A.TXT|Ok| <OPERATOR>A.TXT.1 => <OPERATOR>A.TXT.2 [OK]^M^J
        DIRECTORY A.TXT|Ok|   PS:<OPERATOR>^M^J A.TXT.2 1 4 1-FEB-1970^M^J Total of 1 files^M^J",
    );
}

#[test]
fn marked_files_are_expunged(rt: HostRuntime) {
    run(
        &rt,
        "WRITE A.TXT.1 text
        BUILD SMITH|Ok
        DELETE A.TXT|Ok| <OPERATOR>A.TXT.1 [OK]^M^J
        EXPUNGE SMITH|Ok| <SMITH> [Pages freed: 0]^M^J
        EXPUNGE|Ok| <OPERATOR> [Pages freed: 1]^M^J
        FILES|
        WRITE A.TXT X*65536
        DELETE A.TXT|Ok| <OPERATOR>A.TXT.1 [OK]^M^J
        EXPUNGE|Ok| <OPERATOR> [Pages freed: 26]^M^J
        EXPUNGE|Ok| <OPERATOR> [Pages freed: 0]^M^J",
    );
}

#[test]
fn what_changes_nothing(rt: HostRuntime) {
    run(
        &rt,
        "WRITE A.TXT.1 text
        EMPTY|Ok
        REMARK|Ok
        INFORMATION 2|Ok
        INFORMATION 3|Ok
        INFORMATION 4|Ok| EXEC20 1^M^J
        INFORMATION 5|Ok
        INFORMATION 0|Ok
        DEFINE SYS|Refused(NoDefinition)|?Logical name is not defined^M^J
        FILES|<OPERATOR>A.TXT.1",
    );
}

#[test]
fn the_run_ends_with_no_marked_file(rt: HostRuntime) {
    run(
        &rt,
        "WRITE A.TXT.1 text
        COPY A.TXT A.TXT|Ok| <OPERATOR>A.TXT.1 => <OPERATOR>A.TXT.2 [OK]^M^J
        LOGOUT|Logout|Logged out^M^J
        FILES|<OPERATOR>A.TXT.2",
    );
}

// [cut-reply]
#[test]
fn a_cut_reply_undoes_no_command(rt: HostRuntime) {
    run(
        &rt,
        "WRITE A.TXT.1 text
        5#DELETE A.TXT|Failed| <OPE
        FILES|<OPERATOR>A.TXT.1-
        UNDELETE -A.TXT|Ok| <OPERATOR>A.TXT.1 [OK]^M^J
        13#COPY A.TXT A.TXT|Failed| <OPERATOR>A.
        FILES|<OPERATOR>A.TXT.1-<OPERATOR>A.TXT.2",
    );
}

#[test]
fn what_is_typed_out_is_cut(rt: HostRuntime) {
    run(
        &rt,
        "WRITE A.TXT.1 text
        3#TYPE A.TXT|Failed|tex
        5#TYPE A.TXT|Failed|text^M
        FILES|<OPERATOR>A.TXT.1",
    );
}

#[test]
fn files_are_put_after_one_though_a_reply_is_cut(rt: HostRuntime) {
    run(
        &rt,
        "WRITE A.TXT.1 text
        5#APPEND A.TXT B.TXT|Failed| <OPE
        FILES|<OPERATOR>A.TXT.1<OPERATOR>B.TXT.1",
    );
}

#[test]
fn a_cut_refusal_changes_nothing(rt: HostRuntime) {
    run(
        &rt,
        "WRITE A.TXT.1 text
        4#COPY A.TXT A.TXT.1|Failed|?Fil
        FILES|<OPERATOR>A.TXT.1
        0#COPYTTY *.*|Failed
        FILES|<OPERATOR>A.TXT.1",
    );
}

#[test]
fn a_listing_is_cut(rt: HostRuntime) {
    run(
        &rt,
        "WRITE A.TXT.1 text
        9#DIRECTORY A.TXT|Failed|   PS:<OP
        40#DIRECTORY A.TXT|Failed|   PS:<OPERATOR>^M^J A.TXT.1 1 4 1-JAN-197
        FILES|<OPERATOR>A.TXT.1",
    );
}

#[test]
fn marked_files_are_removed_though_a_reply_is_cut(rt: HostRuntime) {
    run(
        &rt,
        "WRITE A.TXT.1 text
        DELETE A.TXT|Ok| <OPERATOR>A.TXT.1 [OK]^M^J
        6#LOGOUT|Failed|Logged
        FILES|
        WRITE A.TXT.1 text
        DELETE A.TXT|Ok| <OPERATOR>A.TXT.1 [OK]^M^J
        21#EXPUNGE|Failed| <OPERATOR> [Pages fr
        FILES|",
    );
}
