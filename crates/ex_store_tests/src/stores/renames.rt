// Files that are given other names.

use crate::machine::steps::{each_after, in_turn, store_after};

#[test]
fn what_is_refused_leaves_the_files_as_they_were(rt: HostRuntime) {
    let mut store = store_after(
        &rt,
        "build OPERATOR 0; files A.FOR.1 B.FOR.1 C.FOR.1 C.OLD.131071",
    );
    in_turn(
        &rt,
        &mut store,
        "\
rename *.FOR *.OLD -> GenFull
contents -> A.FOR.1@10=A.FOR.1 B.FOR.1@20=B.FOR.1 C.FOR.1@30=C.FOR.1 C.OLD.131071@40=C.OLD.131071
rename *.FOR X.OLD.9 -> FileExists
contents -> A.FOR.1@10=A.FOR.1 B.FOR.1@20=B.FOR.1 C.FOR.1@30=C.FOR.1 C.OLD.131071@40=C.OLD.131071
rename *.FOR C.OLD.131071 -> FileExists
contents -> A.FOR.1@10=A.FOR.1 B.FOR.1@20=B.FOR.1 C.FOR.1@30=C.FOR.1 C.OLD.131071@40=C.OLD.131071",
    );
}

#[test]
fn each_keeps_its_moment_and_its_bytes(rt: HostRuntime) {
    let mut store = store_after(
        &rt,
        "build OPERATOR 0; files A.FOR.1 A.FOR.2 B.FOR.1 A.OLD.4",
    );
    in_turn(
        &rt,
        &mut store,
        "\
rename each:*.FOR *.OLD -> A.FOR.1=>A.OLD.5 A.FOR.2=>A.OLD.6 B.FOR.1=>B.OLD.1
contents -> A.OLD.4@40=A.OLD.4 A.OLD.5@10=A.FOR.1 A.OLD.6@20=A.FOR.2 B.OLD.1@30=B.FOR.1",
    );
}

#[test]
fn the_source_is_taken_out_first(rt: HostRuntime) {
    each_after(
        &rt,
        "files A.T.1 A.T.2",
        "\
rename deleted:A.T.1 B.T; names -> A.T.1=>B.T.1; A.T.2 B.T.1
rename deleted:A.T.1 A.T; names -> A.T.1=>A.T.3; A.T.2- A.T.3
rename deleted:A.T.1 A.T.1; names -> A.T.1=>A.T.1; A.T.1- A.T.2
rename A.T.2 A.T; names -> A.T.2=>A.T.2; A.T.1- A.T.2
rename A.T.2 A.T.2; names -> A.T.2=>A.T.2; A.T.1- A.T.2
rename A.T.2 A.T.1; names -> FileExists; A.T.1- A.T.2
rename A.T.1 B.T; names -> none; A.T.1- A.T.2",
    );
}

#[test]
fn a_file_takes_what_it_keeps_and_its_reading_along(rt: HostRuntime) {
    each_after(
        &rt,
        "build OPERATOR 0; files A.T B.T B.T; keep A.T 1; touch A.T 77; build SMITH 2",
        "\
rename A.T <SMITH>C.T; stamps -> A.T.1=><SMITH>C.T.1; B.T.1:0/20/- B.T.2:0/30/- C.T.1:1/10/77
rename A.T B.T; stamps -> A.T.1=>B.T.3; B.T.1-:0/20/- B.T.2-:0/30/- B.T.3:1/10/77
rename each:B.T.* A.T; stamps -> B.T.1=>A.T.2 B.T.2=>A.T.3; A.T.1:1/10/77 A.T.2:0/20/- A.T.3:0/30/-",
    );
}

#[test]
fn what_it_keeps_counts_in_another_directory(rt: HostRuntime) {
    let mut store = store_after(
        &rt,
        "build OPERATOR 0; files A.T.3 A.T.8 B.T.1; build SMITH",
    );
    in_turn(
        &rt,
        &mut store,
        "\
rename each:*.* <SMITH> -> A.T.3=><SMITH>A.T.1 A.T.8=><SMITH>A.T.2 B.T.1=><SMITH>B.T.1
names; names SMITH -> none; A.T.1 A.T.2 B.T.1",
    );
}
