// Plans that are refused, and what they leave.

use crate::machine::steps::{each_after, in_turn, store_after};

#[test]
fn a_file_that_is_written_wants_a_name(rt: HostRuntime) {
    let mut store = store_after(&rt, "build OPERATOR 0");
    in_turn(
        &rt,
        &mut store,
        "\
write <OPERATOR> 0 -> NameNeeded
write * 0 -> NameNeeded
write *.FOR 0 -> NameNeeded
write A.* 0 -> NameNeeded
write *.*.1 0 -> NameNeeded
write A 0 -> A..1=>A..1
write A. 0 -> A..2=>A..2
names -> A..1 A..2",
    );
}

#[test]
fn a_generation_that_is_there_is_not_written(rt: HostRuntime) {
    let mut store = store_after(&rt, "files A.FOR.1 A.FOR.2");
    in_turn(
        &rt,
        &mut store,
        "\
write A.FOR.1 0; names -> FileExists; A.FOR.1- A.FOR.2
write A.FOR.2 0; names -> FileExists; A.FOR.1- A.FOR.2
write A.FOR.131071 0; names -> A.FOR.131071=>A.FOR.131071; A.FOR.1- A.FOR.2- A.FOR.131071
write A.FOR 0; names -> GenFull; A.FOR.1- A.FOR.2- A.FOR.131071
write A.FOR.-1 0; names -> GenFull; A.FOR.1- A.FOR.2- A.FOR.131071
write A.FOR.3 0; names -> A.FOR.3=>A.FOR.3; A.FOR.1- A.FOR.2- A.FOR.3- A.FOR.131071",
    );
}

#[test]
fn a_copy_is_whole_or_not_at_all(rt: HostRuntime) {
    each_after(
        &rt,
        "build OPERATOR 0; files A.FOR.1 B.FOR.1 C.OLD.131071",
        "\
copy *.FOR X.Y.1; names -> FileExists; A.FOR.1 B.FOR.1 C.OLD.131071
copy *.* C.OLD; names -> GenFull; A.FOR.1 B.FOR.1 C.OLD.131071
copy B.FOR X.Y.1; names -> B.FOR.1=>X.Y.1; A.FOR.1 B.FOR.1 C.OLD.131071 X.Y.1
copy X.Y A.B; names -> none; A.FOR.1 B.FOR.1 C.OLD.131071",
    );
}
