// Bytes that are put after those of a file.

use crate::machine::steps::each_after;

#[test]
fn one_generation_is_put_after(rt: HostRuntime) {
    each_after(
        &rt,
        "build OPERATOR 0; files A.T A.T A.T A.T B.T; mark A.T.2; mark A.T.4",
        "\
append B.T A.T; names -> B.T.1=>A.T.3; A.T.1 A.T.2- A.T.3 A.T.4- B.T.1
append B.T A.T.0; names -> B.T.1=>A.T.3; A.T.1 A.T.2- A.T.3 A.T.4- B.T.1
append B.T A.T.-2; names -> B.T.1=>A.T.1; A.T.1 A.T.2- A.T.3 A.T.4- B.T.1
append B.T A.T.1; names -> B.T.1=>A.T.1; A.T.1 A.T.2- A.T.3 A.T.4- B.T.1
append B.T A.T.2; names -> NoFile; A.T.1 A.T.2- A.T.3 A.T.4- B.T.1
append B.T A.T.-1; names -> B.T.1=>A.T.5; A.T.1 A.T.2- A.T.3 A.T.4- A.T.5 B.T.1
append B.T A.T.9; names -> B.T.1=>A.T.9; A.T.1 A.T.2- A.T.3 A.T.4- A.T.9 B.T.1
append B.T A; names -> B.T.1=>A..1; A..1 A.T.1 A.T.2- A.T.3 A.T.4- B.T.1
append B.T C.T.-2; names -> B.T.1=>C.T.1; A.T.1 A.T.2- A.T.3 A.T.4- B.T.1 C.T.1
append B.T C.T.7; names -> B.T.1=>C.T.7; A.T.1 A.T.2- A.T.3 A.T.4- B.T.1 C.T.7",
    );
}

#[test]
fn the_bytes_are_those_of_the_start(rt: HostRuntime) {
    each_after(
        &rt,
        "files A.T B.T",
        "\
append each:B.T A.T; contents -> B.T.1=>A.T.1; A.T.1@99=A.TB.T B.T.1@20=B.T
append each:A.T A.T; contents -> A.T.1=>A.T.1; A.T.1@99=A.TA.T B.T.1@20=B.T
append each:*.T A.T; contents -> A.T.1=>A.T.1 B.T.1=>A.T.1; A.T.1@99=A.TA.TB.T B.T.1@20=B.T
append each:*.T B.T.-1; contents -> A.T.1=>B.T.2 B.T.1=>B.T.2; A.T.1@10=A.T B.T.1-@20=B.T B.T.2@99=A.TB.T",
    );
}

#[test]
fn each_source_is_read_and_not_the_target(rt: HostRuntime) {
    each_after(
        &rt,
        "build OPERATOR 1; files A.T B.T; keep A.T 7; touch A.T 50; build OPERATOR 3",
        "\
append B.T A.T; stamps -> B.T.1=>A.T.1; A.T.1:7/99/50 B.T.1:1/20/99
append A.T A.T; stamps -> A.T.1=>A.T.1; A.T.1:7/99/99 B.T.1:1/20/-
append each:*.T A.T; stamps -> A.T.1=>A.T.1 B.T.1=>A.T.1; A.T.1:7/99/99 B.T.1:1/20/99
append B.T A.T.-1; stamps -> B.T.1=>A.T.2; A.T.1:7/10/50 A.T.2:7/99/- B.T.1:1/20/99
append B.T C.T; stamps -> B.T.1=>C.T.1; A.T.1:7/10/50 B.T.1:1/20/99 C.T.1:3/99/-
append B.T A.T 18446744073709551615; stamps -> B.T.1=>A.T.1; A.T.1:7/4102444799/50 B.T.1:1/20/4102444799",
    );
}

#[test]
fn the_moment_is_at_most_the_last_one(rt: HostRuntime) {
    each_after(
        &rt,
        "files A.T B.T",
        "\
append B.T A.T 0; contents -> B.T.1=>A.T.1; A.T.1@0=A.TB.T B.T.1@20=B.T
append B.T A.T 4102444799; contents -> B.T.1=>A.T.1; A.T.1@4102444799=A.TB.T B.T.1@20=B.T
append B.T A.T 4102444800; contents -> B.T.1=>A.T.1; A.T.1@4102444799=A.TB.T B.T.1@20=B.T
append B.T A.T 18446744073709551615; contents -> B.T.1=>A.T.1; A.T.1@4102444799=A.TB.T B.T.1@20=B.T",
    );
}
