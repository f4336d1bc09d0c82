// Which generations are marked when one is added.

use crate::machine::steps::{each_after, in_turn, store_after};

#[test]
fn all_generations_are_kept(rt: HostRuntime) {
    let mut store = store_after(&rt, "build OPERATOR 0; files A.T A.T A.T");
    in_turn(
        &rt,
        &mut store,
        "\
names; mark A.T.2 -> A.T.1 A.T.2 A.T.3; 1
write A.T 0; names -> A.T.4=>A.T.4; A.T.1 A.T.2- A.T.3 A.T.4
write A.T 0; names -> A.T.5=>A.T.5; A.T.1 A.T.2- A.T.3 A.T.4 A.T.5",
    );
}

#[test]
fn one_generation_is_kept(rt: HostRuntime) {
    let mut store = store_after(&rt, "build OPERATOR 1; files A.T A.T A.T");
    in_turn(
        &rt,
        &mut store,
        "\
names; mark A.T.2 -> A.T.1- A.T.2- A.T.3; 0
write A.T 0; names -> A.T.4=>A.T.4; A.T.1- A.T.2- A.T.3- A.T.4
write A.T 0; names -> A.T.5=>A.T.5; A.T.1- A.T.2- A.T.3- A.T.4- A.T.5",
    );
}

#[test]
fn three_generations_are_kept(rt: HostRuntime) {
    let mut store = store_after(&rt, "build OPERATOR 3; files A.T A.T A.T");
    in_turn(
        &rt,
        &mut store,
        "\
names; mark A.T.2 -> A.T.1 A.T.2 A.T.3; 1
write A.T 0; names -> A.T.4=>A.T.4; A.T.1 A.T.2- A.T.3 A.T.4
write A.T 0; names -> A.T.5=>A.T.5; A.T.1- A.T.2- A.T.3 A.T.4 A.T.5",
    );
}

#[test]
fn no_other_file_is_marked(rt: HostRuntime) {
    let mut store = store_after(
        &rt,
        "build OPERATOR 0; files A.S A.S A.T A.T B.T B.T; build SMITH 0; keep A.T 1",
    );
    in_turn(
        &rt,
        &mut store,
        "\
write <SMITH>A.T 0 -> <SMITH>A.T.1=><SMITH>A.T.1
names; names SMITH -> A.S.1 A.S.2 A.T.1 A.T.2 B.T.1 B.T.2; A.T.1
write A.T 0 -> A.T.3=>A.T.3
names; names SMITH -> A.S.1 A.S.2 A.T.1- A.T.2- A.T.3 B.T.1 B.T.2; A.T.1
write <SMITH>A.T 0 -> <SMITH>A.T.2=><SMITH>A.T.2
names; names SMITH -> A.S.1 A.S.2 A.T.1- A.T.2- A.T.3 B.T.1 B.T.2; A.T.1 A.T.2",
    );
}

#[test]
fn a_name_keeps_what_its_highest_keeps(rt: HostRuntime) {
    each_after(
        &rt,
        "build OPERATOR 1; files A.T A.T; build OPERATOR 2",
        "\
stamps -> A.T.1-:1/10/- A.T.2:1/20/-
write A.T 0; stamps -> A.T.3=>A.T.3; A.T.1-:1/10/- A.T.2-:1/20/- A.T.3:1/99/-
keep A.T 0; write A.T 0; stamps -> 1; A.T.3=>A.T.3; A.T.1-:1/10/- A.T.2:0/20/- A.T.3:0/99/-
keep A.T 63; write A.T 0; stamps -> 1; A.T.3=>A.T.3; A.T.1-:1/10/- A.T.2:63/20/- A.T.3:63/99/-
keep deleted:A.T.1 9; write A.T 0; stamps -> 1; A.T.3=>A.T.3; A.T.1-:9/10/- A.T.2-:1/20/- A.T.3:1/99/-
keep A.T 5; mark A.T; write A.T 0; stamps -> 1; 1; A.T.3=>A.T.3; A.T.1-:1/10/- A.T.2-:5/20/- A.T.3:5/99/-
write A.T.1 0; write B.T 0; stamps -> FileExists; B.T.1=>B.T.1; A.T.1-:1/10/- A.T.2:1/20/- B.T.1:2/99/-",
    );
}

#[test]
fn a_copy_keeps_what_its_new_name_keeps(rt: HostRuntime) {
    each_after(
        &rt,
        "build OPERATOR 1; files A.T B.T; build OPERATOR 2",
        "\
keep B.T 0; copy A.T B.T; stamps -> 1; A.T.1=>B.T.2; A.T.1:1/10/99 B.T.1:0/20/- B.T.2:0/99/-
keep B.T 63; copy A.T B.T; stamps -> 1; A.T.1=>B.T.2; A.T.1:1/10/99 B.T.1:63/20/- B.T.2:63/99/-
keep A.T 0; copy A.T B.T; stamps -> 1; A.T.1=>B.T.2; A.T.1:0/10/99 B.T.1-:1/20/- B.T.2:1/99/-
keep A.T 0; copy A.T C.T; stamps -> 1; A.T.1=>C.T.1; A.T.1:0/10/99 B.T.1:1/20/- C.T.1:2/99/-
keep A.T 0; copy A.T A.T; stamps -> 1; A.T.1=>A.T.2; A.T.1:0/10/99 A.T.2:0/99/- B.T.1:1/20/-",
    );
}

#[test]
fn what_a_file_keeps_marks_none(rt: HostRuntime) {
    each_after(
        &rt,
        "build OPERATOR 0; files A.T A.T A.T B.T; mark A.T.1",
        "\
keep A.T 1; stamps -> 1; A.T.1-:0/10/- A.T.2:0/20/- A.T.3:1/30/- B.T.1:0/40/-
keep each:*.*.* 1; stamps -> 3; A.T.1-:0/10/- A.T.2:1/20/- A.T.3:1/30/- B.T.1:1/40/-
keep deleted:*.*.* 7; stamps -> 1; A.T.1-:7/10/- A.T.2:0/20/- A.T.3:0/30/- B.T.1:0/40/-
keep C.T 1; stamps -> 0; A.T.1-:0/10/- A.T.2:0/20/- A.T.3:0/30/- B.T.1:0/40/-",
    );
}

#[test]
fn a_lower_generation_may_be_marked_at_once(rt: HostRuntime) {
    each_after(
        &rt,
        "build OPERATOR 1; files A.T.5 A.T.3 A.T.4",
        "names -> A.T.3- A.T.4- A.T.5",
    );
    each_after(
        &rt,
        "build OPERATOR 2; files A.T.5 A.T.3 A.T.4",
        "names -> A.T.3- A.T.4 A.T.5",
    );
    each_after(
        &rt,
        "build OPERATOR 2; files A.T.3 A.T.5 A.T.1",
        "names -> A.T.1- A.T.3 A.T.5",
    );
    each_after(
        &rt,
        "build OPERATOR 63; files A.T.5 A.T.3 A.T.4",
        "names -> A.T.3 A.T.4 A.T.5",
    );
}
