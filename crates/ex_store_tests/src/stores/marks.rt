// Files that are deleted, undeleted and expunged.

use crate::machine::steps::{each_after, in_turn, store_after};

#[test]
fn what_a_place_means_is_marked(rt: HostRuntime) {
    each_after(
        &rt,
        "build OPERATOR 0; files A.T A.T B.T",
        "\
mark A.T; names -> 1; A.T.1 A.T.2- B.T.1
mark each:A.T; names -> 2; A.T.1- A.T.2- B.T.1
mark A.T.1; names -> 1; A.T.1- A.T.2 B.T.1
mark *.*.-2; names -> 2; A.T.1- A.T.2 B.T.1-
mark *.T.*; names -> 3; A.T.1- A.T.2- B.T.1-
mark deleted:*.T.*; names -> 0; A.T.1 A.T.2 B.T.1
mark each:C.T; names -> 0; A.T.1 A.T.2 B.T.1
mark each:<OPERATOR>; names -> 0; A.T.1 A.T.2 B.T.1",
    );
}

#[test]
fn a_mark_is_cleared(rt: HostRuntime) {
    each_after(
        &rt,
        "files A.T A.T A.T B.T; mark B.T",
        "\
unmark deleted:A.T; names -> 1; A.T.1- A.T.2 A.T.3 B.T.1-
unmark deleted:A.T.*; names -> 2; A.T.1 A.T.2 A.T.3 B.T.1-
unmark deleted:A.T.3; names -> 0; A.T.1- A.T.2- A.T.3 B.T.1-
unmark deleted:*.*.-2; names -> 2; A.T.1 A.T.2- A.T.3 B.T.1",
    );
}

#[test]
fn pages_are_rounded_up(rt: HostRuntime) {
    each_after(
        &rt,
        "build OPERATOR 0; files A.T B.T",
        "\
write C.T 0; mark C.T; expunge OPERATOR; names -> C.T.1=>C.T.1; 1; 0; A.T.1 B.T.1
write C.T 1; mark C.T; expunge OPERATOR; names -> C.T.1=>C.T.1; 1; 1; A.T.1 B.T.1
write C.T 2560; mark C.T; expunge OPERATOR; names -> C.T.1=>C.T.1; 1; 1; A.T.1 B.T.1
write C.T 2561; mark C.T; expunge OPERATOR; names -> C.T.1=>C.T.1; 1; 2; A.T.1 B.T.1
write C.T 65536; mark C.T; expunge OPERATOR; names -> C.T.1=>C.T.1; 1; 26; A.T.1 B.T.1",
    );
}

// [expunge]
#[test]
fn one_directory_is_expunged(rt: HostRuntime) {
    let mut store = store_after(&rt, "files A.T A.T A.T B.T B.T; build SMITH");
    in_turn(
        &rt,
        &mut store,
        "\
expunge SMITH; names -> 0; A.T.1- A.T.2- A.T.3 B.T.1- B.T.2
expunge OPERATOR; names -> 3; A.T.3 B.T.2
expunge OPERATOR -> 0",
    );
}

#[test]
fn the_next_that_a_place_means(rt: HostRuntime) {
    let mut store = store_after(&rt, "files A.T A.T B.T C.T C.T");
    in_turn(
        &rt,
        &mut store,
        "\
select *.* live 0 -> Some(1)
select *.* live 2 -> Some(2)
select *.* live 3 -> Some(4)
select *.* live 5 -> None
select *.* deleted 0 -> Some(0)
select *.* deleted 1 -> Some(3)
select A.T.1 live 0 -> None
select A.T.1 deleted 0 -> Some(0)
select *.T.-1 live 0 -> None",
    );
}

#[test]
fn the_files_that_a_place_means(rt: HostRuntime) {
    let mut store = store_after(&rt, "files A.T A.T B.T C.T C.T; build SMITH");
    in_turn(
        &rt,
        &mut store,
        "\
list *.* live -> A.T.2 B.T.1 C.T.2
list *.*.* live -> A.T.2 B.T.1 C.T.2
list *.* deleted -> A.T.1- C.T.1-
list B.T live -> B.T.1
list B.T deleted -> none
list <SMITH>*.* live -> none
list <NOBODY>*.* live -> none
copy A.T.2 <SMITH>D.T; list <SMITH>*.* live -> A.T.2=><SMITH>D.T.1; D.T.1
expunge OPERATOR; list <SMITH>*.* live -> 2; D.T.1",
    );
}
