// Directories that are made, connected and changed.

use crate::machine::steps::{each_after, in_turn, store_after};

#[test]
fn a_directory_keeps_so_many(rt: HostRuntime) {
    let mut store = store_after(&rt, "build ZULU");
    in_turn(
        &rt,
        &mut store,
        "\
build ALPHA 3; retention -> none; 3 1 1
build ZULU 63; retention -> none; 3 1 63
build ALPHA; retention -> none; 3 1 63
build OPERATOR 0; retention -> none; 3 0 63
build ZULU; retention -> none; 3 0 63",
    );
}

#[test]
fn a_directory_is_told_by_its_name(rt: HostRuntime) {
    each_after(
        &rt,
        "build OPERATOR 0; build SMITH 7; build SMITH.A; write A.T 2560; write A.T 2561; write B.T 0; mark A.T.1; \
put <SMITH.A>C X",
        "\
kept OPERATOR; kept SMITH; kept SMITH.A; kept ZULU -> 0; 7; 1; 0
pages OPERATOR; pages SMITH; pages SMITH.A; pages ZULU -> 3; 0; 1; 0
expunge OPERATOR; pages OPERATOR -> 1; 2",
    );
}

#[test]
fn one_directory_is_connected(rt: HostRuntime) {
    let mut store = store_after(&rt, "files A.T; build A.B; build SMITH");
    in_turn(
        &rt,
        &mut store,
        "\
catalogue -> A.B=0 OPERATOR=1 SMITH=0 connected=1
connect SMITH -> A.B=0 OPERATOR=1 SMITH=0 connected=2
connect A.B -> A.B=0 OPERATOR=1 SMITH=0 connected=0
connect OPERATOR -> A.B=0 OPERATOR=1 SMITH=0 connected=1",
    );
}
