// Stores that are written.

use crate::machine::steps::{in_turn, store_after};
use ex_store::Store;

#[test]
fn a_new_store_is_written(rt: HostRuntime) {
    let mut store = Store::new(rt.alloc()).expect(&rt, "memory");
    in_turn(
        &rt,
        &mut store,
        "image -> EXEC20 2|D OPERATOR 1|C OPERATOR|E|",
    );
}

#[test]
fn the_files_stand_after_their_lines(rt: HostRuntime) {
    let mut store = store_after(
        &rt,
        "build SMITH; put <SMITH>A.TXT one\ntwo\n 7; write <SMITH>A.TXT 0 8; connect SMITH",
    );
    in_turn(
        &rt,
        &mut store,
        "\
image -> EXEC20 2|D OPERATOR 1|D SMITH 1|C SMITH|\
F SMITH A.TXT.1 D 1 7 - 8|one|two||F SMITH A.TXT.2 U 1 8 - 0||E|
keep <SMITH>A.TXT.2 63; touch deleted:<SMITH>A.TXT.1 9 -> 1; 1
image -> EXEC20 2|D OPERATOR 1|D SMITH 1|C SMITH|\
F SMITH A.TXT.1 D 1 7 9 8|one|two||F SMITH A.TXT.2 U 63 8 - 0||E|",
    );
}
