// Records that name no directory, or that stand out of order.

use crate::given::{FRONT, each_after};

#[test]
fn each_directory_that_is_named_is_there(rt: HostRuntime) {
    each_after(
        &rt,
        FRONT,
        "\
L A B| -> 0 Name
L A OPERATORS| -> 0 Name
F B A..1 U 0 0 - 0|| -> 0 Name
F B A..0 U 0 0 - 0|| -> 0 Range
Q B A..1 1 NORMAL - A | -> 0 Name
Q B A..1 64 NORMAL - A | -> 0 Range",
    );
}

#[test]
fn logical_names_and_files_ascend(rt: HostRuntime) {
    each_after(
        &rt,
        FRONT,
        "\
L A OPERATOR|L A OPERATOR| -> 13 Order
L B OPERATOR|L A OPERATOR| -> 13 Order
L B OPERATOR|L A NONE| -> 13 Name
F OPERATOR A..1 U 0 0 - 0||F OPERATOR A..1 U 0 0 - 0|| -> 27 Order
F OPERATOR B..1 U 0 0 - 0||F OPERATOR A..1 U 0 0 - 0|| -> 27 Order
F OPERATOR A..2 U 0 0 - 0||F OPERATOR A..1 U 0 0 - 0|| -> 27 Order
F OPERATOR A.T.1 U 0 0 - 0||F OPERATOR A..2 U 0 0 - 0|| -> 28 Order
F OPERATOR AB..1 U 0 0 - 0||F OPERATOR A.T.1 U 0 0 - 0|| -> 28 Order
F OPERATOR B..1 U 0 0 - 0||F NONE A..1 U 0 0 - 0|| -> 27 Name",
    );
}

#[test]
fn files_ascend_by_their_directories_first(rt: HostRuntime) {
    each_after(
        &rt,
        b"",
        "EXEC20 2|D A 1|D B 1|C A|F B A..1 U 0 0 - 0||F A B..1 U 0 0 - 0|| -> 45 Order",
    );
}

#[test]
fn the_kinds_have_their_order(rt: HostRuntime) {
    each_after(
        &rt,
        FRONT,
        "\
F OPERATOR A..1 U 0 0 - 0||L A OPERATOR| -> 27 Form
Q OPERATOR A..1 1 NORMAL - A |L A OPERATOR| -> 30 Form
Q OPERATOR A..1 1 NORMAL - A |F OPERATOR A..1 U 0 0 - 9| -> 30 Form
L A OPERATOR|C OPERATOR| -> 13 Form
L A OPERATOR|D SMITH 1| -> 13 Form
F OPERATOR A..1 U 0 0 - 0||D SMITH 1| -> 27 Form",
    );
}
