// Numbers outside their ranges.

use crate::given::{FIRST_FRONT, FRONT, all_after, each_after};

#[test]
fn the_numbers_of_a_file_have_ranges(rt: HostRuntime) {
    all_after(
        &rt,
        FRONT,
        "0 Range",
        "\
F OPERATOR A..0 U 0 0 - 0||
F OPERATOR A..131072 U 0 0 - 0||
F OPERATOR A..9999999999 U 0 0 - 0||
F OPERATOR A..1 U 64 0 - 0||
F OPERATOR A..1 U 256 0 - 0||
F OPERATOR A..1 U 9999999999 0 - 0||
F OPERATOR A..1 U 0 4102444800 - 0||
F OPERATOR A..1 U 0 9999999999 - 0||
F OPERATOR A..1 U 0 0 4102444800 0||
F OPERATOR A..1 U 0 0 9999999999 0||",
    );
}

#[test]
fn the_numbers_of_a_file_have_ranges_in_version_1(rt: HostRuntime) {
    all_after(
        &rt,
        FIRST_FRONT,
        "0 Range",
        "\
F OPERATOR A..0 U 0 0||
F OPERATOR A..131072 U 0 0||
F OPERATOR A..9999999999 U 0 0||
F OPERATOR A..1 U 4102444800 0||
F OPERATOR A..1 U 9999999999 0||",
    );
}

#[test]
fn the_numbers_of_a_request_have_ranges(rt: HostRuntime) {
    all_after(
        &rt,
        FRONT,
        "0 Range",
        "\
Q OPERATOR A..0 1 NORMAL - A |
Q OPERATOR A..131072 1 NORMAL - A |
Q OPERATOR A..9999999999 1 NORMAL - A |
Q OPERATOR A..1 0 NORMAL - A |
Q OPERATOR A..1 64 NORMAL - A |
Q OPERATOR A..1 257 NORMAL - A |
Q OPERATOR A..1 9999999999 NORMAL - A |
Q OPERATOR A..1 1 NORMAL 47482 A |
Q OPERATOR A..1 1 NORMAL 4294967296 A |
Q OPERATOR A..1 1 NORMAL 9999999999 A |",
    );
}

#[test]
fn the_bytes_of_a_file_are_as_many_as_it_says(rt: HostRuntime) {
    each_after(
        &rt,
        FRONT,
        "\
F OPERATOR A..1 U 1 0 - 4294967296| -> 0 Cut
F OPERATOR A..1 U 0 0 - 9999999999|E| -> 0 Cut
F OPERATOR A..1 U 0 0 - 0| -> 0 Cut
F OPERATOR A..1 U 0 0 - 1| -> 0 Cut
F OPERATOR A..1 U 0 0 - 1|x -> 0 Cut
F OPERATOR A..1 U 0 0 - 2|x| -> 0 Cut
F OPERATOR A..1 U 0 0 - 1|xy|E| -> 0 Form
F OPERATOR A..1 U 0 0 - 0|E| -> 0 Form
F OPERATOR A..1 U 0 0 - 2|x|E| -> 0 Form
F OPERATOR A..0 U 0 0 - 5|x| -> 0 Cut
F OPERATOR A..0 U 0 0 - 0|x| -> 0 Form
F OPERATOR A..1 U 64 0 - 5|x| -> 0 Cut
F OPERATOR A..1 U 64 0 - 0|x| -> 0 Form",
    );
    each_after(
        &rt,
        FIRST_FRONT,
        "\
F OPERATOR A..1 U 0 9999999999|E| -> 0 Cut
F OPERATOR A..1 U 0 1|xy|E| -> 0 Form",
    );
}
