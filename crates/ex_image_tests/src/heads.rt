// The head, the directories, the connected one and the end.

use crate::given::{FRONT, all_after, each_after};

#[test]
fn an_image_begins_with_its_head(rt: HostRuntime) {
    each_after(
        &rt,
        b"",
        "\
EXEC20 2 -> 0 Cut
 -> 0 Cut
| -> 0 Form
EXEC20 3| -> 0 Form
exec20 2| -> 0 Form
EXEC20  2| -> 0 Form
EXEC20 2 | -> 0 Form
EXEC20 2^| -> 0 Form
D OPERATOR 1| -> 0 Form
EXEC20 2| -> 9 Cut
EXEC20 2|EXEC20 2| -> 9 Form
EXEC20 2|EXEC20 1| -> 9 Form
EXEC20 1|EXEC20 2| -> 9 Form
EXEC20 1|EXEC20 1| -> 9 Form
EXEC20 0| -> 0 Form
EXEC20 12| -> 0 Form
EXEC20 1 -> 0 Cut
EXEC20 1| -> 9 Cut",
    );
}

#[test]
fn directories_follow_the_head(rt: HostRuntime) {
    each_after(
        &rt,
        b"",
        "\
EXEC20 2|C A| -> 9 Form
EXEC20 2|E| -> 9 Form
EXEC20 2|L A A| -> 9 Form
EXEC20 2|D OPERATOR 01| -> 9 Form
EXEC20 2|D OPERATOR 64| -> 9 Range
EXEC20 2|D OPERATOR 9999999999| -> 9 Range
EXEC20 2|D OPERATOR 10000000000| -> 9 Form
EXEC20 2|D OPERATOR 1 -> 9 Cut
EXEC20 2|D A 1|D A 1| -> 15 Order
EXEC20 2|D B 1|D A 1| -> 15 Order
EXEC20 2|D B 1|D A 64| -> 15 Range
EXEC20 2|D AB 1|D A 1| -> 16 Order",
    );
}

#[test]
fn a_directory_has_a_name_and_a_number(rt: HostRuntime) {
    all_after(
        &rt,
        b"",
        "9 Form",
        "\
EXEC20 2|D|
EXEC20 2|D |
EXEC20 2|D A|
EXEC20 2|D A |
EXEC20 2|D A 1 |
EXEC20 2|D  A 1|
EXEC20 2|D A  1|
EXEC20 2| D A 1|
EXEC20 2|d A 1|
EXEC20 2|D a 1|
EXEC20 2|D .A 1|
EXEC20 2|D A. 1|
EXEC20 2|D A..B 1|
EXEC20 2|D A* 1|
EXEC20 2|D A -1|
EXEC20 2|D A +1|
EXEC20 2|D A 1x|
EXEC20 2|D A 00|
EXEC20 2|D A-NAME-OF-FORTY-BYTES-IN-ITS-LENGTH-OF-1 1|",
    );
}

#[test]
fn one_of_them_is_connected(rt: HostRuntime) {
    each_after(
        &rt,
        b"",
        "\
EXEC20 2|D A 1|C B| -> 15 Name
EXEC20 2|D A 1|C AB| -> 15 Name
EXEC20 2|D A 1|C| -> 15 Form
EXEC20 2|D A 1|C | -> 15 Form
EXEC20 2|D A 1|C a| -> 15 Form
EXEC20 2|D A 1|C A | -> 15 Form
EXEC20 2|D A 1|C  A| -> 15 Form
EXEC20 2|D A 1|C A -> 15 Cut
EXEC20 2|D A 1|E| -> 15 Form
EXEC20 2|D A 1|L A A| -> 15 Form
EXEC20 2|D A 1|F A A..1 U 0 0 - 5| -> 15 Form
EXEC20 2|D A 1|Q A A..1 1 NORMAL - A | -> 15 Form
EXEC20 2|D A 1|C A|C A| -> 19 Form
EXEC20 2|D A 1|C A|D B 1| -> 19 Form
EXEC20 2|D A 1|C A|EXEC20 2| -> 19 Form",
    );
}

#[test]
fn nothing_stands_after_the_end(rt: HostRuntime) {
    each_after(
        &rt,
        FRONT,
        "\
E|X -> 2 Form
E|| -> 2 Form
E|E| -> 2 Form
E|EXEC20 2|D OPERATOR 1|C OPERATOR|E| -> 2 Form
E | -> 0 Form
 E| -> 0 Form
e| -> 0 Form
EE| -> 0 Form
E E| -> 0 Form
| -> 0 Form
X OPERATOR| -> 0 Form
CC OPERATOR| -> 0 Form",
    );
}
