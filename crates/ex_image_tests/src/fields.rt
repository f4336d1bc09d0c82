// Lines whose fields are not of their forms.

use crate::given::{FIRST_FRONT, FRONT, all_after};

#[test]
fn a_logical_name_stands_before_its_directory(rt: HostRuntime) {
    all_after(
        &rt,
        FRONT,
        "0 Form",
        "\
L|
L A|
L A |
L  OPERATOR|
L A OPERATOR |
L A  OPERATOR|
L A OPERATOR 1|
L a OPERATOR|
L A operator|
L 1A OPERATOR|
L A.B OPERATOR|
L TTY OPERATOR|
L PS OPERATOR|
L DSK OPERATOR|
L A-NAME-OF-FORTY-BYTES-IN-ITS-LENGTH-OF-1 OPERATOR|",
    );
}

#[test]
fn a_file_has_a_name_a_type_and_a_generation(rt: HostRuntime) {
    all_after(
        &rt,
        FRONT,
        "0 Form",
        "\
F OPERATOR A.1 U 0 0 - 0||
F OPERATOR A U 0 0 - 0||
F OPERATOR .B.1 U 0 0 - 0||
F OPERATOR A.B. U 0 0 - 0||
F OPERATOR A.B.C.1 U 0 0 - 0||
F OPERATOR A..01 U 0 0 - 0||
F OPERATOR A..-1 U 0 0 - 0||
F OPERATOR A..* U 0 0 - 0||
F OPERATOR a..1 U 0 0 - 0||
F OPERATOR A.b.1 U 0 0 - 0||
F OPERATOR A,..1 U 0 0 - 0||
F OPERATOR A-NAME-OF-FORTY-BYTES-IN-ITS-LENGTH-OF-1..1 U 0 0 - 0||
F OPERATOR A.A-TYPE-OF-FORTY-BYTES-IN-ITS-LENGTH-OF-1.1 U 0 0 - 0||",
    );
}

#[test]
fn a_file_has_a_mark_a_count_a_moment_and_a_length(rt: HostRuntime) {
    all_after(
        &rt,
        FRONT,
        "0 Form",
        "\
F operator A..1 U 0 0 - 0||
F OPERATOR A..1 X 0 0 - 0||
F OPERATOR A..1 u 0 0 - 0||
F OPERATOR A..1 UD 0 0 - 0||
F OPERATOR A..1  0 0 - 0||
F OPERATOR A..1 0 0 - 0||
F OPERATOR A..1 U 00 0 - 0||
F OPERATOR A..1 U  0 - 0||
F OPERATOR A..1 U - 0 - 0||
F OPERATOR A..1 U -1 0 - 0||
F OPERATOR A..1 U 10000000000 0 - 0||
F OPERATOR A..1 U 0 00 - 0||
F OPERATOR A..1 U 0  - 0||
F OPERATOR A..1 U 0 - - 0||
F OPERATOR A..1 U 0 10000000000 - 0||
F OPERATOR A..1 U 0 0 - 00||
F OPERATOR A..1 U 0 0 - -||
F OPERATOR A..1 U 0 0 - 10000000000||
F OPERATOR A..1 U 0 0 - 0 ||
F OPERATOR A..1 U 0 0 -  0||
F  OPERATOR A..1 U 0 0 - 0||
F OPERATOR  A..1 U 0 0 - 0||
F OPERATOR A..1 U 0 0 -||
F OPERATOR A..1 U 0 0||
F OPERATOR A..1 U 0||",
    );
}

#[test]
fn a_file_has_a_moment_of_reading_or_a_hyphen(rt: HostRuntime) {
    all_after(
        &rt,
        FRONT,
        "0 Form",
        "\
F OPERATOR A..1 U 0 0  0||
F OPERATOR A..1 U 0 0 -- 0||
F OPERATOR A..1 U 0 0 -1 0||
F OPERATOR A..1 U 0 0 -0 0||
F OPERATOR A..1 U 0 0 00 0||
F OPERATOR A..1 U 0 0 01 0||
F OPERATOR A..1 U 0 0 +1 0||
F OPERATOR A..1 U 0 0 N 0||
F OPERATOR A..1 U 0 0 10000000000 0||",
    );
}

// [image-fault]
#[test]
fn a_file_has_a_name_in_version_1(rt: HostRuntime) {
    all_after(
        &rt,
        FIRST_FRONT,
        "0 Form",
        "\
F OPERATOR A.1 U 0 0||
F OPERATOR A U 0 0||
F OPERATOR .B.1 U 0 0||
F OPERATOR A.B. U 0 0||
F OPERATOR A.B.C.1 U 0 0||
F OPERATOR A..01 U 0 0||
F OPERATOR A..-1 U 0 0||
F OPERATOR A..* U 0 0||
F OPERATOR a..1 U 0 0||
F OPERATOR A.b.1 U 0 0||
F OPERATOR A,..1 U 0 0||
F OPERATOR A-NAME-OF-FORTY-BYTES-IN-ITS-LENGTH-OF-1..1 U 0 0||
F OPERATOR A.A-TYPE-OF-FORTY-BYTES-IN-ITS-LENGTH-OF-1.1 U 0 0||",
    );
}

#[test]
fn a_file_has_a_mark_a_moment_and_a_length_in_version_1(rt: HostRuntime) {
    all_after(
        &rt,
        FIRST_FRONT,
        "0 Form",
        "\
F operator A..1 U 0 0||
F OPERATOR A..1 X 0 0||
F OPERATOR A..1 u 0 0||
F OPERATOR A..1 UD 0 0||
F OPERATOR A..1  0 0||
F OPERATOR A..1 0 0||
F OPERATOR A..1 U 00 0||
F OPERATOR A..1 U  0||
F OPERATOR A..1 U 0 00||
F OPERATOR A..1 U 0 10000000000||
F OPERATOR A..1 U 0 0 ||
F OPERATOR A..1 U 0  0||
F  OPERATOR A..1 U 0 0||
F OPERATOR  A..1 U 0 0||
F OPERATOR A..1 U 0||
F OPERATOR A..1 U 0 0 - 0||
F OPERATOR A..1 U - 0||",
    );
}

#[test]
fn a_request_has_copies_a_form_and_a_day(rt: HostRuntime) {
    all_after(
        &rt,
        FRONT,
        "0 Form",
        "\
Q OPERATOR A.1 1 NORMAL - A |
Q OPERATOR a..1 1 NORMAL - A |
Q operator A..1 1 NORMAL - A |
Q  OPERATOR A..1 1 NORMAL - A |
Q OPERATOR  A..1 1 NORMAL - A |
Q OPERATOR A..1 01 NORMAL - A |
Q OPERATOR A..1  NORMAL - A |
Q OPERATOR A..1 1 N - A |
Q OPERATOR A..1 1 normal - A |
Q OPERATOR A..1 1 NORMALS - A |
Q OPERATOR A..1 1  - A |
Q OPERATOR A..1 1 NORMAL -- A |
Q OPERATOR A..1 1 NORMAL -1 A |
Q OPERATOR A..1 1 NORMAL 01 A |
Q OPERATOR A..1 1 NORMAL  A |",
    );
}

#[test]
fn a_request_has_a_job_and_a_note(rt: HostRuntime) {
    all_after(
        &rt,
        FRONT,
        "0 Form",
        "\
Q OPERATOR A..1 1 NORMAL - A|
Q OPERATOR A..1 1 NORMAL -|
Q OPERATOR A..1 1 NORMAL -  |
Q OPERATOR A..1 1 NORMAL -  A |
Q OPERATOR A..1 1 NORMAL - a |
Q OPERATOR A..1 1 NORMAL - A.B |
Q OPERATOR A..1 1 NORMAL - A-NAME-OF-FORTY-BYTES-IN-ITS-LENGTH-OF-1 |
Q OPERATOR A..1 1 NORMAL - A why?|
Q OPERATOR A..1 1 NORMAL - A by noon^|
Q OPERATOR A..1 1 NORMAL - A a note of forty bytes, in its length of.|",
    );
}
