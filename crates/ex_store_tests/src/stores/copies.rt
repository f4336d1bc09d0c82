// Files that are copied.

use crate::machine::steps::{each_after, in_turn, store_after};

#[test]
fn a_copy_to_its_own_name_is_the_next(rt: HostRuntime) {
    each_after(
        &rt,
        "build OPERATOR 0; files A.TXT",
        "\
copy A.TXT.1 A.TXT; contents -> A.TXT.1=>A.TXT.2; A.TXT.1@10=A.TXT A.TXT.2@99=A.TXT",
    );
    each_after(
        &rt,
        "build OPERATOR 1; files A.TXT",
        "\
copy A.TXT.1 A.TXT; contents -> A.TXT.1=>A.TXT.2; A.TXT.1-@10=A.TXT A.TXT.2@99=A.TXT
copy A.TXT.1 *.*; contents -> A.TXT.1=>A.TXT.2; A.TXT.1-@10=A.TXT A.TXT.2@99=A.TXT
copy A.TXT.1 <OPERATOR>; contents -> A.TXT.1=>A.TXT.2; A.TXT.1-@10=A.TXT A.TXT.2@99=A.TXT",
    );
    each_after(
        &rt,
        "build OPERATOR 2; files A.TXT",
        "\
copy A.TXT.1 A.TXT.-1; contents -> A.TXT.1=>A.TXT.2; A.TXT.1@10=A.TXT A.TXT.2@99=A.TXT",
    );
}

// [plan]
#[test]
fn several_are_copied_in_their_order(rt: HostRuntime) {
    each_after(
        &rt,
        "build OPERATOR 0; files A.FOR A.FOR B.FOR B.TXT",
        "\
copy *.FOR *.BAK; names -> A.FOR.2=>A.BAK.1 B.FOR.1=>B.BAK.1; A.BAK.1 A.FOR.1 A.FOR.2 B.BAK.1 B.FOR.1 B.TXT.1
copy *.* X.*; names -> A.FOR.2=>X.FOR.1 B.FOR.1=>X.FOR.2 B.TXT.1=>X.TXT.1; \
A.FOR.1 A.FOR.2 B.FOR.1 B.TXT.1 X.FOR.1 X.FOR.2 X.TXT.1
copy *.*.-2 X.Y; names -> A.FOR.1=>X.Y.1 B.FOR.1=>X.Y.2 B.TXT.1=>X.Y.3; \
A.FOR.1 A.FOR.2 B.FOR.1 B.TXT.1 X.Y.1 X.Y.2 X.Y.3
copy A.F%R.* A.FOR; names -> A.FOR.1=>A.FOR.3 A.FOR.2=>A.FOR.4; A.FOR.1 A.FOR.2 A.FOR.3 A.FOR.4 B.FOR.1 B.TXT.1
copy B.* *.*.9; names -> B.FOR.1=>B.FOR.9 B.TXT.1=>B.TXT.9; A.FOR.1 A.FOR.2 B.FOR.1 B.FOR.9 B.TXT.1 B.TXT.9",
    );
}

#[test]
fn each_source_is_read(rt: HostRuntime) {
    each_after(
        &rt,
        "build OPERATOR 0; files A.T B.T B.T; mark B.T.1",
        "\
copy *.T *.U; stamps -> A.T.1=>A.U.1 B.T.2=>B.U.1; A.T.1:0/10/99 A.U.1:0/99/- B.T.1-:0/20/- B.T.2:0/30/99 B.U.1:0/99/-
copy A.T B.T; stamps -> A.T.1=>B.T.3; A.T.1:0/10/99 B.T.1-:0/20/- B.T.2:0/30/- B.T.3:0/99/-
copy deleted:B.T.* A.T; stamps -> B.T.1=>A.T.2; A.T.1:0/10/- A.T.2:0/99/- B.T.1-:0/20/99 B.T.2:0/30/-
copy A.T C.T 0; stamps -> A.T.1=>C.T.1; A.T.1:0/10/0 B.T.1-:0/20/- B.T.2:0/30/- C.T.1:0/0/-
copy A.T C.T 18446744073709551615; stamps -> A.T.1=>C.T.1; \
A.T.1:0/10/4102444799 B.T.1-:0/20/- B.T.2:0/30/- C.T.1:0/4102444799/-
touch A.T 5; copy A.T C.T; stamps -> 1; A.T.1=>C.T.1; A.T.1:0/10/99 B.T.1-:0/20/- B.T.2:0/30/- C.T.1:0/99/-",
    );
}

#[test]
fn what_is_refused_is_not_read(rt: HostRuntime) {
    each_after(
        &rt,
        "build OPERATOR 0; files A.T B.T; touch B.T 5",
        "\
copy *.T B.T.1; stamps -> FileExists; A.T.1:0/10/- B.T.1:0/20/5
copy C.T B.T; stamps -> none; A.T.1:0/10/- B.T.1:0/20/5
append A.T B.T.9; stamps -> A.T.1=>B.T.9; A.T.1:0/10/99 B.T.1:0/20/5 B.T.9:0/99/-",
    );
}

#[test]
fn a_copy_of_a_marked_file_is_unmarked(rt: HostRuntime) {
    let mut store = store_after(&rt, "files A.T A.T; build SMITH");
    in_turn(
        &rt,
        &mut store,
        "\
copy deleted:*.*.* <SMITH>B -> A.T.1=><SMITH>B.T.1
copy each:<SMITH>B.T *.U -> <SMITH>B.T.1=>B.U.1
names; names SMITH -> A.T.1- A.T.2 B.U.1; B.T.1",
    );
}
