// Files and directories whose names differ in their last byte.

use crate::machine::steps::each_after;

#[test]
fn a_file_is_not_taken_for_its_neighbour(rt: HostRuntime) {
    each_after(
        &rt,
        "build OPERATOR 0; build SMITH 0; files AB.T AA.T ABA.T AB.S AB.TT A.T",
        "\
names -> A.T.1 AA.T.1 AB.S.1 AB.T.1 AB.TT.1 ABA.T.1
copy AB.T AB.S; names -> AB.T.1=>AB.S.2; A.T.1 AA.T.1 AB.S.1 AB.S.2 AB.T.1 AB.TT.1 ABA.T.1
copy AB.TT AB.T; names -> AB.TT.1=>AB.T.2; A.T.1 AA.T.1 AB.S.1 AB.T.1 AB.T.2 AB.TT.1 ABA.T.1
copy AB.T AB.T.1; names -> FileExists; A.T.1 AA.T.1 AB.S.1 AB.T.1 AB.TT.1 ABA.T.1
copy AB.T ABA.T.2; names -> AB.T.1=>ABA.T.2; A.T.1 AA.T.1 AB.S.1 AB.T.1 AB.TT.1 ABA.T.1 ABA.T.2
rename A.T AA.T.7; names -> A.T.1=>AA.T.7; AA.T.1 AA.T.7 AB.S.1 AB.T.1 AB.TT.1 ABA.T.1
rename ABA.T AB.T; contents -> ABA.T.1=>AB.T.2; A.T.1@60=A.T AA.T.1@20=AA.T AB.S.1@40=AB.S AB.T.1@10=AB.T \
AB.T.2@30=ABA.T AB.TT.1@50=AB.TT
copy *.* *.*; names -> A.T.1=>A.T.2 AA.T.1=>AA.T.2 AB.S.1=>AB.S.2 AB.T.1=>AB.T.2 AB.TT.1=>AB.TT.2 ABA.T.1=>ABA.T.2; \
A.T.1 A.T.2 AA.T.1 AA.T.2 AB.S.1 AB.S.2 AB.T.1 AB.T.2 AB.TT.1 AB.TT.2 ABA.T.1 ABA.T.2
copy *.T <SMITH>*.*; names SMITH -> A.T.1=><SMITH>A.T.1 AA.T.1=><SMITH>AA.T.1 AB.T.1=><SMITH>AB.T.1 \
ABA.T.1=><SMITH>ABA.T.1; A.T.1 AA.T.1 AB.T.1 ABA.T.1
rename *.T <SMITH>*.*; names; names SMITH -> A.T.1=><SMITH>A.T.1 AA.T.1=><SMITH>AA.T.1 AB.T.1=><SMITH>AB.T.1 \
ABA.T.1=><SMITH>ABA.T.1; AB.S.1 AB.TT.1; A.T.1 AA.T.1 AB.T.1 ABA.T.1",
    );
}

#[test]
fn a_directory_is_not_taken_for_its_neighbour(rt: HostRuntime) {
    each_after(
        &rt,
        "build LAB; build LA; build LABS; files A.T",
        "\
copy A.T <LAB>; names LA; names LAB; names LABS -> A.T.1=><LAB>A.T.1; none; A.T.1; none
copy A.T <LA>; names LA; names LAB; names LABS -> A.T.1=><LA>A.T.1; A.T.1; none; none
rename A.T <LABS>B.T; names; names LA; names LAB; names LABS -> A.T.1=><LABS>B.T.1; none; none; none; B.T.1",
    );
}
