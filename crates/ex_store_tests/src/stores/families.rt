// The families of a store come to the same as one flat list of files.

use crate::machine::flat::agree;

// Files of several names and types, each with one to three generations, marked and not, found by number and by name.
const STEPS: &str = "\
put A.T a; put A.T b; put A.T c; names; list A.T live; list each:A.T live; list *.* live; list A.T.-2 live
put B.T a; put A.U a; put A.T a; put AB.T a; put B. a; names; list *.T live; list A*.* live; list %.% live; list B live
put A.T.5 a; put A.T.2 a; put A.T.5 a; put A.T a; names; list A.T.2 live; list A.T.0 live; list A.T.* live
put A.T a; put A.T a; mark A.T; put A.T a; names; list A.T.-2 live; list deleted:A.T deleted; unmark deleted:A.T; names
put A.T a; put A.T a; put B.T a; mark each:A.T; list *.* deleted; list A.T live; expunge OPERATOR; put A.T a; names
put A.T a; put A.T a; put A.T a; mark A.T.3; expunge OPERATOR; put A.T a; mark A.T.1; put A.T a; expunge OPERATOR; names
put A.T.131071 a; put A.T a; put A.T.7 a; names; mark A.T.131071; put A.T a; expunge OPERATOR; put A.T a; names
put C.T a; put A.T a; put B.T a; select *.* live 0; select *.* live 1; select B.* live 0; select *.* live 3
put A.T a; put A.T a; put B.T a; mark *.*.-2; select *.* live 0; select *.* deleted 0; select *.*.* deleted 1; names
put A.T a; put B.T a; put B.T a; mark C.T; mark each:*.*; mark each:*.*; unmark deleted:B.T.*; unmark deleted:*.*; names
put A1.T a; put A.T a; put A-1.T a; put A.T a; put A10.T a; names; list A%.T live; list A*1*.T live; list *.* live
put A.T a; put A.T a; put B.U a; mark A.T.1; find A.T.1; find A.T.3; find A.U.1; find B.U.1; find B.T.1; find C.T.1";

#[test]
fn all_generations_are_kept_as_in_a_list(rt: HostRuntime) {
    agree(&rt, 0, STEPS);
}

#[test]
fn one_generation_is_kept_as_in_a_list(rt: HostRuntime) {
    agree(&rt, 1, STEPS);
}

#[test]
fn two_generations_are_kept_as_in_a_list(rt: HostRuntime) {
    agree(&rt, 2, STEPS);
}
