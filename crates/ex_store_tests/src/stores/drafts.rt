// Stores that are filled part by part.

use crate::machine::steps::{in_turn, store_of};
use ex_store::Draft;

// Two directories, two logical names, a file with the highest numbers and one with the lowest, and a request for
// each form: with no day and no note, for the first day and for the last.
const KINDS: &str =
    "EXEC20 2|D OPERATOR 0|D SMITH.LETTERS 63|C SMITH.LETTERS|L HOME SMITH.LETTERS|L SYS OPERATOR|\
F OPERATOR A.TXT.131071 D 63 4102444799 4102444799 6|E|F X||F SMITH.LETTERS B-1..1 U 0 0 - 0||\
Q OPERATOR A.TXT.12 63 NARROW - JOB-1 |Q OPERATOR A.TXT.12 1 NORMAL 0 JOB-1 by  noon|\
Q SMITH.LETTERS B-1..12 10 WIDE 47481 JOB-1 x|E|";

#[test]
fn a_store_has_the_parts_of_its_draft(rt: HostRuntime) {
    let mut store = store_of(
        &rt,
        "EXEC20 2|D OPERATOR 1|D SMITH 3|C SMITH|L HOME SMITH|F OPERATOR B..3 U 9 5 - 4|kept|\
F SMITH A.TXT.7 D 0 5 6 4|gone|\
Q SMITH A.TXT.7 2 WIDE - JOB-1 by noon|E|",
    );
    in_turn(
        &rt,
        &mut store,
        "\
catalogue; retention; logicals -> OPERATOR=1 SMITH=1 connected=1; 1 3; 1 HOME=1
names; names SMITH; contents -> B..3; A.TXT.7-; B..3@5=kept A.TXT.7-@5=gone
stamps -> B..3:9/5/- A.TXT.7-:0/5/6
requests -> 1 Queued { directory: \"SMITH\", name: \"A\", kind: \"TXT\", generation: 7, copies: 2, form: 2, \
after: None, job: \"JOB-1\", note: \"by noon\" }",
    );
}

#[test]
#[tactic(auto, unfolding(cm_text::specs::Bytes::is_name, cm_text::specs::Bytes::is_word))]
fn a_draft_tells_its_parts(rt: HostRuntime) {
    let mut draft = Draft::new(rt.alloc());
    draft.directory("OPERATOR", 0).expect(&rt, "memory");
    draft.directory("SMITH", 63).expect(&rt, "memory");
    let parts = draft.parts();
    let directories = parts.directories();
    let connected = parts.connected().as_str();
    let others = parts.logicals() + parts.rows() + parts.queue().len();
    let told = format!(in rt.alloc(); "{directories} {connected:?} {others}").expect(&rt, "memory");
    assert_eq!(rt; told.as_str(), "2 \"\" 0");
}

// What was written in version 1 keeps what its directories keep.
#[test]
fn files_keep_what_their_directories_keep(rt: HostRuntime) {
    let mut store = store_of(
        &rt,
        "EXEC20 1|D A 0|D B 63|D C 1|C A|F A X..1 U 5 0||F A X..2 D 5 0||F B X..1 U 6 0||\
F C X..1 U 7 0||F C X..2 U 8 0||E|",
    );
    in_turn(
        &rt,
        &mut store,
        "stamps -> X..1:0/5/- X..2-:0/5/- X..1:63/6/- X..1:1/7/- X..2:1/8/-",
    );
}

#[test]
fn every_kind_of_record_is_told(rt: HostRuntime) {
    let mut store = store_of(&rt, KINDS);
    in_turn(
        &rt,
        &mut store,
        "\
catalogue; retention; logicals -> OPERATOR=1 SMITH.LETTERS=1 connected=1; 0 63; 2 HOME=1 SYS=0
names; names SMITH.LETTERS; sizes -> A.TXT.131071-; B-1..1; 6 0
stamps -> A.TXT.131071-:63/4102444799/4102444799 B-1..1:0/0/-
requests -> 3 \
Queued { directory: \"OPERATOR\", name: \"A\", kind: \"TXT\", generation: 12, copies: 63, form: 0, after: None, \
job: \"JOB-1\", note: \"\" } \
Queued { directory: \"OPERATOR\", name: \"A\", kind: \"TXT\", generation: 12, copies: 1, form: 1, after: Some(0), \
job: \"JOB-1\", note: \"by  noon\" } \
Queued { directory: \"SMITH.LETTERS\", name: \"B-1\", kind: \"\", generation: 12, copies: 10, form: 2, \
after: Some(47481), job: \"JOB-1\", note: \"x\" }",
    );
}
