// The store as the catalogue that file specifications are looked up in, and its print queue.

use crate::machine::steps::{each_after, in_turn, store_after, store_of};
use ex_store::{FORMS, Store, form_text};
use std::process::Abort;

// Directories OPERATOR and SMITH; the logical names HOME for SMITH and SYS for OPERATOR; and two requests.
fn sample(rt: &(impl Abort + AllocGlobal)) -> Store {
    store_of(
        rt,
        "EXEC20 2|D OPERATOR 1|D SMITH 3|C OPERATOR|L HOME SMITH|L SYS OPERATOR|\
Q SMITH A.TXT.7 2 WIDE - JOB-1 by noon|Q SMITH B.TXT.7 63 WIDE 47481 JOB-1 by noon|E|",
    )
}

#[test]
fn a_store_tells_its_files(rt: HostRuntime) {
    let mut store = store_after(
        &rt,
        "files B.T.7 A.T A.T; build ALPHA; build SMITH; put <SMITH>X XYZ 5",
    );
    in_turn(
        &rt,
        &mut store,
        "\
catalogue -> ALPHA=0 OPERATOR=3 SMITH=1 connected=1
file 1 0 -> A.T.1-@20=A.T
file 1 1 -> A.T.2@30=A.T
file 1 2 -> B.T.7@10=B.T.7
file 2 0 -> X..1@5=XYZ",
    );
}

#[test]
fn a_store_tells_what_a_file_holds(rt: HostRuntime) {
    let mut store = store_after(&rt, "files B.T A.T; build SMITH; put <SMITH>X XYZ 5");
    in_turn(
        &rt,
        &mut store,
        "\
file 0 0 -> A.T.1@20=A.T
file 0 1 -> B.T.1@10=B.T
file 1 0 -> X..1@5=XYZ",
    );
}

#[test]
fn a_store_tells_its_logical_names(rt: HostRuntime) {
    let mut store = sample(&rt);
    in_turn(
        &rt,
        &mut store,
        "\
logical HOME -> Some(1)
logical home -> Some(1)
logical Sys -> Some(0)
logical HOM -> None
logical HOMES -> None
logical -> None
catalogue -> OPERATOR=0 SMITH=0 connected=0",
    );
}

#[test]
fn a_logical_name_is_taken_away(rt: HostRuntime) {
    let mut store = sample(&rt);
    in_turn(
        &rt,
        &mut store,
        "\
logicals -> 2 HOME=1 SYS=0
undefine HOMES -> Err(NoDefinition)
undefine -> Err(NoDefinition)
logicals -> 2 HOME=1 SYS=0
undefine home; logicals -> Ok(()); 1 SYS=0
undefine HOME -> Err(NoDefinition)
undefine Sys; logicals -> Ok(()); 0",
    );
}

#[test]
fn requests_are_told_in_their_order(rt: HostRuntime) {
    let mut store = sample(&rt);
    in_turn(
        &rt,
        &mut store,
        "\
requests -> 2 \
Queued { directory: \"SMITH\", name: \"A\", kind: \"TXT\", generation: 7, copies: 2, form: 2, after: None, \
job: \"JOB-1\", note: \"by noon\" } \
Queued { directory: \"SMITH\", name: \"B\", kind: \"TXT\", generation: 7, copies: 63, form: 2, after: Some(47481), \
job: \"JOB-1\", note: \"by noon\" }",
    );
}

#[test]
fn a_new_store_has_neither(rt: HostRuntime) {
    each_after(
        &rt,
        "names",
        "logicals; requests; undefine SYS -> 0; 0; Err(NoDefinition)",
    );
}

#[test]
fn forms_have_names(rt: HostRuntime) {
    let mut told = String::new(rt.alloc());
    for form in 0..FORMS {
        told.push_str(form_text(form)).expect(&rt, "memory");
        told.push(' ').expect(&rt, "memory");
    }
    assert_eq!(rt; told.as_str(), "NARROW NORMAL WIDE ");
}
