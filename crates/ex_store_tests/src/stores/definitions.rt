// Logical names that are defined.

use crate::machine::steps::{in_turn, store_after};
use std::alloc::{AllocError, Global};

#[test]
fn a_name_stands_for_the_last_directory(rt: HostRuntime) {
    let mut store = store_after(&rt, "build SMITH; build ZULU");
    in_turn(
        &rt,
        &mut store,
        "\
define HOME SMITH; logicals -> none; 1 HOME=1
define HOMES OPERATOR; logicals -> none; 2 HOME=1 HOMES=0
define ABC ZULU; logicals -> none; 3 ABC=2 HOME=1 HOMES=0
define HOME ZULU; logicals -> none; 3 ABC=2 HOME=2 HOMES=0
define HOME ZULU; logicals -> none; 3 ABC=2 HOME=2 HOMES=0
define home OPERATOR; logicals -> none; 3 ABC=2 HOME=0 HOMES=0
define aB-1 ZULU; logicals -> none; 4 AB-1=2 ABC=2 HOME=0 HOMES=0
logical HOME; logical homes; logical ab-1 -> Some(0); Some(0); Some(2)
undefine Home; logicals -> Ok(()); 3 AB-1=2 ABC=2 HOMES=0",
    );
}

#[test]
fn a_text_that_no_name_can_be_stands_for_nothing(rt: HostRuntime) {
    let mut store = store_after(&rt, "define HOME OPERATOR");
    in_turn(
        &rt,
        &mut store,
        "\
logical HOME2; logical HOM; logical home -> None; None; Some(0)
logical HOMÉ; logical AAAAAAAAAAAAAAAAAAAAAAAAAAAAAAAAAAAAAAAA -> None; None
undefine HOMÉ; undefine AAAAAAAAAAAAAAAAAAAAAAAAAAAAAAAAAAAAAAAA -> Err(NoDefinition); Err(NoDefinition)
logicals -> 1 HOME=0",
    );
}

// The steps that define so many logical names.
fn defines(alloc: Global, count: u32) -> Result<String, AllocError> {
    let mut steps = String::from_str(alloc, "build SMITH")?;
    for i in 0..count {
        let number = i.saturating_add(1);
        write!(steps, "; define L{number} OPERATOR")?;
    }
    Ok(steps)
}

#[test]
fn there_are_at_most_64_logical_names(rt: HostRuntime) {
    let steps = defines(rt.alloc(), 63).expect(&rt, "memory");
    let mut store = store_after(&rt, steps.as_str());
    in_turn(
        &rt,
        &mut store,
        "\
define A SMITH; logical A -> none; Some(1)
define B SMITH; logical B -> LogicalLimit; None
define l63 SMITH; logical L63 -> none; Some(1)
undefine L1; define B SMITH; logical B -> Ok(()); none; Some(1)
define L1 SMITH -> LogicalLimit",
    );
    assert_eq!(rt; store.logicals(), 64);
}
