// The ways through commands, by example.
use crate::cases::{given, is_wanted};
use cm_synopsis::{Step, Way, read_command, way_of};
use cm_text::Name;
use std::alloc::Global;
use std::process::Abort;
use std::test::Fail;

// A command; the place of the part of each step, with its range, or a star where a line has it once; the links between
// steps; the ends.
const WAYS: &str = "\
SHOW~0 | 0-1 | 1
A B~0 1 | 0-1 1-2 | 2
A [B] C~0 2 4 | 0-1 1-2 2-3 1-3 | 3
[A]~1 | 0-1 | 1 0
A <B|C> D~0 2 4 6 | 0-1 1-2 1-3 2-4 3-4 | 4
A {/B|/C} D~0 2* 4* 6 | 0-1 1-2 1-3 2-2 2-3 3-2 3-3 2-4 3-4 1-4 | 4
A {B x:number 1-9|/C}~0 2* 3:1-9 6* | 0-1 1-2 2-3 1-4 3-2 3-4 4-2 4-4 | 3 4 1
A x:word ..~0 1 | 0-1 1-2 2-2 | 2
A x:number 1-5 ..~0 1:1-5 | 0-1 1-2 2-2 | 2
A [B [C]] D~0 2 4 7 | 0-1 1-2 2-3 3-4 2-4 1-4 | 4
A <B|[C]> D~0 2 5 8 | 0-1 1-2 1-3 2-4 3-4 1-4 | 4
A [(TO) x:word] [/B]~0 2 3 6 | 0-1 1-2 2-3 3-4 1-4 | 4 3 1";

fn step_text(alloc: Global, step: &Step) -> Result<String, Fail> {
    let sign = if step.option { "*" } else { "" };
    match step.range {
        Some((low, high)) => Ok(format!(in alloc; "{}:{low}-{high} ", step.part)?),
        None => Ok(format!(in alloc; "{}{sign} ", step.part)?),
    }
}

fn way_text(alloc: Global, way: &Way) -> Result<String, Fail> {
    let mut text = String::new(alloc);
    for step in way.steps.iter() {
        text.push_str(step_text(alloc, step)?.as_str())?;
    }
    text.push_str("|")?;
    for link in way.links.iter() {
        text.push_str(format!(in alloc; " {}-{}", link.from, link.to)?.as_str())?;
    }
    text.push_str(" |")?;
    for end in way.ends.iter() {
        text.push_str(format!(in alloc; " {end}")?.as_str())?;
    }
    Ok(text)
}

fn leads(rt: &impl Abort, alloc: Global, case: &str) -> Result<(), Fail> {
    let lists: [Name; 0] = [];
    let command = match read_command(alloc, &lists, given(rt, case).as_bytes())? {
        Ok(command) => command,
        Err(fault) => panic!(rt; "{case}: {fault:?}"),
    };
    let way = way_of(alloc, &command.parts)?;
    is_wanted(rt, case, way_text(alloc, &way)?.as_str());
    Ok(())
}

#[test]
fn finds_ways(rt: HostRuntime) -> Result<(), Fail> {
    for case in WAYS.split('\n') {
        leads(&rt, rt.alloc(), case)?;
    }
    Ok(())
}
