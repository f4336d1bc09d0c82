// What a session tells of itself.
ghost use Rattle.std.specs.Prelude.{◌≡◌, ◌<◌, length};

use super::run::{Run, exec_of, run_of};
use crate::cabinet::Cabinet;
use crate::judges::Judges;
use cm_blocks::{Grammar, Role, Steps};
use cm_io::MemSink;
use std::alloc::Global;
use std::marker::Brand;
use std::process::Abort;
use std::sync::ledger::{Blank, Ledger};
use std::test::Fail;

// The run of INF VER. The counter wants the runtime itself.
fn two_fields_with<L: Ledger, A: Abort>(
    rt: &A,
    runtime: &HostRuntime,
    blank: Blank,
) -> Result<Run, Fail>
    requires name { blank.name ≡ L.name }
    requires parts { blank.parts ≡ L.parts }
    requires some { 0 < L.parts }
{
    let alloc = runtime.alloc();
    let grammar = exec_of(rt, alloc)?;
    let mut steps: Steps<L> = Steps::new(runtime, blank);
    run_of(
        rt, alloc, "INF VER", &grammar, &Cabinet, &Judges, &mut steps,
    )
}

fn two_fields(rt: &impl Abort, runtime: &HostRuntime) -> Result<Run, Fail> {
    two_fields_with::<Brand, _>(rt, runtime, Blank::new(1))
}

// The node of the first field of a role.
fn node_of(run: &Run, role: Role) -> Option<u16> {
    run.session.field_of(role).map(|field| field.node())
}

// The first of two fields.
fn first_of_two(rt: &impl Abort, alloc: Global, run: &Run) -> Result<String, Fail> {
    assert_eq!(rt; run.session.held(), 2);
    let verb = run.session.field(0);
    let places = [
        verb.node(),
        verb.start(),
        verb.end(),
        verb.need(),
        verb.next(),
    ];
    Ok(format!(in alloc; "{:?} at {places:?}", verb.value())?)
}

// And of the run of INF VER.
fn tell_of_two(rt: &impl Abort, runtime: &HostRuntime) -> Result<String, Fail> {
    let run = two_fields(rt, runtime)?;
    first_of_two(rt, runtime.alloc(), &run)
}

// A session tells how many fields it holds, and finds each by its number, and the first by its role: INF and the guide
// word, which is left out. VER is no field before the line goes on.
#[test]
fn tells_its_fields(rt: HostRuntime) -> Result<(), Fail> {
    let told = tell_of_two(&rt, &rt)?;
    assert_eq!(rt;
        told.as_str(),
        "Key { entry: 8, code: 9 } at [0, 0, 3, 4, 26]"
    );
    Ok(())
}

// The nodes of the first fields of three roles.
fn find_by_role(rt: &impl Abort, runtime: &HostRuntime) -> Result<[Option<u16>; 3], Fail> {
    let run = two_fields(rt, runtime)?;
    Ok([Role::Verb, Role::None, Role::What].map(|role| node_of(&run, role)))
}

#[test]
fn finds_a_field_by_its_role(rt: HostRuntime) -> Result<(), Fail> {
    let found = find_by_role(&rt, &rt)?;
    assert_eq!(rt; found, [Some(0), Some(26), None]);
    Ok(())
}

// The outcome of the last key, the ending, and the text.
fn told(alloc: Global, run: &Run) -> Result<String, Fail> {
    let text = str::from_utf8(run.session.text())?;
    Ok(format!(in alloc; "{:?} {:?} {text}", run.turn, run.session.ending())?)
}

// The outcome of the run of INF VER, and then of CR, which a sink with room for one byte does not show.
fn unshown<L: Ledger>(
    rt: &impl Abort,
    alloc: Global,
    grammar: &Grammar,
    steps: &mut Steps<L>,
) -> Result<String, Fail>
    requires nodes { 0 < length grammar.now.nodes }
{
    let mut full = MemSink::new(alloc, 1)?;
    let mut run = run_of(rt, alloc, "INF VER", grammar, &Cabinet, &Judges, steps)?;
    run.turn = run
        .session
        .key(b'\r', grammar, &Cabinet, &Judges, &mut full, steps);
    told(alloc, &run)
}

fn key_unshown<L: Ledger, A: Abort>(
    rt: &A,
    runtime: &HostRuntime,
    blank: Blank,
) -> Result<String, Fail>
    requires name { blank.name ≡ L.name }
    requires parts { blank.parts ≡ L.parts }
    requires some { 0 < L.parts }
{
    let grammar = exec_of(rt, runtime.alloc())?;
    let mut steps: Steps<L> = Steps::new(runtime, blank);
    unshown(rt, runtime.alloc(), &grammar, &mut steps)
}

// Where a sink fails the session is where the key left it.
#[test]
fn takes_a_key_that_is_not_shown(rt: HostRuntime) -> Result<(), Fail> {
    let found = key_unshown::<Brand, _>(&rt, &rt, Blank::new(1))?;
    assert_eq!(rt; found.as_str(), "Failed Done INF VER\r");
    Ok(())
}
