// A line that is shown again, and one that is parsed again.
ghost use Rattle.std.specs.Prelude.{◌<◌, length};

use super::question::{Question, tries};
use super::run::{Run, run_of};
use crate::cabinet::Cabinet;
use crate::cases::text_of;
use crate::grammars::{exec, said};
use crate::judges::Judges;
use cm_blocks::{Grammar, Steps};
use cm_files::{Names, OneDirectory};
use cm_io::{MemSink, Put};
use cm_state::Turn;
use std::alloc::Global;
use std::process::Abort;
use std::sync::ledger::Ledger;
use std::test::Fail;

// What is shown again of a run.
fn shown(rt: &impl Abort, alloc: Global, run: &Run) -> Result<String, Fail> {
    let mut sink = MemSink::new(alloc, 400)?;
    assert_eq!(rt; run.session.show(&mut sink), Put::Done);
    text_of(alloc, &sink)
}

// A case is keys, and what is shown again.
pub(crate) fn try_shown<L: Ledger>(
    rt: &impl Abort,
    alloc: Global,
    case: &str,
    grammar: &Grammar,
    steps: &mut Steps<L>,
) -> Result<(), Fail>
    requires nodes { 0 < length grammar.now.nodes }
{
    let (keys, wanted) = case.split_once('|').ok_or("a case")?;
    let run = run_of(rt, alloc, keys, grammar, &Cabinet, &Judges, steps)?;
    let found = shown(rt, alloc, &run)?;
    assert_eq!(rt; found.as_str(), wanted, "at {case}");
    Ok(())
}

// The prompt and the line as they stand, with no new line before them.
#[test]
fn shows_a_line_again(rt: HostRuntime) -> Result<(), Fail> {
    let cases = "\
|@

INF X\x7fVER|@INF VER

INF -\rVER|@INF -\r
VER

INF\x15|@

LOGOUT\r|@";
    tries(&rt, &rt, Question::Shown, exec(rt.alloc())?, cases)
}

// What a session holds, and the outcome of CR then.
fn told<N: Names, L: Ledger>(
    rt: &impl Abort,
    alloc: Global,
    run: &mut Run,
    grammar: &Grammar,
    names: &N,
    steps: &mut Steps<L>,
) -> Result<String, Fail>
    requires nodes { run.old.session.node < length grammar.now.nodes }
{
    let mut sink = MemSink::new(alloc, 400)?;
    run.session.parse_again(grammar, names, &Judges, steps);
    let held = run.session.held();
    let turn = run
        .session
        .key(b'\r', grammar, names, &Judges, &mut sink, steps);
    assert!(rt; turn != Turn::Failed);
    Ok(format!(in alloc; "{held} {turn:?}")?)
}

// The keys of a case meet a catalogue of files or one of none, and the other one comes before CR.
fn answer<L: Ledger>(
    rt: &impl Abort,
    alloc: Global,
    files: &str,
    keys: &str,
    grammar: &Grammar,
    steps: &mut Steps<L>,
) -> Result<String, Fail>
    requires nodes { 0 < length grammar.now.nodes }
{
    if files == "gone" {
        let mut run = run_of(rt, alloc, keys, grammar, &Cabinet, &Judges, steps)?;
        return told(
            rt,
            alloc,
            &mut run,
            grammar,
            &OneDirectory::nothing(),
            steps,
        );
    }
    let mut run = run_of(
        rt,
        alloc,
        keys,
        grammar,
        &OneDirectory::nothing(),
        &Judges,
        steps,
    )?;
    told(rt, alloc, &mut run, grammar, &Cabinet, steps)
}

// A case is what happens to the files, keys, and what is held then, with the outcome of CR.
fn parts(case: &str) -> Option<(&str, &str, &str)> {
    let (files, rest) = case.split_once('|')?;
    let (keys, wanted) = rest.split_once('|')?;
    Some((files, keys, wanted))
}

pub(crate) fn try_case<L: Ledger>(
    rt: &impl Abort,
    alloc: Global,
    case: &str,
    grammar: &Grammar,
    steps: &mut Steps<L>,
) -> Result<(), Fail>
    requires nodes { 0 < length grammar.now.nodes }
{
    let (files, keys, wanted) = parts(case).ok_or("a case")?;
    let found = answer(rt, alloc, files, keys, grammar, steps)?;
    assert_eq!(rt; found.as_str(), wanted, "at {case}");
    Ok(())
}

// A field that names a file stands or falls with the catalogue, and the key after it meets what is held then.
#[test]
fn parses_again_where_the_catalogue_changed(rt: HostRuntime) -> Result<(), Fail> {
    let cases = "\
gone|,A.FOR <NEW>|1 Refused(Fault { code: NoFile, node: 4, at: 1 })
come|,A.FOR <NEW>|2 Confirmed
gone|,A.FOR |1 Refused(Fault { code: NoFile, node: 4, at: 1 })
gone|ALFA 5|1 Confirmed";
    tries(&rt, &rt, Question::Again, said(rt.alloc())?, cases)
}
