// What the runs of the tests are given, and what is to be at their ends.
ghost use Rattle.std.specs.Prelude.{◌≡◌, ◌≤◌, length};
ghost use Rattle.cm_text.specs.declared.text.TheConstants.{LINE_LIMIT};
ghost use Rattle.cm_hooks.specs.Meanings.{held_meanings};
ghost use Rattle.eg_lamps.specs.Lamps.{lamp_meanings};

use cm_hooks::{Answer, Callbacks, Hook, Hooks, Rules, StoredRules, Tail};
use cm_io::{Got, MemSink, MemSource, NoMemory, Sink, Source};
use cm_run::{Own, Stop, run_over_streams};
use eg_lamps::grammar::LampGrammar;
use eg_lamps::{Program, RoomRules};
use std::test::Fail;

// What is at the end of a run.
#[derive(Drop)]
pub struct Outcome {
    pub end: End,
    pub keys: MemSource,
    pub screen: MemSink,
}

// How a run ended, and how bright the lamps are then, one by one.
#[derive(Clone, Copy, Debug, PartialEq, Eq)]
pub struct End {
    pub result: Result<(), Stop>,
    pub levels: [u64; 4],
}

// A run over these keys, of which one may fail, on a screen with so much room.
pub(crate) fn outcome_of(
    runtime: &HostRuntime,
    keys: &[u8],
    failing_get: Option<u32>,
    room: u32,
) -> Result<Outcome, NoMemory> {
    let alloc = runtime.alloc();
    let mut keys = MemSource::new(alloc, keys, failing_get)?;
    let mut screen = MemSink::new(alloc, room)?;
    let end = run_lamps(runtime, &mut keys, &mut screen)?;
    Ok(Outcome { end, keys, screen })
}

// Whether these keys are left, and no more.
pub(crate) fn leaves(keys: &mut MemSource, left: &[u8]) -> bool {
    for key in left {
        if keys.get() != Got::Byte(*key) {
            return false;
        }
    }
    keys.get() == Got::End
}

// A run that goes to its end, what it shows, and how bright the lamps are at its end.
#[derive(Clone, Copy)]
pub struct Case<'a> {
    pub keys: &'a [u8],
    pub screen: &'a [u8],
    pub levels: [u64; 4],
}

// Runs each case, and fails where one is not as it is said.
pub(crate) fn try_cases(runtime: &HostRuntime, cases: &[Case<'_>]) -> Result<(), Fail> {
    for case in cases {
        if !is_so(runtime, case)? {
            return Err(Fail::new(format_args!("after {:?}", case.keys)));
        }
    }
    Ok(())
}

fn is_so(runtime: &HostRuntime, case: &Case<'_>) -> Result<bool, NoMemory> {
    let mut outcome = outcome_of(runtime, case.keys, None, 4096)?;
    let end = End {
        result: Ok(()),
        levels: case.levels,
    };
    Ok(
        outcome.end == end
            && outcome.screen.bytes() == case.screen
            && leaves(&mut outcome.keys, b""),
    )
}

// Makes the grammar, stores the functions that read a room, and runs the program, as its `main` does.
pub(crate) fn run_lamps<K: Source, S: Sink>(
    rt: &HostRuntime,
    keys: &mut K,
    screen: &mut S,
) -> Result<End, NoMemory> {
    let alloc = rt.alloc();
    let grammar = Own::new(alloc)?;
    let verdict = |atom: &[u8]| -> Answer
        requires { length atom.now ≤ LINE_LIMIT }
    { RoomRules.verdict(0, atom) };
    let completion = |atom: &[u8]| -> Tail
        requires { length atom.now ≤ LINE_LIMIT }
    { RoomRules.completion(0, atom) };
    let help = || Rules::help(&RoomRules, 0);
    let hook = Hook::new(
        0,
        Box::new(alloc, verdict)?,
        Box::new(alloc, completion)?,
        Box::new(alloc, help)?,
    );
    let mut hooks: Hooks<RoomRules> = Hooks::new();
    match hooks.push(hook) {
        Ok(()) => Ok(run_stored(rt, grammar, hooks.lend(), keys, screen)),
        Err(_) => unreachable!(),
    }
}

// Runs the program over stored functions.
fn run_stored<H: Callbacks, K: Source, S: Sink>(
    rt: &HostRuntime,
    grammar: Own<LampGrammar>,
    hooks: H,
    keys: &mut K,
    screen: &mut S,
) -> End
    requires ties { H.ties hooks }
    requires rooms { held_meanings (H.count hooks) H.meant ≡ lamp_meanings }
{
    run_over(rt, grammar, StoredRules::new(hooks), keys, screen)
}

// Runs the program over any rules that read a room.
fn run_over<R: Rules + Drop, K: Source, S: Sink>(
    rt: &HostRuntime,
    grammar: Own<LampGrammar>,
    rules: R,
    keys: &mut K,
    screen: &mut S,
) -> End
    requires rooms { R.meanings rules ≡ lamp_meanings }
{
    let mut program = Program::new(grammar, rules);
    let result = run_over_streams(rt, &mut program, keys, screen);
    let [hall, kitchen, stairs, study] = &program.lamps;
    End {
        result,
        levels: [
            hall.brightness,
            kitchen.brightness,
            stairs.brightness,
            study.brightness,
        ],
    }
}
