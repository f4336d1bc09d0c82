//! The program of `./lamps`: the run of the lamps over the standard streams.
#![tactic(auto)]

ghost use Rattle.std.specs.Prelude.{◌≡◌, ◌≤◌, length};
ghost use Rattle.cm_text.specs.declared.text.TheConstants.{LINE_LIMIT};
ghost use Rattle.cm_hooks.specs.Meanings.{held_meanings};
ghost use Rattle.eg_lamps.specs.Lamps.{lamp_meanings};

use cm_hooks::{Answer, Callbacks, Hook, Hooks, Rules, StoredRules, Tail};
use cm_io::{Sink, Source, Status, StdSink, StdSource, put_line};
use cm_run::{Own, Stop, run_over_streams, status_of};
use eg_lamps::grammar::LampGrammar;
use eg_lamps::{Program, RoomRules};
use std::process::ExitCode;

/// Stores the functions that read a room as hook 0, runs the program over the standard streams, and ends with its
/// status. Where there is no memory for the grammar or a function, that is told, and nothing is run.
fn main(rt: HostRuntime) -> ExitCode {
    let alloc = rt.alloc();
    let mut keys = StdSource::new(&rt);
    let mut screen = StdSink::new(&rt);
    let verdict = |atom: &[u8]| -> Answer
        requires { length atom.now ≤ LINE_LIMIT }
    { RoomRules.verdict(0, atom) };
    let completion = |atom: &[u8]| -> Tail
        requires { length atom.now ≤ LINE_LIMIT }
    { RoomRules.completion(0, atom) };
    let help = || Rules::help(&RoomRules, 0);
    let (Ok(grammar), Ok(verdict), Ok(completion), Ok(help)) = (
        Own::new(alloc),
        Box::new(alloc, verdict),
        Box::new(alloc, completion),
        Box::new(alloc, help),
    ) else {
        put_line(b"?No memory", &mut screen);
        return ExitCode::from(Status::NoMemory.number());
    };
    let mut hooks: Hooks<RoomRules> = Hooks::new();
    let outcome = match hooks.push(Hook::new(0, verdict, completion, help)) {
        Ok(()) => run_stored(&rt, grammar, hooks.lend(), &mut keys, &mut screen),
        Err(_) => unreachable!(),
    };
    ExitCode::from(status_of(outcome))
}

// Runs the program over the rules that stored functions answer.
fn run_stored<H: Callbacks, K: Source, S: Sink>(
    rt: &HostRuntime,
    grammar: Own<LampGrammar>,
    hooks: H,
    keys: &mut K,
    screen: &mut S,
) -> Result<(), Stop>
    requires ties { H.ties hooks }
    requires rooms { held_meanings (H.count hooks) H.meant ≡ lamp_meanings }
{
    run_over(rt, grammar, StoredRules::new(hooks), keys, screen)
}

// Runs the program over any rules that read a room.
fn run_over<R: Rules + Drop, K: Source, S: Sink>(
    rt: &HostRuntime,
    grammar: Own<LampGrammar>,
    rules: R,
    keys: &mut K,
    screen: &mut S,
) -> Result<(), Stop>
    requires rooms { R.meanings rules ≡ lamp_meanings }
{
    let mut program = Program::new(grammar, rules);
    run_over_streams(rt, &mut program, keys, screen)
}
