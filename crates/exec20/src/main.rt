//! The program of `./exec20`: the EXEC's run over the standard streams, the system's clock and its files.
#![tactic(auto)]

ghost use Rattle.std.specs.Prelude.{◌≡◌, ◌<◌};

use cm_blocks::Steps;
use cm_io::{Clock, Host, Sink, Source, StdClock, StdHost, StdLog, StdSink, StdSource};
use ex_program::{Status, Words, exec20};
use std::env;
use std::marker::Brand;
use std::process::ExitCode;
use std::rt::Env;
use std::sync::ledger::{Blank, Ledger};

/// Runs `exec20` over the standard streams, the system's clock and its files, and ends with the status.
fn main(rt: HostRuntime) -> ExitCode {
    let words = given_words(&rt);
    let mut host = StdHost::new(&rt);
    let mut keys = StdSource::new(&rt);
    let mut screen = StdSink::new(&rt);
    let mut log = StdLog::new(&rt);
    let mut clock = StdClock { rt };
    let status = run::<StdHost, StdSource, StdSink, StdLog, StdClock, Brand>(
        &rt,
        Blank::new(1),
        &words,
        &mut host,
        &mut keys,
        &mut screen,
        &mut log,
        &mut clock,
    );
    ExitCode::from(status.number())
}

// Makes the counter for this ledger, and runs `exec20`.
fn run<H: Host, K: Source, S: Sink, W: Sink, C: Clock, L: Ledger>(
    rt: &HostRuntime,
    blank: Blank,
    words: &Words,
    host: &mut H,
    keys: &mut K,
    screen: &mut S,
    log: &mut W,
    clock: &mut C,
) -> Status
    requires name { blank.name ≡ L.name }
    requires parts { blank.parts ≡ L.parts }
    requires some { 0 < L.parts }
{
    let mut steps: Steps<L> = Steps::new(rt, blank);
    exec20(
        rt.alloc(),
        words,
        host,
        keys,
        screen,
        log,
        clock,
        &mut steps,
    )
}

// The words after the program's name. They are too many where the system cannot tell them.
fn given_words(rt: &(impl Env + Alloc)) -> Words {
    let Ok(args) = env::args(rt) else {
        return Words::untold();
    };
    let mut words = Words::new();
    for word in args.skip(1) {
        words.push(word.as_str());
    }
    words
}
