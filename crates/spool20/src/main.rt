//! The program of `./spool20`: the print spooler over standard output, the system's clock and its files.
#![tactic(auto)]

use cm_io::{StdClock, StdHost, StdSink};
use ex_spool::{Words, spool20};
use std::env;
use std::process::ExitCode;
use std::rt::Env;

/// Runs `spool20` over standard output, the system's clock and its files, and ends with the status.
fn main(rt: HostRuntime) -> ExitCode {
    let words = given_words(&rt);
    let mut host = StdHost::new(&rt);
    let mut screen = StdSink::new(&rt);
    let mut clock = StdClock { rt };
    let status = spool20(rt.alloc(), &words, &mut host, &mut screen, &mut clock);
    ExitCode::from(status.number())
}

// The words after the program's name. They are too many where the system cannot tell them.
fn given_words(rt: &(impl Env + Alloc)) -> Words {
    let Ok(args) = env::args(rt) else {
        return Words::untold();
    };
    let mut words = Words::new();
    for word in args.skip(1) {
        words.push(word.as_str());
    }
    words
}
