// Keys that are computed one by one.
ghost use Rattle.std.specs.Prelude.{◌≡◌, ◌≤◌, ◌<◌, true, length, IsTrue};
ghost use Rattle.cm_io.specs.Fault.{next_count};
ghost use Rattle.cm_io.specs.Source.{GotCause, Takes};
ghost use Rattle.ex_program.specs.GeneratedKeys.{generated_keys};
ghost use Rattle.ex_program.specs.declared.progress.TheConstants.{GENERATED_KEYS, GENERATED_LINES};

use crate::progress::Progress;
use arrayvec::ArrayString;
use cm_io::{Got, Source};
use std::marker::Model;

/// The keys of a generated run, which are computed one by one and never fail. Contracts see those that are left, and
/// how many gets it was asked.
#[derive(Drop)]
pub struct Generator {
    progress: Progress,
    gets: u64,
}

impl Model for Generator {
    ghost use Rattle.ex_program.specs.Progress.{IsProgress, keys_left};
    ghost use Rattle.ex_program.specs.Waiting.{Waiting};

    ghost Value = { Waiting };

    ghost view = { λ it. record { left = keys_left it.progress; gets = it.gets } };

    ghost invariant = { λ it. IsProgress it.progress };
}

impl Generator {
    /// The keys of so many lines.
    pub fn new(lines: u32) -> Generator
        requires { lines ≤ GENERATED_LINES }
        ensures { result ≡ record { left = generated_keys lines; gets = 0 } }
    {
        Generator {
            progress: Progress {
                lines,
                position: 0,
                number: u64::from(lines),
                keys: ArrayString::new(),
                taken: 0,
            },
            gets: 0,
        }
    }

    /// How many keys are left. They are fewer than GENERATED_KEYS.
    pub fn count_left(&self) -> u64
        ensures count { result ≡ length self.now.left }
        ensures few { result < GENERATED_KEYS }
    {
        self.progress.count_left()
    }
}

impl Source for Generator {
    ghost tells = { true };

    ghost left = { λ keys. keys.left };

    ghost gets = { λ keys. keys.gets };

    ghost faults = { λ _. 0 };

    fn get(&mut self) -> Got
        ensures asked { self.new.gets ≡ next_count self.old.gets }
        ensures bytes { IsTrue true → Takes self.old.left self.new.left result }
        ensures later { 0 ≤ 0 }
        ensures cause { GotCause 0 0 result }
    {
        self.gets = self.gets.saturating_add(1);
        match self.progress.take() {
            Some(key) => Got::Byte(key),
            None => Got::End,
        }
    }
}
