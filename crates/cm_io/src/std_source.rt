// Standard input.
ghost use Rattle.std.specs.Prelude.{◌≡◌, ◌≤◌, false, []};

use crate::fault::raised;
use crate::std_read::read_some;
use crate::{Got, Source};
use std::io::Stdin;
use std::marker::Model;

// The most bytes of one read.
const READ_LIMIT: usize = 4096;

/// Standard input. It reads what has come, at most 4096 bytes at a time, or one, and waits for no more.
/// A read that gives nothing is the end. Contracts see how many gets it
/// was asked, and its faults.
#[derive(Drop)]
pub struct StdSource {
    input: Stdin,
    buffer: [u8; READ_LIMIT],
    most: usize,
    next: usize,
    end: usize,
    gets: u64,
    faults: u64,
}

impl Model for StdSource {
    ghost use Rattle.std.specs.Prelude.{◌≤◌};
    ghost use Rattle.cm_io.specs.Memory.{SourceCounts};
    ghost use Rattle.cm_io.specs.declared.std_source.TheConstants.{READ_LIMIT};

    ghost Value = { SourceCounts };

    ghost view = { λ source. record { gets = source.gets; faults = source.faults } };

    ghost invariant = { λ source. (source.next ≤ source.end) × (source.end ≤ READ_LIMIT)
        × (source.most ≤ READ_LIMIT) };
}

impl StdSource {
    /// The standard input of this process.
    pub fn new(rt: &HostRuntime) -> StdSource
        ensures { result ≡ record { gets = 0; faults = 0 } }
    {
        StdSource::with_reads_of(rt, READ_LIMIT)
    }

    /// The standard input of this process, of which each get takes one byte alone: what is left when the program ends
    /// is there for another that reads on.
    pub fn single(rt: &HostRuntime) -> StdSource
        ensures { result ≡ record { gets = 0; faults = 0 } }
    {
        StdSource::with_reads_of(rt, 1)
    }

    // The standard input, of which one read takes so many bytes at most.
    fn with_reads_of(rt: &HostRuntime, most: usize) -> StdSource
        requires { most ≤ READ_LIMIT }
        ensures { result ≡ record { gets = 0; faults = 0 } }
    {
        StdSource {
            input: rt.stdin(),
            buffer: [0; READ_LIMIT],
            most,
            next: 0,
            end: 0,
            gets: 0,
            faults: 0,
        }
    }
}

impl Source for StdSource {
    ghost tells = { false };

    ghost left = { λ _. [] };

    ghost gets = { λ source. source.gets };

    ghost faults = { λ source. source.faults };

    fn get(&mut self) -> Got {
        self.gets = raised(self.gets);
        if self.next == self.end {
            let buffer = &mut self.buffer[..];
            let Some(count) = read_some(&mut self.input, &mut buffer[..self.most]) else {
                self.faults = raised(self.faults);
                return Got::Failed;
            };
            self.next = 0;
            self.end = count;
            if count == 0 {
                return Got::End;
            }
        }
        let byte = self.buffer[self.next];
        self.next += 1;
        Got::Byte(byte)
    }
}
