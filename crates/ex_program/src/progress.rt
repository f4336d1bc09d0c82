// How far the lines of a generated run are taken.
ghost use Rattle.std.specs.Prelude.{◌≡◌, ◌≤◌, ◌<◌, ◌∷◌, [], IfSome, None, length};
ghost use Rattle.ex_program.specs.GeneratedKeys.{next_number};
ghost use Rattle.ex_program.specs.Progress.{IsProgress, keys_left};

use crate::generated_line::{LINE_ROOM, line_keys};
use arrayvec::ArrayString;

/// The most lines of a generated run.
pub const GENERATED_LINES: u32 = 100_000;

/// More keys than any generated run has.
pub const GENERATED_KEYS: u64 = 16_777_216;

// Numbers of lines are below this.
const NUMBER_LIMIT: u64 = 2_147_483_648;

// The number of the next line.
fn next_number(number: u64) -> u64
    requires { number < NUMBER_LIMIT }
    ensures number { result ≡ next_number number }
    ensures within { result < NUMBER_LIMIT }
{
    (1_103_515_245 * number + 12_345) % NUMBER_LIMIT
}

/// How far the lines are taken.
#[derive(Drop)]
pub(crate) struct Progress {
    // how many lines are to come after the one at hand
    pub(crate) lines: u32,
    // the position of the one at hand, and its number
    pub(crate) position: u32,
    pub(crate) number: u64,
    // its keys, and how many of them were taken
    pub(crate) keys: ArrayString<LINE_ROOM>,
    pub(crate) taken: usize,
}

impl Progress {
    // Goes on to the next line, where one is to come.
    fn advance(&mut self)
        requires progress { IsProgress self.old }
        requires over { self.old.taken ≡ length self.old.keys.bytes }
        ensures progress { IsProgress self.new }
        ensures keys { keys_left self.new ≡ keys_left self.old }
        ensures end { self.new.taken ≡ length self.new.keys.bytes → keys_left self.new ≡ [] }
    {
        if self.lines == 0 {
            return;
        }
        self.lines -= 1;
        self.position += 1;
        self.number = next_number(self.number);
        self.keys = line_keys(u64::from(self.position), self.number);
        self.taken = 0;
    }

    /// Takes the next key, if there is one.
    pub(crate) fn take(&mut self) -> Option<u8>
        requires { IsProgress self.old }
        ensures progress { IsProgress self.new }
        ensures key { IfSome result (λ key. keys_left self.old ≡ key ∷ keys_left self.new) }
        ensures end { result ≡ None → (keys_left self.old ≡ []) × (keys_left self.new ≡ []) }
    {
        if self.taken == self.keys.len() {
            self.advance();
        }
        if self.taken == self.keys.len() {
            return None;
        }
        let key = self.keys.as_str().as_bytes()[self.taken];
        self.taken += 1;
        Some(key)
    }

    /// How many keys are left.
    pub(crate) fn count_left(&self) -> u64
        requires { IsProgress self.now }
        ensures count { result ≡ length (keys_left self.now) }
        ensures few { result < GENERATED_KEYS }
    {
        let mut count = (self.keys.len() - self.taken) as u64;
        let mut number = self.number;
        for turn in 0..self.lines {
            number = next_number(number);
            count += line_keys(u64::from(self.position + turn + 1), number).len() as u64;
        }
        count
    }
}
