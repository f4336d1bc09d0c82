// The EXEC, and the command files that it takes.

ghost use Rattle.std.specs.Prelude.{◌≡◌, ◌==◌, ◌&&◌, length};
ghost use Rattle.ex_take.specs.ExecState.{exec_start};
ghost use Rattle.ex_take.specs.Taking.{is_at_rest, rested};

mod application;
mod closing;
mod control;
mod lines;

use crate::command_file::CommandFile;
use crate::grammar::ExecGrammar;
use crate::interpreter::Interpreter;
use arrayvec::ArrayVec;
use cm_fields::Code;
use cm_run::Own;
use ex_store::Store;
use std::alloc::Global;
use std::marker::Model;

/// How many command files may be open at once, each taken by a line of the one before.
pub const MOST_FILES: usize = 4;

/// The EXEC, and the command files that it takes. Contracts see the state of the EXEC, and of each file that is open
/// the lines that are left.
#[derive(Drop)]
pub struct Exec {
    alloc: Global,
    grammar: Own<ExecGrammar>,
    interpreter: Interpreter,
    files: ArrayVec<CommandFile, MOST_FILES>,
    taken: u64,
    refused: u64,
    stop: Option<Code>,
}

impl Model for Exec {
    ghost use Rattle.ex_take.specs.ExecState.{ExecState};

    ghost Value = { ExecState };

    ghost view = { λ it. record {
      interpreter = it.interpreter;
      files = it.files.items;
      taken = it.taken;
      refused = it.refused;
      stop = it.stop;
    } };
}

impl Exec {
    /// The EXEC with its grammar, over a store, at a typed line. The memory for files that are typed in or taken is
    /// `alloc`.
    pub fn new(alloc: Global, grammar: Own<ExecGrammar>, store: Store) -> Exec
        ensures { result ≡ exec_start store.state }
    {
        Exec {
            alloc,
            grammar,
            interpreter: Interpreter::new(alloc, store),
            files: ArrayVec::new(),
            taken: 0,
            refused: 0,
            stop: None,
        }
    }

    /// Its directories and files.
    pub fn store(&self) -> &Store
        ensures { result.now.state ≡ self.now.interpreter.state }
    {
        self.interpreter.store()
    }

    /// Whether LOGOUT has acted.
    pub fn has_ended(&self) -> bool
        ensures { result ≡ self.now.interpreter.ended }
    {
        self.interpreter.has_ended()
    }

    /// How many lines were refused, by the parser or by what they command.
    pub fn refused(&self) -> u64
        ensures { result ≡ self.now.refused }
    {
        self.refused
    }

    /// Why a line was refused last, by what it commands or as a line of a command file; none where a file was opened
    /// since, or it was forgiven. After `take` that is why the file was closed before its end.
    pub fn stop(&self) -> Option<Code>
        ensures { result ≡ self.now.stop }
    {
        self.stop
    }

    /// Whether nothing is left to be done: no command waits for subcommands, no file is typed in, none is open, and
    /// LOGOUT has not acted.
    pub fn is_at_rest(&self) -> bool
        ensures { result ≡ is_at_rest self.now }
    {
        !self.has_ended() && self.interpreter.is_free() && self.has_no_file()
    }

    // No file is open.
    fn has_no_file(&self) -> bool
        ensures { result ≡ length self.now.files == 0 && self.now.taken == 0 }
    {
        self.files.is_empty() && self.taken == 0
    }

    /// Leaves nothing to be done: drops the command that waits and the file that is typed in, and closes those that are
    /// open, as a run that was cut short may leave them.
    pub fn rest(&mut self)
        ensures { self.new ≡ rested self.old }
    {
        self.interpreter.rest();
        self.files.clear();
        self.taken = 0;
    }
}
