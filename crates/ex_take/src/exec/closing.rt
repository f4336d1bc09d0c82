// What follows an act: files are closed, and the next line is looked at.
ghost use Rattle.std.specs.Prelude.{◌≡◌, ◌≤◌, [], ◌∷◌, if◌then◌else◌};
ghost use Rattle.cm_io.specs.Fault.{PutCause};
ghost use Rattle.cm_io.specs.Contents.{Adds};
ghost use Rattle.cm_state.specs.Echo.{refusal};
ghost use Rattle.cm_run.specs.Cause.{ObeyCause};
ghost use Rattle.cm_run.specs.Obey.{Obeys, stage};
ghost use Rattle.ex_take.specs.Exec.{after_end, closed, closes, end_effects, follows, innermost, is_over, line_fault, looks_ahead, next_fault, open_files, refuses, settles, stopped};

use super::{Exec, MOST_FILES};
use crate::command_file::CommandFile;
use crate::interpreter::outcome_of;
use arrayvec::ArrayVec;
use cm_fields::Code;
use cm_io::{Put, Sink, Writer};
use cm_run::{FILE_LINES, Stop};
use cm_state::put_refusal;
use ex_commands::Acted;

impl Exec {
    // Closes all files after a refusal, and drops the command that waits.
    fn stop_taking(&mut self, code: Code)
        ensures { self.new ≡ stopped code self.old }
    {
        self.interpreter.abandon();
        self.files.clear();
        self.taken = 0;
        self.refused = self.refused.saturating_add(1);
        self.stop = Some(code);
    }

    /// Refuses a line: shows why, drops the command that waits, and closes the files that are open.
    pub fn refuse_line<S: Sink>(&mut self, code: Code, screen: &mut S) -> Result<(), Stop>
        ensures obeys { Obeys (stage (S.contents screen.old) self.old) (stage (S.contents screen.new) self.new)
            (refuses code self.old ∷ []) result }
        ensures later { S.faults screen.old ≤ S.faults screen.new }
        ensures cause { ObeyCause (S.faults screen.old) (S.faults screen.new) result }
    {
        let code = &code;
        self.stop_taking(*code);
        match show_refusal(*code, screen) {
            Put::Done => Ok(()),
            Put::Failed => Err(Stop::Screen),
        }
    }

    // Why the next line of a file is not even parsed.
    fn line_fault(&self, is_parsable: bool) -> Option<Code>
        ensures { result ≡ line_fault self.now.taken is_parsable }
    {
        if self.taken == u64::from(FILE_LINES) {
            return Some(Code::LineLimit);
        }
        if is_parsable {
            None
        } else {
            Some(Code::BadLine)
        }
    }

    // The same of the next line, where one is left in the file that is taken now.
    fn next_fault(&self) -> Option<Code>
        ensures { result ≡ next_fault self.now.taken (innermost self.now.files) }
    {
        match self.files.last() {
            Some(file) => match file.is_parsable() {
                Some(is_parsable) => self.line_fault(is_parsable),
                None => None,
            },
            None => None,
        }
    }

    // Looks at the next line: one that is none is refused.
    fn look_ahead<S: Sink>(&mut self, screen: &mut S) -> Result<(), Stop>
        ensures obeys { Obeys (stage (S.contents screen.old) self.old) (stage (S.contents screen.new) self.new)
            (looks_ahead self.old) result }
        ensures later { S.faults screen.old ≤ S.faults screen.new }
        ensures cause { ObeyCause (S.faults screen.old) (S.faults screen.new) result }
    {
        match self.next_fault() {
            Some(code) => self.refuse_line(code, screen),
            None => Ok(()),
        }
    }

    // Closes the files that are at their end.
    fn close(&mut self)
        ensures { self.new ≡ closed self.old }
    {
        close_over(&mut self.files);
        self.taken = taken_by(self.files.is_empty(), self.taken);
    }

    // Closes the files that are at their end, and looks at the next line.
    fn close_files<S: Sink>(&mut self, screen: &mut S) -> Result<(), Stop>
        ensures obeys { Obeys (stage (S.contents screen.old) self.old) (stage (S.contents screen.new) self.new)
            (closes self.old) result }
        ensures later { S.faults screen.old ≤ S.faults screen.new }
        ensures cause { ObeyCause (S.faults screen.old) (S.faults screen.new) result }
    {
        self.close();
        self.look_ahead(screen)
    }

    // Goes on after a command that waited, and has acted at the end of its file.
    fn follow_end<S: Sink>(&mut self, answer: Acted, screen: &mut S) -> Result<(), Stop>
        ensures obeys { Obeys (stage (S.contents screen.old) self.old) (stage (S.contents screen.new) self.new)
            (after_end self.old answer) result }
        ensures later { S.faults screen.old ≤ S.faults screen.new }
        ensures cause { ObeyCause (S.faults screen.old) (S.faults screen.new) result }
    {
        match answer {
            Acted::Refused(code) => {
                self.stop_taking(code);
                Ok(())
            }
            _ => self.close_files(screen),
        }
    }

    // At the end of a file a command that waits for subcommands acts, as after an empty line of them.
    fn end_file<S: Sink>(&mut self, screen: &mut S) -> Result<(), Stop>
        ensures obeys { Obeys (stage (S.contents screen.old) self.old) (stage (S.contents screen.new) self.new)
            (end_effects self.old self.old.interpreter.pending) result }
        ensures later { S.faults screen.old ≤ S.faults screen.new }
        ensures cause { ObeyCause (S.faults screen.old) (S.faults screen.new) result }
    {
        let Some(pending) = self.interpreter.take_pending() else {
            return self.close_files(screen);
        };
        let answer = self.interpreter.end_subcommands(pending, screen);
        let answer = &answer;
        match outcome_of(*answer) {
            Ok(()) => self.follow_end(*answer, screen),
            Err(stop) => Err(stop),
        }
    }

    // Goes on after an act: where a file is at its end, it ends, and else the next line is looked at.
    pub(super) fn settle<S: Sink>(&mut self, screen: &mut S) -> Result<(), Stop>
        ensures obeys { Obeys (stage (S.contents screen.old) self.old) (stage (S.contents screen.new) self.new)
            (settles self.old) result }
        ensures later { S.faults screen.old ≤ S.faults screen.new }
        ensures cause { ObeyCause (S.faults screen.old) (S.faults screen.new) result }
    {
        if is_over(&self.files) {
            self.end_file(screen)
        } else {
            self.look_ahead(screen)
        }
    }

    // Goes on after an act that was answered so, and went to its end.
    pub(super) fn follow<S: Sink>(&mut self, answer: Acted, screen: &mut S) -> Result<(), Stop>
        ensures obeys { Obeys (stage (S.contents screen.old) self.old) (stage (S.contents screen.new) self.new)
            (follows self.old answer) result }
        ensures later { S.faults screen.old ≤ S.faults screen.new }
        ensures cause { ObeyCause (S.faults screen.old) (S.faults screen.new) result }
    {
        match answer {
            Acted::Refused(code) => {
                self.stop_taking(code);
                Ok(())
            }
            Acted::Logout => Ok(()),
            _ => self.settle(screen),
        }
    }
}

// Shows why a line is refused.
#[tactic(auto, using(cm_io::proofs::Writers::finish_puts))]
fn show_refusal<S: Sink>(code: Code, screen: &mut S) -> Put
    ensures bytes { Adds (S.contents screen.old) (S.contents screen.new) (refusal code) result }
    ensures later { S.faults screen.old ≤ S.faults screen.new }
    ensures cause { PutCause (S.faults screen.old) (S.faults screen.new) result }
{
    let mut out = Writer::new(screen);
    put_refusal(code, &mut out);
    out.finish()
}

// How many lines were taken, for the typed line whose files are open; where none is, none.
fn taken_by(is_last: bool, taken: u64) -> u64
    ensures { result ≡ (if is_last then 0 else taken) }
{
    if is_last { 0 } else { taken }
}

// The file that is taken now is at its end.
fn is_over(files: &ArrayVec<CommandFile, MOST_FILES>) -> bool
    ensures { result ≡ is_over (innermost files.now.items) }
{
    match files.last() {
        Some(file) => file.is_over(),
        None => false,
    }
}

// Takes away the files that are at their end.
#[tactic(auto, using(crate::proofs::Files::over_less, crate::proofs::Files::open_less, crate::proofs::Files::open_all))]
fn close_over(files: &mut ArrayVec<CommandFile, MOST_FILES>)
    ensures { files.new.items ≡ open_files files.old.items }
{
    while is_over(files) {
        files.pop();
    }
}
