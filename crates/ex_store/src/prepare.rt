// Plans are prepared.
ghost use Rattle.std.specs.Prelude.{ℕ, ◌≡◌, ◌<◌, ◌≤◌, ◌+◌, true, length, IfOk, IfErr, OnOk, Ok};
ghost use Rattle.ex_store.specs.Rows.{files_of};
ghost use Rattle.ex_store.specs.Families.{room_at};
ghost use Rattle.ex_store.specs.declared.key.Key.{Key as Named};
ghost use Rattle.ex_store.specs.declared.plan.Plan.TheVariants as plans;
ghost use Rattle.ex_store.specs.Plan.{IsRefused, MayPlan, planned};
ghost use Rattle.ex_store.specs.Ready.{IsFor, applied, are_doable, count_made, count_under, done_on, rows_read};
ghost use Rattle.ex_store.specs.WellFormed.{IsWellFormed};

use crate::build::built;
use crate::{Plan, Ready, Refusal, Store};
use cm_io::NoMemory;
use cm_text::Name;

impl Store {
    // A directory is made, or keeps another number of generations.
    fn build(&self, directory: Name, retention: Option<u8>) -> Result<Ready, Refusal>
        requires { MayPlan (plans.Build directory retention) self.now.state }
        ensures ready { IfOk result (λ ready. (moment : ℕ)
            → planned (plans.Build directory retention) moment self.now.state ≡ Ok (done_on self.now.state ready)) }
        ensures sound { IfOk result (λ ready. IsWellFormed (applied ready self.now.state)) }
        ensures doable { IfOk result (λ ready.
            are_doable (rows_read ready.reading self.now.state) ready.row_changes ≡ true) }
        ensures refused { (moment : ℕ)
            → IfErr result (IsRefused (planned (plans.Build directory retention) moment self.now.state)) }
    {
        match built(&self.directories, directory, retention) {
            Ok(directory) => Ok(Ready::of_directory(self.alloc, directory)),
            Err(code) => Err(Refusal::Code(code)),
        }
    }

    // The outcome of a plan.
    fn plan(&self, plan: Plan, moment: u64) -> Result<Ready, Refusal>
        requires { MayPlan plan self.now.state }
        ensures ready { IfOk result (λ ready. planned plan moment self.now.state ≡ Ok (done_on self.now.state ready)) }
        ensures sound { IfOk result (λ ready. IsWellFormed (applied ready self.now.state)) }
        ensures doable { IfOk result (λ ready.
            are_doable (rows_read ready.reading self.now.state) ready.row_changes ≡ true) }
        ensures refused { IfErr result (IsRefused (planned plan moment self.now.state)) }
    {
        match plan {
            Plan::Build {
                directory,
                retention,
            } => self.build(directory, retention),
            Plan::Define { name, directory } => self.define(&name, directory),
            Plan::Copy { from, to } => self.copy(&from, &to, moment),
            Plan::Rename { from, to } => self.rename(&from, &to),
            Plan::Append { from, to } => self.append(&from, &to, moment),
            Plan::Write { to, bytes } => self.write(&to, bytes, moment),
            Plan::Print { files, request } => self.print(&files, &request),
        }
    }

    // Makes room for all that is to be done.
    fn make_room(&mut self, ready: &Ready) -> Result<(), NoMemory>
        ensures state { self.new.state ≡ self.old.state }
        ensures directories { OnOk result
            (count_made ready.now.directory ≤ self.new.spare_directories) }
        ensures logical { OnOk result
            (count_made ready.now.definition ≤ self.new.spare_logical) }
        ensures names { OnOk result ((key : Named) → 0 < count_under key ready.now.row_changes
            → length (files_of key self.old.state.rows) + count_under key ready.now.row_changes
            ≤ room_at key self.new.family_rooms) }
        ensures queue { OnOk result (length self.old.state.queue + length ready.now.entries ≤ self.new.queue_room) }
        ensures lean { OnOk result
            (length self.new.family_rooms ≤ length self.old.state.rows + length ready.now.row_changes) }
    {
        if ready.directory.is_some() {
            self.directories.reserve()?;
        }
        if ready.definition.is_some() {
            self.logical.reserve()?;
        }
        self.files.make_room(self.alloc, &ready.row_changes)?;
        self.queue.reserve(ready.entries.len())?;
        Ok(())
    }

    /// Prepares a plan: makes every growth that it needs, so that [`Store::apply`] cannot fail. What the store holds
    /// stays. A plan is refused with the code with which it is first refused where its files are taken in ascending
    /// order, each with its bytes as they are now. A moment past the last that a file has counts as that last one.
    pub fn prepare(&mut self, plan: Plan, moment: u64) -> Result<Ready, Refusal>
        requires { MayPlan plan self.old.state }
        ensures state { self.new.state ≡ self.old.state }
        // [plan]
        ensures ready { IfOk result (λ ready. planned plan moment self.old.state ≡ Ok (done_on self.old.state ready)) }
        ensures for_it { IfOk result (λ ready. IsFor ready self.new) }
        ensures lean { IfOk result (λ ready.
            length self.new.family_rooms ≤ length self.old.state.rows + length ready.row_changes) }
        ensures refused { IfErr result (IsRefused (planned plan moment self.old.state)) }
    {
        let ready = match self.plan(plan, moment) {
            Ok(ready) => ready,
            Err(refusal) => return Err(refusal),
        };
        match self.make_room(&ready) {
            Ok(()) => Ok(ready),
            Err(NoMemory) => Err(Refusal::NoMemory),
        }
    }
}
