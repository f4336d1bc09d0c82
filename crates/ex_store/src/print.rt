// Files are queued for printing.
ghost use Rattle.std.specs.Prelude.{ℕ, ◌≡◌, ◌≤◌, true, length, map, nat_lt, IfOk, IfErr, Ok};
ghost use Rattle.std.specs.List.{list_all};
ghost use Rattle.ex_store.specs.Views.{row_of_view};
ghost use Rattle.ex_store.specs.declared.limits.TheConstants.{QUEUE_LIMIT, ROW_LIMIT};
ghost use Rattle.ex_store.specs.declared.plan.Plan.TheVariants as plans;
ghost use Rattle.ex_store.specs.Plan.{IsRefused, MayPlan, planned};
ghost use Rattle.ex_store.specs.Positions.{elements_at};
ghost use Rattle.ex_store.specs.Printing.{entry_for, limit_check, own_pairs};
ghost use Rattle.ex_store.specs.Ready.{applied, are_doable, done_on, of_entries, rows_read};
ghost use Rattle.ex_store.specs.WellFormed.{IsWellFormed};

use crate::files::Files;
use crate::key::copy_of;
use crate::limits::QUEUE_LIMIT;
use crate::{NamePair, Place, QueueEntry, Ready, Refusal, RowView, Store};
use cm_fields::Code;
use cm_io::NoMemory;
use cm_text::Name;
use std::alloc::Global;

/// What is asked for with files that are printed.
#[derive(Debug, Drop)]
pub struct Request {
    /// How many copies, 1 to 63.
    pub copies: u8,
    /// The number of the form, below 3.
    pub form: u8,
    /// The day before which the files are not to be printed, 0 for 1-JAN-1970.
    pub after: Option<i32>,
    /// The name of the job, in upper case; each file's own name where none is given.
    pub job: Option<Name>,
    /// What is to be beside the files; may be empty.
    pub note: Name,
}

// The name of the job that a file is printed in.
fn job_of(request: &Request, row: RowView<'_>) -> Name
    ensures { result ≡ (entry_for request.now (row_of_view row.entry)).job }
{
    match &request.job {
        Some(job) => copy_of(job),
        None => copy_of(row.name),
    }
}

// The entry of a file.
fn entry_for(request: &Request, row: RowView<'_>) -> QueueEntry
    ensures { result ≡ entry_for request.now (row_of_view row.entry) }
{
    QueueEntry {
        file: row.full_name(),
        copies: request.copies,
        form: request.form,
        after: request.after,
        job: job_of(request, row),
        note: copy_of(&request.note),
    }
}

// So many entries more, after so many of the queue: or the limit that is passed.
fn check_limit(queue: usize, more: usize) -> Result<(), Code>
    requires { queue ≤ QUEUE_LIMIT }
    ensures { result ≡ limit_check queue more }
{
    if more > QUEUE_LIMIT - queue {
        Err(Code::QueueLimit)
    } else {
        Ok(())
    }
}

// An entry for each of the files at these places.
fn entries_for(
    alloc: Global,
    files: &Files,
    positions: &[u16],
    request: &Request,
) -> Result<Vec<QueueEntry>, NoMemory>
    requires { list_all (λ at. nat_lt at (length files.now.rows)) positions.now ≡ true }
    ensures { IfOk result (λ entries.
        entries.items ≡ map (entry_for request.now) (elements_at files.now.rows positions.now)) }
{
    let mut entries = Vec::new(alloc);
    for at in positions {
        entries.push(entry_for(request, files.row_at(usize::from(*at))))?;
    }
    Ok(entries)
}

// Each of the files at these places is its own source.
fn own_pairs(alloc: Global, files: &Files, positions: &[u16]) -> Result<Vec<NamePair>, NoMemory>
    requires { list_all (λ at. nat_lt at (length files.now.rows)) positions.now ≡ true }
    ensures { IfOk result (λ pairs. pairs.items ≡ own_pairs (elements_at files.now.rows positions.now)) }
{
    let mut pairs = Vec::new(alloc);
    for at in positions {
        let row = files.row_at(usize::from(*at));
        pairs.push(NamePair {
            source: row.full_name(),
            target: row.full_name(),
        })?;
    }
    Ok(pairs)
}

// The files at these places are queued.
fn queue_files(
    alloc: Global,
    files: &Files,
    positions: &[u16],
    request: &Request,
) -> Result<Ready, NoMemory>
    requires within { list_all (λ at. nat_lt at (length files.now.rows)) positions.now ≡ true }
    requires few { length positions.now ≤ ROW_LIMIT }
    ensures { let files = elements_at files.now.rows positions.now in
        IfOk result (λ ready. ready ≡ of_entries (map (entry_for request.now) files) (own_pairs files)) }
{
    let entries = entries_for(alloc, files, positions, request)?;
    let pairs = own_pairs(alloc, files, positions)?;
    Ok(Ready::of_entries(alloc, entries, pairs))
}

impl Store {
    // Files are queued for printing.
    pub(crate) fn print(&self, files: &Place, request: &Request) -> Result<Ready, Refusal>
        requires { MayPlan (plans.Print files.now request.now) self.now.state }
        ensures ready { IfOk result (λ ready. (moment : ℕ)
            → planned (plans.Print files.now request.now) moment self.now.state ≡ Ok (done_on self.now.state ready)) }
        ensures sound { IfOk result (λ ready. IsWellFormed (applied ready self.now.state)) }
        ensures doable { IfOk result (λ ready.
            are_doable (rows_read ready.reading self.now.state) ready.row_changes ≡ true) }
        ensures refused { (moment : ℕ)
            → IfErr result (IsRefused (planned (plans.Print files.now request.now) moment self.now.state)) }
    {
        let positions = self.positions(files, files.flags.deleted);
        match check_limit(self.queue.len(), positions.len()) {
            Ok(()) => {}
            Err(code) => return Err(Refusal::Code(code)),
        }
        match queue_files(self.alloc, &self.files, &positions, request) {
            Ok(ready) => Ok(ready),
            Err(NoMemory) => Err(Refusal::NoMemory),
        }
    }
}
