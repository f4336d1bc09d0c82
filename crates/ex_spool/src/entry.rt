// The pages of an entry.
ghost use Rattle.std.specs.Prelude.{◌≡◌, ◌<◌, ◌≤◌, Option};
ghost use Rattle.cm_io.specs.Writer.{Writes};
ghost use Rattle.ex_store.specs.declared.limits.TheConstants.{FORMS};
ghost use Rattle.ex_spool.specs.Spool.{bytes_of, copies_text, copy_text, due_text, entry_text, width_of};
ghost use Rattle.ex_spool.specs.declared.row.TheConstants.{WIDEST_ROW};

use crate::banner::{put_absent, put_banner};
use crate::body::put_body;
use crate::due::is_due;
use cm_io::{Sink, Writer};
use ex_store::{QueueEntry, Store};

// How many bytes a row has, by the number of the form.
fn width_of(form: u8) -> usize
    ensures width { result ≡ width_of form }
    ensures some { 0 < result }
    ensures fits { result ≤ WIDEST_ROW }
{
    match form {
        0 => 80,
        1 => 132,
        _ => 200,
    }
}

// Puts a copy: its banner, and the pages of the file.
#[tactic(auto, using(cm_io::proofs::Texts::texts))]
fn put_copy<S: Sink>(entry: &QueueEntry, bytes: &[u8], copy: u8, out: &mut Writer<'_, S>)
    requires { entry.now.form < FORMS }
    ensures { Writes S.Sink out.old out.new (copy_text entry.now bytes.now copy) }
{
    put_banner(entry, copy, out);
    put_body(bytes, width_of(entry.form), out);
}

// Puts all copies.
#[tactic(auto, using(crate::proofs::Copies::copies_none, crate::proofs::Copies::copies_more))]
fn put_copies<S: Sink>(entry: &QueueEntry, bytes: &[u8], out: &mut Writer<'_, S>)
    requires { entry.now.form < FORMS }
    ensures { Writes S.Sink out.old out.new (copies_text entry.now bytes.now entry.now.copies) }
{
    for copy in 0..entry.copies {
        put_copy(entry, bytes, copy + 1, out);
    }
}

// Puts the pages of an entry.
#[tactic(auto, unfolding(crate::specs::Spool::entry_text))]
fn put_entry<S: Sink>(store: &Store, entry: &QueueEntry, out: &mut Writer<'_, S>)
    requires { entry.now.form < FORMS }
    ensures { Writes S.Sink out.old out.new (entry_text entry.now (bytes_of store.now.state entry.now)) }
{
    match store.find(&entry.file, &mut 0) {
        Some(file) => put_copies(entry, file.bytes.as_slice(), out),
        None => put_absent(entry, out),
    }
}

/// Puts the pages of an entry, if it is due.
#[tactic(auto, using(cm_io::proofs::Texts::each), unfolding(crate::specs::Spool::due_text))]
pub(crate) fn put_due<S: Sink>(
    store: &Store,
    entry: &QueueEntry,
    moment: u64,
    out: &mut Writer<'_, S>,
)
    requires { entry.now.form < FORMS }
    ensures { Writes S.Sink out.old out.new (due_text moment store.now.state entry.now) }
{
    if is_due(moment, entry) {
        put_entry(store, entry, out);
    }
}
