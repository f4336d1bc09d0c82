// The pages of all entries that are due.
ghost use Rattle.std.specs.Prelude.{◌≡◌, ◌≤◌, true, nat_lt};
ghost use Rattle.std.specs.List.{flat_map, list_all};
ghost use Rattle.cm_io.specs.Fault.{PutCause};
ghost use Rattle.cm_io.specs.Contents.{Adds};
ghost use Rattle.cm_io.specs.Writer.{Writes};
ghost use Rattle.ex_store.specs.declared.limits.TheConstants.{FORMS};
ghost use Rattle.ex_spool.specs.Spool.{due_text, pages};

use crate::entry::put_due;
use cm_io::{Put, Sink, Writer};
use ex_store::{QueueEntry, Store};

// Puts the pages of those of some entries that are due.
#[tactic(auto, using(cm_io::proofs::Texts::each))]
fn put_entries<S: Sink>(store: &Store, entries: &[QueueEntry], moment: u64, out: &mut Writer<'_, S>)
    requires { list_all (λ entry. nat_lt entry.form FORMS) entries.now ≡ true }
    ensures { Writes S.Sink out.old out.new (flat_map (due_text moment store.now.state) entries.now) }
{
    for entry in entries {
        put_due(store, entry, moment, out);
    }
}

// Puts the pages of the entries that are due.
fn put_pages<S: Sink>(store: &Store, moment: u64, out: &mut Writer<'_, S>)
    ensures { Writes S.Sink out.old out.new (pages moment store.now.state) }
{
    put_entries(store, store.parts().queue(), moment, out);
}

/// Shows the pages of the entries that are due. It takes no memory.
#[tactic(auto, using(cm_io::proofs::Writers::finish_puts))]
pub(crate) fn show_pages<S: Sink>(store: &Store, moment: u64, screen: &mut S) -> Put
    ensures bytes { Adds (S.contents screen.old) (S.contents screen.new) (pages moment store.now.state) result }
    ensures later { S.faults screen.old ≤ S.faults screen.new }
    ensures cause { PutCause (S.faults screen.old) (S.faults screen.new) result }
{
    let mut out = Writer::new(screen);
    put_pages(store, moment, &mut out);
    out.finish()
}
