// The entries of a print queue that are due.
ghost use Rattle.std.specs.Prelude.{◌≡◌, ◌<◌, length, get_or, if◌then◌else◌};
ghost use Rattle.std.specs.List.{remove};
ghost use Rattle.ex_store.specs.declared.queue.QueueEntry.{QueueEntry as Queueing};
ghost use Rattle.ex_spool.specs.Spool.{has_come, is_due, without_due};

use ex_store::{QueueEntry, Store};

/// The seconds of a day.
pub const DAY_SECONDS: u64 = 86_400;

// Whether the day has come before which an entry is not to be printed.
fn has_come(moment: u64, after: Option<i32>) -> bool
    ensures { result ≡ has_come moment after }
{
    match after {
        None => true,
        Some(day) => i64::from(day) <= (moment / DAY_SECONDS) as i64,
    }
}

/// Whether an entry is due.
pub(crate) fn is_due(moment: u64, entry: &QueueEntry) -> bool
    ensures { result ≡ is_due moment entry.now }
{
    has_come(moment, entry.after)
}

// Takes an entry out of the queue, if it is due.
fn drop_if_due(store: &mut Store, i: u16, moment: u64)
    requires { i < length store.old.state.queue }
    ensures { (d : Queueing) → store.new.state ≡ record store.old.state {
      queue = if is_due moment (get_or store.old.state.queue i d) then remove store.old.state.queue i
          else store.old.state.queue;
    } }
{
    if has_come(moment, store.request(i).after) {
        store.unqueue(i);
    }
}

/// Takes the entries that are due out of the queue, from the last to the first. The others keep their order.
pub(crate) fn drop_due(store: &mut Store, moment: u64)
    ensures { store.new.state ≡ without_due moment store.old.state }
{
    let mut i = store.requests();
    while i > 0 {
        i -= 1;
        drop_if_due(store, i, moment);
    }
}
