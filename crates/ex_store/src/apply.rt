// Plans are done.
ghost use Rattle.std.specs.Prelude.{◌≡◌, None, true, ◌<◌, ◌≤◌, ◌+◌, [], ◌∷◌, ◌++◌, vec_capacity, vec_len};
ghost use Rattle.ex_store.specs.Ready.{IsFor, held_after, is_reading_within, rows_read};

use crate::firsts::firsts_in;
use crate::ready::Reading;
use crate::{QueueEntry, Ready, Store};

// Puts an entry after those of the queue, in a vector that has room for it.
fn put_last(queue: &mut Vec<QueueEntry>, entry: QueueEntry)
    requires { vec_len queue.old < vec_capacity queue.old }
    ensures items { queue.new.items ≡ queue.old.items ++ entry ∷ [] }
    ensures len { vec_len queue.new ≡ vec_len queue.old + 1 }
    ensures capacity { vec_capacity queue.new ≡ vec_capacity queue.old }
{
    match queue.insert(queue.len(), entry) {
        Ok(()) => {}
        Err(_) => unreachable!(),
    }
}

// Puts entries into the queue, in a vector that has room for them.
fn enqueue(queue: &mut Vec<QueueEntry>, entries: Vec<QueueEntry>)
    requires { vec_len queue.old + vec_len entries ≤ vec_capacity queue.old }
    ensures items { queue.new.items ≡ queue.old.items ++ entries.items }
    ensures capacity { vec_capacity queue.new ≡ vec_capacity queue.old }
{
    for entry in entries {
        put_last(queue, entry);
    }
}

impl Store {
    // The files that are read get the moment of it.
    fn read(&mut self, reading: Option<Reading>)
        requires { is_reading_within reading ≡ true }
        ensures { self.new ≡ record self.old {
          state = record self.old.state { rows = rows_read reading self.old.state };
        } }
    {
        if let Some(reading) = reading {
            self.touch(&reading.files, reading.moment);
        }
    }

    // Does all that is ready but the reading.
    fn change(&mut self, ready: Ready)
        requires reading { ready.reading ≡ None }
        requires for_it { IsFor ready self.old }
        ensures { self.new ≡ held_after ready self.old }
    {
        let Ready {
            directory,
            definition,
            row_changes,
            entries,
            ..
        } = ready;
        if let Some(directory) = directory {
            self.directories.make(directory);
        }
        if let Some(definition) = definition {
            self.logical.define(definition);
        }
        self.files.change(row_changes);
        self.firsts = firsts_in(&self.directories, &self.files);
        enqueue(&mut self.queue, entries);
    }

    /// Does what is ready. The store is as [`Store::prepare`] left it. No memory is taken or let go: what is made takes
    /// the room that was made for it.
    pub fn apply(&mut self, ready: Ready)
        requires { IsFor ready self.old }
        ensures { self.new ≡ held_after ready self.old }
    {
        let mut ready = ready;
        self.read(ready.reading.take());
        self.change(ready);
    }
}
