// Objects that share a count, so that a test sees how many calls of others came before one of a host.
ghost use Rattle.std.specs.Prelude.{◌≡◌, IsSome};

use cm_io::{Clock, Got, Host, Loaded, Put, Sink, Source};
use std::alloc::Global;
use std::cell::Cell;

/// An object that is what it holds, and counts its calls in a cell that others share.
#[derive(Drop)]
pub struct Counted<'a, T> {
    pub held: T,
    pub calls: &'a Cell<u64>,
}

impl<T> Counted<'_, T> {
    // One call more.
    fn count(&self) {
        self.calls.set(self.calls.get().saturating_add(1));
    }
}

impl<K: Source> Source for Counted<'_, K> {
    ghost tells = { K.tells };

    ghost left = { λ it. K.left it.held };

    ghost gets = { λ it. K.gets it.held };

    ghost faults = { λ it. K.faults it.held };

    fn get(&mut self) -> Got {
        self.count();
        self.held.get()
    }
}

impl<S: Sink> Sink for Counted<'_, S> {
    ghost contents = { λ it. S.contents it.held };

    ghost faults = { λ it. S.faults it.held };

    fn put(&mut self, bytes: &[u8]) -> Put {
        self.count();
        self.held.put(bytes)
    }
}

impl<C: Clock> Clock for Counted<'_, C> {
    ghost tells = { C.tells };

    ghost left = { λ it. C.left it.held };

    fn now(&mut self) -> u64 {
        self.count();
        self.held.now()
    }
}

/// A host that is what it holds, and notes how high the count of others stood at its first create.
#[derive(Drop)]
pub struct Watcher<'a, H> {
    pub held: H,
    pub calls: &'a Cell<u64>,
    pub created_at: Option<u64>,
}

impl<H> Watcher<'_, H> {
    // Notes how high the count stands, the first time.
    fn note(&mut self)
        ensures noted { IsSome self.new.created_at }
        ensures first { IsSome self.old.created_at → self.new.created_at ≡ self.old.created_at }
        ensures held { self.new.held ≡ self.old.held }
    {
        if self.created_at.is_none() {
            self.created_at = Some(self.calls.get());
        }
    }
}

impl<H: Host> Host for Watcher<'_, H> {
    ghost tells = { H.tells };

    ghost files = { λ it. H.files it.held };

    ghost is_open = { λ it. H.is_open it.held };

    ghost target = { λ it. H.target it.held };

    ghost loads = { λ it. H.loads it.held };

    ghost creates = { λ it. H.creates it.held };

    ghost faults = { λ it. H.faults it.held };

    fn load(&mut self, alloc: Global, name: &str, limit: u32) -> Loaded {
        self.held.load(alloc, name, limit)
    }

    fn create(&mut self, name: &str) -> Put {
        self.note();
        self.held.create(name)
    }

    fn write(&mut self, bytes: &[u8]) -> Put {
        self.held.write(bytes)
    }

    fn close(&mut self) -> Put {
        self.held.close()
    }
}
