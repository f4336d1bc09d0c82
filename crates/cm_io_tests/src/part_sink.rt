// A sink of which one put fails.
ghost use Rattle.std.specs.Prelude.{◌≡◌, ◌≤◌, ◌++◌, ◌∷◌, ◌<◌, ◌^◌, ◌-◌, [], IfOk, IfSome, length, slice_get, take};
ghost use Rattle.cm_io.specs.Fault.{PutCause, Rose};
ghost use Rattle.cm_io.specs.Contents.{Adds, AddsPart, Bytes};
ghost use Rattle.cm_io_tests.specs.Parts.{held_after, is_fault, part_of, size_of};

use cm_io::{MemSink, NoMemory, Put, Sink};
use std::alloc::Global;
use std::marker::Model;

/// How much a put that fails takes of its bytes: never all of them.
#[derive(Clone, Copy, Debug, PartialEq, Eq)]
pub enum Part {
    /// Not one of them.
    Nothing,
    /// The first alone, or of one byte nothing.
    First,
    /// All but the last.
    AllButLast,
}

// How many of so many bytes these are.
fn size_of(part: Part, size: usize) -> usize
    ensures value { result ≡ size_of part size }
    ensures within { result ≤ size }
{
    match part {
        Part::Nothing => 0,
        Part::First => 1.min(size.saturating_sub(1)),
        Part::AllButLast => size.saturating_sub(1),
    }
}

// Whether the put with this number fails.
fn is_fault(failing: Option<usize>, number: usize) -> bool
    ensures { result ≡ is_fault failing number }
{
    match failing {
        Some(put) => put == number,
        None => false,
    }
}

// Where a put begins, if there were so many.
fn start_of(starts: &[usize], put: usize) -> Option<usize>
    ensures value { result ≡ slice_get starts.now put }
    ensures within { IfSome result (λ start. (put < length starts.now) × (start < 2 ^ 64)) }
{
    starts.get(put).copied()
}

// The count after one more. It stays at its last value once that is reached.
#[tactic(auto, unfolding(cm_io::specs::Fault::Rose))]
fn raised(count: u64) -> u64
    ensures later { count ≤ result }
    ensures rose { Rose count result }
{
    count.saturating_add(1)
}

/// A sink in memory of which one put fails, and takes a part of its bytes. It takes all that is put after that. A put
/// of no bytes is none.
#[derive(Drop)]
pub struct PartSink {
    held: MemSink,
    // how many bytes were held before each put
    starts: Vec<usize>,
    // the number of the put that fails
    failing: Option<usize>,
    part: Part,
    faults: u64,
}

impl Model for PartSink {
    ghost use Rattle.cm_io_tests.specs.Parts.{PartState};

    ghost Value = { PartState };

    ghost view = { λ sink. record {
      bytes = sink.held.bytes;
      room = sink.held.room;
      starts = sink.starts.items;
      failing = sink.failing;
      part = sink.part;
      faults = sink.faults;
    } };
}

impl PartSink {
    /// A sink with room for a number of bytes, of which the put with the number `failing`, counted from 0, fails.
    pub fn new(
        alloc: Global,
        room: u32,
        failing: Option<usize>,
        part: Part,
    ) -> Result<PartSink, NoMemory>
        ensures sink { IfOk result (λ sink. sink ≡ record {
          bytes = [];
          room = room;
          starts = [];
          failing = failing;
          part = part;
          faults = 0;
        }) }
    {
        Ok(PartSink {
            held: MemSink::new(alloc, room)?,
            starts: Vec::new(alloc),
            failing,
            part,
            faults: 0,
        })
    }

    /// The bytes that were taken.
    pub fn bytes(&self) -> &[u8]
        ensures { result.now ≡ self.now.bytes }
    {
        self.held.bytes()
    }

    /// How many puts there were.
    pub fn puts(&self) -> usize
        ensures { result ≡ length self.now.starts }
    {
        self.starts.len()
    }

    /// How many bytes would be held after a put of those that there were, if it had taken this part alone.
    #[tactic(auto, unfolding(crate::specs::Parts::held_after, crate::specs::Parts::end_of))]
    pub fn held_after(&self, put: usize, part: Part) -> Option<usize>
        ensures { result ≡ held_after self.now put part }
    {
        let start = start_of(&self.starts, put)?;
        let next = start_of(&self.starts, put.saturating_add(1));
        let end = next.unwrap_or(self.held.bytes().len());
        Some(start.saturating_add(size_of(part, end.saturating_sub(start))))
    }

    // Puts the part, and fails.
    #[tactic(auto, using(crate::proofs::Parts::adds_part_of_part))]
    fn put_part(&mut self, bytes: &[u8]) -> Put
        ensures part { AddsPart (Bytes self.old.bytes) (Bytes self.new.bytes) bytes.now }
        ensures later { self.old.faults ≤ self.new.faults }
        ensures counted { Rose self.old.faults self.new.faults }
        ensures failed { result ≡ Put.Failed }
        ensures takes { let part = take (size_of self.old.part (length bytes.now)) bytes.now in
            self.new.bytes ≡ self.old.bytes ++ take (self.old.room - length self.old.bytes) part }
    {
        let size = size_of(self.part, bytes.len());
        let _ = self.held.put(&bytes[..size]);
        self.faults = raised(self.faults);
        Put::Failed
    }

    // Puts all of the bytes, or what there is room for.
    #[tactic(auto, using(cm_io::proofs::Additions::adds_prefix), unfolding(cm_io::specs::Contents::add))]
    fn put_whole(&mut self, bytes: &[u8]) -> Put
        ensures nothing { bytes.now ≡ [] → result ≡ Put.Done }
        ensures bytes { Adds (Bytes self.old.bytes) (Bytes self.new.bytes) bytes.now result }
        ensures later { self.old.faults ≤ self.new.faults }
        ensures cause { PutCause self.old.faults self.new.faults result }
        ensures takes { self.new.bytes
            ≡ self.old.bytes ++ take (self.old.room - length self.old.bytes) bytes.now }
    {
        match self.held.put(bytes) {
            Put::Done => Put::Done,
            Put::Failed => {
                self.faults = raised(self.faults);
                Put::Failed
            }
        }
    }
}

impl Sink for PartSink {
    ghost contents = { λ sink. Bytes sink.bytes };

    ghost faults = { λ sink. sink.faults };

    #[tactic(auto, using(crate::proofs::Parts::part_is_some, crate::proofs::Parts::part_is_all, crate::proofs::Parts::part_is_none))]
    fn put(&mut self, bytes: &[u8]) -> Put
        ensures nothing { bytes.now ≡ [] → result ≡ Put.Done }
        ensures bytes { Adds (Bytes self.old.bytes) (Bytes self.new.bytes) bytes.now result }
        ensures later { self.old.faults ≤ self.new.faults }
        ensures cause { PutCause self.old.faults self.new.faults result }
        ensures takes { self.new.bytes ≡ self.old.bytes ++ part_of self.old bytes.now }
    {
        if bytes.is_empty() {
            return self.put_whole(bytes);
        }
        let number = self.starts.len();
        let _ = self.starts.push(self.held.bytes().len());
        if is_fault(self.failing, number) {
            return self.put_part(bytes);
        }
        self.put_whole(bytes)
    }
}
