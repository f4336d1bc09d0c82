//! Laws of the outside.
ghost use Rattle.std.specs.Prelude.{◌≡◌, ◌-◌, ◌^◌, ℕ, true, List};
ghost use Rattle.cm_io.specs.Fault.{last_count};
ghost use Rattle.cm_io.specs.HeldFiles.{HostState, files_of};
ghost use Rattle.cm_io.specs.Memory.{HostCounts, SinkState, SourceCounts, SourceState};
ghost use Rattle.cm_io.specs.Contents.{Bytes, Number};

use crate::mem_host::FILE_NAME_LIMIT;
use crate::page::PAGE_LIMIT;
use crate::words::{LONGEST_WORD, MOST_WORDS};
use crate::{
    Clock, CountSink, Host, MemClock, MemHost, MemSink, MemSource, Sink, Source, StdHost, StdLog,
    StdSink, StdSource,
};

/// What an object tells of its faults, of how often it was asked and of an open file is what it keeps of them itself:
/// so where a call ensures that a count rose or stayed, something was counted or not. Only a sink that counts bytes
/// never fails.
pub fn objects_tell_their_counts()
    ensures std_source { (source : SourceCounts) → ⟦<StdSource as Source>⟧.faults source ≡ source.faults }
    ensures std_source_gets { (source : SourceCounts) → ⟦<StdSource as Source>⟧.gets source ≡ source.gets }
    ensures std_sink { (sink : ℕ) → ⟦<StdSink as Sink>⟧.faults sink ≡ sink }
    ensures std_log { (log : ℕ) → ⟦<StdLog as Sink>⟧.faults log ≡ log }
    ensures std_host { (host : HostCounts) → ⟦<StdHost as Host>⟧.faults host ≡ host.faults }
    ensures std_host_loads { (host : HostCounts) → ⟦<StdHost as Host>⟧.loads host ≡ host.loads }
    ensures std_host_creates { (host : HostCounts) → ⟦<StdHost as Host>⟧.creates host ≡ host.creates }
    ensures std_host_open { (host : HostCounts) → ⟦<StdHost as Host>⟧.is_open host ≡ host.is_open }
    ensures mem_source { (source : SourceState) → ⟦<MemSource as Source>⟧.faults source ≡ source.faults }
    ensures mem_source_gets { (source : SourceState) → ⟦<MemSource as Source>⟧.gets source ≡ source.gets }
    ensures mem_sink { (sink : SinkState) → ⟦<MemSink as Sink>⟧.faults sink ≡ sink.faults }
    ensures count_sink { (sink : ℕ) → ⟦<CountSink as Sink>⟧.faults sink ≡ 0 }
    ensures mem_host { (host : HostState) → ⟦<MemHost as Host>⟧.faults host ≡ host.faults }
    ensures mem_host_loads { (host : HostState) → ⟦<MemHost as Host>⟧.loads host ≡ host.loads }
    ensures mem_host_creates { (host : HostState) → ⟦<MemHost as Host>⟧.creates host ≡ host.creates }
    ensures mem_host_open { (host : HostState) → ⟦<MemHost as Host>⟧.is_open host ≡ host.is_open }
{}

/// An object in memory tells what it holds, so that the clauses on contents say something of it.
pub fn objects_in_memory_tell_what_they_hold()
    ensures source { ⟦<MemSource as Source>⟧.tells ≡ true }
    ensures source_left { (source : SourceState) → ⟦<MemSource as Source>⟧.left source ≡ source.left }
    ensures sink { (sink : SinkState) → ⟦<MemSink as Sink>⟧.contents sink ≡ Bytes sink.bytes }
    ensures count_sink { (sink : ℕ) → ⟦<CountSink as Sink>⟧.contents sink ≡ Number sink }
    ensures clock { ⟦<MemClock as Clock>⟧.tells ≡ true }
    ensures clock_left { (clock : List ℕ) → ⟦<MemClock as Clock>⟧.left clock ≡ clock }
    ensures host { ⟦<MemHost as Host>⟧.tells ≡ true }
    ensures host_files { (host : HostState) → (name : List ℕ)
        → ⟦<MemHost as Host>⟧.files host name ≡ files_of host name }
    ensures host_target { (host : HostState) → ⟦<MemHost as Host>⟧.target host ≡ host.output_name }
{}

/// The numbers of this crate: the most bytes of a file's name that a host in memory takes, the most words of a program
/// and bytes of a word, the bytes of a page of a writer, and where counts stay.
pub fn these_are_the_numbers()
    ensures name { FILE_NAME_LIMIT ≡ 255 }
    ensures words { MOST_WORDS ≡ 4 }
    ensures word { LONGEST_WORD ≡ 255 }
    ensures page { PAGE_LIMIT ≡ 256 }
    ensures count { last_count ≡ 18446744073709551615 }
{}
