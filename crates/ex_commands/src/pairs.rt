// Lines for each of some pairs of files are put.
#![tactic(auto, using(cm_io::proofs::Texts::texts))]

ghost use Rattle.std.specs.List.{flat_map};
ghost use Rattle.cm_io.specs.Writer.{Writes};
ghost use Rattle.ex_store.specs.Views.{full_name, name_pair};
ghost use Rattle.ex_commands.specs.Replies.{origin_line, pair_line, queued_line, typed_line};

use crate::names::put_full;
use crate::replies::put_done;
use crate::texts::{arrow, from_terminal, queued, space};
use cm_io::{Sink, Writer};
use cm_text::end_of_line;
use ex_store::{Full, Pair, Ready};

/// Where what a plan makes comes from.
#[derive(Clone, Copy)]
pub enum Origin {
    /// From files.
    Files,
    /// From the terminal.
    Terminal,
    /// From files, into the print queue.
    Queue,
}

// Puts the line of a pair of files, from one to the other.
#[tactic(auto, using(cm_io::proofs::Texts::texts), unfolding(crate::specs::Replies::pair_line))]
fn put_from_file<S: Sink>(pair: Pair<'_>, out: &mut Writer<'_, S>)
    ensures { Writes S.Sink out.old out.new (pair_line (name_pair pair.entry)) }
{
    out.put(space());
    put_full(pair.source, out);
    out.put(arrow());
    put_full(pair.target, out);
    put_done(out);
}

// Puts the line of a file that was typed in.
#[tactic(auto, using(cm_io::proofs::Texts::texts), unfolding(crate::specs::Replies::typed_line))]
fn put_from_terminal<S: Sink>(pair: Pair<'_>, out: &mut Writer<'_, S>)
    ensures { Writes S.Sink out.old out.new (typed_line (name_pair pair.entry)) }
{
    out.put(from_terminal());
    put_full(pair.target, out);
    put_done(out);
}

// Puts the line of a file that is queued.
#[tactic(auto, using(cm_io::proofs::Texts::texts), unfolding(crate::specs::Replies::queued_line))]
fn put_queued<S: Sink>(pair: Pair<'_>, out: &mut Writer<'_, S>)
    ensures { Writes S.Sink out.old out.new (queued_line (name_pair pair.entry)) }
{
    out.put(queued());
    put_full(pair.source, out);
    out.put(end_of_line());
}

// Puts the line of a pair of files.
fn put_pair<S: Sink>(origin: Origin, pair: Pair<'_>, out: &mut Writer<'_, S>)
    ensures { Writes S.Sink out.old out.new (origin_line origin (name_pair pair.entry)) }
{
    match origin {
        Origin::Files => put_from_file(pair, out),
        Origin::Terminal => put_from_terminal(pair, out),
        Origin::Queue => put_queued(pair, out),
    }
}

/// Puts a line for each pair of files of a plan that is ready.
#[tactic(auto, using(cm_io::proofs::Texts::turns))]
pub(crate) fn put_pairs<S: Sink>(origin: Origin, ready: &Ready, out: &mut Writer<'_, S>)
    ensures { Writes S.Sink out.old out.new (flat_map (origin_line origin) ready.now.pairs) }
{
    for i in 0..ready.pairs() {
        put_pair(origin, ready.pair(i), out);
    }
}
