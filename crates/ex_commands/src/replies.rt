// What is after what is done is put.
#![tactic(auto, using(cm_io::proofs::Texts::texts))]

ghost use Rattle.cm_io.specs.Writer.{Writes};
ghost use Rattle.ex_commands.specs.Replies.{done_text};

use crate::texts::done_mark;
use cm_io::{Sink, Writer};

/// Puts ` [OK]`, and the end of the line.
#[tactic(auto, unfolding(crate::specs::Replies::done_text))]
pub fn put_done<S: Sink>(out: &mut Writer<'_, S>)
    ensures { Writes S.Sink out.old out.new done_text }
{
    out.put_line(done_mark());
}
