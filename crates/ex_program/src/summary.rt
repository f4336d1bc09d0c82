// The summary of a run.
ghost use Rattle.cm_io.specs.Writer.{Writes};
ghost use Rattle.ex_program.specs.Summary.{summary_text};

use crate::figures::{before_generations, before_keys, before_lines, before_refused, before_shown};
use cm_io::{Sink, Writer};
use cm_text::end_of_line;

/// The figures of a generated run.
#[derive(Clone, Copy, Debug, PartialEq, Eq)]
pub struct Summary {
    /// How many lines it had.
    pub lines: u32,
    /// How many of them were refused, by the parser or by what they command.
    pub refused: u64,
    /// How many keys were taken.
    pub keys: u64,
    /// How many bytes were shown, with the first prompt and the end of the last line: at most 18446744073709551615.
    pub shown: u64,
    /// How many generations of files the store had at the end, with those that are marked deleted.
    pub generations: u64,
}

impl Summary {
    /// Writes `lines L refused R keys K shown S generations G` and the end of the line.
    #[tactic(auto, using(cm_io::proofs::Texts::texts), unfolding(crate::specs::Summary::summary_text))]
    pub fn put<S: Sink>(&self, out: &mut Writer<'_, S>)
        ensures { Writes S.Sink out.old out.new (summary_text self.now) }
    {
        out.put(before_lines());
        out.put_decimal(u64::from(self.lines));
        out.put(before_refused());
        out.put_decimal(self.refused);
        out.put(before_keys());
        out.put_decimal(self.keys);
        out.put(before_shown());
        out.put_decimal(self.shown);
        out.put(before_generations());
        out.put_decimal(self.generations);
        out.put(end_of_line());
    }
}
