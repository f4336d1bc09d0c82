// A control file.
ghost use Rattle.std.specs.Prelude.{◌≡◌, ◌+◌, ◌<◌, ◌^◌, true, slice_get, option_copied, IfOk, IfSome};
ghost use Rattle.cm_text.specs.Lines.{lines};
ghost use Rattle.ex_batch.specs.Control.{is_label_name};
ghost use Rattle.ex_batch.specs.Labels.{place_of};

use crate::labels::{labels_in, place_in};
use cm_io::NoMemory;
use cm_text::{Name, first_line};
use indexmap::IndexMap;
use std::alloc::Global;
use std::marker::Model;

/// A line of a control file. Contracts see its bytes.
#[derive(Drop)]
pub(crate) struct Line {
    bytes: Vec<u8>,
}

impl Model for Line {
    ghost use Rattle.std.specs.Prelude.{ℕ, List};

    ghost Value = { List ℕ };

    ghost view = { λ it. it.bytes.items };
}

impl Line {
    // The line with these bytes.
    fn read(alloc: Global, bytes: &[u8]) -> Result<Line, NoMemory>
        ensures { IfOk result (λ line. line ≡ bytes.now) }
    {
        Ok(Line {
            bytes: bytes.to_vec(alloc)?,
        })
    }

    /// Its bytes.
    pub(crate) fn bytes(&self) -> &[u8]
        ensures { result.now ≡ self.now }
    {
        &self.bytes
    }
}

/// A control file. Contracts see its lines.
#[derive(Drop)]
pub struct ControlFile {
    lines: Vec<Line>,
    labels: IndexMap<Name, usize>,
}

impl Model for ControlFile {
    ghost use Rattle.std.specs.Prelude.{ℕ, List};
    ghost use Rattle.ex_batch.specs.Labels.{IsIndex};

    ghost Value = { List (List ℕ) };

    ghost view = { λ it. it.lines.items };

    ghost invariant = { λ it. IsIndex it.labels.entries it.lines.items };
}

// The lines of some bytes.
fn lines_in(alloc: Global, bytes: &[u8]) -> Result<Vec<Line>, NoMemory>
    ensures { IfOk result (λ made. made.items ≡ lines bytes.now) }
{
    let mut made = Vec::new(alloc);
    let mut rest = bytes;
    while let Some(first) = first_line(rest) {
        made.push(Line::read(alloc, rest.split_at(first.end).0)?)?;
        rest = rest.split_at(first.next).1;
    }
    Ok(made)
}

impl ControlFile {
    /// The control file with these bytes. A line feed ends a line, and one carriage return before it is none of the
    /// line's; a hyphen at the end of a line continues nothing.
    pub fn read(alloc: Global, bytes: &[u8]) -> Result<ControlFile, NoMemory>
        ensures { IfOk result (λ file. file ≡ lines bytes.now) }
    {
        let lines = lines_in(alloc, bytes)?;
        let labels = labels_in(alloc, &lines)?;
        Ok(ControlFile { lines, labels })
    }

    /// The line at a place, if there is one.
    pub fn line(&self, place: usize) -> Option<&[u8]>
        ensures line { option_copied result ≡ slice_get self.now place }
        ensures within { IfSome (option_copied result) (λ line. place + 1 < 2 ^ 64) }
    {
        Some(self.lines.get(place)?.bytes())
    }

    /// The place of the first line that is this label, if there is one. Letters have no case.
    #[tactic(auto, unfolding(crate::specs::Labels::IsIndex, crate::specs::Labels::place_of))]
    pub fn place(&self, name: &[u8]) -> Option<usize>
        requires { is_label_name name.now ≡ true }
        // [label]
        ensures { result ≡ place_of name.now self.now }
    {
        place_in(&self.labels, name)
    }
}
