// The brackets that are open.
use crate::part::{Bracket, Part};
use crate::reason::Reason;
use arrayvec::ArrayVec;
use std::marker::Model;

/// The most brackets that are open at once.
pub const BRACKET_LIMIT: usize = 16;

// A bracket that is open, and where its word begins.
#[derive(Clone, Copy, Debug, Default)]
pub(crate) struct Opening {
    // Which bracket.
    pub(crate) bracket: Bracket,
    // The place of its byte.
    pub(crate) start: usize,
}

// The brackets that are open, the innermost last.
#[derive(Debug, Drop)]
pub(crate) struct Openings {
    items: ArrayVec<Opening, BRACKET_LIMIT>,
}

impl Model for Openings {
    ghost use Rattle.std.specs.Prelude.{List};
    ghost use Rattle.cm_synopsis.specs.declared.opening.Opening.{Opening};

    ghost Value = { List Opening };

    ghost view = { λ openings. openings.items.items };
}

impl Openings {
    ghost use Rattle.std.specs.Prelude.{◌≡◌, ◌-◌, [], length, take};
    ghost use Rattle.cm_synopsis.specs.Follow.{openings_after, with_opening};

    // None.
    pub(crate) fn none() -> Openings
        ensures { result ≡ [] }
    {
        Openings {
            items: ArrayVec::new(),
        }
    }

    // These, and one more.
    fn with(mut self, opening: Opening) -> Result<Openings, Reason>
        ensures { result ≡ with_opening self opening }
    {
        match self.items.try_push(opening) {
            Ok(()) => Ok(self),
            Err(_) => Err(Reason::DeepBracket),
        }
    }

    // These without the innermost.
    fn without_last(mut self) -> Openings
        ensures { result ≡ take (length self - 1) self }
    {
        let _ = self.items.pop();
        self
    }

    // Those behind a part whose word begins there.
    pub(crate) fn after(self, start: usize, part: &Part) -> Result<Openings, Reason>
        ensures { result ≡ openings_after self start part.now }
    {
        match part {
            Part::Open(bracket) => self.with(Opening {
                bracket: *bracket,
                start,
            }),
            Part::Close(_) => Ok(self.without_last()),
            _ => Ok(self),
        }
    }

    // Them as a slice.
    pub(crate) fn as_slice(&self) -> &[Opening]
        ensures { result.now ≡ self.now }
    {
        &self.items
    }
}
