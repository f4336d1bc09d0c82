// What a field function makes of a text.
ghost use Rattle.std.specs.Prelude.{◌≡◌, ◌+◌, ◌<◌, ◌^◌};
ghost use Rattle.cm_fields.specs.Try.{said, span};

use crate::{Code, Span, Value};

/// What a field function makes of a text from a place on.
#[derive(Clone, Copy, Debug, PartialEq, Eq)]
pub enum Try {
    /// It takes a field.
    Accept {
        /// What the field stands for.
        value: Value,
        /// How many bytes from the place decided.
        looked: u16,
        /// The place after the field.
        end: u16,
    },
    /// There is no such field here, however the text goes on.
    Refuse {
        /// Why.
        code: Code,
        /// How many bytes from the place decided.
        looked: u16,
    },
    /// The text ends before the function can decide.
    More,
}

/// What a field function answers that so many bytes decide: a value, of a field from a place on of this size,
/// or a refusal.
pub fn said(at: usize, size: usize, looked: usize, decision: Result<Value, Code>) -> Try
    requires field { at + size < 2 ^ 16 }
    requires looked { looked < 2 ^ 16 }
    ensures { result ≡ said at size looked decision }
{
    match decision {
        Ok(value) => Try::Accept {
            value,
            looked: looked as u16,
            end: (at + size) as u16,
        },
        Err(code) => Try::Refuse {
            code,
            looked: looked as u16,
        },
    }
}

/// The part of a text that begins at this place, of this size.
pub fn span_of(at: usize, size: usize) -> Span
    requires { at + size < 2 ^ 16 }
    ensures { result ≡ span at size }
{
    Span {
        start: at as u16,
        end: (at + size) as u16,
    }
}
