// The rest of the line.
ghost use Rattle.std.specs.Prelude.{◌≡◌, ◌+◌, ◌<◌, ◌≤◌, ◌==◌, ◌^◌, drop, length};
ghost use Rattle.std.specs.List.{list_any, prefix_len};
ghost use Rattle.cm_fields.specs.Text.{is_inside, text_field, text_of};

use crate::trial::{said, span_of};
use crate::{Code, Try, Value};
use cm_text::TEXT_LIMIT;

// Whether the line ends here. A slice's `contains` looks at several bytes at once.
fn has_end(rest: &[u8]) -> bool
    ensures { result ≡ list_any (λ byte. byte == 13) rest.now }
{
    rest.contains(&b'\r')
}

// How many bytes are before the end of the line.
fn inside_run(rest: &[u8]) -> usize
    ensures value { result ≡ prefix_len is_inside rest.now }
    ensures within { result ≤ length rest.now }
{
    rest.iter().take_while(|byte| **byte != b'\r').count()
}

// What is there, from this place on.
fn text_of(at: usize, run: &[u8]) -> Result<Value, Code>
    requires { at + length run.now < 2 ^ 16 }
    ensures { result ≡ text_of at run.now }
{
    Ok(Value::Text(span_of(at, run.len())))
}

/// The rest of the line (.CMTXT), up to the carriage return; never refused.
pub fn text_field(text: &[u8], at: usize) -> Try
    requires short { length text.now ≤ TEXT_LIMIT }
    requires place { at ≤ length text.now }
    ensures { result ≡ text_field (drop at text.now) at }
{
    let rest = &text[at..];
    if !has_end(rest) {
        return Try::More;
    }
    let size = inside_run(rest);
    said(at, size, size + 1, text_of(at, &rest[..size]))
}
