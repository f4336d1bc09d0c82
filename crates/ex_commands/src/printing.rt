// Bytes as they are shown: each that does not print as a dot.
ghost use Rattle.std.specs.Prelude.{◌≡◌, ◌≤◌, map, drop, length};
ghost use Rattle.std.specs.List.{prefix_len};
ghost use Rattle.cm_text.specs.ScreenBytes.{printing_byte};
ghost use Rattle.cm_io.specs.Writer.{Writes};
ghost use Rattle.ex_commands.specs.PrintingBytes.{first_shown, is_printing};

use cm_io::{Sink, Writer};
use cm_text::printing_byte;

// Whether a byte is shown as it is.
fn is_printing(byte: u8) -> bool
    ensures { result ≡ is_printing byte }
{
    printing_byte(byte) == byte
}

// How many bytes from the first on are shown as they are.
fn printing_len(bytes: &[u8]) -> usize
    ensures size { result ≡ prefix_len is_printing bytes.now }
    ensures within { result ≤ length bytes.now }
{
    bytes.iter().take_while(|byte| is_printing(**byte)).count()
}

// Puts the first byte as it is shown, if there is one, and gives what is after it.
fn put_first<'a, S: Sink>(bytes: &'a [u8], out: &mut Writer<'_, S>) -> &'a [u8]
    ensures rest { result.now ≡ drop 1 bytes.now }
    ensures written { Writes S.Sink out.old out.new (first_shown bytes.now) }
{
    match bytes {
        [first, rest @ ..] => {
            out.put(&[printing_byte(*first)]);
            rest
        }
        [] => {
            out.put(b"");
            bytes
        }
    }
}

/// Puts bytes as they are shown: a byte that is not 32 to 126 as a dot. Those that are shown as they are go out
/// together.
#[tactic(auto, using(cm_io::proofs::Texts::turns))]
pub fn put_printing<S: Sink>(bytes: &[u8], out: &mut Writer<'_, S>)
    ensures { Writes S.Sink out.old out.new (map printing_byte bytes.now) }
{
    let mut rest = bytes;
    while !rest.is_empty() {
        let (run, more) = rest.split_at(printing_len(rest));
        out.put(run);
        rest = put_first(more, out);
    }
}
