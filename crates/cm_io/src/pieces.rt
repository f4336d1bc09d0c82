// One line or one number, put on a sink.
ghost use Rattle.std.specs.Prelude.{◌≡◌, ◌≤◌, ◌<◌, ◌+◌, ◌++◌};
ghost use Rattle.std.specs.Fmt.{decimal};
ghost use Rattle.cm_io.specs.Contents.{Adds};
ghost use Rattle.cm_io.specs.Fault.{PutCause};
ghost use Rattle.cm_text.specs.ScreenBytes.{end_of_line};
ghost use Rattle.cm_io.specs.Pieces.{hex, hex_digit};

use crate::{Put, Sink, Writer};

/// Puts some bytes and the end of their line, CR and LF.
#[tactic(auto, using(crate::proofs::Writers::finish_puts))]
pub fn put_line<S: Sink>(bytes: &[u8], sink: &mut S) -> Put
    ensures bytes { Adds (S.contents sink.old) (S.contents sink.new) (bytes.now ++ end_of_line) result }
    ensures later { S.faults sink.old ≤ S.faults sink.new }
    ensures cause { PutCause (S.faults sink.old) (S.faults sink.new) result }
{
    let mut out = Writer::new(sink);
    out.put_line(bytes);
    out.finish()
}

/// Puts the decimal digits of a number, with no zero before them.
#[tactic(auto, using(crate::proofs::Writers::finish_puts))]
pub fn put_decimal<S: Sink>(number: u64, sink: &mut S) -> Put
    ensures bytes { Adds (S.contents sink.old) (S.contents sink.new) (decimal number) result }
    ensures later { S.faults sink.old ≤ S.faults sink.new }
    ensures cause { PutCause (S.faults sink.old) (S.faults sink.new) result }
{
    let mut out = Writer::new(sink);
    out.put_decimal(number);
    out.finish()
}

/// Puts the two hexadecimal digits of a byte, letters in lower case.
#[tactic(auto, using(crate::proofs::Writers::finish_puts))]
pub fn put_hex<S: Sink>(byte: u8, sink: &mut S) -> Put
    ensures bytes { Adds (S.contents sink.old) (S.contents sink.new) (hex byte) result }
    ensures later { S.faults sink.old ≤ S.faults sink.new }
    ensures cause { PutCause (S.faults sink.old) (S.faults sink.new) result }
{
    let mut out = Writer::new(sink);
    out.put_hex(byte);
    out.finish()
}

// The two hexadecimal digits of a byte.
#[tactic(auto, unfolding(crate::specs::Pieces::hex))]
pub(crate) fn hex_digits(byte: u8) -> [u8; 2]
    ensures { result ≡ hex byte }
{
    [hex_digit(byte / 16), hex_digit(byte % 16)]
}

// The hexadecimal digit of a number below 16.
#[tactic(auto, unfolding(crate::specs::Pieces::hex_digit))]
fn hex_digit(number: u8) -> u8
    requires { number < 16 }
    ensures { result ≡ hex_digit number }
{
    if number < 10 {
        b'0' + number
    } else {
        b'a' + (number - 10)
    }
}
