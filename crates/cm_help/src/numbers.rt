// What `?` says of one of some numbers.
#![tactic(auto, using(cm_io::proofs::Texts::texts))]

ghost use Rattle.std.specs.Prelude.{◌≡◌};
ghost use Rattle.cm_io.specs.Writer.{Writes};
ghost use Rattle.cm_help.specs.Numbers.{numbers_phrase, radix_phrase, range_join};

use cm_fields::{Numbers, Radix};
use cm_io::{Sink, Writer};

#[tactic(auto, unfolding(crate::specs::Numbers::radix_phrase))]
fn radix_phrase(radix: Radix) -> &'static [u8]
    ensures { result.now ≡ radix_phrase radix }
{
    match radix {
        Radix::Octal => b"octal number from ",
        Radix::Decimal => b"number from ",
        Radix::Hexadecimal => b"hexadecimal number from ",
    }
}

#[tactic(auto, unfolding(crate::specs::Numbers::range_join))]
fn range_join() -> &'static [u8]
    ensures { result.now ≡ range_join }
{
    b" to "
}

// Puts what numbers a field may be.
#[tactic(auto, using(cm_io::proofs::Texts::texts), unfolding(crate::specs::Numbers::numbers_phrase))]
pub(crate) fn put_numbers<S: Sink>(numbers: &Numbers, out: &mut Writer<'_, S>)
    ensures { Writes S.Sink out.old out.new (numbers_phrase numbers.now) }
{
    out.put(radix_phrase(numbers.radix));
    out.put(numbers.radix.text(numbers.least).as_bytes());
    out.put(range_join());
    out.put(numbers.radix.text(numbers.most).as_bytes());
}
