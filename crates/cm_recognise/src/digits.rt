// The decimal digits of a number.
ghost use Rattle.std.specs.Prelude.{◌≡◌, ◌≤◌, decimal, length};

use crate::Bytes;
use cm_text::decimal_digits;

/// The decimal digits of a number, with no zero before them.
#[tactic(auto, using(cm_lists::proofs::Digits::decimal_fits_ten))]
pub(crate) fn decimal(number: u32) -> Bytes
    ensures value { result ≡ decimal number }
    ensures short { length result ≤ 10 }
{
    Bytes::of(decimal_digits(u64::from(number)).as_bytes())
}
