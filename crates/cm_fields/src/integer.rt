// Numbers of a radix, a sign and a range.
ghost use Rattle.std.specs.Prelude.{◌≡◌, ◌≤◌, IfSome, drop, length};
ghost use Rattle.std.specs.Char.{digit_value};
ghost use Rattle.std.specs.List.{list_all};
ghost use Rattle.cm_fields.specs.Numeral.{digits_say, is_digit_of, is_within, number_with, numeral, numeral_of, size_of, size_says};

use crate::digits::NUMBER_LIMIT;
use crate::numbers::{Numbers, Radix};
use crate::outside::Outside;
use crate::run::word_run;
use crate::trial::said;
use crate::{Code, Try, Value};
use cm_text::TEXT_LIMIT;

// The number that a digit or a letter writes, and 36 for any other byte.
fn digit_value(byte: u8) -> u8
    ensures value { result ≡ digit_value byte }
    ensures most { result ≤ 36 }
{
    match byte {
        b'0'..=b'9' => byte - b'0',
        b'A'..=b'Z' => byte - b'A' + 10,
        b'a'..=b'z' => byte - b'a' + 10,
        _ => 36,
    }
}

// Whether a byte is a digit of a radix.
fn is_digit_of(radix: Radix, byte: u8) -> bool
    ensures { result ≡ is_digit_of radix byte }
{
    u64::from(digit_value(byte)) < radix.base()
}

fn are_digits_of(radix: Radix, bytes: &[u8]) -> bool
    ensures { result ≡ list_all (is_digit_of radix) bytes.now }
{
    bytes.iter().all(|byte| is_digit_of(radix, *byte))
}

// The number that digits write; none where it is above the last number.
#[tactic(auto, using(crate::proofs::Numerals::product_within))]
fn size_of(base: u64, digits: &[u8]) -> Option<u64>
    requires least { 1 ≤ base }
    requires most { base ≤ 16 }
    ensures value { result ≡ size_of base digits.now }
    ensures within { IfSome result (λ size. size ≤ NUMBER_LIMIT) }
{
    let mut size = 0;
    for digit in digits {
        size = size * base + u64::from(digit_value(*digit));
        if size > NUMBER_LIMIT {
            return None;
        }
    }
    Some(size)
}

// The number of a sign and a size.
fn number_with(minus: bool, size: u64) -> i64
    requires { size ≤ NUMBER_LIMIT }
    ensures { result ≡ number_with minus size }
{
    let number = size as i64;
    if minus { -number } else { number }
}

fn is_within(numbers: &Numbers, number: i64) -> bool
    ensures { result ≡ is_within numbers.now number }
{
    numbers.least <= number && number <= numbers.most
}

// What a sign and a size say, where there is a size.
fn size_says(numbers: Numbers, minus: bool, size: Option<u64>) -> Result<Value, Code>
    requires { IfSome size (λ size. size ≤ NUMBER_LIMIT) }
    ensures { result ≡ size_says numbers minus size }
{
    if let Some(size) = size {
        let number = number_with(minus, size);
        if is_within(&numbers, number) {
            return Ok(Value::Integer(number));
        }
    }
    Err(Code::OutOfRange(Outside::new(numbers)))
}

// What digits say after a minus, or after none.
fn digits_say(numbers: Numbers, minus: bool, digits: &[u8]) -> Result<Value, Code>
    ensures { result ≡ digits_say numbers minus digits.now }
{
    if digits.is_empty() || !are_digits_of(numbers.radix, digits) {
        return Err(Code::BadNumber);
    }
    size_says(numbers, minus, size_of(numbers.radix.base(), digits))
}

// What a run says as one of these numbers.
#[tactic(auto, unfolding(crate::specs::Numeral::numeral_of))]
fn numeral_of(numbers: Numbers, run: &[u8]) -> Result<Value, Code>
    ensures { result ≡ numeral_of numbers run.now }
{
    match run {
        [b'-', digits @ ..] => {
            if numbers.signed {
                digits_say(numbers, true, digits)
            } else {
                Err(Code::BadNumber)
            }
        }
        _ => digits_say(numbers, false, run),
    }
}

/// One of some numbers (.CMNUM, which has a radix): a run of word bytes that are digits of the radix, letters of
/// either case, after a minus where the numbers are signed. Refused with BadNumber where the run is no number, with
/// OutOfRange where it is another number. No number is further from 0 than 34,359,738,367.
pub fn numeral(numbers: Numbers, text: &[u8], at: usize) -> Try
    requires short { length text.now ≤ TEXT_LIMIT }
    requires place { at ≤ length text.now }
    ensures { result ≡ numeral numbers (drop at text.now) at }
{
    let rest = &text[at..];
    let size = word_run(rest);
    if size == rest.len() {
        return Try::More;
    }
    said(at, size, size + 1, numeral_of(numbers, &rest[..size]))
}
