// The decimal digits of a number.
ghost use Rattle.std.specs.Prelude.{◌≡◌, ◌≤◌, ◌<◌, ◌+◌, ◌++◌, ◌∷◌, [], length};
ghost use Rattle.std.specs.Fmt.{decimal};

use arrayvec::ArrayString;

/// The most decimal digits that a number of 64 bits has.
pub const DIGIT_LIMIT: usize = 20;

/// The decimal digits of a number, with no zero before them.
#[tactic(auto, using(cm_lists::proofs::Digits::decimal_fits))]
pub fn decimal_digits(number: u64) -> ArrayString<DIGIT_LIMIT>
    ensures digits { result.bytes ≡ decimal number }
    ensures size { length result.bytes ≤ DIGIT_LIMIT }
{
    let mut digits = ArrayString::new();
    push_decimal(&mut digits, number);
    digits
}

// Puts the digits of a number after others, where there is room for just these.
#[tactic(auto, using(std::proofs::lemmas::Fmt::decimal_digit, std::proofs::lemmas::Fmt::decimal_step, cm_lists::proofs::Digits::length_decimal_step))]
fn push_decimal(digits: &mut ArrayString<DIGIT_LIMIT>, number: u64)
    requires { length digits.old.bytes + length (decimal number) ≤ DIGIT_LIMIT }
    ensures { digits.new.bytes ≡ digits.old.bytes ++ decimal number }
{
    if number < 10 {
        push_digit(digits, number);
    } else {
        push_decimal(digits, number / 10);
        push_digit(digits, number % 10);
    }
}

// Puts one digit after others.
fn push_digit(digits: &mut ArrayString<DIGIT_LIMIT>, digit: u64)
    requires room { length digits.old.bytes < DIGIT_LIMIT }
    requires digit { digit < 10 }
    ensures { digits.new.bytes ≡ digits.old.bytes ++ (48 + digit) ∷ [] }
{
    digits.push(char::from(b'0' + digit as u8));
}
