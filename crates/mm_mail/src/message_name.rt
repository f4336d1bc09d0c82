// The names of the files of messages.
ghost use Rattle.std.specs.Prelude.{◌≡◌, ◌<◌, ◌≤◌, true};
ghost use Rattle.mm_mail.specs.declared.message_name.TheConstants.{MOST_MESSAGES};
ghost use Rattle.mm_mail.specs.MessageName.{digit, digits_of, four_digits, is_message_name, message_name, name_number, prefix};

use cm_fields::{are_digits, value_of};
use cm_text::Name;

/// The greatest number that a message may have.
pub const MOST_MESSAGES: u64 = 9999;

// What the name of the file of a message begins with.
const PREFIX_LENGTH: usize = 4;

// How many digits follow it.
const NAME_DIGITS: usize = 4;

// What the name of the file of a message begins with.
#[tactic(auto, unfolding(crate::specs::MessageName::prefix))]
fn prefix() -> &'static [u8]
    ensures { result.now ≡ prefix }
{
    b"MSG-"
}

// The last digit of a number.
fn digit(number: u64) -> u8
    ensures value { result ≡ digit number }
    ensures ascii { result < 128 }
{
    b'0' + (number % 10) as u8
}

/// A number as four digits.
pub(crate) fn four_digits(number: u64) -> [u8; NAME_DIGITS]
    ensures { result ≡ four_digits number }
{
    [
        digit(number / 1000),
        digit(number / 100),
        digit(number / 10),
        digit(number),
    ]
}

/// The name of the file of the message with a number, `MSG-NNNN`.
#[tactic(auto, unfolding(crate::specs::MessageName::prefix))]
pub(crate) fn message_name(number: u64) -> Name
    ensures { result ≡ message_name number }
{
    let mut name = Name::new("MSG-");
    name.push(digit(number / 1000));
    name.push(digit(number / 100));
    name.push(digit(number / 10));
    name.push(digit(number));
    name
}

/// What is after the beginning of such a name.
pub(crate) fn digits_of(name: &[u8]) -> &[u8]
    ensures { result.now ≡ digits_of name.now }
{
    &name[PREFIX_LENGTH.min(name.len())..]
}

/// Whether a name is that of the file of a message: `MSG-` and four digits.
pub(crate) fn is_message_name(name: &[u8]) -> bool
    ensures { result ≡ is_message_name name.now }
{
    let digits = digits_of(name);
    name.starts_with(prefix()) && digits.len() == NAME_DIGITS && are_digits(digits)
}

/// The number of the message with such a name.
pub(crate) fn name_number(name: &[u8]) -> u64
    requires { is_message_name name.now ≡ true }
    ensures value { result ≡ name_number name.now }
    ensures few { result ≤ MOST_MESSAGES }
{
    match value_of(digits_of(name), MOST_MESSAGES) {
        Some(number) => number,
        None => 0,
    }
}
