// Digits and the number that they write.
ghost use Rattle.std.specs.Prelude.{◌≡◌, ◌≤◌, true, Some, None, nat_le, if◌then◌else◌};
ghost use Rattle.std.specs.Char.{is_ascii_digit};
ghost use Rattle.std.specs.List.{list_all};
ghost use Rattle.std.specs.Str.Parse.{digits_value};

/// The last number (35 bits, the half of a word's range).
pub const NUMBER_LIMIT: u64 = 34_359_738_367;

/// Whether all bytes are digits, as they are also where there are none.
pub fn are_digits(bytes: &[u8]) -> bool
    ensures { result ≡ list_all is_ascii_digit bytes.now }
{
    bytes.iter().all(|byte| byte.is_ascii_digit())
}

/// The decimal number that digits write; none where it is above `most`. No digits write 0.
pub fn value_of(digits: &[u8], most: u64) -> Option<u64>
    requires digits { list_all is_ascii_digit digits.now ≡ true }
    requires most { most ≤ NUMBER_LIMIT }
    ensures { let value = digits_value 10 digits.now in
        result ≡ (if nat_le value most then Some value else None) }
{
    let mut value = 0;
    for digit in digits {
        value = 10 * value + u64::from(digit - b'0');
        if value > most {
            return None;
        }
    }
    Some(value)
}
