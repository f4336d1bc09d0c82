// The pieces of the texts that are written, each put at the end of a text.
ghost use Rattle.std.specs.Prelude.{◌≡◌, ◌≤◌, ◌<◌, ◌+◌, ◌-◌, ◌*◌, ◌∷◌, [], ◌++◌, codes, length};
ghost use Rattle.std.specs.Char.{digit_char};
ghost use Rattle.std.specs.Fmt.{decimal};
ghost use Rattle.std.specs.List.{flat_map};
ghost use Rattle.std.specs.Net.Addr.{ipv6_segments};
ghost use Rattle.std.specs.Net.Text as texts;
ghost use Rattle.arrayvec.specs.ArrayString.{array_string_len};
ghost use Rattle.cm_net.specs.Written.{pair_text, pairs_text};
ghost use Rattle.cm_net.specs.declared.written.TheConstants.{ADDRESS_TEXT_LIMIT};

use crate::written::AddressText;
use cm_text::decimal_digits;
use std::net::Ipv6Addr;

// Puts four octets at the end, in decimal with points between them.
pub(crate) fn push_dotted(text: &mut AddressText, octets: [u8; 4])
    requires { array_string_len text.old + 15 ≤ ADDRESS_TEXT_LIMIT }
    ensures bytes { text.new.bytes ≡ text.old.bytes ++ texts.ipv4_text octets }
    ensures size { array_string_len text.new ≤ array_string_len text.old + 15 }
{
    let [a, b, c, d] = octets;
    push_number(text, a);
    text.push_str(".");
    push_number(text, b);
    text.push_str(".");
    push_number(text, c);
    text.push_str(".");
    push_number(text, d);
}

// Puts the digits of a number at the end.
#[tactic(auto, using(crate::proofs::Sizes::octet_fits, cm_lists::proofs::Digits::decimal_fits_two))]
pub(crate) fn push_number(text: &mut AddressText, number: u8)
    requires { array_string_len text.old + 3 ≤ ADDRESS_TEXT_LIMIT }
    ensures bytes { text.new.bytes ≡ text.old.bytes ++ decimal number }
    ensures size { array_string_len text.new ≤ array_string_len text.old + 3 }
    ensures few { number ≤ 99 → array_string_len text.new ≤ array_string_len text.old + 2 }
{
    text.push_str(decimal_digits(u64::from(number)).as_str());
}

// Puts an IPv6 address at the end, one that is IPv4-mapped with its IPv4 address in decimal.
pub(crate) fn push_ipv6(text: &mut AddressText, address: Ipv6Addr)
    requires { array_string_len text.old + 40 ≤ ADDRESS_TEXT_LIMIT }
    ensures bytes { text.new.bytes ≡ text.old.bytes ++ texts.ipv6_text (ipv6_segments address) }
    ensures size { array_string_len text.new ≤ array_string_len text.old + 39 }
{
    match address.to_ipv4_mapped() {
        Some(mapped) => {
            text.push_str("::ffff:");
            push_dotted(text, mapped.octets());
        }
        None => push_compressed(text, address.segments()),
    }
}

// Puts segments at the end, in hexadecimal, with `::` for the first of the longest runs of zeros.
#[tactic(auto, unfolding(std::specs::Net::Text::hex_groups_text))]
fn push_compressed(text: &mut AddressText, segments: [u16; 8])
    requires { array_string_len text.old + 40 ≤ ADDRESS_TEXT_LIMIT }
    ensures bytes { text.new.bytes ≡ text.old.bytes ++ texts.hex_groups_text segments }
    ensures size { array_string_len text.new ≤ array_string_len text.old + 39 }
{
    let (start, len) = longest_zero_run(&segments);
    if len > 1 {
        push_groups(text, &segments[..start]);
        text.push_str("::");
        push_groups(text, &segments[start + len..]);
    } else {
        push_groups(text, &segments);
    }
}

// The start and the length of the longest run of zeros, the first of several.
fn longest_zero_run(segments: &[u16]) -> (usize, usize)
    ensures value { result ≡ texts.longest_zero_run segments.now }
    ensures within { result.0 + result.1 ≤ length segments.now }
{
    let mut start = segments.len();
    let mut len = 0;
    let mut run = 0;
    for i in (0..segments.len()).rev() {
        run = if segments[i] == 0 { run + 1 } else { 0 };
        if run >= len {
            start = i;
            len = run;
        }
    }
    (start, len)
}

// Puts segments at the end, with colons between them.
#[tactic(auto, using(crate::proofs::Sizes::hex_fits))]
fn push_groups(text: &mut AddressText, segments: &[u16])
    requires { array_string_len text.old + 5 * length segments.now ≤ ADDRESS_TEXT_LIMIT }
    ensures bytes { text.new.bytes ≡ text.old.bytes ++ texts.groups_text segments.now }
    ensures size { array_string_len text.new
        ≤ array_string_len text.old + (5 * length segments.now - 1) }
{
    if let [first, rest @ ..] = segments {
        push_hex(text, *first);
        push_more_groups(text, rest);
    }
}

// Puts segments at the end, each after a colon.
#[tactic(auto, using(crate::proofs::Sizes::hex_fits))]
fn push_more_groups(text: &mut AddressText, segments: &[u16])
    requires { array_string_len text.old + 5 * length segments.now ≤ ADDRESS_TEXT_LIMIT }
    ensures bytes { text.new.bytes
        ≡ text.old.bytes ++ flat_map (λ t. codes ":" ++ texts.hex t) segments.now }
    ensures size { array_string_len text.new ≤ array_string_len text.old + 5 * length segments.now }
{
    for segment in segments {
        text.push_str(":");
        push_hex(text, *segment);
    }
}

// Puts a segment at the end, in hexadecimal with no zero before a digit.
#[tactic(auto, using(crate::proofs::Sizes::hex_digit, crate::proofs::Sizes::hex_fits))]
fn push_hex(text: &mut AddressText, segment: u16)
    requires { array_string_len text.old + length (texts.hex segment) ≤ ADDRESS_TEXT_LIMIT }
    ensures bytes { text.new.bytes ≡ text.old.bytes ++ texts.hex segment }
    ensures size { array_string_len text.new ≤ array_string_len text.old + 4 }
{
    if segment < 16 {
        push_digit(text, segment as u8);
    } else {
        push_hex(text, segment / 16);
        push_digit(text, (segment % 16) as u8);
    }
}

// Puts six octets at the end, in pairs of hexadecimal digits with colons between them.
pub(crate) fn push_pairs(text: &mut AddressText, octets: [u8; 6])
    requires { array_string_len text.old + 17 ≤ ADDRESS_TEXT_LIMIT }
    ensures bytes { text.new.bytes ≡ text.old.bytes ++ pairs_text octets }
    ensures size { array_string_len text.new ≡ array_string_len text.old + 17 }
{
    let [a, b, c, d, e, f] = octets;
    push_pair(text, a);
    text.push_str(":");
    push_pair(text, b);
    text.push_str(":");
    push_pair(text, c);
    text.push_str(":");
    push_pair(text, d);
    text.push_str(":");
    push_pair(text, e);
    text.push_str(":");
    push_pair(text, f);
}

// Puts an octet at the end, in two hexadecimal digits.
fn push_pair(text: &mut AddressText, octet: u8)
    requires { array_string_len text.old + 2 ≤ ADDRESS_TEXT_LIMIT }
    ensures bytes { text.new.bytes ≡ text.old.bytes ++ pair_text octet }
    ensures size { array_string_len text.new ≡ array_string_len text.old + 2 }
{
    push_digit(text, octet / 16);
    push_digit(text, octet % 16);
}

// Puts a hexadecimal digit at the end, a letter in lower case.
fn push_digit(text: &mut AddressText, digit: u8)
    requires room { array_string_len text.old < ADDRESS_TEXT_LIMIT }
    requires digit { digit < 16 }
    ensures bytes { text.new.bytes ≡ text.old.bytes ++ digit_char digit ∷ [] }
    ensures size { array_string_len text.new ≡ array_string_len text.old + 1 }
{
    let byte = if digit < 10 {
        b'0' + digit
    } else {
        b'a' + (digit - 10)
    };
    text.push(char::from(byte));
}
