// MAC addresses.
ghost use Rattle.std.specs.Prelude.{◌≡◌, ◌%◌, ◌<◌, ◌⊎◌, ◌↔◌, ℕ, List, IsTrue, MatchOption, length};
ghost use Rattle.std.specs.Char.{digit_value};
ghost use Rattle.cm_net.specs.Mac.{IsMacText, IsPairs, colon, hyphen};
ghost use Rattle.cm_net.specs.MacShape.{HasMacShape, FitsPlace, octet_at};
ghost use Rattle.cm_net.specs.Reads.{Reads};

/// The bytes of a text of a MAC address.
pub const MAC_TEXT_SIZE: usize = 17;

/// A MAC address, an EUI-48 of IEEE 802: six octets, in the order in which they are written.
#[derive(Clone, Copy, Debug, PartialEq, Eq)]
pub struct Mac {
    /// The octets.
    pub octets: [u8; 6],
}

impl Mac {
    /// The MAC address that a text writes: six pairs of hexadecimal digits, letters of either case, with hyphens
    /// between all of them or colons between all of them. None where it writes none.
    pub fn parse(text: &[u8]) -> Option<Mac>
        ensures { Reads IsMacText text.now result }
    {
        match read_octets(text) {
            Some(octets) => Some(Mac { octets }),
            None => None,
        }
    }
}

// The octets that six pairs of hexadecimal digits write.
#[tactic(auto, using(crate::proofs::MacTexts::pairs_of_shape))]
fn read_octets(text: &[u8]) -> Option<[u8; 6]>
    ensures { MatchOption result ((octets : List ℕ) → ¬ (IsPairs text.now octets))
        (IsPairs text.now) }
{
    if !has_mac_shape(text) {
        return None;
    }
    Some([
        octet(text, 0),
        octet(text, 3),
        octet(text, 6),
        octet(text, 9),
        octet(text, 12),
        octet(text, 15),
    ])
}

// Whether a text has six pairs of hexadecimal digits with dividers between them, each in its place.
fn has_mac_shape(text: &[u8]) -> bool
    ensures { IsTrue result ↔ HasMacShape text.now }
{
    if text.len() != MAC_TEXT_SIZE || !is_divider(text[2]) {
        return false;
    }
    for place in 0..MAC_TEXT_SIZE {
        if !fits_place(text, place) {
            return false;
        }
    }
    true
}

// Whether a byte may stand between the pairs.
fn is_divider(byte: u8) -> bool
    ensures { IsTrue result ↔ ((byte ≡ hyphen) ⊎ (byte ≡ colon)) }
{
    byte == b'-' || byte == b':'
}

// Whether the byte at a place may be there.
fn fits_place(text: &[u8], place: usize) -> bool
    requires size { length text.now ≡ MAC_TEXT_SIZE }
    requires within { place < MAC_TEXT_SIZE }
    ensures { IsTrue result ↔ FitsPlace text.now place }
{
    if place % 3 == 2 {
        text[place] == text[2]
    } else {
        text[place].is_ascii_hexdigit()
    }
}

// The octet that the digits at a place and at the next write.
fn octet(text: &[u8], place: usize) -> u8
    requires shape { HasMacShape text.now }
    requires first { place % 3 ≡ 0 }
    requires within { place < 16 }
    ensures { result ≡ octet_at text.now place }
{
    value_of(text[place]) * 16 + value_of(text[place + 1])
}

// The value of a hexadecimal digit.
fn value_of(digit: u8) -> u8
    requires { digit_value digit < 16 }
    ensures value { result ≡ digit_value digit }
    ensures within { result < 16 }
{
    match digit {
        b'0'..=b'9' => digit - b'0',
        b'a'..=b'f' => digit - b'a' + 10,
        _ => digit - b'A' + 10,
    }
}
