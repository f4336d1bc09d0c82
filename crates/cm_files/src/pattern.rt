// Patterns of names.
ghost use Rattle.std.specs.Prelude.{◌≡◌, ◌+◌, ◌*◌, ◌≤◌, IfSome, length};
ghost use Rattle.std.specs.Bool.{OnTrue};
ghost use Rattle.std.specs.List.{common_prefix_len, prefix_len};
ghost use Rattle.cm_files.specs.Pattern.{is_plain, matches, some_end, stands_for};
ghost use Rattle.cm_files.specs.Place.{ends_like, fits, place_from, tries};

// How many bytes of a pattern are before its first `*`.
fn plain_run(pattern: &[u8]) -> usize
    ensures value { result ≡ prefix_len is_plain pattern.now }
    ensures within { result ≤ length pattern.now }
{
    pattern.iter().take_while(|mark| **mark != b'*').count()
}

// How many bytes of a part without `*` stand for those that a name begins with.
fn alike(part: &[u8], name: &[u8]) -> usize
    ensures value { result ≡ common_prefix_len stands_for part.now name.now }
    ensures within_part { result ≤ length part.now }
    ensures within_name { result ≤ length name.now }
{
    part.iter()
        .zip(name)
        .take_while(|(mark, byte)| **mark == b'%' || mark.eq_ignore_ascii_case(byte))
        .count()
}

// Whether a part without `*` stands for the first bytes of a name. The bytes compared are added to `looked`.
fn fits(part: &[u8], name: &[u8], looked: &mut u64) -> bool
    ensures value { result ≡ fits part.now name.now }
    ensures within { OnTrue result (length part.now ≤ length name.now) }
    ensures few { looked.new ≤ looked.old + (length part.now + 1) }
{
    let size = alike(part, name);
    *looked = looked.saturating_add(size as u64 + 1);
    size == part.len()
}

// The first place of a name where such a part stands for the bytes.
#[tactic(auto, using(crate::proofs::Stars::part_walk, cm_lists::proofs::Products::tried_more))]
fn place_of(part: &[u8], name: &[u8], looked: &mut u64) -> Option<usize>
    ensures value { result ≡ place_from part.now 0 name.now }
    ensures within { IfSome result (λ place. place + length part.now ≤ length name.now) }
    ensures few { looked.new ≤ looked.old + tries (length name.now) result * (length part.now + 1) }
{
    for place in 0..name.len() {
        if fits(part, name.split_at(place).1, looked) {
            return Some(place);
        }
    }
    if fits(part, name.split_at(name.len()).1, looked) {
        Some(name.len())
    } else {
        None
    }
}

// Whether such a part stands for the last bytes of a name.
fn ends_like(part: &[u8], name: &[u8], looked: &mut u64) -> bool
    ensures value { result ≡ ends_like part.now name.now }
    ensures few { looked.new ≤ looked.old + (length part.now + 1) }
{
    part.len() <= name.len() && fits(part, name.split_at(name.len() - part.len()).1, looked)
}

// Whether a pattern means some end of a name: each part between two `*` at its first place after the part
// before, and the last part at the end of the name.
#[tactic(auto, using(crate::proofs::Stars::star_walk, cm_lists::proofs::Products::spent_walk))]
fn means_an_end(pattern: &[u8], name: &[u8], looked: &mut u64) -> bool
    ensures value { result ≡ some_end (matches pattern.now) name.now }
    ensures few { looked.new ≤ looked.old + (length pattern.now + 1) * (length name.now + 1) }
{
    let mut parts = pattern;
    let mut rest = name;
    let mut size = plain_run(parts);
    while size < parts.len() {
        let part = parts.split_at(size).0;
        let Some(place) = place_of(part, rest, looked) else {
            return false;
        };
        rest = rest.split_at(place).1.split_at(part.len()).1;
        parts = parts.split_at(size + 1).1;
        size = plain_run(parts);
    }
    ends_like(parts, rest, looked)
}

/// Whether a pattern means a name. The bytes compared are added to `looked`; they are at most the product of the
/// two lengths, with one more each.
#[tactic(auto, using(crate::proofs::Stars::first_parts, cm_lists::proofs::Products::spent_first))]
pub(crate) fn means(pattern: &[u8], name: &[u8], looked: &mut u64) -> bool
    ensures value { result ≡ matches pattern.now name.now }
    ensures few { looked.new ≤ looked.old + (length pattern.now + 1) * (length name.now + 1) }
{
    let size = plain_run(pattern);
    if !fits(pattern.split_at(size).0, name, looked) {
        return false;
    }
    if size < pattern.len() {
        means_an_end(pattern.split_at(size + 1).1, name.split_at(size).1, looked)
    } else {
        pattern.len() == name.len()
    }
}

/// Whether a pattern means a name: `*` stands for any run of bytes, `%` for one byte, and any other byte for
/// itself, with no regard to the case of letters (GTJFN). A `*` of the name is a plain byte.
pub fn matches(pattern: &[u8], name: &[u8]) -> bool
    // [wildcard]
    ensures { result ≡ matches pattern.now name.now }
{
    let mut looked = 0;
    means(pattern, name, &mut looked)
}
