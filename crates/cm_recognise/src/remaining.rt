// What an atom may stand for in a table of which some entries may not come any more.
ghost use Rattle.std.specs.Prelude.{◌≡◌, ◌≤◌, ◌&&◌, drop, length, nat_eq};
ghost use Rattle.std.specs.List.{common_prefix_len, filter};
ghost use Rattle.std.specs.Option.{IfSome, option_copied, option_map_or};
ghost use Rattle.cm_text.specs.BeginLaws.{lower};
ghost use Rattle.cm_text.specs.Case.{begins_with, equals};
ghost use Rattle.cm_tables.specs.Common.{shared_letters};
ghost use Rattle.cm_tables.specs.Look.{IsWithin, abbreviated, candidates, equal_entries, exact, is_recognised};
ghost use Rattle.cm_blocks.specs.Once.{fields_at};
ghost use Rattle.cm_recognise.specs.Remaining.{common_among, has_text_among, look_among, first_exact, remains, stands_for};

use cm_blocks::{Block, Field, Grammar, may_come};
use cm_tables::{Entry, Flag, Look, Table};
use cm_text::{NAME_LIMIT, begins_with, equals};

// The position that an entry gives.
fn stands_for(position: u16, flag: Flag) -> u16
    ensures { result ≡ stands_for position flag }
{
    match flag {
        Flag::Plain => position,
        Flag::Invisible => position,
        Flag::NoRecognise => position,
        Flag::Short(target) => target,
    }
}

// Whether an entry may still come behind these fields.
fn remains(
    grammar: &Grammar,
    fields: &[Option<Field>],
    block: &Block,
    position: u16,
    entry: &Entry,
) -> bool
    ensures { result ≡ remains grammar.now (fields_at fields.now) block.now (position, entry.now) }
{
    may_come(grammar, fields, block, stands_for(position, entry.flag))
}

// Whether an abbreviation may stand for an entry.
fn is_recognised(flag: Flag) -> bool
    ensures { result ≡ is_recognised flag }
{
    matches!(flag, Flag::Plain | Flag::Invisible)
}

// Whether an entry has the atom for its text, and may still come.
fn is_named(
    grammar: &Grammar,
    fields: &[Option<Field>],
    block: &Block,
    position: u16,
    entry: &Entry,
    atom: &[u8],
) -> bool
    ensures { result ≡ (equals entry.now.text atom.now
        && remains grammar.now (fields_at fields.now) block.now (position, entry.now)) }
{
    equals(entry.text.as_bytes(), atom) && remains(grammar, fields, block, position, entry)
}

// Whether an atom may abbreviate an entry.
fn is_candidate(entry: &Entry, atom: &[u8]) -> bool
    ensures { result ≡ (is_recognised entry.now.flag && begins_with entry.now.text atom.now) }
{
    is_recognised(entry.flag) && begins_with(entry.text.as_bytes(), atom)
}

// Whether an atom may abbreviate an entry that may still come.
fn is_choice(
    grammar: &Grammar,
    fields: &[Option<Field>],
    block: &Block,
    position: u16,
    entry: &Entry,
    atom: &[u8],
) -> bool
    ensures { result ≡ ((is_recognised entry.now.flag && begins_with entry.now.text atom.now)
        && remains grammar.now (fields_at fields.now) block.now (position, entry.now)) }
{
    is_candidate(entry, atom) && remains(grammar, fields, block, position, entry)
}

// What an entry gives for its own text.
fn exact(position: u16, flag: Flag) -> Look
    ensures { result ≡ exact position flag }
{
    match flag {
        Flag::Plain => Look::Exact(position),
        Flag::Invisible => Look::Exact(position),
        Flag::NoRecognise => Look::Ambiguous,
        Flag::Short(target) => Look::Exact(target),
    }
}

// What the first entry gives that remains and has the atom for its text.
#[tactic(auto, using(crate::proofs::Choices::past))]
fn first_exact(
    grammar: &Grammar,
    fields: &[Option<Field>],
    block: &Block,
    table: &Table,
    atom: &[u8],
) -> Option<Look>
    ensures { result ≡ first_exact (filter (remains grammar.now (fields_at fields.now) block.now)
        (equal_entries table.now atom.now)) }
{
    for position in 0..table.len() {
        let entry = table.entry(position);
        if is_named(grammar, fields, block, position, entry, atom) {
            return Some(exact(position, entry.flag));
        }
    }
    None
}

// Whether an entry that remains has the atom for its text.
#[tactic(auto, using(crate::proofs::Choices::first_is_any))]
pub(crate) fn has_text_among(
    grammar: &Grammar,
    fields: &[Option<Field>],
    block: &Block,
    table: &Table,
    atom: &[u8],
) -> bool
    ensures { result ≡ has_text_among (remains grammar.now (fields_at fields.now) block.now) table.now atom.now }
{
    first_exact(grammar, fields, block, table, atom).is_some()
}

// What the entries that remain give that an atom may abbreviate.
fn abbreviated_among(
    grammar: &Grammar,
    fields: &[Option<Field>],
    block: &Block,
    table: &Table,
    atom: &[u8],
) -> Look
    ensures { result ≡ abbreviated (filter (remains grammar.now (fields_at fields.now) block.now)
        (candidates table.now atom.now)) }
{
    let mut found = None;
    for position in 0..table.len() {
        if is_choice(
            grammar,
            fields,
            block,
            position,
            table.entry(position),
            atom,
        ) {
            if found.is_some() {
                return Look::Ambiguous;
            }
            found = Some(position);
        }
    }
    found.map_or(Look::None, Look::Abbrev)
}

// The look-up among the entries that remain.
#[tactic(auto, using(crate::proofs::Choices::by_first))]
fn look_of(
    grammar: &Grammar,
    fields: &[Option<Field>],
    block: &Block,
    table: &Table,
    atom: &[u8],
) -> Look
    ensures { result ≡ look_among (remains grammar.now (fields_at fields.now) block.now) table.now atom.now }
{
    match first_exact(grammar, fields, block, table, atom) {
        Some(look) => look,
        None => abbreviated_among(grammar, fields, block, table, atom),
    }
}

// The same, whose position is one of the table.
#[tactic(auto, using(crate::proofs::Choices::among_within))]
pub(crate) fn look_among(
    grammar: &Grammar,
    fields: &[Option<Field>],
    block: &Block,
    table: &Table,
    atom: &[u8],
) -> Look
    ensures value { result ≡ look_among (remains grammar.now (fields_at fields.now) block.now) table.now atom.now }
    ensures within { IsWithin result (length table.now) }
{
    table.has_no_fault();
    look_of(grammar, fields, block, table, atom)
}

// How many bytes two texts begin with alike, with no regard to the case of letters.
fn shared_len(text: &[u8], other: &[u8]) -> usize
    ensures value { result ≡ common_prefix_len nat_eq (lower text.now) (lower other.now) }
    ensures within_text { result ≤ length text.now }
{
    text.iter()
        .zip(other)
        .take_while(|(byte, other)| byte.eq_ignore_ascii_case(other))
        .count()
}

// The longest text that both begin with but for the case of letters, as the first has it.
fn shared<'a>(text: &'a [u8], other: &[u8]) -> &'a [u8]
    ensures value { result.now ≡ shared_letters text.now other.now }
    ensures within { length result.now ≤ length text.now }
{
    &text[..shared_len(text, other)]
}

// What is after an atom in an entry.
fn rest<'a>(entry: &'a Entry, atom: &[u8]) -> &'a [u8]
    ensures value { result.now ≡ drop (length atom.now) entry.now.text }
    ensures within { length result.now ≤ NAME_LIMIT }
{
    let text = entry.text.as_bytes();
    if atom.len() < text.len() {
        return &text[atom.len()..];
    }
    &[]
}

// What a text shares with those that were found before it.
fn shared_with<'a>(found: Option<&'a [u8]>, text: &'a [u8]) -> &'a [u8]
    requires found { IfSome (option_copied found) (λ before. length before ≤ NAME_LIMIT) }
    requires text { length text.now ≤ NAME_LIMIT }
    ensures value { result.now
        ≡ option_map_or (λ before. shared_letters before text.now) (option_copied found.entry) text.now }
    ensures within { length result.now ≤ NAME_LIMIT }
{
    match found {
        Some(before) => shared(before, text),
        None => text,
    }
}

// The longest text with which all entries go on that remain and that the atom may abbreviate.
pub(crate) fn common_among<'a>(
    grammar: &Grammar,
    fields: &[Option<Field>],
    block: &Block,
    table: &'a Table,
    atom: &[u8],
) -> &'a [u8]
    ensures value { result.now
        ≡ common_among (remains grammar.now (fields_at fields.now) block.now) table.now atom.now }
    ensures within { length result.now ≤ NAME_LIMIT }
{
    let mut found = None;
    for position in 0..table.len() {
        let entry = table.entry(position);
        if is_choice(grammar, fields, block, position, entry, atom) {
            found = Some(shared_with(found, rest(entry, atom)));
        }
    }
    found.unwrap_or(&[])
}
