// Which part may follow which.
ghost use Rattle.std.specs.Prelude.{◌≡◌};
ghost use Rattle.std.specs.Option.{option_copied};
ghost use Rattle.std.specs.List.{list_any};
ghost use Rattle.cm_synopsis.specs.Follow.{ends_other, follow_fault, innermost, is_again, is_end, is_field, is_field_end, is_lead, is_lone_bar, is_number, is_option, is_rest, is_start, may_be, same_bracket, wants_field};

use crate::field::Kind;
use crate::opening::Opening;
use crate::part::{Bracket, Part};
use crate::reason::Reason;

// Whether one of the kinds is a number.
fn has_number(kinds: &[Kind]) -> bool
    ensures { result ≡ list_any is_number kinds.now }
{
    kinds.iter().any(|kind| matches!(kind, Kind::Number))
}

// Whether one of them is the rest of the line.
fn has_rest(kinds: &[Kind]) -> bool
    ensures { result ≡ list_any is_rest kinds.now }
{
    kinds.iter().any(|kind| matches!(kind, Kind::Rest))
}

// Whether a part is a field that may be a number.
pub(crate) fn may_be_number(before: Option<&Part>) -> bool
    ensures { result ≡ may_be is_number (option_copied before.entry) }
{
    match before {
        Some(Part::Field(_, kinds)) => has_number(kinds.as_slice()),
        _ => false,
    }
}

// Whether it is a field that may be the rest of the line.
fn may_be_rest(before: Option<&Part>) -> bool
    ensures { result ≡ may_be is_rest (option_copied before.entry) }
{
    match before {
        Some(Part::Field(_, kinds)) => has_rest(kinds.as_slice()),
        _ => false,
    }
}

// Whether it is a field or its range.
fn is_field_end(before: Option<&Part>) -> bool
    ensures { result ≡ is_field_end (option_copied before.entry) }
{
    matches!(before, Some(Part::Field(_, _)) | Some(Part::Range(_, _)))
}

// Whether it is a switch with a colon.
pub(crate) fn is_lead(before: Option<&Part>) -> bool
    ensures { result ≡ is_lead (option_copied before.entry) }
{
    matches!(before, Some(Part::Lead(_)))
}

// Whether an alternative begins behind it.
pub(crate) fn is_start(before: Option<&Part>) -> bool
    ensures { result ≡ is_start (option_copied before.entry) }
{
    matches!(before, Some(Part::Open(_)) | Some(Part::Or))
}

// Whether a part is a field.
fn is_field(part: &Part) -> bool
    ensures { result ≡ is_field part.now }
{
    matches!(part, Part::Field(_, _))
}

// Whether it repeats a field.
fn is_again(part: &Part) -> bool
    ensures { result ≡ is_again part.now }
{
    matches!(part, Part::Again)
}

// Whether it ends an alternative.
fn is_end(part: &Part) -> bool
    ensures { result ≡ is_end part.now }
{
    matches!(part, Part::Close(_) | Part::Or)
}

// Whether an alternative of any order may begin with it.
fn is_option(part: &Part) -> bool
    ensures { result ≡ is_option part.now }
{
    matches!(part, Part::Keyword(_) | Part::Switch(_) | Part::Lead(_))
}

// Whether the innermost bracket is this one.
fn same_bracket(bracket: Bracket, inner: Option<Bracket>) -> bool
    ensures { result ≡ same_bracket bracket inner }
{
    match inner {
        Some(inner) => inner == bracket,
        None => false,
    }
}

// Whether a part ends a bracket that is not the innermost.
fn ends_other(inner: Option<Bracket>, part: &Part) -> bool
    ensures { result ≡ ends_other inner part.now }
{
    match part {
        Part::Close(bracket) => !same_bracket(*bracket, inner),
        _ => false,
    }
}

// Whether it is a bar where the innermost bracket has none.
fn is_lone_bar(inner: Option<Bracket>, part: &Part) -> bool
    ensures { result ≡ is_lone_bar inner part.now }
{
    match part {
        Part::Or => !same_bracket(Bracket::Choice, inner)
            && !same_bracket(Bracket::AnyOrder, inner),
        _ => false,
    }
}

// Whether a field is missing before a part or behind it.
fn wants_field(before: Option<&Part>, part: &Part) -> bool
    ensures { result ≡ wants_field (option_copied before.entry) part.now }
{
    if is_lead(before) {
        !is_field(part)
    } else {
        is_again(part) && !is_field_end(before)
    }
}

// The innermost bracket that is open.
pub(crate) fn innermost(openings: &[Opening]) -> Option<Bracket>
    ensures { result ≡ innermost openings.now }
{
    match openings.last() {
        Some(opening) => Some(opening.bracket),
        None => None,
    }
}

// Why a part may not follow the one before in the innermost bracket.
pub(crate) fn follow_fault(
    inner: Option<Bracket>,
    before: Option<&Part>,
    part: &Part,
) -> Option<Reason>
    ensures { result ≡ follow_fault inner (option_copied before.entry) part.now }
{
    if wants_field(before, part) {
        Some(Reason::NoField)
    } else if ends_other(inner, part) {
        Some(Reason::NotOpen)
    } else if is_lone_bar(inner, part) {
        Some(Reason::NoBar)
    } else if is_start(before) && is_end(part) {
        Some(Reason::EmptyBracket)
    } else if is_start(before) && same_bracket(Bracket::AnyOrder, inner) && !is_option(part) {
        Some(Reason::NotOption)
    } else if may_be_rest(before) && !is_end(part) {
        Some(Reason::NotLast)
    } else {
        None
    }
}
