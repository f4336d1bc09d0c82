// The names that `?` lists after the phrase of a hook's field.
#![tactic(auto, using(cm_io::proofs::Texts::texts))]

ghost use Rattle.std.specs.Prelude.{◌≡◌, ◌<◌, ◌≤◌, ◌++◌, ◌&&◌, max, Some, nat_lt, length, slice_get, true};
ghost use Rattle.cm_text.specs.Case.{begins_with};
ghost use Rattle.cm_text.specs.declared.name.TheConstants.{NAME_LIMIT};
ghost use Rattle.cm_io.specs.Writer.{Writes};
ghost use Rattle.cm_help.specs.Names.{and_more, columns, fits, gap, lead, listed, longest, matching, name_rows, others, taken_with};

use cm_hooks::Rules;
use cm_io::{Sink, Writer};
use cm_text::{Name, begins_with, end_of_line};

// The most names that are listed.
pub(crate) const NAMES_LIMIT: usize = 60;

// The most bytes of a row, with the two blanks before it.
pub(crate) const ROW_SIZE: usize = 78;

#[tactic(auto, unfolding(crate::specs::Names::gap))]
pub(crate) fn gap() -> &'static [u8]
    ensures { result.now ≡ gap }
{
    b"  "
}

// Whether a name is listed, where so many more may be.
fn comes(left: usize, name: &[u8], atom: &[u8]) -> bool
    ensures value { result ≡ (nat_lt 0 left && begins_with name.now atom.now) }
    ensures some { result ≡ true → 0 < left }
{
    left > 0 && begins_with(name, atom)
}

// The larger of two sizes.
fn larger(size: usize, other: usize) -> usize
    ensures { result ≡ max size other }
{
    size.max(other)
}

// The name with this number of those that the rules list.
#[tactic(auto, using(crate::proofs::Columns::there))]
fn name_at<R: Rules>(rules: &R, id: u8, number: usize) -> Name
    requires { number < length ((R.meanings rules.now).names id) }
    ensures { slice_get ((R.meanings rules.now).names id) number ≡ Some result }
{
    rules.name(id, number).unwrap_or(Name::new(""))
}

// The size of the longest name that is listed.
fn longest<R: Rules>(rules: &R, id: u8, atom: &[u8]) -> usize
    ensures value { result ≡ longest 0 (listed atom.now ((R.meanings rules.now).names id)) }
    ensures within { result ≤ NAME_LIMIT }
{
    let mut size = 0;
    let mut left = NAMES_LIMIT;
    for number in 0..rules.names(id) {
        let name = name_at(rules, id, number);
        let bytes = name.as_bytes();
        if !comes(left, bytes, atom) {
            continue;
        }
        size = larger(size, bytes.len());
        left -= 1;
    }
    size
}

// How many names begin with an atom.
fn matching<R: Rules>(rules: &R, id: u8, atom: &[u8]) -> usize
    ensures { result ≡ length (matching atom.now ((R.meanings rules.now).names id)) }
{
    let mut count = 0;
    for number in 0..rules.names(id) {
        if !begins_with(name_at(rules, id, number).as_bytes(), atom) {
            continue;
        }
        count += 1;
    }
    count
}

// Whether one more column is in the row.
fn fits(width: usize, taken: usize) -> bool
    requires width { width ≤ NAME_LIMIT }
    requires taken { taken ≤ ROW_SIZE }
    ensures { result ≡ fits width taken }
{
    taken + (width + 2) <= ROW_SIZE
}

// What is taken of the row with it.
#[tactic(auto, unfolding(crate::specs::Names::taken_with))]
fn taken_with(is_in_row: bool, width: usize, taken: usize) -> usize
    requires width { width ≤ NAME_LIMIT }
    requires taken { is_in_row ≡ fits width taken }
    ensures value { result ≡ taken_with is_in_row width taken }
    ensures within { result ≤ ROW_SIZE }
{
    if is_in_row {
        taken + (width + 2)
    } else {
        width + 2
    }
}

// Puts what is before a name.
#[tactic(auto, using(cm_io::proofs::Texts::texts), unfolding(crate::specs::Names::lead))]
fn put_lead<S: Sink>(is_in_row: bool, width: usize, size: usize, out: &mut Writer<'_, S>)
    requires { width ≤ NAME_LIMIT }
    ensures { Writes S.Sink out.old out.new (lead is_in_row width size) }
{
    if is_in_row {
        out.put_times(width.saturating_sub(size) as u32, b" ");
    } else {
        out.put(end_of_line());
    }
}

// Puts a name in its column.
fn put_name<S: Sink>(
    is_in_row: bool,
    width: usize,
    size: usize,
    name: &[u8],
    out: &mut Writer<'_, S>,
)
    requires { width ≤ NAME_LIMIT }
    ensures { Writes S.Sink out.old out.new (lead is_in_row width size ++ gap ++ name.now) }
{
    put_lead(is_in_row, width, size, out);
    out.put(gap());
    out.put(name);
}

// Puts the names that are listed, in columns of this width.
#[tactic(auto, using(cm_io::proofs::Texts::turns))]
fn put_columns<R: Rules, S: Sink>(
    rules: &R,
    id: u8,
    atom: &[u8],
    width: usize,
    out: &mut Writer<'_, S>,
)
    requires { width ≤ NAME_LIMIT }
    ensures { Writes S.Sink out.old out.new
        (columns width ROW_SIZE 0 (listed atom.now ((R.meanings rules.now).names id))) }
{
    let mut taken = ROW_SIZE;
    let mut size = 0;
    let mut left = NAMES_LIMIT;
    for number in 0..rules.names(id) {
        let name = name_at(rules, id, number);
        let bytes = name.as_bytes();
        if !comes(left, bytes, atom) {
            continue;
        }
        let is_in_row = fits(width, taken);
        put_name(is_in_row, width, size, bytes, out);
        taken = taken_with(is_in_row, width, taken);
        size = bytes.len();
        left -= 1;
    }
}

// Puts that there are more.
#[tactic(auto, using(cm_io::proofs::Texts::texts, cm_io::proofs::Texts::each), unfolding(crate::specs::Names::and_more))]
fn put_and_more<S: Sink>(count: usize, out: &mut Writer<'_, S>)
    ensures { Writes S.Sink out.old out.new (and_more count) }
{
    if count != 0 {
        out.put(end_of_line());
        out.put(b"  and ");
        out.put_decimal(count as u64);
        out.put(b" more");
    }
}

// Puts the names of the hook with this id that begin with an atom.
#[tactic(auto, using(cm_io::proofs::Texts::texts), unfolding(crate::specs::Names::name_rows))]
pub(crate) fn put_names<R: Rules, S: Sink>(rules: &R, id: u8, atom: &[u8], out: &mut Writer<'_, S>)
    ensures { Writes S.Sink out.old out.new (name_rows atom.now ((R.meanings rules.now).names id)) }
{
    put_columns(rules, id, atom, longest(rules, id, atom), out);
    put_and_more(matching(rules, id, atom).saturating_sub(NAMES_LIMIT), out);
}
