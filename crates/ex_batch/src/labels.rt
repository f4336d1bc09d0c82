// Where the labels of a control file stand.
ghost use Rattle.std.specs.Prelude.{ℕ, ◌≡◌, ◌≤◌, List, true, length, option_copied, Some, IfOk, IfSome, OnOk, if◌then◌else◌};
ghost use Rattle.std.specs.Map.{lookup};
ghost use Rattle.std.specs.Str.{bytes_eq};
ghost use Rattle.cm_text.specs.declared.name.TheConstants.{NAME_LIMIT};
ghost use Rattle.ex_batch.specs.Control.{is_label_name};
ghost use Rattle.ex_batch.specs.Labels.{IsIndex, has_label, kept, label_of};

use crate::control::{Control, control_of};
use crate::file::Line;
use cm_io::NoMemory;
use cm_text::Name;
use indexmap::IndexMap;
use std::alloc::Global;

// The name that a line has, where it is a label.
#[tactic(auto, unfolding(crate::specs::Labels::label_of))]
fn label_of(line: &[u8]) -> Option<&[u8]>
    ensures label { option_copied result ≡ label_of line.now }
    ensures named { IfSome (option_copied result) (λ name. is_label_name name ≡ true) }
{
    match control_of(line) {
        Control::Label(name) => Some(name),
        Control::Nothing => None,
        Control::Condition { .. } => None,
        Control::Plain(_) => None,
    }
}

// A name as labels are kept under: in lower case.
#[tactic(auto, using(crate::proofs::LabelNames::kept_more, crate::proofs::LabelNames::kept_all))]
fn kept(name: &[u8]) -> Name
    requires named { is_label_name name.now ≡ true }
    requires short { length name.now ≤ NAME_LIMIT }
    ensures { result ≡ kept name.now }
{
    let mut kept = Name::new("");
    for byte in name {
        kept.push(byte.to_ascii_lowercase());
    }
    kept
}

// Has a line, where it is a label, be at its place, and at no place after it.
#[tactic(auto, using(crate::proofs::LabelNames::name_short))]
fn note(labels: &mut IndexMap<Name, usize>, line: &[u8], place: usize) -> Result<(), NoMemory>
    ensures { OnOk result ((name : List ℕ) → lookup (bytes_eq (kept name)) labels.new.entries
        ≡ (if has_label name line.now then Some place else lookup (bytes_eq (kept name)) labels.old.entries)) }
{
    let Some(name) = label_of(line) else {
        return Ok(());
    };
    labels.insert(kept(name), place)?;
    Ok(())
}

/// Where the labels stand: of each the first of the lines that is it.
#[tactic(auto, unfolding(crate::specs::Labels::IsIndex))]
pub(crate) fn labels_in(alloc: Global, lines: &[Line]) -> Result<IndexMap<Name, usize>, NoMemory>
    ensures { IfOk result (λ labels. IsIndex labels.entries lines.now) }
{
    let mut labels = IndexMap::new(alloc);
    let mut place = lines.len();
    while place > 0 {
        place -= 1;
        note(&mut labels, lines[place].bytes(), place)?;
    }
    Ok(labels)
}

/// Where a label stands, of those that are kept.
#[tactic(auto, using(crate::proofs::LabelNames::name_short))]
pub(crate) fn place_in(labels: &IndexMap<Name, usize>, name: &[u8]) -> Option<usize>
    requires { is_label_name name.now ≡ true }
    ensures { result ≡ lookup (bytes_eq (kept name.now)) labels.now.entries }
{
    labels.get(&kept(name)).copied()
}
