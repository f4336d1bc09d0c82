// The fields that a session holds.
ghost use Rattle.std.specs.Prelude.{◌≡◌, ◌-◌, ◌≤◌, ◌<◌, ◌++◌, ◌∷◌, [], IfNone, IfSome, Some, length, slice_get};
ghost use Rattle.cm_blocks.specs.KeptParse.{decided_within};
ghost use Rattle.cm_blocks.specs.Once.{fields_at};
ghost use Rattle.cm_blocks.specs.Parse.{node_after, place_after};
ghost use Rattle.cm_state.specs.Stack.{first_decided_within};

use arrayvec::ArrayVec;
use cm_blocks::{FIELD_LIMIT, Field};
use std::marker::Model;

// Fields one after the other, at most 64. Contracts see the list of them.
#[derive(Drop)]
pub(crate) struct Stack {
    // Each place has a field: an `ArrayVec` wants a value for the places that it does not use.
    fields: ArrayVec<Option<Field>, FIELD_LIMIT>,
}

impl Model for Stack {
    ghost use Rattle.std.specs.Prelude.{◌≡◌, ◌≤◌, List, Some, length, map};
    ghost use Rattle.cm_blocks.specs.declared.field.TheConstants.{FIELD_LIMIT};
    ghost use Rattle.cm_blocks.specs.FieldView.{FieldView};
    ghost use Rattle.cm_state.specs.Stack.{somes};

    ghost Value = { List FieldView };

    ghost view = { λ stack. somes stack.fields.items };

    ghost invariant = { λ stack. (stack.fields.items ≡ map Some (somes stack.fields.items))
        × (length (somes stack.fields.items) ≤ FIELD_LIMIT) };
}

impl Stack {
    // No fields.
    pub(crate) fn new() -> Stack
        ensures { result ≡ [] }
    {
        Stack {
            fields: ArrayVec::new(),
        }
    }

    // How many there are.
    pub(crate) fn len(&self) -> u8
        ensures value { result ≡ length self.now }
        ensures few { result ≤ FIELD_LIMIT }
    {
        self.fields.len() as u8
    }

    // One of them, by its number from 0.
    pub(crate) fn get(&self, number: u8) -> &Field
        requires { number < length self.now }
        ensures { slice_get self.now number ≡ Some result.now }
    {
        match &self.fields[usize::from(number)] {
            Some(field) => field,
            None => unreachable!(),
        }
    }

    // Their places, each of which has one.
    pub(crate) fn places(&self) -> &[Option<Field>]
        ensures { fields_at result.now ≡ self.now }
    {
        &self.fields
    }

    // Puts one after the others.
    pub(crate) fn push(&mut self, field: Field)
        requires { length self.old < FIELD_LIMIT }
        ensures { self.new ≡ self.old ++ field ∷ [] }
    {
        self.fields.push(Some(field));
    }

    // Keeps those before the first that needs more than so many bytes.
    pub(crate) fn truncate(&mut self, size: usize)
        ensures { self.new ≡ decided_within size self.old }
    {
        self.fields
            .truncate(first_decided_within(&self.fields, size));
    }

    // Keeps none.
    pub(crate) fn clear(&mut self)
        ensures { self.new ≡ [] }
    {
        self.fields.clear();
    }

    // The last one.
    fn last(&self) -> Option<&Field>
        ensures some { IfSome result (λ field. slice_get self.now (length self.now - 1) ≡ Some field.now) }
        ensures none { IfNone result (self.now ≡ []) }
    {
        match self.len() {
            0 => None,
            count => Some(self.get(count - 1)),
        }
    }

    // The node that follows the last, or the one from which the first is sought.
    #[tactic(auto, using(crate::proofs::Stacks::node_of_last))]
    pub(crate) fn node_after(&self, start: u16) -> u16
        ensures { result ≡ node_after start self.now }
    {
        match self.last() {
            Some(field) => field.next(),
            None => start,
        }
    }

    // The place after the last.
    #[tactic(auto, using(crate::proofs::Stacks::place_of_last))]
    pub(crate) fn place_after(&self) -> usize
        ensures { result ≡ place_after 0 self.now }
    {
        match self.last() {
            Some(field) => usize::from(field.end()),
            None => 0,
        }
    }
}

// The number of the first field that needs more than so many bytes, or how many there are.
fn first_decided_within(fields: &[Option<Field>], size: usize) -> usize
    ensures value { result ≡ first_decided_within size 0 fields.now }
    ensures within { result ≤ length fields.now }
{
    for (number, field) in fields.iter().enumerate() {
        match field {
            Some(field) if usize::from(field.need()) <= size => {}
            _ => return number,
        }
    }
    fields.len()
}
