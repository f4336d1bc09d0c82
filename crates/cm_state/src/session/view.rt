// What a session tells of its line.
ghost use Rattle.std.specs.Prelude.{◌≡◌, ◌≤◌, ◌<◌, length, slice_get, Some};
ghost use Rattle.std.specs.Option.{option_copied};
ghost use Rattle.std.specs.Str.{IsAscii};
ghost use Rattle.cm_text.specs.Text.{IsLine};
ghost use Rattle.cm_blocks.specs.declared.field.TheConstants.{FIELD_LIMIT};
ghost use Rattle.cm_state.specs.Roles.{field_of, fields_of, is_role, value_of};
ghost use Rattle.cm_state.specs.FieldText.{said, said_of};
ghost use Rattle.cm_state.specs.SessionState.{text_of};

use crate::Session;
use crate::held::text_of;
use crate::said::{said_in, said_of};
use cm_blocks::{Ending, Field, Grammar, Role};
use cm_fields::Value;

impl Session {
    /// The whole text: the line, or the line and the CR that finished it.
    pub fn text(&self) -> &[u8]
        ensures value { result.now ≡ text_of self.now }
        ensures line { IsLine self.now.line }
        ensures ascii { IsAscii result.now }
    {
        text_of(&self.line, self.is_finished)
    }

    /// How many fields are held, at most 64.
    pub fn held(&self) -> u8
        ensures value { result ≡ length self.now.fields }
        ensures few { result ≤ FIELD_LIMIT }
    {
        self.fields.len()
    }

    /// A field that is held, by its number from 0.
    pub fn field(&self, number: u8) -> &Field
        requires { number < length self.now.fields }
        ensures { slice_get self.now.fields number ≡ Some result.now }
    {
        self.fields.get(number)
    }

    /// The first field of a role. None where no field has it.
    #[tactic(auto, using(crate::proofs::Roles::first_is))]
    pub fn field_of(&self, role: Role) -> Option<&Field>
        ensures { option_copied result ≡ field_of role self.now.fields }
    {
        self.nth_of(role, 0)
    }

    /// What the first field of a role stands for. None where no field has it.
    pub fn value_of(&self, role: Role) -> Option<Value>
        ensures { result ≡ value_of role self.now.fields }
    {
        match self.field_of(role) {
            Some(field) => Some(*field.value()),
            None => None,
        }
    }

    /// The field with this number, from 0, among those of a role, in the order of the line. None where the role has no
    /// more fields than the number.
    pub fn nth_of(&self, role: Role, number: u8) -> Option<&Field>
        ensures { option_copied result ≡ slice_get (fields_of role self.now.fields) number }
    {
        let mut left = number;
        for at in 0..self.held() {
            let field = self.field(at);
            if !is_role(role, field.role()) {
                continue;
            }
            if left == 0 {
                return Some(field);
            }
            left -= 1;
        }
        None
    }

    /// What a field of this session said, under the grammar that its line was read by. Of a word, a quoted text, a rest
    /// of a line and the name of a new directory that is what the value spans; of a quoted text it is between the
    /// outer quotes, and a quote inside stands twice, of which `cm_fields::unquoted` makes one. Of any other value it
    /// is the field as it was typed. Of a field that was not typed it is all this in the default of its node, or the
    /// whole default.
    ///
    /// A field that is not of this session may lie outside its text; then what it said ends where the text ends.
    pub fn said<'a>(&'a self, field: &Field, grammar: &'a Grammar) -> &'a [u8]
        ensures value { result.now ≡ said grammar.now (text_of self.now) field.now }
        ensures ascii { IsAscii result.now }
    {
        said_in(self.source_of(field, grammar), field)
    }

    /// The text that a field was read from: that of this session, or the default of its node where it was not typed.
    /// The places in the field's value are places in it.
    pub fn source_of<'a>(&'a self, field: &Field, grammar: &'a Grammar) -> &'a [u8]
        // [field-text]
        ensures value { result.now ≡ said_of grammar.now (text_of self.now) field.now }
        ensures ascii { IsAscii result.now }
    {
        said_of(field, self.text(), grammar)
    }

    /// What is after the last field.
    pub fn ending(&self) -> &Ending
        ensures { result.now ≡ self.now.ending }
    {
        &self.ending
    }
}

// Whether two roles are one.
fn is_role(wanted: Role, role: Role) -> bool
    ensures { result ≡ is_role wanted role }
{
    role == wanted
}
