// Logical names are defined.
ghost use Rattle.std.specs.Prelude.{ℕ, ◌≡◌, true, IfOk, IfErr, Ok};
ghost use Rattle.cm_files.specs.LogicalName.{is_logical_name};
ghost use Rattle.ex_store.specs.declared.plan.Plan.TheVariants as plans;
ghost use Rattle.ex_store.specs.Defining.{definition_of};
ghost use Rattle.ex_store.specs.Plan.{IsRefused, MayPlan, planned};
ghost use Rattle.ex_store.specs.Ready.{applied, are_doable, done_on, rows_read};
ghost use Rattle.ex_store.specs.WellFormed.{IsWellFormed};

use crate::limits::LOGICAL_LIMIT;
use crate::logical_names::{LogicalNames, upper};
use crate::{Definition, Ready, Refusal, Store};
use cm_fields::Code;
use cm_text::Name;

// The logical name that is defined, or the limit that is passed.
fn definition_of(logical: &LogicalNames, name: &Name, directory: Name) -> Result<Definition, Code>
    requires { is_logical_name name.now ≡ true }
    ensures { result ≡ definition_of name.now directory logical.now.list }
{
    if !logical.has(name.as_bytes()) && logical.len() >= LOGICAL_LIMIT {
        return Err(Code::LogicalLimit);
    }
    Ok(Definition {
        name: upper(name.as_bytes()),
        directory,
    })
}

impl Store {
    // A logical name is defined.
    pub(crate) fn define(&self, name: &Name, directory: Name) -> Result<Ready, Refusal>
        requires { MayPlan (plans.Define name.now directory) self.now.state }
        ensures ready { IfOk result (λ ready. (moment : ℕ)
            → planned (plans.Define name.now directory) moment self.now.state ≡ Ok (done_on self.now.state ready)) }
        ensures sound { IfOk result (λ ready. IsWellFormed (applied ready self.now.state)) }
        ensures doable { IfOk result (λ ready.
            are_doable (rows_read ready.reading self.now.state) ready.row_changes ≡ true) }
        ensures refused { (moment : ℕ)
            → IfErr result (IsRefused (planned (plans.Define name.now directory) moment self.now.state)) }
    {
        match definition_of(&self.logical, name, directory) {
            Ok(definition) => Ok(Ready::of_definition(self.alloc, definition)),
            Err(code) => Err(Refusal::Code(code)),
        }
    }
}
