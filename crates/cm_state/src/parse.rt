// The parse of a text, after the fields that are known already.
ghost use Rattle.std.specs.Prelude.{◌≡◌, ◌+◌, ◌-◌, ◌<◌, ◌≤◌, length};
ghost use Rattle.cm_text.specs.declared.text.TheConstants.{TEXT_LIMIT};
ghost use Rattle.cm_fields.specs.declared.code.Code.TheVariants.{Repeated};
ghost use Rattle.cm_blocks.specs.KeptParse.{cost_after};
ghost use Rattle.cm_blocks.specs.declared.field.Chain.TheVariants as chain;
ghost use Rattle.cm_blocks.specs.declared.field.Ending.TheVariants as ending;
ghost use Rattle.cm_blocks.specs.Parse.{ending_of, parse_of};
ghost use Rattle.cm_blocks.specs.Setting.{setting};
ghost use Rattle.cm_state.specs.Stack.{Starts};

use crate::stack::Stack;
use cm_blocks::{Chain, Ending, FIELD_LIMIT, Fault, Field, Grammar, Steps, repeats, try_chain};
use cm_fields::Code;
use cm_files::Names;
use cm_hooks::Rules;
use std::sync::ledger::Ledger;

// How a parse ends that has one field too many.
fn too_many(field: &Field) -> Ending
    ensures { result ≡ ending_of (chain.Field field.now) }
{
    Ending::Fault(Fault {
        code: Code::TooMany,
        node: field.node(),
        at: field.start(),
    })
}

// How a parse ends whose next field repeats an option.
fn repeated(field: &Field) -> Ending
    ensures { result ≡ ending.Fault (record { code = Repeated; node = field.now.node; at = field.now.start }) }
{
    Ending::Fault(Fault {
        code: Code::Repeated,
        node: field.node(),
        at: field.start(),
    })
}

// Parses the rest of a text, after the fields that it begins with: puts the others after them, and answers how it
// ends.
pub(crate) fn parse_rest<N: Names, R: Rules, L: Ledger>(
    grammar: &Grammar,
    start: u16,
    text: &[u8],
    names: &N,
    rules: &R,
    fields: &mut Stack,
    steps: &mut Steps<L>,
) -> Ending
    requires starts { Starts (setting grammar.now (N.catalogue names.now) (R.meanings rules.now)) start text.now
        fields.old }
    requires short { length text.now ≤ TEXT_LIMIT }
    ensures parse { record { fields = fields.new; ending = result }
        ≡ parse_of (setting grammar.now (N.catalogue names.now) (R.meanings rules.now)) start text.now }
    ensures steps { steps.new ≡ steps.old
        + cost_after (setting grammar.now (N.catalogue names.now) (R.meanings rules.now)) start text.now fields.old }
{
    let mut node = fields.node_after(start);
    let mut at = fields.place_after();
    loop {
        match try_chain(grammar, node, text, at, names, rules, steps) {
            Chain::Field(field) => {
                if repeats(grammar, fields.places(), &field) {
                    return repeated(&field);
                }
                if usize::from(fields.len()) == FIELD_LIMIT {
                    return too_many(&field);
                }
                node = field.next();
                at = usize::from(field.end());
                fields.push(field);
            }
            Chain::Done(_) => return Ending::Done,
            Chain::Fault(fault) => return Ending::Fault(fault),
            Chain::Open(open) => return Ending::Open(open),
        }
    }
}
