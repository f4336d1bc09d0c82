// COPY.
#![tactic(auto, using(cm_io::proofs::Texts::each))]

ghost use Rattle.std.specs.Prelude.{Some, false, true, ◌≡◌};
ghost use Rattle.ex_store.specs.Plan.{IsSource, IsTarget};
ghost use Rattle.ex_store.specs.State.{State};
ghost use Rattle.ex_commands.specs.Commands.Copy.{begins, copies, copies_files, copy_of, is_token};
ghost use Rattle.ex_commands.specs.Outcome.{Outcome};
ghost use Rattle.ex_commands.specs.NameParts.{IsReadable, IsSaid, line_of};

use crate::acts::refuse;
use crate::fields::place_in;
use crate::pairs::Origin;
use crate::plans::play;
use crate::{Acted, Command};
use cm_blocks::{Field, Grammar, Role};
use cm_fields::{Code, Value};
use cm_files::Names;
use cm_io::{Sink, Writer};
use cm_state::Session;
use ex_store::{Place, Plan, Store};

/// What a line of COPY commands.
pub(crate) fn read<N: Names>(session: &Session, grammar: &Grammar, names: &N) -> Command
    requires { IsReadable session.now.fields }
    ensures { result ≡ copy_of (line_of grammar.now (N.catalogue names.now) session.now) }
{
    let to = place_in(session.field_of(Role::Target), session, grammar, names);
    match session.field_of(Role::Source) {
        Some(from) => copies_from(from, to, session, grammar, names),
        None => Command::Empty,
    }
}

fn is_token(value: &Value) -> bool
    ensures { result ≡ is_token value.now }
{
    match value {
        Value::Token => true,
        _ => false,
    }
}

// From the terminal, or from files.
fn copies_from<N: Names>(
    from: &Field,
    to: Option<Place>,
    session: &Session,
    grammar: &Grammar,
    names: &N,
) -> Command
    requires { IsSaid from.now.value }
    ensures { result ≡ copies (line_of grammar.now (N.catalogue names.now) session.now) (Some from.now) to }
{
    if is_token(from.value()) {
        return to.map_or(Command::Empty, |to| Command::CopyTty { to });
    }
    match (place_in(Some(from), session, grammar, names), to) {
        (Some(from), Some(to)) => Command::Copy { from, to },
        _ => Command::Empty,
    }
}

/// Copies files.
pub(crate) fn act<S: Sink>(
    store: &mut Store,
    from: &Place,
    to: &Place,
    moment: u64,
    out: &mut Writer<'_, S>,
) -> Acted
    requires from { IsSource from.now store.old.state }
    requires to { IsTarget to.now store.old.state.directories }
    ensures { Outcome S.Sink out.old out.new (copies_files from.now to.now moment store.old.state) true
        store.old.state store.new.state result }
{
    let plan = Plan::Copy {
        from: from.copy(),
        to: to.copy(),
    };
    play(store, plan, Origin::Files, moment, out)
}

/// Begins to type a file in, where it has a name.
pub(crate) fn begin<S: Sink>(to: &Place, out: &mut Writer<'_, S>) -> Acted
    ensures { (state : State) → Outcome S.Sink out.old out.new (begins to.now state) false state state
        result }
{
    if to.lacks_name() {
        return refuse(Code::NameNeeded, out);
    }
    Acted::Data
}
