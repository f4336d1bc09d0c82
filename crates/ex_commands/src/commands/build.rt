// BUILD.
#![tactic(auto, using(cm_io::proofs::Texts::each))]

ghost use Rattle.std.specs.Prelude.{true, not, IfSome, ◌≡◌, ◌≤◌, option_copied};
ghost use Rattle.cm_files.specs.Catalogue.{is_directory_name};
ghost use Rattle.ex_store.specs.declared.limits.TheConstants.{RETENTION_LIMIT};
ghost use Rattle.ex_commands.specs.Commands.Build.{build_of, builds, retention_with};
ghost use Rattle.ex_commands.specs.Outcome.{Outcome};
ghost use Rattle.ex_commands.specs.NameParts.{IsReadable, IsSaidIn, line_of};

use crate::fields::{count_in, directory_in, has_subs};
use crate::pairs::Origin;
use crate::plans::play;
use crate::{Acted, Command};
use cm_blocks::{Field, Grammar, Role};
use cm_files::Names;
use cm_io::{Sink, Writer};
use cm_state::Session;
use cm_text::Name;
use ex_grammar::GENERATIONS;
use ex_store::{Plan, Store};

/// What a line of BUILD commands.
pub(crate) fn read<N: Names>(session: &Session, grammar: &Grammar, names: &N) -> Command
    requires { IsReadable session.now.fields }
    ensures { result ≡ build_of (line_of grammar.now (N.catalogue names.now) session.now) }
{
    let sub = has_subs(session);
    directory_in(session.field_of(Role::Files), session, grammar, names).map_or(
        Command::Empty,
        |directory| Command::Build {
            directory,
            retention: None,
            sub,
        },
    )
}

/// How many generations are kept after a subcommand of this code, with its value: those of the last one that says
/// how many.
pub(crate) fn retention_with(code: u16, said: Option<&Field>, retention: Option<u8>) -> Option<u8>
    requires { IsSaidIn (option_copied said) }
    ensures { result ≡ retention_with code (option_copied said.entry) retention }
{
    if code != GENERATIONS {
        return retention;
    }
    count_in(said)
}

/// Makes a directory, and tells how many generations it keeps; or waits for its subcommands.
pub(crate) fn act<S: Sink>(
    store: &mut Store,
    directory: &Name,
    retention: Option<u8>,
    sub: bool,
    moment: u64,
    out: &mut Writer<'_, S>,
) -> Acted
    requires name { is_directory_name directory.now ≡ true }
    requires retention { IfSome retention (λ count. count ≤ RETENTION_LIMIT) }
    ensures { Outcome S.Sink out.old out.new (builds directory.now retention sub moment store.old.state) (not sub)
        store.old.state store.new.state result }
{
    if sub {
        return Acted::Pending;
    }
    let plan = Plan::Build {
        directory: Name::new(directory.as_str()),
        retention,
    };
    play(store, plan, Origin::Files, moment, out)
}
