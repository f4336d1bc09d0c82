// EXPUNGE.
ghost use Rattle.std.specs.Prelude.{false, true, ◌≡◌, option_copied};
ghost use Rattle.cm_io.specs.Writer.{Writes};
ghost use Rattle.ex_store.specs.State.{has_directory};
ghost use Rattle.ex_commands.specs.Answer.{IsThere};
ghost use Rattle.ex_commands.specs.Commands.Expunge.{expunge_of, expunges, expunges_or_connected, freed_line};
ghost use Rattle.ex_commands.specs.Outcome.{Outcome};
ghost use Rattle.ex_commands.specs.NameParts.{IsReadable, line_of};

use crate::acts::connected;
use crate::fields::directory_in;
use crate::names::put_directory;
use crate::texts::{pages_freed, right_bracket, space};
use crate::{Acted, Command};
use cm_blocks::{Grammar, Role};
use cm_files::Names;
use cm_io::{Sink, Writer};
use cm_state::Session;
use cm_text::{Name, end_of_line};
use ex_store::Store;

/// What a line of EXPUNGE commands.
pub(crate) fn read<N: Names>(session: &Session, grammar: &Grammar, names: &N) -> Command
    requires { IsReadable session.now.fields }
    ensures { result ≡ expunge_of (line_of grammar.now (N.catalogue names.now) session.now) }
{
    Command::Expunge {
        directory: directory_in(session.field_of(Role::Files), session, grammar, names),
    }
}

// Puts how many pages were freed in a directory.
#[tactic(auto, using(cm_io::proofs::Texts::texts), unfolding(crate::specs::Commands::Expunge::freed_line))]
fn put_freed<S: Sink>(directory: &str, pages: u32, out: &mut Writer<'_, S>)
    ensures { Writes S.Sink out.old out.new (freed_line directory.now pages) }
{
    out.put(space());
    put_directory(directory, out);
    out.put(pages_freed());
    out.put_decimal(u64::from(pages));
    out.put(right_bracket());
    out.put(end_of_line());
}

// Removes the marked files of a directory.
fn expunge<S: Sink>(store: &mut Store, directory: &Name, out: &mut Writer<'_, S>) -> Acted
    requires { has_directory directory.now store.old.state.directories ≡ true }
    ensures { Outcome S.Sink out.old out.new (expunges directory.now store.old.state) false
        store.old.state store.new.state result }
{
    let pages = store.expunge(directory.as_str());
    put_freed(directory.as_str(), pages, out);
    Acted::Ok
}

/// Removes the marked files of a directory, and of the connected one where none is said.
pub(crate) fn act<S: Sink>(
    store: &mut Store,
    directory: Option<&Name>,
    out: &mut Writer<'_, S>,
) -> Acted
    requires { IsThere (option_copied directory) store.old.state }
    ensures { Outcome S.Sink out.old out.new
        (expunges_or_connected (option_copied directory.entry) store.old.state) false
        store.old.state store.new.state result }
{
    match directory {
        Some(directory) => expunge(store, directory, out),
        None => expunge(store, &connected(store), out),
    }
}
