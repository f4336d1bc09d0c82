// DIRECTORY.
#![tactic(auto, using(cm_io::proofs::Texts::each))]

ghost use Rattle.std.specs.Prelude.{false, ◌≡◌, filter, length, option_copied, unwrap_or};
ghost use Rattle.cm_blocks.specs.declared.function.Role.TheVariants as roles;
ghost use Rattle.cm_io.specs.Writer.{Writes};
ghost use Rattle.cm_state.specs.Roles.{field_of};
ghost use Rattle.ex_store.specs.Plan.{sources};
ghost use Rattle.ex_commands.specs.Commands.Directory.{day_with, directory_of, everything, listing, lists, lists_rows, marked_so};
ghost use Rattle.ex_commands.specs.Line.{place_in};
ghost use Rattle.ex_commands.specs.Outcome.{Outcome};
ghost use Rattle.ex_commands.specs.Replies.{is_within};
ghost use Rattle.ex_commands.specs.NameParts.{IsReadable, line_of};

use crate::acts::refuse;
use crate::fields::{day_by, has_subs, place_in};
use crate::lines::{Days, Lines, count_files, put_heading, put_lines, put_total};
use crate::place::directory_name;
use crate::{Acted, Command};
use cm_blocks::{Field, Grammar, Role};
use cm_fields::{Code, Gen};
use cm_files::{Flags, Names};
use cm_io::{Sink, Writer};
use cm_state::Session;
use ex_store::{Place, Store};

// All files of the connected directory.
fn everything<N: Names>(names: &N) -> Place
    ensures { result ≡ everything (N.catalogue names.now) }
{
    Place {
        directory: directory_name(names, names.connected()),
        name: None,
        kind: None,
        generation: Gen::Missing,
        flags: Flags {
            wild: true,
            all_generations: true,
            default_all: true,
            ..Flags::default()
        },
    }
}

// The files of a line, or all where none are said.
fn files_of<N: Names>(session: &Session, grammar: &Grammar, names: &N) -> Place
    requires { IsReadable session.now.fields }
    ensures { let line = line_of grammar.now (N.catalogue names.now) session.now in
        result ≡ unwrap_or (place_in line (field_of roles.Files line.fields)) (everything line.catalogue) }
{
    match place_in(session.field_of(Role::Files), session, grammar, names) {
        Some(files) => files,
        None => everything(names),
    }
}

/// What a line of DIRECTORY commands.
pub(crate) fn read<N: Names>(session: &Session, grammar: &Grammar, names: &N) -> Command
    requires { IsReadable session.now.fields }
    ensures { result ≡ directory_of (line_of grammar.now (N.catalogue names.now) session.now) }
{
    Command::Directory {
        files: files_of(session, grammar, names),
        since: None,
        before: None,
        deleted: false,
        read: false,
        sub: has_subs(session),
    }
}

/// A day after a subcommand with this value, where it is the one that sets the day: that of the last one counts.
pub(crate) fn day_with(here: bool, said: Option<&Field>, day: Option<i32>) -> Option<i32>
    ensures { result ≡ day_with here (option_copied said.entry) day }
{
    if !here {
        return day;
    }
    match said {
        Some(field) => day_by(field.value()),
        None => None,
    }
}

// The same files, of those that are marked deleted or of those that are not.
fn marked_so(files: &Place, deleted: bool) -> Place
    ensures { result ≡ marked_so deleted files.now }
{
    Place {
        flags: Flags {
            deleted,
            ..files.flags
        },
        ..files.copy()
    }
}

// Puts the listing of files of these days, of which there are so many, with the day of reading or of writing.
#[tactic(auto, using(cm_io::proofs::Texts::texts, crate::proofs::DayLines::lines_within), unfolding(crate::specs::Commands::Directory::listing))]
fn put_listing<S: Sink>(
    store: &Store,
    files: &Place,
    days: Days,
    read: bool,
    count: u32,
    out: &mut Writer<'_, S>,
)
    requires { count ≡ length (filter (is_within days) (sources files.now store.now.state)) }
    ensures { Writes S.Sink out.old out.new
        (listing read files.now.directory (filter (is_within days) (sources files.now store.now.state))) }
{
    put_heading(files.directory.as_str(), out);
    put_lines(store, files, Lines::Listed { days, read }, out);
    put_total(count, out);
}

// Lists files of these days, where there are any.
fn list<S: Sink>(
    store: &Store,
    files: &Place,
    days: Days,
    read: bool,
    out: &mut Writer<'_, S>,
) -> Acted
    ensures { Outcome S.Sink out.old out.new
        (lists_rows read files.now.directory (filter (is_within days) (sources files.now store.now.state))
        store.now.state) false store.now.state store.now.state result }
{
    match count_files(store, files, days) {
        0 => refuse(Code::NoMatch, out),
        count => {
            put_listing(store, files, days, read, count, out);
            Acted::Ok
        }
    }
}

/// Lists files, where there are any; or waits for its subcommands.
pub(crate) fn act<S: Sink>(
    store: &Store,
    files: &Place,
    days: Days,
    deleted: bool,
    read: bool,
    sub: bool,
    out: &mut Writer<'_, S>,
) -> Acted
    ensures { Outcome S.Sink out.old out.new
        (lists files.now days.since days.before deleted read sub store.now.state) false store.now.state
        store.now.state result }
{
    if sub {
        return Acted::Pending;
    }
    list(store, &marked_so(files, deleted), days, read, out)
}
