// Whether a command can be done on a store. Tests ask it, so that they may act.
ghost use Rattle.std.specs.Prelude.{◌≡◌, true, ◌&&◌, nat_le, length};
ghost use Rattle.std.specs.List.{list_all};
ghost use Rattle.cm_text.specs.Bytes.{is_text};
ghost use Rattle.cm_text.specs.declared.name.TheConstants.{NAME_LIMIT};
ghost use Rattle.ex_commands.specs.declared.command.Command.TheVariants as commands;
ghost use Rattle.cm_files.specs.Catalogue.{is_upper_name};
ghost use Rattle.ex_store.specs.Plan.{IsOneFile, IsTarget, may_be_job};
ghost use Rattle.ex_store.specs.State.{has_directory};
ghost use Rattle.ex_store.specs.WellFormed.{is_day, is_file_name, is_file_type, is_numbered};
ghost use Rattle.ex_commands.specs.Answer.{IsThere, MayAct, MayAsk};

use cm_fields::Gen;
use cm_files::is_logical_name;
use cm_text::{NAME_LIMIT, Name, is_name, is_text};
use ex_commands::Command;
use ex_generations::GENERATION_LIMIT;
use ex_store::{AFTER_LIMIT, FORMS, Parts, Place, RETENTION_LIMIT, Store};

fn is_upper_name(text: &[u8]) -> bool
    ensures { result ≡ is_upper_name text.now }
{
    text.iter()
        .all(|byte| is_name(*byte) && !byte.is_ascii_lowercase())
}

fn is_file_name(text: &[u8]) -> bool
    ensures { result ≡ is_file_name text.now }
{
    !text.is_empty() && text.len() <= NAME_LIMIT && is_upper_name(text)
}

fn is_file_type(text: &[u8]) -> bool
    ensures { result ≡ is_file_type text.now }
{
    text.len() <= NAME_LIMIT && is_upper_name(text)
}

fn is_numbered(generation: u32) -> bool
    ensures { result ≡ is_numbered generation }
{
    generation > 0 && generation <= GENERATION_LIMIT
}

// Whether files can be put under a place's name and generation.
fn is_target(to: &Place, parts: &Parts<'_>) -> bool
    ensures { result ≡ true → IsTarget to.now parts.now.directories }
{
    let name = match &to.name {
        Some(name) => name.as_bytes() == b"*".as_slice() || is_file_name(name.as_bytes()),
        None => true,
    };
    let kind = match &to.kind {
        Some(kind) => kind.as_bytes() == b"*".as_slice() || is_file_type(kind.as_bytes()),
        None => true,
    };
    let generation = match to.generation {
        Gen::Missing | Gen::Next => true,
        Gen::Number(number) => is_numbered(number),
        _ => false,
    };
    parts.has_directory(to.directory.as_str()) && name && kind && generation
}

// Whether bytes can be put after the file of a place.
fn is_one_file(to: &Place, parts: &Parts<'_>) -> bool
    ensures { result ≡ true → IsOneFile to.now parts.now.directories }
{
    let name = match &to.name {
        Some(name) => is_file_name(name.as_bytes()),
        None => false,
    };
    let kind = match &to.kind {
        Some(kind) => is_file_type(kind.as_bytes()),
        None => true,
    };
    let generation = match to.generation {
        Gen::Missing | Gen::Highest | Gen::Next | Gen::Lowest => true,
        Gen::Number(number) => is_numbered(number),
        _ => false,
    };
    parts.has_directory(to.directory.as_str()) && name && kind && generation
}

// Whether there is a directory of this name.
pub(crate) fn has(store: &Store, name: &Name) -> bool
    ensures { result ≡ has_directory name.now store.now.state.directories }
{
    store.parts().has_directory(name.as_str())
}

// Whether files can be put under a place's name and generation.
pub(crate) fn takes(store: &Store, to: &Place) -> bool
    ensures { result ≡ true → IsTarget to.now store.now.state.directories }
{
    is_target(to, &store.parts())
}

// Whether bytes can be put after the file of a place.
fn grows(store: &Store, to: &Place) -> bool
    ensures { result ≡ true → IsOneFile to.now store.now.state.directories }
{
    is_one_file(to, &store.parts())
}

// Whether the directory is there, or none is said.
fn is_there(store: &Store, directory: &Option<Name>) -> bool
    ensures { result ≡ true → IsThere directory.now store.now.state }
{
    match directory {
        Some(directory) => has(store, directory),
        None => true,
    }
}

// Whether a logical name may stand for a directory, or for none.
fn may_define(store: &Store, name: &Name, directory: &Option<Name>) -> bool
    ensures { result ≡ true → MayAct (commands.Define name.now directory.now) store.now.state }
{
    match directory {
        Some(directory) => is_logical_name(name.as_bytes()) && has(store, directory),
        None => true,
    }
}

fn is_day(after: Option<i32>) -> bool
    ensures { result ≡ is_day after }
{
    match after {
        Some(day) => 0 <= day && day <= AFTER_LIMIT,
        None => true,
    }
}

fn may_be_job(job: &Option<Name>) -> bool
    ensures { result ≡ may_be_job job.now }
{
    match job {
        Some(job) => is_file_name(job.as_bytes()),
        None => true,
    }
}

fn are_texts(note: &[u8]) -> bool
    ensures { result ≡ list_all is_text note.now }
{
    note.iter().all(|byte| is_text(*byte))
}

fn is_note(note: &[u8]) -> bool
    ensures { result ≡ (nat_le (length note.now) NAME_LIMIT && list_all is_text note.now) }
{
    note.len() <= NAME_LIMIT && are_texts(note)
}

// Whether this may be asked for with files that are printed.
fn may_ask(form: u8, after: Option<i32>, job: &Option<Name>, note: &Name) -> bool
    ensures { result ≡ true → MayAsk form after job.now note.now }
{
    form < FORMS && is_day(after) && may_be_job(job) && is_note(note.as_bytes())
}

// Whether a command can be done. BUILD is not asked for here.
pub(crate) fn may_act(store: &Store, command: &Command) -> bool
    ensures { result ≡ true → MayAct command.now store.now.state }
{
    match command {
        Command::Empty => true,
        Command::Append { from, to } => has(store, &from.directory) && grows(store, to),
        Command::Build { .. } => false,
        Command::Connect { directory } => has(store, directory),
        Command::Copy { from, to } => has(store, &from.directory) && takes(store, to),
        Command::CopyTty { to } => takes(store, to),
        Command::Define { name, directory } => may_define(store, name, directory),
        Command::Delete { files } => has(store, &files.directory),
        Command::Directory { files, .. } => has(store, &files.directory),
        Command::Expunge { directory } => is_there(store, directory),
        Command::Information { .. } => true,
        Command::Logout => true,
        Command::Print {
            files,
            form,
            after,
            job,
            note,
            ..
        } => has(store, &files.directory) && may_ask(*form, *after, job, note),
        Command::Remark => true,
        Command::Rename { from, to } => has(store, &from.directory) && takes(store, to),
        Command::Set { files, keep } => has(store, &files.directory) && *keep <= RETENTION_LIMIT,
        Command::Take { file } => has(store, &file.directory),
        Command::TypeOut { files } => has(store, &files.directory),
        Command::Undelete { files } => has(store, &files.directory),
    }
}
