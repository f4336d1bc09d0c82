// Tests of what a plan asks for.
ghost use Rattle.std.specs.Prelude.{◌≡◌, ◌==◌, ◌&&◌, true, length, nat_le, nat_lt};
ghost use Rattle.std.specs.List.{list_all, slice_split};
ghost use Rattle.cm_text.specs.Bytes.{is_text};
ghost use Rattle.cm_text.specs.declared.name.TheConstants.{NAME_LIMIT};
ghost use Rattle.cm_files.specs.Catalogue.{is_directory_name, is_upper_name};
ghost use Rattle.ex_store.specs.Plan.{IsOneFile, IsRequest, IsTarget, MayPlan, may_be_job};
ghost use Rattle.ex_store.specs.State.{has_directory};
ghost use Rattle.ex_store.specs.WellFormed.{is_day, is_file_name, is_file_type, is_numbered};

use cm_fields::Gen;
use cm_files::is_logical_name;
use cm_text::{NAME_LIMIT, Name, is_name, is_text};
use ex_generations::GENERATION_LIMIT;
use ex_store::{
    AFTER_LIMIT, COPIES_LIMIT, FORMS, Parts, Place, Plan, RETENTION_LIMIT, Request, Store,
};

fn is_upper_name(text: &[u8]) -> bool
    ensures { result ≡ is_upper_name text.now }
{
    text.iter()
        .all(|byte| is_name(*byte) && !byte.is_ascii_lowercase())
}

fn is_file_name(text: &[u8]) -> bool
    ensures { result ≡ is_file_name text.now }
{
    !text.is_empty() && text.len() <= NAME_LIMIT && is_upper_name(text)
}

fn is_file_type(text: &[u8]) -> bool
    ensures { result ≡ is_file_type text.now }
{
    text.len() <= NAME_LIMIT && is_upper_name(text)
}

fn is_part(text: &[u8]) -> bool
    ensures { result ≡ nat_lt 0 (length text.now) && is_upper_name text.now }
{
    text.len() > 0 && is_upper_name(text)
}

// Whether the parts between points are not empty, and made of the bytes of names.
fn are_parts(text: &[u8]) -> bool
    ensures { let parts = slice_split (λ byte. byte == 46) text.now in
        result ≡ list_all (λ part. nat_lt 0 (length part) && is_upper_name part) parts }
{
    text.split(|byte| *byte == b'.').all(|part| is_part(part))
}

fn is_directory_name(text: &[u8]) -> bool
    ensures { result ≡ is_directory_name text.now }
{
    text.len() <= NAME_LIMIT && are_parts(text)
}

fn is_numbered(generation: u32) -> bool
    ensures { result ≡ is_numbered generation }
{
    generation > 0 && generation <= GENERATION_LIMIT
}

/// Whether there is a directory of this name.
pub(crate) fn has(store: &Store, name: &str) -> bool
    ensures { result ≡ has_directory name.now store.now.state.directories }
{
    store.parts().has_directory(name)
}

// Whether files can be put under a place's name and generation.
fn is_target(to: &Place, parts: &Parts<'_>) -> bool
    ensures { result ≡ true → IsTarget to.now parts.now.directories }
{
    let name = match &to.name {
        Some(name) => name.as_bytes() == b"*".as_slice() || is_file_name(name.as_bytes()),
        None => true,
    };
    let kind = match &to.kind {
        Some(kind) => kind.as_bytes() == b"*".as_slice() || is_file_type(kind.as_bytes()),
        None => true,
    };
    let generation = match to.generation {
        Gen::Missing | Gen::Next => true,
        Gen::Number(number) => is_numbered(number),
        _ => false,
    };
    parts.has_directory(to.directory.as_str()) && name && kind && generation
}

// Whether bytes can be put after the one file of a place.
fn is_one_file(to: &Place, parts: &Parts<'_>) -> bool
    ensures { result ≡ true → IsOneFile to.now parts.now.directories }
{
    let name = match &to.name {
        Some(name) => is_file_name(name.as_bytes()),
        None => false,
    };
    let kind = match &to.kind {
        Some(kind) => is_file_type(kind.as_bytes()),
        None => true,
    };
    let generation = match to.generation {
        Gen::All => false,
        Gen::Number(number) => is_numbered(number),
        _ => true,
    };
    parts.has_directory(to.directory.as_str()) && name && kind && generation
}

fn is_day(after: Option<i32>) -> bool
    ensures { result ≡ is_day after }
{
    match after {
        Some(day) => 0 <= day && day <= AFTER_LIMIT,
        None => true,
    }
}

fn may_be_job(job: &Option<Name>) -> bool
    ensures { result ≡ may_be_job job.now }
{
    match job {
        Some(job) => is_file_name(job.as_bytes()),
        None => true,
    }
}

fn is_line(text: &[u8]) -> bool
    ensures { result ≡ list_all is_text text.now }
{
    text.iter().all(|byte| is_text(*byte))
}

fn is_note(note: &[u8]) -> bool
    ensures { result ≡ nat_le (length note.now) NAME_LIMIT && list_all is_text note.now }
{
    note.len() <= NAME_LIMIT && is_line(note)
}

// Whether files can be printed so.
fn is_request(request: &Request) -> bool
    ensures { result ≡ true → IsRequest request.now }
{
    let copies = 0 < request.copies && request.copies <= COPIES_LIMIT;
    let job = may_be_job(&request.job);
    let note = is_note(request.note.as_bytes());
    copies && request.form < FORMS && is_day(request.after) && job && note
}

/// Whether a plan can be prepared.
pub(super) fn may_plan(store: &Store, plan: &Plan) -> bool
    ensures { result ≡ true → MayPlan plan.now store.now.state }
{
    let parts = store.parts();
    match plan {
        Plan::Build {
            directory,
            retention,
        } => {
            is_directory_name(directory.as_bytes()) && retention.unwrap_or(0) <= RETENTION_LIMIT
        }
        Plan::Define { name, directory } => {
            is_logical_name(name.as_bytes()) && parts.has_directory(directory.as_str())
        }
        Plan::Copy { from, to } | Plan::Rename { from, to } => {
            parts.has_directory(from.directory.as_str()) && is_target(to, &parts)
        }
        Plan::Append { from, to } => {
            parts.has_directory(from.directory.as_str()) && is_one_file(to, &parts)
        }
        Plan::Write { to, .. } => is_target(to, &parts),
        Plan::Print { files, request } => {
            parts.has_directory(files.directory.as_str()) && is_request(request)
        }
    }
}
