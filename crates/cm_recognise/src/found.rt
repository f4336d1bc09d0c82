// Users, directories, names, types and generations of a catalogue that what is typed may go on as.
ghost use Rattle.std.specs.Prelude.{◌≡◌, ◌<◌, ◌≤◌, ◌==◌, None, length, option_and_then, slice_get};
ghost use Rattle.std.specs.List.{list_any};
ghost use Rattle.cm_tables.specs.Common.{shared};
ghost use Rattle.cm_files.specs.Catalogue.{rows_of};
ghost use Rattle.cm_recognise.specs.Candidates.{IsFound, directory_like, found_directories, found_kinds, found_names, found_users, generation_like, greater, highest, kind_like, name_like, user_like, with_some, with_text};

use crate::Bytes;
use cm_files::Names;
use cm_text::{NAME_LIMIT, begins_with, common_len, equals};

/// What texts say together that begin with what is typed.
#[derive(Drop)]
pub(crate) enum Found {
    /// There is none.
    Nobody,
    /// There is one, which may be there more than once.
    One(Bytes),
    /// There are several, and this is the longest text with which each of them begins.
    Several(Bytes),
}

// The longest text that both begin with.
fn shared(text: &[u8], other: &[u8]) -> Bytes
    requires { length text.now ≤ NAME_LIMIT }
    ensures value { result ≡ shared text.now other.now }
    ensures short { length result ≤ NAME_LIMIT }
{
    Bytes::of(&text[..common_len(text, other)])
}

// One text more.
fn with_text(found: Found, text: &[u8]) -> Found
    requires found { IsFound found }
    requires text { length text.now ≤ NAME_LIMIT }
    ensures value { result ≡ with_text found text.now }
    ensures short { IsFound result }
{
    match found {
        Found::Nobody => Found::One(Bytes::of(text)),
        Found::One(bytes) => {
            if bytes.as_slice() == text {
                Found::One(bytes)
            } else {
                Found::Several(shared(bytes.as_slice(), text))
            }
        }
        Found::Several(front) => Found::Several(shared(front.as_slice(), text)),
    }
}

// The directory with this number besides, if it begins with what is typed.
fn with_directory<N: Names>(found: Found, names: &N, i: u16, typed: &[u8]) -> Found
    requires found { IsFound found }
    requires directory { i < length (N.catalogue names.now).directories }
    ensures value { result ≡ with_some with_text found
        (option_and_then (directory_like typed.now) (slice_get (N.catalogue names.now).directories i)) }
    ensures short { IsFound result }
{
    let name = names.directory(i).as_bytes();
    if begins_with(name, typed) {
        with_text(found, name)
    } else {
        found
    }
}

/// What the directories say that begin with what is typed.
#[tactic(auto, using(crate::proofs::Gathers::gather_next, crate::proofs::Gathers::gather_past))]
pub(crate) fn found_directories<N: Names>(names: &N, typed: &[u8]) -> Found
    ensures value { result ≡ found_directories (N.catalogue names.now) typed.now }
    ensures short { IsFound result }
{
    let mut found = Found::Nobody;
    for i in 0..names.directories() {
        found = with_directory(found, names, i, typed);
    }
    found
}

// Whether a text has a point, as the name of no user does.
fn has_point(text: &[u8]) -> bool
    ensures { result ≡ list_any (λ byte. byte == 46) text.now }
{
    text.iter().any(|byte| *byte == b'.')
}

// The user who is the directory with this number besides, if there is one who begins with what is typed.
fn with_user<N: Names>(found: Found, names: &N, i: u16, typed: &[u8]) -> Found
    requires found { IsFound found }
    requires directory { i < length (N.catalogue names.now).directories }
    ensures value { result ≡ with_some with_text found
        (option_and_then (user_like typed.now) (slice_get (N.catalogue names.now).directories i)) }
    ensures short { IsFound result }
{
    let name = names.directory(i).as_bytes();
    if !has_point(name) && begins_with(name, typed) {
        with_text(found, name)
    } else {
        found
    }
}

/// What the users say that begin with what is typed.
#[tactic(auto, using(crate::proofs::Gathers::gather_next, crate::proofs::Gathers::gather_past))]
pub(crate) fn found_users<N: Names>(names: &N, typed: &[u8]) -> Found
    ensures value { result ≡ found_users (N.catalogue names.now) typed.now }
    ensures short { IsFound result }
{
    let mut found = Found::Nobody;
    for i in 0..names.directories() {
        found = with_user(found, names, i, typed);
    }
    found
}

// The name of a row besides, if it begins with what is typed.
fn with_name<N: Names>(
    found: Found,
    names: &N,
    directory: u16,
    i: u32,
    deleted: bool,
    typed: &[u8],
) -> Found
    requires found { IsFound found }
    requires directory { directory < length (N.catalogue names.now).directories }
    requires row { i < length (rows_of (N.catalogue names.now) directory) }
    ensures value { result ≡ with_some with_text found
        (option_and_then (name_like deleted typed.now) (slice_get (rows_of (N.catalogue names.now) directory) i)) }
    ensures short { IsFound result }
{
    let row = names.row(directory, i);
    let name = row.name.as_bytes();
    if row.deleted == deleted && begins_with(name, typed) {
        with_text(found, name)
    } else {
        found
    }
}

/// What the names of the files of a directory say that begin with what is typed; of those that are marked deleted, or
/// of the others.
#[tactic(auto, using(crate::proofs::Gathers::gather_next, crate::proofs::Gathers::gather_past))]
pub(crate) fn found_names<N: Names>(names: &N, directory: u16, deleted: bool, typed: &[u8]) -> Found
    requires { directory < length (N.catalogue names.now).directories }
    ensures value { result ≡ found_names (rows_of (N.catalogue names.now) directory) deleted typed.now }
    ensures short { IsFound result }
{
    let mut found = Found::Nobody;
    for i in 0..names.rows(directory) {
        found = with_name(found, names, directory, i, deleted, typed);
    }
    found
}

// The type of a row besides, if the row has this name and its type begins with what is typed.
fn with_kind<N: Names>(
    found: Found,
    names: &N,
    directory: u16,
    i: u32,
    deleted: bool,
    name: &[u8],
    typed: &[u8],
) -> Found
    requires found { IsFound found }
    requires directory { directory < length (N.catalogue names.now).directories }
    requires row { i < length (rows_of (N.catalogue names.now) directory) }
    ensures value { result ≡ with_some with_text found (option_and_then (kind_like deleted name.now typed.now)
        (slice_get (rows_of (N.catalogue names.now) directory) i)) }
    ensures short { IsFound result }
{
    let row = names.row(directory, i);
    let kind = row.kind.as_bytes();
    if row.deleted == deleted && equals(row.name.as_bytes(), name) && begins_with(kind, typed) {
        with_text(found, kind)
    } else {
        found
    }
}

/// What the types of the files of one name say that begin with what is typed.
#[tactic(auto, using(crate::proofs::Gathers::gather_next, crate::proofs::Gathers::gather_past))]
pub(crate) fn found_kinds<N: Names>(
    names: &N,
    directory: u16,
    deleted: bool,
    name: &[u8],
    typed: &[u8],
) -> Found
    requires { directory < length (N.catalogue names.now).directories }
    ensures value { result ≡ found_kinds (rows_of (N.catalogue names.now) directory) deleted name.now typed.now }
    ensures short { IsFound result }
{
    let mut found = Found::Nobody;
    for i in 0..names.rows(directory) {
        found = with_kind(found, names, directory, i, deleted, name, typed);
    }
    found
}

// The greater of a number and those before it.
fn greater(highest: Option<u32>, number: u32) -> Option<u32>
    ensures { result ≡ greater highest number }
{
    match highest {
        Some(most) => Some(most.max(number)),
        None => Some(number),
    }
}

// The generation of a row besides, if the row has this name and type.
fn with_generation<N: Names>(
    highest: Option<u32>,
    names: &N,
    directory: u16,
    i: u32,
    deleted: bool,
    name: &[u8],
    kind: &[u8],
) -> Option<u32>
    requires directory { directory < length (N.catalogue names.now).directories }
    requires row { i < length (rows_of (N.catalogue names.now) directory) }
    ensures { result ≡ with_some greater highest (option_and_then (generation_like deleted name.now kind.now)
        (slice_get (rows_of (N.catalogue names.now) directory) i)) }
{
    let row = names.row(directory, i);
    if row.deleted == deleted
        && (equals(row.name.as_bytes(), name) && equals(row.kind.as_bytes(), kind))
    {
        greater(highest, row.generation)
    } else {
        highest
    }
}

/// The highest generation of the files of one name and type, which are marked deleted or are not.
#[tactic(auto, using(crate::proofs::Gathers::gather_next, crate::proofs::Gathers::gather_past))]
pub(crate) fn highest<N: Names>(
    names: &N,
    directory: u16,
    deleted: bool,
    name: &[u8],
    kind: &[u8],
) -> Option<u32>
    requires { directory < length (N.catalogue names.now).directories }
    ensures { result ≡ highest (rows_of (N.catalogue names.now) directory) deleted name.now kind.now }
{
    let mut highest = None;
    for i in 0..names.rows(directory) {
        highest = with_generation(highest, names, directory, i, deleted, name, kind);
    }
    highest
}
