// How a user, a directory or a file goes on that is begun.
ghost use Rattle.std.specs.Prelude.{◌≡◌, ◌≤◌, ◌<◌, ◌==◌, IfOk, length};
ghost use Rattle.std.specs.Bool.{OnTrue};
ghost use Rattle.std.specs.List.{list_any, prefix_len};
ghost use Rattle.cm_text.specs.Bytes.{is_name};
ghost use Rattle.std.specs.Option.{option_copied};
ghost use Rattle.cm_files.specs.Catalogue.{rows_of};
ghost use Rattle.cm_files.specs.Pattern.{is_wild};
ghost use Rattle.cm_files.specs.Spec.{IsPartOf, IsSpecOf, device_read, part_or_nothing, read_spec, stands_at};
ghost use Rattle.cm_recognise.specs.FileOutcome.{after_kind, after_name, as_piece, by_kind, by_spec, completed, directory_outcome, file_outcome, generation_outcome, kind_step, meant, name_step, named_directory, opened, unclosed, user_outcome};
ghost use Rattle.cm_recognise.specs.Candidates.{IsFound, found_kinds, found_names};
ghost use Rattle.cm_recognise.specs.Outcome.{IsShort};

use crate::digits::decimal;
use crate::found::{Found, found_directories, found_kinds, found_names, found_users, highest};
use crate::outcome::{Outcome, TAIL_LIMIT, missing};
use crate::{Bytes, Mode};
use cm_fields::{Code, FileKind, Span, Spec};
use cm_files::{Flags, Names, by_device, by_directory, has_bad_wild, part, read_spec};
use cm_text::{LINE_LIMIT, is_name};

/// What is asked of a file: by which key, by a block for which files, and where the block leads.
#[derive(Clone, Copy)]
pub(crate) struct Request {
    pub mode: Mode,
    pub kind: FileKind,
    pub flags: Flags,
    pub next: u16,
}

// What is found goes on after what is typed, and where it is one to what closes it.
fn completed(found: Found, typed: &[u8], close: &[u8], next: u16) -> Outcome
    requires found { IsFound found }
    requires close { length close.now ≤ 1 }
    ensures value { result ≡ completed next typed.now close.now found }
    ensures short { IsShort TAIL_LIMIT result }
{
    match found {
        Found::Nobody => Outcome::Nothing,
        Found::One(text) => {
            let mut bytes = missing(text.as_slice(), typed);
            bytes.append(close);
            Outcome::Whole { bytes, next }
        }
        Found::Several(front) => Outcome::Part(missing(front.as_slice(), typed)),
    }
}

/// How a user goes on (.CMUSR): with the rest of the one name that begins so, or as far as several go on alike.
#[tactic(auto, unfolding(crate::specs::FileOutcome::user_outcome))]
pub(crate) fn user_outcome<N: Names>(names: &N, next: u16, atom: &[u8]) -> Outcome
    ensures value { result ≡ user_outcome (N.catalogue names.now) next atom.now }
    ensures short { IsShort TAIL_LIMIT result }
{
    completed(found_users(names, atom), atom, b"", next)
}

// How many name bytes a text begins with.
fn name_run(text: &[u8]) -> usize
    ensures value { result ≡ prefix_len is_name text.now }
    ensures within { result ≤ length text.now }
{
    text.iter().take_while(|byte| is_name(**byte)).count()
}

// Whether a colon is at a place.
fn colon_at(text: &[u8], place: usize) -> bool
    ensures value { result ≡ stands_at text.now place 58 }
    ensures within { OnTrue result (place < length text.now) }
{
    match text.get(place) {
        Some(byte) => *byte == b':',
        None => false,
    }
}

// Where a device ends that an atom begins with.
fn device_len(atom: &[u8]) -> usize
    requires { length atom.now ≤ LINE_LIMIT }
    ensures value { result ≡ (device_read atom.now).next }
    ensures within { result ≤ length atom.now }
{
    let size = name_run(atom);
    if size > 0 && colon_at(atom, size) {
        size + 1
    } else {
        0
    }
}

// Whether a closing angle bracket is in a text.
fn is_closed(text: &[u8]) -> bool
    ensures { result ≡ list_any (λ byte. byte == 62) text.now }
{
    text.iter().any(|byte| *byte == b'>')
}

// What is after an opening angle bracket that is not closed.
fn unclosed(text: &[u8]) -> Option<&[u8]>
    ensures value { option_copied result ≡ unclosed text.now }
{
    match text {
        [b'<', typed @ ..] if !is_closed(typed) => Some(typed),
        _ => None,
    }
}

// The same where a device may be before it.
fn opened(atom: &[u8]) -> Option<&[u8]>
    requires { length atom.now ≤ LINE_LIMIT }
    ensures { option_copied result ≡ opened atom.now }
{
    unclosed(&atom[device_len(atom)..])
}

// How the name of a directory goes on.
fn named_directory<N: Names>(names: &N, next: u16, typed: &[u8]) -> Outcome
    ensures value { result ≡ named_directory (N.catalogue names.now) next typed.now }
    ensures short { IsShort TAIL_LIMIT result }
{
    completed(found_directories(names, typed), typed, b">", next)
}

/// How a directory goes on (.CMDIR): where its name is begun after an angle bracket as a user does, and to the closing
/// bracket; else as `plain` says, and so where the block may name a new one.
#[tactic(auto, unfolding(crate::specs::FileOutcome::directory_outcome))]
pub(crate) fn directory_outcome<N: Names>(
    names: &N,
    new: bool,
    next: u16,
    atom: &[u8],
    plain: Outcome,
) -> Outcome
    requires atom { length atom.now ≤ LINE_LIMIT }
    requires plain { IsShort TAIL_LIMIT plain }
    ensures value { result ≡ directory_outcome (N.catalogue names.now) new next atom.now plain }
    ensures short { IsShort TAIL_LIMIT result }
{
    if new {
        return plain;
    }
    match opened(atom) {
        Some(typed) => named_directory(names, next, typed),
        None => plain,
    }
}

// All generations, where the block means all by none, or else this one.
fn generation_outcome(request: Request, gathered: Bytes, generation: u32) -> Outcome
    requires { length gathered ≤ 80 }
    ensures value { result ≡ generation_outcome request gathered generation }
    ensures short { IsShort TAIL_LIMIT result }
{
    let mut bytes = gathered;
    if request.flags.all_generations {
        bytes.append(b"*");
    } else {
        bytes.append(decimal(generation).as_slice());
    }
    Outcome::Whole {
        bytes,
        next: request.next,
    }
}

// After a type and its point ESC goes on with the generation.
fn after_kind<N: Names>(
    request: Request,
    names: &N,
    directory: u16,
    gathered: Bytes,
    name: &[u8],
    kind: &[u8],
) -> Outcome
    requires directory { directory < length (N.catalogue names.now).directories }
    requires gathered { length gathered ≤ 80 }
    ensures value { result ≡ after_kind request.mode request (rows_of (N.catalogue names.now) directory) gathered
        name.now kind.now }
    ensures short { IsShort TAIL_LIMIT result }
{
    match request.mode {
        Mode::Part => Outcome::Piece(gathered),
        Mode::Escape => match highest(names, directory, request.flags.deleted, name, kind) {
            Some(generation) => generation_outcome(request, gathered, generation),
            None => Outcome::Part(gathered),
        },
    }
}

// After the first point: the types of this name that begin with what is typed.
fn kind_step<N: Names>(
    request: Request,
    names: &N,
    directory: u16,
    gathered: Bytes,
    name: &[u8],
    typed: &[u8],
) -> Outcome
    requires directory { directory < length (N.catalogue names.now).directories }
    requires gathered { length gathered ≤ 40 }
    ensures value { let rows = rows_of (N.catalogue names.now) directory in
        result ≡ kind_step request rows gathered name.now typed.now
        (found_kinds rows request.flags.deleted name.now typed.now) }
    ensures short { IsShort TAIL_LIMIT result }
{
    let mut bytes = gathered;
    match found_kinds(names, directory, request.flags.deleted, name, typed) {
        Found::Nobody => Outcome::Part(bytes),
        Found::One(kind) => {
            let mut rest = missing(kind.as_slice(), typed);
            rest.append(b".");
            bytes.append(rest.as_slice());
            after_kind(request, names, directory, bytes, name, kind.as_slice())
        }
        Found::Several(front) => {
            bytes.append(missing(front.as_slice(), typed).as_slice());
            Outcome::Part(bytes)
        }
    }
}

// After a name and its point ESC goes on with the type.
fn after_name<N: Names>(
    request: Request,
    names: &N,
    directory: u16,
    gathered: Bytes,
    name: &[u8],
) -> Outcome
    requires directory { directory < length (N.catalogue names.now).directories }
    requires gathered { length gathered ≤ 40 }
    ensures value { result ≡ after_name request.mode request (rows_of (N.catalogue names.now) directory) gathered
        name.now }
    ensures short { IsShort TAIL_LIMIT result }
{
    match request.mode {
        Mode::Part => Outcome::Piece(gathered),
        Mode::Escape => kind_step(request, names, directory, gathered, name, b""),
    }
}

// Before the first point: the names that begin with what is typed.
fn name_step<N: Names>(request: Request, names: &N, directory: u16, typed: &[u8]) -> Outcome
    requires directory { directory < length (N.catalogue names.now).directories }
    ensures value { let rows = rows_of (N.catalogue names.now) directory in
        result ≡ name_step request rows typed.now (found_names rows request.flags.deleted typed.now) }
    ensures short { IsShort TAIL_LIMIT result }
{
    match found_names(names, directory, request.flags.deleted, typed) {
        Found::Nobody => Outcome::Nothing,
        Found::One(name) => {
            let mut bytes = missing(name.as_slice(), typed);
            bytes.append(b".");
            after_name(request, names, directory, bytes, name.as_slice())
        }
        Found::Several(front) => Outcome::Part(missing(front.as_slice(), typed)),
    }
}

// By the type that is typed.
fn by_kind<N: Names>(
    request: Request,
    names: &N,
    directory: u16,
    atom: &[u8],
    name: &[u8],
    kind: Option<Span>,
    plain: Outcome,
) -> Outcome
    requires directory { directory < length (N.catalogue names.now).directories }
    requires kind { IsPartOf (length atom.now) kind }
    requires plain { IsShort TAIL_LIMIT plain }
    ensures value { result ≡ by_kind request (rows_of (N.catalogue names.now) directory) atom.now name.now plain kind }
    ensures short { IsShort TAIL_LIMIT result }
{
    let Some(place) = kind else {
        return name_step(request, names, directory, name);
    };
    let kind = part(atom, place);
    let end = usize::from(place.end);
    if end == atom.len() {
        return kind_step(request, names, directory, Bytes::new(), name, kind);
    }
    if end + 1 != atom.len() {
        return plain;
    }
    match highest(names, directory, request.flags.deleted, name, kind) {
        Some(generation) => generation_outcome(request, Bytes::new(), generation),
        None => plain,
    }
}

// The directory that is meant, or a refusal.
fn meant<N: Names>(request: Request, names: &N, atom: &[u8], spec: Spec) -> Result<u16, Code>
    requires { IsSpecOf (length atom.now) spec }
    ensures value { result ≡ meant (N.catalogue names.now) request atom.now spec }
    ensures within { IfOk result (λ directory. directory < length (N.catalogue names.now).directories) }
{
    if has_bad_wild(request.kind, request.flags, atom, spec) {
        return Err(Code::WildHere);
    }
    let device = by_device(names, atom, spec.device)?;
    by_directory(names, atom, spec.directory, device)
}

// The bytes of a name that may not be given.
fn name_part(atom: &[u8], place: Option<Span>) -> &[u8]
    requires { IsPartOf (length atom.now) place }
    ensures { result.now ≡ part_or_nothing atom.now place }
{
    match place {
        Some(place) => part(atom, place),
        None => b"",
    }
}

// How a specification goes on.
fn by_spec<N: Names>(request: Request, names: &N, atom: &[u8], plain: Outcome) -> Outcome
    requires atom { length atom.now ≤ LINE_LIMIT }
    requires plain { IsShort TAIL_LIMIT plain }
    ensures value { result ≡ by_spec (N.catalogue names.now) request atom.now plain (read_spec atom.now) }
    ensures short { IsShort TAIL_LIMIT result }
{
    let Ok(spec) = read_spec(atom) else {
        return Outcome::Nothing;
    };
    match meant(request, names, atom, spec) {
        Ok(directory) => {
            let name = name_part(atom, spec.name);
            by_kind(request, names, directory, atom, name, spec.kind, plain)
        }
        Err(_) => Outcome::Nothing,
    }
}

// A file goes on after its directory.
fn as_piece(outcome: Outcome) -> Outcome
    requires { IsShort TAIL_LIMIT outcome }
    ensures value { result ≡ as_piece outcome }
    ensures short { IsShort TAIL_LIMIT result }
{
    match outcome {
        Outcome::Whole { bytes, .. } => Outcome::Piece(bytes),
        Outcome::Piece(bytes) => Outcome::Piece(bytes),
        Outcome::Part(bytes) => Outcome::Part(bytes),
        Outcome::Nothing => Outcome::Nothing,
    }
}

// Whether a wildcard is in a text.
fn is_wild(text: &[u8]) -> bool
    ensures { result ≡ list_any is_wild text.now }
{
    text.iter().any(|byte| *byte == b'*' || *byte == b'%')
}

/// How a file goes on that is there or may be there (.CMIFI, .CMFIL). A directory that is begun goes on to its closing
/// bracket. Else ESC goes on with the name, the type and the generation, from the one that is begun to the first of
/// which there are several, and control-F to the next point. A file with a wildcard goes on in no way; one of which the
/// generation is typed, as `plain` says.
#[tactic(auto, unfolding(crate::specs::FileOutcome::file_outcome))]
pub(crate) fn file_outcome<N: Names>(
    request: Request,
    names: &N,
    atom: &[u8],
    plain: Outcome,
) -> Outcome
    requires atom { length atom.now ≤ LINE_LIMIT }
    requires plain { IsShort TAIL_LIMIT plain }
    ensures value { result ≡ file_outcome (N.catalogue names.now) request atom.now plain }
    ensures short { IsShort TAIL_LIMIT result }
{
    if is_wild(atom) {
        return Outcome::Nothing;
    }
    match opened(atom) {
        Some(typed) => as_piece(named_directory(names, request.next, typed)),
        None => by_spec(request, names, atom, plain),
    }
}
