// Users, directories and files.
ghost use Rattle.std.specs.Prelude.{◌≡◌, ◌+◌, ◌<◌, ◌≤◌, ◌==◌, Ok, drop, length, option_map};
ghost use Rattle.std.specs.List.{list_all, list_any, prefix_len};
ghost use Rattle.cm_files.specs.Fields.{directory, directory_of, directory_read, file, file_of, is_file, is_plain_path, is_user_named, moved, moved_spec, new_directory, refusal, user, user_named, user_of};
ghost use Rattle.cm_fields.specs.declared.value.Value.TheVariants as values;
ghost use Rattle.cm_files.specs.RowTrials.{passes_at};
ghost use Rattle.cm_files.specs.Spec.{IsPartOf, IsSpecOf};

use crate::parts::{is_path, stands_at};
use crate::resolution::has_wild;
use crate::{Flags, Names, SpecFault, by_device, by_directory, read_spec, resolve};
use cm_fields::{Code, FileKind, Span, Spec, Try, Value, said};
use cm_text::{LINE_LIMIT, TEXT_LIMIT, equals, is_name};

// Whether a byte may be in a file specification.
fn is_file(byte: u8) -> bool
    ensures { result ≡ is_file byte }
{
    is_path(byte) || byte == b':' || byte == b'<' || byte == b'>'
}

// How many bytes of a file specification a text begins with.
fn file_run(text: &[u8]) -> usize
    ensures value { result ≡ prefix_len is_file text.now }
    ensures within { result ≤ length text.now }
{
    text.iter().take_while(|byte| is_file(**byte)).count()
}

// Whether a byte may be in the name of a directory.
fn is_plain_path(byte: u8) -> bool
    ensures { result ≡ is_plain_path byte }
{
    is_name(byte) || byte == b'.'
}

// How many bytes of a directory's name a text begins with.
fn plain_run(text: &[u8]) -> usize
    ensures value { result ≡ prefix_len is_plain_path text.now }
    ensures within { result ≤ length text.now }
{
    text.iter().take_while(|byte| is_plain_path(**byte)).count()
}

// Whether a text is of such bytes alone.
fn are_plain(text: &[u8]) -> bool
    ensures { result ≡ list_all is_plain_path text.now }
{
    text.iter().all(|byte| is_plain_path(*byte))
}

// The refusal that a fault of a specification is.
fn refusal(fault: SpecFault) -> Code
    ensures { result ≡ refusal fault }
{
    match fault {
        SpecFault::Shape => Code::SpecShape,
        SpecFault::NameLong => Code::NameLong,
        SpecFault::GenRange => Code::GenRange,
    }
}

// A part of what stands from a place on, as a part of the whole text.
fn moved(at: u16, place: Span) -> Span
    requires start { at + place.start ≤ TEXT_LIMIT }
    requires end { at + place.end ≤ TEXT_LIMIT }
    ensures { result ≡ moved at place }
{
    Span {
        start: at + place.start,
        end: at + place.end,
    }
}

// The same of a part that may not be given.
fn moved_part(at: u16, size: usize, place: Option<Span>) -> Option<Span>
    requires part { IsPartOf size place }
    requires short { at + size ≤ TEXT_LIMIT }
    ensures { result ≡ option_map (moved at) place }
{
    match place {
        Some(place) => Some(moved(at, place)),
        None => None,
    }
}

// The file of a specification in a directory.
fn file_in(kind: FileKind, at: u16, size: usize, spec: Spec, directory: u16) -> Value
    requires parts { IsSpecOf size spec }
    requires short { at + size ≤ TEXT_LIMIT }
    ensures { result ≡ values.File kind (moved_spec at spec) directory }
{
    let spec = Spec {
        device: moved_part(at, size, spec.device),
        directory: moved_part(at, size, spec.directory),
        name: moved_part(at, size, spec.name),
        kind: moved_part(at, size, spec.kind),
        generation: spec.generation,
    };
    Value::File {
        kind,
        spec,
        directory,
    }
}

// What a run says as a file.
#[tactic(auto, unfolding(crate::specs::Fields::file_of))]
fn file_of<N: Names>(
    kind: FileKind,
    flags: Flags,
    names: &N,
    at: u16,
    run: &[u8],
) -> Result<Value, Code>
    requires run { length run.now ≤ LINE_LIMIT }
    requires short { at + length run.now ≤ TEXT_LIMIT }
    ensures { result ≡ file_of (N.catalogue names.now) kind flags at run.now }
{
    match read_spec(run) {
        Ok(spec) => {
            let directory = resolve(kind, flags, names, run, spec)?;
            Ok(file_in(kind, at, run.len(), spec, directory))
        }
        Err(fault) => Err(refusal(fault)),
    }
}

/// A file specification that is at the beginning of `rest`, which is what a text has from the place `at`
/// on: the function `file`, for a caller that has split the text.
pub fn file_after<N: Names>(kind: FileKind, flags: Flags, names: &N, rest: &[u8], at: u16) -> Try
    requires { at + length rest.now ≤ TEXT_LIMIT }
    ensures { result ≡ file (N.catalogue names.now) kind flags rest.now at }
{
    let size = file_run(rest);
    if size == rest.len() {
        return Try::More;
    }
    said(
        usize::from(at),
        size,
        size + 1,
        file_of(kind, flags, names, at, &rest[..size]),
    )
}

/// A file specification (.CMIFI, .CMOFI, .CMFIL): a run of name bytes, points, colons, angle brackets and
/// wildcards. Refused with SpecShape, NameLong and GenRange where it is none, and where it means none for the
/// first of these reasons: it has no name (SpecShape), a generation that cannot be read or written (GenRange),
/// a wildcard that may not be there (WildHere), the device TTY (Device), a device that is none (NoLogical),
/// a directory that is none (NoDirectory), and no file that is there to be read (NoFile).
pub fn file<N: Names>(kind: FileKind, flags: Flags, names: &N, text: &[u8], at: usize) -> Try
    requires short { length text.now ≤ TEXT_LIMIT }
    requires place { at ≤ length text.now }
    ensures { result ≡ file (N.catalogue names.now) kind flags (drop at text.now) at }
{
    file_after(kind, flags, names, text.split_at(at).1, at as u16)
}

// The value of a directory that may be a new one.
fn new_directory(at: u16, size: usize, place: Option<Span>) -> Result<Value, Code>
    requires part { IsPartOf size place }
    requires short { at + size ≤ TEXT_LIMIT }
    ensures { result ≡ new_directory at place }
{
    match place {
        Some(place) => Ok(Value::NewDirectory(moved(at, place))),
        None => Err(Code::SpecShape),
    }
}

// What a specification says as a directory.
fn directory_read<N: Names>(
    new: bool,
    names: &N,
    at: u16,
    run: &[u8],
    spec: Spec,
) -> Result<Value, Code>
    requires parts { IsSpecOf (length run.now) spec }
    requires short { at + length run.now ≤ TEXT_LIMIT }
    ensures { result ≡ directory_read new (N.catalogue names.now) at run.now (Ok spec) }
{
    if spec.name.is_some() || (new && spec.directory.is_none()) {
        return Err(Code::SpecShape);
    }
    if has_wild(run, spec.directory) {
        return Err(Code::WildHere);
    }
    let meant = by_device(names, run, spec.device)?;
    if new {
        return new_directory(at, run.len(), spec.directory);
    }
    let directory = by_directory(names, run, spec.directory, meant)?;
    Ok(Value::Directory(directory))
}

// What a run says as a directory.
#[tactic(auto, unfolding(crate::specs::Fields::directory_of))]
fn directory_of<N: Names>(new: bool, names: &N, at: u16, run: &[u8]) -> Result<Value, Code>
    requires run { length run.now ≤ LINE_LIMIT }
    requires short { at + length run.now ≤ TEXT_LIMIT }
    ensures { result ≡ directory_of new (N.catalogue names.now) at run.now }
{
    if !new && !run.is_empty() && are_plain(run) {
        return Err(Code::NoDirectory);
    }
    match read_spec(run) {
        Ok(spec) => directory_read(new, names, at, run, spec),
        Err(fault) => Err(refusal(fault)),
    }
}

/// A directory that is at the beginning of `rest`, which is what a text has from the place `at` on: the
/// function `directory`, for a caller that has split the text.
pub fn directory_after<N: Names>(new: bool, names: &N, rest: &[u8], at: u16) -> Try
    requires { at + length rest.now ≤ TEXT_LIMIT }
    ensures { result ≡ directory new (N.catalogue names.now) rest.now at }
{
    let size = file_run(rest);
    if size == rest.len() {
        return Try::More;
    }
    said(
        usize::from(at),
        size,
        size + 1,
        directory_of(new, names, at, &rest[..size]),
    )
}

/// A directory (.CMDIR): `device:<directory>`, either of which may be left out. With `new` the directory is
/// named and may be a new one, and the field is its name. Refused with NoDirectory where it is a bare name or
/// names a directory that is not there, and neither with `new`; with SpecShape, NameLong and GenRange where it
/// is no specification, or one with a name; with WildHere for a wildcard; with Device and NoLogical as a file.
pub fn directory<N: Names>(new: bool, names: &N, text: &[u8], at: usize) -> Try
    requires short { length text.now ≤ TEXT_LIMIT }
    requires place { at ≤ length text.now }
    ensures { result ≡ directory new (N.catalogue names.now) (drop at text.now) at }
{
    directory_after(new, names, text.split_at(at).1, at as u16)
}

// Whether a text has a point.
fn has_point(text: &[u8]) -> bool
    ensures { result ≡ list_any (λ byte. byte == 46) text.now }
{
    text.iter().any(|byte| *byte == b'.')
}

// Whether the directory with this number is that of the user with this name.
fn is_user_at<N: Names>(names: &N, i: u16, name: &[u8]) -> bool
    requires { i < length (N.catalogue names.now).directories }
    ensures { result ≡ passes_at (is_user_named name.now) (N.catalogue names.now).directories i }
{
    let directory = names.directory(i).as_bytes();
    !has_point(directory) && equals(directory, name)
}

// The number of the user with this name.
#[tactic(auto, using(crate::proofs::Walks::first_walk))]
fn user_named<N: Names>(names: &N, name: &[u8]) -> Option<u16>
    ensures { result ≡ user_named (N.catalogue names.now) name.now }
{
    for i in 0..names.directories() {
        if is_user_at(names, i, name) {
            return Some(i);
        }
    }
    None
}

// What a run says as a user.
#[tactic(auto, unfolding(crate::specs::Fields::user_of))]
fn user_of<N: Names>(names: &N, has_colon: bool, run: &[u8]) -> Result<Value, Code>
    ensures { result ≡ user_of (N.catalogue names.now) has_colon run.now }
{
    if has_colon {
        return Err(Code::NoUser);
    }
    match user_named(names, run) {
        Some(directory) => Ok(Value::User(directory)),
        None => Err(Code::NoUser),
    }
}

/// A user (.CMUSR): the name of a directory without a point, with no regard to the case of letters, after
/// which no colon stands. Refused with NoUser where there is no such directory.
pub fn user<N: Names>(names: &N, text: &[u8], at: usize) -> Try
    requires short { length text.now ≤ TEXT_LIMIT }
    requires place { at ≤ length text.now }
    ensures { result ≡ user (N.catalogue names.now) (drop at text.now) at }
{
    let rest = &text[at..];
    let size = plain_run(rest);
    if size == rest.len() {
        return Try::More;
    }
    said(
        at,
        size,
        size + 1,
        user_of(names, stands_at(rest, size, b':'), &rest[..size]),
    )
}
