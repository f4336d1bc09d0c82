// What a file specification means in a catalogue.
ghost use Rattle.std.specs.Prelude.{◌≡◌, ◌<◌, ◌&&◌, not, IfOk, IfSome, length, option_copied};
ghost use Rattle.std.specs.List.{list_any};
ghost use Rattle.cm_files.specs.Catalogue.{rows_of};
ghost use Rattle.cm_files.specs.Pattern.{is_wild};
ghost use Rattle.cm_files.specs.Resolve.{by_device, by_directory, directory_named, has_bad_copy, has_bad_wild, has_wild, has_wild_and_more, is_all, is_bad_generation, is_in, is_named, lacks_name, resolve, wanted_by, wanted_kind, wanted_name};
ghost use Rattle.cm_files.specs.Selection.{selects, wanted};
ghost use Rattle.cm_files.specs.RowTrials.{passes_at};
ghost use Rattle.cm_files.specs.Spec.{IsPartOf, IsSpecOf};

use crate::{Flags, Names, Sought, part, selects};
use cm_fields::{Code, FileKind, Gen, Span, Spec};
use cm_text::equals;

// Whether a text has a wildcard.
fn is_wild(text: &[u8]) -> bool
    ensures { result ≡ list_any is_wild text.now }
{
    text.iter().any(|byte| *byte == b'*' || *byte == b'%')
}

/// Whether a part of a text is given that has a wildcard.
pub(crate) fn has_wild(atom: &[u8], place: Option<Span>) -> bool
    requires { IsPartOf (length atom.now) place }
    ensures { result ≡ has_wild atom.now place }
{
    match place {
        Some(place) => is_wild(part(atom, place)),
        None => false,
    }
}

// Whether a part is given that has a wildcard and is not `*` alone.
fn has_wild_and_more(atom: &[u8], place: Option<Span>) -> bool
    requires { IsPartOf (length atom.now) place }
    ensures { result ≡ has_wild_and_more atom.now place }
{
    match place {
        Some(place) => {
            let text = part(atom, place);
            is_wild(text) && !equals(text, b"*")
        }
        None => false,
    }
}

fn is_all(generation: Gen) -> bool
    ensures { result ≡ is_all generation }
{
    match generation {
        Gen::All => true,
        Gen::Missing | Gen::Highest | Gen::Next | Gen::Lowest | Gen::Number(_) => false,
    }
}

// Whether a file is wanted and none is named.
fn lacks_name(flags: Flags, spec: Spec) -> bool
    ensures { result ≡ lacks_name flags spec }
{
    spec.name.is_none() && !(flags.default_all || flags.from_source)
}

// Whether a generation cannot be read, or cannot be written.
fn is_bad_generation(kind: FileKind, generation: Gen) -> bool
    ensures { result ≡ is_bad_generation kind generation }
{
    match (kind, generation) {
        (FileKind::In, Gen::Next) => true,
        (FileKind::Out, Gen::Highest) => true,
        (FileKind::Out, Gen::Lowest) => true,
        _ => false,
    }
}

// Whether a wildcard is where none may in a file that is written.
fn has_bad_copy(kind: FileKind, atom: &[u8], spec: Spec) -> bool
    requires { IsSpecOf (length atom.now) spec }
    ensures { result ≡ has_bad_copy kind atom.now spec }
{
    match kind {
        FileKind::Out => {
            is_all(spec.generation)
                || has_wild_and_more(atom, spec.name)
                || has_wild_and_more(atom, spec.kind)
        }
        FileKind::In => false,
        FileKind::Any => false,
    }
}

/// Whether a wildcard is where none may: in a directory; in a name, a type or a generation, where the
/// flags do not allow them; in a file that is written, where it is the generation or a part of a longer text.
pub fn has_bad_wild(kind: FileKind, flags: Flags, atom: &[u8], spec: Spec) -> bool
    requires { IsSpecOf (length atom.now) spec }
    ensures { result ≡ has_bad_wild kind flags atom.now spec }
{
    has_wild(atom, spec.directory)
        || (!flags.wild
            && (has_wild(atom, spec.name) || has_wild(atom, spec.kind) || is_all(spec.generation)))
        || has_bad_copy(kind, atom, spec)
}

/// The directory that a device means, the part of a text at `place`: the connected one for PS, DSK and no
/// device, that of a logical name. TTY is refused with Device, and any other with NoLogical.
pub fn by_device<N: Names>(names: &N, atom: &[u8], place: Option<Span>) -> Result<u16, Code>
    requires { IsPartOf (length atom.now) place }
    ensures value { result ≡ by_device (N.catalogue names.now) atom.now place }
    ensures within { IfOk result (λ directory. directory < length (N.catalogue names.now).directories) }
{
    let Some(place) = place else {
        return Ok(names.connected());
    };
    let device = part(atom, place);
    if equals(device, b"TTY") {
        return Err(Code::Device);
    }
    if equals(device, b"PS") || equals(device, b"DSK") {
        return Ok(names.connected());
    }
    names.logical(device).ok_or(Code::NoLogical)
}

// Whether the directory with this number has this name.
fn is_named_at<N: Names>(names: &N, i: u16, name: &[u8]) -> bool
    requires { i < length (N.catalogue names.now).directories }
    ensures { result ≡ passes_at (is_named name.now) (N.catalogue names.now).directories i }
{
    equals(names.directory(i).as_bytes(), name)
}

// The number of the directory with this name.
#[tactic(auto, using(crate::proofs::Walks::first_walk))]
fn directory_named<N: Names>(names: &N, name: &[u8]) -> Option<u16>
    ensures value { result ≡ directory_named (N.catalogue names.now) name.now }
    ensures within { IfSome result (λ directory. directory < length (N.catalogue names.now).directories) }
{
    for i in 0..names.directories() {
        if is_named_at(names, i, name) {
            return Some(i);
        }
    }
    None
}

/// The directory that a specification names, the part of a text at `place`, with no regard to the case of
/// letters; where it names none, the one that its device means. Refused with NoDirectory where there is no
/// such directory.
pub fn by_directory<N: Names>(
    names: &N,
    atom: &[u8],
    place: Option<Span>,
    meant: u16,
) -> Result<u16, Code>
    requires part { IsPartOf (length atom.now) place }
    requires meant { meant < length (N.catalogue names.now).directories }
    ensures value { result ≡ by_directory (N.catalogue names.now) atom.now place meant }
    ensures within { IfOk result (λ directory. directory < length (N.catalogue names.now).directories) }
{
    match place {
        Some(place) => directory_named(names, part(atom, place)).ok_or(Code::NoDirectory),
        None => Ok(meant),
    }
}

// The pattern of a name.
fn wanted_name<'a>(flags: Flags, atom: &'a [u8], place: Option<Span>) -> Option<&'a [u8]>
    requires { IsPartOf (length atom.now) place }
    ensures { option_copied result ≡ wanted_name flags atom.now place }
{
    match place {
        Some(place) => Some(part(atom, place)),
        None if flags.default_all => Some(b"*"),
        None => None,
    }
}

// The pattern of a type.
fn wanted_kind<'a>(flags: Flags, atom: &'a [u8], place: Option<Span>) -> &'a [u8]
    requires { IsPartOf (length atom.now) place }
    ensures { result.now ≡ wanted_kind flags atom.now place }
{
    match place {
        Some(place) => part(atom, place),
        None if flags.default_all => b"*",
        None => b"",
    }
}

/// What files a specification looks for: its name and type, `*` for each that it lacks where the flags say so,
/// else no file and the empty type; its generation; and the marks that the flags say.
pub fn sought<'a>(flags: Flags, atom: &'a [u8], spec: Spec) -> Sought<'a>
    requires { IsSpecOf (length atom.now) spec }
    ensures { wanted result ≡ wanted_by flags atom.now spec }
{
    Sought {
        name: wanted_name(flags, atom, spec.name),
        kind: wanted_kind(flags, atom, spec.kind),
        generation: spec.generation,
        all_generations: flags.all_generations,
        deleted: flags.deleted,
    }
}

// Whether no file is there that is to be read.
fn has_no_file<N: Names>(
    kind: FileKind,
    flags: Flags,
    names: &N,
    atom: &[u8],
    spec: Spec,
    directory: u16,
) -> bool
    requires parts { IsSpecOf (length atom.now) spec }
    requires directory { directory < length (N.catalogue names.now).directories }
    ensures { let rows = rows_of (N.catalogue names.now) directory in
        result ≡ (is_in kind && not (selects (wanted_by flags atom.now spec) rows)) }
{
    match kind {
        FileKind::In => !selects(names, directory, &sought(flags, atom, spec)),
        FileKind::Out => false,
        FileKind::Any => false,
    }
}

/// The directory that the specification of a file means, or the first reason why it means none: SpecShape,
/// where it lacks a name; GenRange, for a generation that cannot be read or written; WildHere; Device or
/// NoLogical; NoDirectory; and NoFile, where a file is to be read and none is selected.
#[tactic(auto, unfolding(crate::specs::Resolve::resolve))]
pub fn resolve<N: Names>(
    kind: FileKind,
    flags: Flags,
    names: &N,
    atom: &[u8],
    spec: Spec,
) -> Result<u16, Code>
    requires { IsSpecOf (length atom.now) spec }
    // [file-field]
    ensures { result ≡ resolve (N.catalogue names.now) kind flags atom.now spec }
{
    if lacks_name(flags, spec) {
        return Err(Code::SpecShape);
    }
    if is_bad_generation(kind, spec.generation) {
        return Err(Code::GenRange);
    }
    if has_bad_wild(kind, flags, atom, spec) {
        return Err(Code::WildHere);
    }
    let meant = by_device(names, atom, spec.device)?;
    let directory = by_directory(names, atom, spec.directory, meant)?;
    if has_no_file(kind, flags, names, atom, spec, directory) {
        return Err(Code::NoFile);
    }
    Ok(directory)
}
