// What a file specification says.
ghost use Rattle.std.specs.Prelude.{◌≡◌, ◌≤◌, Some, IfOk, length};
ghost use Rattle.cm_files.specs.Spec.{HasPartsOf, IsPartOf, IsSpecOf, by_parts, is_long, part, part_or_nothing, read_spec};

use crate::generation::generation_of;
use crate::parts::{Parts, parts_of};
use cm_fields::{Span, Spec};
use cm_text::{LINE_LIMIT, NAME_LIMIT};

/// Why a text is no file specification.
#[derive(thiserror::Error, Clone, Copy, Debug, PartialEq, Eq)]
pub enum SpecFault {
    /// It has not the form `device:<directory>name.type.generation`, each but the device and the directory only
    /// after the one before, or it is empty.
    #[error("Shape")]
    Shape,
    /// Its device, directory, name or type has more than 39 bytes.
    #[error("NameLong")]
    NameLong,
    /// Its generation is neither `*` nor one of `-1`, `-2` and `-3`, nor a number up to 131,071.
    #[error("GenRange")]
    GenRange,
}

/// The bytes of a part of a text.
pub fn part(atom: &[u8], place: Span) -> &[u8]
    requires order { place.start ≤ place.end }
    requires within { place.end ≤ length atom.now }
    ensures { result.now ≡ part atom.now place }
{
    &atom[usize::from(place.start)..usize::from(place.end)]
}

// The bytes of a part that may not be given.
fn part_or_nothing(atom: &[u8], place: Option<Span>) -> &[u8]
    requires { IsPartOf (length atom.now) place }
    ensures { result.now ≡ part_or_nothing atom.now place }
{
    match place {
        Some(place) => part(atom, place),
        None => b"",
    }
}

// Whether a part is longer than a name may be.
fn is_long(place: Option<Span>) -> bool
    ensures { result ≡ is_long place }
{
    match place {
        Some(place) => usize::from(place.start) + NAME_LIMIT < usize::from(place.end),
        None => false,
    }
}

// What the parts say.
fn by_parts(atom: &[u8], parts: &Parts) -> Result<Spec, SpecFault>
    requires { HasPartsOf (length atom.now) parts.now }
    ensures value { result ≡ by_parts atom.now (Some parts.now) }
    ensures within { IfOk result (λ spec. IsSpecOf (length atom.now) spec) }
{
    if is_long(parts.device)
        || is_long(parts.directory)
        || is_long(parts.name)
        || is_long(parts.kind)
    {
        return Err(SpecFault::NameLong);
    }
    match generation_of(part_or_nothing(atom, parts.generation)) {
        Some(generation) => Ok(Spec {
            device: parts.device,
            directory: parts.directory,
            name: parts.name,
            kind: parts.kind,
            generation,
        }),
        None => Err(SpecFault::GenRange),
    }
}

/// What a text says as a file specification, `device:<directory>name.type.generation` (GTJFN), wildcards among
/// it. The parts are places of the text. A text that fails in more than one way is refused with Shape before
/// NameLong, and with NameLong before GenRange.
pub fn read_spec(atom: &[u8]) -> Result<Spec, SpecFault>
    requires { length atom.now ≤ LINE_LIMIT }
    ensures value { result ≡ read_spec atom.now }
    ensures within { IfOk result (λ spec. IsSpecOf (length atom.now) spec) }
{
    match parts_of(atom) {
        Some(parts) => by_parts(atom, &parts),
        None => Err(SpecFault::Shape),
    }
}
