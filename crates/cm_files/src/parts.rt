// Where the parts of a file specification are in its text.
ghost use Rattle.std.specs.Prelude.{◌≡◌, ◌+◌, ◌≤◌, IfSome, length};
ghost use Rattle.std.specs.List.{prefix_len};
ghost use Rattle.cm_text.specs.Bytes.{is_name};
ghost use Rattle.cm_files.specs.Spec.{HasPartsOf, IsPartOf, IsReadOf, are_parts, device_read, directory_read, is_path, is_pattern, name_read, nothing_read, part_read, parts_after, parts_of, pointed_read, stands_at};

use cm_fields::{Span, span_of};
use cm_text::{LINE_LIMIT, is_name};

/// The parts of a file specification, each where it is given.
#[derive(Clone, Copy)]
pub(crate) struct Parts {
    pub device: Option<Span>,
    pub directory: Option<Span>,
    pub name: Option<Span>,
    pub kind: Option<Span>,
    pub generation: Option<Span>,
}

// A part that was read, where it is given, and the place after it and its marks.
#[derive(Clone, Copy)]
struct Read {
    part: Option<Span>,
    next: usize,
}

/// Whether this byte is at a place.
pub(crate) fn stands_at(atom: &[u8], place: usize, byte: u8) -> bool
    ensures { result ≡ stands_at atom.now place byte }
{
    match atom.get(place) {
        Some(other) => *other == byte,
        None => false,
    }
}

// How many name bytes a text begins with.
fn name_run(text: &[u8]) -> usize
    ensures value { result ≡ prefix_len is_name text.now }
    ensures within { result ≤ length text.now }
{
    text.iter().take_while(|byte| is_name(**byte)).count()
}

// Whether a byte may be in a name, a type or a generation.
fn is_pattern(byte: u8) -> bool
    ensures { result ≡ is_pattern byte }
{
    is_name(byte) || byte == b'*' || byte == b'%'
}

// How many bytes of a name, a type or a generation a text begins with.
fn pattern_run(text: &[u8]) -> usize
    ensures value { result ≡ prefix_len is_pattern text.now }
    ensures within { result ≤ length text.now }
{
    text.iter().take_while(|byte| is_pattern(**byte)).count()
}

/// Whether a byte may be in the name of a directory, wildcards among them.
pub(crate) fn is_path(byte: u8) -> bool
    ensures { result ≡ is_path byte }
{
    is_pattern(byte) || byte == b'.'
}

// How many bytes of a directory's name a text begins with.
fn path_run(text: &[u8]) -> usize
    ensures value { result ≡ prefix_len is_path text.now }
    ensures within { result ≤ length text.now }
{
    text.iter().take_while(|byte| is_path(**byte)).count()
}

// Whether a name is of parts that are not empty, with single points between.
fn are_parts(path: &[u8]) -> bool
    ensures { result ≡ are_parts path.now }
{
    path.split(|byte| *byte == b'.').all(|part| part.len() > 0)
}

// A part from a place on, of this size, and where the next one begins.
fn part_read(start: usize, size: usize, next: usize) -> Read
    requires { start + size ≤ LINE_LIMIT }
    ensures { result ≡ part_read start size next }
{
    Read {
        part: Some(span_of(start, size)),
        next,
    }
}

// No part at a place.
fn nothing_read(at: usize) -> Read
    ensures { result ≡ nothing_read at }
{
    Read {
        part: None,
        next: at,
    }
}

// The device: name bytes before a colon.
fn device_read(atom: &[u8]) -> Read
    requires { length atom.now ≤ LINE_LIMIT }
    ensures value { result ≡ device_read atom.now }
    ensures within { IsReadOf (length atom.now) result }
{
    let size = name_run(atom);
    if size > 0 && stands_at(atom, size, b':') {
        part_read(0, size, size + 1)
    } else {
        nothing_read(0)
    }
}

// The directory, between angle brackets.
fn directory_read(atom: &[u8], at: usize) -> Option<Read>
    requires short { length atom.now ≤ LINE_LIMIT }
    requires place { at ≤ length atom.now }
    ensures value { result ≡ directory_read atom.now at }
    ensures within { IfSome result (λ read. IsReadOf (length atom.now) read) }
{
    if !stands_at(atom, at, b'<') {
        return Some(nothing_read(at));
    }
    let after = &atom[at + 1..];
    let size = path_run(after);
    if stands_at(atom, at + 1 + size, b'>') && are_parts(&after[..size]) {
        Some(part_read(at + 1, size, at + size + 2))
    } else {
        None
    }
}

// The name.
fn name_read(atom: &[u8], at: usize) -> Option<Read>
    requires short { length atom.now ≤ LINE_LIMIT }
    requires place { at ≤ length atom.now }
    ensures value { result ≡ name_read atom.now at }
    ensures within { IfSome result (λ read. IsReadOf (length atom.now) read) }
{
    let size = pattern_run(&atom[at..]);
    if size > 0 {
        Some(part_read(at, size, at + size))
    } else if at == atom.len() {
        Some(nothing_read(at))
    } else {
        None
    }
}

// A type or a generation, after a point.
fn pointed_read(atom: &[u8], at: usize) -> Read
    requires short { length atom.now ≤ LINE_LIMIT }
    requires place { at ≤ length atom.now }
    ensures value { result ≡ pointed_read atom.now at }
    ensures within { IsReadOf (length atom.now) result }
{
    if !stands_at(atom, at, b'.') {
        return nothing_read(at);
    }
    let size = pattern_run(&atom[at + 1..]);
    part_read(at + 1, size, at + 1 + size)
}

// What comes after device, directory and name.
fn parts_after(
    atom: &[u8],
    device: Option<Span>,
    directory: Option<Span>,
    name: Read,
) -> Option<Parts>
    requires short { length atom.now ≤ LINE_LIMIT }
    requires device { IsPartOf (length atom.now) device }
    requires directory { IsPartOf (length atom.now) directory }
    requires name { IsReadOf (length atom.now) name }
    ensures value { result ≡ parts_after atom.now device directory name }
    ensures within { IfSome result (λ parts. HasPartsOf (length atom.now) parts) }
{
    let kind = pointed_read(atom, name.next);
    let generation = pointed_read(atom, kind.next);
    if generation.next < atom.len() {
        return None;
    }
    Some(Parts {
        device,
        directory,
        name: name.part,
        kind: kind.part,
        generation: generation.part,
    })
}

/// Where the parts of a file specification stand; none where the text is none.
pub(crate) fn parts_of(atom: &[u8]) -> Option<Parts>
    requires { length atom.now ≤ LINE_LIMIT }
    ensures value { result ≡ parts_of atom.now }
    ensures within { IfSome result (λ parts. HasPartsOf (length atom.now) parts) }
{
    if atom.is_empty() {
        return None;
    }
    let device = device_read(atom);
    let directory = directory_read(atom, device.next)?;
    let name = name_read(atom, directory.next)?;
    parts_after(atom, device.part, directory.part, name)
}
