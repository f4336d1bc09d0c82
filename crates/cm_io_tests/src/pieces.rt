// An image as the host is given it, write by write.
//
// The pieces of an image, one for each write, are parted by `/`. A host is asked to load IN, to create OUT, to write
// each piece, and to close OUT: these calls have the numbers from 0 on.
ghost use Rattle.std.specs.Prelude.{◌≡◌, ◌+◌, ◌≤◌, ◌++◌, ◌↔◌, IfOk, OnOk, IsTrue, Some, length, map, take};
ghost use Rattle.std.specs.List.{concat};
ghost use Rattle.std.specs.Option.{option_copied};
ghost use Rattle.cm_io_tests.specs.Image.{calls_of, out_at, pieces};

use std::alloc::{AllocError, Global};

// How many calls of the host load an image and save this one.
#[tactic(auto, unfolding(crate::specs::Image::calls_of))]
pub(crate) fn count_calls(image: &[u8]) -> u64
    ensures { result ≡ calls_of image.now }
{
    count_pieces(image) as u64 + 3
}

// How many pieces an image has.
fn count_pieces(image: &[u8]) -> usize
    ensures value { result ≡ length (pieces image.now) }
    ensures within { result ≤ length image.now + 1 }
{
    image.split(|byte| *byte == b'/').count()
}

// The pieces of an image.
fn pieces_of(alloc: Global, image: &[u8]) -> Result<Vec<&[u8]>, AllocError>
    ensures { IfOk result (λ it. map (λ piece. piece.now) it.items ≡ pieces image.now) }
{
    image.split(|byte| *byte == b'/').collect(alloc)
}

// Puts the bytes of the first so many pieces after others.
fn push_pieces(pieces: &[&[u8]], many: usize, bytes: &mut Vec<u8>) -> Result<(), AllocError>
    ensures { let given = map (λ piece. piece.now) pieces.now in
        OnOk result (bytes.new.items ≡ bytes.old.items ++ concat (take many given)) }
{
    match pieces {
        [] => Ok(()),
        [_, ..] if many == 0 => Ok(()),
        [piece, more @ ..] => {
            bytes.extend_from_slice(piece)?;
            push_pieces(more, many - 1, bytes)
        }
    }
}

// The bytes of the first so many pieces of an image.
fn first_pieces(alloc: Global, image: &[u8], many: usize) -> Result<Vec<u8>, AllocError>
    ensures { IfOk result (λ it. it.items ≡ concat (take many (pieces image.now))) }
{
    let mut bytes = Vec::new(alloc);
    push_pieces(&pieces_of(alloc, image)?, many, &mut bytes)?;
    Ok(bytes)
}

/// Whether OUT is what it must be where this call of the host fails: it is not there where it was not created, and has
/// what was written before the call. Where no call fails it has the image.
pub fn is_written(
    alloc: Global,
    out: Option<&[u8]>,
    image: &[u8],
    call: Option<u32>,
) -> Result<bool, AllocError>
    ensures { IfOk result (λ it. IsTrue it ↔ (option_copied out.entry ≡ out_at call image.now)) }
{
    match call {
        Some(call) if call < 2 => Ok(out.is_none()),
        Some(call) => is_of_pieces(alloc, out, image, call as usize - 2),
        None => is_of_pieces(alloc, out, image, count_pieces(image)),
    }
}

// Whether OUT has the first so many pieces.
fn is_of_pieces(
    alloc: Global,
    out: Option<&[u8]>,
    image: &[u8],
    many: usize,
) -> Result<bool, AllocError>
    ensures { let bytes = concat (take many (pieces image.now)) in
        IfOk result (λ it. IsTrue it ↔ (option_copied out.entry ≡ Some bytes)) }
{
    let bytes = first_pieces(alloc, image, many)?;
    match out {
        Some(out) => Ok(out == bytes.as_slice()),
        None => Ok(false),
    }
}
