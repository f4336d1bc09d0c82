// Files of a generation, and the generations of a file as a text.
ghost use Rattle.std.specs.Prelude.{◌≡◌, IfOk, false, length};

use cm_io::NoMemory;
use ex_generations::{Bytes, File, Gens};
use std::alloc::{AllocError, Global};

/// An unmarked file of this many bytes that keeps so many.
pub(super) fn file(alloc: Global, generation: u32, keep: u8, size: usize) -> Result<File, NoMemory>
    ensures { IfOk result (λ file. (file.generation ≡ generation) × (file.deleted ≡ false)
        × (length file.bytes ≡ size)) }
{
    Ok(File {
        generation,
        deleted: false,
        keep,
        moment: 5,
        read: None,
        bytes: Bytes::new(vec![in alloc; 0; size]?),
    })
}

fn put_number(list: &mut String, file: &File) -> Result<(), AllocError> {
    let generation = file.generation;
    let mark = if file.deleted { "-" } else { "" };
    write!(list, "{generation}{mark}")
}

/// Each generation with all that is told of it.
pub(super) fn put_all(list: &mut String, gens: &Gens) -> Result<(), AllocError> {
    for i in 0..gens.len() {
        if i > 0 {
            list.push(' ')?;
        }
        put_whole(list, gens.file(i))?;
    }
    Ok(())
}

/// Each generation, with a minus where it is marked as deleted.
pub(super) fn put_numbers(list: &mut String, gens: &Gens) -> Result<(), AllocError> {
    if gens.len() == 0 {
        return list.push_str("none");
    }
    for i in 0..gens.len() {
        if i > 0 {
            list.push(' ')?;
        }
        put_number(list, gens.file(i))?;
    }
    Ok(())
}

// How many generations a file keeps, when it was written, and after a slash when it was last read.
fn put_stamp(list: &mut String, file: &File) -> Result<(), AllocError> {
    let keep = file.keep;
    let moment = file.moment;
    write!(list, ":{keep}@{moment}")?;
    match file.read {
        Some(read) => write!(list, "/{read}"),
        None => Ok(()),
    }
}

/// A generation with what it keeps, its moments and its bytes.
pub(super) fn put_whole(list: &mut String, file: &File) -> Result<(), AllocError> {
    put_number(list, file)?;
    put_stamp(list, file)?;
    list.push('=')?;
    for byte in file.bytes.as_slice() {
        list.push(char::from(*byte))?;
    }
    Ok(())
}
