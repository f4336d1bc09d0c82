// Reading a file of the system whole.
ghost use Rattle.std.specs.Prelude.{◌≤◌, length};
ghost use Rattle.cm_io.specs.Loading.{IsWithin};

use crate::Loaded;
use crate::std_read::read_some;
use std::alloc::Global;
use std::fs::File;
use std::io::ErrorKind;

// The most bytes of one read.
const PART_LIMIT: usize = 65536;

// What a file of at most `limit` bytes has. A name below a file that is no folder has none.
pub(crate) fn load_file(rt: &HostRuntime, alloc: Global, name: &str, limit: u32) -> Loaded
    ensures within { IsWithin limit result }
{
    match File::open(rt, name) {
        Ok(mut file) => load_opened(&mut file, alloc, limit as usize),
        Err(error) if error.kind() == ErrorKind::NotFound => Loaded::Absent,
        Err(error) if error.kind() == ErrorKind::NotADirectory => Loaded::Absent,
        Err(_) => Loaded::Failed,
    }
}

// What is left of an open file. Memory for all of it is asked for first, where its length is known.
fn load_opened(file: &mut File, alloc: Global, limit: usize) -> Loaded
    ensures within { IsWithin limit result }
{
    let known = match file.metadata() {
        Ok(metadata) if !metadata.is_dir() => metadata.len(),
        _ => return Loaded::Failed,
    };
    if known > limit as u64 {
        return Loaded::TooLarge;
    }
    match Vec::with_capacity(alloc, known as usize) {
        Ok(bytes) => read_whole(file, bytes, limit),
        Err(_) => Loaded::NoMemory,
    }
}

// Reads to the end of the file, after no bytes.
fn read_whole(file: &mut File, bytes: Vec<u8>, limit: usize) -> Loaded
    requires { length bytes.items ≤ limit }
    ensures within { IsWithin limit result }
{
    let mut bytes = bytes;
    let mut part = [0; PART_LIMIT];
    for _ in 0..u64::MAX {
        let Some(count) = read_some(file, &mut part) else {
            return Loaded::Failed;
        };
        if count == 0 {
            return Loaded::Bytes(bytes);
        }
        if count > limit - bytes.len() {
            return Loaded::TooLarge;
        }
        if bytes.extend_from_slice(&part[..count]).is_err() {
            return Loaded::NoMemory;
        }
    }
    Loaded::Failed
}
