// The bytes of a file.
ghost use Rattle.std.specs.Prelude.{◌≡◌, IfOk, length};

use cm_io::NoMemory;
use std::alloc::Global;
use std::marker::Model;

/// The bytes of a file. Contracts see them as a list.
#[derive(Debug, Drop)]
pub struct Bytes {
    bytes: Vec<u8>,
}

impl Model for Bytes {
    ghost use Rattle.std.specs.Prelude.{ℕ, List};

    ghost Value = { List ℕ };

    ghost view = { λ file. file.bytes.items };
}

impl Bytes {
    /// These bytes, in the memory that holds them.
    pub fn new(bytes: Vec<u8>) -> Bytes
        ensures { result ≡ bytes.items }
    {
        Bytes { bytes }
    }

    /// The bytes, in the memory that holds them.
    pub fn into_vec(self) -> Vec<u8>
        ensures { result.items ≡ self }
    {
        self.bytes
    }

    /// The same bytes in memory of their own.
    pub fn copy(&self, alloc: Global) -> Result<Bytes, NoMemory>
        ensures { IfOk result (λ copy. copy ≡ self.now) }
    {
        Ok(Bytes {
            bytes: Vec::from_slice(alloc, &self.bytes)?,
        })
    }

    /// The bytes.
    pub fn as_slice(&self) -> &[u8]
        ensures { result.now ≡ self.now }
    {
        &self.bytes
    }

    /// How many bytes there are.
    pub fn len(&self) -> usize
        ensures { result ≡ length self.now }
    {
        self.bytes.len()
    }
}
