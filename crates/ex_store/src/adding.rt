// Under which generation a file is added, or why it is refused.
ghost use Rattle.std.specs.Prelude.{◌≡◌, ◌≤◌};
ghost use Rattle.ex_store.specs.Adding.{and_then, limited};

use crate::limits::{ROW_LIMIT, STORE_LIMIT};
use cm_fields::Code;
use ex_generations::FILE_LIMIT;

// One more file of this size, beside so many files of so many bytes: this generation, or the limit that is passed.
pub(crate) fn limited(files: usize, bytes: usize, size: usize, generation: u32) -> Result<u32, Code>
    requires { bytes ≤ STORE_LIMIT }
    ensures { result ≡ limited files bytes size generation }
{
    if files >= ROW_LIMIT {
        Err(Code::FileLimit)
    } else if size > FILE_LIMIT {
        Err(Code::FileSize)
    } else if bytes + size > STORE_LIMIT {
        Err(Code::StoreSize)
    } else {
        Ok(generation)
    }
}

// The generation under which a file of this size is added, where there are so many files in all, of so many bytes; or
// the refusal of its generation or of its size.
pub(crate) fn admitted(
    number: Result<u32, Code>,
    files: usize,
    bytes: usize,
    size: usize,
) -> Result<u32, Code>
    requires { bytes ≤ STORE_LIMIT }
    ensures { result ≡ and_then (limited files bytes size) number }
{
    match number {
        Ok(number) => limited(files, bytes, size, number),
        Err(code) => Err(code),
    }
}
