// What is wrong with bytes that are no image.

use cm_io::{Kind, NoMemory};

/// Why bytes are not decoded.
#[derive(Clone, Copy, Debug, PartialEq, Eq)]
pub enum ImageFault {
    /// They are no image.
    Bad {
        /// Where the first wrong record begins: how many bytes are before it.
        at: u32,
        /// The kind of its fault.
        kind: Kind,
    },
    /// There was not enough memory.
    NoMemory,
}

impl From<NoMemory> for ImageFault {
    ghost use Rattle.std.specs.Prelude.{◌≡◌};
    ghost use Rattle.ex_image.specs.declared.fault.ImageFault.TheVariants as faults;

    ghost from_gives = { λ _ fault. fault ≡ faults.NoMemory };

    fn from(_: NoMemory) -> ImageFault {
        ImageFault::NoMemory
    }
}
