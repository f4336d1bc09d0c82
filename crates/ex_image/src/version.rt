// The versions of the image.

/// In which version an image is written.
#[derive(Clone, Copy, PartialEq)]
pub(crate) enum Version {
    /// A line of a file says when it was written. How many generations it keeps is said of its directory alone.
    One,
    /// A line of a file says how many generations it keeps and when it was last read, too.
    Two,
}
