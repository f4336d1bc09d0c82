// What a block of a grammar asks of a file specification (GTJFN).

/// What a file specification may say, and what is meant where it says nothing.
#[derive(Clone, Copy, Debug, Default, PartialEq, Eq)]
pub struct Flags {
    /// Wildcards may be in its name, type and generation.
    pub wild: bool,
    /// All generations are meant where none is given, in place of the highest.
    pub all_generations: bool,
    /// Files that are marked deleted are meant, in place of those that are not.
    pub deleted: bool,
    /// All names and all types are meant where none is given.
    pub default_all: bool,
    /// What is not given is taken from the source of a copy.
    pub from_source: bool,
    /// A directory may be a new one.
    pub new: bool,
}
