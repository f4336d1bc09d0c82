// Directories and logical names, as they are made and as they are told.
use cm_text::Name;

/// A directory.
#[derive(Debug, Drop)]
pub struct Directory {
    /// Its name, in upper case.
    pub name: Name,
    /// How many generations it keeps of each name and type, at most 63; 0 where it keeps all.
    pub retention: u8,
}

/// A logical name.
#[derive(Debug, Drop)]
pub struct Definition {
    /// The name, in upper case.
    pub name: Name,
    /// The name of the directory that it stands for.
    pub directory: Name,
}

/// A directory as a store tells it.
#[derive(Clone, Copy, Debug)]
pub struct DirectoryView<'a> {
    /// Its name.
    pub name: &'a Name,
    /// How many generations it keeps of each name and type; 0 where it keeps all.
    pub retention: u8,
}

/// A logical name and the directory that it stands for, as a store tells them.
#[derive(Clone, Copy, Debug)]
pub struct DefinitionView<'a> {
    /// The name.
    pub name: &'a Name,
    /// The name of the directory.
    pub directory: &'a Name,
}

/// A logical name as a store tells it.
#[derive(Clone, Copy, Debug)]
pub struct Logical<'a> {
    /// The name.
    pub name: &'a str,
    /// The number of the directory that it stands for.
    pub directory: u16,
}
