// What a catalogue has of a file and of a logical name.

use cm_text::Name;

/// A file as a catalogue shows it: one generation of a name and a type.
#[derive(Clone, Copy, Debug)]
pub struct Row<'a> {
    /// Its name, 1 to 39 name bytes in upper case.
    pub name: &'a str,
    /// Its type, 0 to 39 name bytes in upper case.
    pub kind: &'a str,
    /// Its generation, 1 to 131,071.
    pub generation: u32,
    /// Whether it is marked deleted.
    pub deleted: bool,
}

/// A file as contracts see it in a catalogue.
#[derive(Debug, Drop)]
pub struct FileRow {
    /// The number of its directory.
    pub directory: u16,
    /// Its name, 1 to 39 name bytes in upper case.
    pub name: Name,
    /// Its type, 0 to 39 name bytes in upper case.
    pub kind: Name,
    /// Its generation, 1 to 131,071.
    pub generation: u32,
    /// Whether it is marked deleted.
    pub deleted: bool,
}

/// A logical name as contracts see it in a catalogue.
#[derive(Debug, Drop)]
pub struct LogicalName {
    /// The name, in upper case.
    pub name: Name,
    /// The number of the directory that it stands for.
    pub directory: u16,
}
