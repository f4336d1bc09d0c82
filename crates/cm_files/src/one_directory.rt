// A catalogue of one directory.
ghost use Rattle.std.specs.Prelude.{◌≡◌, true, [], length};
ghost use Rattle.cm_files.specs.Catalogue.{IsCatalogue, is_directory_name};
ghost use Rattle.cm_files.specs.OneDirectory.{no_files, one_directory};

use crate::{FileRow, Names, Row};
use cm_text::Name;
use std::marker::Model;

/// A catalogue of one directory, which is connected, with no file and no logical name, for a program whose grammar
/// asks for none. Contracts see the catalogue.
#[derive(Debug, Drop)]
pub struct OneDirectory {
    name: Name,
    // No file. But the type could hold one: the toolchain refuses an implementation of `Names` of whose files none
    // can be asked for.
    file: Option<FileRow>,
}

impl Model for OneDirectory {
    ghost use Rattle.cm_files.specs.Catalogue.{Catalogue, IsCatalogue};
    ghost use Rattle.cm_files.specs.OneDirectory.{directory_with};

    ghost Value = { Catalogue };

    ghost view = { λ it. directory_with it.name it.file };

    ghost invariant = { λ it. IsCatalogue (directory_with it.name it.file) };
}

impl OneDirectory {
    /// The directory of this name: 1 to 39 bytes, parts of capital letters, digits, hyphens, dollar signs and
    /// underscores, with single points between.
    #[tactic(auto, unfolding(crate::specs::OneDirectory::one_directory))]
    pub fn new(name: &str) -> OneDirectory
        requires { is_directory_name name.now ≡ true }
        ensures { result ≡ one_directory name.now }
    {
        OneDirectory {
            name: Name::new(name),
            file: None,
        }
    }

    /// The directory `NONE`, for a program whose lines name no files.
    #[tactic(auto, unfolding(crate::specs::OneDirectory::no_files, cm_text::specs::Bytes::is_name, cm_text::specs::Bytes::is_word))]
    pub fn nothing() -> OneDirectory
        ensures { result ≡ no_files }
    {
        OneDirectory::new("NONE")
    }

    // What it keeps: facts for the proofs of those calls whose answers ask no field.
    fn sees_one_directory(&self)
        ensures catalogue { IsCatalogue self.now }
        ensures directories { length self.now.directories ≡ 1 }
        ensures connected { self.now.connected ≡ 0 }
        ensures logical { self.now.logical ≡ [] }
    {
        let _ = &self.file;
    }
}

impl Names for OneDirectory {
    ghost catalogue = { λ it. it };

    fn directories(&self) -> u16 {
        self.sees_one_directory();
        1
    }

    fn directory(&self, _i: u16) -> &str {
        self.name.as_str()
    }

    fn connected(&self) -> u16 {
        self.sees_one_directory();
        0
    }

    fn logical(&self, _name: &[u8]) -> Option<u16> {
        self.sees_one_directory();
        None
    }

    fn rows(&self, _directory: u16) -> u32 {
        match &self.file {
            Some(_) => 1,
            None => 0,
        }
    }

    fn row(&self, _directory: u16, _i: u32) -> Row<'_> {
        match &self.file {
            Some(file) => Row {
                name: file.name.as_str(),
                kind: file.kind.as_str(),
                generation: file.generation,
                deleted: file.deleted,
            },
            None => unreachable!(),
        }
    }
}
