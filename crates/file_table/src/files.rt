//! The files of a scene.

ghost use Rattle.std.specs.Prelude.{◌≡◌, List as Items, [], ◌∷◌, ◌++◌, IfOk, OnOk, OnErr, bytes_eq};
ghost use Rattle.std.specs.List.{IsDistinct};
ghost use Rattle.json_text.specs.Compact.{Member as Pair};
ghost use Rattle.json_text.specs.Members.{pairs};
ghost use Rattle.json_text.specs.Parts.{names_of};
ghost use Rattle.json_text.specs.Value.{IsCompact};
ghost use Rattle.scene_json.specs.Named.{HaveRisingNames};
ghost use Rattle.file_table.specs.Table.{AreLeastEntries, EntriesNest};
ghost use Rattle.file_table.specs.References.{referred_files};

use crate::references::{found, references};
use crate::table::{Entries, keep_lesser, members_by_id};
use board_base::List;
use elem::Element;
use json_text::{Member, Raw, Text, first_occurrences};
use std::alloc::{AllocError, Global};
use std::hash::BuildHasherDefault;
use std::marker::Model;

/// The entries of files by their ids.
#[derive(Drop)]
pub struct Files {
    entries: Entries,
    alloc: Global,
}

impl Model for Files {
    ghost use Rattle.std.specs.Prelude.{List as Items};
    ghost use Rattle.json_text.specs.Compact.{Member as Pair};
    ghost use Rattle.elem.specs.Texts.{sorted_members};
    ghost use Rattle.file_table.specs.Table.{HaveFiles};

    ghost Value = { Items Pair };

    ghost view = { λ f. sorted_members f.entries.entries };

    ghost invariant = { λ f. HaveFiles f.entries.entries };
}

impl Files {
    /// With no file.
    pub fn new(alloc: Global) -> Files
        ensures { result ≡ [] }
    {
        Files {
            entries: Entries::with_hasher(alloc, BuildHasherDefault::new()),
            alloc,
        }
    }

    /// Adds the entry of a file, or keeps the lesser one, by the bytes of their compact texts,
    /// where the id has one. For want of memory it is unchanged.
    pub fn take(&mut self, id: Text, entry: Raw) -> Result<(), AllocError>
        requires { IsCompact 126 entry }
        ensures taken { OnOk result (AreLeastEntries (self.old ++ (id, entry) ∷ []) self.new) }
        ensures err { OnErr result (self.new ≡ self.old) }
    {
        keep_lesser(&mut self.entries, id, entry)
    }

    /// The entries that image elements of the list name, each once, in the order in which they are
    /// first named.
    pub fn referred(&self, list: &[Element]) -> Result<List<Member>, AllocError>
        ensures exact { IfOk result (λ members. pairs members ≡ referred_files self.now list.now) }
        ensures distinct { IfOk result (λ members. IsDistinct bytes_eq (names_of (pairs members))) }
        ensures nest { IfOk result (λ members. EntriesNest 126 (pairs members)) }
    {
        let named = references(self.alloc, list)?;
        let ids = first_occurrences(self.alloc, named.as_slice())?;
        Ok(List::from_vec(found(self.alloc, &self.entries, ids)?))
    }

    /// All entries, in the order of the ids.
    pub fn by_id(&self) -> Result<List<Member>, AllocError>
        ensures exact { IfOk result (λ members. pairs members ≡ self.now) }
        ensures ordered { IfOk result (λ members. HaveRisingNames (pairs members)) }
        ensures nest { IfOk result (λ members. EntriesNest 126 (pairs members)) }
    {
        Ok(List::from_vec(members_by_id(self.alloc, &self.entries)?))
    }
}
