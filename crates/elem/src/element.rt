//! An element.

ghost use Rattle.std.specs.Prelude.{◌≡◌, IfOk};

use crate::kind::Kind;
use crate::parts::{Binding, BoundRef};
use crate::shared_members::SharedMembers;
use board_base::List;
use frac_keys::Key;
use json_text::Text;
use std::alloc::AllocError;
use std::marker::Model;

/// An element of a board. The version, the nonce and the time of the last change are its stamp.
pub struct Element {
    pub id: Text,
    pub kind: Kind,
    pub version: u64,
    pub nonce: u64,
    pub updated: u64,
    pub deleted: bool,
    pub index: Option<Key>,
    pub groups: List<Text>,
    pub frame: Option<Text>,
    pub bound: List<BoundRef>,
    pub container: Option<Text>,
    pub start_binding: Option<Binding>,
    pub end_binding: Option<Binding>,
    pub file: Option<Text>,
    pub rest: SharedMembers,
}

// By hand, so that whoever drops an element sees one call and not what it holds.
impl Drop for Element {
    fn drop(self) {
        let Element {
            id: _id,
            kind: _kind,
            version: _,
            nonce: _,
            updated: _,
            deleted: _,
            index: _index,
            groups: _groups,
            frame: _frame,
            bound: _bound,
            container: _container,
            start_binding: _start_binding,
            end_binding: _end_binding,
            file: _file,
            rest: _rest,
        } = self;
    }
}

impl Model for Element {
    ghost use Rattle.elem.specs.ElementValue.{ElementValue};
    ghost use Rattle.elem.specs.Facts.{IsElement};

    ghost Value = { ElementValue };

    ghost view = { λ e. record {
      id = e.id;
      kind = e.kind;
      version = e.version;
      nonce = e.nonce;
      updated = e.updated;
      deleted = e.deleted;
      index = e.index;
      groups = e.groups;
      frame = e.frame;
      bound = e.bound;
      container = e.container;
      start_binding = e.start_binding;
      end_binding = e.end_binding;
      file = e.file;
      rest = e.rest;
    } };

    ghost invariant = { λ e. IsElement (record {
      id = e.id;
      kind = e.kind;
      version = e.version;
      nonce = e.nonce;
      updated = e.updated;
      deleted = e.deleted;
      index = e.index;
      groups = e.groups;
      frame = e.frame;
      bound = e.bound;
      container = e.container;
      start_binding = e.start_binding;
      end_binding = e.end_binding;
      file = e.file;
      rest = e.rest;
    }) };
}

impl Element {
    /// An equal element, which shares its further members with this one.
    pub fn try_clone(&self) -> Result<Element, AllocError>
        ensures { IfOk result (λ copy. copy ≡ self.now) }
    {
        Ok(Element {
            id: self.id.try_clone()?,
            kind: self.kind.try_clone()?,
            version: self.version,
            nonce: self.nonce,
            updated: self.updated,
            deleted: self.deleted,
            index: self.index.as_ref().map(Key::try_clone).transpose()?,
            groups: self.groups.try_clone_with(Text::try_clone)?,
            frame: text_clone(&self.frame)?,
            bound: self.bound.try_clone_with(BoundRef::try_clone)?,
            container: text_clone(&self.container)?,
            start_binding: binding_clone(&self.start_binding)?,
            end_binding: binding_clone(&self.end_binding)?,
            file: text_clone(&self.file)?,
            rest: self.rest.try_clone()?,
        })
    }
}

/// An equal text, if there is one.
fn text_clone(text: &Option<Text>) -> Result<Option<Text>, AllocError>
    ensures { IfOk result (λ copy. copy ≡ text.now) }
{
    text.as_ref().map(Text::try_clone).transpose()
}

/// An equal binding, if there is one.
fn binding_clone(binding: &Option<Binding>) -> Result<Option<Binding>, AllocError>
    ensures { IfOk result (λ copy. copy ≡ binding.now) }
{
    binding.as_ref().map(Binding::try_clone).transpose()
}
