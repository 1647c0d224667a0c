//! A list of items that owns its memory.

ghost use Rattle.std.specs.Prelude.{◌≡◌, [], ◌∷◌, ◌++◌, IfOk, OnOk, IfErr};
ghost use Rattle.std.specs.Fn.{FnReturnsAt};

use std::alloc::{AllocError, Global};
use std::marker::Model;

/// A list of items.
#[derive(Drop)]
pub struct List<T> {
    items: Vec<T>,
}

impl<T> Model for List<T> {
    ghost use Rattle.std.specs.Prelude.{List as Items};

    ghost Value = { Items T };

    ghost view = { λ l. l.items.items };
}

impl<T> List<T> {
    /// With no item.
    pub fn new(alloc: Global) -> List<T>
        ensures { result ≡ [] }
    {
        List {
            items: Vec::new(alloc),
        }
    }

    /// These items, in their order. It takes no memory.
    pub fn from_vec(items: Vec<T>) -> List<T>
        ensures { result ≡ items.items }
    {
        List { items }
    }

    /// The items, in their order. It takes no memory.
    pub fn into_vec(self) -> Vec<T>
        ensures { result.items ≡ self }
    {
        let List { items } = self;
        items
    }

    /// The items.
    pub fn as_slice(&self) -> &[T]
        ensures { result.now ≡ self.now }
    {
        self.items.as_slice()
    }

    /// Appends the item, or hands it back for want of memory; the list is then unchanged.
    pub fn push(&mut self, item: T) -> Result<(), (T, AllocError)>
        ensures ok { OnOk result (self.new ≡ self.old ++ item ∷ []) }
        ensures err { IfErr result (λ back. (self.new ≡ self.old) × (back.0 ≡ item)) }
    {
        self.items
            .push(item)
            .map_err(|failed| (failed.value, AllocError))
    }

    /// An equal list, whose items `clone` copies, with no room beside them.
    pub fn try_clone_with<F: Fn(&T) -> Result<T, AllocError>>(
        &self,
        clone: F,
    ) -> Result<List<T>, AllocError>
    where
        T: Drop,
        requires callable { F.IsAlwaysCallable clone }
        requires equal { (item copy : T) → FnReturnsAt F.Fn clone item (Ok copy) → copy ≡ item }
        ensures { IfOk result (λ copy. copy ≡ self.now) }
    {
        let mut items = Vec::with_capacity(*self.items.allocator(), self.items.len())?;
        for item in self.as_slice() {
            items.push(clone(item)?)?;
        }
        Ok(List { items })
    }
}
