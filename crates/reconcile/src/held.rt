//! Ids that are held.

ghost use Rattle.std.specs.Prelude.{◌≡◌, [], OnOk, OnErr, IsOk, IsTrue};
ghost use Rattle.elem_store.specs.Updates.{is_among};
ghost use Rattle.reconcile.specs.Ids.{AreStrictlySorted, HasAdded, HasDropped};

use json_text::Text;
use std::alloc::{AllocError, Global};
use std::collections::BTreeSet;
use std::marker::Model;

/// Ids that are held, in the order of their bytes: updates for them aren't taken.
#[derive(Drop)]
pub struct Held {
    ids: BTreeSet<Text>,
}

impl Model for Held {
    ghost use Rattle.std.specs.Prelude.{List, ℕ};
    ghost use Rattle.reconcile.specs.Ids.{AreStrictlySorted};

    ghost Value = { List (List ℕ) };

    ghost view = { λ h. h.ids.keys };

    ghost invariant = { λ h. AreStrictlySorted h.ids.keys };
}

impl Held {
    /// With no id.
    pub fn new(alloc: Global) -> Held
        ensures { result ≡ [] }
    {
        Held {
            ids: BTreeSet::new(alloc),
        }
    }

    /// Holds the id. It wants no memory where the id is held; for want of memory nothing is
    /// changed.
    pub fn add(&mut self, id: &Text) -> Result<(), AllocError>
        ensures added { OnOk result (HasAdded self.old id.now self.new) }
        ensures err { OnErr result (self.new ≡ self.old) }
        ensures known { IsTrue (is_among self.old id.now) → IsOk result }
    {
        if self.has(id) {
            return Ok(());
        }
        self.ids.insert(id.try_clone()?)?;
        Ok(())
    }

    /// Holds the id no more. It takes no memory.
    pub fn drop_id(&mut self, id: &Text)
        ensures { HasDropped self.old id.now self.new }
    {
        self.ids.remove(id);
    }

    /// Whether the id is held. It takes no memory.
    pub fn has(&self, id: &Text) -> bool
        ensures exact { result ≡ is_among self.now id.now }
        ensures ordered { AreStrictlySorted self.now }
    {
        self.ids.contains(id)
    }
}
