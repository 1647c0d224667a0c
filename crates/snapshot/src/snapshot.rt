//! A snapshot.

ghost use Rattle.std.specs.Prelude.{◌≡◌, ◌≤◌, ℕ, List as Items, [], true, All, length, option_copied, IfOk, IfSome, IsSome, OnOk, OnErr};
ghost use Rattle.frac_keys.specs.Rising.{are_rising};
ghost use Rattle.delta.specs.Delta.{Delta};
ghost use Rattle.delta.specs.Facts.{part_ids};
ghost use Rattle.delta.specs.Pairs.{EntryStandsFor};
ghost use Rattle.elem.specs.Said.{AreElements};
ghost use Rattle.elem_store.specs.Updates.{element_of, ids_of, is_taken, takings};
ghost use Rattle.undo_model.specs.Carrying.{with_all_put, taken_all, carried_over, carried_all};
ghost use Rattle.undo_model.specs.Differing as specs;
ghost use Rattle.snapshot.specs.Carried.{HasCarried};
ghost use Rattle.snapshot.specs.Pending.{pairs_since};
ghost use Rattle.snapshot.specs.Touched.{AreUntouched};

use crate::captured::{put_all, put_copies};
use crate::carrying::{carry, carrying};
use crate::pending::{copies_of, differing, ids_of, parts_since, parts_to};
use crate::touched::Touched;
use board_base::List;
use delta::Entry;
use elem::{Element, SharedElement};
use elem_store::Store;
use json_text::Text;
use std::alloc::{AllocError, Global};
use std::marker::Model;

/// The elements as they were when they were last captured, one for each id, in the order of the
/// ids.
#[derive(Drop)]
pub struct Snapshot {
    elements: Vec<SharedElement>,
}

impl Model for Snapshot {
    ghost use Rattle.std.specs.Prelude.{◌≡◌, ◌-◌, true, vec_capacity, vec_len};
    ghost use Rattle.frac_keys.specs.Rising.{are_rising};
    ghost use Rattle.elem_store.specs.Stock.{Stock};
    ghost use Rattle.elem_store.specs.Updates.{ids_of};

    ghost Value = { Stock };

    ghost view = { λ s. record {
      elements = s.elements.items;
      spare = vec_capacity s.elements - vec_len s.elements;
    } };

    ghost invariant = { λ s. are_rising (ids_of s.elements.items) ≡ true };
}

/// Elements that are planned to be put into a snapshot, one for each id, in the order of the ids.
#[derive(Drop)]
pub struct SnapshotStep {
    elements: Vec<SharedElement>,
}

impl Model for SnapshotStep {
    ghost use Rattle.std.specs.Prelude.{◌≡◌, List, true};
    ghost use Rattle.frac_keys.specs.Rising.{are_rising};
    ghost use Rattle.elem.specs.ElementValue.{ElementValue};
    ghost use Rattle.elem_store.specs.Updates.{ids_of};

    ghost Value = { List ElementValue };

    ghost view = { λ s. s.elements.items };

    ghost invariant = { λ s. are_rising (ids_of s.elements.items) ≡ true };
}

impl Snapshot {
    /// With no element.
    pub fn new(alloc: Global) -> Snapshot
        ensures { result.elements ≡ [] }
    {
        Snapshot {
            elements: Vec::new(alloc),
        }
    }

    /// The entry of what has changed since the last capture: the parts from the elements of the
    /// snapshot to the stored ones. The snapshot then has the stored elements; for want of memory
    /// they are unchanged.
    pub fn capture(&mut self, store: &Store) -> Result<Entry, AllocError>
        ensures entry { IfOk result
            (λ entry. EntryStandsFor entry (pairs_since self.old.elements store.now.elements)) }
        ensures ok { OnOk result (self.new.elements ≡ store.now.elements) }
        ensures err { OnErr result (self.new.elements ≡ self.old.elements) }
    {
        let alloc = *self.elements.allocator();
        let parts = parts_since(alloc, &self.elements, store)?;
        self.elements = copies_of(alloc, store)?;
        Ok(Entry {
            parts: List::from_vec(parts),
        })
    }

    /// Plans a capture of what will be stored once the changed elements are: the elements to put,
    /// and the entry of what will have changed since the last capture. Only the ids that were
    /// touched since then and those of the changed elements are looked up. There is then room for
    /// the elements; those of the snapshot stay, also for want of memory.
    pub fn plan_capture(
        &mut self,
        store: &Store,
        touched: &Touched,
        changed: &[Element],
    ) -> Result<(SnapshotStep, Entry), AllocError>
        // Of each id that isn't touched the snapshot has what is stored. Each id of the snapshot is
        // stored, and all that changed would be.
        requires untouched { AreUntouched touched.now self.old.elements store.now.elements }
        requires known { (id : Items ℕ)
            → IsSome (element_of self.old.elements id) → IsSome (element_of store.now.elements id) }
        requires rise { are_rising (ids_of changed.now) ≡ true }
        requires stored { All (λ e. is_taken store.now.elements e ≡ true) changed.now }

        ensures pairs { let stored = taken_all changed.now store.now.elements in
            IfOk result (λ plan. EntryStandsFor plan.1 (pairs_since self.old.elements stored)) }
        ensures entry { let stored = taken_all changed.now store.now.elements in
            AreElements self.old.elements → AreElements store.now.elements → AreElements changed.now
            → IfOk result (λ plan. EntryStandsFor plan.1 (specs.pending self.old.elements stored)) }

        ensures step { IfOk result (λ plan. with_all_put plan.0 self.old.elements
            ≡ taken_all changed.now store.now.elements) }
        ensures room { IfOk result (λ plan. length plan.0 ≤ self.new.spare) }
        ensures elements { self.new.elements ≡ self.old.elements }
    {
        let alloc = *self.elements.allocator();
        let mut step = differing(alloc, &self.elements, store, &touched.ids)?;
        put_copies(alloc, &mut step, changed)?;
        let parts = parts_to(alloc, &self.elements, &step)?;
        self.elements.reserve(step.len())?;
        let entry = Entry {
            parts: List::from_vec(parts),
        };
        Ok((SnapshotStep { elements: step }, entry))
    }

    /// Plans to carry what becomes stored of a list into the snapshot. There is then room for it;
    /// the elements of the snapshot stay, also for want of memory.
    pub fn plan_carry(
        &mut self,
        store: &Store,
        changed: &[Element],
    ) -> Result<SnapshotStep, AllocError>
        ensures step { IfOk result (λ step. with_all_put step self.old.elements
            ≡ carried_all (takings store.now.elements changed.now) self.old.elements) }
        ensures room { IfOk result (λ step. length step ≤ self.new.spare) }
        ensures elements { self.new.elements ≡ self.old.elements }
    {
        let alloc = *self.elements.allocator();
        let step = carrying(alloc, &self.elements, store, changed)?;
        self.elements.reserve(step.len())?;
        Ok(SnapshotStep { elements: step })
    }

    /// Puts a planned step in place. There is room for it, so it takes no memory.
    pub fn put(&mut self, step: SnapshotStep)
        requires { length step ≤ self.old.spare }
        ensures { self.new.elements ≡ with_all_put step self.old.elements }
    {
        put_all(&mut self.elements, step.elements);
    }

    /// Takes a stored change over that is captured by nobody. `old` is what was stored of the id
    /// before, if anything was. A new element, or one of another kind, is then that of the
    /// snapshot. Another change is made of the element of the snapshot, if there is one. For want
    /// of memory the elements are unchanged.
    pub fn carry(&mut self, old: Option<&Element>, new: &Element) -> Result<(), AllocError>
        requires { IfSome (option_copied old) (λ old. old.id ≡ new.now.id) }
        ensures ok { OnOk result
            (HasCarried self.old.elements (option_copied old.entry) new.now self.new.elements) }
        ensures over { OnOk result
            (self.new.elements ≡ carried_over (option_copied old.entry) new.now self.old.elements) }
        ensures err { OnErr result (self.new.elements ≡ self.old.elements) }
    {
        let alloc = *self.elements.allocator();
        carry(alloc, &mut self.elements, old, new)
    }

    /// The ids of the elements that have changed since the last capture: those of the parts that a
    /// capture would give.
    pub fn pending(&self, store: &Store) -> Result<List<Text>, AllocError>
        ensures { IfOk result (λ ids. (parts : Items Delta)
            × EntryStandsFor parts (pairs_since self.now.elements store.now.elements)
            × (ids ≡ part_ids parts)) }
    {
        let alloc = *self.elements.allocator();
        let parts = parts_since(alloc, &self.elements, store)?;
        Ok(List::from_vec(ids_of(alloc, &parts)?))
    }
}
