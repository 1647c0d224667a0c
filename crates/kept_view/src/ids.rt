//! Sets of ids that are walked in the order in which they came.

ghost use Rattle.std.specs.Prelude.{◌≡◌, ℕ, List as Items, [], ◌||◌, bytes_eq, OnOk, IfOk};
ghost use Rattle.std.specs.List.{IsDistinct, IsDistinct-prop};
ghost use Rattle.links.specs.Tables.{has_seen};
ghost use Rattle.kept_view.specs.inner.Coming.{AreOthers};
ghost use Rattle.elem_store.specs.Updates.{is_among};

use json_text::Text;
use std::alloc::{AllocError, Global};
use std::collections::BTreeSet;

/// Ids, each once, in the order in which they came.
#[derive(Drop)]
pub(crate) struct Ids {
    pub(crate) list: Vec<Text>,
    seen: BTreeSet<Text>,
    ghost same: { (id : Items ℕ) → has_seen seen id ≡ is_among list.items id },
    ghost distinct: { IsDistinct bytes_eq list.items } by { IsDistinct-prop bytes_eq list.items },
}

impl Ids {
    /// With no id.
    pub(crate) fn new(alloc: Global) -> Ids
        ensures { result.list.items ≡ [] }
    {
        Ids {
            list: Vec::new(alloc),
            seen: BTreeSet::new(alloc),
        }
    }

    /// Whether an id is one of these.
    pub(crate) fn has(&self, id: &Text) -> bool
        ensures { result ≡ is_among self.now.list.items id.now }
    {
        self.seen.contains(id)
    }

    /// Adds an id, if it isn't there.
    pub(crate) fn add(&mut self, id: &Text) -> Result<(), AllocError>
        ensures { OnOk result ((other : Items ℕ)
            → is_among self.new.list.items other
            ≡ (bytes_eq other id.now || is_among self.old.list.items other)) }
    {
        if self.has(id) {
            return Ok(());
        }
        let listed = id.try_clone()?;
        self.list.reserve(1)?;
        self.seen.insert(id.try_clone()?)?;
        self.list.push_reserved(listed);
        Ok(())
    }

    /// Adds ids.
    pub(crate) fn add_all(&mut self, ids: &[Text]) -> Result<(), AllocError>
        ensures { OnOk result ((other : Items ℕ)
            → is_among self.new.list.items other
            ≡ (is_among ids.now other || is_among self.old.list.items other)) }
    {
        for id in ids {
            self.add(id)?;
        }
        Ok(())
    }

    /// The ids but for one, copied.
    pub(crate) fn without(&self, alloc: Global, id: &Text) -> Result<Ids, AllocError>
        ensures { IfOk result (λ ids. AreOthers id.now self.now.list.items ids.list.items) }
    {
        let mut ids = Ids::new(alloc);
        for other in &self.list {
            if *id != *other {
                ids.add(other)?;
            }
        }
        Ok(ids)
    }

    /// The same ids, copied.
    pub(crate) fn copied(&self, alloc: Global) -> Result<Ids, AllocError>
        ensures { IfOk result (λ ids. (id : Items ℕ)
            → is_among ids.list.items id ≡ is_among self.now.list.items id) }
    {
        let mut ids = Ids::new(alloc);
        ids.add_all(self.list.as_slice())?;
        Ok(ids)
    }
}
