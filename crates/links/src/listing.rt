//! A listing under way: entries, each once.

ghost use Rattle.std.specs.Prelude.{◌≡◌, ℕ, List as Items, [], ◌∷◌, ◌++◌, not, ◌||◌, bytes_eq, IfOk, OnOk};
ghost use Rattle.links.specs.Tables.{has_seen, with_listing_entry};
ghost use Rattle.links.specs.inner.Tables.{AreSeen};

use elem::{BoundRef, Role};
use json_text::Text;
use std::alloc::{AllocError, Global};
use std::collections::BTreeSet;

/// Entries, with the ids of those of arrows and of those of texts.
#[derive(Drop)]
pub(crate) struct Listing {
    pub(crate) entries: Vec<BoundRef>,
    pub(crate) arrows: BTreeSet<Text>,
    pub(crate) texts: BTreeSet<Text>,
}

impl Listing {
    /// Without an entry.
    pub(crate) fn new(alloc: Global) -> Listing
        ensures empty { result.entries.items ≡ [] }
        ensures seen { AreSeen result.entries.items result.arrows result.texts }
    {
        Listing {
            entries: Vec::new(alloc),
            arrows: BTreeSet::new(alloc),
            texts: BTreeSet::new(alloc),
        }
    }

    /// Adds an entry where it is missing.
    pub(crate) fn add(&mut self, id: &Text, role: Role) -> Result<(), AllocError>
        requires { AreSeen self.old.entries.items self.old.arrows self.old.texts }
        ensures entries { OnOk result (self.new.entries.items
            ≡ with_listing_entry self.old.entries.items (record { id = id.now; role = role })) }
        ensures seen { OnOk result (AreSeen self.new.entries.items self.new.arrows self.new.texts) }
    {
        match role {
            Role::Arrow => {
                if see(&mut self.arrows, id)? {
                    push(&mut self.entries, id, role)?;
                }
            }
            Role::Text => {
                if see(&mut self.texts, id)? {
                    push(&mut self.entries, id, role)?;
                }
            }
        }
        Ok(())
    }
}

/// Notes that an id is seen, and tells whether it is for the first time.
fn see(seen: &mut BTreeSet<Text>, id: &Text) -> Result<bool, AllocError>
    ensures first { IfOk result (λ first. first ≡ not (has_seen seen.old id.now)) }
    ensures seen { OnOk result ((other : Items ℕ) → has_seen seen.new other
        ≡ (bytes_eq other id.now || has_seen seen.old other)) }
{
    Ok(seen.insert(id.try_clone()?)?)
}

/// Adds an entry.
fn push(entries: &mut Vec<BoundRef>, id: &Text, role: Role) -> Result<(), AllocError>
    ensures { OnOk result (entries.new.items ≡ entries.old.items
        ++ record { id = id.now; role = role } ∷ []) }
{
    let id = id.try_clone()?;
    entries.push(BoundRef { id, role })?;
    Ok(())
}
