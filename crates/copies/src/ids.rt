//! Sets of ids.

ghost use Rattle.std.specs.Prelude.{◌≡◌, ℕ, List as Items, not, ◌||◌, bytes_eq, IfOk, OnOk, OnErr};
ghost use Rattle.std.specs.BTreeSet.{contains, IsUnchanged};
ghost use Rattle.std.specs.Cmp.Lexicographic.{slice_cmp};
ghost use Rattle.std.specs.Ordering.{nat_cmp};
ghost use Rattle.copies.specs.Copies.{is_among};

use elem::Element;
use json_text::Text;
use std::alloc::{AllocError, Global};
use std::collections::BTreeSet;

/// The ids of elements.
pub(crate) fn ids_of(alloc: Global, list: &[Element]) -> Result<BTreeSet<Text>, AllocError>
    ensures { IfOk result (λ ids. (id : Items ℕ)
        → contains (slice_cmp nat_cmp) ids id ≡ is_among list.now id) }
{
    let mut ids = BTreeSet::new(alloc);
    for e in list {
        see(&mut ids, e)?;
    }
    Ok(ids)
}

/// Adds the id of an element, and tells whether it is new. Fails only for want of memory; the set
/// is then unchanged.
pub fn see(ids: &mut BTreeSet<Text>, e: &Element) -> Result<bool, AllocError>
    ensures first { IfOk result (λ first. first
        ≡ not (contains (slice_cmp nat_cmp) ids.old e.now.id)) }
    ensures seen { OnOk result ((other : Items ℕ)
        → contains (slice_cmp nat_cmp) ids.new other
        ≡ (bytes_eq other e.now.id || contains (slice_cmp nat_cmp) ids.old other)) }
    ensures err { OnErr result (IsUnchanged ids.old ids.new) }
{
    let id = e.id.try_clone()?;
    Ok(ids.insert(id)?)
}
