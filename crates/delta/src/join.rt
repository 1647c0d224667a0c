//! Lists that change item by item.

ghost use Rattle.std.specs.Prelude.{◌≡◌, [], ◌∷◌, ◌++◌, not, ◌&&◌, filter, true, bytes_eq, IfOk, OnOk, if◌then◌else◌};
ghost use Rattle.json_text.proofs.CallerLemmas.{bytes_eq-true};
ghost use Rattle.json_text.specs.FirstOccurrences.{first_occurrences};
ghost use Rattle.delta.specs.Joined.{are_same, is_in, stays, is_gained, joined};
ghost use Rattle.elem.specs.Listings.{same_listing_entry-exact, same_listing_entry, same_role};

use board_base::List;
use elem::{BoundRef, Role};
use json_text::Text;
use std::alloc::{AllocError, Global};

/// An item of a list that changes item by item.
pub(crate) trait Item: Sized + Drop {
    ghost use Rattle.std.specs.Prelude.{◌≡◌, Bool, true, IfOk};

    /// Whether two items are the same.
    ghost same: { Self → Self → Bool };

    fn same(&self, other: &Self) -> bool
        ensures { result ≡ same self.now other.now };

    /// An equal item.
    fn try_clone(&self) -> Result<Self, AllocError>
        ensures { IfOk result (λ copy. copy ≡ self.now) };

    ghost exact: { (a b : Self) → same a b ≡ true → a ≡ b };
}

impl Item for Text {
    ghost same = { bytes_eq };

    ghost exact = { bytes_eq-true };

    fn same(&self, other: &Text) -> bool {
        self == other
    }

    fn try_clone(&self) -> Result<Text, AllocError> {
        self.try_clone()
    }
}

impl Item for BoundRef {
    ghost same = { same_listing_entry };

    ghost exact = { same_listing_entry-exact };

    fn same(&self, other: &BoundRef) -> bool {
        same_role(self.role, other.role) && self.id == other.id
    }

    fn try_clone(&self) -> Result<BoundRef, AllocError> {
        self.try_clone()
    }
}

/// Whether two roles are the same.
fn same_role(role: Role, other: Role) -> bool
    ensures { result ≡ same_role role other }
{
    role == other
}

/// Whether two lists are the same, item by item. It takes no memory.
pub(crate) fn are_same<T: Item>(items: &List<T>, others: &List<T>) -> bool
    ensures { result ≡ are_same T.same items.now others.now }
{
    let (items, others) = (items.as_slice(), others.as_slice());
    items.len() == others.len()
        && items
            .iter()
            .zip(others)
            .all(|(item, other)| item.same(other))
}

/// The list to which the change from `before` to `after` is applied.
pub(crate) fn join<T: Item>(
    alloc: Global,
    before: &List<T>,
    after: &List<T>,
    now: &List<T>,
) -> Result<List<T>, AllocError>
    ensures { IfOk result (λ list. list ≡ joined T.same before.now after.now now.now) }
{
    if are_same(now, before) {
        return copy(after);
    }
    let mut items = kept(alloc, before, after, now)?;
    items.append(&mut gained(alloc, before, now, after)?)?;
    Ok(List::from_vec(items))
}

/// An equal list.
fn copy<T: Item>(items: &List<T>) -> Result<List<T>, AllocError>
    ensures { IfOk result (λ copy. copy ≡ items.now) }
{
    items.try_clone_with(T::try_clone)
}

/// The items that stay.
fn kept<T: Item>(
    alloc: Global,
    before: &List<T>,
    after: &List<T>,
    now: &List<T>,
) -> Result<Vec<T>, AllocError>
    ensures { IfOk result (λ items. items.items ≡ filter (stays T.same before.now after.now)
        now.now) }
{
    let mut items = Vec::new(alloc);
    for item in now.as_slice() {
        keep(&mut items, before, after, item)?;
    }
    Ok(items)
}

/// Adds the item if it stays.
fn keep<T: Item>(
    items: &mut Vec<T>,
    before: &List<T>,
    after: &List<T>,
    item: &T,
) -> Result<(), AllocError>
    ensures { OnOk result (items.new.items
        ≡ (if stays T.same before.now after.now item.now then items.old.items ++ item.now
        ∷ [] else items.old.items)) }
{
    if stays(before.as_slice(), after.as_slice(), item) {
        items.push(item.try_clone()?)?;
    }
    Ok(())
}

/// The items that are gained.
fn gained<T: Item>(
    alloc: Global,
    before: &List<T>,
    now: &List<T>,
    after: &List<T>,
) -> Result<Vec<T>, AllocError>
    ensures { IfOk result (λ items. items.items ≡ first_occurrences T.same
        (filter (is_gained T.same before.now now.now) after.now)) }
{
    let mut items = Vec::new(alloc);
    for item in after.as_slice() {
        gain(&mut items, before, now, item)?;
    }
    Ok(items)
}

/// Adds the item if it is gained and not among the others.
fn gain<T: Item>(
    items: &mut Vec<T>,
    before: &List<T>,
    now: &List<T>,
    item: &T,
) -> Result<(), AllocError>
    ensures { OnOk result (items.new.items
        ≡ (if is_gained T.same before.now now.now item.now && not
        (is_in T.same items.old.items item.now) then items.old.items ++ item.now
        ∷ [] else items.old.items)) }
{
    if is_gained(before.as_slice(), now.as_slice(), item) && !is_in(items, item) {
        items.push(item.try_clone()?)?;
    }
    Ok(())
}

/// Whether an item stays: it isn't one that was before and isn't after.
fn stays<T: Item>(before: &[T], after: &[T], item: &T) -> bool
    ensures { result ≡ stays T.same before.now after.now item.now }
{
    !is_in(before, item) || is_in(after, item)
}

/// Whether an item is gained: it wasn't before and isn't there now.
fn is_gained<T: Item>(before: &[T], now: &[T], item: &T) -> bool
    ensures { result ≡ is_gained T.same before.now now.now item.now }
{
    !is_in(before, item) && !is_in(now, item)
}

/// Whether an item is in a list.
fn is_in<T: Item>(items: &[T], item: &T) -> bool
    ensures { result ≡ is_in T.same items.now item.now }
{
    items.iter().any(|other| other.same(item))
}
