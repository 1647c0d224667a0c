//! A shelf.

ghost use Rattle.std.specs.Prelude.{◌≡◌, ◌≢◌, ◌++◌, ◌∷◌, [], ℕ, List as Items, Ok, Some, None, true, false, map, bytes_eq, if◌then◌else◌, option_copied, option_map, IfOk, IfErr, OnOk, IsOk, IsSome};
ghost use Rattle.std.specs.List.{join_with_byte};
ghost use Rattle.frac_keys.specs.Rising.{are_rising};
ghost use Rattle.library.specs.Best.{AreBest, HasPut, ids_of, is_put, item_of};
ghost use Rattle.library.specs.Best as best;
ghost use Rattle.library.specs.inner.Filed.{filed, items_in, IsFiled};
ghost use Rattle.library.specs.Items.{item_text};
ghost use Rattle.library.specs.declared.item.Item.{Item};

use crate::item::Item;
use crate::ordering::is_better;
use crate::printing::push_item;
use board_base::List;
use json_text::Text;
use scene_json::push_comma;
use std::alloc::{AllocError, Global};
use std::collections::BTreeMap;
use std::marker::Model;

/// The best item of each id that was put here, in the order of the ids.
pub struct Shelf {
    alloc: Global,
    items: BTreeMap<Text, Item>,
}

// By hand, so that whoever drops a shelf sees one call and not what it holds.
impl Drop for Shelf {
    fn drop(self) {
        let Shelf {
            alloc: _alloc,
            items: _items,
        } = self;
    }
}

impl Model for Shelf {
    ghost use Rattle.std.specs.Prelude.{List as Items};
    ghost use Rattle.library.specs.inner.Filed.{items_in, IsFiled};
    ghost use Rattle.library.specs.declared.item.Item.{Item};

    ghost Value = { Items Item };

    ghost view = { λ s. items_in s.items.entries };

    ghost invariant = { λ s. IsFiled s.items.entries };
}

impl Shelf {
    /// With no item.
    pub fn new(alloc: Global) -> Shelf
        ensures { result ≡ [] }
    {
        Shelf {
            alloc,
            items: BTreeMap::new(alloc),
        }
    }

    /// The best items of these. Fails only for want of memory.
    pub fn from_items(alloc: Global, items: List<Item>) -> Result<Shelf, AllocError>
        ensures { IfOk result (AreBest items) }
    {
        let mut shelf = Shelf::new(alloc);
        for item in items.into_vec() {
            match shelf.put(item) {
                Ok(_) => {}
                Err((_item, error)) => return Err(error),
            }
        }
        Ok(shelf)
    }

    /// Keeps the item where its id is new or it is better than the one of its id, and tells whether
    /// it did. For want of memory it hands the item back, and the kept items are unchanged. It
    /// takes no memory where an item of the id is kept that was made at another time.
    pub fn put(&mut self, item: Item) -> Result<bool, (Item, AllocError)>
        // The best items of a list are then those of the list with this one at its end.
        ensures best { OnOk result ((items : Items Item) → AreBest items self.old
            → AreBest (items ++ item ∷ []) self.new) }

        ensures after { OnOk result (HasPut self.old item self.new) }
        ensures put { IfOk result (λ put. put ≡ is_put self.old item) }
        ensures left { result ≡ Ok false → self.new ≡ self.old }
        ensures err { IfErr result (λ back. (self.new ≡ self.old) × (back.0 ≡ item)) }
        ensures known { (other : Item) → item_of self.old item.id ≡ Some other
            → other.created ≢ item.created → IsOk result }
    {
        put_among(self.alloc, &mut self.items, item)
    }

    /// The item of this id. It takes no memory.
    pub fn get(&self, id: &Text) -> Option<&Item>
        ensures item { option_copied result ≡ item_of self.now id.now }
        ensures ordered { are_rising (ids_of self.now) ≡ true }
    {
        filed_under(&self.items, id)
    }

    /// Appends the texts of the items, with commas between them. After want of memory a part of
    /// them may stand there.
    pub(crate) fn push_items(&self, out: &mut Vec<u8>) -> Result<(), AllocError>
        ensures { OnOk result (out.new.items ≡ out.old.items
            ++ join_with_byte 44 (map item_text self.now)) }
    {
        push_filed(out, &self.items)
    }
}

/// Files the item where its id is new or it is better, and tells whether it did.
fn put_among(
    alloc: Global,
    items: &mut BTreeMap<Text, Item>,
    item: Item,
) -> Result<bool, (Item, AllocError)>
    requires { IsFiled items.old.entries }
    ensures filed { IsFiled items.new.entries }
    ensures after { OnOk result
        (HasPut (items_in items.old.entries) item (items_in items.new.entries)) }
    ensures put { IfOk result (λ put. put ≡ is_put (items_in items.old.entries) item) }
    ensures left { result ≡ Ok false → items.new.entries ≡ items.old.entries }
    ensures err { IfErr result (λ back. (items.new.entries ≡ items.old.entries) × (back.0 ≡ item)) }
    ensures known { (other : Item) → filed items.old.entries item.id ≡ Some other
        → other.created ≢ item.created → IsOk result }
{
    match is_better_filed(alloc, items, &item) {
        Ok(None) => {
            add(items, item)?;
            Ok(true)
        }
        Ok(Some(true)) => {
            replace(items, item);
            Ok(true)
        }
        Ok(Some(false)) => Ok(false),
        Err(error) => Err((item, error)),
    }
}

/// Whether an item is better than the one that is filed under its id, if there is one.
fn is_better_filed(
    alloc: Global,
    items: &BTreeMap<Text, Item>,
    item: &Item,
) -> Result<Option<bool>, AllocError>
    ensures better { IfOk result (λ better. better
        ≡ option_map (best.is_better item.now) (filed items.now.entries item.now.id)) }
    ensures known { (other : Item) → filed items.now.entries item.now.id ≡ Some other
        → other.created ≢ item.now.created → IsOk result }
{
    match filed_under(items, &item.id) {
        Some(known) => Ok(Some(is_better(alloc, item, known)?)),
        None => Ok(None),
    }
}

/// The item that is filed under an id.
fn filed_under<'a>(items: &'a BTreeMap<Text, Item>, id: &Text) -> Option<&'a Item>
    ensures { option_copied result ≡ filed items.now.entries id.now }
{
    items.get(id)
}

/// Files the item under its id, which is new. For want of memory it hands the item back.
fn add(items: &mut BTreeMap<Text, Item>, item: Item) -> Result<(), (Item, AllocError)>
    requires filed { IsFiled items.old.entries }
    requires new { filed items.old.entries item.id ≡ None }
    ensures filed { IsFiled items.new.entries }
    ensures after { OnOk result ((id : Items ℕ) → filed items.new.entries id
        ≡ (if bytes_eq id item.id then Some item else filed items.old.entries id)) }
    ensures err { IfErr result (λ back. (items.new.entries ≡ items.old.entries) × (back.0 ≡ item)) }
{
    let id = match item.id.try_clone() {
        Ok(id) => id,
        Err(error) => return Err((item, error)),
    };
    match items.insert(id, item) {
        Ok(_) => Ok(()),
        Err(failed) => {
            let (_id, item) = failed.value;
            Err((item, AllocError))
        }
    }
}

/// Files the item in place of the one that is filed under its id.
fn replace(items: &mut BTreeMap<Text, Item>, item: Item)
    requires filed { IsFiled items.old.entries }
    requires known { IsSome (filed items.old.entries item.id) }
    ensures filed { IsFiled items.new.entries }
    ensures after { (id : Items ℕ) → filed items.new.entries id
        ≡ (if bytes_eq id item.id then Some item else filed items.old.entries id) }
{
    match items.get_mut(&item.id) {
        Some(known) => *known = item,
        None => unreachable!(),
    }
}

/// Appends the texts of filed items, with commas between them.
fn push_filed(out: &mut Vec<u8>, items: &BTreeMap<Text, Item>) -> Result<(), AllocError>
    ensures { OnOk result (out.new.items ≡ out.old.items
        ++ join_with_byte 44 (map item_text (items_in items.now.entries))) }
{
    for (i, item) in items.values().enumerate() {
        push_comma(out, i)?;
        push_item(out, item)?;
    }
    Ok(())
}
