//! A store.

ghost use Rattle.std.specs.Prelude.{◌≡◌, ◌+◌, ◌<◌, ◌≤◌, ◌≢◌, List as Items, [], ◌∷◌, ◌++◌, true, length, filter_map, slice_get, option_copied, AllPairs, Contains, IsSome, IfSome, IsOk, IfOk, IfErr, OnOk, OnErr, Ok, false};
ghost use Rattle.frac_keys.specs.Rising.{are_rising};
ghost use Rattle.elem.specs.ElementValue.{ElementValue};
ghost use Rattle.elem.specs.Facts.{IsElement};
ghost use Rattle.elem_store.specs.Updates.{AreStored, HasTaken, element_of, ids_of, is_taken};

use crate::indexed::Places;
use crate::places::{add, find_place, moved_out, replace_beaten};
use crate::shelf::Shelf;
use crate::sorting::places_by_id;
use board_base::List;
use elem::Element;
use json_text::Text;
use std::alloc::{AllocError, Global};
use std::marker::Model;

/// The stored elements of a board, one for each id, in the order of the ids.
///
/// They are kept as they came, beside their places in the order of their ids: a new element
/// moves places alone, and of those few.
pub struct Store {
    elements: Shelf,
    places: Places,
}

// By hand, so that whoever drops a store sees one call and not what it holds.
impl Drop for Store {
    fn drop(self) {
        let Store {
            elements: _elements,
            places: _places,
        } = self;
    }
}

impl Model for Store {
    ghost use Rattle.std.specs.Prelude.{length};
    ghost use Rattle.elem_store.specs.Places.{elements_at, spare_in, AreInOrder};
    ghost use Rattle.elem_store.specs.Stock.{Held};

    ghost Value = { Held };

    ghost view = { λ s. record {
      elements = elements_at s.elements.items s.places.places;
      spare = spare_in s.elements.room (length s.places.places) s.places.spare;
      given = s.elements.items;
    } };

    ghost invariant = { λ s. AreInOrder s.elements.items s.places.places };
}

impl Store {
    /// With no element.
    pub fn new(alloc: Global) -> Store
        ensures { result.elements ≡ [] }
    {
        Store {
            elements: Shelf::new(alloc),
            places: Places::new(alloc),
        }
    }

    /// What is stored of these updates: of each id the one that no other one of the id beats.
    /// Where no id comes twice, the elements stay in their list.
    pub fn from_updates(alloc: Global, updates: List<Element>) -> Result<Store, AllocError>
        ensures { IfOk result (λ store. AreStored updates store.elements) }
    {
        let elements = Shelf::of(alloc, updates.into_vec())?;
        match places_by_id(alloc, &elements)? {
            Some(places) => Ok(Store {
                elements,
                places: Places::of(alloc, places),
            }),
            None => taken(alloc, elements),
        }
    }

    /// Takes the elements in their order. For want of memory none is taken.
    pub fn take_list(&mut self, alloc: Global, elements: List<Element>) -> Result<(), AllocError>
        ensures stored { OnOk result ((updates : Items ElementValue)
            → AreStored updates self.old.elements
            → AreStored (updates ++ elements) self.new.elements) }
        ensures err { OnErr result (self.new.elements ≡ self.old.elements) }
    {
        if self.len() == 0 {
            *self = Store::from_updates(alloc, elements)?;
            return Ok(());
        }
        self.reserve(elements.as_slice().len())?;
        self.take_all(elements);
        Ok(())
    }

    /// Makes room for this many new ids. The elements stay, also for want of memory.
    pub fn reserve(&mut self, n: usize) -> Result<(), AllocError>
        ensures room { OnOk result (n ≤ self.new.spare) }
        ensures kept { self.old.spare ≤ self.new.spare }
        ensures elements { self.new.elements ≡ self.old.elements }
    {
        self.places.reserve(n)?;
        self.elements.reserve(n)
    }

    /// Stores the element where its id is new or it beats the stored one, and tells whether it
    /// did. For want of memory it hands the element back, and the stored elements are unchanged.
    /// It takes no memory where the id is stored or there is room for a new one.
    pub fn take(&mut self, e: Element) -> Result<bool, (Element, AllocError)>
        // What is stored of a list of updates is then stored of the list with this one at its
        // end.
        ensures stored { OnOk result ((updates : Items ElementValue)
            → AreStored updates self.old.elements
            → AreStored (updates ++ e ∷ []) self.new.elements) }

        ensures after { OnOk result (HasTaken self.old.elements e self.new.elements) }
        ensures taken { IfOk result (λ taken. taken ≡ is_taken self.old.elements e) }
        ensures left { result ≡ Ok false → self.new.elements ≡ self.old.elements }

        ensures err { IfErr result (λ back. (self.new.elements ≡ self.old.elements)
            × (back.0 ≡ e)) }
        ensures known { IsSome (element_of self.old.elements e.id) → IsOk result }
        ensures room { 0 < self.old.spare → IsOk result }
        ensures spare { self.old.spare ≤ self.new.spare + 1 }
    {
        match find_place(&self.elements, &self.places, &e.id) {
            Ok(i) => {
                let place = self.places.get(i).unwrap();
                Ok(replace_beaten(&mut self.elements, place, e))
            }
            Err(i) => {
                add(&mut self.elements, &mut self.places, i, e)?;
                Ok(true)
            }
        }
    }

    /// Takes the elements in their order. There is room for them, so it takes no memory.
    pub fn take_all(&mut self, elements: List<Element>)
        requires { length elements ≤ self.old.spare }
        ensures { (updates : Items ElementValue) → AreStored updates self.old.elements
            → AreStored (updates ++ elements) self.new.elements }
    {
        for e in elements.into_vec() {
            match self.take(e) {
                Ok(_) => {}
                Err(_) => unreachable!(),
            }
        }
    }

    /// The stored element of this id. It takes no memory.
    pub fn get(&self, id: &Text) -> Option<&Element>
        ensures element { option_copied result ≡ element_of self.now.elements id.now }
        ensures is_element { IfSome (option_copied result) IsElement }
        ensures ordered { are_rising (ids_of self.now.elements) ≡ true }
    {
        match find_place(&self.elements, &self.places, id) {
            Ok(i) => self.at(i),
            Err(_) => None,
        }
    }

    /// The stored element at this index, in the order of the ids. It takes no memory.
    pub fn at(&self, i: usize) -> Option<&Element>
        ensures element { option_copied result ≡ slice_get self.now.elements i }
        ensures is_element { IfSome (option_copied result) IsElement }
        ensures ordered { are_rising (ids_of self.now.elements) ≡ true }
    {
        let place = self.places.get(i)?;
        self.elements.get(place)
    }

    /// How many elements are stored.
    pub fn len(&self) -> usize
        ensures exact { result ≡ length self.now.elements }
        ensures ordered { are_rising (ids_of self.now.elements) ≡ true }
    {
        self.places.len()
    }

    /// The stored elements in the order in which their ids came. It takes no memory.
    pub fn given(&self) -> &[Element]
        ensures exact { result.now ≡ self.now.given }
        ensures ordered { are_rising (ids_of self.now.elements) ≡ true }
        ensures stored { (e : ElementValue) → Contains self.now.given e
            → Contains self.now.elements e }
        ensures all { (e : ElementValue) → Contains self.now.elements e
            → Contains self.now.given e }
    {
        self.elements.as_slice()
    }

    /// The same, moved out. It takes no memory.
    pub fn into_given(self) -> Vec<Element>
        ensures { result.items ≡ self.given }
    {
        let Store {
            elements,
            places: _places,
        } = self;
        elements.into_vec()
    }

    /// The stored elements at these indices, in the order of the indices, moved out; the others
    /// are dropped. No index comes twice. Fails only for want of memory.
    pub fn into_elements_at(
        self,
        alloc: Global,
        indices: &[usize],
    ) -> Result<Vec<Element>, AllocError>
        requires { AllPairs (λ i j. i ≢ j) indices.now }
        ensures { IfOk result (λ moved. moved.items
            ≡ filter_map (slice_get self.elements) indices.now) }
    {
        let Store { elements, places } = self;
        moved_out(alloc, elements, &places, indices)
    }
}

/// The store that took these elements one after the other.
fn taken(alloc: Global, elements: Shelf) -> Result<Store, AllocError>
    ensures { IfOk result (λ store. AreStored elements.items store.elements) }
{
    let elements = elements.into_vec();
    let mut store = Store::new(alloc);
    store.reserve(elements.len())?;
    store.take_all(List::from_vec(elements));
    Ok(store)
}
