//! Elements as they came, with the first bytes of their ids beside them.

ghost use Rattle.std.specs.Prelude.{◌≡◌, ◌+◌, ◌-◌, ◌<◌, ◌≤◌, [], ◌∷◌, ◌++◌, length, map, slice_get, slice_set, option_copied, IfSome, IfOk, IfErr, OnOk, IsOk};
ghost use Rattle.std.specs.Cmp.Lexicographic.{slice_cmp};
ghost use Rattle.std.specs.Ordering.{nat_cmp};
ghost use Rattle.board_base.specs.Fronts.{front_of};
ghost use Rattle.elem.specs.Facts.{IsElement};
ghost use Rattle.elem_store.specs.inner.Fronts.{front_at};
ghost use Rattle.elem_store.specs.inner.Places as places;

use board_base::{Front, bytes_order, front_of};
use elem::Element;
use json_text::Text;
use std::alloc::{AllocError, Global};
use std::cmp::Ordering;
use std::marker::Model;

/// Elements as they came. Beside them stand the fronts of their ids, which are close together in
/// memory, so that ids are mostly told apart without a look at an element.
#[derive(Drop)]
pub(crate) struct Shelf {
    elements: Vec<Element>,
    fronts: Vec<Front>,
}

impl Model for Shelf {
    ghost use Rattle.std.specs.Prelude.{◌≡◌, map, min, vec_capacity};
    ghost use Rattle.elem_store.specs.inner.Fronts.{Shelved, front_at};

    ghost Value = { Shelved };

    ghost view = { λ s. record {
      items = s.elements.items;
      room = min (vec_capacity s.elements)
          (vec_capacity s.fronts);
    } };

    ghost invariant = { λ s. s.fronts.items ≡ map front_at s.elements.items };
}

impl Shelf {
    /// With no element.
    pub(crate) fn new(alloc: Global) -> Shelf
        ensures { result.items ≡ [] }
    {
        Shelf {
            elements: Vec::new(alloc),
            fronts: Vec::new(alloc),
        }
    }

    /// These elements. Fails only for want of memory.
    pub(crate) fn of(alloc: Global, elements: Vec<Element>) -> Result<Shelf, AllocError>
        ensures { IfOk result (λ shelf. shelf.items ≡ elements.items) }
    {
        let fronts = fronts_of(alloc, &elements)?;
        Ok(Shelf { elements, fronts })
    }

    /// How many elements there are.
    pub(crate) fn len(&self) -> usize
        ensures { result ≡ length self.now.items }
    {
        self.elements.len()
    }

    /// The elements.
    pub(crate) fn as_slice(&self) -> &[Element]
        ensures { result.now ≡ self.now.items }
    {
        self.elements.as_slice()
    }

    /// The elements, moved out.
    pub(crate) fn into_vec(self) -> Vec<Element>
        ensures { result.items ≡ self.items }
    {
        let Shelf {
            elements,
            fronts: _fronts,
        } = self;
        elements
    }

    /// The element at this place. That it is one, a read of it tells.
    pub(crate) fn get(&self, place: usize) -> Option<&Element>
        ensures element { option_copied result ≡ slice_get self.now.items place }
        ensures is_element { IfSome (option_copied result) IsElement }
    {
        let e = self.elements.get(place)?;
        let _id = &e.id;
        Some(e)
    }

    /// How the id of the element at a place compares with another id, whose front this is. All
    /// places that are searched have an element.
    pub(crate) fn order_at(&self, place: usize, id: &Text, front: Front) -> Ordering
        requires { front ≡ front_of id.now }
        ensures { result ≡ places.order_at self.now.items id.now place }
    {
        let Some(known) = front_at(&self.fronts, place) else {
            return Ordering::Less;
        };
        match bytes_order(&known, &front) {
            Ordering::Less => Ordering::Less,
            Ordering::Greater => Ordering::Greater,
            Ordering::Equal => self.whole_order_at(place, id),
        }
    }

    /// The same, by the whole ids.
    fn whole_order_at(&self, place: usize, id: &Text) -> Ordering
        ensures { result ≡ places.order_at self.now.items id.now place }
    {
        match self.get(place) {
            Some(e) => bytes_order(e.id.as_bytes(), id.as_bytes()),
            None => Ordering::Less,
        }
    }

    /// How the ids of the elements at two places compare; where there is none the id is empty.
    pub(crate) fn order_between(&self, place: usize, other: usize) -> Ordering
        ensures { result ≡ slice_cmp nat_cmp (places.id_at self.now.items place)
            (places.id_at self.now.items other) }
    {
        match bytes_order(&self.front(place), &self.front(other)) {
            Ordering::Less => Ordering::Less,
            Ordering::Greater => Ordering::Greater,
            Ordering::Equal => bytes_order(self.id(place), self.id(other)),
        }
    }

    /// The front of the id at a place as one number, in the order of the fronts.
    pub(crate) fn front_number(&self, place: usize) -> u64 {
        u64::from_be_bytes(self.front(place))
    }

    /// The front of the id at a place.
    fn front(&self, place: usize) -> Front
        ensures { result ≡ front_of (places.id_at self.now.items place) }
    {
        match front_at(&self.fronts, place) {
            Some(front) => front,
            None => [0; 8],
        }
    }

    /// The id at a place.
    fn id(&self, place: usize) -> &[u8]
        ensures { result.now ≡ places.id_at self.now.items place }
    {
        match self.get(place) {
            Some(e) => e.id.as_bytes(),
            None => &[],
        }
    }

    /// Makes room for this many more. The elements stay, also for want of memory.
    pub(crate) fn reserve(&mut self, n: usize) -> Result<(), AllocError>
        ensures room { OnOk result (length self.old.items + n ≤ self.new.room) }
        ensures kept { self.old.room ≤ self.new.room }
        ensures items { self.new.items ≡ self.old.items }
    {
        self.fronts.reserve(n)?;
        self.elements.reserve(n)
    }

    /// Adds the element at the end, or hands it back for want of memory. It takes no memory where
    /// there is room.
    pub(crate) fn push(&mut self, e: Element) -> Result<(), (Element, AllocError)>
        ensures ok { OnOk result (self.new.items ≡ self.old.items ++ e ∷ []) }
        ensures err { IfErr result (λ back. (self.new.items ≡ self.old.items) × (back.0 ≡ e)) }
        ensures room { length self.old.items < self.old.room → IsOk result }
        ensures kept { self.old.room ≤ self.new.room }
    {
        if let Err(error) = self.fronts.reserve(1) {
            return Err((e, error));
        }
        let front = front_of(e.id.as_bytes());
        if let Err(failed) = self.elements.push(e) {
            return Err((failed.value, AllocError));
        }
        match self.fronts.push(front) {
            Ok(()) => Ok(()),
            Err(_) => unreachable!(),
        }
    }

    /// Puts the element at this place, in place of the one there.
    pub(crate) fn set(&mut self, place: usize, e: Element)
        requires { place < length self.old.items }
        ensures items { self.new.items ≡ slice_set self.old.items place e }
        ensures room { self.new.room ≡ self.old.room }
    {
        self.fronts[place] = front_of(e.id.as_bytes());
        self.elements[place] = e;
    }
}

/// The front at a place.
fn front_at(fronts: &Vec<Front>, place: usize) -> Option<Front>
    ensures { result ≡ slice_get fronts.now.items place }
{
    fronts.get(place).copied()
}

/// The fronts of the ids of elements.
fn fronts_of(alloc: Global, elements: &Vec<Element>) -> Result<Vec<Front>, AllocError>
    ensures { IfOk result (λ fronts. fronts.items ≡ map front_at elements.now.items) }
{
    let mut fronts = Vec::with_capacity(alloc, elements.len())?;
    for e in elements {
        fronts.push(front_of(e.id.as_bytes()))?;
    }
    Ok(fronts)
}
