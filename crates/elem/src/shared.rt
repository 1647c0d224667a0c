//! Elements that are shared.

ghost use Rattle.std.specs.Prelude.{◌≡◌, IfOk};

use crate::element::Element;
use json_text::Text;
use std::alloc::{AllocError, Global};
use std::marker::Model;
use std::rc::Rc;

/// An element that never changes: its copies share one place in memory, and little is moved where
/// another one comes before it in a list. Contracts see the element.
pub struct SharedElement {
    element: Rc<Element>,
}

// By hand, so that whoever drops a shared element sees one call and not what it holds.
impl Drop for SharedElement {
    fn drop(self) {
        let SharedElement { element: _element } = self;
    }
}

impl Model for SharedElement {
    ghost use Rattle.elem.specs.ElementValue.{ElementValue};

    ghost Value = { ElementValue };

    ghost view = { λ s. s.element.value };
}

impl SharedElement {
    /// The element, to be shared.
    pub fn new(alloc: Global, e: Element) -> Result<SharedElement, AllocError>
        ensures { IfOk result (λ shared. shared ≡ e) }
    {
        let element = Rc::new(alloc, e)?;
        Ok(SharedElement { element })
    }

    /// A copy of an element, to be shared.
    pub fn copy(alloc: Global, e: &Element) -> Result<SharedElement, AllocError>
        ensures { IfOk result (λ shared. shared ≡ e.now) }
    {
        SharedElement::new(alloc, e.try_clone()?)
    }

    /// The same element once more. It takes no memory, and fails only where it is shared too often
    /// to be counted.
    pub fn try_clone(&self) -> Result<SharedElement, AllocError>
        ensures { IfOk result (λ copy. copy ≡ self.now) }
    {
        Ok(SharedElement {
            element: self.element.clone()?,
        })
    }

    /// The id of the element.
    pub fn id(&self) -> &Text
        ensures { result.now ≡ self.now.id }
    {
        &self.element.id
    }

    /// The element.
    pub fn get(&self) -> &Element
        ensures { result.now ≡ self.now }
    {
        &self.element
    }
}
