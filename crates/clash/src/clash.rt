//! Noted elements.

ghost use Rattle.std.specs.Prelude.{◌≡◌, [], MatchBool, IfOk, OnOk, OnErr};
ghost use Rattle.clash.specs.Firsts.{HasClash, IsLikeFirst, firsts_with};

use crate::marks::{Mark, add, mark_of, place_of};
use elem::{Element, same};
use std::alloc::{AllocError, Global};
use std::collections::BTreeMap;
use std::marker::Model;

/// The first noted element of each id, version and nonce, in the order of noting.
///
/// They are kept in this order, and found by an ordered map from id, version and nonce to their
/// places.
#[derive(Drop)]
pub struct Clash {
    firsts: Vec<Element>,
    places: BTreeMap<Mark, usize>,
}

impl Model for Clash {
    ghost use Rattle.std.specs.Prelude.{List};
    ghost use Rattle.elem.specs.ElementValue.{ElementValue};
    ghost use Rattle.clash.specs.inner.Marks.{AreListed};

    ghost Value = { List ElementValue };

    ghost view = { λ c. c.firsts.items };

    ghost invariant = { λ c. AreListed c.firsts.items c.places.entries };
}

impl Clash {
    /// With no noted element.
    pub fn new(alloc: Global) -> Clash
        ensures { result ≡ [] }
    {
        Clash {
            firsts: Vec::new(alloc),
            places: BTreeMap::new(alloc),
        }
    }

    /// Notes the element, and tells whether the first noted one of its id, version and nonce isn't
    /// the same. For want of memory nothing is noted.
    pub fn note(&mut self, e: &Element) -> Result<bool, AllocError>
        ensures clash { IfOk result (λ clashes. MatchBool clashes (HasClash self.old e.now)
            (IsLikeFirst self.old e.now)) }
        ensures noted { OnOk result (self.new ≡ firsts_with self.old e.now) }
        ensures err { OnErr result (self.new ≡ self.old) }
    {
        let mark = mark_of(e)?;
        match place_of(&self.places, &mark) {
            Some(place) => {
                let first = &self.firsts[place];
                Ok(!same(first, e))
            }
            None => {
                add(&mut self.firsts, &mut self.places, mark, e.try_clone()?)?;
                Ok(false)
            }
        }
    }
}
