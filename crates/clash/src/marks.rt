//! Ids, versions and nonces.

ghost use Rattle.std.specs.Prelude.{◌≡◌, [], ◌∷◌, ◌++◌, IfOk, OnOk, OnErr};
ghost use Rattle.clash.specs.inner.Marks.{mark_of, place_of, AreListed};

use elem::Element;
use json_text::Text;
use std::alloc::AllocError;
use std::collections::BTreeMap;

/// An id, a version and a nonce.
pub(crate) type Mark = (Text, u64, u64);

/// The mark of an element.
pub(crate) fn mark_of(e: &Element) -> Result<Mark, AllocError>
    ensures { IfOk result (λ mark. mark ≡ mark_of e.now) }
{
    Ok((e.id.try_clone()?, e.version, e.nonce))
}

/// The place that is listed for a mark, if there is one. It takes no memory.
pub(crate) fn place_of(places: &BTreeMap<Mark, usize>, mark: &Mark) -> Option<usize>
    ensures { result ≡ place_of places.now.entries mark.now }
{
    places.get(mark).copied()
}

/// Adds the first element of a mark, and lists its place. For want of memory nothing is changed.
pub(crate) fn add(
    firsts: &mut Vec<Element>,
    places: &mut BTreeMap<Mark, usize>,
    mark: Mark,
    e: Element,
) -> Result<(), AllocError>
    requires listed { AreListed firsts.old.items places.old.entries }
    requires mark { mark ≡ mark_of e }
    requires new { place_of places.old.entries mark ≡ None }
    ensures firsts { OnOk result (firsts.new.items ≡ firsts.old.items ++ e ∷ []) }
    ensures listed { AreListed firsts.new.items places.new.entries }
    ensures err { OnErr result (firsts.new.items ≡ firsts.old.items) }
{
    firsts.reserve(1)?;
    places.insert(mark, firsts.len())?;
    match firsts.push(e) {
        Ok(()) => Ok(()),
        Err(_) => unreachable!(),
    }
}
