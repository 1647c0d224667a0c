//! Settling the links of a list of elements.

ghost use Rattle.std.specs.Prelude.{◌≡◌, is_some, map, IfOk, OnOk};
ghost use Rattle.std.specs.List.{list_any};
ghost use Rattle.links.specs.Arrows.{settled_arrows};
ghost use Rattle.elem.specs.Order.{HaveDistinctIds};
ghost use Rattle.links.specs.Settled.{unlinked, ArrowsAgree, TextsAgree, HaveOneText, NameTargets};
ghost use Rattle.links.specs.inner.Settled.{is_linked};
ghost use Rattle.links.specs.Tables as tables;
ghost use Rattle.links.specs.Texts as texts;
ghost use Rattle.links.specs.Texts.{settled_texts};

use crate::arrows::Links;
use crate::names::Names;
use board_base::{List, change_each};
use elem::Element;
use std::alloc::{AllocError, Global};

/// The list with the containers of its texts settled: a text keeps its container exactly if it is
/// the container's text. The list's order is that of the scene. Fails only for want of memory.
pub fn settle_texts(alloc: Global, list: List<Element>) -> Result<List<Element>, AllocError>
    requires { HaveDistinctIds list }
    ensures exact { IfOk result (λ new. new ≡ settled_texts list) }
    ensures again { IfOk result (λ new. settled_texts new ≡ new) }

    // Only containers change, so the ids stay distinct.
    ensures others { IfOk result (λ new. map unlinked new ≡ map unlinked list) }
    ensures distinct { IfOk result HaveDistinctIds }
{
    let mut list = list.into_vec();
    settle_containers(alloc, &mut list)?;
    Ok(List::from_vec(list))
}

/// Takes from each element its container, if it doesn't keep it.
fn settle_containers(alloc: Global, list: &mut Vec<Element>) -> Result<(), AllocError>
    ensures { OnOk result (list.new.items ≡ settled_texts list.old.items) }
{
    if !name_containers(list) {
        return Ok(());
    }
    let kept = kept_containers(alloc, list)?;
    change_each(list, kept, set_container);
    Ok(())
}

/// Whether an element has a container.
fn name_containers(list: &[Element]) -> bool
    ensures { result ≡ list_any (λ e. is_some e.container) list.now }
{
    list.iter().any(|e| e.container.is_some())
}

/// For each element, whether it keeps its container as a text.
fn kept_containers(alloc: Global, list: &Vec<Element>) -> Result<Vec<bool>, AllocError>
    ensures { IfOk result (λ kept. kept.items ≡ map (texts.keeps_container list.now.items)
        list.now.items) }
{
    Names::of(alloc, list)?.kept_containers(alloc)
}

/// Takes from an element its container, if it doesn't keep it.
fn set_container(e: &mut Element, keeps: bool)
    ensures { e.new ≡ tables.with_container e.old keeps }
{
    if !keeps {
        e.container = None;
    }
}

/// The list with the ends of its arrows and the listings of its elements settled. The list's order
/// is that of the scene. Fails only for want of memory.
pub fn settle_arrows(alloc: Global, list: List<Element>) -> Result<List<Element>, AllocError>
    requires distinct { HaveDistinctIds list }
    requires texts { settled_texts list ≡ list }
    ensures exact { IfOk result (λ new. new ≡ settled_arrows list) }

    // An arrow names an element exactly if that element lists it, a text a container exactly if the
    // container lists it.
    ensures arrows { IfOk result ArrowsAgree }
    ensures texts { IfOk result TextsAgree }
    ensures one_text { IfOk result HaveOneText }
    ensures targets { IfOk result NameTargets }

    ensures again { IfOk result (λ new. settled_arrows new ≡ new) }
    ensures texts_again { IfOk result (λ new. settled_texts new ≡ new) }

    // Only listings and bindings change, so the ids stay distinct.
    ensures others { IfOk result (λ new. map unlinked new ≡ map unlinked list) }
    ensures distinct { IfOk result HaveDistinctIds }
{
    let mut list = list.into_vec();
    settle_links(alloc, &mut list)?;
    Ok(List::from_vec(list))
}

/// Gives each element its links.
fn settle_links(alloc: Global, list: &mut Vec<Element>) -> Result<(), AllocError>
    ensures { OnOk result (list.new.items ≡ settled_arrows list.old.items) }
{
    if !have_links(list) {
        return Ok(());
    }
    let links = links(alloc, list)?;
    change_each(list, links, set_links);
    Ok(())
}

/// Whether an element names another one or lists one.
fn have_links(list: &[Element]) -> bool
    ensures { result ≡ list_any is_linked list.now }
{
    list.iter().any(is_linked)
}

/// Whether an element names another one or lists one.
fn is_linked(e: &Element) -> bool
    ensures { result ≡ is_linked e.now }
{
    !e.bound.as_slice().is_empty()
        || e.container.is_some()
        || e.start_binding.is_some()
        || e.end_binding.is_some()
}

/// The links of each element.
fn links(alloc: Global, list: &Vec<Element>) -> Result<Vec<Links>, AllocError>
    ensures { IfOk result (λ links. links.items ≡ map (tables.links_of list.now.items)
        list.now.items) }
{
    Names::of(alloc, list)?.links(alloc)
}

/// Gives an element these links.
fn set_links(e: &mut Element, links: Links)
    ensures { e.new ≡ tables.with_links e.old links }
{
    if !links.keeps_start {
        e.start_binding = None;
    }
    if !links.keeps_end {
        e.end_binding = None;
    }
    e.bound = links.bound;
}
