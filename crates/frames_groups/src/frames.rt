//! Frame names.

ghost use Rattle.std.specs.Prelude.{◌≡◌, ℕ, List as Items, map, IfOk};
ghost use Rattle.std.specs.Ordering.{nat_cmp};
ghost use Rattle.std.specs.Cmp.Lexicographic.{slice_cmp};
ghost use Rattle.std.specs.BTreeSet.{contains};
ghost use Rattle.frames_groups.specs.Frames.{is_frame, has_frame, keeps_frame, without_frame, framed, frames_settled, NameFrames};

use board_base::List;
use elem::{Element, Kind};
use json_text::Text;
use std::alloc::{AllocError, Global};
use std::collections::BTreeSet;

/// The elements, each with the frame name that it keeps: a frame or magicframe of the list has
/// none, and another element keeps a name that names one of these. Fails only for want of memory.
pub fn settle_frames(alloc: Global, list: List<Element>) -> Result<List<Element>, AllocError>
    ensures exact { IfOk result (λ settled. settled ≡ frames_settled list) }
    ensures named { IfOk result NameFrames }
    ensures others { IfOk result (λ settled. map without_frame settled ≡ map without_frame list) }
    ensures again { IfOk result (λ settled. frames_settled settled ≡ settled) }
{
    let mut elements = list.into_vec();
    let frames = frames_of(alloc, &elements)?;
    settle_each(&frames, &mut elements);
    Ok(List::from_vec(elements))
}

/// The ids of the frames among the elements.
fn frames_of(alloc: Global, elements: &Vec<Element>) -> Result<BTreeSet<Text>, AllocError>
    ensures { IfOk result (λ frames. (id : Items ℕ) → contains (slice_cmp nat_cmp) frames id
        ≡ has_frame elements.now.items id) }
{
    let mut frames = BTreeSet::new(alloc);
    for e in elements {
        if is_frame(e) {
            frames.insert(e.id.try_clone()?)?;
        }
    }
    Ok(frames)
}

/// Whether an element is a frame or a magicframe. It takes no memory.
pub fn is_frame(e: &Element) -> bool
    ensures { result ≡ is_frame e.now }
{
    matches!(e.kind, Kind::Frame | Kind::Magicframe)
}

/// Takes from each element its frame name, if that isn't kept.
fn settle_each(frames: &BTreeSet<Text>, elements: &mut Vec<Element>)
    ensures { elements.new.items ≡ map (framed (contains (slice_cmp nat_cmp) frames.now))
        elements.old.items }
{
    for e in elements.iter_mut() {
        settle(frames, e);
    }
}

/// Takes from an element its frame name, if that isn't kept.
fn settle(frames: &BTreeSet<Text>, e: &mut Element)
    ensures { e.new ≡ framed (contains (slice_cmp nat_cmp) frames.now) e.old }
{
    if !keeps_frame(frames, e) {
        e.frame = None;
    }
}

/// Whether an element keeps its frame name.
fn keeps_frame(frames: &BTreeSet<Text>, e: &Element) -> bool
    ensures { result ≡ keeps_frame (contains (slice_cmp nat_cmp) frames.now) e.now }
{
    match &e.frame {
        Some(frame) => !is_frame(e) && frames.contains(frame),
        None => false,
    }
}
