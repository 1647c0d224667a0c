//! What scenes bring to their board.

ghost use Rattle.std.specs.Prelude.{◌≡◌, ◌++◌, ◌∷◌, [], List as Items, IfOk, OnOk, flat_map};
ghost use Rattle.checks.specs.Lines.{spot_in};
ghost use Rattle.checks.specs.inner.Gathered.{AreGathered};
ghost use Rattle.checks.specs.declared.judged.Judged.{Judged};

use crate::judged::{Judged, Spot, Verdict};
use board_base::List;
use elem::Element;
use scene_file::{Head, Scene, join};
use std::alloc::{AllocError, Global};

/// The joined head of scenes, their elements, and where each of these stands.
#[derive(Drop)]
pub(crate) struct Gathered {
    pub(crate) head: Head,
    pub(crate) updates: Vec<Element>,
    pub(crate) spots: Vec<Spot>,
}

/// What these texts bring, where they are scenes.
pub(crate) fn gather(alloc: Global, texts: List<Judged>) -> Result<Gathered, AllocError>
    ensures { IfOk result (λ all. AreGathered texts all.head all.updates.items all.spots.items) }
{
    let mut all = nothing(alloc);
    for text in texts.into_vec() {
        take_text(alloc, &mut all, text)?;
    }
    Ok(all)
}

/// What no scenes bring.
fn nothing(alloc: Global) -> Gathered
    ensures { AreGathered [] result.head result.updates.items result.spots.items }
{
    Gathered {
        head: Head::new(alloc),
        updates: Vec::new(alloc),
        spots: Vec::new(alloc),
    }
}

/// Takes what a text brings, if it is a scene.
fn take_text(alloc: Global, all: &mut Gathered, text: Judged) -> Result<(), AllocError>
    ensures { OnOk result ((texts : Items Judged)
        → AreGathered texts all.old.head all.old.updates.items all.old.spots.items
        → AreGathered (texts ++ text ∷ []) all.new.head all.new.updates.items
        all.new.spots.items) }
{
    match text {
        Judged::Whole(number, scene, verdicts) => take_scene(alloc, all, number, scene, verdicts),
        Judged::Flawed(_number, _verdicts) => Ok(()),
        Judged::Broken(_number, _fault) => Ok(()),
    }
}

/// Takes what the scene with this number brings.
fn take_scene(
    alloc: Global,
    all: &mut Gathered,
    number: u64,
    scene: Scene,
    verdicts: List<Verdict>,
) -> Result<(), AllocError>
    ensures { OnOk result ((texts : Items Judged)
        → AreGathered texts all.old.head all.old.updates.items all.old.spots.items
        → AreGathered (texts ++ Judged.Whole number scene verdicts ∷ []) all.new.head
        all.new.updates.items all.new.spots.items) }
{
    let Scene { head, elements } = scene;
    join(alloc, &mut all.head, &head)?;
    push_all(&mut all.updates, elements)?;
    push_spots(&mut all.spots, number, verdicts)
}

/// Appends the elements.
fn push_all(updates: &mut Vec<Element>, elements: List<Element>) -> Result<(), AllocError>
    ensures { OnOk result (updates.new.items ≡ updates.old.items ++ elements) }
{
    for e in elements.into_vec() {
        updates.push(e)?;
    }
    Ok(())
}

/// Appends where the elements of the text with this number stand.
fn push_spots(spots: &mut Vec<Spot>, number: u64, verdicts: List<Verdict>) -> Result<(), AllocError>
    ensures { OnOk result
        (spots.new.items ≡ spots.old.items ++ flat_map (spot_in number) verdicts) }
{
    for verdict in verdicts.into_vec() {
        push_spot(spots, number, verdict)?;
    }
    Ok(())
}

/// Appends where an element stands that a value of the text with this number is read as.
fn push_spot(spots: &mut Vec<Spot>, number: u64, verdict: Verdict) -> Result<(), AllocError>
    ensures { OnOk result (spots.new.items ≡ spots.old.items ++ spot_in number verdict) }
{
    match verdict {
        Verdict::Read(place, members) => {
            spots.push(Spot {
                number,
                place,
                members,
            })?;
            Ok(())
        }
        Verdict::Dropped => Ok(()),
        Verdict::Faulty(_place, _fault, _id) => Ok(()),
    }
}
