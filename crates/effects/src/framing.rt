//! Frames and groups of elements.

ghost use Rattle.std.specs.Prelude.{◌≡◌, IfOk};
ghost use Rattle.effects.specs.Effects as effects;
ghost use Rattle.elem_store.specs.Updates.{is_among};

use board_base::List;
use elem::Element;
use json_text::Text;
use std::alloc::AllocError;

/// The element in this frame, or in none.
pub(crate) fn with_frame(e: &Element, frame: &Option<Text>) -> Result<Element, AllocError>
    ensures { IfOk result (λ new. new ≡ record e.now { frame = frame.now }) }
{
    let frame = frame.as_ref().map(Text::try_clone).transpose()?;
    Ok(framed(e.try_clone()?, frame))
}

/// The element with this frame name.
fn framed(mut e: Element, frame: Option<Text>) -> Element
    ensures { result ≡ record e { frame = frame } }
{
    e.frame = frame;
    e
}

/// The element in a group, which is added where it is missing.
pub(crate) fn with_group(e: &Element, group: &Text) -> Result<Element, AllocError>
    ensures { IfOk result
        (λ new. new ≡ record e.now { groups = effects.with_group group.now e.now.groups }) }
{
    let groups = with_group_in(&e.groups, group)?;
    Ok(grouped(e.try_clone()?, groups))
}

/// The groups and one more, which is added where it is missing.
fn with_group_in(groups: &List<Text>, group: &Text) -> Result<List<Text>, AllocError>
    ensures { IfOk result (λ new. new ≡ effects.with_group group.now groups.now) }
{
    let mut new = groups.try_clone_with(Text::try_clone)?;
    if !is_in(groups, group) {
        new.push(group.try_clone()?).map_err(|(_, error)| error)?;
    }
    Ok(new)
}

/// Whether a group is among these.
fn is_in(groups: &List<Text>, group: &Text) -> bool
    ensures { result ≡ is_among groups.now group.now }
{
    groups.as_slice().iter().any(|other| *group == *other)
}

/// The element without a group.
pub(crate) fn without_group(e: &Element, group: &Text) -> Result<Element, AllocError>
    ensures { IfOk result
        (λ new. new ≡ record e.now { groups = effects.without_group group.now e.now.groups }) }
{
    let groups = without_group_in(&e.groups, group)?;
    Ok(grouped(e.try_clone()?, groups))
}

/// The groups but for one.
fn without_group_in(groups: &List<Text>, group: &Text) -> Result<List<Text>, AllocError>
    ensures { IfOk result (λ new. new ≡ effects.without_group group.now groups.now) }
{
    let mut new = groups.try_clone_with(Text::try_clone)?.into_vec();
    new.retain(|other| *group != *other);
    Ok(List::from_vec(new))
}

/// The element in these groups.
fn grouped(mut e: Element, groups: List<Text>) -> Element
    ensures { result ≡ record e { groups = groups } }
{
    e.groups = groups;
    e
}
