//! Telling the sender of a message that it is kept.

ghost use Rattle.std.specs.Prelude.{◌≡◌, ◌≤◌, ◌++◌, ◌∷◌, [], ℕ, List as Items, IfOk, OnErr};
ghost use Rattle.room_core.specs.Planned.{texts_told};
ghost use Rattle.room_core.specs.Told.{HaveTried};
ghost use Rattle.room_disk.specs.Keeping as keeping;
ghost use Rattle.room_disk.specs.inner.KeptSteps as steps;

use board_base::{Bytes, List};
use board_ends::{LinkEvent, Links};
use room_core::{Told, ToldText, send_all};
use scene_json::push_whole;
use std::alloc::{AllocError, Global};

/// The link whose text the event is, and 0 where it is none.
pub(crate) fn sender_of(event: &LinkEvent) -> u64
    ensures { result ≡ steps.sender_of event.now }
{
    match event {
        LinkEvent::Text(link, _) => *link,
        LinkEvent::Opened(_) | LinkEvent::Closed(_) | LinkEvent::Idle => 0,
    }
}

/// Nothing to tell. It takes no memory.
pub(crate) fn nothing_told(alloc: Global) -> Told
    ensures { texts_told result ≡ [] }
{
    Told {
        links: List::new(alloc),
        text: ToldText::new(Bytes::from_vec(Vec::new(alloc))),
    }
}

/// What tells this link that so many messages are kept.
pub(crate) fn kept_told(alloc: Global, link: u64, number: u64) -> Result<Told, AllocError>
    ensures { IfOk result (λ told. texts_told told ≡ (link, keeping.kept_text number) ∷ []) }
{
    Ok(Told {
        links: List::from_vec(Vec::from_slice(alloc, &[link])?),
        text: ToldText::new(kept_text(alloc, number)?),
    })
}

/// The text that tells that so many messages are kept.
fn kept_text(alloc: Global, number: u64) -> Result<Bytes, AllocError>
    ensures { IfOk result (λ text. text ≡ keeping.kept_text number) }
{
    let mut out = Vec::new(alloc);
    out.extend_from_slice(b"{\"type\":\"KEPT\",\"payload\":{\"messages\":")?;
    push_whole(&mut out, number)?;
    out.extend_from_slice(b"}}")?;
    Ok(Bytes::from_vec(out))
}

/// Tries the texts of a step, and after them those that tell that its message is kept, and gives
/// the links that are gone. Want of memory ends it.
pub(crate) fn tell<L: Links>(
    alloc: Global,
    links: &mut L,
    told: &Told,
    kept: &Told,
) -> Result<Vec<u64>, AllocError>
    ensures tried { IfOk result (λ gone. HaveTried (L.seen links.old) (L.seen links.new)
        (texts_told told.now ++ texts_told kept.now) gone.items []) }
    ensures cut { OnErr result ((gone : Items ℕ) × (rest : Items (ℕ × Items ℕ))
        × HaveTried (L.seen links.old) (L.seen links.new)
        (texts_told told.now ++ texts_told kept.now) gone rest) }
    ensures port { (L.seen links.new).port ≡ (L.seen links.old).port }
    ensures listens { (L.seen links.new).listens ≡ (L.seen links.old).listens }
    ensures counted { (L.seen links.old).faults ≤ (L.seen links.new).faults }
    ensures gone_counted { (L.seen links.old).gone ≤ (L.seen links.new).gone }
{
    let mut gone = send_all(alloc, links, told)?;
    let more = send_all(alloc, links, kept)?;
    gone.extend_from_slice(&more)?;
    Ok(gone)
}
