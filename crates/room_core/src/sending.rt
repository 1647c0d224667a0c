//! Sending the texts of a step.

ghost use Rattle.std.specs.Prelude.{◌≡◌, ◌≤◌, ◌++◌, List as Items, ℕ, IfOk, OnErr, [], ◌∷◌};
ghost use Rattle.room_core.specs.Planned.{texts_told};
ghost use Rattle.room_core.specs.Told.{HaveTried};

use crate::plan::Told;
use board_ends::{Links, SendError};
use std::alloc::{AllocError, Global};

/// Tries the text on each of its links, also after one that is gone, and gives those that are gone.
/// Want of memory ends it.
pub fn send_all<L: Links>(alloc: Global, links: &mut L, told: &Told) -> Result<Vec<u64>, AllocError>
    ensures tried { IfOk result (λ gone. HaveTried (L.seen links.old) (L.seen links.new)
        (texts_told told.now) gone.items []) }
    ensures cut { OnErr result ((gone : Items ℕ) × (rest : Items (ℕ × Items ℕ))
        × HaveTried (L.seen links.old) (L.seen links.new) (texts_told told.now) gone rest) }
    ensures port { (L.seen links.new).port ≡ (L.seen links.old).port }
    ensures listens { (L.seen links.new).listens ≡ (L.seen links.old).listens }
    ensures counted { (L.seen links.old).faults ≤ (L.seen links.new).faults }
    ensures gone_counted { (L.seen links.old).gone ≤ (L.seen links.new).gone }
{
    let text = told.text.as_bytes();
    let mut gone = Vec::new(alloc);
    for link in told.links.as_slice() {
        match links.send(*link, text) {
            Ok(()) => {}
            Err(SendError::Gone) => gone.push(*link)?,
            Err(SendError::Memory) => return Err(AllocError),
        }
    }
    Ok(gone)
}
