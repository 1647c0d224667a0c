//! The stamp of a change.

ghost use Rattle.std.specs.Prelude.{◌≡◌, ◌↔◌, OnOk, OnErr, IsErr};
ghost use Rattle.elem.specs.Facts.{greatest_whole};
ghost use Rattle.elem.specs.Stamp.{stamped};

use elem::{Element, Stamp};
use json_text::Text;
use scene_json::GREATEST_WHOLE;

/// The element's version is the greatest.
#[derive(Debug, Drop)]
pub struct AtLimit;

/// The id of an element that would change at the greatest version.
#[derive(Drop)]
pub struct VersionFull(pub Text);

/// Raises the version by one and sets the nonce and the time. `AtLimit` comes exactly at the
/// greatest version. It takes no memory.
pub fn stamp(e: &mut Element, stamp: Stamp) -> Result<(), AtLimit>
    ensures ok { OnOk result (e.new ≡ stamped stamp.time stamp.nonce e.old) }
    ensures limit { IsErr result ↔ (e.old.version ≡ greatest_whole) }
    ensures err { OnErr result (e.new ≡ e.old) }
{
    if e.version == GREATEST_WHOLE {
        return Err(AtLimit);
    }
    e.version += 1;
    e.nonce = stamp.nonce;
    e.updated = stamp.time;
    Ok(())
}
