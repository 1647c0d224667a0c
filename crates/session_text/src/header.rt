//! The header of a session.

ghost use Rattle.std.specs.Prelude.{◌≡◌, Some, codes, option_copied};
ghost use Rattle.json_text.specs.Members.{pairs};
ghost use Rattle.scene_file.specs.Reading.{value_unless_null};
ghost use Rattle.session_text.specs.Events.{SceneOf, HeaderOf, HeaderText};
ghost use Rattle.session_text.specs.inner.Reads.{IsReadResult};

use crate::fault::TextFault;
use crate::fields::{number_from, text_members, whole};
use crate::name::MemberName;
use board_base::{List, Stop};
use json_text::{Member, Raw};
use scene_file::{Scene, scene_of};
use scene_json::{is_null, value_named};
use std::alloc::Global;

/// What the first text of a session says.
#[derive(Drop)]
pub(crate) struct Header {
    pub(crate) replicas: u64,
    pub(crate) seed: u64,
    pub(crate) scene: Option<Scene>,
}

/// The one version of sessions.
const VERSION: u64 = 1;

/// The greatest number of replicas.
pub(crate) const MOST_REPLICAS: u64 = 64;

/// The header that a text is.
pub(crate) fn read_header(alloc: Global, value: &Raw) -> Result<Header, Stop<TextFault>>
    ensures { IsReadResult (HeaderText value.now) result }
{
    let members = text_members(alloc, value)?;
    header_of(alloc, &members)
}

/// The header that these members are.
fn header_of(alloc: Global, members: &List<Member>) -> Result<Header, Stop<TextFault>>
    ensures { IsReadResult (HeaderOf (pairs members.now)) result }
{
    let _version = number_from(members, MemberName::Session, VERSION, VERSION + 1)?;
    let replicas = number_from(members, MemberName::Replicas, 1, MOST_REPLICAS + 1)?;
    let seed = whole(members, MemberName::Seed)?;
    let scene = scene(alloc, members)?;
    Ok(Header {
        replicas,
        seed,
        scene,
    })
}

/// The scene among these members, if one is given.
pub(crate) fn scene(alloc: Global, members: &List<Member>) -> Result<Option<Scene>, Stop<TextFault>>
    ensures { IsReadResult (SceneOf (value_unless_null (codes "scene") (pairs members.now))) result }
{
    match given(members, "scene") {
        Some(value) => scene_in(alloc, value),
        None => Ok(None),
    }
}

/// The scene that this value is.
fn scene_in(alloc: Global, value: &Raw) -> Result<Option<Scene>, Stop<TextFault>>
    ensures { IsReadResult (SceneOf (Some value.now)) result }
{
    match scene_of(alloc, value) {
        Ok(scene) => Ok(Some(scene)),
        Err(Stop::Fault(fault)) => Err(Stop::Fault(TextFault::Scene(fault))),
        Err(Stop::Memory) => Err(Stop::Memory),
    }
}

/// The value of the first member with this name; null counts as missing.
fn given<'a>(members: &'a List<Member>, name: &str) -> Option<&'a Raw>
    ensures { option_copied result ≡ value_unless_null name.now (pairs members.now) }
{
    match value_named(members, name) {
        Some(value) if !is_null(value) => Some(value),
        _ => None,
    }
}
