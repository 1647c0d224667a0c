//! The text of a scene, and that of all that is stored.

ghost use Rattle.std.specs.Prelude.{◌≡◌, ℕ, List as Items, [], ◌++◌, true, bytes_eq, map, All, IfOk, OnOk};
ghost use Rattle.std.specs.List.{IsDistinct, join_with_byte};
ghost use Rattle.json_text.specs.Compact.{object_text};
ghost use Rattle.json_text.specs.Members.{pairs};
ghost use Rattle.json_text.specs.Parts.{names_of};
ghost use Rattle.json_text.specs.Value.{IsCompact};
ghost use Rattle.frac_keys.specs.Rising.{are_rising};
ghost use Rattle.scene_json.specs.Layout.{IsLaidOut};
ghost use Rattle.scene_json.specs.Lines.{IsLaidOutSoFar};
ghost use Rattle.elem.specs.Texts.{element_text, text_or_null};
ghost use Rattle.elem_store.specs.Updates.{ids_of};
ghost use Rattle.file_table.specs.Table.{EntriesNest};
ghost use Rattle.scene_file.specs.inner.Printing.{text_before_elements, text_behind_elements};
ghost use Rattle.scene_file.specs.Scenes as scenes;
ghost use Rattle.scene_file.specs.Texts.{IsSceneText};

use crate::head::Head;
use crate::layout::Layout;
use board_base::{Bytes, List};
use elem::{Element, push_element, push_elements};
use elem_store::{Store, push_stored};
use json_text::{Member, Text, push_quote};
use members::push_member;
use scene_json::{Lines, push_comma};
use std::alloc::{AllocError, Global};

/// No element's text has fewer bytes.
const LEAST_TEXT: usize = 128;

/// Mostly the header members of an element take fewer bytes.
const HEADER_TEXT: usize = 320;

/// One of so many elements is looked at.
const SAMPLED: usize = 16;

/// The text of the scene of these elements, under this head, in this layout; no line feed ends it.
/// Fails only for want of memory.
pub fn elements_text(
    alloc: Global,
    head: &Head,
    elements: &[Element],
    layout: Layout,
) -> Result<Bytes, AllocError>
    ensures { IfOk result (IsSceneText layout head.now elements.now) }
{
    let mut out = with_room(alloc, texts_room(elements));
    match layout {
        Layout::Compact => {
            push_scene(&mut out, head, elements)?;
            Ok(Bytes::from_vec(out))
        }
        Layout::Pretty => {
            push_scene_lines(&mut out, head, elements)?;
            Ok(Bytes::from_vec(out))
        }
    }
}

/// The compact text of all that is stored, deleted elements too, as stored, under this head and
/// with all its files. Fails only for want of memory.
pub fn state_text(alloc: Global, head: &Head, store: &Store) -> Result<Bytes, AllocError>
    ensures exact { IfOk result (λ text. text ≡ scenes.state_text head.now store.now.elements) }
    ensures ordered { are_rising (ids_of store.now.elements) ≡ true }
{
    let mut state = Vec::with_capacity(alloc, store.len().saturating_mul(LEAST_TEXT))?;
    let files = head.files.by_id()?;
    push_front(&mut state, &head.source)?;
    push_stored(&mut state, store)?;
    push_back(&mut state, &head.app_state, &files)?;
    Ok(Bytes::from_vec(state))
}

/// Appends the compact text of the scene of these elements.
fn push_scene(out: &mut Vec<u8>, head: &Head, elements: &[Element]) -> Result<(), AllocError>
    ensures text { OnOk result (out.new.items ≡ out.old.items
        ++ scenes.scene_text head.now elements.now) }
    ensures nests { OnOk result (IsCompact 128 (scenes.scene_text head.now elements.now)) }
{
    let files = head.files.referred(elements)?;
    push_front(out, &head.source)?;
    push_elements(out, elements)?;
    push_back(out, &head.app_state, &files)?;
    Ok(())
}

/// Nothing, with room for so many bytes; with none where there is no memory for so many, since fewer
/// may do.
fn with_room(alloc: Global, room: usize) -> Vec<u8>
    ensures { result.items ≡ [] }
{
    match Vec::with_capacity(alloc, room) {
        Ok(out) => out,
        Err(_) => Vec::new(alloc),
    }
}

/// About as many bytes as the texts of the elements take, by the members of some of them: mostly a
/// few more, so that the text needn't be moved while it grows.
fn texts_room(elements: &[Element]) -> usize {
    let mut room: usize = 0;
    for e in elements.iter().step_by(SAMPLED) {
        room = room.saturating_add(text_room(e));
    }
    room.saturating_mul(SAMPLED)
}

/// About as many bytes as the text of the element takes.
fn text_room(e: &Element) -> usize {
    let members = e.rest.as_members();
    let mut room = HEADER_TEXT;
    for at in 0..members.len() {
        room = room.saturating_add(members.name(at).len());
        room = room.saturating_add(members.value_len(at).saturating_add(4));
    }
    room
}

/// Writes the text of the scene of these elements, each member and item on a line of its own.
/// Beside it stands the text of one element at a time.
fn push_scene_lines(out: &mut Vec<u8>, head: &Head, elements: &[Element]) -> Result<(), AllocError>
    requires { out.old.items ≡ [] }
    ensures { OnOk result (IsLaidOut 0 (scenes.scene_text head.now elements.now) out.new.items) }
{
    let referred = head.files.referred(elements)?;
    let mut lines = Lines::new();
    let mut piece = Vec::new(*out.allocator());
    push_front(&mut piece, &head.source)?;
    lines.push(out, piece.as_slice())?;
    push_element_lines(&mut lines, out, &mut piece, elements)?;
    piece.clear();
    push_back(&mut piece, &head.app_state, &referred)?;
    lines.push(out, piece.as_slice())
}

/// Appends the layout of the texts of elements, with commas between them. Each text stands in the
/// piece for a time.
fn push_element_lines(
    lines: &mut Lines,
    out: &mut Vec<u8>,
    piece: &mut Vec<u8>,
    elements: &[Element],
) -> Result<(), AllocError>
    ensures laid_out { OnOk result ((text : Items ℕ) → IsLaidOutSoFar lines.old text out.old.items
        → IsLaidOutSoFar lines.new (text ++ join_with_byte 44 (map element_text elements.now))
        out.new.items) }
    ensures nest { OnOk result (All (λ e. IsCompact 120 (element_text e)) elements.now) }
{
    for (i, e) in elements.iter().enumerate() {
        piece.clear();
        push_comma(piece, i)?;
        push_element(piece, e)?;
        lines.push(out, piece.as_slice())?;
    }
    Ok(())
}

/// Appends what stands before the elements.
fn push_front(out: &mut Vec<u8>, source: &Option<Text>) -> Result<(), AllocError>
    ensures text { OnOk result (out.new.items ≡ out.old.items ++ text_before_elements source.now) }
    ensures nests { OnOk result (IsCompact 0 (text_or_null source.now)) }
{
    out.extend_from_slice(b"{\"type\":\"excalidraw\",\"version\":2,\"source\":")?;
    push_source(out, source)?;
    out.extend_from_slice(b",\"elements\":[")?;
    Ok(())
}

/// Appends the quote of the source, or null where there is none.
fn push_source(out: &mut Vec<u8>, source: &Option<Text>) -> Result<(), AllocError>
    ensures text { OnOk result (out.new.items ≡ out.old.items ++ text_or_null source.now) }
    ensures nests { IsCompact 0 (text_or_null source.now) }
{
    match source {
        None => out.extend_from_slice(b"null"),
        Some(source) => push_quote(out, source),
    }
}

/// Appends what stands behind the elements.
fn push_back(
    out: &mut Vec<u8>,
    settings: &List<Member>,
    files: &List<Member>,
) -> Result<(), AllocError>
    requires settings_distinct { IsDistinct bytes_eq (names_of (pairs settings.now)) }
    requires settings_nest { EntriesNest 126 (pairs settings.now) }
    requires files_distinct { IsDistinct bytes_eq (names_of (pairs files.now)) }
    requires files_nest { EntriesNest 126 (pairs files.now) }
    ensures text { OnOk result (out.new.items ≡ out.old.items
        ++ text_behind_elements (pairs settings.now) (pairs files.now)) }
    ensures settings { OnOk result (IsCompact 127 (object_text (pairs settings.now))) }
    ensures files { OnOk result (IsCompact 127 (object_text (pairs files.now))) }
{
    out.extend_from_slice(b"],\"appState\":")?;
    push_object(out, settings)?;
    out.extend_from_slice(b",\"files\":")?;
    push_object(out, files)?;
    out.push(b'}')?;
    Ok(())
}

/// Appends the object of these members.
fn push_object(out: &mut Vec<u8>, members: &List<Member>) -> Result<(), AllocError>
    requires distinct { IsDistinct bytes_eq (names_of (pairs members.now)) }
    requires nest { EntriesNest 126 (pairs members.now) }
    ensures text { OnOk result (out.new.items ≡ out.old.items ++ object_text (pairs members.now)) }
    ensures nests { OnOk result (IsCompact 127 (object_text (pairs members.now))) }
{
    out.push(b'{')?;
    for (i, member) in members.as_slice().iter().enumerate() {
        push_comma(out, i)?;
        push_member(out, &member.name, &member.value)?;
    }
    out.push(b'}')?;
    Ok(())
}
