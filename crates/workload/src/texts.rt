//! The texts of a drill.

ghost use Rattle.std.specs.Prelude.{◌≡◌, ◌++◌, OnOk, decimal, map};
ghost use Rattle.std.specs.List.{join_with_byte};
ghost use Rattle.json_text.specs.Characters.{quote};
ghost use Rattle.json_text.specs.Compact.{object_text};
ghost use Rattle.elem.specs.Texts.{kind_name};
ghost use Rattle.session_text.specs.Forms.{capture_text, side_text};
ghost use Rattle.workload.specs.Texts as texts;
ghost use Rattle.workload.specs.declared.deed.Order.TheVariants as orders;

use crate::deed::{Deed, Order};
use board_commands::{Capture, Side};
use json_text::push_quoted;
use scene_json::{push_comma, push_whole};
use std::alloc::AllocError;

/// Appends the text of the header.
pub(crate) fn push_header(out: &mut Vec<u8>, seed: u64) -> Result<(), AllocError>
    ensures { OnOk result (out.new.items ≡ out.old.items ++ texts.session_header_text seed) }
{
    out.extend_from_slice(b"{\"session\":1,\"replicas\":4,\"seed\":")?;
    push_whole(out, seed)?;
    out.extend_from_slice(b",\"scene\":null}")?;
    Ok(())
}

/// Appends the text of an event.
pub(crate) fn push_deed(out: &mut Vec<u8>, deed: Deed) -> Result<(), AllocError>
    ensures { OnOk result (out.new.items ≡ out.old.items ++ texts.deed_text deed) }
{
    match deed {
        Deed::Change {
            at,
            time,
            capture,
            order,
        } => push_change(out, at, time, capture, order),
        Deed::Undo { at, time } => push_step(out, "undo", at, time),
        Deed::Redo { at, time } => push_step(out, "redo", at, time),
        Deed::Deliver { to, first, last } => push_delivery(out, to, &[first, last]),
    }
}

/// Appends the text of a change.
fn push_change(
    out: &mut Vec<u8>,
    at: u64,
    time: u64,
    capture: Capture,
    order: Order,
) -> Result<(), AllocError>
    ensures { OnOk result
        (out.new.items ≡ out.old.items ++ object_text
        (texts.change_members at time capture order)) }
{
    out.extend_from_slice(b"{\"do\":\"change\",\"at\":")?;
    push_whole(out, at)?;
    out.extend_from_slice(b",\"time\":")?;
    push_whole(out, time)?;
    out.extend_from_slice(b",\"capture\":")?;
    push_quoted(out, capture_word(capture))?;
    out.extend_from_slice(b",\"command\":")?;
    push_order(out, order)?;
    out.push(b'}')?;
    Ok(())
}

/// The word for a capture.
fn capture_word(capture: Capture) -> &'static str
    ensures { quote result.now ≡ capture_text capture }
{
    match capture {
        Capture::Now => "now",
        Capture::Later => "later",
        Capture::Never => "never",
    }
}

/// Appends the text of an undo or a redo, as the word says.
fn push_step(out: &mut Vec<u8>, word: &str, at: u64, time: u64) -> Result<(), AllocError>
    ensures { OnOk result
        (out.new.items ≡ out.old.items ++ object_text (texts.step_members word.now at time)) }
{
    out.extend_from_slice(b"{\"do\":")?;
    push_quoted(out, word)?;
    out.extend_from_slice(b",\"at\":")?;
    push_whole(out, at)?;
    out.extend_from_slice(b",\"time\":")?;
    push_whole(out, time)?;
    out.push(b'}')?;
    Ok(())
}

/// Appends the text of a delivery of whole messages.
pub(crate) fn push_delivery(out: &mut Vec<u8>, to: u64, messages: &[u64]) -> Result<(), AllocError>
    ensures { OnOk result (out.new.items ≡ out.old.items ++ texts.delivery_text to messages.now) }
{
    out.extend_from_slice(b"{\"do\":\"deliver\",\"to\":")?;
    push_whole(out, to)?;
    out.extend_from_slice(b",\"picks\":[")?;
    push_numbers(out, messages)?;
    out.extend_from_slice(b"]}")?;
    Ok(())
}

/// Appends numbers with commas between them.
fn push_numbers(out: &mut Vec<u8>, numbers: &[u64]) -> Result<(), AllocError>
    ensures { OnOk result
        (out.new.items ≡ out.old.items ++ join_with_byte 44 (map decimal numbers.now)) }
{
    for (i, number) in numbers.iter().enumerate() {
        push_comma(out, i)?;
        push_whole(out, *number)?;
    }
    Ok(())
}

/// Appends the text of a command.
fn push_order(out: &mut Vec<u8>, order: Order) -> Result<(), AllocError>
    ensures { OnOk result (out.new.items ≡ out.old.items ++ texts.order_text order) }
{
    match order {
        Order::Create(element) => push_create(out, element),
        Order::SetX(element, value) => push_set(out, element, "x", value),
        Order::SetY(element, value) => push_set(out, element, "y", value),
        Order::Place(element, other) => push_place(out, element, other),
        Order::Bind(side, element, other) => push_bind(out, side, element, other),
        Order::Label(element, other) => push_label(out, element, other),
        Order::Frame(element, other) => push_frame(out, element, other),
        Order::Group(element, other) => push_group(out, element, other),
        Order::Delete(element) => push_delete(out, element),
    }
}

/// Appends the text of a command that makes an element.
fn push_create(out: &mut Vec<u8>, element: u64) -> Result<(), AllocError>
    ensures { OnOk result
        (out.new.items ≡ out.old.items ++ texts.order_text (orders.Create element)) }
{
    out.extend_from_slice(b"{\"name\":\"create\",\"element\":{\"id\":")?;
    push_id(out, element)?;
    out.extend_from_slice(b",\"type\":")?;
    push_quoted(out, kind_word(element))?;
    out.extend_from_slice(b"},\"spot\":\"top\"}")?;
    Ok(())
}

/// The word for the kind in which the element of this number is made.
fn kind_word(number: u64) -> &'static str
    ensures { result.now ≡ kind_name (texts.kind_of number) }
{
    match number % 5 {
        0 => "rectangle",
        1 => "ellipse",
        2 => "arrow",
        3 => "text",
        _ => "frame",
    }
}

/// Appends the text of a command that gives a member a number.
fn push_set(out: &mut Vec<u8>, element: u64, member: &str, value: u64) -> Result<(), AllocError>
    ensures { OnOk result
        (out.new.items ≡ out.old.items ++ object_text
        (texts.set_members element member.now value)) }
{
    out.extend_from_slice(b"{\"name\":\"set\",\"id\":")?;
    push_id(out, element)?;
    out.extend_from_slice(b",\"member\":")?;
    push_quoted(out, member)?;
    out.extend_from_slice(b",\"value\":")?;
    push_whole(out, value)?;
    out.push(b'}')?;
    Ok(())
}

/// Appends the text of a command that gives an element a place.
fn push_place(out: &mut Vec<u8>, element: u64, other: u64) -> Result<(), AllocError>
    ensures { OnOk result
        (out.new.items ≡ out.old.items ++ texts.order_text (orders.Place element other)) }
{
    out.extend_from_slice(b"{\"name\":\"place\",\"id\":")?;
    push_id(out, element)?;
    out.extend_from_slice(b",\"spot\":{\"after\":")?;
    push_id(out, other)?;
    out.extend_from_slice(b"}}")?;
    Ok(())
}

/// Appends the text of a command that binds an end of an arrow.
fn push_bind(out: &mut Vec<u8>, side: Side, element: u64, other: u64) -> Result<(), AllocError>
    ensures { OnOk result
        (out.new.items ≡ out.old.items ++ texts.order_text (orders.Bind side element other)) }
{
    out.extend_from_slice(b"{\"name\":\"bind\",\"arrow\":")?;
    push_id(out, element)?;
    out.extend_from_slice(b",\"end\":")?;
    push_quoted(out, side_word(side))?;
    out.extend_from_slice(b",\"target\":")?;
    push_id(out, other)?;
    out.extend_from_slice(b",\"binding\":{}}")?;
    Ok(())
}

/// The word for an end of an arrow.
fn side_word(side: Side) -> &'static str
    ensures { quote result.now ≡ side_text side }
{
    match side {
        Side::Start => "start",
        Side::End => "end",
    }
}

/// Appends the text of a command that gives a text a container.
fn push_label(out: &mut Vec<u8>, element: u64, other: u64) -> Result<(), AllocError>
    ensures { OnOk result
        (out.new.items ≡ out.old.items ++ texts.order_text (orders.Label element other)) }
{
    out.extend_from_slice(b"{\"name\":\"label\",\"container\":")?;
    push_id(out, element)?;
    out.extend_from_slice(b",\"text\":")?;
    push_id(out, other)?;
    out.push(b'}')?;
    Ok(())
}

/// Appends the text of a command that puts an element into a frame.
fn push_frame(out: &mut Vec<u8>, element: u64, other: u64) -> Result<(), AllocError>
    ensures { OnOk result
        (out.new.items ≡ out.old.items ++ texts.order_text (orders.Frame element other)) }
{
    out.extend_from_slice(b"{\"name\":\"frame\",\"ids\":[")?;
    push_id(out, element)?;
    out.extend_from_slice(b"],\"frame\":")?;
    push_id(out, other)?;
    out.push(b'}')?;
    Ok(())
}

/// Appends the text of a command that groups two elements.
fn push_group(out: &mut Vec<u8>, element: u64, other: u64) -> Result<(), AllocError>
    ensures { OnOk result
        (out.new.items ≡ out.old.items ++ texts.order_text (orders.Group element other)) }
{
    out.extend_from_slice(b"{\"name\":\"group\",\"ids\":[")?;
    push_id(out, element)?;
    out.push(b',')?;
    push_id(out, other)?;
    out.extend_from_slice(b"],\"group\":\"g\"}")?;
    Ok(())
}

/// Appends the text of a command that deletes an element.
fn push_delete(out: &mut Vec<u8>, element: u64) -> Result<(), AllocError>
    ensures { OnOk result
        (out.new.items ≡ out.old.items ++ texts.order_text (orders.Delete element)) }
{
    out.extend_from_slice(b"{\"name\":\"delete\",\"ids\":[")?;
    push_id(out, element)?;
    out.extend_from_slice(b"]}")?;
    Ok(())
}

/// Appends the text of the id of the element of this number.
fn push_id(out: &mut Vec<u8>, number: u64) -> Result<(), AllocError>
    ensures { OnOk result (out.new.items ≡ out.old.items ++ texts.id_text number) }
{
    out.extend_from_slice(b"\"e")?;
    push_whole(out, number)?;
    out.push(b'"')?;
    Ok(())
}
