//! What is picked of messages.

ghost use Rattle.std.specs.Prelude.{◌≡◌, [], ◌++◌, IfOk, OnOk, option_to_list, slice_get, slice_index_or};
ghost use Rattle.session.specs.Worlds.{all_picked, picked};

use board_base::List;
use elem::Element;
use session_text::Pick;
use std::alloc::{AllocError, Global};

/// Copies of the picked elements, as one list in the order of the picks.
pub(crate) fn all_picked(
    alloc: Global,
    messages: &Vec<List<Element>>,
    picks: &[Pick],
) -> Result<Vec<Element>, AllocError>
    ensures { IfOk result (λ copies. copies.items ≡ all_picked messages.now.items picks.now) }
{
    let mut copies = Vec::new(alloc);
    for pick in picks {
        push_picked(&mut copies, messages, pick)?;
    }
    Ok(copies)
}

/// Appends copies of what is picked: a message, or one element of it.
fn push_picked(
    copies: &mut Vec<Element>,
    messages: &Vec<List<Element>>,
    pick: &Pick,
) -> Result<(), AllocError>
    ensures { OnOk result
        (copies.new.items ≡ copies.old.items ++ picked messages.now.items pick.now) }
{
    match pick {
        Pick::All(message) => push_copies(copies, message_at(messages, *message)),
        Pick::One(message, element) => push_copy(copies, message_at(messages, *message), *element),
    }
}

/// The elements of the message with this number; none where there is none.
fn message_at(messages: &Vec<List<Element>>, number: u64) -> &[Element]
    ensures { result.now ≡ slice_index_or messages.now.items number [] }
{
    match messages.get(number as usize) {
        Some(message) => message.as_slice(),
        None => &[],
    }
}

/// Appends copies of all these elements.
fn push_copies(copies: &mut Vec<Element>, elements: &[Element]) -> Result<(), AllocError>
    ensures { OnOk result (copies.new.items ≡ copies.old.items ++ elements.now) }
{
    for e in elements {
        copies.push(e.try_clone()?)?;
    }
    Ok(())
}

/// Appends a copy of the element at this place, if there is one.
fn push_copy(copies: &mut Vec<Element>, elements: &[Element], place: u64) -> Result<(), AllocError>
    ensures { OnOk result
        (copies.new.items ≡ copies.old.items ++ option_to_list (slice_get elements.now place)) }
{
    match elements.get(place as usize) {
        Some(e) => {
            copies.push(e.try_clone()?)?;
            Ok(())
        }
        None => Ok(()),
    }
}
