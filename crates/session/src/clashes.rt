//! How many elements clash with earlier ones.

ghost use Rattle.std.specs.Prelude.{◌≡◌, List as Items, [], ◌++◌, IfOk, OnOk, flat_map};
ghost use Rattle.elem.specs.ElementValue.{ElementValue};
ghost use Rattle.clash.specs.Firsts.{firsts_of};
ghost use Rattle.session.specs.Clashes.{HaveClashes};

use crate::counting::sum_of;
use board_base::List;
use clash::Clash;
use elem::Element;
use std::alloc::{AllocError, Global};

/// How many of these elements, and then of those of messages, clash with an earlier one.
pub(crate) fn clashes_among(
    alloc: Global,
    opening: &[Element],
    messages: &Vec<List<Element>>,
) -> Result<u64, AllocError>
    ensures { IfOk result
        (HaveClashes []
        (opening.now ++ flat_map (λ (message : Items ElementValue). message) messages.now.items)) }
{
    let mut clash = Clash::new(alloc);
    let mut count = note_all(&mut clash, opening)?;
    for message in messages {
        let more = note_all(&mut clash, message.as_slice())?;
        count = sum_of(count, more)?;
    }
    Ok(count)
}

/// Notes these elements, and tells how many of them clash with an earlier one.
fn note_all(clash: &mut Clash, elements: &[Element]) -> Result<u64, AllocError>
    ensures count { IfOk result (λ count. (before : Items ElementValue)
        → clash.old ≡ firsts_of before → HaveClashes before elements.now count) }
    ensures noted { OnOk result ((before : Items ElementValue) → clash.old ≡ firsts_of before
        → clash.new ≡ firsts_of (before ++ elements.now)) }
{
    let mut count = 0;
    for e in elements {
        if clash.note(e)? {
            count += 1;
        }
    }
    Ok(count)
}
