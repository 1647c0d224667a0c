//! Planning the step of one event.

ghost use Rattle.std.specs.Prelude.{◌≡◌, [], ◌∷◌, List as Items, None, true, IfOk};
ghost use Rattle.elem.specs.ElementValue.{ElementValue};
ghost use Rattle.board_ends.specs.declared.links.LinkEvent.{LinkEvent};
ghost use Rattle.room_msg.specs.Texts as texts;
ghost use Rattle.room_core.specs.Rooms.{is_among, text_for_each, without};
ghost use Rattle.room_core.specs.Planned.{IsPlanned, record_in, record_of_message, recorded, texts_told};
ghost use Rattle.room_core.specs.inner.Kept.{IsInit};
ghost use Rattle.room_core.specs.inner.Planned.{change_by};

use crate::joined::{has_link, other_links};
use crate::plan::{Change, Plan, Told};
use crate::texts::{invalid_text, kept_init};
use crate::told_text::{KeptText, ToldText};
use board_base::{Bytes, List, Stop};
use board_ends::LinkEvent;
use elem_store::Store;
use room_msg::{Message, message_text, read_message};
use std::alloc::{AllocError, Global};

/// Plans the step of one event in a room that stores these elements, with these joined links. The
/// room may keep the text with all stored elements; one that joins leaves it kept.
pub(crate) fn plan_step(
    store: &Store,
    joined: &Vec<u64>,
    init: &mut Option<KeptText>,
    event: &LinkEvent,
) -> Result<Plan, AllocError>
    requires kept { IsInit init.old store.now.elements }
    ensures planned { IfOk result
        (IsPlanned (record { elements = store.now.elements; joined = joined.now.items })
        event.now) }
    ensures kept { IsInit init.new store.now.elements }
{
    let alloc = *joined.allocator();
    match event {
        LinkEvent::Opened(link) => plan_join(store, joined, init, *link),
        LinkEvent::Text(link, bytes) => {
            if has_link(joined, *link) {
                plan_hear(joined, *link, bytes)
            } else {
                Ok(quiet(alloc, Change::Unchanged))
            }
        }
        LinkEvent::Closed(link) => Ok(quiet(alloc, Change::Leave(*link))),
        LinkEvent::Idle => Ok(quiet(alloc, Change::Unchanged)),
    }
}

/// A step that tells nothing.
fn quiet(alloc: Global, change: Change) -> Plan
    ensures { result ≡ record {
      change = change;
      told = record { links = []; text = [] };
      own_record = None;
    } }
{
    let told = Told {
        links: List::new(alloc),
        text: ToldText::new(Bytes::from_vec(Vec::new(alloc))),
    };
    Plan {
        change,
        told,
        own_record: None,
    }
}

/// The link joins, and gets the text with all stored elements.
fn plan_join(
    store: &Store,
    joined: &Vec<u64>,
    init: &mut Option<KeptText>,
    link: u64,
) -> Result<Plan, AllocError>
    requires kept { IsInit init.old store.now.elements }
    ensures planned { IfOk result
        (IsPlanned (record { elements = store.now.elements; joined = joined.now.items })
        (LinkEvent.Opened link)) }
    ensures kept { IsInit init.new store.now.elements }
{
    let alloc = *joined.allocator();
    Ok(Plan {
        change: Change::Join(link),
        told: Told {
            links: one_link(alloc, link)?,
            text: ToldText::kept(kept_init(alloc, store, init)?),
        },
        own_record: None,
    })
}

/// This link alone.
fn one_link(alloc: Global, link: u64) -> Result<List<u64>, AllocError>
    ensures { IfOk result (λ links. links ≡ link ∷ []) }
{
    Ok(List::from_vec(Vec::from_slice(alloc, &[link])?))
}

/// Reads what came over a joined link: the message goes on to the others, or the link is told of
/// its fault.
fn plan_hear(joined: &Vec<u64>, sender: u64, bytes: &Bytes) -> Result<Plan, AllocError>
    requires { is_among joined.now.items sender ≡ true }
    ensures { IfOk result (λ plan. (elements : Items ElementValue)
        → IsPlanned (record { elements = elements; joined = joined.now.items })
        (LinkEvent.Text sender bytes.now) plan) }
{
    let alloc = *joined.allocator();
    match read_message(alloc, bytes.as_slice()) {
        Ok(message) => plan_relay(joined, sender, message),
        Err(Stop::Fault(fault)) => Ok(Plan {
            change: Change::Unchanged,
            told: Told {
                links: one_link(alloc, sender)?,
                text: ToldText::new(invalid_text(alloc, fault)?),
            },
            own_record: None,
        }),
        Err(Stop::Memory) => Err(AllocError),
    }
}

/// The message goes on to each joined link but the sender's, and its elements are taken.
fn plan_relay(joined: &Vec<u64>, sender: u64, message: Message) -> Result<Plan, AllocError>
    ensures told { IfOk result (λ plan. texts_told plan.told
        ≡ text_for_each (without joined.now.items (sender ∷ [])) (texts.message_text message)) }
    ensures change { IfOk result (λ plan. plan.change ≡ change_by message) }
    ensures kept { IfOk result (λ plan. record_in plan ≡ record_of_message message) }
{
    let alloc = *joined.allocator();
    let told = Told {
        links: List::from_vec(other_links(alloc, joined, sender)?),
        text: ToldText::new(message_text(alloc, &message)?),
    };
    let (change, own_record) = change_of(alloc, message)?;
    Ok(Plan {
        change,
        told,
        own_record,
    })
}

/// What a message changes, and its record where that isn't its own text.
fn change_of(alloc: Global, message: Message) -> Result<(Change, Option<Bytes>), AllocError>
    ensures change { IfOk result (λ found. found.0 ≡ change_by message) }
    ensures kept { IfOk result
        (λ found. recorded found.0 found.1
        (texts.message_text message) ≡ record_of_message message) }
{
    match message {
        Message::Init(elements) => {
            let update = Message::Update(elements);
            let record = message_text(alloc, &update)?;
            Ok((taken_of(update), Some(record)))
        }
        message => Ok((taken_of(message), None)),
    }
}

/// The elements of a message are taken.
fn taken_of(message: Message) -> Change
    ensures { result ≡ change_by message }
{
    match message {
        Message::Init(elements) => Change::Take(elements),
        Message::Update(elements) => Change::Take(elements),
        Message::Presence(_) => Change::Unchanged,
    }
}
