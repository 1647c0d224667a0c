//! Commands that are drawn, and what they give where a replica followed deliveries and where one is
//! made anew.

ghost use Rattle.std.specs.Prelude.{IfOk, IfSome};
ghost use Rattle.board_commands.specs.Limits.{IsWithinLimits};

use crate::follow::{Draws, are_same, draw, draw_elements, draws_of, element_of_text};
use board_base::{List, Stop};
use board_commands::{Capture, Command, Side, Spot};
use case_text::{given, push_truth};
use elem::{Element, Stamp};
use json_text::{Raw, Text};
use rand_pcg::Pcg32;
use replica::Replica;
use session_random::generator_of;
use std::alloc::{AllocError, Global};

/// What each command stamps with.
const STAMP: Stamp = Stamp { time: 5, nonce: 7 };

/// Appends whether so many commands, drawn from a seed and made in turn with deliveries of elements
/// with so many ids, give the same on a replica that follows them as on one made anew of what it
/// stores.
pub fn push_asked(alloc: Global, line: &mut Vec<u8>, value: &Raw) -> Result<(), Stop<Text>> {
    let draws = draws_of(alloc, value, "member ask")?;
    let equal = given(ask_all(alloc, draws)?, "member ask")?;
    push_truth(line, "equal", equal)?;
    Ok(())
}

/// Whether each command gives the same, or nothing where a drawn text is no element.
fn ask_all(alloc: Global, draws: Draws) -> Result<Option<bool>, AllocError> {
    let mut generator = generator_of(draws.seed);
    let mut replica = Replica::new(alloc);
    for i in 0..draws.changes {
        let drawing = draws.drawing(i as u64 + 1);
        let Some(elements) = draw_elements(alloc, &mut generator, drawing)? else {
            return Ok(None);
        };
        replica.deliver(elements.as_slice())?;
        let Some(command) = draw_command(alloc, &mut generator, i, draws.ids)? else {
            return Ok(None);
        };
        if !is_same_anew(alloc, &mut replica, &command)? {
            return Ok(Some(false));
        }
    }
    Ok(Some(true))
}

/// Whether a command gives the same on a replica as on one made anew of what that stores. The
/// replica then stores it.
fn is_same_anew(alloc: Global, replica: &mut Replica, command: &Command) -> Result<bool, AllocError>
    requires { IsWithinLimits command.now }
{
    let mut anew = made_anew(alloc, replica)?;
    let here = changed(replica, command)?;
    let there = changed(&mut anew, command)?;
    match (here, there) {
        (Some(here), Some(there)) => Ok(are_same(here.as_slice(), there.as_slice())),
        (None, None) => Ok(true),
        _ => Ok(false),
    }
}

/// What a command gives, or nothing where it is refused.
fn changed(replica: &mut Replica, command: &Command) -> Result<Option<List<Element>>, AllocError>
    requires { IsWithinLimits command.now }
{
    match replica.change(command, Capture::Now, STAMP) {
        Ok(given) => Ok(Some(given)),
        Err(Stop::Fault(_)) => Ok(None),
        Err(Stop::Memory) => Err(AllocError),
    }
}

/// A replica to which all that another one stores was delivered at once.
fn made_anew(alloc: Global, replica: &Replica) -> Result<Replica, AllocError> {
    let mut elements = Vec::new(alloc);
    for e in replica.store().given() {
        elements.push(e.try_clone()?)?;
    }
    let mut anew = Replica::new(alloc);
    anew.deliver(elements.as_slice())?;
    Ok(anew)
}

/// Draws a command over elements with so many ids, or nothing where a drawn text is no element.
fn draw_command(
    alloc: Global,
    generator: &mut Pcg32,
    number: usize,
    ids: u64,
) -> Result<Option<Command>, AllocError>
    ensures { IfOk result (λ found. IfSome found IsWithinLimits) }
{
    let id = draw_id(alloc, generator, ids)?;
    let other = draw_id(alloc, generator, ids)?;
    let spot = spot_of(draw(generator, 4), other.try_clone()?);
    match draw(generator, 14) {
        0 => create(alloc, number, spot),
        1 => Ok(Some(duplicate(alloc, number, id, spot)?)),
        2 => Ok(Some(Command::Place { id, spot })),
        row => Ok(Some(command_of(alloc, row, id, other)?)),
    }
}

/// A spot: the bottom, the top, or above an id.
fn spot_of(row: u64, id: Text) -> Spot {
    match row {
        0 => Spot::Bottom,
        1 => Spot::Top,
        _ => Spot::After(id),
    }
}

/// The command that makes a new rectangle, or nothing where a text is no element.
fn create(alloc: Global, number: usize, spot: Spot) -> Result<Option<Command>, AllocError>
    ensures { IfOk result (λ found. IfSome found IsWithinLimits) }
{
    let text = format!(in alloc; "{{\"id\":\"n{number}\",\"type\":\"rectangle\"}}")?;
    match element_of_text(alloc, text.as_str())? {
        Some(element) => Ok(Some(Command::Create { element, spot })),
        None => Ok(None),
    }
}

/// The command that copies an element.
fn duplicate(alloc: Global, number: usize, id: Text, spot: Spot) -> Result<Command, AllocError>
    ensures { IfOk result IsWithinLimits }
{
    let prefix = format!(in alloc; "d{number}-")?;
    Ok(Command::Duplicate {
        ids: one(alloc, id)?,
        prefix: Text::from_str(alloc, prefix.as_str())?,
        spot,
    })
}

/// The command of a row that makes no new element, over two ids.
fn command_of(alloc: Global, row: u64, id: Text, other: Text) -> Result<Command, AllocError>
    ensures { IfOk result IsWithinLimits }
{
    match row {
        3 => Ok(bind(alloc, id, Side::Start, other)),
        4 => Ok(bind(alloc, id, Side::End, other)),
        5 => Ok(Command::Unbind {
            arrow: id,
            side: Side::End,
        }),
        6 | 7 => Ok(Command::Label {
            container: id,
            text: other,
        }),
        8 => Ok(Command::Unlabel { text: id }),
        _ => command_among(row, one(alloc, id)?, other),
    }
}

/// The command of a row over listed elements, and an id that may be of a frame or a group.
fn command_among(row: u64, ids: List<Text>, other: Text) -> Result<Command, AllocError>
    ensures { IfOk result IsWithinLimits }
{
    match row {
        9 => Ok(Command::Frame { ids, frame: other }),
        10 => Ok(Command::Unframe { ids }),
        11 => Ok(Command::Group { ids, group: other }),
        12 => Ok(Command::Ungroup { ids, group: other }),
        _ => Ok(Command::Delete { ids }),
    }
}

/// The command that binds an end of an arrow.
fn bind(alloc: Global, arrow: Text, side: Side, target: Text) -> Command
    ensures { IsWithinLimits result }
{
    Command::Bind {
        arrow,
        side,
        target,
        rest: List::new(alloc),
    }
}

/// A list of one id.
fn one(alloc: Global, id: Text) -> Result<List<Text>, AllocError> {
    let mut ids = Vec::new(alloc);
    ids.push(id)?;
    Ok(List::from_vec(ids))
}

/// Draws one of so many ids.
fn draw_id(alloc: Global, generator: &mut Pcg32, ids: u64) -> Result<Text, AllocError> {
    let number = draw(generator, ids);
    let text = format!(in alloc; "e{number}")?;
    Text::from_str(alloc, text.as_str())
}
