//! Drills are made.

ghost use Rattle.std.specs.Prelude.{◌≡◌, ◌≤◌, ◌++◌, flat_map, map, reverse, IfOk, OnOk};
ghost use Rattle.elem.specs.Facts.{greatest_whole};
ghost use Rattle.workload.specs.Deeds.{course, most_drilled};
ghost use Rattle.workload.specs.Texts as texts;
ghost use Rattle.workload.specs.Texts.{deed_text, drill_text, last_texts, line};

use crate::deed::{deed_of, messages_of};
use crate::draws::draw_all;
use crate::texts::{push_deed, push_delivery, push_header};
use board_base::Bytes;
use session_random::generator_of;
use std::alloc::{AllocError, Global};

/// The text of a session: four replicas, so many events that are drawn from the seed, and then a
/// delivery of all messages to each replica. The draws are those of a `Pcg32` that `seed_from_u64`
/// makes of the seed. Fails only for want of memory.
pub fn make_session(alloc: Global, seed: u64, events: u64) -> Result<Bytes, AllocError>
    requires some { 1 ≤ events }
    requires most { events ≤ most_drilled }
    requires seed { seed ≤ greatest_whole }
    ensures { IfOk result (λ text. text ≡ drill_text seed events) }
{
    let mut out = Vec::new(alloc);
    push_header(&mut out, seed)?;
    out.push(b'\n')?;
    let made = push_events(&mut out, seed, events)?;
    push_last(&mut out, made)?;
    Ok(Bytes::from_vec(out))
}

/// Appends the lines of the events that are drawn, and gives how many messages they make.
fn push_events(out: &mut Vec<u8>, seed: u64, events: u64) -> Result<u64, AllocError>
    requires { events ≤ most_drilled }
    ensures lines { OnOk result
        (out.new.items ≡ out.old.items ++ flat_map line
        (map deed_text (course seed events).deeds)) }
    ensures made { IfOk result (λ made. made ≡ (course seed events).made) }
{
    let mut generator = generator_of(seed);
    let mut made = 0;
    for number in 0..events {
        let draws = draw_all(&mut generator);
        let deed = deed_of(number, made, draws);
        push_deed(out, deed)?;
        out.push(b'\n')?;
        made += messages_of(deed);
    }
    Ok(made)
}

/// Appends the lines of the last four events, which deliver all of so many messages.
fn push_last(out: &mut Vec<u8>, made: u64) -> Result<(), AllocError>
    ensures { OnOk result (out.new.items ≡ out.old.items ++ flat_map line (last_texts made)) }
{
    let alloc = *out.allocator();
    let rising = rising(alloc, made)?;
    let falling = falling(alloc, &rising)?;
    push_delivery_line(out, 0, &rising)?;
    push_delivery_line(out, 1, &falling)?;
    push_delivery_line(out, 2, &rising)?;
    push_delivery_line(out, 3, &falling)?;
    Ok(())
}

/// The numbers of so many messages.
fn rising(alloc: Global, made: u64) -> Result<Vec<u64>, AllocError>
    ensures { IfOk result (λ numbers. numbers.items ≡ texts.rising made) }
{
    (0..made).collect(alloc)
}

/// These numbers from the last one on.
fn falling(alloc: Global, numbers: &[u64]) -> Result<Vec<u64>, AllocError>
    ensures { IfOk result (λ fallen. fallen.items ≡ reverse numbers.now) }
{
    numbers.iter().rev().copied().collect(alloc)
}

/// Appends the line of a delivery of whole messages.
fn push_delivery_line(out: &mut Vec<u8>, to: u64, messages: &[u64]) -> Result<(), AllocError>
    ensures { OnOk result
        (out.new.items ≡ out.old.items ++ line (texts.delivery_text to messages.now)) }
{
    push_delivery(out, to, messages)?;
    out.push(b'\n')?;
    Ok(())
}
