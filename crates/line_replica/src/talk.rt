//! Lines of bytes are answered.

ghost use Rattle.std.specs.Prelude.{◌≡◌, None, Err, Option, Some, IfOk, OnErr};
ghost use Rattle.json_reader.specs.declared.fault.JsonFault.{JsonFault};
ghost use Rattle.room_msg.specs.Messages.{StandsAlone};
ghost use Rattle.line_replica.specs.Living.{Living};
ghost use Rattle.line_replica.specs.Standing.{HasTold, LifeStandsFor, TalkStandsFor};
ghost use Rattle.line_replica.specs.Talks.{IsLineFault};

use crate::life::Life;
use crate::texts;
use crate::words::faulty;
use board_base::{Bytes, Stop};
use json_reader::{JsonFault, scan};
use json_text::{Raw, skip_space};
use session_text::{TextFault, read_line, read_opening};
use std::alloc::{AllocError, Global};
use std::marker::Model;

/// Lines of bytes that come one after the other: the first one without a fault opens a replica, and
/// the others are for it. Contracts see the living replica, or nothing before it is opened.
#[derive(Drop)]
pub struct Talk {
    life: Option<Life>,
}

impl Model for Talk {
    ghost use Rattle.std.specs.Prelude.{Option};
    ghost use Rattle.line_replica.specs.Standing.{Held};

    ghost Value = { Option Held };

    ghost view = { λ t. t.life };
}

impl Talk {
    /// Before the first line. It takes no memory.
    pub fn new() -> Talk
        ensures { result ≡ None }
    {
        Talk { life: None }
    }

    /// Takes a line, with its line feed or without it, and gives what it is answered with; no line
    /// feed ends the answer. A line with a fault is answered with what is told of it, and changes
    /// nothing. Fails only for want of memory.
    pub fn answer(&mut self, alloc: Global, line: &[u8]) -> Result<Bytes, AllocError>
        ensures told { IfOk result (λ text. (old : Option Living) → TalkStandsFor self.old old
            → HasTold old line.now text self.new) }
        ensures err { OnErr result (self.new ≡ self.old) }
    {
        match &mut self.life {
            Some(life) => answer(alloc, life, line),
            None => {
                let (text, life) = open(alloc, line)?;
                self.life = life;
                Ok(text)
            }
        }
    }
}

/// What the line is answered with that may open a replica, and the replica, if the line has no
/// fault.
fn open(alloc: Global, line: &[u8]) -> Result<(Bytes, Option<Life>), AllocError>
    ensures { IfOk result (λ opened. HasTold None line.now opened.0 opened.1) }
{
    let value = match lone_value(alloc, line) {
        Ok(value) => value,
        Err(Stop::Fault(fault)) => {
            return Ok((faulty(alloc, TextFault::Json(fault))?, None));
        }
        Err(Stop::Memory) => return Err(AllocError),
    };
    match read_opening(alloc, &value) {
        Ok(opening) => {
            let text = texts::opened_text(alloc)?;
            Ok((text, Some(Life::open(alloc, opening)?)))
        }
        Err(Stop::Fault(fault)) => Ok((faulty(alloc, fault)?, None)),
        Err(Stop::Memory) => Err(AllocError),
    }
}

/// What a line is answered with that is for a replica.
fn answer(alloc: Global, life: &mut Life, line: &[u8]) -> Result<Bytes, AllocError>
    ensures told { IfOk result (λ text. (l : Living) → LifeStandsFor life.old l
        → HasTold (Some l) line.now text (Some life.new)) }
    ensures err { OnErr result (life.new ≡ life.old) }
{
    let value = match lone_value(alloc, line) {
        Ok(value) => value,
        Err(Stop::Fault(fault)) => return faulty(alloc, TextFault::Json(fault)),
        Err(Stop::Memory) => return Err(AllocError),
    };
    match read_line(alloc, &value) {
        Ok(line) => life.answer(alloc, &line),
        Err(Stop::Fault(fault)) => faulty(alloc, fault),
        Err(Stop::Memory) => Err(AllocError),
    }
}

/// The one value that the bytes are, white space around it.
fn lone_value(alloc: Global, bytes: &[u8]) -> Result<Raw, Stop<JsonFault>>
    ensures alone { IfOk result (StandsAlone bytes.now) }
    ensures fault { (fault : JsonFault) → result ≡ Err (Stop.Fault fault)
        → IsLineFault bytes.now fault }
{
    let (value, after) = scan(alloc, bytes, 0)?;
    let at = skip_space(bytes, after);
    if at < bytes.len() {
        return Err(Stop::Fault(JsonFault::Syntax(at)));
    }
    Ok(value)
}
