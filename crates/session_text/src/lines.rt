//! The lines that a living replica is asked by: each is read, or has one first fault.

ghost use Rattle.std.specs.Prelude.{◌≡◌, ◌≢◌, Ok, Err, IfOk};
ghost use Rattle.json_reader.specs.declared.fault.JsonFault.{JsonFault};
ghost use Rattle.json_text.specs.Members.{pairs};
ghost use Rattle.session_text.specs.Lines.{IsLineName, OpeningOf, OpeningText, LineNamed, LineText};
ghost use Rattle.session_text.specs.Lines.{IsLineWithinLimits, LineBringsElements, IsReplicaOpening};
ghost use Rattle.session_text.specs.Reads.{MemberOf};
ghost use Rattle.session_text.specs.inner.Reads.{IsReadResult};
ghost use Rattle.session_text.specs.declared.fault.TextFault.{TextFault};
ghost use Rattle.session_text.specs.declared.lines.LineName.TheVariants as lines;
ghost use Rattle.session_text.specs.declared.name.MemberName.TheVariants as names;

use crate::fault::TextFault;
use crate::fields::{capture, number_from, text, text_members, whole};
use crate::happening::{command_in, elements_in};
use crate::header::{MOST_REPLICAS, scene};
use crate::name::MemberName;
use board_base::{List, Stop};
use board_commands::{Capture, Command};
use elem::Element;
use json_text::{Member, Raw, Text};
use scene_file::Scene;
use scene_json::has_value;
use std::alloc::Global;

/// The one version of lines.
const VERSION: u64 = 1;

/// What opens a living replica.
pub struct Opening {
    /// Which of 64 replicas it is, counted from 0.
    pub number: u64,
    /// What the nonces are drawn from.
    pub seed: u64,
    /// What the replica begins with, if it isn't nothing.
    pub scene: Option<Scene>,
}

// By hand, so that whoever drops an opening sees one call and not what it holds.
impl Drop for Opening {
    fn drop(self) {
        let Opening {
            number: _,
            seed: _,
            scene: _scene,
        } = self;
    }
}

/// What a living replica is asked.
pub enum Line {
    /// A command of the user, at a time.
    Change {
        time: u64,
        capture: Capture,
        command: Command,
    },
    /// The user undoes a step.
    Undo {
        time: u64,
    },
    /// The user redoes a step.
    Redo {
        time: u64,
    },
    /// Elements come from elsewhere.
    Take {
        elements: List<Element>,
    },
    /// The text of a message of a room comes.
    Receive {
        text: Text,
    },
    /// Updates of this element are held off from now on.
    Hold {
        id: Text,
    },
    /// Updates of this element are taken again.
    Release {
        id: Text,
    },
    /// The scene that it shows is asked for.
    Scene,
    /// All that it stores is asked for.
    State,
    /// The stored element of this id is asked for.
    Stored {
        id: Text,
    },
    /// How many steps can be undone and redone is asked for.
    Lengths,
    /// Whether a change waits that is captured later is asked for.
    Pending,
}

// By hand, so that whoever drops a line sees one call and not what it holds.
impl Drop for Line {
    fn drop(self) {
        match self {
            Line::Change {
                time: _,
                capture: _,
                command: _command,
            } => {}
            Line::Undo { time: _ } => {}
            Line::Redo { time: _ } => {}
            Line::Take {
                elements: _elements,
            } => {}
            Line::Receive { text: _text } => {}
            Line::Hold { id: _id } => {}
            Line::Release { id: _id } => {}
            Line::Scene => {}
            Line::State => {}
            Line::Stored { id: _id } => {}
            Line::Lengths => {}
            Line::Pending => {}
        }
    }
}

/// Which line it is.
#[derive(Clone, Copy, Debug, PartialEq, Eq)]
pub(crate) enum LineName {
    Change,
    Undo,
    Redo,
    Take,
    Receive,
    Hold,
    Release,
    Scene,
    State,
    Stored,
    Lengths,
    Pending,
}

/// The opening that a text is. A text with a fault is refused for its first one, in the order of
/// its members.
pub fn read_opening(alloc: Global, value: &Raw) -> Result<Opening, Stop<TextFault>>
    ensures read { IfOk result (λ opening. OpeningText value.now (Ok opening)) }
    ensures fault { (fault : TextFault) → result ≡ Err (Stop.Fault fault)
        → OpeningText value.now (Err fault) }
    ensures json { (fault : JsonFault) → result ≢ Err (Stop.Fault (TextFault.Json fault)) }
    ensures kept { IfOk result IsReplicaOpening }
{
    opening_in(alloc, value)
}

/// The line that a text is. A text with a fault is refused for its first one, in the order of its
/// members.
pub fn read_line(alloc: Global, value: &Raw) -> Result<Line, Stop<TextFault>>
    ensures read { IfOk result (λ line. LineText value.now (Ok line)) }
    ensures fault { (fault : TextFault) → result ≡ Err (Stop.Fault fault)
        → LineText value.now (Err fault) }
    ensures json { (fault : JsonFault) → result ≢ Err (Stop.Fault (TextFault.Json fault)) }
    ensures within { IfOk result IsLineWithinLimits }
    ensures brings { IfOk result LineBringsElements }
{
    line_in(alloc, value)
}

/// The opening that a text is.
fn opening_in(alloc: Global, value: &Raw) -> Result<Opening, Stop<TextFault>>
    ensures { IsReadResult (OpeningText value.now) result }
{
    let members = text_members(alloc, value)?;
    opening_of(alloc, &members)
}

/// The opening that these members are.
fn opening_of(alloc: Global, members: &List<Member>) -> Result<Opening, Stop<TextFault>>
    ensures { IsReadResult (OpeningOf (pairs members.now)) result }
{
    let _version = number_from(members, MemberName::Replica, VERSION, VERSION + 1)?;
    let number = number_from(members, MemberName::Number, 0, MOST_REPLICAS)?;
    let seed = whole(members, MemberName::Seed)?;
    let scene = scene(alloc, members)?;
    Ok(Opening {
        number,
        seed,
        scene,
    })
}

/// The line that a text is.
fn line_in(alloc: Global, value: &Raw) -> Result<Line, Stop<TextFault>>
    ensures { IsReadResult (LineText value.now) result }
{
    let members = text_members(alloc, value)?;
    let name = which(&members)?;
    line_named(alloc, &members, name)
}

/// Which line the members are. It takes no memory.
#[tactic(auto, unfolding(json_text::specs::Characters::quote))]
fn which(members: &List<Member>) -> Result<LineName, Stop<TextFault>>
    ensures { IsReadResult (MemberOf names.Do IsLineName (pairs members.now)) result }
{
    if has_value(members, "do", "\"change\"") {
        Ok(LineName::Change)
    } else if has_value(members, "do", "\"undo\"") {
        Ok(LineName::Undo)
    } else if has_value(members, "do", "\"redo\"") {
        Ok(LineName::Redo)
    } else if has_value(members, "do", "\"take\"") {
        Ok(LineName::Take)
    } else if has_value(members, "do", "\"receive\"") {
        Ok(LineName::Receive)
    } else if has_value(members, "do", "\"hold\"") {
        Ok(LineName::Hold)
    } else if has_value(members, "do", "\"release\"") {
        Ok(LineName::Release)
    } else if has_value(members, "do", "\"scene\"") {
        Ok(LineName::Scene)
    } else if has_value(members, "do", "\"state\"") {
        Ok(LineName::State)
    } else if has_value(members, "do", "\"stored\"") {
        Ok(LineName::Stored)
    } else if has_value(members, "do", "\"lengths\"") {
        Ok(LineName::Lengths)
    } else if has_value(members, "do", "\"pending\"") {
        Ok(LineName::Pending)
    } else {
        Err(Stop::Fault(TextFault::Member(MemberName::Do)))
    }
}

/// The line of this name that the members are.
fn line_named(
    alloc: Global,
    members: &List<Member>,
    name: LineName,
) -> Result<Line, Stop<TextFault>>
    ensures { IsReadResult (LineNamed (pairs members.now) name) result }
{
    match name {
        LineName::Change => change(alloc, members),
        LineName::Undo => {
            let time = whole(members, MemberName::Time)?;
            Ok(Line::Undo { time })
        }
        LineName::Redo => {
            let time = whole(members, MemberName::Time)?;
            Ok(Line::Redo { time })
        }
        LineName::Take => {
            let elements = elements_in(alloc, members)?;
            Ok(Line::Take { elements })
        }
        LineName::Receive => {
            let text = text(alloc, members, MemberName::Message)?;
            Ok(Line::Receive { text })
        }
        LineName::Hold => {
            let id = text(alloc, members, MemberName::Id)?;
            Ok(Line::Hold { id })
        }
        LineName::Release => {
            let id = text(alloc, members, MemberName::Id)?;
            Ok(Line::Release { id })
        }
        LineName::Scene => Ok(Line::Scene),
        LineName::State => Ok(Line::State),
        LineName::Stored => {
            let id = text(alloc, members, MemberName::Id)?;
            Ok(Line::Stored { id })
        }
        LineName::Lengths => Ok(Line::Lengths),
        LineName::Pending => Ok(Line::Pending),
    }
}

/// A command of the user.
fn change(alloc: Global, members: &List<Member>) -> Result<Line, Stop<TextFault>>
    ensures { IsReadResult (LineNamed (pairs members.now) lines.Change) result }
{
    let time = whole(members, MemberName::Time)?;
    let capture = capture(members)?;
    let command = command_in(alloc, members)?;
    Ok(Line::Change {
        time,
        capture,
        command,
    })
}
