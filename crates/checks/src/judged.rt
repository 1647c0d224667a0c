//! What the texts of an input are read as.

use board_base::List;
use elem_read::ElemFault;
use json_text::{Member, Text};
use scene_file::{Scene, SceneFault};

/// What a value of an array of elements is read as. A place counts from 0.
#[derive(Drop)]
pub enum Verdict {
    /// No element: its type is `selection`.
    Dropped,
    /// An element at this place, whose object has these members.
    Read(u64, List<Member>),
    /// The value at this place has this first fault, and this id, if its object has a text for one.
    Faulty(u64, ElemFault, Option<Text>),
}

/// What a text is read as. Its number counts from 1.
#[derive(Drop)]
pub enum Judged {
    /// A scene, and what each value of its elements is read as.
    Whole(u64, Scene, List<Verdict>),
    /// It is no scene for its elements alone.
    Flawed(u64, List<Verdict>),
    /// It has this first fault, which is none of an element. No further text is read.
    Broken(u64, SceneFault),
}

/// Where an element stands in an input, and the members of its object there.
#[derive(Drop)]
pub struct Spot {
    /// The number of its text.
    pub number: u64,
    /// Its place in the array of elements.
    pub place: u64,
    /// The members of its object.
    pub members: List<Member>,
}
