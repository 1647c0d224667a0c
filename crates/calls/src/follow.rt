//! A replica whose view follows changes that are drawn, beside a view made anew after each.

use board_base::{List, Stop};
use case_text::{count_of, given, number_or, push_truth};
use elem::{Element, same};
use elem_read::read_element;
use json_reader::scan;
use json_text::{Raw, Text};
use kept_view::KeptView;
use rand_pcg::Pcg32;
use replica::Replica;
use scene_json::{members, shaped};
use session_random::{draw_word, generator_of};
use std::alloc::{AllocError, Global};
use view::view_of;

/// What is drawn for an element: its version, how many ids there are, and how many of them are
/// named by others.
#[derive(Clone, Copy)]
pub struct Drawing {
    pub version: u64,
    pub ids: u64,
    pub named: u64,
}

/// What is drawn in a case: from which seed, how many changes, of elements with how many ids, and
/// how many of them are named by others.
#[derive(Clone, Copy)]
pub struct Draws {
    pub seed: u64,
    pub changes: usize,
    pub ids: u64,
    pub named: u64,
}

impl Draws {
    /// What is drawn for the elements of a version.
    pub fn drawing(self, version: u64) -> Drawing {
        Drawing {
            version,
            ids: self.ids,
            named: self.named,
        }
    }
}

/// What is drawn in a case by its member, which a fault names by these words.
pub fn draws_of(alloc: Global, value: &Raw, member: &'static str) -> Result<Draws, Stop<Text>> {
    let told = given(shaped(members(alloc, value))?, member)?;
    let seed = given(number_or(&told, "seed", 0), "member seed")?;
    let changes = given(count_of(&told, "changes"), "member changes")?;
    let ids = given(number_or(&told, "ids", 1), "member ids")?.max(1);
    let named = given(number_or(&told, "named", ids), "member named")?;
    Ok(Draws {
        seed,
        changes,
        ids,
        named,
    })
}

/// Appends whether the view of a replica is the view of its store made anew, after each of so many
/// deliveries that are drawn from a seed, of elements with so many ids.
pub fn push_followed(alloc: Global, line: &mut Vec<u8>, value: &Raw) -> Result<(), Stop<Text>> {
    let draws = draws_of(alloc, value, "member follow")?;
    let equal = given(follow(alloc, draws)?, "member follow")?;
    push_truth(line, "equal", equal)?;
    Ok(())
}

/// Whether the view is the one made anew after each delivery, or nothing where a drawn text is no
/// element.
fn follow(alloc: Global, draws: Draws) -> Result<Option<bool>, AllocError> {
    let mut generator = generator_of(draws.seed);
    let mut replica = Replica::new(alloc);
    for i in 0..draws.changes {
        let drawing = draws.drawing(i as u64 + 1);
        let Some(elements) = draw_elements(alloc, &mut generator, drawing)? else {
            return Ok(None);
        };
        replica.deliver(elements.as_slice())?;
        if !is_shown(alloc, &replica)? {
            return Ok(Some(false));
        }
    }
    Ok(Some(true))
}

/// Whether a replica shows the view of its store made anew.
fn is_shown(alloc: Global, replica: &Replica) -> Result<bool, AllocError> {
    let view = view_of(alloc, replica.store())?;
    Ok(are_shown(replica.view(), view.elements()))
}

/// Whether these are the elements that a view shows.
pub fn are_shown(view: &KeptView, elements: &[Element]) -> bool {
    let shown = view.elements();
    if shown.len() != elements.len() {
        return false;
    }
    for (e, other) in shown.iter().zip(elements) {
        if !same(e.get(), other) {
            return false;
        }
    }
    true
}

/// Whether two lists have the same elements.
pub fn are_same(elements: &[Element], others: &[Element]) -> bool {
    if elements.len() != others.len() {
        return false;
    }
    for (e, other) in elements.iter().zip(others) {
        if !same(e, other) {
            return false;
        }
    }
    true
}

/// Draws what is delivered at once: mostly one element, now and then five or forty.
pub fn draw_elements(
    alloc: Global,
    generator: &mut Pcg32,
    drawing: Drawing,
) -> Result<Option<List<Element>>, AllocError> {
    let count = match draw(generator, 32) {
        0 => 40,
        1 | 2 | 3 => 5,
        _ => 1,
    };
    let mut elements = Vec::new(alloc);
    for _ in 0..count {
        match draw_element(alloc, generator, drawing)? {
            Some(e) => elements.push(e)?,
            None => return Ok(None),
        }
    }
    Ok(Some(List::from_vec(elements)))
}

/// Draws an element, whose kind its number tells: one in six is deleted, and one in eight comes
/// late. Of a few keys one is its index, or none; what it names may be there or not, and be of any
/// kind.
fn draw_element(
    alloc: Global,
    generator: &mut Pcg32,
    drawing: Drawing,
) -> Result<Option<Element>, AllocError> {
    let Drawing {
        version,
        ids,
        named,
    } = drawing;
    let number = draw(generator, ids);
    let version = if draw(generator, 8) == 0 {
        version / 2
    } else {
        version
    };
    let deleted = draw(generator, 6) == 0;
    let index = draw_index(alloc, generator)?;
    let frame = draw_id(alloc, generator, named)?;
    let listed = draw_listed(alloc, generator, ids)?;
    let further = draw_named(alloc, generator, number, named)?;
    let kind = kind_of(number);
    let text = format!(in alloc;
        "{{\"id\":\"e{number}\",\"type\":\"{kind}\",\"version\":{version},\"isDeleted\":{deleted},\"index\":{index},\"frameId\":{frame},\"groupIds\":[\"g\",\"e{number}\",\"g\"],\"boundElements\":{listed}{further}}}"
    )?;
    element_of_text(alloc, text.as_str())
}

/// The kind of the elements of a number.
fn kind_of(number: u64) -> &'static str {
    match number % 8 {
        0 | 1 => "rectangle",
        2 => "ellipse",
        3 | 4 => "text",
        5 | 6 => "arrow",
        _ => "frame",
    }
}

/// Draws an index, or none.
fn draw_index(alloc: Global, generator: &mut Pcg32) -> Result<String, AllocError> {
    match draw(generator, 10) {
        0 => format!(in alloc; "null"),
        digit => format!(in alloc; "\"a{digit}\""),
    }
}

/// Draws an id, or none.
fn draw_id(alloc: Global, generator: &mut Pcg32, ids: u64) -> Result<String, AllocError> {
    let number = draw(generator, ids);
    match draw(generator, 3) {
        0 => format!(in alloc; "null"),
        _ => format!(in alloc; "\"e{number}\""),
    }
}

/// Draws a listing of an arrow and a text.
fn draw_listed(alloc: Global, generator: &mut Pcg32, ids: u64) -> Result<String, AllocError> {
    let arrow = draw(generator, ids);
    let text = draw(generator, ids);
    format!(in alloc;
        "[{{\"id\":\"e{arrow}\",\"type\":\"arrow\"}},{{\"id\":\"e{text}\",\"type\":\"text\"}}]"
    )
}

/// Draws the container of a text or the ends of an arrow, as further members.
fn draw_named(
    alloc: Global,
    generator: &mut Pcg32,
    number: u64,
    ids: u64,
) -> Result<String, AllocError> {
    let id = draw_id(alloc, generator, ids)?;
    let target = draw(generator, ids);
    match kind_of(number) {
        "text" => format!(in alloc; ",\"containerId\":{id}"),
        "arrow" => {
            format!(in alloc;
                ",\"startBinding\":{{\"elementId\":{id}}},\"endBinding\":{{\"elementId\":\"e{target}\"}}"
            )
        }
        _ => format!(in alloc; ""),
    }
}

/// Draws a number below the limit.
pub fn draw(generator: &mut Pcg32, limit: u64) -> u64 {
    draw_word(generator) % limit.max(1)
}

/// The element that a text is read as.
pub fn element_of_text(alloc: Global, text: &str) -> Result<Option<Element>, AllocError> {
    let value = match scan(alloc, text.as_bytes(), 0) {
        Ok((value, _after)) => value,
        Err(Stop::Fault(_)) => return Ok(None),
        Err(Stop::Memory) => return Err(AllocError),
    };
    match read_element(alloc, &value) {
        Ok(found) => Ok(found),
        Err(Stop::Fault(_)) => Ok(None),
        Err(Stop::Memory) => Err(AllocError),
    }
}
