//! Calls below the top one, each asked for by a member of its name.

use crate::again::push_again;
use crate::asked::push_asked;
use crate::deliver::push_delivered;
use crate::elements::{push_applied, push_clashes, push_compared, push_element_of, push_message};
use crate::fed::{push_cut, push_fed};
use crate::follow::push_followed;
use crate::keep::{push_kept, push_viewed};
use crate::keys::{
    push_between, push_is_key, push_n_between, push_repaired, push_rising, push_walk,
};
use crate::scenes::push_scene;
use crate::served::push_served;
use crate::values::{
    push_default, push_first, push_pretty, push_restored, push_scanned, push_taken_apart,
};
use board_base::{List, Stop};
use case_text::{Answer, is_given};
use json_text::{Member, Raw, Text};
use scene_json::value_named;
use std::alloc::Global;

/// Calls below the top one.
#[derive(Drop)]
pub(crate) struct Calls;

impl Answer for Calls {
    fn push_answer(
        &self,
        alloc: Global,
        line: &mut Vec<u8>,
        case: &List<Member>,
    ) -> Result<(), Stop<Text>> {
        push_reading_call(alloc, line, case)
    }
}

/// Appends what a call on bytes or keys gave.
fn push_reading_call(
    alloc: Global,
    line: &mut Vec<u8>,
    case: &List<Member>,
) -> Result<(), Stop<Text>> {
    if let Some(value) = value_named(case, "scan") {
        push_scanned(alloc, line, case, value)
    } else if let Some(value) = value_named(case, "scene") {
        push_scene(alloc, line, case, value)
    } else if let Some(value) = value_named(case, "n_between") {
        push_n_between(alloc, line, case, value)
    } else if let Some(value) = value_named(case, "walk") {
        push_walk(alloc, line, case, value)
    } else if let Some(value) = value_named(case, "key") {
        push_is_key(alloc, line, value)
    } else if let Some(value) = value_named(case, "between") {
        push_between(alloc, line, value)
    } else if let Some(value) = value_named(case, "repair") {
        push_repaired(alloc, line, value)
    } else if let Some(value) = value_named(case, "rising") {
        push_rising(alloc, line, value)
    } else {
        push_value_call(alloc, line, case)
    }
}

/// Appends what a call on values or elements gave.
fn push_value_call(
    alloc: Global,
    line: &mut Vec<u8>,
    case: &List<Member>,
) -> Result<(), Stop<Text>> {
    if let Some(value) = value_named(case, "element") {
        push_element_of(alloc, line, value)
    } else if let Some(value) = value_named(case, "message") {
        push_message(alloc, line, value)
    } else if let Some(value) = value_named(case, "clashes") {
        push_clashes(alloc, line, value)
    } else if let Some(value) = value_named(case, "compare") {
        push_compared(alloc, line, value)
    } else if let Some(value) = value_named(case, "apply") {
        push_applied(alloc, line, value)
    } else if let Some(value) = value_named(case, "fed") {
        push_fed(alloc, line, value)
    } else if let Some(value) = value_named(case, "cut") {
        push_cut(alloc, line, value)
    } else if let Some(value) = value_named(case, "pretty") {
        push_pretty(alloc, line, value)
    } else if let Some(value) = value_named(case, "parts") {
        push_taken_apart(alloc, line, value)
    } else if let Some(value) = value_named(case, "restore") {
        push_restored(alloc, line, value)
    } else if let Some(value) = value_named(case, "default") {
        push_default(alloc, line, value)
    } else if let Some(value) = value_named(case, "first") {
        push_first(alloc, line, value)
    } else {
        push_board_call(alloc, line, case)
    }
}

/// Appends what a call on views, replicas or rooms gave.
fn push_board_call(
    alloc: Global,
    line: &mut Vec<u8>,
    case: &List<Member>,
) -> Result<(), Stop<Text>> {
    if let Some(value) = value_named(case, "follow") {
        push_followed(alloc, line, value)
    } else if let Some(value) = value_named(case, "ask") {
        push_asked(alloc, line, value)
    } else if let Some(value) = value_named(case, "update") {
        push_kept(alloc, line, value)
    } else if let Some(value) = value_named(case, "take") {
        push_viewed(alloc, line, value)
    } else if let Some(value) = value_named(case, "again") {
        push_again(alloc, line, value)
    } else if is_given(case, "served") {
        push_served(alloc, line, case)
    } else if is_given(case, "deliver") {
        push_delivered(alloc, line, case)
    } else {
        Err(Stop::Fault(Text::fixed("no call")))
    }
}
