//! Steps that are planned, and put in place later.

ghost use Rattle.std.specs.Prelude.{◌≡◌, ◌+◌, ◌<◌, ◌≤◌, [], ◌∷◌, ◌++◌, List as Items, Some, None, length, map, reverse, vec_capacity, vec_len};
ghost use Rattle.delta.specs.Delta.{Delta};
ghost use Rattle.delta.specs.Parts.{inverses};
ghost use Rattle.history.specs.Stacks.{below_last, grown_by, with_entry, redo_left};

use crate::step::Step;
use board_base::List;
use delta::{Entry, invert_entry};
use elem::Element;

/// Whether an entry is taken back, or an undo is.
#[derive(Clone, Copy)]
pub enum Direction {
    Undo,
    Redo,
}

/// A step that is planned: what is pending and is noted first, the entry that takes the step back,
/// which stack it is from, and how many entries it passes over.
#[derive(Drop)]
pub struct HistoryStep {
    pub pending: Entry,
    pub made: Option<Entry>,
    pub direction: Direction,
    pub passed: u64,
}

/// What taking the topmost seen entry of a stack back comes to: the elements that change, the entry
/// that takes that back, and how many entries are passed over.
#[derive(Drop)]
pub(crate) struct Plan {
    pub(crate) given: List<Element>,
    pub(crate) made: Entry,
    pub(crate) passed: u64,
}

/// The step and the answer of a plan, or of none.
pub(crate) fn step_of(
    pending: Entry,
    direction: Direction,
    plan: Option<Plan>,
) -> (HistoryStep, Step)
    ensures none { plan ≡ None
        → result ≡ (
          record { pending = pending; made = None; direction = direction; passed = 0 },
          Step.Nothing,
        ) }
    ensures some { (p : Plan) → plan ≡ Some p
        → result ≡ (
          record {
            pending = pending;
            made = Some p.made;
            direction = direction;
            passed = p.passed;
          },
          Step.Done p.given,
        ) }
{
    match plan {
        Some(plan) => {
            let step = HistoryStep {
                pending,
                made: Some(plan.made),
                direction,
                passed: plan.passed,
            };
            (step, Step::Done(plan.given))
        }
        None => {
            let step = HistoryStep {
                pending,
                made: None,
                direction,
                passed: 0,
            };
            (step, Step::Nothing)
        }
    }
}

/// Makes an entry the next one to undo, after which nothing can be redone; an empty one changes
/// nothing. It takes no memory.
pub(crate) fn note_within(undo: &mut Vec<Entry>, redo: &mut Vec<Entry>, entry: Entry)
    requires { vec_len undo.old < vec_capacity undo.old }
    ensures undo { undo.new.items ≡ with_entry entry undo.old.items }
    ensures redo { redo.new.items ≡ redo_left entry redo.old.items }
    ensures undo_room { vec_capacity undo.new ≡ vec_capacity undo.old }
    ensures redo_room { vec_capacity redo.new ≡ vec_capacity redo.old }
    ensures count { vec_len undo.new + vec_len redo.new ≤ vec_len undo.old + vec_len redo.old + 1 }
{
    if entry.parts.as_slice().is_empty() {
        return;
    }
    undo.push_reserved(entry);
    redo.clear();
}

/// Moves the last entries of a stack to the other one, one after another and inverted; takes the
/// next one away, and puts the made one on the other stack. It takes no memory.
pub(crate) fn shift(from: &mut Vec<Entry>, to: &mut Vec<Entry>, passed: u64, made: Entry)
    requires count { passed < vec_len from.old }
    requires room { vec_len from.old + vec_len to.old ≤ vec_capacity to.old }
    ensures from { from.new.items ≡ below_last (passed + 1) from.old.items }
    ensures to { to.new.items ≡ grown_by passed made from.old.items to.old.items }
{
    for _moved in 0..passed {
        move_last(from, to);
    }
    from.pop();
    to.push_reserved(made);
}

/// Moves the last entry of a stack to the other one, inverted. It takes no memory.
fn move_last(from: &mut Vec<Entry>, to: &mut Vec<Entry>)
    requires some { 0 < vec_len from.old }
    requires room { vec_len to.old < vec_capacity to.old }
    ensures moved { (left : Items (Items Delta)) (parts : Items Delta)
        → from.old.items ≡ left ++ parts ∷ []
        → (from.new.items ≡ left) × (to.new.items ≡ to.old.items ++ inverses parts ∷ []) }
    ensures from_count { vec_len from.new + 1 ≡ vec_len from.old }
    ensures to_count { vec_len to.new ≡ vec_len to.old + 1 }
    ensures room { vec_capacity to.new ≡ vec_capacity to.old }
{
    match from.pop() {
        Some(entry) => to.push_reserved(invert_entry(entry)),
        None => unreachable!(),
    }
}
