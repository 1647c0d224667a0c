//! Objects whose members are appended one after another.

ghost use Rattle.std.specs.Prelude.{◌≡◌, ℕ, List as Items, [], ◌∷◌, ◌++◌, ◌<◌, IfOk, OnOk, OnErr, MatchOption, IfSome, All, length, drop, true};
ghost use Rattle.std.specs.Str.{IsUtf8};
ghost use Rattle.json_text.specs.Appending.{Extends};
ghost use Rattle.json_text.specs.Compact.{Member as Pair};
ghost use Rattle.json_text.specs.Members.{pairs, pair_of};
ghost use Rattle.frac_keys.specs.Keys.{bytes_less};
ghost use Rattle.members.specs.Standing.{nth};
ghost use Rattle.elem.specs.inner.Printing.{IsBegun, mark, members_below, members_not_below};

use board_base::bytes_order;
use members::Members;
use std::alloc::AllocError;

/// Appends the members from an index on, whose names are less than this one, and tells where the
/// others begin.
#[tactic(auto, using(crate::proofs::Appending::extends_same, crate::proofs::Appending::extends_by, crate::proofs::Appending::extends_then))]
#[inline(always)]
pub(crate) fn push_below(
    out: &mut Vec<u8>,
    start: usize,
    members: &Members,
    at: usize,
    name: &str,
) -> Result<usize, AllocError>
    ensures begun { OnOk result ((before : Items ℕ) (first : Items Pair) → start ≡ length before
        → IsBegun before first out.old.items → IsBegun before
        (first ++ pairs (members_below name.now (drop at members.now))) out.new.items) }
    ensures left { IfOk result (λ left. drop left members.now
        ≡ members_not_below name.now (drop at members.now)) }
    ensures named { OnOk result
        (All (λ m. IsUtf8 m.name) (members_below name.now (drop at members.now))) }
    ensures utf8 { IsUtf8 name.now }
    ensures kept { Extends out.old.items out.new.items }
{
    let mut left = at;
    while let Some(next) = next_below(members, left, name) {
        push_kept(out, start, members, left)?;
        left = next;
    }
    Ok(left)
}

/// The index behind the member at an index, if there is one and its name is less than this one.
#[inline(always)]
pub(crate) fn next_below(members: &Members, at: usize, name: &str) -> Option<usize>
    ensures first { MatchOption result (members_below name.now (drop at members.now) ≡ [])
        (λ next. (drop at members.now ≡ nth members.now at ∷ drop next members.now)
        × (bytes_less (nth members.now at).name name.now ≡ true)) }
    ensures within { IfSome result (λ next. at < length members.now) }
{
    if at < members.len() && is_below(members.name(at), name) {
        Some(at + 1)
    } else {
        None
    }
}

/// Whether a name is less than another one. Mostly their first bytes tell.
fn is_below(name: &[u8], known: &str) -> bool
    ensures { result ≡ bytes_less name.now known.now }
{
    match (name, known.as_bytes()) {
        ([a, ..], [b, ..]) if a != b => a < b,
        (a, b) => bytes_order(a, b).is_lt(),
    }
}

/// Appends the members from an index on to an object that begins at an offset.
#[tactic(auto, using(crate::proofs::Appending::extends_same, crate::proofs::Appending::extends_by, crate::proofs::Appending::extends_then))]
pub(crate) fn push_members(
    out: &mut Vec<u8>,
    start: usize,
    members: &Members,
    at: usize,
) -> Result<(), AllocError>
    ensures begun { OnOk result ((before : Items ℕ) (first : Items Pair) → start ≡ length before
        → IsBegun before first out.old.items
        → IsBegun before (first ++ pairs (drop at members.now)) out.new.items) }
    ensures named { OnOk result (All (λ m. IsUtf8 m.name) (drop at members.now)) }
    ensures kept { Extends out.old.items out.new.items }
{
    for i in at..members.len() {
        push_kept(out, start, members, i)?;
    }
    Ok(())
}

/// Appends the member at an index to an object that begins at an offset.
#[tactic(auto, using(crate::proofs::Appending::extends_same, crate::proofs::Appending::extends_by, crate::proofs::Appending::extends_then))]
#[inline(always)]
fn push_kept(
    out: &mut Vec<u8>,
    start: usize,
    members: &Members,
    at: usize,
) -> Result<(), AllocError>
    requires { at < length members.now }
    ensures begun { OnOk result ((before : Items ℕ) (first : Items Pair) → start ≡ length before
        → IsBegun before first out.old.items
        → IsBegun before (first ++ pair_of (nth members.now at) ∷ []) out.new.items) }
    ensures utf8 { IsUtf8 (nth members.now at).name }
    ensures kept { Extends out.old.items out.new.items }
{
    let _name = members.name(at);
    push_mark(out, start)?;
    members.push(out, at)?;
    Ok(())
}

/// Begins a member in an object that begins at an offset, where the name's quote and the colon
/// behind it are these bytes.
#[tactic(auto, using(crate::proofs::Appending::extends_same, crate::proofs::Appending::extends_by, crate::proofs::Appending::extends_then))]
pub(crate) fn begin_quoted(out: &mut Vec<u8>, start: usize, head: &[u8]) -> Result<(), AllocError>
    ensures text { OnOk result (out.new.items ≡ (out.old.items ++ mark start out.old.items ∷ [])
        ++ head.now) }
    ensures kept { OnErr result (Extends out.old.items out.new.items) }
{
    push_mark(out, start)?;
    out.extend_from_slice(head)
}

/// Appends what stands before a member of an object that begins at an offset: `{` before the first,
/// and else a comma.
pub(crate) fn push_mark(out: &mut Vec<u8>, start: usize) -> Result<(), AllocError>
    ensures ok { OnOk result (out.new.items ≡ out.old.items ++ mark start out.old.items ∷ []) }
    ensures err { OnErr result (out.new.items ≡ out.old.items) }
{
    let mark = if out.len() == start { b'{' } else { b',' };
    out.push(mark)?;
    Ok(())
}
