//! How deep a value is.

ghost use Rattle.std.specs.Prelude.{◌≡◌, ◌↔◌, ℕ, List as Items, ◌∷◌, ◌≤◌, drop, length, false, IfSome, IsTrue};
ghost use Rattle.std.specs.List.{prefix_len};
ghost use Rattle.json_text.specs.Value.{IsCompact};
ghost use Rattle.json_text.specs.Characters.{is_opening, is_quiet};
ghost use Rattle.scene_json.specs.inner.Passes.{behind_string};

use json_text::{Raw, quiet_end, run_end};

/// How many brackets are open at once where most are: 0 for a number, a word or a string. It takes
/// no memory.
#[tactic(auto, using(crate::proofs::Depths::depth_steps))]
pub fn depth_of(value: &Raw) -> u64
    ensures holds { IsCompact result value.now }
    ensures least { (limit : ℕ) → IsCompact limit value.now → result ≤ limit }
{
    let mut level: u64 = 0;
    let mut deepest: u64 = 0;
    let mut rest = value.as_bytes();
    while let Some((byte, others)) = rest.split_first() {
        match *byte {
            b'"' => rest = after_string(others),
            b'[' | b'{' => {
                level += 1;
                deepest = deepest.max(level);
                rest = after_quiet(others);
            }
            b']' | b'}' => match after_opened(others) {
                Some(inner) if level > 0 => rest = after_quiet(inner),
                _ => {
                    level = level.saturating_sub(1);
                    rest = after_quiet(others);
                }
            },
            _ => rest = after_quiet(others),
        }
    }
    deepest
}

/// Whether at most so many brackets are open at once. It takes no memory.
#[tactic(auto, using(crate::proofs::Depths::nesting_steps))]
pub fn nests_at_most(value: &Raw, limit: u64) -> bool
    ensures { IsTrue result ↔ IsCompact limit value.now }
{
    !is_container(value.as_bytes()) || depth_of(value) <= limit
}

/// Whether the first byte opens a container.
fn is_container(bytes: &[u8]) -> bool
    ensures { result ≡ false → (byte : ℕ) (more : Items ℕ) → bytes.now ≡ byte ∷ more
        → is_opening byte ≡ false }
{
    match bytes.split_first() {
        Some((byte, _more)) => opens(*byte),
        None => false,
    }
}

/// Whether the byte opens a container.
pub(crate) fn opens(byte: u8) -> bool
    ensures { result ≡ is_opening byte }
{
    matches!(byte, b'[' | b'{')
}

/// What stands behind the string that these bytes are the rest of.
#[tactic(auto, using(crate::proofs::Behind::string_broken))]
pub(crate) fn after_string(bytes: &[u8]) -> &[u8]
    ensures { result.now ≡ behind_string false bytes.now }
{
    let mut at = 0;
    loop {
        let end = run_end(bytes, at);
        if end == bytes.len() {
            return &[];
        }
        if bytes[end] == b'"' {
            return &bytes[end + 1..];
        }
        at = bytes.len().min(end + 2);
    }
}

/// What stands behind the bytes at the front that open and close nothing.
#[inline(always)]
pub(crate) fn after_quiet(bytes: &[u8]) -> &[u8]
    ensures quiet { result.now ≡ drop (prefix_len is_quiet bytes.now) bytes.now }
    ensures within { length result.now ≤ length bytes.now }
{
    &bytes[quiet_end(bytes, 0)..]
}

/// What stands behind a comma and the bracket of an array, if they are at the front: behind a
/// closing bracket, as between points, they open as many as it closes.
#[inline(always)]
pub(crate) fn after_opened(bytes: &[u8]) -> Option<&[u8]>
    ensures { IfSome result (λ rest. bytes.now ≡ 44 ∷ 91 ∷ rest.now) }
{
    match bytes {
        [b',', b'[', rest @ ..] => Some(rest),
        _ => None,
    }
}
