//! Values made of their parts.

ghost use Rattle.std.specs.Prelude.{◌≡◌, ◌⊎◌, ℕ, [], ◌∷◌, ◌++◌, ◌+◌, ◌<◌, map, IfOk, IsOk, OnOk, OnErr, if◌then◌else◌, decimal, All, bytes_eq};
ghost use Rattle.std.specs.List.{IsDistinct};
ghost use Rattle.json_text.specs.Characters.{quote};
ghost use Rattle.json_text.specs.Tree.{null_word, true_word, false_word};
ghost use Rattle.json_text.specs.Compact.{array_text, object_text};
ghost use Rattle.json_text.specs.Value.{IsCompact};
ghost use Rattle.json_text.specs.Members.{pairs};

use board_base::List;
use itoa::Buffer;
use json_text::{Member, Raw, Text, push_quote};
use members::push_member;
use std::alloc::{AllocError, Global};

/// `null`. It takes no memory.
#[tactic(auto, using(json_text::proofs::CallerLemmas::compact_texts))]
pub fn raw_null(_alloc: Global) -> Result<Raw, AllocError>
    ensures sure { IsOk result }
    ensures word { IfOk result (λ raw. raw ≡ null_word) }
    ensures nests { IfOk result (IsCompact 0) }
{
    Ok(Raw::fixed("null"))
}

/// `true` or `false`. It takes no memory.
#[tactic(auto, using(json_text::proofs::CallerLemmas::compact_texts))]
pub fn raw_truth(_alloc: Global, truth: bool) -> Result<Raw, AllocError>
    ensures sure { IsOk result }
    ensures word { IfOk result (λ raw. raw ≡ (if truth then true_word else false_word)) }
    ensures nests { IfOk result (IsCompact 0) }
{
    if truth {
        Ok(Raw::fixed("true"))
    } else {
        Ok(Raw::fixed("false"))
    }
}

/// The number in digits.
#[tactic(auto, using(json_text::proofs::CallerLemmas::compact_texts))]
pub fn raw_whole(alloc: Global, number: u64) -> Result<Raw, AllocError>
    ensures digits { IfOk result (λ raw. raw ≡ decimal number) }
    ensures nests { IfOk result (IsCompact 0) }
{
    Raw::from_compact(number.to_string(alloc)?.into_bytes())
}

/// The value whose compact text was written.
pub fn raw_of(bytes: Vec<u8>) -> Result<Raw, AllocError>
    requires { IsCompact 128 bytes.items }
    ensures { IfOk result (λ raw. raw ≡ bytes.items) }
{
    Raw::from_compact(bytes)
}

/// The text as a string: `"` and `\` stand behind a `\`, and of the control characters five have a
/// letter and the others four digits of base 16 in lower case.
#[tactic(auto, using(json_text::proofs::CallerLemmas::compact_texts))]
pub fn raw_text(alloc: Global, text: &Text) -> Result<Raw, AllocError>
    ensures quote { IfOk result (λ raw. raw ≡ quote text.now) }
    ensures nests { IfOk result (IsCompact 0) }
{
    let mut out = Vec::new(alloc);
    push_quote(&mut out, text)?;
    Raw::from_compact(out)
}

/// The array of these items, each of which has at most 127 open brackets.
pub fn raw_array(alloc: Global, items: &List<Raw>) -> Result<Raw, AllocError>
    requires { All (IsCompact 127) items.now }
    ensures text { IfOk result (λ raw. raw ≡ array_text items.now) }
    ensures nests { (limit : ℕ) → All (IsCompact limit) items.now
        → IfOk result (IsCompact (limit + 1)) }
{
    let mut out = Vec::new(alloc);
    out.push(b'[')?;
    for (i, item) in items.as_slice().iter().enumerate() {
        push_comma(&mut out, i)?;
        out.extend_from_slice(item.as_bytes())?;
    }
    out.push(b']')?;
    Raw::from_compact(out)
}

/// The object of these members in their order. No name comes twice, and each value has at most 127
/// open brackets.
pub fn raw_object(alloc: Global, members: &List<Member>) -> Result<Raw, AllocError>
    requires distinct { IsDistinct bytes_eq (map (λ member. member.name) members.now) }
    requires values { All (λ member. IsCompact 127 member.value) members.now }
    ensures text { IfOk result (λ raw. raw ≡ object_text (pairs members.now)) }
    ensures nests { (limit : ℕ) → All (λ member. IsCompact limit member.value) members.now
        → IfOk result (IsCompact (limit + 1)) }
{
    let mut out = Vec::new(alloc);
    out.push(b'{')?;
    for (i, member) in members.as_slice().iter().enumerate() {
        push_comma(&mut out, i)?;
        push_member(&mut out, &member.name, &member.value)?;
    }
    out.push(b'}')?;
    Raw::from_compact(out)
}

/// Appends the comma before the item at this index, which the first has none of. For want of memory
/// nothing is appended.
pub fn push_comma(out: &mut Vec<u8>, i: usize) -> Result<(), AllocError>
    ensures ok { OnOk result (((0 < i) × (out.new.items ≡ out.old.items ++ 44 ∷ []))
        ⊎ ((i ≡ 0) × (out.new.items ≡ out.old.items))) }
    ensures err { OnErr result (out.new.items ≡ out.old.items) }
{
    if i > 0 {
        out.push(b',')?;
    }
    Ok(())
}

/// Appends a number in digits. For want of memory nothing is appended.
#[tactic(auto, using(json_text::proofs::CallerLemmas::decimal_nests))]
pub fn push_whole(out: &mut Vec<u8>, number: u64) -> Result<(), AllocError>
    ensures ok { OnOk result (out.new.items ≡ out.old.items ++ decimal number) }
    ensures err { OnErr result (out.new.items ≡ out.old.items) }
    ensures nests { IsCompact 0 (decimal number) }
{
    let mut buffer = Buffer::new();
    out.extend_from_slice(buffer.format(number).as_bytes())
}
