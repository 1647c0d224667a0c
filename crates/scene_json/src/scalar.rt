//! Numbers, truths and null.

ghost use Rattle.std.specs.Prelude.{◌≡◌, ℕ, ◌<◌, ◌≤◌, ◌↔◌, length, slice_index, IsTrue, IfSome, Some, true, false, decimal};
ghost use Rattle.json_text.specs.Tree.{null_word, true_word, false_word};

use json_text::Raw;

/// The greatest whole number that is read: the greatest that JavaScript counts exactly, one below 2
/// to the 53rd.
pub const GREATEST_WHOLE: u64 = 9_007_199_254_740_991;

/// The whole number that the value is in plain decimal, where it is at most 9,007,199,254,740,991.
/// It takes no memory.
pub fn whole_of(value: &Raw) -> Option<u64>
    ensures found { IfSome result (λ n. (n ≤ GREATEST_WHOLE) × (value.now ≡ decimal n)) }
    ensures only { (n : ℕ) → n ≤ GREATEST_WHOLE → value.now ≡ decimal n → result ≡ Some n }
{
    whole_in(value.as_bytes())
}

/// The whole number that these bytes are in plain decimal, where it is at most
/// 9,007,199,254,740,991. It takes no memory.
#[tactic(auto, using(crate::proofs::Decimals::decimal_steps))]
pub fn whole_in(digits: &[u8]) -> Option<u64>
    ensures found { IfSome result (λ n. (n ≤ GREATEST_WHOLE) × (digits.now ≡ decimal n)) }
    ensures only { (n : ℕ) → n ≤ GREATEST_WHOLE → digits.now ≡ decimal n → result ≡ Some n }
{
    if digits.is_empty() || digits.len() > 1 && digits[0] == b'0' {
        return None;
    }
    number_of(digits)
}

/// The number that these bytes are the digits of, where it is at most the greatest; the first of
/// several isn't 0.
#[tactic(auto, using(crate::proofs::Decimals::decimal_steps))]
fn number_of(digits: &[u8]) -> Option<u64>
    requires some { 0 < length digits.now }
    requires plain { slice_index digits.now 0 ≡ 48 → length digits.now ≡ 1 }
    ensures found { IfSome result (λ n. (n ≤ GREATEST_WHOLE) × (digits.now ≡ decimal n)) }
    ensures only { (n : ℕ) → n ≤ GREATEST_WHOLE → digits.now ≡ decimal n → result ≡ Some n }
{
    let mut whole = 0;
    for digit in digits {
        if !digit.is_ascii_digit() {
            return None;
        }
        whole = whole * 10 + u64::from(*digit - b'0');
        if whole > GREATEST_WHOLE {
            return None;
        }
    }
    Some(whole)
}

/// Which truth the value is, if it is one. It takes no memory.
pub fn truth_of(value: &Raw) -> Option<bool>
    ensures yes { (result ≡ Some true) ↔ (value.now ≡ true_word) }
    ensures no { (result ≡ Some false) ↔ (value.now ≡ false_word) }
{
    match value.as_bytes() {
        b"true" => Some(true),
        b"false" => Some(false),
        _ => None,
    }
}

/// Whether the value is null. It takes no memory.
pub fn is_null(value: &Raw) -> bool
    ensures { IsTrue result ↔ (value.now ≡ null_word) }
{
    value.as_bytes() == b"null".as_slice()
}
