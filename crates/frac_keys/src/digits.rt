//! The digits of base 62.

ghost use Rattle.std.specs.Prelude.{◌≡◌, ◌+◌, ◌<◌, ◌≤◌, IsTrue};
ghost use Rattle.frac_keys.specs.Digits.{is_key_digit, digit_value, digit_byte, middle_digit};

/// The value of a digit, 0 to 61.
#[tactic(auto, unfolding(crate::specs::Digits::digit_value))]
pub(crate) fn digit_value(digit: u8) -> u8
    requires { IsTrue (is_key_digit digit) }
    ensures value { result ≡ digit_value digit }
    ensures bound { result < 62 }
    ensures first { result ≡ 0 → digit ≡ 48 }
    ensures last { result ≡ 61 → digit ≡ 122 }
{
    if digit <= b'9' {
        digit - b'0'
    } else if digit <= b'Z' {
        digit - b'A' + 10
    } else {
        digit - b'a' + 36
    }
}

/// The digit of a value below 62.
#[tactic(auto, unfolding(crate::specs::Digits::digit_byte))]
pub(crate) fn digit_byte(value: u8) -> u8
    requires { value < 62 }
    ensures { result ≡ digit_byte value }
{
    match value {
        0..10 => b'0' + value,
        10..36 => b'A' + (value - 10),
        _ => b'a' + (value - 36),
    }
}

/// The digit halfway between two values that are more than one apart.
pub(crate) fn middle_digit(low: u8, high: u8) -> u8
    requires apart { low + 1 < high }
    requires bound { high ≤ 62 }
    ensures { result ≡ middle_digit low high }
{
    digit_byte((low + high + 1) / 2)
}
