//! The parts of a key's bytes.

ghost use Rattle.std.specs.Prelude.{◌≡◌, ◌+◌, ◌<◌, ◌≤◌, IsTrue, length};
ghost use Rattle.std.specs.Char.{is_ascii_alphabetic};
ghost use Rattle.std.specs.List.{list_all};
ghost use Rattle.frac_keys.specs.Digits.{is_key_digit};
ghost use Rattle.frac_keys.specs.Keys.{digit_count, integer_part, fraction, ends_in_zero, is_integer, is_key, bytes_less};

/// The smallest integer part, which alone is no key.
pub(crate) const SMALLEST: &[u8] = b"A00000000000000000000000000";

/// Whether bytes are a key.
#[tactic(auto, unfolding(crate::specs::Keys::is_key))]
pub(crate) fn is_key(bytes: &[u8]) -> bool
    ensures { result ≡ is_key bytes.now }
{
    let Some((head, rest)) = bytes.split_first() else {
        return false;
    };
    if !head.is_ascii_alphabetic() {
        return false;
    }
    let count = digit_count(*head);
    rest.len() >= count && are_digits(rest) && !ends_in_zero(&rest[count..]) && bytes != SMALLEST
}

/// How many digits follow a head in its integer part.
#[tactic(auto, unfolding(crate::specs::Keys::digit_count))]
pub(crate) fn digit_count(head: u8) -> usize
    requires { IsTrue (is_ascii_alphabetic head) }
    ensures value { result ≡ digit_count head }
    ensures bound { result ≤ 26 }
{
    usize::from(if head <= b'Z' {
        b'Z' - head + 1
    } else {
        head - b'a' + 1
    })
}

fn are_digits(bytes: &[u8]) -> bool
    ensures { result ≡ list_all is_key_digit bytes.now }
{
    bytes.iter().all(|byte| byte.is_ascii_alphanumeric())
}

fn ends_in_zero(bytes: &[u8]) -> bool
    ensures { result ≡ ends_in_zero bytes.now }
{
    match bytes {
        [.., last] => *last == b'0',
        [] => false,
    }
}

/// The integer part of a key, and its fraction.
pub(crate) fn split(key: &[u8]) -> (&[u8], &[u8])
    requires { IsTrue (is_key key.now) }
    ensures integer { result.0.now ≡ integer_part key.now }
    ensures fraction { result.1.now ≡ fraction key.now }
    ensures is_integer { IsTrue (is_integer result.0.now) }
    ensures are_digits { IsTrue (list_all is_key_digit result.1.now) }
{
    key.split_at(1 + digit_count(key[0]))
}

/// Whether bytes are less than other ones.
pub(crate) fn is_less(a: &[u8], b: &[u8]) -> bool
    ensures { result ≡ bytes_less a.now b.now }
{
    a < b
}
