//! Many keys between two others.

ghost use Rattle.std.specs.Prelude.{◌≡◌, ◌++◌, IfOk, OnOk, IsTrue, Some, None, option_copied, length};
ghost use Rattle.std.specs.List.{list_all};
ghost use Rattle.frac_keys.specs.Keys.{is_key};
ghost use Rattle.frac_keys.specs.Between.{keys_above, keys_below, keys_inside, keys_between};
ghost use Rattle.frac_keys.specs.Rising.{ends_rise, is_key_or_none, last_or, lies_between, rise_between};

use crate::generate::{end_bytes, key_between};
use crate::key::Key;
use board_base::List;
use std::alloc::{AllocError, Global};

/// `n` keys between two ends, the first of which is less; an absent end is beyond all keys. Fails
/// only for want of memory. Source: rocicorp's fractional-indexing.
pub fn n_between(
    alloc: Global,
    a: Option<&Key>,
    b: Option<&Key>,
    n: usize,
) -> Result<List<Key>, AllocError>
    requires { IsTrue (ends_rise (option_copied a) (option_copied b)) }
    ensures exact { IfOk result (λ keys. keys ≡ keys_between (option_copied a.entry)
        (option_copied b.entry) n) }
    ensures count { IfOk result (λ keys. length keys ≡ n) }
    ensures are_keys { IfOk result (λ keys. IsTrue (list_all is_key keys)) }
    ensures rise { IfOk result (λ keys. IsTrue
        (rise_between (option_copied a.entry) (option_copied b.entry) keys)) }
    ensures inside { IfOk result
        (λ keys. IsTrue (list_all (lies_between (option_copied a.entry) (option_copied b.entry))
        keys)) }
    ensures low_end { IsTrue (is_key_or_none (option_copied a.entry)) }
    ensures high_end { IsTrue (is_key_or_none (option_copied b.entry)) }
{
    let keys = keys_between(alloc, end_bytes(a), end_bytes(b), n)?;
    Ok(List::from_vec(keys))
}

/// `n` keys between two ends, by the bytes of these.
fn keys_between(
    alloc: Global,
    a: Option<&[u8]>,
    b: Option<&[u8]>,
    n: usize,
) -> Result<Vec<Key>, AllocError>
    requires a { IsTrue (is_key_or_none (option_copied a)) }
    requires b { IsTrue (is_key_or_none (option_copied b)) }
    requires rise { IsTrue (ends_rise (option_copied a) (option_copied b)) }
    ensures { IfOk result (λ keys. keys.items ≡ keys_between (option_copied a.entry)
        (option_copied b.entry) n) }
{
    match (a, b) {
        (_, None) => keys_above(alloc, a, n),
        (None, Some(_)) => keys_below(alloc, b, n),
        (Some(_), Some(_)) => {
            let mut keys = Vec::with_capacity(alloc, n)?;
            push_inside(alloc, &mut keys, a, b, n)?;
            Ok(keys)
        }
    }
}

/// `n` keys above an end, each made from the one before it.
fn keys_above(alloc: Global, a: Option<&[u8]>, n: usize) -> Result<Vec<Key>, AllocError>
    requires { IsTrue (is_key_or_none (option_copied a)) }
    ensures { IfOk result (λ keys. keys.items ≡ keys_above (option_copied a.entry) n) }
{
    let mut keys = Vec::with_capacity(alloc, n)?;
    for _ in 0..n {
        let key = key_between(alloc, last_or(&keys, a), None)?;
        keys.push(key)?;
    }
    Ok(keys)
}

/// `n` keys below an end, each made from the one after it.
fn keys_below(alloc: Global, b: Option<&[u8]>, n: usize) -> Result<Vec<Key>, AllocError>
    requires { IsTrue (is_key_or_none (option_copied b)) }
    ensures { IfOk result (λ keys. keys.items ≡ keys_below (option_copied b.entry) n) }
{
    let mut keys = Vec::with_capacity(alloc, n)?;
    for _ in 0..n {
        let key = key_between(alloc, None, last_or(&keys, b))?;
        keys.push(key)?;
    }
    keys.reverse();
    Ok(keys)
}

/// Appends `n` keys, above the last one or the first end where there is none, and below the
/// second end.
fn push_inside(
    alloc: Global,
    keys: &mut Vec<Key>,
    a: Option<&[u8]>,
    b: Option<&[u8]>,
    n: usize,
) -> Result<(), AllocError>
    requires a { IsTrue (is_key_or_none (option_copied a)) }
    requires b { IsTrue (is_key_or_none (option_copied b)) }
    requires rise { IsTrue (ends_rise (last_or (option_copied a) keys.old.items)
        (option_copied b)) }
    ensures { OnOk result (keys.new.items ≡ keys.old.items
        ++ keys_inside n (last_or (option_copied a.entry) keys.old.items) (option_copied b.entry)
        n) }
{
    if n == 0 {
        return Ok(());
    }
    let key = key_between(alloc, last_or(keys, a), b)?;
    push_inside(alloc, keys, a, Some(key.as_bytes()), n / 2)?;
    keys.push(key)?;
    push_inside(alloc, keys, a, b, n - n / 2 - 1)
}

/// The bytes of the last key, or of the end where there is none.
fn last_or<'a>(keys: &'a [Key], end: Option<&'a [u8]>) -> Option<&'a [u8]>
    requires { IsTrue (is_key_or_none (option_copied end)) }
    ensures value { option_copied result ≡ last_or (option_copied end.entry) keys.now }
    ensures end { IsTrue (is_key_or_none (option_copied result)) }
{
    match keys.last() {
        Some(key) => Some(key.as_bytes()),
        None => end,
    }
}
