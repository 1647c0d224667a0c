//! Index repair: strictly rising keys in place of keys that may be absent or in disorder, and
//! elements with such keys.
#![tactic(auto)]

mod keyed;
pub mod laws;

ghost use Rattle.std.specs.Prelude.{◌≡◌, ℕ, List, ◌++◌, length, map, None, Some, option_copied, IfOk, OnOk, IsTrue};
ghost use Rattle.std.specs.List.{list_all};
ghost use Rattle.frac_keys.specs.Keys.{is_key};
ghost use Rattle.frac_keys.specs.Between.{keys_between};
ghost use Rattle.frac_keys.specs.Rising.{ends_rise, rise_between, are_rising, is_key_or_none};
ghost use Rattle.index_repair.specs.Repair.{kept, repaired_below, repaired, are_below, KeepsAll, kept_key};

use board_base::List;
use frac_keys::{Key, n_between};
pub use keyed::with_repaired_keys;
use std::alloc::{AllocError, Global};

/// Strictly rising keys for all positions. A position keeps its key if it has one that is greater
/// than all keys kept before it; each run of other positions gets the keys between the kept keys
/// beside it, absent at the two ends. Fails only for want of memory. This project's own.
pub fn repair(alloc: Global, keys: &List<Option<Key>>) -> Result<List<Key>, AllocError>
    ensures exact { IfOk result (λ new. new ≡ repaired keys.now) }
    ensures count { IfOk result (λ new. length new ≡ length keys.now) }
    ensures rise { IfOk result (λ new. IsTrue (are_rising new)) }
    ensures keeps { IfOk result (λ new. KeepsAll (kept keys.now) new) }
    ensures new_keys { IfOk result (λ new. IsTrue (list_all is_key new)) }
    ensures old_keys { IfOk result (λ _. IsTrue (list_all is_key_or_none keys.now)) }
{
    repair_part(alloc, keys, None)
}

/// The same of a part of a list, at whose end the key `above` stands in place of the absent
/// neighbour.
pub fn repair_part(
    alloc: Global,
    keys: &List<Option<Key>>,
    above: Option<&Key>,
) -> Result<List<Key>, AllocError>
    requires { IsTrue (are_below (option_copied above) keys.now) }
    ensures exact { IfOk result (λ new. new ≡ repaired_below (option_copied above.entry) keys.now) }
    ensures count { IfOk result (λ new. length new ≡ length keys.now) }
    ensures rise { IfOk result (λ new. IsTrue (rise_between None (option_copied above.entry) new)) }
    ensures keeps { IfOk result (λ new. KeepsAll (kept keys.now) new) }
    ensures new_keys { IfOk result (λ new. IsTrue (list_all is_key new)) }
    ensures old_keys { IfOk result (λ _. IsTrue (list_all is_key_or_none keys.now)) }
{
    let mut new = Vec::new(alloc);
    let mut low = None;
    let mut run = 0;
    for key in keys.as_slice() {
        match kept_key(low, key) {
            Some(key) => {
                push_between(alloc, &mut new, low, Some(key), run)?;
                new.push(key.try_clone()?)?;
                low = Some(key);
                run = 0;
            }
            None => run += 1,
        }
    }
    push_between(alloc, &mut new, low, above, run)?;
    Ok(List::from_vec(new))
}

/// The key of a position, if it is kept: if it is greater than the last one that was kept before
/// it.
fn kept_key<'a>(low: Option<&Key>, key: &'a Option<Key>) -> Option<&'a Key>
    ensures kept { option_copied result ≡ kept_key (option_copied low.entry) key.now }
    ensures key { IsTrue (is_key_or_none key.now) }
{
    match key {
        Some(key) if is_above(low, key) => Some(key),
        _ => None,
    }
}

/// Whether a key is greater than the one given, if there is one.
fn is_above(low: Option<&Key>, key: &Key) -> bool
    ensures above { result ≡ ends_rise (option_copied low.entry) (Some key.now) }
    ensures key { IsTrue (is_key key.now) }
{
    let bytes = key.as_bytes();
    match low {
        Some(low) => low.as_bytes() < bytes,
        None => true,
    }
}

/// Appends the keys between two ends.
fn push_between(
    alloc: Global,
    new: &mut Vec<Key>,
    low: Option<&Key>,
    high: Option<&Key>,
    run: usize,
) -> Result<(), AllocError>
    requires { IsTrue (ends_rise (option_copied low) (option_copied high)) }
    ensures pushed { OnOk result (new.new.items ≡ new.old.items
        ++ keys_between (option_copied low.entry) (option_copied high.entry) run) }
    ensures high_end { IsTrue (is_key_or_none (option_copied high.entry)) }
{
    let mut between = n_between(alloc, low, high, run)?.into_vec();
    new.append(&mut between)
}

/// Whether the keys rise strictly. It takes no memory.
pub fn rising(keys: &List<Key>) -> bool
    ensures { result ≡ are_rising keys.now }
{
    keys.as_slice().is_sorted_by(|key, next| key < next)
}
