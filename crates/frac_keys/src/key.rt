//! Keys, and their order.

ghost use Rattle.std.specs.Prelude.{◌≡◌, IfOk, IsFalse, IsTrue, if◌then◌else◌};
ghost use Rattle.frac_keys.specs.Keys as keys;

use crate::parts::is_key;
use board_base::bytes_order;
use std::alloc::{AllocError, Global};
use std::cmp::Ordering;
use std::marker::Model;

/// The bytes of a valid key.
#[derive(Debug, Drop)]
pub struct Key {
    bytes: Vec<u8>,
}

impl Model for Key {
    ghost use Rattle.std.specs.Prelude.{List, ℕ, IsTrue};
    ghost use Rattle.frac_keys.specs.Keys.{is_key};

    ghost Value = { List ℕ };

    ghost view = { λ key. key.bytes.items };

    ghost invariant = { λ key. IsTrue (is_key key.bytes.items) };
}

impl Key {
    /// The key that these bytes are, or None exactly where they aren't one. Fails only for want of
    /// memory, and only where they are one.
    pub fn read(alloc: Global, bytes: &[u8]) -> Result<Option<Key>, AllocError>
        ensures exact { IfOk result (λ key. key
            ≡ (if keys.is_key bytes.now then Some bytes.now else None)) }
        ensures none { IsFalse (keys.is_key bytes.now) → result ≡ Ok None }
    {
        if !is_key(bytes) {
            return Ok(None);
        }
        let key = Key::from_vec(Vec::from_slice(alloc, bytes)?);
        Ok(Some(key))
    }

    /// The key of these bytes. It takes no memory.
    pub(crate) fn from_vec(bytes: Vec<u8>) -> Key
        requires { IsTrue (keys.is_key bytes.items) }
        ensures { result ≡ bytes.items }
    {
        Key { bytes }
    }

    /// The bytes. It takes no memory.
    pub fn as_bytes(&self) -> &[u8]
        ensures value { result.now ≡ self.now }
        ensures key { IsTrue (keys.is_key result.now) }
    {
        self.bytes.as_slice()
    }

    /// An equal key. Fails only for want of memory.
    pub fn try_clone(&self) -> Result<Key, AllocError>
        ensures { IfOk result (λ key. key ≡ self.now) }
    {
        let bytes = self.bytes.clone()?;
        Ok(Key { bytes })
    }
}

impl PartialEq for Key {
    ghost use Rattle.std.specs.Prelude.{bytes_eq};
    ghost use Rattle.std.specs.Cmp.{partial_equiv_from_equiv};
    ghost use Rattle.std.specs.Cmp.Lexicographic.{nat_list_eq_equiv};

    ghost eq = { bytes_eq };

    ghost laws = { partial_equiv_from_equiv nat_list_eq_equiv };

    fn eq(&self, other: &Key) -> bool {
        self.as_bytes() == other.as_bytes()
    }
}

impl Eq for Key {
    ghost use Rattle.std.specs.Cmp.Lexicographic.{nat_list_eq_equiv};

    ghost laws = { nat_list_eq_equiv };
}

impl PartialOrd for Key {
    ghost use Rattle.std.specs.Prelude.{Some};
    ghost use Rattle.std.specs.Cmp.Lexicographic.{slice_cmp, texts_po};
    ghost use Rattle.std.specs.Ordering.{nat_cmp};

    ghost partial_cmp = { λ a b. Some (slice_cmp nat_cmp a b) };

    ghost laws = { texts_po };

    fn partial_cmp(&self, other: &Key) -> Option<Ordering> {
        Some(self.cmp(other))
    }
}

impl Ord for Key {
    ghost use Rattle.std.specs.Prelude.{refl};
    ghost use Rattle.std.specs.Cmp.Lexicographic.{slice_cmp, nat_list_cmp_total, texts_ties};
    ghost use Rattle.std.specs.Ordering.{nat_cmp};

    ghost cmp = { slice_cmp nat_cmp };

    ghost total = { nat_list_cmp_total };

    ghost matches_partial_cmp = { λ _ _. refl };

    ghost matches_eq = { texts_ties };

    fn cmp(&self, other: &Key) -> Ordering {
        bytes_order(self.as_bytes(), other.as_bytes())
    }
}
