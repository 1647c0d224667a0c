//! Ids that are told apart by a number.

ghost use Rattle.std.specs.Prelude.{◌≡◌};
ghost use Rattle.std.specs.Cmp.Lexicographic.{slice_cmp};
ghost use Rattle.std.specs.Ordering.{nat_cmp};
ghost use Rattle.links.specs.inner.Keys.{front_number, rank};

use board_base::{bytes_order, front_of};
use json_text::Text;
use std::cmp::Ordering;
use std::marker::Model;

/// An id with its front beside it as a number: ids whose fronts differ are compared in one step,
/// without a look at the place in memory where their bytes stand. Contracts see the bytes.
#[derive(Drop)]
pub(crate) struct Key<'a> {
    front: u64,
    bytes: &'a [u8],
}

impl<'a> Model for Key<'a> {
    ghost use Rattle.std.specs.Prelude.{◌≡◌, List, ℕ};
    ghost use Rattle.links.specs.inner.Keys.{front_number};

    ghost Value = { List ℕ };

    ghost view = { λ key. key.bytes.now };

    ghost invariant = { λ key. key.front ≡ front_number key.bytes.now };
}

impl<'a> Key<'a> {
    /// The key of an id.
    pub(crate) fn of(id: &'a Text) -> Key<'a>
        ensures { result ≡ id.now }
    {
        let bytes = id.as_bytes();
        Key {
            front: front_number(bytes),
            bytes,
        }
    }

    /// The front of the id, as a number.
    pub(crate) fn front(&self) -> u64
        ensures { result ≡ front_number self.now }
    {
        self.front
    }

    /// How the ids compare: by their fronts, and where these are the same by their bytes.
    #[inline(always)]
    pub(crate) fn order(&self, other: &Key<'_>) -> Ordering
        ensures { result ≡ slice_cmp nat_cmp (rank self.now) (rank other.now) }
    {
        match self.front.cmp(&other.front) {
            Ordering::Less => Ordering::Less,
            Ordering::Greater => Ordering::Greater,
            Ordering::Equal => bytes_order(self.bytes, other.bytes),
        }
    }
}

/// The front of some bytes, as a number.
fn front_number(bytes: &[u8]) -> u64
    ensures { result ≡ front_number bytes.now }
{
    u64::from_be_bytes(front_of(bytes))
}
