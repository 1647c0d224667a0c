//! Texts are equal, in order and hashed as their bytes are, and values are equal as theirs are.

ghost use Rattle.std.specs.Prelude.{◌≡◌, Some, nat_eq, bytes_eq};
ghost use Rattle.std.specs.Ordering.{nat_cmp};
ghost use Rattle.std.specs.Cmp.{partial_equiv_from_equiv};
ghost use Rattle.std.specs.Cmp.Lexicographic.{slice_cmp, nat_list_eq_equiv, nat_list_cmp_total, texts_ties, texts_po};
ghost use Rattle.std.specs.Hash as fed;
ghost use Rattle.std.proofs.Common.{refl, ap};
ghost use Rattle.std.proofs.lemmas.Slice.Eq.{bytes_eq-Decides};

use crate::text::{Raw, Text};
use board_base::bytes_order;
use std::cmp::Ordering;
use std::hash::{Hash, Hasher};

impl PartialEq for Text {
    ghost eq = { bytes_eq };

    ghost laws = { partial_equiv_from_equiv nat_list_eq_equiv };

    fn eq(&self, other: &Text) -> bool {
        self.as_bytes() == other.as_bytes()
    }
}

impl Eq for Text {
    ghost laws = { nat_list_eq_equiv };
}

impl PartialOrd for Text {
    ghost partial_cmp = { λ a b. Some (slice_cmp nat_cmp a b) };

    ghost laws = { texts_po };

    fn partial_cmp(&self, other: &Text) -> Option<Ordering> {
        Some(self.cmp(other))
    }
}

impl Ord for Text {
    ghost cmp = { slice_cmp nat_cmp };

    ghost total = { nat_list_cmp_total };

    ghost matches_partial_cmp = { λ a b. refl };

    ghost matches_eq = { texts_ties };

    fn cmp(&self, other: &Text) -> Ordering {
        bytes_order(self.as_bytes(), other.as_bytes())
    }
}

impl Hash for Text {
    ghost hash_input = { λ text. fed.slice fed.u8 text };

    ghost respects_eq = { λ a b same. ap (λ text. fed.slice fed.u8 text)
        ((bytes_eq-Decides a b).0 same) };

    fn hash<H: Hasher>(&self, state: &mut H) {
        self.as_bytes().hash(state);
    }
}

impl PartialEq for Raw {
    ghost eq = { bytes_eq };

    ghost laws = { partial_equiv_from_equiv nat_list_eq_equiv };

    fn eq(&self, other: &Raw) -> bool {
        self.as_bytes() == other.as_bytes()
    }
}

impl Eq for Raw {
    ghost laws = { nat_list_eq_equiv };
}
