//! The brackets that are open.

ghost use Rattle.std.specs.Prelude.{◌≡◌, ◌<◌, ◌≤◌, nat_le, length, drop, [], ◌∷◌};
ghost use Rattle.json_reader.specs.inner.Machine.{top, are_square};

use std::marker::Model;

/// A kind of bracket.
#[derive(Clone, Copy)]
pub(crate) enum Bracket {
    Square,
    Curly,
}

/// At most 128 open brackets, the innermost first. It takes no memory.
#[derive(Drop)]
pub(crate) struct Brackets {
    /// A digit in base 2 for each, the last for the innermost: 1 for a curly one.
    digits: u128,
    count: usize,
}

impl Model for Brackets {
    ghost use Rattle.std.specs.Prelude.{◌^◌, ◌<◌, ◌≤◌, List};
    ghost use Rattle.json_reader.specs.inner.Brackets.{kinds_of};
    ghost use Rattle.json_reader.specs.declared.brackets.Bracket.{Bracket};

    ghost Value = { List Bracket };

    ghost view = { λ b. kinds_of b.count b.digits };

    ghost invariant = { λ b. (b.count ≤ 128) × (b.digits < 2 ^ b.count) };
}

impl Brackets {
    /// No bracket is open.
    pub(crate) fn new() -> Brackets
        ensures { result ≡ [] }
    {
        Brackets {
            digits: 0,
            count: 0,
        }
    }

    /// The innermost open bracket.
    pub(crate) fn top(&self) -> Option<Bracket>
        ensures { result ≡ top self.now }
    {
        if self.count == 0 {
            None
        } else if self.digits % 2 == 0 {
            Some(Bracket::Square)
        } else {
            Some(Bracket::Curly)
        }
    }

    /// The two innermost open brackets are square.
    #[tactic(auto, using(crate::proofs::Digits::kinds_count, crate::proofs::Digits::square_kinds))]
    #[inline(always)]
    pub(crate) fn are_square(&self) -> bool
        ensures square { result ≡ are_square self.now }
        ensures within { length self.now ≤ 128 }
    {
        self.count >= 2 && self.digits % 4 == 0
    }

    /// As many are open as may be.
    #[tactic(auto, using(crate::proofs::Digits::kinds_count))]
    pub(crate) fn is_full(&self) -> bool
        ensures { result ≡ nat_le 128 (length self.now) }
    {
        self.count == 128
    }

    /// Opens a bracket.
    #[tactic(auto, using(crate::proofs::Digits::room))]
    pub(crate) fn push(&mut self, bracket: Bracket)
        requires { length self.old < 128 }
        ensures { self.new ≡ bracket ∷ self.old }
    {
        let digit = match bracket {
            Bracket::Square => 0,
            Bracket::Curly => 1,
        };
        self.digits = self.digits * 2 + digit;
        self.count += 1;
    }

    /// Closes the innermost bracket, if one is open.
    pub(crate) fn pop(&mut self)
        ensures { self.new ≡ drop 1 self.old }
    {
        if self.count > 0 {
            self.digits /= 2;
            self.count -= 1;
        }
    }
}
