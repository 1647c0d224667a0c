//! Texts, and the compact texts of values.

ghost use Rattle.std.specs.Prelude.{◌≡◌, ◌-◌, ◌≤◌, take, drop, length, IfOk, IfSome, MatchOption};
ghost use Rattle.std.specs.Str.{IsUtf8};
ghost use Rattle.json_text.specs.Characters.{quote};
ghost use Rattle.json_text.specs.inner.Spans.{between, StandsQuoted};
ghost use Rattle.json_text.specs.Value.{IsCompact};

use crate::stretch::Stretch;
use std::alloc::{AllocError, Global};
use std::marker::Model;

/// A text: bytes that are UTF-8.
#[derive(Drop)]
pub struct Text {
    bytes: Stretch,
}

impl Model for Text {
    ghost use Rattle.std.specs.Prelude.{List, ℕ};
    ghost use Rattle.std.specs.Str.{IsUtf8};

    ghost Value = { List ℕ };

    ghost view = { λ t. t.bytes };

    ghost invariant = { λ t. IsUtf8 t.bytes };
}

/// The compact text of one JSON value, in which at most 128 brackets are open at once.
#[derive(Drop)]
pub struct Raw {
    bytes: Stretch,
}

impl Model for Raw {
    ghost use Rattle.std.specs.Prelude.{List, ℕ};
    ghost use Rattle.json_text.specs.Value.{IsCompact};

    ghost Value = { List ℕ };

    ghost view = { λ r. r.bytes };

    ghost invariant = { λ r. IsCompact 128 r.bytes };
}

/// How many members are few: room is made for so many at once, and the names of so many are
/// compared one by one.
pub const FEW_MEMBERS: usize = 40;

/// A member of an object.
#[derive(Drop)]
pub struct Member {
    pub name: Text,
    pub value: Raw,
}

impl Text {
    /// These bytes, or `None` exactly where they aren't UTF-8.
    pub fn read(alloc: Global, bytes: &[u8]) -> Result<Option<Text>, AllocError>
        ensures { IfOk result (λ found. MatchOption found (¬ IsUtf8 bytes.now) (λ text. text
            ≡ bytes.now)) }
    {
        if std::str::from_utf8(bytes).is_err() {
            return Ok(None);
        }
        Ok(Some(Text::from_utf8(Vec::from_slice(alloc, bytes)?)?))
    }

    /// The text of these characters.
    pub fn from_str(alloc: Global, characters: &str) -> Result<Text, AllocError>
        ensures { IfOk result (λ text. text ≡ characters.now) }
    {
        Ok(Text::read(alloc, characters.as_bytes())?.unwrap())
    }

    /// The text of these characters of the program. It takes no memory.
    pub fn fixed(characters: &'static str) -> Text
        ensures { result ≡ characters.now }
    {
        Text {
            bytes: Stretch::fixed(characters.as_bytes()),
        }
    }

    /// How many bytes it has, without a look at them.
    pub fn len(&self) -> usize
        ensures { result ≡ length self.now }
    {
        self.bytes.len()
    }

    /// The bytes, which are UTF-8.
    pub fn as_bytes(&self) -> &[u8]
        ensures value { result.now ≡ self.now }
        ensures utf8 { IsUtf8 self.now }
    {
        self.bytes.as_slice()
    }

    /// An equal text, of which no byte is copied.
    pub fn try_clone(&self) -> Result<Text, AllocError>
        ensures { IfOk result (λ copy. copy ≡ self.now) }
    {
        Ok(Text {
            bytes: self.bytes.try_clone()?,
        })
    }

    /// Its quote, where that stands around it. No byte is looked at.
    pub(crate) fn as_quote(&self) -> Option<&[u8]>
        ensures value { IfSome result (λ bytes. bytes.now ≡ quote self.now) }
        ensures utf8 { IsUtf8 self.now }
    {
        self.bytes.as_quote()
    }

    /// The text with these bytes.
    pub(crate) fn from_utf8(bytes: Vec<u8>) -> Result<Text, AllocError>
        requires { IsUtf8 bytes.items }
        ensures { IfOk result (λ text. text ≡ bytes.items) }
    {
        Ok(Text {
            bytes: Stretch::from_vec(bytes)?,
        })
    }
}

impl Raw {
    /// The value with this compact text of the program. It takes no memory.
    pub fn fixed(text: &'static str) -> Raw
        requires { IsCompact 128 text.now }
        ensures { result ≡ text.now }
    {
        Raw {
            bytes: Stretch::fixed(text.as_bytes()),
        }
    }

    /// The bytes, which are the compact text of one value.
    pub fn as_bytes(&self) -> &[u8]
        ensures value { result.now ≡ self.now }
        ensures compact { IsCompact 128 self.now }
    {
        self.bytes.as_slice()
    }

    /// An equal value, of which no byte is copied.
    pub fn try_clone(&self) -> Result<Raw, AllocError>
        ensures { IfOk result (λ copy. copy ≡ self.now) }
    {
        Ok(Raw {
            bytes: self.bytes.try_clone()?,
        })
    }

    /// The value whose compact text stands between two offsets of this one's. No byte is copied.
    #[inline(always)]
    pub fn cut(&self, start: usize, end: usize) -> Result<Raw, AllocError>
        requires within { (start ≤ end) × (end ≤ length self.now) }
        requires compact { IsCompact 128 (take (end - start) (drop start self.now)) }
        ensures { IfOk result (λ raw. raw ≡ take (end - start) (drop start self.now)) }
    {
        Ok(Raw {
            bytes: self.bytes.cut(start, end)?,
        })
    }

    /// The text that stands between two offsets of the compact text, with its quote around it. No
    /// byte is copied.
    #[inline(always)]
    pub(crate) fn cut_text(&self, start: usize, end: usize) -> Result<Text, AllocError>
        requires quoted { StandsQuoted self.now start end }
        requires utf8 { IsUtf8 (between self.now start end) }
        ensures { IfOk result (λ text. text ≡ between self.now start end) }
    {
        Ok(Text {
            bytes: self.bytes.cut_quoted(start, end)?,
        })
    }

    /// The value with this compact text.
    pub fn from_compact(bytes: Vec<u8>) -> Result<Raw, AllocError>
        requires { IsCompact 128 bytes.items }
        ensures { IfOk result (λ raw. raw ≡ bytes.items) }
    {
        Ok(Raw {
            bytes: Stretch::from_vec(bytes)?,
        })
    }
}

impl Member {
    ghost use Rattle.std.specs.Prelude.{◌≡◌, IfOk};
    ghost use Rattle.json_text.specs.Members.{pair_of};

    /// The member of this name with this value.
    pub fn named(alloc: Global, name: &str, value: Raw) -> Result<Member, AllocError>
        ensures { IfOk result (λ member. pair_of member ≡ (name.now, value)) }
    {
        let name = Text::from_str(alloc, name)?;
        Ok(Member { name, value })
    }

    /// An equal member.
    pub fn try_clone(&self) -> Result<Member, AllocError>
        ensures { IfOk result (λ copy. copy ≡ self.now) }
    {
        let name = self.name.try_clone()?;
        let value = self.value.try_clone()?;
        Ok(Member { name, value })
    }
}
