//! Members that stand in a text.

ghost use Rattle.std.specs.Prelude.{◌≡◌, ◌<◌, ◌++◌, ◌+◌, length, take, drop, map, All, IfOk, OnOk, OnErr, IsPermutation};
ghost use Rattle.std.specs.Str.{IsUtf8};
ghost use Rattle.json_text.specs.Compact.{member_text};
ghost use Rattle.json_text.specs.Members.{pair_of};
ghost use Rattle.json_text.specs.Value.{IsCompact};
ghost use Rattle.members.specs.Standing.{member_at, nth, Stands};

use json_text::{Member, Raw, text_at};
use std::alloc::{AllocError, Global};
use std::marker::Model;

/// Where a member stands in a text: the offsets of its name's opening quotation mark, of its colon,
/// and of the byte behind its value.
#[derive(Clone, Copy)]
pub struct Place {
    pub start: u32,
    pub colon: u32,
    pub end: u32,
}

/// Members by their places in a text. Contracts see the list.
#[derive(Drop)]
pub(crate) struct Standing {
    text: Raw,
    places: Vec<Place>,
}

impl Model for Standing {
    ghost use Rattle.std.specs.Prelude.{List, map, All};
    ghost use Rattle.json_text.specs.declared.text.Member.{Member};
    ghost use Rattle.members.specs.Standing.{member_at, Stands};

    ghost Value = { List Member };

    ghost view = { λ s. map (member_at s.text) s.places.items };

    ghost invariant = { λ s. All (Stands s.text) s.places.items };
}

impl Standing {
    /// The members at these places in the text.
    pub(crate) fn new(text: Raw, places: Vec<Place>) -> Standing
        requires { All (Stands text) places.items }
        ensures { result ≡ map (member_at text) places.items }
    {
        Standing { text, places }
    }

    /// How many there are.
    #[inline(always)]
    pub(crate) fn len(&self) -> usize
        ensures { result ≡ length self.now }
    {
        self.places.len()
    }

    /// The bytes of the name of the member at an index.
    #[inline(always)]
    pub(crate) fn name(&self, at: usize) -> &[u8]
        requires { at < length self.now }
        ensures value { result.now ≡ (nth self.now at).name }
        ensures utf8 { IsUtf8 (nth self.now at).name }
    {
        let place = self.places[at];
        &self.text.as_bytes()[place.start as usize + 1..place.colon as usize - 1]
    }

    /// The bytes of its value.
    #[inline(always)]
    pub(crate) fn value(&self, at: usize) -> &[u8]
        requires { at < length self.now }
        ensures value { result.now ≡ (nth self.now at).value }
        ensures compact { IsCompact 128 (nth self.now at).value }
    {
        let place = self.places[at];
        &self.text.as_bytes()[place.colon as usize + 1..place.end as usize]
    }

    /// How many bytes its value has, without a look at them.
    #[inline(always)]
    pub(crate) fn value_len(&self, at: usize) -> usize
        requires { at < length self.now }
        ensures { result ≡ length (nth self.now at).value }
    {
        let place = self.places[at];
        (place.end - place.colon) as usize - 1
    }

    /// Its value, of which no byte is copied.
    pub(crate) fn to_value(&self, at: usize) -> Result<Raw, AllocError>
        requires { at < length self.now }
        ensures { IfOk result (λ raw. raw ≡ (nth self.now at).value) }
    {
        let place = self.places[at];
        self.text.cut(place.colon as usize + 1, place.end as usize)
    }

    /// Appends its text. For want of memory nothing is appended.
    #[inline(always)]
    pub(crate) fn push(&self, out: &mut Vec<u8>, at: usize) -> Result<(), AllocError>
        requires { at < length self.now }
        ensures ok { OnOk result (out.new.items
            ≡ out.old.items ++ member_text (pair_of (nth self.now at))) }
        ensures err { OnErr result (out.new.items ≡ out.old.items) }
        ensures utf8 { IsUtf8 (nth self.now at).name }
    {
        let place = self.places[at];
        out.extend_from_slice(&self.text.as_bytes()[place.start as usize..place.end as usize])
    }

    /// The member, of which no byte is copied.
    pub(crate) fn to_member(&self, alloc: Global, at: usize) -> Result<Member, AllocError>
        requires { at < length self.now }
        ensures { IfOk result (λ member. member ≡ nth self.now at) }
    {
        let (name, _end) = text_at(alloc, &self.text, self.places[at].start as usize)?;
        let value = self.to_value(at)?;
        Ok(Member { name, value })
    }

    /// Removes the member at an index.
    pub(crate) fn remove(&mut self, at: usize)
        requires { at < length self.old }
        ensures { self.new ≡ take at self.old ++ drop (at + 1) self.old }
    {
        self.places.remove(at);
    }

    /// The same members, with no room beside them. Their places are copied, so that the room that
    /// they had is free as a whole.
    pub(crate) fn shrunk(self, alloc: Global) -> Result<Standing, AllocError>
        ensures { IfOk result (λ shrunk. shrunk ≡ self) }
    {
        let Standing { text, places } = self;
        let places = Vec::from_slice(alloc, places.as_slice())?;
        Ok(Standing { text, places })
    }

    /// Puts the members in the order of the first 8 bytes of their names.
    pub(crate) fn sort_by_fronts(&mut self) -> Result<(), AllocError>
        ensures ok { OnOk result (IsPermutation self.old self.new) }
    {
        let bytes = self.text.as_bytes();
        self.places
            .sort_by_cached_key(|place| front_from(bytes, place.start as usize + 1))?;
        Ok(())
    }
}

/// The eight bytes from an offset on as one number, the first of them the highest, or 0 where fewer
/// are left. The bytes behind a name of fewer are among them.
fn front_from(bytes: &[u8], at: usize) -> u64 {
    match bytes.get(at..) {
        Some(rest) => number_of(rest),
        None => 0,
    }
}

/// The first eight bytes as one number, or 0 where there are fewer.
fn number_of(bytes: &[u8]) -> u64 {
    match bytes.first_chunk() {
        Some(bytes) => u64::from_be_bytes(*bytes),
        None => 0,
    }
}
