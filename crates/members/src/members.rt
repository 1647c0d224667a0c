//! Members, however they are held.

ghost use Rattle.std.specs.Prelude.{◌≡◌, ◌<◌, ◌++◌, ◌+◌, length, take, drop, map, All, IfOk, OnOk, OnErr, IsPermutation};
ghost use Rattle.std.specs.Str.{IsUtf8};
ghost use Rattle.json_text.specs.Compact.{member_text};
ghost use Rattle.json_text.specs.Members.{pair_of};
ghost use Rattle.json_text.specs.Value.{IsCompact};
ghost use Rattle.members.specs.Standing.{member_at, nth, Stands};

use crate::push::push_member;
use crate::standing::{Place, Standing};
use board_base::List;
use json_text::{Member, Raw};
use std::alloc::{AllocError, Global};
use std::marker::Model;

/// The members of an object, in their order: each by itself, or by their places in a text, which
/// takes a quarter of the memory. Contracts see the list.
pub struct Members {
    held: Held,
}

/// How they are held.
#[derive(Drop)]
enum Held {
    Apart(Vec<Member>),
    Standing(Standing),
}

// By hand, so that whoever drops members sees one call and not how they are held.
impl Drop for Members {
    fn drop(self) {
        let Members { held: _held } = self;
    }
}

impl Model for Members {
    ghost use Rattle.std.specs.Prelude.{List};
    ghost use Rattle.json_text.specs.declared.text.Member.{Member};
    ghost use Rattle.members.specs.inner.Held.{members_of};

    ghost Value = { List Member };

    ghost view = { λ m. members_of m.held };
}

impl Members {
    /// These members, each by itself. It takes no memory.
    pub fn apart(members: List<Member>) -> Members
        ensures { result ≡ members }
    {
        Members {
            held: Held::Apart(members.into_vec()),
        }
    }

    /// The members at these places in the text. It takes no memory.
    pub fn standing(text: Raw, places: Vec<Place>) -> Members
        requires { All (Stands text) places.items }
        ensures { result ≡ map (member_at text) places.items }
    {
        Members {
            held: Held::Standing(Standing::new(text, places)),
        }
    }

    /// How many there are.
    #[inline(always)]
    pub fn len(&self) -> usize
        ensures { result ≡ length self.now }
    {
        match &self.held {
            Held::Apart(members) => members.len(),
            Held::Standing(standing) => standing.len(),
        }
    }

    /// The bytes of the name of the member at an index, which are UTF-8.
    #[inline(always)]
    pub fn name(&self, at: usize) -> &[u8]
        requires { at < length self.now }
        ensures value { result.now ≡ (nth self.now at).name }
        ensures utf8 { IsUtf8 (nth self.now at).name }
    {
        match &self.held {
            Held::Apart(members) => members[at].name.as_bytes(),
            Held::Standing(standing) => standing.name(at),
        }
    }

    /// The bytes of its value, which are the compact text of one.
    #[inline(always)]
    pub fn value(&self, at: usize) -> &[u8]
        requires { at < length self.now }
        ensures value { result.now ≡ (nth self.now at).value }
        ensures compact { IsCompact 128 (nth self.now at).value }
    {
        match &self.held {
            Held::Apart(members) => members[at].value.as_bytes(),
            Held::Standing(standing) => standing.value(at),
        }
    }

    /// How many bytes its value has, without a look at them.
    #[inline(always)]
    pub fn value_len(&self, at: usize) -> usize
        requires { at < length self.now }
        ensures { result ≡ length (nth self.now at).value }
    {
        match &self.held {
            Held::Apart(members) => members[at].value.as_bytes().len(),
            Held::Standing(standing) => standing.value_len(at),
        }
    }

    /// Its value. No byte is copied.
    pub fn to_value(&self, at: usize) -> Result<Raw, AllocError>
        requires { at < length self.now }
        ensures { IfOk result (λ raw. raw ≡ (nth self.now at).value) }
    {
        match &self.held {
            Held::Apart(members) => members[at].value.try_clone(),
            Held::Standing(standing) => standing.to_value(at),
        }
    }

    /// Appends its quoted name, a colon and its value. For want of memory nothing is appended.
    #[inline(always)]
    pub fn push(&self, out: &mut Vec<u8>, at: usize) -> Result<(), AllocError>
        requires { at < length self.now }
        ensures ok { OnOk result (out.new.items
            ≡ out.old.items ++ member_text (pair_of (nth self.now at))) }
        ensures err { OnErr result (out.new.items ≡ out.old.items) }
        ensures utf8 { IsUtf8 (nth self.now at).name }
    {
        match &self.held {
            Held::Apart(members) => push_nth(out, members, at),
            Held::Standing(standing) => standing.push(out, at),
        }
    }

    /// The member. No byte is copied.
    fn to_member(&self, alloc: Global, at: usize) -> Result<Member, AllocError>
        requires { at < length self.now }
        ensures { IfOk result (λ member. member ≡ nth self.now at) }
    {
        match &self.held {
            Held::Apart(members) => members[at].try_clone(),
            Held::Standing(standing) => standing.to_member(alloc, at),
        }
    }

    /// A list of its own. No byte is copied.
    pub fn to_list(&self, alloc: Global) -> Result<List<Member>, AllocError>
        ensures { IfOk result (λ list. list ≡ self.now) }
    {
        let mut list = Vec::with_capacity(alloc, self.len())?;
        for at in 0..self.len() {
            list.push(self.to_member(alloc, at)?)?;
        }
        Ok(List::from_vec(list))
    }

    /// The members as a list: the same one where they are held each by itself.
    pub fn into_list(self, alloc: Global) -> Result<List<Member>, AllocError>
        ensures { IfOk result (λ list. list ≡ self) }
    {
        let Members { held } = self;
        match held {
            Held::Apart(members) => Ok(List::from_vec(members)),
            held => Members { held }.to_list(alloc),
        }
    }

    /// Removes the member at an index. It takes no memory.
    pub fn remove(&mut self, at: usize)
        requires { at < length self.old }
        ensures { self.new ≡ take at self.old ++ drop (at + 1) self.old }
    {
        match &mut self.held {
            Held::Apart(members) => {
                members.remove(at);
            }
            Held::Standing(standing) => standing.remove(at),
        }
    }

    /// The same members, with no room beside them.
    pub fn shrunk(self, alloc: Global) -> Result<Members, AllocError>
        ensures { IfOk result (λ shrunk. shrunk ≡ self) }
    {
        let Members { held } = self;
        let held = match held {
            Held::Apart(members) => Held::Apart(without_room(members)),
            Held::Standing(standing) => Held::Standing(standing.shrunk(alloc)?),
        };
        Ok(Members { held })
    }

    /// Puts members that stand in a text in the order of the first 8 bytes of their names, which
    /// mostly is that of the names. Fails only for want of memory.
    pub fn sort_by_fronts(&mut self) -> Result<(), AllocError>
        ensures { OnOk result (IsPermutation self.old self.new) }
    {
        if let Held::Standing(standing) = &mut self.held {
            standing.sort_by_fronts()?;
        }
        Ok(())
    }
}

/// Appends the member at an index.
#[inline(always)]
fn push_nth(out: &mut Vec<u8>, members: &Vec<Member>, at: usize) -> Result<(), AllocError>
    requires { at < length members.now.items }
    ensures ok { OnOk result (out.new.items
        ≡ out.old.items ++ member_text (pair_of (nth members.now.items at))) }
    ensures err { OnErr result (out.new.items ≡ out.old.items) }
    ensures utf8 { IsUtf8 (nth members.now.items at).name }
{
    let member = &members[at];
    push_member(out, &member.name, &member.value)
}

/// These members, with no room beside them.
fn without_room(members: Vec<Member>) -> Vec<Member>
    ensures { result.items ≡ members.items }
{
    let mut members = members;
    members.shrink_to_fit();
    members
}
