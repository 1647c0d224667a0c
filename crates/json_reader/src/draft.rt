//! What is written of an object under way.

ghost use Rattle.std.specs.Prelude.{◌≡◌, length, ◌+◌, ◌-◌, IfOk, OnOk, OnErr};
ghost use Rattle.json_text.specs.Characters.{quote};
ghost use Rattle.json_reader.specs.inner.Drafts.{fresh, grown, named, parted, closed, placed, IsWhole};

use crate::collapsing::{MemberPlace, Span, collapse};
use json_text::{FEW_MEMBERS, Text, push_quote};
use std::alloc::{AllocError, Global};
use std::marker::Model;
use std::mem::swap;

/// So many bytes of text are few, as most elements have.
const FEW_BYTES: usize = 4096;

/// What is written of the innermost object that is open, behind its bracket, or of the text
/// outside objects. Bytes that are still to be appended may stand before the offsets.
pub(crate) struct Draft {
    text: Vec<u8>,
    /// Where the text behind the last colon or comma of the object begins.
    from: usize,
    /// Where the quoted name of the member under way stands, if its colon has come.
    name: Option<Span>,
    /// Where the whole members stand.
    places: Vec<MemberPlace>,
    /// How many arrays are open in the object.
    level: u64,
}

// By hand, so that whoever drops a draft sees one call and not what it holds.
impl Drop for Draft {
    fn drop(self) {
        let Draft {
            text: _text,
            from: _,
            name: _name,
            places: _places,
            level: _,
        } = self;
    }
}

impl Model for Draft {
    ghost use Rattle.json_reader.specs.inner.Drafts.{Drafted};

    ghost Value = { Drafted };

    ghost view = { λ d. record {
      text = d.text.items;
      from = d.from;
      name = d.name;
      places = d.places.items;
      level = d.level;
    } };
}

impl Draft {
    /// Nothing is written outside objects.
    pub(crate) fn new(alloc: Global) -> Draft
        ensures { result ≡ fresh }
    {
        Draft {
            text: Vec::new(alloc),
            from: 0,
            name: None,
            places: Vec::new(alloc),
            level: 0,
        }
    }

    /// Nothing is written of an object. There is room for one like an element.
    pub(crate) fn of_object(alloc: Global) -> Result<Draft, AllocError>
        ensures { IfOk result (λ draft. draft ≡ fresh) }
    {
        let text = Vec::with_capacity(alloc, 512)?;
        let places = Vec::with_capacity(alloc, FEW_MEMBERS)?;
        Ok(Draft {
            text,
            from: 0,
            name: None,
            places,
            level: 0,
        })
    }

    /// How many arrays are open.
    pub(crate) fn level(&self) -> u64
        ensures { result ≡ self.now.level }
    {
        self.level
    }

    /// Appends these bytes.
    pub(crate) fn extend(&mut self, bytes: &[u8]) -> Result<(), AllocError>
        ensures { OnOk result (self.new ≡ grown self.old bytes.now) }
    {
        self.text.extend_from_slice(bytes)?;
        Ok(())
    }

    /// Appends the text of an inner object, which may be long. Behind a single byte, as the
    /// outermost object has it, it stays where it is.
    pub(crate) fn append(&mut self, inner: &mut Draft) -> Result<(), AllocError>
        ensures { OnOk result (self.new ≡ grown self.old inner.old.text) }
    {
        let [first] = self.text.as_slice() else {
            return self.extend(inner.text.as_slice());
        };
        inner.text.insert(0, *first)?;
        swap(&mut self.text, &mut inner.text);
        Ok(())
    }

    /// Appends the quote of a text.
    pub(crate) fn push_quote(&mut self, text: &Text) -> Result<(), AllocError>
        ensures { OnOk result (self.new ≡ grown self.old (quote text.now)) }
    {
        push_quote(&mut self.text, text)?;
        Ok(())
    }

    /// An array is opened.
    pub(crate) fn deepen(&mut self) -> Result<(), AllocError>
        ensures { OnOk result (self.new ≡ record self.old { level = self.old.level + 1 }) }
    {
        // So many arrays would find no memory.
        self.level = self.level.checked_add(1).ok_or(AllocError)?;
        Ok(())
    }

    /// An array is closed.
    pub(crate) fn rise(&mut self)
        ensures { self.new ≡ record self.old { level = self.old.level - 1 } }
    {
        self.level = self.level.saturating_sub(1);
    }

    /// A colon comes behind these bytes, which are still to be appended: a name ends.
    pub(crate) fn end_name(&mut self, ahead: &[u8])
        ensures { self.new ≡ named (length self.old.text + length ahead.now) self.old }
    {
        let end = self.text.len() + ahead.len();
        self.name = Some(Span {
            start: self.from,
            end,
        });
        self.from = end + 1;
    }

    /// A comma comes behind these bytes, which are still to be appended: a member ends.
    pub(crate) fn end_member(&mut self, ahead: &[u8]) -> Result<(), AllocError>
        ensures { OnOk result (self.new ≡ parted (length self.old.text + length ahead.now)
            self.old) }
    {
        let end = self.text.len() + ahead.len();
        let value = Span {
            start: self.from,
            end,
        };
        place_member(&mut self.places, self.name, value)?;
        self.name = None;
        self.from = end + 1;
        Ok(())
    }

    /// Leaves the text that stands between the brackets of the object, each name once.
    pub(crate) fn close(&mut self) -> Result<(), AllocError>
        requires { IsWhole self.old }
        ensures { OnOk result (self.new.text ≡ closed self.old) }
    {
        let end = self.text.len();
        let value = Span {
            start: self.from,
            end,
        };
        place_member(&mut self.places, self.name, value)?;
        collapse(&mut self.text, self.places.as_slice())?;
        Ok(())
    }

    /// Whether it has no more room than most elements need.
    pub(crate) fn is_small(&self) -> bool {
        self.text.capacity() <= FEW_BYTES && self.places.capacity() <= FEW_MEMBERS
    }

    /// Leaves nothing but the room.
    pub(crate) fn clear(&mut self)
        ensures { self.new ≡ fresh }
    {
        self.text.clear();
        self.from = 0;
        self.name = None;
        self.places.clear();
        self.level = 0;
    }

    /// The text, where no object is open.
    pub(crate) fn into_text(self) -> Vec<u8>
        ensures { result.items ≡ self.text }
    {
        let Draft {
            text,
            from: _from,
            name: _name,
            places: _places,
            level: _level,
        } = self;
        text
    }
}

/// Puts the member of this name and value behind the others, if there is a name.
fn place_member(
    places: &mut Vec<MemberPlace>,
    name: Option<Span>,
    value: Span,
) -> Result<(), AllocError>
    ensures ok { OnOk result (places.new.items ≡ placed places.old.items name value) }
    ensures err { OnErr result (places.new.items ≡ places.old.items) }
{
    if let Some(name) = name {
        places.push(MemberPlace { name, value })?;
    }
    Ok(())
}
