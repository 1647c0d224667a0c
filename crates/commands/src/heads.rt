//! What the heads of scenes are joined to, head by head.

ghost use Rattle.std.specs.Prelude.{◌≡◌, ◌++◌, ◌∷◌, [], List as Items, IfOk, OnOk, if◌then◌else◌};
ghost use Rattle.json_text.specs.Characters.{quote};
ghost use Rattle.json_text.specs.Compact.{Member as Pair};
ghost use Rattle.json_text.specs.Members.{pairs};
ghost use Rattle.frac_keys.specs.Keys.{bytes_less};
ghost use Rattle.file_table.specs.Table.{AreLeastEntries, EntriesNest};
ghost use Rattle.scene_file.specs.Heads.{Heading, IsJoinedHead, lesser_source};
ghost use Rattle.commands.specs.inner.Readers.{AreJoined};

use board_base::List;
use file_table::Files;
use json_text::{Member, Raw, Text};
use scene_file::Head;
use scene_json::raw_text;
use std::alloc::{AllocError, Global};
use std::marker::Model;

/// The heads of scenes that come one after the other, joined: each in time of its own size.
#[derive(Drop)]
pub(crate) struct Heads {
    source: Option<Quoted>,
    settings: Files,
    files: Files,
}

impl Model for Heads {
    ghost use Rattle.commands.specs.inner.Readers.{HeadsSoFar};

    ghost Value = { HeadsSoFar };

    ghost view = { λ h. record { source = h.source; settings = h.settings; files = h.files } };
}

impl Heads {
    /// Of no scenes. It takes no memory.
    pub(crate) fn new(alloc: Global) -> Heads
        ensures { AreJoined [] result }
    {
        Heads {
            source: None,
            settings: Files::new(alloc),
            files: Files::new(alloc),
        }
    }

    /// Joins a further head. After want of memory it may have a part of the head.
    pub(crate) fn take(&mut self, alloc: Global, head: &Head) -> Result<(), AllocError>
        ensures { OnOk result ((heads : Items Heading) → AreJoined heads self.old
            → AreJoined (heads ++ head.now ∷ []) self.new) }
    {
        let other = quoted_source(alloc, &head.source)?;
        let source = self.source.take();
        self.source = lesser_source(source, other);
        take_all(&mut self.settings, &head.app_state)?;
        take_all(&mut self.files, &head.files.by_id()?)?;
        Ok(())
    }

    /// The head that they are joined to.
    pub(crate) fn finish(self) -> Result<Head, AllocError>
        ensures { IfOk result (λ head. (heads : Items Heading) → AreJoined heads self
            → IsJoinedHead heads head) }
    {
        let Heads {
            source,
            settings,
            files,
        } = self;
        let app_state = settings.by_id()?;
        Ok(Head {
            source: text_of(source),
            app_state,
            files,
        })
    }
}

/// A source beside its string, by which it is compared.
#[derive(Drop)]
struct Quoted {
    text: Text,
    string: Raw,
}

impl Model for Quoted {
    ghost use Rattle.std.specs.Prelude.{◌≡◌, ℕ, List as Items};
    ghost use Rattle.json_text.specs.Characters.{quote};

    ghost Value = { Items ℕ };

    ghost view = { λ q. q.text };

    ghost invariant = { λ q. q.string ≡ quote q.text };
}

impl Quoted {
    fn new(alloc: Global, text: &Text) -> Result<Quoted, AllocError>
        ensures { IfOk result (λ quoted. quoted ≡ text.now) }
    {
        let string = raw_text(alloc, text)?;
        let text = text.try_clone()?;
        Ok(Quoted { text, string })
    }

    /// Whether its string is less by its bytes than the other one's.
    fn is_below(&self, other: &Quoted) -> bool
        ensures { result ≡ bytes_less (quote self.now) (quote other.now) }
    {
        self.string.as_bytes() < other.string.as_bytes()
    }

    fn into_text(self) -> Text
        ensures { result ≡ self }
    {
        let Quoted {
            text,
            string: _string,
        } = self;
        text
    }
}

/// A source beside its string, if there is one.
fn quoted_source(alloc: Global, source: &Option<Text>) -> Result<Option<Quoted>, AllocError>
    ensures { IfOk result (λ quoted. quoted ≡ source.now) }
{
    match source {
        None => Ok(None),
        Some(text) => Ok(Some(Quoted::new(alloc, text)?)),
    }
}

/// A source without its string.
fn text_of(source: Option<Quoted>) -> Option<Text>
    ensures { result ≡ source }
{
    match source {
        None => None,
        Some(quoted) => Some(quoted.into_text()),
    }
}

/// Of two sources the one whose string is less by its bytes.
fn lesser_source(source: Option<Quoted>, other: Option<Quoted>) -> Option<Quoted>
    ensures { result ≡ lesser_source source other }
{
    match (source, other) {
        (None, other) => other,
        (Some(source), None) => Some(source),
        (Some(source), Some(other)) => Some(lesser(source, other)),
    }
}

/// The one whose string is less by its bytes, or the first.
fn lesser(source: Quoted, other: Quoted) -> Quoted
    ensures { result ≡ (if bytes_less (quote other) (quote source) then other else source) }
{
    if other.is_below(&source) {
        other
    } else {
        source
    }
}

/// Takes all these members into the table. After want of memory it may have some of them.
fn take_all(table: &mut Files, members: &List<Member>) -> Result<(), AllocError>
    requires { EntriesNest 126 (pairs members.now) }
    ensures { OnOk result ((given : Items Pair) → AreLeastEntries given table.old
        → AreLeastEntries (given ++ pairs members.now) table.new) }
{
    for member in members.as_slice() {
        let copy = member.try_clone()?;
        table.take(copy.name, copy.value)?;
    }
    Ok(())
}
