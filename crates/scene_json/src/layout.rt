//! The layout of a value for readers.

ghost use Rattle.std.specs.Prelude.{◌≡◌, ◌-◌, ◌*◌, ◌<◌, ◌≤◌, ℕ, List as Items, [], ◌∷◌, ◌++◌, true, false, take, length, IfOk, OnOk, OnErr};
ghost use Rattle.std.specs.List.{list_all};
ghost use Rattle.json_text.specs.Appending.{Extends};
ghost use Rattle.json_text.specs.Characters.{is_plain, is_closing};
ghost use Rattle.json_text.specs.Walk.{inside};
ghost use Rattle.json_text.specs.Tree.{Tree, IsGood, spelling};
ghost use Rattle.json_text.specs.Value.{Value};
ghost use Rattle.scene_json.specs.Layout.{line, laid_out};
ghost use Rattle.scene_json.specs.Lines.{IsLaidOutSoFar, layout_from};
ghost use Rattle.scene_json.specs.Passes.{spaces_from, put_before, put_behind};

use crate::nesting::opens;
use board_base::Bytes;
use json_text::{Raw, is_space, run_end, whole_or_cut};
use std::alloc::{AllocError, Global};
use std::marker::Model;

/// The value with each member and item on a line of its own, two spaces deeper than its container,
/// and a space behind the colon of a member. Empty containers are `{}` and `[]`, and no line feed
/// ends it. It fails for want of memory alone.
pub fn pretty(alloc: Global, value: &Raw) -> Result<Bytes, AllocError>
    ensures laid_out { IfOk result (λ bytes. (tree : Tree) → IsGood tree → spelling tree ≡ value.now
        → bytes ≡ spelling (laid_out 0 tree)) }
    ensures value { IfOk result (λ bytes. Value 128 bytes value.now) }
{
    let mut out = Vec::new(alloc);
    Lines::new().push(&mut out, value.as_bytes())?;
    Ok(Bytes::from_vec(out))
}

/// The layout of a value whose text comes piece by piece: where it stands behind the pieces so far.
#[derive(Drop)]
pub struct Lines {
    /// How many containers are open.
    level: u64,
    /// The last byte opened one.
    first: bool,
    /// The last byte stands in a string that goes on.
    quoted: bool,
    /// In that string, the next byte stands behind a `\` that escapes it.
    escaped: bool,
}

impl Model for Lines {
    ghost use Rattle.std.specs.Prelude.{◌*◌};
    ghost use Rattle.json_text.specs.Walk.{place_of};
    ghost use Rattle.scene_json.specs.Lines.{Standing};

    ghost Value = { Standing };

    ghost view = { λ l. record {
      place = place_of l.quoted l.escaped;
      first = l.first;
      spaces =
          2 * l.level;
    } };
}

impl Lines {
    /// Behind no piece.
    #[tactic(auto, using(crate::proofs::Spread::laid_none))]
    pub fn new() -> Lines
        ensures { IsLaidOutSoFar result [] [] }
    {
        Lines {
            level: 0,
            first: false,
            quoted: false,
            escaped: false,
        }
    }

    /// The same place.
    fn copy(&self) -> Lines
        ensures { result ≡ self.now }
    {
        Lines {
            level: self.level,
            first: self.first,
            quoted: self.quoted,
            escaped: self.escaped,
        }
    }

    /// Appends the layout of the next piece, which may end anywhere in the text. White space
    /// between values is left out. For want of memory nothing is appended.
    pub fn push(&mut self, out: &mut Vec<u8>, piece: &[u8]) -> Result<(), AllocError>
        ensures ok { OnOk result ((text : Items ℕ) → IsLaidOutSoFar self.old text out.old.items
            → IsLaidOutSoFar self.new (text ++ piece.now) out.new.items) }
        ensures err { OnErr result ((self.new ≡ self.old) × (out.new.items ≡ out.old.items)) }
    {
        let start = out.len();
        let before = self.copy();
        let appended = self.push_all(out, piece);
        if appended.is_err() {
            *self = before;
        }
        whole_or_cut(out, start, appended)
    }

    /// Appends the layout of the next piece. After want of memory a part of it may stand there.
    #[tactic(auto, using(json_text::proofs::CallerLemmas::extends_same, json_text::proofs::CallerLemmas::extends_by, json_text::proofs::CallerLemmas::extends_then, crate::proofs::Spread::laid_on))]
    fn push_all(&mut self, out: &mut Vec<u8>, piece: &[u8]) -> Result<(), AllocError>
        ensures ok { OnOk result ((text : Items ℕ) → IsLaidOutSoFar self.old text out.old.items
            → IsLaidOutSoFar self.new (text ++ piece.now) out.new.items) }
        ensures kept { OnErr result (Extends out.old.items out.new.items) }
    {
        let mut rest = piece;
        while !rest.is_empty() {
            rest = self.push_next(out, rest)?;
        }
        Ok(())
    }

    /// Appends the layout of the plain characters of a string that stand at the front, and of the
    /// byte behind them, and gives what follows.
    #[tactic(auto, using(json_text::proofs::CallerLemmas::extends_same, json_text::proofs::CallerLemmas::extends_by, json_text::proofs::CallerLemmas::extends_then, crate::proofs::Spread::run_from))]
    fn push_next<'a>(&mut self, out: &mut Vec<u8>, bytes: &'a [u8]) -> Result<&'a [u8], AllocError>
        ensures appended { IfOk result (λ rest. (more : Items ℕ)
            → out.new.items ++ layout_from self.new (rest.now ++ more)
            ≡ out.old.items ++ layout_from self.old (bytes.now ++ more)) }
        ensures shorter { IfOk result (λ rest. length rest.now ≤ length bytes.now - 1) }
        ensures kept { Extends out.old.items out.new.items }
    {
        let (run, behind) = bytes.split_at(self.run_length(bytes));
        out.extend_from_slice(run)?;
        let Some((byte, others)) = behind.split_first() else {
            return Ok(behind);
        };
        self.push_byte(out, *byte)?;
        Ok(others)
    }

    /// How many bytes at the front are plain characters of a string.
    #[tactic(auto, using(crate::proofs::Spread::run_plain))]
    fn run_length(&self, bytes: &[u8]) -> usize
        ensures plain { list_all is_plain (take result bytes.now) ≡ true }
        ensures within { result ≤ length bytes.now }
        ensures quoted { 0 < result → self.now.place ≡ inside false }
    {
        if self.quoted && !self.escaped {
            run_end(bytes, 0)
        } else {
            0
        }
    }

    /// Appends the layout of a byte.
    #[tactic(auto, using(json_text::proofs::CallerLemmas::extends_same, json_text::proofs::CallerLemmas::extends_by, json_text::proofs::CallerLemmas::extends_then))]
    fn push_byte(&mut self, out: &mut Vec<u8>, byte: u8) -> Result<(), AllocError>
        ensures appended { OnOk result ((more : Items ℕ)
            → out.new.items ++ layout_from self.new more
            ≡ out.old.items ++ layout_from self.old (byte ∷ more)) }
        ensures kept { Extends out.old.items out.new.items }
    {
        if self.quoted {
            out.push(byte)?;
            self.quoted = byte != b'"' || self.escaped;
            self.escaped = byte == b'\\' && !self.escaped;
        } else if !is_space(byte) {
            self.level = break_line(out, self.level, self.first, byte)?;
            out.push(byte)?;
            part(out, self.level, byte)?;
            self.first = opens(byte);
            self.quoted = byte == b'"';
            self.escaped = false;
        }
        Ok(())
    }
}

/// Begins the line of this byte, if it is the first in a container or closes one that isn't empty,
/// and gives its level.
#[tactic(auto, using(json_text::proofs::CallerLemmas::extends_same, json_text::proofs::CallerLemmas::extends_by, json_text::proofs::CallerLemmas::extends_then))]
fn break_line(out: &mut Vec<u8>, level: u64, first: bool, byte: u8) -> Result<u64, AllocError>
    ensures level { IfOk result (λ now. 2 * now ≡ spaces_from first (2 * level) byte) }
    ensures written { OnOk result (out.new.items ≡ out.old.items
        ++ put_before first (2 * level) byte) }
    ensures kept { OnErr result (Extends out.old.items out.new.items) }
{
    let closing = closes(byte);
    if closing == first {
        return Ok(level);
    }
    let level = if closing {
        level.saturating_sub(1)
    } else {
        // A line of so many spaces would find no memory.
        level.checked_add(1).ok_or(AllocError)?
    };
    push_line(out, level)?;
    Ok(level)
}

/// Parts this byte from what follows it, if it is a comma or a colon.
#[tactic(auto, using(json_text::proofs::CallerLemmas::extends_same, json_text::proofs::CallerLemmas::extends_by, json_text::proofs::CallerLemmas::extends_then))]
fn part(out: &mut Vec<u8>, level: u64, byte: u8) -> Result<(), AllocError>
    ensures written { OnOk result (out.new.items ≡ out.old.items ++ put_behind (2 * level) byte) }
    ensures kept { OnErr result (Extends out.old.items out.new.items) }
{
    match byte {
        b',' => push_line(out, level),
        b':' => out.extend_from_slice(b" "),
        _ => Ok(()),
    }
}

/// Begins a line with two spaces for each level.
#[tactic(auto, using(json_text::proofs::CallerLemmas::extends_same, json_text::proofs::CallerLemmas::extends_by, json_text::proofs::CallerLemmas::extends_then, crate::proofs::Spread::line_more))]
fn push_line(out: &mut Vec<u8>, level: u64) -> Result<(), AllocError>
    ensures written { OnOk result (out.new.items ≡ out.old.items ++ line (2 * level)) }
    ensures kept { OnErr result (Extends out.old.items out.new.items) }
{
    out.extend_from_slice(b"\n")?;
    for _ in 0..level {
        out.extend_from_slice(b"  ")?;
    }
    Ok(())
}

/// Whether the byte closes a container.
fn closes(byte: u8) -> bool
    ensures { result ≡ is_closing byte }
{
    matches!(byte, b']' | b'}')
}
