//! The machine that reads one value, a byte at a time.
//!
//! Its state is a mode and the brackets that are open. It takes no memory and can be kept between
//! calls.

ghost use Rattle.std.specs.Prelude.{◌≡◌, ◌↔◌, ◌<◌, ◌≤◌, IsTrue, [], true, length, slice_index, IfSome, MatchOption};
ghost use Rattle.json_text.specs.Characters.{is_space, is_hex};
ghost use Rattle.json_text.specs.Tree.{opening, closing};
ghost use Rattle.json_text.specs.Value.{extends_number};
ghost use Rattle.json_reader.specs.inner.Items.{HasPassedItems};
ghost use Rattle.json_reader.specs.inner.Machine.{container_of, first_move, closes_bracket, after_comma, after_string, value_begun, after_move, led_on, tail_led, string_move, first_letter, after_letter, moved, string_fault, bracket_fault, fault_of, top, step, state, ended, AwaitsComma, AwaitsName, HasTaken, Stepped};
ghost use Rattle.json_reader.specs.inner.Runs.{is_over};
ghost use Rattle.json_reader.specs.inner.Writing.{HasPassed, StandsAt};
ghost use Rattle.json_reader.specs.declared.machine.Mode.TheVariants.{Colon, Name, Number, Quoted};
ghost use Rattle.json_reader.specs.declared.machine.Place.TheVariants.{Plain};

use crate::brackets::{Bracket, Brackets};
use crate::fault::JsonFault;
use crate::items::items_end;
use crate::number::{Part, extends_number, number_end};
use crate::sequence::Tail;
use crate::simple::{bare_string_end, simple_end, stands_at};
use crate::staying::{Ground, stay_end};
use crate::word::word_end;
use json_text::is_space;

/// What a string is for.
#[derive(Clone, Copy)]
pub(crate) enum Role {
    Name,
    Value,
}

/// A place inside a string.
#[derive(Clone, Copy)]
pub(crate) enum Place {
    /// Between two characters.
    Plain,
    /// After a `\`.
    Escape,
    /// Before a digit of base 16 that so many more must follow.
    Hex(u8),
    /// In a sequence of UTF-8 of so many bytes in all.
    Sequence(u8, Tail),
}

/// The letters of `null`, `true` or `false` that must still come.
#[derive(Clone, Copy)]
pub(crate) enum Letters {
    Ull,
    Ll,
    L,
    Rue,
    Ue,
    Alse,
    Lse,
    Se,
    E,
}

/// What the machine waits for.
#[derive(Clone, Copy)]
pub(crate) enum Mode {
    /// A value must come.
    Value,
    /// A bracket was opened: its first value or name comes, or it is closed.
    Fresh,
    /// A name must come.
    Name,
    /// A colon must come.
    Colon,
    /// A value has ended.
    After,
    Quoted(Role, Place),
    Number(Part),
    Word(Letters),
}

/// What a byte does.
#[derive(Clone, Copy)]
pub(crate) enum Move {
    To(Mode),
    /// It opens a bracket.
    Open(Bracket),
    /// It closes the innermost bracket.
    Close,
    /// The value has ended before it.
    End,
    /// No value goes on with it.
    Refuse,
}

/// What came of a byte.
#[derive(Clone, Copy)]
pub(crate) enum Progress {
    On,
    /// The value has ended before this byte.
    Ended,
    /// No value goes on with this byte.
    Refused,
}

/// The reader of one value: white space and the value.
#[derive(Drop)]
pub(crate) struct Machine {
    mode: Mode,
    brackets: Brackets,
}

impl Machine {
    /// A value must come, and no bracket is open.
    pub(crate) fn new() -> Machine
        ensures mode { result.mode ≡ Mode.Value }
        ensures brackets { result.brackets ≡ [] }
    {
        Machine {
            mode: Mode::Value,
            brackets: Brackets::new(),
        }
    }

    /// Takes one byte more, unless no value goes on with it. Few bytes need it: it is one call, for
    /// which the machine stays in memory.
    #[inline(never)]
    pub(crate) fn step(&mut self, byte: u8) -> Progress
        ensures { Stepped self.old self.new result byte }
    {
        match moved(self.mode, self.brackets.top(), byte) {
            Move::To(mode) => self.mode = mode,
            Move::Open(_) if self.brackets.is_full() => return Progress::Refused,
            Move::Open(bracket) => {
                self.brackets.push(bracket);
                self.mode = Mode::Fresh;
            }
            Move::Close => {
                self.brackets.pop();
                self.mode = Mode::After;
            }
            Move::End => return Progress::Ended,
            Move::Refuse => return Progress::Refused,
        }
        Progress::On
    }

    /// Where a stretch from `at` on ends whose bytes all leave the machine as it is, on this
    /// ground.
    #[inline(always)]
    pub(crate) fn stay_end(&self, ground: Ground, bytes: &[u8], at: usize) -> usize
        requires { at ≤ length bytes.now }
        ensures { HasPassed ground bytes.now at result self.now self.now }
    {
        stay_end(self.mode, self.brackets.top(), ground, bytes, at)
    }

    /// Takes a number, or what is left of it, if one may begin or is under way on this ground: as
    /// many bytes from an offset on as it goes on with. It gives the offset after them.
    #[inline(always)]
    pub(crate) fn pass_number(&mut self, ground: Ground, bytes: &[u8], at: usize) -> usize
        requires { at < length bytes.now }
        ensures { HasPassed ground bytes.now at result self.old self.new }
    {
        let Ground::Between = ground else {
            return at;
        };
        let Some(part) = self.awaited_part(bytes[at]) else {
            return at;
        };
        let (last, end) = number_end(part, bytes, at + 1);
        self.mode = Mode::Number(last);
        end
    }

    /// Takes the items that stand whole at an offset, if a value must or may come there in an array
    /// that is open in another. It gives the offset after them.
    #[inline(always)]
    pub(crate) fn pass_items(&mut self, bytes: &[u8], at: usize) -> usize
        requires { at ≤ length bytes.now }
        ensures { HasPassedItems bytes.now at result self.old self.new }
    {
        let opened = match self.mode {
            Mode::Value => false,
            Mode::Fresh => true,
            _ => return at,
        };
        if !self.brackets.are_square() {
            return at;
        }
        let (end, opened) = items_end(bytes, at, opened);
        self.mode = if opened { Mode::Fresh } else { Mode::Value };
        end
    }

    /// The part that a number comes to with this byte, if one may begin or go on with it here.
    #[inline(always)]
    fn awaited_part(&self, byte: u8) -> Option<Part>
        ensures goes { IfSome result (λ part. step 128 self.now.mode self.now.brackets byte
            ≡ state (Number part) self.now.brackets) }
        ensures extends { IfSome result (λ part. extends_number byte ≡ true) }
    {
        match (self.mode, self.brackets.top()) {
            (Mode::Value, _) | (Mode::Fresh, Some(Bracket::Square)) => Part::begun(byte),
            (Mode::Number(part), _) => part.after(byte),
            _ => None,
        }
    }

    /// What a string would be for, if one may begin here.
    #[inline(always)]
    fn awaited_string(&self) -> Option<Role>
        ensures { IfSome result (λ role. step 128 self.now.mode self.now.brackets 34
            ≡ state (Quoted role Plain) self.now.brackets) }
    {
        match (self.mode, self.brackets.top()) {
            (Mode::Name, _) | (Mode::Fresh, Some(Bracket::Curly)) => Some(Role::Name),
            (Mode::Value, _) | (Mode::Fresh, Some(Bracket::Square)) => Some(Role::Value),
            _ => None,
        }
    }

    /// Takes a whole string that begins at an offset, if one may begin on this ground and all its
    /// characters are ASCII and stand for themselves. It gives the offset after it.
    #[inline(always)]
    pub(crate) fn pass_string(&mut self, ground: Ground, bytes: &[u8], at: usize) -> usize
        requires within { at < length bytes.now }
        requires quote { slice_index bytes.now at ≡ 34 }
        ensures { HasPassed ground bytes.now at result self.old self.new }
    {
        let (Ground::Between, Some(role)) = (ground, self.awaited_string()) else {
            return at;
        };
        let Some(end) = bare_string_end(bytes, at) else {
            return at;
        };
        self.mode = after_string(role);
        end
    }

    /// Whether the name of a member may begin here, and its value may be an array.
    #[inline(always)]
    pub(crate) fn awaits_name(&self) -> bool
        ensures { IsTrue result → AwaitsName self.now }
    {
        match (self.mode, self.brackets.top()) {
            (Mode::Name | Mode::Fresh, Some(Bracket::Curly)) => !self.brackets.is_full(),
            _ => false,
        }
    }

    /// Takes the name of a member at an offset, if a colon follows it and all its characters are
    /// ASCII and stand for themselves. It gives the offset of the colon.
    #[inline(always)]
    pub(crate) fn pass_name(&mut self, ground: Ground, bytes: &[u8], at: usize) -> Option<usize>
        requires within { at ≤ length bytes.now }
        requires awaited { AwaitsName self.old }
        ensures { MatchOption result (self.new ≡ self.old) (λ colon. StandsAt bytes.now colon 58
            × HasPassed ground bytes.now at colon self.old self.new
            × (self.new ≡ record self.old { mode = Colon })) }
    {
        let Ground::Between = ground else {
            return None;
        };
        if !stands_at(bytes, at, b'"') {
            return None;
        }
        let colon = bare_string_end(bytes, at)?;
        if !stands_at(bytes, colon, b':') {
            return None;
        }
        self.mode = Mode::Colon;
        Some(colon)
    }

    /// Takes the colon behind a name.
    #[inline(always)]
    pub(crate) fn pass_colon(&mut self)
        ensures { self.new ≡ record self.old { mode = Mode.Value } }
    {
        self.mode = Mode::Value;
    }

    /// Takes the simple value that stands whole at an offset, if a comma follows it, and gives the
    /// offset of the comma.
    #[inline(always)]
    pub(crate) fn pass_simple(&mut self, ground: Ground, bytes: &[u8], at: usize) -> Option<usize>
        requires within { at ≤ length bytes.now }
        requires awaited { (self.old.mode ≡ Mode.Value) × (length self.old.brackets < 128) }
        ensures { MatchOption result (self.new ≡ self.old) (λ comma. StandsAt bytes.now comma 44
            × HasPassed ground bytes.now at comma self.old self.new
            × (self.new.brackets ≡ self.old.brackets) × AwaitsComma self.new.mode) }
    {
        let Ground::Between = ground else {
            return None;
        };
        let (mode, comma) = simple_end(bytes, at)?;
        if !stands_at(bytes, comma, b',') {
            return None;
        }
        self.mode = mode;
        Some(comma)
    }

    /// Takes the comma behind a member.
    #[inline(always)]
    pub(crate) fn pass_comma(&mut self)
        ensures { self.new ≡ record self.old { mode = Name } }
    {
        self.mode = Mode::Name;
    }

    /// Takes a word, if a value must come on this ground and the word stands whole at an offset. It
    /// gives the offset after it.
    #[inline(always)]
    pub(crate) fn pass_word(&mut self, ground: Ground, bytes: &[u8], at: usize) -> usize
        requires { at ≤ length bytes.now }
        ensures { HasPassed ground bytes.now at result self.old self.new }
    {
        let (Ground::Between, Mode::Value, Some(end)) = (ground, self.mode, word_end(bytes, at))
        else {
            return at;
        };
        self.mode = Mode::After;
        end
    }

    /// Takes a comma behind a value.
    #[inline(always)]
    fn separate(&mut self) -> bool
        ensures { HasTaken self.old 44 result self.new }
    {
        match (self.mode, self.brackets.top()) {
            (
                Mode::After | Mode::Number(Part::Zero | Part::Whole | Part::Fraction),
                Some(bracket),
            ) => self.mode = after_comma(bracket),
            _ => return false,
        }
        true
    }

    /// Takes a comma, a colon, a bracket, a letter of a word, or a space where a value must come;
    /// other bytes it leaves.
    #[inline(always)]
    pub(crate) fn follow(&mut self, byte: u8) -> bool
        ensures { HasTaken self.old byte result self.new }
    {
        match byte {
            b',' => self.separate(),
            b'[' => self.open(Bracket::Square),
            b']' => self.close(Bracket::Square),
            b'{' => self.open(Bracket::Curly),
            b'}' => self.close(Bracket::Curly),
            _ => self.go_on(byte),
        }
    }

    /// Takes a colon, a letter of a word, or a space where a value must come; other bytes it
    /// leaves.
    #[inline(always)]
    fn go_on(&mut self, byte: u8) -> bool
        ensures { HasTaken self.old byte result self.new }
    {
        self.mode = match (self.mode, byte) {
            (Mode::Colon, b':') => Mode::Value,
            (Mode::Word(letters), _) if byte == letters.first() => letters.after(),
            (Mode::Value, b'n') => Mode::Word(Letters::Ull),
            (Mode::Value, b't') => Mode::Word(Letters::Rue),
            (Mode::Value, b'f') => Mode::Word(Letters::Alse),
            (Mode::Value, b' ') => Mode::Value,
            _ => return false,
        };
        true
    }

    /// Takes the bracket that opens an array or an object.
    #[inline(always)]
    fn open(&mut self, bracket: Bracket) -> bool
        ensures { HasTaken self.old (opening (container_of bracket)) result self.new }
    {
        let may_open = match (self.mode, self.brackets.top()) {
            (Mode::Value, _) | (Mode::Fresh, Some(Bracket::Square)) => !self.brackets.is_full(),
            _ => false,
        };
        if may_open {
            self.brackets.push(bracket);
            self.mode = Mode::Fresh;
        }
        may_open
    }

    /// Takes the bracket that closes an array or an object.
    #[inline(always)]
    fn close(&mut self, bracket: Bracket) -> bool
        ensures { HasTaken self.old (closing (container_of bracket)) result self.new }
    {
        let may_close = match (bracket, self.brackets.top()) {
            (Bracket::Square, Some(Bracket::Square)) | (Bracket::Curly, Some(Bracket::Curly)) => {
                matches!(
                    self.mode,
                    Mode::After
                        | Mode::Fresh
                        | Mode::Number(Part::Zero | Part::Whole | Part::Fraction)
                )
            }
            _ => false,
        };
        if may_close {
            self.brackets.pop();
            self.mode = Mode::After;
        }
        may_close
    }

    /// The value may end here: white space would end it too.
    pub(crate) fn is_done(&self) -> bool
        ensures { IsTrue result ↔ (step 128 self.now.mode self.now.brackets 32 ≡ ended 32) }
    {
        matches!(moved(self.mode, self.brackets.top(), b' '), Move::End)
    }

    /// The value has ended, whatever follows.
    pub(crate) fn is_over(&self) -> bool
        ensures { result ≡ is_over self.now.mode self.now.brackets }
    {
        match self.mode {
            Mode::After | Mode::Fresh => self.brackets.top().is_none(),
            _ => false,
        }
    }

    /// The fault where the text ends at this offset or goes on with this byte there, and no value
    /// does.
    pub(crate) fn fault(&self, byte: Option<u8>, at: usize) -> JsonFault
        ensures { result ≡ fault_of self.now.mode (top self.now.brackets) byte at }
    {
        match self.mode {
            Mode::Quoted(_, place) => string_fault(place, byte, at),
            mode => bracket_fault(mode, self.brackets.top(), byte, at),
        }
    }
}

/// What a byte does in this mode, where `top` is the innermost open bracket.
#[inline(always)]
pub(crate) fn moved(mode: Mode, top: Option<Bracket>, byte: u8) -> Move
    ensures { result ≡ moved mode top byte }
{
    match mode {
        Mode::Value => value_move(byte),
        Mode::Fresh => fresh_move(top, byte),
        Mode::Name => name_move(byte),
        Mode::Colon => colon_move(byte),
        Mode::After => after_move(top, byte),
        Mode::Quoted(role, place) => string_move(role, place, byte),
        Mode::Number(part) => number_move(part, top, byte),
        Mode::Word(letters) => word_move(letters, byte),
    }
}

fn value_move(byte: u8) -> Move
    ensures { result ≡ moved Mode.Value None byte }
{
    if is_space(byte) {
        Move::To(Mode::Value)
    } else {
        value_begun(byte)
    }
}

fn value_begun(byte: u8) -> Move
    ensures { result ≡ value_begun byte }
{
    match byte {
        b'"' => Move::To(Mode::Quoted(Role::Value, Place::Plain)),
        b'[' => Move::Open(Bracket::Square),
        b'{' => Move::Open(Bracket::Curly),
        b'n' => Move::To(Mode::Word(Letters::Ull)),
        b't' => Move::To(Mode::Word(Letters::Rue)),
        b'f' => Move::To(Mode::Word(Letters::Alse)),
        _ => match Part::begun(byte) {
            Some(part) => Move::To(Mode::Number(part)),
            None => Move::Refuse,
        },
    }
}

fn fresh_move(top: Option<Bracket>, byte: u8) -> Move
    ensures { result ≡ moved Mode.Fresh top byte }
{
    let Some(bracket) = top else {
        return Move::End;
    };
    if is_space(byte) {
        Move::To(Mode::Fresh)
    } else if closes_bracket(bracket, byte) {
        Move::Close
    } else {
        match bracket {
            Bracket::Square => value_begun(byte),
            Bracket::Curly => name_begun(byte),
        }
    }
}

fn closes_bracket(bracket: Bracket, byte: u8) -> bool
    ensures { result ≡ closes_bracket bracket byte }
{
    match bracket {
        Bracket::Square => byte == b']',
        Bracket::Curly => byte == b'}',
    }
}

fn name_move(byte: u8) -> Move
    ensures { result ≡ moved Mode.Name None byte }
{
    if is_space(byte) {
        Move::To(Mode::Name)
    } else {
        name_begun(byte)
    }
}

fn name_begun(byte: u8) -> Move
    ensures { result ≡ first_move Bracket.Curly byte }
{
    if byte == b'"' {
        Move::To(Mode::Quoted(Role::Name, Place::Plain))
    } else {
        Move::Refuse
    }
}

fn colon_move(byte: u8) -> Move
    ensures { result ≡ moved Mode.Colon None byte }
{
    if is_space(byte) {
        Move::To(Mode::Colon)
    } else if byte == b':' {
        Move::To(Mode::Value)
    } else {
        Move::Refuse
    }
}

fn after_move(top: Option<Bracket>, byte: u8) -> Move
    ensures { result ≡ after_move top byte }
{
    let Some(bracket) = top else {
        return Move::End;
    };
    if is_space(byte) {
        Move::To(Mode::After)
    } else if closes_bracket(bracket, byte) {
        Move::Close
    } else if byte == b',' {
        Move::To(after_comma(bracket))
    } else {
        Move::Refuse
    }
}

fn after_comma(bracket: Bracket) -> Mode
    ensures { result ≡ after_comma bracket }
{
    match bracket {
        Bracket::Square => Mode::Value,
        Bracket::Curly => Mode::Name,
    }
}

fn string_move(role: Role, place: Place, byte: u8) -> Move
    ensures { result ≡ string_move role place byte }
{
    match place {
        Place::Plain => plain_move(role, byte),
        Place::Escape => escape_move(role, byte),
        Place::Hex(more) => hex_move(role, more, byte),
        Place::Sequence(length, tail) => sequence_move(role, length, tail, byte),
    }
}

fn plain_move(role: Role, byte: u8) -> Move
    ensures { result ≡ string_move role Place.Plain byte }
{
    match byte {
        b'"' => Move::To(after_string(role)),
        b'\\' => Move::To(Mode::Quoted(role, Place::Escape)),
        0..0x20 => Move::Refuse,
        0x20..0x80 => Move::To(Mode::Quoted(role, Place::Plain)),
        _ => led_move(role, byte),
    }
}

fn after_string(role: Role) -> Mode
    ensures { result ≡ after_string role }
{
    match role {
        Role::Name => Mode::Colon,
        Role::Value => Mode::After,
    }
}

fn led_move(role: Role, byte: u8) -> Move
    ensures { result ≡ led_on role (tail_led byte) }
{
    match Tail::led(byte) {
        Some(tail) => Move::To(Mode::Quoted(role, Place::Sequence(tail.size(), tail))),
        None => Move::Refuse,
    }
}

fn escape_move(role: Role, byte: u8) -> Move
    ensures { result ≡ string_move role Place.Escape byte }
{
    match byte {
        b'u' => Move::To(Mode::Quoted(role, Place::Hex(3))),
        b'"' | b'\\' | b'/' | b'b' | b'f' | b'n' | b'r' | b't' => {
            Move::To(Mode::Quoted(role, Place::Plain))
        }
        _ => Move::Refuse,
    }
}

fn hex_move(role: Role, more: u8, byte: u8) -> Move
    ensures { result ≡ string_move role (Place.Hex more) byte }
{
    if !byte.is_ascii_hexdigit() {
        Move::Refuse
    } else if more == 0 {
        Move::To(Mode::Quoted(role, Place::Plain))
    } else {
        Move::To(Mode::Quoted(role, Place::Hex(more - 1)))
    }
}

fn sequence_move(role: Role, length: u8, tail: Tail, byte: u8) -> Move
    ensures { result ≡ string_move role (Place.Sequence length tail) byte }
{
    if !tail.fits(byte) {
        return Move::Refuse;
    }
    match tail.after() {
        Some(tail) => Move::To(Mode::Quoted(role, Place::Sequence(length, tail))),
        None => Move::To(Mode::Quoted(role, Place::Plain)),
    }
}

#[inline(always)]
fn number_move(part: Part, top: Option<Bracket>, byte: u8) -> Move
    ensures { result ≡ moved (Mode.Number part) top byte }
{
    match part.after(byte) {
        Some(part) => Move::To(Mode::Number(part)),
        None if part.is_complete() && !extends_number(byte) => after_move(top, byte),
        None => Move::Refuse,
    }
}

fn word_move(letters: Letters, byte: u8) -> Move
    ensures { result ≡ moved (Mode.Word letters) None byte }
{
    if letters.first() == byte {
        Move::To(letters.after())
    } else {
        Move::Refuse
    }
}

impl Letters {
    /// The letter that must come next.
    fn first(self) -> u8
        ensures { result ≡ first_letter self }
    {
        match self {
            Letters::Ull | Letters::Ue => b'u',
            Letters::Ll | Letters::L | Letters::Lse => b'l',
            Letters::Rue => b'r',
            Letters::Alse => b'a',
            Letters::Se => b's',
            Letters::E => b'e',
        }
    }

    /// What must come after it: the other letters, or what follows a value.
    fn after(self) -> Mode
        ensures { result ≡ after_letter self }
    {
        match self {
            Letters::Ull => Mode::Word(Letters::Ll),
            Letters::Ll => Mode::Word(Letters::L),
            Letters::Rue => Mode::Word(Letters::Ue),
            Letters::Ue => Mode::Word(Letters::E),
            Letters::Alse => Mode::Word(Letters::Lse),
            Letters::Lse => Mode::Word(Letters::Se),
            Letters::Se => Mode::Word(Letters::E),
            Letters::L | Letters::E => Mode::After,
        }
    }
}

fn string_fault(place: Place, byte: Option<u8>, at: usize) -> JsonFault
    ensures { result ≡ string_fault place byte at }
{
    match (place, byte) {
        (Place::Sequence(length, tail), _) => {
            JsonFault::Utf8(at.saturating_sub(usize::from(length.saturating_sub(tail.len()))))
        }
        (_, Some(byte)) if byte >= 0x80 && Tail::led(byte).is_none() => JsonFault::Utf8(at),
        _ => JsonFault::Syntax(at),
    }
}

/// The one bracket that is refused where it could stand is one too many.
fn bracket_fault(mode: Mode, top: Option<Bracket>, byte: Option<u8>, at: usize) -> JsonFault
    ensures { result ≡ bracket_fault mode top byte at }
{
    match byte {
        Some(byte) if matches!(moved(mode, top, byte), Move::Open(_)) => JsonFault::Depth(at),
        _ => JsonFault::Syntax(at),
    }
}
