//! Texts that are handed on, one after the other.

ghost use Rattle.std.specs.Prelude.{◌≡◌, ℕ, OnOk, IfOk, ◌+◌, ◌-◌, ◌*◌, ◌^◌, ◌<◌, ◌≤◌, List, [], ◌∷◌, ◌++◌, Ok, Err, min, length, drop, true, false};
ghost use Rattle.input_texts.specs.Texts.{Reading, IsStopped, AreRead};
ghost use Rattle.input_texts.specs.inner.Texts.{IsLed, StandsIn};
ghost use Rattle.input_texts.specs.declared.reading.Stopped.{Stopped};

use board_base::Stop;
use json_reader::{Fed, Feed, JsonFault};
use json_text::{Raw, skip_space};
use std::alloc::{AllocError, Global};

/// What is made of texts, one after the other.
pub trait Reader {
    /// Why it refuses a text.
    type Fault: Drop;

    // Which texts it has read and which it refuses, whether it takes no further one, and whether it
    // must have one.
    ghost seen: { Self → Reading Self.Fault };

    /// Whether it takes no further text.
    fn is_full(&self) -> bool
        ensures full { result ≡ (seen self.now).is_full }
        ensures enough { result ≡ true → (seen self.now).needs_text ≡ false };

    /// Whether it must have a further text.
    fn needs_text(&self) -> bool
        ensures { result ≡ (seen self.now).needs_text };

    /// Reads the next text, or refuses it for its fault. Behind a text that it refuses it gets
    /// none.
    fn read(&mut self, alloc: Global, text: &Raw) -> Result<(), Stop<Self::Fault>>
        requires { (seen self.old).is_full ≡ false }
        ensures read { OnOk result ((texts : List (List ℕ)) → (seen self.old).has_read texts
            → (seen self.new).has_read (texts ++ text.now ∷ [])) }
        ensures enough { OnOk result ((seen self.new).needs_text ≡ false) }
        ensures refused { (fault : Self.Fault) → result ≡ Err (Stop.Fault fault)
            → (texts : List (List ℕ)) → (seen self.old).has_read texts
            → (seen self.new).refuses texts text.now fault };
}

/// Why no further text is handed on.
#[derive(Drop)]
pub enum Stopped<F> {
    /// The next text has this fault, or one that must come is missing at the end.
    Faulty(JsonFault),
    /// The reader refuses a text for this fault.
    Refused(F),
    /// The reader takes no further text, and behind white space a byte stands at this place of the
    /// input.
    Extra(usize),
}

/// What came of a piece.
enum Next<F> {
    /// So many bytes were used.
    On(usize),
    /// No further text is handed on.
    Stopped(Stopped<F>),
}

/// Reads on to the end of a text or of the piece.
fn next_text<R: Reader>(
    alloc: Global,
    feed: &mut Feed,
    reader: &mut R,
    piece: &[u8],
) -> Result<Next<R::Fault>, AllocError>
    requires fits { feed.old.used + length piece.now < 2 ^ 64 }
    requires some { 0 < length piece.now }
    ensures within { (used : ℕ) → result ≡ Ok (Next.On used) → used ≤ length piece.now }
    ensures less { (used : ℕ) → result ≡ Ok (Next.On used)
        → 2 * (length piece.now - used) + min 1
        (length feed.new.rest) < 2 * length piece.now + min 1 (length feed.old.rest) }
    ensures counted { (used : ℕ) → result ≡ Ok (Next.On used)
        → feed.new.used ≡ feed.old.used + used }
    ensures led { (used : ℕ) → result ≡ Ok (Next.On used) → (stream : List ℕ)
        → IsLed stream piece.now feed.old (R.seen reader.old)
        → IsLed stream (drop used piece.now) feed.new (R.seen reader.new) }
    ensures stopped { (why : Stopped R.Fault) → result ≡ Ok (Next.Stopped why) → (stream : List ℕ)
        → IsLed stream piece.now feed.old (R.seen reader.old) → (more : List ℕ)
        → IsStopped (stream ++ more) (R.seen reader.new) why }
{
    if reader.is_full() {
        return skip_piece::<R>(feed, piece);
    }
    let Fed { used, value } = match feed.feed(piece) {
        Ok(fed) => fed,
        Err(Stop::Fault(fault)) => return Ok(Next::Stopped(Stopped::Faulty(fault))),
        Err(Stop::Memory) => return Err(AllocError),
    };
    let Some(text) = value else {
        return Ok(Next::On(used));
    };
    match reader.read(alloc, &text) {
        Ok(()) => Ok(Next::On(used)),
        Err(Stop::Fault(fault)) => Ok(Next::Stopped(Stopped::Refused(fault))),
        Err(Stop::Memory) => Err(AllocError),
    }
}

/// Reads on behind the last text that is taken, where white space alone may stand.
fn skip_piece<R: Reader>(feed: &mut Feed, piece: &[u8]) -> Result<Next<R::Fault>, AllocError>
    requires fits { feed.old.used + length piece.now < 2 ^ 64 }
    requires some { 0 < length piece.now }
    ensures within { (used : ℕ) → result ≡ Ok (Next.On used) → used ≤ length piece.now }
    ensures less { (used : ℕ) → result ≡ Ok (Next.On used)
        → 2 * (length piece.now - used) + min 1
        (length feed.new.rest) < 2 * length piece.now + min 1 (length feed.old.rest) }
    ensures counted { (used : ℕ) → result ≡ Ok (Next.On used)
        → feed.new.used ≡ feed.old.used + used }
    ensures led { (used : ℕ) → result ≡ Ok (Next.On used) → (stream : List ℕ) (reader : R)
        → (R.seen reader).is_full ≡ true
        → IsLed stream piece.now feed.old (R.seen reader)
        → IsLed stream (drop used piece.now) feed.new (R.seen reader) }
    ensures stopped { (why : Stopped R.Fault) → result ≡ Ok (Next.Stopped why)
        → (stream : List ℕ) (reader : R) → (R.seen reader).is_full ≡ true
        → IsLed stream piece.now feed.old (R.seen reader) → (more : List ℕ)
        → IsStopped (stream ++ more) (R.seen reader) why }
{
    let at = skip_space(piece, 0);
    if at < piece.len() {
        return Ok(Next::Stopped(Stopped::Extra(feed.used() as usize + at)));
    }
    let fed = match feed.feed(piece) {
        Ok(fed) => fed,
        Err(Stop::Fault(fault)) => return Ok(Next::Stopped(Stopped::Faulty(fault))),
        Err(Stop::Memory) => return Err(AllocError),
    };
    Ok(Next::On(fed.used))
}

/// Takes the next piece: hands each text on that ends in it, up to what stops it.
pub(crate) fn take_piece<R: Reader>(
    alloc: Global,
    feed: &mut Feed,
    reader: &mut R,
    stop: &mut Option<Stopped<R::Fault>>,
    piece: &[u8],
) -> Result<(), AllocError>
    requires { (stream : List ℕ) × StandsIn stream [] feed.old (R.seen reader.old) stop.old
        × (length stream + length piece.now < 2 ^ 64) }
    ensures { OnOk result ((stream : List ℕ)
        → StandsIn stream [] feed.old (R.seen reader.old) stop.old
        → StandsIn (stream ++ piece.now) [] feed.new (R.seen reader.new) stop.new) }
{
    let mut at = 0;
    'texts: while stop.is_none() && at < piece.len() {
        match next_text(alloc, feed, reader, &piece[at..])? {
            Next::On(used) => at += used,
            Next::Stopped(why) => *stop = Some(why),
        }
    }
    Ok(())
}

/// Ends the input: its last text may be a number that only the end has ended.
pub(crate) fn finish<R: Reader>(
    alloc: Global,
    feed: &mut Feed,
    reader: &mut R,
    stop: Option<Stopped<R::Fault>>,
) -> Result<Option<Stopped<R::Fault>>, AllocError>
    ensures { IfOk result (λ found. (stream : List ℕ)
        → StandsIn stream [] feed.old (R.seen reader.old) stop
        → AreRead stream (R.seen reader.new) found) }
{
    if stop.is_some() {
        return Ok(stop);
    }
    if reader.is_full() {
        return Ok(None);
    }
    last_text(alloc, feed, reader)
}

/// Hands the last text on, if one is left.
fn last_text<R: Reader>(
    alloc: Global,
    feed: &mut Feed,
    reader: &mut R,
) -> Result<Option<Stopped<R::Fault>>, AllocError>
    requires { (R.seen reader.old).is_full ≡ false }
    ensures { IfOk result (λ found. (stream : List ℕ) → IsLed stream [] feed.old (R.seen reader.old)
        → AreRead stream (R.seen reader.new) found) }
{
    let value = match feed.end() {
        Ok(value) => value,
        Err(Stop::Fault(fault)) => return Ok(Some(Stopped::Faulty(fault))),
        Err(Stop::Memory) => return Err(AllocError),
    };
    let Some(text) = value else {
        if reader.needs_text() {
            return Ok(Some(Stopped::Faulty(JsonFault::Syntax(feed.used() as usize))));
        }
        return Ok(None);
    };
    match reader.read(alloc, &text) {
        Ok(()) => Ok(None),
        Err(Stop::Fault(fault)) => Ok(Some(Stopped::Refused(fault))),
        Err(Stop::Memory) => Err(AllocError),
    }
}
