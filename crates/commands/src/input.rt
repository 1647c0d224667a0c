//! The scenes or the session of an input.

ghost use Rattle.std.specs.Prelude.{◌≡◌, ℕ, [], ◌∷◌, List as Items, IfOk, IfErr};
ghost use Rattle.input_texts.specs.Texts.{AreRead};
ghost use Rattle.library.specs.Best.{AreBest};
ghost use Rattle.library.specs.Libraries.{HaveItems};
ghost use Rattle.library.specs.declared.item.Item.{Item};
ghost use Rattle.session_text.specs.Facts.{IsSession};
ghost use Rattle.session_text.specs.Sessions.{IsSessionOf};
ghost use Rattle.scene_file.specs.declared.scene.Scene.{Scene};
ghost use Rattle.commands.specs.Answers.{IsOneRefusal, IsRefusal, IsSessionRefusal};
ghost use Rattle.commands.specs.Boards.{IsBoardOf};
ghost use Rattle.commands.specs.Ends.{span, limit, WasRead};
ghost use Rattle.commands.specs.inner.Ends.{IsInputFault, IsNeverRefused};
ghost use Rattle.commands.specs.Input.{HasScenes};
ghost use Rattle.commands.specs.inner.Readers.{refusal_of};
ghost use Rattle.commands.specs.inner.SessionTexts.{session_refusal_of};
ghost use Rattle.commands.specs.Shelves.{HasTexts, IsShelfRefusal};
ghost use Rattle.commands.specs.inner.Shelves.{shelf_refusal_of};
ghost use Rattle.commands.specs.declared.status.InputRefusal.{InputRefusal};

use crate::status::{Fault, InputRefusal};
use crate::taking::{Gathered, OneScene, OneSession, Shelved};
use board_base::{Bytes, Stop};
use board_ends::{ReadError, Source, read_all};
use elem_store::Store;
use input_texts::{Reader, Stopped, read_texts};
use library::{LibFault, Shelf};
use scene_file::{Head, Scene, SceneFault};
use session_text::{Session, SessionFeed, TextFault};
use std::alloc::Global;

/// How many bytes an input has at most.
const LIMIT: usize = 67108864;

/// The one scene that the input is.
pub(crate) fn one_scene<S: Source>(alloc: Global, input: &mut S) -> Result<Scene, Fault>
    ensures scene { IfOk result (λ scene. (bytes : Items ℕ)
        × WasRead limit (span (S.seen input.old) (S.seen input.new)) bytes
        × HasScenes bytes (scene ∷ [])) }
    ensures fault { IfErr result (IsInputFault limit IsOneRefusal
        (span (S.seen input.old) (S.seen input.new))) }
{
    let mut reader = OneScene { read: None };
    let found = read_input(alloc, input, &mut reader)?;
    if let Some(stopped) = found {
        return Err(Fault::Refused(refused(1, stopped)));
    }
    let Some(scene) = reader.read else {
        unreachable!();
    };
    Ok(scene)
}

/// The board of the scenes that the input is, one at least.
pub(crate) fn some_board<S: Source>(alloc: Global, input: &mut S) -> Result<(Head, Store), Fault>
    ensures board { IfOk result (λ board. (bytes : Items ℕ)
        × WasRead limit (span (S.seen input.old) (S.seen input.new)) bytes
        × ((scenes : Items Scene) × HasScenes bytes scenes
        × IsBoardOf scenes board.0 board.1.elements)) }
    ensures fault { IfErr result (IsInputFault limit IsRefusal
        (span (S.seen input.old) (S.seen input.new))) }
{
    let mut gathered = Gathered::new(alloc);
    let found = read_input(alloc, input, &mut gathered)?;
    let Gathered { heads, store, next } = gathered;
    if let Some(stopped) = found {
        return Err(Fault::Refused(refused(next, stopped)));
    }
    let head = heads.finish()?;
    Ok((head, store))
}

/// The best items of the libraries that the input is, one at least.
pub(crate) fn some_shelf<S: Source>(alloc: Global, input: &mut S) -> Result<Shelf, Fault>
    ensures shelf { IfOk result (λ shelf. (bytes : Items ℕ)
        × WasRead limit (span (S.seen input.old) (S.seen input.new)) bytes
        × ((texts : Items (Items ℕ)) × (items : Items Item) × HasTexts bytes texts
        × HaveItems texts items × AreBest items shelf)) }
    ensures fault { IfErr result (IsInputFault limit IsShelfRefusal
        (span (S.seen input.old) (S.seen input.new))) }
{
    let mut shelved = Shelved::new(alloc);
    let found = read_input(alloc, input, &mut shelved)?;
    let Shelved { shelf, next } = shelved;
    match found {
        None => Ok(shelf),
        Some(stopped) => Err(Fault::Refused(shelf_refused(next, stopped))),
    }
}

/// The session that the input is.
pub(crate) fn session<S: Source>(alloc: Global, input: &mut S) -> Result<Session, Fault>
    ensures session { IfOk result (λ session. (bytes : Items ℕ)
        × WasRead limit (span (S.seen input.old) (S.seen input.new)) bytes
        × IsSessionOf bytes session) }
    ensures kept { IfOk result IsSession }
    ensures fault { IfErr result (IsInputFault limit IsSessionRefusal
        (span (S.seen input.old) (S.seen input.new))) }
{
    let mut reader = OneSession {
        feed: SessionFeed::new(alloc),
    };
    let found = read_input(alloc, input, &mut reader)?;
    if let Some(stopped) = found {
        let number = reader.feed.texts() + 1;
        return Err(Fault::Refused(session_refused(number, stopped)));
    }
    let Some(session) = reader.feed.finish() else {
        unreachable!();
    };
    Ok(session)
}

/// The bytes of the input, all at once.
pub(crate) fn whole<S: Source>(alloc: Global, input: &mut S) -> Result<Bytes, Fault>
    ensures read { IfOk result
        (WasRead limit (span (S.seen input.old) (S.seen input.new))) }
    ensures fault { IfErr result (IsInputFault limit IsNeverRefused
        (span (S.seen input.old) (S.seen input.new))) }
{
    match read_all(alloc, input, LIMIT) {
        Ok(bytes) => Ok(bytes),
        Err(Stop::Fault(ReadError::Failed)) => Err(Fault::Read),
        Err(Stop::Fault(ReadError::TooLong)) => Err(Fault::TooLong),
        Err(Stop::Memory) => Err(Fault::Memory),
    }
}

/// Hands the texts of the input, within the limit, to a reader that has read none.
fn read_input<S: Source, R: Reader>(
    alloc: Global,
    input: &mut S,
    reader: &mut R,
) -> Result<Option<Stopped<R::Fault>>, Fault>
    requires { (R.seen reader.old).has_read [] }
    ensures read { IfOk result (λ stopped. (bytes : Items ℕ)
        × WasRead limit (span (S.seen input.old) (S.seen input.new)) bytes
        × AreRead bytes (R.seen reader.new) stopped) }
    ensures fault { IfErr result (IsInputFault limit IsNeverRefused
        (span (S.seen input.old) (S.seen input.new))) }
{
    match read_texts(alloc, input, LIMIT, reader) {
        Ok(stopped) => Ok(stopped),
        Err(Stop::Fault(ReadError::Failed)) => Err(Fault::Read),
        Err(Stop::Fault(ReadError::TooLong)) => Err(Fault::TooLong),
        Err(Stop::Memory) => Err(Fault::Memory),
    }
}

/// What an input is refused for whose text with this number isn't read.
fn refused(number: usize, stopped: Stopped<SceneFault>) -> InputRefusal
    ensures { result ≡ refusal_of number stopped }
{
    match stopped {
        Stopped::Faulty(fault) => InputRefusal::Text(number, SceneFault::Json(fault)),
        Stopped::Refused(fault) => InputRefusal::Text(number, fault),
        Stopped::Extra(place) => InputRefusal::Extra(place),
    }
}

/// What an input that is to be libraries is refused for, whose text with this number isn't read.
fn shelf_refused(number: usize, stopped: Stopped<LibFault>) -> InputRefusal
    ensures { result ≡ shelf_refusal_of number stopped }
{
    match stopped {
        Stopped::Faulty(fault) => InputRefusal::Text(number, SceneFault::Json(fault)),
        Stopped::Refused(fault) => InputRefusal::Library(number, fault),
        Stopped::Extra(place) => InputRefusal::Extra(place),
    }
}

/// What an input that is to be a session is refused for, whose text with this number isn't read.
fn session_refused(number: u64, stopped: Stopped<TextFault>) -> InputRefusal
    ensures { result ≡ session_refusal_of number stopped }
{
    match stopped {
        Stopped::Faulty(fault) => InputRefusal::Event(number, TextFault::Json(fault)),
        Stopped::Refused(fault) => InputRefusal::Event(number, fault),
        Stopped::Extra(_) => InputRefusal::TooMany,
    }
}
