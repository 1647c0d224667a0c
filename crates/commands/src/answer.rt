//! What an input is answered with, command by command.

ghost use Rattle.std.specs.Prelude.{◌≡◌, ◌++◌, ℕ, [], ◌∷◌, List as Items, Ok, IfOk, IfErr};
ghost use Rattle.scene_file.specs.declared.scene.Scene.{Scene};
ghost use Rattle.session.specs.Printed.{IsReportText};
ghost use Rattle.session_text.specs.Facts.{IsSession};
ghost use Rattle.commands.specs.Answers.{IsAnswer, IsShownAs, IsStoredAs, HasPictures};
ghost use Rattle.commands.specs.Boards.{IsBoardOf, IsSceneOfStored};
ghost use Rattle.commands.specs.Ends.{span, limit_of, IsRefusalOf, WasRead};
ghost use Rattle.commands.specs.inner.Ends.{IsInputFault};
ghost use Rattle.commands.specs.Faults.{newline};

use crate::checking::checked_text;
use crate::input::{one_scene, session, some_board, some_shelf, whole};
use crate::pasting::pasted;
use crate::pictures::picture_lines;
use crate::recovering::{recovered, recovered_text};
use crate::shelving::{inserted, shelved_text};
use crate::status::Fault;
use crate::words::ProgramCommand;
use board_base::Bytes;
use board_ends::Source;
use elem_store::Store;
use scene_file::{Head, Layout, Scene, elements_text, join, state_text};
use session::{replay, report_text};
use session_text::Session;
use std::alloc::{AllocError, Global};
use std::mem::forget;
use view::{into_shown, shown_elements};

/// The text that the command answers the input with, which is read to its end.
pub(crate) fn answer<S: Source>(
    alloc: Global,
    command: ProgramCommand,
    input: &mut S,
) -> Result<Bytes, Fault>
    ensures text { IfOk result (λ text. (bytes : Items ℕ)
        × WasRead (limit_of command) (span (S.seen input.old) (S.seen input.new)) bytes
        × IsAnswer command bytes (Ok text)) }
    ensures fault { IfErr result (IsInputFault (limit_of command) (IsRefusalOf command)
        (span (S.seen input.old) (S.seen input.new))) }
{
    match command {
        ProgramCommand::Restore(layout) => {
            let scene = one_scene(alloc, input)?;
            Ok(restored_text(alloc, scene, layout)?)
        }
        ProgramCommand::Merge(layout) => {
            let (head, store) = some_board(alloc, input)?;
            Ok(shown_text(alloc, &head, store, layout)?)
        }
        ProgramCommand::State => {
            let (head, store) = some_board(alloc, input)?;
            Ok(stored_text(alloc, &head, &store)?)
        }
        ProgramCommand::Pictures => {
            let (head, store) = some_board(alloc, input)?;
            Ok(pictures_text(alloc, &head, &store)?)
        }
        ProgramCommand::Replay => {
            let session = session(alloc, input)?;
            Ok(replayed_text(alloc, &session)?)
        }
        ProgramCommand::Recover(form) => {
            let (head, store) = recovered(alloc, input)?;
            Ok(recovered_text(alloc, &head, store, form)?)
        }
        ProgramCommand::Paste(prefix) => {
            let bytes = whole(alloc, input)?;
            Ok(pasted(alloc, bytes.as_slice(), &prefix)?)
        }
        ProgramCommand::Library => {
            let shelf = some_shelf(alloc, input)?;
            Ok(shelved_text(alloc, &shelf)?)
        }
        ProgramCommand::Insert(insertion) => {
            let bytes = whole(alloc, input)?;
            Ok(inserted(alloc, bytes.as_slice(), &insertion)?)
        }
        ProgramCommand::Check => {
            let bytes = whole(alloc, input)?;
            Ok(checked_text(alloc, bytes.as_slice())?)
        }
    }
}

/// The text of one scene as its board shows it, and a newline.
fn restored_text(alloc: Global, scene: Scene, layout: Layout) -> Result<Bytes, AllocError>
    ensures { IfOk result (IsShownAs (scene ∷ []) layout) }
{
    let (head, store) = board_of(alloc, scene)?;
    shown_text(alloc, &head, store, layout)
}

/// The text of the scene that a board shows, and a newline. What it shows is moved out of the
/// store and never freed: the process ends with its answer.
pub(crate) fn shown_text(
    alloc: Global,
    head: &Head,
    store: Store,
    layout: Layout,
) -> Result<Bytes, AllocError>
    ensures scene { IfOk result (IsSceneOfStored layout head.now store.elements) }
    ensures board { IfOk result (λ text. (scenes : Items Scene)
        → IsBoardOf scenes head.now store.elements → IsShownAs scenes layout text) }
{
    let shown = into_shown(alloc, store)?;
    let text = elements_text(alloc, head, shown.as_slice(), layout)?;
    forget(shown);
    ended(text)
}

/// The text of all that a board stores, and a newline.
fn stored_text(alloc: Global, head: &Head, store: &Store) -> Result<Bytes, AllocError>
    ensures { IfOk result (λ text. (scenes : Items Scene)
        → IsBoardOf scenes head.now store.now.elements → IsStoredAs scenes text) }
{
    ended(state_text(alloc, head, store)?)
}

/// A line on each file that a board shows.
fn pictures_text(alloc: Global, head: &Head, store: &Store) -> Result<Bytes, AllocError>
    ensures { IfOk result (λ text. (scenes : Items Scene)
        → IsBoardOf scenes head.now store.now.elements → HasPictures scenes text) }
{
    let shown = shown_elements(alloc, store)?;
    let files = head.files.referred(shown.as_slice())?;
    picture_lines(alloc, &files)
}

/// The text of the report of a session, and a newline.
fn replayed_text(alloc: Global, session: &Session) -> Result<Bytes, AllocError>
    requires { IsSession session.now }
    ensures { IfOk result (λ text. (written : Items ℕ) × IsReportText session.now written
        × (text ≡ written ++ newline)) }
{
    let report = replay(alloc, session)?;
    ended(report_text(alloc, &report)?)
}

/// The board of one scene.
pub(crate) fn board_of(alloc: Global, scene: Scene) -> Result<(Head, Store), AllocError>
    ensures { IfOk result (λ board. IsBoardOf (scene ∷ []) board.0 board.1.elements) }
{
    let Scene {
        head: other,
        elements,
    } = scene;
    let mut head = Head::new(alloc);
    join(alloc, &mut head, &other)?;
    let store = Store::from_updates(alloc, elements)?;
    Ok((head, store))
}

/// The text and a newline.
pub(crate) fn ended(text: Bytes) -> Result<Bytes, AllocError>
    ensures { IfOk result (λ ended. ended ≡ text ++ newline) }
{
    let mut text = text;
    text.extend(b"\n")?;
    Ok(text)
}
