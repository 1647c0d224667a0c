//! What reads the scenes or the session of an input, text by text.

ghost use Rattle.std.specs.Prelude.{◌≡◌, ◌+◌, ◌++◌, ◌∷◌, [], Option, List as Items, IfOk, OnOk};
ghost use Rattle.library.specs.Best.{AreBest};
ghost use Rattle.library.specs.declared.item.Item.{Item as ItemValue};
ghost use Rattle.commands.specs.inner.Readers.{SayBoard, board_seen, one_seen};
ghost use Rattle.commands.specs.inner.Shelves.{SayShelf, shelf_seen};
ghost use Rattle.commands.specs.inner.SessionTexts.{session_seen};

use crate::heads::Heads;
use board_base::{List, Stop};
use elem_store::Store;
use input_texts::Reader;
use json_text::Raw;
use library::{Item, LibFault, Shelf, read_library};
use scene_file::{Scene, SceneFault, scene_of};
use session_text::{SessionFeed, TextFault};
use std::alloc::{AllocError, Global};
use std::marker::Model;

/// The board of the scenes that are read of an input, each of which is dropped as soon as the board
/// has it; and the number of the next text, counted from 1.
#[derive(Drop)]
pub(crate) struct Gathered {
    pub(crate) heads: Heads,
    pub(crate) store: Store,
    pub(crate) next: usize,
}

impl Model for Gathered {
    ghost use Rattle.std.specs.Prelude.{◌≤◌};
    ghost use Rattle.commands.specs.inner.Readers.{BoardSoFar};

    ghost Value = { BoardSoFar };

    ghost view = { λ g. record { heads = g.heads; stored = g.store.elements; next = g.next } };

    ghost invariant = { λ g. 1 ≤ g.next };
}

impl Gathered {
    /// Of no scenes. It takes no memory.
    pub(crate) fn new(alloc: Global) -> Gathered
        ensures { SayBoard [] result }
    {
        Gathered {
            heads: Heads::new(alloc),
            store: Store::new(alloc),
            next: 1,
        }
    }
}

impl Reader for Gathered {
    type Fault = SceneFault;

    ghost seen = { board_seen };

    fn is_full(&self) -> bool {
        false
    }

    fn needs_text(&self) -> bool {
        self.next == 1
    }

    /// Behind as many texts as can be counted, which no input has, it wants memory.
    fn read(&mut self, alloc: Global, text: &Raw) -> Result<(), Stop<SceneFault>> {
        let Scene { head, elements } = scene_of(alloc, text)?;
        let next = number_after(self.next)?;
        self.heads.take(alloc, &head)?;
        self.store.take_list(alloc, elements)?;
        self.next = next;
        Ok(())
    }
}

/// The number after this one, if it can be counted.
fn number_after(number: usize) -> Result<usize, AllocError>
    ensures { IfOk result (λ next. next ≡ number + 1) }
{
    number.checked_add(1).ok_or(AllocError)
}

/// The one scene that is read of an input.
#[derive(Drop)]
pub(crate) struct OneScene {
    pub(crate) read: Option<Scene>,
}

impl Model for OneScene {
    ghost use Rattle.std.specs.Prelude.{Option};
    ghost use Rattle.scene_file.specs.declared.scene.Scene.{Scene};

    ghost Value = { Option Scene };

    ghost view = { λ s. s.read };
}

impl Reader for OneScene {
    type Fault = SceneFault;

    ghost seen = { one_seen };

    fn is_full(&self) -> bool {
        self.read.is_some()
    }

    fn needs_text(&self) -> bool {
        self.read.is_none()
    }

    fn read(&mut self, alloc: Global, text: &Raw) -> Result<(), Stop<SceneFault>> {
        self.read = Some(scene_of(alloc, text)?);
        Ok(())
    }
}

/// The best items of the libraries that are read of an input; and the number of the next text,
/// counted from 1.
#[derive(Drop)]
pub(crate) struct Shelved {
    pub(crate) shelf: Shelf,
    pub(crate) next: usize,
}

impl Model for Shelved {
    ghost use Rattle.std.specs.Prelude.{◌≤◌};
    ghost use Rattle.commands.specs.inner.Shelves.{ShelfSoFar};

    ghost Value = { ShelfSoFar };

    ghost view = { λ s. record { best = s.shelf; next = s.next } };

    ghost invariant = { λ s. 1 ≤ s.next };
}

impl Shelved {
    /// Of no libraries. It takes no memory.
    pub(crate) fn new(alloc: Global) -> Shelved
        ensures { SayShelf [] result }
    {
        library::laws::best_exist();
        Shelved {
            shelf: Shelf::new(alloc),
            next: 1,
        }
    }
}

impl Reader for Shelved {
    type Fault = LibFault;

    ghost seen = { shelf_seen };

    fn is_full(&self) -> bool {
        false
    }

    fn needs_text(&self) -> bool {
        self.next == 1
    }

    /// Behind as many texts as can be counted, which no input has, it wants memory.
    fn read(&mut self, alloc: Global, text: &Raw) -> Result<(), Stop<LibFault>> {
        let items = read_library(alloc, text)?;
        let next = number_after(self.next)?;
        put_all(&mut self.shelf, items)?;
        self.next = next;
        Ok(())
    }
}

/// Puts all items on the shelf.
fn put_all(shelf: &mut Shelf, items: List<Item>) -> Result<(), AllocError>
    ensures { OnOk result ((others : Items ItemValue) → AreBest others shelf.old
        → AreBest (others ++ items) shelf.new) }
{
    for item in items.into_vec() {
        put(shelf, item)?;
    }
    Ok(())
}

/// Puts an item on the shelf.
fn put(shelf: &mut Shelf, item: Item) -> Result<(), AllocError>
    ensures { OnOk result ((others : Items ItemValue) → AreBest others shelf.old
        → AreBest (others ++ item ∷ []) shelf.new) }
{
    match shelf.put(item) {
        Ok(_) => Ok(()),
        Err(_) => Err(AllocError),
    }
}

/// The session that is read of an input.
#[derive(Drop)]
pub(crate) struct OneSession {
    pub(crate) feed: SessionFeed,
}

impl Reader for OneSession {
    type Fault = TextFault;

    ghost seen = { λ reader. session_seen reader.feed };

    fn is_full(&self) -> bool {
        self.feed.is_full()
    }

    fn needs_text(&self) -> bool {
        self.feed.is_empty()
    }

    fn read(&mut self, alloc: Global, text: &Raw) -> Result<(), Stop<TextFault>> {
        self.feed.take(alloc, text)
    }
}
