//! What the words of a command line ask for.

ghost use Rattle.std.specs.Prelude.{◌≡◌, ◌≤◌, ◌<◌, ◌^◌, IfOk, IfSome, IsSome, OnErr, IsTrue};
ghost use Rattle.commands.specs.Services.{drill_of, keeping_of, number_within, service_of};
ghost use Rattle.commands.specs.Words.{asked, asked_alone, asked_begins, asked_command, asked_drill, asked_layout, asked_paste, asked_form, asked_insert, asked_keeping, asked_plain, asked_room, asked_service, is_name};

use board_base::Bytes;
use json_text::Text;
use room_core::RoomLimits;
use scene_file::Layout;
use scene_json::whole_in;
use std::alloc::{AllocError, Global};

/// How many events other than Idle a room is served at most.
const MOST_EVENTS: u64 = 1_000_000_000;
/// The greatest seed of a drill, 2 to the 53rd minus 1.
const GREATEST_SEED: u64 = 9_007_199_254_740_991;
/// How many events a drill generates at most.
const MOST_DRILLED: u64 = 200_000;

/// What is told of a journal.
#[derive(Clone, Copy, Debug, PartialEq, Eq)]
pub enum Form {
    /// All that is stored.
    State,
    /// The scene that is shown of it.
    Scene,
}

/// A command that answers an input with a text.
#[derive(Drop)]
pub enum ProgramCommand {
    /// To restore one scene, in this layout.
    Restore(Layout),
    /// To merge scenes, in this layout.
    Merge(Layout),
    /// To give all that is stored of scenes.
    State,
    /// To tell the sizes of the pictures of scenes.
    Pictures,
    /// To replay a session, and report what its replicas came to.
    Replay,
    /// To recover what a journal holds, and tell it in this form.
    Recover(Form),
    /// To paste a clip into a scene. This text, which isn't empty, stands before the ids of the
    /// copies.
    Paste(Text),
    /// To make one library of the best items of libraries.
    Library,
    /// To insert an item of a library into a scene.
    Insert(Insertion),
    /// To tell all that is wrong with scenes, and all that restoring would change.
    Check,
}

/// What of a library is to be inserted, and how.
#[derive(Drop)]
pub struct Insertion {
    /// The id of the item. It isn't empty.
    pub item: Text,
    /// The text that stands before the ids of the copies. It isn't empty.
    pub prefix: Text,
}

/// How a room is to be served.
#[derive(Clone, Copy, Debug, PartialEq, Eq)]
pub struct Service {
    /// The port of the loopback that it listens on.
    pub port: u16,
    /// What it is served up to.
    pub limits: RoomLimits,
    /// The layout of the scene at its end.
    pub layout: Layout,
}

/// What a durable room begins with.
#[derive(Clone, Copy, Debug, PartialEq, Eq)]
pub enum Begins {
    /// The scenes of an input.
    Scenes,
    /// What the journal that an input is holds.
    Journal,
}

/// How a durable room is to be served.
#[derive(Clone, Copy, Debug, PartialEq, Eq)]
pub struct Keeping {
    /// The port of the loopback that it listens on.
    pub port: u16,
    /// What it is served up to.
    pub limits: RoomLimits,
    /// What it begins with.
    pub begins: Begins,
}

/// A generated session that is to be run.
#[derive(Clone, Copy, Debug, PartialEq, Eq)]
pub struct Drill {
    /// What all of it is drawn from.
    pub seed: u64,
    /// How many events are drawn.
    pub events: u64,
}

/// What the words ask for.
#[derive(Drop)]
pub enum Request {
    /// To answer an input with a text.
    Answer(ProgramCommand),
    /// To run a generated session, and tell in short what came of it.
    Drill(Drill),
    /// To serve a room that begins with the scenes of an input.
    Serve(Service),
    /// To serve a durable room.
    Keep(Keeping),
}

/// What these words ask for. Memory is wanted only where they are a form of it.
pub fn asked(alloc: Global, words: &[Bytes]) -> Result<Option<Request>, AllocError>
    ensures found { IfOk result (λ found. found ≡ asked words.now) }
    ensures memory { OnErr result (IsSome (asked words.now)) }
{
    let Some((word, options)) = words.split_first() else {
        return Ok(None);
    };
    if word.as_slice() == b"serve".as_slice() {
        Ok(asked_room(options))
    } else if word.as_slice() == b"drill".as_slice() {
        Ok(asked_drill(options).map(Request::Drill))
    } else {
        Ok(asked_command(alloc, word, options)?.map(Request::Answer))
    }
}

/// The command of this name with these words behind it. Memory is wanted only where there is one.
fn asked_command(
    alloc: Global,
    word: &Bytes,
    options: &[Bytes],
) -> Result<Option<ProgramCommand>, AllocError>
    ensures found { IfOk result (λ found. found ≡ asked_command word.now options.now) }
    ensures memory { OnErr result (IsSome (asked_command word.now options.now)) }
{
    if word.as_slice() == b"paste".as_slice() {
        asked_paste(alloc, options)
    } else if word.as_slice() == b"insert".as_slice() {
        asked_insert(alloc, options)
    } else {
        Ok(asked_plain(word, options))
    }
}

/// The command of this name with these words behind it, which takes no text from them.
fn asked_plain(word: &Bytes, options: &[Bytes]) -> Option<ProgramCommand>
    ensures { result ≡ asked_plain word.now options.now }
{
    let word = word.as_slice();
    if word == b"restore".as_slice() {
        asked_layout(options).map(ProgramCommand::Restore)
    } else if word == b"merge".as_slice() {
        asked_layout(options).map(ProgramCommand::Merge)
    } else if word == b"state".as_slice() {
        asked_alone(ProgramCommand::State, options)
    } else if word == b"pictures".as_slice() {
        asked_alone(ProgramCommand::Pictures, options)
    } else if word == b"replay".as_slice() {
        asked_alone(ProgramCommand::Replay, options)
    } else if word == b"recover".as_slice() {
        asked_form(options).map(ProgramCommand::Recover)
    } else if word == b"library".as_slice() {
        asked_alone(ProgramCommand::Library, options)
    } else if word == b"check".as_slice() {
        asked_alone(ProgramCommand::Check, options)
    } else {
        None
    }
}

/// The form in which a journal is told that the words behind `recover` ask for: `--scene` alone, or
/// none.
fn asked_form(options: &[Bytes]) -> Option<Form>
    ensures { result ≡ asked_form options.now }
{
    match options {
        [] => Some(Form::State),
        [word] if word.as_slice() == b"--scene".as_slice() => Some(Form::Scene),
        _ => None,
    }
}

/// The paste that these words say: PREFIX. Memory is wanted only where they say one.
fn asked_paste(alloc: Global, options: &[Bytes]) -> Result<Option<ProgramCommand>, AllocError>
    ensures found { IfOk result (λ found. found ≡ asked_paste options.now) }
    ensures memory { OnErr result (IsSome (asked_paste options.now)) }
{
    match options {
        [prefix] if is_name(prefix) => Ok(Some(ProgramCommand::Paste(text_of(alloc, prefix)?))),
        _ => Ok(None),
    }
}

/// The insertion that these words say: ITEM and PREFIX. Memory is wanted only where they say one.
fn asked_insert(alloc: Global, options: &[Bytes]) -> Result<Option<ProgramCommand>, AllocError>
    ensures found { IfOk result (λ found. found ≡ asked_insert options.now) }
    ensures memory { OnErr result (IsSome (asked_insert options.now)) }
{
    match options {
        [item, prefix] if is_name(item) && is_name(prefix) => {
            Ok(Some(ProgramCommand::Insert(insertion_of(alloc, item, prefix)?)))
        }
        _ => Ok(None),
    }
}

/// The insertion of the item that one word is under the prefix that the other one is.
fn insertion_of(alloc: Global, item: &Bytes, prefix: &Bytes) -> Result<Insertion, AllocError>
    requires item { IsTrue (is_name item.now) }
    requires prefix { IsTrue (is_name prefix.now) }
    ensures { IfOk result
        (λ insertion. insertion ≡ record { item = item.now; prefix = prefix.now }) }
{
    Ok(Insertion {
        item: text_of(alloc, item)?,
        prefix: text_of(alloc, prefix)?,
    })
}

/// Whether a word may stand for a text: it is UTF-8, and not empty.
fn is_name(word: &Bytes) -> bool
    ensures { result ≡ is_name word.now }
{
    !word.as_slice().is_empty() && std::str::from_utf8(word.as_slice()).is_ok()
}

/// The text that a word is.
fn text_of(alloc: Global, word: &Bytes) -> Result<Text, AllocError>
    requires { IsTrue (is_name word.now) }
    ensures { IfOk result (λ text. text ≡ word.now) }
{
    Ok(Text::read(alloc, word.as_slice())?.unwrap())
}

/// The room that these words say: a service, or else a durable room.
fn asked_room(options: &[Bytes]) -> Option<Request>
    ensures { result ≡ asked_room options.now }
{
    match asked_service(options) {
        Some(service) => Some(Request::Serve(service)),
        None => asked_keeping(options).map(Request::Keep),
    }
}

/// The durable room that these words say: PORT, LINKS and IDLE, and what it begins with.
fn asked_keeping(options: &[Bytes]) -> Option<Keeping>
    ensures { result ≡ asked_keeping options.now }
{
    let [port, links, idle, begins] = options else {
        return None;
    };
    let port = number_within(1, 65_535, port);
    let links = number_within(1, 1_024, links);
    let idle = number_within(1, 4_294_967_295, idle);
    keeping_of(port, links, idle, asked_begins(begins))
}

/// The durable room with these numbers that begins with this, where all are there.
fn keeping_of(
    port: Option<u64>,
    links: Option<u64>,
    idle: Option<u64>,
    begins: Option<Begins>,
) -> Option<Keeping>
    requires { IfSome port (λ port. port < 2 ^ 16) }
    ensures { result ≡ keeping_of port links idle begins }
{
    Some(Keeping {
        port: port? as u16,
        limits: RoomLimits {
            links: links?,
            idle: idle?,
            events: MOST_EVENTS,
        },
        begins: begins?,
    })
}

/// What a durable room begins with that this word asks for: `--journal` for scenes, `--resume` for
/// a journal.
fn asked_begins(word: &Bytes) -> Option<Begins>
    ensures { result ≡ asked_begins word.now }
{
    if word.as_slice() == b"--journal".as_slice() {
        Some(Begins::Scenes)
    } else if word.as_slice() == b"--resume".as_slice() {
        Some(Begins::Journal)
    } else {
        None
    }
}

/// The service that these words say: PORT, LINKS and IDLE, and a layout.
fn asked_service(options: &[Bytes]) -> Option<Service>
    ensures { result ≡ asked_service options.now }
{
    let [port, links, idle, layout @ ..] = options else {
        return None;
    };
    let port = number_within(1, 65_535, port);
    let links = number_within(1, 1_024, links);
    let idle = number_within(1, 4_294_967_295, idle);
    service_of(port, links, idle, asked_layout(layout))
}

/// The service with these numbers in this layout, where all are there.
fn service_of(
    port: Option<u64>,
    links: Option<u64>,
    idle: Option<u64>,
    layout: Option<Layout>,
) -> Option<Service>
    requires { IfSome port (λ port. port < 2 ^ 16) }
    ensures { result ≡ service_of port links idle layout }
{
    Some(Service {
        port: port? as u16,
        limits: RoomLimits {
            links: links?,
            idle: idle?,
            events: MOST_EVENTS,
        },
        layout: layout?,
    })
}

/// The drill that these words say: SEED and EVENTS.
fn asked_drill(options: &[Bytes]) -> Option<Drill>
    ensures { result ≡ asked_drill options.now }
{
    let [seed, events] = options else {
        return None;
    };
    drill_of(
        number_within(0, GREATEST_SEED, seed),
        number_within(1, MOST_DRILLED, events),
    )
}

/// The drill with these numbers, where both are there.
fn drill_of(seed: Option<u64>, events: Option<u64>) -> Option<Drill>
    ensures { result ≡ drill_of seed events }
{
    Some(Drill {
        seed: seed?,
        events: events?,
    })
}

/// The number that the word is in plain decimal, if it is one at least the one number and at most
/// the other.
fn number_within(least: u64, most: u64, word: &Bytes) -> Option<u64>
    requires { most ≤ 9007199254740991 }
    ensures number { result ≡ number_within least most word.now }
    ensures bound { IfSome result (λ number. number ≤ most) }
{
    match whole_in(word.as_slice()) {
        Some(number) if least <= number && number <= most => Some(number),
        _ => None,
    }
}

/// The command, which no word is to stand behind.
fn asked_alone(command: ProgramCommand, options: &[Bytes]) -> Option<ProgramCommand>
    ensures { result ≡ asked_alone command options.now }
{
    match options {
        [] => Some(command),
        _ => None,
    }
}

/// The layout that the words behind a command ask for: `--pretty` alone, or none.
fn asked_layout(options: &[Bytes]) -> Option<Layout>
    ensures { result ≡ asked_layout options.now }
{
    match options {
        [] => Some(Layout::Compact),
        [word] if word.as_slice() == b"--pretty".as_slice() => Some(Layout::Pretty),
        _ => None,
    }
}
