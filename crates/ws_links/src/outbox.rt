//! What is to leave over a link.

ghost use Rattle.std.specs.Prelude.{◌≡◌, ◌≤◌, ◌++◌, length, drop, IsTrue, IsFalse, OnOk, OnErr};
ghost use Rattle.ws_links.specs.inner.Sums.{capped};
ghost use Rattle.ws_links.specs.inner.Leaving.{frames_left, has_reply_first, first_left};

use crate::buffer::Buffer;
use crate::frames::{PLACE, rest_of, space_of};
use mio::net::TcpStream;
use std::alloc::{AllocError, Global};
use std::collections::VecDeque;
use std::io::{ErrorKind, Write};
use std::marker::Model;
use std::rc::Rc;

/// How many times in one turn a socket is written to.
const WRITES: usize = 64;

/// Frames that are to leave in their order, and replies, which go before a frame that hasn't begun
/// to leave.
#[derive(Drop)]
pub(crate) struct Outbox {
    replies: Buffer,
    frames: VecDeque<Rc<Vec<u8>>>,
    // How many bytes of the first frame have left.
    left: usize,
    // How many bytes of memory the frames hold, each as if it stood here alone.
    held: usize,
    // The socket takes nothing until it is told to be ready.
    is_blocked: bool,
    // The socket takes nothing any more.
    is_broken: bool,
}

impl Model for Outbox {
    ghost use Rattle.std.specs.Prelude.{◌≤◌, length, map};
    ghost use Rattle.ws_links.specs.inner.Leaving.{Outgoing, first_of};

    ghost Value = { Outgoing };

    ghost view = { λ o. record {
      replies = o.replies;
      frames = map (λ f. f.value.items) o.frames.items;
      begun = o.left;
      held = o.held;
    } };

    ghost invariant = { λ o. o.left ≤ length (first_of (map (λ f. f.value.items) o.frames.items)) };
}

impl Outbox {
    pub(crate) fn new(alloc: Global) -> Outbox {
        Outbox {
            replies: Buffer::new(alloc),
            frames: VecDeque::new(alloc),
            left: 0,
            held: 0,
            is_blocked: false,
            is_broken: false,
        }
    }

    /// How many bytes of memory it holds, each frame as if it stood here alone.
    pub(crate) fn held(&self) -> usize
        ensures { result ≡ capped self.now.held self.now.replies.room }
    {
        self.held.saturating_add(self.replies.held())
    }

    /// How many bytes of memory it holds besides the frames, which it shares with other links.
    pub(crate) fn own(&self) -> usize {
        self.frames
            .len()
            .saturating_mul(PLACE)
            .saturating_add(self.replies.held())
    }

    /// Whether something is to leave that the socket may take.
    pub(crate) fn wants_turn(&self) -> bool {
        !self.is_blocked && !(self.frames.is_empty() && self.replies.is_empty())
    }

    /// Whether the socket took nothing when it was tried last.
    pub(crate) fn is_blocked(&self) -> bool {
        self.is_blocked
    }

    /// Whether the socket takes nothing any more.
    pub(crate) fn is_broken(&self) -> bool {
        self.is_broken
    }

    /// The socket takes bytes again.
    pub(crate) fn wake(&mut self) {
        self.is_blocked = false;
    }

    /// Adds a frame. For want of memory nothing is added.
    pub(crate) fn add(&mut self, frame: Rc<Vec<u8>>) -> Result<(), AllocError>
        ensures added { OnOk result
            (frames_left self.new ≡ frames_left self.old ++ frame.value.items) }
        ensures err { OnErr result (frames_left self.new ≡ frames_left self.old) }
        ensures replies { self.new.replies.bytes ≡ self.old.replies.bytes }
    {
        let held = space_of(&frame);
        self.frames.push_back(frame)?;
        self.held = self.held.saturating_add(held);
        Ok(())
    }

    /// Adds a reply. For want of memory nothing is added.
    pub(crate) fn reply(&mut self, bytes: &[u8]) -> Result<(), AllocError>
        ensures added { OnOk result (self.new.replies.bytes ≡ self.old.replies.bytes ++ bytes.now) }
        ensures err { OnErr result (self.new.replies.bytes ≡ self.old.replies.bytes) }
        ensures frames { frames_left self.new ≡ frames_left self.old }
    {
        self.replies.extend(bytes)
    }

    /// Writes as much as the socket takes, up to some pieces; in this one small frames are put
    /// together. Where the socket takes nothing any more, nothing is kept.
    pub(crate) fn flush(&mut self, alloc: Global, socket: &TcpStream, piece: &mut [u8]) {
        for _ in 0..WRITES {
            if !self.wants_turn() {
                return;
            }
            self.write(alloc, socket, piece);
        }
    }

    /// Writes once.
    fn write(&mut self, alloc: Global, socket: &TcpStream, piece: &mut [u8]) {
        let count = self.gather(piece);
        let mut socket = socket;
        let written = match piece.get(..count) {
            Some(gathered) if count > 0 => socket.write(gathered),
            _ => socket.write(self.first()),
        };
        match written {
            Ok(count) if count > 0 => self.leave_all(count),
            Err(error) if error.kind() == ErrorKind::WouldBlock => self.is_blocked = true,
            Err(error) if error.kind() == ErrorKind::Interrupted => {}
            Ok(_) | Err(_) => {
                *self = Outbox::new(alloc);
                self.is_broken = true;
            }
        }
    }

    /// Copies the frames that leave first into the piece, as long as they find room there, and
    /// gives how many bytes these are: none where a reply waits.
    fn gather(&self, piece: &mut [u8]) -> usize {
        if !self.replies.is_empty() {
            return 0;
        }
        let mut count: usize = 0;
        let mut left = self.left;
        for frame in &self.frames {
            let bytes = rest_of(frame, left);
            let Some(place) = piece.get_mut(count..count.saturating_add(bytes.len())) else {
                return count;
            };
            place.copy_from_slice(bytes);
            count = count.saturating_add(bytes.len());
            left = 0;
        }
        count
    }

    /// So many bytes of what is to leave have left.
    fn leave_all(&mut self, count: usize) {
        let mut rest = count;
        for _ in 0..=self.frames.len() {
            let some = rest.min(self.first().len());
            self.leave(some);
            rest -= some;
            if rest == 0 {
                return;
            }
        }
    }

    /// Whether replies are to leave next: no frame has begun to.
    fn has_reply_first(&self) -> bool
        ensures { result ≡ has_reply_first self.now }
    {
        self.left == 0 && !self.replies.is_empty()
    }

    /// What is to leave first.
    fn first(&self) -> &[u8]
        ensures { result.now ≡ first_left self.now }
    {
        if self.has_reply_first() {
            return self.replies.as_slice();
        }
        match self.frames.front() {
            Some(frame) => rest_of(frame, self.left),
            None => &[],
        }
    }

    /// So many bytes of what is to leave first have left.
    fn leave(&mut self, count: usize)
        requires { count ≤ length (first_left self.old) }
        ensures replies { IsTrue (has_reply_first self.old)
            → self.new.replies.bytes ≡ drop count self.old.replies.bytes }
        ensures frames_stay { IsTrue (has_reply_first self.old)
            → frames_left self.new ≡ frames_left self.old }
        ensures frames { IsFalse (has_reply_first self.old)
            → frames_left self.new ≡ drop count (frames_left self.old) }
        ensures replies_stay { IsFalse (has_reply_first self.old)
            → self.new.replies.bytes ≡ self.old.replies.bytes }
    {
        if self.has_reply_first() {
            self.replies.leave(count);
            return;
        }
        let Some(frame) = self.frames.front() else {
            return;
        };
        let (length, space) = (frame.len(), space_of(frame));
        if self.left + count < length {
            self.left += count;
        } else {
            self.held = self.held.saturating_sub(space);
            self.left = 0;
            drop_first(&mut self.frames);
        }
    }
}

/// Drops the first frame.
fn drop_first(frames: &mut VecDeque<Rc<Vec<u8>>>)
    ensures { frames.new.items ≡ drop 1 frames.old.items }
{
    frames.pop_front();
}
