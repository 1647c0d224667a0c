//! The links of a room: what they tell, and what is sent over them.

ghost use Rattle.std.specs.Prelude.{◌≡◌, IfOk};

use board_base::Bytes;
use std::alloc::AllocError;
use thiserror::Error;

/// What happened on the links.
#[derive(Drop)]
pub enum LinkEvent {
    /// The link with this number was opened. Links are numbered from 0 in the order of their
    /// openings.
    Opened(u64),
    /// A text came over this link.
    Text(u64, Bytes),
    /// This link was closed.
    Closed(u64),
    /// Nothing happened.
    Idle,
}

impl LinkEvent {
    /// An equal event.
    pub fn try_clone(&self) -> Result<LinkEvent, AllocError>
        ensures { IfOk result (λ copy. copy ≡ self.now) }
    {
        Ok(match self {
            LinkEvent::Opened(link) => LinkEvent::Opened(*link),
            LinkEvent::Text(link, text) => LinkEvent::Text(*link, text.try_clone()?),
            LinkEvent::Closed(link) => LinkEvent::Closed(*link),
            LinkEvent::Idle => LinkEvent::Idle,
        })
    }
}

/// Why `listen` or `next` gave nothing.
#[derive(Clone, Copy, Debug, PartialEq, Eq, Drop, Error)]
pub enum LinkError {
    /// The links failed; their count of faults tells so.
    #[error("the links failed")]
    Failed,
    /// Want of memory.
    #[error("out of memory")]
    Memory,
}

/// Why a text was not sent.
#[derive(Clone, Copy, Debug, PartialEq, Eq, Drop, Error)]
pub enum SendError {
    /// The link is gone; the count of those gone tells so.
    #[error("the link is gone")]
    Gone,
    /// Want of memory.
    #[error("out of memory")]
    Memory,
}

/// The links of a room. No call waits for anybody.
pub trait Links {
    ghost use Rattle.std.specs.Prelude.{◌≡◌, ℕ, ◌≤◌, List, Some, IsSome, IfSome, IfOk, OnOk, OnErr};
    ghost use Rattle.board_ends.specs.Counts.{Rose, one_more};
    ghost use Rattle.board_ends.specs.Ends.{LinksEnd};
    ghost use Rattle.board_ends.specs.Events.{OpensAt, opened_count, with_last, with_lost};
    ghost use Rattle.board_ends.specs.declared.links.LinkEvent.{LinkEvent};

    // The port that is listened on, what the links gave, sent and lost, where told, and counts of
    // calls, faults and links gone, which never fall.
    ghost seen: { Self → LinksEnd };

    /// Listens on this port of the loopback. `Failed` comes only where the count of faults rose.
    fn listen(&mut self, number: u16) -> Result<(), LinkError>
        ensures ok { OnOk result ((seen self.new).port ≡ Some number) }
        ensures err { OnErr result ((seen self.new).port ≡ (seen self.old).port) }
        ensures failed { result ≡ Err LinkError.Failed
            → Rose (seen self.old).faults (seen self.new).faults }
        ensures listens { (seen self.new).listens ≡ one_more (seen self.old).listens }
        ensures given { (seen self.new).given ≡ (seen self.old).given }
        ensures sent { (seen self.new).sent ≡ (seen self.old).sent }
        ensures lost { (seen self.new).lost ≡ (seen self.old).lost }
        ensures counted { (seen self.old).faults ≤ (seen self.new).faults }
        ensures gone_counted { (seen self.old).gone ≤ (seen self.new).gone };

    /// The next event. `Failed` comes only where the count of faults rose.
    fn next(&mut self) -> Result<LinkEvent, LinkError>
        requires { IsSome (seen self.old).port }
        ensures ok { IfOk result (λ event. (seen self.new).given
            ≡ with_last (seen self.old).given event) }
        ensures numbered { IfOk result (λ event. IfSome (seen self.old).given
            (λ events. OpensAt (opened_count events) event)) }
        ensures err { OnErr result ((seen self.new).given ≡ (seen self.old).given) }
        ensures failed { result ≡ Err LinkError.Failed
            → Rose (seen self.old).faults (seen self.new).faults }
        ensures port { (seen self.new).port ≡ (seen self.old).port }
        ensures listens { (seen self.new).listens ≡ (seen self.old).listens }
        ensures sent { (seen self.new).sent ≡ (seen self.old).sent }
        ensures lost { (seen self.new).lost ≡ (seen self.old).lost }
        ensures counted { (seen self.old).faults ≤ (seen self.new).faults }
        ensures gone_counted { (seen self.old).gone ≤ (seen self.new).gone };

    /// Sends the text over this link. `Gone` comes only where the count of those gone rose, and
    /// nothing was sent then.
    fn send(&mut self, link: u64, text: &Bytes) -> Result<(), SendError>
        ensures ok { OnOk result ((seen self.new).sent
            ≡ with_last (seen self.old).sent (link, text.now)) }
        ensures err { OnErr result ((seen self.new).sent ≡ (seen self.old).sent) }
        ensures gone { result ≡ Err SendError.Gone
            → Rose (seen self.old).gone (seen self.new).gone }
        ensures lost { result ≡ Err SendError.Gone
            → (seen self.new).lost ≡ with_lost (seen self.old).sent (seen self.old).lost link }
        ensures kept { OnOk result ((seen self.new).lost ≡ (seen self.old).lost) }
        ensures memory { result ≡ Err SendError.Memory
            → (seen self.new).lost ≡ (seen self.old).lost }
        ensures port { (seen self.new).port ≡ (seen self.old).port }
        ensures listens { (seen self.new).listens ≡ (seen self.old).listens }
        ensures given { (seen self.new).given ≡ (seen self.old).given }
        ensures counted { (seen self.old).faults ≤ (seen self.new).faults }
        ensures gone_counted { (seen self.old).gone ≤ (seen self.new).gone };
}
