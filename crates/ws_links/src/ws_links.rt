//! Links over WebSockets, as a room sees them.

ghost use Rattle.std.specs.Prelude.{◌≡◌, None, IfOk};

use crate::server::Server;
use board_base::{Bytes, Stop};
use board_ends::{Failed, LinkError, LinkEvent, Links, SendError};
use std::alloc::{AllocError, Global};
use std::marker::Model;
use std::net::Net;
use std::time::Clock;

/// Links over WebSockets on 127.0.0.1. They tell no content.
///
/// A text or a binary message is a text of its link. Nothing waits for a peer: what a socket doesn't
/// take is kept, and written first at later calls. If nothing is ready `next` waits for it, a second
/// at most, and is Idle once for each millisecond in which nothing came. A link that keeps more than
/// 128 MiB unsent is gone. All links hold 1 GiB at most: before they hold more, the one that holds
/// most ends. A text of more than 768 MiB never has room, and ends the link that it is for.
#[derive(Drop)]
pub struct WsLinks<R> {
    port: Option<u16>,
    listens: u64,
    faults: u64,
    gone: u64,
    server: Server<R>,
}

impl<R> Model for WsLinks<R> {
    ghost use Rattle.ws_links.specs.Counts.{LinkCounts};

    ghost Value = { LinkCounts };

    ghost view = { λ l. record {
      port = l.port;
      listens = l.listens;
      faults = l.faults;
      gone =
          l.gone;
    } };
}

impl<R: Net + Clock + Drop> WsLinks<R> {
    /// Links without a socket. The handle is what opens sockets, and tells and takes time.
    pub fn new(alloc: Global, handle: R) -> Result<WsLinks<R>, AllocError>
        ensures { IfOk result
            (λ links. links ≡ record { port = None; listens = 0; faults = 0; gone = 0 }) }
    {
        Ok(WsLinks {
            port: None,
            listens: 0,
            faults: 0,
            gone: 0,
            server: Server::new(alloc, handle)?,
        })
    }
}

impl<R: Net + Clock + Drop> Links for WsLinks<R> {
    ghost use Rattle.ws_links.specs.Counts.{untold_links};

    ghost seen = { untold_links };

    fn listen(&mut self, number: u16) -> Result<(), LinkError> {
        self.listens = self.listens.saturating_add(1);
        match self.server.listen(number) {
            Ok(()) => {
                self.port = Some(number);
                Ok(())
            }
            Err(Stop::Fault(Failed)) => {
                self.faults = self.faults.saturating_add(1);
                Err(LinkError::Failed)
            }
            Err(Stop::Memory) => Err(LinkError::Memory),
        }
    }

    fn next(&mut self) -> Result<LinkEvent, LinkError> {
        match self.server.next() {
            Ok(event) => Ok(event),
            Err(Stop::Fault(Failed)) => {
                self.faults = self.faults.saturating_add(1);
                Err(LinkError::Failed)
            }
            Err(Stop::Memory) => Err(LinkError::Memory),
        }
    }

    fn send(&mut self, link: u64, text: &Bytes) -> Result<(), SendError> {
        match self.server.send(link, text) {
            Ok(()) => Ok(()),
            Err(Stop::Fault(Failed)) => {
                self.gone = self.gone.saturating_add(1);
                Err(SendError::Gone)
            }
            Err(Stop::Memory) => Err(SendError::Memory),
        }
    }
}
