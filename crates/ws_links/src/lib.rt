//! The links of a room over WebSockets on the loopback: one loop serves all connections that are
//! ready, and no call waits for anybody.
#![tactic(auto)]

mod buffer;
mod door;
mod frames;
mod greeting;
mod handshake;
mod link;
mod mem;
mod members;
mod outbox;
mod quiet;
mod server;
mod signal;
mod waiting;
mod ws_links;

pub use ws_links::WsLinks;
