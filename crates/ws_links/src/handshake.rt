//! What the head of a request is answered: RFC 6455, section 4.2.

use crate::frames::config;
use http::{HeaderMap, HeaderValue, Request, Response, StatusCode};
use std::alloc::{AllocError, Global};
use tungstenite::handshake::server::{Callback, ErrorResponse, start};
use tungstenite::{Duplex, Error, HandshakeError};
use websocket::handshake::HandshakeError as HeadError;

/// How many bytes a head may have.
const HEAD: usize = 16_384;

/// What ends a head.
const END: &[u8] = b"\r\n\r\n";

/// What a request that is no handshake is answered.
const BAD_REQUEST: &[u8] =
    b"HTTP/1.1 400 Bad Request\r\nContent-Length: 0\r\nConnection: close\r\n\r\n";

/// What a page of another host is answered.
const FORBIDDEN: &[u8] =
    b"HTTP/1.1 403 Forbidden\r\nContent-Length: 0\r\nConnection: close\r\n\r\n";

/// What a handshake of another version is answered.
const UPGRADE_REQUIRED: &[u8] =
    b"HTTP/1.1 426 Upgrade Required\r\nUpgrade: websocket\r\nSec-WebSocket-Version: 13\r\nContent-Length: 0\r\nConnection: Upgrade, close\r\n\r\n";

/// What one that has to give way is answered.
pub(crate) const UNAVAILABLE: &[u8] =
    b"HTTP/1.1 503 Service Unavailable\r\nContent-Length: 0\r\nConnection: close\r\n\r\n";

/// What follows the bytes that came.
#[derive(Drop)]
pub(crate) enum Answer {
    /// The head isn't whole.
    Wait,
    /// The handshake is whole: what it is answered, and how many bytes it has.
    Welcome(Vec<u8>, usize),
    /// It is refused by this answer.
    Refuse(&'static [u8]),
}

/// What is answered to these bytes.
pub(crate) fn answer_to(alloc: Global, bytes: &[u8]) -> Result<Answer, AllocError> {
    match whole_head(bytes) {
        Some(head) => judge(alloc, head),
        None if bytes.len() < HEAD => Ok(Answer::Wait),
        None => Ok(Answer::Refuse(BAD_REQUEST)),
    }
}

/// The bytes up to the first empty line.
fn whole_head(bytes: &[u8]) -> Option<&[u8]> {
    let end = bytes.windows(END.len()).position(|window| window == END)?;
    bytes.get(..end.saturating_add(END.len()))
}

/// What is answered to a whole head.
fn judge(alloc: Global, head: &[u8]) -> Result<Answer, AllocError> {
    let plain = plain_head(alloc, head)?;
    let stream = Duplex {
        reader: plain.as_slice(),
        writer: Vec::new(alloc),
    };
    match start(alloc, stream, Gate { alloc }, Some(config())).handshake() {
        Ok(socket) => Ok(Answer::Welcome(socket.into_inner().writer, head.len())),
        Err(HandshakeError::Failure(error)) => refusal_of(&error),
        Err(HandshakeError::Interrupted(_)) => Ok(Answer::Refuse(BAD_REQUEST)),
    }
}

/// The head with `Connection` and `Upgrade` at its end, each as one word, if they ask for an upgrade
/// to WebSockets. Both are lists, which may stand in several headers; the library reads the first.
fn plain_head(alloc: Global, head: &[u8]) -> Result<Vec<u8>, AllocError> {
    let mut plain = Vec::new(alloc);
    let (mut upgrades, mut to_websocket) = (false, false);
    for line in head.split_inclusive(|byte| *byte == b'\n') {
        if let Some(list) = value_of(line, b"connection") {
            upgrades = upgrades || is_listed(list, b"upgrade");
        } else if let Some(list) = value_of(line, b"upgrade") {
            to_websocket = to_websocket || is_listed(list, b"websocket");
        } else if line != b"\r\n".as_slice() {
            plain.extend_from_slice(line)?;
        }
    }
    if upgrades && to_websocket {
        plain.extend_from_slice(b"Connection: Upgrade\r\nUpgrade: websocket\r\n")?;
    }
    plain.extend_from_slice(b"\r\n")?;
    Ok(plain)
}

/// Whether this list has this word.
fn is_listed(list: &[u8], word: &[u8]) -> bool {
    list.split(|byte| *byte == b',')
        .any(|part| part.trim_ascii().eq_ignore_ascii_case(word))
}

/// The value of a line, if it is a header of this name.
fn value_of<'a>(line: &'a [u8], name: &[u8]) -> Option<&'a [u8]> {
    let colon = line.iter().position(|byte| *byte == b':')?;
    if line.get(..colon)?.eq_ignore_ascii_case(name) {
        line.get(colon.saturating_add(1)..)
    } else {
        None
    }
}

/// How a handshake is refused that failed so.
fn refusal_of(error: &Error) -> Result<Answer, AllocError> {
    let reply = match error {
        Error::OutOfMemory | Error::Io(_) => return Err(AllocError),
        Error::Handshake(HeadError::MissingSecWebSocketVersionHeader) => UPGRADE_REQUIRED,
        Error::Refused(response) if response.status() == StatusCode::FORBIDDEN => FORBIDDEN,
        _ => BAD_REQUEST,
    };
    Ok(Answer::Refuse(reply))
}

/// Lets in whom the rules allow, of those that ask for an upgrade with a valid key.
#[derive(Drop)]
struct Gate {
    alloc: Global,
}

impl Callback for Gate {
    fn on_request(
        self,
        request: &Request<()>,
        response: Response<()>,
    ) -> Result<Response<()>, ErrorResponse> {
        let headers = request.headers();
        let status = if !stand_once(headers) {
            StatusCode::BAD_REQUEST
        } else if has_stranger(headers) {
            StatusCode::FORBIDDEN
        } else {
            return Ok(response);
        };
        let mut refusal = Response::new(self.alloc, None);
        *refusal.status_mut() = status;
        Err(refusal)
    }
}

/// Whether each of these headers stands once: RFC 6455, sections 4.2.1 and 11.3.
fn stand_once(headers: &HeaderMap<HeaderValue>) -> bool {
    ["host", "sec-websocket-key", "sec-websocket-version"]
        .iter()
        .all(|name| headers.get_all(*name).into_iter().count() == 1)
}

/// Whether any header names a page of another host as the origin. Programs name none. A page of
/// another host is refused, so that it doesn't read a board through its visitor's browser.
fn has_stranger(headers: &HeaderMap<HeaderValue>) -> bool {
    headers
        .get_all("origin")
        .into_iter()
        .any(|origin| !is_local(origin.as_bytes()))
}

/// Whether an origin is of this machine: any scheme and port of `localhost`, `127.0.0.1` or
/// `[::1]`.
fn is_local(origin: &[u8]) -> bool {
    let Ok(origin) = str::from_utf8(origin) else {
        return false;
    };
    let Some((_scheme, place)) = origin.split_once("://") else {
        return false;
    };
    ["localhost", "127.0.0.1", "[::1]"]
        .iter()
        .any(|host| match place.strip_prefix(*host) {
            Some(port) => is_port(port),
            None => false,
        })
}

/// Whether what follows a host is nothing, or a colon and digits.
fn is_port(port: &str) -> bool {
    match port.strip_prefix(':') {
        Some(digits) => digits.bytes().all(|byte| byte.is_ascii_digit()),
        None => port.is_empty(),
    }
}
