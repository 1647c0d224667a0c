//! An element whose text is read byte by byte.

use crate::element::Element;

/// An element, with its numbers in digits.
#[derive(Clone, Copy)]
pub(crate) struct Source<'a> {
    pub(crate) e: &'a Element,
    pub(crate) version: &'a [u8],
    pub(crate) nonce: &'a [u8],
    pub(crate) updated: &'a [u8],
}
