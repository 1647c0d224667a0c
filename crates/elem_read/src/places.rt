//! The places from which header members are looked for: those that they have in an element of the
//! table's members alone, and that a text or a picture has with its own one. Another place costs
//! steps, and changes nothing.

pub(crate) const BOUND_ELEMENTS: usize = 2;

pub(crate) const OWN_TEXT: usize = 3;

pub(crate) const FRAME_ID: usize = 4;

pub(crate) const GROUP_IDS: usize = 5;

pub(crate) const ID: usize = 7;

pub(crate) const INDEX: usize = 8;

pub(crate) const IS_DELETED: usize = 9;

pub(crate) const TYPE: usize = 19;

pub(crate) const UPDATED: usize = 20;

pub(crate) const VERSION: usize = 21;

pub(crate) const VERSION_NONCE: usize = 22;
