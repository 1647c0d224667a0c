//! What a command looks up.

use elem::SharedElement;
use elem_store::Store;
use json_text::Text;
use links::LinkTable;
use std::collections::BTreeSet;

/// What a command looks up on a board.
#[derive(Clone, Copy)]
pub struct Lookup<'a> {
    /// What is stored.
    pub store: &'a Store,
    /// What is shown of it.
    pub shown: &'a [SharedElement],
    /// Who of the live elements names whom.
    pub names: &'a LinkTable,
    /// The ids of the live elements that may be shown otherwise than they are stored.
    pub unsettled: &'a BTreeSet<Text>,
    /// The ids of the live elements that may be shown with another key than is stored.
    pub rekeyed: &'a BTreeSet<Text>,
}
