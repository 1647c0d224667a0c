//! Live elements, and what is shown of them.

ghost use Rattle.std.specs.Prelude.{◌≡◌, [], IfOk};
ghost use Rattle.view.specs.Kept.{AreOthersAsStored, AreOthersKeyedAsStored, HaveRowsOf};
ghost use Rattle.view.specs.Shown.{shown, IsView};
ghost use Rattle.kept_view.specs.inner.Replacing.{IsKeptView};

use crate::drawing::table_of;
use crate::sharing::shared_again;
use crate::unsettled::{Unsettled, unsettled_of};
use elem::SharedElement;
use json_text::Text;
use links::LinkTable;
use std::alloc::{AllocError, Global};
use std::collections::BTreeSet;
use std::marker::Model;

/// Live elements, what is shown of them, and who of them names whom. Contracts see the live
/// elements, as stored, in the order of their ids.
pub(crate) struct Kept {
    /// The live elements, as stored, in the order of their ids.
    pub(crate) live: Vec<SharedElement>,

    /// What is shown of them.
    pub(crate) shown: Vec<SharedElement>,

    /// Who of them names whom.
    pub(crate) table: LinkTable,

    /// The ids of those that may be shown otherwise than they are stored, or with another key.
    pub(crate) unsettled: Unsettled,
}

// By hand, so that whoever drops what is kept sees one call and not its parts.
impl Drop for Kept {
    fn drop(self) {
        let Kept {
            live: _live,
            shown: _shown,
            table: _table,
            unsettled: _unsettled,
        } = self;
    }
}

impl Model for Kept {
    ghost use Rattle.std.specs.Prelude.{List as Items};
    ghost use Rattle.elem.specs.ElementValue.{ElementValue};
    ghost use Rattle.kept_view.specs.inner.Replacing.{IsKeptView};

    ghost Value = { Items ElementValue };

    ghost view = { λ v. v.live.items };

    ghost invariant = { λ v. IsKeptView v.live.items v.shown.items v.table.rows v.unsettled };
}

impl Kept {
    /// Of no elements. It takes no memory.
    pub(crate) fn new(alloc: Global) -> Kept
        ensures { result ≡ [] }
    {
        Kept {
            live: Vec::new(alloc),
            shown: Vec::new(alloc),
            table: LinkTable::new(alloc),
            unsettled: Unsettled::new(alloc),
        }
    }

    /// Its parts, which may change apart.
    pub(crate) fn into_parts(self) -> (Vec<SharedElement>, Vec<SharedElement>, LinkTable, Unsettled)
        ensures same { result.0.items ≡ self }
        ensures are { IsKeptView result.0.items result.1.items result.2.rows result.3 }
    {
        let Kept {
            live,
            shown,
            table,
            unsettled,
        } = self;
        (live, shown, table, unsettled)
    }

    /// What is shown.
    pub(crate) fn elements(&self) -> &[SharedElement]
        ensures { IsView self.now result.now }
    {
        self.shown.as_slice()
    }

    /// Who of the live elements names whom.
    pub(crate) fn names(&self) -> &LinkTable
        ensures { HaveRowsOf self.now result.now.rows }
    {
        &self.table
    }

    /// The ids of the live elements that may be shown otherwise than they are stored.
    pub(crate) fn unsettled(&self) -> &BTreeSet<Text>
        ensures { AreOthersAsStored result.now self.now (shown self.now) }
    {
        &self.unsettled.ids
    }

    /// The ids of the live elements that may be shown with another key than is stored.
    pub(crate) fn rekeyed(&self) -> &BTreeSet<Text>
        ensures { AreOthersKeyedAsStored result.now self.now (shown self.now) }
    {
        &self.unsettled.rekeyed
    }

    /// The same, copied.
    pub(crate) fn copied(&self) -> Result<Kept, AllocError>
        ensures { IfOk result (λ copy. copy ≡ self.now) }
    {
        let alloc = *self.live.allocator();
        Ok(Kept {
            live: shared_again(alloc, &self.live)?,
            shown: shared_again(alloc, &self.shown)?,
            table: table_of(alloc, &self.live)?,
            unsettled: unsettled_of(alloc, &self.live, &self.shown)?,
        })
    }
}

/// What is kept of these parts.
pub(crate) fn joined(
    live: Vec<SharedElement>,
    shown: Vec<SharedElement>,
    table: LinkTable,
    unsettled: Unsettled,
) -> Kept
    requires { IsKeptView live.items shown.items table.rows unsettled }
    ensures { result ≡ live.items }
{
    Kept {
        live,
        shown,
        table,
        unsettled,
    }
}
