//! A table of who names whom.

ghost use Rattle.std.specs.Prelude.{◌≡◌, List as Items, [], ◌+◌, ◌<◌, ◌≤◌, not, ◌&&◌, ◌||◌, filter, length, map, OnOk, IsTrue};
ghost use Rattle.frac_keys.specs.Rising.{are_rising};
ghost use Rattle.links.specs.Rows.{has_row, same_row, is_for, is_namer, namer_of, AreRowsRising};

use crate::row_places::{ends_of, insert, place_of, take_out_namer};
use crate::rows::LinkRow;
use board_base::List;
use json_text::Text;
use std::alloc::{AllocError, Global};
use std::marker::Model;

/// Rows of who names whom, each once, in the order of the named ids and then of the namers.
/// Contracts also see how many more rows it has room for.
///
/// The named ids and the namers stand in two arrays, so that the namers of an id are a part of one.
pub struct LinkTable {
    named: Vec<Text>,
    namers: Vec<Text>,
}

// By hand, so that whoever drops a link table sees one call and not what it holds.
impl Drop for LinkTable {
    fn drop(self) {
        let LinkTable {
            named: _named,
            namers: _namers,
        } = self;
    }
}

impl Model for LinkTable {
    ghost use Rattle.std.specs.Prelude.{vec_capacity, vec_len};
    ghost use Rattle.links.specs.Rows.{rows_at, room_in, AreRows, LinkRows};

    ghost Value = { LinkRows };

    ghost view = { λ t. record {
      rows = rows_at t.named.items t.namers.items;
      spare = room_in (vec_capacity t.named) (vec_capacity t.namers) (vec_len t.named);
    } };

    ghost invariant = { λ t. AreRows t.named.items t.namers.items };
}

impl LinkTable {
    /// With no row.
    pub fn new(alloc: Global) -> LinkTable
        ensures { result.rows ≡ [] }
    {
        LinkTable {
            named: Vec::new(alloc),
            namers: Vec::new(alloc),
        }
    }

    /// Makes room for this many rows more. The rows stay, also for want of memory.
    pub fn reserve(&mut self, n: usize) -> Result<(), AllocError>
        ensures room { OnOk result (n ≤ self.new.spare) }
        ensures kept { self.old.spare ≤ self.new.spare }
        ensures rows { self.new.rows ≡ self.old.rows }
    {
        self.named.reserve(n)?;
        self.namers.reserve(n)
    }

    /// Takes out every row with this namer, and puts the given rows in. It takes no memory, and
    /// goes over all rows; where the old rows of the namer are known, `replace` finds each.
    pub fn change(&mut self, id: &Text, rows: List<LinkRow>)
        requires { length rows ≤ self.old.spare }
        ensures rows { (row : LinkRow) → has_row self.new.rows row
            ≡ (has_row rows row || (has_row self.old.rows row && not (is_namer id.now row))) }
        ensures spare { self.old.spare ≤ self.new.spare + length rows }
    {
        self.take_out_namer(id);
        self.put_in_all(rows);
    }

    /// Takes the old rows out, and puts the new ones in. It takes no memory.
    pub fn replace(&mut self, old: &List<LinkRow>, new: List<LinkRow>)
        requires { length new ≤ self.old.spare }
        ensures rows { (row : LinkRow) → has_row self.new.rows row
            ≡ (has_row new row || (has_row self.old.rows row && not (has_row old.now row))) }
        ensures spare { self.old.spare ≤ self.new.spare + length new }
    {
        self.take_out_all(old);
        self.put_in_all(new);
    }

    /// The namers of the rows with this named id, rising. It takes no memory.
    pub fn namers(&self, id: &Text) -> &[Text]
        ensures exact { result.now ≡ map namer_of (filter (is_for id.now) self.now.rows) }
        ensures rising { IsTrue (are_rising result.now) }
        ensures ordered { AreRowsRising self.now.rows }
    {
        let (start, end) = ends_of(&self.named, id);
        &self.namers[start..end]
    }
}

impl LinkTable {
    /// Takes every row with this namer out.
    fn take_out_namer(&mut self, id: &Text)
        ensures rows { (row : LinkRow) → has_row self.new.rows row
            ≡ (has_row self.old.rows row && not (is_namer id.now row)) }
        ensures spare { self.old.spare ≤ self.new.spare }
    {
        take_out_namer(&mut self.named, &mut self.namers, id);
    }

    /// Takes these rows out.
    fn take_out_all(&mut self, rows: &List<LinkRow>)
        ensures rows { (row : LinkRow) → has_row self.new.rows row
            ≡ (has_row self.old.rows row && not (has_row rows.now row)) }
        ensures spare { self.old.spare ≤ self.new.spare }
    {
        for row in rows.as_slice() {
            self.take_out(row);
        }
    }

    /// Takes a row out, if it is there.
    fn take_out(&mut self, row: &LinkRow)
        ensures rows { (other : LinkRow) → has_row self.new.rows other
            ≡ (has_row self.old.rows other && not (same_row other row.now)) }
        ensures spare { self.old.spare ≤ self.new.spare }
    {
        match place_of(&self.named, &self.namers, row) {
            Ok(i) => {
                self.named.remove(i);
                self.namers.remove(i);
            }
            Err(_) => {}
        }
    }

    /// Puts these rows in.
    fn put_in_all(&mut self, rows: List<LinkRow>)
        requires { length rows ≤ self.old.spare }
        ensures rows { (row : LinkRow) → has_row self.new.rows row
            ≡ (has_row rows row || has_row self.old.rows row) }
        ensures spare { self.old.spare ≤ self.new.spare + length rows }
    {
        for row in rows.into_vec() {
            self.put_in(row);
        }
    }

    /// Puts a row in, if it isn't there.
    fn put_in(&mut self, row: LinkRow)
        requires { 0 < self.old.spare }
        ensures rows { (other : LinkRow) → has_row self.new.rows other
            ≡ (same_row other row || has_row self.old.rows other) }
        ensures spare { self.old.spare ≤ self.new.spare + 1 }
    {
        match place_of(&self.named, &self.namers, &row) {
            Err(i) => {
                let LinkRow { named, namer } = row;
                insert(&mut self.named, i, named);
                insert(&mut self.namers, i, namer);
            }
            Ok(_) => {}
        }
    }
}
