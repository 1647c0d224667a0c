//! Who names whom: elements by the ids that they name, in an order that is fast to search.

ghost use Rattle.std.specs.Prelude.{◌≡◌, ℕ, ◌<◌, ◌≤◌, List, filter, length, map, slice_range, IfOk};
ghost use Rattle.std.specs.List.Sorted.{IsNonDecreasing, IsPartitionPoint, IsSortedBy};
ghost use Rattle.std.specs.Ordering.{is_lt};
ghost use Rattle.links.specs.Tables.{is_under};
ghost use Rattle.links.specs.inner.Tables.{row_front, row_less};

use crate::key::Key;
use elem::Element;
use json_text::Text;
use std::alloc::{AllocError, Global};
use std::cmp::Ordering;
use std::marker::Model;

/// An element under an id.
#[derive(Drop)]
pub(crate) struct Row<'a> {
    pub(crate) key: Key<'a>,
    pub(crate) element: &'a Element,
}

/// Rows in order: by the fronts of their ids as numbers, then by their ids. The fronts stand beside
/// them, close together in memory, so that a search reads little of it. Contracts see the rows.
#[derive(Drop)]
pub(crate) struct Table<'a> {
    fronts: Vec<u64>,
    rows: Vec<Row<'a>>,
}

impl<'a> Model for Table<'a> {
    ghost use Rattle.std.specs.Prelude.{List};
    ghost use Rattle.links.specs.declared.table.Row.{Row};
    ghost use Rattle.links.specs.inner.Tables.{AreOrdered};

    ghost Value = { List Row };

    ghost view = { λ table. table.rows.items };

    ghost invariant = { λ table. AreOrdered table.fronts.items table.rows.items };
}

/// The table of these rows; those of one id stay in their order.
pub(crate) fn sorted<'a>(alloc: Global, mut rows: Vec<Row<'a>>) -> Result<Table<'a>, AllocError>
    ensures { IfOk result (λ table. (key : List ℕ) → filter (is_under key) table
        ≡ filter (is_under key) rows.entry.items) }
{
    rows.sort_by(by_key)?;
    let fronts = fronts_of(alloc, &rows)?;
    Ok(Table { fronts, rows })
}

/// The order of rows.
fn by_key(row: &Row<'_>, other: &Row<'_>) -> Ordering
    ensures { is_lt result ≡ row_less row.now other.now }
{
    row.key.order(&other.key)
}

/// The fronts of the ids of some rows.
fn fronts_of(alloc: Global, rows: &Vec<Row<'_>>) -> Result<Vec<u64>, AllocError>
    ensures { IfOk result (λ fronts. fronts.items ≡ map row_front rows.now.items) }
{
    let mut fronts = Vec::with_capacity(alloc, rows.len())?;
    for row in rows {
        fronts.push(row.key.front())?;
    }
    Ok(fronts)
}

/// The rows under an id. It takes no memory.
pub(crate) fn rows_under<'r, 'a>(table: &'r Table<'a>, id: &Text) -> &'r [Row<'a>]
    ensures { result.now ≡ filter (is_under id.now) table.now }
{
    let key = Key::of(id);
    let (start, end) = ends_of_front(&table.fronts, key.front());
    rows_among(&table.rows[start..end], &key)
}

/// Where the numbers that are this one start and end.
fn ends_of_front(fronts: &[u64], front: u64) -> (usize, usize)
    requires { IsNonDecreasing fronts.now }
    ensures ordered { result.0 ≤ result.1 }
    ensures within { result.1 ≤ length fronts.now }
    ensures start { IsPartitionPoint (λ other. other < front) (λ other. front ≤ other) fronts.now
        result.0 }
    ensures end_ { IsPartitionPoint (λ other. other ≤ front) (λ other. front < other) fronts.now
        result.1 }
{
    let start = fronts.partition_point(|other| *other < front);
    match fronts.get(start) {
        Some(other) if *other == front => {
            let end = fronts.partition_point(|other| *other <= front);
            (start, end)
        }
        _ => (start, start),
    }
}

/// The rows under an id among some rows.
fn rows_among<'r, 'a>(rows: &'r [Row<'a>], key: &Key<'_>) -> &'r [Row<'a>]
    requires { IsSortedBy row_less rows.now }
    ensures { result.now ≡ filter (is_under key.now) rows.now }
{
    let (start, end) = ends_under(rows, key);
    &rows[start..end]
}

/// Where the rows under an id start and end.
fn ends_under(rows: &[Row<'_>], key: &Key<'_>) -> (usize, usize)
    requires { IsSortedBy row_less rows.now }
    ensures ordered { result.0 ≤ result.1 }
    ensures within { result.1 ≤ length rows.now }
    ensures among { slice_range rows.now result.0 result.1 ≡ filter (is_under key.now) rows.now }
{
    let start = rows.partition_point(|row| row.key.order(key).is_lt());
    match rows.get(start) {
        Some(row) if row.key.order(key).is_le() => {
            let end = rows.partition_point(|row| row.key.order(key).is_le());
            (start, end)
        }
        _ => (start, start),
    }
}
