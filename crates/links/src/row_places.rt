//! Rows in order, their named ids and their namers side by side.

ghost use Rattle.std.specs.Prelude.{◌≡◌, ◌<◌, ◌≤◌, List as Items, not, ◌&&◌, insert, filter, length, IfOk, IfErr, vec_len, vec_capacity};
ghost use Rattle.std.specs.List.Sorted.{IsSortedBy};
ghost use Rattle.frac_keys.specs.Keys.{bytes_less};
ghost use Rattle.links.specs.Rows.{is_namer, rows_at, AreRows};
ghost use Rattle.links.specs.inner.Rows.{AreEndsOf, IsRowAt, IsGapFor};

use crate::rows::LinkRow;
use json_text::Text;

/// Where an id starts and ends among ids in order.
pub(crate) fn ends_of(ids: &Vec<Text>, id: &Text) -> (usize, usize)
    requires { IsSortedBy bytes_less ids.now.items }
    ensures { AreEndsOf ids.now.items id.now result.0 result.1 }
{
    let start = ids.partition_point(|other| other.cmp(id).is_lt());
    let end = ids.partition_point(|other| other.cmp(id).is_le());
    (start, end)
}

/// The index of a row, or the one that it would have.
pub(crate) fn place_of(named: &Vec<Text>, namers: &Vec<Text>, row: &LinkRow) -> Result<usize, usize>
    requires { AreRows named.now.items namers.now.items }
    ensures found { IfOk result (IsRowAt (rows_at named.now.items namers.now.items) row.now) }
    ensures absent { IfErr result (IsGapFor (rows_at named.now.items namers.now.items) row.now) }
{
    let (start, end) = ends_of(named, &row.named);
    match namers[start..end].binary_search(&row.namer) {
        Ok(i) => Ok(start + i),
        Err(i) => Err(start + i),
    }
}

/// Inserts a text where there is room for it.
pub(crate) fn insert(texts: &mut Vec<Text>, i: usize, text: Text)
    requires place { i ≤ length texts.old.items }
    requires room { vec_len texts.old < vec_capacity texts.old }
    ensures items { texts.new.items ≡ insert texts.old.items i text }
    ensures room { vec_capacity texts.old ≤ vec_capacity texts.new }
{
    if texts.insert(i, text).is_err() {
        unreachable!()
    }
}

/// Takes out every row with this namer.
pub(crate) fn take_out_namer(named: &mut Vec<Text>, namers: &mut Vec<Text>, id: &Text)
    requires { AreRows named.old.items namers.old.items }
    ensures rows { rows_at named.new.items namers.new.items
        ≡ filter (λ row. not (is_namer id.now row)) (rows_at named.old.items namers.old.items) }
    ensures are { AreRows named.new.items namers.new.items }
    ensures len { vec_len named.new ≤ vec_len named.old }
    ensures room { (vec_capacity named.new ≡ vec_capacity named.old)
        × (vec_capacity namers.new ≡ vec_capacity namers.old) }
{
    let mut i = 0;
    while i < namers.len() {
        if *id == namers[i] {
            named.remove(i);
            namers.remove(i);
        } else {
            i += 1;
        }
    }
}
