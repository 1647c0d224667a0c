//! A table of who names whom.

ghost use Rattle.std.specs.Prelude.{◌≤◌, length, IsTrue};

use crate::samples::element;
use board_base::List;
use json_text::Text;
use links::{LinkRow, LinkTable, rows_of};
use std::alloc::Global;
use std::test::Fail;

/// An arrow with both ends at one element.
const ARROW: &str =
    r#"{"id":"w","type":"arrow","startBinding":{"elementId":"b"},"endBinding":{"elementId":"b"}}"#;

/// A table that has the row of an arrow.
fn table_of(alloc: Global) -> Result<LinkTable, Fail> {
    let arrow = element(alloc, ARROW)?;
    let rows = rows_of(alloc, &arrow)?;
    let mut table = LinkTable::new(alloc);
    table.reserve(1)?;
    if rows.as_slice().len() > 1 {
        return Err(Fail::from("more than one row"));
    }
    table.change(&arrow.id, rows);
    Ok(table)
}

#[test]
fn a_namer_is_changed(rt: HostRuntime) -> Result<(), Fail> {
    let (w, b) = (Text::fixed("w"), Text::fixed("b"));
    let mut table = table_of(rt.alloc())?;
    let namers = table.namers(&b);
    assert!(rt; namers.len() == 1 && namers[0] == w);
    table.change(&w, List::new(rt.alloc()));
    assert_eq!(rt; table.namers(&b).len(), 0);
    Ok(())
}
