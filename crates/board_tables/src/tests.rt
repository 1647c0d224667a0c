//! Tests of tables over memory: that they answer at all, and what a stop leaves.

use crate::memory::{CommitFault, MemTables};
use crate::tables::{Reopen, TableError, Tables};
use elem::Element;
use elem_read::read_element;
use json_reader::scan;
use json_text::Text;
use std::alloc::Global;
use std::test::Fail;

/// The element that is put.
const BOX: &str = r#"{"id":"box","type":"rectangle"}"#;

/// The element.
fn element(alloc: Global) -> Result<Element, Fail> {
    let (value, _end) = scan(alloc, BOX.as_bytes(), 0)?;
    Ok(read_element(alloc, &value)?.ok_or("an element")?)
}

/// Why a test ends if the tables failed.
fn failed(_error: TableError) -> Fail {
    Fail::from("the tables failed")
}

/// How many elements a board has, if there is one.
fn count(alloc: Global, tables: &mut MemTables, name: &str) -> Result<Option<usize>, Fail> {
    let found = tables.stored(alloc, &Text::from_str(alloc, name)?);
    match found.map_err(failed)? {
        Some(board) => Ok(Some(board.elements.as_slice().len())),
        None => Ok(None),
    }
}

#[test]
fn what_was_committed_is_found_alone(rt: HostRuntime) -> Result<(), Fail> {
    let alloc = rt.alloc();
    let mut tables = MemTables::new(alloc, None);
    tables
        .put(&Text::fixed("one"), &element(alloc)?)
        .map_err(failed)?;
    tables.commit().map_err(failed)?;
    tables
        .put(&Text::fixed("other"), &element(alloc)?)
        .map_err(failed)?;
    assert_eq!(rt; count(alloc, &mut tables, "other")?, Some(1));
    tables.reopen().map_err(failed)?;
    assert_eq!(rt; count(alloc, &mut tables, "one")?, Some(1));
    assert_eq!(rt; count(alloc, &mut tables, "other")?, None);
    Ok(())
}

#[test]
fn a_failed_commit_may_be_found(rt: HostRuntime) -> Result<(), Fail> {
    let alloc = rt.alloc();
    let fault = CommitFault {
        after: 0,
        lasts: true,
    };
    let mut tables = MemTables::new(alloc, Some(fault));
    tables
        .put_head(alloc, &Text::fixed("one"), b"{}")
        .map_err(failed)?;
    assert!(rt; tables.commit().is_err());
    assert!(rt; tables.drop_board(&Text::fixed("one")).is_err());
    tables.reopen().map_err(failed)?;
    assert_eq!(rt; count(alloc, &mut tables, "one")?, Some(0));
    Ok(())
}
