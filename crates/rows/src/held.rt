//! A list is taken into a store, but for what is held.

use crate::samples::framed;
use elem::Element;
use elem_store::Store;
use json_text::Text;
use reconcile::{Held, reconcile};
use std::alloc::Global;
use std::test::Fail;

/// Four rectangles of three ids.
fn updates(alloc: Global) -> Result<Vec<Element>, Fail> {
    let mut updates = Vec::new(alloc);
    for (id, version) in [("c", 1), ("b", 7), ("a", 2), ("c", 3)] {
        updates.push(framed(alloc, id, (version, "f", false))?)?;
    }
    Ok(updates)
}

/// The version of what is stored of this id, 0 where there is nothing.
fn version_of(store: &Store, id: &'static str) -> u64 {
    match store.get(&Text::fixed(id)) {
        Some(e) => e.version,
        None => 0,
    }
}

#[test]
fn what_is_not_held_is_taken(rt: HostRuntime) -> Result<(), Fail> {
    let alloc = rt.alloc();
    let updates = updates(alloc)?;
    let mut store = Store::new(alloc);
    let mut held = Held::new(alloc);
    let b = Text::fixed("b");
    held.add(&b)?;
    held.add(&b)?;
    assert!(rt; held.has(&b));
    assert_eq!(rt; reconcile(alloc, &mut store, updates.as_slice(), &held)?, 3);
    for (id, version) in [("a", 2), ("b", 0), ("c", 3)] {
        assert_eq!(rt; version_of(&store, id), version);
    }
    held.drop_id(&b);
    assert!(rt; !held.has(&b));
    assert_eq!(rt; reconcile(alloc, &mut store, updates.as_slice(), &held)?, 4);
    assert_eq!(rt; version_of(&store, "b"), 7);
    assert_eq!(rt; store.len(), 3);
    Ok(())
}
