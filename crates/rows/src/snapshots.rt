//! What has changed since a snapshot was taken.

ghost use Rattle.std.specs.Prelude.{◌≡◌, IsTrue};

use crate::samples::framed;
use delta::{Change, Entry};
use elem::Element;
use elem_store::Store;
use snapshot::Snapshot;
use std::alloc::Global;
use std::test::Fail;

/// Takes an update.
fn take(store: &mut Store, e: Element) -> Result<(), Fail> {
    match store.take(e) {
        Ok(_) => Ok(()),
        Err(_) => Err(Fail::from("memory")),
    }
}

/// Carries an update into the snapshot, and takes it.
fn deliver(snapshot: &mut Snapshot, store: &mut Store, e: Element) -> Result<(), Fail> {
    carry(snapshot, store.get(&e.id), &e)?;
    take(store, e)
}

/// Carries an update into the snapshot.
fn carry(snapshot: &mut Snapshot, old: Option<&Element>, new: &Element) -> Result<(), Fail> {
    match old {
        Some(old) if !is_of_one_id(old, new) => Err(Fail::from("another id")),
        _ => Ok(snapshot.carry(old, new)?),
    }
}

/// Whether two elements have one id.
fn is_of_one_id(old: &Element, new: &Element) -> bool
    ensures { IsTrue result → old.now.id ≡ new.now.id }
{
    old.id.as_bytes() == new.id.as_bytes()
}

/// Whether an entry has one part, which changes the frame of this element alone.
fn changes_the_frame_alone(entry: &Entry, id: &str) -> bool {
    let [part] = entry.parts.as_slice() else {
        return false;
    };
    let [change] = part.changes.as_slice() else {
        return false;
    };
    match change {
        Change::Scalar { name, .. } => {
            part.id.as_bytes() == id.as_bytes() && name.as_bytes() == b"frameId".as_slice()
        }
        _ => false,
    }
}

/// A store and its snapshot: "a" was captured, and then put into another frame.
fn framed_anew(alloc: Global) -> Result<(Store, Snapshot), Fail> {
    let (mut store, mut snapshot) = (Store::new(alloc), Snapshot::new(alloc));
    take(&mut store, framed(alloc, "a", (1, "f", false))?)?;
    snapshot.capture(&store)?;
    take(&mut store, framed(alloc, "a", (2, "g", false))?)?;
    Ok((store, snapshot))
}

#[test]
fn what_is_pending_is_told(rt: HostRuntime) -> Result<(), Fail> {
    let (store, mut snapshot) = framed_anew(rt.alloc())?;
    let pending = snapshot.pending(&store)?;
    assert!(rt; pending.as_slice().len() == 1);
    assert!(rt; pending.as_slice()[0].as_bytes() == b"a".as_slice());
    snapshot.capture(&store)?;
    assert_eq!(rt; snapshot.pending(&store)?.as_slice().len(), 0);
    Ok(())
}

#[test]
fn what_is_carried_is_no_part_of_a_capture(rt: HostRuntime) -> Result<(), Fail> {
    let alloc = rt.alloc();
    let (mut store, mut snapshot) = framed_anew(alloc)?;
    for (id, version, frame, deleted) in [("a", 3, "g", true), ("b", 1, "f", false)] {
        let e = framed(alloc, id, (version, frame, deleted))?;
        deliver(&mut snapshot, &mut store, e)?;
    }
    let entry = snapshot.capture(&store)?;
    assert!(rt; changes_the_frame_alone(&entry, "a"));
    Ok(())
}
