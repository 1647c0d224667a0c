//! The ids of elements that were stored since the last capture.

ghost use Rattle.std.specs.Prelude.{◌≡◌, [], OnOk};
ghost use Rattle.snapshot.specs.Touched.{HasTouched, StillTouches, TouchesOnly};
ghost use Rattle.snapshot.specs.inner.Touched.{IsTouched, TouchesNoOther};

use elem::Element;
use json_text::Text;
use std::alloc::{AllocError, Global};
use std::collections::BTreeSet;
use std::marker::Model;

/// The ids of elements that may be stored otherwise than a snapshot has them, each once, in the
/// order of their bytes.
#[derive(Drop)]
pub struct Touched {
    pub(crate) ids: BTreeSet<Text>,
}

impl Model for Touched {
    ghost use Rattle.std.specs.Prelude.{List, ℕ};

    ghost Value = { List (List ℕ) };

    ghost view = { λ t. t.ids.keys };
}

impl Touched {
    /// With no id.
    pub fn new(alloc: Global) -> Touched
        ensures { result ≡ [] }
    {
        Touched {
            ids: BTreeSet::new(alloc),
        }
    }

    /// Adds the ids of elements. For want of memory some of them may be added; none goes, and no
    /// other one comes.
    pub fn touch(&mut self, list: &[Element]) -> Result<(), AllocError>
        ensures touched { OnOk result (HasTouched self.old list.now self.new) }
        ensures kept { StillTouches self.old self.new }
        ensures only { TouchesOnly self.old list.now self.new }
    {
        touch_all(&mut self.ids, list)
    }

    /// With no id any more. It takes no memory.
    pub fn clear(&mut self)
        ensures { self.new ≡ [] }
    {
        self.ids.clear();
    }
}

/// Adds the ids of elements, one after another.
fn touch_all(ids: &mut BTreeSet<Text>, list: &[Element]) -> Result<(), AllocError>
    ensures touched { OnOk result (HasTouched ids.old.keys list.now ids.new.keys) }
    ensures kept { StillTouches ids.old.keys ids.new.keys }
    ensures only { TouchesOnly ids.old.keys list.now ids.new.keys }
{
    for e in list {
        touch_id(ids, &e.id)?;
    }
    Ok(())
}

/// Adds an id.
fn touch_id(ids: &mut BTreeSet<Text>, id: &Text) -> Result<(), AllocError>
    ensures touched { OnOk result (IsTouched ids.old.keys id.now ids.new.keys) }
    ensures kept { StillTouches ids.old.keys ids.new.keys }
    ensures only { TouchesNoOther ids.old.keys id.now ids.new.keys }
{
    ids.insert(id.try_clone()?)?;
    Ok(())
}
