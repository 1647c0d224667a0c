//! The text of what is shown.

ghost use Rattle.std.specs.Prelude.{IfOk};
ghost use Rattle.index_repair.specs.Keyed.{HaveRisingKeys};
ghost use Rattle.view.specs.Shown.{shown};
ghost use Rattle.scene_file.specs.Texts.{IsSceneText};

use board_base::Bytes;
use scene_file::{Head, Layout, elements_text};
use std::alloc::{AllocError, Global};
use view::View;

/// The text of the scene of what a view shows, under this head, in this layout; no line feed ends
/// it. Fails only for want of memory.
pub fn scene_text(
    alloc: Global,
    head: &Head,
    view: &View,
    layout: Layout,
) -> Result<Bytes, AllocError>
    ensures text { IfOk result (IsSceneText layout head.now (shown view.now)) }
    ensures rise { IfOk result (λ _. HaveRisingKeys (shown view.now)) }
{
    elements_text(alloc, head, view.elements(), layout)
}
