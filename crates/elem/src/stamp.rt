//! The stamp of a change.

ghost use Rattle.std.specs.Prelude.{◌≤◌};
ghost use Rattle.elem.specs.Facts.{greatest_whole};

/// What a change sets beside the version of each element that it changes: its time, and the nonce
/// that decides between two changes of one version. Both are within the limit of an element's
/// numbers.
#[derive(Clone, Copy, Debug)]
pub struct Stamp {
    pub time: u64,
    pub nonce: u64,
    pub ghost early: { time ≤ greatest_whole },
    pub ghost small: { nonce ≤ greatest_whole },
}
