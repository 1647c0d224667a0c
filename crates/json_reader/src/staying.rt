//! Stretches of bytes that leave the machine as it is.

ghost use Rattle.std.specs.Prelude.{◌≡◌, ◌-◌, ◌≤◌, take, drop, length};
ghost use Rattle.std.specs.List.{AllByRecursion};
ghost use Rattle.json_reader.specs.inner.Machine.{moved};
ghost use Rattle.json_reader.specs.inner.Writing.{AreAlike};
ghost use Rattle.json_reader.specs.declared.machine.Move.TheVariants.{To};

use crate::brackets::Bracket;
use crate::machine::{Mode, Place};
use json_text::{bare_end, skip_space};

/// What stands around a stretch.
#[derive(Clone, Copy)]
pub(crate) enum Ground {
    /// A string.
    Quoted,
    /// No string.
    Between,
}

/// Where a stretch from `at` on ends whose bytes all leave the mode as it is: plain characters of a
/// string, or white space outside strings.
#[inline(always)]
pub(crate) fn stay_end(
    mode: Mode,
    top: Option<Bracket>,
    ground: Ground,
    bytes: &[u8],
    at: usize,
) -> usize
    requires { at ≤ length bytes.now }
    ensures within { (at ≤ result) × (result ≤ length bytes.now) }
    ensures stays { AllByRecursion (λ b. moved mode top b ≡ To mode)
        (take (result - at) (drop at bytes.now)) }
    ensures alike { AreAlike ground (take (result - at) (drop at bytes.now)) }
{
    match (ground, mode) {
        (Ground::Quoted, Mode::Quoted(_, Place::Plain)) => bare_end(bytes, at),
        (Ground::Between, Mode::Value | Mode::Name | Mode::Colon) => skip_space(bytes, at),
        (Ground::Between, Mode::Fresh | Mode::After) if top.is_some() => skip_space(bytes, at),
        _ => at,
    }
}
