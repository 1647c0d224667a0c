//! Members in text.

ghost use Rattle.std.specs.Prelude.{◌≡◌, ◌++◌, OnOk, OnErr};
ghost use Rattle.std.specs.Str.{IsUtf8};
ghost use Rattle.json_text.specs.Appending.{Extends};
ghost use Rattle.json_text.specs.Compact.{member_text};

use json_text::{Raw, Text, push_quote, whole_or_cut};
use std::alloc::AllocError;

/// Appends a member: its quoted name, a colon and its value. For want of memory nothing is
/// appended.
#[inline(always)]
pub fn push_member(out: &mut Vec<u8>, name: &Text, value: &Raw) -> Result<(), AllocError>
    ensures ok { OnOk result (out.new.items ≡ out.old.items ++ member_text (name.now, value.now)) }
    ensures err { OnErr result (out.new.items ≡ out.old.items) }
    ensures utf8 { IsUtf8 name.now }
{
    let start = out.len();
    let appended = push_member_parts(out, name, value);
    whole_or_cut(out, start, appended)
}

/// Appends a member. After want of memory a part of it may stand there.
#[inline(always)]
fn push_member_parts(out: &mut Vec<u8>, name: &Text, value: &Raw) -> Result<(), AllocError>
    ensures ok { OnOk result (out.new.items ≡ out.old.items ++ member_text (name.now, value.now)) }
    ensures kept { OnErr result (Extends out.old.items out.new.items) }
    ensures utf8 { IsUtf8 name.now }
{
    push_quote(out, name)?;
    out.push(b':')?;
    out.extend_from_slice(value.as_bytes())
}
