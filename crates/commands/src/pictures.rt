//! What is told of the pictures of files.

ghost use Rattle.std.specs.Prelude.{◌≡◌, ◌++◌, ℕ, List as Items, IfOk, OnOk, string_bytes, codes};
ghost use Rattle.json_text.specs.Characters.{quote};
ghost use Rattle.json_text.specs.Members.{pairs};
ghost use Rattle.commands.specs.Faults.{newline};
ghost use Rattle.commands.specs.Pictures.{AreLines, IsToldOfPicture};

use board_base::{Bytes, List, Stop};
use file_table::{PictureFault, picture_size};
use json_text::{Member, Raw, push_quote};
use std::alloc::{AllocError, Global};

/// A line on each file: its id as a string, a space, and what is told of its picture.
pub(crate) fn picture_lines(alloc: Global, files: &List<Member>) -> Result<Bytes, AllocError>
    ensures { IfOk result (AreLines (pairs files.now)) }
{
    let mut lines = Vec::new(alloc);
    for file in files.as_slice() {
        push_line(alloc, &mut lines, file)?;
    }
    Ok(Bytes::from_vec(lines))
}

/// Appends the line on a file.
fn push_line(alloc: Global, lines: &mut Vec<u8>, file: &Member) -> Result<(), AllocError>
    ensures { OnOk result ((told : Items ℕ) × IsToldOfPicture file.now.value told
        × (lines.new.items ≡ lines.old.items
        ++ (quote file.now.name ++ (codes " " ++ (told ++ newline))))) }
{
    let told = told(alloc, &file.value)?;
    push_quote(lines, &file.name)?;
    lines.push(b' ')?;
    lines.extend_from_slice(told.as_bytes())?;
    lines.push(b'\n')?;
    Ok(())
}

/// What is told of an entry's picture: how many bytes it has, or why there is none.
fn told(alloc: Global, entry: &Raw) -> Result<String, AllocError>
    ensures { IfOk result (λ told. IsToldOfPicture entry.now (string_bytes told)) }
{
    match picture_size(alloc, entry) {
        Ok(size) => size.to_string(alloc),
        Err(Stop::Fault(PictureFault::Base64)) => String::from_str(alloc, "not base64"),
        Err(Stop::Fault(PictureFault::NoDataUrl)) => String::from_str(alloc, "no data url"),
        Err(Stop::Memory) => Err(AllocError),
    }
}
