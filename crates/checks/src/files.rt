//! The lines on files that no image shows.

ghost use Rattle.std.specs.Prelude.{◌≡◌, ◌∷◌, [], ◌++◌, List as Items, IfOk, OnOk};
ghost use Rattle.json_text.specs.Members.{pair_of, pairs};
ghost use Rattle.elem.specs.ElementValue.{ElementValue};
ghost use Rattle.file_table.specs.References.{references};
ghost use Rattle.checks.specs.inner.Named.{AreNamed};
ghost use Rattle.checks.specs.Lines.{file_line, file_lines};

use board_base::List;
use elem::Element;
use json_text::{Member, Text, push_quote};
use std::alloc::{AllocError, Global};
use std::collections::BTreeSet;

/// Appends a line on each file that no shown element names.
pub(crate) fn push_files(
    alloc: Global,
    out: &mut Vec<u8>,
    shown: &[Element],
    files: &List<Member>,
) -> Result<(), AllocError>
    ensures { OnOk result
        (out.new.items ≡ out.old.items ++ file_lines shown.now (pairs files.now)) }
{
    let named = names_in(alloc, shown)?;
    for file in files.as_slice() {
        push_file(out, &named, file)?;
    }
    Ok(())
}

/// The ids of the files that elements name.
fn names_in(alloc: Global, shown: &[Element]) -> Result<BTreeSet<Text>, AllocError>
    ensures { IfOk result (λ named. AreNamed named shown.now) }
{
    let mut named = BTreeSet::new(alloc);
    for e in shown {
        add_name(&mut named, e)?;
    }
    Ok(named)
}

/// Adds the id of the file that an element names, if it names one.
fn add_name(named: &mut BTreeSet<Text>, e: &Element) -> Result<(), AllocError>
    ensures { OnOk result ((elements : Items ElementValue) → AreNamed named.old elements
        → AreNamed named.new (elements ++ e.now ∷ [])) }
{
    match &e.file {
        Some(file) => {
            named.insert(file.try_clone()?)?;
            Ok(())
        }
        None => Ok(()),
    }
}

/// Appends the line on a file, if it isn't among those that are named.
fn push_file(out: &mut Vec<u8>, named: &BTreeSet<Text>, file: &Member) -> Result<(), AllocError>
    ensures { OnOk result ((elements : Items ElementValue) → AreNamed named.now elements
        → out.new.items ≡ out.old.items ++ file_line (references elements) (pair_of file.now)) }
{
    if named.contains(&file.name) {
        return Ok(());
    }
    out.extend_from_slice(b"file ")?;
    push_quote(out, &file.name)?;
    out.extend_from_slice(b": not shown\n")
}
