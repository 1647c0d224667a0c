//! The table of defaults.

ghost use Rattle.std.specs.Prelude.{◌≡◌, map, IfOk, IsOk, IfSome};
ghost use Rattle.std.specs.List.{AllByRecursion};
ghost use Rattle.json_text.specs.Value.{IsCompact};
ghost use Rattle.scene_json.specs.Named.{value_at};
ghost use Rattle.restore_table.specs.Table.{defaults};
ghost use Rattle.restore_table.specs.inner.Merged.{row_pair};

use json_text::{Raw, Text};
use std::alloc::{AllocError, Global};

/// A member that every element has: its name, and the compact text of its default.
pub(crate) struct Row {
    pub(crate) name: &'static str,
    pub(crate) default: &'static str,
}

/// The rows of the table, in the order of the bytes of the names.
static TABLE: [Row; 24] = [
    Row {
        name: "angle",
        default: "0",
    },
    Row {
        name: "backgroundColor",
        default: "\"transparent\"",
    },
    Row {
        name: "boundElements",
        default: "[]",
    },
    Row {
        name: "fillStyle",
        default: "\"solid\"",
    },
    Row {
        name: "frameId",
        default: "null",
    },
    Row {
        name: "groupIds",
        default: "[]",
    },
    Row {
        name: "height",
        default: "0",
    },
    Row {
        name: "index",
        default: "null",
    },
    Row {
        name: "isDeleted",
        default: "false",
    },
    Row {
        name: "link",
        default: "null",
    },
    Row {
        name: "locked",
        default: "false",
    },
    Row {
        name: "opacity",
        default: "100",
    },
    Row {
        name: "roughness",
        default: "1",
    },
    Row {
        name: "roundness",
        default: "null",
    },
    Row {
        name: "seed",
        default: "1",
    },
    Row {
        name: "strokeColor",
        default: "\"#1e1e1e\"",
    },
    Row {
        name: "strokeStyle",
        default: "\"solid\"",
    },
    Row {
        name: "strokeWidth",
        default: "2",
    },
    Row {
        name: "updated",
        default: "0",
    },
    Row {
        name: "version",
        default: "1",
    },
    Row {
        name: "versionNonce",
        default: "0",
    },
    Row {
        name: "width",
        default: "0",
    },
    Row {
        name: "x",
        default: "0",
    },
    Row {
        name: "y",
        default: "0",
    },
];

/// The rows of the table, in the order of the bytes of the names.
pub(crate) fn rows() -> &'static [Row]
    ensures rows { map row_pair result.now ≡ defaults }
    ensures compact { AllByRecursion (λ row. IsCompact 1 row.default.now) result.now }
{
    &TABLE
}

/// The default of the member with this name, if the table has one.
pub fn default_of(_alloc: Global, name: &Text) -> Result<Option<Raw>, AllocError>
    ensures sure { IsOk result }
    ensures value { IfOk result (λ found. found ≡ value_at name.now defaults) }
    ensures nests { IfOk result (λ found. IfSome found (IsCompact 1)) }
{
    for row in rows() {
        if name.as_bytes() == row.name.as_bytes() {
            return Ok(Some(Raw::fixed(row.default)));
        }
    }
    Ok(None)
}
