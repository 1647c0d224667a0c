//! JSON values that are made.

use board_base::List;
use json_text::{Raw, Text, push_quoted};
use members::push_member;
use scene_json::{push_whole, raw_array, raw_null, raw_text, raw_truth, raw_whole};
use std::alloc::Global;
use std::test::Fail;

/// The text of these bytes.
fn text(alloc: Global, bytes: &[u8]) -> Result<Text, Fail> {
    Ok(Text::read(alloc, bytes)?.ok_or("the bytes are UTF-8")?)
}

#[test]
fn values_are_made(rt: HostRuntime) -> Result<(), Fail> {
    let alloc = rt.alloc();
    let quoted = text(alloc, b"\"\\/\x08\t\n\x0c\r\x1f\x7f\xc3\xa9")?;
    let rows: [(Raw, &[u8]); 6] = [
        (raw_null(alloc)?, b"null"),
        (raw_array(alloc, &List::new(alloc))?, b"[]"),
        (raw_truth(alloc, true)?, b"true"),
        (raw_truth(alloc, false)?, b"false"),
        (
            raw_whole(alloc, 9_007_199_254_740_991)?,
            b"9007199254740991",
        ),
        (
            raw_text(alloc, &quoted)?,
            b"\"\\\"\\\\/\\b\\t\\n\\f\\r\\u001f\x7f\xc3\xa9\"",
        ),
    ];
    for (raw, wanted) in &rows {
        assert_eq!(rt; raw.as_bytes(), *wanted);
    }
    Ok(())
}

#[test]
fn values_are_appended(rt: HostRuntime) -> Result<(), Fail> {
    let alloc = rt.alloc();
    let mut out = Vec::new(alloc);
    push_quoted(&mut out, "a\"")?;
    push_whole(&mut out, 1050)?;
    push_member(&mut out, &Text::fixed("n"), &raw_null(alloc)?)?;
    assert_eq!(rt; out.as_slice(), b"\"a\\\"\"1050\"n\":null".as_slice());
    Ok(())
}
