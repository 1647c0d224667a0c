//! Elements by their texts.

use elem::Element;
use elem_read::read_element;
use json_reader::scan;
use json_text::Text;
use std::alloc::{AllocError, Global};
use std::test::Fail;

/// The element that this text is read as.
pub(crate) fn element(alloc: Global, text: &str) -> Result<Element, Fail> {
    let (value, _end) = scan(alloc, text.as_bytes(), 0)?;
    Ok(read_element(alloc, &value)?.ok_or("an element")?)
}

/// The rectangle of this id, version and frame, in which nothing else is told.
pub(crate) fn framed(
    alloc: Global,
    id: &str,
    (version, frame, deleted): (u64, &str, bool),
) -> Result<Element, Fail> {
    let text = format!(in alloc;
        "{{\"id\":\"{id}\",\"type\":\"rectangle\",\"version\":{version},\"frameId\":\"{frame}\",\"isDeleted\":{deleted}}}"
    )?;
    element(alloc, text.as_str())
}
