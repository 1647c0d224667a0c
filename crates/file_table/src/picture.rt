//! The size of a picture.

ghost use Rattle.std.specs.Prelude.{◌≡◌, ◌≢◌, ℕ, List as Items, ◌∷◌, ◌++◌, true, false, ◌==◌, length, Ok, Err, MatchOption, IfOk, codes};
ghost use Rattle.std.specs.List.{list_any};
ghost use Rattle.base64.specs.Engines.{standard};
ghost use Rattle.base64.specs.GeneralPurpose.{decode_of};
ghost use Rattle.scene_json.specs.TheOne.{IsTheOne};
ghost use Rattle.file_table.specs.Picture.{IsDataUrl, HasUrl, HasData, IsPictureSize};

use base64::DecodeAllocError;
use base64::engine::general_purpose::STANDARD;
use board_base::Stop;
use json_text::{Raw, Text};
use scene_json::{members, shaped, text_named};
use std::alloc::{AllocError, Global};

/// Why a file's entry has no picture whose size can be told.
#[derive(Clone, Copy, Debug, PartialEq, Eq)]
pub enum PictureFault {
    /// It is no object whose `dataURL` is a text that begins with `data:`, has a comma, and has
    /// `;base64` directly before the first comma.
    NoDataUrl,
    /// What follows that comma isn't padded base64.
    Base64,
}

/// How many bytes the picture of a file's entry has, as the base64 text in its data URL tells.
pub fn picture_size(alloc: Global, entry: &Raw) -> Result<u64, Stop<PictureFault>>
    ensures size { IfOk result (IsPictureSize entry.now) }
    ensures only { IfOk result (λ size. (other : ℕ) → IsPictureSize entry.now other
        → other ≡ size) }
    ensures no_data_url { result ≡ Err (Stop.Fault PictureFault.NoDataUrl)
        → (content : Items ℕ) → HasData entry.now content → ⊥ }
    ensures base64 { result ≡ Err (Stop.Fault PictureFault.Base64) → (content : Items ℕ)
        × HasData entry.now content
        × ((size : ℕ) → IsPictureSize entry.now size → ⊥) }
{
    let Some(url) = url_of(alloc, entry)? else {
        return Err(Stop::Fault(PictureFault::NoDataUrl));
    };
    let Some(content) = content_of(url.as_bytes()) else {
        return Err(Stop::Fault(PictureFault::NoDataUrl));
    };
    decoded_size(alloc, content)
}

/// How many bytes a base64 text decodes to.
fn decoded_size(alloc: Global, content: &[u8]) -> Result<u64, Stop<PictureFault>>
    ensures size { IfOk result (λ size. (bytes : Items ℕ)
        × (decode_of standard content.now ≡ Ok bytes)
        × (size ≡ length bytes)) }
    ensures never { result ≢ Err (Stop.Fault PictureFault.NoDataUrl) }
    ensures base64 { result ≡ Err (Stop.Fault PictureFault.Base64) → (bytes : Items ℕ)
        → decode_of standard content.now ≢ Ok bytes }
{
    match STANDARD.decode(alloc, content) {
        Ok(bytes) => Ok(bytes.len() as u64),
        Err(DecodeAllocError::DecodeError(_)) => Err(Stop::Fault(PictureFault::Base64)),
        Err(DecodeAllocError::OutOfMemory) => Err(Stop::Memory),
    }
}

/// The text of the member `dataURL`, if the entry is an object that has one.
fn url_of(alloc: Global, entry: &Raw) -> Result<Option<Text>, AllocError>
    ensures { IfOk result (IsTheOne (HasUrl entry.now)) }
{
    let Some(members) = shaped(members(alloc, entry))? else {
        return Ok(None);
    };
    text_named(alloc, &members, "dataURL")
}

/// The data of a data URL in base64, if the text is one.
fn content_of(url: &[u8]) -> Option<&[u8]>
    ensures { MatchOption result ((content : Items ℕ) → IsDataUrl url.now content → ⊥)
        (λ content. IsDataUrl url.now content.now) }
{
    let rest = after_scheme(url)?;
    let (head, content) = around_comma(rest)?;
    if is_base64(head) { Some(content) } else { None }
}

/// What follows `data:`, if the text begins with it.
fn after_scheme(url: &[u8]) -> Option<&[u8]>
    ensures { MatchOption result ((rest : Items ℕ) → url.now ≢ codes "data:" ++ rest)
        (λ rest. url.now ≡ codes "data:" ++ rest.now) }
{
    url.strip_prefix(b"data:")
}

/// What stands before the first comma and behind it, if there is one.
fn around_comma(text: &[u8]) -> Option<(&[u8], &[u8])>
    ensures { MatchOption result (list_any (λ byte. byte == 44) text.now ≡ false)
        (λ parts. (text.now ≡ parts.0.now ++ 44 ∷ parts.1.now)
        × (list_any (λ byte. byte == 44) parts.0.now ≡ false)) }
{
    for (i, byte) in text.iter().enumerate() {
        if *byte == b',' {
            let (head, rest) = text.split_at(i);
            let (_comma, content) = rest.split_at(1);
            return Some((head, content));
        }
    }
    None
}

/// Whether the text ends with `;base64`.
fn is_base64(head: &[u8]) -> bool
    ensures yes { result ≡ true → (media : Items ℕ) × (head.now ≡ media ++ codes ";base64") }
    ensures no { result ≡ false → (media : Items ℕ) → head.now ≢ media ++ codes ";base64" }
{
    head.ends_with(b";base64")
}
