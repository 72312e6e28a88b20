//! The texts that are to be sent.
ghost use Rattle.std.specs.Prelude.{◌≡◌, ◌≤◌, ◌+◌, ◌++◌, [], length, IfOk};
ghost use Rattle.flv_tags.specs.Text.{flv_text, item_bytes};
ghost use Rattle.http_request.specs.Texts.{granted_text, text_of};
ghost use Rattle.stream_model.specs.Held.{body_of};

use av_unit::{Bytes, Item, OutOfMemory};
use flv_tags::{write_header, write_item};
use http_request::{Refusal, ok_text, refusal_text};
use std::alloc::Global;

/// Returns the text of a refusal.
pub(crate) fn no_text(alloc: Global, refusal: Refusal) -> Result<Bytes, OutOfMemory>
    ensures text { IfOk result (λ b. b ≡ text_of refusal) }
    ensures short { IfOk result (λ b. length b ≤ 256) }
{
    let mut bytes = Bytes::new(alloc);
    bytes.append(refusal_text(refusal))?;
    Ok(bytes)
}

/// Returns the text that the request is granted, and the header of an FLV.
pub(crate) fn yes_text(alloc: Global) -> Result<Bytes, OutOfMemory>
    ensures text { IfOk result (λ b. b ≡ granted_text ++ flv_text []) }
    ensures short { IfOk result (λ b. length b ≤ 256) }
{
    let mut bytes = Bytes::new(alloc);
    bytes.append(ok_text())?;
    write_header(&mut bytes)?;
    Ok(bytes)
}

// Returns the number of bytes of an item's unit, or 0 for a marker.
fn body_len(item: &Item) -> usize
    ensures value { result ≡ body_of item.now }
    ensures most { result ≤ 4194304 }
{
    match item {
        Item::Unit(shared) => shared.unit().body.len(),
        Item::Begin => 0,
        Item::End => 0,
    }
}

/// Returns the tag of an item; a marker has none. A unit of more than `longest` bytes is refused as out of
/// memory.
pub(crate) fn tag_text(alloc: Global, longest: u32, item: &Item) -> Result<Bytes, OutOfMemory>
    ensures text { IfOk result (λ b. b ≡ item_bytes item.now) }
    ensures short { IfOk result (λ b. length b ≤ longest + 256) }
{
    if body_len(item) > longest as usize {
        return Err(OutOfMemory);
    }
    let mut bytes = Bytes::new(alloc);
    write_item(item, &mut bytes)?;
    Ok(bytes)
}
