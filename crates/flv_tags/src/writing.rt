ghost use Rattle.std.specs.Prelude.{◌≡◌, ◌≤◌, ◌++◌, List, ℕ, length, OnOk, OnErr, true};
ghost use Rattle.flv_tags.specs.Layout.{is_kind, most_bytes};
ghost use Rattle.flv_tags.specs.Written.{IsWritable, back_bytes, head_bytes, header, tag_bytes};
ghost use Rattle.flv_tags.specs.Text.{item_bytes};

use crate::Tag;
use av_unit::{Bytes, Item, OutOfMemory, message_kind};

/// The header that is written: flags of audio and video, and no tag before the first (E.2, E.3).
pub(crate) const HEADER: &[u8; 13] = b"FLV\x01\x05\x00\x00\x00\x09\x00\x00\x00\x00";

// The bytes of a tag's header, and of a tag without its body but with the number that follows it.
const HEAD: u32 = 11;

const AROUND_BODY: usize = 15;

/// Appends the header of a file (E.2) and the four zero bytes before its first tag (E.3). A refusal changes nothing.
pub fn write_header(out: &mut Bytes) -> Result<(), OutOfMemory>
    ensures ok { OnOk result (out.new ≡ out.old ++ header) }
    ensures err { OnErr result (out.new ≡ out.old) }
{
    out.append(HEADER)
}

// Appends the header of a tag (E.4.1).
#[tactic(auto, unfolding(crate::specs::Written::head_bytes))]
fn write_head(kind: u8, time: u32, size: u32, out: &mut Bytes) -> Result<(), OutOfMemory>
    ensures ok { OnOk result (out.new ≡ out.old ++ head_bytes kind time size) }
    ensures err { OnErr result (out.new ≡ out.old) }
{
    let [_, a, b, c] = size.to_be_bytes();
    let [high, d, e, f] = time.to_be_bytes();
    out.append(&[kind, a, b, c, d, e, f, high, 0, 0, 0])
}

// Appends the number of a tag's bytes.
#[tactic(auto, unfolding(crate::specs::Written::back_bytes))]
fn write_back(size: u32, out: &mut Bytes) -> Result<(), OutOfMemory>
    requires { size ≤ most_bytes }
    ensures ok { OnOk result (out.new ≡ out.old ++ back_bytes size) }
    ensures err { OnErr result (out.new ≡ out.old) }
{
    out.append(&(size + HEAD).to_be_bytes())
}

// Appends a tag, or a part of one.
fn append_tag(kind: u8, time: u32, body: &[u8], out: &mut Bytes) -> Result<(), OutOfMemory>
    requires fits { length body.now ≤ most_bytes }
    ensures ok { OnOk result (out.new ≡ out.old ++ (head_bytes kind time (length body.now) ++ (body.now ++ back_bytes (length body.now)))) }
    ensures err { OnErr result ((rest : List ℕ) × (out.new ≡ out.old ++ rest)) }
{
    let size = body.len() as u32;
    out.reserve(body.len() + AROUND_BODY)?;
    write_head(kind, time, size, out)?;
    out.append(body)?;
    write_back(size, out)
}

/// Appends the tag of this type, time in milliseconds and body (E.4.1), with stream id 0, and the number of its bytes
/// (E.3). A refusal changes nothing.
pub fn write_body(kind: u8, time: u32, body: &[u8], out: &mut Bytes) -> Result<(), OutOfMemory>
    requires kind { is_kind kind ≡ true }
    requires fits { length body.now ≤ most_bytes }
    ensures ok { OnOk result (out.new ≡ out.old ++ tag_bytes (record { kind = kind; time = time; body = body.now })) }
    ensures err { OnErr result (out.new ≡ out.old) }
{
    let before = out.len();
    match append_tag(kind, time, body, out) {
        Ok(()) => Ok(()),
        Err(fail) => {
            out.truncate(before);
            Err(fail)
        }
    }
}

/// Appends the tag (E.4.1), with stream id 0, and the number of its bytes (E.3). A refusal changes nothing.
pub fn write_tag(tag: &Tag, out: &mut Bytes) -> Result<(), OutOfMemory>
    requires { IsWritable tag.now }
    ensures ok { OnOk result (out.new ≡ out.old ++ tag_bytes tag.now) }
    ensures err { OnErr result (out.new ≡ out.old) }
{
    write_body(tag.kind, tag.time, tag.body.as_slice(), out)
}

/// Appends the tag of an item's unit; a marker writes nothing. A refusal changes nothing.
pub fn write_item(item: &Item, out: &mut Bytes) -> Result<(), OutOfMemory>
    ensures ok { OnOk result (out.new ≡ out.old ++ item_bytes item.now) }
    ensures err { OnErr result (out.new ≡ out.old) }
{
    match item {
        Item::Begin | Item::End => Ok(()),
        Item::Unit(shared) => {
            let unit = shared.unit();
            write_body(
                message_kind(unit.kind),
                unit.time,
                unit.body.as_slice(),
                out,
            )
        }
    }
}
