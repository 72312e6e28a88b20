ghost use Rattle.std.specs.Prelude.{◌≡◌, ◌≤◌, ◌<◌, ◌^◌, ◌++◌, List, ℕ, OnOk, OnErr};
ghost use Rattle.chunk_wire.specs.Written.{basic_bytes, field_bytes, head_bytes};

use crate::Head;
use av_unit::{Bytes, OutOfMemory};

// Appends a basic header.
#[tactic(auto, using(std::proofs::lemmas::Bool::Decides::nat_tests), unfolding(crate::specs::Written::basic_bytes))]
fn write_basic(format: u8, id: u32, out: &mut Bytes) -> Result<(), OutOfMemory>
    requires format { format < 4 }
    requires id_low { 2 ≤ id }
    requires id_high { id ≤ 65599 }
    ensures ok { OnOk result (out.new ≡ out.old ++ basic_bytes format id) }
    ensures err { OnErr result (out.new ≡ out.old) }
{
    if id < 64 {
        let first = format * 64 + id as u8;
        return out.append(&[first]);
    }
    let above = id - 64;
    if id < 320 {
        let low = above as u8;
        return out.append(&[format * 64, low]);
    }
    let low = (above % 256) as u8;
    let high = (above / 256) as u8;
    out.append(&[format * 64 + 1, low, high])
}

// Appends the fields that the format has.
#[tactic(auto, using(std::proofs::lemmas::Bool::Decides::nat_tests), unfolding(crate::specs::Written::field_bytes))]
fn write_fields(head: &Head, out: &mut Bytes) -> Result<(), OutOfMemory>
    requires format { head.now.format < 4 }
    ensures ok { OnOk result (out.new ≡ out.old ++ field_bytes head.now) }
    ensures err { OnErr result (out.new ≡ out.old) }
{
    let [_, a, b, c] = head.field.to_be_bytes();
    let [_, d, e, f] = head.length.to_be_bytes();
    if head.format == 0 {
        let [g, h, i, j] = head.stream.to_le_bytes();
        return out.append(&[a, b, c, d, e, f, head.kind, g, h, i, j]);
    }
    if head.format == 1 {
        return out.append(&[a, b, c, d, e, f, head.kind]);
    }
    if head.format == 2 {
        return out.append(&[a, b, c]);
    }
    Ok(())
}

/// Appends the chunk header: the basic header in the shortest form that holds the id, and the message header
/// of its format. After a refusal, `out` begins with the bytes that it held before.
pub fn write_head(head: &Head, out: &mut Bytes) -> Result<(), OutOfMemory>
    requires format { head.now.format < 4 }
    requires id_low { 2 ≤ head.now.id }
    requires id_high { head.now.id ≤ 65599 }
    requires field { head.now.field < 2 ^ 24 }
    requires length { head.now.length < 2 ^ 24 }
    ensures ok { OnOk result (out.new ≡ out.old ++ head_bytes head.now) }
    ensures err { OnErr result ((rest : List ℕ) × (out.new ≡ out.old ++ rest)) }
    ensures range { (head.now.kind < 256) × (head.now.stream < 2 ^ 32) }
{
    let _range = (head.kind, head.stream);
    write_basic(head.format, head.id, out)?;
    write_fields(head, out)
}
