//! The steps by which a client is fed its input.
ghost use Rattle.std.specs.Prelude.{◌≡◌, ◌<◌, ◌≤◌, ◌+◌, ◌*◌, [], length, drop, None, true, false, IfOk, IfErr, OnOk, OnErr};
ghost use Rattle.rtmp_client.specs.Bounds.{gift_bytes, weight};
ghost use Rattle.rtmp_client.specs.Feeding.{Hears, IsFed, IsStopped, fixed_of};
ghost use Rattle.rtmp_client.specs.Keeping.{Begun, IsSound};
ghost use Rattle.rtmp_client.specs.Owing.{Apart};

use crate::input::{Input, is_empty};
use crate::steps::{Part, chunk_piece, hand_piece};
use crate::{ClientEnd, Core};
use std::alloc::Global;

// The number of bytes of a handshake.
const HAND_BYTES: u64 = 3_073;

/// Feeds the first bytes of a piece: of the handshake, or of chunks.
fn next_piece(core: &mut Core, alloc: Global, piece: &[u8]) -> Result<Part, ClientEnd>
    requires sound { IsSound core.old }
    requires open { core.old.gift ≡ None }
    requires some { 0 < length piece.now }
    ensures sound { OnOk result (IsSound core.new) }
    ensures some { IfOk result (λ p. (0 < p.used) × (p.used ≤ length piece.now)) }
    ensures fed { IfOk result (λ p. IsFed core.old piece.now core.new (drop p.used piece.now)) }
    ensures heard { IfOk result (λ p. Hears core.old core.new p.ended) }
    ensures gift { IfOk result (λ p. gift_bytes core.new.gift ≤ core.old.reader.max) }
    ensures stopped { IfErr result (λ e. IsStopped core.old piece.now e core.new) }
    ensures over { OnErr result (Begun core.new) }
    ensures quiet { IfOk result (λ p. p.ended ≡ false
        → weight core.new.outgoing.others (length core.new.y) core.new.inbound ≤ weight core.old.outgoing.others (length core.old.y) core.old.inbound + 356 * p.used) }
    ensures light { 16000 * core.new.outgoing.others
        ≤ weight core.old.outgoing.others (length core.old.y) core.old.inbound + (356 * length piece.now + 5600000) }
    ensures apart { Apart core.old.outgoing core.new.outgoing }
    ensures fixed { fixed_of core.new ≡ fixed_of core.old }
{
    if core.fed >= HAND_BYTES {
        return chunk_piece(core, alloc, piece);
    }
    let used = hand_piece(core, alloc, piece)?;
    Ok(Part { used, ended: false })
}

/// Feeds input until a message is complete and handled, or none is left. Returns whether a message ended.
pub(crate) fn feed(core: &mut Core, input: &mut Input, alloc: Global) -> Result<bool, ClientEnd>
    requires sound { IsSound core.old }
    requires open { core.old.gift ≡ None }
    requires hungry { core.old.outgoing.others ≤ 8192 }
    requires short { length input.old ≤ 4096 }
    ensures sound { OnOk result (IsSound core.new) }
    ensures light { 16 * core.new.outgoing.others ≤ 194000 }
    ensures apart { Apart core.old.outgoing core.new.outgoing }
    ensures fixed { fixed_of core.new ≡ fixed_of core.old }
    ensures fed { OnOk result (IsFed core.old input.old core.new input.new) }
    ensures heard { IfOk result (λ loud. Hears core.old core.new loud) }
    ensures gift { OnOk result (gift_bytes core.new.gift ≤ core.old.reader.max) }
    ensures all { IfOk result (λ loud. loud ≡ false → input.new ≡ []) }
    ensures grows { IfOk result (λ loud. loud ≡ true → length core.old.y < length core.new.y) }
    ensures stopped { IfErr result (λ e. IsStopped core.old input.old e core.new) }
    ensures over { OnErr result (Begun core.new) }
{
    while !is_empty(input.left()) {
        match next_piece(core, alloc, input.left()) {
            Err(end) => return Err(end),
            Ok(part) => {
                input.used(alloc, part.used);
                if part.ended {
                    return Ok(true);
                }
            }
        }
    }
    Ok(false)
}
