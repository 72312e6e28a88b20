ghost use Rattle.std.specs.Prelude.{◌≡◌, ◌<◌, ◌≤◌, ◌+◌, ◌*◌, [], length, drop, None, true, false, IfOk, IfErr, OnOk, OnErr};
ghost use Rattle.relay_session.specs.Bounds.{HasRoom, weight};
ghost use Rattle.relay_session.specs.Feeding.{Hears, IsFed, IsStopped};
ghost use Rattle.relay_session.specs.Holding.{HandFits};
ghost use Rattle.relay_session.specs.Keeping.{IsOver, IsSound, StandsBefore};

use crate::input::{Input, is_empty};
use crate::steps::{chunk_piece, hand_piece};
use crate::{Core, Desk, End, Part};
use std::alloc::Global;

// The number of bytes of a handshake.
const HAND_BYTES: u64 = 3_073;

/// Feeds the first bytes of a piece: of the handshake, or of chunks.
fn next_piece<D: Desk>(core: &mut Core, alloc: Global, desk: &D, piece: &[u8]) -> Result<Part, End>
    requires sound { IsSound core.old }
    requires open { core.old.kept ≡ None }
    requires some { 0 < length piece.now }
    ensures sound { OnOk result (IsSound core.new) }
    ensures stands { StandsBefore (D.grants desk.now) core.old → OnOk result (StandsBefore (D.grants desk.now) core.new) }
    ensures some { IfOk result (λ p. (0 < p.used) × (p.used ≤ length piece.now)) }
    ensures fed { IfOk result (λ p. IsFed core.old piece.now core.new (drop p.used piece.now)) }
    ensures heard { IfOk result (λ p. Hears (D.grants desk.now) core.old core.new p.ended) }
    ensures stopped { IfErr result (λ e. IsStopped core.old piece.now e core.new) }
    ensures room { OnErr result (HasRoom core.new.hand core.new.reader core.new.kept) }
    ensures over { StandsBefore (D.grants desk.now) core.old → IfErr result (λ e. IsOver (D.grants desk.now) e core.new) }
    ensures quiet { IfOk result (λ p. p.ended ≡ false
        → weight core.new.outgoing.others core.new.x core.new.inbound ≤ weight core.old.outgoing.others core.old.x core.old.inbound + 356 * p.used) }
    ensures light { 16000 * core.new.outgoing.others
        ≤ weight core.old.outgoing.others core.old.x core.old.inbound + (356 * length piece.now + 4640000) }
    ensures fits { HandFits core.old → HandFits core.new }
{
    if core.fed >= HAND_BYTES {
        return chunk_piece(core, alloc, desk, piece);
    }
    let used = hand_piece(core, alloc, piece)?;
    Ok(Part { used, ended: false })
}

/// Feeds input until a message is complete and handled, or none is left. Returns whether a message ended.
pub(crate) fn feed<D: Desk>(
    core: &mut Core,
    input: &mut Input,
    alloc: Global,
    desk: &D,
) -> Result<bool, End>
    requires sound { IsSound core.old }
    requires open { core.old.kept ≡ None }
    requires hungry { core.old.outgoing.others ≤ 8192 }
    requires short { length input.old ≤ 4096 }
    ensures sound { OnOk result (IsSound core.new) }
    ensures stands { StandsBefore (D.grants desk.now) core.old → OnOk result (StandsBefore (D.grants desk.now) core.new) }
    ensures light { 16 * core.new.outgoing.others ≤ 186694 }
    ensures fits { HandFits core.old → HandFits core.new }
    ensures fed { OnOk result (IsFed core.old input.old core.new input.new) }
    ensures heard { IfOk result (λ loud. Hears (D.grants desk.now) core.old core.new loud) }
    ensures all { IfOk result (λ loud. loud ≡ false → input.new ≡ []) }
    ensures grows { IfOk result (λ loud. loud ≡ true → length core.old.x < length core.new.x) }
    ensures stopped { IfErr result (λ e. IsStopped core.old input.old e core.new) }
    ensures room { OnErr result (HasRoom core.new.hand core.new.reader core.new.kept) }
    ensures over { StandsBefore (D.grants desk.now) core.old → IfErr result (λ e. IsOver (D.grants desk.now) e core.new) }
{
    while !is_empty(input.left()) {
        match next_piece(core, alloc, desk, input.left()) {
            Err(end) => return Err(end),
            Ok(part) => {
                input.used(alloc, part.used);
                if part.ended {
                    return Ok(true);
                }
            }
        }
    }
    Ok(false)
}
