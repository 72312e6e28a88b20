ghost use Rattle.std.specs.Prelude.{◌≡◌, ◌≤◌, length};
ghost use Rattle.rtmp_client.specs.Bounds.{IsHolding, IsSmall, IsWithin, gift_bytes};

use crate::Core;
use crate::input::Input;
use client_owed::Gift;

// Returns the number of bytes of a gift's tag, or 0.
fn gift_len(gift: &Option<Gift>) -> usize
    ensures { result ≡ gift_bytes gift.now }
{
    match gift {
        None => 0,
        Some(Gift::Tag(tag)) => tag.body.len(),
        Some(Gift::Published) => 0,
        Some(Gift::Unpublished) => 0,
    }
}

/// Returns the number of bytes that a client with this input holds.
pub(crate) fn held_in(core: &Core, input: &Input) -> u64
    requires { IsSmall core.now }
    ensures holds { IsHolding core.now input.now result }
    ensures most { IsWithin core.now.reader.max result }
{
    let gift = gift_len(&core.gift) as u64;
    let pending = core.outgoing.pending().len() as u64;
    let parts = core.reader.held();
    let input = input.left().len() as u64;
    input + parts + pending + gift
}
