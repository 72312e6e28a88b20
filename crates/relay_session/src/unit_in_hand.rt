ghost use Rattle.std.specs.Prelude.{◌≡◌, ◌≤◌, ◌<◌, ◌+◌, ◌-◌, ◌^◌, ◌⊎◌, ℕ, [], length, IfOk, OnOk};
ghost use Rattle.chunk_writer.specs.Written.{after};
ghost use Rattle.command_dialog.specs.Dialog.{unit_message};
ghost use Rattle.session_owed.specs.Chunks.{hand_of};
ghost use Rattle.relay_session.specs.Owing.{Goes, IsHeld, in_hand, left};

use av_unit::{Bytes, OutOfMemory, Unit, UnitArc, message_kind};
use chunk_writer::{Sending, Writer, chunk_stream};
use std::marker::Model;

/// A unit whose chunks are written one by one. The unit stays shared.
#[derive(Drop)]
pub(crate) struct UnitInHand {
    sending: Sending,
    unit: UnitArc,
}

impl Model for UnitInHand {
    ghost use Rattle.session_owed.specs.Chunks.{Hand};
    ghost use Rattle.relay_session.specs.Owing.{IsHeld};

    ghost Value = { Hand };

    ghost view = { λ u. record { sending = u.sending; body = u.unit.body } };

    ghost invariant = { λ u. IsHeld u.sending u.unit.body };
}

impl UnitInHand {
    /// Begins the message of the unit on a message stream.
    pub(crate) fn begin(
        writer: &mut Writer,
        stream: u32,
        unit: UnitArc,
    ) -> Result<UnitInHand, OutOfMemory>
        ensures hand { IfOk result (λ h. h ≡ hand_of writer.old (unit_message stream unit)) }
        ensures writer { OnOk result (writer.new ≡ after writer.old (unit_message stream unit)) }
        ensures size { writer.new.size ≡ writer.old.size }
    {
        let Unit { kind, time, body } = unit.unit();
        let kind = message_kind(*kind);
        let sending = writer.begin(chunk_stream(kind), kind, stream, *time, body.len() as u32)?;
        Ok(UnitInHand { sending, unit })
    }

    /// Returns the number of bytes of the unit.
    pub(crate) fn body_len(&self) -> usize
        ensures value { result ≡ length self.now.body }
        ensures most { result ≤ 4194304 }
    {
        self.unit.unit().body.len()
    }

    /// Returns the number of bytes of the chunks that are left of it.
    pub(crate) fn left_len(&self) -> usize
        ensures value { result ≡ length (left self.now) }
        ensures most { result < 2 ^ 29 }
    {
        self.sending.left_len(self.unit.unit().body.as_slice())
    }

    /// Appends chunks until none are left, or `out` has at least `most` bytes from a place on.
    pub(crate) fn fill(
        &mut self,
        out: &mut Bytes,
        place: usize,
        most: usize,
    ) -> Result<(), OutOfMemory>
        requires { place ≤ length out.old }
        ensures goes { OnOk result (Goes self.old out.old self.new out.new) }
        ensures filled { OnOk result ((most ≤ length out.new - place) ⊎ (left self.new ≡ [])) }
        ensures grows { length out.old ≤ length out.new }
        ensures size { self.new.sending.size ≡ self.old.sending.size }
        ensures body { self.new.body ≡ self.old.body }
        ensures bound { (b : ℕ) → most + (18 + self.old.sending.size) ≤ b → length out.old - place ≤ b → length out.new - place ≤ b }
    {
        let body = self.unit.unit().body.as_slice();
        fill_with(&mut self.sending, body, out, place, most)
    }
}

// Appends chunks of a message until none are left, or `out` has at least `most` bytes from a place on.
fn fill_with(
    sending: &mut Sending,
    body: &[u8],
    out: &mut Bytes,
    place: usize,
    most: usize,
) -> Result<(), OutOfMemory>
    requires held { IsHeld sending.old body.now }
    requires place { place ≤ length out.old }
    ensures held { IsHeld sending.new body.now }
    ensures goes { OnOk result (Goes (in_hand sending.old body.now) out.old (in_hand sending.new body.now) out.new) }
    ensures filled { OnOk result ((most ≤ length out.new - place) ⊎ (left (in_hand sending.new body.now) ≡ [])) }
    ensures grows { length out.old ≤ length out.new }
    ensures size { sending.new.size ≡ sending.old.size }
    ensures bound { (b : ℕ) → most + (18 + sending.old.size) ≤ b → length out.old - place ≤ b → length out.new - place ≤ b }
{
    while out.len() - place < most {
        if !sending.next_chunk(body, out)? {
            return Ok(());
        }
    }
    Ok(())
}
