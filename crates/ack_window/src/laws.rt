ghost use Rattle.std.specs.Prelude.{◌≡◌, ℕ, ◌+◌, ◌-◌, ◌%◌, ◌^◌, ◌<◌, ◌≤◌, ◌↔◌, ◌⊎◌, ◌++◌, ◌∷◌, List, map, min, sum, IsTrue, Ok, Some};
ghost use Rattle.ack_window.specs.declared.control.Control.{Control};
ghost use Rattle.ack_window.specs.Controls.{control_in, message_of, with_body, body_of, InRange};
ghost use Rattle.ack_window.specs.Window.{window_of};
ghost use Rattle.ack_window.specs.Inbound.{new_in, number_of};
ghost use Rattle.ack_window.specs.InboundRuns.{InCall, Steps, acks_of, due, taken_by, window_at, last_window, multiples};
ghost use Rattle.ack_window.specs.Outbound.{out_acked, behind, meant, IsHeldBack};
ghost use Rattle.ack_window.specs.OutboundRuns.{OutCall, outbound, sent_by, meant_after, AckedIn, IsMeant, KeepsWindow};

/// The control that `control_message` writes is read by `control_of`, also if more bytes follow it.
#[tactic(auto, using(crate::proofs::Controls::read_back, crate::proofs::Controls::read_back_longer))]
pub fn controls_are_read_back()
    ensures back { (control : Control) → InRange control → control_in (message_of control) ≡ Ok (Some control) }
    ensures longer { (control : Control) (rest : List ℕ) → InRange control
        → control_in (with_body control (body_of control ++ rest)) ≡ Ok (Some control) }
{}

/// The bytes of a peer after which it is sent an acknowledgement, for any calls of an `Inbound`.
#[tactic(auto, using(crate::proofs::Acks::acks_are_due, crate::proofs::Acks::window_in_effect, crate::proofs::Acks::acks_of_cuts))]
pub fn acknowledgements_law()
    // After each byte whose count is a multiple of the window in effect at it, and after no other.
    ensures due { (size : ℕ) (calls : List InCall) → Steps (new_in size) calls → acks_of (new_in size) calls ≡ due (window_of size) calls }

    // The window in effect at a byte is that of the last Set before the Took that has the byte, or the first.
    ensures window { (first n byte : ℕ) (before after : List InCall) → taken_by before < byte → byte ≤ taken_by before + n
        → window_at first (before ++ (InCall.Took n ∷ after)) byte ≡ last_window first before }

    // If the window is never set again, nothing depends on how the bytes are cut.
    ensures cut { (size : ℕ) (cuts : List ℕ) → Steps (new_in size) (map InCall.Took cuts)
        → acks_of (new_in size) (map InCall.Took cuts) ≡ multiples (window_of size) (sum cuts) }
{}

/// The bytes that a peer has acknowledged of those that it was sent, for any calls of an `Outbound`.
pub fn acknowledged_law()
    ensures sent { (size : ℕ) (calls : List OutCall) → (outbound size calls).sent ≡ min (sent_by calls) (2 ^ 64 - 1) }

    // At most the bytes sent are acknowledged, and an acknowledged byte stays acknowledged.
    ensures within { (size : ℕ) (calls : List OutCall) → (outbound size calls).acknowledged ≤ (outbound size calls).sent }
    ensures never_falls { (size : ℕ) (calls more : List OutCall)
        → (outbound size calls).acknowledged ≤ (outbound size (calls ++ more)).acknowledged }

    // It is the most that an acknowledgement means.
    ensures counts { (size : ℕ) (before after : List OutCall) (value : ℕ)
        → meant_after size before value ≤ (outbound size (before ++ (OutCall.Acked value ∷ after))).acknowledged }
    ensures attained { (size : ℕ) (calls : List OutCall)
        → ((outbound size calls).acknowledged ≡ 0) ⊎ IsMeant size calls (outbound size calls).acknowledged }

    // If a count is less than 2^31 below the number sent, its number modulo 2^32 means that count.
    ensures understood { (count sent : ℕ) → count ≤ sent → sent - count < 2 ^ 31 → meant sent (number_of count) ≡ count }
    ensures behind { (sent value : ℕ) → value < 2 ^ 32 → (value + behind sent value) % 2 ^ 32 ≡ number_of sent }
{}

/// The window that is in effect, for any calls of an `Outbound`.
pub fn outbound_window_law()
    // A Set of limit 0 sets it, whatever it was.
    ensures set { (first size : ℕ) (before after : List OutCall) → KeepsWindow after
        → (outbound first (before ++ (OutCall.Set size 0 ∷ after))).window ≡ window_of size }

    // A Set of limit 1 takes the lesser of the window at it and its own.
    ensures lesser { (first size : ℕ) (before after : List OutCall) → KeepsWindow after
        → (outbound first (before ++ (OutCall.Set size 1 ∷ after))).window ≡ min (outbound first before).window (window_of size) }

    // Without either it is the first.
    ensures first { (first : ℕ) (calls : List OutCall) → KeepsWindow calls → (outbound first calls).window ≡ window_of first }

    ensures least { (first : ℕ) (calls : List OutCall) → 1000 ≤ (outbound first calls).window }
{}

/// When a sender is held back, for any calls of an `Outbound`.
pub fn held_back_law()
    // Never before an acknowledgement came.
    ensures heard { (size : ℕ) (calls : List OutCall) → IsTrue (outbound size calls).heard ↔ AckedIn calls }
    ensures held { (size : ℕ) (calls : List OutCall) → IsHeldBack (outbound size calls) → AckedIn calls }

    // And not after an acknowledgement of all that was sent.
    ensures released { (size : ℕ) (calls : List OutCall)
        → ¬ IsHeldBack (out_acked (outbound size calls) (number_of (outbound size calls).sent)) }
{}
