ghost use Rattle.std.specs.Prelude.{◌≡◌, ◌≤◌, ◌↔◌, IsTrue};
ghost use Rattle.ack_window.specs.Outbound.{new_out, out_set, out_sent, out_acked, IsHeldBack, IsOutWindow};

use crate::window::window;
use std::marker::Model;

/// The number of bytes that a peer has acknowledged of those that it was sent (5.4.3).
///
/// A window below 1,000 bytes counts as 1,000. Contracts see the window in effect, the number of bytes sent,
/// the number of these that are acknowledged, and whether an acknowledgement ever came.
#[derive(Drop)]
pub struct Outbound {
    window: u32,
    sent: u64,
    acknowledged: u64,
    heard: bool,
}

impl Model for Outbound {
    ghost use Rattle.ack_window.specs.Outbound.{OutWindow, IsOutWindow};

    ghost Value = { OutWindow };

    ghost view = { λ o. record { window = o.window; sent = o.sent; acknowledged = o.acknowledged; heard = o.heard } };

    ghost invariant = { λ o. IsOutWindow o.window o.sent o.acknowledged };
}

impl Outbound {
    /// Makes a window of which no byte is sent yet, without an acknowledgement.
    pub fn new(size: u32) -> Outbound
        ensures { result ≡ new_out size }
    {
        Outbound {
            window: window(size),
            sent: 0,
            acknowledged: 0,
            heard: false,
        }
    }

    /// Sets the window, as a Set Peer Bandwidth asks (5.4.5). Limit 0 sets it, limit 1 takes the lesser of
    /// the present window and this, and any other changes nothing.
    pub fn set(&mut self, size: u32, limit: u8)
        ensures { self.new ≡ out_set self.old size limit }
    {
        match limit {
            0 => self.window = window(size),
            1 => self.window = self.window.min(window(size)),
            _ => {}
        }
    }

    /// Counts further bytes that were sent. The count stays at 2^64 - 1 once it is there.
    pub fn sent(&mut self, n: u64)
        ensures { self.new ≡ out_sent self.old n }
    {
        self.sent = self.sent.saturating_add(n);
    }

    /// Takes an acknowledgement, whose value is a number of bytes modulo 2^32.
    ///
    /// Let its distance be the number sent minus the value, modulo 2^32. If the distance is less than 2^31,
    /// all but the last `distance` bytes sent are acknowledged; else all of them. Acknowledged bytes stay
    /// acknowledged, whatever comes later.
    pub fn acked(&mut self, value: u32)
        ensures value { self.new ≡ out_acked self.old value }
        ensures never_falls { self.old.acknowledged ≤ self.new.acknowledged }
        ensures within { self.new.acknowledged ≤ self.new.sent }
    {
        let low = (self.sent % (1 << 32)) as u32;
        let behind = low.wrapping_sub(value);
        let meant = if behind < 1 << 31 {
            self.sent.saturating_sub(u64::from(behind))
        } else {
            self.sent
        };
        self.acknowledged = self.acknowledged.max(meant);
        self.heard = true;
    }

    /// Tells whether the sender must wait: an acknowledgement ever came, and at least a window of bytes isn't
    /// acknowledged.
    pub fn held_back(&self) -> bool
        ensures held { IsTrue result ↔ IsHeldBack self.now }
        ensures kept { IsOutWindow self.now.window self.now.sent self.now.acknowledged }
    {
        self.heard && self.sent - self.acknowledged >= u64::from(self.window)
    }
}
