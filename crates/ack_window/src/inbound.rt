ghost use Rattle.std.specs.Prelude.{◌≡◌, ◌+◌, ◌<◌, ◌≤◌, ◌^◌, ◌↔◌, IsSome, IfSome};
ghost use Rattle.ack_window.specs.Inbound.{new_in, in_set, in_took, room_of, ack_of, number_of, IsInWindow, IsNextPlace};

use crate::window::window;
use std::marker::Model;

/// The acknowledgements that a peer is sent (5.4.3), by the bytes that it sends.
///
/// An acknowledgement is due after each number of bytes that is a multiple of the window. A window below 1,000 bytes
/// counts as 1,000. Contracts see the window in effect and the number of bytes taken.
#[derive(Drop)]
pub struct Inbound {
    window: u32,
    taken: u64,
}

impl Model for Inbound {
    ghost use Rattle.ack_window.specs.Inbound.{InWindow, IsInWindow};

    ghost Value = { InWindow };

    ghost view = { λ i. record { window = i.window; taken = i.taken } };

    ghost invariant = { λ i. IsInWindow i.window i.taken };
}

impl Inbound {
    /// Makes a window of which no byte is taken yet.
    pub fn new(size: u32) -> Inbound
        ensures { result ≡ new_in size }
    {
        Inbound {
            window: window(size),
            taken: 0,
        }
    }

    /// Sets the window of the bytes that follow, as a Window Acknowledgement Size asks (5.4.4).
    pub fn set(&mut self, size: u32)
        ensures { self.new ≡ in_set self.old size }
    {
        self.window = window(size);
    }

    /// Gives the number of bytes until the next acknowledgement is due: at least 1, and at most the window.
    pub fn room_to_next(&self) -> u64
        ensures value { result ≡ room_of self.now }
        ensures next { IsNextPlace self.now result }
        ensures most { result ≤ self.now.window }
        ensures kept { IsInWindow self.now.window self.now.taken }
    {
        let window = u64::from(self.window);
        window - self.taken % window
    }

    /// Takes bytes, at most the room to the next acknowledgement. If they fill that room, and only then, the
    /// answer is the number to acknowledge: that of all bytes taken, modulo 2^32.
    pub fn took(&mut self, n: u64) -> Option<u32>
        requires within { n ≤ room_of self.old }
        requires far { self.old.taken + n < 2 ^ 63 }
        ensures taken { self.new ≡ in_took self.old n }
        ensures answer { result ≡ ack_of self.old n }
        ensures due { IsSome result ↔ (n ≡ room_of self.old) }
        ensures number { IfSome result (λ number. number ≡ number_of self.new.taken) }
    {
        let due = n == self.room_to_next();
        self.taken += n;
        due.then_some((self.taken % (1 << 32)) as u32)
    }
}
