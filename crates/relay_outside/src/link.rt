ghost use Rattle.std.specs.Prelude.{◌<◌, length, Bool, List, ℕ};
ghost use Rattle.std.specs.declared.option.Option.{Option};
ghost use Rattle.relay_outside.specs.declared.link.Said.{Said};
ghost use Rattle.relay_outside.specs.Told.{LinkTold, LinkCounts};
ghost use Rattle.relay_outside.specs.Heard.{Came, came, HeardCount, CameTold, CameCounts, HearStep};
ghost use Rattle.relay_outside.specs.Said.{SaidCount, SaidTold, SaidCounts, SayStep};

use crate::News;

/// The answer of a link to a call for bytes.
#[derive(Clone, Copy)]
pub enum Heard {
    /// It gave this number of bytes, which stand at the front of the slice.
    Bytes(usize),
    /// The peer sends no more. Its ends rose.
    End,
    /// There is nothing yet. Its waits rose.
    NotYet,
    /// It gave nothing, and its faults rose.
    Failed,
}

/// The answer of a link to a call that hands it bytes.
#[derive(Clone, Copy)]
pub enum Said {
    /// It took this number of bytes from the front of the slice.
    Took(usize),
    /// It takes nothing yet. Its waits rose.
    NotYet,
    /// It took nothing, and its faults rose.
    Failed,
    /// It took nothing, because memory was refused.
    OutOfMemory,
}

/// A connection to a peer: it gives the bytes that the peer sends, and takes the bytes for the peer. If it
/// can't give or take yet, it says so and doesn't wait.
///
/// Its three counts never fall. A count that stands at the last value of a u64 stays there, and is said to
/// rise. Each answer lets at most one of them rise, the one that the answer names; the others stay.
pub trait Link: Drop {
    /// The number of times that it has failed, could not give or not take yet, and was at its end.
    ghost counts: { Self → LinkCounts };

    /// If it tells them: the bytes that are left, those that it gave and those that it took.
    ghost told: { Self → Option LinkTold };

    /// A recv with this much room may answer so, and leave the link so.
    ghost hears: { Self → ℕ → Came → Self → Type 0 };

    /// A send of these bytes may answer so, and leave the link so.
    ghost says: { Self → List ℕ → Said → Self → Type 0 };

    /// `is_ready` may answer so.
    ghost ready: { Self → Bool → Type 0 };

    /// Tells whether a recv or a send may now answer anything but `NotYet`. A link that can't tell answers
    /// `true`.
    fn is_ready(&self) -> bool
        ensures { ready self.now result };

    /// Gives some of the bytes that are left. After any other answer than `Bytes`, it tells the same bytes as
    /// before.
    fn recv(&mut self, into: &mut [u8]) -> Heard
        requires { 0 < length into.old }
        ensures step { hears self.old (length into.old) (came result into.new) self.new }
        ensures count { HeardCount into.new result }
        ensures told { CameTold (told self.old) (told self.new) (came result into.new) }
        ensures cause { CameCounts (counts self.old) (counts self.new) (came result into.new) };

    /// Takes some of the bytes. After any other answer than `Took`, it tells the same bytes as before.
    fn send(&mut self, piece: &[u8]) -> Said
        requires { 0 < length piece.now }
        ensures step { says self.old piece.now result self.new }
        ensures count { SaidCount piece.now result }
        ensures told { SaidTold (told self.old) (told self.new) piece.now result }
        ensures cause { SaidCounts (counts self.old) (counts self.new) result };

    /// Receives a piece of news about the connection, with the application and the name concerned, empty if
    /// there is none. The link may use it as it likes, and stays as it is.
    fn tell(&self, news: News, app: &[u8], name: &[u8]);

    // The meaning of a step, for callers that know only that it was made.
    ghost hears_mean: { (l : Self) (room : ℕ) (answer : Came) (m : Self) → 0 < room → hears l room answer m
        → HearStep room (told l) (told m) (counts l) (counts m) answer };

    ghost says_mean: { (l : Self) (piece : List ℕ) (answer : Said) (m : Self) → 0 < length piece → says l piece answer m
        → SayStep piece (told l) (told m) (counts l) (counts m) answer };
}
