ghost use Rattle.std.specs.Prelude.{◌≡◌, ◌≢◌, ◌<◌, ◌≤◌, ◌+◌, ◌++◌, ℕ, [], length, Option, Some, None, IfOk, true, false};
ghost use Rattle.relay_outside.specs.Put.{PutCount};
ghost use Rattle.turn_gate.specs.Histories.{Begins};
ghost use Rattle.media_recorder.specs.Mediums.{AreWithin, most_held};
ghost use Rattle.media_recorder.specs.Taken.{taken};
ghost use Rattle.media_recorder.specs.Joined.{joined_from, from_answered};
ghost use Rattle.media_recorder.specs.Recorders.{AreWritten};
ghost use Rattle.media_recorder.specs.Ports.{Serves, FitsIf};
ghost use Rattle.media_recorder.specs.Seats.{StandIf};
ghost use Rattle.media_recorder.specs.Turns.{is_empty, PutEnds, Unmade, JoinEnds, TakeEnds, Writing, Puts, JoinsAt, TakesAt, Calls, Works, Turns};
ghost use Rattle.media_recorder.specs.Says.{Says};
ghost use Rattle.media_recorder.specs.Tallied.{Tallied};
ghost use Rattle.media_recorder.specs.Leaves.{Goes};
ghost use Rattle.media_recorder.specs.Alone.{LeavesAlone, OneAtMost};

use crate::medium::Medium;
use crate::seat::Seat;
use crate::tape::Tape;
use crate::telling::tell;
use crate::turn::{Leaving, RecEnd, RecTurn};
use av_unit::{Item, OutOfMemory, Want};
use relay_outside::{Put, Sink};
use std::alloc::Global;
use std::marker::Model;
use stream_core::{Call, Reply};
use stream_registry::{PortFail, StreamPort};

/// A player that writes each item that it takes, by a medium, to a sink.
#[derive(Drop)]
pub struct Recorder<P: StreamPort, M: Medium> {
    seat: Seat<P>,
    player: Option<u32>,
    from: Option<u64>,
    tape: Tape<M>,
    end: Option<RecEnd>,
}

impl<P: StreamPort, M: Medium> Model for Recorder<P, M> {
    ghost use Rattle.media_recorder.specs.Recorders.{IsRecorder};
    ghost use Rattle.media_recorder.specs.Turns.{RecorderState};

    ghost Value = { RecorderState P.Pass };

    ghost view = { λ r. record { seat = r.seat; player = r.player; tape = r.tape; end = r.end } };

    ghost invariant = { λ r. IsRecorder r.end r.tape.items r.seat.calls r.from };
}

impl<P: StreamPort, M: Medium> Recorder<P, M> {
    /// Makes a recorder at this place with this name, which has made no call. The text of no items is
    /// pending. It writes units of at most `longest` bytes: the first longer one that it is sent ends it with
    /// `OutOfMemory`.
    pub fn new(
        alloc: Global,
        place: u32,
        who: u64,
        longest: u32,
    ) -> Result<Recorder<P, M>, OutOfMemory>
        ensures seat { IfOk result (λ r. r.seat ≡ record { who = who; place = place; pass = None; calls = [] }) }
        ensures player { IfOk result (λ r. r.player ≡ None) }
        ensures tape { IfOk result (λ r. (r.tape.items ≡ []) × (r.tape.sent ≡ []) × (r.tape.pending ≡ M.text [])) }
        ensures live { IfOk result (λ r. r.end ≡ None) }
        ensures longest { IfOk result (λ r. r.tape.longest ≡ longest) }
    {
        let tape = Tape::new(alloc, longest)?;
        Ok(Recorder {
            seat: Seat::new(place, who),
            player: None,
            from: None,
            tape,
            end: None,
        })
    }

    /// Returns the place of its stream.
    pub fn place(&self) -> u32
        ensures { result ≡ self.now.seat.place }
    {
        self.seat.place()
    }

    /// Returns the number of the item from which it joined, if it has joined.
    pub fn joined_from(&self) -> Option<u64>
        ensures { result ≡ joined_from self.now.seat.calls }
    {
        let _ = &self.seat;
        self.from
    }

    /// Shows that the bytes that the sink took, followed by the pending bytes, are the text of the items that
    /// the recorder's Takes were sent. If memory was refused, they are a beginning of that text. The
    /// recorder's calls stand in the stream's history.
    pub fn law(&self)
        ensures whole { self.now.end ≢ Some RecEnd.OutOfMemory → self.now.tape.sent ++ self.now.tape.pending ≡ M.text (taken self.now.seat.calls) }
        ensures prefix { Begins (self.now.tape.sent ++ self.now.tape.pending) (M.text (taken self.now.seat.calls)) }
        ensures calls { StandIf P.limits P.seen P.mine self.now.seat.who self.now.seat.pass self.now.seat.calls }
    {
        self.tape.law();
        self.seat.law();
    }

    /// Returns the medium, which has written the items that were taken, unless memory was refused.
    pub(crate) fn medium(&self) -> &M
        ensures written { M.written result.now ≡ self.now.tape.items }
        ensures taken { AreWritten self.now.end self.now.tape.items (taken self.now.seat.calls) }
    {
        self.tape.medium()
    }

    /// Takes one turn: puts all pending bytes if there are any, and else makes one call. The call is its Join
    /// if it hasn't joined, else a Take.
    pub fn turn<K: Sink>(&mut self, port: &mut P, sink: &mut K) -> RecTurn
        requires place { self.old.seat.place < length (P.rules port.old).names }
        requires fits { FitsIf (P.fits port.old self.old.seat.place) self.old.seat.pass }
        ensures fits { FitsIf (P.fits port.new self.new.seat.place) self.new.seat.pass }
        ensures same { (self.new.seat.who ≡ self.old.seat.who) × (self.new.seat.place ≡ self.old.seat.place) }
        ensures port { Serves P.rules P.root P.busies P.fits self.old.seat.place port.old port.new }
        ensures alone { OneAtMost P.rules P.adds P.root P.seen P.kin P.branches port.old port.new self.old.seat self.new.seat }
        ensures turn { Turns P.rules P.root P.busies P.seen P.mine P.count K.takes self.old.end port.old port.new sink.old sink.new self.old result self.new }
        ensures took { K.holds sink.old ≡ Some self.old.tape.sent → K.holds sink.new ≡ Some self.new.tape.sent }
        ensures longest { self.new.tape.longest ≡ self.old.tape.longest }
        ensures from { (n : ℕ) → joined_from self.old.seat.calls ≡ Some n → joined_from self.new.seat.calls ≡ Some n }
        ensures tallies { Tallied P.count (K.holds sink.old) (K.faults sink.old) self.old → Tallied P.count (K.holds sink.new) (K.faults sink.new) self.new }
        ensures says { Says P.mine (P.root port.old self.old.seat.place) (P.busies port.old) (P.busies port.new) result self.new }
    {
        match self.end {
            Some(end) => RecTurn::Ended(end),
            None => self.work(port, sink),
        }
    }

    fn work<K: Sink>(&mut self, port: &mut P, sink: &mut K) -> RecTurn
        requires place { self.old.seat.place < length (P.rules port.old).names }
        requires fits { FitsIf (P.fits port.old self.old.seat.place) self.old.seat.pass }
        requires live { self.old.end ≡ None }
        ensures fits { FitsIf (P.fits port.new self.new.seat.place) self.new.seat.pass }
        ensures same { (self.new.seat.who ≡ self.old.seat.who) × (self.new.seat.place ≡ self.old.seat.place) }
        ensures port { Serves P.rules P.root P.busies P.fits self.old.seat.place port.old port.new }
        ensures alone { OneAtMost P.rules P.adds P.root P.seen P.kin P.branches port.old port.new self.old.seat self.new.seat }
        ensures works { Works P.rules P.root P.busies P.seen P.mine P.count K.takes (is_empty self.old.tape.pending) port.old port.new sink.old sink.new
            self.old result self.new }
    {
        if self.tape.is_drained() {
            return self.ask(port, sink);
        }
        self.put(port, sink)
    }

    fn put<K: Sink>(&mut self, port: &mut P, sink: &mut K) -> RecTurn
        requires some { is_empty self.old.tape.pending ≡ false }
        requires fits { FitsIf (P.fits port.old self.old.seat.place) self.old.seat.pass }
        requires live { self.old.end ≡ None }
        ensures fits { FitsIf (P.fits port.new self.new.seat.place) self.new.seat.pass }
        ensures same { (self.new.seat.who ≡ self.old.seat.who) × (self.new.seat.place ≡ self.old.seat.place) }
        ensures port { Serves P.rules P.root P.busies P.fits self.old.seat.place port.old port.new }
        ensures alone { OneAtMost P.rules P.adds P.root P.seen P.kin P.branches port.old port.new self.old.seat self.new.seat }
        ensures puts { Puts K.takes port.old port.new sink.old sink.new self.old result self.new }
    {
        let _ = &port;
        let put = sink.put(self.tape.pending());
        put_ends(put, &mut self.tape, &mut self.end)
    }

    fn ask<K: Sink>(&mut self, port: &mut P, sink: &K) -> RecTurn
        requires place { self.old.seat.place < length (P.rules port.old).names }
        requires fits { FitsIf (P.fits port.old self.old.seat.place) self.old.seat.pass }
        requires none { self.old.tape.pending ≡ [] }
        requires live { self.old.end ≡ None }
        ensures fits { FitsIf (P.fits port.new self.new.seat.place) self.new.seat.pass }
        ensures same { (self.new.seat.who ≡ self.old.seat.who) × (self.new.seat.place ≡ self.old.seat.place) }
        ensures port { Serves P.rules P.root P.busies P.fits self.old.seat.place port.old port.new }
        ensures alone { OneAtMost P.rules P.adds P.root P.seen P.kin P.branches port.old port.new self.old.seat self.new.seat }
        ensures calls { Calls P.rules P.root P.busies P.seen P.mine P.count self.old.player port.old port.new self.old result self.new }
    {
        match self.player {
            None => self.join(port),
            Some(player) => self.take(port, sink, player),
        }
    }

    fn join(&mut self, port: &mut P) -> RecTurn
        requires place { self.old.seat.place < length (P.rules port.old).names }
        requires fits { FitsIf (P.fits port.old self.old.seat.place) self.old.seat.pass }
        requires none { self.old.player ≡ None }
        requires live { self.old.end ≡ None }
        ensures fits { FitsIf (P.fits port.new self.new.seat.place) self.new.seat.pass }
        ensures same { (self.new.seat.who ≡ self.old.seat.who) × (self.new.seat.place ≡ self.old.seat.place) }
        ensures port { Serves P.rules P.root P.busies P.fits self.old.seat.place port.old port.new }
        ensures alone { OneAtMost P.rules P.adds P.root P.seen P.kin P.branches port.old port.new self.old.seat self.new.seat }
        ensures joins { JoinsAt P.rules P.root P.busies P.seen P.mine P.count port.old port.new self.old result self.new }
    {
        let answer = self.seat.call(port, Call::Join);
        self.from = self.from.or(from_in(&answer));
        join_ends(answer, &mut self.player, &mut self.end)
    }

    fn take<K: Sink>(&mut self, port: &mut P, sink: &K, player: u32) -> RecTurn
        requires place { self.old.seat.place < length (P.rules port.old).names }
        requires fits { FitsIf (P.fits port.old self.old.seat.place) self.old.seat.pass }
        requires none { self.old.tape.pending ≡ [] }
        requires live { self.old.end ≡ None }
        ensures fits { FitsIf (P.fits port.new self.new.seat.place) self.new.seat.pass }
        ensures same { (self.new.seat.who ≡ self.old.seat.who) × (self.new.seat.place ≡ self.old.seat.place) }
        ensures port { Serves P.rules P.root P.busies P.fits self.old.seat.place port.old port.new }
        ensures alone { OneAtMost P.rules P.adds P.root P.seen P.kin P.branches port.old port.new self.old.seat self.new.seat }
        ensures takes { TakesAt P.rules P.root P.busies P.seen P.mine P.count player port.old port.new self.old result self.new }
    {
        let want = Want {
            audio: true,
            video: true,
        };
        let answer = self.seat.call(port, Call::Take { player, want });
        tell(sink, &answer);
        take_ends(answer, &mut self.tape, &mut self.end)
    }

    /// Makes its Leave, if it has joined, and detaches its pass. If the port is busy or has no memory for the
    /// call, the recorder comes back as it was. If the history is full, no further call is made.
    pub fn leave(mut self, port: &mut P) -> Leaving<Recorder<P, M>>
        requires place { self.seat.place < length (P.rules port.old).names }
        requires fits { FitsIf (P.fits port.old self.seat.place) self.seat.pass }
        ensures port { Serves P.rules P.root P.busies P.fits self.seat.place port.old port.new }
        ensures goes { Goes P.rules P.root P.busies P.seen P.mine P.count self.player port.old port.new self result }
        ensures alone { LeavesAlone P.rules P.adds P.root P.seen P.kin P.branches port.old port.new self.seat result }
    {
        let Some(player) = self.player else {
            self.seat.part(port);
            return Leaving::Done;
        };
        match self.seat.call(port, Call::Leave { player }) {
            Ok(_) => {
                self.seat.part(port);
                return Leaving::Done;
            }
            Err(PortFail::Worn(_)) => {
                self.seat.part(port);
                return Leaving::Done;
            }
            Err(PortFail::Busy(_)) => {
                return Leaving::Busy(self);
            }
            Err(PortFail::OutOfMemory(_)) => {
                return Leaving::OutOfMemory(self);
            }
        }
    }

    /// Returns the number of bytes that are pending or kept by the medium. If no item that it took has a body
    /// of more than m bytes, this is at most 4 m + 262,144. The same bound holds if m is the longest body
    /// that it writes.
    pub fn held(&self) -> u64
        ensures sum { result ≡ length self.now.tape.pending + self.now.tape.kept }
        ensures most { (m : ℕ) → AreWithin m (taken self.now.seat.calls) → result ≤ most_held m }
        ensures longest { result ≤ most_held self.now.tape.longest }
    {
        self.tape.held()
    }
}

// Does what the answer of a put requires.
fn put_ends<M: Medium>(put: Put, tape: &mut Tape<M>, end: &mut Option<RecEnd>) -> RecTurn
    requires count { PutCount tape.old.pending put }
    requires live { end.old ≡ None }
    ensures { PutEnds put tape.old result tape.new end.new }
{
    match put {
        Put::Took(count) => {
            tape.took(count);
            RecTurn::Moved
        }
        Put::Failed => {
            *end = Some(RecEnd::SinkFault);
            RecTurn::Ended(RecEnd::SinkFault)
        }
        Put::OutOfMemory => {
            *end = Some(RecEnd::OutOfMemory);
            RecTurn::Ended(RecEnd::OutOfMemory)
        }
    }
}

// Does what a call that wasn't made requires.
fn unmade(fail: PortFail, end: &mut Option<RecEnd>) -> RecTurn
    requires { end.old ≡ None }
    ensures { Unmade fail result end.new }
{
    match fail {
        PortFail::Busy(_) => RecTurn::Busy,
        PortFail::Worn(_) => {
            *end = Some(RecEnd::Worn);
            RecTurn::Ended(RecEnd::Worn)
        }
        PortFail::OutOfMemory(_) => {
            *end = Some(RecEnd::OutOfMemory);
            RecTurn::Ended(RecEnd::OutOfMemory)
        }
    }
}

// Returns the number of the item from which a Join with this answer joined.
fn from_in(answer: &Result<Reply, PortFail>) -> Option<u64>
    ensures { result ≡ from_answered answer.now }
{
    match answer {
        Ok(Reply::Joined { player: _, from }) => Some(*from),
        Ok(_) => None,
        Err(_) => None,
    }
}

// Does what the answer to its Join requires.
fn join_ends(
    answer: Result<Reply, PortFail>,
    player: &mut Option<u32>,
    end: &mut Option<RecEnd>,
) -> RecTurn
    requires none { player.old ≡ None }
    requires live { end.old ≡ None }
    ensures { JoinEnds answer result player.new end.new }
{
    match answer {
        Ok(
            Reply::Joined {
                player: place,
                from: _,
            },
        ) => {
            *player = Some(place);
            RecTurn::Moved
        }
        Ok(Reply::Full) => {
            *end = Some(RecEnd::Full);
            RecTurn::Ended(RecEnd::Full)
        }
        Ok(_) => RecTurn::Moved,
        Err(fail) => unmade(fail, end),
    }
}

// Does what the answer to its Take requires.
fn take_ends<M: Medium>(
    answer: Result<Reply, PortFail>,
    tape: &mut Tape<M>,
    end: &mut Option<RecEnd>,
) -> RecTurn
    requires none { tape.old.pending ≡ [] }
    requires live { end.old ≡ None }
    ensures { TakeEnds answer tape.old result tape.new end.new }
{
    match answer {
        Ok(
            Reply::Sent {
                from: _,
                n: _,
                item,
            },
        ) => write(&item, tape, end),
        Ok(Reply::NotYet { end: _ }) => RecTurn::Idle,
        Ok(_) => RecTurn::Moved,
        Err(fail) => unmade(fail, end),
    }
}

// Writes an item.
fn write<M: Medium>(item: &Item, tape: &mut Tape<M>, end: &mut Option<RecEnd>) -> RecTurn
    requires none { tape.old.pending ≡ [] }
    requires live { end.old ≡ None }
    ensures { Writing tape.old item.now result tape.new end.new }
{
    match tape.write(item) {
        Ok(()) => RecTurn::Moved,
        Err(_) => {
            *end = Some(RecEnd::OutOfMemory);
            RecTurn::Ended(RecEnd::OutOfMemory)
        }
    }
}
