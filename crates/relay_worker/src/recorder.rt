//! A recorder with its file.
ghost use Rattle.std.specs.Prelude.{◌≡◌, ◌≢◌, ◌<◌, ◌++◌, length, true, Some};
ghost use Rattle.turn_gate.specs.Histories.{Begins};
ghost use Rattle.media_recorder.specs.Alone.{LeavesAlone, OneAtMost};
ghost use Rattle.media_recorder.specs.Joined.{joined_from};
ghost use Rattle.media_recorder.specs.Ports.{FitsIf, Serves};
ghost use Rattle.media_recorder.specs.Says.{Says};
ghost use Rattle.media_recorder.specs.Seats.{StandIf};
ghost use Rattle.media_recorder.specs.Taken.{taken};
ghost use Rattle.media_recorder.specs.Turns.{Turns};
ghost use Rattle.relay_worker.specs.Benches.{IsFiled};
ghost use Rattle.relay_worker.specs.Filed.{Leaves, Tallies, form_of, is_ready, left_by, sink_of, state_of, text_of};
ghost use Rattle.relay_worker.specs.Running.{GoesAhead, label_of};

use media_recorder::{FlvRecorder, Leaving, RecEnd, RecTurn, TsRecorder};
use relay_outside::Sink;
use std::sync::Wait;
use stream_registry::StreamPort;

/// How a recording is written.
#[derive(Clone, Copy)]
pub enum RecordingForm {
    /// As FLV.
    Flv,
    /// As a transport stream.
    Ts,
}

/// A recorder with the file that it writes.
#[derive(Drop)]
pub enum Recorder<P: StreamPort, K: Sink> {
    /// It writes FLV.
    Flv(FlvRecorder<P>, K),
    /// It writes a transport stream.
    Ts(TsRecorder<P>, K),
}

/// The outcome for a recorder that was to leave.
#[derive(Drop)]
pub enum Parted<P: StreamPort, K: Sink> {
    /// It has left, and this is its file.
    Done(K),
    /// The port was busy. The recorder comes back.
    Busy(Recorder<P, K>),
    /// There was no memory for the call. The recorder comes back.
    OutOfMemory(Recorder<P, K>),
}

impl<P: StreamPort, K: Sink> Recorder<P, K> {
    /// The place of its stream.
    pub fn place(&self) -> u32
        ensures { result ≡ (state_of self.now).seat.place }
    {
        match self {
            Recorder::Flv(recorder, _) => recorder.place(),
            Recorder::Ts(recorder, _) => recorder.place(),
        }
    }

    /// The number of the item from which it joined its stream, if it has joined.
    pub fn joined_from(&self) -> Option<u64>
        ensures { result ≡ joined_from (state_of self.now).seat.calls }
    {
        match self {
            Recorder::Flv(recorder, _) => recorder.joined_from(),
            Recorder::Ts(recorder, _) => recorder.joined_from(),
        }
    }

    /// How it writes.
    pub fn form(&self) -> RecordingForm
        ensures { result ≡ form_of self.now }
    {
        match self {
            Recorder::Flv(_, _) => RecordingForm::Flv,
            Recorder::Ts(_, _) => RecordingForm::Ts,
        }
    }

    /// The bytes that the file took, with the pending ones, are the text of the items that the recorder's
    /// Takes were sent. If memory was lacking they are a beginning of it. Its calls stand in the stream's
    /// history.
    pub fn law(&self)
        ensures whole { (state_of self.now).end ≢ Some RecEnd.OutOfMemory
            → (state_of self.now).tape.sent ++ (state_of self.now).tape.pending ≡ text_of self.now (taken (state_of self.now).seat.calls) }
        ensures prefix { Begins ((state_of self.now).tape.sent ++ (state_of self.now).tape.pending) (text_of self.now (taken (state_of self.now).seat.calls)) }
        ensures calls { StandIf P.limits P.seen P.mine (state_of self.now).seat.who (state_of self.now).seat.pass (state_of self.now).seat.calls }
    {
        match self {
            Recorder::Flv(recorder, _) => {
                recorder.law();
                recorder.flv_law();
            }
            Recorder::Ts(recorder, _) => {
                recorder.law();
                recorder.ts_law();
            }
        }
    }

    /// Takes one turn: a put of all pending bytes, else a call. The call is its Join if it hasn't joined,
    /// else one Take.
    pub fn turn(&mut self, port: &mut P) -> RecTurn
        requires place { (state_of self.old).seat.place < length (P.rules port.old).names }
        requires fits { FitsIf (P.fits port.old (state_of self.old).seat.place) (state_of self.old).seat.pass }
        ensures fits { FitsIf (P.fits port.new (state_of self.new).seat.place) (state_of self.new).seat.pass }
        ensures who { (state_of self.new).seat.who ≡ (state_of self.old).seat.who }
        ensures place { (state_of self.new).seat.place ≡ (state_of self.old).seat.place }
        ensures form { form_of self.new ≡ form_of self.old }
        ensures longest { (state_of self.new).tape.longest ≡ (state_of self.old).tape.longest }
        ensures port { Serves P.rules P.root P.busies P.fits (state_of self.old).seat.place port.old port.new }
        ensures alone { OneAtMost P.rules P.adds P.root P.seen P.kin P.branches port.old port.new (state_of self.old).seat (state_of self.new).seat }
        ensures turn { Turns P.rules P.root P.busies P.seen P.mine P.count K.takes (state_of self.old).end port.old port.new
            (sink_of self.old) (sink_of self.new) (state_of self.old) result (state_of self.new) }
        ensures took { K.holds (sink_of self.old) ≡ Some (state_of self.old).tape.sent → K.holds (sink_of self.new) ≡ Some (state_of self.new).tape.sent }
        ensures tallies { Tallies P.count K.holds K.faults self.old → Tallies P.count K.holds K.faults self.new }
        ensures says { Says P.mine (P.root port.old (state_of self.old).seat.place) (P.busies port.old) (P.busies port.new) result (state_of self.new) }
    {
        match self {
            Recorder::Flv(recorder, sink) => recorder.turn(port, sink),
            Recorder::Ts(recorder, sink) => recorder.turn(port, sink),
        }
    }

    /// Takes turns until it has joined its stream, or has ended. Returns the answer of its last turn, or
    /// Moved if it took none.
    pub fn ready<W: Wait>(&mut self, rt: &W, port: &mut P) -> RecTurn
        requires place { (state_of self.old).seat.place < length (P.rules port.old).names }
        requires fits { FitsIf (P.fits port.old (state_of self.old).seat.place) (state_of self.old).seat.pass }
        ensures filed { IsFiled (P.fits port.new) (length (P.rules port.new).names) self.new }
        ensures label { label_of self.new ≡ label_of self.old }
        ensures ahead { GoesAhead P.fits P.rules P.root port.old port.new }
        ensures tallies { Tallies P.count K.holds K.faults self.old → Tallies P.count K.holds K.faults self.new }
        ensures ready { is_ready self.new ≡ true }
    {
        for _ in rt.forever() {
            if self.joined_from().is_some() {
                return RecTurn::Moved;
            }
            let answer = self.turn(port);
            if let RecTurn::Ended(_) = answer {
                return answer;
            }
        }
        unreachable!()
    }

    /// Makes its Leave, if it has joined, and detaches its pass. If the port is busy or has no memory for
    /// the call, the recorder comes back, as it was. If the history is full, no call is made any more.
    pub fn leave(self, port: &mut P) -> Parted<P, K>
        requires place { (state_of self).seat.place < length (P.rules port.old).names }
        requires fits { FitsIf (P.fits port.old (state_of self).seat.place) (state_of self).seat.pass }
        ensures port { Serves P.rules P.root P.busies P.fits (state_of self).seat.place port.old port.new }
        ensures leaves { Leaves P.rules P.root P.busies P.seen P.mine P.count port.old port.new self result }
        ensures alone { LeavesAlone P.rules P.adds P.root P.seen P.kin P.branches port.old port.new (state_of self).seat (left_by result) }
    {
        match self {
            Recorder::Flv(recorder, sink) => match recorder.leave(port) {
                Leaving::Done => Parted::Done(sink),
                Leaving::Busy(recorder) => Parted::Busy(Recorder::Flv(recorder, sink)),
                Leaving::OutOfMemory(recorder) => Parted::OutOfMemory(Recorder::Flv(
                    recorder, sink,
                )),
            },
            Recorder::Ts(recorder, sink) => match recorder.leave(port) {
                Leaving::Done => Parted::Done(sink),
                Leaving::Busy(recorder) => Parted::Busy(Recorder::Ts(recorder, sink)),
                Leaving::OutOfMemory(recorder) => Parted::OutOfMemory(Recorder::Ts(recorder, sink)),
            },
        }
    }

    /// Returns its file alone. The recorder is dropped in its present state.
    pub fn into_file(self) -> K
        ensures { result ≡ sink_of self }
    {
        match self {
            Recorder::Flv(recorder, sink) => {
                drop(recorder);
                sink
            }
            Recorder::Ts(recorder, sink) => {
                drop(recorder);
                sink
            }
        }
    }
}
