ghost use Rattle.std.specs.Prelude.{◌≡◌, ◌≢◌, ℕ, ◌+◌, ◌<◌, ◌≤◌, [], true, length, OnOk, IfOk, Some, None};
ghost use Rattle.media_recorder.specs.Mediums.{most_held as most_recorded};
ghost use Rattle.media_recorder.specs.Ports.{FitsIf};
ghost use Rattle.stream_registry.specs.Books.{FitsSole, SeenState, sole_rules};
ghost use Rattle.relay_replay.specs.Cast.{RecorderTurn, AfterRecTurn, EndsBy, IsText, OneAsk, RecTurnsBy, ServesAt};
ghost use Rattle.relay_replay.specs.Cast.{form_of, recorder_of, text_in};
ghost use Rattle.relay_replay.specs.Prints.{RecHolds};
ghost use Rattle.relay_replay.specs.Scenes.{Fits, IsNewRecorder};

use crate::file::File;
use av_unit::OutOfMemory;
use media_recorder::{FlvRecorder, RecEnd, RecTurn, TsRecorder};
use relay_script::Form;
use std::alloc::Global;
use std::marker::Model;
use stream_registry::Sole;

/// A recorder that is to be: the number of its stream, and how it writes.
#[derive(Clone, Copy)]
pub struct Plan {
    pub stream: u32,
    pub form: Form,
}

/// A recorder of either form.
#[derive(Drop)]
pub(crate) enum Writer {
    Flv(FlvRecorder<Sole>),
    Ts(TsRecorder<Sole>),
}

impl Writer {
    // One of that name, as it is planned.
    fn new(alloc: Global, plan: Plan, who: u64, longest: u32) -> Result<Writer, OutOfMemory>
        ensures form { IfOk result (λ w. form_of w ≡ plan.form) }
        ensures seat { IfOk result (λ w. (recorder_of w).seat ≡ record { who = who; place = plan.stream; pass = None; calls = [] }) }
        ensures player { IfOk result (λ w. (recorder_of w).player ≡ None) }
        ensures items { IfOk result (λ w. (recorder_of w).tape.items ≡ []) }
        ensures sent { IfOk result (λ w. (recorder_of w).tape.sent ≡ []) }
        ensures pending { IfOk result (λ w. (recorder_of w).tape.pending ≡ text_in plan.form []) }
        ensures live { IfOk result (λ w. (recorder_of w).end ≡ None) }
        ensures longest { IfOk result (λ w. (recorder_of w).tape.longest ≡ longest) }
    {
        match plan.form {
            Form::Flv => Ok(Writer::Flv(FlvRecorder::new(alloc, plan.stream, who, longest)?)),
            Form::Ts => Ok(Writer::Ts(TsRecorder::new(alloc, plan.stream, who, longest)?)),
        }
    }

    // The bytes that were written are the text of the items that were taken, unless memory was lacking.
    fn law(&self)
        ensures { (recorder_of self.now).end ≢ Some RecEnd.OutOfMemory → IsText (form_of self.now) (recorder_of self.now) }
    {
        match self {
            Writer::Flv(recorder) => recorder.law(),
            Writer::Ts(recorder) => recorder.law(),
        }
    }

    fn held(&self) -> u64
        ensures sum { result ≡ length (recorder_of self.now).tape.pending + (recorder_of self.now).tape.kept }
        ensures most { result ≤ most_recorded (recorder_of self.now).tape.longest }
    {
        match self {
            Writer::Flv(recorder) => recorder.held(),
            Writer::Ts(recorder) => recorder.held(),
        }
    }

    // One turn.
    fn turn(&mut self, port: &mut Sole, file: &mut File) -> RecTurn
        requires place { (recorder_of self.old).seat.place < length (sole_rules port.old.rules).names }
        requires fits { FitsIf (FitsSole port.old (recorder_of self.old).seat.place) (recorder_of self.old).seat.pass }
        ensures form { form_of self.new ≡ form_of self.old }
        ensures turn { RecTurnsBy port.old (recorder_of self.old) file.old result port.new (recorder_of self.new) file.new }
        ensures took { file.old.bytes ≡ (recorder_of self.old).tape.sent → file.new.bytes ≡ (recorder_of self.new).tape.sent }
        ensures ends { EndsBy result (recorder_of self.new).end }
        ensures longest { (recorder_of self.new).tape.longest ≡ (recorder_of self.old).tape.longest }
        ensures place { (recorder_of self.new).seat.place ≡ (recorder_of self.old).seat.place }
        ensures fits { FitsIf (FitsSole port.new (recorder_of self.new).seat.place) (recorder_of self.new).seat.pass }
        ensures who { (recorder_of self.new).seat.who ≡ (recorder_of self.old).seat.who }
        ensures port { ServesAt (recorder_of self.old).seat.place port.old port.new }
        ensures alone { OneAsk port.old port.new (recorder_of self.old).seat (recorder_of self.new).seat }
    {
        match self {
            Writer::Flv(recorder) => recorder.turn(port, file),
            Writer::Ts(recorder) => recorder.turn(port, file),
        }
    }
}

/// A recorder with its file.
#[derive(Drop)]
pub(crate) struct Recording {
    writer: Writer,
    file: File,
    ended: Option<RecEnd>,
}

impl Model for Recording {
    ghost use Rattle.relay_replay.specs.Cast.{RecState, form_of, recorder_of};

    ghost Value = { RecState };

    ghost view = { λ r. record { form = form_of r.writer; recorder = recorder_of r.writer; file = r.file; ended = r.ended } };
}

impl Recording {
    // A recorder of that name, as it is planned, with an empty file. It writes units of at most `longest` bytes.
    pub(crate) fn new(
        alloc: Global,
        plan: Plan,
        who: u64,
        longest: u32,
    ) -> Result<Recording, OutOfMemory>
        ensures new { IfOk result (λ r. IsNewRecorder who plan r) }
        ensures longest { IfOk result (λ r. r.recorder.tape.longest ≡ longest) }
    {
        let writer = Writer::new(alloc, plan, who, longest)?;
        Ok(Recording {
            writer,
            file: File::new(alloc),
            ended: None,
        })
    }

    // Lets its next put fail.
    pub(crate) fn fail_put(&mut self)
        ensures { self.new ≡ record self.old { file = record self.old.file { put_fails = true } } }
    {
        self.file.fail_put();
    }

    pub(crate) fn bytes(&self) -> &[u8]
        ensures { result.now ≡ self.now.file.bytes }
    {
        self.file.bytes()
    }

    pub(crate) fn ended(&self) -> Option<RecEnd>
        ensures { result ≡ self.now.ended }
    {
        self.ended
    }

    pub(crate) fn held(&self) -> u64
        ensures { RecHolds self.now result }
    {
        self.writer.held()
    }

    // One turn. A recorder that has ended makes no further call.
    pub(crate) fn turn(&mut self, port: &mut Sole) -> Result<(), OutOfMemory>
        requires { Fits port.old self.old }
        ensures turn { OnOk result (RecorderTurn port.old self.old port.new self.new) }
        ensures fits { Fits port.new self.new }
        ensures fixed { sole_rules port.new.rules ≡ sole_rules port.old.rules }
        ensures others { (q : ℕ) (p : SeenState) → FitsSole port.old q p → FitsSole port.new q p }
    {
        let answer = self.writer.turn(port, &mut self.file);
        self.writer.law();
        rested(&mut self.ended, answer)
    }
}

// Takes the step that follows a recorder's turn.
fn rested(ended: &mut Option<RecEnd>, answer: RecTurn) -> Result<(), OutOfMemory>
    ensures { OnOk result (AfterRecTurn answer ended.old ended.new) }
{
    match answer {
        RecTurn::Moved => Ok(()),
        RecTurn::Idle => Ok(()),
        RecTurn::Busy => Ok(()),
        RecTurn::Ended(RecEnd::OutOfMemory) => Err(OutOfMemory),
        RecTurn::Ended(end) => {
            *ended = Some(end);
            Ok(())
        }
    }
}
