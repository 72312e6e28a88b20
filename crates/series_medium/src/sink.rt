//! A sink that reads frames.
ghost use Rattle.std.specs.Prelude.{◌≡◌, ◌≤◌, ◌<◌, ◌-◌, [], length, slice_index, None, Some, Result};
ghost use Rattle.relay_outside.specs.Counts.{risen};
ghost use Rattle.file_series.specs.declared.series.SeriesFail.{SeriesFail};
ghost use Rattle.series_medium.specs.declared.part.Part.TheVariants.{Kind, Data};
ghost use Rattle.series_medium.specs.Heads.{IsHeadOf, head_behind};
ghost use Rattle.series_medium.specs.Sinks.{EndsBy, SinkTakes, Tells, put_of, refused_again};
ghost use Rattle.series_medium.specs.Reading.{behind};

use crate::part::{Part, data_or_kind, read_head};
use file_series::{FileSeries, SeriesFail};
use past::Flow;
use relay_outside::{Put, Sink, SinkNews};
use std::marker::Model;
use std::snapshot::Snapshot;

/// A sink that writes a series of files: it reads the frames that it takes, and does what they say.
///
/// A put takes bytes up to the end of the data that is there of a frame, or up to the end of a file, with one call of the series
/// at most. Once a call has failed, nothing more is taken, and each put answers that failure again. A byte that no frame has there
/// is refused as `Failed`, and counts as a fault of the sink.
#[derive(Drop)]
pub struct SeriesSink<F: FileSeries> {
    series: F,
    part: Part,
    stopped: Option<SeriesFail>,
    refused: u64,
    began: Snapshot<F>,
    taken: Flow<u8>,
    handed: Flow<u8>,
}

impl<F: FileSeries> Model for SeriesSink<F> {
    ghost use Rattle.series_medium.specs.Sinks.{SinkState, IsSink};

    ghost Value = { SinkState F };

    ghost view = { λ k. record {
      bytes = k.taken;
      began = F.told k.began.value;
      series = k.series;
      stopped = k.stopped;
      handed = k.handed;
      refused = k.refused;
    } };

    ghost invariant = { λ k. IsSink (F.told k.began.value) (F.told k.series) k.taken k.part k.stopped k.handed };
}

// The answer of a put as the series fails.
fn put_of(fail: SeriesFail) -> Put
    ensures { result ≡ put_of fail }
{
    match fail {
        SeriesFail::Failed => Put::Failed,
        SeriesFail::OutOfMemory => Put::OutOfMemory,
    }
}

// One more, up to the last value of a u64.
fn risen(count: u64) -> u64
    ensures { result ≡ risen count }
{
    count.saturating_add(1)
}

// The puts that failed without a call of the series, with one more that answers this failure again.
fn refused_again(fail: SeriesFail, refused: u64) -> u64
    ensures { result ≡ refused_again fail refused }
{
    match fail {
        SeriesFail::Failed => risen(refused),
        SeriesFail::OutOfMemory => refused,
    }
}

// A history of these bytes.
fn history(bytes: &[u8]) -> Flow<u8>
    ensures { result ≡ bytes.now }
{
    let mut flow = Flow::new();
    flow.add_all(bytes);
    flow
}

// The number of bytes of data behind the head, of which at most so many are left.
fn data_there(piece: &[u8], used: usize, left: u32) -> usize
    requires { used ≤ length piece.now }
    ensures within { result ≤ length piece.now - used }
    ensures fits { result ≤ left }
    ensures some { used < length piece.now → 0 < left → 0 < result }
{
    (piece.len() - used).min(left as usize)
}

impl<F: FileSeries> SeriesSink<F> {
    /// Makes a sink that has taken nothing.
    pub fn new(series: F) -> SeriesSink<F>
        ensures { result ≡ record { bytes = []; began = F.told series; series = series; stopped = None; handed = []; refused = 0 } }
    {
        let began = Snapshot::of(&series);
        SeriesSink {
            series,
            part: Part::Kind,
            stopped: None,
            refused: 0,
            began,
            taken: Flow::new(),
            handed: Flow::new(),
        }
    }

    /// Returns its series.
    pub fn series(&self) -> &F
        ensures { result.now ≡ self.now.series }
    {
        &self.series
    }

    /// Shows what the series tells: the files of the bytes that the sink took. Once a call of the series has failed, these and at
    /// most some bytes more of the piece that the sink was handed then.
    pub fn law(&self)
        ensures { Tells self.now.stopped self.now.began self.now.bytes self.now.handed (F.told self.now.series) }
    {
        let _ = &self.part;
    }

    /// Ends the open file, and gives the series back with its answer. If a call of the series has failed before, its open file isn't
    /// whole: it stays as it is, and the answer is that failure.
    pub fn finish(self) -> (F, Result<(), SeriesFail>)
        ensures { EndsBy F.told F.faults self.stopped self result.0 result.1 }
    {
        let SeriesSink {
            mut series,
            part: _,
            stopped,
            refused: _,
            began: _,
            taken: _,
            handed: _,
        } = self;
        match stopped {
            Some(fail) => (series, Err(fail)),
            None => {
                let answer = series.next(None);
                (series, answer)
            }
        }
    }

    /// Ends the open file as [`SeriesSink::finish`] does, and gives the series back.
    pub fn into_series(self) -> F
        ensures { (answer : Result (Unit {0}) SeriesFail) × EndsBy F.told F.faults self.stopped self result answer }
    {
        self.finish().0
    }

    // Takes the head of a frame, if some of it is there. Else the first byte is none that a frame has there.
    fn take_head(&mut self, piece: &[u8], used: usize, part: Part) -> Put
        requires head { IsHeadOf self.old.bytes piece.now used part }
        requires ends { used < length piece.now → behind part (slice_index piece.now used) ≡ None }
        requires some { 0 < length piece.now }
        requires works { self.old.stopped ≡ None }
        ensures { SinkTakes F.told F.faults self.old piece.now result self.new }
    {
        if used == 0 {
            self.refused = risen(self.refused);
            return Put::Failed;
        }
        self.taken.add_all(&piece[..used]);
        self.part = part;
        Put::Took(used)
    }

    // Takes the head of a frame, and of the data behind it what is there.
    fn take_data(&mut self, piece: &[u8], used: usize, left: u32) -> Put
        requires head { IsHeadOf self.old.bytes piece.now used (Data left) }
        requires some { 0 < length piece.now }
        requires works { self.old.stopped ≡ None }
        ensures { SinkTakes F.told F.faults self.old piece.now result self.new }
    {
        if used == piece.len() {
            return self.take_head(piece, used, Part::Data { left });
        }
        let count = data_there(piece, used, left);
        let behind = &piece[used..];
        match self.series.put(&behind[..count]) {
            Ok(()) => {
                self.taken.add_all(&piece[..used + count]);
                self.part = data_or_kind(left - count as u32);
                Put::Took(used + count)
            }
            Err(fail) => {
                self.stopped = Some(fail);
                self.handed = history(piece);
                put_of(fail)
            }
        }
    }

    // Takes the head of a frame that ends a file, which is a byte 1 there.
    fn take_end(&mut self, piece: &[u8], used: usize) -> Put
        requires head { IsHeadOf self.old.bytes piece.now used Kind }
        requires there { used < length piece.now }
        requires one { slice_index piece.now used ≡ 1 }
        requires works { self.old.stopped ≡ None }
        ensures { SinkTakes F.told F.faults self.old piece.now result self.new }
    {
        match self.series.next(None) {
            Ok(()) => {
                self.taken.add_all(&piece[..used + 1]);
                self.part = Part::Kind;
                Put::Took(used + 1)
            }
            Err(fail) => {
                self.stopped = Some(fail);
                self.handed = history(piece);
                put_of(fail)
            }
        }
    }

    // Takes the head of a frame and what follows it, where the head ends at a kind.
    #[tactic(auto, using(crate::proofs::Sinking::kind_ends))]
    fn take_kind(&mut self, piece: &[u8], used: usize) -> Put
        requires head { IsHeadOf self.old.bytes piece.now used Kind }
        requires ends { used < length piece.now → head_behind Kind (slice_index piece.now used) ≡ None }
        requires some { 0 < length piece.now }
        requires works { self.old.stopped ≡ None }
        ensures { SinkTakes F.told F.faults self.old piece.now result self.new }
    {
        if used < piece.len() {
            if piece[used] == 1 {
                return self.take_end(piece, used);
            }
        }
        self.take_head(piece, used, Part::Kind)
    }

    // Takes some bytes, if no call of the series has failed.
    fn take(&mut self, piece: &[u8]) -> Put
        requires some { 0 < length piece.now }
        requires works { self.old.stopped ≡ None }
        ensures { SinkTakes F.told F.faults self.old piece.now result self.new }
    {
        let (part, used) = read_head(self.part, piece);
        match part {
            Part::Kind => self.take_kind(piece, used),
            Part::Data { left } => self.take_data(piece, used, left),
            Part::Length1 => self.take_head(piece, used, Part::Length1),
            Part::Length2(a) => self.take_head(piece, used, Part::Length2(a)),
            Part::Length3(a, b) => self.take_head(piece, used, Part::Length3(a, b)),
            Part::Length4(a, b, c) => self.take_head(piece, used, Part::Length4(a, b, c)),
        }
    }
}

impl<F: FileSeries> Sink for SeriesSink<F> {
    ghost use Rattle.std.specs.Prelude.{Some};
    ghost use Rattle.series_medium.specs.Sinks.{SinkTakes, sink_faults};
    ghost use Rattle.series_medium.specs.Meaning.{sink_takes_mean};

    ghost holds = { λ k. Some k.bytes };

    ghost faults = { λ k. sink_faults F.faults k };

    ghost takes = { SinkTakes F.told F.faults };

    fn put(&mut self, piece: &[u8]) -> Put {
        match self.stopped {
            Some(fail) => {
                self.refused = refused_again(fail, self.refused);
                put_of(fail)
            }
            None => self.take(piece),
        }
    }

    fn tell(&self, _news: SinkNews) {}

    ghost takes_mean = { sink_takes_mean F.told F.faults };
}
