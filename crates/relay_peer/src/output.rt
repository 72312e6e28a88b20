//! The output for a film that comes: a writer as a sink, with the film's times counted from 0 if that is asked
//! for.
ghost use Rattle.std.specs.Prelude.{◌≡◌, ◌↔◌, None};
ghost use Rattle.relay_outside.specs.Put.{PutStep};

use crate::flow::Flow;
use crate::place::Place;
use relay_outside::{Put, Sink, SinkNews};
use std::alloc::Global;
use std::io;
use std::io::Write;
use std::marker::Model;
use std::sync::Arc;

/// The kind of a tag with audio.
const AUDIO: u8 = 8;

/// The kind of a tag with video.
const VIDEO: u8 = 9;

/// An observer of a film that passes.
pub trait Watch: Drop {
    /// The film has passed up to this place.
    fn passed(&mut self, place: &Place);
}

/// A sink over a writer, which takes FLV and keeps the last error. Contracts see how often it has failed.
#[derive(Drop)]
pub struct PeerOutput<W: Write + Drop, O: Watch> {
    inner: W,
    flow: Arc<Flow, Global>,
    watch: O,
    place: Place,
    // The times are counted from 0.
    from_zero: bool,
    // The time that is 0 in the output.
    zero: Option<u32>,
    // The head of the tag that is being written, with its new time.
    head: [u8; 11],
    failed: u64,
    last: Option<io::Error>,
}

impl<W: Write + Drop, O: Watch> Model for PeerOutput<W, O> {
    ghost use Rattle.std.specs.Prelude.{ℕ, ◌≡◌, ◌↔◌, None};

    ghost Value = { ℕ };

    ghost view = { λ s. s.failed };

    ghost invariant = { λ s. (s.last ≡ None) ↔ (s.failed ≡ 0) };
}

// Returns whether a tag of this kind, whose body begins with these two bytes, is an audio or video frame: no
// script data and no configuration of AAC or AVC.
fn is_frame(kind: u8, first: u8, second: u8) -> bool {
    match kind {
        AUDIO => first / 16 != 10 || second != 0,
        VIDEO => first % 16 != 7 || second != 0,
        _ => false,
    }
}

impl<W: Write + Drop, O: Watch> PeerOutput<W, O> {
    /// Creates an output over a writer. With `from_zero`, the first audio or video frame has the time 0, and each
    /// later tag its distance to it. Tags before it have the time 0 too.
    pub fn new(inner: W, flow: Arc<Flow, Global>, watch: O, from_zero: bool) -> PeerOutput<W, O>
        ensures { result ≡ 0 }
    {
        PeerOutput {
            inner,
            flow,
            watch,
            place: Place::new(),
            from_zero,
            zero: None,
            head: [0; 11],
            failed: 0,
            last: None,
        }
    }

    /// Returns the observer.
    pub fn watch(&mut self) -> &mut O {
        &mut self.watch
    }

    /// Returns the error of the last call that failed, or `None` exactly if none has.
    pub fn error(&self) -> Option<io::Error>
        ensures { (result ≡ None) ↔ (self.now ≡ 0) }
    {
        self.last
    }

    /// Returns the number of tags that were begun.
    pub fn tags(&self) -> u64 {
        self.place.tags()
    }

    // Makes the head of the tag whose bytes these are.
    fn make_head(&mut self, tag: &[u8])
        ensures { self.new ≡ self.old }
    {
        let [kind, a, b, c, t1, t2, t3, t0, i, j, k, more @ ..] = tag else {
            return;
        };
        let time = u32::from_be_bytes([*t0, *t1, *t2, *t3]);
        let first = more.first().copied().unwrap_or(0);
        let second = more.get(1).copied().unwrap_or(0);
        if self.zero.is_none() && is_frame(*kind, first, second) {
            self.zero = Some(time);
        }
        let shown = time.saturating_sub(self.zero.unwrap_or(time));
        let [s0, s1, s2, s3] = shown.to_be_bytes();
        self.head = [*kind, *a, *b, *c, s1, s2, s3, s0, *i, *j, *k];
    }

    // Writes bytes from the front of the piece.
    fn write(&mut self, piece: &[u8]) -> io::Result<usize>
        ensures { self.new ≡ self.old }
    {
        if !self.from_zero {
            return self.inner.write(piece);
        }
        if self.place.is_before_tag() {
            self.make_head(piece);
        }
        let left = usize::try_from(self.place.left()).unwrap_or(usize::MAX);
        let most = left.min(piece.len());
        if !self.place.is_in_head() {
            return self.inner.write(&piece[..most]);
        }
        let from = self.head.len().saturating_sub(left);
        match self.head.get(from..from.saturating_add(most)) {
            Some(part) => self.inner.write(part),
            None => Ok(0),
        }
    }
}

impl<W: Write + Drop, O: Watch> Sink for PeerOutput<W, O> {
    ghost holds = { λ _. None };

    ghost faults = { λ s. s };

    ghost takes = { λ s piece answer t. PutStep piece None None s t answer };

    fn put(&mut self, piece: &[u8]) -> Put {
        self.flow.owe(true);
        let error = match self.write(piece) {
            Ok(count) if count > 0 && count <= piece.len() => {
                self.place.pass(&piece[..count]);
                self.watch.passed(&self.place);
                return Put::Took(count);
            }
            Ok(_) => io::Error::from(io::ErrorKind::WriteZero),
            Err(error) => error,
        };
        self.last = Some(error);
        self.failed = self.failed.saturating_add(1);
        Put::Failed
    }

    fn tell(&self, _news: SinkNews) {}

    ghost takes_mean = { λ s piece answer t some step. step };
}
