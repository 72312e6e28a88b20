//! The film that is sent: a reader as a source, at the film's own pace if that is asked for.
ghost use Rattle.std.specs.Prelude.{◌≡◌, ◌↔◌, None};
ghost use Rattle.relay_outside.specs.Get.{GetStep};

use crate::clock::wait_until;
use crate::flow::Flow;
use crate::output::Watch;
use crate::pace::{Haste, Pace};
use crate::place::Place;
use relay_outside::{Got, Source};
use std::alloc::Global;
use std::io;
use std::io::Read;
use std::marker::Model;
use std::sync::Arc;

/// What is wrong with a film.
#[derive(Clone, Copy, Debug, PartialEq, Eq)]
pub enum FilmFault {
    /// Its bytes are no FLV.
    NoFilm,
    /// It ends inside its header or a tag.
    BreaksOff,
    /// A tag's body has more than 2^22 bytes.
    TooLong,
}

/// A source over a reader of FLV, which keeps the last error. No answer has bytes on both sides of a boundary:
/// the end of the header, of a tag's head or of a tag. Contracts see how often it has failed.
#[derive(Drop)]
pub struct PeerFilm<R: Read + Drop, O: Watch> {
    inner: R,
    flow: Arc<Flow, Global>,
    watch: O,
    // The first byte, if it was read before it was asked for.
    first: Option<u8>,
    place: Place,
    pace: Pace,
    // Each tag waits for its time.
    paced: bool,
    // When the next bytes are due.
    due: u64,
    // The reader has no more.
    ended: bool,
    failed: u64,
    last: Option<io::Error>,
}

impl<R: Read + Drop, O: Watch> Model for PeerFilm<R, O> {
    ghost use Rattle.std.specs.Prelude.{ℕ, ◌≡◌, ◌↔◌, None};

    ghost Value = { ℕ };

    ghost view = { λ s. s.failed };

    ghost invariant = { λ s. (s.last ≡ None) ↔ (s.failed ≡ 0) };
}

impl<R: Read + Drop, O: Watch> PeerFilm<R, O> {
    /// Creates a film over a reader. If it is `paced`, each tag waits until its time has come.
    pub fn new(inner: R, flow: Arc<Flow, Global>, watch: O, paced: bool) -> PeerFilm<R, O>
        ensures { result ≡ 0 }
    {
        PeerFilm {
            inner,
            flow,
            watch,
            first: None,
            place: Place::new(),
            pace: Pace::new(),
            paced,
            due: 0,
            ended: false,
            failed: 0,
            last: None,
        }
    }

    /// Waits for the first byte, and returns whether it came. Returns `None` if the reader failed.
    pub fn begins(&mut self) -> Option<bool> {
        let mut room = [0u8; 1];
        match self.inner.read(&mut room) {
            Ok(0) => Some(false),
            Ok(_) => {
                self.first = Some(room[0]);
                Some(true)
            }
            Err(error) => {
                self.last = Some(error);
                self.failed = self.failed.saturating_add(1);
                None
            }
        }
    }

    /// Returns the observer.
    pub fn watch(&mut self) -> &mut O {
        &mut self.watch
    }

    /// Returns the error of the last call that failed, or `None` exactly if none has.
    pub fn error(&self) -> Option<io::Error>
        ensures { (result ≡ None) ↔ (self.now ≡ 0) }
    {
        self.last
    }

    /// Returns what is wrong with a film that was refused.
    pub fn fault(&self) -> FilmFault {
        if self.place.is_too_long() {
            FilmFault::TooLong
        } else if self.ended && self.place.is_inside() {
            FilmFault::BreaksOff
        } else {
            FilmFault::NoFilm
        }
    }

    /// Returns how fast the film was given, if that was much faster than it plays.
    pub fn haste(&self) -> Option<Haste> {
        if self.paced { None } else { self.pace.haste() }
    }

    // Passes bytes that are given.
    fn pass(&mut self, bytes: &[u8])
        ensures { self.new ≡ self.old }
    {
        let tags = self.place.tags();
        self.place.pass(bytes);
        if self.place.tags() != tags {
            let due = self.pace.due(self.place.time());
            if self.paced {
                self.due = due;
            }
        }
        self.watch.passed(&self.place);
    }
}

impl<R: Read + Drop, O: Watch> Source for PeerFilm<R, O> {
    ghost left = { λ _. None };

    ghost faults = { λ s. s };

    ghost gives = { λ s room answer t. GetStep room None None s t answer };

    fn get(&mut self, into: &mut [u8]) -> Got {
        self.flow.ask();
        if let Some(byte) = self.first.take() {
            into[0] = byte;
            self.pass(&[byte]);
            return Got::Bytes(1);
        }
        wait_until(self.due);
        let most = usize::try_from(self.place.left()).unwrap_or(usize::MAX);
        let most = most.min(into.len());
        match self.inner.read(&mut into[..most]) {
            Ok(0) => {
                self.ended = true;
                self.flow.end();
                Got::End
            }
            Ok(count) => {
                self.pass(&into[..count]);
                Got::Bytes(count)
            }
            Err(error) => {
                self.flow.end();
                self.last = Some(error);
                self.failed = self.failed.saturating_add(1);
                Got::Failed
            }
        }
    }

    ghost gives_mean = { λ s room answer t some step. step };
}
