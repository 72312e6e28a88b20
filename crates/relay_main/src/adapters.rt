//! Readers and writers as sources and sinks. Contracts see none of their bytes.
ghost use Rattle.std.specs.Prelude.{◌≡◌, ◌↔◌, None};
ghost use Rattle.relay_outside.specs.Get.{GetStep};
ghost use Rattle.relay_outside.specs.Put.{PutStep};

use relay_outside::{Got, Put, Sink, SinkNews, Source};
use std::io;
use std::io::{Read, Write};
use std::marker::Model;

mod config_file;

pub use config_file::ConfigFile;

/// A source over a reader, which keeps the last error. Contracts see how often it has failed.
#[derive(Drop)]
pub struct Reading<R: Read + Drop> {
    inner: R,
    failed: u64,
    last: Option<io::Error>,
}

impl<R: Read + Drop> Model for Reading<R> {
    ghost use Rattle.std.specs.Prelude.{ℕ, ◌≡◌, ◌↔◌, None};

    ghost Value = { ℕ };

    ghost view = { λ s. s.failed };

    ghost invariant = { λ s. (s.last ≡ None) ↔ (s.failed ≡ 0) };
}

impl<R: Read + Drop> Reading<R> {
    pub fn new(inner: R) -> Reading<R>
        ensures { result ≡ 0 }
    {
        Reading {
            inner,
            failed: 0,
            last: None,
        }
    }

    /// Returns the reader.
    pub fn inner(&self) -> &R {
        &self.inner
    }

    /// Returns the error of the last call that failed, or `None` exactly if none has.
    pub fn error(&self) -> Option<io::Error>
        ensures { (result ≡ None) ↔ (self.now ≡ 0) }
    {
        self.last
    }
}

impl<R: Read + Drop> Source for Reading<R> {
    ghost left = { λ _. None };

    ghost faults = { λ s. s };

    ghost gives = { λ s room answer t. GetStep room None None s t answer };

    fn get(&mut self, into: &mut [u8]) -> Got {
        match self.inner.read(into) {
            Ok(0) => Got::End,
            Ok(count) => Got::Bytes(count),
            Err(error) => {
                self.last = Some(error);
                self.failed = self.failed.saturating_add(1);
                Got::Failed
            }
        }
    }

    ghost gives_mean = { λ s room answer t some step. step };
}

/// A sink over a writer that keeps nothing back, with the last error. Contracts see how often it has failed.
#[derive(Drop)]
pub struct Writing<W: Write + Drop> {
    inner: W,
    failed: u64,
    last: Option<io::Error>,
}

impl<W: Write + Drop> Model for Writing<W> {
    ghost use Rattle.std.specs.Prelude.{ℕ, ◌≡◌, ◌↔◌, None};

    ghost Value = { ℕ };

    ghost view = { λ s. s.failed };

    ghost invariant = { λ s. (s.last ≡ None) ↔ (s.failed ≡ 0) };
}

impl<W: Write + Drop> Writing<W> {
    pub fn new(inner: W) -> Writing<W>
        ensures { result ≡ 0 }
    {
        Writing {
            inner,
            failed: 0,
            last: None,
        }
    }

    /// Returns the error of the last call that failed, or `None` exactly if none has.
    pub fn error(&self) -> Option<io::Error>
        ensures { (result ≡ None) ↔ (self.now ≡ 0) }
    {
        self.last
    }
}

impl<W: Write + Drop> Sink for Writing<W> {
    ghost holds = { λ _. None };

    ghost faults = { λ s. s };

    ghost takes = { λ s piece answer t. PutStep piece None None s t answer };

    fn put(&mut self, piece: &[u8]) -> Put {
        let error = match self.inner.write(piece) {
            Ok(count) if count > 0 => return Put::Took(count),
            Ok(_) => io::Error::from(io::ErrorKind::WriteZero),
            Err(error) => error,
        };
        self.last = Some(error);
        self.failed = self.failed.saturating_add(1);
        Put::Failed
    }

    fn tell(&self, _news: SinkNews) {}

    ghost takes_mean = { λ s piece answer t some step. step };
}
