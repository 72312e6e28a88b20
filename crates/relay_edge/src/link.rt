//! Links over sockets.
ghost use Rattle.std.specs.Prelude.{◌≡◌, None};
ghost use Rattle.relay_outside.specs.Heard.{HearStep};
ghost use Rattle.relay_outside.specs.Said.{SayStep};

use crate::cells::{CALM, READABLE, WRITABLE};
use crate::life::{Life, STUCK};
use crate::post::Post;
use crate::wire::{Flushed, Wire};
use mio::net::TcpStream;
use relay_outside::{Ending, Heard, Link, News, Said};
use std::alloc::Global;
use std::io::ErrorKind;
use std::marker::Model;
use std::net::SocketAddr;
use std::sync::Arc;

/// A connection, with the address of its peer.
#[derive(Drop)]
pub(crate) struct Guest {
    pub stream: TcpStream,
    pub address: SocketAddr,
}

/// A link over a socket. It calls the system only if the poll has reported that there is something to do.
/// Contracts see none of its bytes.
///
/// The pieces of successive turns are sent by one call of the system. A piece that was taken is kept. It is
/// sent in the first turn that brings none after it, when the buffer is full, or when the link is dropped. A
/// worker doesn't wait while a link keeps bytes that can be sent. If they can't be sent because of a fault,
/// the link fails from then on.
///
/// Its news goes to the log. If it is silent for longer than its server allows, it fails. If the server
/// stops, it answers as at its peer's end. A player does so once nothing is published any more and it was
/// sent all that there was.
pub struct RealLink {
    wire: Wire,
    life: Life,
    failed: u64,
    waited: u64,
    ended: u64,
}

impl Drop for RealLink {
    fn drop(self) {
        let RealLink {
            wire,
            life,
            failed: _,
            waited: _,
            ended: _,
        } = self;
        life.end(&wire.cell.post);
        drop(life);
        drop(wire);
    }
}

impl Model for RealLink {
    ghost use Rattle.relay_outside.specs.Told.{LinkCounts};

    ghost Value = { LinkCounts };

    ghost view = { λ l. record { faults = l.failed; waits = l.waited; ends = l.ended } };
}

impl RealLink {
    /// Creates a link over a stream that is registered under that token.
    pub(crate) fn new(guest: Guest, post: Arc<Post, Global>, token: usize) -> RealLink
        ensures { result ≡ record { faults = 0; waits = 0; ends = 0 } }
    {
        let Guest { stream, address } = guest;
        post.cells.take(token);
        post.add_link();
        if let Some(seat) = post.seat(token) {
            seat.take(post.alloc, address, post.now());
        }
        let life = Life::new(&post, address, token);
        RealLink {
            life,
            wire: Wire::new(stream, post, token),
            failed: 0,
            waited: 0,
            ended: 0,
        }
    }

    /// Ends the link. Its socket is returned if its peer was answered why it isn't served, so that the peer
    /// can read the answer.
    pub(crate) fn leave(self) -> Option<Wire> {
        let RealLink {
            mut wire,
            life,
            failed: _,
            waited: _,
            ended: _,
        } = self;
        life.end(&wire.cell.post);
        let answered = life.is_answered();
        drop(life);
        if answered {
            wire.cell.part();
            return Some(wire);
        }
        drop(wire);
        None
    }
}

// Returns whether a link has been silent for too long: its peer gave nothing, or takes none of the bytes kept
// for it.
fn is_silent(life: &mut Life, wire: &mut Wire) -> bool {
    if life.is_silent(&wire.cell.post) {
        if !wire.has_bytes() {
            return true;
        }
        life.forgive();
        return false;
    }
    let Some(patience) = life.patience(&wire.cell.post) else {
        return false;
    };
    if !wire.is_stuck(patience) {
        return false;
    }
    life.stick(patience);
    true
}

// Returns whether a link ends by itself: its server stops, its peer was refused too often, or the broadcast
// that it had over HTTP is over.
fn is_over(life: &mut Life, wire: &mut Wire) -> bool {
    let empty = wire.outbox.is_empty();
    if life.is_barred() {
        return life.is_barred_long(&wire.cell.post, empty);
    }
    if life.is_left(&wire.cell.post, empty) {
        return wire.is_shut();
    }
    if !wire.cell.post.watch.is_stopped() {
        return false;
    }
    let done = empty || wire.is_stuck(STUCK);
    if !life.is_over(&wire.cell.post, done) {
        return false;
    }
    !life.plays() || !empty || wire.is_shut()
}

impl Link for RealLink {
    ghost counts = { λ l. l };

    ghost told = { λ _. None };

    ghost hears = { λ l room answer m. HearStep room None None l m answer };

    ghost says = { λ l piece answer m. SayStep piece None None l m answer };

    ghost ready = { λ l answer. Unit {0} };

    fn is_ready(&self) -> bool {
        let ready = self.wire.is_ready() || self.life.is_due(&self.wire.cell.post);
        if !ready {
            self.wire.cell.add(CALM);
        }
        ready
    }

    fn recv(&mut self, into: &mut [u8]) -> Heard {
        self.wire.cell.ask();
        let gather = self.life.gather(&self.wire.cell.post);
        self.wire.gather(gather);
        if self.wire.settle() == Flushed::Failed || self.wire.broken {
            self.failed = self.failed.saturating_add(1);
            return Heard::Failed;
        }
        self.wire.tell_kept();
        let quiet = self.life.turn(self.wire.cell.post.now());
        self.wire.level(quiet);
        if is_over(&mut self.life, &mut self.wire) {
            self.ended = self.ended.saturating_add(1);
            return Heard::End;
        }
        if self.life.is_barred() {
            self.waited = self.waited.saturating_add(1);
            return Heard::NotYet;
        }
        match self.wire.give(into) {
            Ok(0) => {
                self.ended = self.ended.saturating_add(1);
                Heard::End
            }
            Ok(count) => {
                self.life.give(self.wire.cell.post.now());
                self.life
                    .read(&self.wire.cell.post, into.get(..count).unwrap_or(&[]));
                self.wire.received(count);
                Heard::Bytes(count)
            }
            Err(error) => match error.kind() {
                ErrorKind::WouldBlock => {
                    self.wire.cell.remove(READABLE);
                    if is_silent(&mut self.life, &mut self.wire) {
                        self.failed = self.failed.saturating_add(1);
                        return Heard::Failed;
                    }
                    self.waited = self.waited.saturating_add(1);
                    Heard::NotYet
                }
                ErrorKind::Interrupted => {
                    self.waited = self.waited.saturating_add(1);
                    Heard::NotYet
                }
                _ => {
                    self.wire.cause = Some(error);
                    self.failed = self.failed.saturating_add(1);
                    Heard::Failed
                }
            },
        }
    }

    fn send(&mut self, piece: &[u8]) -> Said {
        self.wire.cell.remove(CALM);
        self.life.look(self.wire.cell.post.now());
        if self.wire.broken || self.life.is_spent() {
            self.failed = self.failed.saturating_add(1);
            return Said::Failed;
        }
        if self.wire.shut > 0 || !self.wire.cell.has(WRITABLE) {
            if is_over(&mut self.life, &mut self.wire)
                || is_silent(&mut self.life, &mut self.wire)
            {
                self.failed = self.failed.saturating_add(1);
                return Said::Failed;
            }
            self.wire.refused = true;
            self.waited = self.waited.saturating_add(1);
            return Said::NotYet;
        }
        let taken = self.wire.take(piece);
        self.wire.tell_kept();
        self.wire.refused = taken == Flushed::Some;
        match taken {
            Flushed::All => {
                self.wire.lag();
                self.life.take(self.wire.cell.post.now());
                Said::Took(piece.len())
            }
            Flushed::Some => {
                self.waited = self.waited.saturating_add(1);
                Said::NotYet
            }
            Flushed::Failed => {
                self.failed = self.failed.saturating_add(1);
                Said::Failed
            }
        }
    }

    fn tell(&self, news: News, app: &[u8], name: &[u8]) {
        match news {
            News::Ended {
                ending: Ending::LinkFault,
                at: _,
            } => {}
            News::Ended { .. } => self.wire.count_kept(),
            _ => {}
        }
        self.life
            .tell(&self.wire.cell.post, news, app, name, self.wire.cause);
    }

    ghost hears_mean = { λ l room answer m some step. step };

    ghost says_mean = { λ l piece answer m some step. step };
}
