//! The state of a link: its activity, and how long it has been silent.

ghost use Rattle.std.specs.Prelude.{◌≡◌, ◌<◌, min};

use crate::audience::Audience;
use crate::cause::Cause;
use crate::client::Client;
use crate::forwarded::Head;
use crate::link_line::LinkLine;
use crate::missed::Missed;
use crate::post::Post;
use crate::seats::Doing;
use crate::throttle::Kind;
use crate::wire::FAREWELL;
use log::log;
use relay_outside::{Denied, Ending, News};
use std::cell::Cell;
use std::io;
use std::net::SocketAddr;

/// The factor of a player's patience: a player may take no bytes for this many times the silence that another
/// link may keep.
const PLAYERS: u64 = 3;

/// The silence after which a publisher gives its name to another client that asks for it, in milliseconds.
const GIVES_WAY: u64 = 2_000;

/// How long a player must have been sent nothing before a server that stops lets it go, in milliseconds.
const QUIET: u64 = 200;

/// The number of turns with nothing to send that the player must also have had.
const QUIET_TURNS: u32 = 4;

/// The time without any bytes taken after which a server that stops lets a player go before it was sent all,
/// in milliseconds.
pub const STUCK: u64 = 5_000;

/// The time after which a server that stops lets every player go, in milliseconds.
const AT_LAST: u64 = 30_000;

/// The time after which a link is looked into even without an event, in milliseconds. A change that no event
/// reported is found then.
pub const STALE: u64 = 500;

/// How long a client may take to complete an HTTP request, in milliseconds.
const HEAD: u64 = 5_000;

/// The number of refusals after which nothing more is read from a peer.
const REFUSALS: u32 = 3;

/// How long a player over HTTP stays after the last byte of a broadcast that is over, in milliseconds.
const AFTER: u64 = 2_000;

// Returns the shorter of two times, where a `most` of 0 is without limit.
fn at_most(limit: u64, most: u64) -> u64
    ensures without { most ≡ 0 → result ≡ limit }
    ensures within { 0 < most → result ≡ min limit most }
{
    if most == 0 { limit } else { limit.min(most) }
}

/// The life of a link, by the clock of its worker in milliseconds.
#[derive(Drop)]
pub struct Life {
    client: Client,
    // The head of its request, if its peer is a proxy and the head isn't over.
    head: Option<Head>,
    token: usize,
    doing: Cell<Doing>,
    // When that began.
    changed: Cell<u64>,
    // When it gave bytes last, and when it took some.
    gave: u64,
    took: u64,
    // The turns since then with nothing to send.
    quiet: u32,
    // Its session holds back its next bytes until the peer acknowledges more.
    held_back: Cell<bool>,
    // When it was looked into last.
    looked: u64,
    // It was answered why it isn't served.
    answered: Cell<bool>,
    // Since when no link has published, after the server was told to stop.
    alone: Option<u64>,
    cause: Cause,
    // How often it was refused, and when the last time.
    refusals: Cell<u32>,
    refused: Cell<u64>,
    // The state of the broadcasts that it plays, as far as it has seen them.
    audience: Cell<Audience>,
    // The items that it has missed and that aren't counted yet.
    missed: Cell<Missed>,
}

impl Life {
    /// Creates the state of a new link, whose peer has that address.
    pub fn new(post: &Post, address: SocketAddr, token: usize) -> Life {
        let now = post.now();
        Life {
            client: Client::Peer(address),
            head: post.head_of(address),
            token,
            doing: Cell::new(Doing::Nothing),
            changed: Cell::new(now),
            gave: now,
            took: now,
            quiet: 0,
            held_back: Cell::new(false),
            looked: now,
            answered: Cell::new(false),
            alone: None,
            cause: Cause::Peer,
            refusals: Cell::new(0),
            refused: Cell::new(0),
            audience: Cell::new(Audience::new()),
            missed: Cell::new(Missed::nothing()),
        }
    }

    /// Records that it gave bytes.
    pub fn give(&mut self, now: u64) {
        self.gave = now;
    }

    /// Reads on in the head of its request, if its peer is a proxy. Once the head is over, it is known who asks.
    pub fn read(&mut self, post: &Post, bytes: &[u8]) {
        let Some(head) = &mut self.head else {
            return;
        };
        if !head.read(bytes) {
            return;
        }
        if let Some(address) = post.client_of(head) {
            let proxy = self.client.peer();
            self.client = Client::Forwarded { address, proxy };
            if let Some(seat) = post.seat(self.token) {
                seat.name(self.client);
            }
        }
        self.head = None;
    }

    /// Records that it took bytes.
    pub fn take(&mut self, now: u64) {
        self.took = now;
        self.quiet = 0;
    }

    /// Records that it was looked into.
    pub fn look(&mut self, now: u64) {
        self.looked = now;
    }

    /// Begins a turn. Returns whether the turn before had nothing to send, and nothing is held back.
    pub fn turn(&mut self, now: u64) -> bool {
        self.looked = now;
        self.quiet = self.quiet.saturating_add(1);
        self.quiet > 1 && !self.held_back.get()
    }

    // Returns whether it neither publishes nor plays, and must give its place to a connection that waits.
    fn gives_place(&self, post: &Post) -> bool {
        let idle = matches!(self.doing.get(), Doing::Nothing | Doing::Connected);
        idle && self.is_asked(post)
    }

    /// Returns whether it needs a turn though nothing has come. It does if it wasn't looked into for long or
    /// had too few turns since it took bytes. It also does if it must give its place to a connection that
    /// waits, or the server stops.
    pub fn is_due(&self, post: &Post) -> bool {
        let stale = post.now().saturating_sub(self.looked) >= STALE;
        stale || self.quiet < 2 || self.gives_place(post) || post.watch.is_stopped()
    }

    // Returns whether another client asks for its place, or for the name that it publishes.
    fn is_asked(&self, post: &Post) -> bool {
        post.seat(self.token).is_some_and(|seat| seat.is_asked())
    }

    // Returns how many milliseconds a publisher may give nothing; 0 sets no limit.
    fn publisher_silence(&self, post: &Post) -> u64 {
        let most = post.watch.publisher_silence();
        if self.is_asked(post) {
            at_most(GIVES_WAY, most)
        } else {
            most
        }
    }

    // Returns how many milliseconds it may take until it publishes or plays; 0 sets no limit.
    fn idle_silence(&self, post: &Post) -> u64 {
        let most = post.watch.silence;
        if post.is_http() {
            at_most(HEAD, most)
        } else {
            most
        }
    }

    /// Returns whether it has been silent in its present activity for longer than it may, or must give its
    /// place to a connection that waits.
    pub fn is_silent(&mut self, post: &Post) -> bool {
        let changed = self.changed.get();
        let (most, since) = match self.doing.get() {
            Doing::Plays => return self.has_waited(post),
            Doing::Pulled => return false,
            Doing::Publishes => (self.publisher_silence(post), self.gave.max(changed)),
            Doing::Nothing | Doing::Connected => {
                if self.is_asked(post) {
                    self.cause = Cause::GaveWay;
                    return true;
                }
                (self.idle_silence(post), changed)
            }
        };
        if most == 0 || post.now().saturating_sub(since) < most {
            return false;
        }
        self.cause = Cause::Silent {
            seconds: most / 1000,
        };
        true
    }

    // Looks for a publisher of the stream that it plays.
    fn look_around(&self, post: &Post) -> Audience {
        let mut audience = self.audience.get();
        audience.look(post, self.token, self.changed.get());
        self.audience.set(audience);
        audience
    }

    // Returns whether it has waited for a broadcast for longer than a player may.
    fn has_waited(&mut self, post: &Post) -> bool {
        let most = post.watch.bounds.wait;
        if most == 0 || self.look_around(post).waited(post.now()) < most.saturating_mul(1000) {
            return false;
        }
        self.cause = Cause::Waited { seconds: most };
        true
    }

    /// Returns whether it plays over HTTP a broadcast that is over and of which it was sent a part, and it
    /// took all that there is. Once true, it stays so.
    pub fn is_left(&mut self, post: &Post, empty: bool) -> bool {
        if self.cause == Cause::Left {
            return true;
        }
        if !post.is_http() || self.doing.get() != Doing::Plays {
            return false;
        }
        let over = self.look_around(post).is_left(self.took);
        let still = post.now().saturating_sub(self.took) >= AFTER;
        if !(over && still && empty && self.quiet > 1) {
            return false;
        }
        self.cause = Cause::Left;
        true
    }

    /// Returns whether it was refused so often that nothing more is read from its peer.
    pub fn is_barred(&self) -> bool {
        self.refusals.get() >= REFUSALS
    }

    /// Returns whether it was refused once more after that, and gets no further answer.
    pub fn is_spent(&mut self) -> bool {
        let spent = self.refusals.get() > REFUSALS;
        if spent {
            self.cause = Cause::Barred;
        }
        spent
    }

    /// Returns whether a barred link ends: it took the whole of its answers, or had time to.
    pub fn is_barred_long(&mut self, post: &Post, empty: bool) -> bool {
        let long = post.now().saturating_sub(self.refused.get()) >= FAREWELL;
        if !long && !(empty && self.quiet > 1) {
            return false;
        }
        self.cause = Cause::Barred;
        true
    }

    /// Takes back that it was silent.
    pub fn forgive(&mut self) {
        self.cause = Cause::Peer;
    }

    /// Returns how many milliseconds it may take none of the bytes that wait, if there is a limit.
    pub fn patience(&self, post: &Post) -> Option<u64> {
        let most = post.watch.silence;
        if most == 0 || self.doing.get() != Doing::Plays {
            return None;
        }
        Some(most.saturating_mul(PLAYERS))
    }

    /// Records that it took nothing for `milliseconds`.
    pub fn stick(&mut self, milliseconds: u64) {
        self.cause = Cause::Silent {
            seconds: milliseconds / 1000,
        };
    }

    /// Returns whether it plays.
    pub fn plays(&self) -> bool {
        self.doing.get() == Doing::Plays
    }

    /// Returns how long bytes for it may wait for more bytes, in milliseconds. Those of a player may, and all are
    /// sent at once when the server stops.
    pub fn gather(&self, post: &Post) -> u64 {
        if self.plays() && !post.watch.is_stopped() {
            post.watch.bounds.gather
        } else {
            0
        }
    }

    /// Returns whether it was answered why it isn't served.
    pub fn is_answered(&self) -> bool {
        self.answered.get() || self.is_barred()
    }

    /// Returns whether it ends because the server stops. A player ends once all publishers are gone and it
    /// was sent the remaining items of their streams, their end too. Any other link ends at once. A player
    /// whose session holds that back has time as long as its peer takes or acknowledges something now and
    /// then.
    pub fn is_over(&mut self, post: &Post, empty: bool) -> bool {
        if !post.watch.is_stopped() {
            return false;
        }
        let over = self.doing.get() != Doing::Plays || self.is_done(post, empty);
        if over {
            self.cause = Cause::Stopped;
        }
        over
    }

    fn is_done(&mut self, post: &Post, empty: bool) -> bool {
        let now = post.now();
        if post.watch.stopping(now) >= AT_LAST {
            return true;
        }
        if post.watch.is_published() {
            return false;
        }
        let alone = match self.alone {
            Some(alone) => alone,
            None => {
                self.alone = Some(now);
                now
            }
        };
        let since = alone.max(self.took);
        if self.held_back.get() {
            return now.saturating_sub(since.max(self.gave)) >= STUCK;
        }
        empty && self.quiet >= QUIET_TURNS && now.saturating_sub(since) >= QUIET
    }

    /// Records that it is gone.
    pub fn end(&self, post: &Post) {
        if self.doing.get() == Doing::Publishes {
            post.watch.end();
        }
    }

    // Counts a refusal.
    fn refuse(&self, post: &Post) {
        self.refusals.set(self.refusals.get().saturating_add(1));
        self.refused.set(post.now());
    }

    // Changes its activity.
    fn change(&self, post: &Post, doing: Doing, app: &[u8], name: &[u8]) {
        if self.doing.get() == Doing::Publishes {
            post.watch.end();
        }
        if doing == Doing::Publishes {
            post.watch.begin(post.alloc, app, name, post.now());
        }
        self.doing.set(doing);
        self.held_back.set(false);
        self.changed.set(post.now());
        self.audience.set(Audience::new());
        if let Some(seat) = post.seat(self.token) {
            seat.tell(post.alloc, doing, app, name, post.now());
        }
    }

    // Sets whether its session holds back its next bytes.
    fn hold_back(&self, post: &Post, held_back: bool) {
        self.held_back.set(held_back);
        if let (Some(seat), true) = (post.seat(self.token), held_back) {
            seat.lag(post.now());
        }
    }

    // Counts the items of the stream that it has missed by this news, and by earlier news that isn't counted yet.
    fn miss(&self, post: &Post, news: News, app: &[u8], name: &[u8]) {
        let missed = self.missed.get().and(Missed::by(news));
        if missed.is_nothing() {
            return;
        }
        let counted = post.watch.miss(post.alloc, app, name, missed, post.now());
        self.missed
            .set(if counted { Missed::nothing() } else { missed });
    }

    /// Takes news of the link, and logs it. `error` is the error of the system call that failed, if one did.
    pub fn tell(&self, post: &Post, news: News, app: &[u8], name: &[u8], error: Option<io::Error>) {
        self.miss(post, news, app, name);
        match news {
            News::Connected => self.change(post, Doing::Connected, app, name),
            News::Publishes => self.change(post, Doing::Publishes, app, name),
            News::Plays => self.change(post, Doing::Plays, app, name),
            News::Left => self.change(post, Doing::Connected, app, b""),
            News::Ended {
                ending: Ending::Answered(_),
                at: _,
            } => self.answered.set(true),
            News::HeldBack | News::Resumed => {
                self.hold_back(post, news == News::HeldBack);
                return;
            }
            News::Skipped(_) | News::LeftOut(_) => return,
            News::Denied(denied) => {
                self.refuse(post);
                if denied == Denied::InUse {
                    post.ask_for_name(app, name);
                }
            }
            News::Ended { .. } => {}
        }
        let line = LinkLine {
            client: self.client,
            news,
            app,
            name,
            cause: self.cause,
            error,
            tally: post.seat(self.token).map(|seat| seat.tally(post.now())),
        };
        let kind = Kind::of(news, self.cause);
        if post.watch.throttle.admits(kind, post.now()) {
            log!(post.watch.log; kind.level(), "{line}");
        }
    }
}
