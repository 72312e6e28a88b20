//! News of a session for its link, each thing once, as it changes.

use crate::hints::stream_number;
use command_dialog::{Ask, Grant, Role};
use relay_outside::{Denied, Ending, Link, News};
use relay_session::{Active, Desk, End, Met, Session, Turn};
use std::cell::Cell;
use stream_registry::StreamPort;

// The most bytes of a name that are told.
const TOLD: usize = 64;

/// The request of a peer: to publish or to play, and the first 64 bytes of the name.
#[derive(Clone, Copy)]
pub struct Request {
    role: Role,
    name: [u8; TOLD],
    len: usize,
}

impl Request {
    fn of(ask: &Ask) -> Request {
        let mut name = [0; TOLD];
        let asked = ask.name.as_slice();
        for (to, from) in name.iter_mut().zip(asked) {
            *to = *from;
        }
        Request {
            role: ask.role,
            name,
            len: asked.len(),
        }
    }

    fn name(&self) -> &[u8] {
        &self.name[..self.len.min(TOLD)]
    }
}

// A request to a desk, and the desk's grant.
#[derive(Clone, Copy)]
pub(crate) struct Noted {
    asked: Request,
    grant: Grant,
}

// A desk that notes the last request to it.
pub(crate) struct NotingDesk<'a, G: Desk> {
    pub(crate) inner: &'a G,
    pub(crate) noted: Cell<Option<Noted>>,
}

impl<G: Desk> Desk for NotingDesk<'_, G> {
    ghost grants = { λ d. G.grants d.inner.now };

    fn grant(&self, ask: &Ask) -> Grant {
        let grant = self.inner.grant(ask);
        let asked = Request::of(ask);
        self.noted.set(Some(Noted { asked, grant }));
        grant
    }
}

// The state of a session before a turn.
#[derive(Clone, Copy)]
pub(crate) struct Before {
    connected: bool,
    active: Active,
    held_back: bool,
    met: Met,
}

impl Before {
    pub(crate) fn of<P: StreamPort>(session: &Session<P>) -> Before {
        Before {
            connected: session.app().is_some(),
            active: session.active(),
            held_back: is_held_back(session),
            met: session.met(),
        }
    }
}

// Tells a link the effect of a turn of its session. `before` is the state before the turn, `asked` the
// request that waited or was granted then, and `noted` the request to the desk in that turn. Returns the
// request that waits or is granted after it. A peer asks anew only once its last request is over. A request
// that had to wait, was granted and was ended by the peer, all in one turn, is told as refused.
pub(crate) fn told<P: StreamPort, L: Link>(
    link: &L,
    session: &Session<P>,
    before: Before,
    asked: Option<Request>,
    noted: Option<Noted>,
    answer: Turn,
) -> Option<Request> {
    let app = app_of(session);
    if !before.connected && session.app().is_some() {
        link.tell(News::Connected, app, b"");
    }
    let mut asked = asked;
    let mut was = before.active;
    let mut held_back_before = before.held_back;
    let met = session.met();
    if let Some(noted) = noted {
        if let Some(older) = asked {
            link.tell(over(older.role, was, met.denied), app, older.name());
        }
        asked = judged(link, app, noted);
        was = Active::Nothing;
        held_back_before = false;
    }
    if let Turn::Ended(end) = answer {
        link.tell(ended(end), app, name_of(&asked));
        return None;
    }
    let asked = asked?;
    let now = session.active();
    let waits = session.waits();
    if let Some(news) = change(asked.role, was, now, waits, met.denied) {
        link.tell(news, app, asked.name());
    }
    if let Some(news) = pace(now, held_back_before, is_held_back(session)) {
        link.tell(news, app, asked.name());
    }
    tell_missed(link, before.met, met, app, asked.name());
    if now == Active::Nothing && !waits {
        return None;
    }
    Some(asked)
}

/// Tells the link of a player how many items it has missed since these answers, if it has missed any.
pub fn tell_missed<L: Link>(link: &L, before: Met, now: Met, app: &[u8], name: &[u8]) {
    if now.skipped > before.skipped {
        link.tell(News::Skipped(now.skipped - before.skipped), app, name);
    }
    if now.left_out > before.left_out {
        link.tell(News::LeftOut(now.left_out - before.left_out), app, name);
    }
}

// The number for hints of the stream that was granted last, to a session that had this one.
pub(crate) fn granted<P: StreamPort>(
    port: &P,
    session: &Session<P>,
    stream: Option<u32>,
    noted: Option<Noted>,
) -> Option<u32> {
    let Some(noted) = noted else {
        return stream;
    };
    match noted.grant {
        Grant::Place(place) => Some(stream_number(
            port,
            app_of(session),
            noted.asked.name(),
            place,
        )),
        Grant::NoName => stream,
        Grant::Refused => stream,
    }
}

// Whether a session holds back bytes that it owes to a player.
fn is_held_back<P: StreamPort>(session: &Session<P>) -> bool {
    matches!(session.active(), Active::Plays { player: _ }) && session.is_held_back()
}

// The application to which the peer of a session has connected, empty if it hasn't.
fn app_of<P: StreamPort>(session: &Session<P>) -> &[u8] {
    match session.app() {
        None => b"",
        Some(app) => app.as_slice(),
    }
}

fn name_of(asked: &Option<Request>) -> &[u8] {
    match asked {
        None => b"",
        Some(asked) => asked.name(),
    }
}

// Returns the request, if a place was granted to it. A link is told the reason if none was.
fn judged<L: Link>(link: &L, app: &[u8], noted: Noted) -> Option<Request> {
    let why = match noted.grant {
        Grant::Place(_) => return Some(noted.asked),
        Grant::NoName => Denied::NoName,
        Grant::Refused => Denied::WrongKey,
    };
    link.tell(News::Denied(why), app, noted.asked.name());
    None
}

// The news of a request once it is over.
fn over(role: Role, was: Active, denied: Option<Denied>) -> News {
    if was != Active::Nothing {
        return News::Left;
    }
    let why = match (denied, role) {
        (Some(why), _) => why,
        (None, Role::Publish) => Denied::InUse,
        (None, Role::Play) => Denied::Full,
    };
    News::Denied(why)
}

// The news of a request, if it differs from the news before.
fn change(
    role: Role,
    was: Active,
    now: Active,
    waits: bool,
    denied: Option<Denied>,
) -> Option<News> {
    let news = match now {
        Active::Nothing => return (!waits).then_some(over(role, was, denied)),
        Active::Publishes => News::Publishes,
        Active::Plays { player: _ } => News::Plays,
    };
    (was == Active::Nothing).then_some(news)
}

// The news of a player if its session holds back from now on, or no longer does.
fn pace(now: Active, held_back_before: bool, held_back: bool) -> Option<News> {
    if held_back_before == held_back {
        return None;
    }
    match now {
        Active::Nothing | Active::Publishes => None,
        Active::Plays { player: _ } if held_back => Some(News::HeldBack),
        Active::Plays { player: _ } => Some(News::Resumed),
    }
}

// The end of a session, and the byte at which it came.
fn ended(end: End) -> News {
    let (ending, at) = match end {
        End::PeerClosed => (Ending::PeerClosed, None),
        End::LinkFault => (Ending::LinkFault, None),
        End::BadVersion { at } => (Ending::BadVersion, Some(at)),
        End::BadChunk { cause: _, at } => (Ending::BadChunk, Some(at)),
        End::BadControl { at } => (Ending::BadControl, Some(at)),
        End::BadCommand { at } => (Ending::BadCommand, Some(at)),
        End::TooManyStreams { at } => (Ending::TooManyStreams, Some(at)),
        End::Quit => (Ending::Quit, None),
        End::Worn => (Ending::Worn, None),
        End::OutOfMemory => (Ending::OutOfMemory, None),
    };
    News::Ended { ending, at }
}
