//! News of a player for its link, each thing once, as it changes.

use command_dialog::{Ask, Grant};
use http_flv::{HttpEnd, HttpPlayer, HttpTurn, Stage};
use http_request::Refusal;
use relay_outside::{Denied, Ending, Link, News, Rest};
use relay_session::{Desk, Met};
use relay_worker::{stream_number, tell_missed};
use std::cell::Cell;
use stream_registry::StreamPort;

// The most bytes of a name that are told.
const TOLD: usize = 64;

// The first bytes of a text.
#[derive(Clone, Copy)]
struct Short {
    bytes: [u8; TOLD],
    len: usize,
}

impl Short {
    fn of(text: &[u8]) -> Short {
        let mut bytes = [0; TOLD];
        for (to, from) in bytes.iter_mut().zip(text) {
            *to = *from;
        }
        Short {
            bytes,
            len: text.len(),
        }
    }

    fn as_slice(&self) -> &[u8] {
        &self.bytes[..self.len.min(TOLD)]
    }
}

/// The names that a request asks for: the first 64 bytes of the application and of the name.
#[derive(Clone, Copy)]
pub struct Request {
    app: Short,
    name: Short,
}

impl Request {
    fn of(ask: &Ask) -> Request {
        Request {
            app: Short::of(ask.app.as_slice()),
            name: Short::of(ask.name.as_slice()),
        }
    }
}

// A desk that notes the last request to it.
pub(crate) struct NotingDesk<'a, G: Desk> {
    pub(crate) inner: &'a G,
    pub(crate) noted: Cell<Option<Request>>,
}

impl<G: Desk> Desk for NotingDesk<'_, G> {
    ghost grants = { λ d. G.grants d.inner.now };

    fn grant(&self, ask: &Ask) -> Grant {
        self.noted.set(Some(Request::of(ask)));
        self.inner.grant(ask)
    }
}

// The number for hints of the stream that a player plays, which had this one and has come so far. The rest
// hears of a new one.
pub(crate) fn hinted<P: StreamPort, R: Rest>(
    port: &P,
    rest: &mut R,
    stream: Option<u32>,
    stage: Stage,
    asked: &Option<Request>,
) -> Option<u32> {
    if stream.is_some() {
        return stream;
    }
    let Stage::Playing { place, player: _ } = stage else {
        return None;
    };
    let (app, name) = names(asked);
    let number = stream_number(port, app, name, place);
    rest.plays(number);
    Some(number)
}

// How far a player has come, and the answers that it has had.
#[derive(Clone, Copy)]
pub(crate) struct Before {
    stage: Stage,
    met: Met,
}

impl Before {
    pub(crate) fn of<P: StreamPort>(player: &HttpPlayer<P>) -> Before {
        Before {
            stage: player.stage(),
            met: player.met(),
        }
    }
}

// Tells a link the effect of a turn of its player. `before` and `after` are its states around the turn, and
// `asked` is its request.
pub(crate) fn told<L: Link>(
    link: &L,
    asked: &Option<Request>,
    before: Before,
    after: Before,
    answer: HttpTurn,
) {
    if let Some(request) = asked {
        if before.stage != after.stage {
            tell(link, request, reached(after.stage));
        }
        let (app, name) = (request.app.as_slice(), request.name.as_slice());
        tell_missed(link, before.met, after.met, app, name);
    }
    if let HttpTurn::Ended(end) = answer {
        let (app, name) = names(asked);
        let ending = ending(end);
        link.tell(News::Ended { ending, at: None }, app, name);
    }
}

fn tell<L: Link>(link: &L, request: &Request, news: Option<News>) {
    if let Some(news) = news {
        link.tell(news, request.app.as_slice(), request.name.as_slice());
    }
}

// The names of the request, empty if there is none.
fn names(asked: &Option<Request>) -> (&[u8], &[u8]) {
    match asked {
        None => (b"", b""),
        Some(request) => (request.app.as_slice(), request.name.as_slice()),
    }
}

// The news of a player that has reached this stage.
fn reached(stage: Stage) -> Option<News> {
    match stage {
        Stage::Reading | Stage::Joining { .. } => None,
        Stage::Playing { .. } => Some(News::Plays),
        Stage::Telling { refusal } => Some(News::Denied(denied(refusal)?)),
    }
}

// The reason why a player may not play, if its request asks to play.
fn denied(refusal: Refusal) -> Option<Denied> {
    match refusal {
        Refusal::BadRequest | Refusal::MethodNotAllowed => None,
        Refusal::NotFound => Some(Denied::NoName),
        Refusal::Forbidden => Some(Denied::WrongKey),
        Refusal::ServiceUnavailable => Some(Denied::Full),
    }
}

fn ending(end: HttpEnd) -> Ending {
    match end {
        HttpEnd::PeerClosed | HttpEnd::Closed => Ending::PeerClosed,
        HttpEnd::LinkFault => Ending::LinkFault,
        HttpEnd::Answered { code } => Ending::Answered(code),
        HttpEnd::Worn => Ending::Worn,
        HttpEnd::OutOfMemory => Ending::OutOfMemory,
    }
}
