//! News of an edge for the link to its origin, each thing once.

use origin_pull::EdgeEnd;
use relay_outside::{Denied, Ending, Link, News};
use rtmp_client::ClientEnd;

// The most bytes of a name that are told.
const TOLD: usize = 64;

// The first bytes of a name, and nothing of a key behind it.
fn shown(name: &[u8]) -> &[u8] {
    let most = name.len().min(TOLD);
    for end in 0..most {
        if name[end] == b'?' {
            return &name[..end];
        }
    }
    &name[..most]
}

/// Tells a link that the stream is played, if it is and that wasn't told. Returns whether it was told then.
pub(crate) fn tell_begun<L: Link>(
    link: &L,
    started: bool,
    told: bool,
    app: &[u8],
    name: &[u8],
) -> bool {
    if started && !told {
        link.tell(News::Plays, shown(app), shown(name));
    }
    started || told
}

/// Tells a link that a broadcast has begun or has ended, if the last news of it isn't that. Whether one is live.
pub(crate) fn tell_live<L: Link>(
    link: &L,
    live: bool,
    told: bool,
    app: &[u8],
    name: &[u8],
) -> bool {
    if live != told {
        let news = if live { News::Publishes } else { News::Left };
        link.tell(news, shown(app), shown(name));
    }
    live
}

/// Tells a link why its edge has ended.
pub(crate) fn tell_over<L: Link>(
    link: &L,
    end: EdgeEnd,
    client: &Option<ClientEnd>,
    app: &[u8],
    name: &[u8],
) {
    link.tell(news_of(end, client), shown(app), shown(name));
}

fn over(ending: Ending, at: Option<u64>) -> News {
    News::Ended { ending, at }
}

// If the origin refuses the stream it doesn't say why.
fn client_news(client: &Option<ClientEnd>) -> News {
    match client {
        None => over(Ending::Quit, None),
        Some(ClientEnd::PeerClosed) => over(Ending::PeerClosed, None),
        Some(ClientEnd::LinkFault) => over(Ending::LinkFault, None),
        Some(ClientEnd::BadVersion { at }) => over(Ending::BadVersion, Some(*at)),
        Some(ClientEnd::BadChunk { cause: _, at }) => over(Ending::BadChunk, Some(*at)),
        Some(ClientEnd::BadControl { at }) => over(Ending::BadControl, Some(*at)),
        Some(ClientEnd::BadCommand { at }) => over(Ending::BadCommand, Some(*at)),
        Some(ClientEnd::Refused { .. }) => News::Denied(Denied::NoName),
        Some(ClientEnd::Done) => over(Ending::Quit, None),
        Some(ClientEnd::OutOfMemory) => over(Ending::OutOfMemory, None),
    }
}

fn news_of(end: EdgeEnd, client: &Option<ClientEnd>) -> News {
    match end {
        EdgeEnd::Client => client_news(client),
        EdgeEnd::InUse { by: _ } => News::Denied(Denied::InUse),
        EdgeEnd::Worn => over(Ending::Worn, None),
        EdgeEnd::OutOfMemory => over(Ending::OutOfMemory, None),
        EdgeEnd::NoSlot => News::Denied(Denied::Full),
        EdgeEnd::Closed => over(Ending::Quit, None),
    }
}
