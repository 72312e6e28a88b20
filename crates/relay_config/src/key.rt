ghost use Rattle.std.specs.Prelude.{◌≡◌};
ghost use Rattle.relay_config.specs.Names.{name_of};

/// The keys that a configuration may have. First are `relay`, `stream` and `open` of the whole, then the keys
/// of the table `relay`, then those of each table `stream` and of each table `open`.
#[derive(Clone, Copy, Debug, PartialEq, Eq)]
pub enum Key {
    Relay,
    Stream,
    Open,
    Listen,
    Http,
    Workers,
    Links,
    Accept,
    MaxMessage,
    RingBytes,
    RingItems,
    Players,
    Window,
    HttpLinks,
    App,
    Name,
    Names,
    Publish,
    Play,
    Digest,
    Flv,
    Ts,
}

impl Key {
    /// Returns the key as it is written.
    pub fn name(self) -> &'static str
        ensures { result.now ≡ name_of self }
    {
        match self {
            Key::Relay => "relay",
            Key::Stream => "stream",
            Key::Open => "open",
            Key::Listen => "listen",
            Key::Http => "http",
            Key::Workers => "workers",
            Key::Links => "links",
            Key::Accept => "accept",
            Key::MaxMessage => "max_message",
            Key::RingBytes => "ring_bytes",
            Key::RingItems => "ring_items",
            Key::Players => "players",
            Key::Window => "window",
            Key::HttpLinks => "http_links",
            Key::App => "app",
            Key::Name => "name",
            Key::Names => "names",
            Key::Publish => "publish",
            Key::Play => "play",
            Key::Digest => "digest",
            Key::Flv => "flv",
            Key::Ts => "ts",
        }
    }
}
