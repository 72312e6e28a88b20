use crate::Key;
use av_unit::{Bytes, Listed, OutOfMemory};
use key_guard::{Grants, Mode};
use relay_base::Limits;
use thiserror::Error;

/// The configuration of a relay.
#[derive(Drop)]
pub struct Config {
    /// The address at which it listens, as it was written.
    pub listen: Bytes,
    /// The address at which it listens for players that speak HTTP, as it was written. Its text isn't that of
    /// `listen`.
    pub http: Option<Bytes>,
    /// The number of workers that serve the links of `listen`; one more serves those of `http`.
    pub workers: u32,
    /// The largest number of links of each worker that serves `listen`.
    pub links: u32,
    /// The largest number of links of HTTP players; `None`: as many as a worker has.
    pub http_links: Option<u32>,
    /// The number of links after which it accepts no more; 0: it always accepts.
    pub accept: u32,
    /// The limits of its readers and its streams.
    pub limits: Limits,
    /// Its streams, each at its place.
    pub places: PlaceList,
    /// Its open tables, which have the places behind those of the streams.
    pub opens: OpenRules,
}

/// One stream: the pair of names by which it is requested, the keys to publish and play it, and its
/// recordings.
#[derive(Drop)]
pub struct PlaceRule {
    pub app: Bytes,
    pub name: Bytes,
    pub publish: Grants,
    pub play: Grants,
    /// The form in which both lists keep their keys.
    pub mode: Mode,
    /// The file of an FLV recording.
    pub flv: Option<Bytes>,
    /// The file of a transport stream recording.
    pub ts: Option<Bytes>,
}

/// Streams, in order.
pub type PlaceList = Listed<PlaceRule>;

/// An open table: an application whose streams aren't listed. A client that publishes in it gives the stream
/// its name.
#[derive(Drop)]
pub struct OpenRule {
    pub app: Bytes,
    /// The largest number of names that it has at a time.
    pub names: u32,
    pub publish: Grants,
    pub play: Grants,
    /// The form in which both lists keep their keys: `Plain` or `Named`.
    pub mode: Mode,
}

/// Open tables, in order.
pub type OpenRules = Listed<OpenRule>;

/// Why a configuration is refused: the first test that it fails.
#[derive(Debug, PartialEq, Eq, Drop, Error)]
pub enum ConfigFail {
    /// The text is too long, isn't UTF-8, or is no TOML.
    #[error("it is no TOML")]
    NotToml,
    /// A table has a key that it may not have.
    #[error("a key that its table may not have")]
    Unknown { key: Bytes },
    /// A table lacks a key, or there is neither a stream nor an open table.
    #[error("{} isn't there", .key.name())]
    Missing { key: Key },
    /// A value has a wrong form or is out of its range, there are too many streams or names, or `http` is the
    /// text of `listen`.
    #[error("{} is out of its range", .key.name())]
    Range { key: Key },
    /// The stream at this place has the names of an earlier one, or the open table has the application of an
    /// earlier one.
    #[error("table {place} has the names of an earlier one")]
    Twice { place: u32 },
    /// The configured sum is above the bound.
    #[error("it allows {sum} bytes, which are too many")]
    TooMuch { sum: u64 },
    /// Memory was refused.
    #[error("out of memory")]
    OutOfMemory,
}

impl From<OutOfMemory> for ConfigFail {
    ghost use Rattle.std.specs.Prelude.{◌≡◌};
    ghost use Rattle.relay_config.specs.declared.config.ConfigFail.TheVariants.{OutOfMemory};

    ghost from_gives = { λ _ e. e ≡ OutOfMemory };

    fn from(_: OutOfMemory) -> Self {
        ConfigFail::OutOfMemory
    }
}
