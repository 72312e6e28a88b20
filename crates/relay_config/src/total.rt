ghost use Rattle.std.specs.Prelude.{◌≡◌, ◌+◌, ◌*◌, ◌≤◌, ◌<◌, ◌^◌, length};
ghost use Rattle.relay_config.specs.Sum.{stream_bytes, name_bytes, session_bytes, player_bytes, recorder_bytes, total_of, recorders_of, names_of};
ghost use Rattle.relay_config.specs.Sum.{http_workers, http_room, sessions_of, players_of, configured_sum, InRange};

use crate::{Config, OpenRule, PlaceRule};
use relay_base::Limits;

fn stream_bytes(limits: &Limits) -> u64
    requires { limits.now.ring_bytes ≤ 268435456 }
    ensures value { result ≡ stream_bytes limits.now }
    ensures most { result < 2 ^ 29 }
{
    limits.ring_bytes + 196_608
}

fn name_bytes(limits: &Limits) -> u64
    requires { limits.now.ring_bytes ≤ 268435456 }
    ensures value { result ≡ name_bytes limits.now }
    ensures most { result < 2 ^ 29 }
{
    limits.ring_bytes + 196_672
}

fn session_bytes(limits: &Limits) -> u64
    requires { limits.now.max_message ≤ 4194304 }
    ensures value { result ≡ session_bytes limits.now }
    ensures most { result < 2 ^ 24 }
{
    let message = limits.max_message as u64;
    4_096 + (message + 65_536) + 32_768 + message + message.div_ceil(512)
}

// Returns the bytes that an HTTP player holds at most: the head of its request, and the tag of a unit.
fn player_bytes(limits: &Limits) -> u64
    requires { limits.now.max_message ≤ 4194304 }
    ensures value { result ≡ player_bytes limits.now }
    ensures most { result < 2 ^ 24 }
{
    4_096 + (limits.max_message as u64 + 256)
}

fn recorder_bytes(limits: &Limits) -> u64
    requires { limits.now.max_message ≤ 4194304 }
    ensures value { result ≡ recorder_bytes limits.now }
    ensures most { result < 2 ^ 25 }
{
    4 * limits.max_message as u64 + 262_144
}

/// Returns the bound in bytes for these numbers of streams, names of open tables, sessions and recorders,
/// with these limits. A stream holds its ring and a configuration of each kind; a name holds the same and
/// itself. A session holds its input, its answers and the unit in its hand; a recorder holds the unit that it
/// writes.
pub fn sum_of(limits: &Limits, streams: u32, names: u32, sessions: u32, recorders: u32) -> u64
    requires ring { limits.now.ring_bytes ≤ 268435456 }
    requires message { limits.now.max_message ≤ 4194304 }
    ensures { result ≡ total_of limits.now streams names sessions recorders }
{
    streams as u64 * stream_bytes(limits)
        + names as u64 * name_bytes(limits)
        + sessions as u64 * session_bytes(limits)
        + recorders as u64 * recorder_bytes(limits)
}

fn recorders_of(places: &[PlaceRule]) -> usize
    requires { length places.now ≤ 64 }
    ensures value { result ≡ recorders_of places.now }
    ensures most { result ≤ 128 }
{
    let flv = places.iter().filter(|place| place.flv.is_some()).count();
    let ts = places.iter().filter(|place| place.ts.is_some()).count();
    flv + ts
}

fn names_of(opens: &[OpenRule]) -> u32
    requires { names_of opens.now ≤ 64 }
    ensures { result ≡ names_of opens.now }
{
    let mut names = 0;
    for rule in opens {
        names += rule.names;
    }
    names
}

/// Returns the number of workers that serve players over HTTP: one if there is an address for them, else
/// none.
pub fn http_workers(config: &Config) -> u32
    ensures value { result ≡ http_workers config.now }
    ensures most { result ≤ 1 }
{
    if config.http.is_some() { 1 } else { 0 }
}

/// Returns the number of links that HTTP players have at a time.
pub fn http_room(config: &Config) -> u32
    ensures { result ≡ http_room config.now }
{
    config.http_links.unwrap_or(config.links)
}

/// Returns the number of links that the sum reckons as sessions: those of all workers. Those of HTTP players
/// are among them unless `http_links` is there.
pub fn session_links(config: &Config) -> u32
    requires { InRange config.now }
    ensures value { result ≡ sessions_of config.now }
    ensures most { result ≤ 1088 }
{
    match config.http_links {
        Some(_) => config.workers * config.links,
        None => (config.workers + http_workers(config)) * config.links,
    }
}

/// Returns the number of links that the sum reckons as HTTP players.
pub fn player_links(config: &Config) -> u32
    requires { InRange config.now }
    ensures value { result ≡ players_of config.now }
    ensures most { result ≤ 1024 }
{
    http_workers(config) * config.http_links.unwrap_or(0)
}

/// Returns the bound in bytes for this number of HTTP players, with these limits.
pub fn players_sum(limits: &Limits, players: u32) -> u64
    requires message { limits.now.max_message ≤ 4194304 }
    ensures value { result ≡ players * player_bytes limits.now }
    ensures most { players ≤ 1024 → result < 2 ^ 34 }
{
    players as u64 * player_bytes(limits)
}

/// Returns the configured sum: the largest number of bytes that a relay of this configuration holds.
pub fn sum(config: &Config) -> u64
    requires numbers { InRange config.now }
    requires names { length config.now.places + names_of config.now.opens ≤ 64 }
    ensures { result ≡ configured_sum config.now }
{
    let places = config.places.as_slice();
    let recorders = recorders_of(places);
    sum_of(
        &config.limits,
        places.len() as u32,
        names_of(config.opens.as_slice()),
        session_links(config),
        recorders as u32,
    ) + players_sum(&config.limits, player_links(config))
}
