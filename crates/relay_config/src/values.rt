ghost use Rattle.std.specs.Prelude.{◌≡◌, [], map, IfOk};
ghost use Rattle.std.specs.Option.{unwrap_or};
ghost use Rattle.toml.specs.View.{view};
ghost use Rattle.relay_config.specs.Forms.{text_at};
ghost use Rattle.relay_config.specs.Values.{kept, keys_of_texts, mode_by, grants_at, place_of, open_of, limits_of, config_of};

use crate::forms::{elements, is_true_at, number_at, number_or, text_at, value_at};
use crate::{Config, Key, OpenRule, OpenRules, PlaceList, PlaceRule};
use av_unit::{Bytes, OutOfMemory};
use hex::FromHexError;
use key_guard::{Grants, KeyList, Mode};
use relay_base::Limits;
use std::alloc::Global;
use toml::Value;

fn copied(alloc: Global, text: &str) -> Result<Bytes, OutOfMemory>
    ensures { IfOk result (λ bytes. bytes ≡ text.now) }
{
    Ok(Bytes::from_vec(text.as_bytes().to_vec(alloc)?))
}

// Copies the text at a key that a table must have.
fn required_text(alloc: Global, table: &Value, key: Key) -> Result<Bytes, OutOfMemory>
    ensures { IfOk result (λ bytes. bytes ≡ unwrap_or (text_at key (view table.now)) []) }
{
    match text_at(table, key) {
        Some(text) => copied(alloc, text),
        None => Ok(Bytes::new(alloc)),
    }
}

// Copies the text at a key that a table may have.
fn optional_text(alloc: Global, table: &Value, key: Key) -> Result<Option<Bytes>, OutOfMemory>
    ensures { IfOk result (λ bytes. bytes ≡ text_at key (view table.now)) }
{
    match text_at(table, key) {
        Some(text) => Ok(Some(copied(alloc, text)?)),
        None => Ok(None),
    }
}

// Returns a key in the form in which it is kept.
fn kept(alloc: Global, mode: Mode, text: &str) -> Result<Bytes, OutOfMemory>
    ensures { IfOk result (λ key. key ≡ kept mode text.now) }
{
    match mode {
        Mode::Plain => copied(alloc, text),
        Mode::Digest | Mode::Named => match hex::decode(alloc, text.as_bytes()) {
            Ok(digest) => Ok(Bytes::from_vec(digest)),
            Err(FromHexError::OutOfMemory) => Err(OutOfMemory),
            Err(_) => Ok(Bytes::new(alloc)),
        },
    }
}

fn keys(alloc: Global, mode: Mode, list: &[Value]) -> Result<KeyList, OutOfMemory>
    ensures { IfOk result (λ keys. keys ≡ keys_of_texts mode (map (λ v. view v) list.now)) }
{
    let mut keys = Vec::new(alloc);
    for value in list {
        if let Some(text) = value.as_str() {
            keys.push(kept(alloc, mode, text)?)?;
        }
    }
    Ok(KeyList::from_vec(keys))
}

fn grants(alloc: Global, table: &Value, key: Key, mode: Mode) -> Result<Grants, OutOfMemory>
    ensures { IfOk result (λ grants. grants ≡ grants_at key mode (view table.now)) }
{
    match value_at(table, key) {
        Some(list) => Ok(Grants::Keys(keys(alloc, mode, elements(list))?)),
        None => Ok(Grants::Open),
    }
}

// Reads the grants to publish and the grants to play.
fn both_grants(alloc: Global, table: &Value, mode: Mode) -> Result<(Grants, Grants), OutOfMemory>
    ensures publish { IfOk result (λ both. both.0 ≡ grants_at Key.Publish mode (view table.now)) }
    ensures play { IfOk result (λ both. both.1 ≡ grants_at Key.Play mode (view table.now)) }
{
    let publish = grants(alloc, table, Key::Publish, mode)?;
    let play = grants(alloc, table, Key::Play, mode)?;
    Ok((publish, play))
}

// Returns the form of a table's keys: `digests` if they are digests, else `Plain`.
fn mode(table: &Value, digests: Mode) -> Mode
    ensures { result ≡ mode_by digests (view table.now) }
{
    if is_true_at(table, Key::Digest) {
        digests
    } else {
        Mode::Plain
    }
}

fn place(alloc: Global, table: &Value) -> Result<PlaceRule, OutOfMemory>
    ensures { IfOk result (λ place. place ≡ place_of (view table.now)) }
{
    let mode = mode(table, Mode::Digest);
    let (publish, play) = both_grants(alloc, table, mode)?;
    Ok(PlaceRule {
        app: required_text(alloc, table, Key::App)?,
        name: required_text(alloc, table, Key::Name)?,
        publish,
        play,
        mode,
        flv: optional_text(alloc, table, Key::Flv)?,
        ts: optional_text(alloc, table, Key::Ts)?,
    })
}

fn places(alloc: Global, streams: &[Value]) -> Result<PlaceList, OutOfMemory>
    ensures { IfOk result (λ places. places ≡ map (λ v. place_of (view v)) streams.now) }
{
    let mut places = Vec::with_capacity(alloc, streams.len())?;
    for stream in streams {
        places.push(place(alloc, stream)?)?;
    }
    Ok(PlaceList::from_vec(places))
}

fn open_rule(alloc: Global, table: &Value) -> Result<OpenRule, OutOfMemory>
    ensures { IfOk result (λ rule. rule ≡ open_of (view table.now)) }
{
    let mode = mode(table, Mode::Named);
    let (publish, play) = both_grants(alloc, table, mode)?;
    Ok(OpenRule {
        app: required_text(alloc, table, Key::App)?,
        names: number_or(table, Key::Names, 0),
        publish,
        play,
        mode,
    })
}

fn opens(alloc: Global, tables: &[Value]) -> Result<OpenRules, OutOfMemory>
    ensures { IfOk result (λ rules. rules ≡ map (λ v. open_of (view v)) tables.now) }
{
    let mut opens = Vec::with_capacity(alloc, tables.len())?;
    for table in tables {
        opens.push(open_rule(alloc, table)?)?;
    }
    Ok(OpenRules::from_vec(opens))
}

fn limits(relay: &Value) -> Limits
    ensures { result ≡ limits_of (view relay.now) }
{
    Limits {
        max_message: number_or(relay, Key::MaxMessage, 4_194_304),
        ring_bytes: number_or(relay, Key::RingBytes, 33_554_432) as u64,
        ring_items: number_or(relay, Key::RingItems, 16_384),
        players: number_or(relay, Key::Players, 256),
        window: number_or(relay, Key::Window, 2_500_000),
    }
}

/// Reads the configuration from the table `relay`, the tables `stream` and the tables `open`, with its
/// defaults.
#[tactic(auto, using(crate::proofs::Lists::places_viewed, crate::proofs::Lists::opens_viewed))]
pub(crate) fn config(
    alloc: Global,
    relay: &Value,
    streams: &[Value],
    tables: &[Value],
) -> Result<Config, OutOfMemory>
    ensures { IfOk result (λ config. config ≡ config_of (view relay.now) (map (λ v. view v) streams.now) (map (λ v. view v) tables.now)) }
{
    Ok(Config {
        listen: required_text(alloc, relay, Key::Listen)?,
        http: optional_text(alloc, relay, Key::Http)?,
        workers: number_or(relay, Key::Workers, 2),
        links: number_or(relay, Key::Links, 32),
        http_links: number_at(relay, Key::HttpLinks),
        accept: number_or(relay, Key::Accept, 0),
        limits: limits(relay),
        places: places(alloc, streams)?,
        opens: opens(alloc, tables)?,
    })
}
