//! The streams and the open tables that a script names, with their keys.
ghost use Rattle.std.specs.Prelude.{◌≡◌, ◌≤◌, ◌+◌, ◌++◌, ◌∷◌, [], length, map, All, IfOk, OnOk};
ghost use Rattle.std.specs.List.{list_any};
ghost use Rattle.relay_config.specs.Sum.{names_of};
ghost use Rattle.stream_registry.specs.Names.{slots_sum};
ghost use Rattle.relay_replay.specs.Stand.{is_app, is_open, is_pair, keyed, keyed_table, open_place, open_table};
ghost use Rattle.relay_replay.specs.Stand.{play_with, publish_with, same_mode, takes_mode, with_key};
ghost use Rattle.relay_replay.specs.Scenes.{AreNamed, IsPortOf, name_of, open_name};

use av_unit::{Bytes, KeyList, OutOfMemory};
use key_guard::{Grants, Mode};
use relay_config::{OpenRule, PlaceRule};
use relay_script::Side;
use std::alloc::Global;
use stream_model::ShortName;
use stream_registry::{Name, NameList, OpenList, OpenName, Sole};

// ---- the names

fn is_pair(app: &[u8], name: &[u8], rule: &PlaceRule) -> bool
    ensures { result ≡ is_pair app.now name.now rule.now }
{
    rule.app.as_slice() == app && rule.name.as_slice() == name
}

/// Whether one of the streams has these names.
pub(crate) fn is_listed(app: &[u8], name: &[u8], streams: &[PlaceRule]) -> bool
    ensures { result ≡ list_any (is_pair app.now name.now) streams.now }
{
    let mut left = streams;
    while let [rule, rest @ ..] = left {
        if is_pair(app, name, rule) {
            return true;
        }
        left = rest;
    }
    false
}

fn is_app(app: &[u8], rule: &OpenRule) -> bool
    ensures { result ≡ is_app app.now rule.now }
{
    rule.app.as_slice() == app
}

/// Whether one of the open tables has this application.
pub(crate) fn is_taken(app: &[u8], opens: &[OpenRule]) -> bool
    ensures { result ≡ list_any (is_app app.now) opens.now }
{
    let mut left = opens;
    while let [rule, rest @ ..] = left {
        if is_app(app, rule) {
            return true;
        }
        left = rest;
    }
    false
}

/// How many names these open tables have at a time.
pub(crate) fn names_of(opens: &[OpenRule]) -> u32
    requires { names_of opens.now ≤ 64 }
    ensures { result ≡ names_of opens.now }
{
    let mut names = 0;
    for rule in opens {
        names += rule.names;
    }
    names
}

/// How many streams, open tables and names of open tables there are.
#[derive(Clone, Copy)]
pub(crate) struct Numbers {
    pub streams: u32,
    pub tables: u32,
    pub names: u32,
}

/// How many there are of each, and at the port to them.
#[tactic(auto, using(crate::proofs::Naming::places_few, crate::proofs::New::many_names, crate::proofs::New::many_tables, crate::proofs::New::many_slots))]
pub(crate) fn counts(streams: &[PlaceRule], opens: &[OpenRule], port: &Sole) -> Numbers
    requires named { AreNamed streams.now opens.now }
    requires port { IsPortOf streams.now opens.now port.now }
    ensures streams { result.streams ≡ length streams.now }
    ensures tables { result.tables ≡ length opens.now }
    ensures names { result.names ≡ names_of opens.now }
    ensures few { result.streams + result.tables ≤ 64 }
    ensures names_there { length port.now.rules.names ≡ result.streams }
    ensures tables_there { length port.now.rules.opens ≡ result.tables }
    ensures slots { slots_sum port.now.rules.opens ≡ result.names }
{
    let _ = port;
    Numbers {
        streams: streams.len() as u32,
        tables: opens.len() as u32,
        names: names_of(opens),
    }
}

// ---- keys

fn same_mode(a: Mode, b: Mode) -> bool
    ensures { result ≡ same_mode a b }
{
    match a {
        Mode::Plain => matches!(b, Mode::Plain),
        Mode::Digest => matches!(b, Mode::Digest),
        Mode::Named => matches!(b, Mode::Named),
    }
}

fn is_open(grants: &Grants) -> bool
    ensures { result ≡ is_open grants.now }
{
    match grants {
        Grants::Open => true,
        Grants::Keys(_) => false,
    }
}

/// Whether a stream or an open table takes a key of that mode more: all its keys have one mode.
pub(crate) fn takes_mode(own: Mode, publish: &Grants, play: &Grants, mode: Mode) -> bool
    ensures { result ≡ takes_mode own publish.now play.now mode }
{
    same_mode(own, mode) || (is_open(publish) && is_open(play))
}

// The grants with one key more.
fn with_key(alloc: Global, grants: Grants, key: Bytes) -> Result<Grants, OutOfMemory>
    ensures { IfOk result (λ g. g ≡ with_key grants key) }
{
    match grants {
        Grants::Open => {
            let mut keys = Vec::new(alloc);
            keys.push(key)?;
            Ok(Grants::Keys(KeyList::from_vec(keys)))
        }
        Grants::Keys(keys) => {
            let mut keys = keys.into_vec();
            keys.push(key)?;
            Ok(Grants::Keys(KeyList::from_vec(keys)))
        }
    }
}

// One side's grants get a key more.
fn add_to(
    alloc: Global,
    publish: &mut Grants,
    play: &mut Grants,
    side: Side,
    key: Bytes,
) -> Result<(), OutOfMemory>
    ensures publish { OnOk result (publish.new ≡ publish_with side publish.old key) }
    ensures play { OnOk result (play.new ≡ play_with side play.old key) }
{
    match side {
        Side::Publish => {
            let own = std::mem::replace(publish, Grants::Open);
            *publish = with_key(alloc, own, key)?;
        }
        Side::Play => {
            let own = std::mem::replace(play, Grants::Open);
            *play = with_key(alloc, own, key)?;
        }
    }
    Ok(())
}

/// The stream gets one key more.
pub(crate) fn add_key(
    alloc: Global,
    rule: &mut PlaceRule,
    side: Side,
    mode: Mode,
    key: Bytes,
) -> Result<(), OutOfMemory>
    ensures { OnOk result (rule.new ≡ keyed rule.old side mode key) }
{
    add_to(alloc, &mut rule.publish, &mut rule.play, side, key)?;
    rule.mode = mode;
    Ok(())
}

/// The open table gets one key more.
pub(crate) fn add_table_key(
    alloc: Global,
    rule: &mut OpenRule,
    side: Side,
    mode: Mode,
    key: Bytes,
) -> Result<(), OutOfMemory>
    ensures { OnOk result (rule.new ≡ keyed_table rule.old side mode key) }
{
    add_to(alloc, &mut rule.publish, &mut rule.play, side, key)?;
    rule.mode = mode;
    Ok(())
}

/// A stream that takes every key.
pub(crate) fn open_place(app: Bytes, name: Bytes) -> PlaceRule
    ensures { result ≡ open_place app name }
{
    PlaceRule {
        app,
        name,
        publish: Grants::Open,
        play: Grants::Open,
        mode: Mode::Plain,
        flv: None,
        ts: None,
    }
}

/// An open table that takes every key.
pub(crate) fn open_table(app: Bytes, names: u32) -> OpenRule
    ensures { result ≡ open_table app names }
{
    OpenRule {
        app,
        names,
        publish: Grants::Open,
        play: Grants::Open,
        mode: Mode::Plain,
    }
}

// ---- the state of the port to them

fn copied(alloc: Global, bytes: &[u8]) -> Result<Bytes, OutOfMemory>
    ensures { IfOk result (λ b. b ≡ bytes.now) }
{
    Ok(Bytes::from_vec(Vec::from_slice(alloc, bytes)?))
}

fn name_of(alloc: Global, rule: &PlaceRule) -> Result<Name, OutOfMemory>
    requires { length rule.now.name ≤ 64 }
    ensures { IfOk result (λ n. n ≡ name_of rule.now) }
{
    Ok(Name {
        app: copied(alloc, rule.app.as_slice())?,
        name: ShortName::new(copied(alloc, rule.name.as_slice())?),
    })
}

/// The names of the streams.
pub(crate) fn name_list(alloc: Global, streams: &[PlaceRule]) -> Result<NameList, OutOfMemory>
    requires { All (λ p. length p.name ≤ 64) streams.now }
    ensures { IfOk result (λ names. names ≡ map name_of streams.now) }
{
    let mut names = NameList::new(alloc);
    for rule in streams {
        names.push(name_of(alloc, rule)?)?;
    }
    Ok(names)
}

/// The open tables, as the port has them.
pub(crate) fn table_list(alloc: Global, opens: &[OpenRule]) -> Result<OpenList, OutOfMemory>
    ensures { IfOk result (λ tables. tables ≡ map open_name opens.now) }
{
    let mut tables = OpenList::new(alloc);
    for rule in opens {
        tables.push(OpenName {
            app: copied(alloc, rule.app.as_slice())?,
            slots: rule.names,
        })?;
    }
    Ok(tables)
}
