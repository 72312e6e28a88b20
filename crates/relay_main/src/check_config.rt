//! `relay check-config`: prints a summary of a configuration, or the first test that it fails.

use crate::adapters::ConfigFile;
use crate::spot::{Spot, spot_at, spot_of};
use crate::window::Window;
use crate::{BAD_INPUT, NO_MEMORY, READ_FAULT, status, tell, tell_fault};
use key_guard::Grants;
use relay_base::Status;
use relay_config::{
    Config, ConfigFail, Key, OpenRule, PlaceRule, http_room, http_workers, player_links,
    players_sum, read_config, report, session_links, sum, sum_of,
};
use relay_edge::Shown;
use std::alloc::{AllocError, Global};
use std::fmt::{Display, Formatter};
use std::fs::{File, Files};
use std::io::{Eprint, Read};
use std::{fmt, io, str};

/// No further bytes of a file are read from here on: more than a configuration may have.
const MOST: usize = 1_048_577;

fn read<R: Files<File = File>>(rt: &R, alloc: Global, name: &str) -> io::Result<Vec<u8>> {
    let mut file = ConfigFile::open(rt, name);
    let mut bytes = Vec::new(alloc);
    let mut piece = [0u8; 4096];
    for _ in 0..MOST {
        let count = match file.read(&mut piece) {
            Ok(count) => count,
            Err(error) if error.kind() == io::ErrorKind::Interrupted => continue,
            Err(error) => return Err(error),
        };
        match piece.get(..count) {
            Some(some) if count > 0 && bytes.len() < MOST => bytes.extend_from_slice(some)?,
            _ => break,
        }
    }
    Ok(bytes)
}

// Returns the words for the values that the key may have.
fn range(key: Key) -> &'static str {
    match key {
        Key::Relay => "a table",
        Key::Stream => "at most 64 tables [[stream]]",
        Key::Open => "tables [[open]]",
        Key::Listen => "a text of 1 to 64 bytes, as \"127.0.0.1:1935\"",
        Key::Http => "a text of 1 to 64 bytes and another than listen, as \"127.0.0.1:8080\"",
        Key::Workers => "1 to 16",
        Key::Links => "1 to 64",
        Key::Accept => "0 to 1000000",
        Key::MaxMessage => "4096 to 4194304",
        Key::RingBytes => "max_message + 64 to 268435456",
        Key::RingItems => "16 to 65536",
        Key::Players => "4 to 256",
        Key::Window => "1000 to 2147483647",
        Key::HttpLinks => "1 to 1024",
        Key::Names => "1 to 64, and at most 64 with all streams and other names",
        Key::App | Key::Name => "1 to 64 ASCII letters, digits, '.', '_' or '-'",
        Key::Publish | Key::Play => {
            "a list of keys of 1 to 64 bytes, or of 64 digits from 0 to f if digest is true"
        }
        Key::Digest => "true or false",
        Key::Flv | Key::Ts => "a text of 1 to 255 bytes",
    }
}

// A configuration that was refused: the name of its file, and its text.
#[derive(Drop)]
struct Refused<'a> {
    name: Shown<'a>,
    text: &'a [u8],
}

impl Refused<'_> {
    // Writes the fault in words with its spot, or for the whole file if no line of its own has it.
    fn tell<R: Eprint, D: Display>(&self, rt: &R, spot: Option<Spot>, what: &D) {
        let name = self.name;
        let _ = match spot {
            Some(spot) => eprintln!(rt; "relay: {name}:{spot}: {what}"),
            None => eprintln!(rt; "relay: {name}: {what}"),
        };
    }

    // Writes the place and the cause if the text isn't TOML.
    fn tell_toml<R: Eprint>(&self, rt: &R, alloc: Global) {
        let whole = "not TOML of at most 1048576 bytes in UTF-8";
        let error = match str::from_utf8(self.text) {
            Ok(text) if text.len() < MOST => toml::table_from_str(alloc, text).err(),
            _ => None,
        };
        match error {
            Some(error) => match error.span() {
                Some(span) => self.tell(rt, Some(spot_at(self.text, span.start)), &error.message()),
                None => self.tell(rt, None, &whole),
            },
            None => self.tell(rt, None, &whole),
        }
    }
}

// The fault of a configuration.
#[derive(Drop)]
struct Wrong<'a> {
    fail: &'a ConfigFail,
}

impl Display for Wrong<'_> {
    fn fmt<W: fmt::Write>(&self, f: &mut Formatter<W>) -> fmt::Result {
        match self.fail {
            ConfigFail::NotToml => f.write_str("not TOML"),
            ConfigFail::Unknown { key } => write!(f, "unknown key {}", shown(key.as_slice())),
            ConfigFail::Missing { key: Key::Stream } => {
                f.write_str("there is neither a [[stream]] nor an [[open]]")
            }
            ConfigFail::Missing { key: Key::Http } => {
                f.write_str("there is http_links, but no http")
            }
            ConfigFail::Missing { key } => write!(f, "{} is missing", key.name()),
            ConfigFail::Range { key } => write!(f, "{} must be {}", key.name(), range(*key)),
            ConfigFail::Twice { place } => {
                write!(
                    f,
                    "table {place}, counted from 0, streams first, has the names of an earlier one"
                )
            }
            ConfigFail::TooMuch { sum } => {
                write!(
                    f,
                    "the server could hold {sum} bytes at once, and the limit is 6442450944"
                )
            }
            ConfigFail::OutOfMemory => f.write_str("out of memory"),
        }
    }
}

// Says in words, with its line and column, why the configuration in the file of that name is refused.
fn tell_why<R: Eprint>(rt: &R, alloc: Global, name: &str, text: &[u8], fail: &ConfigFail) {
    let refused = Refused {
        name: Shown { text: name },
        text,
    };
    match fail {
        ConfigFail::NotToml => refused.tell_toml(rt, alloc),
        ConfigFail::OutOfMemory => {
            let _ = eprintln!(rt; "relay: out of memory");
        }
        _ => refused.tell(rt, spot_of(alloc, text, fail), &Wrong { fail }),
    }
}

fn show_grants(alloc: Global, grants: &Grants) -> Result<String, AllocError> {
    match grants {
        Grants::Open => format!(in alloc; "by everybody"),
        Grants::Keys(keys) if keys.is_empty() => format!(in alloc; "by nobody"),
        Grants::Keys(keys) if keys.len() == 1 => format!(in alloc; "with its key"),
        Grants::Keys(keys) => format!(in alloc; "with one of {} keys", keys.len()),
    }
}

// Returns a text of the configuration, as it is shown.
fn shown(bytes: &[u8]) -> Shown<'_> {
    Shown {
        text: str::from_utf8(bytes).unwrap_or(""),
    }
}

fn add_stream(
    alloc: Global,
    text: &mut String,
    place: usize,
    rule: &PlaceRule,
) -> Result<(), AllocError> {
    let publish = show_grants(alloc, &rule.publish)?;
    let play = show_grants(alloc, &rule.play)?;
    let (app, name) = (shown(rule.app.as_slice()), shown(rule.name.as_slice()));
    let line = format!(in alloc;
        "stream {place} {app}/{name}: may be published {publish}, played {play}\n"
    )?;
    text.push_str(&line)?;
    for file in [&rule.flv, &rule.ts] {
        if let Some(file) = file {
            let line = format!(in alloc; "  would be recorded to {}\n", shown(file.as_slice()))?;
            text.push_str(&line)?;
        }
    }
    Ok(())
}

fn add_open(alloc: Global, text: &mut String, rule: &OpenRule) -> Result<(), AllocError> {
    let publish = show_grants(alloc, &rule.publish)?;
    let play = show_grants(alloc, &rule.play)?;
    let (app, names) = (shown(rule.app.as_slice()), rule.names);
    let line = format!(in alloc;
        "open {app}: {names} names at a time, may be published {publish}, played {play}\n"
    )?;
    text.push_str(&line)
}

// The most bytes that all parts hold at once, and of these those of streams, names and links.
#[derive(Clone, Copy)]
struct Sums {
    all: u64,
    streams: u64,
    links: u64,
}

// Returns the number of names of all open tables.
fn names_of(config: &Config) -> u32 {
    let mut names = 0u32;
    for rule in config.opens.as_slice() {
        names = names.saturating_add(rule.names);
    }
    names
}

/// Returns the number of links of all workers, with that of HTTP players.
pub fn all_links(config: &Config) -> u32 {
    let players = http_workers(config).saturating_mul(http_room(config));
    config
        .workers
        .saturating_mul(config.links)
        .saturating_add(players)
}

// Returns the summary of a configuration.
fn show(alloc: Global, config: &Config, sums: &Sums) -> Result<String, AllocError> {
    let listen = shown(config.listen.as_slice());
    let Config { workers, links, .. } = config;
    let mut text = format!(in alloc;
        "would listen on {listen}\nworkers {workers}, links {links} each\n"
    )?;
    if let Some(http) = &config.http {
        let line = format!(in alloc;
            "would listen on {} for HTTP players: 1 worker more, links {}\n",
            shown(http.as_slice()),
            http_room(config)
        )?;
        text.push_str(&line)?;
    }
    for (place, rule) in config.places.as_slice().iter().enumerate() {
        add_stream(alloc, &mut text, place, rule)?;
    }
    for rule in config.opens.as_slice() {
        add_open(alloc, &mut text, rule)?;
    }
    let Sums {
        all,
        streams,
        links,
    } = sums;
    let recordings = all.saturating_sub(*streams).saturating_sub(*links);
    let line = format!(in alloc;
        "would hold at most {all} bytes: streams {streams}, links {links}, recordings {recordings}\n"
    )?;
    text.push_str(&line)?;
    let limits = &config.limits;
    let line = format!(in alloc; "a stream's window would hold, {}\n", Window { limits })?;
    text.push_str(&line)?;
    Ok(text)
}

fn no_memory<R: Eprint>(rt: &R) -> Status {
    let _ = eprintln!(rt; "relay: out of memory");
    status(NO_MEMORY)
}

// Prints the first test that a configuration fails, and says it in words.
fn refuse<R: Eprint>(
    host: &HostRuntime,
    rt: &R,
    name: &str,
    text: &[u8],
    fail: &ConfigFail,
) -> Status {
    let Ok(line) = report(host.alloc(), fail) else {
        return no_memory(rt);
    };
    let told = tell(host, str::from_utf8(line.as_slice()).unwrap_or(""));
    if told.code != 0 {
        return told;
    }
    tell_why(rt, host.alloc(), name, text, fail);
    status(BAD_INPUT)
}

/// Reads the configuration in the file of that name, and prints its summary or the first test that it fails.
pub fn command<R: Eprint + Files<File = File>>(host: &HostRuntime, rt: &R, name: &str) -> Status {
    let alloc = host.alloc();
    let bytes = match read(rt, alloc, name) {
        Ok(bytes) => bytes,
        Err(error) if error.kind() == io::ErrorKind::OutOfMemory => return no_memory(rt),
        Err(error) => {
            tell_fault(host, name, Some(error));
            return status(READ_FAULT);
        }
    };
    match read_config(alloc, bytes.as_slice()) {
        Ok(config) => {
            let limits = &config.limits;
            let sessions = sum_of(limits, 0, 0, session_links(&config), 0);
            let players = players_sum(limits, player_links(&config));
            let sums = Sums {
                all: sum(&config),
                streams: sum_of(limits, config.places.len() as u32, names_of(&config), 0, 0),
                links: sessions.saturating_add(players),
            };
            match show(alloc, &config, &sums) {
                Ok(text) => tell(host, &text),
                Err(_) => no_memory(rt),
            }
        }
        Err(ConfigFail::OutOfMemory) => no_memory(rt),
        Err(fail) => refuse(host, rt, name, bytes.as_slice(), &fail),
    }
}

/// Returns the content of the file of that name, if it is a regular file, which can be read anew.
pub fn read_anew<R: Files<File = File>>(rt: &R, alloc: Global, name: &str) -> Option<Vec<u8>> {
    let there = rt.metadata(name).ok()?;
    if !there.is_file() {
        return None;
    }
    read(rt, alloc, name).ok()
}

/// Returns whether the configuration in the file of that name has no stream, so that its first place is an
/// open table. Returns false for a file that can't be read anew.
pub fn is_open<R: Files<File = File>>(rt: &R, alloc: Global, name: &str) -> bool {
    let Some(text) = read_anew(rt, alloc, name) else {
        return false;
    };
    match read_config(alloc, text.as_slice()) {
        Ok(config) => config.places.as_slice().is_empty(),
        Err(_) => false,
    }
}

/// Writes the fault for which the configuration in the file of that name is refused. The file is read anew,
/// if it can be.
pub fn explain<R: Eprint + Files<File = File>>(rt: &R, alloc: Global, name: &str) {
    if let Some(bytes) = read_anew(rt, alloc, name) {
        if let Err(fail) = read_config(alloc, bytes.as_slice()) {
            tell_why(rt, alloc, name, bytes.as_slice(), &fail);
            return;
        }
    }
    let _ = eprintln!(rt; "relay: {}: not a configuration", Shown { text: name });
}
