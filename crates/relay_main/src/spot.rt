//! The line and column of a fault in the text of a configuration.

use relay_config::{ConfigFail, Key, read_config};
use std::alloc::{AllocError, Global};
use std::fmt;
use std::fmt::{Display, Formatter};
use std::ops::Range;

/// A line of a text and a byte of it, each from 1.
#[derive(Clone, Copy)]
pub struct Spot {
    line: usize,
    column: usize,
}

impl Display for Spot {
    fn fmt<W: fmt::Write>(&self, f: &mut Formatter<W>) -> fmt::Result {
        write!(f, "{}:{}", self.line, self.column)
    }
}

/// Returns the spot of the byte at a place of a text.
pub fn spot_at(text: &[u8], place: usize) -> Spot {
    let mut spot = Spot { line: 1, column: 1 };
    for byte in text.iter().take(place) {
        if *byte == b'\n' {
            spot.line = spot.line.saturating_add(1);
            spot.column = 1;
        } else {
            spot.column = spot.column.saturating_add(1);
        }
    }
    spot
}

// The kind of a part of a text.
#[derive(Clone, Copy)]
enum List {
    // No table of a list.
    Nothing,
    Stream,
    Open,
}

// The lines from one table's header up to the next, or those before the first.
#[derive(Clone, Drop)]
struct Part {
    lines: Range<usize>,
    list: List,
}

impl Part {
    // Returns whether it is one of a list of tables.
    fn is_listed(&self) -> bool {
        self.list != List::Nothing
    }
}

fn is_header(line: &[u8]) -> bool {
    line.trim_ascii_start().starts_with(b"[")
}

fn list_of(line: &[u8]) -> List {
    let line = line.trim_ascii_start();
    if line.starts_with(b"[[stream]]") {
        List::Stream
    } else if line.starts_with(b"[[open]]") {
        List::Open
    } else {
        List::Nothing
    }
}

fn parts(alloc: Global, text: &[u8]) -> Result<Vec<Part>, AllocError> {
    let mut parts = Vec::new(alloc);
    let mut part = Part {
        lines: 0..0,
        list: List::Nothing,
    };
    let mut at = 0usize;
    for line in text.split(|byte| *byte == b'\n') {
        if is_header(line) {
            parts.push(part)?;
            part = Part {
                lines: at..at,
                list: list_of(line),
            };
        }
        at = at.saturating_add(line.len()).saturating_add(1);
        part.lines.end = at.min(text.len());
    }
    parts.push(part)?;
    Ok(parts)
}

fn lines_of<'a>(text: &'a [u8], part: &Part) -> &'a [u8] {
    text.get(part.lines.start..part.lines.end).unwrap_or(&[])
}

// Returns whether a configuration fails the same test if it has only the tables outside lists, and this one
// of a list.
fn fails_so(
    alloc: Global,
    text: &[u8],
    parts: &[Part],
    only: Option<&Part>,
    fail: &ConfigFail,
) -> bool {
    let mut some = Vec::new(alloc);
    for part in parts.iter().filter(|part| !part.is_listed()).chain(only) {
        if some.extend_from_slice(lines_of(text, part)).is_err() {
            return false;
        }
    }
    match read_config(alloc, some.as_slice()) {
        Ok(_) => false,
        Err(other) => other == *fail,
    }
}

// Returns the byte of the text at which a line of the part begins with a key, or names a table by it.
fn key_in(text: &[u8], part: &Part, key: &[u8]) -> Option<usize> {
    let mut at = part.lines.start;
    for line in lines_of(text, part).split(|byte| *byte == b'\n') {
        let rest = line.trim_ascii_start();
        let bare = match rest.strip_prefix(b"[[") {
            Some(bare) => bare,
            None => rest.strip_prefix(b"[").unwrap_or(rest),
        };
        if let Some(behind) = bare.strip_prefix(key) {
            let ends = match behind.trim_ascii_start().first() {
                Some(b'=' | b']' | b'.') => true,
                _ => false,
            };
            if ends {
                return Some(at.saturating_add(line.len().saturating_sub(bare.len())));
            }
        }
        at = at.saturating_add(line.len()).saturating_add(1);
    }
    None
}

// Returns the table at this place, streams first.
fn nth(parts: &[Part], place: usize) -> Option<&Part> {
    let streams = parts.iter().filter(|part| part.list == List::Stream);
    let opens = parts.iter().filter(|part| part.list == List::Open);
    streams.chain(opens).nth(place)
}

// Returns the part in which the test fails, if it fails in a single part.
fn part_of<'a>(
    alloc: Global,
    text: &[u8],
    parts: &'a [Part],
    fail: &ConfigFail,
) -> Option<&'a Part> {
    if let ConfigFail::Twice { place } = fail {
        return nth(parts, *place as usize);
    }
    if fails_so(alloc, text, parts, None, fail) {
        return None;
    }
    parts
        .iter()
        .filter(|part| part.is_listed())
        .find(|part| fails_so(alloc, text, parts, Some(*part), fail))
}

// Returns the table `relay`, for a key that it lacks.
fn relay_part<'a>(text: &[u8], parts: &'a [Part], key: &Key) -> Option<&'a Part> {
    match key {
        Key::Relay | Key::Stream | Key::Open => None,
        _ => parts.iter().find(|part| lines_of(text, part)
            .trim_ascii_start()
            .starts_with(b"[relay]")),
    }
}

/// Returns the spot at which a configuration fails a test: the key, or the table that lacks it. Returns
/// `None` if no line of its own has the fault, for example if a value is within another.
pub fn spot_of(alloc: Global, text: &[u8], fail: &ConfigFail) -> Option<Spot> {
    let parts = parts(alloc, text).ok()?;
    let parts = parts.as_slice();
    let part = part_of(alloc, text, parts, fail);
    let place = match fail {
        ConfigFail::Unknown { key } => key_of(text, parts, part, key.as_slice())?,
        ConfigFail::Range { key } => key_of(text, parts, part, key.name().as_bytes())?,
        ConfigFail::Missing { key } => part.or_else(|| relay_part(text, parts, key))?.lines.start,
        ConfigFail::Twice { .. } => part?.lines.start,
        ConfigFail::NotToml | ConfigFail::TooMuch { .. } | ConfigFail::OutOfMemory => return None,
    };
    Some(spot_at(text, place))
}

// Returns the byte at which the part has the key, or else the first part outside lists that has it.
fn key_of(text: &[u8], parts: &[Part], part: Option<&Part>, key: &[u8]) -> Option<usize> {
    match part {
        Some(part) => key_in(text, part, key),
        None => parts
            .iter()
            .filter(|part| !part.is_listed())
            .find_map(|part| key_in(text, part, key)),
    }
}
