ghost use Rattle.std.specs.Prelude.{◌≡◌, ◌++◌, codes, map, IfOk, OnOk, string_bytes};
ghost use Rattle.std.specs.Fmt.{decimal};
ghost use Rattle.relay_config.specs.Report.{shown, piece, shown_text, cause_text, report_text};

use crate::ConfigFail;
use av_unit::{Bytes, OutOfMemory};
use std::alloc::Global;

const DELETE: u8 = 127;

// The first byte of U+0080 to U+00BF in UTF-8.
const LEAD: u8 = 0xC2;

// The first byte behind it that doesn't make a control character.
const BEHIND_CONTROL: u8 = 0xA0;

fn shown(b: u8) -> u8
    ensures { result ≡ shown b }
{
    if b < 32 || b == DELETE { b'?' } else { b }
}

// Appends the form in which a byte is shown, by the byte before it.
fn append_piece(line: &mut Vec<u8>, before: u8, b: u8) -> Result<(), OutOfMemory>
    ensures { OnOk result (line.new.items ≡ line.old.items ++ piece before b) }
{
    if b == LEAD {
        return Ok(());
    }
    if before != LEAD {
        line.push(shown(b))?;
        return Ok(());
    }
    if b < BEHIND_CONTROL {
        line.push(b'?')?;
        return Ok(());
    }
    line.push(LEAD)?;
    line.push(b)?;
    Ok(())
}

// Appends a key of the text, with `?` for each control character.
fn append_shown(line: &mut Vec<u8>, key: &[u8]) -> Result<(), OutOfMemory>
    ensures { OnOk result (line.new.items ≡ line.old.items ++ shown_text 0 key.now) }
{
    let mut before = 0;
    for b in key {
        append_piece(line, before, *b)?;
        before = *b;
    }
    Ok(())
}

fn append_cause(alloc: Global, line: &mut Vec<u8>, fail: &ConfigFail) -> Result<(), OutOfMemory>
    ensures { OnOk result (line.new.items ≡ line.old.items ++ cause_text fail.now) }
{
    match fail {
        ConfigFail::NotToml => line.extend_from_slice(b"not toml")?,
        ConfigFail::Unknown { key } => {
            line.extend_from_slice(b"unknown ")?;
            append_shown(line, key.as_slice())?;
        }
        ConfigFail::Missing { key } => {
            line.extend_from_slice(b"missing ")?;
            line.extend_from_slice(key.name().as_bytes())?;
        }
        ConfigFail::Range { key } => {
            line.extend_from_slice(b"range ")?;
            line.extend_from_slice(key.name().as_bytes())?;
        }
        ConfigFail::Twice { place } => line.extend_from_slice(twice(alloc, *place)?.as_bytes())?,
        ConfigFail::TooMuch { sum } => line.extend_from_slice(too_much(alloc, *sum)?.as_bytes())?,
        ConfigFail::OutOfMemory => line.extend_from_slice(b"out of memory")?,
    }
    Ok(())
}

fn twice(alloc: Global, place: u32) -> Result<String, OutOfMemory>
    ensures { IfOk result (λ text. string_bytes text ≡ codes "twice " ++ decimal place) }
{
    Ok(format!(in alloc; "twice {place}")?)
}

fn too_much(alloc: Global, sum: u64) -> Result<String, OutOfMemory>
    ensures { IfOk result (λ text. string_bytes text ≡ codes "too much " ++ decimal sum) }
{
    Ok(format!(in alloc; "too much {sum}")?)
}

/// Returns the line that reports a refused configuration: `bad configuration`, and then `not toml`,
/// `unknown KEY`, `missing KEY`, `range KEY`, `twice PLACE` or `too much SUM`. A key from the text is written
/// as it is there, but with `?` for each control character, those from U+0080 to U+009F too.
pub fn report(alloc: Global, fail: &ConfigFail) -> Result<Bytes, OutOfMemory>
    ensures { IfOk result (λ line. line ≡ report_text fail.now) }
{
    let mut line = b"bad configuration ".to_vec(alloc)?;
    append_cause(alloc, &mut line, fail)?;
    line.push(b'\n')?;
    Ok(Bytes::from_vec(line))
}
