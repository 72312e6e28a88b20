//! The inputs of a command: its words, its guards and its configuration; and its outputs.
ghost use Rattle.std.specs.Prelude.{◌≡◌};
ghost use Rattle.key_guard.specs.Allowed.{is_allowed};

use key_guard::{Grants, Guard, Guards, Mode, by_digest, by_name, by_named};
use relay_outside::{MemSink, MemSource};
use std::alloc::{AllocError, Global};

// Whether the grants allow the key in mode `Plain`.
fn is_plain(grants: &Grants, name: &[u8], key: &[u8]) -> bool
    ensures { result ≡ is_allowed Mode.Plain grants.now name.now key.now }
{
    by_name(grants, name, key)
}

// Whether the grants allow the key in mode `Digest`.
fn is_digested(grants: &Grants, name: &[u8], key: &[u8]) -> bool
    ensures { result ≡ is_allowed Mode.Digest grants.now name.now key.now }
{
    by_digest(grants, name, key)
}

// Whether the grants allow the key for that name in mode `Named`.
fn is_named(grants: &Grants, name: &[u8], key: &[u8]) -> bool
    ensures { result ≡ is_allowed Mode.Named grants.now name.now key.now }
{
    by_named(grants, name, key)
}

pub fn guards(alloc: Global) -> Result<Guards, AllocError> {
    let plain = Guard::new(Mode::Plain, Box::new(alloc, is_plain)?);
    let digest = Guard::new(Mode::Digest, Box::new(alloc, is_digested)?);
    let named = Guard::new(Mode::Named, Box::new(alloc, is_named)?);
    Ok(Guards::new(plain, digest, named))
}

/// The words of a line, which spaces part.
pub fn words(alloc: Global, line: &[u8]) -> Result<Vec<Vec<u8>>, AllocError> {
    let mut words = Vec::new(alloc);
    for word in line.split(|b| *b == b' ') {
        words.push(word.to_vec(alloc)?)?;
    }
    Ok(words)
}

pub fn source(alloc: Global, text: &[u8]) -> Result<MemSource, AllocError> {
    let mut pieces = Vec::new(alloc);
    pieces.push(text.to_vec(alloc)?)?;
    Ok(MemSource::new(pieces, Vec::new(alloc)))
}

/// The code as a digit, these bytes, and the report.
pub fn text(
    alloc: Global,
    code: Result<u8, AllocError>,
    bytes: &[u8],
    report: &MemSink,
) -> Result<Vec<u8>, AllocError> {
    let mut told = Vec::new(alloc);
    told.push(b'0'.saturating_add(code?))?;
    told.extend_from_slice(bytes)?;
    told.extend_from_slice(report.bytes())?;
    Ok(told)
}
