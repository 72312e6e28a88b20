ghost use Rattle.std.specs.Prelude.{◌≡◌, ◌↔◌, IsTrue, nat_eq};
ghost use Rattle.sha2.specs.Sha256.{sha256};
ghost use Rattle.std.specs.List.{list_any};
ghost use Rattle.std.specs.Cmp.Lexicographic.{pointwise};
ghost use Rattle.key_guard.specs.Allowed.{Allowed, for_name, has, is_allowed};

use av_unit::{Bytes, KeyList};
use sha2::{Digest, Sha256};

/// The keys that a stream takes: every key, also an empty one, or those of a list.
#[derive(Drop)]
pub enum Grants {
    /// Every key is taken, also an empty one.
    Open,
    /// Only these keys are taken. An empty list takes none.
    Keys(KeyList),
}

/// The form in which a list keeps its keys.
#[derive(Clone, Copy)]
pub enum Mode {
    /// The list has the keys themselves.
    Plain,
    /// The list has the 32 bytes of each key's SHA-256 digest.
    Digest,
    /// The list has the 32 bytes of the SHA-256 digest of a name, the byte `:` and a key: that key for that
    /// name alone.
    Named,
}

// Tells whether the two are the same bytes. If their lengths are equal, all bytes are compared, even after a
// difference.
fn is_same(kept: &[u8], asked: &[u8]) -> bool
    ensures { IsTrue result ↔ (asked.now ≡ kept.now) }
{
    if kept.len() != asked.len() {
        return false;
    }
    let mut same = true;
    for i in 0..kept.len() {
        same &= kept[i] == asked[i];
    }
    same
}

// Tells whether one of the keys is these bytes. All keys are compared, even after a match.
fn is_among(asked: &[u8], keys: &[Bytes]) -> bool
    ensures { result ≡ list_any (pointwise nat_eq asked.now) keys.now }
{
    let mut found = false;
    for key in keys {
        found |= is_same(key.as_slice(), asked);
    }
    found
}

// Tells whether the grants are open or have these bytes.
fn have(grants: &Grants, bytes: &[u8]) -> bool
    ensures { result ≡ has grants.now bytes.now }
{
    match grants {
        Grants::Open => true,
        Grants::Keys(keys) => is_among(bytes, keys.as_slice()),
    }
}

/// Tells whether mode `Plain` allows the key: the grants are open or have the key.
///
/// The key is compared with every key of the list, and in full with each of its length. The name isn't looked
/// at.
pub fn by_name(grants: &Grants, name: &[u8], key: &[u8]) -> bool
    ensures test { result ≡ is_allowed Mode.Plain grants.now name.now key.now }
    ensures allowed { IsTrue result ↔ Allowed Mode.Plain grants.now name.now key.now }
{
    have(grants, key)
}

/// Tells whether mode `Digest` allows the key: the grants are open or have the 32 bytes of the key's SHA-256
/// (FIPS 180-4).
///
/// The digest is compared as `by_name` compares a key. The name isn't looked at.
pub fn by_digest(grants: &Grants, name: &[u8], key: &[u8]) -> bool
    ensures test { result ≡ is_allowed Mode.Digest grants.now name.now key.now }
    ensures allowed { IsTrue result ↔ Allowed Mode.Digest grants.now name.now key.now }
{
    have(grants, &Sha256::digest(key))
}

// Returns the digest of a key for a name.
fn digest_for(name: &[u8], key: &[u8]) -> [u8; 32]
    ensures { result ≡ sha256 (for_name name.now key.now) }
{
    let mut hasher = Sha256::new_with_prefix(name);
    hasher.update(b":".as_slice());
    hasher.update(key);
    hasher.finalize()
}

/// Tells whether mode `Named` allows the key: the grants are open or have the 32 bytes of a SHA-256
/// (FIPS 180-4). It is that of the name, the byte `:` and the key. A key that is kept for a name in this way
/// is taken for no other name.
///
/// The digest is compared as `by_name` compares a key.
pub fn by_named(grants: &Grants, name: &[u8], key: &[u8]) -> bool
    ensures test { result ≡ is_allowed Mode.Named grants.now name.now key.now }
    ensures allowed { IsTrue result ↔ Allowed Mode.Named grants.now name.now key.now }
{
    have(grants, &digest_for(name, key))
}
