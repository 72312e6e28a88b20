ghost use Rattle.std.specs.Prelude.{◌≡◌};
ghost use Rattle.key_guard.specs.Allowed.{is_allowed};

use av_unit::Bytes;
use key_guard::*;
use std::alloc::{AllocError, Global};
use std::test::Fail;

// The SHA-256 of `abc` (FIPS 180-4, the first example of NIST's).
const DIGEST_OF_ABC: &[u8; 32] =
    b"\xba\x78\x16\xbf\x8f\x01\xcf\xea\x41\x41\x40\xde\x5d\xae\x22\x23\xb0\x03\x61\xa3\x96\x17\x7a\x9c\xb4\x10\xff\x61\xf2\x00\x15\xad";

// The SHA-256 of `cam:abc`, by Python's hashlib.
const DIGEST_OF_CAM_ABC: &[u8; 32] =
    b"\xd7\x41\x7f\x87\x3c\x50\xd8\x49\xb4\x70\x19\x95\x85\x6d\xb2\x33\xb4\x63\xb0\xa1\x83\xbf\x99\xd7\x40\xc8\xc2\x52\xbc\xb9\xe0\x4d";

fn only(alloc: Global, key: &[u8]) -> Result<Grants, AllocError> {
    let key = Bytes::from_vec(key.to_vec(alloc)?);
    Ok(Grants::Keys(KeyList::from_vec(vec![in alloc; key]?)))
}

// Tells whether the grants allow the key in mode `Plain`.
fn is_plain(grants: &Grants, name: &[u8], key: &[u8]) -> bool
    ensures { result ≡ is_allowed Mode.Plain grants.now name.now key.now }
{
    by_name(grants, name, key)
}

// Tells whether the grants allow the key in mode `Digest`.
fn is_digested(grants: &Grants, name: &[u8], key: &[u8]) -> bool
    ensures { result ≡ is_allowed Mode.Digest grants.now name.now key.now }
{
    by_digest(grants, name, key)
}

// Tells whether the grants allow the key in mode `Named`.
fn is_named(grants: &Grants, name: &[u8], key: &[u8]) -> bool
    ensures { result ≡ is_allowed Mode.Named grants.now name.now key.now }
{
    by_named(grants, name, key)
}

// Makes the guards of a relay.
fn guards(alloc: Global) -> Result<Guards, Fail> {
    let plain = Guard::new(Mode::Plain, Box::new(alloc, is_plain)?);
    let digest = Guard::new(Mode::Digest, Box::new(alloc, is_digested)?);
    let named = Guard::new(Mode::Named, Box::new(alloc, is_named)?);
    Ok(Guards::new(plain, digest, named))
}

// Writes, for each mode and each key, whether the grants allow it for `cam`.
fn told(alloc: Global, guards: &Guards, grants: &Grants) -> Result<Bytes, Fail> {
    let mut out = Bytes::new(alloc);
    for mode in [Mode::Plain, Mode::Digest, Mode::Named] {
        for key in [b"abc".as_slice(), b"abd", b""] {
            let allowed = guards.allows(mode, grants, b"cam", key);
            out.append(if allowed { b"+" } else { b"-" })?;
        }
    }
    let named = guards.allows(Mode::Named, grants, b"bob", b"abc");
    out.append(if named { b"+" } else { b"-" })?;
    Ok(out)
}

#[test]
fn a_guard_answers_what_its_mode_allows(rt: HostRuntime) -> Result<(), Fail> {
    let alloc = rt.alloc();
    let guards = guards(alloc)?;
    let mut out = told(alloc, &guards, &Grants::Open)?;
    out.append(told(alloc, &guards, &only(alloc, b"abc")?)?.as_slice())?;
    out.append(told(alloc, &guards, &only(alloc, DIGEST_OF_ABC)?)?.as_slice())?;
    out.append(told(alloc, &guards, &only(alloc, DIGEST_OF_CAM_ABC)?)?.as_slice())?;
    let none = Grants::Keys(KeyList::from_vec(Vec::new(alloc)));
    out.append(told(alloc, &guards, &none)?.as_slice())?;
    assert_eq!(rt;
        out.as_slice(),
        b"+++++++++++------------+------------+-------------".as_slice()
    );
    Ok(())
}
