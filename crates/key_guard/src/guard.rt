ghost use Rattle.std.specs.Prelude.{◌≡◌, ◌↔◌, IsTrue};
ghost use Rattle.key_guard.specs.Allowed.{Allowed, is_allowed};
ghost use Rattle.key_guard.specs.declared.check.Mode.TheVariants.{Plain, Digest, Named};

use crate::{Grants, Mode};

/// A function that tells whether grants allow a key: it takes the grants, the requested name and the key.
pub type Check = Box<dyn Fn(&Grants, &[u8], &[u8]) -> bool + Send + Sync>;

/// A function with two facts: it may be called on all arguments, and it answers whether the key is allowed in
/// the guard's mode.
#[derive(Drop)]
pub struct Guard {
    /// The mode by which it answers.
    pub mode: Mode,
    check: Check,
    ghost callable: { Check.IsAlwaysCallable check },
    ghost answers: { (grants : _) (name : _) (key : _) (r : _) → Check.post check grants name key r → r ≡ is_allowed mode grants.now name.now key.now },
}

/// A guard for each mode.
#[derive(Drop)]
pub struct Guards {
    pub plain: Guard,
    pub digest: Guard,
    pub named: Guard,
    ghost plain_is: { plain.mode ≡ Plain },
    ghost digest_is: { digest.mode ≡ Digest },
    ghost named_is: { named.mode ≡ Named },
}

impl Guards {
    /// Makes a set of the three guards, each of its mode.
    pub fn new(plain: Guard, digest: Guard, named: Guard) -> Guards
        requires plain_is { plain.mode ≡ Mode.Plain }
        requires digest_is { digest.mode ≡ Mode.Digest }
        requires named_is { named.mode ≡ Mode.Named }
        ensures plain { result.plain ≡ plain }
        ensures digest { result.digest ≡ digest }
        ensures named { result.named ≡ named }
    {
        Guards {
            plain,
            digest,
            named,
        }
    }

    /// Tells whether the grants allow the key for the name in that mode.
    pub fn allows(&self, mode: Mode, grants: &Grants, name: &[u8], key: &[u8]) -> bool
        ensures test { result ≡ is_allowed mode grants.now name.now key.now }
        ensures allowed { IsTrue result ↔ Allowed mode grants.now name.now key.now }
    {
        match mode {
            Mode::Plain => self.plain.allows(grants, name, key),
            Mode::Digest => self.digest.allows(grants, name, key),
            Mode::Named => self.named.allows(grants, name, key),
        }
    }
}

impl Guard {
    /// Makes a guard from a function that answers by `mode`.
    pub fn new(mode: Mode, check: Check) -> Guard
        requires callable { Check.IsAlwaysCallable check }
        requires answers { (grants : _) (name : _) (key : _) (r : _) → Check.post check grants name key r → r ≡ is_allowed mode grants.now name.now key.now }
        ensures { result.mode ≡ mode }
    {
        Guard { mode, check }
    }

    /// Tells whether the grants allow the key for the name in the guard's mode.
    pub fn allows(&self, grants: &Grants, name: &[u8], key: &[u8]) -> bool
        ensures test { result ≡ is_allowed self.now.mode grants.now name.now key.now }
        ensures allowed { IsTrue result ↔ Allowed self.now.mode grants.now name.now key.now }
    {
        self.answer(grants, name, key)
    }

    fn answer(&self, grants: &Grants, name: &[u8], key: &[u8]) -> bool
        ensures { result ≡ is_allowed self.now.mode grants.now name.now key.now }
    {
        (self.check)(grants, name, key)
    }
}
