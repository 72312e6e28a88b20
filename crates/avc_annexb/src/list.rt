ghost use Rattle.std.specs.Prelude.{◌≡◌, ◌↔◌, [], length, IsTrue};
ghost use Rattle.avc_annexb.specs.Nal.{AreNals};

use av_unit::Bytes;
use std::marker::Model;

/// NAL units, in order. Each has at least one byte, and none has a start code in it or ends in a zero byte
/// (ISO/IEC 14496-10, 7.4.1). Contracts see them as the list of their bytes.
#[derive(Drop)]
pub struct NalList {
    list: Vec<Bytes>,
}

impl Model for NalList {
    ghost use Rattle.std.specs.Prelude.{List, ℕ};
    ghost use Rattle.avc_annexb.specs.Nal.{AreNals};

    ghost Value = { List (List ℕ) };

    ghost view = { λ n. n.list.items };

    ghost invariant = { λ n. AreNals n.list.items };
}

impl NalList {
    /// Makes the list of a `Vec`'s units.
    pub fn from_vec(list: Vec<Bytes>) -> NalList
        requires { AreNals list.items }
        ensures { result ≡ list.items }
    {
        NalList { list }
    }

    /// Returns its units as a slice.
    pub fn as_slice(&self) -> &[Bytes]
        ensures value { result.now ≡ self.now }
        ensures units { AreNals self.now }
    {
        &self.list
    }

    /// Returns the number of its units.
    pub fn len(&self) -> usize
        ensures { result ≡ length self.now }
    {
        self.list.len()
    }

    /// Tells whether it has no unit.
    pub fn is_empty(&self) -> bool
        ensures { IsTrue result ↔ (self.now ≡ []) }
    {
        self.list.is_empty()
    }

    /// Returns its units as a `Vec`.
    pub fn into_vec(self) -> Vec<Bytes>
        ensures value { result.items ≡ self }
        ensures units { AreNals self }
    {
        self.list
    }
}
