ghost use Rattle.std.specs.Prelude.{◌≡◌, ◌≤◌, ◌<◌, length, Ok, Err, IfOk};
ghost use Rattle.avc_annexb.specs.Nal.{Gives};
ghost use Rattle.avc_annexb.specs.Prefixed.{IsSize};
ghost use Rattle.avc_annexb.specs.Record.{Config, IsRecord, record_of, sets_in, size_read, SetsGiven};

use crate::nal::after;
use crate::prefixed::front;
use crate::{AvcFail, NalList};
use av_unit::Bytes;
use std::alloc::Global;
use std::marker::Model;

/// The content of a decoder's configuration record: the sequence and picture parameter sets, and `size`.
/// `size` is the number of bytes of the length before a unit, 1, 2 or 4.
#[derive(Drop)]
pub struct Avcc {
    pub size: u8,
    pub sps: NalList,
    pub pps: NalList,
}

impl Model for Avcc {
    ghost use Rattle.avc_annexb.specs.Record.{Config, IsConfig};

    ghost Value = { Config };

    ghost view = { λ a. record { size = a.size; sps = a.sps; pps = a.pps } };

    ghost invariant = { λ a. IsConfig (record { size = a.size; sps = a.sps; pps = a.pps }) };
}

/// Reads the length size in a record. The version, the length size and the number of sequence parameter sets
/// must be there.
#[tactic(auto, using(std::proofs::lemmas::Bool::Decides::nat_tests), unfolding(crate::specs::Record::size_read))]
fn length_size(body: &[u8]) -> Result<u8, AvcFail>
    ensures value { result ≡ size_read body.now }
    ensures size { IfOk result (λ size. IsSize size) }
    ensures whole { IfOk result (λ _. 6 ≤ length body.now) }
{
    if body.first() != Some(&1) {
        return Err(AvcFail::Short { at: 0 });
    }
    if body.len() < 5 {
        return Err(AvcFail::Short { at: body.len() });
    }
    let size = body[4] % 4 + 1;
    if size == 3 {
        return Err(AvcFail::LengthSize { size });
    }
    if body.len() < 6 {
        return Err(AvcFail::Short { at: body.len() });
    }
    Ok(size)
}

/// Reads `count` parameter sets, and returns the bytes behind them too. The record has `total` bytes, and
/// `nal` sets stand before these.
fn sets(
    alloc: Global,
    count: u8,
    bytes: &[u8],
    total: usize,
    nal: usize,
) -> Result<(NalList, &[u8]), AvcFail>
    requires { nal < 256 }
    ensures exact { SetsGiven result (sets_in count total nal bytes.now) }
    ensures most { IfOk result (λ p. length p.0 ≡ count) }
{
    let mut list = Vec::new(alloc);
    let mut left = bytes;
    for _ in 0..count {
        let (unit, rest) = front(left, 2, nal + list.len(), AvcFail::Short { at: total })?;
        list.push(Bytes::from_vec(Vec::from_slice(alloc, unit)?))?;
        left = rest;
    }
    Ok((NalList::from_vec(list), left))
}

// Reads a configuration record by its table.
fn read_record(alloc: Global, body: &[u8]) -> Result<Avcc, AvcFail>
    ensures { Gives result (record_of body.now) }
{
    let size = length_size(body)?;
    let (sps, rest) = sets(alloc, body[5] % 32, after(body, 6), body.len(), 0)?;
    let [count, ..] = rest else {
        return Err(AvcFail::Short { at: body.len() });
    };
    let (pps, _) = sets(alloc, *count, after(rest, 1), body.len(), sps.len())?;
    Ok(Avcc { size, sps, pps })
}

impl Avcc {
    /// Reads a configuration record. It reads neither the bytes behind the picture parameter sets, nor
    /// profile, compatibility and level.
    ///
    /// Refusals are `Short`, `LengthSize`, `EmptyNal`, `Dirty` and `OutOfMemory`. The numbers of picture
    /// parameter sets go on from those of the sequence parameter sets.
    pub fn read(alloc: Global, body: &[u8]) -> Result<Avcc, AvcFail>
        ensures exact { Gives result (record_of body.now) }
        ensures found { IfOk result (λ c. IsRecord c body.now) }
        ensures only { (c : Config) → IsRecord c body.now → Gives result (Ok c) }
    {
        read_record(alloc, body)
    }
}
