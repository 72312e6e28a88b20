ghost use Rattle.std.specs.Prelude.{◌≡◌, ◌≤◌, ◌<◌, ◌+◌, ◌^◌, ◌⊎◌, [], ◌++◌, length, option_to_list, IfOk, IfErr, IfSome, None, Err};
ghost use Rattle.ts_reader.specs.declared.fail.TsFail.TheVariants.{OutOfMemory};
ghost use Rattle.ts_reader.specs.Known.{fresh};
ghost use Rattle.ts_reader.specs.Feeds.{IsEnded, IsFedTo, IsRefused, IsRefusedAtEnd, IsTakenTo};
ghost use Rattle.ts_reader.specs.Sound.{Fails, IsLast, LastFails, Takes, mux_of};

use crate::packet::PACKET;
use crate::state::{State, before, close, read_packet};
use crate::{TsFail, TsUnit};
use av_unit::Bytes;
use past::Flow;
use std::alloc::Global;
use std::marker::Model;

/// The result of a feed: the number of bytes used of its piece, and the unit that ends there.
#[derive(Drop)]
pub struct TsFed {
    pub used: usize,
    pub unit: Option<TsUnit>,
}

/// A reader of a transport stream. It holds one unit at most, and less than a packet.
#[derive(Drop)]
pub struct TsReader {
    state: State,
    part: Bytes,
    at: u64,
    failed: Option<TsFail>,
    fed: Flow<u8>,
    given: Flow<TsUnit>,
}

impl Model for TsReader {
    ghost use Rattle.ts_reader.specs.Known.{Known};
    ghost use Rattle.ts_reader.specs.Sound.{IsSound};

    ghost Value = { Known };

    ghost view = { λ r. record { fed = r.fed; given = r.given; failed = r.failed } };

    ghost invariant = { λ r. IsSound r.state r.part r.at r.failed r.fed r.given };
}

// Takes bytes of the packet that begins after `at` bytes, at most those that are missing. If they are the
// whole packet, it is read in place.
fn take_run(
    state: &mut State,
    part: &mut Bytes,
    alloc: Global,
    at: u64,
    run: &[u8],
) -> Result<Option<TsUnit>, TsFail>
    requires some { 0 < length run.now }
    requires within { length part.old + length run.now ≤ 188 }
    ensures ok { IfOk result (λ u. Takes at (mux_of state.old) part.old run.now u (mux_of state.new) part.new) }
    ensures err { IfErr result (λ e. (e ≡ OutOfMemory) ⊎ Fails at (mux_of state.old) part.old run.now e) }
{
    if run.len() == PACKET {
        return read_packet(state, alloc, at, run);
    }
    part.append(run)?;
    if part.len() < PACKET {
        return Ok(None);
    }
    let unit = read_packet(state, alloc, at, part.as_slice())?;
    part.truncate(0);
    Ok(unit)
}

// Gives the number of bytes before the next packet, or before this one if it isn't whole.
fn place_after(at: u64, part: &Bytes) -> u64
    requires { at < 2 ^ 63 }
    ensures whole { part.now ≡ [] → result ≡ at + 188 }
    ensures begun { (part.now ≡ [] → ⊥) → result ≡ at }
{
    if part.is_empty() {
        at + PACKET as u64
    } else {
        at
    }
}

// Takes the unit of the PES packet that is open at the end, if no packet has begun.
fn take_last(state: &mut State, part: &Bytes, at: u64) -> Result<Option<TsUnit>, TsFail>
    ensures ok { IfOk result (λ u. IsLast (mux_of state.old) part.now u) }
    ensures err { IfErr result (λ e. LastFails at (mux_of state.old) part.now e) }
{
    if !part.is_empty() {
        return Err(TsFail::NoSync { at });
    }
    close(state.pes.take())
}

// Notes a unit that was read.
fn note(given: &mut Flow<TsUnit>, unit: &Option<TsUnit>)
    ensures { given.new ≡ given.old ++ option_to_list unit.now }
{
    match unit {
        None => {}
        Some(whole) => given.add(whole),
    }
}

impl TsReader {
    /// Makes a reader that was fed no bytes.
    pub fn new(alloc: Global) -> TsReader
        ensures { result ≡ fresh }
    {
        TsReader {
            state: before(),
            part: Bytes::new(alloc),
            at: 0,
            failed: None,
            fed: Flow::new(),
            given: Flow::new(),
        }
    }

    // Takes some bytes of a piece.
    fn advance(&mut self, alloc: Global, piece: &[u8]) -> Result<TsFed, TsFail>
        requires lives { self.old.failed ≡ None }
        requires some { 0 < length piece.now }
        requires near { length self.old.fed + length piece.now < 2 ^ 63 }
        ensures ok { IfOk result (λ f. IsTakenTo self.old piece.now f.used f.unit self.new) }
        ensures err { IfErr result (λ e. IsRefused self.old piece.now e self.new) }
    {
        let used = (PACKET - self.part.len()).min(piece.len());
        let run = &piece[..used];
        match take_run(&mut self.state, &mut self.part, alloc, self.at, run) {
            Ok(unit) => {
                self.at = place_after(self.at, &self.part);
                self.fed.add_all(run);
                note(&mut self.given, &unit);
                Ok(TsFed { used, unit })
            }
            Err(fail) => {
                self.fed.add_all(&piece[..used - 1]);
                self.state = before();
                self.part = Bytes::new(alloc);
                self.failed = Some(fail);
                Err(fail)
            }
        }
    }

    /// Takes a piece up to its end, or to the end of the packet that ends a unit.
    ///
    /// It refuses the first packet after which the bytes fed can't be a stream, once that packet is whole
    /// (see `TsFail`). A reader that refused gives the same answer again.
    pub fn feed(&mut self, alloc: Global, piece: &[u8]) -> Result<TsFed, TsFail>
        requires near { length self.old.fed + length piece.now < 2 ^ 63 }
        ensures again { IfSome self.old.failed (λ e. (result ≡ Err e) × (self.new ≡ self.old)) }
        ensures ok { self.old.failed ≡ None → IfOk result (λ f. IsFedTo self.old piece.now f.used f.unit self.new) }
        ensures err { self.old.failed ≡ None → IfErr result (λ e. IsRefused self.old piece.now e self.new) }
    {
        if let Some(fail) = self.failed {
            return Err(fail);
        }
        let mut used = 0;
        while used < piece.len() {
            match self.advance(alloc, &piece[used..]) {
                Err(fail) => return Err(fail),
                Ok(TsFed { used: more, unit }) => {
                    used += more;
                    if unit.is_some() {
                        return Ok(TsFed { used, unit });
                    }
                }
            }
        }
        Ok(TsFed { used, unit: None })
    }

    /// Ends the input, and gives the unit of the last PES packet, if one is open. After that the reader is as
    /// new.
    ///
    /// It refuses a packet that isn't whole (`NoSync`), and a last PES packet (`BadPes`, `BadUnit`). A reader
    /// that refused gives the same answer again.
    pub fn finish(&mut self, alloc: Global) -> Result<Option<TsUnit>, TsFail>
        ensures again { IfSome self.old.failed (λ e. (result ≡ Err e) × (self.new ≡ self.old)) }
        ensures ok { self.old.failed ≡ None → IfOk result (λ u. IsEnded self.old u self.new) }
        ensures err { self.old.failed ≡ None → IfErr result (λ e. IsRefusedAtEnd self.old e self.new) }
    {
        if let Some(fail) = self.failed {
            return Err(fail);
        }
        match take_last(&mut self.state, &self.part, self.at) {
            Ok(unit) => {
                *self = TsReader::new(alloc);
                Ok(unit)
            }
            Err(fail) => {
                self.state = before();
                self.part = Bytes::new(alloc);
                self.failed = Some(fail);
                Err(fail)
            }
        }
    }
}
