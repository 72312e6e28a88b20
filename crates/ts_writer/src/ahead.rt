//! The state after the text so far that the next part depends on.
ghost use Rattle.std.specs.Prelude.{◌≡◌, ◌+◌, min, if◌then◌else◌, List, [], ◌∷◌};
ghost use Rattle.pes_packets.specs.Packet.{counted, AreFlags, IsTime};
ghost use Rattle.ts_writer.specs.declared.part.Part.{Part as APart};
ghost use Rattle.ts_writer.specs.declared.part.Part.TheVariants.{Start, Tables, Pes as APes};
ghost use Rattle.ts_writer.specs.Parts.{pid_of as pid_is, counter, is_last, lists_of, version as version_is, tables_due, flags_with};
ghost use Rattle.ts_writer.specs.Ahead.{ahead_of};

use crate::part::{Pes, Streams};
use pes_packets::{AUDIO_PID, PesFlags, VIDEO_PID};

// The number of audio units between tables if there is no video.
const SOUNDS: u8 = 32;

// Half a second, by which a clock reference stands before the unit's decoding time, in units of 1/90,000 second.
const LEAD: u64 = 45_000;

/// The next counter of each PID, the streams last listed, and that list's version. Also the number of audio
/// units since the last tables (32 stands for more), whether there was a clock reference, and whether the
/// next one jumps.
#[derive(Clone, Copy, Drop)]
pub struct Ahead {
    pub pat: u8,
    pub pmt: u8,
    pub video: u8,
    pub audio: u8,
    pub last: Option<Streams>,
    pub version: u8,
    pub sounds: u8,
    pub referred: bool,
    pub jump: bool,
}

/// Gives the PID of video or of audio.
pub fn pid_of(video: bool) -> u16
    ensures { result ≡ pid_is video }
{
    if video { VIDEO_PID } else { AUDIO_PID }
}

/// Gives one number if a condition holds, else another.
pub fn choice(so: bool, number: u8, other: u8) -> u8
    ensures { result ≡ (if so then number else other) }
{
    if so { number } else { other }
}

impl Ahead {
    /// Gives the state at the beginning of a text.
    pub fn new() -> Ahead
        ensures { result ≡ ahead_of [] }
    {
        Ahead {
            pat: 0,
            pmt: 0,
            video: 0,
            audio: 0,
            last: None,
            version: 0,
            sounds: 0,
            referred: false,
            jump: false,
        }
    }

    /// Tells whether the last tables list these streams.
    fn lists(self, streams: Streams) -> bool
        ensures { (ps : List APart) → self ≡ ahead_of ps → result ≡ is_last streams (lists_of ps) }
    {
        match self.last {
            Some(last) => streams.is(last),
            None => false,
        }
    }

    /// Tells whether tables stand before the next unit.
    pub fn owes_tables(self, streams: Streams, video: bool, random: bool) -> bool
        ensures { (ps : List APart) → self ≡ ahead_of ps → result ≡ tables_due streams video random ps }
    {
        if !self.lists(streams) || random {
            return true;
        }
        if streams.video || video {
            return false;
        }
        self.sounds >= SOUNDS
    }

    /// Gives the version of a map table that lists these streams.
    pub fn version_of(self, streams: Streams) -> u8
        ensures { (ps : List APart) → self ≡ ahead_of ps → result ≡ version_is streams ps }
    {
        match self.last {
            None => self.version,
            Some(last) => {
                if streams.is(last) {
                    self.version
                } else {
                    self.version.wrapping_add(1) % 32
                }
            }
        }
    }

    /// Gives the fields of the first packet of the next unit.
    #[tactic(auto, using(std::proofs::lemmas::Bool::Decides::nat_tests))]
    pub fn flags(self, streams: Streams, video: bool, random: bool, dts: u64) -> PesFlags
        requires { IsTime dts }
        ensures flags { result ≡ flags_with self.jump streams video random dts }
        ensures times { AreFlags result }
    {
        if pid_of(video) != pid_of(streams.video) {
            return PesFlags {
                pcr: None,
                random: false,
                jump: false,
            };
        }
        PesFlags {
            pcr: Some((dts + ((1 << 33) - LEAD)) % (1 << 33)),
            random,
            jump: self.jump,
        }
    }

    /// Gives the state after the beginning of a broadcast.
    pub fn started(self) -> Ahead
        ensures { (ps : List APart) → self ≡ ahead_of ps → result ≡ ahead_of (Start ∷ ps) }
    {
        Ahead {
            jump: self.referred,
            ..self
        }
    }

    /// Gives the state after tables, with the next counters of their PIDs and the map's version.
    pub fn after_tables(self, streams: Streams, pat: u8, pmt: u8, version: u8) -> Ahead
        requires pat { pat ≡ counted self.pat 1 }
        requires pmt { pmt ≡ counted self.pmt 1 }
        requires version { (ps : List APart) → self ≡ ahead_of ps → version ≡ version_is streams ps }
        ensures { (ps : List APart) → self ≡ ahead_of ps → result ≡ ahead_of (Tables streams ∷ ps) }
    {
        Ahead {
            pat,
            pmt,
            last: Some(streams),
            version,
            sounds: 0,
            ..self
        }
    }

    /// Gives the number of audio units since the last tables, after one unit more.
    fn sounds_with(self, video: bool) -> u8
        ensures { result ≡ (if video then self.sounds else min 32 (self.sounds + 1)) }
    {
        if video {
            self.sounds
        } else {
            self.sounds.saturating_add(1).min(SOUNDS)
        }
    }

    /// Gives the state after a PES packet, with the next counter of its PID.
    pub fn after_pes(self, pes: &Pes, next: u8) -> Ahead
        requires { (ps : List APart) → self ≡ ahead_of ps → next ≡ counter (pid_is pes.now.video) (APes pes.now ∷ ps) }
        ensures { (ps : List APart) → self ≡ ahead_of ps → result ≡ ahead_of (APes pes.now ∷ ps) }
    {
        let after = Ahead {
            video: choice(pes.video, next, self.video),
            audio: choice(pes.video, self.audio, next),
            sounds: self.sounds_with(pes.video),
            ..self
        };
        match pes.flags.pcr {
            Some(_) => Ahead {
                referred: true,
                jump: false,
                ..after
            },
            None => after,
        }
    }
}
