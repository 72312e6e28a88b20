//! The text so far, part by part.
ghost use Rattle.std.specs.Prelude.{◌≡◌, ◌<◌, ℕ, List, [], ◌∷◌, ◌++◌, length, OnOk, OnErr};
ghost use Rattle.pes_packets.specs.Packet.{AreFlags, IsTime};
ghost use Rattle.ts_writer.specs.declared.part.Part.TheVariants.{Start, Tables, Pes as APes};
ghost use Rattle.ts_writer.specs.Parts.{part_text, text_behind, with_parts, tables_due, flags_of};
ghost use Rattle.ts_writer.specs.Frames.{IsFramed};
ghost use Rattle.ts_writer.specs.Text.{frame_parts};

use crate::ahead::{Ahead, choice, pid_of};
use crate::framed::Framed;
use crate::part::{Part, Pes, Streams};
use av_unit::{Bytes, OutOfMemory};
use past::History;
use pes_packets::{PAT_PID, PMT_PID, PesFlags, pat_section, pmt_section, put_pes, put_section};
use std::alloc::Global;
use std::marker::Model;

/// A transport stream that is written. Contracts see it as its parts, the newest first.
#[derive(Drop)]
pub struct Multiplex {
    alloc: Global,
    ahead: Ahead,
    parts: History<Part>,
}

impl Model for Multiplex {
    ghost use Rattle.std.specs.Prelude.{◌≡◌, List};
    ghost use Rattle.ts_writer.specs.declared.part.Part.{Part as APart};
    ghost use Rattle.ts_writer.specs.Ahead.{ahead_of};

    ghost Value = { List APart };

    ghost view = { λ m. m.parts };

    ghost invariant = { λ m. m.ahead ≡ ahead_of m.parts };
}

impl Multiplex {
    /// Makes a stream without parts.
    pub fn new(alloc: Global) -> Multiplex
        ensures { result ≡ [] }
    {
        Multiplex {
            alloc,
            ahead: Ahead::new(),
            parts: History::new(),
        }
    }

    /// Begins a broadcast.
    pub fn start(&mut self)
        ensures { self.new ≡ Start ∷ self.old }
    {
        self.ahead = self.ahead.started();
        self.parts.add(&Part::Start);
    }

    fn owes_tables(&self, streams: Streams, video: bool, random: bool) -> bool
        ensures { result ≡ tables_due streams video random self.now }
    {
        self.ahead.owes_tables(streams, video, random)
    }

    fn flags(&self, streams: Streams, video: bool, random: bool, dts: u64) -> PesFlags
        requires { IsTime dts }
        ensures flags { result ≡ flags_of streams video random dts self.now }
        ensures times { AreFlags result }
    {
        self.ahead.flags(streams, video, random, dts)
    }

    /// Appends both tables.
    fn put_tables(&mut self, streams: Streams, out: &mut Bytes) -> Result<(), OutOfMemory>
        ensures parts { OnOk result (self.new ≡ Tables streams ∷ self.old) }
        ensures text { OnOk result (out.new ≡ out.old ++ part_text self.old (Tables streams)) }
        ensures left { OnErr result ((more : List ℕ) × (out.new ≡ out.old ++ more)) }
    {
        let ahead = self.ahead;
        let version = ahead.version_of(streams);
        let section = pmt_section(self.alloc, streams.video, streams.audio, version)?;
        let pat = put_section(PAT_PID, ahead.pat, pat_section(), out)?;
        let pmt = put_section(PMT_PID, ahead.pmt, section.as_slice(), out)?;
        self.ahead = ahead.after_tables(streams, pat, pmt, version);
        self.parts.add(&Part::Tables(streams));
        Ok(())
    }

    /// Appends the transport packets of a PES packet.
    fn put_packets(&mut self, pes: Pes, out: &mut Bytes) -> Result<(), OutOfMemory>
        requires flags { AreFlags pes.flags }
        requires some { 0 < length pes.bytes }
        ensures parts { OnOk result (self.new ≡ APes pes ∷ self.old) }
        ensures text { OnOk result (out.new ≡ out.old ++ part_text self.old (APes pes)) }
        ensures left { OnErr result ((more : List ℕ) × (out.new ≡ out.old ++ more)) }
    {
        let ahead = self.ahead;
        let counter = choice(pes.video, ahead.video, ahead.audio);
        let next = put_pes(
            pid_of(pes.video),
            counter,
            pes.flags,
            pes.bytes.as_slice(),
            out,
        )?;
        self.ahead = ahead.after_pes(&pes, next);
        self.parts.add(&Part::Pes(pes));
        Ok(())
    }

    /// Appends a unit, and before it both tables if they are due.
    pub fn put(
        &mut self,
        streams: Streams,
        framed: Framed,
        out: &mut Bytes,
    ) -> Result<(), OutOfMemory>
        requires { IsFramed framed }
        ensures parts { OnOk result (self.new ≡ with_parts self.old (frame_parts streams framed self.old)) }
        ensures text { OnOk result (out.new ≡ out.old ++ text_behind self.old (frame_parts streams framed self.old)) }
        ensures left { OnErr result ((more : List ℕ) × (out.new ≡ out.old ++ more)) }
    {
        let Framed {
            video,
            random,
            dts,
            pes,
        } = framed;
        if self.owes_tables(streams, video, random) {
            self.put_tables(streams, out)?;
        }
        let flags = self.flags(streams, video, random, dts);
        self.put_packets(
            Pes {
                video,
                flags,
                bytes: pes,
            },
            out,
        )
    }
}
