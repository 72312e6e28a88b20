//! Why a unit is left out, in words.

use aac_adts::AacFail;
use avc_annexb::AvcFail;
use std::fmt;
use std::fmt::{Display, Formatter};
use ts_writer::Left;

/// Why a unit is left out of a transport stream, as a sentence without a stop.
#[derive(Clone, Copy)]
pub(crate) struct Cause {
    pub left: Left,
}

fn put_dirty<W: fmt::Write>(f: &mut Formatter<W>, nal: usize, at: usize) -> fmt::Result {
    write!(
        f,
        "its NAL unit {nal} has zero bytes at {at} that no NAL unit has there"
    )
}

fn put_avc<W: fmt::Write>(f: &mut Formatter<W>, fail: AvcFail) -> fmt::Result {
    match fail {
        AvcFail::Short { at } => write!(f, "its AVC ends early or has an unknown version, at {at}"),
        AvcFail::LengthSize { size } => write!(
            f,
            "its AVC configuration has lengths of {size} bytes"
        ),
        AvcFail::PastEnd { at } => write!(f, "a NAL unit goes past its end, by the length at {at}"),
        AvcFail::Dirty { nal, at } => put_dirty(f, nal, at),
        AvcFail::EmptyNal { nal } => write!(f, "its NAL unit {nal} has no bytes"),
        AvcFail::NoStart { at } => write!(f, "no NAL unit begins at {at}"),
        AvcFail::OutOfMemory => f.write_str("there was too little memory"),
    }
}

fn put_aac<W: fmt::Write>(f: &mut Formatter<W>, fail: AacFail) -> fmt::Result {
    match fail {
        AacFail::Short => f.write_str("its AAC configuration has fewer than two bytes"),
        AacFail::Object { n: 5 } => {
            f.write_str("it is HE-AAC by explicit signalling, audio object type 5")
        }
        AacFail::Object { n } => write!(f, "audio object type {n} isn't carried"),
        AacFail::Index { n } => write!(f, "sampling frequency index {n} isn't carried"),
        AacFail::Channels { n } => write!(f, "channel configuration {n} isn't carried"),
        AacFail::TooLong { n } => write!(
            f,
            "{n} bytes of sound are more than a frame of ADTS holds"
        ),
        AacFail::BadAdts { at } => write!(f, "no frame of ADTS begins at {at}"),
        AacFail::OutOfMemory => f.write_str("there was too little memory"),
    }
}

impl Display for Cause {
    fn fmt<W: fmt::Write>(&self, f: &mut Formatter<W>) -> fmt::Result {
        match self.left {
            Left::Codec => f.write_str("it is neither AVC nor AAC, or no packet of type 1"),
            Left::NoConfig => f.write_str("no configuration is in force for it"),
            Left::Empty => f.write_str("it has no NAL unit but delimiters, or no sound"),
            Left::Avc(fail) => put_avc(f, fail),
            Left::Aac(fail) => put_aac(f, fail),
        }
    }
}
