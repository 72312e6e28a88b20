use std::error::Error;
use std::fmt;

/// Why a handshake failed.
#[derive(Clone, Copy, Debug)]
pub enum HandFail {
    /// The client's first byte, its version, isn't 3 (RTMP 1.0, 5.2.2).
    BadVersion { byte: u8 },
    /// Memory was refused.
    OutOfMemory,
}

impl fmt::Display for HandFail {
    fn fmt<W: fmt::Write>(&self, f: &mut fmt::Formatter<W>) -> fmt::Result {
        match self {
            HandFail::BadVersion { byte } => write!(f, "version {byte} of RTMP, where 3 is spoken"),
            HandFail::OutOfMemory => write!(f, "out of memory"),
        }
    }
}

impl Error for HandFail {}
