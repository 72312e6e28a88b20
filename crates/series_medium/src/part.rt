//! The parts of a frame.
ghost use Rattle.std.specs.Prelude.{◌≡◌, ◌≤◌, ◌<◌, length, take, slice_index, None};
ghost use Rattle.series_medium.specs.Reading.{data_of, data_or_kind};
ghost use Rattle.series_medium.specs.Heads.{Leads, head_behind};
ghost use Rattle.series_medium.specs.Reading.{IsDue};

use relay_base::be32;

/// The part of a frame that the next byte is.
#[derive(Clone, Copy, Drop)]
pub enum Part {
    /// It says what frame begins.
    Kind,
    /// It is the first byte of a length.
    Length1,
    /// It is the second byte of a length, behind this one.
    Length2(u8),
    /// It is the third.
    Length3(u8, u8),
    /// It is the last.
    Length4(u8, u8, u8),
    /// It is data, and so many bytes are left of it.
    Data { left: u32 },
}

// Returns the part behind the last byte of a length. No frame of data is empty.
fn data_of(size: u32) -> Option<Part>
    ensures { result ≡ data_of size }
{
    match size {
        0 => None,
        left => Some(Part::Data { left }),
    }
}

/// Returns the part behind data of which so many bytes are left.
pub(crate) fn data_or_kind(left: u32) -> Part
    ensures { result ≡ data_or_kind left }
{
    match left {
        0 => Part::Kind,
        left => Part::Data { left },
    }
}

impl Part {
    // Returns the part behind a byte of a frame's head, which is what stands before data. `None` if the byte is none of it.
    fn behind(self, byte: u8) -> Option<Part>
        ensures { result ≡ head_behind self byte }
    {
        match self {
            Part::Kind => match byte {
                0 => Some(Part::Length1),
                _ => None,
            },
            Part::Length1 => Some(Part::Length2(byte)),
            Part::Length2(a) => Some(Part::Length3(a, byte)),
            Part::Length3(a, b) => Some(Part::Length4(a, b, byte)),
            Part::Length4(a, b, c) => data_of(be32(&[a, b, c, byte])),
            Part::Data { left: _ } => None,
        }
    }
}

/// Reads the head of a frame, as far as it stands at the front of a piece. Returns the part that follows, and the number of bytes
/// that were read.
#[tactic(auto, using(crate::proofs::Heading::leads_on, crate::proofs::Heading::head_due))]
pub(crate) fn read_head(part: Part, piece: &[u8]) -> (Part, usize)
    ensures within { result.1 ≤ length piece.now }
    ensures reads { Leads part (take result.1 piece.now) result.0 }
    ensures ends { result.1 < length piece.now → head_behind result.0 (slice_index piece.now result.1) ≡ None }
    ensures due { IsDue part → IsDue result.0 }
{
    let mut now = part;
    let mut used = 0;
    while used < piece.len() {
        match now.behind(piece[used]) {
            Some(next) => {
                now = next;
                used += 1;
            }
            None => return (now, used),
        }
    }
    (now, used)
}
