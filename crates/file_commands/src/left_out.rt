ghost use Rattle.std.specs.Prelude.{◌≡◌};
ghost use Rattle.file_commands.specs.LeftOut.{none_left, noted};

use crate::cause::Cause;
use std::fmt;
use std::fmt::{Display, Formatter};
use ts_writer::{Left, Wrote};

/// The number of units left out of a transport stream, and why the first of these is. The count stops at the
/// last value of a u64.
#[derive(Clone, Copy, Drop)]
pub struct LeftOut {
    pub count: u64,
    pub first: Option<Left>,
}

impl LeftOut {
    /// Makes a count of 0.
    pub fn none() -> LeftOut
        ensures { result ≡ none_left }
    {
        LeftOut {
            count: 0,
            first: None,
        }
    }

    /// Notes the result of writing one more item.
    pub(crate) fn note(&mut self, wrote: Wrote)
        ensures { self.new ≡ noted self.old wrote }
    {
        match wrote {
            Wrote::LeftOut(left) => {
                self.count = self.count.saturating_add(1);
                self.first = self.first.or(Some(left));
            }
            Wrote::Unit => {}
            Wrote::Nothing => {}
        }
    }
}

/// As `units of sound or pictures left out: 3; the first: no configuration is in force for it`.
impl Display for LeftOut {
    fn fmt<W: fmt::Write>(&self, f: &mut Formatter<W>) -> fmt::Result {
        let count = self.count;
        write!(f, "units of sound or pictures left out: {count}")?;
        match self.first {
            Some(left) => write!(f, "; the first: {}", Cause { left }),
            None => Ok(()),
        }
    }
}
