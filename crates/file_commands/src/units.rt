//! A transport stream that is printed unit by unit.
ghost use Rattle.std.specs.Prelude.{◌≡◌, [], refl};
ghost use Rattle.file_commands.specs.Fits.{UnitsFit, units_refusal};

use crate::convert::Convert;
use crate::fail::Fail;
use crate::lines::{put_last, put_line};
use av_unit::Bytes;
use std::alloc::Global;
use ts_reader::{TsFail, TsFed, TsReader};

/// The units of a transport stream, and the number of units printed.
#[derive(Drop)]
pub(crate) struct Units {
    reader: TsReader,
    count: u64,
}

fn refusal(fail: TsFail) -> Fail
    ensures { result ≡ units_refusal fail }
{
    match fail {
        TsFail::NoSync { at } => Fail::Refused { at },
        TsFail::BadTable { at } => Fail::Refused { at },
        TsFail::BadCounter {
            at,
            kept: _,
            found: _,
        } => Fail::Refused { at },
        TsFail::BadPes { at } => Fail::Refused { at },
        TsFail::BadUnit { at } => Fail::Refused { at },
        TsFail::OutOfMemory => Fail::OutOfMemory,
    }
}

impl Units {
    /// Makes the state of a stream of which nothing was read.
    pub(crate) fn new(alloc: Global) -> Units
        ensures fits { UnitsFit result.reader result.count }
        ensures fresh { (result.reader.fed ≡ []) × (result.reader.given ≡ []) }
    {
        Units {
            reader: TsReader::new(alloc),
            count: 0,
        }
    }
}

impl Convert for Units {
    ghost use Rattle.std.specs.Prelude.{refl};
    ghost use Rattle.file_commands.specs.Check.{CheckGives, CheckStops, CheckCut, CheckWhole, lines_of};
    ghost use Rattle.file_commands.specs.Fits.{UnitsFit};

    ghost fed = { λ u. u.reader.fed };

    ghost given = { λ u. lines_of u.reader.given };

    ghost fits = { λ u. UnitsFit u.reader u.count };

    ghost gives = { CheckGives };

    ghost stops = { CheckStops };

    ghost cut = { CheckCut };

    ghost whole = { CheckWhole };

    ghost told = { λ _ _. Unit {0} };

    fn step(&mut self, alloc: Global, piece: &[u8], out: &mut Bytes) -> Result<usize, Fail> {
        match self.reader.feed(alloc, piece) {
            Ok(TsFed { used, unit: None }) => Ok(used),
            Ok(
                TsFed {
                    used,
                    unit: Some(unit),
                },
            ) => {
                put_line(alloc, &unit, out)?;
                self.count += 1;
                Ok(used)
            }
            Err(fail) => Err(refusal(fail)),
        }
    }

    fn finish(&mut self, alloc: Global, out: &mut Bytes) -> Result<bool, Fail> {
        match self.reader.finish(alloc) {
            Ok(last) => {
                put_last(alloc, &last, self.count, out)?;
                Ok(false)
            }
            Err(fail) => Err(refusal(fail)),
        }
    }

    ghost reads = { λ u fit. record {
      units = u.reader.given;
      mux = fit.stands.m;
      rest = fit.stands.r;
      reads = fit.stands.read;
      text_is = refl;
    } };
}
