ghost use Rattle.std.specs.Prelude.{◌≡◌, ℕ, ◌++◌, [], ◌∷◌, List, OnOk, OnErr};
ghost use Rattle.avc_annexb.specs.AnnexB.{started, annexb, but_delimiters};

use crate::NalList;
use av_unit::{Bytes, OutOfMemory};

// The type of an access unit delimiter (ISO/IEC 14496-10, table 7-1).
const DELIMITER: u8 = 9;

/// Appends a unit behind a zero byte and a start code.
fn put_started(unit: &[u8], out: &mut Bytes) -> Result<(), OutOfMemory>
    ensures ok { OnOk result (out.new ≡ out.old ++ started unit.now) }
    ensures left { OnErr result ((more : List ℕ) × (out.new ≡ out.old ++ more)) }
{
    out.append(&[0, 0, 0, 1])?;
    out.append(unit)
}

/// Appends a unit behind a zero byte and a start code, but nothing for an access unit delimiter.
pub(crate) fn put_unless_delimiter(unit: &[u8], out: &mut Bytes) -> Result<(), OutOfMemory>
    ensures ok { OnOk result (out.new ≡ out.old ++ annexb (but_delimiters (unit.now ∷ []))) }
    ensures left { OnErr result ((more : List ℕ) × (out.new ≡ out.old ++ more)) }
{
    match unit.first() {
        Some(first) if first % 32 == DELIMITER => Ok(()),
        _ => put_started(unit, out),
    }
}

/// Appends units as a byte stream: each behind `00 00 00 01` (ISO/IEC 14496-10, B.1.1). After a refusal,
/// `out` begins with the bytes that it held before.
pub fn to_annexb(list: &NalList, out: &mut Bytes) -> Result<(), OutOfMemory>
    ensures ok { OnOk result (out.new ≡ out.old ++ annexb list.now) }
    ensures left { OnErr result ((more : List ℕ) × (out.new ≡ out.old ++ more)) }
{
    let units = list.as_slice();
    for unit in units {
        put_started(unit.as_slice(), out)?;
    }
    Ok(())
}
