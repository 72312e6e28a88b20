ghost use Rattle.std.specs.Prelude.{◌≡◌, ◌++◌, OnOk};
ghost use Rattle.rtmp_handshake.specs.Echo.{part_of, kept_of};

use crate::slices::{after, first};
use av_unit::{Bytes, OutOfMemory};

/// Gives the bytes of a piece at these places of the client's bytes, of which `before` stand before the
/// piece.
fn part(piece: &[u8], before: usize, from: usize, to: usize) -> &[u8]
    ensures { result.now ≡ part_of before from to piece.now }
{
    let skipped = from.saturating_sub(before);
    let end = to.saturating_sub(before);
    first(after(piece, skipped), end.saturating_sub(skipped))
}

/// Keeps the bytes of a piece that belong to C1's time and random bytes.
pub(crate) fn keep(kept: &mut Bytes, before: usize, piece: &[u8]) -> Result<(), OutOfMemory>
    ensures { OnOk result (kept.new ≡ kept.old ++ kept_of before piece.now) }
{
    kept.append(part(piece, before, 1, 5))?;
    kept.append(part(piece, before, 9, 1_537))?;
    Ok(())
}
