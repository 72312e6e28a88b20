//! The lines that `check` prints.
ghost use Rattle.std.specs.Prelude.{◌≡◌, ◌<◌, ◌+◌, ◌^◌, ◌++◌, length, IfOk, OnOk, option_to_list, string_bytes};
ghost use Rattle.file_commands.specs.Check.{video_line, audio_line, unit_line, count_line, lines_of};

use av_unit::{Bytes, OutOfMemory};
use std::alloc::Global;
use ts_reader::TsUnit;

fn video_line(alloc: Global, pts: u64, dts: u64, len: usize) -> Result<String, OutOfMemory>
    ensures { IfOk result (λ text. string_bytes text ≡ video_line pts dts len) }
{
    Ok(format!(in alloc; "video {pts} {dts} {len}\n")?)
}

fn audio_line(alloc: Global, pts: u64, len: usize) -> Result<String, OutOfMemory>
    ensures { IfOk result (λ text. string_bytes text ≡ audio_line pts len) }
{
    Ok(format!(in alloc; "audio {pts} {len}\n")?)
}

/// Appends the line of a unit.
pub(crate) fn put_line(alloc: Global, unit: &TsUnit, out: &mut Bytes) -> Result<(), OutOfMemory>
    ensures { OnOk result (out.new ≡ out.old ++ unit_line unit.now) }
{
    let len = unit.payload.len();
    let text = if unit.video {
        video_line(alloc, unit.pts, unit.dts, len)?
    } else {
        audio_line(alloc, unit.pts, len)?
    };
    out.append(text.as_str().as_bytes())
}

/// Appends the line of a number of units.
pub(crate) fn put_count(alloc: Global, count: u64, out: &mut Bytes) -> Result<(), OutOfMemory>
    ensures { OnOk result (out.new ≡ out.old ++ count_line count) }
{
    let text = format!(in alloc; "units {count}\n")?;
    out.append(text.as_str().as_bytes())
}

/// Appends the line of the last unit, if there is one, and the line with the number of all units, of which
/// `count` stand before.
pub(crate) fn put_last(
    alloc: Global,
    last: &Option<TsUnit>,
    count: u64,
    out: &mut Bytes,
) -> Result<(), OutOfMemory>
    requires { count < 2 ^ 63 }
    ensures { OnOk result (out.new ≡ out.old ++ (lines_of (option_to_list last.now) ++ count_line (count + length (option_to_list last.now)))) }
{
    match last {
        Some(unit) => {
            put_line(alloc, unit, out)?;
            put_count(alloc, count + 1, out)
        }
        None => put_count(alloc, count, out),
    }
}
