//! The text of a sliding playlist (RFC 8216).
ghost use Rattle.std.specs.Prelude.{◌≡◌, ◌++◌, ◌+◌, ◌<◌, ◌^◌, length, IfOk, OnOk, option_to_list, string_bytes};
ghost use Rattle.hls_segments.specs.Playlist.{entry, seconds};
ghost use Rattle.live_segments.specs.Listing.{head, last_line, lines, mark_line, text_of};

use crate::cutter::Row;
use av_unit::{Bytes, OutOfMemory};
use hls_segments::file_name;
use std::alloc::Global;

// A span in seconds with three digits behind the point.
fn seconds(alloc: Global, span: u32) -> Result<String, OutOfMemory>
    ensures { IfOk result (λ text. string_bytes text ≡ seconds span) }
{
    let whole = span / 1_000;
    let tenths = span / 100 % 10;
    let hundredths = span / 10 % 10;
    let thousandths = span % 10;
    Ok(format!(in alloc; "{whole}.{tenths}{hundredths}{thousandths}")?)
}

// Appends a segment's lines.
fn put_entry(
    alloc: Global,
    name: &[u8],
    number: u64,
    span: u32,
    out: &mut Bytes,
) -> Result<(), OutOfMemory>
    ensures { OnOk result (out.new ≡ out.old ++ entry name.now number span) }
{
    let text = seconds(alloc, span)?;
    let file = file_name(alloc, name, number)?;
    out.append(b"#EXTINF:")?;
    out.append(text.as_str().as_bytes())?;
    out.append(b",\n")?;
    out.append(file.as_slice())?;
    out.append(b"\n")
}

fn put_mark(marked: bool, out: &mut Bytes) -> Result<(), OutOfMemory>
    ensures { OnOk result (out.new ≡ out.old ++ mark_line marked) }
{
    if marked {
        out.append(b"#EXT-X-DISCONTINUITY\n")?;
    }
    Ok(())
}

// Appends a row's lines.
fn put_row(
    alloc: Global,
    name: &[u8],
    number: u64,
    row: Row,
    out: &mut Bytes,
) -> Result<(), OutOfMemory>
    ensures { OnOk result (out.new ≡ out.old ++ (mark_line row.marked ++ entry name.now number row.span)) }
{
    put_mark(row.marked, out)?;
    put_entry(alloc, name, number, row.span, out)
}

// Appends the lines of rows.
fn put_rows(
    alloc: Global,
    name: &[u8],
    first: u64,
    rows: &[Row],
    out: &mut Bytes,
) -> Result<(), OutOfMemory>
    requires { first + length rows.now < 2 ^ 64 }
    ensures { OnOk result (out.new ≡ out.old ++ lines name.now first rows.now) }
{
    let mut number = first;
    let mut left = rows;
    while let [row, rest @ ..] = left {
        put_row(alloc, name, number, *row, out)?;
        number += 1;
        left = rest;
    }
    Ok(())
}

// Appends the lines of the open segment, if it is listed.
fn put_open(
    alloc: Global,
    name: &[u8],
    number: u64,
    last: Option<Row>,
    out: &mut Bytes,
) -> Result<(), OutOfMemory>
    ensures { OnOk result (out.new ≡ out.old ++ lines name.now number (option_to_list last)) }
{
    match last {
        Some(row) => put_row(alloc, name, number, row, out),
        None => Ok(()),
    }
}

// Appends the lines before the first segment's.
fn put_head(
    alloc: Global,
    most: u64,
    first: u64,
    gone: u64,
    out: &mut Bytes,
) -> Result<(), OutOfMemory>
    ensures { OnOk result (out.new ≡ out.old ++ head most first gone) }
{
    let text = format!(in alloc;
        "#EXTM3U\n#EXT-X-VERSION:3\n#EXT-X-TARGETDURATION:{most}\n#EXT-X-MEDIA-SEQUENCE:{first}\n#EXT-X-DISCONTINUITY-SEQUENCE:{gone}\n"
    )?;
    out.append(text.as_str().as_bytes())
}

fn put_end(ended: bool, out: &mut Bytes) -> Result<(), OutOfMemory>
    ensures { OnOk result (out.new ≡ out.old ++ last_line ended) }
{
    if ended {
        out.append(b"#EXT-X-ENDLIST\n")?;
    }
    Ok(())
}

/// Appends a playlist: of rows, by the number of rows before them, and of marked rows before them, and of the open segment if it is listed.
pub(crate) fn put_list(
    alloc: Global,
    name: &[u8],
    most: u64,
    first: u64,
    gone: u64,
    rows: &[Row],
    last: Option<Row>,
    ended: bool,
    out: &mut Bytes,
) -> Result<(), OutOfMemory>
    requires { first + length rows.now < 2 ^ 64 }
    ensures { OnOk result (out.new ≡ out.old ++ text_of name.now most first gone (rows.now ++ option_to_list last) ended) }
{
    put_head(alloc, most, first, gone, out)?;
    put_rows(alloc, name, first, rows, out)?;
    put_open(alloc, name, first + rows.len() as u64, last, out)?;
    put_end(ended, out)?;
    Ok(())
}
