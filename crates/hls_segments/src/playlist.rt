//! The text of a playlist (RFC 8216).
ghost use Rattle.std.specs.Prelude.{◌≡◌, ◌++◌, IfOk, OnOk, option_to_list, string_bytes};
ghost use Rattle.hls_segments.specs.Playlist.{entry, entries, file_name, head, rounded, seconds, target, text_of};
ghost use Rattle.hls_segments.specs.Times.{all_spans};

use crate::times::Times;
use av_unit::{Bytes, OutOfMemory};
use std::alloc::Global;

/// Gives the name of a segment's file: `NAME-0.ts`, `NAME-1.ts` and so on; NAME is the given name.
pub fn file_name(alloc: Global, name: &[u8], number: u64) -> Result<Bytes, OutOfMemory>
    ensures { IfOk result (λ b. b ≡ file_name name.now number) }
{
    let rest = format!(in alloc; "-{number}.ts")?;
    let mut text = Bytes::new(alloc);
    text.append(name)?;
    text.append(rest.as_str().as_bytes())?;
    Ok(text)
}

// Gives a span in seconds with three digits after the point.
fn seconds(alloc: Global, span: u32) -> Result<String, OutOfMemory>
    ensures { IfOk result (λ text. string_bytes text ≡ seconds span) }
{
    let whole = span / 1_000;
    let tenths = span / 100 % 10;
    let hundredths = span / 10 % 10;
    let thousandths = span % 10;
    Ok(format!(in alloc; "{whole}.{tenths}{hundredths}{thousandths}")?)
}

// Appends a segment's lines.
fn put_entry(
    alloc: Global,
    name: &[u8],
    number: u64,
    span: u32,
    out: &mut Bytes,
) -> Result<(), OutOfMemory>
    ensures { OnOk result (out.new ≡ out.old ++ entry name.now number span) }
{
    let text = seconds(alloc, span)?;
    let file = file_name(alloc, name, number)?;
    out.append(b"#EXTINF:")?;
    out.append(text.as_str().as_bytes())?;
    out.append(b",\n")?;
    out.append(file.as_slice())?;
    out.append(b"\n")
}

// Appends the lines of the first segments.
fn put_entries(
    alloc: Global,
    name: &[u8],
    spans: &[u32],
    out: &mut Bytes,
) -> Result<(), OutOfMemory>
    ensures { OnOk result (out.new ≡ out.old ++ entries name.now 0 spans.now) }
{
    let mut number = 0u64;
    let mut left = spans;
    while let [span, rest @ ..] = left {
        put_entry(alloc, name, number, *span, out)?;
        number += 1;
        left = rest;
    }
    Ok(())
}

// Appends the lines of the last segment, which has the number `number`.
fn put_last(
    alloc: Global,
    name: &[u8],
    number: u64,
    span: Option<u32>,
    out: &mut Bytes,
) -> Result<(), OutOfMemory>
    ensures { OnOk result (out.new ≡ out.old ++ entries name.now number (option_to_list span)) }
{
    match span {
        Some(span) => put_entry(alloc, name, number, span, out),
        None => Ok(()),
    }
}

// Rounds a span to whole seconds.
fn rounded(span: u32) -> u64
    ensures { result ≡ rounded span }
{
    (span as u64 + 500) / 1_000
}

fn longest_last(last: Option<u32>) -> u64
    ensures { result ≡ target (option_to_list last) }
{
    match last {
        Some(span) => rounded(span).max(1),
        None => 1,
    }
}

// Gives the greatest of the spans in whole seconds, and of 1.
fn longest(spans: &[u32], last: Option<u32>) -> u64
    ensures { result ≡ target (spans.now ++ option_to_list last) }
{
    let mut most = longest_last(last);
    let mut left = spans;
    while let [span, rest @ ..] = left {
        most = most.max(rounded(*span));
        left = rest;
    }
    most
}

// Appends the lines before the first segment's.
fn put_head(alloc: Global, longest: u64, out: &mut Bytes) -> Result<(), OutOfMemory>
    ensures { OnOk result (out.new ≡ out.old ++ head longest) }
{
    let text = format!(in alloc;
        "#EXTM3U\n#EXT-X-VERSION:3\n#EXT-X-TARGETDURATION:{longest}\n#EXT-X-MEDIA-SEQUENCE:0\n"
    )?;
    out.append(text.as_str().as_bytes())
}

// Appends the playlist of segments with these spans.
fn put_list(
    alloc: Global,
    name: &[u8],
    closed: &[u32],
    last: Option<u32>,
    out: &mut Bytes,
) -> Result<(), OutOfMemory>
    ensures { OnOk result (out.new ≡ out.old ++ text_of name.now (closed.now ++ option_to_list last)) }
{
    put_head(alloc, longest(closed, last), out)?;
    put_entries(alloc, name, closed, out)?;
    put_last(alloc, name, closed.len() as u64, last, out)?;
    out.append(b"#EXT-X-ENDLIST\n")?;
    Ok(())
}

/// Gives the playlist of segments with these times.
pub(crate) fn text_of(alloc: Global, name: &[u8], times: &Times) -> Result<Bytes, OutOfMemory>
    ensures { IfOk result (λ b. b ≡ text_of name.now (all_spans times.now)) }
{
    let mut text = Bytes::new(alloc);
    put_list(alloc, name, times.closed(), times.last_span(), &mut text)?;
    Ok(text)
}
