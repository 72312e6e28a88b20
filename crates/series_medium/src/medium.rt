//! A medium of many files.
ghost use Rattle.std.specs.Prelude.{◌≡◌, ◌≤◌, ◌+◌, ◌++◌, ℕ, List, [], length, slice_index, take, drop, IfOk, OnOk, OnErr};
ghost use Rattle.stream_model.specs.Held.{body_of};
ghost use Rattle.series_medium.specs.Frames.{size_bytes};
ghost use Rattle.series_medium.specs.Text.{data_text, end_text};
ghost use Rattle.series_medium.specs.Writers.{FileGrows, FrameGrows, TextGrows};

use crate::writer::FileWriter;
use av_unit::{Bytes, Item, OutOfMemory};
use media_recorder::Medium;
use past::Flow;
use std::alloc::Global;
use std::marker::Model;

/// The number of bytes of a frame before its data.
const HEAD: usize = 5;

/// Files as a medium: one for each broadcast, as frames. Each has a writer that begins anew.
///
/// Each Begin and each End ends the open file, if there is one, and the first unit of which something is written opens the next. So
/// a broadcast of which nothing is written makes no file. Once memory was refused the medium keeps nothing, and writes no more.
#[derive(Drop)]
pub struct SeriesMedium<W: FileWriter> {
    alloc: Global,
    writer: Option<W>,
    items: Flow<Item>,
}

impl<W: FileWriter> Model for SeriesMedium<W> {
    ghost use Rattle.std.specs.Prelude.{◌≡◌, IfSome};
    ghost use Rattle.series_medium.specs.Writers.{MediumState, kept_if, on_air_of};

    ghost Value = { MediumState };

    ghost view = { λ m. record { items = m.items; kept = kept_if W.kept m.writer } };

    ghost invariant = { λ m. IfSome m.writer (λ w. W.given w ≡ on_air_of m.items) };
}

// Shows that a body has at most as many bytes as any unit's.
fn known(item: &Item)
    ensures { body_of item.now ≤ 4194304 }
{
    match item {
        Item::Unit(shared) => {
            let _fits = shared.unit();
        }
        Item::Begin => {}
        Item::End => {}
    }
}

// Sets the length in the head of a frame that begins at a place.
#[tactic(auto, unfolding(crate::specs::Frames::size_bytes))]
fn set_size(alloc: Global, out: &mut Bytes, at: usize, size: u32)
    requires { at + 5 ≤ length out.old }
    ensures { out.new ≡ take (at + 1) out.old ++ (size_bytes size ++ drop (at + 5) out.old) }
{
    let mut list = std::mem::replace(out, Bytes::new(alloc)).into_vec();
    list[at + 1..at + HEAD].copy_from_slice(&size.to_be_bytes());
    *out = Bytes::from_vec(list);
}

// Makes a frame of what was appended behind its head, or none of nothing.
#[tactic(auto, using(crate::proofs::Writing::closed, crate::proofs::Writing::closed_none))]
fn close_frame(alloc: Global, out: &mut Bytes, at: usize)
    requires kind { slice_index out.old at ≡ 0 }
    requires there { at + 5 ≤ length out.old }
    requires fits { length out.old ≤ at + (5 + 4294967295) }
    ensures { out.new ≡ take at out.old ++ data_text (drop (at + 5) out.old) }
{
    let size = out.len() - at - HEAD;
    if size == 0 {
        out.truncate(at);
    } else {
        set_size(alloc, out, at, size as u32);
    }
}

// Appends the frame of what an item adds to the file.
fn write_frame<W: FileWriter>(
    alloc: Global,
    writer: W,
    item: &Item,
    out: &mut Bytes,
) -> Result<W, OutOfMemory>
    ensures ok { IfOk result (λ w. FrameGrows W.file (W.given writer) item.now (W.given w) out.old out.new (W.kept w)) }
    ensures err { OnErr result ((more : List ℕ) × (out.new ≡ out.old ++ more)) }
{
    known(item);
    let at = out.len();
    out.append(&[0; 5])?;
    let writer = writer.add(item, out)?;
    close_frame(alloc, out, at);
    Ok(writer)
}

// Ends the open file, if there is one. The writer of the next begins anew.
fn end_file<W: FileWriter>(alloc: Global, writer: W, out: &mut Bytes) -> Result<W, OutOfMemory>
    ensures out { OnOk result (out.new ≡ out.old ++ end_text (W.file (W.given writer))) }
    ensures given { IfOk result (λ w. W.given w ≡ []) }
    ensures kept { IfOk result (λ w. W.kept w ≡ 0) }
    ensures err { OnErr result (out.new ≡ out.old) }
{
    if writer.is_open() {
        out.append(&[1])?;
    }
    drop(writer);
    Ok(W::new(alloc))
}

// Appends what an item adds to the text.
fn write_item<W: FileWriter>(
    alloc: Global,
    writer: W,
    item: &Item,
    out: &mut Bytes,
) -> Result<W, OutOfMemory>
    ensures ok { IfOk result (λ w. TextGrows W.file (W.given writer) item.now (W.given w) out.old out.new (W.kept w)) }
    ensures err { OnErr result ((more : List ℕ) × (out.new ≡ out.old ++ more)) }
{
    match item {
        Item::Begin => {
            let next = end_file(alloc, writer, out)?;
            write_frame(alloc, next, item, out)
        }
        Item::Unit(_) => write_frame(alloc, writer, item, out),
        Item::End => {
            let last = write_frame(alloc, writer, item, out)?;
            end_file(alloc, last, out)
        }
    }
}

impl<W: FileWriter> Medium for SeriesMedium<W> {
    ghost use Rattle.series_medium.specs.Text.{series_text};
    ghost use Rattle.series_medium.specs.GoesOn.{series_goes_on};

    ghost text = { series_text W.file };

    ghost written = { λ m. m.items };

    ghost kept = { λ m. m.kept };

    fn begin(alloc: Global, out: &mut Bytes) -> Result<SeriesMedium<W>, OutOfMemory> {
        let _ = &out;
        Ok(SeriesMedium {
            alloc,
            writer: Some(W::new(alloc)),
            items: Flow::new(),
        })
    }

    fn write(&mut self, item: &Item, out: &mut Bytes) -> Result<(), OutOfMemory> {
        known(item);
        let before = out.len();
        let Some(writer) = self.writer.take() else {
            return Err(OutOfMemory);
        };
        match write_item(self.alloc, writer, item, out) {
            Ok(writer) => {
                self.writer = Some(writer);
                self.items.add(item);
                Ok(())
            }
            Err(fail) => {
                out.truncate(before);
                Err(fail)
            }
        }
    }

    fn held(&self) -> u64 {
        match &self.writer {
            Some(writer) => writer.held(),
            None => 0,
        }
    }

    ghost goes_on = { series_goes_on W.file };
}
