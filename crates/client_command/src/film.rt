//! A film that is pushed.
ghost use Rattle.std.specs.Prelude.{◌≡◌, ◌≤◌, ◌<◌, ◌+◌, ◌^◌, [], ℕ, List, length, true, false, None, IfErr, IfOk};
ghost use Rattle.std.specs.declared.option.Option.{Option};
ghost use Rattle.client_command.specs.Film.{most_ahead};
ghost use Rattle.client_command.specs.Giving.{Asks, EndsAs, FeedStops, Fills, IsReadOn, IsReading, MayGo, ReadsNext, came_of};
ghost use Rattle.segment_command.specs.Films.{WasRead};

use crate::ahead::Ahead;
use crate::stop::Stop;
use flv_tags::{Tag, TagFed, TagReader};
use relay_outside::{Got, Source};
use std::alloc::Global;

/// How many bytes of a film are read at most.
const MOST_BYTES: u64 = 1 << 36;

/// How many bytes are asked of a source at a time, at most.
const PIECE: usize = 16_384;

/// A film that is read: its reader, the bytes that came and weren't read yet, and how many came.
#[derive(Drop)]
pub struct Film {
    pub reader: TagReader,
    pub ahead: Ahead,
    pub came: u64,
}

/// A film of which nothing came.
pub fn new_film(alloc: Global) -> Film
    ensures reading { IsReading result }
    ensures none { came_of result ≡ [] }
    ensures given { result.reader.given ≡ [] }
{
    Film {
        reader: TagReader::new(alloc),
        ahead: Ahead::new(alloc),
        came: 0,
    }
}

// Asks for as many bytes as the slice holds. Whether some came.
fn ask<S: Source>(
    alloc: Global,
    film: &mut Film,
    piece: &mut [u8],
    input: &mut S,
) -> Result<bool, Stop>
    requires reading { IsReading film.old }
    requires none { film.old.ahead ≡ [] }
    requires some { 0 < length piece.old }
    requires few { length piece.old ≤ most_ahead }
    requires room { film.old.came + length piece.old ≤ 2 ^ 36 }
    ensures asks { Asks result film.old film.new (S.left input.old) (S.left input.new) (S.faults input.old) (S.faults input.new) }
    ensures some { IfOk result (λ came. came ≡ true → 0 < length film.new.ahead) }
{
    match input.get(piece) {
        Got::Bytes(count) => {
            film.ahead.receive(alloc, &piece[..count])?;
            film.came += count as u64;
            Ok(true)
        }
        Got::End => Ok(false),
        Got::Failed => Err(Stop::Source),
    }
}

// Asks whether there are bytes past the most that are read.
fn ask_past<S: Source>(film: &Film, piece: &mut [u8], input: &mut S) -> Result<bool, Stop>
    requires full { film.now.came ≡ 2 ^ 36 }
    requires some { 0 < length piece.old }
    requires few { length piece.old ≤ most_ahead }
    ensures asks { Asks result film.now film.now (S.left input.old) (S.left input.new) (S.faults input.old) (S.faults input.new) }
    ensures none { IfOk result (λ came. came ≡ false) }
{
    match input.get(piece) {
        Got::Bytes(_) => Err(Stop::Refused { at: film.came }),
        Got::End => Ok(false),
        Got::Failed => Err(Stop::Source),
    }
}

// Asks for bytes, if none are left. Returns whether some came.
fn more<S: Source>(alloc: Global, film: &mut Film, input: &mut S) -> Result<bool, Stop>
    requires reading { IsReading film.old }
    requires none { film.old.ahead ≡ [] }
    ensures asks { Asks result film.old film.new (S.left input.old) (S.left input.new) (S.faults input.old) (S.faults input.new) }
    ensures some { IfOk result (λ came. came ≡ true → 0 < length film.new.ahead) }
{
    let mut piece = [0u8; PIECE];
    let room = MOST_BYTES - film.came;
    if room == 0 {
        return ask_past(film, &mut piece, input);
    }
    let size = room.min(PIECE as u64) as usize;
    ask(alloc, film, &mut piece[..size], input)
}

// Reads bytes that came, up to the end of a tag.
fn read(alloc: Global, film: &mut Film) -> Result<Option<Tag>, Stop>
    requires reading { IsReading film.old }
    ensures ok { IfOk result (λ tag. IsReadOn film.old film.new tag) }
    ensures fine { IfOk result (MayGo film.new) }
    ensures err { IfErr result (λ stop. FeedStops stop film.old) }
    ensures on { IfOk result (λ tag. tag ≡ None → length film.new.reader.fed ≡ length film.old.reader.fed + length film.old.ahead) }
{
    let TagFed { used, tag } = film.reader.feed(alloc, film.ahead.left())?;
    film.ahead.used(alloc, used);
    Ok(tag)
}

// Whether the film may end here.
fn end(film: &Film) -> Result<Option<Tag>, Stop>
    requires reading { IsReading film.now }
    ensures { EndsAs result film.now }
{
    film.reader.finish()?;
    Ok(None)
}

// Sees to it that there are bytes to read. Whether there are.
fn fill<S: Source>(alloc: Global, film: &mut Film, input: &mut S) -> Result<bool, Stop>
    requires reading { IsReading film.old }
    ensures reading { IfOk result (λ _. IsReading film.new) }
    ensures given { IfOk result (λ _. film.new.reader.given ≡ film.old.reader.given) }
    ensures fed { IfOk result (λ _. film.new.reader.fed ≡ film.old.reader.fed) }
    ensures faults { IfOk result (λ _. S.faults input.new ≡ S.faults input.old) }
    ensures goes { (start : Option (List ℕ)) → WasRead (came_of film.old) start (S.left input.old)
        → Fills result film.old film.new start (S.left input.new) (S.faults input.old) (S.faults input.new) }
    ensures some { IfOk result (λ some. some ≡ true → 0 < length film.new.ahead) }
{
    if film.ahead.is_empty() {
        return more(alloc, film, input);
    }
    Ok(true)
}

/// How many bytes of a film were read, up to the end of the last tag or beyond.
pub fn bytes_read(film: &Film) -> u64
    requires { IsReading film.now }
    ensures { result ≡ length film.now.reader.fed }
{
    film.came - film.ahead.left().len() as u64
}

/// Returns the next tag of a film, of which at most 2^36 bytes are read. None if it was read to its end.
pub fn next<S: Source>(alloc: Global, film: &mut Film, input: &mut S) -> Result<Option<Tag>, Stop>
    requires reading { IsReading film.old }
    ensures fine { IfOk result (MayGo film.new) }
    ensures goes { (start : Option (List ℕ)) → WasRead (came_of film.old) start (S.left input.old)
        → ReadsNext result film.old film.new start (S.left input.new) (S.faults input.old) (S.faults input.new) }
{
    loop {
        match fill(alloc, film, input) {
            Err(stop) => return Err(stop),
            Ok(false) => return end(film),
            Ok(true) => match read(alloc, film) {
                Err(stop) => return Err(stop),
                Ok(Some(tag)) => return Ok(Some(tag)),
                Ok(None) => {}
            },
        }
    }
}
