//! The tags of a film.
ghost use Rattle.std.specs.Prelude.{◌≡◌, ◌≤◌, MatchResult};
ghost use Rattle.flv_tags.specs.Written.{IsWritable};
ghost use Rattle.client_command.specs.Giving.{IsReading};
ghost use Rattle.loop_command.specs.Rounds.{AddsTag, IsCounted, NextWithin, ReadStops, ReadsWhole};

use crate::stop::{MOST_BYTES, Stop, within};
use client_command::{Film, new_film, next};
use flv_tags::Tag;
use relay_outside::Source;
use std::alloc::Global;
use std::collections::VecDeque;

/// The bytes of a file without tags.
const HEAD_BYTES: u64 = 13;

/// Those of a tag without a body, with the four that count it back.
const TAG_BYTES: u64 = 15;

// The next tag.
fn next_within<S: Source>(
    alloc: Global,
    film: &mut Film,
    input: &mut S,
) -> Result<Option<Tag>, Stop>
    requires reading { IsReading film.old }
    ensures { NextWithin film.old film.new (S.left input.old) (S.left input.new) (S.faults input.old) (S.faults input.new) result }
{
    match next(alloc, film, input) {
        Ok(tag) => Ok(tag),
        Err(stop) => Err(within(stop)),
    }
}

/// A film that was read: its tags, and how many bytes it has.
#[derive(Drop)]
pub(crate) struct Reading {
    pub(crate) tags: VecDeque<Tag>,
    pub(crate) bytes: u64,
}

// Adds a tag, if the film has not too many bytes with it.
fn add_tag(reading: &mut Reading, tag: Tag) -> Result<(), Stop>
    requires counted { IsCounted reading.old }
    requires fits { IsWritable tag }
    ensures { AddsTag result tag reading.old reading.new }
{
    let bytes = reading.bytes + TAG_BYTES + tag.body.len() as u64;
    if bytes > MOST_BYTES {
        return Err(Stop::Refused { at: MOST_BYTES });
    }
    match reading.tags.push_back(tag) {
        Ok(()) => {}
        Err(_) => return Err(Stop::Memory),
    }
    reading.bytes = bytes;
    Ok(())
}

/// Returns the tags of a film of at most 2^28 bytes, and its number of bytes. More bytes are refused at the
/// first behind them, if nothing before it is.
pub(crate) fn read_film<S: Source>(alloc: Global, input: &mut S) -> Result<Reading, Stop>
    ensures { MatchResult result
        (λ r. ReadsWhole r (S.left input.old) (S.left input.new) (S.faults input.old) (S.faults input.new))
        (λ stop. ReadStops stop (S.left input.old) (S.left input.new) (S.faults input.old) (S.faults input.new)) }
{
    let mut film = new_film(alloc);
    let mut reading = Reading {
        tags: VecDeque::new(alloc),
        bytes: HEAD_BYTES,
    };
    for _ in 0..MOST_BYTES {
        match next_within(alloc, &mut film, input) {
            Err(stop) => return Err(stop),
            Ok(None) => return Ok(reading),
            Ok(Some(tag)) => match add_tag(&mut reading, tag) {
                Err(stop) => return Err(stop),
                Ok(()) => {}
            },
        }
    }
    Err(Stop::Memory)
}
