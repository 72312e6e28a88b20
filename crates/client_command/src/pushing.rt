//! `push`: a film for a server.
ghost use Rattle.std.specs.Prelude.{◌≡◌, ◌↔◌, ◌<◌, ◌^◌, [], length, ℕ, List, true, OnErr, OnOk, IfOk, None, Some, map};
ghost use Rattle.client_owed.specs.declared.types.Asked.{Asked};
ghost use Rattle.client_owed.specs.declared.types.Wish.TheVariants.{Push};
ghost use Rattle.client_owed.specs.Standing.{gave_more, with_given};
ghost use Rattle.client_owed.specs.declared.types.Given.TheVariants as given;
ghost use Rattle.flv_tags.specs.Written.{IsWritable};
ghost use Rattle.rtmp_client.specs.ClientState.{has_started, untouched_of};
ghost use Rattle.rtmp_client.specs.Keeping.{keeps_of, past_of};
ghost use Rattle.rtmp_client.specs.Owing.{Counts};
ghost use Rattle.client_command.specs.Giving.{Gives, HasGiven, IsOpen, IsReading, PushEnds, PushSteps, PushStops, StillOpen};
ghost use Rattle.client_command.specs.Pushes.{PushOutcome, PushSeen, push_seen};
ghost use Rattle.client_command.specs.Turned.{IsLive};
ghost use Rattle.client_command.specs.Words.{AreShort, asked_of};
ghost use Rattle.client_command.specs.declared.stop.Stop.TheVariants.{Client as ByClient};
ghost use Rattle.relay_outside.specs.Told.{LinkCounts, LinkTold};
ghost use Rattle.std.specs.declared.option.Option.{Option};

use crate::Ended;
use crate::ending::{tell_end, with_code};
use crate::film::{Film, new_film, next};
use crate::starting::start;
use crate::stop::{Step, Stop};
use crate::turning::turn_once;
use crate::words::{Target, target_of};
use av_unit::OutOfMemory;
use client_owed::{Wish, give_step};
use flv_tags::Tag;
use relay_outside::{Link, Rest, Source};
use rtmp_client::{Client, ClientTurn};
use std::alloc::Global;
use std::sync::Wait;

/// Gives a client that publishes a tag.
pub fn give_tag(client: &mut Client, tag: Tag) -> Result<(), OutOfMemory>
    requires may { IsOpen client.old }
    requires started { has_started client.old.parts.phase ≡ true }
    requires nothing { client.old.parts.outgoing.pending ≡ [] }
    requires fine { IsWritable tag }
    ensures range { tag.time < 2 ^ 32 }
    ensures past { OnOk result (past_of client.new.parts ≡ with_given (past_of client.old.parts) (record { at = length client.old.parts.y; given = given.Send tag })) }
    ensures keeps { OnOk result (keeps_of client.new.parts ≡ gave_more (keeps_of client.old.parts) (given.Send tag)) }
    ensures counts { OnOk result (Counts (given.Send tag) client.old.parts.outgoing client.new.parts.outgoing) }
    ensures others { untouched_of client.new ≡ untouched_of client.old }
    ensures err { OnErr result (client.new ≡ client.old) }
{
    client.give(tag)
}

// Gives the client the next tag of the film, or tells it that no more will come.
fn give_next<S: Source>(
    alloc: Global,
    client: &mut Client,
    film: &mut Film,
    input: &mut S,
) -> Result<Step, Stop>
    requires may { IsOpen client.old }
    requires started { has_started client.old.parts.phase ≡ true }
    requires nothing { client.old.parts.outgoing.pending ≡ [] }
    requires reading { IsReading film.old }
    ensures may { IfOk result (λ step. StillOpen step client.new film.new) }
    ensures goes { (k : Asked) (old : PushSeen) (told : Option LinkTold) (counts : LinkCounts)
        → Gives k client.old film.old old (push_seen (S.left input.old) (S.faults input.old) told counts)
        → PushSteps result k client.new film.new old (push_seen (S.left input.new) (S.faults input.new) told counts) }
{
    give_step();
    match next(alloc, film, input) {
        Err(stop) => Err(stop),
        Ok(Some(tag)) => match give_tag(client, tag) {
            Ok(()) => Ok(Step::Moved),
            Err(_) => Err(Stop::Memory),
        },
        Ok(None) => match client.finish(alloc) {
            Ok(()) => Ok(Step::Over),
            Err(_) => Err(Stop::Memory),
        },
    }
}

// Takes a turn of the client, which is given the next tag if nothing else is to be done.
fn step<S: Source, L: Link>(
    alloc: Global,
    client: &mut Client,
    film: &mut Film,
    input: &mut S,
    link: &mut L,
) -> Result<Step, Stop>
    requires may { IsOpen client.old }
    requires reading { IsReading film.old }
    ensures may { IfOk result (λ step. StillOpen step client.new film.new) }
    ensures goes { (k : Asked) (old : PushSeen)
        → Gives k client.old film.old old (push_seen (S.left input.old) (S.faults input.old) (L.told link.old) (L.counts link.old))
        → PushSteps result k client.new film.new old (push_seen (S.left input.new) (S.faults input.new) (L.told link.new) (L.counts link.new)) }
{
    match turn_once(alloc, client, link) {
        ClientTurn::Ended => Err(Stop::Client),
        ClientTurn::Moved => Ok(Step::Moved),
        ClientTurn::Idle => {
            if client.started() && client.pending() == 0 {
                return give_next(alloc, client, film, input);
            }
            Ok(Step::Idle)
        }
    }
}

// Turns of the client until it was given the whole film.
fn give_all<W: Wait, S: Source, L: Link, R: Rest>(
    rt: &W,
    alloc: Global,
    client: &mut Client,
    film: &mut Film,
    input: &mut S,
    link: &mut L,
    rest: &mut R,
) -> Result<(), Stop>
    requires may { IsOpen client.old }
    requires reading { IsReading film.old }
    ensures live { OnOk result (IsLive client.new) }
    ensures goes { (k : Asked) (old : PushSeen)
        → Gives k client.old film.old old (push_seen (S.left input.old) (S.faults input.old) (L.told link.old) (L.counts link.old))
        → PushEnds result k client.new old (push_seen (S.left input.new) (S.faults input.new) (L.told link.new) (L.counts link.new)) }
{
    for _ in rt.forever() {
        match step(alloc, client, film, input, link) {
            Ok(Step::Moved) => rest.moved(),
            Ok(Step::Idle) => rest.pause(),
            Ok(Step::Over) => return Ok(()),
            Err(stop) => return Err(stop),
        }
    }
    unreachable!()
}

// Turns of the client until it has ended.
fn turn_out<W: Wait, L: Link, R: Rest>(
    rt: &W,
    alloc: Global,
    client: &mut Client,
    link: &mut L,
    rest: &mut R,
)
    requires live { IsLive client.old }
    ensures { (k : Asked) (old : PushSeen) (left : Option (List ℕ)) (faults : ℕ)
        → HasGiven k client.old old (push_seen left faults (L.told link.old) (L.counts link.old))
        → PushStops ByClient k client.new old (push_seen left faults (L.told link.new) (L.counts link.new)) }
{
    for _ in rt.forever() {
        match turn_once(alloc, client, link) {
            ClientTurn::Moved => rest.moved(),
            ClientTurn::Idle => rest.pause(),
            ClientTurn::Ended => return,
        }
    }
    unreachable!()
}

// Turns of the client until it has ended, or can't be given more.
fn push_all<W: Wait, S: Source, L: Link, R: Rest>(
    rt: &W,
    alloc: Global,
    client: &mut Client,
    film: &mut Film,
    input: &mut S,
    link: &mut L,
    rest: &mut R,
) -> Stop
    requires may { IsOpen client.old }
    requires reading { IsReading film.old }
    ensures { (k : Asked) (old : PushSeen)
        → Gives k client.old film.old old (push_seen (S.left input.old) (S.faults input.old) (L.told link.old) (L.counts link.old))
        → PushStops result k client.new old (push_seen (S.left input.new) (S.faults input.new) (L.told link.new) (L.counts link.new)) }
{
    match give_all(rt, alloc, client, film, input, link, rest) {
        Err(stop) => stop,
        Ok(()) => {
            turn_out(rt, alloc, client, link, rest);
            Stop::Client
        }
    }
}

// Pushes a film to this stream.
fn push_stream<W: Wait, S: Source, L: Link, R: Rest>(
    rt: &W,
    alloc: Global,
    target: Target<'_>,
    input: &mut S,
    link: &mut L,
    rest: &mut R,
) -> Ended
    requires short { AreShort target.address.now target.app.now target.name.now }
    ensures { PushOutcome (record { wish = Push; address = target.entry.address.now; app = target.entry.app.now; name = target.entry.name.now })
        (push_seen (S.left input.old) (S.faults input.old) (L.told link.old) (L.counts link.old))
        (push_seen (S.left input.new) (S.faults input.new) (L.told link.new) (L.counts link.new)) result }
{
    match start(alloc, Wish::Push, target.address, target.app, target.name) {
        Err(_) => with_code(alloc, 6),
        Ok(mut client) => {
            let mut film = new_film(alloc);
            let stop = push_all(rt, alloc, &mut client, &mut film, input, link, rest);
            tell_end(alloc, client.end(), Err(stop))
        }
    }
}

/// Publishes a film of FLV (annex E of Adobe's FLV 10.1) at an RTMP server. Each tag is sent as it is read,
/// so the film's source gives the pace.
///
/// The words are `push ADDRESS APP NAME`. Each of the three has 1 to 255 bytes, and a key may stand in NAME
/// behind `?`. The address is told to the server; to connect to it is the caller's affair. It may wait, and
/// rests after each turn in which nothing moved. The film is asked for more only if nothing is to be sent and
/// the server has nothing more to say. So at the end at most one tag was read that wasn't given to the client,
/// and at most 16,384 bytes behind it. The answer's code tells how it ended:
///
/// | Code | Comes | The link took |
/// |---|---|---|
/// | 0 | the film was read to its end | all that the client owes: its tags, and that no more will come |
/// | 2 | exactly if the words are others; nothing is read | nothing |
/// | 3 | only if the source's faults rose | all that the client owes of the tags that were read |
/// | 4 | the film is refused at `place`: at that of [`flv_tags::FlvFail`], or at 2^36 if it has more bytes | the same |
/// | 6 | for want of memory | a first part of that |
/// | 10 | only if the link's ends rose | the same |
/// | 11 | only if the link's faults rose | the same |
/// | 12 | the bytes that came are no RTMP at the byte `place` | the same |
/// | 13 | the server refused, in the words that the answer tells | the same |
///
/// `place` is 0 but for codes 4 and 12. Of the bytes that the link gave at most 4,096 were not read, and none if the
/// server closed it.
pub fn push<W: Wait, S: Source, L: Link, R: Rest>(
    rt: &W,
    alloc: Global,
    words: &[Vec<u8>],
    input: &mut S,
    link: &mut L,
    rest: &mut R,
) -> Ended
    ensures words { (result.status.code ≡ 2) ↔ (asked_of Push (map (λ w. w.items) words.now) ≡ None) }
    ensures untouched { result.status.code ≡ 2 → (input.new ≡ input.old) × (link.new ≡ link.old) × (rest.new ≡ rest.old) }
    ensures outcome { (k : Asked) → asked_of Push (map (λ w. w.items) words.now) ≡ Some k → PushOutcome k
        (push_seen (S.left input.old) (S.faults input.old) (L.told link.old) (L.counts link.old))
        (push_seen (S.left input.new) (S.faults input.new) (L.told link.new) (L.counts link.new)) result }
{
    let Some(target) = target_of(Wish::Push, words) else {
        return with_code(alloc, 2);
    };
    push_stream(rt, alloc, target, input, link, rest)
}
