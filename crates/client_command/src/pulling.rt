//! `pull`: a stream of a server, as FLV.
ghost use Rattle.std.specs.Prelude.{◌≡◌, ◌↔◌, OnOk, None, Some, map, false};
ghost use Rattle.std.specs.declared.option.Option.{Option};
ghost use Rattle.client_owed.specs.declared.types.Asked.{Asked};
ghost use Rattle.client_owed.specs.declared.types.Wish.TheVariants.{Pull};
ghost use Rattle.relay_outside.specs.Told.{LinkCounts, LinkTold};
ghost use Rattle.client_command.specs.Pulls.{PullOutcome, PullSeen, pull_seen};
ghost use Rattle.client_command.specs.Telling.{Plays, PullEnds, PullSteps, step_by};
ghost use Rattle.client_command.specs.Turned.{IsLive};
ghost use Rattle.client_command.specs.Words.{AreShort, asked_of};

use crate::Ended;
use crate::ending::{tell_end, with_code};
use crate::gifts::{is_last, write_gift};
use crate::starting::start;
use crate::stop::{Step, Stop};
use crate::turning::{taken, turn_once};
use crate::words::{Target, target_of};
use client_owed::Wish;
use relay_outside::{Link, News, Rest, Sink};
use rtmp_client::{Client, ClientTurn};
use std::alloc::Global;
use std::sync::Wait;

fn step_by(over: bool, moved: bool) -> Step
    ensures { result ≡ step_by over moved }
{
    match (over, moved) {
        (true, _) => Step::Over,
        (false, true) => Step::Moved,
        (false, false) => Step::Idle,
    }
}

// Writes the gift that waits, if there is one.
fn write_next<K: Sink>(
    alloc: Global,
    client: &mut Client,
    begun: &mut bool,
    moved: bool,
    out: &mut K,
) -> Result<Step, Stop>
    requires live { IsLive client.old }
    ensures live { IsLive client.new }
    ensures none { OnOk result (client.new.parts.gift ≡ None) }
    ensures goes { (k : Asked) (old : PullSeen) (told : Option LinkTold) (counts : LinkCounts)
        → Plays k client.old begun.old old (pull_seen told counts (K.holds out.old) (K.faults out.old))
        → PullSteps result k client.new begun.new old (pull_seen told counts (K.holds out.new) (K.faults out.new)) }
{
    match taken(client) {
        None => Ok(step_by(false, moved)),
        Some(gift) => {
            write_gift(alloc, *begun, &gift, out)?;
            *begun = true;
            Ok(step_by(is_last(&gift), moved))
        }
    }
}

// A turn of the client, and its gift.
fn step<L: Link, K: Sink>(
    alloc: Global,
    client: &mut Client,
    begun: &mut bool,
    link: &mut L,
    out: &mut K,
) -> Result<Step, Stop>
    requires live { IsLive client.old }
    requires none { client.old.parts.gift ≡ None }
    ensures live { OnOk result (IsLive client.new) }
    ensures none { OnOk result (client.new.parts.gift ≡ None) }
    ensures goes { (k : Asked) (old : PullSeen)
        → Plays k client.old begun.old old (pull_seen (L.told link.old) (L.counts link.old) (K.holds out.old) (K.faults out.old))
        → PullSteps result k client.new begun.new old (pull_seen (L.told link.new) (L.counts link.new) (K.holds out.new) (K.faults out.new)) }
{
    match turn_once(alloc, client, link) {
        ClientTurn::Ended => Err(Stop::Client),
        ClientTurn::Moved => write_next(alloc, client, begun, true, out),
        ClientTurn::Idle => write_next(alloc, client, begun, false, out),
    }
}

// Tells the link that its server plays the stream, if nothing of the stream has come: the server may be silent
// until a broadcast begins.
fn tell_waiting<L: Link>(client: &Client, begun: bool, link: &L) {
    if client.started() && !begun {
        link.tell(News::Plays, b"", b"");
    }
}

// Turns of the client until its stream is over.
fn pull_all<W: Wait, L: Link, R: Rest, K: Sink>(
    rt: &W,
    alloc: Global,
    client: &mut Client,
    link: &mut L,
    rest: &mut R,
    out: &mut K,
) -> Result<(), Stop>
    requires live { IsLive client.old }
    requires none { client.old.parts.gift ≡ None }
    ensures { (k : Asked) (old : PullSeen)
        → Plays k client.old false old (pull_seen (L.told link.old) (L.counts link.old) (K.holds out.old) (K.faults out.old))
        → PullEnds result k client.new old (pull_seen (L.told link.new) (L.counts link.new) (K.holds out.new) (K.faults out.new)) }
{
    let mut begun = false;
    for _ in rt.forever() {
        match step(alloc, client, &mut begun, link, out) {
            Ok(Step::Moved) => rest.moved(),
            Ok(Step::Idle) => {
                tell_waiting(client, begun, link);
                rest.pause();
            }
            Ok(Step::Over) => return Ok(()),
            Err(stop) => return Err(stop),
        }
    }
    unreachable!()
}

// Plays this stream.
fn pull_stream<W: Wait, L: Link, R: Rest, K: Sink>(
    rt: &W,
    alloc: Global,
    target: Target<'_>,
    link: &mut L,
    rest: &mut R,
    out: &mut K,
) -> Ended
    requires short { AreShort target.address.now target.app.now target.name.now }
    ensures { PullOutcome (record { wish = Pull; address = target.entry.address.now; app = target.entry.app.now; name = target.entry.name.now })
        (pull_seen (L.told link.old) (L.counts link.old) (K.holds out.old) (K.faults out.old))
        (pull_seen (L.told link.new) (L.counts link.new) (K.holds out.new) (K.faults out.new)) result }
{
    match start(alloc, Wish::Pull, target.address, target.app, target.name) {
        Err(_) => with_code(alloc, 6),
        Ok(mut client) => {
            let run = pull_all(rt, alloc, &mut client, link, rest, out);
            tell_end(alloc, client.end(), run)
        }
    }
}

/// Plays a stream of an RTMP server, and writes it as FLV (annex E of Adobe's FLV 10.1) up to its end, each
/// tag as it comes.
///
/// The words are `pull ADDRESS APP NAME`. Each of the three has 1 to 255 bytes, and a key may stand in NAME
/// behind `?`. The address is told to the server; to connect to it is the caller's affair. It may wait, and
/// rests after each turn in which nothing moved. The answer's code tells how it ended:
///
/// | Code | Comes | Written |
/// |---|---|---|
/// | 0 | the stream is over | the header and all tags of the stream since the server said that it plays |
/// | 2 | exactly if the words are others; nothing is sent | nothing |
/// | 5 | only if the sink's faults rose | a first part of the header and the tags that came |
/// | 6 | for want of memory | the same |
/// | 10 | only if the link's ends rose | the header and the tags that came; nothing if none of a stream was told |
/// | 11 | only if the link's faults rose | the same |
/// | 12 | the bytes that came are no RTMP at the byte `place` | the same |
/// | 13 | the server refused, in the words that the answer tells | the same |
///
/// `place` is 0 but for code 12. Of the bytes that the link gave at most 4,096 were not read, and none if the server
/// closed it.
pub fn pull<W: Wait, L: Link, R: Rest, K: Sink>(
    rt: &W,
    alloc: Global,
    words: &[Vec<u8>],
    link: &mut L,
    rest: &mut R,
    out: &mut K,
) -> Ended
    ensures words { (result.status.code ≡ 2) ↔ (asked_of Pull (map (λ w. w.items) words.now) ≡ None) }
    ensures untouched { result.status.code ≡ 2 → (link.new ≡ link.old) × (rest.new ≡ rest.old) × (out.new ≡ out.old) }
    ensures outcome { (k : Asked) → asked_of Pull (map (λ w. w.items) words.now) ≡ Some k → PullOutcome k
        (pull_seen (L.told link.old) (L.counts link.old) (K.holds out.old) (K.faults out.old))
        (pull_seen (L.told link.new) (L.counts link.new) (K.holds out.new) (K.faults out.new)) result }
{
    let Some(target) = target_of(Wish::Pull, words) else {
        return with_code(alloc, 2);
    };
    pull_stream(rt, alloc, target, link, rest, out)
}
