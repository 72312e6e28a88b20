ghost use Rattle.std.specs.Prelude.{◌≡◌, ◌++◌, ◌≤◌, ◌<◌, drop, length, IfOk, OnOk, string_bytes};
ghost use Rattle.relay_replay.specs.Scenes.{AreNamed, IsLimited, IsPortOf};
ghost use Rattle.relay_replay.specs.Sums.{IsSummary, is_sent, items_to, player_line, players_text, pushed_line, pushes, skips_to};
ghost use Rattle.stream_model.specs.Counts.{is_pushed, is_skip};

use crate::cast::Cast;
use crate::guest::Guest;
use crate::report::all_held;
use av_unit::{Bytes, OutOfMemory};
use relay_base::Limits;
use relay_config::{OpenRule, PlaceRule};
use std::alloc::Global;
use stream_model::{Entry, Reply};

fn is_pushed(reply: &Reply) -> bool
    ensures { result ≡ is_pushed reply.now }
{
    match reply {
        Reply::Pushed { .. } => true,
        _ => false,
    }
}

fn is_sent(reply: &Reply) -> bool
    ensures { result ≡ is_sent reply.now }
{
    match reply {
        Reply::Sent { .. } => true,
        _ => false,
    }
}

fn is_skip(reply: &Reply) -> bool
    ensures { result ≡ is_skip reply.now }
{
    match reply {
        Reply::Skip { .. } => true,
        _ => false,
    }
}

// How many of these calls were answered Pushed.
fn pushes(calls: &[(Entry, Reply)]) -> usize
    ensures { result ≡ pushes calls.now }
{
    calls.iter().filter(|call| is_pushed(&call.1)).count()
}

// How many of that caller's were sent an item.
fn items_to(who: u64, calls: &[(Entry, Reply)]) -> usize
    ensures { result ≡ items_to who calls.now }
{
    calls
        .iter()
        .filter(|call| call.0.who == who && is_sent(&call.1))
        .count()
}

// The number of that caller's calls that went on past the items that the window had passed.
fn skips_to(who: u64, calls: &[(Entry, Reply)]) -> usize
    ensures { result ≡ skips_to who calls.now }
{
    calls
        .iter()
        .filter(|call| call.0.who == who && is_skip(&call.1))
        .count()
}

fn pushed_text(alloc: Global, calls: &[(Entry, Reply)]) -> Result<String, OutOfMemory>
    ensures { IfOk result (λ text. string_bytes text ≡ pushed_line calls.now) }
{
    let pushed = pushes(calls);
    Ok(format!(in alloc; "pushed {pushed}\n")?)
}

fn player_text(
    alloc: Global,
    n: u64,
    calls: &[(Entry, Reply)],
    sent: &[u8],
) -> Result<String, OutOfMemory>
    ensures { IfOk result (λ text. string_bytes text ≡ player_line n calls.now sent.now) }
{
    let items = items_to(n, calls);
    let skips = skips_to(n, calls);
    let bytes = sent.len();
    Ok(format!(in alloc; "player {n} items {items} skips {skips} bytes {bytes}\n")?)
}

// All but the first.
fn after_first(sessions: &[Guest]) -> &[Guest]
    ensures { result.now ≡ drop 1 sessions.now }
{
    match sessions {
        [] => sessions,
        [_, rest @ ..] => rest,
    }
}

// Adds the lines of these sessions, from number 1 on.
fn all_players(
    alloc: Global,
    calls: &[(Entry, Reply)],
    sessions: &[Guest],
    out: &mut Bytes,
) -> Result<(), OutOfMemory>
    ensures { OnOk result (out.new ≡ out.old ++ players_text 1 calls.now sessions.now) }
{
    let mut n: u64 = 1;
    let mut left = sessions;
    while let [session, rest @ ..] = left {
        let text = player_text(alloc, n, calls, session.sent())?;
        out.append(text.as_str().as_bytes())?;
        n += 1;
        left = rest;
    }
    Ok(())
}

// The outcome of a run at these streams and open tables.
pub(crate) fn summary(
    alloc: Global,
    limits: &Limits,
    streams: &[PlaceRule],
    opens: &[OpenRule],
    cast: &Cast,
) -> Result<Bytes, OutOfMemory>
    requires ring { limits.now.ring_bytes ≤ 268435456 }
    requires message { limits.now.max_message ≤ 4194304 }
    requires named { AreNamed streams.now opens.now }
    requires port { IsPortOf streams.now opens.now cast.now.port }
    requires some { 0 < length streams.now }
    requires sessions { length cast.now.sessions ≤ 64 }
    requires limited { IsLimited limits.now cast.now }
    ensures { IfOk result (λ text. IsSummary limits.now streams.now opens.now cast.now text) }
{
    let calls = cast.port().journal(0);
    let mut out = Bytes::new(alloc);
    let pushed = pushed_text(alloc, calls)?;
    out.append(pushed.as_str().as_bytes())?;
    all_players(alloc, calls, after_first(cast.sessions()), &mut out)?;
    all_held(alloc, limits, streams, opens, cast, &mut out)?;
    Ok(out)
}
