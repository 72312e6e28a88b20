//! The gifts of an edge's client, and the calls that are due for them.
ghost use Rattle.std.specs.Prelude.{◌≡◌, ◌≤◌, length, None, Some, IfOk, OnOk, OnErr};
ghost use Rattle.client_owed.specs.declared.types.Gift.TheVariants as gift;
ghost use Rattle.rtmp_client.specs.Bounds.{gift_bytes};
ghost use Rattle.rtmp_client.specs.ClientState.{StandsFor};
ghost use Rattle.origin_calls.specs.Calls.{calls_for, pushes};
ghost use Rattle.origin_pull.specs.Causes.{Did, MayWait};
ghost use Rattle.origin_pull.specs.EdgeState.{LivesOn, lasting_of};
ghost use Rattle.origin_pull.specs.Keeping.{HasRoom, IsSound, calls_due, waiting_bytes};
ghost use Rattle.origin_pull.specs.Turns.{ClientTurns, IsDue, Pulls, Takes, end_as};
ghost use Rattle.origin_pull.specs.declared.due.Due.TheVariants.{Nothing};

use crate::{Core, Due, EdgeEnd, EdgeTurn};
use av_unit::{OutOfMemory, Unit, UnitArc, unit_of};
use chunk_reader::{messages_are_short, one_reading};
use client_owed::Gift;
use flv_tags::Tag;
use relay_outside::Link;
use rtmp_client::{Client, ClientEnd, ClientTurn};
use std::alloc::Global;
use stream_model::Call;

// Returns the calls by which a broadcast is begun.
fn to_begin(live: bool) -> Due
    ensures calls { calls_due result ≡ calls_for live gift.Published }
{
    if live {
        Due::Two(Call::End, Call::Begin)
    } else {
        Due::One(Call::Begin)
    }
}

// Returns the calls by which a broadcast is ended.
fn to_end(live: bool) -> Due
    ensures calls { calls_due result ≡ calls_for live gift.Unpublished }
{
    if live {
        Due::One(Call::End)
    } else {
        Due::Nothing
    }
}

// Returns the calls by which a unit is published.
fn to_push(alloc: Global, live: bool, unit: Unit) -> Result<Due, OutOfMemory>
    ensures calls { IfOk result (λ due. calls_due due ≡ pushes live (Some unit)) }
{
    let push = Call::Push(UnitArc::new(alloc, unit)?);
    if live {
        Ok(Due::One(push))
    } else {
        Ok(Due::Two(Call::Begin, push))
    }
}

// Makes the calls for a tag due, if none were.
fn take_tag(core: &mut Core, alloc: Global, tag: Tag) -> Result<(), OutOfMemory>
    requires short { length tag.body ≤ 4194304 }
    requires nothing { core.old.due ≡ Nothing }
    ensures due { OnOk result (IsDue core.old (gift.Tag tag) core.new) }
    ensures err { OnErr result (core.new ≡ core.old) }
{
    let Tag { kind, time, body } = tag;
    match unit_of(kind, time, body, 0) {
        None => Ok(()),
        Some(unit) => {
            core.due = to_push(alloc, core.live, unit)?;
            core.live = true;
            Ok(())
        }
    }
}

// Makes the calls for a gift due, if none were.
fn take_gift(core: &mut Core, alloc: Global, gift: Gift) -> Result<(), OutOfMemory>
    requires short { gift_bytes (Some gift) ≤ 4194304 }
    requires nothing { core.old.due ≡ Nothing }
    ensures due { OnOk result (IsDue core.old gift core.new) }
    ensures err { OnErr result (core.new ≡ core.old) }
{
    match gift {
        Gift::Published => {
            core.due = to_begin(core.live);
            core.live = true;
            Ok(())
        }
        Gift::Unpublished => {
            core.due = to_end(core.live);
            core.live = false;
            Ok(())
        }
        Gift::Tag(tag) => take_tag(core, alloc, tag),
    }
}

// Takes the gift that waits, if there is one. The tag that is taken had been held by the client.
fn receive(core: &mut Core, client: &mut Client, alloc: Global, answer: EdgeTurn) -> EdgeTurn
    requires stands { StandsFor client.old }
    requires short { client.old.parts.reader.max ≤ 4194304 }
    requires nothing { (core.old.kept ≡ None) × (core.old.due ≡ Nothing) }
    ensures takes { Takes core.old client.old answer result core.new client.new }
    ensures room { HasRoom (waiting_bytes core.new) client.new }
{
    one_reading();
    messages_are_short();
    client.held();
    match client.take() {
        None => answer,
        Some(gift) => match take_gift(core, alloc, gift) {
            Ok(()) => answer,
            Err(_) => EdgeTurn::Ended(EdgeEnd::OutOfMemory),
        },
    }
}

// Returns why the edge ends if its client has.
fn end_of(end: &Option<ClientEnd>) -> EdgeEnd
    ensures { result ≡ end_as end.now }
{
    match end {
        None => EdgeEnd::Client,
        Some(ClientEnd::PeerClosed) => EdgeEnd::Client,
        Some(ClientEnd::LinkFault) => EdgeEnd::Client,
        Some(ClientEnd::BadVersion { .. }) => EdgeEnd::Client,
        Some(ClientEnd::BadChunk { .. }) => EdgeEnd::Client,
        Some(ClientEnd::BadControl { .. }) => EdgeEnd::Client,
        Some(ClientEnd::BadCommand { .. }) => EdgeEnd::Client,
        Some(ClientEnd::Refused { .. }) => EdgeEnd::Client,
        Some(ClientEnd::Done) => EdgeEnd::Client,
        Some(ClientEnd::OutOfMemory) => EdgeEnd::OutOfMemory,
    }
}

/// Takes one turn of the client, if no call waits or is due, and takes the gift that then waits.
pub(crate) fn pull<L: Link>(
    core: &mut Core,
    client: &mut Client,
    link: &mut L,
    alloc: Global,
) -> EdgeTurn
    requires sound { IsSound core.old client.old }
    requires nothing { (core.old.kept ≡ None) × (core.old.due ≡ Nothing) }
    ensures pulls { Pulls (ClientTurns L.hears L.says) core.old client.old link.old result core.new client.new link.new }
    ensures sound { LivesOn core.new client.new result }
    ensures lasts { lasting_of core.new client.new ≡ lasting_of core.old client.old }
    ensures calls { core.new.calls ≡ core.old.calls }
    ensures did { Did result core.old client.old core.new client.new }
    ensures may_wait { MayWait result (L.counts link.old) (L.counts link.new) }
{
    match client.turn(alloc, link) {
        ClientTurn::Moved => receive(core, client, alloc, EdgeTurn::Moved),
        ClientTurn::Idle => receive(core, client, alloc, EdgeTurn::Idle),
        ClientTurn::Ended => EdgeTurn::Ended(end_of(client.end())),
    }
}
