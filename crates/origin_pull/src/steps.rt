//! A turn of an edge that lives.
ghost use Rattle.stream_registry.specs.Names.{places};
ghost use Rattle.std.specs.Prelude.{◌≡◌};
ghost use Rattle.relay_session.specs.Onward.{GoesOn};
ghost use Rattle.relay_session.specs.Places.{AskedAlone};
ghost use Rattle.origin_pull.specs.Causes.{Did, MayBe};
ghost use Rattle.origin_pull.specs.EdgeState.{LivesOn, lasting_of};
ghost use Rattle.origin_pull.specs.Keeping.{IsAt, IsSound};
ghost use Rattle.origin_pull.specs.Turns.{ClientTurns, Turn, life};

use crate::EdgeTurn;
use crate::body::Body;
use crate::calls::{make, next_call};
use crate::pulling::pull;
use relay_outside::Link;
use std::alloc::Global;
use stream_registry::StreamPort;

/// Makes the kept call, else the first that is due, else takes one turn of the client.
pub(crate) fn turn_on<P: StreamPort, L: Link>(
    body: &mut Body<P>,
    port: &mut P,
    link: &mut L,
    alloc: Global,
) -> EdgeTurn
    requires at { IsAt (P.fits port.old) (places (P.rules port.old)) body.old.core body.old.seat }
    requires sound { IsSound body.old.core body.old.client }
    ensures at { IsAt (P.fits port.new) (places (P.rules port.new)) body.new.core body.new.seat }
    ensures sound { LivesOn body.new.core body.new.client result }
    ensures turn { Turn (AskedAlone P.fits P.rules P.root P.seen P.count P.wants P.busies P.adds P.kin P.branches) (ClientTurns L.hears L.says)
        (life body.old.core body.old.client port.old body.old.seat) link.old result (life body.new.core body.new.client port.new body.new.seat) link.new }
    ensures goes_on { GoesOn P.fits P.rules P.root P.seen P.busies port.old body.old.seat port.new body.new.seat }
    ensures lasts { lasting_of body.new.core body.new.client ≡ lasting_of body.old.core body.old.client }
    ensures did { Did result body.old.core body.old.client body.new.core body.new.client }
    ensures may_be { MayBe result (P.busies port.old) (P.busies port.new) (L.counts link.old) (L.counts link.new) }
{
    match next_call(&mut body.core) {
        Some(entry) => make(body, port, entry),
        None => pull(&mut body.core, &mut body.client, link, alloc),
    }
}
