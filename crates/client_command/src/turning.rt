//! Turns of a client.
ghost use Rattle.std.specs.Prelude.{◌≡◌, IfSome};
ghost use Rattle.std.specs.declared.option.Option.{Option};
ghost use Rattle.client_owed.specs.declared.types.Asked.{Asked};
ghost use Rattle.relay_outside.specs.Told.{LinkCounts, LinkTold};
ghost use Rattle.rtmp_client.specs.ClientState.{lasting_of, without_gift};
ghost use Rattle.client_command.specs.Telling.{IsFine};
ghost use Rattle.client_command.specs.Turned.{IsLive, Runs, StillLives, Turned};

use chunk_reader::messages_are_short;
use client_owed::Gift;
use relay_outside::Link;
use rtmp_client::{Client, ClientTurn};
use std::alloc::Global;

/// One turn of a client.
pub(crate) fn turn_once<L: Link>(alloc: Global, client: &mut Client, link: &mut L) -> ClientTurn
    requires live { IsLive client.old }
    ensures live { StillLives result client.new }
    ensures lasts { lasting_of client.new.parts ≡ lasting_of client.old.parts }
    ensures goes { (k : Asked) (start : Option LinkTold) (n : LinkCounts) → Runs k client.old start (L.told link.old) n (L.counts link.old)
        → Turned result k client.old client.new start (L.told link.new) n (L.counts link.new) }
{
    client.turn(alloc, link)
}

/// Takes the gift that waits, if there is one. It can be written.
pub fn taken(client: &mut Client) -> Option<Gift>
    requires live { IsLive client.old }
    ensures live { IsLive client.new }
    ensures fine { IfSome result IsFine }
    ensures gift { result ≡ client.old.parts.gift }
    ensures left { client.new.parts ≡ without_gift client.old.parts }
    ensures goes { (k : Asked) (start now : Option LinkTold) (n m : LinkCounts) → Runs k client.old start now n m → Runs k client.new start now n m }
{
    messages_are_short();
    client.take()
}
