//! The client that plays, and its session.
ghost use Rattle.std.specs.Prelude.{◌≡◌, ℕ, List, IfErr, IfSome, OnOk, MatchResult};
ghost use Rattle.std.specs.declared.option.Option.{Option};
ghost use Rattle.flv_tags.specs.declared.tag.Tag.{Tag as ATag};
ghost use Rattle.client_command.specs.Telling.{IsFine};
ghost use Rattle.client_command.specs.Turned.{IsLive};
ghost use Rattle.loop_command.specs.Course.{PlayerServed, Pulled, TakesGift, without};
ghost use Rattle.loop_command.specs.Rounds.{Goes, IsOwn, IsRun, IsSound, IsWanting, PlaysBy, SinkCause, StepBy, WritesGift, WritesWithin};

use crate::line::{turn_client, turn_session};
use crate::rounds::Run;
use crate::stop::{Stop, within};
use crate::talk::talk_law;
use chunk_reader::messages_are_short;
use client_command::{is_last, write_gift};
use client_owed::Gift;
use refusal_law::{
    a_client_that_is_granted_is_ended_by_no_byte, a_session_begins_once,
    a_session_is_ended_by_no_byte,
};
use relay_outside::Sink;
use relay_session::decided_law;
use rtmp_client::Client;
use std::alloc::Global;

// A turn of the client that plays, which lives on.
fn pull_turn(alloc: Global, run: &mut Run) -> Result<(), Stop>
    requires sound { IsSound run.old }
    ensures sound { OnOk result (IsSound run.new) }
    ensures goes { (file : List ATag) (old now : Option (List ℕ)) → IsRun file run.old old now
        → StepBy result (Goes file run.new old now (Pulled run.old run.new)) ⊥ }
    ensures err { IfErr result IsOwn }
{
    a_client_that_is_granted_is_ended_by_no_byte();
    a_session_begins_once();
    match turn_client(alloc, &mut run.pull) {
        Ok(true) => Ok(()),
        Ok(false) => Err(Stop::Unfinished),
        Err(stop) => {
            talk_law(run);
            Err(stop)
        }
    }
}

// Takes the gift that waits, if there is one. It can be written.
fn take_gift(client: &mut Client) -> Option<Gift>
    requires live { IsLive client.old }
    ensures live { IsLive client.new }
    ensures fine { IfSome result IsFine }
    ensures gift { result ≡ client.old.parts.gift }
    ensures left { client.new ≡ without client.old }
{
    messages_are_short();
    client.take()
}

// Writes the gift that waits for the client that plays, if there is one, unless the stream was over for it.
fn write_next<K: Sink>(alloc: Global, run: &mut Run, out: &mut K) -> Result<(), Stop>
    requires sound { IsSound run.old }
    ensures sound { OnOk result (IsSound run.new) }
    ensures goes { (file : List ATag) (held : Option (List ℕ)) → IsRun file run.old held (K.holds out.old)
        → OnOk result (Goes file run.new held (K.holds out.new) (TakesGift run.old.over run.old.pull.client.parts.gift run.old run.new)) }
    ensures part { (file : List ATag) (held : Option (List ℕ)) → IsRun file run.old held (K.holds out.old)
        → IfErr result (λ stop. WritesGift run.old held (K.holds out.new)) }
    ensures stops { IfErr result IsWanting }
    ensures faults { MatchResult result (λ _. K.faults out.new ≡ K.faults out.old) (λ stop. SinkCause stop (K.faults out.old) (K.faults out.new)) }
{
    if run.over {
        return Ok(());
    }
    match take_gift(&mut run.pull.client) {
        None => Ok(()),
        Some(gift) => match write_gift(alloc, run.begun, &gift, out) {
            Err(stop) => Err(within(stop)),
            Ok(()) => {
                run.begun = true;
                run.over = is_last(&gift);
                run.told = run.told.saturating_add(1);
                Ok(())
            }
        },
    }
}

// A turn of the session of the client that plays, which lives on.
fn serve_player(alloc: Global, run: &mut Run) -> Result<(), Stop>
    requires sound { IsSound run.old }
    ensures sound { OnOk result (IsSound run.new) }
    ensures goes { (file : List ATag) (old now : Option (List ℕ)) → IsRun file run.old old now
        → StepBy result (Goes file run.new old now (PlayerServed run.old run.new)) ⊥ }
    ensures err { IfErr result IsOwn }
{
    a_session_is_ended_by_no_byte();
    decided_law();
    turn_session(alloc, &mut run.pull, &mut run.port)
}

/// A turn of the client that plays, its gift, and a turn of its session.
pub(crate) fn play<K: Sink>(alloc: Global, run: &mut Run, out: &mut K) -> Result<(), Stop>
    requires sound { IsSound run.old }
    ensures sound { OnOk result (IsSound run.new) }
    ensures goes { (file : List ATag) (held : Option (List ℕ)) → IsRun file run.old held (K.holds out.old)
        → PlaysBy result file run.old run.new held (K.holds out.new) }
    ensures part { (file : List ATag) (held : Option (List ℕ)) → IsRun file run.old held (K.holds out.old)
        → IfErr result (λ stop. WritesWithin run.old held (K.holds out.new)) }
    ensures faults { MatchResult result (λ _. K.faults out.new ≡ K.faults out.old) (λ stop. SinkCause stop (K.faults out.old) (K.faults out.new)) }
{
    pull_turn(alloc, run)?;
    write_next(alloc, run, out)?;
    serve_player(alloc, run)
}
