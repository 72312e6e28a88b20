//! The client that publishes, and its session.
ghost use Rattle.std.specs.Prelude.{◌≡◌, ℕ, List, true, false, IfErr, OnOk};
ghost use Rattle.std.specs.declared.option.Option.{Option};
ghost use Rattle.flv_tags.specs.declared.tag.Tag.{Tag as ATag};
ghost use Rattle.rtmp_client.specs.ClientState.{has_started};
ghost use Rattle.loop_command.specs.Course.{
  GivesNext,
  GivesWhere,
  PublisherServed,
  Pushed,
  PushesOnce,
  PushesWhere,
  can_give,
  is_done,
};
ghost use Rattle.loop_command.specs.Rounds.{Goes, IsOwn, IsRun, IsSound, PublishesBy, StepBy};
ghost use Rattle.loop_command.specs.declared.rounds.Stage.TheVariants.{Giving};
ghost use Rattle.loop_command.specs.declared.stop.Stop.TheVariants.{Memory};

use crate::line::{turn_client, turn_session};
use crate::rounds::{Run, Stage};
use crate::stop::Stop;
use crate::talk::talk_law;
use client_command::give_tag;
use client_owed::give_step;
use refusal_law::{
    a_client_that_is_granted_is_ended_by_no_byte, a_session_begins_once,
    a_session_is_ended_by_no_byte,
};
use relay_session::decided_law;
use rtmp_client::Client;
use std::alloc::Global;

// Whether a client can be given anything.
fn can_give(client: &Client) -> bool
    ensures { result ≡ can_give client.now }
{
    client.started() && client.pending() == 0
}

// Gives the client that publishes the next tag, or tells it that no more will come.
fn give_one(alloc: Global, run: &mut Run) -> Result<(), Stop>
    requires sound { IsSound run.old }
    requires giving { run.old.stage ≡ Giving }
    requires can { can_give run.old.push.client ≡ true }
    ensures sound { OnOk result (IsSound run.new) }
    ensures goes { (file : List ATag) (old now : Option (List ℕ)) → IsRun file run.old old now
        → OnOk result (Goes file run.new old now (GivesNext run.old.tags.items run.old run.new)) }
    ensures err { IfErr result (λ stop. stop ≡ Memory) }
{
    give_step();
    match run.tags.pop_front() {
        Some(tag) => {
            give_tag(&mut run.push.client, tag)?;
            Ok(())
        }
        None => {
            run.push.client.finish(alloc)?;
            run.stage = Stage::Finishing;
            Ok(())
        }
    }
}

// The same if it can be given anything, and has more to be given.
fn give_next(alloc: Global, run: &mut Run) -> Result<(), Stop>
    requires sound { IsSound run.old }
    ensures sound { OnOk result (IsSound run.new) }
    ensures goes { (file : List ATag) (old now : Option (List ℕ)) → IsRun file run.old old now
        → OnOk result (Goes file run.new old now (GivesWhere run.old.stage (can_give run.old.push.client) run.old run.new)) }
    ensures err { IfErr result (λ stop. stop ≡ Memory) }
{
    match run.stage {
        Stage::Giving => {
            if can_give(&run.push.client) {
                return give_one(alloc, run);
            }
            Ok(())
        }
        Stage::Finishing => Ok(()),
        Stage::Done => Ok(()),
    }
}

// A turn of the client that publishes.
fn push_once(alloc: Global, run: &mut Run) -> Result<(), Stop>
    requires sound { IsSound run.old }
    requires lives { is_done run.old.stage ≡ false }
    ensures sound { OnOk result (IsSound run.new) }
    ensures goes { (file : List ATag) (old now : Option (List ℕ)) → IsRun file run.old old now
        → StepBy result (Goes file run.new old now (Pushed run.old run.new)) ⊥ }
    ensures err { IfErr result IsOwn }
{
    a_client_that_is_granted_is_ended_by_no_byte();
    a_session_begins_once();
    match turn_client(alloc, &mut run.push) {
        Ok(true) => Ok(()),
        Ok(false) => {
            run.stage = Stage::Done;
            Ok(())
        }
        Err(stop) => {
            talk_law(run);
            Err(stop)
        }
    }
}

// The same, unless it has sent all.
fn push_turn(alloc: Global, run: &mut Run) -> Result<(), Stop>
    requires sound { IsSound run.old }
    ensures sound { OnOk result (IsSound run.new) }
    ensures goes { (file : List ATag) (old now : Option (List ℕ)) → IsRun file run.old old now
        → StepBy result (Goes file run.new old now (PushesWhere run.old.stage run.old run.new)) ⊥ }
    ensures err { IfErr result IsOwn }
{
    match run.stage {
        Stage::Done => Ok(()),
        Stage::Finishing => push_once(alloc, run),
        Stage::Giving => push_once(alloc, run),
    }
}

// It is given something and takes a turn, once the client that plays has started.
fn push_part(alloc: Global, run: &mut Run) -> Result<(), Stop>
    requires sound { IsSound run.old }
    ensures sound { OnOk result (IsSound run.new) }
    ensures goes { (file : List ATag) (old now : Option (List ℕ)) → IsRun file run.old old now
        → StepBy result (Goes file run.new old now (PushesOnce (has_started run.old.pull.client.parts.phase) run.old run.new)) ⊥ }
    ensures err { IfErr result IsOwn }
{
    if run.pull.client.started() {
        give_next(alloc, run)?;
        return push_turn(alloc, run);
    }
    Ok(())
}

// A turn of the session of the client that publishes, which lives on.
fn serve_publisher(alloc: Global, run: &mut Run) -> Result<(), Stop>
    requires sound { IsSound run.old }
    ensures sound { OnOk result (IsSound run.new) }
    ensures goes { (file : List ATag) (old now : Option (List ℕ)) → IsRun file run.old old now
        → StepBy result (Goes file run.new old now (PublisherServed run.old run.new)) ⊥ }
    ensures err { IfErr result IsOwn }
{
    a_session_is_ended_by_no_byte();
    decided_law();
    turn_session(alloc, &mut run.push, &mut run.port)
}

/// A turn of the client that publishes, once the other has started, and a turn of its session.
pub(crate) fn publish(alloc: Global, run: &mut Run) -> Result<(), Stop>
    requires sound { IsSound run.old }
    ensures sound { OnOk result (IsSound run.new) }
    ensures goes { (file : List ATag) (old now : Option (List ℕ)) → IsRun file run.old old now → PublishesBy result file run.old run.new old now }
    ensures err { IfErr result IsOwn }
{
    push_part(alloc, run)?;
    serve_publisher(alloc, run)
}
