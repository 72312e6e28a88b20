//! A run: rounds of turns, of the client that plays, its session, the client that publishes, and its session.
ghost use Rattle.std.specs.Prelude.{◌≡◌, ℕ, List, [], ◌∷◌, false, IfErr, IfOk, OnOk, MatchResult};
ghost use Rattle.std.specs.declared.option.Option.{Option};
ghost use Rattle.flv_tags.specs.declared.tag.Tag.{Tag as ATag};
ghost use Rattle.client_owed.specs.declared.types.Wish.TheVariants.{Pull};
ghost use Rattle.loop_command.specs.Desk.{one_name, player};
ghost use Rattle.loop_command.specs.Newly.{IsNewLine, IsNewPort};
ghost use Rattle.loop_command.specs.Rounds.{AreWritable, IsNewRun, IsRun, IsSound, RoundBy, SinkCause, WritesWithin};
ghost use Rattle.loop_command.specs.declared.rounds.Stage.TheVariants.{Giving};
ghost use Rattle.loop_command.specs.declared.stop.Stop.TheVariants.{Memory};

use crate::desk::{APP, LIMITS, NAME};
use crate::line::{Line, new_line};
use crate::playing::play;
use crate::publishing::publish;
use crate::stop::Stop;
use av_unit::{Bytes, OutOfMemory};
use client_owed::Wish;
use flv_tags::Tag;
use relay_outside::Sink;
use std::alloc::Global;
use std::collections::VecDeque;
use stream_core::{ShortName, StreamLimits};
use stream_registry::{Name, NameList, OpenList, Sole};

/// How far the client that publishes has come.
#[derive(Clone, Copy)]
pub enum Stage {
    /// It is given the tags of the film.
    Giving,
    /// It was told that no more will come.
    Finishing,
    /// It has sent all that it owed.
    Done,
}

/// A run: the stream, both lines, the tags that are still to be given, and the tags that have come back.
#[derive(Drop)]
pub struct Run {
    pub port: Sole,
    pub pull: Line,
    pub push: Line,
    pub tags: VecDeque<Tag>,
    pub stage: Stage,
    /// Something was written.
    pub begun: bool,
    /// The stream is over for the client that plays.
    pub over: bool,
    /// How much it was told.
    pub told: u64,
}

/// The session of the client that publishes.
const PUBLISHER: u64 = 1;

/// That of the client that plays.
const PLAYER: u64 = 2;

fn copied(alloc: Global, text: &[u8]) -> Result<Bytes, OutOfMemory>
    ensures { IfOk result (λ b. b ≡ text.now) }
{
    let mut bytes = Bytes::new(alloc);
    bytes.append(text)?;
    Ok(bytes)
}

// The name of the one stream.
fn one_name(alloc: Global) -> Result<Name, OutOfMemory>
    ensures { IfOk result (λ n. n ≡ one_name) }
{
    let app = copied(alloc, APP)?;
    let name = copied(alloc, NAME)?;
    Ok(Name {
        app,
        name: ShortName::new(name),
    })
}

fn one_list(alloc: Global) -> Result<NameList, OutOfMemory>
    ensures { IfOk result (λ names. names ≡ one_name ∷ []) }
{
    let name = one_name(alloc)?;
    let mut names = NameList::new(alloc);
    names.push(name)?;
    Ok(names)
}

// The port to the one stream.
fn new_port(alloc: Global) -> Result<Sole, OutOfMemory>
    ensures { IfOk result IsNewPort }
{
    let names = one_list(alloc)?;
    let limits = StreamLimits {
        bytes: LIMITS.ring_bytes,
        items: LIMITS.ring_items,
        players: LIMITS.players,
    };
    Sole::new(alloc, names, OpenList::new(alloc), limits)
}

// A run of this port and these lines.
fn run_of(port: Sole, pull: Line, push: Line, tags: VecDeque<Tag>) -> Run
    ensures { result ≡ record { port = port; pull = pull; push = push; tags = tags; stage = Giving; begun = false; over = false; told = 0 } }
{
    Run {
        port,
        pull,
        push,
        tags,
        stage: Stage::Giving,
        begun: false,
        over: false,
        told: 0,
    }
}

// The same with a new client that publishes.
fn with_publisher(alloc: Global, port: Sole, pull: Line, tags: VecDeque<Tag>) -> Result<Run, Stop>
    requires port { IsNewPort port }
    requires pull { IsNewLine Pull player pull }
    requires tags { AreWritable tags.items }
    ensures new { IfOk result (IsNewRun tags.items) }
    ensures err { IfErr result (λ stop. stop ≡ Memory) }
{
    match new_line(alloc, Wish::Push, PUBLISHER) {
        Ok(push) => Ok(run_of(port, pull, push, tags)),
        Err(stop) => {
            drop(port);
            drop(pull);
            drop(tags);
            Err(stop)
        }
    }
}

/// A run of which nothing was done.
pub(crate) fn new_run(alloc: Global, tags: VecDeque<Tag>) -> Result<Run, Stop>
    requires { AreWritable tags.items }
    ensures new { IfOk result (IsNewRun tags.items) }
    ensures err { IfErr result (λ stop. stop ≡ Memory) }
{
    let port = new_port(alloc)?;
    match new_line(alloc, Wish::Pull, PLAYER) {
        Ok(pull) => with_publisher(alloc, port, pull, tags),
        Err(stop) => {
            drop(port);
            drop(tags);
            Err(stop)
        }
    }
}

/// Runs a round: a turn of each, and the gifts of the client that plays are written.
pub(crate) fn round<K: Sink>(alloc: Global, run: &mut Run, out: &mut K) -> Result<(), Stop>
    requires sound { IsSound run.old }
    ensures sound { OnOk result (IsSound run.new) }
    ensures goes { (file : List ATag) (held : Option (List ℕ)) → IsRun file run.old held (K.holds out.old)
        → RoundBy result file run.old run.new held (K.holds out.new) }
    ensures part { (file : List ATag) (held : Option (List ℕ)) → IsRun file run.old held (K.holds out.old)
        → IfErr result (λ stop. WritesWithin run.old held (K.holds out.new)) }
    ensures faults { MatchResult result (λ _. K.faults out.new ≡ K.faults out.old) (λ stop. SinkCause stop (K.faults out.old) (K.faults out.new)) }
{
    play(alloc, run, out)?;
    publish(alloc, run)
}
