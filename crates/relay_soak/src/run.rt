//! The run.
ghost use Rattle.std.specs.Prelude.{◌≡◌, ◌≤◌, ◌<◌, ◌+◌, true, length, IfOk, OnOk, string_bytes, codes, ◌++◌};
ghost use Rattle.std.specs.Fmt.{decimal};
ghost use Rattle.relay_replay.specs.Scenes.{Does, IsSound, SettledIn, start};
ghost use Rattle.relay_soak.specs.Runs.{Printed, Runs, given, joining, most_turns, opening, plays, turn_if, unit_acts, units};
ghost use Rattle.relay_soak.specs.Units.{before};

use crate::clients::{first_input, play, publish};
use crate::units::piece;
use av_unit::{Bytes, OutOfMemory};
use chunk_writer::Writer;
use key_guard::Guards;
use relay_replay::Scene;
use relay_script::ReplayLine;
use std::alloc::Global;

// A session that isn't idle after this number of turns counts as a session for which there is no memory.
const MOST_TURNS: u32 = 1_000_000;

// Does the action of a line.
fn act(scene: &mut Scene, guards: &Guards, line: ReplayLine) -> Result<(), OutOfMemory>
    requires { IsSound scene.old }
    ensures does { OnOk result (Does line scene.old scene.new) }
    ensures sound { OnOk result (IsSound scene.new) }
{
    match scene.act(guards, line) {
        Ok(()) => Ok(()),
        Err(_) => Err(OutOfMemory),
    }
}

// Turns of a session until it is idle.
fn settle(scene: &mut Scene, guards: &Guards, session: u32) -> Result<(), OutOfMemory>
    requires { IsSound scene.old }
    ensures settles { OnOk result (SettledIn true most_turns session scene.old scene.new) }
    ensures sound { OnOk result (IsSound scene.new) }
{
    match scene.settle(guards, session, MOST_TURNS) {
        Ok(true) => Ok(()),
        Ok(false) => Err(OutOfMemory),
        Err(_) => Err(OutOfMemory),
    }
}

// Gives a session input, and lets it come to rest.
fn give(scene: &mut Scene, guards: &Guards, session: u32, bytes: Bytes) -> Result<(), OutOfMemory>
    requires { IsSound scene.old }
    ensures runs { OnOk result (Runs (given session bytes) scene.old scene.new) }
    ensures sound { OnOk result (IsSound scene.new) }
    ensures places { OnOk result (scene.new.places ≡ scene.old.places) }
{
    act(scene, guards, ReplayLine::Piece { session, bytes })?;
    settle(scene, guards, session)?;
    Ok(())
}

// A stream that takes every key, and four sessions, in a new scene.
fn open(alloc: Global, scene: &mut Scene, guards: &Guards) -> Result<(), OutOfMemory>
    requires begins { scene.old ≡ start }
    requires sound { IsSound scene.old }
    ensures runs { OnOk result (Runs opening start scene.new) }
    ensures sound { OnOk result (IsSound scene.new) }
    ensures places { OnOk result (length scene.new.places ≡ 1) }
{
    let mut app = Bytes::new(alloc);
    app.append(b"live")?;
    let mut name = Bytes::new(alloc);
    name.append(b"soak")?;
    let limits = ReplayLine::Limits {
        message: 4_096,
        bytes: 1_048_576,
        items: 4_096,
        players: 4,
        window: 2_500_000,
    };
    act(scene, guards, limits)?;
    act(scene, guards, ReplayLine::Stream { app, name })?;
    act(scene, guards, ReplayLine::Session)?;
    act(scene, guards, ReplayLine::Session)?;
    act(scene, guards, ReplayLine::Session)?;
    act(scene, guards, ReplayLine::Session)?;
    Ok(())
}

// A session plays.
fn join_player(
    alloc: Global,
    scene: &mut Scene,
    guards: &Guards,
    session: u32,
) -> Result<(), OutOfMemory>
    requires { IsSound scene.old }
    ensures runs { OnOk result (Runs (plays session) scene.old scene.new) }
    ensures sound { OnOk result (IsSound scene.new) }
    ensures places { OnOk result (scene.new.places ≡ scene.old.places) }
{
    let mut writer = Writer::new(alloc);
    let bytes = first_input(alloc, &mut writer, play())?;
    give(scene, guards, session, bytes)
}

// Session 0 publishes, and the others play. With the writer that is given its client goes on.
fn join(alloc: Global, scene: &mut Scene, guards: &Guards) -> Result<Writer, OutOfMemory>
    requires { IsSound scene.old }
    ensures runs { OnOk result (Runs joining scene.old scene.new) }
    ensures sound { OnOk result (IsSound scene.new) }
    ensures places { OnOk result (scene.new.places ≡ scene.old.places) }
    ensures writer { IfOk result (λ writer. writer ≡ before 0) }
{
    let mut writer = Writer::new(alloc);
    let bytes = first_input(alloc, &mut writer, publish())?;
    give(scene, guards, 0, bytes)?;
    join_player(alloc, scene, guards, 1)?;
    join_player(alloc, scene, guards, 2)?;
    join_player(alloc, scene, guards, 3)?;
    Ok(writer)
}

// Takes a turn of a player, if its number divides that of the unit.
fn turn_if(scene: &mut Scene, guards: &Guards, player: u32, i: u32) -> Result<(), OutOfMemory>
    requires sound { IsSound scene.old }
    requires some { 0 < player }
    ensures runs { OnOk result (Runs (turn_if player i) scene.old scene.new) }
    ensures sound { OnOk result (IsSound scene.new) }
    ensures places { OnOk result (scene.new.places ≡ scene.old.places) }
{
    if i % player == 0 {
        let turn = ReplayLine::Turn {
            session: player,
            count: 1,
        };
        act(scene, guards, turn)?;
        return Ok(());
    }
    Ok(())
}

// Unit `i` is published.
fn unit(
    alloc: Global,
    scene: &mut Scene,
    guards: &Guards,
    writer: &mut Writer,
    i: u32,
) -> Result<(), OutOfMemory>
    requires sound { IsSound scene.old }
    requires below { i < 100000 }
    requires written { writer.old ≡ before i }
    ensures runs { OnOk result (Runs (unit_acts i) scene.old scene.new) }
    ensures sound { OnOk result (IsSound scene.new) }
    ensures places { OnOk result (scene.new.places ≡ scene.old.places) }
    ensures written { OnOk result (writer.new ≡ before (i + 1)) }
{
    let bytes = piece(alloc, writer, i)?;
    give(scene, guards, 0, bytes)?;
    turn_if(scene, guards, 1, i)?;
    turn_if(scene, guards, 2, i)?;
    turn_if(scene, guards, 3, i)?;
    Ok(())
}

// Publishes the given number of units.
fn units(
    alloc: Global,
    scene: &mut Scene,
    guards: &Guards,
    mut writer: Writer,
    n: u32,
) -> Result<(), OutOfMemory>
    requires sound { IsSound scene.old }
    requires most { n ≤ 100000 }
    requires written { writer ≡ before 0 }
    ensures runs { OnOk result (Runs (units n) scene.old scene.new) }
    ensures sound { OnOk result (IsSound scene.new) }
    ensures places { OnOk result (scene.new.places ≡ scene.old.places) }
{
    for i in 0..n {
        unit(alloc, scene, guards, &mut writer, i)?;
    }
    Ok(())
}

// The first line.
fn head(alloc: Global, n: u32) -> Result<String, OutOfMemory>
    ensures { IfOk result (λ text. string_bytes text ≡ codes "soak " ++ decimal n ++ codes "\n") }
{
    Ok(format!(in alloc; "soak {n}\n")?)
}

// The same over a new scene.
fn told(alloc: Global, scene: &mut Scene, guards: &Guards, n: u32) -> Result<Bytes, OutOfMemory>
    requires most { n ≤ 100000 }
    requires begins { scene.old ≡ start }
    requires sound { IsSound scene.old }
    ensures { IfOk result (λ text. Printed n text) }
{
    open(alloc, scene, guards)?;
    let writer = join(alloc, scene, guards)?;
    units(alloc, scene, guards, writer, n)?;
    let summary = scene.summary()?;
    let head = head(alloc, n)?;
    let mut text = Bytes::new(alloc);
    text.append(head.as_str().as_bytes())?;
    text.append(summary.as_slice())?;
    Ok(text)
}

/// Returns the printed text of the run with `n` units, from which the answer follows. It has the number of
/// units, and the number that the stream took. Of each player it has the number of items it was sent, the
/// number of its skips and the number of bytes it was sent. It also has the number of bytes that all hold
/// at the end, beside the most that they may. Want of memory has no answer, and neither has a run of which
/// a session isn't idle after 1,000,000 turns.
pub fn soak_text(alloc: Global, guards: &Guards, n: u32) -> Result<Bytes, OutOfMemory>
    requires { n ≤ 100000 }
    ensures { IfOk result (λ text. Printed n text) }
{
    let mut scene = Scene::new(alloc);
    let text = told(alloc, &mut scene, guards, n);
    scene.end();
    text
}
