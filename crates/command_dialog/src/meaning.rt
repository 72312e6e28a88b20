ghost use Rattle.std.specs.Prelude.{◌≡◌, IfOk};
ghost use Rattle.command_dialog.specs.Meaning.{is_open, least_free, connects, asks, asks_while, dialog_fail};
ghost use Rattle.command_dialog.specs.Meaning.{publishes_on, closed_in, closes, turned, turns};
ghost use Rattle.command_dialog.specs.Dialog.{asked, phase_after, phase_without, size_by, sized, without};

use crate::lists::App;
use crate::types::{Ask, DialogFail, Grant, Meant, Phase, Playing, Role, Switch};
use crate::words::{bytes_of, key_of, name_of};
use amf0_value::bits_of;
use amf0_value::walk::Brief;
use av_unit::{Bytes, Kind, OutOfMemory, Unit, Want, length_size};
use rtmp_command::CommandFail;
use std::alloc::Global;
use stream_model::Reply;

/// Gives the least id of 1 to 16 that isn't open.
pub fn free_id(ids: &[u32]) -> Option<u32>
    ensures { result ≡ least_free ids.now }
{
    let mut id = 1;
    let mut left = 16u32;
    while left > 0 {
        if !has_id(ids, id) {
            return Some(id);
        }
        id += 1;
        left -= 1;
    }
    None
}

fn has_id(ids: &[u32], id: u32) -> bool
    ensures { result ≡ is_open id ids.now }
{
    ids.contains(&id)
}

pub fn fail_of(fail: CommandFail) -> DialogFail
    ensures { result ≡ dialog_fail fail }
{
    match fail {
        CommandFail::BadCommand { at } => DialogFail::BadCommand { at },
        CommandFail::OutOfMemory => DialogFail::OutOfMemory,
    }
}

pub fn connect(
    alloc: Global,
    app: &Option<App>,
    transaction: u64,
    third: &Option<Bytes>,
) -> Result<Meant, OutOfMemory>
    ensures { IfOk result (λ meant. meant ≡ connects app.now transaction third.now) }
{
    match app {
        Some(_) => Ok(Meant::Passed),
        None => match third {
            None => Ok(Meant::Passed),
            Some(text) => {
                let app = App::of(alloc, text.as_slice())?;
                Ok(Meant::Connects { transaction, app })
            }
        },
    }
}

pub fn ask(
    alloc: Global,
    phase: &Phase,
    ids: &[u32],
    role: Role,
    id: u32,
    app: &App,
    fourth: &Brief,
) -> Result<Meant, OutOfMemory>
    ensures { IfOk result (λ meant. meant ≡ asks phase.now ids.now role id app.now fourth.now) }
{
    if !ids.contains(&id) {
        return Ok(Meant::Passed);
    }
    match fourth {
        Brief::Text(text) => ask_text(alloc, phase, role, id, app, text),
        Brief::Number(_) | Brief::Boolean(_) | Brief::Other => Ok(Meant::Passed),
    }
}

fn ask_text(
    alloc: Global,
    phase: &Phase,
    role: Role,
    id: u32,
    app: &App,
    text: &Bytes,
) -> Result<Meant, OutOfMemory>
    ensures { IfOk result (λ meant. meant ≡ asks_while phase.now role id app.now text.now) }
{
    match phase {
        Phase::Idle => {
            let app = bytes_of(alloc, app.as_slice())?;
            let name = bytes_of(alloc, name_of(text.as_slice()))?;
            let key = bytes_of(alloc, key_of(text.as_slice()))?;
            Ok(Meant::Asks {
                ask: Ask {
                    role,
                    app,
                    name,
                    key,
                },
                id,
            })
        }
        Phase::Asked { .. } | Phase::Publishes { .. } | Phase::Plays(_) => Ok(Meant::Busy {
            role,
            id,
        }),
    }
}

/// Tells whether a granted publish is on this message stream.
pub fn is_published(phase: &Phase, stream: u32) -> bool
    ensures { result ≡ publishes_on stream phase.now }
{
    match phase {
        Phase::Publishes { id, size: _ } => *id == stream,
        Phase::Idle | Phase::Asked { .. } | Phase::Plays(_) => false,
    }
}

/// Gives the role after a publish or play with its grant.
pub fn asked_role(role: Role, id: u32, grant: Option<Grant>) -> Phase
    ensures { result ≡ asked role id grant }
{
    match grant {
        Some(Grant::Place(_)) => Phase::Asked { role, id },
        Some(Grant::NoName) => Phase::Idle,
        Some(Grant::Refused) => Phase::Idle,
        None => Phase::Idle,
    }
}

/// Gives the role after a reply of the stream.
pub fn told_role(phase: Phase, reply: &Reply) -> Phase
    ensures { result ≡ phase_after phase reply.now }
{
    match phase {
        Phase::Asked {
            role: Role::Publish,
            id,
        } => match reply {
            Reply::Began { .. } => Phase::Publishes { id, size: 0 },
            _ => Phase::Idle,
        },
        Phase::Asked {
            role: Role::Play,
            id,
        } => match reply {
            Reply::Joined { player, from: _ } => Phase::Plays(Playing {
                player: *player,
                id,
                want: Want {
                    audio: true,
                    video: true,
                },
                paused: false,
            }),
            _ => Phase::Idle,
        },
        Phase::Idle => Phase::Idle,
        Phase::Publishes { id, size } => Phase::Publishes { id, size },
        Phase::Plays(playing) => Phase::Plays(playing),
    }
}

/// Finds the open id whose number has this pattern.
fn closing(ids: &[u32], bits: u64) -> Option<u32>
    ensures { result ≡ closed_in bits ids.now }
{
    let mut left = ids;
    while let [id, rest @ ..] = left {
        if bits_of(u64::from(*id)) == bits {
            return Some(*id);
        }
        left = rest;
    }
    None
}

pub fn close(ids: &[u32], fourth: &Brief) -> Meant
    ensures { result ≡ closes ids.now fourth.now }
{
    match fourth {
        Brief::Number(bits) => match closing(ids, *bits) {
            None => Meant::Passed,
            Some(id) => Meant::Closes { id },
        },
        Brief::Boolean(_) | Brief::Text(_) | Brief::Other => Meant::Passed,
    }
}

fn turn_one(playing: Playing, switch: Switch, flag: bool) -> Playing
    ensures { result ≡ turned switch flag playing }
{
    let Playing {
        player,
        id,
        want,
        paused,
    } = playing;
    let Want { audio, video } = want;
    match switch {
        Switch::Audio => Playing {
            player,
            id,
            want: Want { audio: flag, video },
            paused,
        },
        Switch::Video => Playing {
            player,
            id,
            want: Want { audio, video: flag },
            paused,
        },
        Switch::Pause => Playing {
            player,
            id,
            want,
            paused: flag,
        },
    }
}

pub fn turn(phase: &Phase, stream: u32, switch: Switch, fourth: &Brief) -> Meant
    ensures { result ≡ turns phase.now stream switch fourth.now }
{
    match phase {
        Phase::Plays(playing) => match fourth {
            Brief::Boolean(flag) => {
                if playing.id == stream {
                    Meant::Turns(turn_one(*playing, switch, *flag))
                } else {
                    Meant::Passed
                }
            }
            Brief::Number(_) | Brief::Text(_) | Brief::Other => Meant::Passed,
        },
        Phase::Idle | Phase::Asked { .. } | Phase::Publishes { .. } => Meant::Passed,
    }
}

/// Gives the role after its message stream, or another one, is closed.
pub fn role_without(id: u32, phase: Phase) -> Phase
    ensures { result ≡ phase_without id phase }
{
    match phase {
        Phase::Publishes { id: n, size } => {
            if n == id {
                Phase::Idle
            } else {
                Phase::Publishes { id: n, size }
            }
        }
        Phase::Plays(playing) => {
            if playing.id == id {
                Phase::Idle
            } else {
                Phase::Plays(playing)
            }
        }
        Phase::Idle => Phase::Idle,
        Phase::Asked { role, id } => Phase::Asked { role, id },
    }
}

// Gives the length size after a unit.
fn size_by(unit: &Unit, size: u8) -> u8
    ensures { result ≡ size_by unit.now.kind unit.now.body size }
{
    match unit.kind {
        Kind::VConfig => length_size(unit.body.as_slice()),
        Kind::Meta | Kind::AConfig | Kind::Key | Kind::Inter => size,
        Kind::Spare | Kind::Audio | Kind::Data => size,
    }
}

/// Gives the role after a unit is pushed.
pub fn sized(unit: &Option<Unit>, phase: Phase) -> Phase
    ensures { result ≡ sized unit.now phase }
{
    match unit {
        Some(unit) => match phase {
            Phase::Publishes { id, size } => Phase::Publishes {
                id,
                size: size_by(unit, size),
            },
            Phase::Idle | Phase::Asked { .. } | Phase::Plays(_) => phase,
        },
        None => phase,
    }
}

/// Gives the open ids but one.
pub fn remove(ids: &mut Vec<u32>, id: u32)
    ensures { ids.new.items ≡ without id ids.old.items }
{
    ids.retain(|n| *n != id);
}
