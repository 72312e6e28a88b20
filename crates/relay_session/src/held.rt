ghost use Rattle.std.specs.Prelude.{◌≡◌, ◌≤◌, length};
ghost use Rattle.relay_session.specs.Bounds.{HasRoom, IsLight, call_bytes, kept_bytes, kept_name, name_bytes};
ghost use Rattle.relay_session.specs.Holding.{HandFits, IsHolding, most_held};
ghost use Rattle.relay_session.specs.Owing.{pending};

use crate::Core;
use crate::input::Input;
use stream_model::{Call, Entry};

// Returns the number of bytes of the unit that a call publishes, or 0.
fn call_bytes(call: &Call) -> usize
    ensures { result ≡ call_bytes call.now }
{
    match call {
        Call::Push(unit) => unit.unit().body.len(),
        Call::BeginAs(_) => 0,
        Call::JoinAs(_) => 0,
        Call::Begin => 0,
        Call::End => 0,
        Call::Join => 0,
        Call::Take { .. } => 0,
        Call::Leave { .. } => 0,
        Call::Count => 0,
    }
}

// Returns the number of bytes of the unit that the call that waits publishes, or 0.
fn kept_bytes(kept: &Option<Entry>) -> usize
    ensures { result ≡ kept_bytes kept.now }
{
    match kept {
        None => 0,
        Some(entry) => call_bytes(&entry.call),
    }
}

// Returns the number of bytes of the name that a call asks for, or 0.
fn name_bytes(call: &Call) -> usize
    ensures value { result ≡ name_bytes call.now }
    ensures most { result ≤ 64 }
{
    match call {
        Call::BeginAs(name) => name.as_slice().len(),
        Call::JoinAs(name) => name.as_slice().len(),
        Call::Push(_) => 0,
        Call::Begin => 0,
        Call::End => 0,
        Call::Join => 0,
        Call::Take { .. } => 0,
        Call::Leave { .. } => 0,
        Call::Count => 0,
    }
}

// Returns the number of bytes of the name that the call that waits asks for, or 0.
fn kept_name(kept: &Option<Entry>) -> usize
    ensures value { result ≡ kept_name kept.now }
    ensures most { result ≤ 64 }
{
    match kept {
        None => 0,
        Some(entry) => name_bytes(&entry.call),
    }
}

/// Returns the number of bytes that a session with this input holds.
pub(crate) fn held_in(core: &Core, input: &Input) -> u64
    requires room { HasRoom core.now.hand core.now.reader core.now.kept }
    requires light { IsLight core.now.outgoing.others core.now.kept }
    requires fits { HandFits core.now }
    ensures holds { IsHolding core.now input.now result }
    ensures most { result ≤ most_held core.now.reader.max core.now.reader.max }
{
    let app = core.dialog.held();
    let kept = kept_bytes(&core.kept) as u64;
    let name = kept_name(&core.kept) as u64;
    let unit = core.outgoing.unit_len() as u64;
    let later = core.outgoing.later().len() as u64;
    let ready = core.outgoing.ready().len() as u64;
    let parts = core.reader.held();
    let input = input.left().len() as u64;
    let hand = core.hand.held() as u64;
    app + kept + name + unit + later + ready + parts + input + hand
}

/// Returns the number of bytes that a session is to send.
pub(crate) fn pending_in(core: &Core) -> u64
    requires { IsLight core.now.outgoing.others core.now.kept }
    ensures { result ≡ length (pending core.now.outgoing) }
{
    core.outgoing.pending_len() as u64
}
