ghost use Rattle.std.specs.Prelude.{◌≡◌, ◌≤◌};
ghost use Rattle.relay_session.specs.Bounds.{call_bytes, kept_bytes};
ghost use Rattle.origin_pull.specs.Keeping.{due_bytes, waiting_bytes};

use crate::{Core, Due};
use stream_model::{Call, Entry};

// Returns the number of bytes of the unit that a call pushes, or 0.
fn call_len(call: &Call) -> u64
    ensures value { result ≡ call_bytes call.now }
    ensures most { result ≤ 4194304 }
{
    match call {
        Call::Push(unit) => unit.unit().body.len() as u64,
        Call::Begin => 0,
        Call::End => 0,
        Call::Join => 0,
        Call::Take { .. } => 0,
        Call::Leave { .. } => 0,
        Call::Count => 0,
        Call::BeginAs(_) => 0,
        Call::JoinAs(_) => 0,
    }
}

fn kept_len(kept: &Option<Entry>) -> u64
    ensures value { result ≡ kept_bytes kept.now }
    ensures most { result ≤ 4194304 }
{
    match kept {
        None => 0,
        Some(entry) => call_len(&entry.call),
    }
}

fn due_len(due: &Due) -> u64
    ensures value { result ≡ due_bytes due.now }
    ensures most { result ≤ 8388608 }
{
    match due {
        Due::Nothing => 0,
        Due::One(call) => call_len(call),
        Due::Two(call, later) => call_len(call) + call_len(later),
    }
}

/// Returns the number of bytes of the units of the kept call and of those due.
#[tactic(auto, using(crate::proofs::Tags::bytes_wait))]
pub(crate) fn waiting_len(core: &Core) -> u64
    ensures value { result ≡ waiting_bytes core.now }
    ensures most { result ≤ 12582912 }
{
    kept_len(&core.kept) + due_len(&core.due)
}
