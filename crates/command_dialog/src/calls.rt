ghost use Rattle.std.specs.Prelude.{◌≡◌, ◌≤◌, length, None, Some, IfOk, MatchOption};
ghost use Rattle.stream_model.specs.declared.calls.Call.TheVariants as call;
ghost use Rattle.command_dialog.specs.Dialog.{named, call_of};
ghost use Rattle.command_dialog.specs.Meaning.{ask_in};

use crate::types::{Act, Ask, Meant};
use av_unit::{Bytes, OutOfMemory, UnitArc};
use std::alloc::Global;
use stream_model::{Call, ShortName};

// The longest name of a broadcast, in bytes.
const MOST_NAME: usize = 64;

fn begin(name: Bytes) -> Call
    ensures { result ≡ named call.BeginAs call.Begin name }
{
    if name.len() <= MOST_NAME {
        Call::BeginAs(ShortName::new(name))
    } else {
        Call::Begin
    }
}

fn join(name: Bytes) -> Call
    ensures { result ≡ named call.JoinAs call.Join name }
{
    if name.len() <= MOST_NAME {
        Call::JoinAs(ShortName::new(name))
    } else {
        Call::Join
    }
}

impl Act {
    /// Gives the call at the stream. A pushed unit is moved into a `UnitArc`, which can be shared; its bytes and
    /// those of a name aren't copied.
    pub fn into_call(self, alloc: Global) -> Result<Call, OutOfMemory>
        ensures { IfOk result (λ call. call ≡ call_of self) }
    {
        match self {
            Act::Begin { place: _, name } => Ok(begin(name)),
            Act::Join { place: _, name } => Ok(join(name)),
            Act::Push(unit) => Ok(Call::Push(UnitArc::new(alloc, unit)?)),
            Act::End => Ok(Call::End),
            Act::Leave(player) => Ok(Call::Leave { player }),
        }
    }
}

impl Meant {
    /// Gives the publish or play that needs a grant, if the message is one that reaches the guard.
    pub fn ask(&self) -> Option<&Ask>
        ensures { MatchOption result (ask_in self.now ≡ None) (λ ask. ask_in self.now ≡ Some ask.now) }
    {
        match self {
            Meant::Asks { ask, id: _ } => Some(ask),
            Meant::Passed | Meant::Connects { .. } | Meant::Creates { .. } => None,
            Meant::Busy { .. } | Meant::Closes { .. } | Meant::Turns(_) | Meant::Media => None,
        }
    }
}
