//! An entry once more.
ghost use Rattle.std.specs.Prelude.{◌≡◌, IfOk};
ghost use Rattle.stream_registry.specs.Wants.{taking, numbers_of};

use av_unit::{OutOfMemory, Want};
use stream_core::{Call, Entry};

/// Gives the same entry once more: its unit is shared, and its name copied.
pub(crate) fn entry_again(entry: &Entry) -> Result<Entry, OutOfMemory>
    ensures { IfOk result (λ other. other ≡ entry.now) }
{
    let who = entry.who;
    let at = entry.at;
    match &entry.call {
        Call::Begin => Ok(Entry {
            who,
            at,
            call: Call::Begin,
        }),
        Call::Push(unit) => {
            let unit = unit.share()?;
            Ok(Entry {
                who,
                at,
                call: Call::Push(unit),
            })
        }
        Call::End => Ok(Entry {
            who,
            at,
            call: Call::End,
        }),
        Call::Join => Ok(Entry {
            who,
            at,
            call: Call::Join,
        }),
        Call::BeginAs(name) => {
            let name = name.again()?;
            Ok(Entry {
                who,
                at,
                call: Call::BeginAs(name),
            })
        }
        Call::JoinAs(name) => {
            let name = name.again()?;
            Ok(Entry {
                who,
                at,
                call: Call::JoinAs(name),
            })
        }
        Call::Take { player, want } => Ok(Entry {
            who,
            at,
            call: Call::Take {
                player: *player,
                want: *want,
            },
        }),
        Call::Leave { player } => Ok(Entry {
            who,
            at,
            call: Call::Leave { player: *player },
        }),
        Call::Count => Ok(Entry {
            who,
            at,
            call: Call::Count,
        }),
    }
}

/// The numbers of a Take, from which the same Take can be made once more.
#[derive(Clone, Copy)]
pub(crate) struct TakeNumbers {
    pub who: u64,
    pub at: u64,
    pub player: u32,
    pub want: Want,
}

impl TakeNumbers {
    pub fn of(entry: &Entry) -> Option<TakeNumbers>
        ensures { result ≡ numbers_of entry.now entry.now.call }
    {
        match &entry.call {
            Call::Take { player, want } => Some(TakeNumbers {
                who: entry.who,
                at: entry.at,
                player: *player,
                want: *want,
            }),
            _ => None,
        }
    }

    pub fn entry(self) -> Entry
        ensures { result ≡ taking self }
    {
        Entry {
            who: self.who,
            at: self.at,
            call: Call::Take {
                player: self.player,
                want: self.want,
            },
        }
    }
}
