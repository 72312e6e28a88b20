//! The stream of the tests, `live/one`, its limits, and a desk.
ghost use Rattle.std.specs.Prelude.{◌≡◌, ◌<◌, ◌≤◌, length, IfOk};

use av_unit::{Bytes, OutOfMemory};
use command_dialog::{Ask, Grant};
use relay_base::Limits;
use relay_session::Desk;
use std::alloc::Global;
use stream_model::{ShortName, StreamLimits};
use stream_registry::{Name, NameList};

pub const STREAM: StreamLimits = StreamLimits {
    bytes: 100_000,
    items: 256,
    players: 4,
};

pub const LIMITS: Limits = Limits {
    max_message: 4_096,
    ring_bytes: 100_000,
    ring_items: 256,
    players: 4,
    window: 2_500_000,
};

/// Every publish and play is granted the same.
#[derive(Clone, Copy)]
pub struct Always {
    pub grant: Grant,
}

impl Desk for Always {
    ghost grants = { λ d ask. d.grant };

    fn grant(&self, _: &Ask) -> Grant {
        self.grant
    }
}

pub fn bytes(alloc: Global, text: &[u8]) -> Result<Bytes, OutOfMemory>
    ensures { IfOk result (λ b. b ≡ text.now) }
{
    let mut bytes = Bytes::new(alloc);
    bytes.append(text)?;
    Ok(bytes)
}

/// The name of the one stream.
pub fn names(alloc: Global) -> Result<NameList, OutOfMemory>
    ensures one { IfOk result (λ n. length n ≡ 1) }
    ensures few { IfOk result (λ n. length n ≤ 64) }
    ensures some { IfOk result (λ n. 0 < length n) }
{
    let mut names = NameList::new(alloc);
    names.push(Name {
        app: bytes(alloc, b"live")?,
        name: ShortName::new(bytes(alloc, b"one")?),
    })?;
    Ok(names)
}
