ghost use Rattle.std.specs.Prelude.{◌≡◌, ◌++◌, OnOk, IfOk};
ghost use Rattle.rtmp_handshake.specs.Answer.{random_bytes};
ghost use Rattle.rtmp_handshake.specs.Echo.{answer_by};

use crate::slices::{after, first};
use av_unit::{Bytes, OutOfMemory};
use std::alloc::{AllocError, Global};

/// Appends the first `count` of the server's random bytes.
fn push_random(list: &mut Vec<u8>, count: usize) -> Result<(), AllocError>
    ensures { OnOk result (list.new.items ≡ list.old.items ++ random_bytes count) }
{
    for i in 0..count {
        list.push((i % 251) as u8)?;
    }
    Ok(())
}

/// Gives S0, S1 and S2, by the bytes kept of C1.
pub(crate) fn answer(alloc: Global, kept: &[u8]) -> Result<Bytes, OutOfMemory>
    ensures { IfOk result (λ out. out ≡ answer_by kept.now) }
{
    let mut list = Vec::with_capacity(alloc, 3_073)?;
    list.push(3)?;
    list.extend_from_slice(&[0; 8])?;
    push_random(&mut list, 1_528)?;
    list.extend_from_slice(first(kept, 4))?;
    list.extend_from_slice(&[0; 4])?;
    list.extend_from_slice(after(kept, 4))?;
    Ok(Bytes::from_vec(list))
}
