//! The line of an edge in the report.
ghost use Rattle.std.specs.Prelude.{◌≡◌, IfOk, string_bytes};
ghost use Rattle.origin_pull.specs.Words.{end_text};
ghost use Rattle.edge_serve.specs.Line.{edge_line};

use av_unit::OutOfMemory;
use origin_pull::{EdgeEnd, end_text};
use rtmp_client::ClientEnd;
use std::alloc::Global;

/// The line of an edge that has ended so.
pub(crate) fn edge_line(
    alloc: Global,
    end: EdgeEnd,
    client: &Option<ClientEnd>,
) -> Result<Vec<u8>, OutOfMemory>
    ensures { IfOk result (λ line. line.items ≡ edge_line end client.now) }
{
    let mut line = Vec::new(alloc);
    line.extend_from_slice(b"edge ")?;
    line.extend_from_slice(end_text(alloc, end, client)?.as_bytes())?;
    line.push(b'\n')?;
    Ok(line)
}
