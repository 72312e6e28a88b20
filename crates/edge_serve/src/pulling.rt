//! The thread of an edge.
ghost use Rattle.std.specs.Prelude.{◌≡◌, ◌≢◌, ◌⊎◌, ◌≤◌, IfOk, None, []};
ghost use Rattle.client_command.specs.Words.{AreShort};
ghost use Rattle.origin_pull.specs.EdgeState.{IsNew, StandsFor};
ghost use Rattle.stream_registry.specs.Gates.{told_at};
ghost use Rattle.stream_registry.specs.SharedState.{shared_rules};
ghost use Rattle.edge_serve.specs.Coming.{SharedAlone};
ghost use Rattle.edge_serve.specs.Driving.{CanPull, IsMade, IsPulled, end_then};
ghost use Rattle.edge_serve.specs.Line.{edge_line};
ghost use Rattle.edge_serve.specs.Pulls.{origin};
ghost use Rattle.edge_serve.specs.Words.{pull_of};

use crate::driving::{drive, leave};
use crate::line::edge_line;
use crate::telling::tell_over;
use av_unit::{Bytes, OutOfMemory};
use chunk_reader::one_reading;
use client_owed::Wish;
use origin_pull::{Edge, EdgeEnd};
use relay_outside::{Link, Rest};
use rtmp_client::{Client, ClientEnd};
use std::alloc::Global;
use std::sync::Wait;
use stream_registry::{PlaceTable, Shared, StreamPort};

/// The name of the edge.
const NAME: u64 = (1 << 61) + (1 << 60);

/// Its place.
pub(crate) const PLACE: u32 = 0;

/// The target of a pull: the stream of an origin, the origin's address, and the number of bytes that the longest
/// message may have.
#[derive(Clone, Copy)]
pub(crate) struct Stream<'a> {
    pub address: &'a [u8],
    pub app: &'a [u8],
    pub name: &'a [u8],
    pub longest: u32,
}

/// The remains of an edge: its port and its link, the reason why it has ended, and its line in the report.
#[derive(Drop)]
pub(crate) struct Pulled<L: Link> {
    pub port: Shared<PlaceTable>,
    pub link: L,
    pub end: EdgeEnd,
    pub line: Vec<u8>,
}

fn bytes_of(alloc: Global, text: &[u8]) -> Result<Bytes, OutOfMemory>
    ensures { IfOk result (λ bytes. bytes ≡ text.now) }
{
    let mut bytes = Bytes::new(alloc);
    bytes.append(text)?;
    Ok(bytes)
}

// A client that asks for the stream.
fn new_client(alloc: Global, stream: Stream<'_>) -> Result<Client, OutOfMemory>
    requires short { AreShort stream.address.now stream.app.now stream.name.now }
    requires most { stream.longest ≤ 4194304 }
    ensures asked { IfOk result (λ c. c.parts.asked ≡ pull_of stream.entry.address.now stream.entry.app.now stream.entry.name.now) }
    ensures max { IfOk result (λ c. c.parts.reader.max ≡ stream.entry.longest) }
    ensures new { IfOk result IsNew }
    ensures empty { IfOk result (λ c. c.input ≡ []) }
{
    let address = bytes_of(alloc, stream.address)?;
    let app = bytes_of(alloc, stream.app)?;
    let name = bytes_of(alloc, stream.name)?;
    Client::new(alloc, Wish::Pull, address, app, name, stream.longest)
}

// The edge of such a client.
fn new_edge<P: StreamPort>(client: Client) -> Edge<P>
    requires { IsNew client }
    ensures made { IsMade client result }
    ensures lives { result.ended ≡ None }
    ensures stands { StandsFor result }
{
    Edge::new(NAME, PLACE, client)
}

// The reason why it has ended, if it has left a place whose history is full or isn't.
fn end_then(end: EdgeEnd, worn: bool) -> EdgeEnd
    ensures { result ≡ end_then end worn }
{
    match (end, worn) {
        (EdgeEnd::OutOfMemory, _) => EdgeEnd::OutOfMemory,
        (_, true) => EdgeEnd::Worn,
        (end, false) => end,
    }
}

// Returns its line, and the reason why it has ended then: want of memory, if there was none for the line.
fn line_of(alloc: Global, end: EdgeEnd, client: &Option<ClientEnd>) -> (EdgeEnd, Vec<u8>)
    ensures end { (result.0 ≡ end) ⊎ (result.0 ≡ EdgeEnd.OutOfMemory) }
    ensures line { result.0 ≢ EdgeEnd.OutOfMemory → result.1.items ≡ edge_line result.0 client.now }
{
    match edge_line(alloc, end, client) {
        Ok(line) => (end, line),
        Err(_) => (EdgeEnd::OutOfMemory, Vec::new(alloc)),
    }
}

/// Pulls the stream until that is over, and leaves. It makes no call but those of its edge. An edge for which
/// there was no memory, or none for its line, has ended for want of memory.
pub(crate) fn pull<W: Wait, L: Link, R: Rest>(
    rt: &W,
    alloc: Global,
    mut port: Shared<PlaceTable>,
    stream: Stream<'_>,
    mut link: L,
    mut rest: R,
) -> Pulled<L>
    requires { CanPull stream.address.now stream.app.now stream.name.now stream.longest (shared_rules port) }
    ensures alone { SharedAlone L.hears L.says port link result.port result.link }
    ensures pulled { IsPulled (pull_of stream.entry.address.now stream.entry.app.now stream.entry.name.now) stream.entry.longest
        (shared_rules port) (shared_rules result.port) (told_at result.port.roots) result.end result.line.items
        (origin (L.told link) (L.counts link)) (origin (L.told result.link) (L.counts result.link)) }
{
    one_reading();
    let Ok(client) = new_client(alloc, stream) else {
        return Pulled {
            port,
            link,
            end: EdgeEnd::OutOfMemory,
            line: Vec::new(alloc),
        };
    };
    let mut edge = new_edge(client);
    let (app, name) = (stream.app, stream.name);
    let end = drive(
        rt, alloc, &mut edge, &mut port, &mut link, &mut rest, app, name,
    );
    let worn = leave(rt, &mut edge, &mut port, &mut rest);
    rest.pushed(PLACE);
    let end = end_then(end, worn);
    tell_over(&link, end, edge.client_end(), app, name);
    let (end, line) = line_of(alloc, end, edge.client_end());
    Pulled {
        port,
        link,
        end,
        line,
    }
}
