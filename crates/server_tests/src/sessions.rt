//! A session that publishes and one that plays, each in a thread of its own.
ghost use Rattle.std.specs.Prelude.{◌≡◌, All, IfOk};
ghost use Rattle.std.specs.Option.{IfSome};
ghost use Rattle.stream_registry.specs.Names.{PortRules};
ghost use Rattle.stream_registry.specs.SharedState.{shared_rules};

use crate::clients::{input, part};
use crate::names::{Always, LIMITS, STREAM, names};
use crate::turn_often;
use av_unit::OutOfMemory;
use command_dialog::Grant;
use relay_outside::MemLink;
use relay_session::Session;
use std::alloc::{AllocError, Global};
use std::test::Fail;
use std::thread;
use stream_model::{Call, Entry, Reply};
use stream_registry::{OpenList, PlaceTable, Shared, StreamPort, shared_ports};

// How many units are published.
const UNITS: u64 = 1_000;

// How often a session is turned, and a call is tried, before its caller gives up.
const TRIES: u64 = 1 << 24;

/// The next port of a list, all of which have the same names and gates.
fn next_port(list: &mut Vec<Shared<PlaceTable>>) -> Option<Shared<PlaceTable>>
    ensures { (r : PortRules) → All (λ s. shared_rules s ≡ r) list.old.items
        → All (λ s. shared_rules s ≡ r) list.new.items × IfSome result (λ s. shared_rules s ≡ r) }
{
    list.pop()
}

type TwoPorts = (Shared<PlaceTable>, Shared<PlaceTable>);

/// Two ports to the same gates.
fn two_ports(alloc: Global) -> Result<TwoPorts, OutOfMemory>
    ensures { IfOk result (λ p. shared_rules p.1 ≡ shared_rules p.0) }
{
    let mut list = shared_ports(alloc, names(alloc)?, OpenList::new(alloc), STREAM, 2)?;
    let Some(one) = next_port(&mut list) else {
        return Err(OutOfMemory);
    };
    let Some(other) = next_port(&mut list) else {
        return Err(OutOfMemory);
    };
    Ok((one, other))
}

/// Returns the bytes of a client that publishes that number of units.
fn publishing(alloc: Global, units: u64) -> Result<Vec<u8>, AllocError> {
    let mut all = input(alloc, b"hcsp")?;
    for _ in 0..units {
        all.extend_from_slice(part(b'k'))?;
    }
    Ok(all)
}

/// The outcome of a session: the number of bytes it was fed, and the number it sent.
#[derive(Clone, Copy)]
struct Ran {
    fed: u64,
    sent: usize,
}

/// Turns a session over these bytes, until they end or the given number of turns is made.
fn run<P: StreamPort>(
    alloc: Global,
    port: &mut P,
    who: u64,
    bytes: Vec<u8>,
    ends: bool,
    most: u64,
) -> Ran
    ensures { P.rules port.new ≡ P.rules port.old }
{
    let Ok(place) = port.find(b"live", b"one") else {
        return Ran { fed: 0, sent: 0 };
    };
    let mut link = MemLink::new(alloc);
    if link.give(bytes).is_err() {
        return Ran { fed: 0, sent: 0 };
    }
    if ends {
        link.end();
    }
    let desk = Always {
        grant: Grant::Place(place),
    };
    let mut session = Session::new(alloc, who, LIMITS);
    turn_often(&mut session, alloc, port, &mut link, &desk, most);
    Ran {
        fed: session.fed(),
        sent: link.sent().len(),
    }
}

/// The same in a thread. The port is given back.
fn work(
    alloc: Global,
    mut port: Shared<PlaceTable>,
    who: u64,
    bytes: Vec<u8>,
    ends: bool,
    most: u64,
    ran: &mut Ran,
) -> Shared<PlaceTable>
    ensures { shared_rules result ≡ shared_rules port }
{
    *ran = run(alloc, &mut port, who, bytes, ends, most);
    port
}

/// How many pushes the stream has had.
fn pushed<P: StreamPort>(port: &mut P) -> Option<u64> {
    let place = port.find(b"live", b"one").ok()?;
    let mut pass = port.attach(place);
    let entry = Entry {
        who: 0,
        at: 0,
        call: Call::Count,
    };
    let reply = port.call(place, &mut pass, entry);
    port.detach(place, pass);
    match reply {
        Ok(Reply::Counts { pushed, .. }) => Some(pushed),
        _ => None,
    }
}

#[test]
fn one_thread_plays_what_another_publishes(rt: HostRuntime) -> Result<(), Fail> {
    let alloc = rt.alloc();
    let (near, far) = two_ports(alloc)?;
    let publisher = publishing(alloc, UNITS)?;
    let player = input(alloc, b"hcsy")?;
    let whole = publisher.len() as u64;
    let mut published = Ran { fed: 0, sent: 0 };
    let mut played = published;
    let (mut near, far) = thread::join(
        &rt,
        || work(alloc, near, 1, publisher, true, TRIES, &mut published),
        || work(alloc, far, 2, player, false, 100_000, &mut played),
    );
    near.gather(far);
    assert!(rt; published.fed == whole);
    assert!(rt; played.sent > 3_073);
    assert!(rt; pushed(&mut near) == Some(UNITS));
    Ok(())
}
