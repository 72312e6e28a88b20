//! Ports over real streams, on one thread and on many.
ghost use Rattle.std.specs.Prelude.{◌≡◌, ◌<◌, ◌≤◌, All, length, IfOk};
ghost use Rattle.std.specs.Option.{IfSome};
ghost use Rattle.stream_registry.specs.Names.{HaveSlots, PortRules, places, slots_sum};
ghost use Rattle.stream_registry.specs.SharedState.{shared_rules};

use av_unit::{Bytes, Kind, OutOfMemory, Unit, UnitArc, Want};
use std::alloc::Global;
use std::test::Fail;
use std::thread::Threads;
use std::{hint, thread};
use stream_core::{Call, Entry, Reply, ShortName, StreamLimits};
use stream_registry::*;

// The number of tries of a call before its caller gives up.
const TRIES: u64 = 1 << 28;

// The number of calls of each thread at each place.
const CALLS: u64 = 600;

const LIMITS: StreamLimits = StreamLimits {
    bytes: 1000,
    items: 16,
    players: 8,
};

// The calls of two callers, by their letters: capitals are the second's.
const LETTERS: &[u8] = b"cPbBpPJTtTpTLeEc";

const WANT: Want = Want {
    audio: true,
    video: true,
};

fn bytes(alloc: Global, text: &[u8]) -> Result<Bytes, OutOfMemory>
    ensures { IfOk result (λ b. b ≡ text.now) }
{
    let mut bytes = Bytes::new(alloc);
    bytes.append(text)?;
    Ok(bytes)
}

fn name(alloc: Global, text: &[u8]) -> Result<ShortName, OutOfMemory>
    requires { length text.now ≤ 64 }
    ensures { IfOk result (λ n. n ≡ text.now) }
{
    Ok(ShortName::new(bytes(alloc, text)?))
}

fn names(alloc: Global) -> Result<NameList, OutOfMemory>
    ensures { IfOk result (λ n. length n ≤ 2) }
{
    let mut names = NameList::new(alloc);
    names.push(Name {
        app: bytes(alloc, b"live")?,
        name: name(alloc, b"one")?,
    })?;
    names.push(Name {
        app: bytes(alloc, b"live")?,
        name: name(alloc, b"two")?,
    })?;
    Ok(names)
}

/// Makes one open table, of two names.
fn opens(alloc: Global) -> Result<OpenList, OutOfMemory>
    ensures { IfOk result (λ o. HaveSlots o × (slots_sum o ≤ 2)) }
{
    let mut opens = OpenList::new(alloc);
    opens.push(OpenName {
        app: bytes(alloc, b"open")?,
        slots: 2,
    })?;
    Ok(opens)
}

/// Builds the call of a letter. A Take and a Leave are of this place.
fn call_of(alloc: Global, letter: u8, player: u32) -> Result<Call, OutOfMemory> {
    let call = match letter {
        b'b' => Call::Begin,
        b'p' => Call::Push(UnitArc::new(
            alloc,
            Unit {
                kind: Kind::Key,
                time: 0,
                body: Bytes::from_vec(vec![in alloc; 7; 16]?),
            },
        )?),
        b'e' => Call::End,
        b'j' => Call::Join,
        b't' => Call::Take { player, want: WANT },
        b'l' => Call::Leave { player },
        _ => Call::Count,
    };
    Ok(call)
}

/// Builds the call of a letter, and tries again if memory was refused.
fn call_again(alloc: Global, letter: u8, player: u32) -> Result<Call, OutOfMemory> {
    match call_of(alloc, letter, player) {
        Ok(call) => Ok(call),
        Err(OutOfMemory) => call_of(alloc, letter, player),
    }
}

/// Makes one call over any port, and tries again if it is busy or memory was refused.
fn until_made<P: StreamPort>(
    port: &mut P,
    place: u32,
    pass: &mut P::Pass,
    mut entry: Entry,
) -> Option<Reply>
    requires { P.fits port.old place pass.old }
    ensures fits { P.fits port.new place pass.new }
    ensures fixed { P.rules port.new ≡ P.rules port.old }
{
    for _ in 0..TRIES {
        match port.call(place, pass, entry) {
            Ok(reply) => return Some(reply),
            Err(PortFail::Busy(again)) => entry = again,
            Err(PortFail::OutOfMemory(again)) => entry = again,
            Err(PortFail::Worn(_)) => return None,
        }
        hint::spin_loop();
    }
    None
}

/// The answers that one caller got at one place.
#[derive(Clone, Copy)]
struct Tally {
    who: u64,
    /// The place that it has.
    player: u32,
    began: u64,
    pushed: u64,
    ended: u64,
    joined: u64,
    skips: u64,
    /// The lowest number that its next item may have.
    next: u64,
    /// Its own items have their numbers in the order of its calls, and each call was made.
    in_order: bool,
}

impl Tally {
    fn new(who: u64) -> Tally {
        Tally {
            who,
            player: 0,
            began: 0,
            pushed: 0,
            ended: 0,
            joined: 0,
            skips: 0,
            next: 0,
            in_order: true,
        }
    }

    fn published(&mut self, n: u64) {
        self.in_order = self.in_order && self.next <= n;
        self.next = n.saturating_add(1);
    }

    fn note(&mut self, reply: &Reply) {
        match reply {
            Reply::Began { n } => {
                self.began = self.began.wrapping_add(1);
                self.published(*n);
            }
            Reply::Pushed { n } => {
                self.pushed = self.pushed.wrapping_add(1);
                self.published(*n);
            }
            Reply::Ended { n } => {
                self.ended = self.ended.wrapping_add(1);
                self.published(*n);
            }
            Reply::Joined { player, from: _ } => {
                self.joined = self.joined.wrapping_add(1);
                self.player = *player;
            }
            Reply::Skip { from: _, to: _ } => {
                self.skips = self.skips.wrapping_add(1);
            }
            _ => {}
        }
    }

    fn add(&mut self, other: &Tally) {
        self.began = self.began.wrapping_add(other.began);
        self.pushed = self.pushed.wrapping_add(other.pushed);
        self.ended = self.ended.wrapping_add(other.ended);
        self.joined = self.joined.wrapping_add(other.joined);
        self.skips = self.skips.wrapping_add(other.skips);
        self.in_order = self.in_order && other.in_order;
    }

    /// Gives the answer to a Count after all these calls.
    fn counts(&self) -> Reply {
        Reply::Counts {
            began: self.began,
            pushed: self.pushed,
            ended: self.ended,
            joined: self.joined,
            skips: self.skips,
        }
    }
}

/// Makes the call of a letter, and notes its reply.
fn make<P: StreamPort>(
    alloc: Global,
    port: &mut P,
    place: u32,
    pass: &mut P::Pass,
    letter: u8,
    tally: &mut Tally,
)
    requires { P.fits port.old place pass.old }
    ensures fits { P.fits port.new place pass.new }
    ensures fixed { P.rules port.new ≡ P.rules port.old }
{
    if let Ok(call) = call_again(alloc, letter, tally.player) {
        let entry = Entry {
            who: tally.who,
            at: 0,
            call,
        };
        if let Some(reply) = until_made(port, place, pass, entry) {
            tally.note(&reply);
            return;
        }
    }
    tally.in_order = false;
}

/// Makes all calls of a thread at the place of that name, and notes their replies.
fn make_all<P: StreamPort>(alloc: Global, port: &mut P, app: &[u8], name: &[u8], tally: &mut Tally)
    ensures { P.rules port.new ≡ P.rules port.old }
{
    let Ok(place) = port.find(app, name) else {
        tally.in_order = false;
        return;
    };
    let mut pass = port.attach(place);
    for k in 0..CALLS {
        let letter = match k % 7 {
            0 => b'b',
            1 => b'j',
            2 => b'p',
            3 => b't',
            4 => b't',
            5 => b'l',
            _ => b'e',
        };
        make(alloc, port, place, &mut pass, letter, tally);
    }
    port.detach(place, pass);
}

/// Gives the answer to a Count now.
fn counts<P: StreamPort>(port: &mut P, app: &[u8], name: &[u8]) -> Option<Reply>
    ensures { P.rules port.new ≡ P.rules port.old }
{
    let place = port.find(app, name).ok()?;
    let mut pass = port.attach(place);
    let entry = Entry {
        who: 0,
        at: 0,
        call: Call::Count,
    };
    let reply = until_made(port, place, &mut pass, entry)?;
    port.detach(place, pass);
    Some(reply)
}

/// Gives the next port of a list, all of which have the same names and gates.
fn next_port(list: &mut Vec<Shared<PlaceTable>>) -> Option<Shared<PlaceTable>>
    ensures { (r : PortRules) → All (λ s. shared_rules s ≡ r) list.old.items
        → All (λ s. shared_rules s ≡ r) list.new.items × IfSome result (λ s. shared_rules s ≡ r) }
{
    list.pop()
}

type TwoPorts = (Shared<PlaceTable>, Shared<PlaceTable>);

fn next_pair(list: &mut Vec<Shared<PlaceTable>>) -> Option<TwoPorts>
    ensures { IfSome result (λ p. (r : PortRules) → All (λ s. shared_rules s ≡ r) list.old.items
        → All (λ s. shared_rules s ≡ r) list.new.items × (shared_rules p.0 ≡ r) × (shared_rules p.1 ≡ r)) }
{
    let Some(one) = next_port(list) else {
        return None;
    };
    let Some(other) = next_port(list) else {
        return None;
    };
    Some((one, other))
}

/// Makes four ports to the same gates.
fn four_ports(alloc: Global) -> Result<(TwoPorts, TwoPorts), OutOfMemory>
    ensures near { IfOk result (λ p. shared_rules p.0.1 ≡ shared_rules p.0.0) }
    ensures far { IfOk result (λ p. (shared_rules p.1.0 ≡ shared_rules p.0.0) × (shared_rules p.1.1 ≡ shared_rules p.1.0)) }
{
    let mut list = shared_ports(alloc, names(alloc)?, opens(alloc)?, LIMITS, 4)?;
    let Some(near) = next_pair(&mut list) else {
        return Err(OutOfMemory);
    };
    let Some(far) = next_pair(&mut list) else {
        return Err(OutOfMemory);
    };
    Ok((near, far))
}

/// Makes all calls of a thread, at a stream and at an open table.
fn work(
    alloc: Global,
    mut port: Shared<PlaceTable>,
    one: &mut Tally,
    two: &mut Tally,
) -> Shared<PlaceTable>
    ensures { shared_rules result ≡ shared_rules port }
{
    make_all(alloc, &mut port, b"live", b"one", one);
    make_all(alloc, &mut port, b"open", b"two", two);
    port
}

/// Runs two threads. The port that is given back has taken in the calls that the other had seen; the tallies
/// are the sums of both.
fn two_threads<R: Threads + Sync>(
    rt: &R,
    alloc: Global,
    ports: TwoPorts,
    one: &mut Tally,
    two: &mut Tally,
) -> Shared<PlaceTable>
    requires { shared_rules ports.1 ≡ shared_rules ports.0 }
    ensures { shared_rules result ≡ shared_rules ports.0 }
{
    let (mine, theirs) = ports;
    let mut third = Tally::new(one.who.wrapping_add(1));
    let mut fourth = third;
    let (mut mine, theirs) = thread::join(
        rt,
        || work(alloc, mine, one, two),
        || work(alloc, theirs, &mut third, &mut fourth),
    );
    mine.gather(theirs);
    one.add(&third);
    two.add(&fourth);
    mine
}

#[test]
fn four_threads_have_one_history_at_each_place(rt: HostRuntime) -> Result<(), Fail> {
    let alloc = rt.alloc();
    let ports = match four_ports(alloc) {
        Ok(ports) => ports,
        Err(OutOfMemory) => four_ports(alloc)?,
    };
    let (near, far) = ports;
    let mut one = Tally::new(1);
    let mut two = one;
    let mut third = Tally::new(3);
    let mut fourth = third;
    let (mut port, theirs) = thread::join(
        &rt,
        || two_threads(&rt, alloc, near, &mut one, &mut two),
        || two_threads(&rt, alloc, far, &mut third, &mut fourth),
    );
    port.gather(theirs);
    one.add(&third);
    two.add(&fourth);
    assert!(rt; one.in_order && two.in_order);
    assert!(rt; one.joined > 0 && two.joined > 0);
    assert!(rt; counts(&mut port, b"live", b"one") == Some(one.counts()));
    assert!(rt; counts(&mut port, b"open", b"two") == Some(two.counts()));
    Ok(())
}

fn digit(n: u64) -> u8 {
    b'0' + (n % 10) as u8
}

/// Writes a reply: a letter, and the last digit of each of its numbers.
fn write(out: &mut Vec<u8>, reply: &Reply) {
    let text = match reply {
        Reply::Began { n } => [b'b', digit(*n), 0, 0, 0, 0],
        Reply::InUse { by } => [b'u', digit(*by), 0, 0, 0, 0],
        Reply::Pushed { n } => [b'p', digit(*n), 0, 0, 0, 0],
        Reply::NotPublisher { live } => [b'x', digit(live.unwrap_or(0)), 0, 0, 0, 0],
        Reply::Ended { n } => [b'e', digit(*n), 0, 0, 0, 0],
        Reply::Joined { player, from } => {
            [b'j', digit(u64::from(*player)), digit(*from), 0, 0, 0]
        }
        Reply::Full => [b'f', 0, 0, 0, 0, 0],
        Reply::NotPlayer => [b'n', 0, 0, 0, 0, 0],
        Reply::Sent { from, n, item: _ } => [b's', digit(*from), digit(*n), 0, 0, 0],
        Reply::Skip { from, to } => [b'k', digit(*from), digit(*to), 0, 0, 0],
        Reply::NotYet { end } => [b'y', digit(*end), 0, 0, 0, 0],
        Reply::Left { player } => [b'l', digit(u64::from(*player)), 0, 0, 0, 0],
        Reply::Counts {
            began,
            pushed,
            ended,
            joined,
            skips,
        } => [
            b'c',
            digit(*began),
            digit(*pushed),
            digit(*ended),
            digit(*joined),
            digit(*skips),
        ],
        Reply::NoSlot { slots } => [b'o', digit(u64::from(*slots)), 0, 0, 0, 0],
    };
    for byte in text {
        if byte != 0 && out.push(byte).is_err() {
            return;
        }
    }
}

/// Gives the replies to the calls of these letters. A capital is a call of another caller.
fn replies<P: StreamPort>(
    alloc: Global,
    port: &mut P,
    place: u32,
    letters: &[u8],
) -> Result<Vec<u8>, OutOfMemory>
    requires { place < places (P.rules port.old) }
    ensures { P.rules port.new ≡ P.rules port.old }
{
    let mut out = match Vec::with_capacity(alloc, 64) {
        Ok(out) => out,
        Err(_) => Vec::with_capacity(alloc, 64)?,
    };
    let mut pass = port.attach(place);
    for letter in letters {
        let call = call_again(alloc, letter.to_ascii_lowercase(), 0)?;
        let who = if letter.is_ascii_uppercase() { 2 } else { 1 };
        let entry = Entry { who, at: 0, call };
        if let Some(reply) = until_made(port, place, &mut pass, entry) {
            write(&mut out, &reply);
        }
    }
    port.detach(place, pass);
    Ok(out)
}

fn new_sole(alloc: Global) -> Result<Sole, OutOfMemory> {
    Sole::new(alloc, names(alloc)?, opens(alloc)?, LIMITS)
}

/// Tells whether both ports give these replies to all kinds of calls at the place of that pair of names.
fn are_given(
    alloc: Global,
    sole: &mut Sole,
    shared: &mut Shared<PlaceTable>,
    app: &[u8],
    name: &[u8],
    wanted: &[u8],
) -> Result<bool, OutOfMemory> {
    let Ok(place) = sole.find(app, name) else {
        return Ok(false);
    };
    let text = replies(alloc, sole, place, LETTERS)?;
    let Ok(place) = shared.find(app, name) else {
        return Ok(false);
    };
    let other = replies(alloc, shared, place, LETTERS)?;
    Ok(text.as_slice() == wanted && other.as_slice() == wanted)
}

/// Gives the number of calls in the journal of that place, and the number of bytes that it holds.
fn kept(sole: &Sole, app: &[u8], name: &[u8]) -> Option<(usize, u64)> {
    let place = sole.find(app, name).ok()?;
    Some((sole.journal(place).len(), sole.held(place)))
}

#[test]
fn both_ports_give_the_same_replies_at_each_place(rt: HostRuntime) -> Result<(), Fail> {
    let alloc = rt.alloc();
    let mut sole = match new_sole(alloc) {
        Ok(sole) => sole,
        Err(OutOfMemory) => new_sole(alloc)?,
    };
    let ports = match four_ports(alloc) {
        Ok(ports) => ports,
        Err(OutOfMemory) => four_ports(alloc)?,
    };
    let (near, _) = ports;
    let (mut shared, _) = near;
    let stream = b"c00000x0b0u1p1x1j01s11ny2p2s22l0e3x0c12110".as_slice();
    // An open table's first name comes with two markers, and a caller that publishes nothing there is
    // answered without a live publisher.
    let open = b"c00000x0b2u1p3x0j03s33ny4p4s44l0e5x0c12110".as_slice();
    assert!(rt; sole.find(b"two", b"live").is_err());
    assert!(rt; sole.find(b"open", b"no name").is_err());
    assert!(rt; are_given(alloc, &mut sole, &mut shared, b"live", b"one", stream)?);
    assert!(rt; are_given(alloc, &mut sole, &mut shared, b"live", b"two", stream)?);
    assert!(rt; are_given(alloc, &mut sole, &mut shared, b"open", b"one", open)?);
    assert!(rt; kept(&sole, b"live", b"one") == Some((LETTERS.len(), 32)));
    assert!(rt; kept(&sole, b"open", b"one") == Some((LETTERS.len(), 32)));
    Ok(())
}
