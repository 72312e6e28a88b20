//! A client and the session that serves it.
ghost use Rattle.std.specs.Prelude.{◌≡◌, ◌≤◌, ◌+◌, ◌^◌, ℕ, length, true, IfErr, IfOk, OnOk};
ghost use Rattle.client_owed.specs.declared.types.Asked.{Asked as AnAsked};
ghost use Rattle.client_command.specs.Turned.{IsLive};
ghost use Rattle.relay_session.specs.Places.{IsAt};
ghost use Rattle.rtmp_client.specs.ClientState.{lasting_of};
ghost use Rattle.relay_session.specs.declared.seat_answers.Active.TheVariants.{Nothing};
ghost use Rattle.stream_registry.specs.Books.{FitsSole, SeenState, sole_rules};
ghost use Rattle.stream_registry.specs.Names.{places};
ghost use Rattle.loop_command.specs.Course.{Passes};
ghost use Rattle.loop_command.specs.Lines.{AreFew, ArePassed, ClientGoes, ClientRuns, Served, Serves};
ghost use Rattle.loop_command.specs.Newly.{IsNewLine, IsNewSession, fresh_line};
ghost use Rattle.loop_command.specs.Rounds.{LastsBy, LivesBy, TurnsClient, TurnsSession};
ghost use Rattle.loop_command.specs.declared.stop.Stop.TheVariants.{Memory};

use crate::desk::{ADDRESS, APP, LIMITS, NAME, OneStream};
use crate::stop::Stop;
use client_command::start;
use client_owed::Wish;
use relay_outside::MemLink;
use relay_session::{Active, End, Session, Turn};
use rtmp_client::{Client, ClientEnd, ClientTurn};
use std::alloc::Global;
use stream_registry::Sole;

/// The most bytes that go from one to the other.
const MOST_PASSED: u64 = 1 << 61;

/// A client and the session that serves it, the link of each, and how many bytes came from each to the other.
#[derive(Drop)]
pub struct Line {
    pub client: Client,
    pub near: MemLink,
    pub session: Session<Sole>,
    pub far: MemLink,
    pub forth: u64,
    pub back: u64,
}

// Whether a session is granted nothing.
fn is_idle(session: &Session<Sole>) -> bool
    ensures { result ≡ true → session.now.seat.active ≡ Nothing }
{
    match session.active() {
        Active::Nothing => true,
        Active::Publishes => false,
        Active::Plays { player: _ } => false,
    }
}

// A session of that name.
fn new_session(alloc: Global, who: u64) -> Result<Session<Sole>, Stop>
    ensures new { IfOk result (IsNewSession who) }
    ensures err { IfErr result (λ stop. stop ≡ Memory) }
{
    let session: Session<Sole> = Session::new(alloc, who, LIMITS);
    // It is granted nothing, which its contract doesn't tell.
    if is_idle(&session) {
        return Ok(session);
    }
    drop(session);
    Err(Stop::Memory)
}

// A client and a session of which nothing was done.
fn line_of(alloc: Global, client: Client, session: Session<Sole>) -> Line
    ensures { result ≡ fresh_line client session }
{
    Line {
        client,
        near: MemLink::new(alloc),
        session,
        far: MemLink::new(alloc),
        forth: 0,
        back: 0,
    }
}

/// A client that asks for the stream, and a session of that name.
pub(crate) fn new_line(alloc: Global, wish: Wish, who: u64) -> Result<Line, Stop>
    ensures new { IfOk result (IsNewLine wish who) }
    ensures err { IfErr result (λ stop. stop ≡ Memory) }
{
    let session = new_session(alloc, who)?;
    match start(alloc, wish, ADDRESS, APP, NAME) {
        Ok(client) => Ok(line_of(alloc, client, session)),
        Err(_) => {
            drop(session);
            Err(Stop::Memory)
        }
    }
}

fn size_of(piece: &[u8]) -> u64
    ensures { result ≡ length piece.now }
{
    piece.len() as u64
}

// Hands on the bytes that a link took, as one piece, after `total` bytes that were handed on before.
// Returns the number of bytes handed on then.
fn pass(from: &mut MemLink, to: &mut MemLink, total: u64) -> Result<u64, Stop>
    requires { total ≤ 2 ^ 61 }
    ensures passed { OnOk result (Passes from.old to.old from.new to.new) }
    ensures total { IfOk result (λ n. n ≡ total + length from.old.sent) }
    ensures few { IfOk result (λ n. n ≤ 2 ^ 61) }
    ensures err { IfErr result (λ stop. stop ≡ Memory) }
{
    let piece = from.take_sent();
    let count = size_of(&piece);
    if count == 0 {
        return Ok(total);
    }
    if count > MOST_PASSED - total {
        return Err(Stop::Memory);
    }
    match to.give(piece) {
        Ok(()) => Ok(total + count),
        Err(_) => Err(Stop::Memory),
    }
}

// Whether a client lives after a turn; else it has sent all that it owed.
fn lives_after(answer: ClientTurn, client: &Client) -> Result<bool, Stop>
    ensures { LivesBy result answer client.now.ended }
{
    match answer {
        ClientTurn::Moved => Ok(true),
        ClientTurn::Idle => Ok(true),
        ClientTurn::Ended => match client.end() {
            Some(ClientEnd::Done) => Ok(false),
            Some(ClientEnd::OutOfMemory) => Err(Stop::Memory),
            Some(ClientEnd::PeerClosed) => Err(Stop::Unfinished),
            Some(ClientEnd::LinkFault) => Err(Stop::Unfinished),
            Some(ClientEnd::BadVersion { at: _ }) => Err(Stop::Unfinished),
            Some(ClientEnd::BadChunk { cause: _, at: _ }) => Err(Stop::Unfinished),
            Some(ClientEnd::BadControl { at: _ }) => Err(Stop::Unfinished),
            Some(ClientEnd::BadCommand { at: _ }) => Err(Stop::Unfinished),
            Some(ClientEnd::Refused { .. }) => Err(Stop::Unfinished),
            None => Err(Stop::Unfinished),
        },
    }
}

/// Takes a turn of the client. The bytes that its link took come to the session. Returns whether it lives;
/// else it has sent all that it owed.
pub(crate) fn turn_client(alloc: Global, line: &mut Line) -> Result<bool, Stop>
    requires few { AreFew line.old }
    ensures few { OnOk result (AreFew line.new) }
    ensures passed { ArePassed line.old → OnOk result (ArePassed line.new) }
    ensures live { IsLive line.old.client → IfOk result (λ lives. lives ≡ true → IsLive line.new.client) }
    ensures lasts { lasting_of line.new.client.parts ≡ lasting_of line.old.client.parts }
    ensures session { line.new.session ≡ line.old.session }
    ensures goes { (k : AnAsked) → ClientRuns k line.old.client line.old.near
        → IfOk result (λ lives. ClientGoes lives k line.old.client line.new.client line.new.near) }
    ensures turned { TurnsClient result line.old line.new }
{
    let answer = line.client.turn(alloc, &mut line.near);
    let lives = lives_after(answer, &line.client)?;
    line.forth = pass(&mut line.near, &mut line.far, line.forth)?;
    Ok(lives)
}

// Whether a session lives after a turn. That a stream can count no more calls is want of memory.
fn lasts_after(answer: Turn) -> Result<(), Stop>
    ensures { LastsBy result answer }
{
    match answer {
        Turn::Moved => Ok(()),
        Turn::Idle => Ok(()),
        Turn::Ended(end) => match end {
            End::OutOfMemory => Err(Stop::Memory),
            End::Worn => Err(Stop::Memory),
            End::PeerClosed => Err(Stop::Unfinished),
            End::LinkFault => Err(Stop::Unfinished),
            End::BadVersion { at: _ } => Err(Stop::Unfinished),
            End::BadChunk { cause: _, at: _ } => Err(Stop::Unfinished),
            End::BadControl { at: _ } => Err(Stop::Unfinished),
            End::BadCommand { at: _ } => Err(Stop::Unfinished),
            End::TooManyStreams { at: _ } => Err(Stop::Unfinished),
            End::Quit => Err(Stop::Unfinished),
        },
    }
}

/// Takes a turn of the session. The bytes that its link took come to the client.
pub(crate) fn turn_session(alloc: Global, line: &mut Line, port: &mut Sole) -> Result<(), Stop>
    requires few { AreFew line.old }
    requires one { places (sole_rules port.old.rules) ≡ 1 }
    requires at { IsAt (FitsSole port.old) (places (sole_rules port.old.rules)) line.old.session.parts line.old.session.seat }
    ensures few { OnOk result (AreFew line.new) }
    ensures at { OnOk result (IsAt (FitsSole port.new) (places (sole_rules port.new.rules)) line.new.session.parts line.new.session.seat) }
    ensures rules { sole_rules port.new.rules ≡ sole_rules port.old.rules }
    ensures passes { (place : ℕ) (pass : SeenState) → FitsSole port.old place pass → FitsSole port.new place pass }
    ensures goes { (who : ℕ) → Serves who port.old line.old.session line.old.far → ArePassed line.old → OnOk result (Served who port.old port.new line.new) }
    ensures turned { TurnsSession result port.old port.new line.old line.new }
{
    let answer = line.session.turn(alloc, port, &mut line.far, &OneStream);
    lasts_after(answer)?;
    line.back = pass(&mut line.far, &mut line.near, line.back)?;
    Ok(())
}
