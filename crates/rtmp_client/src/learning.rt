//! The effects of news on a client: each of the three answers counts once, in its turn.
ghost use Rattle.std.specs.Prelude.{◌≡◌, ◌≤◌, ◌+◌, ◌*◌, ◌∷◌, [], OnErr, OnOk};
ghost use Rattle.client_owed.specs.declared.types.Asked.{Asked as TheAsked};
ghost use Rattle.client_owed.specs.declared.types.Phase.TheVariants as phase;
ghost use Rattle.client_owed.specs.Client.{ask as ask_of, chunk_size, create_stream as create_of, created as created_by, learns, start_code as code_of};
ghost use Rattle.rtmp_client.specs.Keeping.{IsNamed};
ghost use Rattle.rtmp_client.specs.Known.{id_in};
ghost use Rattle.rtmp_client.specs.Learning.{said_between, said_due};
ghost use Rattle.rtmp_client.specs.Owing.{Apart, Says};

use crate::Outgoing;
use crate::spelled::{ask, create_stream};
use ack_window::{Control, control_message};
use amf0_value::bits_of;
use av_unit::OutOfMemory;
use client_owed::{Asked, News, Phase, Wish};
use std::alloc::Global;

// The number of bytes of payload in the chunks of a connected client.
const CHUNK_SIZE: u32 = 4_096;

// Returns the number with this pattern as a message stream id, if it is one.
fn id_of(bits: u64) -> Option<u32>
    ensures { result ≡ id_in bits }
{
    let exponent = bits >> 52;
    if exponent < 1023 {
        return None;
    }
    if exponent > 1075 {
        return None;
    }
    let whole = ((1u64 << 52) + bits % (1u64 << 52)) >> (1075 - exponent);
    if whole < 1 {
        return None;
    }
    if whole >= 1 << 32 {
        return None;
    }
    if bits_of(whole) == bits {
        Some(whole as u32)
    } else {
        None
    }
}

// Returns the code of the status by which the publish or play has started (7.2.2).
fn start_code(wish: Wish) -> &'static [u8]
    ensures { result.now ≡ code_of wish }
{
    match wish {
        Wish::Push => b"NetStream.Publish.Start",
        Wish::Pull => b"NetStream.Play.Start",
    }
}

// Returns the phase after the answer to `createStream`.
fn created(number: Option<u64>) -> Phase
    ensures { (k : TheAsked) → result ≡ (created_by k number).phase }
{
    match number {
        None => Phase::Creating,
        Some(bits) => match id_of(bits) {
            None => Phase::Creating,
            Some(id) => Phase::Asking(id),
        },
    }
}

// Returns the next phase if `connect` was sent.
fn behind_connect(news: &News) -> Phase
    ensures { (k : TheAsked) → result ≡ (learns k phase.Connecting news.now).phase }
{
    match news {
        News::Done {
            transaction,
            number: _,
        } => {
            if *transaction == bits_of(1) {
                Phase::Creating
            } else {
                Phase::Connecting
            }
        }
        News::Refused { .. } => Phase::Connecting,
        News::Status(_) => Phase::Connecting,
        News::Other => Phase::Connecting,
    }
}

// Returns the next phase if `createStream` was sent.
fn behind_create(news: &News) -> Phase
    ensures { (k : TheAsked) → result ≡ (learns k phase.Creating news.now).phase }
{
    match news {
        News::Done {
            transaction,
            number,
        } => {
            if *transaction == bits_of(2) {
                created(*number)
            } else {
                Phase::Creating
            }
        }
        News::Refused { .. } => Phase::Creating,
        News::Status(_) => Phase::Creating,
        News::Other => Phase::Creating,
    }
}

// Returns the next phase if `publish` or `play` was sent.
fn behind_ask(wish: Wish, id: u32, news: &News) -> Phase
    ensures { (k : TheAsked) → k.wish ≡ wish → result ≡ (learns k (phase.Asking id) news.now).phase }
{
    match news {
        News::Status(code) => {
            if code.as_slice() == start_code(wish) {
                Phase::Started(id)
            } else {
                Phase::Asking(id)
            }
        }
        News::Done {
            transaction: _,
            number: _,
        } => Phase::Asking(id),
        News::Refused { .. } => Phase::Asking(id),
        News::Other => Phase::Asking(id),
    }
}

// Returns the phase after this news.
fn next_phase(asked: &Asked, phase: Phase, news: &News) -> Phase
    ensures { result ≡ (learns asked.now phase news.now).phase }
{
    match phase {
        Phase::Connecting => behind_connect(news),
        Phase::Creating => behind_create(news),
        Phase::Asking(id) => behind_ask(asked.wish, id, news),
        Phase::Started(id) => Phase::Started(id),
    }
}

// Announces the chunk size and asks for a message stream.
fn say_create(alloc: Global, outgoing: &mut Outgoing) -> Result<(), OutOfMemory>
    ensures said { OnOk result (Says outgoing.old (chunk_size ∷ create_of ∷ []) outgoing.new) }
    ensures light { 16 * outgoing.new.others ≤ 16 * outgoing.old.others + 5600 }
    ensures apart { Apart outgoing.old outgoing.new }
{
    let size = control_message(alloc, Control::ChunkSize(CHUNK_SIZE))?;
    let create = create_stream(alloc)?;
    outgoing.say(&size)?;
    outgoing.say(&create)
}

// Asks for the stream.
fn say_ask(
    alloc: Global,
    asked: &Asked,
    id: u32,
    outgoing: &mut Outgoing,
) -> Result<(), OutOfMemory>
    requires { IsNamed asked.now }
    ensures said { OnOk result (Says outgoing.old (ask_of asked.now id ∷ []) outgoing.new) }
    ensures light { 16 * outgoing.new.others ≤ 16 * outgoing.old.others + 5600 }
    ensures apart { Apart outgoing.old outgoing.new }
{
    let message = ask(alloc, asked, id)?;
    outgoing.say(&message)
}

// The messages that are due between two phases.
enum Due {
    Nothing,
    Create,
    Ask(u32),
}

// Returns the messages that are due between two phases.
fn due_between(from: Phase, to: Phase) -> Due
    ensures { (k : TheAsked) → said_between k from to ≡ said_due k result }
{
    match from {
        Phase::Connecting => match to {
            Phase::Creating => Due::Create,
            Phase::Connecting => Due::Nothing,
            Phase::Asking(_) => Due::Nothing,
            Phase::Started(_) => Due::Nothing,
        },
        Phase::Creating => match to {
            Phase::Asking(id) => Due::Ask(id),
            Phase::Connecting => Due::Nothing,
            Phase::Creating => Due::Nothing,
            Phase::Started(_) => Due::Nothing,
        },
        Phase::Asking(_) => Due::Nothing,
        Phase::Started(_) => Due::Nothing,
    }
}

// Says the messages that are due.
fn say_due(
    alloc: Global,
    asked: &Asked,
    due: Due,
    outgoing: &mut Outgoing,
) -> Result<(), OutOfMemory>
    requires { IsNamed asked.now }
    ensures said { OnOk result (Says outgoing.old (said_due asked.now due) outgoing.new) }
    ensures light { 16 * outgoing.new.others ≤ 16 * outgoing.old.others + 5600 }
    ensures apart { Apart outgoing.old outgoing.new }
{
    match due {
        Due::Nothing => Ok(()),
        Due::Create => say_create(alloc, outgoing),
        Due::Ask(id) => say_ask(alloc, asked, id, outgoing),
    }
}

/// Moves to the phase after this news, and says the messages that are due then.
pub(crate) fn learn(
    alloc: Global,
    asked: &Asked,
    news: &News,
    phase: &mut Phase,
    outgoing: &mut Outgoing,
) -> Result<(), OutOfMemory>
    requires { IsNamed asked.now }
    ensures phase { OnOk result (phase.new ≡ (learns asked.now phase.old news.now).phase) }
    ensures said { OnOk result (Says outgoing.old (learns asked.now phase.old news.now).says outgoing.new) }
    ensures still { OnErr result (phase.new ≡ phase.old) }
    ensures light { 16 * outgoing.new.others ≤ 16 * outgoing.old.others + 5600 }
    ensures apart { Apart outgoing.old outgoing.new }
{
    let next = next_phase(asked, *phase, news);
    say_due(alloc, asked, due_between(*phase, next), outgoing)?;
    *phase = next;
    Ok(())
}
