ghost use Rattle.std.specs.Prelude.{◌≡◌, ◌⊎◌, IfErr, IfOk};
ghost use Rattle.client_command.specs.Closing.{IsLost, IsRefusal, MayTell, Tells, how_by, how_of};
ghost use Rattle.client_command.specs.Ends.{ByMemory, client_status, no_refusal, refusal_in};

use crate::stop::Stop;
use av_unit::{Bytes, OutOfMemory};
use relay_base::Status;
use rtmp_client::ClientEnd;
use std::alloc::Global;

/// The words by which a server refused a client: the code and the description of its answer. There are no bytes
/// if it didn't refuse, or didn't tell them.
#[derive(Drop)]
pub struct Refusal {
    pub code: Bytes,
    pub description: Bytes,
}

/// The ending of a command: its status, and the words by which the server refused the client.
#[derive(Drop)]
pub struct Ended {
    pub status: Status,
    pub refusal: Refusal,
}

/// It ended with this code, and no place.
pub(crate) fn with_code(alloc: Global, code: u8) -> Ended
    ensures { result ≡ record { status = record { code = code; place = 0 }; refusal = no_refusal } }
{
    with_place(alloc, code, 0)
}

// It ended with this code at a place.
fn with_place(alloc: Global, code: u8, place: u64) -> Ended
    ensures { result ≡ record { status = record { code = code; place = place }; refusal = no_refusal } }
{
    Ended {
        status: Status { code, place },
        refusal: Refusal {
            code: Bytes::new(alloc),
            description: Bytes::new(alloc),
        },
    }
}

// Copies the words of a refusal.
fn words_of(code: &Bytes, description: &Bytes) -> Result<Refusal, OutOfMemory>
    ensures { IfOk result (λ words. words ≡ record { code = code.now; description = description.now }) }
{
    let code = code.again()?;
    let description = description.again()?;
    Ok(Refusal { code, description })
}

// By the end of the client.
fn by_client(alloc: Global, end: &ClientEnd) -> Result<Ended, OutOfMemory>
    ensures ok { IfOk result (λ e. e ≡ record { status = client_status end.now; refusal = refusal_in end.now }) }
    ensures err { IfErr result (λ _. IsLost end.now) }
{
    match end {
        ClientEnd::PeerClosed => Ok(with_code(alloc, 10)),
        ClientEnd::LinkFault => Ok(with_code(alloc, 11)),
        ClientEnd::BadVersion { at } => Ok(with_place(alloc, 12, *at)),
        ClientEnd::BadChunk { cause: _, at } => Ok(with_place(alloc, 12, *at)),
        ClientEnd::BadControl { at } => Ok(with_place(alloc, 12, *at)),
        ClientEnd::BadCommand { at } => Ok(with_place(alloc, 12, *at)),
        ClientEnd::Refused { code, description } => Ok(Ended {
            status: Status { code: 13, place: 0 },
            refusal: words_of(code, description)?,
        }),
        ClientEnd::Done => Ok(with_code(alloc, 0)),
        ClientEnd::OutOfMemory => Ok(with_code(alloc, 6)),
    }
}

// By the end of the client, if it has ended.
fn by_end(alloc: Global, end: &Option<ClientEnd>) -> Result<Ended, OutOfMemory>
    ensures { MayTell result (how_by end.now) }
{
    match end {
        Some(end) => by_client(alloc, end),
        None => Ok(with_code(alloc, 6)),
    }
}

/// Returns the ending of a command, by its outcome and its client's ending.
pub(crate) fn tell_end(alloc: Global, end: &Option<ClientEnd>, run: Result<(), Stop>) -> Ended
    ensures { Tells (how_of run end.now) result ⊎ (IsRefusal (how_of run end.now) × Tells ByMemory result) }
{
    match run {
        Ok(()) => with_code(alloc, 0),
        Err(Stop::Refused { at }) => with_place(alloc, 4, at),
        Err(Stop::Source) => with_code(alloc, 3),
        Err(Stop::Sink) => with_code(alloc, 5),
        Err(Stop::Memory) => with_code(alloc, 6),
        Err(Stop::Client) => match by_end(alloc, end) {
            Ok(ended) => ended,
            Err(_) => with_code(alloc, 6),
        },
    }
}
