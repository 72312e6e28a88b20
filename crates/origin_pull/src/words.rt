//! Why an edge has ended, in words.
ghost use Rattle.std.specs.Prelude.{◌≡◌, IfOk, string_bytes};
ghost use Rattle.origin_pull.specs.Words.{at_text, cause_text, client_text, end_text};

use crate::EdgeEnd;
use av_unit::OutOfMemory;
use chunk_reader::ReadCause;
use rtmp_client::ClientEnd;
use std::alloc::Global;

fn cause_text(cause: ReadCause) -> &'static str
    ensures { result.now ≡ cause_text cause }
{
    match cause {
        ReadCause::NoHead { id: _ } => "nohead",
        ReadCause::TooManyIds => "toomanyids",
        ReadCause::TooLong { length: _ } => "toolong",
        ReadCause::TooMuch => "toomuch",
        ReadCause::BadChunkSize { value: _ } => "badchunksize",
        ReadCause::OutOfMemory => "outofmemory",
        ReadCause::TooFar => "toofar",
    }
}

// Returns a word and a place.
fn at_text(alloc: Global, word: &str, at: u64) -> Result<String, OutOfMemory>
    ensures { IfOk result (λ text. string_bytes text ≡ at_text word.now at) }
{
    Ok(format!(in alloc; "{word} {at}")?)
}

fn bad_chunk_text(alloc: Global, cause: ReadCause, at: u64) -> Result<String, OutOfMemory>
    ensures { IfOk result (λ text. string_bytes text ≡ client_text (Some (ClientEnd.BadChunk cause at))) }
{
    let cause = cause_text(cause);
    Ok(format!(in alloc; "badchunk {cause} {at}")?)
}

// Returns why a client has ended.
fn client_text(alloc: Global, end: &Option<ClientEnd>) -> Result<String, OutOfMemory>
    ensures { IfOk result (λ text. string_bytes text ≡ client_text end.now) }
{
    match end {
        None => Ok(format!(in alloc; "none")?),
        Some(ClientEnd::PeerClosed) => Ok(format!(in alloc; "peerclosed")?),
        Some(ClientEnd::LinkFault) => Ok(format!(in alloc; "linkfault")?),
        Some(ClientEnd::BadVersion { at }) => at_text(alloc, "badversion", *at),
        Some(ClientEnd::BadChunk { cause, at }) => bad_chunk_text(alloc, *cause, *at),
        Some(ClientEnd::BadControl { at }) => at_text(alloc, "badcontrol", *at),
        Some(ClientEnd::BadCommand { at }) => at_text(alloc, "badcommand", *at),
        Some(ClientEnd::Refused { .. }) => Ok(format!(in alloc; "refused")?),
        Some(ClientEnd::Done) => Ok(format!(in alloc; "done")?),
        Some(ClientEnd::OutOfMemory) => Ok(format!(in alloc; "outofmemory")?),
    }
}

/// Returns the text of a report for an edge that has ended, with its client's end: a word, followed by the
/// place if it has one, as `badchunk toolong 3120`.
pub fn end_text(
    alloc: Global,
    end: EdgeEnd,
    client: &Option<ClientEnd>,
) -> Result<String, OutOfMemory>
    ensures { IfOk result (λ text. string_bytes text ≡ end_text end client.now) }
{
    match end {
        EdgeEnd::Client => client_text(alloc, client),
        EdgeEnd::InUse { by: _ } => Ok(format!(in alloc; "inuse")?),
        EdgeEnd::Worn => Ok(format!(in alloc; "worn")?),
        EdgeEnd::OutOfMemory => Ok(format!(in alloc; "outofmemory")?),
        EdgeEnd::NoSlot => Ok(format!(in alloc; "noslot")?),
        EdgeEnd::Closed => Ok(format!(in alloc; "closed")?),
    }
}
