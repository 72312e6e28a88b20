//! Reads the parts of a command that matter to a client, and skips all else.
ghost use Rattle.std.specs.Prelude.{◌≡◌, ◌⊎◌, [], Ok, Err, None, unwrap_or, MatchResult};
ghost use Rattle.amf0_value.specs.Tree.{Items};
ghost use Rattle.amf0_value.specs.Refusal.{Stops, StopsAll};
ghost use Rattle.amf0_value.specs.Reading.{Gives, Left, ReadsItems};
ghost use Rattle.rtmp_command.specs.Commands.{command_fail};
ghost use Rattle.rtmp_command.specs.Heard.{number_in_brief};
ghost use Rattle.client_owed.specs.News.{news_in, text_of};
ghost use Rattle.rtmp_client.specs.Known.{HasFourth, Knows, behind_name, behind_third, behind_transaction, bits_in_brief, fourth_of, known_of, news_by, refusal_by, status_by, text_in_brief};

use amf0_value::walk::{Brief, glance, pair, skip, skip_all};
use amf0_value::{AmfFail, Stop};
use av_unit::Bytes;
use client_owed::News;
use rtmp_command::CommandFail;
use std::alloc::Global;

/// The parts of a command's fourth value that a client reads: the pattern of the number that it is, or the
/// texts under `level`, `code` and `description` if it is an object. A text that is missing has no bytes.
#[derive(Drop)]
pub(crate) struct Fourth {
    pub number: Option<u64>,
    pub level: Bytes,
    pub code: Bytes,
    pub description: Bytes,
}

/// The parts of a command that a client reads (RTMP 1.0, section 7.2): its name, its transaction, and its
/// fourth value.
#[derive(Drop)]
pub(crate) struct Known {
    pub name: Bytes,
    pub transaction: u64,
    pub fourth: Fourth,
}

// Returns a value as a text.
fn text_in(value: Brief) -> Option<Bytes>
    ensures { result ≡ text_in_brief value }
{
    match value {
        Brief::Text(text) => Some(text),
        Brief::Number(_) => None,
        Brief::Boolean(_) => None,
        Brief::Other => None,
    }
}

// Returns a value as a number.
fn bits_in(value: &Brief) -> Option<u64>
    ensures { result ≡ bits_in_brief value.now }
{
    match value {
        Brief::Number(bits) => Some(*bits),
        Brief::Text(_) => None,
        Brief::Boolean(_) => None,
        Brief::Other => None,
    }
}

// Returns the pattern of a number. A value that isn't a number counts as the pattern 0.
fn number(value: &Brief) -> u64
    ensures { result ≡ number_in_brief value.now }
{
    match value {
        Brief::Number(bits) => *bits,
        Brief::Boolean(_) | Brief::Text(_) | Brief::Other => 0,
    }
}

// Returns the text of a pair, or no bytes.
fn text_or_none(alloc: Global, found: Option<Option<Brief>>) -> Bytes
    ensures { result ≡ unwrap_or (text_of found) [] }
{
    match found {
        Some(Some(Brief::Text(text))) => text,
        Some(Some(Brief::Number(_))) => Bytes::new(alloc),
        Some(Some(Brief::Boolean(_))) => Bytes::new(alloc),
        Some(Some(Brief::Other)) => Bytes::new(alloc),
        Some(None) => Bytes::new(alloc),
        None => Bytes::new(alloc),
    }
}

// Returns the fourth value of a command that has none.
fn nothing(alloc: Global) -> Fourth
    ensures { result ≡ fourth_of None }
{
    Fourth {
        number: None,
        level: Bytes::new(alloc),
        code: Bytes::new(alloc),
        description: Bytes::new(alloc),
    }
}

// Reads the value at the front of the bytes.
fn read_fourth(alloc: Global, bytes: &[u8]) -> Result<(Fourth, &[u8]), Stop>
    ensures { Gives (λ x. HasFourth bytes.now x.0 x.1.now) (Left (Stops 0 bytes.now)) result }
{
    let (level, _) = pair(alloc, bytes, b"level")?;
    let (code, _) = pair(alloc, bytes, b"code")?;
    let (description, _) = pair(alloc, bytes, b"description")?;
    let (value, rest) = glance(alloc, bytes, 0)?;
    let fourth = Fourth {
        number: bits_in(&value),
        level: text_or_none(alloc, level),
        code: text_or_none(alloc, code),
        description: text_or_none(alloc, description),
    };
    Ok((fourth, rest))
}

fn read(alloc: Global, body: &[u8]) -> Result<Option<Known>, Stop>
    ensures { Gives (λ o. (vs : Items) × ReadsItems 0 body.now vs [] × (o ≡ known_of vs)) (Left (StopsAll body.now)) result }
{
    if body.len() == 0 {
        return Ok(None);
    }
    let (first, rest) = glance(alloc, body, 0)?;
    match text_in(first) {
        Some(name) => {
            let known = read_behind_name(alloc, name, rest)?;
            Ok(Some(known))
        }
        None => {
            skip_all(rest)?;
            Ok(None)
        }
    }
}

fn read_behind_name(alloc: Global, name: Bytes, bytes: &[u8]) -> Result<Known, Stop>
    ensures { Gives (Knows (behind_name name) bytes.now) (Left (StopsAll bytes.now)) result }
{
    if bytes.len() == 0 {
        return Ok(Known {
            name,
            transaction: 0,
            fourth: nothing(alloc),
        });
    }
    let (second, rest) = glance(alloc, bytes, 0)?;
    let known = read_behind_transaction(alloc, name, number(&second), rest)?;
    Ok(known)
}

fn read_behind_transaction(
    alloc: Global,
    name: Bytes,
    transaction: u64,
    bytes: &[u8],
) -> Result<Known, Stop>
    ensures { Gives (Knows (behind_transaction name transaction) bytes.now) (Left (StopsAll bytes.now)) result }
{
    if bytes.len() == 0 {
        return Ok(Known {
            name,
            transaction,
            fourth: nothing(alloc),
        });
    }
    let rest = skip(bytes, 0)?;
    let known = read_behind_third(alloc, name, transaction, rest)?;
    Ok(known)
}

fn read_behind_third(
    alloc: Global,
    name: Bytes,
    transaction: u64,
    bytes: &[u8],
) -> Result<Known, Stop>
    ensures { Gives (Knows (behind_third name transaction) bytes.now) (Left (StopsAll bytes.now)) result }
{
    if bytes.len() == 0 {
        return Ok(Known {
            name,
            transaction,
            fourth: nothing(alloc),
        });
    }
    let (fourth, rest) = read_fourth(alloc, bytes)?;
    skip_all(rest)?;
    Ok(Known {
        name,
        transaction,
        fourth,
    })
}

// Returns why a body is no command.
fn no_command(fail: AmfFail) -> CommandFail
    ensures { result ≡ command_fail fail }
{
    match fail {
        AmfFail::Truncated { at } => CommandFail::BadCommand { at },
        AmfFail::BadMarker { at, byte: _ } => CommandFail::BadCommand { at },
        AmfFail::TooDeep { at } => CommandFail::BadCommand { at },
        AmfFail::BadEnd { at } => CommandFail::BadCommand { at },
        AmfFail::OutOfMemory => CommandFail::OutOfMemory,
    }
}

// Returns the news that a command brings.
fn news_of(known: Known) -> News
    ensures { result ≡ news_by known }
{
    let Known {
        name,
        transaction,
        fourth,
    } = known;
    let name = name.as_slice();
    if name == b"_result".as_slice() {
        return News::Done {
            transaction,
            number: fourth.number,
        };
    }
    if name == b"_error".as_slice() {
        return refusal(fourth);
    }
    if name == b"onStatus".as_slice() {
        return status(fourth);
    }
    News::Other
}

// Returns the news of a refusal.
fn refusal(fourth: Fourth) -> News
    ensures { result ≡ refusal_by fourth }
{
    News::Refused {
        code: fourth.code,
        description: fourth.description,
    }
}

// Returns the news that a status brings.
fn status(fourth: Fourth) -> News
    ensures { result ≡ status_by fourth }
{
    if fourth.level.as_slice() == b"error".as_slice() {
        return refusal(fourth);
    }
    News::Status(fourth.code)
}

/// Returns the news of the command in a message's body, or why the body is no command.
pub(crate) fn news(alloc: Global, body: &[u8]) -> Result<News, CommandFail>
    ensures { MatchResult result (λ n. news_in body.now ≡ Ok n) (λ e. (e ≡ CommandFail.OutOfMemory) ⊎ (news_in body.now ≡ Err e)) }
{
    match read(alloc, body) {
        Ok(Some(known)) => Ok(news_of(known)),
        Ok(None) => Err(CommandFail::BadCommand { at: 0 }),
        Err(stop) => Err(no_command(stop.placed(body.len()))),
    }
}
