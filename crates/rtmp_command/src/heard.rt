ghost use Rattle.std.specs.Prelude.{◌≡◌, ◌⊎◌, [], Ok, Err, MatchResult};
ghost use Rattle.amf0_value.specs.Tree.{Items};
ghost use Rattle.amf0_value.specs.Refusal.{StopsAll};
ghost use Rattle.amf0_value.specs.Reading.{Gives, Left, ReadsItems};
ghost use Rattle.rtmp_command.specs.Heard.{heard_in, heard_of, behind_name, behind_transaction, behind_third, number_in_brief, app_of, Hears};

use crate::command::{CommandFail, refused};
use amf0_value::Stop;
use amf0_value::walk::{Brief, glance, pair, skip_all};
use av_unit::Bytes;
use std::alloc::Global;

/// The parts of a command that the dialogue uses (RTMP 1.0, section 7.2).
#[derive(Drop)]
pub struct Heard {
    pub name: Bytes,
    /// The pattern of the transaction's number; 0 if the second value isn't a number.
    pub transaction: u64,
    /// If the third value is an object: the text of its first pair `app`, or no bytes.
    pub app: Option<Bytes>,
    /// The fourth value.
    pub fourth: Brief,
}

/// Reads the parts that the dialogue uses of the command in a message's body, and skips all else.
pub fn hear(alloc: Global, body: &[u8]) -> Result<Heard, CommandFail>
    ensures { MatchResult result (λ h. heard_in body.now ≡ Ok h) (λ e. (e ≡ CommandFail.OutOfMemory) ⊎ (heard_in body.now ≡ Err e)) }
{
    match hear_by(alloc, body) {
        Ok(Some(heard)) => Ok(heard),
        Ok(None) => Err(CommandFail::BadCommand { at: 0 }),
        Err(stop) => Err(refused(stop.placed(body.len()))),
    }
}

fn hear_by(alloc: Global, body: &[u8]) -> Result<Option<Heard>, Stop>
    ensures { Gives (λ o. (vs : Items) × ReadsItems 0 body.now vs [] × (o ≡ heard_of vs)) (Left (StopsAll body.now)) result }
{
    if body.len() == 0 {
        return Ok(None);
    }
    let (first, rest) = glance(alloc, body, 0)?;
    match first {
        Brief::Text(name) => {
            let heard = hear_behind_name(alloc, name, rest)?;
            Ok(Some(heard))
        }
        Brief::Number(_) => {
            skip_all(rest)?;
            Ok(None)
        }
        Brief::Boolean(_) => {
            skip_all(rest)?;
            Ok(None)
        }
        Brief::Other => {
            skip_all(rest)?;
            Ok(None)
        }
    }
}

fn hear_behind_name(alloc: Global, name: Bytes, bytes: &[u8]) -> Result<Heard, Stop>
    ensures { Gives (Hears (behind_name name) bytes.now) (Left (StopsAll bytes.now)) result }
{
    if bytes.len() == 0 {
        return Ok(Heard {
            name,
            transaction: 0,
            app: None,
            fourth: Brief::Other,
        });
    }
    let (second, rest) = glance(alloc, bytes, 0)?;
    let heard = hear_behind_transaction(alloc, name, number(&second), rest)?;
    Ok(heard)
}

fn hear_behind_transaction(
    alloc: Global,
    name: Bytes,
    transaction: u64,
    bytes: &[u8],
) -> Result<Heard, Stop>
    ensures { Gives (Hears (behind_transaction name transaction) bytes.now) (Left (StopsAll bytes.now)) result }
{
    if bytes.len() == 0 {
        return Ok(Heard {
            name,
            transaction,
            app: None,
            fourth: Brief::Other,
        });
    }
    let (third, rest) = pair(alloc, bytes, b"app")?;
    let heard = hear_behind_third(alloc, name, transaction, app(alloc, third), rest)?;
    Ok(heard)
}

fn hear_behind_third(
    alloc: Global,
    name: Bytes,
    transaction: u64,
    app: Option<Bytes>,
    bytes: &[u8],
) -> Result<Heard, Stop>
    ensures { Gives (Hears (behind_third name transaction app) bytes.now) (Left (StopsAll bytes.now)) result }
{
    if bytes.len() == 0 {
        return Ok(Heard {
            name,
            transaction,
            app,
            fourth: Brief::Other,
        });
    }
    let (fourth, rest) = glance(alloc, bytes, 0)?;
    skip_all(rest)?;
    Ok(Heard {
        name,
        transaction,
        app,
        fourth,
    })
}

fn number(value: &Brief) -> u64
    ensures { result ≡ number_in_brief value.now }
{
    match value {
        Brief::Number(bits) => *bits,
        Brief::Boolean(_) | Brief::Text(_) | Brief::Other => 0,
    }
}

fn app(alloc: Global, third: Option<Option<Brief>>) -> Option<Bytes>
    ensures { result ≡ app_of third }
{
    match third {
        None => None,
        Some(Some(Brief::Text(text))) => Some(text),
        Some(Some(Brief::Number(_))) => Some(Bytes::new(alloc)),
        Some(Some(Brief::Boolean(_))) => Some(Bytes::new(alloc)),
        Some(Some(Brief::Other)) => Some(Bytes::new(alloc)),
        Some(None) => Some(Bytes::new(alloc)),
    }
}
