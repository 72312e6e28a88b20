//! The decision on a request.
ghost use Rattle.std.specs.Prelude.{◌≡◌, IfOk};
ghost use Rattle.http_request.specs.Targets.{is_get_method, plain};
ghost use Rattle.http_request.specs.Heads.{IsRead, read_as};
ghost use Rattle.http_flv.specs.Out as out;
ghost use Rattle.http_flv.specs.Deciding.{IsDecided, decided};

use av_unit::{Bytes, OutOfMemory};
use command_dialog::{Ask, Grant, Role};
use http_request::{Head, Names, Refusal, is_get, names_in, read_head};
use relay_session::Desk;
use std::alloc::Global;

/// The decision on a request.
#[derive(Drop)]
pub enum Decision {
    /// Nothing yet.
    Later,
    /// It is refused.
    Tell(Refusal),
    /// The broadcast of that name at this place is joined.
    Join { place: u32, name: Bytes },
}

// Copies a text.
fn bytes_of(alloc: Global, text: &[u8]) -> Result<Bytes, OutOfMemory>
    ensures { IfOk result (λ bytes. bytes ≡ text.now) }
{
    let mut bytes = Bytes::new(alloc);
    bytes.append(text)?;
    Ok(bytes)
}

// Returns the question to the desk for a play of these names.
fn ask_of(alloc: Global, names: &Names<'_>) -> Result<Ask, OutOfMemory>
    ensures { IfOk result (λ ask. ask ≡ out.ask_of (record { app = names.now.app.now; name = names.now.name.now; key = names.now.key.now })) }
{
    Ok(Ask {
        role: Role::Play,
        app: bytes_of(alloc, names.app)?,
        name: bytes_of(alloc, names.name)?,
        key: bytes_of(alloc, names.key)?,
    })
}

// Returns the decision for a grant on the request for a broadcast of that name.
fn by_grant(name: Bytes, grant: Grant) -> Decision
    ensures { decided result ≡ out.by_grant name grant }
{
    match grant {
        Grant::NoName => Decision::Tell(Refusal::NotFound),
        Grant::Refused => Decision::Tell(Refusal::Forbidden),
        Grant::Place(place) => Decision::Join { place, name },
    }
}

// Returns the decision for these names.
fn by_names<D: Desk>(
    alloc: Global,
    desk: &D,
    names: Option<Names<'_>>,
) -> Result<Decision, OutOfMemory>
    ensures { IfOk result (λ d. decided d ≡ out.by_target (D.grants desk.now) (plain names.entry)) }
{
    match names {
        None => Ok(Decision::Tell(Refusal::NotFound)),
        Some(names) => {
            let ask = ask_of(alloc, &names)?;
            let grant = desk.grant(&ask);
            let Ask { name, .. } = ask;
            Ok(by_grant(name, grant))
        }
    }
}

// Returns the decision for a method and a target.
fn by_line<D: Desk>(
    alloc: Global,
    desk: &D,
    method: &[u8],
    target: &[u8],
) -> Result<Decision, OutOfMemory>
    ensures { IfOk result (λ d. decided d ≡ out.by_method (D.grants desk.now) (is_get_method method.now) target.now) }
{
    if is_get(method) {
        by_names(alloc, desk, names_in(target))
    } else {
        Ok(Decision::Tell(Refusal::MethodNotAllowed))
    }
}

/// Returns the decision on the request that these bytes begin: the first that applies of 400, 405, 404 and
/// 403, else its Join.
pub(crate) fn decide<D: Desk>(
    alloc: Global,
    desk: &D,
    received: &[u8],
) -> Result<Decision, OutOfMemory>
    ensures { IfOk result (λ d. IsDecided (D.grants desk.now) received.now (decided d)) }
{
    match read_head(received) {
        Head::Unfinished => Ok(Decision::Later),
        Head::Refused => Ok(Decision::Tell(Refusal::BadRequest)),
        Head::Asks { method, target } => by_line(alloc, desk, method, target),
    }
}
