ghost use Rattle.std.specs.Prelude.{◌≡◌, ◌⊎◌, [], None, Some, IfOk, IfErr, MatchResult};
ghost use Rattle.amf0_value.specs.Tree.{Items};
ghost use Rattle.amf0_value.specs.View.{tree, items_of, seen_values, items_view};
ghost use Rattle.amf0_value.specs.Spelling.{ItemsSpelled, AllFit};
ghost use Rattle.amf0_value.specs.Refusal.{RefusesAll};
ghost use Rattle.amf0_value.specs.Laws.{offset_of};
ghost use Rattle.amf0_value.specs.declared.fail.AmfFail.{AmfFail};
ghost use Rattle.rtmp_command.specs.Commands.{parts_of, parts_behind, seen, transaction_of, IsNoCommand, command_fail};

use amf0_value::{Amf, AmfFail, AmfList, decode_all};
use av_unit::Bytes;
use std::alloc::Global;
use thiserror::Error;

/// A command of a peer (RTMP 1.0, section 7.2): a name, the transaction by which the peer knows the answer,
/// and arguments.
#[derive(Drop)]
pub struct Command {
    pub name: Bytes,
    /// The pattern of the transaction's number; 0 if the second value isn't a number.
    pub transaction: u64,
    /// The values from the third on.
    pub args: AmfList,
}

/// The reason for which a body is no command.
#[derive(Clone, Copy, Debug, Error)]
pub enum CommandFail {
    /// The place is the one at which `decode_all` refuses the body, or 0 if its first value is no text.
    #[error("no command, at byte {at}")]
    BadCommand { at: usize },
    #[error("out of memory")]
    OutOfMemory,
}

/// Reads the command in a message's body: AMF0 values to its end, of which the first is a text.
pub fn command_of(alloc: Global, body: &[u8]) -> Result<Command, CommandFail>
    // The values of the body, as a command.
    ensures found { IfOk result (λ c. (vs : Items) × ItemsSpelled vs body.now [] × AllFit vs × (parts_of vs ≡ Some (seen c))) }

    // The refusal and its place.
    ensures refused { IfErr result (λ e. (e ≡ CommandFail.OutOfMemory) ⊎ IsNoCommand body.now e) }

    // Values that fill the body are read, and a refusal that stands in it is answered.
    ensures only { (vs : Items) → ItemsSpelled vs body.now [] → AllFit vs
        → MatchResult result (λ c. parts_of vs ≡ Some (seen c)) (λ e. (e ≡ CommandFail.OutOfMemory) ⊎ ((e ≡ CommandFail.BadCommand 0) × (parts_of vs ≡ None))) }
    ensures exact { (f : AmfFail) → RefusesAll body.now f
        → MatchResult result (λ _. ⊥) (λ e. (e ≡ CommandFail.OutOfMemory) ⊎ (e ≡ CommandFail.BadCommand (offset_of f))) }
{
    match decode_all(alloc, body) {
        Ok(list) => command_in(list),
        Err(fail) => Err(refused(fail)),
    }
}

pub(crate) fn refused(fail: AmfFail) -> CommandFail
    ensures { result ≡ command_fail fail }
{
    match fail {
        AmfFail::Truncated { at } => CommandFail::BadCommand { at },
        AmfFail::BadMarker { at, byte: _ } => CommandFail::BadCommand { at },
        AmfFail::TooDeep { at } => CommandFail::BadCommand { at },
        AmfFail::BadEnd { at } => CommandFail::BadCommand { at },
        AmfFail::OutOfMemory => CommandFail::OutOfMemory,
    }
}

/// Makes the command of these values.
fn command_in(list: AmfList) -> Result<Command, CommandFail>
    ensures { MatchResult result (λ c. parts_of (items_view list) ≡ Some (seen c)) (λ e. (e ≡ CommandFail.BadCommand 0) × (parts_of (items_view list) ≡ None)) }
{
    let mut values = list.into_vec();
    if values.is_empty() {
        return Err(CommandFail::BadCommand { at: 0 });
    }
    let first = values.remove(0);
    match first.into_text() {
        Some(name) => Ok(command_behind(name, values)),
        None => Err(CommandFail::BadCommand { at: 0 }),
    }
}

/// Makes the command of that name whose other values are these.
fn command_behind(name: Bytes, mut values: Vec<Amf>) -> Command
    ensures { seen result ≡ parts_behind name (items_of (seen_values values.items)) }
{
    if values.is_empty() {
        return Command {
            name,
            transaction: 0,
            args: AmfList::from_vec(values),
        };
    }
    let second = values.remove(0);
    let transaction = transaction(&second);
    Command {
        name,
        transaction,
        args: AmfList::from_vec(values),
    }
}

fn transaction(value: &Amf) -> u64
    ensures { result ≡ transaction_of (tree value.now) }
{
    value.as_number().unwrap_or(0)
}
