ghost use Rattle.std.specs.Prelude.{◌≡◌, ◌++◌, ℕ, OnOk, OnErr, IfOk, string_bytes};
ghost use Rattle.stream_model.specs.declared.replies.Reply.{Reply};
ghost use Rattle.relay_script.specs.OneLine.{IsOneLine, IsReply, IsU64};
ghost use Rattle.relay_script.specs.Texts.{line_of, held_text, item_text, kind_text, live_text, unit_text};

use av_unit::{Bytes, Item, Kind, OutOfMemory};
use std::alloc::Global;
use stream_model::Reply;

// The name of a kind in a script and in a reply line.
fn kind_text(kind: Kind) -> &'static str
    ensures { result.now ≡ kind_text kind }
{
    match kind {
        Kind::Meta => "meta",
        Kind::VConfig => "vconfig",
        Kind::AConfig => "aconfig",
        Kind::Key => "key",
        Kind::Inter => "inter",
        Kind::Spare => "spare",
        Kind::Audio => "audio",
        Kind::Data => "data",
    }
}

fn item_text(alloc: Global, item: &Item) -> Result<String, OutOfMemory>
    ensures { IfOk result (λ text. string_bytes text ≡ item_text item.now) }
{
    match item {
        Item::Begin => Ok(format!(in alloc; "begin")?),
        Item::End => Ok(format!(in alloc; "end")?),
        Item::Unit(shared) => {
            let unit = shared.unit();
            unit_text(alloc, unit.kind, unit.time, unit.body.len())
        }
    }
}

// KIND TIME LEN
fn unit_text(alloc: Global, kind: Kind, time: u32, len: usize) -> Result<String, OutOfMemory>
    ensures { IfOk result (λ text. string_bytes text ≡ unit_text kind time len) }
{
    let kind = kind_text(kind);
    Ok(format!(in alloc; "{kind} {time} {len}")?)
}

fn live_text(alloc: Global, live: Option<u64>) -> Result<String, OutOfMemory>
    ensures { IfOk result (λ text. string_bytes text ≡ live_text live) }
{
    match live {
        Some(by) => Ok(format!(in alloc; "{by}")?),
        None => Ok(format!(in alloc; "-")?),
    }
}

fn joined_line(alloc: Global, player: u32, from: u64) -> Result<String, OutOfMemory>
    ensures { IfOk result (λ text. string_bytes text ≡ line_of (Reply.Joined player from)) }
{
    Ok(format!(in alloc; "joined {player} {from}\n")?)
}

fn sent_line(alloc: Global, from: u64, n: u64, item: &Item) -> Result<String, OutOfMemory>
    ensures { IfOk result (λ text. string_bytes text ≡ line_of (Reply.Sent from n item.now)) }
{
    let item = item_text(alloc, item)?;
    Ok(format!(in alloc; "item {from} {n} {item}\n")?)
}

fn skip_line(alloc: Global, from: u64, to: u64) -> Result<String, OutOfMemory>
    ensures { IfOk result (λ text. string_bytes text ≡ line_of (Reply.Skip from to)) }
{
    Ok(format!(in alloc; "skip {from} {to}\n")?)
}

fn counts_line(
    alloc: Global,
    began: u64,
    pushed: u64,
    ended: u64,
    joined: u64,
    skips: u64,
) -> Result<String, OutOfMemory>
    ensures { IfOk result (λ text. string_bytes text ≡ line_of (Reply.Counts began pushed ended joined skips)) }
{
    Ok(format!(in alloc; "counts {began} {pushed} {ended} {joined} {skips}\n")?)
}

fn line_of(alloc: Global, reply: &Reply) -> Result<String, OutOfMemory>
    ensures { IfOk result (λ text. string_bytes text ≡ line_of reply.now) }
{
    match reply {
        Reply::Began { n } => Ok(format!(in alloc; "began {n}\n")?),
        Reply::InUse { by } => Ok(format!(in alloc; "inuse {by}\n")?),
        Reply::Pushed { n } => Ok(format!(in alloc; "pushed {n}\n")?),
        Reply::NotPublisher { live } => {
            let live = live_text(alloc, *live)?;
            Ok(format!(in alloc; "notpublisher {live}\n")?)
        }
        Reply::Ended { n } => Ok(format!(in alloc; "ended {n}\n")?),
        Reply::Joined { player, from } => joined_line(alloc, *player, *from),
        Reply::Full => Ok(format!(in alloc; "full\n")?),
        Reply::NotPlayer => Ok(format!(in alloc; "notplayer\n")?),
        Reply::Sent { from, n, item } => sent_line(alloc, *from, *n, item),
        Reply::Skip { from, to } => skip_line(alloc, *from, *to),
        Reply::NotYet { end } => Ok(format!(in alloc; "notyet {end}\n")?),
        Reply::Left { player } => Ok(format!(in alloc; "left {player}\n")?),
        Reply::Counts {
            began,
            pushed,
            ended,
            joined,
            skips,
        } => counts_line(alloc, *began, *pushed, *ended, *joined, *skips),
        Reply::NoSlot { slots } => Ok(format!(in alloc; "noslot {slots}\n")?),
    }
}

/// Adds the line of a reply, with its LF. A refusal changes nothing.
pub fn reply_text(alloc: Global, reply: &Reply, out: &mut Bytes) -> Result<(), OutOfMemory>
    ensures ok { OnOk result (out.new ≡ out.old ++ line_of reply.now) }
    ensures err { OnErr result (out.new ≡ out.old) }
{
    let text = line_of(alloc, reply)?;
    out.append(text.as_str().as_bytes())
}

/// Adds the line of the bytes that a stream or a pool holds, with its LF. A refusal changes nothing.
pub fn held_text(alloc: Global, bytes: u64, out: &mut Bytes) -> Result<(), OutOfMemory>
    ensures ok { OnOk result (out.new ≡ out.old ++ held_text bytes) }
    ensures err { OnErr result (out.new ≡ out.old) }
{
    let text = format!(in alloc; "held {bytes}\n")?;
    out.append(text.as_str().as_bytes())
}

/// Reply lines can't run together: the line of a reply, and of the bytes held, has one LF, which stands at
/// its end.
#[tactic(auto, using(crate::proofs::OneLine::one_line, crate::proofs::OneLine::held_line))]
pub fn reply_line_law()
    ensures reply { (r : Reply) → IsReply r → IsOneLine (line_of r) }
    ensures held { (bytes : ℕ) → IsU64 bytes → IsOneLine (held_text bytes) }
{}
