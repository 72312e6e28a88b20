ghost use Rattle.std.specs.Prelude.{◌≡◌, ◌<◌, ◌≤◌, ◌^◌, ◌++◌, length, IfOk, OnOk};
ghost use Rattle.amf0_value.specs.Tree.{number, text as a_text, object, null};
ghost use Rattle.amf0_value.specs.View.{tree, members_of, seen_pairs};
ghost use Rattle.amf0_value.specs.Spelling.{Fits};
ghost use Rattle.amf0_value.specs.Encoding.{spelling, items_spelling};
ghost use Rattle.rtmp_command.specs.Answers.{info_list, description_of, server, success, status_values, values_of, body_of};

use amf0_value::{Amf, Pairs, bits_of, encode};
use av_unit::{Bytes, OutOfMemory};
use std::alloc::Global;

/// The reason for which a publish or a play is refused.
#[derive(Clone, Copy)]
pub enum Why {
    RoleActive,
    NoName,
    Refused,
    InUse,
    Full,
}

impl Why {
    fn description(self) -> &'static str
        ensures { result.now ≡ description_of self }
    {
        match self {
            Why::RoleActive => "Role active.",
            Why::NoName => "No such name.",
            Why::Refused => "Refused.",
            Why::InUse => "In use.",
            Why::Full => "Full.",
        }
    }
}

/// An answer or a notice to a peer in a command message.
#[derive(Clone, Copy)]
pub enum Answer {
    /// The transaction is the pattern of its number.
    Connected { transaction: u64 },
    /// The transaction is the pattern of its number; `id` is the new message stream's.
    Created { transaction: u64, id: u32 },
    PublishStart,
    PublishRefused(Why),
    PlayStart,
    PlayRefused(Why),
    PublishNotify,
    UnpublishNotify,
}

/// Makes the body of the message that carries an answer (RTMP 1.0, sections 7.2.1 and 7.2.2).
#[tactic(auto, unfolding(crate::specs::Answers::body_of))]
pub fn answer_body(alloc: Global, answer: &Answer) -> Result<Bytes, OutOfMemory>
    ensures value { IfOk result (λ body. body ≡ body_of answer.now) }
    ensures short { IfOk result (λ body. length body ≤ 190) }
{
    let body = written(alloc, answer)?;
    Ok(body)
}

fn written(alloc: Global, answer: &Answer) -> Result<Bytes, OutOfMemory>
    ensures { IfOk result (λ body. body ≡ items_spelling (values_of answer.now)) }
{
    match answer {
        Answer::Connected { transaction } => connected(alloc, *transaction),
        Answer::Created { transaction, id } => created(alloc, *transaction, *id),
        Answer::PublishStart => status(alloc, "status", "NetStream.Publish.Start", "Publishing."),
        Answer::PublishRefused(why) => status(
            alloc,
            "error",
            "NetStream.Publish.BadName",
            why.description(),
        ),
        Answer::PlayStart => status(alloc, "status", "NetStream.Play.Start", "Playing."),
        Answer::PlayRefused(why) => status(
            alloc,
            "error",
            "NetStream.Play.StreamNotFound",
            why.description(),
        ),
        Answer::PublishNotify => status(
            alloc,
            "status",
            "NetStream.Play.PublishNotify",
            "Published.",
        ),
        Answer::UnpublishNotify => status(
            alloc,
            "status",
            "NetStream.Play.UnpublishNotify",
            "Unpublished.",
        ),
    }
}

fn connected(alloc: Global, transaction: u64) -> Result<Bytes, OutOfMemory>
    ensures { IfOk result (λ body. body ≡ items_spelling (values_of (Answer.Connected transaction))) }
{
    let mut out = Bytes::new(alloc);
    put_text(alloc, "_result", &mut out)?;
    put_number(transaction, &mut out)?;
    let server = server_pairs(alloc, bits_of(31))?;
    put_object(server, &mut out)?;
    let success = success_pairs(alloc, bits_of(0))?;
    put_object(success, &mut out)?;
    Ok(out)
}

fn created(alloc: Global, transaction: u64, id: u32) -> Result<Bytes, OutOfMemory>
    ensures { IfOk result (λ body. body ≡ items_spelling (values_of (Answer.Created transaction id))) }
{
    let mut out = Bytes::new(alloc);
    put_text(alloc, "_result", &mut out)?;
    put_number(transaction, &mut out)?;
    put_null(&mut out)?;
    put_number(bits_of(u64::from(id)), &mut out)?;
    Ok(out)
}

#[tactic(auto, unfolding(crate::specs::Answers::status_values))]
fn status(alloc: Global, level: &str, code: &str, description: &str) -> Result<Bytes, OutOfMemory>
    requires level { length level.now < 2 ^ 16 }
    requires code { length code.now < 2 ^ 16 }
    requires description { length description.now < 2 ^ 16 }
    ensures { IfOk result (λ body. body ≡ items_spelling (status_values level.now code.now description.now)) }
{
    let mut out = Bytes::new(alloc);
    put_text(alloc, "onStatus", &mut out)?;
    put_number(bits_of(0), &mut out)?;
    put_null(&mut out)?;
    let list = info_pairs(alloc, level, code, description)?;
    put_object(list, &mut out)?;
    Ok(out)
}

fn text_of(alloc: Global, text: &str) -> Result<Amf, OutOfMemory>
    ensures { IfOk result (λ v. tree v ≡ a_text text.now) }
{
    let list = Vec::from_slice(alloc, text.as_bytes())?;
    Ok(Amf::Text(Bytes::from_vec(list)))
}

fn put_text(alloc: Global, text: &str, out: &mut Bytes) -> Result<(), OutOfMemory>
    requires { length text.now < 2 ^ 16 }
    ensures { OnOk result (out.new ≡ out.old ++ spelling (a_text text.now)) }
{
    let value = text_of(alloc, text)?;
    encode(&value, out)
}

fn put_number(bits: u64, out: &mut Bytes) -> Result<(), OutOfMemory>
    ensures { OnOk result (out.new ≡ out.old ++ spelling (number bits)) }
{
    let value = Amf::Number(bits);
    encode(&value, out)
}

fn put_null(out: &mut Bytes) -> Result<(), OutOfMemory>
    ensures { OnOk result (out.new ≡ out.old ++ spelling null) }
{
    let value = Amf::Null;
    encode(&value, out)
}

fn put_object(list: Vec<(Bytes, Amf)>, out: &mut Bytes) -> Result<(), OutOfMemory>
    requires { Fits (object (members_of (seen_pairs list.items))) }
    ensures { OnOk result (out.new ≡ out.old ++ spelling (object (members_of (seen_pairs list.items)))) }
{
    let value = Amf::Object(Pairs::from_vec(list));
    encode(&value, out)
}

fn pair(alloc: Global, key: &str, value: Amf) -> Result<(Bytes, Amf), OutOfMemory>
    ensures { IfOk result (λ p. (p.0 ≡ key.now) × (p.1 ≡ value)) }
{
    let list = Vec::from_slice(alloc, key.as_bytes())?;
    Ok((Bytes::from_vec(list), value))
}

/// Makes the pairs `level`, `code` and `description`.
fn info_pairs(
    alloc: Global,
    level: &str,
    code: &str,
    description: &str,
) -> Result<Vec<(Bytes, Amf)>, OutOfMemory>
    ensures { IfOk result (λ list. seen_pairs list.items ≡ info_list level.now code.now description.now) }
{
    let mut list = Vec::new(alloc);
    list.push(pair(alloc, "level", text_of(alloc, level)?)?)?;
    list.push(pair(alloc, "code", text_of(alloc, code)?)?)?;
    list.push(pair(alloc, "description", text_of(alloc, description)?)?)?;
    Ok(list)
}

/// Makes the pairs of the object that names the server's version and abilities.
fn server_pairs(alloc: Global, capabilities: u64) -> Result<Vec<(Bytes, Amf)>, OutOfMemory>
    ensures { IfOk result (λ list. members_of (seen_pairs list.items) ≡ server capabilities) }
{
    let mut list = Vec::new(alloc);
    list.push(pair(alloc, "fmsVer", text_of(alloc, "FMS/3,0,1,123")?)?)?;
    list.push(pair(alloc, "capabilities", Amf::Number(capabilities))?)?;
    Ok(list)
}

/// Makes the pairs of the object that tells of a connection.
fn success_pairs(alloc: Global, encoding: u64) -> Result<Vec<(Bytes, Amf)>, OutOfMemory>
    ensures { IfOk result (λ list. members_of (seen_pairs list.items) ≡ success encoding) }
{
    let mut list = info_pairs(
        alloc,
        "status",
        "NetConnection.Connect.Success",
        "Connection succeeded.",
    )?;
    list.push(pair(alloc, "objectEncoding", Amf::Number(encoding))?)?;
    Ok(list)
}
