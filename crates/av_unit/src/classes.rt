ghost use Rattle.std.specs.Prelude.{◌≡◌, ◌==◌, ◌&&◌, nat_lt, ◌≢◌, ◌+◌, ◌<◌, ◌≤◌, ◌↔◌, ◌⊎◌, drop, length, IfSome, IsNone, IsTrue, None, [], ◌∷◌};
ghost use Rattle.av_unit.specs.Fits.{Fits, is_config, most_bytes};
ghost use Rattle.av_unit.specs.Disposable.{is_disposable};
ghost use Rattle.av_unit.specs.Classes.{SetsData, HasItselfAgain, IsClassAgain, IsItselfAgain, class_of, finer, from_of, low, kind_of, message_type, table_class, unit_from};
ghost use Rattle.av_unit.specs.declared.unit.Kind.{Kind};
ghost use Rattle.av_unit.specs.Examples.{unit_at, nothing, aac_header, aac_frame, avc, meta, set_meta};

use crate::disposable::is_disposable;
use crate::{Bytes, Class, Kind, Unit};

// RTMP message types.
const AUDIO: u8 = 8;

const VIDEO: u8 = 9;

const DATA_AMF0: u8 = 18;

// The SoundFormat of AAC and the CodecID of AVC in an FLV tag.
const AAC: u8 = 10;

const AVC: u8 = 7;

const SET_DATA_FRAME: &[u8; 16] = b"\x02\x00\x0d@setDataFrame";

const ON_META_DATA: &[u8; 13] = b"\x02\x00\x0aonMetaData";

/// Classifies a message: the kind of unit that its body is, and the place in the body at which the unit
/// begins.
///
/// `message_kind` is the RTMP message type. The body is that of an FLV tag (Adobe FLV 10.1, E.4.2.1 for type
/// 8, E.4.3.1 for type 9, E.4.4 for type 18). `None` means that the message isn't published. It is the answer
/// for every other type, for an empty body and for a video body of frame type 0 or 5 and above. It is also
/// the answer for an AVC body that is neither a sequence header nor NAL units, and for a configuration of
/// more than 65,536 bytes.
///
/// `size` is the number of bytes of each length before an AVC body's NAL units (`length_size`). By these
/// units an inter frame that no other frame needs is known: it is a `Spare`. No frame is a `Spare` if `size`
/// isn't 1, 2 or 4.
#[tactic(auto, unfolding(crate::specs::Classes::class_of))]
pub fn class(message_kind: u8, body: &[u8], size: u8) -> Option<Class>
    ensures value { result ≡ class_of message_kind body.now size }
    ensures type_of_kind { IfSome result (λ c. message_type c.kind ≡ message_kind) }
    ensures others { message_kind ≢ 8 → message_kind ≢ 9 → message_kind ≢ 18 → IsNone result }
    ensures no_size { size ≡ 0 → IfSome result (λ c. c.kind ≢ Kind.Spare) }

    // Sixteen bytes stand before the unit exactly if they are the text `@setDataFrame` of data.
    ensures place { IfSome result (λ c. (c.from ≡ 0) ⊎ (c.from ≡ 16)) }
    ensures text { IfSome result (λ c. (c.from ≡ 16) ↔ SetsData message_kind body.now) }

    // The unit has at least one byte, and at most the number that its kind allows.
    ensures inside { IfSome result (λ c. c.from < length body.now) }
    ensures config { IfSome result (λ c. IsTrue (is_config c.kind) → length body.now ≤ c.from + 65536) }
    ensures fits { length body.now ≤ 4194304 → IfSome result (λ c. Fits c.kind (drop c.from body.now)) }

    // The unit has its class by itself, unless it is data that begins with that text once more.
    ensures again { IfSome result (IsClassAgain size body.now) }
{
    let Class { kind, from } = table_class(message_kind, body)?;
    Some(Class {
        kind: finer(kind, after(body, from), size),
        from,
    })
}

/// Makes the unit of a message, at a time in milliseconds, with lengths of NAL units of `size` bytes. It is
/// `None` exactly if the message has no class. It takes no memory: the unit keeps the body that was handed
/// in.
#[tactic(auto, unfolding(crate::specs::Classes::unit_from))]
pub fn unit_of(message_kind: u8, time: u32, body: Bytes, size: u8) -> Option<Unit>
    requires { length body ≤ 4194304 }
    ensures value { result ≡ unit_from message_kind time body size }
    ensures none { IsNone result ↔ (class_of message_kind body size ≡ None) }
    ensures type_of_kind { IfSome result (λ u. message_type u.kind ≡ message_kind) }
    ensures time { IfSome result (λ u. u.time ≡ time) }
    ensures fits { IfSome result (λ u. Fits u.kind u.body) }

    // A relay that is sent the unit makes it the same unit again.
    ensures again { IfSome result (IsItselfAgain size) }
{
    let Class { kind, from } = class(message_kind, body.as_slice(), size)?;
    Some(Unit {
        kind,
        time,
        body: body.without_front(from),
    })
}

/// Returns the RTMP message type in which units of a kind are sent: 8 for audio, 9 for video, 18 for data.
pub fn message_kind(kind: Kind) -> u8
    ensures { result ≡ message_type kind }
{
    match kind {
        Kind::AConfig | Kind::Audio => AUDIO,
        Kind::VConfig | Kind::Key | Kind::Inter | Kind::Spare => VIDEO,
        Kind::Meta | Kind::Data => DATA_AMF0,
    }
}

/// Worked examples of the table, on the definition itself.
#[tactic(auto, unfolding(crate::specs::Classes::class_of, crate::specs::Classes::table_class, crate::specs::Disposable::is_disposable, crate::specs::Disposable::firsts_of, crate::specs::Disposable::firsts_in, crate::specs::Disposable::unit_front))]
pub fn class_examples()
    ensures sound { class_of 8 aac_frame 4 ≡ unit_at Kind.Audio 0 }
    ensures sound_config { class_of 8 aac_header 4 ≡ unit_at Kind.AConfig 0 }
    ensures mp3 { class_of 8 (47 ∷ 0 ∷ []) 4 ≡ unit_at Kind.Audio 0 }
    ensures config { class_of 9 (avc 1 0) 4 ≡ unit_at Kind.VConfig 0 }
    ensures key { class_of 9 (avc 1 1) 4 ≡ unit_at Kind.Key 0 }
    ensures generated_key { class_of 9 (avc 4 1) 4 ≡ unit_at Kind.Key 0 }
    ensures inter { class_of 9 (avc 2 1) 4 ≡ unit_at Kind.Inter 0 }
    ensures called_disposable { class_of 9 (avc 3 1) 4 ≡ unit_at Kind.Inter 0 }
    ensures end_of_sequence { class_of 9 (avc 1 2) 4 ≡ nothing }
    ensures command_frame { class_of 9 (avc 5 1) 4 ≡ nothing }
    ensures metadata { class_of 18 meta 4 ≡ unit_at Kind.Meta 0 }
    ensures named_metadata { class_of 18 set_meta 4 ≡ unit_at Kind.Meta 16 }
    ensures command { class_of 20 meta 4 ≡ nothing }
{}

// Classifies by the table alone, in which no frame is disposable.
#[tactic(auto, unfolding(crate::specs::Classes::table_class))]
fn table_class(message_kind: u8, body: &[u8]) -> Option<Class>
    ensures value { result ≡ table_class message_kind body.now }
    ensures type_of_kind { IfSome result (λ c. message_type c.kind ≡ message_kind) }
    ensures others { message_kind ≢ 8 → message_kind ≢ 9 → message_kind ≢ 18 → IsNone result }
    ensures no_spare { IfSome result (λ c. c.kind ≢ Kind.Spare) }
    ensures place { IfSome result (λ c. (c.from ≡ 0) ⊎ (c.from ≡ 16)) }
    ensures text { IfSome result (λ c. (c.from ≡ 16) ↔ SetsData message_kind body.now) }
    ensures inside { IfSome result (λ c. c.from < length body.now) }
    ensures config { IfSome result (λ c. IsTrue (is_config c.kind) → length body.now ≤ c.from + 65536) }
    ensures fits { length body.now ≤ 4194304 → IfSome result (λ c. Fits c.kind (drop c.from body.now)) }
    ensures again { IfSome result (HasItselfAgain body.now) }
{
    let from = front(message_kind, body);
    let rest = after(body, from);
    let kind = kind_in(message_kind, rest)?;
    if is_too_long(kind, rest) {
        return None;
    }
    Some(Class { kind, from })
}

// Returns the bytes after the first `count`.
fn after(bytes: &[u8], count: usize) -> &[u8]
    requires { count ≤ length bytes.now }
    ensures { result.now ≡ drop count bytes.now }
{
    &bytes[count..]
}

// Tells whether the body is a configuration of more bytes than allowed.
#[tactic(auto, using(std::proofs::lemmas::Bool::Decides::nat_tests))]
fn is_too_long(kind: Kind, body: &[u8]) -> bool
    ensures { result ≡ (is_config kind && nat_lt 65536 (length body.now)) }
{
    kind.is_config() && body.len() > 65_536
}

// Returns the number of bytes before the unit.
fn front(message_kind: u8, body: &[u8]) -> usize
    ensures value { result ≡ from_of message_kind body.now }
    ensures place { (result ≡ 0) ⊎ (result ≡ 16) }
    ensures text { (result ≡ 16) ↔ SetsData message_kind body.now }
    ensures within { result ≤ length body.now }
{
    if message_kind == DATA_AMF0 && body.starts_with(SET_DATA_FRAME) {
        SET_DATA_FRAME.len()
    } else {
        0
    }
}

// Makes an inter frame that no other frame needs a `Spare`. An AVC body tells it by its units with lengths of
// `size` bytes; every other kind stays as it is.
fn finer(kind: Kind, body: &[u8], size: u8) -> Kind
    ensures value { result ≡ finer size body.now kind }
    ensures type_of_kind { message_type result ≡ message_type kind }
    ensures config { is_config result ≡ is_config kind }
    ensures fits { most_bytes result ≡ most_bytes kind }
    ensures no_size { size ≡ 0 → kind ≢ Kind.Spare → result ≢ Kind.Spare }
{
    match kind {
        Kind::Inter if is_avc(body) && is_disposable(body, size) => Kind::Spare,
        _ => kind,
    }
}

// Tells whether a video body's CodecID is AVC.
fn is_avc(body: &[u8]) -> bool
    ensures { result ≡ (low body.now == 7) }
{
    match body {
        [first, ..] => first & 0x0F == AVC,
        [] => false,
    }
}

fn kind_in(message_kind: u8, body: &[u8]) -> Option<Kind>
    ensures value { result ≡ kind_of message_kind body.now }
    ensures type_of_kind { IfSome result (λ kind. message_type kind ≡ message_kind) }
    ensures filled { IfSome result (λ _. 0 < length body.now) }
{
    match message_kind {
        AUDIO => audio_kind(body),
        VIDEO => video_kind(body),
        DATA_AMF0 => data_kind(body),
        _ => None,
    }
}

fn audio_kind(body: &[u8]) -> Option<Kind>
    ensures value { result ≡ kind_of 8 body.now }
    ensures type_of_kind { IfSome result (λ kind. message_type kind ≡ 8) }
    ensures filled { IfSome result (λ _. 0 < length body.now) }
{
    match body {
        [] => None,
        [first, 0, ..] if first >> 4 == AAC => Some(Kind::AConfig),
        _ => Some(Kind::Audio),
    }
}

fn video_kind(body: &[u8]) -> Option<Kind>
    ensures value { result ≡ kind_of 9 body.now }
    ensures type_of_kind { IfSome result (λ kind. message_type kind ≡ 9) }
    ensures filled { IfSome result (λ _. 0 < length body.now) }
{
    let [first, rest @ ..] = body else {
        return None;
    };
    let frame = match first >> 4 {
        1 | 4 => Kind::Key,
        2 | 3 => Kind::Inter,
        _ => return None,
    };
    if first & 0x0F != AVC {
        return Some(frame);
    }
    match rest {
        [0, ..] => Some(Kind::VConfig),
        [1, ..] => Some(frame),
        _ => None,
    }
}

fn data_kind(body: &[u8]) -> Option<Kind>
    ensures value { result ≡ kind_of 18 body.now }
    ensures type_of_kind { IfSome result (λ kind. message_type kind ≡ 18) }
    ensures filled { IfSome result (λ _. 0 < length body.now) }
{
    if body.is_empty() {
        return None;
    }
    if body.starts_with(ON_META_DATA) {
        return Some(Kind::Meta);
    }
    Some(Kind::Data)
}
