ghost use Rattle.std.specs.Prelude.{◌≡◌, ◌↔◌, ◌≤◌, ℕ, List, true, Some, None, IfOk, Ok, Err, option_map};
ghost use Rattle.std.specs.List.{list_all};
ghost use Rattle.std.specs.Option.{option_copied};
ghost use Rattle.relay_script.specs.Lines.{digits_from, below, first_word, last};
ghost use Rattle.relay_script.specs.Lines.{number as number_in};
ghost use Rattle.relay_script.specs.declared.replay.ReplayLine.{ReplayLine as Line};
ghost use Rattle.relay_script.specs.declared.replay.ReplayLine.TheVariants.{Stream, OpenApp, OpenEdge, OpenHttp, Piece, Session};
ghost use Rattle.relay_script.specs.ReplayLines.{message_of, window_of, session_of, turns_of, room_of, is_hex_byte};
ghost use Rattle.relay_script.specs.ReplayLines.{is_hex, digit, pairs, limits_line, stream_line, piece_line, room_line, turn_line, all_line};
ghost use Rattle.relay_script.specs.ReplayLines.{session_line, plain_line, worded_line, meaning, takes_memory};
ghost use Rattle.relay_script.specs.ReplayLines.{side_of, mode_of, form_of, is_digest, is_key, key_bytes, keyed_line, guard_line, guardopen_line};
ghost use Rattle.relay_script.specs.ReplayLines.{openapp_line, openedge_line, record_line, rec_line};
ghost use Rattle.relay_script.specs.declared.replay.Side.{Side as ASide};
ghost use Rattle.key_guard.specs.declared.check.Mode.{Mode as AMode};

use crate::LineFail;
use crate::line::{count_of, first_word, name_of, number, who_of};
use av_unit::{Bytes, OutOfMemory};
use key_guard::Mode;
use std::alloc::Global;
use stream_model::is_name;

/// Whom a key lets in.
#[derive(Clone, Copy)]
pub enum Side {
    /// Publishers.
    Publish,
    /// Players.
    Play,
}

/// How a recording is written.
#[derive(Clone, Copy)]
pub enum Form {
    /// As an FLV file.
    Flv,
    /// As a transport stream.
    Ts,
}

/// The meaning of a line of a replay's script. Sessions, recorders, streams and open tables are numbered
/// from 0; players over HTTP and edges are numbered among the sessions.
#[derive(Drop)]
pub enum ReplayLine {
    /// An empty line or a comment.
    Nothing,
    /// The limits of the relay.
    Limits {
        /// The bytes of a message at most.
        message: u32,
        /// The bytes of a stream's window.
        bytes: u64,
        /// The items of a stream's window.
        items: u32,
        /// The players of a stream.
        players: u32,
        /// The acknowledgement window, in bytes.
        window: u32,
    },
    /// A stream.
    Stream {
        app: Bytes,
        name: Bytes,
    },
    /// A further key of a stream for that side. In mode `Digest` it is the 32 bytes that its digits name.
    Guard {
        stream: u32,
        side: Side,
        mode: Mode,
        key: Bytes,
    },
    /// An open table, with at most `names` names at a time.
    OpenApp {
        app: Bytes,
        names: u32,
    },
    /// A further key of an open table for that side. In modes `Digest` and `Named` it is the 32 bytes that
    /// its digits name.
    GuardOpen {
        table: u32,
        side: Side,
        mode: Mode,
        key: Bytes,
    },
    /// A recorder of a stream.
    Recorder {
        stream: u32,
        form: Form,
    },
    /// A session, with room for all that is sent.
    Session,
    /// A player over HTTP, with room for all that is sent.
    OpenHttp,
    /// An edge that publishes at a stream the content of another relay's stream under these names, with
    /// room for all that is sent.
    OpenEdge {
        stream: u32,
        app: Bytes,
        name: Bytes,
    },
    /// A further piece of a session's input.
    Piece {
        session: u32,
        bytes: Bytes,
    },
    /// The session's link ends after its pieces.
    Eof(u32),
    /// The number of bytes that the session may still send, None for all.
    Room {
        session: u32,
        left: Option<u64>,
    },
    /// The session's next receive fails.
    FailRecv(u32),
    /// The session's next send fails.
    FailSend(u32),
    /// The recorder's next put fails.
    FailPut(u32),
    /// A number of turns of the session.
    Turn {
        session: u32,
        count: u32,
    },
    /// A number of turns of the recorder.
    Rec {
        recorder: u32,
        count: u32,
    },
    /// A number of rounds: a turn of each session that hasn't ended, then one of each recorder.
    All(u32),
    /// The session quits.
    Quit(u32),
}

// ---- words

// The value of the digits, if it is below the bound.
#[tactic(auto, using(crate::proofs::Digits::too_large))]
fn wide_digits(word: &[u8]) -> Option<u64>
    ensures { result ≡ below 18446744073709551616 (digits_from 0 word.now) }
{
    let mut value: u128 = 0;
    let mut left = word;
    while let [c, rest @ ..] = left {
        if !(b'0' <= *c && *c <= b'9') {
            return None;
        }
        value = 10 * value + u128::from(*c - b'0');
        if value >= 18_446_744_073_709_551_616 {
            return None;
        }
        left = rest;
    }
    Some(value as u64)
}

// The number below 2^64 that the word spells.
fn wide_number(word: &[u8]) -> Option<u64>
    ensures { result ≡ number_in 18446744073709551616 word.now }
{
    match word {
        [] => None,
        [first, _, ..] if *first == b'0' => None,
        _ => wide_digits(word),
    }
}

fn session_of(word: &[u8]) -> Option<u32>
    ensures { result ≡ session_of word.now }
{
    who_of(word)
}

fn turns_of(word: &[u8]) -> Option<u32>
    ensures { result ≡ turns_of word.now }
{
    count_of(word, 1_000_001)
}

// A number of bytes, or None for `all`.
fn room_of(word: &[u8]) -> Option<Option<u64>>
    ensures { result ≡ room_of word.now }
{
    if word == b"all".as_slice() {
        return Some(None);
    }
    let left = wide_number(word)?;
    Some(Some(left))
}

fn is_hex_byte(b: u8) -> bool
    ensures { result ≡ is_hex_byte b }
{
    matches!(b, b'0'..=b'9' | b'a'..=b'f')
}

fn are_hex_bytes(word: &[u8]) -> bool
    ensures { result ≡ list_all is_hex_byte word.now }
{
    word.iter().all(|b| is_hex_byte(*b))
}

fn is_hex(word: &[u8]) -> bool
    ensures { result ≡ is_hex word.now }
{
    word.len() >= 2 && word.len() % 2 == 0 && are_hex_bytes(word)
}

fn digit(b: u8) -> u8
    ensures value { result ≡ digit b }
    ensures small { result ≤ 15 }
{
    match b {
        b'a'..=b'f' => b - 87,
        b'0'..=b'9' => b - b'0',
        _ => 0,
    }
}

fn is_digest(word: &[u8]) -> bool
    ensures { result ≡ is_digest word.now }
{
    word.len() == 64 && are_hex_bytes(word)
}

fn side_of(word: &[u8]) -> Option<Side>
    ensures { result ≡ side_of word.now }
{
    if word == b"publish".as_slice() {
        Some(Side::Publish)
    } else if word == b"play".as_slice() {
        Some(Side::Play)
    } else {
        None
    }
}

// Only an open table has keys for one name.
fn mode_of(opens: bool, word: &[u8]) -> Option<Mode>
    ensures { result ≡ mode_of opens word.now }
{
    if word == b"plain".as_slice() {
        Some(Mode::Plain)
    } else if word == b"digest".as_slice() {
        Some(Mode::Digest)
    } else if opens && word == b"named".as_slice() {
        Some(Mode::Named)
    } else {
        None
    }
}

fn form_of(word: &[u8]) -> Option<Form>
    ensures { result ≡ form_of word.now }
{
    if word == b"flv".as_slice() {
        Some(Form::Flv)
    } else if word == b"ts".as_slice() {
        Some(Form::Ts)
    } else {
        None
    }
}

// Whether the word spells a key in that mode.
fn is_key(mode: Mode, word: &[u8]) -> bool
    ensures { result ≡ is_key mode word.now }
{
    match mode {
        Mode::Plain => is_name(word),
        Mode::Digest | Mode::Named => is_digest(word),
    }
}

// The key that the word spells in that mode.
fn key_bytes(alloc: Global, mode: Mode, word: &[u8]) -> Result<Vec<u8>, OutOfMemory>
    ensures { IfOk result (λ bytes. bytes.items ≡ key_bytes mode word.now) }
{
    match mode {
        Mode::Plain => Ok(Vec::from_slice(alloc, word)?),
        Mode::Digest | Mode::Named => pairs(alloc, word),
    }
}

// The byte of each two digits.
fn pairs(alloc: Global, word: &[u8]) -> Result<Vec<u8>, OutOfMemory>
    ensures { IfOk result (λ bytes. bytes.items ≡ pairs word.now) }
{
    let mut bytes = Vec::new(alloc);
    let mut left = word;
    while let [high, low, rest @ ..] = left {
        bytes.push(16 * digit(*high) + digit(*low))?;
        left = rest;
    }
    Ok(bytes)
}

// ---- lines

// M R N P W
fn limits_line(words: Option<&[u8]>) -> Option<ReplayLine>
    ensures { result ≡ limits_line (option_copied words.entry) }
{
    let (message, rest) = first_word(words?);
    let message = message_of(message)?;
    let (bytes, rest) = first_word(rest?);
    let bytes = number(bytes, 268_435_457)?;
    let (items, rest) = first_word(rest?);
    let items = count_of(items, 65_537)?;
    let (players, rest) = first_word(rest?);
    let players = count_of(players, 257)?;
    let (window, rest) = first_word(rest?);
    let window = window_of(window)?;
    match rest {
        Some(_) => None,
        None => Some(ReplayLine::Limits {
            message,
            bytes: u64::from(bytes),
            items,
            players,
            window,
        }),
    }
}

fn message_of(word: &[u8]) -> Option<u32>
    ensures { result ≡ message_of word.now }
{
    let n = number(word, 4_194_305)?;
    if n < 4_096 { None } else { Some(n) }
}

fn window_of(word: &[u8]) -> Option<u32>
    ensures { result ≡ window_of word.now }
{
    let n = number(word, 1 << 31)?;
    if n < 1_000 { None } else { Some(n) }
}

// APP NAME
fn stream_line(alloc: Global, words: Option<&[u8]>) -> Result<ReplayLine, LineFail>
    ensures says { IfOk result (λ l. stream_line (option_copied words.entry) ≡ Some l) }
    ensures outside { (result ≡ Err LineFail.Outside) ↔ (stream_line (option_copied words.entry) ≡ None) }
{
    let Some(named) = read_stream(words) else {
        return Err(LineFail::Outside);
    };
    match stream(alloc, named.app, named.name) {
        Ok(line) => Ok(line),
        Err(_) => Err(LineFail::OutOfMemory),
    }
}

// A named stream, before its names are copied.
#[derive(Clone, Copy)]
struct Named<'a> {
    app: &'a [u8],
    name: &'a [u8],
}

fn read_stream(words: Option<&[u8]>) -> Option<Named<'_>>
    ensures { stream_line (option_copied words.entry) ≡ option_map (λ n. Stream n.app.now n.name.now) result }
{
    let (app, rest) = first_word(words?);
    let app = name_of(app)?;
    let (name, rest) = first_word(rest?);
    let name = name_of(name)?;
    match rest {
        Some(_) => None,
        None => Some(Named { app, name }),
    }
}

fn stream(alloc: Global, app: &[u8], name: &[u8]) -> Result<ReplayLine, OutOfMemory>
    ensures { IfOk result (λ line. line ≡ Stream app.now name.now) }
{
    Ok(ReplayLine::Stream {
        app: Bytes::from_vec(Vec::from_slice(alloc, app)?),
        name: Bytes::from_vec(Vec::from_slice(alloc, name)?),
    })
}

// A key of a stream or an open table, before it is copied.
#[derive(Clone, Copy)]
struct Keyed<'a> {
    number: u32,
    side: Side,
    mode: Mode,
    word: &'a [u8],
}

// A number, ROLE MODE KEY
fn read_keyed(opens: bool, words: Option<&[u8]>) -> Option<Keyed<'_>>
    ensures { (says : ℕ → ASide → AMode → List ℕ → Line) → keyed_line opens says (option_copied words.entry)
        ≡ option_map (λ k. says k.number k.side k.mode (key_bytes k.mode k.word.now)) result }
{
    let (number, rest) = first_word(words?);
    let number = session_of(number)?;
    let (side, rest) = first_word(rest?);
    let side = side_of(side)?;
    let (mode, rest) = first_word(rest?);
    let mode = mode_of(opens, mode)?;
    let (word, rest) = first_word(rest?);
    if !is_key(mode, word) {
        return None;
    }
    match rest {
        Some(_) => None,
        None => Some(Keyed {
            number,
            side,
            mode,
            word,
        }),
    }
}

// S ROLE MODE KEY
fn guard_line(alloc: Global, words: Option<&[u8]>) -> Result<ReplayLine, LineFail>
    ensures says { IfOk result (λ l. guard_line (option_copied words.entry) ≡ Some l) }
    ensures outside { (result ≡ Err LineFail.Outside) ↔ (guard_line (option_copied words.entry) ≡ None) }
{
    let Some(keyed) = read_keyed(false, words) else {
        return Err(LineFail::Outside);
    };
    let Keyed {
        number,
        side,
        mode,
        word,
    } = keyed;
    match key_bytes(alloc, mode, word) {
        Ok(key) => Ok(ReplayLine::Guard {
            stream: number,
            side,
            mode,
            key: Bytes::from_vec(key),
        }),
        Err(_) => Err(LineFail::OutOfMemory),
    }
}

// O ROLE MODE KEY
fn guardopen_line(alloc: Global, words: Option<&[u8]>) -> Result<ReplayLine, LineFail>
    ensures says { IfOk result (λ l. guardopen_line (option_copied words.entry) ≡ Some l) }
    ensures outside { (result ≡ Err LineFail.Outside) ↔ (guardopen_line (option_copied words.entry) ≡ None) }
{
    let Some(keyed) = read_keyed(true, words) else {
        return Err(LineFail::Outside);
    };
    let Keyed {
        number,
        side,
        mode,
        word,
    } = keyed;
    match key_bytes(alloc, mode, word) {
        Ok(key) => Ok(ReplayLine::GuardOpen {
            table: number,
            side,
            mode,
            key: Bytes::from_vec(key),
        }),
        Err(_) => Err(LineFail::OutOfMemory),
    }
}

// An open table, before its app is copied.
#[derive(Clone, Copy)]
struct Opened<'a> {
    app: &'a [u8],
    names: u32,
}

fn read_openapp(words: Option<&[u8]>) -> Option<Opened<'_>>
    ensures { openapp_line (option_copied words.entry) ≡ option_map (λ o. OpenApp o.app.now o.names) result }
{
    let (app, rest) = first_word(words?);
    let app = name_of(app)?;
    let (names, rest) = first_word(rest?);
    let names = count_of(names, 65)?;
    match rest {
        Some(_) => None,
        None => Some(Opened { app, names }),
    }
}

// APP N
fn openapp_line(alloc: Global, words: Option<&[u8]>) -> Result<ReplayLine, LineFail>
    ensures says { IfOk result (λ l. openapp_line (option_copied words.entry) ≡ Some l) }
    ensures outside { (result ≡ Err LineFail.Outside) ↔ (openapp_line (option_copied words.entry) ≡ None) }
{
    let Some(opened) = read_openapp(words) else {
        return Err(LineFail::Outside);
    };
    let Opened { app, names } = opened;
    match Vec::from_slice(alloc, app) {
        Ok(app) => Ok(ReplayLine::OpenApp {
            app: Bytes::from_vec(app),
            names,
        }),
        Err(_) => Err(LineFail::OutOfMemory),
    }
}

// An edge, before its names are copied.
#[derive(Clone, Copy)]
struct Pulled<'a> {
    stream: u32,
    app: &'a [u8],
    name: &'a [u8],
}

fn read_openedge(words: Option<&[u8]>) -> Option<Pulled<'_>>
    ensures { openedge_line (option_copied words.entry) ≡ option_map (λ p. OpenEdge p.stream p.app.now p.name.now) result }
{
    let (stream, rest) = first_word(words?);
    let stream = session_of(stream)?;
    let (app, rest) = first_word(rest?);
    let app = name_of(app)?;
    let (name, rest) = first_word(rest?);
    let name = name_of(name)?;
    match rest {
        Some(_) => None,
        None => Some(Pulled { stream, app, name }),
    }
}

fn edge(alloc: Global, stream: u32, app: &[u8], name: &[u8]) -> Result<ReplayLine, OutOfMemory>
    ensures { IfOk result (λ line. line ≡ OpenEdge stream app.now name.now) }
{
    Ok(ReplayLine::OpenEdge {
        stream,
        app: Bytes::from_vec(Vec::from_slice(alloc, app)?),
        name: Bytes::from_vec(Vec::from_slice(alloc, name)?),
    })
}

// S APP NAME
fn openedge_line(alloc: Global, words: Option<&[u8]>) -> Result<ReplayLine, LineFail>
    ensures says { IfOk result (λ l. openedge_line (option_copied words.entry) ≡ Some l) }
    ensures outside { (result ≡ Err LineFail.Outside) ↔ (openedge_line (option_copied words.entry) ≡ None) }
{
    let Some(pulled) = read_openedge(words) else {
        return Err(LineFail::Outside);
    };
    match edge(alloc, pulled.stream, pulled.app, pulled.name) {
        Ok(line) => Ok(line),
        Err(_) => Err(LineFail::OutOfMemory),
    }
}

// S FORM
fn record_line(words: Option<&[u8]>) -> Option<ReplayLine>
    ensures { result ≡ record_line (option_copied words.entry) }
{
    let (stream, rest) = first_word(words?);
    let stream = session_of(stream)?;
    let (form, rest) = first_word(rest?);
    let form = form_of(form)?;
    match rest {
        Some(_) => None,
        None => Some(ReplayLine::Recorder { stream, form }),
    }
}

// S HEX
fn piece_line(alloc: Global, words: Option<&[u8]>) -> Result<ReplayLine, LineFail>
    ensures says { IfOk result (λ l. piece_line (option_copied words.entry) ≡ Some l) }
    ensures outside { (result ≡ Err LineFail.Outside) ↔ (piece_line (option_copied words.entry) ≡ None) }
{
    let Some(given) = read_piece(words) else {
        return Err(LineFail::Outside);
    };
    match piece(alloc, given.session, given.digits) {
        Ok(line) => Ok(line),
        Err(_) => Err(LineFail::OutOfMemory),
    }
}

// A piece, before its digits are read.
#[derive(Clone, Copy)]
struct Given<'a> {
    session: u32,
    digits: &'a [u8],
}

fn read_piece(words: Option<&[u8]>) -> Option<Given<'_>>
    ensures { piece_line (option_copied words.entry) ≡ option_map (λ g. Piece g.session (pairs g.digits.now)) result }
{
    let (session, rest) = first_word(words?);
    let session = session_of(session)?;
    let (digits, rest) = first_word(rest?);
    if !is_hex(digits) {
        return None;
    }
    match rest {
        Some(_) => None,
        None => Some(Given { session, digits }),
    }
}

fn piece(alloc: Global, session: u32, digits: &[u8]) -> Result<ReplayLine, OutOfMemory>
    ensures { IfOk result (λ line. line ≡ Piece session (pairs digits.now)) }
{
    Ok(ReplayLine::Piece {
        session,
        bytes: Bytes::from_vec(pairs(alloc, digits)?),
    })
}

// S N, or S `all`
fn room_line(words: Option<&[u8]>) -> Option<ReplayLine>
    ensures { result ≡ room_line (option_copied words.entry) }
{
    let (session, rest) = first_word(words?);
    let session = session_of(session)?;
    let (left, rest) = first_word(rest?);
    let left = room_of(left)?;
    match rest {
        Some(_) => None,
        None => Some(ReplayLine::Room { session, left }),
    }
}

// S K
fn turn_line(words: Option<&[u8]>) -> Option<ReplayLine>
    ensures { result ≡ turn_line (option_copied words.entry) }
{
    let (session, rest) = first_word(words?);
    let session = session_of(session)?;
    let (count, rest) = first_word(rest?);
    let count = turns_of(count)?;
    match rest {
        Some(_) => None,
        None => Some(ReplayLine::Turn { session, count }),
    }
}

// R K
fn rec_line(words: Option<&[u8]>) -> Option<ReplayLine>
    ensures { result ≡ rec_line (option_copied words.entry) }
{
    let (recorder, rest) = first_word(words?);
    let recorder = session_of(recorder)?;
    let (count, rest) = first_word(rest?);
    let count = turns_of(count)?;
    match rest {
        Some(_) => None,
        None => Some(ReplayLine::Rec { recorder, count }),
    }
}

// K
fn all_line(words: Option<&[u8]>) -> Option<ReplayLine>
    ensures { result ≡ all_line (option_copied words.entry) }
{
    let (count, rest) = first_word(words?);
    let count = turns_of(count)?;
    match rest {
        Some(_) => None,
        None => Some(ReplayLine::All(count)),
    }
}

// S
fn one_session(words: Option<&[u8]>) -> Option<u32>
    ensures { (says : ℕ → Line) → session_line says (option_copied words.entry) ≡ option_map says result }
{
    let (session, rest) = first_word(words?);
    let session = session_of(session)?;
    match rest {
        Some(_) => None,
        None => Some(session),
    }
}

fn open_line(words: Option<&[u8]>) -> Option<ReplayLine>
    ensures { result ≡ last (option_copied words.entry) Session }
{
    match words {
        Some(_) => None,
        None => Some(ReplayLine::Session),
    }
}

fn openhttp_line(words: Option<&[u8]>) -> Option<ReplayLine>
    ensures { result ≡ last (option_copied words.entry) OpenHttp }
{
    match words {
        Some(_) => None,
        None => Some(ReplayLine::OpenHttp),
    }
}

// A line that takes no memory.
fn plain_line(word: &[u8], rest: Option<&[u8]>) -> Option<ReplayLine>
    ensures { result ≡ plain_line word.now (option_copied rest.entry) }
{
    if word == b"limits".as_slice() {
        limits_line(rest)
    } else if word == b"record".as_slice() {
        record_line(rest)
    } else if word == b"open".as_slice() {
        open_line(rest)
    } else if word == b"openhttp".as_slice() {
        openhttp_line(rest)
    } else if word == b"eof".as_slice() {
        Some(ReplayLine::Eof(one_session(rest)?))
    } else if word == b"room".as_slice() {
        room_line(rest)
    } else if word == b"failrecv".as_slice() {
        Some(ReplayLine::FailRecv(one_session(rest)?))
    } else if word == b"failsend".as_slice() {
        Some(ReplayLine::FailSend(one_session(rest)?))
    } else if word == b"failput".as_slice() {
        Some(ReplayLine::FailPut(one_session(rest)?))
    } else if word == b"turn".as_slice() {
        turn_line(rest)
    } else if word == b"rec".as_slice() {
        rec_line(rest)
    } else if word == b"all".as_slice() {
        all_line(rest)
    } else if word == b"quit".as_slice() {
        Some(ReplayLine::Quit(one_session(rest)?))
    } else {
        None
    }
}

// A line that begins with that word.
fn worded_line(alloc: Global, word: &[u8], rest: Option<&[u8]>) -> Result<ReplayLine, LineFail>
    ensures says { IfOk result (λ l. worded_line word.now (option_copied rest.entry) ≡ Some l) }
    ensures outside { (result ≡ Err LineFail.Outside) ↔ (worded_line word.now (option_copied rest.entry) ≡ None) }
    ensures memory { result ≡ Err LineFail.OutOfMemory → takes_memory word.now ≡ true }
{
    if word == b"stream".as_slice() {
        return stream_line(alloc, rest);
    }
    if word == b"guard".as_slice() {
        return guard_line(alloc, rest);
    }
    if word == b"openapp".as_slice() {
        return openapp_line(alloc, rest);
    }
    if word == b"guardopen".as_slice() {
        return guardopen_line(alloc, rest);
    }
    if word == b"openedge".as_slice() {
        return openedge_line(alloc, rest);
    }
    if word == b"in".as_slice() {
        return piece_line(alloc, rest);
    }
    plain_line(word, rest).ok_or(LineFail::Outside)
}

/// Returns the meaning of a line of a replay's script, its LF left out.
///
/// The answer is `Outside` exactly if the line has none of the forms of a line, or has more than 65,536
/// bytes. A line that begins with `#` is a comment. The other forms, with one space between two words, are
/// `limits M R N P W`, `stream APP NAME`, `guard S ROLE MODE KEY`, `openapp APP N`, `guardopen O ROLE MODE
/// KEY`, `record S FORM`, `open`, `openhttp`, `openedge S APP NAME`, `in S HEX`, `eof S`, `room S N`, `room
/// S all`, `failrecv S`, `failsend S`, `failput R`, `turn S K`, `rec R K`, `all K` and `quit S`.
///
/// M is 4,096 to 4,194,304, R in `limits` at most 268,435,456, N there 1 to 65,536, P 1 to 256, and W 1,000
/// to 2^31 - 1. APP and NAME are 1 to 64 letters, digits, `.`, `_` or `-`. N in `openapp` is 1 to 64. ROLE
/// is `publish` or `play`. MODE is `plain`, and KEY has the form of NAME, or `digest`, and KEY is 64
/// lower-case hexadecimal digits. In `guardopen` it may be `named` too, with a KEY of such digits. FORM is
/// `flv` or `ts`. S, O and the R of a recorder are below 2^32, N in `room` below 2^64, and K is 1 to
/// 1,000,000. HEX is an even number of lower-case hexadecimal digits, at least two. Numbers are decimal,
/// without a sign or a leading zero. The place of a line in a script is no matter here, nor whether the
/// things that it names are there.
///
/// `OutOfMemory` comes only at `stream`, `guard`, `openapp`, `guardopen`, `openedge` and `in`.
pub fn replay_line(alloc: Global, line: &[u8]) -> Result<ReplayLine, LineFail>
    ensures says { IfOk result (λ l. meaning line.now ≡ Some l) }
    ensures outside { (result ≡ Err LineFail.Outside) ↔ (meaning line.now ≡ None) }
    ensures memory { result ≡ Err LineFail.OutOfMemory → takes_memory (first_word line.now).word ≡ true }
{
    if line.len() > 65536 {
        return Err(LineFail::Outside);
    }
    match line {
        [] => Ok(ReplayLine::Nothing),
        [b'#', ..] => Ok(ReplayLine::Nothing),
        _ => {
            let (word, rest) = first_word(line);
            worded_line(alloc, word, rest)
        }
    }
}
