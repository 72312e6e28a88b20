ghost use Rattle.std.specs.Prelude.{◌≡◌, ◌↔◌, ◌^◌, ◌<◌, ◌≤◌, Some, None, IfOk, OnErr, Ok, Err, length};
ghost use Rattle.std.specs.Prelude.{position, ◌==◌, ℕ, List, true};
ghost use Rattle.std.specs.Option.{option_copied, option_map, IfSome};
ghost use Rattle.stream_model.specs.declared.calls.Call.{Call as ACall};
ghost use Rattle.av_unit.specs.Fits.{most_bytes};
ghost use Rattle.relay_script.specs.declared.line.DrillLine.TheVariants.{Held};
ghost use Rattle.relay_script.specs.Lines.{digits_from, below, number, count_of, first_word, kind_of, want_of, who_of, last, step};
ghost use Rattle.relay_script.specs.Lines.{name_of, maybe_name, call_named, named_line, pool_line, takes_in, takes_memory};
ghost use Rattle.relay_script.specs.Lines.{ring_line, who_line, push_step, push_line, take_line, leave_line, plain_line, worded_line, meaning};

use av_unit::{Bytes, Kind, OutOfMemory, Unit, UnitArc, Want};
use std::alloc::Global;
use stream_model::{Call, Entry, ShortName, StreamLimits, is_name};
use thiserror::Error;

/// The meaning of a line of a drill's script.
#[derive(Drop)]
pub enum DrillLine {
    /// An empty line or a comment.
    Nothing,
    /// The limits of the stream, or of each slot of the pool.
    Ring(StreamLimits),
    /// The script is of a pool with that number of slots.
    Pool(u32),
    /// A call, made before its caller was fed any byte.
    Step(Entry),
    /// The bytes that the stream or the pool holds.
    Held,
}

/// Why a line gives nothing.
#[derive(Clone, Copy, Debug, Error)]
pub enum LineFail {
    /// The line has none of the forms of a line, or has more than 65,536 bytes.
    #[error("no line of a script")]
    Outside,
    /// Memory was refused; a line that is outside the grammar isn't refused so.
    #[error("out of memory")]
    OutOfMemory,
}

impl From<OutOfMemory> for LineFail {
    ghost use Rattle.std.specs.Prelude.{◌≡◌};
    ghost use Rattle.relay_script.specs.declared.line.LineFail.TheVariants.{OutOfMemory};

    ghost from_gives = { λ _ e. e ≡ OutOfMemory };

    fn from(_: OutOfMemory) -> Self {
        LineFail::OutOfMemory
    }
}

// The value of the digits, if it is below the bound.
#[tactic(auto, using(crate::proofs::Digits::too_large))]
fn digits(word: &[u8], bound: u64) -> Option<u32>
    requires some { 0 < bound }
    requires fits { bound ≤ 2 ^ 32 }
    ensures { result ≡ below bound (digits_from 0 word.now) }
{
    let mut value: u64 = 0;
    let mut left = word;
    while let [c, rest @ ..] = left {
        if !(b'0' <= *c && *c <= b'9') {
            return None;
        }
        value = 10 * value + u64::from(*c - b'0');
        if value >= bound {
            return None;
        }
        left = rest;
    }
    Some(value as u32)
}

// The number below the bound that the word spells.
pub(crate) fn number(word: &[u8], bound: u64) -> Option<u32>
    requires some { 0 < bound }
    requires fits { bound ≤ 2 ^ 32 }
    ensures { result ≡ number bound word.now }
{
    match word {
        [] => None,
        [first, _, ..] if *first == b'0' => None,
        _ => digits(word, bound),
    }
}

/// The number from 1 on and below the bound that the word spells: decimal digits without a sign or a leading zero.
pub fn count_of(word: &[u8], bound: u64) -> Option<u32>
    requires some { 0 < bound }
    requires fits { bound ≤ 2 ^ 32 }
    ensures { result ≡ count_of bound word.now }
{
    match number(word, bound) {
        Some(0) => None,
        Some(n) => Some(n),
        None => None,
    }
}

pub(crate) fn who_of(word: &[u8]) -> Option<u32>
    ensures { result ≡ who_of word.now }
{
    number(word, 1 << 32)
}

fn first_space(text: &[u8]) -> Option<usize>
    ensures { result ≡ position (λ c. c == 32) text.now }
{
    text.iter().position(|c| *c == b' ')
}

// Returns the first word, and the text that follows the space after it.
pub(crate) fn first_word(text: &[u8]) -> (&[u8], Option<&[u8]>)
    ensures word { result.0.now ≡ (first_word text.now).word }
    ensures rest { option_copied result.1 ≡ (first_word text.now).rest }
{
    match first_space(text) {
        None => (text, None),
        Some(i) => (&text[..i], Some(&text[i + 1..])),
    }
}

fn kind_of(word: &[u8]) -> Option<Kind>
    ensures { result ≡ kind_of word.now }
{
    if word == b"meta".as_slice() {
        Some(Kind::Meta)
    } else if word == b"vconfig".as_slice() {
        Some(Kind::VConfig)
    } else if word == b"aconfig".as_slice() {
        Some(Kind::AConfig)
    } else if word == b"key".as_slice() {
        Some(Kind::Key)
    } else if word == b"inter".as_slice() {
        Some(Kind::Inter)
    } else if word == b"spare".as_slice() {
        Some(Kind::Spare)
    } else if word == b"audio".as_slice() {
        Some(Kind::Audio)
    } else if word == b"data".as_slice() {
        Some(Kind::Data)
    } else {
        None
    }
}

fn want_of(word: &[u8]) -> Option<Want>
    ensures { result ≡ want_of word.now }
{
    let (audio, video) = if word == b"av".as_slice() {
        (true, true)
    } else if word == b"a".as_slice() {
        (true, false)
    } else if word == b"v".as_slice() {
        (false, true)
    } else if word == b"n".as_slice() {
        (false, false)
    } else {
        return None;
    };
    Some(Want { audio, video })
}

/// Returns the word if it is a name: 1 to 64 letters, digits, `.`, `_` or `-`.
pub(crate) fn name_of(word: &[u8]) -> Option<&[u8]>
    ensures value { option_copied result ≡ name_of word.now }
    ensures few { IfSome result (λ name. length name.now ≤ 64) }
{
    if is_name(word) { Some(word) } else { None }
}

// SLOTS
fn pool_line(words: Option<&[u8]>) -> Option<DrillLine>
    ensures { result ≡ pool_line (option_copied words.entry) }
{
    let (slots, rest) = first_word(words?);
    let slots = count_of(slots, 65)?;
    match rest {
        Some(_) => None,
        None => Some(DrillLine::Pool(slots)),
    }
}

// BYTES ITEMS PLAYERS
fn ring_line(words: Option<&[u8]>) -> Option<DrillLine>
    ensures { result ≡ ring_line (option_copied words.entry) }
{
    let (bytes, rest) = first_word(words?);
    let bytes = number(bytes, 268_435_457)?;
    let (items, rest) = first_word(rest?);
    let items = count_of(items, 65_537)?;
    let (players, rest) = first_word(rest?);
    let players = count_of(players, 257)?;
    match rest {
        Some(_) => None,
        None => Some(DrillLine::Ring(StreamLimits {
            bytes: u64::from(bytes),
            items,
            players,
        })),
    }
}

// A pushed unit, before its body is made.
#[derive(Clone, Copy)]
struct Pushed {
    who: u32,
    kind: Kind,
    time: u32,
    len: u32,
}

// WHO KIND TIME LEN
fn read_push(words: Option<&[u8]>) -> Option<Pushed>
    ensures meaning { push_line (option_copied words.entry) ≡ option_map (λ p. push_step p.who p.kind p.time p.len) result }
    ensures fits { IfSome result (λ p. p.len ≤ most_bytes p.kind) }
{
    let (who, rest) = first_word(words?);
    let who = who_of(who)?;
    let (kind, rest) = first_word(rest?);
    let kind = kind_of(kind)?;
    let (time, rest) = first_word(rest?);
    let time = number(time, 1 << 32)?;
    let (len, rest) = first_word(rest?);
    let len = number(len, kind.most_bytes() as u64 + 1)?;
    match rest {
        Some(_) => None,
        None => Some(Pushed {
            who,
            kind,
            time,
            len,
        }),
    }
}

fn push_step(alloc: Global, pushed: Pushed) -> Result<DrillLine, OutOfMemory>
    requires { pushed.len ≤ most_bytes pushed.kind }
    ensures { IfOk result (λ line. line ≡ push_step pushed.who pushed.kind pushed.time pushed.len) }
{
    let body = Bytes::from_vec(vec![in alloc; 0; pushed.len as usize]?);
    let unit = Unit {
        kind: pushed.kind,
        time: pushed.time,
        body,
    };
    let call = Call::Push(UnitArc::new(alloc, unit)?);
    Ok(step(pushed.who, call))
}

// The caller has been fed no byte.
fn step(who: u32, call: Call) -> DrillLine
    ensures { result ≡ step who call }
{
    DrillLine::Step(Entry {
        who: u64::from(who),
        at: 0,
        call,
    })
}

fn push_line(alloc: Global, words: Option<&[u8]>) -> Result<DrillLine, LineFail>
    ensures says { IfOk result (λ l. push_line (option_copied words.entry) ≡ Some l) }
    ensures outside { (result ≡ Err LineFail.Outside) ↔ (push_line (option_copied words.entry) ≡ None) }
    ensures memory { result ≡ Err LineFail.OutOfMemory → takes_memory (push_line (option_copied words.entry)) ≡ true }
{
    let Some(pushed) = read_push(words) else {
        return Err(LineFail::Outside);
    };
    match push_step(alloc, pushed) {
        Ok(line) => Ok(line),
        Err(_) => Err(LineFail::OutOfMemory),
    }
}

// WHO
fn who_line(call: Call, words: Option<&[u8]>) -> Option<DrillLine>
    ensures { result ≡ who_line call (option_copied words.entry) }
{
    let (who, rest) = first_word(words?);
    let who = who_of(who)?;
    match rest {
        Some(_) => None,
        None => Some(step(who, call)),
    }
}

// NAME, or nothing
fn maybe_name(words: Option<&[u8]>) -> Option<Option<&[u8]>>
    ensures value { option_map option_copied result ≡ maybe_name (option_copied words.entry) }
    ensures few { IfSome result (λ o. IfSome o (λ name. length name.now ≤ 64)) }
{
    match words {
        Some(words) => {
            let (name, rest) = first_word(words);
            let name = name_of(name)?;
            match rest {
                Some(_) => None,
                None => Some(Some(name)),
            }
        }
        None => Some(None),
    }
}

// A caller, with the name that it gives, before that is copied.
#[derive(Clone, Copy)]
struct Caller<'a> {
    who: u32,
    name: Option<&'a [u8]>,
}

// WHO, or WHO NAME
fn read_caller(words: Option<&[u8]>) -> Option<Caller<'_>>
    ensures meaning { (call : ACall) (with_name : List ℕ → ACall) → named_line call with_name (option_copied words.entry)
        ≡ option_map (λ c. step c.who (call_named call with_name (option_copied c.name))) result }
    ensures few { IfSome result (λ c. IfSome c.name (λ name. length name.now ≤ 64)) }
{
    let (who, rest) = first_word(words?);
    let who = who_of(who)?;
    let name = maybe_name(rest)?;
    Some(Caller { who, name })
}

fn short_name(alloc: Global, name: &[u8]) -> Result<ShortName, OutOfMemory>
    requires { length name.now ≤ 64 }
    ensures { IfOk result (λ short. short ≡ name.now) }
{
    Ok(ShortName::new(Bytes::from_vec(Vec::from_slice(alloc, name)?)))
}

fn begin_step(alloc: Global, who: u32, name: Option<&[u8]>) -> Result<DrillLine, OutOfMemory>
    requires { IfSome name (λ n. length n.now ≤ 64) }
    ensures line { IfOk result (λ line. line ≡ step who (call_named Call.Begin Call.BeginAs (option_copied name.entry))) }
    ensures memory { OnErr result (takes_in (call_named Call.Begin Call.BeginAs (option_copied name.entry)) ≡ true) }
{
    match name {
        Some(name) => Ok(step(who, Call::BeginAs(short_name(alloc, name)?))),
        None => Ok(step(who, Call::Begin)),
    }
}

fn join_step(alloc: Global, who: u32, name: Option<&[u8]>) -> Result<DrillLine, OutOfMemory>
    requires { IfSome name (λ n. length n.now ≤ 64) }
    ensures line { IfOk result (λ line. line ≡ step who (call_named Call.Join Call.JoinAs (option_copied name.entry))) }
    ensures memory { OnErr result (takes_in (call_named Call.Join Call.JoinAs (option_copied name.entry)) ≡ true) }
{
    match name {
        Some(name) => Ok(step(who, Call::JoinAs(short_name(alloc, name)?))),
        None => Ok(step(who, Call::Join)),
    }
}

fn begin_line(alloc: Global, words: Option<&[u8]>) -> Result<DrillLine, LineFail>
    ensures says { IfOk result (λ l. named_line Call.Begin Call.BeginAs (option_copied words.entry) ≡ Some l) }
    ensures outside { (result ≡ Err LineFail.Outside) ↔ (named_line Call.Begin Call.BeginAs (option_copied words.entry) ≡ None) }
    ensures memory { result ≡ Err LineFail.OutOfMemory → takes_memory (named_line Call.Begin Call.BeginAs (option_copied words.entry)) ≡ true }
{
    let Some(caller) = read_caller(words) else {
        return Err(LineFail::Outside);
    };
    match begin_step(alloc, caller.who, caller.name) {
        Ok(line) => Ok(line),
        Err(_) => Err(LineFail::OutOfMemory),
    }
}

fn join_line(alloc: Global, words: Option<&[u8]>) -> Result<DrillLine, LineFail>
    ensures says { IfOk result (λ l. named_line Call.Join Call.JoinAs (option_copied words.entry) ≡ Some l) }
    ensures outside { (result ≡ Err LineFail.Outside) ↔ (named_line Call.Join Call.JoinAs (option_copied words.entry) ≡ None) }
    ensures memory { result ≡ Err LineFail.OutOfMemory → takes_memory (named_line Call.Join Call.JoinAs (option_copied words.entry)) ≡ true }
{
    let Some(caller) = read_caller(words) else {
        return Err(LineFail::Outside);
    };
    match join_step(alloc, caller.who, caller.name) {
        Ok(line) => Ok(line),
        Err(_) => Err(LineFail::OutOfMemory),
    }
}

// WHO PLAYER WANT
fn take_line(words: Option<&[u8]>) -> Option<DrillLine>
    ensures { result ≡ take_line (option_copied words.entry) }
{
    let (who, rest) = first_word(words?);
    let who = who_of(who)?;
    let (player, rest) = first_word(rest?);
    let player = number(player, 256)?;
    let (want, rest) = first_word(rest?);
    let want = want_of(want)?;
    match rest {
        Some(_) => None,
        None => Some(step(who, Call::Take { player, want })),
    }
}

// WHO PLAYER
fn leave_line(words: Option<&[u8]>) -> Option<DrillLine>
    ensures { result ≡ leave_line (option_copied words.entry) }
{
    let (who, rest) = first_word(words?);
    let who = who_of(who)?;
    let (player, rest) = first_word(rest?);
    let player = number(player, 256)?;
    match rest {
        Some(_) => None,
        None => Some(step(who, Call::Leave { player })),
    }
}

fn count_line(words: Option<&[u8]>) -> Option<DrillLine>
    ensures { result ≡ last (option_copied words.entry) (step 0 Call.Count) }
{
    match words {
        Some(_) => None,
        None => Some(step(0, Call::Count)),
    }
}

fn held_line(words: Option<&[u8]>) -> Option<DrillLine>
    ensures { result ≡ last (option_copied words.entry) Held }
{
    match words {
        Some(_) => None,
        None => Some(DrillLine::Held),
    }
}

// A line that takes no memory.
fn plain_line(word: &[u8], rest: Option<&[u8]>) -> Option<DrillLine>
    ensures { result ≡ plain_line word.now (option_copied rest.entry) }
{
    if word == b"ring".as_slice() {
        ring_line(rest)
    } else if word == b"pool".as_slice() {
        pool_line(rest)
    } else if word == b"held".as_slice() {
        held_line(rest)
    } else if word == b"end".as_slice() {
        who_line(Call::End, rest)
    } else if word == b"take".as_slice() {
        take_line(rest)
    } else if word == b"leave".as_slice() {
        leave_line(rest)
    } else if word == b"count".as_slice() {
        count_line(rest)
    } else {
        None
    }
}

// A line that begins with that word.
fn worded_line(alloc: Global, word: &[u8], rest: Option<&[u8]>) -> Result<DrillLine, LineFail>
    ensures says { IfOk result (λ l. worded_line word.now (option_copied rest.entry) ≡ Some l) }
    ensures outside { (result ≡ Err LineFail.Outside) ↔ (worded_line word.now (option_copied rest.entry) ≡ None) }
    ensures memory { result ≡ Err LineFail.OutOfMemory → takes_memory (worded_line word.now (option_copied rest.entry)) ≡ true }
{
    if word == b"push".as_slice() {
        return push_line(alloc, rest);
    }
    if word == b"begin".as_slice() {
        return begin_line(alloc, rest);
    }
    if word == b"join".as_slice() {
        return join_line(alloc, rest);
    }
    plain_line(word, rest).ok_or(LineFail::Outside)
}

/// Returns the meaning of a line of a drill's script, its LF left out.
///
/// The answer is `Outside` exactly if the line has none of the forms of a line, or has more than 65,536
/// bytes. A line that begins with `#` is a comment. The other forms are `ring BYTES ITEMS PLAYERS`, `pool
/// SLOTS`, `begin WHO`, `begin WHO NAME`, `push WHO KIND TIME LEN`, `end WHO`, `join WHO`, `join WHO NAME`,
/// `take WHO PLAYER WANT`, `leave WHO PLAYER`, `count` and `held`, with one space between two words. BYTES
/// is at most 268,435,456, ITEMS 1 to 65,536, PLAYERS 1 to 256, and SLOTS 1 to 64. WHO and TIME are below
/// 2^32, PLAYER is below 256, and LEN is at most the length that a unit of that KIND has. TIME is in
/// milliseconds, and LEN in bytes, which are all 0. NAME is 1 to 64 letters, digits, `.`, `_` or `-`.
/// Numbers are decimal, without a sign or a leading zero. The place of a line in a script is no matter
/// here.
///
/// `OutOfMemory` comes only at a push, and if a name is given.
pub fn drill_line(alloc: Global, line: &[u8]) -> Result<DrillLine, LineFail>
    ensures says { IfOk result (λ l. meaning line.now ≡ Some l) }
    ensures outside { (result ≡ Err LineFail.Outside) ↔ (meaning line.now ≡ None) }
    ensures memory { result ≡ Err LineFail.OutOfMemory → takes_memory (meaning line.now) ≡ true }
{
    if line.len() > 65536 {
        return Err(LineFail::Outside);
    }
    match line {
        [] => Ok(DrillLine::Nothing),
        [b'#', ..] => Ok(DrillLine::Nothing),
        _ => {
            let (word, rest) = first_word(line);
            worded_line(alloc, word, rest)
        }
    }
}
