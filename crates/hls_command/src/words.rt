//! The words of the command line.
ghost use Rattle.std.specs.Prelude.{◌≡◌, map};
ghost use Rattle.std.specs.List.{list_all};
ghost use Rattle.std.specs.Option.{option_map};
ghost use Rattle.stream_model.specs.Names.{is_name, is_name_byte, within};
ghost use Rattle.hls_command.specs.Words.{asked, asked_by, asked_of, keep_of};

use relay_script::count_of;

/// One more than the greatest target, an hour in milliseconds.
const BOUND: u64 = 3_600_001;

/// One more than the greatest number of segments that are listed.
const KEEP_BOUND: u64 = 1_001;

fn is_name_byte(b: u8) -> bool
    ensures { result ≡ is_name_byte b }
{
    matches!(b, b'A'..=b'Z' | b'a'..=b'z' | b'0'..=b'9' | b'.' | b'_' | b'-')
}

fn are_name_bytes(word: &[u8]) -> bool
    ensures { result ≡ list_all is_name_byte word.now }
{
    word.iter().all(|b| is_name_byte(*b))
}

fn is_name_length(length: usize) -> bool
    ensures { result ≡ within 1 64 length }
{
    1 <= length && length <= 64
}

// Whether a word is a name.
fn is_name(word: &[u8]) -> bool
    ensures { result ≡ is_name word.now }
{
    is_name_length(word.len()) && are_name_bytes(word)
}

// The number of segments that are listed.
fn keep_of(word: &[u8]) -> Option<usize>
    ensures { result ≡ keep_of word.now }
{
    if word == b"0".as_slice() {
        return Some(usize::MAX);
    }
    match count_of(word, KEEP_BOUND) {
        Some(keep) => Some(keep as usize),
        None => None,
    }
}

// What these four words ask for.
fn asked_by<'a>(
    word: &[u8],
    name: &'a [u8],
    target: &[u8],
    last: &[u8],
) -> Option<(&'a [u8], u32, usize)>
    ensures { option_map (λ x. asked x.0.now x.1 x.2) result ≡ asked_by word.now name.now target.now last.now }
{
    if word == b"hls".as_slice() && is_name(name) {
        match (count_of(target, BOUND), keep_of(last)) {
            (Some(target), Some(keep)) => Some((name, target, keep)),
            (None, _) | (Some(_), None) => None,
        }
    } else {
        None
    }
}

/// Returns the name, the target and the number of segments in the playlist that the words ask for, or `None` if they are others.
/// The number is `usize::MAX` if the playlist lists all segments.
pub fn asked_of(words: &[Vec<u8>]) -> Option<(&[u8], u32, usize)>
    ensures { option_map (λ x. asked x.0.now x.1 x.2) result ≡ asked_of (map (λ w. w.items) words.now) }
{
    match words {
        [word, name, target, last] => asked_by(
            word.as_slice(),
            name.as_slice(),
            target.as_slice(),
            last.as_slice(),
        ),
        _ => None,
    }
}
