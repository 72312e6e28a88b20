//! The words of the command line.
ghost use Rattle.std.specs.Prelude.{◌≡◌, map};
ghost use Rattle.std.specs.List.{list_all};
ghost use Rattle.std.specs.Option.{option_map};
ghost use Rattle.stream_model.specs.Names.{is_name, is_name_byte, within};
ghost use Rattle.segment_command.specs.Words.{asked, asked_by, asked_of};

use relay_script::count_of;

/// One more than the longest least span, an hour in milliseconds.
const BOUND: u64 = 3_600_001;

fn is_name_byte(b: u8) -> bool
    ensures { result ≡ is_name_byte b }
{
    matches!(b, b'A'..=b'Z' | b'a'..=b'z' | b'0'..=b'9' | b'.' | b'_' | b'-')
}

fn are_name_bytes(word: &[u8]) -> bool
    ensures { result ≡ list_all is_name_byte word.now }
{
    word.iter().all(|b| is_name_byte(*b))
}

fn is_name_length(length: usize) -> bool
    ensures { result ≡ within 1 64 length }
{
    1 <= length && length <= 64
}

// Whether a word is a name.
fn is_name(word: &[u8]) -> bool
    ensures { result ≡ is_name word.now }
{
    is_name_length(word.len()) && are_name_bytes(word)
}

// The request in these three words.
fn asked_by<'a>(word: &[u8], name: &'a [u8], number: &[u8]) -> Option<(&'a [u8], u32)>
    ensures { option_map (λ x. asked x.0.now x.1) result ≡ asked_by word.now name.now number.now }
{
    if word == b"segment".as_slice() && is_name(name) {
        match count_of(number, BOUND) {
            Some(least) => Some((name, least)),
            None => None,
        }
    } else {
        None
    }
}

/// The name and the least span that the words ask for.
pub(crate) fn asked_of(words: &[Vec<u8>]) -> Option<(&[u8], u32)>
    ensures { option_map (λ x. asked x.0.now x.1) result ≡ asked_of (map (λ w. w.items) words.now) }
{
    match words {
        [word, name, number] => asked_by(word.as_slice(), name.as_slice(), number.as_slice()),
        _ => None,
    }
}
