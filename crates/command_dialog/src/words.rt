ghost use Rattle.std.specs.Prelude.{◌≡◌, IfOk};
ghost use Rattle.command_dialog.specs.Words.{name_in, key_in, mark_in, without_slash};

use av_unit::{Bytes, OutOfMemory};
use std::alloc::Global;

fn mark(text: &[u8]) -> Option<usize>
    ensures { result ≡ mark_in text.now }
{
    text.iter().position(|c| *c == b'?')
}

/// Gives the bytes before the first `?`.
pub fn name_of(text: &[u8]) -> &[u8]
    ensures { result.now ≡ name_in text.now }
{
    match mark(text) {
        None => text,
        Some(i) => &text[..i],
    }
}

/// Gives the bytes after the first `?`, else none.
pub fn key_of(text: &[u8]) -> &[u8]
    ensures { result.now ≡ key_in text.now }
{
    match mark(text) {
        None => &[],
        Some(i) => &text[i + 1..],
    }
}

pub fn without_last_slash(text: &[u8]) -> &[u8]
    ensures { result.now ≡ without_slash text.now }
{
    let len = text.len();
    if len > 0 && text[len - 1] == b'/' {
        return &text[..len - 1];
    }
    text
}

pub fn bytes_of(alloc: Global, text: &[u8]) -> Result<Bytes, OutOfMemory>
    ensures { IfOk result (λ bytes. bytes ≡ text.now) }
{
    Ok(Bytes::from_vec(Vec::from_slice(alloc, text)?))
}
