//! The words of the command line.
ghost use Rattle.std.specs.Prelude.{◌≡◌, IfSome, map, true};
ghost use Rattle.std.specs.Option.{option_map};
ghost use Rattle.client_command.specs.Words.{AreShort, IsShort, is_short};
ghost use Rattle.edge_serve.specs.Words.{asked_by, asked_of, pull_of};

use client_command::Target;

// Whether a word has 1 to 255 bytes.
fn is_short(word: &[u8]) -> bool
    ensures value { result ≡ is_short word.now }
    ensures short { result ≡ true → IsShort word.now }
{
    0 < word.len() && word.len() <= 255
}

// The request in these words.
fn asked_by<'a>(word: &[u8], address: &'a [u8], app: &'a [u8], name: &'a [u8]) -> Option<Target<'a>>
    ensures asked { option_map (λ t. pull_of t.address.now t.app.now t.name.now) result ≡ asked_by word.now address.now app.now name.now }
    ensures short { IfSome result (λ t. AreShort t.address.now t.app.now t.name.now) }
{
    if word == b"edge".as_slice() && is_short(address) && is_short(app) && is_short(name) {
        Some(Target { address, app, name })
    } else {
        None
    }
}

/// Returns the request in the words, if they are `edge FILE ADDRESS APP NAME`. ADDRESS, APP and NAME have 1 to
/// 255 bytes.
pub fn edge_target(words: &[Vec<u8>]) -> Option<Target<'_>>
    ensures asked { option_map (λ t. pull_of t.address.now t.app.now t.name.now) result ≡ asked_of (map (λ w. w.items) words.now) }
    ensures short { IfSome result (λ t. AreShort t.address.now t.app.now t.name.now) }
{
    match words {
        [word, _, address, app, name] => asked_by(
            word.as_slice(),
            address.as_slice(),
            app.as_slice(),
            name.as_slice(),
        ),
        _ => None,
    }
}
