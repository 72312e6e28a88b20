//! The words of the command line.
ghost use Rattle.std.specs.Prelude.{◌≡◌, IfSome, map, true};
ghost use Rattle.std.specs.Option.{option_map};
ghost use Rattle.client_command.specs.Words.{AreShort, IsShort, asked_by, asked_of, is_short, word_of};

use client_owed::Wish;

/// The request in the words: the stream NAME of the app APP at the server that ADDRESS names.
#[derive(Clone, Copy)]
pub struct Target<'a> {
    pub address: &'a [u8],
    pub app: &'a [u8],
    pub name: &'a [u8],
}

fn word_of(wish: Wish) -> &'static [u8]
    ensures { result.now ≡ word_of wish }
{
    match wish {
        Wish::Push => b"push",
        Wish::Pull => b"pull",
    }
}

// Whether a word has 1 to 255 bytes.
fn is_short(word: &[u8]) -> bool
    ensures value { result ≡ is_short word.now }
    ensures short { result ≡ true → IsShort word.now }
{
    0 < word.len() && word.len() <= 255
}

// The request in these four words.
fn asked_by<'a>(
    wish: Wish,
    word: &[u8],
    address: &'a [u8],
    app: &'a [u8],
    name: &'a [u8],
) -> Option<Target<'a>>
    ensures asked { option_map (λ t. record { wish = wish; address = t.address.now; app = t.app.now; name = t.name.now }) result ≡ asked_by wish word.now address.now app.now name.now }
    ensures short { IfSome result (λ t. AreShort t.address.now t.app.now t.name.now) }
{
    if word == word_of(wish) && is_short(address) && is_short(app) && is_short(name) {
        Some(Target { address, app, name })
    } else {
        None
    }
}

/// Returns the request in the words, if they are `push ADDRESS APP NAME`, or `pull` and the same. Each of the
/// three has 1 to 255 bytes.
pub fn target_of(wish: Wish, words: &[Vec<u8>]) -> Option<Target<'_>>
    ensures asked { option_map (λ t. record { wish = wish; address = t.address.now; app = t.app.now; name = t.name.now }) result ≡ asked_of wish (map (λ w. w.items) words.now) }
    ensures short { IfSome result (λ t. AreShort t.address.now t.app.now t.name.now) }
{
    match words {
        [word, address, app, name] => asked_by(
            wish,
            word.as_slice(),
            address.as_slice(),
            app.as_slice(),
            name.as_slice(),
        ),
        _ => None,
    }
}
