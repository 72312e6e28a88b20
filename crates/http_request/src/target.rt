//! The method and the target of a request (3.1, 3.2).
ghost use Rattle.std.specs.Prelude.{◌≡◌, ◌==◌};
ghost use Rattle.std.specs.List.{position};
ghost use Rattle.http_request.specs.Targets.{after_first, before_first, is_get_method, pair_of, plain, target_of};

/// The app, the name and the key of a target. Each is a part of it.
#[derive(Clone, Copy)]
pub struct Names<'a> {
    pub app: &'a [u8],
    pub name: &'a [u8],
    /// The bytes after the first `?`, else empty.
    pub key: &'a [u8],
}

/// Tells whether the method is GET.
pub fn is_get(method: &[u8]) -> bool
    ensures { result ≡ is_get_method method.now }
{
    method == b"GET".as_slice()
}

// Gives the first place of a byte.
fn place_of(byte: u8, text: &[u8]) -> Option<usize>
    ensures { result ≡ position (λ c. c == byte) text.now }
{
    text.iter().position(|c| *c == byte)
}

// Gives the bytes before the first such byte, or all.
fn before(byte: u8, text: &[u8]) -> &[u8]
    ensures { result.now ≡ before_first byte text.now }
{
    match place_of(byte, text) {
        None => text,
        Some(i) => &text[..i],
    }
}

// Gives the bytes after it, or none.
fn after(byte: u8, text: &[u8]) -> &[u8]
    ensures { result.now ≡ after_first byte text.now }
{
    match place_of(byte, text) {
        None => &[],
        Some(i) => &text[i + 1..],
    }
}

// Reads the names of a path without its first `/`.
fn pair_in<'a>(path: &'a [u8], key: &'a [u8]) -> Option<Names<'a>>
    ensures { plain result ≡ pair_of path.now key.now }
{
    match place_of(b'/', path) {
        None => None,
        Some(i) => {
            let app = &path[..i];
            match path[i + 1..].strip_suffix(b".flv") {
                None => None,
                Some(name) => Some(Names { app, name, key }),
            }
        }
    }
}

/// Reads the names of a target of the form `/APP/NAME.flv`, or `/APP/NAME.flv?KEY` with a key; a target of
/// another form has none. The app ends at the second `/`, the key begins at the first `?`. Nothing is
/// decoded: `%20` is these three bytes.
pub fn names_in(target: &[u8]) -> Option<Names<'_>>
    ensures { plain result ≡ target_of target.now }
{
    let key = after(b'?', target);
    match before(b'?', target) {
        [b'/', path @ ..] => pair_in(path, key),
        _ => None,
    }
}
