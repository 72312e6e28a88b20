//! The head of a request, as far as its bytes have come.
ghost use Rattle.std.specs.Prelude.{◌≡◌, take};
ghost use Rattle.http_request.specs.Heads.{IsRead, front, read_as};

use httparse::Status;
use httparse::spans::{EMPTY_HEADER_SPAN, parse_request};

/// The longest head, in bytes.
pub const HEAD_MOST: usize = 4_096;

// The largest number of headers of a head.
const HEADERS_MOST: usize = 64;

/// The verdict on the bytes that came, as the beginning of a request.
#[derive(Clone, Copy, PartialEq, Eq)]
pub enum Head<'a> {
    /// Its head isn't whole yet.
    Unfinished,
    /// It isn't a request of the form that is read.
    Refused,
    /// It has this method and this target.
    Asks { method: &'a [u8], target: &'a [u8] },
}

// Gives the first `count` bytes, or all.
fn first(bytes: &[u8], count: usize) -> &[u8]
    ensures { result.now ≡ take count bytes.now }
{
    &bytes[..count.min(bytes.len())]
}

// Gives the part of the bytes that is looked at.
fn first_part(received: &[u8]) -> &[u8]
    ensures { result.now ≡ front received.now }
{
    first(received, HEAD_MOST)
}

/// Reads the head of a request (3), of at most 4,096 bytes and 64 headers, from all bytes that came. It is
/// refused in three cases: no further bytes can make it a head, it has more headers, or 4,096 bytes hold no
/// whole head.
pub fn read_head(received: &[u8]) -> Head<'_>
    ensures { IsRead received.now (read_as result) }
{
    let front = first_part(received);
    let mut headers = [EMPTY_HEADER_SPAN; HEADERS_MOST];
    match parse_request(front, &mut headers) {
        Ok(Status::Complete(head)) => Head::Asks {
            method: head.method.of(front),
            target: head.path.of(front),
        },
        Ok(Status::Partial) => {
            if received.len() < HEAD_MOST {
                return Head::Unfinished;
            }
            Head::Refused
        }
        Err(_) => Head::Refused,
    }
}
