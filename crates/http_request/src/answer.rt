//! The head of an answer (4).
ghost use Rattle.std.specs.Prelude.{◌≡◌, ◌≤◌, length};
ghost use Rattle.http_request.specs.Texts.{code_of, granted_text, text_of};

/// Why a request is refused.
#[derive(Clone, Copy, PartialEq, Eq)]
pub enum Refusal {
    /// It isn't a request of the form that is read.
    BadRequest,
    /// Its method isn't GET.
    MethodNotAllowed,
    /// No stream has the target.
    NotFound,
    /// The key isn't allowed.
    Forbidden,
    /// There is no room for one more player.
    ServiceUnavailable,
}

impl Refusal {
    /// Gives the status code (RFC 9110, section 15).
    pub fn code(self) -> u16
        ensures { result ≡ code_of self }
    {
        match self {
            Refusal::BadRequest => 400,
            Refusal::MethodNotAllowed => 405,
            Refusal::NotFound => 404,
            Refusal::Forbidden => 403,
            Refusal::ServiceUnavailable => 503,
        }
    }
}

/// Gives the whole answer to a request that is refused.
#[tactic(auto, unfolding(crate::specs::Texts::text_of))]
pub fn refusal_text(refusal: Refusal) -> &'static [u8]
    ensures text { result.now ≡ text_of refusal }
    ensures short { length result.now ≤ 100 }
{
    match refusal {
        Refusal::BadRequest => {
            b"HTTP/1.1 400 Bad Request\r\nContent-Length: 0\r\nConnection: close\r\n\r\n"
        }
        Refusal::MethodNotAllowed => {
            b"HTTP/1.1 405 Method Not Allowed\r\nContent-Length: 0\r\nConnection: close\r\n\r\n"
        }
        Refusal::NotFound => {
            b"HTTP/1.1 404 Not Found\r\nContent-Length: 0\r\nConnection: close\r\n\r\n"
        }
        Refusal::Forbidden => {
            b"HTTP/1.1 403 Forbidden\r\nContent-Length: 0\r\nConnection: close\r\n\r\n"
        }
        Refusal::ServiceUnavailable => {
            b"HTTP/1.1 503 Service Unavailable\r\nContent-Length: 0\r\nConnection: close\r\n\r\n"
        }
    }
}

/// Gives the head of the answer to a request that is granted. An FLV follows, up to the end of the
/// connection.
#[tactic(auto, unfolding(crate::specs::Texts::granted_text))]
pub fn ok_text() -> &'static [u8]
    ensures text { result.now ≡ granted_text }
    ensures short { length result.now ≤ 100 }
{
    b"HTTP/1.1 200 OK\r\nContent-Type: video/x-flv\r\nConnection: close\r\n\r\n"
}
