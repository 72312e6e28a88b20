use http_request::{Head, read_head};
use std::alloc::{AllocError, Global};
use std::test::Fail;

/// Returns one letter for the result of reading bytes: U unfinished, R refused, A a whole head.
fn letter(bytes: &[u8]) -> u8 {
    match read_head(bytes) {
        Head::Unfinished => b'U',
        Head::Refused => b'R',
        Head::Asks { .. } => b'A',
    }
}

/// Heads as clients send them: curl, ffmpeg, VLC, mpv, Chromium and Firefox.
const CLIENTS: [&[u8]; 6] = [
    b"GET /live/cam.flv?key HTTP/1.1\r\nHost: 127.0.0.1:8080\r\nUser-Agent: curl/8.5.0\r\nAccept: */*\r\n\r\n",
    b"GET /live/cam.flv?key HTTP/1.1\r\nUser-Agent: Lavf/60.16.100\r\nAccept: */*\r\nRange: bytes=0-\r\nConnection: close\r\nHost: 127.0.0.1:8080\r\nIcy-MetaData: 1\r\n\r\n",
    b"GET /live/cam.flv?key HTTP/1.1\r\nHost: 127.0.0.1:8080\r\nAccept: */*\r\nAccept-Language: en_US\r\nUser-Agent: VLC/3.0.20 LibVLC/3.0.20\r\nRange: bytes=0-\r\n\r\n",
    b"GET /live/cam.flv?key HTTP/1.1\r\nUser-Agent: libmpv\r\nAccept: */*\r\nRange: bytes=0-\r\nConnection: close\r\nHost: 127.0.0.1:8080\r\nIcy-MetaData: 1\r\n\r\n",
    b"GET /live/cam.flv?key HTTP/1.1\r\nHost: 127.0.0.1:8080\r\nConnection: keep-alive\r\nsec-ch-ua: \"Chromium\";v=\"120\", \"Not?A_Brand\";v=\"8\"\r\nsec-ch-ua-mobile: ?0\r\nUser-Agent: Mozilla/5.0 (X11; Linux x86_64) AppleWebKit/537.36 (KHTML, like Gecko) Chrome/120.0.0.0 Safari/537.36\r\nsec-ch-ua-platform: \"Linux\"\r\nAccept: */*\r\nSec-Fetch-Site: same-origin\r\nSec-Fetch-Mode: cors\r\nSec-Fetch-Dest: empty\r\nReferer: http://127.0.0.1:8080/\r\nAccept-Encoding: gzip, deflate, br\r\nAccept-Language: en-US,en;q=0.9\r\n\r\n",
    b"GET /live/cam.flv?key HTTP/1.1\r\nHost: 127.0.0.1:8080\r\nUser-Agent: Mozilla/5.0 (X11; Linux x86_64; rv:121.0) Gecko/20100101 Firefox/121.0\r\nAccept: */*\r\nAccept-Language: en-US,en;q=0.5\r\nAccept-Encoding: gzip, deflate\r\nConnection: keep-alive\r\nSec-Fetch-Dest: empty\r\nSec-Fetch-Mode: cors\r\nSec-Fetch-Site: same-origin\r\n\r\n",
];

/// Returns the least number of its first bytes that aren't read as unfinished, or all.
fn decided_at(head: &[u8]) -> usize {
    for n in 0..head.len() {
        if letter(&head[..n]) != b'U' {
            return n;
        }
    }
    head.len()
}

#[test]
fn heads_of_clients_are_read_at_their_last_byte(rt: HostRuntime) {
    for head in CLIENTS {
        assert!(rt; letter(head) == b'A' && decided_at(head) == head.len());
    }
}

const FORMS: [&[u8]; 10] = [
    b"GET / HTTP/1.0\r\n\r\n",
    b"GET / HTTP/1.1\n\n",
    b"\r\nGET / HTTP/1.1\r\n\r\n",
    b"GET http://h/live/cam.flv HTTP/1.1\r\n\r\n",
    b"GET / HTTP/1.1\r\n\r\nGET / HTTP/1.1\r\n\r\n",
    b"GET / HTTP/2.0\r\n\r\n",
    b"GET  / HTTP/1.1\r\n\r\n",
    b"GET /\r\n\r\n",
    b"\x03\x00",
    b"",
];

#[test]
fn forms_of_heads(rt: HostRuntime) -> Result<(), Fail> {
    let mut letters = Vec::new(rt.alloc());
    for head in FORMS {
        letters.push(letter(head))?;
    }
    assert_eq!(rt; letters.as_slice(), b"AAAAARRRRU".as_slice());
    Ok(())
}

/// Returns the letter of `count` headers, followed by the bytes `behind`.
fn of_headers(alloc: Global, count: usize, behind: &[u8]) -> Result<u8, AllocError> {
    let mut head = Vec::from_slice(alloc, b"GET / HTTP/1.1\r\n")?;
    for _ in 0..count {
        head.extend_from_slice(b"A: b\r\n")?;
    }
    head.extend_from_slice(behind)?;
    Ok(letter(&head))
}

/// Returns the letter of `count` bytes of a head, 19 or more, followed by the bytes `behind`.
fn of_bytes(alloc: Global, count: usize, behind: &[u8]) -> Result<u8, AllocError> {
    let mut head = Vec::from_slice(alloc, b"GET / HTTP/1.1\r\nA: ")?;
    for _ in 19..count {
        head.push(b'b')?;
    }
    head.extend_from_slice(behind)?;
    Ok(letter(&head))
}

#[test]
fn a_head_has_64_headers_at_most(rt: HostRuntime) -> Result<(), Fail> {
    let alloc = rt.alloc();
    let letters = [
        of_headers(alloc, 64, b"")?,
        of_headers(alloc, 64, b"\r\n")?,
        of_headers(alloc, 64, b"A: b\r")?,
        of_headers(alloc, 64, b"A: b\r\nA")?,
    ];
    assert_eq!(rt; letters, *b"UAUR");
    Ok(())
}

#[test]
fn a_head_has_4096_bytes_at_most(rt: HostRuntime) -> Result<(), Fail> {
    let alloc = rt.alloc();
    let letters = [
        of_bytes(alloc, 4_095, b"")?,
        of_bytes(alloc, 4_096, b"")?,
        of_bytes(alloc, 4_091, b"\r\n\r\n")?,
        of_bytes(alloc, 4_092, b"\r\n\r\n")?,
        of_bytes(alloc, 4_093, b"\r\n\r\n")?,
    ];
    assert_eq!(rt; letters, *b"URAAR");
    Ok(())
}
