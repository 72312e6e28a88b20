use http_request::{Names, Refusal, is_get, names_in, ok_text, refusal_text};
use std::alloc::AllocError;
use std::test::Fail;

/// Writes the names of a target and its key, or a dash.
fn show(out: &mut Vec<u8>, target: &[u8]) -> Result<(), AllocError> {
    match names_in(target) {
        None => out.extend_from_slice(b"-;"),
        Some(Names { app, name, key }) => {
            out.extend_from_slice(app)?;
            out.extend_from_slice(b" ")?;
            out.extend_from_slice(name)?;
            out.extend_from_slice(b" ")?;
            out.extend_from_slice(key)?;
            out.extend_from_slice(b";")
        }
    }
}

const TARGETS: [&[u8]; 14] = [
    b"/live/cam.flv",
    b"/live/cam.flv?abc",
    b"/live/cam.flv?",
    b"/live/cam.flv?a?b=/c",
    b"/live/a%20b.flv",
    b"/live/a/b.flv",
    b"/live/.flv",
    b"//cam.flv",
    b"http://h/live/cam.flv",
    b"live/cam.flv",
    b"/cam.flv",
    b"/live/cam.mp4",
    b"/live/cam?.flv",
    b"*",
];

const SHOWN: &[u8] =
    b"live cam ;live cam abc;live cam ;live cam a?b=/c;live a%20b ;live a/b ;live  ; cam ;-;-;-;-;-;-;";

#[test]
fn targets_and_their_names(rt: HostRuntime) -> Result<(), Fail> {
    let mut out = Vec::new(rt.alloc());
    for target in TARGETS {
        show(&mut out, target)?;
    }
    assert_eq!(rt; out.as_slice(), SHOWN);
    Ok(())
}

#[test]
fn methods_and_texts(rt: HostRuntime) {
    assert!(rt; is_get(b"GET") && !is_get(b"HEAD") && !is_get(b"get"));
    assert!(rt; Refusal::ServiceUnavailable.code() == 503 && ok_text().len() == 65);
    assert_eq!(rt;
        refusal_text(Refusal::NotFound),
        b"HTTP/1.1 404 Not Found\r\nContent-Length: 0\r\nConnection: close\r\n\r\n".as_slice()
    );
}
