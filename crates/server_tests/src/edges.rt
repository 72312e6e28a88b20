//! The line of an edge in the report, by the answers of its origin.
use crate::clients::ending;
use crate::commands::{guards, source, text, words};
use crate::origins::said;
use av_unit::OutOfMemory;
use edge_serve::{Edged, edge};
use key_guard::Guards;
use relay_outside::{House, MemHouse, MemLink, MemSink};
use std::alloc::{AllocError, Global};
use std::sync::Wait;
use std::test::Fail;
use std::thread::Threads;

const CONFIG: &[u8] =
    b"[relay]\nlisten = \"127.0.0.1:1935\"\naccept = 1\n[[stream]]\napp = \"live\"\nname = \"here\"\n";

// Returns the code of an edge over that link if nobody else comes, and the report.
fn edged<T: Threads + Wait + Sync>(
    rt: &T,
    alloc: Global,
    guards: &Guards,
    house: &mut MemHouse,
    link: MemLink,
    report: &mut MemSink,
) -> Result<u8, AllocError> {
    let words = words(alloc, b"edge relay.toml 127.0.0.1:1935 live cam")?;
    let mut config = source(alloc, CONFIG)?;
    let Some(rest) = house.rest(9) else {
        return Err(AllocError);
    };
    let Edged { status, link } = edge(
        rt,
        alloc,
        &words,
        guards,
        &mut config,
        house,
        link,
        rest,
        report,
    );
    drop(link);
    Ok(status.code)
}

// The same of an origin that says this and closes.
fn told<T: Threads + Wait + Sync>(
    rt: &T,
    alloc: Global,
    version: u8,
    letters: &[u8],
) -> Result<Vec<u8>, OutOfMemory> {
    let link = ending(alloc, said(alloc, version, letters)?.into_vec())?;
    let guards = guards(alloc)?;
    let mut house = MemHouse::new(alloc, Vec::new(alloc), Vec::new(alloc));
    let mut report = MemSink::new(alloc, Vec::new(alloc));
    let code = edged(rt, alloc, &guards, &mut house, link, &mut report);
    drop(guards);
    drop(house);
    let told = text(alloc, code, b"", &report);
    drop(report);
    Ok(told?)
}

#[test]
fn a_stream_of_an_origin_is_published_here(rt: HostRuntime) -> Result<(), Fail> {
    let alloc = rt.alloc();
    let whole = told(&rt, alloc, 3, b"ASkk")?;
    assert_eq!(rt;
        whole.as_slice(),
        b"0stream 0 began 1 pushed 2 ended 1 joined 0 skips 0\nedge peerclosed\n".as_slice()
    );
    Ok(())
}

#[test]
fn the_report_tells_how_the_edge_has_ended(rt: HostRuntime) -> Result<(), Fail> {
    let alloc = rt.alloc();
    let version = told(&rt, alloc, 6, b"")?;
    assert_eq!(rt;
        version.as_slice(),
        b"0stream 0 began 0 pushed 0 ended 0 joined 0 skips 0\nedge badversion 0\n".as_slice()
    );
    let short = told(&rt, alloc, 3, b"ASkC")?;
    assert_eq!(rt;
        short.as_slice(),
        b"0stream 0 began 1 pushed 1 ended 1 joined 0 skips 0\nedge badcontrol 3259\n".as_slice()
    );
    let refused = told(&rt, alloc, 3, b"E")?;
    assert_eq!(rt;
        refused.as_slice(),
        b"0stream 0 began 0 pushed 0 ended 0 joined 0 skips 0\nedge refused\n".as_slice()
    );
    Ok(())
}
