use crate::starved::Starved;
use file_commands::remux;
use relay_outside::MemSource;
use std::alloc::Global;
use std::test::Fail;

// A configuration of AAC LC with 44,100 samples a second, and a frame of nine bytes.
const SOUND: &[u8] = b"FLV\x01\x05\x00\x00\x00\x09\x00\x00\x00\x00\
    \x08\x00\x00\x04\x00\x00\x00\x00\x00\x00\x00\xaf\x00\x12\x10\x00\x00\x00\x0f\
    \x08\x00\x00\x0b\x00\x00\x00\x00\x00\x00\x00\xaf\x01123456789\x00\x00\x00\x16";

// Returns how `remux` of the audio ends if there is memory for `puts` puts, and the number of bytes that it
// wrote.
fn starved(alloc: Global, puts: u64) -> Result<Vec<u8>, Fail> {
    let words = vec![in alloc; b"remux".to_vec(alloc)?]?;
    let mut input = MemSource::new(vec![in alloc; SOUND.to_vec(alloc)?]?, Vec::new(alloc));
    let mut out = Starved {
        list: Vec::new(alloc),
        puts,
        slow: false,
    };
    let status = remux(alloc, &words, &mut input, &mut out);
    drop(input);
    let code = status.code;
    let len = out.list.len();
    drop(out);
    let line = format!(in alloc; "code {code} after {len} bytes\n")?;
    Ok(line.as_str().as_bytes().to_vec(alloc)?)
}

// The program's own sink asks for no memory, so tests/rows can't show this.
#[test]
fn want_of_memory_in_the_sink_is_told_as_such(rt: HostRuntime) -> Result<(), Fail> {
    let alloc = rt.alloc();
    let mut text = starved(alloc, 0)?;
    text.extend_from_slice(&starved(alloc, 1)?)?;
    assert_eq!(rt;
        text.as_slice(),
        b"code 6 after 0 bytes\ncode 0 after 564 bytes\n".as_slice()
    );
    Ok(())
}
