ghost use Rattle.pes_packets.specs.Packet.{AreFlags};

use av_unit::Bytes;
use pes_packets::*;
use std::alloc::Global;
use std::test::Fail;

#[test]
fn a_section_has_its_check_and_fills_a_packet(rt: HostRuntime) -> Result<(), Fail> {
    let section = b"\x00\xb0\x0d\x00\x01\xc1\x00\x00\x00\x01\xf0\x00";
    assert_eq!(rt; crc(section), 0x2AB1_04B2);
    let mut out = Bytes::new(rt.alloc());
    let next = put_section(0, 15, b"\x00\xb0\x0d", &mut out)?;
    assert!(rt; next == 0 && out.len() == 188);
    assert!(rt;
        out.as_slice()
            .starts_with(b"\x47\x40\x00\x1f\x00\x00\xb0\x0d\xff\xff")
    );
    Ok(())
}

#[test]
fn times_at_the_wrap(rt: HostRuntime) -> Result<(), Fail> {
    let mut out = Bytes::new(rt.alloc());
    pes_header(0xE0, 8_589_934_412, 8_589_934_502, 0, &mut out)?;
    pes_header(0xC0, 0, 0, 24, &mut out)?;
    let text = b"\x00\x00\x01\xe0\x00\x00\x80\xc0\x0a\x3f\xff\xff\xfe\x99\x1f\xff\xff\xff\x4d\
\x00\x00\x01\xc0\x00\x18\x80\x80\x05\x21\x00\x01\x00\x01";
    assert_eq!(rt; out.as_slice(), text.as_slice());
    Ok(())
}

/// Returns the last packet of `len` zeros.
fn last(alloc: Global, len: usize, flags: PesFlags) -> Result<Bytes, Fail>
    requires { AreFlags flags }
{
    let pes = vec![in alloc; 0; len]?;
    let mut out = Bytes::new(alloc);
    if len > 0 {
        put_pes(0x101, 0, flags, &pes, &mut out)?;
    }
    let before = out.len().saturating_sub(188);
    Ok(out.without_front(before))
}

#[test]
fn a_packet_that_the_rest_does_not_fill(rt: HostRuntime) -> Result<(), Fail> {
    let alloc = rt.alloc();
    let silent = PesFlags {
        pcr: None,
        random: false,
        jump: false,
    };
    assert!(rt;
        last(alloc, 184, silent)?
            .as_slice()
            .starts_with(b"\x47\x41\x01\x10\x00\x00")
    );
    assert!(rt;
        last(alloc, 183, silent)?
            .as_slice()
            .starts_with(b"\x47\x41\x01\x30\x00\x00")
    );
    assert!(rt;
        last(alloc, 182, silent)?
            .as_slice()
            .starts_with(b"\x47\x41\x01\x30\x01\x00")
    );
    assert!(rt;
        last(alloc, 369, silent)?
            .as_slice()
            .starts_with(b"\x47\x01\x01\x32\xb6\x00")
    );
    let clock = PesFlags {
        pcr: Some(8_589_889_592),
        random: true,
        jump: false,
    };
    let text = b"\x47\x41\x01\x30\xb5\x50\xff\xff\xa8\x1c\x7e\x00\xff\xff";
    assert!(rt; last(alloc, 2, clock)?.as_slice().starts_with(text));
    Ok(())
}
