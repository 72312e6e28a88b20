use av_unit::Bytes;
use chunk_wire::*;
use std::test::Fail;

#[test]
fn a_header_is_written_and_read(rt: HostRuntime) -> Result<(), Fail> {
    let head = Head {
        format: 0,
        id: 4,
        field: 40,
        length: 200,
        kind: 9,
        stream: 1,
    };
    let mut bytes = Bytes::new(rt.alloc());
    write_head(&head, &mut bytes)?;
    let text = b"\x04\x00\x00\x28\x00\x00\xc8\x09\x01\x00\x00\x00";
    assert_eq!(rt; bytes.as_slice(), text.as_slice());
    let basic = Basic { format: 0, id: 4 };
    assert!(rt; read_basic(text) == Some((basic, 1)));
    assert!(rt; read_head(basic, &text[1..]) == Some((head, 11)));
    Ok(())
}
