use relay_base::{be16, be24, be32, le32};
use std::test::Fail;

#[test]
fn numbers_are_read_in_their_order(rt: HostRuntime) -> Result<(), Fail> {
    let bytes = [1, 2, 3, 4, 255];
    assert_eq!(rt; be16(&bytes), 258);
    assert_eq!(rt; be24(&bytes), 66_051);
    assert_eq!(rt; be32(&bytes), 16_909_060);
    assert_eq!(rt; le32(&bytes), 67_305_985);
    Ok(())
}
