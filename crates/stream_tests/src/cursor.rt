use av_unit::{Head, Kind, Slot, Want};
use player_cursor::*;
use std::test::Fail;

const BOTH: Want = Want {
    audio: true,
    video: true,
};

const SOUND: Want = Want {
    audio: true,
    video: false,
};

#[test]
fn a_chain_is_whole_until_a_frame_is_passed_over(rt: HostRuntime) -> Result<(), Fail> {
    let mut cursor = Cursor::at(5);
    cursor.pass(Head::Begin, true);
    cursor.config(Slot::Audio, 3);
    assert!(rt; !cursor.look(Head::Unit(Kind::Inter), BOTH, false));
    cursor.pass(Head::Unit(Kind::Key), true);
    assert!(rt; cursor.whole() && cursor.look(Head::Unit(Kind::Inter), BOTH, true));
    assert!(rt; cursor.look(Head::Unit(Kind::Spare), BOTH, false));
    assert!(rt; !cursor.look(Head::Unit(Kind::Spare), BOTH, true));
    assert!(rt; !cursor.look(Head::Unit(Kind::Inter), SOUND, false));
    cursor.pass(Head::Unit(Kind::VConfig), true);
    cursor.pass(Head::Unit(Kind::Spare), false);
    cursor.skip(12, Some(6));
    assert!(rt; cursor.whole());
    assert_eq!(rt; cursor.next(), 12);
    assert_eq!(rt; cursor.last(Slot::Meta), None);
    assert_eq!(rt; cursor.last(Slot::Video), Some(7));
    assert_eq!(rt; cursor.last(Slot::Audio), Some(3));
    cursor.skip(20, Some(15));
    assert!(rt; !cursor.whole());
    Ok(())
}
