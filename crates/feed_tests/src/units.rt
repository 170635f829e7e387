//! The unit of timestamps: each public call once.
use sq_feed::{Timed, Unit, Units};

// A frame of 40621D.
const FRAME: [u8; 14] = [
    0x8D, 0x40, 0x62, 0x1D, 0x58, 0xC3, 0x82, 0xD6, 0x90, 0xC8, 0xAC, 0x28, 0x63, 0xA7,
];

#[test]
fn sixteen_gaps_of_ten_seconds_show_seconds(rt: HostRuntime) {
    let mut units = Units::new();
    for at in 0..17_u64 {
        units.hear(1_795_965_328 + 10 * at, 0x40621D);
    }
    assert!(rt; matches!(units.unit(false, false), Some(Unit::Seconds)));
    assert!(rt; units.unit(true, false).is_none());
}

#[test]
fn two_frames_without_times_are_all_zero(rt: HostRuntime) {
    let mut units = Units::new();
    let one = Timed {
        moment: 0,
        frame: FRAME,
    };
    units.hear_frame(&one);
    assert!(rt; units.unit(true, false).is_none());
    units.hear_frame(&one);
    assert!(rt; matches!(units.unit(true, false), Some(Unit::AllZero)));
}
