//! Fields and remainders of real frames, and the table against the plain remainder.
use sq_bits::{Frame, laws, pins, remainder, sealed};

const AIR_EVEN: Frame = Frame([
    0x8D, 0x40, 0x62, 0x1D, 0x58, 0xC3, 0x82, 0xD6, 0x90, 0xC8, 0xAC, 0x28, 0x63, 0xA7,
]);

const ZERO: Frame = Frame([0; 14]);

// Returns the remainder, computed bit by bit as a reference.
fn plain_remainder(frame: &Frame) -> u32 {
    let mut remainder: u32 = 0;
    for bit in 1..=112u8 {
        remainder = (remainder & 0x7F_FFFF) << 1
            ^ overflow_of(remainder)
            ^ frame.field(bit, 1) as u32;
    }
    remainder
}

// Returns the generator without its highest coefficient if the highest of the remainder's 24 bits is about to be
// shifted out, and otherwise 0.
fn overflow_of(remainder: u32) -> u32 {
    if remainder & 0x80_0000 == 0 {
        0
    } else {
        0xFF_F409
    }
}

#[test]
fn reads_fields(rt: HostRuntime) {
    assert!(rt; AIR_EVEN.field(1, 5) == 17);
    assert!(rt; AIR_EVEN.field(6, 3) == 5);
    assert!(rt; AIR_EVEN.field(9, 24) == 0x40621D);
    assert!(rt; AIR_EVEN.field(33, 56) == 0x58C382D690C8AC);
    assert!(rt; AIR_EVEN.field(112, 1) == 1);
}

#[test]
fn writes_fields(rt: HostRuntime) {
    let written = ZERO
        .with_field(1, 5, 17)
        .with_field(6, 3, 5)
        .with_field(9, 24, 0x40621D);
    let written = written.with_field(33, 56, 0x58C382D690C8AC);
    assert!(rt; written.with_field(89, 24, 0x2863A7) == AIR_EVEN);
    assert!(rt; AIR_EVEN.with_field(6, 3, 5) == AIR_EVEN);
}

#[test]
fn joins_two_words(rt: HostRuntime) {
    assert!(rt; Frame::of_words(0x8D40621D, 0x58C382D690C8AC) == AIR_EVEN);
    assert!(rt; Frame::of_words(0, 0) == ZERO);
    let ones = [
        255, 255, 255, 255, 255, 255, 255, 255, 255, 255, 255, 0xD1, 0xD9, 0x4C,
    ];
    assert!(rt; Frame::of_words(0xFFFF_FFFF, 0xFF_FFFF_FFFF_FFFF) == Frame(ones));
    assert!(rt;
        Frame::of_words(0, 1) == Frame([0, 0, 0, 0, 0, 0, 0, 0, 0, 0, 1, 0xFF, 0xF4, 0x09])
    );
}

#[test]
fn takes_remainders_of_single_bits(rt: HostRuntime) {
    assert!(rt; remainder(&ZERO) == 0);
    for (bit, want) in [(112, 1), (88, 0xFFF409), (87, 0x001C1B), (81, 0x0706C0)] {
        assert!(rt; remainder(&ZERO.with_field(bit, 1, 1)) == want);
    }
}

#[test]
fn takes_remainders_of_bytes(rt: HostRuntime) {
    for (byte, want) in [
        (0, 0),
        (1, 0xFFF409),
        (2, 0x001C1B),
        (3, 0xFFE812),
        (128, 0x0706C0),
    ] {
        assert!(rt; remainder(&ZERO.with_field(81, 8, byte)) == want);
    }
}

#[test]
fn seals(rt: HostRuntime) {
    assert!(rt; remainder(&AIR_EVEN) == 0);
    assert!(rt; sealed(&AIR_EVEN.with_field(89, 24, 0)) == AIR_EVEN);
    assert!(rt; sealed(&AIR_EVEN) == AIR_EVEN);
}

#[test]
fn agrees_with_the_plain_remainder(rt: HostRuntime) {
    let mut frame = AIR_EVEN;
    for round in 0..2_000u64 {
        let mixed = (frame.field(57, 56) ^ round * 0x9E37_79B9) & 0xFF_FFFF_FFFF_FFFF;
        frame = frame
            .with_field(1, 56, frame.field(50, 56))
            .with_field(57, 56, mixed);
        assert!(rt;
            remainder(&frame) == plain_remainder(&frame),
            "round {round}"
        );
        assert!(rt; remainder(&sealed(&frame)) == 0);
    }
}

#[test]
fn adds_remainders(rt: HostRuntime) {
    pins::one_remainder();
    pins::apart_exactly();
    laws::sum_of_frames();
    laws::each_frame(&AIR_EVEN);
    pins::fields_kept_exactly();
    assert!(rt; pins::equal_frames(&AIR_EVEN, &AIR_EVEN) && !pins::equal_frames(&AIR_EVEN, &ZERO));
    for bit in 1..=112u8 {
        let flipped = AIR_EVEN.with_field(bit, 1, AIR_EVEN.field(bit, 1) ^ 1);
        assert!(rt; remainder(&flipped) == remainder(&ZERO.with_field(bit, 1, 1)));
    }
}
