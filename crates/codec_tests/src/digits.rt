//! Texts in buffers, and numbers as digits in them.
use sq_digits::{
    DIGIT_LANES, TextBuffer, count_digits, decode_28, decode_40, push_decimal, push_digit,
    push_hexadecimal, push_leading, push_short, push_signed_decimal, push_signed_short,
    push_six_places, push_three,
};

// Returns a number as decimal digits.
fn decimal(number: u64) -> TextBuffer<20> {
    let mut text = TextBuffer::new();
    push_decimal(&mut text, number);
    text
}

// Numbers at each change of their length, as decimal digits.
const DECIMALS: [(u64, &str); 20] = [
    (0, "0"),
    (9, "9"),
    (10, "10"),
    (99, "99"),
    (100, "100"),
    (999, "999"),
    (1_000, "1000"),
    (10_007, "10007"),
    (999_999, "999999"),
    (1_000_000, "1000000"),
    (12_000_345, "12000345"),
    (999_999_999, "999999999"),
    (1_000_000_000, "1000000000"),
    (1_000_999_999_999, "1000999999999"),
    (1_790_000_000_123, "1790000000123"),
    (20_003_000_400_005, "20003000400005"),
    (999_999_999_999_999, "999999999999999"),
    (1_000_000_000_000_000, "1000000000000000"),
    (1_234_567_890_123_456, "1234567890123456"),
    (18_446_744_073_709_551_615, "18446744073709551615"),
];

#[test]
fn decimals_of_each_length(rt: HostRuntime) {
    for (number, digits) in DECIMALS {
        assert!(rt; decimal(number).as_str() == digits, "{digits}");
    }
}

#[test]
fn short_numbers(rt: HostRuntime) {
    let mut text = TextBuffer::<32>::new();
    push_leading(&mut text, 7);
    push_leading(&mut text, 42);
    push_leading(&mut text, 900);
    text.push(b' ');
    push_three(&mut text, 7);
    push_three(&mut text, 42);
    push_three(&mut text, 999);
    push_digit(&mut text, 0);
    assert!(rt; text.as_str() == "742900 0070429990");
}

#[test]
fn numbers_below_a_million(rt: HostRuntime) {
    let mut text = TextBuffer::<40>::new();
    push_short(&mut text, 0);
    text.push(b' ');
    push_short(&mut text, 999);
    text.push(b' ');
    push_short(&mut text, 1_000);
    text.push(b' ');
    push_short(&mut text, 131_071);
    text.push(b' ');
    push_short(&mut text, 999_999);
    assert!(rt; text.as_str() == "0 999 1000 131071 999999");
}

// Signed numbers, as decimal digits.
const SIGNED: [(i64, &str); 6] = [
    (0, "0"),
    (-1, "-1"),
    (1_000_000, "1000000"),
    (-1_790_000_000_123, "-1790000000123"),
    (9_223_372_036_854_775_807, "9223372036854775807"),
    (-9_223_372_036_854_775_808, "-9223372036854775808"),
];

#[test]
fn signed_numbers(rt: HostRuntime) {
    for (number, digits) in SIGNED {
        let mut text = TextBuffer::<24>::new();
        push_signed_decimal(&mut text, number);
        assert!(rt; text.as_str() == digits, "{digits}");
    }
}

#[test]
fn short_signed_numbers(rt: HostRuntime) {
    let mut text = TextBuffer::<40>::new();
    push_signed_short(&mut text, 0);
    text.push(b' ');
    push_signed_short(&mut text, -999_999);
    text.push(b' ');
    push_signed_short(&mut text, 50_175);
    assert!(rt; text.as_str() == "0 -999999 50175");
}

#[test]
fn hexadecimal_places(rt: HostRuntime) {
    let mut text = TextBuffer::<28>::new();
    push_six_places(&mut text, 0xFEDC_BA98);
    push_six_places(&mut text, 0x0A);
    push_hexadecimal(&mut text, 0x1_23AF, 4);
    push_hexadecimal(&mut text, 0x1F, 12);
    assert!(rt; text.as_str() == "DCBA9800000A23AF00000000001F");
    assert!(rt; text.len() == 28);
}

#[test]
fn counts_digits_at_the_front(rt: HostRuntime) {
    assert!(rt; DIGIT_LANES == 16);
    let rows: [(&[u8], usize); 5] = [
        (b" 234567890123456", 0),
        (b"1/34567890123456", 1),
        (b"12345678901234:6", 14),
        (b"123456789012345 ", 15),
        (b"12345678901234567", 16),
    ];
    for (text, count) in rows {
        assert!(rt; count_digits(text) == count);
    }
}

#[test]
fn decodes_digits_of_either_case(rt: HostRuntime) {
    assert!(rt;
        decode_28(b"00010203040506070809aAbBcCdD")
            == Some([0, 1, 2, 3, 4, 5, 6, 7, 8, 9, 0xAA, 0xBB, 0xCC, 0xDD,])
    );
    assert!(rt;
        decode_40(b"8D40621D58C382D690C8AC2863A70123456789fe")
            == Some([
                0x8D, 0x40, 0x62, 0x1D, 0x58, 0xC3, 0x82, 0xD6, 0x90, 0xC8, 0xAC, 0x28, 0x63, 0xA7,
                0x01, 0x23, 0x45, 0x67, 0x89, 0xFE,
            ])
    );
}

// The bytes next to the digits and the letters.
const NO_DIGITS: [u8; 6] = [b'/', b':', b'@', b'G', b'`', b'g'];

#[test]
fn decodes_digits_alone(rt: HostRuntime) {
    for byte in NO_DIGITS {
        for at in 0..28 {
            let mut digits = [b'0'; 28];
            digits[at] = byte;
            assert!(rt; decode_28(&digits).is_none());
        }
        for at in 0..40 {
            let mut digits = [b'0'; 40];
            digits[at] = byte;
            assert!(rt; decode_40(&digits).is_none());
        }
    }
}

#[test]
fn a_text_grows_and_is_cleared(rt: HostRuntime) {
    let mut text = TextBuffer::<6>::new();
    assert!(rt; text.is_empty());
    text.push_front(b"even", 2);
    text.push_str("\u{b0}");
    text.push_front(b"ab", 0);
    text.push(b'!');
    assert!(rt; text.as_bytes() == b"ev\xC2\xB0!".as_slice());
    assert!(rt; text.len() == 5 && !text.is_empty());
    text.clear();
    assert!(rt; text.is_empty() && text.as_str() == "");
    text.push_str("sixsix");
    assert!(rt; text.as_str() == "sixsix");
}
