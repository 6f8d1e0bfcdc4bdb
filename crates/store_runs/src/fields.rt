//! Fields of a text, read and pushed one after the other.
use crate::fixtures::expect_same;
use byte_fields::{
    Cursor, Short, push_bytes, push_u8, push_u16, push_u32, push_u64, u8_at, u16_at, u32_at, u64_at,
};

// the number that the read of so many bytes answers
fn number(cursor: &mut Cursor<'_>, size: u8) -> Result<u64, Short> {
    Ok(match size {
        1 => u64::from(cursor.u8()?),
        2 => u64::from(cursor.u16()?),
        4 => u64::from(cursor.u32()?),
        _ => cursor.u64()?,
    })
}

fn counted<'a>(cursor: &mut Cursor<'a>, size: u8) -> Result<&'a [u8], Short> {
    match size {
        1 => cursor.counted8(),
        2 => cursor.counted16(),
        _ => cursor.counted32(),
    }
}

// How many bytes a number has, a text, and what the read answers.
const NUMBERS: &[(&str, u8, &[u8], Result<u64, Short>)] = &[
    ("no byte of 1", 1, b"", Err(Short { at: 0 })),
    ("1 byte", 1, b"\x07", Ok(7)),
    ("1 byte and another", 1, b"\xff\x01", Ok(255)),
    ("1 byte of 2", 2, b"\x01", Err(Short { at: 1 })),
    ("2 bytes", 2, b"\x01\x02", Ok(0x0102)),
    ("2 bytes and another", 2, b"\xfe\x02\x03", Ok(0xfe02)),
    ("3 bytes of 4", 4, b"\x01\x02\x03", Err(Short { at: 3 })),
    ("4 bytes", 4, b"PST1", Ok(0x5053_5431)),
    (
        "4 bytes and another",
        4,
        b"\x00\x00\x01\x02\x03",
        Ok(0x0102),
    ),
    (
        "7 bytes of 8",
        8,
        b"\x01\x02\x03\x04\x05\x06\x07",
        Err(Short { at: 7 }),
    ),
    (
        "8 bytes",
        8,
        b"\x01\x02\x03\x04\x05\x06\x07\x08",
        Ok(0x0102_0304_0506_0708),
    ),
];

#[test]
fn a_number_has_its_highest_byte_first(rt: HostRuntime) {
    for (case, size, text, want) in NUMBERS {
        expect_same(&rt, case, number(&mut Cursor::over(text), *size), *want);
    }
}

#[test]
fn a_number_is_read_at_its_offset(rt: HostRuntime) {
    let text = b"\x01\x02\x03\x04\x05\x06\x07\x08\x09";
    expect_same(&rt, "u8_at", u8_at(text, 8), 9);
    expect_same(&rt, "u16_at", u16_at(text, 1), 0x0203);
    expect_same(&rt, "u32_at", u32_at(text, 5), 0x0607_0809);
    expect_same(&rt, "u64_at", u64_at(text, 1), 0x0203_0405_0607_0809);
}

// How many bytes a count has, a text, and what the read answers.
const COUNTED: &[(&str, u8, &[u8], Result<&[u8], Short>)] = &[
    ("no count of 1", 1, b"", Err(Short { at: 0 })),
    ("a count of 1, no byte", 1, b"\x00", Ok(b"")),
    ("a count of 1", 1, b"\x02ab", Ok(b"ab")),
    ("a count of 1, and another byte", 1, b"\x02abc", Ok(b"ab")),
    (
        "a count of 1, a byte less",
        1,
        b"\x03ab",
        Err(Short { at: 3 }),
    ),
    ("half a count of 2", 2, b"\x00", Err(Short { at: 1 })),
    ("a count of 2", 2, b"\x00\x02ab", Ok(b"ab")),
    (
        "a count of 2, bytes less",
        2,
        b"\x02\x00ab",
        Err(Short { at: 4 }),
    ),
    (
        "half a count of 4",
        4,
        b"\x00\x00\x00",
        Err(Short { at: 3 }),
    ),
    ("a count of 4, no byte", 4, b"\x00\x00\x00\x00", Ok(b"")),
    ("a count of 4", 4, b"\x00\x00\x00\x03abc", Ok(b"abc")),
    (
        "a count of 4, a byte less",
        4,
        b"\x00\x00\x00\x04abc",
        Err(Short { at: 7 }),
    ),
];

#[test]
fn counted_bytes_are_all_there(rt: HostRuntime) {
    for (case, size, text, want) in COUNTED {
        expect_same(&rt, case, counted(&mut Cursor::over(text), *size), *want);
    }
}

#[test]
fn fields_follow_one_another(rt: HostRuntime) {
    let mut cursor = Cursor::over(b"\x09\x00\x02ab\x01\x02");
    expect_same(&rt, "u8", cursor.u8(), Ok(9));
    expect_same(&rt, "past a byte", cursor.at(), 1);
    expect_same(&rt, "counted16", cursor.counted16(), Ok(b"ab".as_slice()));
    expect_same(&rt, "past the counted bytes", cursor.at(), 5);
    expect_same(&rt, "u16", cursor.u16(), Ok(0x0102));
    expect_same(
        &rt,
        "at the end",
        (cursor.at(), cursor.is_at_end()),
        (7, true),
    );
}

// A length of 258 bytes, of which none is there, and neither are four bytes.
#[test]
fn a_field_that_is_not_there_is_not_passed(rt: HostRuntime) {
    let mut cursor = Cursor::over(b"\x09\x01\x02");
    expect_same(&rt, "u8", cursor.u8(), Ok(9));
    expect_same(&rt, "counted16", cursor.counted16(), Err(Short { at: 3 }));
    expect_same(&rt, "u32", cursor.u32(), Err(Short { at: 3 }));
    expect_same(
        &rt,
        "not passed",
        (cursor.at(), cursor.is_at_end()),
        (1, false),
    );
}

#[test]
fn pushes_add_at_the_end(rt: HostRuntime) {
    let mut out = Vec::new(rt.alloc());
    push_u8(&mut out, 0x01).expect(&rt, "memory");
    push_u16(&mut out, 0x0203).expect(&rt, "memory");
    push_u32(&mut out, 0x0405_0607).expect(&rt, "memory");
    push_u64(&mut out, 0x0809_0a0b_0c0d_0e0f).expect(&rt, "memory");
    push_bytes(&mut out, b"").expect(&rt, "memory");
    push_bytes(&mut out, b"\x10\x11").expect(&rt, "memory");
    let want = b"\x01\x02\x03\x04\x05\x06\x07\x08\x09\x0a\x0b\x0c\x0d\x0e\x0f\x10\x11";
    expect_same(&rt, "the bytes", out.as_slice(), want.as_slice());
}
