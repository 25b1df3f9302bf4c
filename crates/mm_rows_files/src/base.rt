//! Numbers, places and names in bytes.

use crate::judging::{same, same_bytes};
use mm_base::*;

/// One number of each width, one behind the other, from byte 1 on.
const NUMBERS: [u8; 28] = [
    0xaa, 0x34, 0x12, 0x78, 0x56, 0x34, 0x12, 0xef, 0xcd, 0xab, 0x89, 0x67, 0x45, 0x23, 0x01, 0xfe,
    0xff, 0xff, 0xff, 0x00, 0x00, 0x00, 0x00, 0x00, 0x00, 0x00, 0x80, 0xaa,
];

#[test]
fn reads_numbers(rt: HostRuntime) {
    let numbers = [
        u64::from(read_u16(&NUMBERS, 1)),
        u64::from(read_u32(&NUMBERS, 3)),
        read_u64(&NUMBERS, 7),
    ];
    same(&rt, &numbers, &[0x1234, 0x12345678, 0x0123456789abcdef]);
    let signed = [i64::from(read_i32(&NUMBERS, 15)), read_i64(&NUMBERS, 19)];
    same(&rt, &signed, &[-2, i64::MIN]);
}

#[test]
fn writes_numbers(rt: HostRuntime) {
    let mut bytes = [0xaa; 28];
    put_u16(&mut bytes, 1, 0x1234);
    put_u32(&mut bytes, 3, 0x12345678);
    put_u64(&mut bytes, 7, 0x0123456789abcdef);
    put_i32(&mut bytes, 15, -2);
    put_i64(&mut bytes, 19, i64::MIN);
    same_bytes(&rt, &bytes, &NUMBERS);
}

#[test]
fn reads_and_writes_bytes(rt: HostRuntime) {
    let mut bytes = [0xaa; 28];
    put_zeros(&mut bytes, 1, 26);
    put_bytes(&mut bytes, 26, &[7, 8]);
    let are_zero = [is_zero(&bytes, 1, 25), is_zero(&bytes, 1, 26)];
    same(&rt, &are_zero, &[true, false]);
    same_bytes(&rt, frame(&bytes, 25, 3), &[0, 7, 8]);
    same(&rt, &read_array::<2>(&NUMBERS, 2), &[0x12, 0x78]);
}

/// The place (1, 256), and null with the offset 7.
const PLACES: [u8; 16] = [
    0x01, 0x00, 0x00, 0x00, 0x00, 0x01, 0x00, 0x00, 0xff, 0xff, 0xff, 0xff, 0x07, 0x00, 0x00, 0x00,
];

#[test]
fn reads_places(rt: HostRuntime) {
    let places: [DiskLoc; 2] = read_places(&PLACES, 0);
    let [first, second] = places;
    same(
        &rt,
        &places,
        &[DiskLoc { file: 1, ofs: 256 }, DiskLoc::NULL],
    );
    let is = [
        first.is_null(),
        second.is_null(),
        spells_place(&PLACES, 0),
        spells_place(&PLACES, 8),
        second < first,
    ];
    same(&rt, &is, &[false, true, true, false, true]);
}

#[test]
fn writes_places(rt: HostRuntime) {
    let places = [DiskLoc { file: 1, ofs: 256 }, DiskLoc::NULL];
    let mut bytes = [0xaa; 16];
    put_places(&mut bytes, 0, &places);
    same_bytes(&rt, &bytes[..12], &PLACES[..12]);
    same_bytes(&rt, &bytes[12..], &[0; 4]);
}

/// The front of a name's field, from which the name is read again.
fn front_of(bytes: &[u8]) -> Option<[u8; 5]> {
    let name = Name::new(bytes)?;
    let field = name.padded();
    let again = Name::from_padded(&field)?;
    (again == name && name.bytes() == bytes).then_some(read_array(&field, 0))
}

/// A byte more than a name has at most.
const LONG: [u8; 121] = [b'x'; 121];

/// A name has 1 to 120 bytes, none of which is 00, and zeros behind it in its field.
#[test]
fn makes_and_pads_names(rt: HostRuntime) {
    for (bytes, front) in [
        (b"a.b".as_slice(), Some(*b"a.b\0\0")),
        (&LONG[..MAX_NAME_LEN], Some(*b"xxxxx")),
        (&LONG, None),
        (b"", None),
        (b"a\0b", None),
    ] {
        same(&rt, &front_of(bytes), &front);
    }
}

#[test]
fn takes_padded_names(rt: HostRuntime) {
    let are = [
        Name::from_padded(b"ab").is_some(),
        Name::from_padded(b"a\0b").is_some(),
        Name::from_padded(b"\0\0").is_some(),
        Name::from_padded(b"").is_some(),
        Name::new(b"a") < Name::new(b"a.b"),
    ];
    same(&rt, &are, &[true, false, false, false, true]);
}

#[test]
fn tells_values_apart(rt: HostRuntime) {
    let is = [
        NoMemory::from(std::alloc::AllocError) == NoMemory,
        DbNo(1) < DbNo(2),
        SessionNo(3) == SessionNo(3),
    ];
    same(&rt, &is, &[true; 3]);
}
