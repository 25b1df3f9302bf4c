//! The frames of the journal in bytes.

use crate::frames::missing;
use crate::judging::{same, same_bytes};
use mm_base::{is_zero, put_u16};
use mm_frames::*;

/// The header of the section 1 of the file with id 1, which has no entry.
const SECTION: [u8; 20] = [
    0x34, 0, 0, 0, 1, 0, 0, 0, 0, 0, 0, 0, 1, 0, 0, 0, 0, 0, 0, 0,
];

/// Eight bytes at 100 of the `.ns` file.
const RANGE: [u8; 12] = [8, 0, 0, 0, 100, 0, 0, 0, 0xff, 0xff, 0xff, 0x7f];

/// The file 1, of 4096 bytes.
const MADE: [u8; 12] = [0xfd, 0xff, 0xff, 0xff, 1, 0, 0, 0, 0, 0x10, 0, 0];

/// A footer with the hash of the bytes 1 to 16.
const FOOTER: [u8; 32] = [
    0xff, 0xff, 0xff, 0xff, 1, 2, 3, 4, 5, 6, 7, 8, 9, 10, 11, 12, 13, 14, 15, 16, 0, 0, 0, 0, 0,
    0, 0, 0, 10, 10, 10, 10,
];

#[test]
fn spells_sections(rt: HostRuntime) {
    let expected = SectionHeader {
        len: 52,
        number: 1,
        file_id: 1,
    };
    same(&rt, &read_section_header(&SECTION, 0), &expected);
    same_bytes(&rt, &section_header_frame(&expected), &SECTION);
}

#[test]
fn spells_entries(rt: HostRuntime) {
    let range = EntryHead {
        len: 8,
        ofs: 100,
        file: 0x7fff_ffff,
    };
    same(&rt, &read_entry_head(&RANGE, 0), &range);
    same_bytes(&rt, &entry_head_frame(&range), &RANGE);
    let made = MadeEntry { file: 1, len: 4096 };
    same(&rt, &read_made_entry(&MADE, 0), &made);
    same_bytes(&rt, &made_entry_frame(&made), &MADE);
    same(&rt, &[NAME_WORD, FOOTER_WORD], &[0xffff_fffe, 0xffff_ffff]);
}

#[test]
fn spells_footers(rt: HostRuntime) {
    let footer = Footer {
        hash: [1, 2, 3, 4, 5, 6, 7, 8, 9, 10, 11, 12, 13, 14, 15, 16],
    };
    same(&rt, &read_footer(&FOOTER, 0), &footer);
    same_bytes(&rt, &footer_frame(&footer), &FOOTER);
    let mut bytes = FOOTER;
    bytes[31] = 0;
    let are = [
        is_footer(&FOOTER, 0, &footer),
        is_footer(&bytes, 0, &footer),
    ];
    same(&rt, &are, &[true, false]);
}

/// The front of the lsn file of section 3; 64 zeros follow.
const LSN: [u8; 24] = [
    1, 0, 0, 0, 0, 0, 0, 0, 3, 0, 0, 0, 0, 0, 0, 0, 0xfc, 0xff, 0xff, 0xff, 0xff, 0xff, 0xff, 0xff,
];

#[test]
fn spells_lsn(rt: HostRuntime) {
    let mut bytes = [0xaa; LSN_LEN];
    put_lsn(&mut bytes, 3);
    same_bytes(&rt, &bytes[..24], &LSN);
    same_bytes(&rt, &bytes[24..], &[0; 64]);
    same(&rt, &[read_lsn(&bytes), read_lsn(&LSN)], &[Some(3), None]);
    // a version, the number beside its complement, and the last byte
    for at in [0usize, 8, 16, 87] {
        let mut other = bytes;
        other[at] = 7;
        same(&rt, &read_lsn(&other), &None);
    }
}

/// Where the header of the file with id 2 has bytes other than zeros.
const HEADER_PARTS: [(usize, &[u8]); 3] = [
    (0, b"j\n\x01\x4d\n                    \n"),
    (154, b"\n\n\x02\0\0\0\0\0\0\0"),
    (8190, b"\n\n"),
];

#[test]
fn spells_journal_headers(rt: HostRuntime) {
    let mut bytes = [0xaa; JOURNAL_HEADER_LEN];
    put_journal_header(&mut bytes, 2);
    same(&rt, &missing(&bytes, &HEADER_PARTS), &None);
    let are_zero = [is_zero(&bytes, 26, 128), is_zero(&bytes, 164, 8026)];
    same(&rt, &are_zero, &[true; 2]);
}

#[test]
fn tells_journal_headers_apart(rt: HostRuntime) {
    let mut bytes = [0xaa; JOURNAL_HEADER_LEN];
    put_journal_header(&mut bytes, 2);
    let ours = read_journal_header(&bytes, 2);
    let other_file = read_journal_header(&bytes, 3);
    let short = read_journal_header(b"j\n\x01\x4d\n", 2);
    // another version, and that without a mark
    put_u16(&mut bytes, 2, 0x4d02);
    let other_version = read_journal_header(&bytes, 2);
    bytes[25] = 0;
    let unmarked = read_journal_header(&bytes, 2);
    same(
        &rt,
        &[ours, other_file, short, other_version, unmarked],
        &[
            HeaderKind::Ours,
            HeaderKind::Broken,
            HeaderKind::Broken,
            HeaderKind::Foreign,
            HeaderKind::Broken,
        ],
    );
}
