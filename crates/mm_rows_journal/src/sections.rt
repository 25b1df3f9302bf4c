//! Sections in bytes. The hashes were worked out by Python's hashlib.

use md5::{Digest, Md5};
use mm_section::{Section, read_section, write_section};
use std::alloc::Global;
use std::test::Fail;

/// The section 1 in the file with id 1, without a part, up to its padding.
const EMPTY: [u8; 52] = [
    52, 0, 0, 0, 1, 0, 0, 0, 0, 0, 0, 0, 1, 0, 0, 0, 0, 0, 0, 0, 255, 255, 255, 255, 58, 68, 28,
    243, 252, 143, 34, 207, 38, 5, 113, 233, 213, 33, 10, 164, 0, 0, 0, 0, 0, 0, 0, 0, 10, 10, 10,
    10,
];

/// The section 7 in the file with id 2, of the databases `a` and `b_1`, up to its padding.
const WHOLE: [u8; 121] = [
    121, 0, 0, 0, 7, 0, 0, 0, 0, 0, 0, 0, 2, 0, 0, 0, 0, 0, 0, 0, 254, 255, 255, 255, 97, 0, 253,
    255, 255, 255, 0, 0, 0, 0, 0, 16, 0, 0, 2, 0, 0, 0, 8, 0, 0, 0, 0, 0, 0, 0, 120, 121, 1, 0, 0,
    0, 11, 0, 0, 0, 0, 0, 0, 0, 122, 254, 255, 255, 255, 98, 95, 49, 0, 4, 0, 0, 0, 0, 16, 0, 0,
    255, 255, 255, 127, 110, 97, 109, 101, 255, 255, 255, 255, 137, 16, 47, 248, 2, 180, 149, 39,
    85, 128, 178, 227, 84, 51, 115, 31, 0, 0, 0, 0, 0, 0, 0, 0, 10, 10, 10, 10,
];

/// How many bits the entries of `WHOLE` have.
const ENTRY_BITS: usize = 552;

/// One bit of a byte.
const BITS: [u8; 8] = [1, 2, 4, 8, 16, 32, 64, 128];

/// The first bytes, so many, or all where there are fewer.
fn front(bytes: &[u8], len: usize) -> &[u8] {
    if len < bytes.len() {
        &bytes[..len]
    } else {
        bytes
    }
}

/// These bytes, and zeros behind them up to 8192.
fn padded(alloc: Global, front: &[u8]) -> Result<Vec<u8>, Fail> {
    let mut all = front.to_vec(alloc)?;
    all.resize(8192, 0)?;
    Ok(all)
}

/// What a section says, as a text.
fn told(alloc: Global, section: &Section, len: usize) -> Result<String, Fail> {
    let mut text = format!(in alloc; "{} of {len}:", section.number)?;
    for part in section.parts.as_slice() {
        write!(text, " {:?}", part.name.as_slice())?;
        for made in part.made.as_slice() {
            write!(text, " {}={}", made.file, made.len)?;
        }
        for piece in part.pieces.as_slice() {
            write!(
                text,
                " {}+{} {:?}",
                piece.file,
                piece.at,
                piece.bytes.as_slice()
            )?;
        }
    }
    Ok(text)
}

/// What the section at the front says, and the bytes that it is written as again.
fn again(alloc: Global, input: &[u8], id: u64) -> Result<Option<(String, Vec<u8>)>, Fail> {
    match read_section(alloc, input, id)? {
        Some((section, len)) => {
            let mut out = Vec::new(alloc);
            write_section(&section, id, &mut out)?;
            Ok(Some((told(alloc, &section, len)?, out)))
        }
        None => Ok(None),
    }
}

fn is_read(alloc: Global, input: &[u8], id: u64) -> Result<bool, Fail> {
    Ok(read_section(alloc, input, id)?.is_some())
}

#[test]
fn a_section_without_parts(rt: HostRuntime) -> Result<(), Fail> {
    let input = padded(rt.alloc(), &EMPTY)?;
    let (text, out) = again(rt.alloc(), &input, 1)?.ok_or("none")?;
    assert_eq!(rt; text.as_str(), "1 of 8192:");
    assert_eq!(rt; out.as_slice(), input.as_slice());
    assert!(rt; !is_read(rt.alloc(), &input, 2)?);
    assert!(rt; !is_read(rt.alloc(), front(&input, 8191), 1)?);
    Ok(())
}

#[test]
fn a_section_of_two_databases(rt: HostRuntime) -> Result<(), Fail> {
    let mut input = padded(rt.alloc(), &WHOLE)?;
    input.push(0x77)?;
    let (text, out) = again(rt.alloc(), &input, 2)?.ok_or("none")?;
    assert_eq!(rt;
        text.as_str(),
        "7 of 8192: [97] 0=4096 0+8 [120, 121] 0+11 [122] [98, 95, 49] 2147483647+4096 [110, 97, 109, 101]"
    );
    assert_eq!(rt; out.as_slice(), front(&input, 8192));
    Ok(())
}

/// How many of the flips of one bit leave a section, among the first bytes, which are the section and some of its padding.
fn flips(alloc: Global, input: &mut [u8]) -> Result<usize, Fail> {
    let mut left: usize = 0;
    for i in 0..input.len().min(128) {
        for bit in BITS {
            input[i] ^= bit;
            if is_read(alloc, input, 2)? {
                left = left.saturating_add(1);
            }
            input[i] ^= bit;
        }
    }
    Ok(left)
}

#[test]
fn no_flipped_section_is_read(rt: HostRuntime) -> Result<(), Fail> {
    let mut input = padded(rt.alloc(), &WHOLE)?;
    assert_eq!(rt; flips(rt.alloc(), &mut input)?, 0);
    if let Some(last) = input.last_mut() {
        *last = 1;
    }
    assert!(rt; !is_read(rt.alloc(), &input, 2)?);
    Ok(())
}

/// How many of the flips of one bit of the entries leave a section where the hash is made right again, and the sum of their places.
fn resealed_flips(alloc: Global, input: &mut [u8]) -> Result<(usize, usize), Fail> {
    let mut left: (usize, usize) = (0, 0);
    if input.len() < 121 {
        return Ok(left);
    }
    for place in 0..ENTRY_BITS {
        input[20 + place / 8] ^= BITS[place % 8];
        let hash = Md5::digest(front(input, 89));
        input[93..109].copy_from_slice(&hash);
        if is_read(alloc, input, 2)? {
            left = (left.0.saturating_add(1), left.1.saturating_add(place));
        }
        input[20 + place / 8] ^= BITS[place % 8];
    }
    Ok(left)
}

/// The count and the sum are those of a reader of its own in Python.
#[test]
fn the_grammar_refuses_all_others(rt: HostRuntime) -> Result<(), Fail> {
    let mut input = padded(rt.alloc(), &WHOLE)?;
    assert_eq!(rt; resealed_flips(rt.alloc(), &mut input)?, (134, 49205));
    Ok(())
}
