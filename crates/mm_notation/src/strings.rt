//! Reading strings.

ghost use Rattle.std.specs.Prelude.{◌≡◌, ◌<◌, ◌≤◌, ◌+◌, ◌^◌, ℕ, List, ◌∷◌, ◌++◌, [], length, true, false, IsTrue, IfOk, option_map, Some, None};
ghost use Rattle.std.specs.Char.{encode_utf8};
ghost use Rattle.mm_notation.specs.Grammar.{escaped};
ghost use Rattle.mm_notation.specs.Reading.{Gives, many_at, hex_item, hex_at, pairs_at, unit_at, character_at, escape_at, piece_item, piece_bytes, string_at};

use crate::bytes::{after_byte, after_word};
use crate::numbers::{hex_digit, hex_pair};
use crate::stop::Stop;
use mm_bson::{Text, is_text};
use std::alloc::{AllocError, Global};

/// What a piece of a string stands for.
#[derive(Clone, Copy)]
pub(crate) enum Piece {
    Byte(u8),
    Character(char),
}

/// A byte, or none behind the last quote.
#[tactic(auto, unfolding(crate::specs::Reading::hex_item))]
fn hex_byte(text: &[u8]) -> Result<(Option<u8>, &[u8]), Stop<'_>>
    ensures gives { Gives (λ x. (x.0, x.1.now)) result (hex_item text.now) }
    ensures left { IfOk result (λ x. length x.1.now < length text.now) }
{
    let [first, others @ ..] = text else {
        return Err(Stop::At(text));
    };
    if *first == b'"' {
        return Ok((None, others));
    }
    let (byte, rest) = hex_pair(text)?;
    Ok((Some(byte), rest))
}

fn hex_bytes(alloc: Global, text: &[u8]) -> Result<(Vec<u8>, &[u8]), Stop<'_>>
    ensures gives { Gives (λ x. (x.0.items, x.1.now)) result (many_at [] (λ b bytes. b ∷ bytes) hex_item text.now) }
    ensures left { IfOk result (λ x. length x.1.now < length text.now) }
{
    let mut found = Vec::new(alloc);
    let mut rest = text;
    'bytes: loop {
        let (byte, after) = hex_byte(rest)?;
        let Some(byte) = byte else {
            return Ok((found, after));
        };
        found.push(byte)?;
        rest = after;
    }
}

/// Bytes in hex digits between quotes.
pub(crate) fn hex(alloc: Global, text: &[u8]) -> Result<(Vec<u8>, &[u8]), Stop<'_>>
    ensures gives { Gives (λ x. (x.0.items, x.1.now)) result (hex_at text.now) }
    ensures left { IfOk result (λ x. length x.1.now < length text.now) }
{
    let rest = after_byte(b'"', text)?;
    hex_bytes(alloc, rest)
}

/// A unit of UTF-16 in four hex digits.
#[tactic(auto, unfolding(crate::specs::Reading::unit_at))]
fn unit(second: bool, named: bool, text: &[u8]) -> Result<(u32, &[u8]), Stop<'_>>
    ensures gives { Gives (λ x. (x.0, x.1.now)) result (unit_at second named text.now) }
    ensures small { IfOk result (λ x. x.0 < 0x1_0000) }
    ensures first { second ≡ false → IfOk result (λ x. 0xDC00 ≤ x.0 → 0xE000 ≤ x.0) }
    ensures second { second ≡ true → IfOk result (λ x. (0xDC00 ≤ x.0) × (x.0 < 0xE000)) }
    ensures left { IfOk result (λ x. length x.1.now < length text.now) }
{
    let (a, rest) = hex_digit(
        if second { 13 } else { 0 },
        if second { 13 } else { 15 },
        text,
    )?;
    let most = if !second && a == 13 { 11 } else { 15 };
    let (b, rest) = hex_digit(if second { 12 } else { 0 }, most, rest)?;
    let (c, rest) = hex_digit(0, 15, rest)?;
    let (d, rest) = hex_digit(if named && a + b + c == 0 { 1 } else { 0 }, 15, rest)?;
    let high = u32::from(a) * 16 + u32::from(b);
    let low = u32::from(c) * 16 + u32::from(d);
    Ok((high * 256 + low, rest))
}

/// The character of which a first unit is read.
#[tactic(auto, unfolding(crate::specs::Reading::character_at))]
fn character(unit_read: u32, text: &[u8]) -> Result<(char, &[u8]), Stop<'_>>
    requires small { unit_read < 0x1_0000 }
    requires first { 0xDC00 ≤ unit_read → 0xE000 ≤ unit_read }
    ensures gives { Gives (λ x. (encode_utf8 x.0, x.1.now)) result (character_at unit_read text.now) }
    ensures left { IfOk result (λ x. length x.1.now ≤ length text.now) }
{
    if 0xD800 <= unit_read && unit_read < 0xDC00 {
        let rest = after_word(b"\\u", text)?;
        let (low, rest) = unit(true, false, rest)?;
        let code = 0x1_0000 + (unit_read - 0xD800) * 0x400 + (low - 0xDC00);
        let Some(found) = char::from_u32(code) else {
            unreachable!();
        };
        return Ok((found, rest));
    }
    let Some(found) = char::from_u32(unit_read) else {
        unreachable!();
    };
    Ok((found, text))
}

fn letter(byte: u8) -> Option<u8>
    ensures { result ≡ escaped byte }
{
    match byte {
        b'"' => Some(0x22),
        b'\\' => Some(0x5c),
        b'/' => Some(0x2f),
        b'b' => Some(0x08),
        b'f' => Some(0x0c),
        b'n' => Some(0x0a),
        b'r' => Some(0x0d),
        b't' => Some(0x09),
        _ => None,
    }
}

/// What stands behind a `\`.
#[tactic(auto, unfolding(crate::specs::Reading::escape_at))]
fn escape(named: bool, text: &[u8]) -> Result<(Piece, &[u8]), Stop<'_>>
    ensures gives { Gives (λ x. (piece_bytes x.0, x.1.now)) result (escape_at named text.now) }
    ensures left { IfOk result (λ x. length x.1.now < length text.now) }
{
    let [first, others @ ..] = text else {
        return Err(Stop::At(text));
    };
    if *first == b'u' {
        let (first_unit, rest) = unit(false, named, others)?;
        let (found, rest) = character(first_unit, rest)?;
        return Ok((Piece::Character(found), rest));
    }
    match letter(*first) {
        None => Err(Stop::At(text)),
        Some(byte) => Ok((Piece::Byte(byte), others)),
    }
}

/// A piece, or none behind the last quote.
#[tactic(auto, unfolding(crate::specs::Reading::piece_item))]
fn next_piece(named: bool, text: &[u8]) -> Result<(Option<Piece>, &[u8]), Stop<'_>>
    ensures gives { Gives (λ x. (option_map piece_bytes x.0, x.1.now)) result (piece_item named text.now) }
    ensures left { IfOk result (λ x. length x.1.now < length text.now) }
{
    let [first, others @ ..] = text else {
        return Err(Stop::At(text));
    };
    if *first == b'"' {
        return Ok((None, others));
    }
    if *first == b'\\' {
        let (found, rest) = escape(named, others)?;
        return Ok((Some(found), rest));
    }
    if *first < 0x20 {
        return Err(Stop::At(text));
    }
    Ok((Some(Piece::Byte(*first)), others))
}

fn push_piece(found: &mut Vec<u8>, piece: Piece) -> Result<(), AllocError>
    ensures { IfOk result (λ _. found.new.items ≡ found.old.items ++ piece_bytes piece) }
{
    match piece {
        Piece::Byte(byte) => Ok(found.push(byte)?),
        Piece::Character(character) => {
            let mut bytes = [0; 4];
            found.extend_from_slice(character.encode_utf8(&mut bytes).as_bytes())
        }
    }
}

fn inside(alloc: Global, named: bool, text: &[u8]) -> Result<(Vec<u8>, &[u8]), Stop<'_>>
    ensures gives { Gives (λ x. (x.0.items, x.1.now)) result (many_at [] (λ piece bytes. piece ++ bytes) (piece_item named) text.now) }
    ensures left { IfOk result (λ x. length x.1.now < length text.now) }
{
    let mut found = Vec::new(alloc);
    let mut rest = text;
    'pieces: loop {
        let (next, after) = next_piece(named, rest)?;
        let Some(next) = next else {
            return Ok((found, after));
        };
        push_piece(&mut found, next)?;
        rest = after;
    }
}

/// A string between quotes. In a name no character is 0.
#[tactic(auto, unfolding(crate::specs::Reading::string_at))]
pub(crate) fn string(alloc: Global, named: bool, text: &[u8]) -> Result<(Text, &[u8]), Stop<'_>>
    ensures gives { Gives (λ x. (x.0, x.1.now)) result (string_at named text.now) }
    ensures left { IfOk result (λ x. length x.1.now < length text.now) }
{
    let rest = after_byte(b'"', text)?;
    let (bytes, rest) = inside(alloc, named, rest)?;
    if !is_text(bytes.as_slice()) {
        return Err(Stop::At(rest));
    }
    Ok((Text::from_slice(alloc, bytes.as_slice())?, rest))
}
