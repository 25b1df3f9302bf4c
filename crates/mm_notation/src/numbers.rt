//! Reading integers and hex digits.

ghost use Rattle.std.specs.Prelude.{◌≡◌, ◌<◌, ◌≤◌, ◌+◌, ◌*◌, ◌-◌, ◌^◌, length, true, false, IfOk, IfSome, nat_lt, ◌||◌, ◌==◌, if◌then◌else◌};
ghost use Rattle.hex.specs.Hex.{hex_digit_value, pair_value};
ghost use Rattle.mm_notation.specs.Grammar.{negated};
ghost use Rattle.mm_notation.specs.Reading.{Gives, is_digit as is_digit_of, digits_at, natural_at, integer_at, unsigned_at, digit_at, pair_at};

use crate::stop::Stop;
use hex::{FromHex, FromHexError};

fn is_digit(byte: u8) -> bool
    ensures { result ≡ is_digit_of byte }
{
    b'0' <= byte && byte <= b'9'
}

/// Whether another digit may stand behind those of a number.
fn may_follow(limit: u64, number: u64, digit: u64) -> bool
    requires below { number ≤ limit }
    requires limit { limit ≤ 2 ^ 63 }
    requires digit { digit < 10 }
    ensures { result ≡ (if number == 0 || nat_lt limit (number * 10 + digit) then false else true) }
{
    number != 0 && number <= (limit - digit.min(limit)) / 10 && digit <= limit
}

/// The number whose first digits are read, and the text behind its digits.
fn digits(limit: u64, number: u64, text: &[u8]) -> Result<(u64, &[u8]), Stop<'_>>
    requires below { number ≤ limit }
    requires limit { limit ≤ 2 ^ 63 }
    ensures gives { Gives (λ x. (x.0, x.1.now)) result (digits_at limit number text.now) }
    ensures most { IfOk result (λ x. x.0 ≤ limit) }
    ensures left { IfOk result (λ x. length x.1.now ≤ length text.now) }
{
    let mut found = number;
    let mut rest = text;
    'digits: while let [first, others @ ..] = rest {
        if !is_digit(*first) {
            return Ok((found, rest));
        }
        let digit = u64::from(*first - b'0');
        if !may_follow(limit, found, digit) {
            return Err(Stop::At(rest));
        }
        found = found * 10 + digit;
        rest = others;
    }
    Ok((found, rest))
}

/// A number of at most a limit, without a sign.
#[tactic(auto, unfolding(crate::specs::Reading::natural_at))]
fn natural(limit: u64, text: &[u8]) -> Result<(u64, &[u8]), Stop<'_>>
    requires { limit ≤ 2 ^ 63 }
    ensures gives { Gives (λ x. (x.0, x.1.now)) result (natural_at limit text.now) }
    ensures most { IfOk result (λ x. x.0 ≤ limit) }
    ensures left { IfOk result (λ x. length x.1.now < length text.now) }
{
    let [first, others @ ..] = text else {
        return Err(Stop::At(text));
    };
    if !is_digit(*first) {
        return Err(Stop::At(text));
    }
    let digit = u64::from(*first - b'0');
    if limit < digit {
        return Err(Stop::At(text));
    }
    digits(limit, digit, others)
}

fn negative(number: u64) -> i64
    requires { number ≤ 2 ^ 63 }
    ensures { result ≡ negated number }
{
    if number == 0 {
        return 0;
    }
    -((number - 1) as i64) - 1
}

/// An integer of 64 bits.
#[tactic(auto, unfolding(crate::specs::Reading::integer_at))]
pub(crate) fn integer(text: &[u8]) -> Result<(i64, &[u8]), Stop<'_>>
    ensures gives { Gives (λ x. (x.0, x.1.now)) result (integer_at (2 ^ 63) (2 ^ 63 - 1) text.now) }
    ensures left { IfOk result (λ x. length x.1.now < length text.now) }
{
    let [first, others @ ..] = text else {
        return Err(Stop::At(text));
    };
    if *first == b'-' {
        let (number, rest) = natural(0x8000_0000_0000_0000, others)?;
        return Ok((negative(number), rest));
    }
    let (number, rest) = natural(0x7fff_ffff_ffff_ffff, text)?;
    Ok((number as i64, rest))
}

/// An integer from 0 to `high`.
#[tactic(auto, unfolding(crate::specs::Reading::unsigned_at))]
pub(crate) fn unsigned(high: u64, text: &[u8]) -> Result<(u64, &[u8]), Stop<'_>>
    requires { high ≤ 2 ^ 63 }
    ensures gives { Gives (λ x. (x.0, x.1.now)) result (unsigned_at high text.now) }
    ensures most { IfOk result (λ x. x.0 ≤ high) }
    ensures left { IfOk result (λ x. length x.1.now < length text.now) }
{
    let [first, others @ ..] = text else {
        return Err(Stop::At(text));
    };
    if *first == b'-' {
        return natural(0, others);
    }
    natural(high, text)
}

/// The byte whose two hex digits these are.
fn byte_of(high: u8, low: u8) -> Result<u8, FromHexError>
    ensures { result ≡ pair_value high low 0 }
{
    let [byte] = <[u8; 1] as FromHex>::from_hex([high, low].as_slice())?;
    Ok(byte)
}

/// The value of a hex digit.
fn digit_value(byte: u8) -> Option<u8>
    ensures value { result ≡ hex_digit_value byte }
    ensures small { IfSome result (λ d. d < 16) }
{
    byte_of(b'0', byte).ok()
}

/// A hex digit from `low` to `high`.
#[tactic(auto, unfolding(crate::specs::Reading::digit_at))]
pub(crate) fn hex_digit(low: u8, high: u8, text: &[u8]) -> Result<(u8, &[u8]), Stop<'_>>
    ensures gives { Gives (λ x. (x.0, x.1.now)) result (digit_at low high text.now) }
    ensures small { IfOk result (λ x. x.0 < 16) }
    ensures most { IfOk result (λ x. (low ≤ x.0) × (x.0 ≤ high)) }
    ensures left { IfOk result (λ x. length x.1.now < length text.now) }
{
    let [first, others @ ..] = text else {
        return Err(Stop::At(text));
    };
    match digit_value(*first) {
        None => Err(Stop::At(text)),
        Some(digit) => {
            if low <= digit && digit <= high {
                Ok((digit, others))
            } else {
                Err(Stop::At(text))
            }
        }
    }
}

/// A byte of two hex digits.
#[tactic(auto, unfolding(crate::specs::Reading::pair_at))]
pub(crate) fn hex_pair(text: &[u8]) -> Result<(u8, &[u8]), Stop<'_>>
    ensures gives { Gives (λ x. (x.0, x.1.now)) result (pair_at text.now) }
    ensures left { IfOk result (λ x. length x.1.now < length text.now) }
{
    let [high, low, others @ ..] = text else {
        let (_, rest) = hex_digit(0, 15, text)?;
        return Err(Stop::At(rest));
    };
    match byte_of(*high, *low) {
        Ok(byte) => Ok((byte, others)),
        Err(FromHexError::InvalidHexCharacter { index, .. }) => Err(Stop::At(&text[index..])),
        Err(_) => unreachable!(),
    }
}
