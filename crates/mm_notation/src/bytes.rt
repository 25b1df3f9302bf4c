//! Reading single bytes, words and marks.

ghost use Rattle.std.specs.Prelude.{◌≡◌, ◌<◌, ◌≤◌, ◌+◌, length, IfOk};
ghost use Rattle.mm_notation.specs.Reading.{Gives, byte_at, skip as skip_of, word_at, mark_at};

use crate::stop::Stop;

/// The text behind a byte.
#[tactic(auto, unfolding(crate::specs::Reading::byte_at))]
pub(crate) fn after_byte(byte: u8, text: &[u8]) -> Result<&[u8], Stop<'_>>
    ensures gives { Gives (λ r. (tt, r.now)) result (byte_at byte text.now) }
    ensures left { IfOk result (λ r. length r.now < length text.now) }
{
    match text {
        [] => Err(Stop::At(text)),
        [first, rest @ ..] => {
            if *first == byte {
                Ok(rest)
            } else {
                Err(Stop::At(text))
            }
        }
    }
}

/// The text behind its spaces.
pub(crate) fn skip(text: &[u8]) -> &[u8]
    ensures gives { result.now ≡ skip_of text.now }
    ensures left { length result.now ≤ length text.now }
{
    let mut rest = text;
    'spaces: while let [0x20, others @ ..] = rest {
        rest = others;
    }
    rest
}

/// The text behind a word.
#[tactic(auto, unfolding(crate::specs::Reading::word_at))]
pub(crate) fn after_word<'a>(word: &[u8], text: &'a [u8]) -> Result<&'a [u8], Stop<'a>>
    ensures gives { Gives (λ r. (tt, r.now)) result (word_at word.now text.now) }
    ensures left { IfOk result (λ r. length r.now + length word.now ≤ length text.now) }
{
    let mut rest = text;
    'word: for byte in word {
        rest = after_byte(*byte, rest)?;
    }
    Ok(rest)
}

/// The text behind spaces and a byte.
#[tactic(auto, unfolding(crate::specs::Reading::mark_at))]
pub(crate) fn after_mark(byte: u8, text: &[u8]) -> Result<&[u8], Stop<'_>>
    ensures gives { Gives (λ r. (tt, r.now)) result (mark_at byte text.now) }
    ensures left { IfOk result (λ r. length r.now < length text.now) }
{
    after_byte(byte, skip(text))
}
