//! Reading words.

ghost use Rattle.std.specs.Prelude.{◌≡◌, ◌≤◌, ◌∷◌, length, position, take, option_map};
ghost use Rattle.std.specs.List.{position_or_len};
ghost use Rattle.mm_script.specs.Words.{is_space, is_other};
ghost use Rattle.mm_script.specs.Reading.{Gives, skip as skip_of, front, behind, begins_space as space_begins, next_word as next_word_of, part_at, flag_at, end_at};
ghost use Rattle.mm_script.specs.Grammar.{any};

use crate::fault::LineWhat;
use crate::stop::Stop;

/// Whether a space stands first.
pub(crate) fn begins_space(text: &str) -> bool
    ensures { result ≡ space_begins text.now }
{
    match text.as_bytes() {
        [first, ..] => *first == b' ',
        [] => false,
    }
}

fn first_space(text: &[u8]) -> Option<usize>
    ensures { result ≡ position is_space text.now }
{
    text.iter().position(|byte| *byte == b' ')
}

/// Where the first space stands, or the length of the text where there is
/// none.
fn place_of_space(text: &[u8]) -> usize
    ensures place { result ≡ position_or_len is_space text.now }
    ensures within { result ≤ length text.now }
{
    match first_space(text) {
        Some(place) => place,
        None => text.len(),
    }
}

fn first_other(text: &[u8]) -> Option<usize>
    ensures { result ≡ position is_other text.now }
{
    text.iter().position(|byte| *byte != b' ')
}

/// Where the first byte stands that is no space, or the length of the text
/// where there is none.
fn place_behind_spaces(text: &[u8]) -> usize
    ensures place { result ≡ position_or_len is_other text.now }
    ensures within { result ≤ length text.now }
{
    match first_other(text) {
        Some(place) => place,
        None => text.len(),
    }
}

/// The text behind its spaces.
pub(crate) fn skip(text: &str) -> &str
    ensures { result.now ≡ skip_of text.now }
{
    let (_spaces, rest) = text.split_at(place_behind_spaces(text.as_bytes()));
    rest
}

/// The bytes before the first space, and the text from there on.
pub(crate) fn cut(text: &str) -> (&str, &str)
    ensures front { result.0.now ≡ front text.now }
    ensures behind { result.1.now ≡ behind text.now }
{
    text.split_at(place_of_space(text.as_bytes()))
}

/// The first bytes, at most so many.
pub(crate) fn first_bytes(bytes: &[u8], count: usize) -> &[u8]
    ensures { result.now ≡ take count bytes.now }
{
    if bytes.len() < count {
        return bytes;
    }
    &bytes[..count]
}

/// The next word, and the text behind it.
#[tactic(auto, unfolding(crate::specs::Reading::next_word))]
fn next_word(text: &str) -> Option<(&str, &str)>
    ensures { option_map (λ w. (w.0.now, w.1.now)) result ≡ next_word_of text.now }
{
    if !begins_space(text) {
        return None;
    }
    let text = skip(text);
    if text.is_empty() {
        return None;
    }
    Some(cut(text))
}

/// The next word, whatever it is.
#[tactic(auto, unfolding(crate::specs::Reading::part_at))]
pub(crate) fn any_word(what: LineWhat, text: &str) -> Result<(&str, &str), Stop>
    ensures { Gives (λ x. (x.0.now, x.1.now)) result (part_at what any text.now) }
{
    match next_word(text) {
        Some(word) => Ok(word),
        None => Err(Stop::What(what)),
    }
}

/// The first word of a line, whatever it is.
#[tactic(auto, unfolding(crate::specs::Reading::part_at, crate::specs::Reading::next_word, crate::specs::Reading::skip))]
pub(crate) fn first_word(what: LineWhat, line: &str) -> Result<(&str, &str), Stop>
    ensures { Gives (λ x. (x.0.now, x.1.now)) result (part_at what any (0x20 ∷ line.now)) }
{
    let text = skip(line);
    if text.is_empty() {
        return Err(Stop::What(what));
    }
    Ok(cut(text))
}

/// Whether the next word is the one that may stand here, and the text behind
/// it.
#[tactic(auto, unfolding(crate::specs::Reading::flag_at))]
pub(crate) fn flag<'a>(due: &[u8], text: &'a str) -> (bool, &'a str)
    ensures { flag_at due.now text.now ≡ (result.0, result.1.now) }
{
    if let Some((found, rest)) = next_word(text) {
        if found.as_bytes() == due {
            return (true, rest);
        }
    }
    (false, text)
}

/// The end of a line: nothing but spaces.
#[tactic(auto, unfolding(crate::specs::Reading::end_at))]
pub(crate) fn end(text: &str) -> Result<(), Stop>
    ensures { Gives (λ _. tt) result (end_at text.now) }
{
    if skip(text).is_empty() {
        Ok(())
    } else {
        Err(Stop::What(LineWhat::Word))
    }
}
