//! The sections of one file are read.

ghost use Rattle.std.specs.Prelude.{◌≡◌, ◌+◌, ◌-◌, ◌^◌, ◌<◌, ◌≤◌, [], length, drop, IfOk, IfErr, IfSome, IfNone};
ghost use Rattle.mm_recover.specs.Reading.{MayFollow, IsGap, IsLast, HasMore, EndsAtGap, AreSmall};

use crate::fault::Recover;
use mm_section::{Section, read_section};
use std::alloc::Global;

/// The bytes from `at` on.
#[tactic(auto, using(std::proofs::lemmas::List::take_all))]
pub fn tail(bytes: &[u8], at: usize) -> &[u8]
    requires { at ≤ length bytes.now }
    ensures { result.now ≡ drop at bytes.now }
{
    &bytes[at..]
}

// The number of the last section.
fn last_number(sections: &[Section]) -> Option<u64>
    requires small { AreSmall sections.now }
    ensures none { IfNone result (sections.now ≡ []) }
    ensures some { IfSome result (λ n. IsLast sections.now n) }
{
    let count = sections.len();
    if count == 0 {
        None
    } else {
        Some(sections[count - 1].number)
    }
}

// The number that was due where a section of this number may not come after these, behind a readable lsn.
fn gap_before(lsn: Option<u64>, sections: &[Section], number: u64) -> Option<u64>
    requires small { AreSmall sections.now }
    ensures none { IfNone result (MayFollow lsn sections.now number) }
    ensures some { IfSome result (λ expected. IsGap lsn sections.now expected number) }
{
    match last_number(sections) {
        Some(last) if number == last + 1 => None,
        Some(last) => Some(last + 1),
        None => gap_behind(lsn, number),
    }
}

// The same of the first section.
fn gap_behind(lsn: Option<u64>, number: u64) -> Option<u64>
    ensures none { IfNone result (MayFollow lsn [] number) }
    ensures some { IfSome result (λ expected. IsGap lsn [] expected number) }
{
    let lsn = lsn?;
    if lsn < number && lsn + 1 < number {
        Some(lsn + 1)
    } else {
        None
    }
}

/// Appends the sections that stand one after another from the front of these bytes on, in the file with this id.
pub fn read_sections(
    alloc: Global,
    bytes: &[u8],
    id: u64,
    lsn: Option<u64>,
    sections: Vec<Section>,
) -> Result<Vec<Section>, Recover>
    requires small { AreSmall sections.items }
    requires id { 0 < id }
    ensures small { IfOk result (λ all. AreSmall all.items) }
    ensures more { IfOk result (λ all. HasMore lsn (id - 1) bytes.now sections.items all.items) }
    ensures gap { IfErr result (λ e. EndsAtGap lsn (id - 1) bytes.now sections.items e) }
{
    let mut sections = sections;
    let mut at = 0;
    while let Some((section, len)) = read_section(alloc, tail(bytes, at), id)? {
        if let Some(expected) = gap_before(lsn, &sections, section.number) {
            return Err(Recover::JournalGap {
                expected,
                found: section.number,
            });
        }
        sections.push(section)?;
        at += len;
    }
    Ok(sections)
}
