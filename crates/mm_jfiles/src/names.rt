//! The names of the journal's files.

ghost use Rattle.std.specs.Prelude.{◌≡◌, ◌≢◌, ℕ, ◌<◌, ◌^◌, IfOk, IfSome, IfNone, string_bytes};
ghost use Rattle.mm_jfiles.specs.Names.{journal_name, lsn_name};

use std::alloc::{AllocError, Global};

/// The name of the journal's file of this number.
#[tactic(auto, unfolding(crate::specs::Names::journal_name))]
pub fn file_name(alloc: Global, number: u64) -> Result<String, AllocError>
    ensures { IfOk result (λ name. string_bytes name ≡ journal_name number) }
{
    format!(in alloc; "journal/j._{number}")
}

/// The number of the journal's file of this name, which is below 2^32 and has no zero in front, or None where it is none.
pub fn file_number(alloc: Global, name: &str) -> Result<Option<u64>, AllocError>
    ensures some { IfOk result (λ found. IfSome found (λ n. (n < 2 ^ 32) × (name.now ≡ journal_name n))) }
    ensures none { IfOk result (λ found. IfNone found ((n : ℕ) → n < 2 ^ 32 → name.now ≢ journal_name n)) }
{
    let Some(digits) = name.strip_prefix("journal/j._") else {
        return Ok(None);
    };
    let Ok(number) = digits.parse::<u32>() else {
        return Ok(None);
    };
    let number = number as u64;
    let its_name = file_name(alloc, number)?;
    if its_name.as_str() == name {
        Ok(Some(number))
    } else {
        Ok(None)
    }
}

/// The name of the lsn file.
#[tactic(auto, unfolding(crate::specs::Names::lsn_name))]
pub(crate) fn lsn_name() -> &'static str
    ensures { result.now ≡ lsn_name }
{
    "journal/lsn"
}
