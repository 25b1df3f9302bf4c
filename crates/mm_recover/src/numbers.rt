//! The numbers of the journal's files that are there.

ghost use Rattle.std.specs.Prelude.{◌≡◌, ◌<◌, ◌^◌, ℕ, ◌||◌, ◌&&◌, nat_lt, map, string_bytes, IfOk};
ghost use Rattle.std.specs.Ordering.{nat_cmp};
ghost use Rattle.std.specs.List.Sorted.{IsStrictlySortedBy};
ghost use Rattle.std.specs.BTreeSet.{contains};
ghost use Rattle.std.specs.FinMap.{keys};
ghost use Rattle.mm_outside.specs.Image.{Image};
ghost use Rattle.mm_crash.specs.Recovered.{journal_of};
ghost use Rattle.mm_journal.proofs.Real.{the_names};
ghost use Rattle.mm_recover.specs.Reading.{AreNumbers, is_number_of, has_number};
ghost use Rattle.mm_recover.specs.Closing.{AreNumbersOfFiles};

use mm_jfiles::file_number;
use std::alloc::{AllocError, Global};
use std::collections::BTreeSet;

// The number of the journal's file of this name is put to the others, if it is one's name.
fn add_number(
    alloc: Global,
    numbers: BTreeSet<u64>,
    name: &str,
) -> Result<BTreeSet<u64>, AllocError>
    ensures { IfOk result (λ all. (n : ℕ) → contains nat_cmp all n ≡ (is_number_of name.now n || contains nat_cmp numbers n)) }
{
    let Some(number) = file_number(alloc, name)? else {
        return Ok(numbers);
    };
    let mut numbers = numbers;
    numbers.insert(number)?;
    Ok(numbers)
}

// The numbers of all these names.
fn number_set(alloc: Global, names: &[String]) -> Result<BTreeSet<u64>, AllocError>
    ensures { IfOk result (λ all. (n : ℕ) → contains nat_cmp all n ≡ has_number (map string_bytes names.now) n) }
{
    let mut numbers = BTreeSet::new(alloc);
    for name in names {
        numbers = add_number(alloc, numbers, name)?;
    }
    Ok(numbers)
}

// The set's numbers, from the least on.
fn in_order(alloc: Global, set: &BTreeSet<u64>) -> Result<Vec<u64>, AllocError>
    ensures all { IfOk result (λ numbers. numbers.items ≡ set.now.keys) }
    ensures rising { IfOk result (λ numbers. IsStrictlySortedBy nat_cmp numbers.items) }
{
    let mut numbers = Vec::new(alloc);
    for number in set {
        numbers.push(*number)?;
    }
    Ok(numbers)
}

/// The numbers of the journal's files among these names, from the least on.
pub fn numbers_of(alloc: Global, names: &[String]) -> Result<Vec<u64>, AllocError>
    ensures files { IfOk result (λ numbers. AreNumbersOfFiles numbers.items) }
    ensures all { IfOk result (λ numbers. (image : Image) → map string_bytes names.now ≡ keys image → AreNumbers (journal_of the_names image) 0 numbers.items) }
{
    let set = number_set(alloc, names)?;
    in_order(alloc, &set)
}
