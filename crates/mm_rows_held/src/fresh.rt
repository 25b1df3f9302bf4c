//! A database that begins without files.

ghost use Rattle.std.specs.Prelude.{◌≡◌};
ghost use Rattle.mm_rows_held.specs.Bench.{IsBench};

use crate::bench::{self, Bench, DONE, LACKS};
use mm_base::NoMemory;
use std::alloc::Global;
use std::test::Fail;

// How many files the group made, how many pieces it wrote, and how many entries it has.
fn closed(bench: &mut Bench) -> (usize, usize, u64)
    requires { IsBench bench.old }
    ensures { IsBench bench.new }
{
    match bench::close(bench) {
        Some(item) => (
            item.part.made.as_slice().len(),
            item.part.pieces.as_slice().len(),
            item.entries,
        ),
        None => (0, 0, 0),
    }
}

// Steps at the file that the engine makes and at one that isn't there, and their group.
fn outcomes(bench: &mut Bench) -> ([(u64, u64); 2], (usize, usize, u64))
    requires { IsBench bench.old }
{
    let first = bench::step(bench, false, b"000x");
    let second = bench::step(bench, true, b"100x");
    ([first, second], closed(bench))
}

fn of_no_files(alloc: Global) -> Result<([(u64, u64); 2], (usize, usize, u64)), NoMemory> {
    let mut bench = bench::fresh(alloc)?;
    Ok(outcomes(&mut bench))
}

/// The first group has the file that the engine made, and both entries.
#[test]
fn a_database_without_files_is_set_up(rt: HostRuntime) -> Result<(), Fail> {
    assert_eq!(rt;
        of_no_files(rt.alloc())?,
        ([(DONE, 7), (LACKS, 7)], (1, 1, 2))
    );
    Ok(())
}
