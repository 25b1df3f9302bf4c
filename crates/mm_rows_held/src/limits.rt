//! How much a step and a group may weigh.

ghost use Rattle.std.specs.Prelude.{◌≡◌};
ghost use Rattle.mm_rows_held.specs.Bench.{IsBench};

use crate::bench::{self, Bench, DONE, FULL, TOO_LARGE};
use mm_base::NoMemory;
use std::alloc::Global;
use std::test::Fail;

/// What is asked: 67,108,853 bytes and 67,108,852 of the first file, as many of the second, and one byte of the third, twice.
const ASKED: [[u8; 4]; 5] = [
    [b'0', b'0', b'3', b'x'],
    [b'0', b'0', b'2', b'x'],
    [b'1', b'0', b'2', b'x'],
    [b'2', b'0', b'0', b'x'],
    [b'2', b'0', b'0', b'x'],
];

/// What that comes to, where the group is closed before the last.
const WANTED: [(u64, u64); 5] = [
    (TOO_LARGE, 67_108_865),
    (DONE, 7),
    (DONE, 7),
    (FULL, 134_217_741),
    (DONE, 8),
];

fn outcomes(bench: &mut Bench) -> [(u64, u64); 5]
    requires { IsBench bench.old }
{
    let mut all = [(0, 0); 5];
    for i in 0..5 {
        if i == 4 {
            let _ = bench::close(bench);
        }
        all[i] = bench::step(bench, false, &ASKED[i]);
    }
    all
}

fn of_large_files(alloc: Global) -> Result<[(u64, u64); 5], NoMemory> {
    let mut bench = bench::loaded(alloc, 67_108_864, 4096)?;
    Ok(outcomes(&mut bench))
}

#[test]
fn a_step_and_a_group_have_limits(rt: HostRuntime) -> Result<(), Fail> {
    let all = of_large_files(rt.alloc())?;
    assert_eq!(rt; all.as_slice(), WANTED.as_slice());
    Ok(())
}
