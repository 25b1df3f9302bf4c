//! Scripts that are drawn.

ghost use Rattle.std.specs.Prelude.{◌≡◌, ◌<◌, length, IfOk};
ghost use Rattle.mm_generator.specs.Generator.{generated};

use mm_base::{Name, NoMemory};
use mm_model::Action;
use std::alloc::Global;

/// Draws the actions of `count` lines from a seed, over databases of these
/// names. Lines are counted from 1; a step has the number of the line before
/// it.
pub fn generate(
    alloc: Global,
    seed: u64,
    count: u32,
    names: &[Name],
) -> Result<Vec<Action>, NoMemory>
    requires { 0 < length names.now }
    ensures { IfOk result (λ actions. actions.items ≡ generated seed count (length names.now)) }
{
    mm_generator::generate(alloc, seed, count, names)
}
