ghost use Rattle.std.specs.Prelude.{◌≡◌, IfOk, slice_get};
ghost use Rattle.domain.specs.Numbers.{is_covered};
ghost use Rattle.checker_trail.specs.Trail.{Moves};
ghost use Rattle.checker_loops.specs.Cases.{arm_start, at_constants, constants_before};

use checker_trail::State;
use domain::{Domain, Interval};
use std::alloc::{AllocError, Global};

/// The constants before so many arms, by the rows of constants.
pub fn constants_before(
    alloc: Global,
    arms: usize,
    rows: &[Vec<i32>],
) -> Result<Vec<i32>, AllocError>
    ensures { IfOk result (λ found. found.items ≡ constants_before arms rows.now) }
{
    let mut found = Vec::new(alloc);
    for i in 0..rows.len().min(arms) {
        found.extend_from_slice(&rows[i])?;
    }
    Ok(found)
}

/// Whether each number of a range is one of some constants, in whatever order these stand.
pub fn covers(alloc: Global, constants: &[i32], range: Interval) -> Result<bool, AllocError>
    ensures { IfOk result (λ covered. covered ≡ is_covered range constants.now) }
{
    let mut sorted = Vec::from_slice(alloc, constants)?;
    sorted.sort_unstable();
    Ok(range.is_covered(&sorted))
}

/// Goes on where the arm of a number is executed, by its row of constants.
pub fn begin_arm(state: &mut State, index: Option<u32>, constants: &[Vec<i32>], number: usize)
    ensures { Moves (arm_start index (slice_get constants.now number)) state.old state.new }
{
    match constants.get(number) {
        None => state.die(),
        Some(row) => at_constants(state, index, row),
    }
}

/// The index, perhaps an entire variable, is one of some constants.
fn at_constants(state: &mut State, index: Option<u32>, constants: &[i32])
    ensures { Moves (at_constants index constants.now) state.old state.new }
{
    if let Some(root) = index {
        let range = state.range(root).meet(&Interval::hull(constants));
        state.narrow(root, range);
    }
}
