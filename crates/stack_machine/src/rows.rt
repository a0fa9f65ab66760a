ghost use Rattle.std.specs.Prelude.{◌≡◌};
ghost use Rattle.stack_machine.specs.Cells.{values};
ghost use Rattle.stack_machine.specs.Rows as rows;

use crate::number_of;

/// How a row of numbers stands to another: -1, 0 or 1, by their first difference (ISO 7185:1990, 6.7.2.5).
#[inline(never)]
pub fn order(left: &[u64], right: &[u64]) -> i32
    ensures { result ≡ rows.order (values left.now) (values right.now) }
{
    for (a, b) in left.iter().zip(right) {
        let (a, b) = (number_of(*a), number_of(*b));
        if a < b {
            return -1;
        }
        if b < a {
            return 1;
        }
    }
    0
}
