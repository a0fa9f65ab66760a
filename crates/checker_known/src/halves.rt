ghost use Rattle.std.specs.Prelude.{◌≡◌, ◌≤◌, length, map};
ghost use Rattle.checker_state.specs.View.{said_held};
ghost use Rattle.checker_known.specs.Halves.{Falls, IsEdge, first_of, last_of, passes, spans_of};

use crate::order::is_behind;
use checker_state::{Group, Held};

/// A test that those pass of what is held that stand first.
#[derive(Clone, Copy)]
pub(crate) enum Test {
    /// Whether one comes before a group.
    Before(Group),
    /// Whether one comes before a group or stands in it.
    UpTo(Group),
    /// Whether one comes before another.
    Below(Held),
    /// Whether the last number of a stretch lies below a number.
    EndsBelow(i64),
    /// Whether the first number of a stretch does.
    BeginsBelow(i64),
}

impl Test {
    fn passes(self, held: &Held) -> bool
        ensures { result ≡ passes self (said_held held.now) }
    {
        match self {
            Test::Before(group) => is_behind(group, held, false),
            Test::UpTo(group) => is_behind(group, held, true),
            Test::Below(other) => other.compare(held).is_gt(),
            Test::EndsBelow(number) => last_number(held) < number,
            Test::BeginsBelow(number) => first_number(held) < number,
        }
    }
}

fn first_number(held: &Held) -> i64
    ensures { result ≡ first_of (spans_of (said_held held.now)) }
{
    match held.stretch() {
        None => 0,
        Some(stretch) => i64::from(stretch.span.first.number),
    }
}

fn last_number(held: &Held) -> i64
    ensures { result ≡ last_of (spans_of (said_held held.now)) }
{
    match held.stretch() {
        None => 0,
        Some(stretch) => i64::from(stretch.span.last.number),
    }
}

/// Where those between two places begin that don't pass a test, by halves.
pub(crate) fn edge(held: &[Held], test: Test, first: usize, end: usize) -> usize
    requires in_order { first ≤ end }
    requires inside { end ≤ length held.now }
    ensures { Falls (passes test) (map said_held held.now) first end
        → IsEdge (passes test) (map said_held held.now) first end result }
{
    let mut from = first;
    let mut to = end;
    while from < to {
        let middle = from + (to - from) / 2;
        if test.passes(&held[middle]) {
            from = middle + 1;
        } else {
            to = middle;
        }
    }
    from
}
