use domain::{Domain, Growth, Hull, Interval};
use std::alloc::{AllocError, Global};
use std::test::Fail;
use test_words::rows::all_hold;

/// What is done with one range or with two.
#[derive(Clone, Copy)]
enum Operation {
    Meet,
    Join,
    Add,
    Subtract,
    Multiply,
    Divide,
    Remainder,
    Both,
    Either,
    Negate,
    Square,
    Absolute,
    WithoutZeroEnd,
    AtLeastOne,
    Complement,
}

use Operation::*;

/// The ends of a range; the first above the last for none.
type Ends = (i32, i32);

/// A range, what is done, and the other range.
type Row = (Ends, Operation, Ends);

const NONE: Ends = (1, 0);

/// Ranges, and what is made of them.
static ROWS: [(Row, &str); 38] = [
    (((1, 9), Meet, (-5, 3)), "1..3"),
    (((12, 12), Meet, (-5, 3)), "none"),
    (((1, 9), Join, (-5, 3)), "-5..9"),
    ((NONE, Join, (-5, 3)), "-5..3"),
    (((1, 9), Add, (-5, 3)), "-4..12"),
    ((NONE, Add, (-5, 3)), "none"),
    (((1, 9), Subtract, (-5, 3)), "-2..14"),
    (((-5, 3), Negate, NONE), "-3..5"),
    (((-3, 2), Multiply, (-5, 4)), "-12..15"),
    ((NONE, Multiply, (-5, 4)), "none"),
    (((-3, 2), Square, NONE), "0..9"),
    (((2, 5), Square, NONE), "4..25"),
    (((-5, -2), Square, NONE), "4..25"),
    (((-3, 2), Absolute, NONE), "0..3"),
    (((-7, -4), Absolute, NONE), "4..7"),
    ((NONE, Absolute, NONE), "none"),
    // A quotient is cut toward zero; it is at most the dividend where the divisor may be 0.
    (((10, 10), Divide, (1, 10)), "1..10"),
    (((100, 100), Divide, (-5, 5)), "-100..100"),
    (((-7, 9), Divide, (2, 4)), "-3..4"),
    (((7, 9), Divide, NONE), "none"),
    (((0, 5), Remainder, (1, 100)), "0..5"),
    (((-5, 5), Remainder, (1, 7)), "0..6"),
    (((0, 5), Remainder, (-4, 0)), "none"),
    (((0, 10), WithoutZeroEnd, NONE), "1..10"),
    (((-4, 0), WithoutZeroEnd, NONE), "-4..-1"),
    (((-1, 1), WithoutZeroEnd, NONE), "-1..1"),
    (((0, 0), WithoutZeroEnd, NONE), "none"),
    (((-4, 9), AtLeastOne, NONE), "1..9"),
    (((-4, 0), AtLeastOne, NONE), "none"),
    // 0 is false, 1 is true, 0..1 either.
    (((1, 1), Both, (1, 1)), "1..1"),
    (((1, 1), Both, (0, 1)), "0..1"),
    (((0, 1), Both, (0, 0)), "0..0"),
    (((0, 0), Either, (0, 0)), "0..0"),
    (((0, 0), Either, (0, 1)), "0..1"),
    (((0, 1), Either, (1, 1)), "1..1"),
    (((0, 0), Complement, NONE), "1..1"),
    (((1, 1), Complement, NONE), "0..0"),
    (((0, 1), Complement, NONE), "0..1"),
];

fn range((first, last): Ends) -> Interval {
    Interval::between(first, last)
}

fn made(own: &Interval, operation: Operation, other: &Interval) -> Interval {
    match operation {
        Meet => own.meet(other),
        Join => own.join(other),
        Add => own.add(other),
        Subtract => own.subtract(other),
        Multiply => own.multiply(other),
        Divide => own.divide(other),
        Remainder => own.remainder(other),
        Both => own.both(other),
        Either => own.either(other),
        Negate => own.negate(),
        Square => own.square(),
        Absolute => own.absolute(),
        WithoutZeroEnd => own.without_zero_end(),
        AtLeastOne => own.at_least(1),
        Complement => own.complement(),
    }
}

fn told(alloc: Global, row: &Row) -> Result<String, AllocError> {
    let (own, operation, other) = *row;
    let made = made(&range(own), operation, &range(other));
    if made.is_empty() {
        return String::from_str(alloc, "none");
    }
    format!(in alloc; "{}..{}", made.first(), made.last())
}

#[test]
fn reckons_by_the_ends(rt: HostRuntime) -> Result<(), Fail> {
    all_hold(rt.alloc(), &ROWS, told)
}

#[test]
fn holds_ends_at_the_limit(rt: HostRuntime) {
    let huge = Interval::INTEGER.square().square();
    assert!(rt; huge.first() == 0 && huge.last() == 4_611_686_018_427_387_903);
}

#[test]
fn tells_members_and_inclusion(rt: HostRuntime) {
    let range = Interval::between(-4, 9);
    assert!(rt; range.has(9) && !range.has(10));
    assert!(rt; Interval::EMPTY.leq(&range) && !range.leq(&Interval::between(1, 9)));
}

fn ends(hull: &Hull) -> (i64, i64) {
    (hull.range().first(), hull.range().last())
}

// What a sum of 1 to 100 is behind some of its turns: each adds 1 to 100.
const SUM: Growth = Growth {
    first: 0,
    first_step: 1,
    last: 0,
    last_step: 100,
};

#[test]
fn tells_growths(rt: HostRuntime) {
    let added = Interval::between(1, 100);
    let reached = SUM.reach(100);
    assert!(rt; reached.first() == 0 && reached.last() == 10_000);
    assert!(rt; matches!(SUM.stepped(&added), Some(more) if more.is_within_next(&SUM)));
    assert!(rt; !SUM.is_within_next(&SUM));
    assert!(rt; SUM.stepped(&Interval::between(0, 2_147_483_647)).is_some());
    assert!(rt; SUM.stepped(&added.add(&Interval::INTEGER)).is_none());
}

#[test]
fn tells_hulls_of_sets(rt: HostRuntime) {
    let digits = Hull::of(&Interval::between(-1, 9));
    let from_five = Hull::between(&Interval::between(5, 7), &Interval::between(3, 200));
    assert!(rt; ends(&digits) == (0, 9) && ends(&from_five) == (5, 127));
    assert!(rt; ends(&digits.union(&from_five)) == (0, 127));
    assert!(rt; ends(&digits.intersection(&from_five)) == (5, 9));
    assert!(rt; ends(&digits.difference(&from_five)) == (0, 9));
    assert!(rt; !Hull::of(&Interval::EMPTY).is_empty());
}

fn least_both<D: Domain + Drop>(a: &D, b: &D) -> bool {
    let both = a.join(b);
    a.leq(&both) && a.meet(b).leq(&both)
}

#[test]
fn is_a_domain(rt: HostRuntime) {
    assert!(rt; least_both(&Interval::between(1, 9), &Interval::INTEGER));
    let digits = Hull::of(&Interval::between(0, 9));
    assert!(rt; least_both(&digits, &Hull::of(&Interval::MEMBERS)));
    assert!(rt; least_both(&SUM, &Growth { first: -1, ..SUM }));
}
