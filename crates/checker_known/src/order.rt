ghost use Rattle.std.specs.Prelude.{◌≡◌, ◌++◌, drop, map, take};
ghost use Rattle.checker_state.specs.State.{with_one};
ghost use Rattle.checker_state.specs.View.{said_held};
ghost use Rattle.checker_known.specs.Order.{AreBetween, AreOf, comes_before, stands, wrong_around, wrong_at};
ghost use Rattle.checker_known.specs.Knowledge.{IsPlace};

use crate::{Knowledge, Test, edge};
use checker_state::{Group, Held};
use std::cmp::Ordering;

/// Whether something that is held comes before a group, or also whether it stands in it.
pub(crate) fn is_behind(group: Group, held: &Held, with_itself: bool) -> bool
    ensures { result ≡ comes_before with_itself (stands group (said_held held.now)) }
{
    match held.group().compare(group) {
        Ordering::Less => true,
        Ordering::Equal => with_itself,
        Ordering::Greater => false,
    }
}

impl Knowledge {
    /// Between which places a group stands; all of them, where what is held doesn't stand in its order.
    pub(crate) fn places(&self, group: Group) -> (usize, usize)
        ensures between { AreBetween group (map said_held self.now.held.items) result.0 result.1 }
        ensures own { self.now.disorder ≡ 0 → AreOf group (map said_held self.now.held.items) result.0 result.1 }
    {
        let count = self.held.len();
        if self.disorder > 0 {
            return (0, count);
        }
        (
            edge(&self.held, Test::Before(group), 0, count),
            edge(&self.held, Test::UpTo(group), 0, count),
        )
    }

    // A place behind which one comes: by halves, where what is held stands in its order.
    fn before(&self, one: &Held) -> usize
        ensures { let held = map said_held self.now.held.items in
            with_one (said_held one.now) held ≡ take result held ++ with_one (said_held one.now) (drop result held) }
    {
        if self.disorder == 0 {
            return edge(&self.held, Test::Below(*one), 0, self.held.len());
        }
        0
    }

    /// Where one comes in what is held; `None`: it is held.
    pub fn place(&self, one: &Held) -> Option<usize>
        ensures { IsPlace (said_held one.now) (map said_held self.now.held.items) result }
    {
        for place in self.before(one)..self.held.len() {
            match one.compare(&self.held[place]) {
                Ordering::Less => return Some(place),
                Ordering::Equal => return None,
                Ordering::Greater => {}
            }
        }
        Some(self.held.len())
    }
}

/// One, if what stands before a place doesn't come before what stands at it; else none.
pub(crate) fn wrong_at(held: &[Held], place: usize) -> usize
    ensures { result ≡ wrong_at place (map said_held held.now) }
{
    if place == 0 {
        return 0;
    }
    if place >= held.len() {
        return 0;
    }
    match held[place - 1].compare(&held[place]) {
        Ordering::Less => 0,
        _ => 1,
    }
}

/// The same of a place and the next, together.
pub(crate) fn wrong_around(held: &[Held], place: usize) -> usize
    ensures { result ≡ wrong_around place (map said_held held.now) }
{
    if place >= held.len() {
        return 0;
    }
    wrong_at(held, place) + wrong_at(held, place + 1)
}
