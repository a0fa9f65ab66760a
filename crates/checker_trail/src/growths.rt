ghost use Rattle.std.specs.Prelude.{◌≡◌};
ghost use Rattle.checker_state.specs.Growths.{behind_step, can_grow, growing_outside, growth_of, has_grown};
ghost use Rattle.checker_state.specs.Growths.{stepped_growth, with_growing, without_turns};
ghost use Rattle.checker_trail.specs.Trail.{Moves, all_ungrown, at_outside, seen, with_growth_at};

use crate::State;
use checker_state::Growing;
use domain::{Domain, Growth, Interval};

impl<'a> State<'a> {
    /// How a variable grows with the turns of a for statement.
    pub fn growth(&self, root: u32) -> Option<Growing>
        ensures { result ≡ growth_of (seen self.now) root }
    {
        if self.known.is_dead {
            return None;
        }
        self.known.row(root as usize).growth
    }

    /// How it grows after a step.
    pub(crate) fn stepped_growth(&self, root: u32, step: Option<Interval>) -> Option<Growing>
        ensures { result ≡ stepped_growth step (growth_of (seen self.now) root) }
    {
        match (step, self.growth(root)) {
            (Some(step), Some(growing)) => growing.stepped(&step),
            _ => None,
        }
    }

    /// After a step a variable goes on growing, if it grew.
    pub(crate) fn go_on_growing(&mut self, root: u32, growth: Option<Growing>)
        ensures { Moves (behind_step root growth) self.old self.new }
    {
        let Some(growing) = growth else {
            return;
        };
        let left = self.range(root).meet(&growing.reached());
        self.grow(root, growing);
        self.unless_empty(left);
    }

    /// A variable grows so from here on.
    pub fn grow(&mut self, root: u32, growing: Growing)
        ensures { Moves (with_growing root growing) self.old self.new }
    {
        let mut known = self.known.row(root as usize);
        known.range = known.range.meet(&growing.reached());
        known.growth = Some(growing);
        self.set_row(root as usize, known);
    }

    // A row has another growth, or none.
    pub(crate) fn set_growth(&mut self, row: usize, growth: Option<Growing>)
        ensures { Moves (with_growth_at row growth) self.old self.new }
    {
        let mut known = self.known.row(row);
        known.growth = growth;
        self.set_row(row, known);
    }

    /// Several variables aren't known to grow.
    pub fn stop_growing(&mut self, roots: &[u32])
        ensures { Moves (all_ungrown roots.now) self.old self.new }
    {
        for root in roots {
            self.set_growth(*root as usize, None);
        }
    }

    /// Whether the value of a variable lies where a growth begins.
    pub fn can_grow(&self, root: u32, growth: &Growth) -> bool
        ensures { result ≡ can_grow (seen self.now) root growth.now }
    {
        let begun = Interval::between(growth.first, growth.last);
        self.range(root).leq(&begun)
    }

    /// Whether a variable has the growth of the next turn, with the turns of a for statement that stands so deep.
    pub fn has_grown(&self, root: u32, depth: usize, growth: &Growth) -> bool
        ensures { result ≡ has_grown (seen self.now) root depth growth.now }
    {
        if self.known.is_dead {
            return true;
        }
        match self.known.row(root as usize).growth {
            None => false,
            Some(growing) => growing.has_grown(depth, growth),
        }
    }

    /// Behind a for statement that stands so deep nothing grows with its turns any longer. Only variables that it
    /// touches do.
    pub fn end_turns(&mut self, depth: usize, touched: &[u32])
        ensures { Moves (without_turns depth) self.old self.new }
    {
        for root in touched {
            self.end_growth(depth, *root as usize);
        }
        if !self.known.grows_outside(depth) {
            self.end_growths(depth);
        }
    }

    // The same, where each variable may grow.
    fn end_growths(&mut self, depth: usize)
        ensures { Moves (without_turns depth) self.old self.new }
    {
        for row in 0..self.known.rows.len() {
            self.end_growth(depth, row);
        }
    }

    // A row doesn't grow any longer with the turns of a for statement so deep.
    fn end_growth(&mut self, depth: usize, row: usize)
        ensures { Moves (at_outside depth row) self.old self.new }
    {
        let mut known = self.known.row(row);
        known.growth = outside(known.growth, depth);
        self.set_row(row, known);
    }
}

// A growth with the turns of a for statement that stands round one so deep.
fn outside(growth: Option<Growing>, depth: usize) -> Option<Growing>
    ensures { result ≡ growing_outside depth growth }
{
    match growth {
        Some(growing) if growing.depth < depth => Some(growing),
        _ => None,
    }
}
