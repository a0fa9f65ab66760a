ghost use Rattle.std.specs.Prelude.{◌≡◌, Some};
ghost use Rattle.std.specs.Bool.{OnTrue};
ghost use Rattle.domain.specs.Growths.{stepped};
ghost use Rattle.checker_state.specs.Growths.{growing_by, growing_on_both, has_grown_by, joined_growth, reached};

use domain::{Domain, Growth, Interval};

/// How a variable grows with the turns of a for statement round the point.
#[derive(Clone, Copy)]
pub struct Growing {
    /// How many for statements stand round that one in its block.
    pub depth: usize,
    /// How many turns it finishes at most.
    pub most: i64,
    /// The growth with its turns.
    pub growth: Growth,
}

impl Growing {
    /// Whether it is the same.
    pub fn is_same(&self, other: &Growing) -> bool
        ensures { OnTrue result (self.now ≡ other.now) }
    {
        self.depth == other.depth
            && self.most == other.most
            && self.growth.first == other.growth.first
            && self.growth.first_step == other.growth.first_step
            && self.growth.last == other.growth.last
            && self.growth.last_step == other.growth.last_step
    }

    /// The growth on two ways that meet, if it is with as many turns of the same for statement.
    pub fn join(&self, other: &Growing) -> Option<Growing>
        ensures { result ≡ growing_on_both self.now other.now }
    {
        if self.depth != other.depth || self.most != other.most {
            return None;
        }
        Some(Growing {
            growth: self.growth.join(&other.growth),
            ..*self
        })
    }

    /// The growth after a step by a number of a range; `None` where that leads too far.
    pub fn stepped(&self, step: &Interval) -> Option<Growing>
        ensures { result ≡ growing_by self.now (stepped step.now self.now.growth) }
    {
        match self.growth.stepped(step) {
            None => None,
            Some(growth) => Some(Growing { growth, ..*self }),
        }
    }

    /// Where it leads in all turns.
    pub fn reached(&self) -> Interval
        ensures { result ≡ reached self.now }
    {
        self.growth.reach(self.most)
    }

    /// Whether it is the growth of the next turn, with the turns of a for statement that stands so deep.
    pub fn has_grown(&self, depth: usize, growth: &Growth) -> bool
        ensures { result ≡ has_grown_by (Some self.now) depth growth.now }
    {
        self.depth == depth && self.growth.is_within_next(growth)
    }
}

/// Whether two variables grow alike, or neither is known to grow.
pub fn is_same_growth(one: Option<Growing>, other: Option<Growing>) -> bool
    ensures { OnTrue result (one ≡ other) }
{
    match (one, other) {
        (None, None) => true,
        (Some(one), Some(other)) => one.is_same(&other),
        _ => false,
    }
}

/// How a variable grows on two ways that meet.
pub fn joined_growth(one: Option<Growing>, other: Option<Growing>) -> Option<Growing>
    ensures { result ≡ joined_growth one other }
{
    match (one, other) {
        (Some(one), Some(other)) => one.join(&other),
        _ => None,
    }
}
