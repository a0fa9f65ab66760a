ghost use Rattle.std.specs.Prelude.{◌≡◌};
ghost use Rattle.checker_expressions.specs.View.{FlowGoes, first_of, opened};
ghost use Rattle.checker_expressions.specs.Walk.{asked, breach_unless, checked, first_breach, fitting, tested, within};

use crate::{Breach, Grounds, Rule, lies_in, limited, unless_none};
use checker_rows::{Rows, limits};
use checker_state::Known;
use checker_trail::State;
use domain::{Domain, Interval};
use place::Place;
use typed_tree::RangeTest;

/// The flow of a walk through a program: what it comes with to each expression, and goes on with behind it. Where
/// memory ran out, its state is short, and the flow says nothing more.
#[derive(Drop)]
pub struct Flow<'a> {
    /// What it goes by.
    pub grounds: Grounds<'a>,
    /// What is known where the walk is.
    pub state: State<'a>,
    /// The ids of the sites that the walk leaves open, in its order.
    pub open_ids: Vec<u32>,
    /// The first rule of certificates that is broken, and where.
    pub broken: Option<Breach>,
}

impl<'a> Flow<'a> {
    /// What a rule asks for at a place. The first breach is kept.
    pub fn ask(&mut self, kept: bool, rule: Rule, place: Place)
        ensures { FlowGoes (asked kept rule place) self.old self.new tt }
    {
        if !kept {
            self.broken = first_of(self.broken, Breach { rule, place });
        }
    }

    /// Leaves a site open, unless it is closed.
    pub fn open_unless(&mut self, closed: bool, site: u32)
        ensures { FlowGoes (opened closed site) self.old self.new tt }
    {
        if closed {
            return;
        }
        if let Err(error) = self.open_ids.push(site) {
            self.state.run_short(error.into());
        }
    }

    /// A value that has to lie in the range of a type: its number, or its members.
    pub fn fitting(&mut self, fits: RangeTest, known: Known) -> Known
        ensures { FlowGoes (fitting fits known) self.old self.new result }
    {
        let limits = limits(fits.range);
        let closed = lies_in(&limits, &known);
        let passed = limited(&limits, &known);
        self.check(closed, fits.site);
        unless_none(&mut self.state, &passed);
        passed
    }

    /// A number that has to lie in limits.
    pub fn within(&mut self, limits: Interval, site: u32, range: Interval) -> Interval
        ensures { FlowGoes (within limits site range) self.old self.new result }
    {
        self.test(range.leq(&limits), site, range.meet(&limits))
    }

    /// The test of a number at a site: what passes lies in a range, and it is closed where the number surely passes.
    pub fn test(&mut self, closed: bool, site: u32, passed: Interval) -> Interval
        ensures { FlowGoes (tested closed site passed) self.old self.new result }
    {
        self.check(closed, site);
        self.state.unless_empty(passed);
        passed
    }

    /// A test at a site, of which nothing more is known behind it: closed where it surely passes.
    pub(crate) fn check(&mut self, closed: bool, site: u32)
        ensures { FlowGoes (checked closed site) self.old self.new tt }
    {
        let is_closed = self.state.is_dead() || closed;
        self.open_unless(is_closed, site);
    }
}

// A breach behind others: the first one stays.
fn first_of(broken: Option<Breach>, breach: Breach) -> Option<Breach>
    ensures { result ≡ first_of broken (Some breach) }
{
    match broken {
        None => Some(breach),
        Some(first) => Some(first),
    }
}
