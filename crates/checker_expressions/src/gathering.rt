//! The members of a set constructor (ISO 7185:1990, 6.7.1), one after another.
ghost use Rattle.std.specs.Prelude.{◌≡◌};
ghost use Rattle.checker_expressions.specs.View.{FlowGoes, said_gathering};
ghost use Rattle.checker_expressions.specs.Walk.{between_walk, gathered, member_walk, none_gathered};

use crate::Flow;
use checker_state::{is_closed_member, is_closed_range, tested_member, with_member, with_members};
use domain::{Hull, Interval};
use typed_tree::Designator;

/// Where a set constructor is evaluated.
#[derive(Drop)]
pub(crate) struct Gathering<'b> {
    /// The hull of the members so far.
    pub(crate) hull: Hull,
    /// The designators that are left.
    pub(crate) left: &'b [Designator],
    /// Where the first value of a range lies whose last value comes next.
    pub(crate) first: Option<Interval>,
}

impl<'b> Gathering<'b> {
    /// Before the first member.
    pub(crate) fn of(designators: &'b [Designator]) -> Gathering<'b>
        ensures { said_gathering result ≡ none_gathered designators.now }
    {
        Gathering {
            hull: Hull::of(&Interval::EMPTY),
            left: designators,
            first: None,
        }
    }
}

impl<'a> Flow<'a> {
    /// The value of a member expression, by the designators that are left: a member, the first of several, or the last.
    pub(crate) fn gathered<'b>(
        &mut self,
        gathering: Gathering<'b>,
        range: Interval,
    ) -> Gathering<'b>
        ensures { FlowGoes (gathered (said_gathering gathering.entry) range) self.old self.new (said_gathering result) }
    {
        let Gathering { hull, left, first } = gathering;
        if left.is_empty() {
            return Gathering { hull, left, first };
        }
        match left[0] {
            Designator::Single { site } => Gathering {
                hull: self.member(site, range, hull),
                left: &left[1..],
                first: None,
            },
            Designator::Range { site } => match first {
                None => Gathering {
                    hull,
                    left,
                    first: Some(range),
                },
                Some(first) => Gathering {
                    hull: self.members_between(site, first, range, hull),
                    left: &left[1..],
                    first: None,
                },
            },
        }
    }

    /// A set with a member more, which is tested.
    fn member(&mut self, site: u32, range: Interval, hull: Hull) -> Hull
        ensures { FlowGoes (member_walk site range hull) self.old self.new result }
    {
        let passed = self.test(is_closed_member(&range), site, tested_member(&range));
        with_member(&hull, &passed)
    }

    /// A set with all members from a first to a last one more, which are tested if there are any.
    fn members_between(&mut self, site: u32, first: Interval, last: Interval, hull: Hull) -> Hull
        ensures { FlowGoes (between_walk site first last hull) self.old self.new result }
    {
        self.check(is_closed_range(&first, &last), site);
        with_members(&hull, &first, &last)
    }
}
