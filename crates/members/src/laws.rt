//! Which numbers are members of what. Each law is the contract of a function that does nothing.
ghost use Rattle.members.specs.Laws as laws;

/// Sets with the same members are equal.
pub fn members_tell_sets_apart()
    ensures { laws.SameMembers }
{}

/// The members of a set of 128 bits are numbers that can be members.
pub fn members_can_be_members()
    ensures { laws.CanBe }
{}

/// The empty set has no members.
pub fn empty_set_has_none()
    ensures { laws.EmptyHas }
{}

/// What is a member of a union, an intersection and a difference.
pub fn operators_by_members()
    ensures union { laws.UnionHas }
    ensures intersection { laws.IntersectionHas }
    ensures difference { laws.DifferenceHas }
{}

/// What is a member of a range, and of the set of one number.
pub fn ranges_by_members()
    ensures range { laws.RangeHas }
    ensures one { laws.OneHas }
{}

/// When a set lies inside another, and in a range.
pub fn inside_by_members()
    ensures inside { laws.InsideHas }
    ensures within { laws.WithinHas }
{}

/// What is made of sets of 128 bits has 128 bits.
pub fn sets_stay_sets()
    ensures operators { laws.OperatorsStay }
    ensures range { laws.RangeStays }
    ensures one { laws.OneStays }
{}
