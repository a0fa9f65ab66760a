ghost use Rattle.std.specs.Prelude.{◌≡◌, ◌+◌, ◌^◌, ◌≤◌};
ghost use Rattle.members.specs.Members as members;

/// An operator of two sets (ISO 7185:1990, 6.7.2.4).
#[derive(Clone, Copy)]
pub enum Operator {
    Union,
    Intersection,
    Difference,
}

/// How one set can stand to another (ISO 7185:1990, 6.7.2.5).
#[derive(Clone, Copy)]
pub enum Relation {
    Equal,
    NotEqual,
    /// Each member of the left one is a member of the right one.
    Inside,
    /// The other way round.
    Around,
}

/// How many numbers can be members.
const MEMBERS: u32 = 128;

impl Operator {
    /// What the operator gives of two sets.
    pub fn of(self, left: u128, right: u128) -> u128
        ensures { result ≡ members.of_two self left right }
    {
        match self {
            Operator::Union => left | right,
            Operator::Intersection => left & right,
            Operator::Difference => left & !right,
        }
    }
}

impl Relation {
    /// Whether the sets stand so.
    pub fn holds(self, left: u128, right: u128) -> bool
        ensures { result ≡ members.stand self left right }
    {
        match self {
            Relation::Equal => left == right,
            Relation::NotEqual => left != right,
            Relation::Inside => is_inside(left, right),
            Relation::Around => is_inside(right, left),
        }
    }
}

/// Whether the number is a member of the set.
pub fn has(set: u128, number: i32) -> bool
    ensures { result ≡ members.has set number }
{
    match u32::try_from(number) {
        Ok(place) => has_place(set, place),
        Err(_) => false,
    }
}

/// Whether the bit of this place is set.
fn has_place(set: u128, place: u32) -> bool
    ensures { result ≡ members.has_place set place }
{
    place < MEMBERS && (set >> place) & 1 == 1
}

/// Whether each member of the left set is a member of the right one.
pub fn is_inside(left: u128, right: u128) -> bool
    ensures { result ≡ members.is_inside left right }
{
    left & right == left
}

/// Whether each member of the set lies in the range.
pub fn is_within(set: u128, low: i32, high: i32) -> bool
    ensures { result ≡ members.is_within set low high }
{
    is_inside(set, of_range(low, high))
}

/// Whether the number can be a member of a set.
pub fn can_be_member(number: i32) -> bool
    ensures { result ≡ members.can_be_member number }
{
    0 <= number && number <= 127
}

/// Whether a range is empty, or its first and its last number can both be members.
pub fn range_fits(low: i32, high: i32) -> bool
    ensures { result ≡ members.range_fits low high }
{
    (low > high) | (can_be_member(low) & can_be_member(high))
}

/// The set of one number; empty where it can't be a member.
pub fn of_one(number: i32) -> u128
    ensures { result ≡ members.of_one number }
{
    of_range(number, number)
}

/// The set of the numbers from the first to the second that can be members.
pub fn of_range(low: i32, high: i32) -> u128
    ensures { result ≡ members.of_range low high }
{
    let (first, end) = (count_below(low), count_to(high));
    lowest(end).saturating_sub(lowest(first))
}

/// How many numbers below this one can be members.
fn count_below(number: i32) -> u32
    ensures within { result ≤ 128 }
    ensures value { result ≡ members.count_below number }
{
    match u32::try_from(number) {
        Ok(count) => count.min(MEMBERS),
        Err(_) => 0,
    }
}

/// How many numbers up to this one can be members.
fn count_to(number: i32) -> u32
    ensures within { result ≤ 128 }
    ensures value { result ≡ members.count_to number }
{
    match u32::try_from(number) {
        Ok(last) => last.min(MEMBERS - 1) + 1,
        Err(_) => 0,
    }
}

/// The set of the lowest members, so many.
fn lowest(count: u32) -> u128
    requires { count ≤ 128 }
    ensures { result + 1 ≡ 2 ^ count }
{
    if count == MEMBERS {
        return u128::MAX;
    }
    (1 << count) - 1
}
