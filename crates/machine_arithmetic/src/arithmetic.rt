ghost use Rattle.std.specs.Prelude.{◌≡◌, ◌*ℤ◌};
ghost use Rattle.machine_arithmetic.specs.Arithmetic as words;

/// An operator of one number (ISO 7185:1990, 6.7.2.2, 6.7.2.3, 6.6.6.2 and 6.6.6.5).
#[derive(Clone, Copy)]
pub enum Monadic {
    Negate,
    Absolute,
    Square,
    Odd,
    Not,
}

/// An operator of two numbers that is never at fault (ISO 7185:1990, 6.7.2.2, 6.7.2.3 and 6.7.2.5).
#[derive(Clone, Copy)]
pub enum Dyadic {
    Add,
    Subtract,
    Multiply,
    And,
    Or,
    Equal,
    NotEqual,
    Less,
    LessOrEqual,
    Greater,
    GreaterOrEqual,
}

impl Monadic {
    /// What the operator gives of a number: arithmetic wraps at 32 bits, and a truth is 0 or 1.
    pub fn of(self, value: i32) -> i32
        ensures { result ≡ words.of_one self value }
    {
        match self {
            Monadic::Negate => value.wrapping_neg(),
            Monadic::Absolute => value.wrapping_abs(),
            Monadic::Square => value.wrapping_mul(value),
            Monadic::Odd => truth(value.rem_euclid(2) == 1),
            Monadic::Not => truth(!is_true(value)),
        }
    }
}

impl Dyadic {
    /// What the operator gives of two numbers: arithmetic wraps at 32 bits, and a truth is 0 or 1.
    pub fn of(self, left: i32, right: i32) -> i32
        ensures { result ≡ words.of_two self left right }
    {
        match self {
            Dyadic::Add => left.wrapping_add(right),
            Dyadic::Subtract => left.wrapping_sub(right),
            Dyadic::Multiply => left.wrapping_mul(right),
            Dyadic::And => truth(is_true(left) & is_true(right)),
            Dyadic::Or => truth(is_true(left) | is_true(right)),
            Dyadic::Equal => truth(left == right),
            Dyadic::NotEqual => truth(left != right),
            Dyadic::Less => truth(left < right),
            Dyadic::LessOrEqual => truth(left <= right),
            Dyadic::Greater => truth(left > right),
            Dyadic::GreaterOrEqual => truth(left >= right),
        }
    }
}

/// The product, which 64 bits always hold.
pub fn product(left: i32, right: i32) -> i64
    ensures { result ≡ left *ℤ right }
{
    i64::from(left) * i64::from(right)
}

/// Whether the number stands for true: 0 is false, and every other number is true.
pub fn is_true(number: i32) -> bool
    ensures { result ≡ words.is_true number }
{
    number != 0
}

/// The number of a Boolean value.
pub fn truth(holds: bool) -> i32
    ensures { result ≡ words.truth holds }
{
    i32::from(holds)
}
