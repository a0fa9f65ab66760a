ghost use Rattle.std.specs.Prelude.{◌≡◌, ◌+◌, ◌*◌, ◌/◌, ◌%◌, ◌^◌, ◌<◌, ℕ};
ghost use Rattle.std.proofs.Common.{arith};

use std::marker::Model;

/// How many values a word has.
const WORDS: u128 = 1 << 64;

/// The members of a set, as the number that has a bit for each: m is bit m. It is kept in two words, since an
/// instruction that held a `u128` would take 32 bytes, not 24.
#[derive(Clone, Copy)]
pub struct SetMembers {
    low: u64,
    high: u64,
}

impl Model for SetMembers {
    ghost Value = { ℕ };

    ghost view = { λ m. m.low + m.high * 2 ^ 64 };

    ghost invariant = { λ m. (m.low < 2 ^ 64) × (m.high < 2 ^ 64) };

    ghost inverse = { λ n. record { low = n % 2 ^ 64; high = n / 2 ^ 64 } };

    ghost inverse_ok = { λ m h. Prim.grind (arith) };
}

/// The empty set.
pub const EMPTY: SetMembers = SetMembers { low: 0, high: 0 };

impl SetMembers {
    /// The set of this number.
    pub fn of(number: u128) -> SetMembers
        ensures { result ≡ number }
    {
        SetMembers {
            low: (number % WORDS) as u64,
            high: (number / WORDS) as u64,
        }
    }

    /// The number of a set.
    pub fn number(self) -> u128
        ensures { result ≡ self }
    {
        u128::from(self.low) + u128::from(self.high) * WORDS
    }
}
