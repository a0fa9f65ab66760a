ghost use Rattle.std.specs.Prelude.{◌≡◌, ℕ};

/// A counter of the entries into the statements and expressions of a program.
pub trait Count {
    // The counter behind an entry of a number.
    ghost counted: { ℕ → Self → Self };

    /// The entry into the statement or expression of a number.
    fn tick(&mut self, number: u32)
        ensures { self.new ≡ counted number self.old };
}
