ghost use Rattle.std.specs.Prelude.{◌+◌, ◌-◌, ◌^◌, min};

use checker_expressions::Count;

/// A count of entries into statements and expressions, whichever they are. It may be given up at any point.
#[derive(Drop)]
pub(crate) struct Tally {
    /// As far as 64 bits count.
    pub(crate) entries: u64,
}

impl Count for Tally {
    ghost counted = { λ number tally. record { entries = min (tally.entries + 1) (2 ^ 64 - 1) } };

    fn tick(&mut self, _number: u32) {
        self.entries = self.entries.saturating_add(1);
    }
}
