ghost use Rattle.std.specs.Prelude.{◌≡◌};
ghost use Rattle.checker_known.specs.Knowledge.{inverse};

use crate::Row;
use checker_state::Held;

/// A change of what is known, which can be taken back.
#[derive(Clone, Copy)]
pub enum Change {
    /// Something else is known of a row.
    Row { row: usize, was: Row, now: Row },
    /// Something more is held, at a place.
    Inserted { place: usize, held: Held },
    /// What stood at a place is held no longer.
    Removed { place: usize, held: Held },
    /// Something else is held at a place.
    Replaced { place: usize, was: Held, now: Held },
    /// No run comes here any longer.
    Died,
    /// A run comes here again.
    Revived,
}

impl Change {
    /// The change that takes it back.
    pub fn inverse(&self) -> Change
        ensures { result ≡ inverse self.now }
    {
        match self {
            Change::Row { row, was, now } => Change::Row {
                row: *row,
                was: *now,
                now: *was,
            },
            Change::Inserted { place, held } => Change::Removed {
                place: *place,
                held: *held,
            },
            Change::Removed { place, held } => Change::Inserted {
                place: *place,
                held: *held,
            },
            Change::Replaced { place, was, now } => Change::Replaced {
                place: *place,
                was: *now,
                now: *was,
            },
            Change::Died => Change::Revived,
            Change::Revived => Change::Died,
        }
    }
}

/// How a way from a mark ended.
#[derive(Drop)]
pub struct Branch {
    /// `true`: no run comes to its end.
    pub is_dead: bool,
    /// What was changed on it.
    pub changes: Vec<Change>,
}

impl Branch {
    /// Whether no run comes to its end.
    pub fn is_dead(&self) -> bool
        ensures { result ≡ self.now.is_dead }
    {
        self.is_dead
    }
}
