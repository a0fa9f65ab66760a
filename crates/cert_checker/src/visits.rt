ghost use Rattle.std.specs.Prelude.{◌≡◌, ◌<◌, ◌≤◌, MatchOption, length};
ghost use Rattle.typed_tree.specs.Entries.{entries_of};
ghost use Rattle.checker_expressions.specs.Visits.{all_counted};
ghost use Rattle.cert_checker.specs.Visits.{Visits as Counter, counted, most_counted, none_counted};

use checker_expressions::Count;
use std::marker::Model;
use typed_tree::Tree;

/// The count of the entries into the statements and expressions of a program by the checker's walk.
///
/// It can't be thrown away, and nothing but `finish` takes it, which asks for a walk over the whole program in order.
pub(crate) struct Visits {
    // As far as 64 bits count.
    entries: u64,
    // Whether each entry so far came at its own number: the first at 0, the next at 1, and so on.
    are_in_order: bool,
}

impl Model for Visits {
    ghost Value = { Counter };

    ghost view = { λ v. record { entries = v.entries; are_in_order = v.are_in_order } };
}

impl Count for Visits {
    ghost counted = { counted };

    fn tick(&mut self, number: u32) {
        self.are_in_order = self.are_in_order && u64::from(number) == self.entries;
        self.entries = self.entries.saturating_add(1);
    }
}

impl Visits {
    /// No entry yet.
    pub(crate) fn new() -> Visits
        ensures { result ≡ none_counted }
    {
        Visits {
            entries: 0,
            are_in_order: true,
        }
    }

    /// The entries that were counted, once the walk over the program ended: those of the program, each once and in
    /// their order. `None`: they are more than it counts.
    pub(crate) fn finish(self, tree: &Tree) -> Option<u64>
        requires { self ≡ all_counted counted (entries_of tree.now) none_counted }
        ensures { MatchOption result (most_counted ≤ length (entries_of tree.now))
            (λ entries. (entries ≡ self.entries) × (entries < most_counted)) }
    {
        let Visits {
            entries,
            are_in_order: _,
        } = self;
        if entries == u64::MAX {
            return None;
        }
        Some(entries)
    }
}
