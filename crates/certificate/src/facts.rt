ghost use Rattle.std.specs.Prelude.{◌≡◌};
ghost use Rattle.domain.specs.Facts.{subject_order};
ghost use Rattle.certificate.specs.Contents.{said_fact};

use domain::{Growth, Interval, Path, Spans};
use std::cmp::Ordering;

/// A fact that a certificate claims. The numbers of its bounds and its growth are between -2147483647 and 2147483647.
#[derive(Drop)]
pub enum Fact {
    /// Each defined value at the path lies in the range.
    Range { path: Path, range: Interval },
    /// What lies at the path, which has no step to elements, is defined, or each element of it whose indexes lie in
    /// the spans, of which a version without blocks has one at most.
    Defined { path: Path, spans: Spans },
    /// Both variables are defined, and the value of the first is at most that of the other plus the number.
    Order { root: u32, other: u32, number: i32 },
    /// The variable, if it is defined, grows so with the turns of the loop, which is a for statement; of a version with
    /// growths.
    Grows { root: u32, growth: Growth },
}

impl Fact {
    /// How the fact stands to another in the order of facts, the numbers of ranges, orders and growths aside.
    pub fn compare(&self, other: &Fact) -> Ordering
        ensures { result ≡ subject_order (said_fact self.now) (said_fact other.now) }
    {
        match (self, other) {
            (Fact::Range { path: p, .. }, Fact::Range { path: q, .. }) => p.compare(q),
            (Fact::Defined { path: p, spans: a }, Fact::Defined { path: q, spans: b }) => {
                a.compare(*b, p.compare(q))
            }
            (
                Fact::Order {
                    root: v,
                    other: a,
                    ..
                },
                Fact::Order {
                    root: w,
                    other: b,
                    ..
                },
            ) => v.cmp(w).then(a.cmp(b)),
            (Fact::Grows { root: v, .. }, Fact::Grows { root: w, .. }) => v.cmp(w),
            (Fact::Range { .. }, _) | (_, Fact::Grows { .. }) => Ordering::Less,
            (_, Fact::Range { .. }) | (Fact::Grows { .. }, _) => Ordering::Greater,
            (Fact::Defined { .. }, _) => Ordering::Less,
            (Fact::Order { .. }, _) => Ordering::Greater,
        }
    }
}
