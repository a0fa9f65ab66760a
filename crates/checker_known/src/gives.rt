ghost use Rattle.std.specs.Prelude.{◌≡◌, ◌∷◌, map, pos};
ghost use Rattle.std.specs.List.{list_any};
ghost use Rattle.checker_state.specs.Bounds.{raised_bound};
ghost use Rattle.checker_state.specs.State.{Live, bound_range, gives, gives_claim, gives_stretch, has_its_values};
ghost use Rattle.checker_state.specs.State.{has_number, has_value, has_values, have_values, is_empty, is_next};
ghost use Rattle.checker_state.specs.State.{is_whole};
ghost use Rattle.checker_state.specs.State.{le, lies_below};
ghost use Rattle.checker_state.specs.State.{says_at_most, table_of};
ghost use Rattle.checker_state.specs.View.{AreEnds, inner_spans, said_bound, said_claim, said_held, said_order};
ghost use Rattle.checker_state.specs.View.{said_span, said_spans, said_stretch, said_term};
ghost use Rattle.checker_known.specs.Knowledge.{core, viewed};

use crate::Knowledge;
use checker_rows::Rows;
use checker_state::{Bound, Claim, Ends, Group, Held, Order, Span, Stretch, Term};
use domain::Domain;

impl Knowledge {
    /// Whether a bound is known to be at most another: by itself, by ranges, or by an order.
    pub fn le(&self, left: Term, right: Term) -> bool
        ensures { result ≡ le (viewed (core self.now)) (said_term left) (said_term right) }
    {
        left.is_at_most(right)
            || self.ends(left).is_below(self.ends(right))
            || self.says_at_most(left, right)
    }

    fn says_at_most(&self, left: Term, right: Term) -> bool
        ensures { result
            ≡ list_any (says_at_most (said_term left) (said_term right)) (map said_held self.now.held.items) }
    {
        let Some(root) = left.root else {
            return false;
        };
        let Some(other) = right.root else {
            return false;
        };
        let (first, end) = self.places(Group::Pair(root, other));
        for place in first..end {
            if self.held[place].says_at_most(left, right) {
                return true;
            }
        }
        false
    }

    /// The ends of the range in which a bound lies.
    fn ends(&self, term: Term) -> Ends
        ensures { AreEnds result (bound_range (Live (viewed (core self.now))) (said_term term)) }
    {
        match term.root {
            None => Ends::of(term.number),
            Some(root) => Ends::moved(self.row(root as usize).range, term.number),
        }
    }

    /// Whether a bound of the program is known to be at most another.
    pub(crate) fn is_at_most(&self, one: Bound, other: Bound) -> bool
        ensures { result ≡ le (viewed (core self.now)) (said_bound one) (said_bound other) }
    {
        self.le(Term::of(one), Term::of(other))
    }

    // Whether a bound is known to lie below another.
    fn lies_below(&self, one: Bound, other: Bound) -> bool
        ensures { result ≡ lies_below (viewed (core self.now)) (said_bound one) (said_bound other) }
    {
        self.le(Term::of(one).moved(1), Term::of(other))
    }

    /// Whether a bound is known to be at most the one behind another.
    pub(crate) fn is_beside(&self, next: Bound, one: Bound) -> bool
        ensures { result ≡ le (viewed (core self.now)) (said_bound next) (raised_bound (pos 1) (said_bound one)) }
    {
        self.le(Term::of(next), Term::of(one).moved(1))
    }

    /// Whether a bound is known to be the one behind another.
    pub(crate) fn is_next(&self, one: Bound, next: Bound) -> bool
        ensures { result ≡ is_next (viewed (core self.now)) (said_bound one) (said_bound next) }
    {
        self.lies_below(one, next) && self.is_beside(next, one)
    }

    // Whether a span is known to have no index.
    fn is_empty(&self, span: Span) -> bool
        ensures { result ≡ is_empty (viewed (core self.now)) (said_span span) }
    {
        self.lies_below(span.last, span.first)
    }

    // Whether one of the spans of a stretch is.
    fn has_empty(&self, stretch: Stretch) -> bool
        ensures { result ≡ list_any (is_empty (viewed (core self.now))) (said_spans stretch) }
    {
        self.is_empty(stretch.span)
            || match stretch.inner {
                None => false,
                Some(inner) => self.is_empty(inner),
            }
    }

    /// Whether each component of a row is known to be defined: by the row, or since all its first indexes are held.
    pub(crate) fn is_whole(&self, table: &Rows, row: usize) -> bool
        ensures { result ≡ is_whole (table_of table.now) (viewed (core self.now)) row }
    {
        self.row(row).is_defined || self.is_spanned(table, row)
    }

    /// Whether an ordinal variable that is there is known to be defined.
    pub(crate) fn has_number(&self, table: &Rows, root: u32) -> bool
        ensures { result ≡ has_number (table_of table.now) (Live (viewed (core self.now))) root }
    {
        let row = root as usize;
        row < table.variables() && (table.is_ordinal_variable(root) && self.row(row).is_defined)
    }

    /// Whether the variable of a bound, if it has one, is.
    pub fn has_value(&self, table: &Rows, bound: Bound) -> bool
        ensures { result ≡ has_value (table_of table.now) (Live (viewed (core self.now))) (said_bound bound) }
    {
        match bound.root {
            None => true,
            Some(root) => self.has_number(table, root),
        }
    }

    // Whether the bounds of a span have values.
    fn has_values(&self, table: &Rows, span: Span) -> bool
        ensures { result ≡ has_values (table_of table.now) (Live (viewed (core self.now))) (said_span span) }
    {
        self.has_value(table, span.first) && self.has_value(table, span.last)
    }

    // Whether those of a span have, and of an inner one, if there is one.
    fn have_values(&self, table: &Rows, span: Span, inner: Option<Span>) -> bool
        ensures { result ≡ have_values (table_of table.now) (Live (viewed (core self.now)))
            (said_span span ∷ inner_spans inner) }
    {
        self.has_values(table, span)
            && match inner {
                None => true,
                Some(inner) => self.has_values(table, inner),
            }
    }

    /// Whether a stretch is known to be defined: its bounds have values, and no index lies in it, or all of its row is
    /// defined, or what is held has all of it.
    fn gives_stretch(&self, table: &Rows, stretch: Stretch) -> bool
        ensures { result ≡ gives_stretch (table_of table.now) (viewed (core self.now)) (said_stretch stretch) }
    {
        self.have_values(table, stretch.span, stretch.inner)
            && (self.has_empty(stretch)
                || (self.is_whole(table, stretch.row) || self.is_had(table, stretch)))
    }

    // Whether an order is given: both variables are defined, and the first is at most the second plus the number.
    fn gives_order(&self, table: &Rows, order: Order) -> bool
        ensures { result ≡ gives (table_of table.now) (viewed (core self.now)) (said_order order) }
    {
        let span = order.span();
        self.has_number(table, order.root)
            && (self.has_number(table, order.other) && self.is_at_most(span.first, span.last))
    }

    /// Whether what may be held is given.
    pub(crate) fn gives(&self, table: &Rows, held: &Held) -> bool
        ensures { result ≡ gives (table_of table.now) (viewed (core self.now)) (said_held held.now) }
    {
        match held {
            Held::Stretched(stretch) => self.gives_stretch(table, *stretch),
            Held::Ordered(order) => self.gives_order(table, *order),
        }
    }

    /// Whether the variables are defined on which it rests.
    pub(crate) fn has_its_values(&self, table: &Rows, held: &Held) -> bool
        ensures { result ≡ has_its_values (table_of table.now) (Live (viewed (core self.now))) (said_held held.now) }
    {
        let (span, inner) = held.ends();
        self.have_values(table, span, inner)
    }

    /// Whether a claim is given.
    pub fn gives_claim(&self, table: &Rows, claim: &Claim) -> bool
        ensures { result ≡ gives_claim (table_of table.now) (viewed (core self.now)) (said_claim claim.now) }
    {
        match claim {
            Claim::Range { row, range } => self.row(*row).range.leq(range),
            Claim::Defined { row } => self.is_whole(table, *row),
            Claim::Holds(held) => self.gives(table, held),
        }
    }
}
