//! Whether what is held has what is wanted of a row, alone or two together.
ghost use Rattle.std.specs.Prelude.{◌≡◌, ◌&&◌, ◌||◌, ◌∷◌, [], drop, map, pos, true, false};
ghost use Rattle.std.specs.List.{list_any};
ghost use Rattle.checker_rows.specs.Leaves.{index_before};
ghost use Rattle.checker_rows.specs.Rows.{indexes_at, rows_of};
ghost use Rattle.checker_state.specs.Bounds.{raised_bound};
ghost use Rattle.checker_state.specs.State.{Wanted as Asks, begins, covers, has_span, have_spans, is_covered, is_had};
ghost use Rattle.checker_state.specs.State.{is_joined, is_joined_inside, is_spanned, joins, le, wanted_of};
ghost use Rattle.checker_state.specs.View.{inner_spans, said_bound, said_held, said_span, said_spans};
ghost use Rattle.checker_known.specs.Knowledge.{core, viewed};
ghost use Rattle.checker_known.specs.View.{asked, inner_asked, reaches};

use crate::Knowledge;
use checker_rows::Rows;
use checker_state::{Bound, Group, Held, Span, Stretch};
use domain::Extension;
use types::OrdinalRange;

/// What is asked of a span.
pub trait Ask: Copy {
    /// Which bounds are known to be at most its first one, and which at least its last one.
    ghost asks: { Self → Asks };

    /// Whether a bound is known to be at most its first one.
    fn begins(&self, bound: Bound) -> bool
        ensures { result ≡ (asks self.now).begins (said_bound bound) };

    /// Whether one is known to be at least its last one.
    fn ends(&self, bound: Bound) -> bool
        ensures { result ≡ (asks self.now).ends (said_bound bound) };
}

/// What is wanted of a row: first indexes, and perhaps some of those behind them.
#[derive(Clone, Copy)]
pub struct Wanted<A: Copy, B: Copy> {
    pub row: usize,
    pub first: A,
    pub second: Option<B>,
}

/// A span between bounds.
#[derive(Clone, Copy)]
pub(crate) struct Between<'k> {
    knowledge: &'k Knowledge,
    span: Span,
}

impl<'k> Ask for Between<'k> {
    ghost asks = { λ between. wanted_of (viewed (core between.knowledge.now)) (said_span between.span) };

    fn begins(&self, bound: Bound) -> bool {
        self.knowledge.is_at_most(bound, self.span.first)
    }

    fn ends(&self, bound: Bound) -> bool {
        self.knowledge.is_at_most(self.span.last, bound)
    }
}

// Whether a span has all that is asked.
fn has_span<A: Ask>(wanted: A, held: Span) -> bool
    ensures { result ≡ has_span (A.asks wanted) (said_span held) }
{
    wanted.begins(held.first) && wanted.ends(held.last)
}

// Whether one is of a row and goes to the wanted end.
fn reaches<A: Ask>(row: usize, wanted: A, held: &Held) -> bool
    ensures { result ≡ reaches row (A.asks wanted) (said_held held.now) }
{
    match held.stretch() {
        None => false,
        Some(stretch) => row == stretch.row && wanted.ends(stretch.span.last),
    }
}

impl Knowledge {
    /// Whether something that is held has all that is wanted. In a version with blocks it does also where one or two
    /// together have all of the first indexes, with any behind them; and in one with boxes where two together have all.
    pub fn has<A: Ask>(&self, table: &Rows, wanted: Wanted<A, A>) -> bool
        ensures { result ≡ is_had (viewed (core self.now)) (indexes_at (rows_of table.now) wanted.row) wanted.row
            (asked A.asks A.asks wanted) }
    {
        self.is_reached(wanted.row, wanted.first) && self.has_all_of(table, wanted)
    }

    // Whether something that is held of a row goes to the wanted end: without one none has all, and no two have.
    fn is_reached<A: Ask>(&self, row: usize, wanted: A) -> bool
        ensures { result ≡ list_any (reaches row (A.asks wanted)) (map said_held self.now.held.items) }
    {
        let (first, end) = self.places(Group::Row(row));
        for place in first..end {
            if reaches(row, wanted, &self.held[place]) {
                return true;
            }
        }
        false
    }

    // Whether one has all that is wanted, or two together.
    fn has_all_of<A: Ask>(&self, table: &Rows, wanted: Wanted<A, A>) -> bool
        ensures { result ≡ is_had (viewed (core self.now)) (indexes_at (rows_of table.now) wanted.row) wanted.row
            (asked A.asks A.asks wanted) }
    {
        if self.is_covered(table, wanted) {
            return true;
        }
        self.rules.has(Extension::Blocks) && self.has_first(table, wanted)
            || self.rules.has(Extension::Boxes) && self.is_joined_inside(table, wanted)
    }

    // Whether one or two together have all that is wanted of the first indexes, where none has all that is wanted.
    fn has_first<A: Ask>(&self, table: &Rows, wanted: Wanted<A, A>) -> bool
        ensures { is_covered (viewed (core self.now)) (indexes_at (rows_of table.now) wanted.row) wanted.row
            (asked A.asks A.asks wanted) ≡ false
            → result ≡ (is_covered (viewed (core self.now)) (indexes_at (rows_of table.now) wanted.row) wanted.row
            (A.asks wanted.first ∷ []) || is_joined (viewed (core self.now))
            (indexes_at (rows_of table.now) wanted.row) wanted.row (A.asks wanted.first ∷ []) false) }
    {
        let first = Wanted {
            second: None,
            ..wanted
        };
        wanted.second.is_some() && self.is_covered(table, first)
            || self.is_joined(table, first, false)
    }

    // Whether two have it together by their second spans, or, where it has two spans itself, by the first.
    #[tactic(auto, using(crate::proofs::Within::inside_none, crate::proofs::Within::inside_some))]
    fn is_joined_inside<A: Ask>(&self, table: &Rows, wanted: Wanted<A, A>) -> bool
        ensures { result ≡ is_joined_inside (viewed (core self.now)) (indexes_at (rows_of table.now) wanted.row)
            wanted.row (asked A.asks A.asks wanted) }
    {
        if wanted.second.is_some() {
            return self.is_joined(table, wanted, true) || self.is_joined(table, wanted, false);
        }
        match table.inner(wanted.row) {
            None => false,
            Some(range) => {
                let whole = Wanted {
                    row: wanted.row,
                    first: wanted.first,
                    second: Some(self.between(Span::all(range))),
                };
                self.is_joined(table, whole, true)
            }
        }
    }

    // What is asked of a span between bounds.
    fn between(&self, span: Span) -> Between
        ensures { wanted_of (viewed (core result.knowledge.now)) (said_span result.span)
            ≡ wanted_of (viewed (core self.now)) (said_span span) }
    {
        Between {
            knowledge: self,
            span,
        }
    }

    /// Whether what is held has all of a stretch.
    pub(crate) fn is_had(&self, table: &Rows, stretch: Stretch) -> bool
        ensures { result ≡ is_had (viewed (core self.now)) (indexes_at (rows_of table.now) stretch.row) stretch.row
            (map (wanted_of (viewed (core self.now))) (said_spans stretch)) }
    {
        let wanted = Wanted {
            row: stretch.row,
            first: self.between(stretch.span),
            second: stretch.inner.map(|span| self.between(span)),
        };
        self.has(table, wanted)
    }

    // Whether something that is held has all that is wanted.
    fn is_covered<A: Ask, B: Ask>(&self, table: &Rows, wanted: Wanted<A, B>) -> bool
        ensures { result ≡ is_covered (viewed (core self.now)) (indexes_at (rows_of table.now) wanted.row) wanted.row
            (asked A.asks B.asks wanted) }
    {
        let (first, end) = self.places(Group::Row(wanted.row));
        for place in first..end {
            if self.covers(table, wanted, &self.held[place]) {
                return true;
            }
        }
        false
    }

    // Whether two together have, by their first spans or by the second.
    fn is_joined<A: Ask, B: Ask>(&self, table: &Rows, wanted: Wanted<A, B>, inside: bool) -> bool
        ensures { result ≡ is_joined (viewed (core self.now)) (indexes_at (rows_of table.now) wanted.row) wanted.row
            (asked A.asks B.asks wanted) inside }
    {
        let (first, end) = self.places(Group::Row(wanted.row));
        for place in first..end {
            if self.has_with_another(table, wanted, inside, &self.held[place]) {
                return true;
            }
        }
        false
    }

    // Whether one has it from the beginning on, and some other the rest.
    fn has_with_another<A: Ask, B: Ask>(
        &self,
        table: &Rows,
        wanted: Wanted<A, B>,
        inside: bool,
        one: &Held,
    ) -> bool
        ensures { result ≡ (begins (viewed (core self.now)) (indexes_at (rows_of table.now) wanted.row) wanted.row
            (asked A.asks B.asks wanted) inside (said_held one.now)
            && list_any (joins (viewed (core self.now)) (indexes_at (rows_of table.now) wanted.row) wanted.row
            (asked A.asks B.asks wanted) inside (said_held one.now)) (map said_held self.now.held.items)) }
    {
        self.begins(table, wanted, inside, one) && self.is_joined_with(table, wanted, inside, one)
    }

    // Whether some other has the rest behind one.
    fn is_joined_with<A: Ask, B: Ask>(
        &self,
        table: &Rows,
        wanted: Wanted<A, B>,
        inside: bool,
        one: &Held,
    ) -> bool
        ensures { result ≡ list_any (joins (viewed (core self.now)) (indexes_at (rows_of table.now) wanted.row)
            wanted.row (asked A.asks B.asks wanted) inside (said_held one.now)) (map said_held self.now.held.items) }
    {
        let (first, end) = self.places(Group::Row(wanted.row));
        for place in first..end {
            if self.joins(table, wanted, inside, one, &self.held[place]) {
                return true;
            }
        }
        false
    }

    // Whether one has all that is wanted.
    fn covers<A: Ask, B: Ask>(&self, table: &Rows, wanted: Wanted<A, B>, held: &Held) -> bool
        ensures { result ≡ covers (viewed (core self.now)) (indexes_at (rows_of table.now) wanted.row) wanted.row
            (asked A.asks B.asks wanted) (said_held held.now) }
    {
        let Some(stretch) = held.stretch() else {
            return false;
        };
        wanted.row == stretch.row
            && has_span(wanted.first, stretch.span)
            && self.has_inner(table, wanted, stretch.inner)
    }

    // Whether it has it from the beginning on.
    fn begins<A: Ask, B: Ask>(
        &self,
        table: &Rows,
        wanted: Wanted<A, B>,
        inside: bool,
        held: &Held,
    ) -> bool
        ensures { result ≡ begins (viewed (core self.now)) (indexes_at (rows_of table.now) wanted.row) wanted.row
            (asked A.asks B.asks wanted) inside (said_held held.now) }
    {
        let Some(stretch) = held.stretch() else {
            return false;
        };
        if wanted.row != stretch.row {
            return false;
        }
        if !inside {
            return wanted.first.begins(stretch.span.first)
                && self.has_inner(table, wanted, stretch.inner);
        }
        let (Some(second), Some(inner)) = (wanted.second, stretch.inner) else {
            return false;
        };
        has_span(wanted.first, stretch.span) && second.begins(inner.first)
    }

    // Whether another has the rest behind it: it begins at the latest behind its last index.
    fn joins<A: Ask, B: Ask>(
        &self,
        table: &Rows,
        wanted: Wanted<A, B>,
        inside: bool,
        one: &Held,
        other: &Held,
    ) -> bool
        ensures { result ≡ joins (viewed (core self.now)) (indexes_at (rows_of table.now) wanted.row) wanted.row
            (asked A.asks B.asks wanted) inside (said_held one.now) (said_held other.now) }
    {
        let (Some(one), Some(other)) = (one.stretch(), other.stretch()) else {
            return false;
        };
        if wanted.row != other.row {
            return false;
        }
        if !inside {
            return self.goes_on(wanted.first, one.span, other.span)
                && self.has_inner(table, wanted, other.inner);
        }
        let (Some(second), Some(inner), Some(next)) = (wanted.second, one.inner, other.inner) else {
            return false;
        };
        has_span(wanted.first, other.span) && self.goes_on(second, inner, next)
    }

    // Whether a span begins at the latest behind the last index of one, and goes to the wanted end.
    fn goes_on<A: Ask>(&self, wanted: A, one: Span, next: Span) -> bool
        ensures { result ≡ (le (viewed (core self.now)) (said_bound next.first)
            (raised_bound (pos 1) (said_bound one.last)) && (A.asks wanted).ends (said_bound next.last)) }
    {
        self.is_beside(next.first, one.last) && wanted.ends(next.last)
    }

    // Whether an inner span is known to have all that is wanted of the inner index.
    #[tactic(auto, using(crate::proofs::Within::inner_has))]
    fn has_inner<A: Ask, B: Ask>(
        &self,
        table: &Rows,
        wanted: Wanted<A, B>,
        held: Option<Span>,
    ) -> bool
        ensures { result ≡ have_spans (viewed (core self.now)) (drop 1 (indexes_at (rows_of table.now) wanted.row))
            (inner_asked B.asks wanted.second) (inner_spans held) }
    {
        match (wanted.second, held) {
            (_, None) => true,
            (None, Some(held)) => self.has_all(table.inner(wanted.row), held),
            (Some(wanted), Some(held)) => has_span(wanted, held),
        }
    }

    // Whether a span is known to have all values of an index, if it is told which these are.
    fn has_all(&self, index: Option<OrdinalRange>, held: Span) -> bool
        ensures { result ≡ have_spans (viewed (core self.now)) (index_before index []) [] (said_span held ∷ []) }
    {
        match index {
            None => false,
            Some(range) => has_span(self.between(Span::all(range)), held),
        }
    }

    /// Whether what is held has all first indexes of a row, if it has one: something alone, or in a version with boxes
    /// two together.
    #[tactic(auto, using(crate::proofs::Within::spanned_none, crate::proofs::Within::spanned_some))]
    pub(crate) fn is_spanned(&self, table: &Rows, row: usize) -> bool
        ensures { result ≡ is_spanned (viewed (core self.now)) row (indexes_at (rows_of table.now) row) }
    {
        let Some(range) = table.index(row) else {
            return false;
        };
        let wanted = Wanted {
            row,
            first: self.between(Span::all(range)),
            second: None,
        };
        if self.rules.has(Extension::Boxes) {
            self.has(table, wanted)
        } else {
            self.is_covered(table, wanted)
        }
    }
}
