ghost use Rattle.std.specs.Prelude.{◌≡◌};
ghost use Rattle.checker_state.specs.State.{table_of};
ghost use Rattle.checker_state.specs.Stores.{all_of_row, all_stored, form_span, gives_block, gives_both, gives_form};
ghost use Rattle.checker_state.specs.Stores.{gives_index, gives_inner, gives_reached, gives_some, range_span, stored};
ghost use Rattle.checker_state.specs.Stores.{with_both, with_element, with_joined};
ghost use Rattle.checker_state.specs.View.{said_claim, said_form, said_index, said_point, said_reach};
ghost use Rattle.checker_state.specs.View.{said_span_form};
ghost use Rattle.checker_trail.specs.Trail.{Moves, seen};

use crate::State;
use checker_state::{Bound, Claim, Held, Index, Indexes, Point, Reach, Span};
use domain::{Domain, Interval};
use types::OrdinalRange;

impl<'a> State<'a> {
    /// Whether what an access reaches in a row is defined.
    pub fn gives_reached(&self, reach: &Reach, row: usize) -> bool
        ensures { result ≡ gives_reached (table_of self.now.table.now) (seen self.now) (said_reach reach.now) row }
    {
        match reach.indexes {
            Indexes::Entire => self.gives(&Claim::Defined { row }),
            Indexes::One(index) => self.gives_index(row, &index),
            Indexes::Two(one, two) => {
                self.gives_index(row, &one) || self.gives_both(row, &one, &two)
            }
        }
    }

    // Whether the components of a first index are defined, by its form or by where it lies.
    fn gives_index(&self, row: usize, index: &Index) -> bool
        ensures { result ≡ gives_index (table_of self.now.table.now) (seen self.now) row (said_index index.now) }
    {
        self.gives_form(row, index.form) || self.gives_some(row, range_span(index.range))
    }

    fn gives_form(&self, row: usize, form: Option<Bound>) -> bool
        ensures { result ≡ gives_form (table_of self.now.table.now) (seen self.now) row (said_form form) }
    {
        match form {
            None => false,
            Some(index) => self.gives(&Claim::in_spans(row, Span::at(index), None)),
        }
    }

    fn gives_some(&self, row: usize, span: Option<Span>) -> bool
        ensures { result ≡ gives_some (table_of self.now.table.now) (seen self.now) row (said_span_form span) }
    {
        match span {
            None => self.is_dead(),
            Some(span) => self.gives(&Claim::in_spans(row, span, None)),
        }
    }

    // Whether those of two indexes are, each by its form or by where it lies.
    fn gives_both(&self, row: usize, one: &Index, two: &Index) -> bool
        ensures { result ≡ gives_both (table_of self.now.table.now) (seen self.now) row (said_index one.now)
            (said_index two.now) }
    {
        self.gives_inner(row, form_span(one.form), two)
            || self.gives_inner(row, range_span(one.range), two)
    }

    fn gives_inner(&self, row: usize, span: Option<Span>, two: &Index) -> bool
        ensures { result ≡ gives_inner (table_of self.now.table.now) (seen self.now) row (said_span_form span)
            (said_index two.now) }
    {
        self.gives_block(row, span, form_span(two.form))
            || self.gives_block(row, span, range_span(two.range))
    }

    fn gives_block(&self, row: usize, span: Option<Span>, inner: Option<Span>) -> bool
        ensures { result ≡ gives_block (table_of self.now.table.now) (seen self.now) row (said_span_form span)
            (said_span_form inner) }
    {
        match (span, inner) {
            (Some(span), Some(inner)) => self.gives(&Claim::in_spans(row, span, Some(inner))),
            _ => false,
        }
    }

    /// Values were stored to what an access reaches in rows, in each of a range.
    pub fn store_all(&mut self, reach: &Reach, stores: &[(usize, Interval)])
        ensures { Moves (all_stored (said_reach reach.now) stores.now) self.old self.new }
    {
        for (row, range) in stores {
            self.store(reach, *row, *range);
        }
    }

    /// Values of a range were stored to what an access reaches in a row.
    pub fn store(&mut self, reach: &Reach, row: usize, range: Interval)
        ensures { Moves (stored (said_reach reach.now) row range) self.old self.new }
    {
        if !reach.is_all {
            return self.widen(row, range);
        }
        match reach.indexes {
            Indexes::Entire => {
                self.set_range(row, range);
                self.define(row);
            }
            Indexes::One(index) => {
                self.widen(row, range);
                if let Some(index) = index.form {
                    self.define_element(row, Point { index, inner: None });
                }
            }
            Indexes::Two(one, two) => {
                self.widen(row, range);
                self.define_both(row, one.form, two.form);
            }
        }
    }

    // Components of a row may have a value of a range from here on.
    fn widen(&mut self, row: usize, range: Interval)
        ensures { Moves (with_joined row range) self.old self.new }
    {
        let both = self.row_range(row).join(&range);
        self.set_range(row, both);
    }

    // The components of two indexes are defined from here on, if both have forms.
    fn define_both(&mut self, row: usize, one: Option<Bound>, two: Option<Bound>)
        ensures { Moves (with_both row (said_form one) (said_form two)) self.old self.new }
    {
        if let (Some(index), Some(two)) = (one, two) {
            let inner = Some(two);
            self.define_element(row, Point { index, inner });
        }
    }

    // The components of first indexes are defined from here on: stretches that end beside them become longer, or else
    // there is one of the indexes alone.
    fn define_element(&mut self, row: usize, point: Point)
        ensures { Moves (with_element row (said_point point)) self.old self.new }
    {
        if self.known.is_dead {
            return;
        }
        let beside = match self.known.beside(self.alloc, row, point) {
            Ok(beside) => beside,
            Err(error) => return self.run_short(error.into()),
        };
        self.remove_all(&beside.places);
        if beside.longer.is_empty() {
            self.hold(Held::at(row, point));
        } else {
            self.hold_all(&beside.longer);
        }
    }
}

/// That each component of a row is defined: of one with indexes, all first indexes are.
pub fn all_of_row(range: Option<OrdinalRange>, row: usize) -> Claim
    ensures { said_claim result ≡ all_of_row range row }
{
    match range {
        None => Claim::Defined { row },
        Some(range) => Claim::in_spans(row, Span::all(range), None),
    }
}

// The span of a form.
fn form_span(form: Option<Bound>) -> Option<Span>
    ensures { said_span_form result ≡ form_span (said_form form) }
{
    match form {
        None => None,
        Some(index) => Some(Span::at(index)),
    }
}

// The span of a range, if its ends are numbers that bounds have.
fn range_span(range: Interval) -> Option<Span>
    ensures { said_span_form result ≡ range_span range }
{
    Span::between(
        Bound::of_number(range.first()),
        Bound::of_number(range.last()),
    )
}
