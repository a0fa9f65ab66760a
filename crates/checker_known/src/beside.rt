ghost use Rattle.std.specs.Prelude.{◌≡◌, ◌+◌, ◌<◌, ◌&&◌, IfOk, length, map, take};
ghost use Rattle.domain.specs.declared.versions.Extension.TheVariants.{Boxes};
ghost use Rattle.domain.specs.Versions.{has};
ghost use Rattle.checker_state.specs.State.{le};
ghost use Rattle.checker_state.specs.Stores.{is_at, longer, longer_by, longer_span};
ghost use Rattle.checker_known.specs.Longer.{AreLonger};
ghost use Rattle.checker_known.specs.Knowledge.{core, viewed};
ghost use Rattle.checker_state.specs.View.{said_bound, said_held, said_more, said_point, said_span, said_span_form};
ghost use Rattle.checker_state.specs.View.{said_spans};

use crate::Knowledge;
use checker_state::{Bound, Held, Point, Span, Stretch};
use domain::Extension;
use std::alloc::{AllocError, Global};

/// What becomes longer where first indexes of a row become defined: where it stands, and what becomes of it.
#[derive(Drop)]
pub struct Beside {
    /// The places, in their order.
    pub places: Vec<usize>,
    /// What becomes of what stands there.
    pub longer: Vec<Held>,
}

impl Knowledge {
    /// What first indexes of a row that become defined make longer.
    pub fn beside(&self, alloc: Global, row: usize, point: Point) -> Result<Beside, AllocError>
        ensures { IfOk result (λ found. AreLonger (viewed (core self.now)) row (said_point point)
            found.places.items found.longer.items (map said_held self.now.held.items)) }
    {
        let mut beside = Beside {
            places: Vec::new(alloc),
            longer: Vec::new(alloc),
        };
        let (first, end) = self.near(row, point);
        for place in first..end {
            self.add_longer(row, point, place, &mut beside)?;
        }
        Ok(beside)
    }

    // Adds what stands at a place, if it becomes longer.
    fn add_longer(
        &self,
        row: usize,
        point: Point,
        place: usize,
        beside: &mut Beside,
    ) -> Result<(), AllocError>
        requires { place < length self.now.held.items }
        ensures { IfOk result (λ _. AreLonger (viewed (core self.now)) row (said_point point)
            beside.old.places.items beside.old.longer.items (map said_held (take place self.now.held.items))
            → AreLonger (viewed (core self.now)) row (said_point point) beside.new.places.items
            beside.new.longer.items (map said_held (take (place + 1) self.now.held.items))) }
    {
        match self.longer(row, point, &self.held[place]) {
            None => Ok(()),
            Some(longer) => {
                beside.places.push(place)?;
                beside.longer.push(longer)?;
                Ok(())
            }
        }
    }

    // What is held of a row with first indexes more, if these lie just behind it or before it.
    fn longer(&self, row: usize, point: Point, held: &Held) -> Option<Held>
        ensures { said_more result
            ≡ longer (viewed (core self.now)) row (said_point point) (said_held held.now) }
    {
        let stretch = held.stretch()?;
        if stretch.row != row {
            return None;
        }
        self.longer_stretch(point, stretch)
    }

    fn longer_stretch(&self, point: Point, stretch: Stretch) -> Option<Held>
        ensures { said_more result
            ≡ longer_by (viewed (core self.now)) stretch.row (said_point point) (said_spans stretch) }
    {
        match (point.inner, stretch.inner) {
            (None, None) => {
                let span = self.longer_span(point.index, stretch.span)?;
                Some(Held::within(stretch.row, span, None))
            }
            (Some(index), Some(inner)) => {
                if self.is_at(point.index, stretch.span) {
                    let inner = self.longer_span(index, inner)?;
                    return Some(Held::within(stretch.row, Span::at(point.index), Some(inner)));
                }
                if !self.is_column_at(index, inner) {
                    return None;
                }
                let span = self.longer_span(point.index, stretch.span)?;
                Some(Held::within(stretch.row, span, Some(Span::at(index))))
            }
            _ => None,
        }
    }

    // Whether a span has just one index.
    fn is_at(&self, index: Bound, span: Span) -> bool
        ensures { result ≡ is_at (viewed (core self.now)) (said_bound index) (said_span span) }
    {
        self.is_same(span.first, index) && self.is_same(span.last, index)
    }

    // Whether a second span has just one index, where a stretch may become longer by a first one.
    fn is_column_at(&self, index: Bound, inner: Span) -> bool
        ensures { result
            ≡ (has self.now.rules Boxes && is_at (viewed (core self.now)) (said_bound index) (said_span inner)) }
    {
        self.rules.has(Extension::Boxes) && self.is_at(index, inner)
    }

    // Whether two bounds are known to be the same.
    fn is_same(&self, one: Bound, other: Bound) -> bool
        ensures { result ≡ (le (viewed (core self.now)) (said_bound one) (said_bound other)
            && le (viewed (core self.now)) (said_bound other) (said_bound one)) }
    {
        self.is_at_most(one, other) && self.is_at_most(other, one)
    }

    fn longer_span(&self, index: Bound, span: Span) -> Option<Span>
        ensures { said_span_form result ≡ longer_span (viewed (core self.now)) (said_bound index) (said_span span) }
    {
        if self.is_next(span.last, index) {
            return Some(Span {
                first: span.first,
                last: index,
            });
        }
        if self.is_next(index, span.first) {
            return Some(Span {
                first: index,
                last: span.last,
            });
        }
        None
    }
}
