//! What is seen at the sites of statements and expressions, from where their statement begins.

use crate::{Cause, Loss, Near, Operand, Seer, Sight, Uncounted};
use analyser_claims::{Event, expression_events};
use checker_rows::limits;
use checker_state::{Held, Term, bound_form};
use domain::{Domain, Interval};
use std::alloc::AllocError;
use typed_tree::{
    Access, Base, Calculation, Call, Designator, Dyadic, Expr, Link, Monadic, Passed, RangeTest,
    Selector,
};

impl<'a> Seer<'a> {
    /// Sees what is tested in an expression.
    pub(crate) fn see_expression(&mut self, expression: &Expr) {
        self.see_all(expression_events(self.state().alloc(), expression));
    }

    /// Sees what is tested by events, if there was memory for these.
    pub(crate) fn see_all(&mut self, events: Result<Vec<Event>, AllocError>) {
        match events {
            Ok(events) => {
                for event in &events {
                    self.see(event);
                }
            }
            Err(error) => self.walk.flow.state.run_short(error.into()),
        }
    }

    fn see(&mut self, event: &Event) {
        match event {
            Event::Access { access, indexes } => self.see_access(access, indexes),
            Event::Evaluate(expression) => self.see_evaluated(expression),
            Event::Assign(one) => {
                self.fit(one.fits, &one.value);
            }
            Event::Read(one) => self.forget(&one.access),
            Event::Widen(width) => {
                self.test(width.site, &width.value, Interval::between(1, i32::MAX));
            }
            Event::Call { call, actuals } => self.see_call(*call, actuals),
            Event::Copy(_) | Event::Case(_) | Event::Enter { .. } | Event::Leave => {}
        }
    }

    // What is tested in an expression, but for what its parts test.
    fn see_evaluated(&mut self, expression: &Expr) {
        match expression {
            Expr::Variable {
                access,
                indexes,
                defined,
                ..
            } => self.see_use(*defined, access, indexes),
            Expr::Set {
                designators,
                members,
                ..
            } => self.see_members(designators, members),
            Expr::Monadic {
                operation,
                operand,
                ..
            } => match operation {
                Monadic::Plain(Calculation::Square { overflow }) => {
                    self.test(*overflow, operand, Interval::between(-46340, 46340));
                }
                Monadic::Plain(_) => {}
                Monadic::Tested { fits, .. } => {
                    self.fit(*fits, operand);
                }
            },
            Expr::Chain { first, rest } => self.see_links(expression, first, rest),
            _ => {}
        }
    }

    /// The index tests of an access.
    pub(crate) fn see_access(&mut self, access: &Access, indexes: &[Expr]) {
        let mut left = indexes.iter();
        for selector in &access.selectors {
            if let Selector::Element { fits, .. } = selector
                && let Some(index) = left.next()
            {
                self.fit(*fits, index);
            }
        }
    }

    fn see_call(&mut self, call: Call, actuals: &[Passed]) {
        for (place, actual) in actuals.iter().enumerate() {
            if let Passed::Value { value, fits } = actual {
                let was = self.fit(*fits, value);
                self.give(call, place, was);
            }
        }
    }

    /// A value that has to lie in the range of a type. Its range.
    pub(crate) fn fit(&mut self, fits: RangeTest, value: &Expr) -> Interval {
        self.test(fits.site, value, limits(fits.range))
    }

    /// A value that is tested at a site, and its range.
    pub(crate) fn test(&mut self, site: u32, value: &Expr, fits: Interval) -> Interval {
        let range = self.evaluated(value);
        let operand = self.operand(Some(value), range);
        self.put(site, Sight::Value(operand, None, fits));
        range
    }

    fn see_members(&mut self, designators: &[Designator], members: &[Expr]) {
        let mut left = members.iter();
        for designator in designators {
            let (site, count) = match designator {
                Designator::Single { site } => (*site, 1),
                Designator::Range { site } => (*site, 2),
            };
            for member in left.by_ref().take(count) {
                self.test(site, member, Interval::MEMBERS);
            }
        }
    }

    // A value parameter is given a value of a range.
    fn give(&mut self, call: Call, place: usize, was: Interval) {
        let table = self.state().table();
        let called = table.tree().blocks.get(call.block as usize);
        let Some(root) = called.and_then(|block| block.heading.parameters.get(place)) else {
            return;
        };
        let row = table.of_variable(*root).first;
        if let Some(given) = self.sights.given.get_mut(row)
            && given.is_none_or(|before| !was.leq(&before.was))
        {
            let (by, at) = (Cause::Given, call.name);
            *given = Some(Loss { was, by, at });
        }
    }

    // The operators of a chain.
    fn see_links<'e>(&mut self, chain: &'e Expr, first: &'e Expr, rest: &'e [Link]) {
        let mut noted = Vec::new(self.state().alloc());
        let mark = self.state().mark();
        self.walk.flow.noting(chain, &mut noted, &mut Uncounted);
        let _behind = self.walk.flow.state.leave(mark);
        let mut alone = Some(first);
        for (link, both) in rest.iter().zip(noted.iter()) {
            let left = self.operand(alone.take(), both.left.range());
            let right = self.operand(Some(&link.operand), both.right.range());
            self.see_link(link.operation, left, right);
        }
    }

    fn see_link(&mut self, operation: Dyadic, left: Operand, right: Operand) {
        let (none, all) = (Interval::EMPTY, Interval::INTEGER);
        let (site, fits) = match operation {
            Dyadic::Plus { overflow } => (overflow, all.subtract(&right.range)),
            Dyadic::Minus { overflow } => (overflow, all.add(&right.range)),
            Dyadic::Times { overflow } => (overflow, none),
            Dyadic::Div { by_zero } => return self.put(by_zero, Sight::Value(right, None, none)),
            Dyadic::Mod { by_zero_or_less } => {
                let fits = Interval::between(1, i32::MAX);
                return self.put(by_zero_or_less, Sight::Value(right, None, fits));
            }
            _ => return,
        };
        let is_number = right.range.first() == right.range.last();
        let fits = if is_number { fits.meet(&all) } else { none };
        self.put(site, Sight::Value(left, Some(right), fits));
    }

    fn evaluated(&mut self, value: &Expr) -> Interval {
        let mark = self.state().mark();
        let known = self.walk.expression(value, &mut Uncounted);
        let _behind = self.walk.flow.state.leave(mark);
        known.range()
    }

    // A value that lies in a range.
    fn operand(&self, value: Option<&Expr>, range: Interval) -> Operand {
        let used = match value {
            Some(
                Expr::Variable {
                    access,
                    defined,
                    ..
                },
            ) => Some((*defined, self.row(access))),
            _ => None,
        };
        let lost = used.and_then(|(_, row)| *self.losses.get(row)?);
        Operand { used, range, lost }
    }

    // A variable or a component that has to be defined.
    fn see_use(&mut self, site: u32, access: &Access, indexes: &[Expr]) {
        if let Some(index) = indexes.first() {
            let row = self.row(access);
            if let Some(near) = self.nearest(row, index) {
                self.put(site, Sight::Element(near));
            }
        } else if let Base::Variable = access.base
            && let Some(used) = self.sights.uses.get_mut(access.root as usize)
        {
            *used = Some(site);
        }
    }

    // The stretch of a row of which most is known beside an index.
    fn nearest(&mut self, row: usize, index: &Expr) -> Option<Near> {
        let range = self.evaluated(index);
        let state = self.state();
        let index = bound_form(state.rules(), state.table(), index)?;
        let (mut nearest, mut most) = (None, None);
        for held in state.held() {
            match held {
                Held::Ordered(order) if index.root == Some(order.root) => most = Some(*order),
                Held::Stretched(stretch) if stretch.row == row => {
                    let span = stretch.span;
                    let begins = state.knows_at_most(Term::of(span.first), Term::of(index));
                    if begins || nearest.is_none() {
                        let missing = if begins {
                            (index, span.last)
                        } else {
                            (span.first, index)
                        };
                        nearest = Some((span, missing));
                    }
                }
                _ => {}
            }
        }
        let (span, missing) = nearest?;
        Some(Near {
            span,
            index,
            range,
            missing,
            most,
        })
    }
}
