//! The lines of open sites.

use crate::source::access_at;
use checker_state::Bound;
use domain::{Domain, Interval};
use report::compile::compile;
use report::fault::Fault;
use report::text::open_lines;
use site_seer::{Cause, Loss, Near, Operand, Sight, Sights, see_sites};
use std::alloc::Global;
use text_lines::writer::Writer;
use typed_tree::{Site, SiteKind, Tree};

const NO_MORE: &str = "nothing more of it was known before";

/// What the lines are made of.
#[derive(Drop)]
struct Teller<'t, 's> {
    tree: &'t Tree,
    lines: Vec<&'s [u8]>,
    uses: Vec<Option<u32>>,
    given: Vec<Option<Loss>>,
    text: Writer,
}

/// Three lines for each open site of a source, by the text of a certificate, where there is one.
pub(crate) fn told(
    alloc: Global,
    source: &[u8],
    certificate: Option<&[u8]>,
) -> Result<Vec<u8>, Fault> {
    let compiled = compile(alloc, source, certificate)?;
    let firsts = open_lines(alloc, &compiled.verdict.open_sites)?;
    let lines = source
        .split(|byte| *byte == b'\n')
        .collect::<Vec<&[u8]>>(alloc)?;
    let Sights { seen, uses, given } = see_sites(alloc, &compiled.tree, &compiled.certificate)?;
    let mut teller = Teller {
        tree: &compiled.tree,
        lines,
        uses,
        given,
        text: Writer::new(alloc),
    };
    let sites = compiled.verdict.open_sites.iter();
    for (first, site) in firsts.split(|byte| *byte == b'\n').zip(sites) {
        teller.text.append(first);
        teller.put_site(*site, seen.get(site.id as usize));
    }
    Ok(teller.text.finish()?)
}

impl<'t, 's> Teller<'t, 's> {
    fn put(&mut self, words: &str) {
        self.text.append(words.as_bytes());
    }

    fn put_site(&mut self, site: Site, sight: Option<&Sight>) {
        self.put("\n  ");
        match sight {
            Some(Sight::Value(value, other, fits)) => {
                self.put_value(site.kind, value, other.as_ref(), *fits);
            }
            Some(Sight::Element(near)) => {
                self.put_name(Some(site.id));
                self.put_stretch(near);
                self.put_gap(near);
            }
            _ => self.put_unseen(site),
        }
        self.put("\n");
    }

    // A value, or both operands of a result, the right one if it isn't a number that stands there.
    fn put_value(
        &mut self,
        kind: SiteKind,
        left: &Operand,
        right: Option<&Operand>,
        fits: Interval,
    ) {
        self.put_lies(left, left.range);
        if let Some(right) = right
            && (right.used.is_some() || right.range.first() != right.range.last())
        {
            self.put(", ");
            self.put_lies(right, right.range);
        }
        self.put_wanted(kind, fits);
        self.put_lost(left, right.unwrap_or(left), fits);
    }

    // What closes a site.
    fn put_wanted(&mut self, kind: SiteKind, fits: Interval) {
        match kind {
            SiteKind::DivisionByZero => self.put(" here; it fits if it isn't 0"),
            SiteKind::Case => self.put(" here; it fits if it is one of the constants"),
            _ if fits.is_empty() => self.put(" here; the result fits if it is an integer"),
            _ => self.put_range(" here; it fits if it is ", fits),
        }
        self.put("\n  ");
    }

    // Something that has to be defined.
    fn put_unseen(&mut self, site: Site) {
        if let SiteKind::UndefinedResult = site.kind {
            self.put("the result isn't known to be set where the function ends");
        } else {
            self.put_name(Some(site.id));
            self.put(" isn't known to be defined here; it is, if each way here gives it a value");
        }
        self.put("\n  ");
        self.put(NO_MORE);
    }

    // What is known to be defined of an array, beside an element.
    fn put_stretch(&mut self, near: &Near) {
        let (less, more) = near.missing;
        self.put(": ");
        self.put_bound(near.span.first);
        self.put("..");
        self.put_bound(near.span.last);
        self.put(" is known to be defined, ");
        self.put_bound(near.index);
        self.put_range(" is ", near.range);
        self.put("; ");
        self.put_order(less, more);
        self.put(" is not known\n  ");
    }

    fn put_order(&mut self, less: Bound, more: Bound) {
        self.put_bound(less);
        self.put(" <= ");
        self.put_bound(more);
    }

    fn put_lies(&mut self, operand: &Operand, range: Interval) {
        self.put_name(operand.used.map(|(site, _)| site));
        self.put_range(" is ", range);
    }

    fn put_name(&mut self, site: Option<u32>) {
        match site.and_then(|id| self.tree.sites.get(id as usize)) {
            None => self.put("the value"),
            Some(site) => self.text.append(access_at(&self.lines, site.place)),
        }
    }

    fn put_range(&mut self, words: &str, range: Interval) {
        self.put(words);
        let all = Interval::INTEGER;
        if range.is_empty() {
            self.put("without a value");
        } else if range.first() == range.last() {
            self.text.number(b"", range.first());
        } else if all.leq(&range) {
            self.put("any integer");
        } else if range.first() <= all.first() {
            self.text.number(b"at most ", range.last());
        } else if all.last() <= range.last() {
            self.text.number(b"at least ", range.first());
        } else {
            self.text.number(b"in ", range.first());
            self.text.number(b"..", range.last());
        }
    }

    fn put_bound(&mut self, bound: Bound) {
        let Some(root) = bound.root else {
            return self.text.number(b"", i64::from(bound.number));
        };
        let used = self.uses.get(root as usize).copied().flatten();
        self.put_name(used);
        if bound.number > 0 {
            self.text.number(b" + ", i64::from(bound.number));
        } else if bound.number < 0 {
            self.text.number(b" - ", -i64::from(bound.number));
        }
    }

    // Where more was known of one of two operands.
    fn put_lost(&mut self, value: &Operand, other: &Operand, fits: Interval) {
        for operand in [value, other] {
            if let Some(loss) = self.loss(operand, fits) {
                return self.put_loss(operand, loss);
            }
        }
        self.put(NO_MORE);
    }

    fn put_loss(&mut self, operand: &Operand, loss: Loss) {
        self.put_lies(operand, loss.was);
        self.put(match loss.by {
            Cause::Loop => " before the loop that changes it, at ",
            Cause::Call => " before the call that changes it, at ",
            Cause::Given => " where it is passed, at ",
        });
        self.text.natural(b"", u64::from(loss.at.line));
        self.text.natural(b":", u64::from(loss.at.column));
    }

    // What was known before, if it would do; else what the parameter was given.
    fn loss(&self, operand: &Operand, fits: Interval) -> Option<Loss> {
        let (_, row) = operand.used?;
        match operand.lost {
            Some(loss)
                if loss.was.leq(&operand.range) && (fits.is_empty() || loss.was.leq(&fits)) => {
                Some(loss)
            }
            _ => self.given.get(row).copied().flatten(),
        }
    }

    // What lies between an index and the end of a stretch.
    fn put_gap(&mut self, near: &Near) {
        let Some(order) = near.most else {
            return self.put(NO_MORE);
        };
        self.put_order(
            Bound::plus(order.root, 0),
            Bound::plus(order.other, order.number),
        );
        self.put(" is known, but nothing between ");
        self.put_bound(Bound::plus(order.other, 0));
        self.put(" and ");
        self.put_bound(near.span.last);
    }
}
