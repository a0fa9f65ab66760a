//! The certificate that facts make which stand at the end.

use crate::implied::drop_implied;
use crate::spots::Revision;
use analyser_plan::Proposed;
use certificate::{Certificate, Fact, LoopClaims, Section};
use checker_loops::rows_named;
use checker_rows::Rows;
use domain::Domain;
use std::mem;

/// Puts facts into a certificate without facts, in their order, without those that others say as well.
pub(crate) fn filled(rows: &Rows, frame: Certificate, facts: Proposed) -> Certificate {
    let mut certificate = frame;
    Revision::Fill(rows, facts).make(&mut certificate);
    certificate
}

/// Leaves out of a certificate what says nothing.
pub(crate) fn drop_vacant(certificate: &mut Certificate) {
    for section in certificate.sections.iter_mut() {
        section.loops.retain(loop_says_something);
    }
    certificate.sections.retain(says_something);
}

/// Puts facts that were found into a list, in their order.
pub(crate) fn put(rows: &Rows, to: &mut Vec<Fact>, from: Option<&mut Vec<Fact>>) {
    if let Some(facts) = from {
        mem::swap(to, facts);
        to.retain(|fact| !is_of_all(rows, fact));
        to.sort_unstable_by(|one, other| one.compare(other));
        to.dedup_by(|one, other| other.compare(one).is_eq());
        drop_implied(rows, to);
    }
}

// Whether a range has all values of a type.
fn is_of_all(rows: &Rows, fact: &Fact) -> bool {
    match fact {
        Fact::Range { path, range } => rows.row_limits(rows_named(rows, path).first).leq(range),
        _ => false,
    }
}

fn says_something(section: &Section) -> bool {
    !(section.aliases.is_empty()
        && section.changes.is_empty()
        && section.entry.is_empty()
        && section.exit.is_empty()
        && section.loops.is_empty())
}

fn loop_says_something(claims: &LoopClaims) -> bool {
    !(claims.changes.is_empty() && claims.facts.is_empty())
}
