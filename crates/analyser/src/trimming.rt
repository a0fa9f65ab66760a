//! What a certificate needs: facts that close no site are left out where checks without them tell so.

ghost use Rattle.std.specs.Prelude.{IfOk, IfSome};
ghost use Rattle.analyser.specs.Verdicts.{IsJudgedAs};

use crate::accepting::{reread, strength};
use crate::outcome::drop_vacant;
use crate::spots::Revision;
use crate::verdicts::is_same;
use cert_checker::{Verdict, check};
use certificate::{Certificate, Fact};
use checker_expressions::CheckFault;
use std::alloc::{AllocError, Global};
use typed_tree::Tree;

// How many entries of the program all checks together go over at most. Each fact may want a check, which goes over all
// entries, so without a limit a program of twice the length would take four times as long.
const ENTRIES: u64 = 2_000_000;

// Facts by what they say, and which ranges of these are still to be tried.
#[derive(Drop)]
struct Trials<'a> {
    // Each fact that is kept, with its number in the order of the text.
    facts: Vec<(usize, &'a Fact)>,
    ranges: Vec<(usize, usize)>,
    // By the number of a fact.
    is_kept: Vec<bool>,
}

/// Leaves facts out of a certificate that no site needs: those without which the checker's verdict is the same. All are
/// tried first, then those of each strength, of each subject, halves of these, and so on, until none goes; of a long
/// program less is tried. Answers none where the certificate doesn't give the verdict.
///
/// # Errors
/// No memory.
pub fn trimmed(
    alloc: Global,
    tree: &Tree,
    certificate: &Certificate,
    verdict: &Verdict,
) -> Result<Option<Certificate>, AllocError>
    ensures { IfOk result (λ less. IfSome less (IsJudgedAs tree.now verdict.now)) }
{
    let mut trials = Trials::of(alloc, certificate)?;
    for _ in 0..ENTRIES / verdict.visits.max(1) {
        let Some((first, last)) = trials.next() else {
            break;
        };
        trials.keep(first, last, false);
        let less = reduced(alloc, tree, certificate, verdict, &trials.is_kept)?;
        if less.is_none() {
            trials.keep(first, last, true);
            trials.part(first, last)?;
        }
    }
    reduced(alloc, tree, certificate, verdict, &trials.is_kept)
}

impl<'a> Trials<'a> {
    fn of(alloc: Global, certificate: &'a Certificate) -> Result<Trials<'a>, AllocError> {
        let mut facts = Vec::new(alloc);
        for section in &certificate.sections {
            let turns = section.loops.iter().flat_map(|claims| claims.facts.iter());
            for fact in section.entry.iter().chain(section.exit.iter()).chain(turns) {
                facts.push((facts.len(), fact))?;
            }
        }
        facts.sort_unstable_by(|(_, one), (_, other)| {
            strength(*one)
                .cmp(&strength(*other))
                .then((*one).compare(*other))
        });
        let is_kept = Vec::from_elem(alloc, true, facts.len())?;
        let mut ranges = Vec::new(alloc);
        ranges.push((0, facts.len()))?;
        Ok(Trials {
            facts,
            ranges,
            is_kept,
        })
    }

    // The next range. Where all are tried it has all facts that are kept, if some went since this was so before.
    fn next(&mut self) -> Option<(usize, usize)> {
        if let Some(range) = self.ranges.pop() {
            return Some(range);
        }
        let before = self.facts.len();
        let is_kept = &self.is_kept;
        self.facts
            .retain(|(number, _)| matches!(is_kept.get(*number), Some(true)));
        let left = self.facts.len();
        (0 < left && left < before).then_some((0, left))
    }

    fn keep(&mut self, first: usize, last: usize, is_kept: bool) {
        for (number, _) in self.facts.iter().take(last).skip(first) {
            if let Some(it) = self.is_kept.get_mut(*number) {
                *it = is_kept;
            }
        }
    }

    // Parts a range of more than one fact, for the first part to be tried next.
    fn part(&mut self, first: usize, last: usize) -> Result<(), AllocError> {
        let middle = first.midpoint(last);
        let parting = (first..last).skip(1).max_by_key(|at| (
            self.difference(*at),
            last.saturating_sub(at.abs_diff(middle)),
        ));
        if let Some(at) = parting {
            self.ranges.push((at, last))?;
            self.ranges.push((first, at))?;
        }
        Ok(())
    }

    // How much a fact differs from the one before it: 2 in its strength, 1 in its subject, else 0.
    fn difference(&self, at: usize) -> u8 {
        match (self.facts.get(at.saturating_sub(1)), self.facts.get(at)) {
            (Some((_, one)), Some((_, other))) if strength(*one) != strength(*other) => 2,
            (Some((_, one)), Some((_, other))) if !are_alike(*one, *other) => 1,
            _ => 0,
        }
    }
}

// Whether facts say the same of the same, in other numbers or spans maybe.
fn are_alike(fact: &Fact, other: &Fact) -> bool {
    match (fact, other) {
        (Fact::Defined { path, .. }, Fact::Defined { path: same, .. }) => path
            .compare(same)
            .is_eq(),
        _ => fact.compare(other).is_eq(),
    }
}

// A certificate with those of its facts alone that are kept, if the checker's verdict by that is the same.
fn reduced(
    alloc: Global,
    tree: &Tree,
    certificate: &Certificate,
    verdict: &Verdict,
    is_kept: &[bool],
) -> Result<Option<Certificate>, AllocError>
    ensures { IfOk result (λ less. IfSome less (IsJudgedAs tree.now verdict.now)) }
{
    let Some(mut less) = reread(alloc, certificate)? else {
        return Ok(None);
    };
    Revision::Sift(is_kept.iter()).make(&mut less);
    drop_vacant(&mut less);
    let Some(less) = reread(alloc, &less)? else {
        return Ok(None);
    };
    match check(alloc, tree, &less) {
        Ok(told) if is_same(&told, verdict) => Ok(Some(less)),
        Err(CheckFault::Memory(refused)) => Err(refused.into()),
        _ => Ok(None),
    }
}
