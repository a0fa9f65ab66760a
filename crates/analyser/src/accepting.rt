//! What the checker accepts of a certificate that was found.

ghost use Rattle.std.specs.Prelude.{◌≡◌, IfOk, IfSome, true};
ghost use Rattle.analyser.specs.Verdicts.{IsVerdict};
ghost use Rattle.certificate.specs.Contents.{are_in_order, contents};
ghost use Rattle.cert_checker.specs.Promise.{IsAccepted};
ghost use Rattle.typed_tree.specs.WellFormed.{IsWellFormed};

use crate::outcome::drop_vacant;
use crate::spots::{Revision, Spot};
use analyser_claims::{Event, events_of, number_of};
use cert_checker::laws::plain_is_accepted;
use cert_checker::{Verdict, check};
use certificate::{Certificate, Fact, ReadFault, read, write};
use checker_expressions::CheckFault;
use domain::Spans;
use place::Place;
use plain_certificate::widest;
use std::alloc::{AllocError, Global};
use typed_tree::Tree;

// How often facts are let go, those of one kind at one place at a time.
const TRIES: u32 = 32;

/// A certificate that was found, and the checker's verdict by it.
#[derive(Drop)]
pub struct Found {
    pub certificate: Certificate,
    /// None of one that is accepted by a law, without a check.
    pub verdict: Option<Verdict>,
}

/// A certificate, or what is left of it, as far as the checker accepts it; else that without facts which lists all. It
/// counts the refusals.
///
/// # Errors
/// No memory.
pub fn accepted(
    alloc: Global,
    tree: &Tree,
    certificate: Certificate,
    refusals: &mut u32,
) -> Result<Found, AllocError>
    ensures accepted { IsWellFormed tree.now → IfOk result (λ found. IsAccepted tree.now found.certificate) }
    ensures in_order { IfOk result (λ found.
        are_in_order found.certificate.version (contents found.certificate) ≡ true) }
    ensures verdict { IfOk result (λ found. IfSome found.verdict (IsVerdict tree.now found.certificate)) }
{
    plain_is_accepted();
    let mut left = certificate;
    for _ in 0..TRIES {
        drop_vacant(&mut left);
        match settled(alloc, tree, &left)? {
            Ok(settled) => return Ok(settled),
            Err(spot) => Revision::Weaken(spot).make(&mut left),
        }
        *refusals = refusals.saturating_add(1);
    }
    Ok(Found {
        certificate: widest(alloc, tree)?,
        verdict: None,
    })
}

// A certificate as it is read from its spelling, if it can be and the checker accepts it; else where facts stand that
// aren't given, if that is told.
fn settled(
    alloc: Global,
    tree: &Tree,
    certificate: &Certificate,
) -> Result<Result<Found, Option<Spot>>, AllocError>
    ensures { IfOk result (λ settled. IfOk settled (λ found. IsAccepted tree.now found.certificate
        × (are_in_order found.certificate.version (contents found.certificate) ≡ true)
        × IfSome found.verdict (IsVerdict tree.now found.certificate))) }
{
    let Some(certificate) = reread(alloc, certificate)? else {
        return Ok(Err(None));
    };
    match check(alloc, tree, &certificate) {
        Ok(verdict) => Ok(Ok(Found {
            certificate,
            verdict: Some(verdict),
        })),
        Err(CheckFault::Memory(refused)) => Err(refused.into()),
        Err(CheckFault::Broken { place, .. }) => Ok(Err(spot_at(alloc, tree, place)?)),
        Err(_) => Ok(Err(None)),
    }
}

/// A certificate as it is read from its spelling, if it can be.
///
/// # Errors
/// No memory.
pub(crate) fn reread(
    alloc: Global,
    certificate: &Certificate,
) -> Result<Option<Certificate>, AllocError>
    ensures { IfOk result (λ read. IfSome read (λ certificate.
        are_in_order certificate.version (contents certificate) ≡ true)) }
{
    let text = write(alloc, certificate)?;
    match read(alloc, &text) {
        Ok(certificate) => Ok(Some(certificate)),
        Err(ReadFault::Memory(refused)) => Err(refused.into()),
        Err(_) => Ok(None),
    }
}

// The loop, the routine that is called or the block that ends at a place, if one does.
fn spot_at(alloc: Global, tree: &Tree, place: Place) -> Result<Option<Spot>, AllocError> {
    for (number, block) in tree.blocks.iter().enumerate() {
        if is_same(block.end, place) {
            return Ok(Some(Spot::Exit(number_of(number))));
        }
        for event in &events_of(alloc, &block.body)? {
            let (spot, at) = match event {
                Event::Enter { number, place, .. } => (Spot::Loop(*number), *place),
                Event::Call { call, .. } => (Spot::Entry(call.block), call.name),
                _ => continue,
            };
            if is_same(at, place) {
                return Ok(Some(spot));
            }
        }
    }
    Ok(None)
}

fn is_same(place: Place, other: Place) -> bool {
    place.line == other.line && place.column == other.column
}

/// Lets the facts of the weakest kind go.
pub(crate) fn drop_weakest(facts: &mut Vec<Fact>) {
    if let Some(weakest) = facts.iter().map(strength).min() {
        facts.retain(|fact| strength(fact) > weakest);
    }
}

/// Kinds of facts, by how much rests on them: from 0 to 4.
pub(crate) fn strength(fact: &Fact) -> u8 {
    match fact {
        Fact::Order { .. } => 0,
        Fact::Grows { .. } => 1,
        Fact::Defined {
            spans: Spans::One(_) | Spans::Two(_, _),
            ..
        } => 2,
        Fact::Range { .. } => 3,
        Fact::Defined { .. } => 4,
    }
}
