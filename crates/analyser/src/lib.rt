//! The analyser: it finds a certificate of a program by walking over it until nothing new comes to where facts stand.
#![tactic(auto)]

ghost use Rattle.std.specs.Prelude.{◌≡◌, IfOk, IfSome, true};
ghost use Rattle.analyser.specs.Verdicts.{IsVerdict};
ghost use Rattle.certificate.specs.Contents.{are_in_order, contents};
ghost use Rattle.cert_checker.specs.Promise.{IsAccepted};
ghost use Rattle.typed_tree.specs.WellFormed.{IsWellFormed};

pub mod accepting;
mod analysis;
mod calls;
mod implied;
mod loops;
mod outcome;
mod places;
mod rounds;
mod spots;
mod statements;
mod tally;
pub mod trimming;
mod verdicts;

pub use crate::accepting::Found;
use crate::accepting::accepted;
use crate::analysis::Analysis;
use crate::outcome::filled;
use crate::tally::Tally;
use analyser_plan::{Course, Plan, Proposed};
use cert_checker::program::grounds;
use cert_checker::walk::Walk;
use certificate::Certificate;
use checker_loops::all_declared;
use checker_loops::loops::{all_claims, all_loop_aliases};
use checker_rows::Rows;
use checker_trail::State;
use std::alloc::{AllocError, Global};
use typed_tree::Tree;

/// What a search for a certificate found, and what it took.
#[derive(Drop)]
pub struct Search {
    pub found: Found,
    /// How often a statement or an expression was entered on the way.
    pub visits: u64,
    /// How often the checker refused what was found, before more of it was let go.
    pub refusals: u32,
}

/// Finds a certificate of a program that the checker accepts, and by which it closes as many sites as this can. It is
/// in order, so what `certificate::write` writes of it is read again as the same. A verdict that comes with it is the
/// one that the checker makes by it.
///
/// # Errors
/// No memory.
pub fn guess(alloc: Global, tree: &Tree) -> Result<Found, AllocError>
    ensures accepted { IsWellFormed tree.now → IfOk result (λ found. IsAccepted tree.now found.certificate) }
    ensures in_order { IfOk result (λ found.
        are_in_order found.certificate.version (contents found.certificate) ≡ true) }
    ensures verdict { IfOk result (λ found. IfSome found.verdict (IsVerdict tree.now found.certificate)) }
{
    let search = find(alloc, tree)?;
    Ok(search.found)
}

/// The same, which tells what it took.
///
/// # Errors
/// No memory.
pub fn find(alloc: Global, tree: &Tree) -> Result<Search, AllocError>
    ensures accepted { IsWellFormed tree.now → IfOk result (λ search. IsAccepted tree.now search.found.certificate) }
    ensures in_order { IfOk result (λ search.
        are_in_order search.found.certificate.version (contents search.found.certificate) ≡ true) }
    ensures verdict { IfOk result (λ search.
        IfSome search.found.verdict (IsVerdict tree.now search.found.certificate)) }
{
    let rows = Rows::of(alloc, tree)?;
    let Plan {
        frame,
        proposed,
        course,
    } = Plan::of(alloc, &rows)?;
    let mut visits = Tally { entries: 0 };
    let given = given_facts(alloc, &rows, &frame, &course, proposed, &mut visits);
    let mut refusals = 0;
    let found = accepted(alloc, tree, filled(&rows, frame, given?), &mut refusals)?;
    Ok(Search {
        found,
        visits: visits.entries,
        refusals,
    })
}

// The facts of those that are proposed which are given wherever they have to be.
fn given_facts(
    alloc: Global,
    rows: &Rows,
    frame: &Certificate,
    course: &Course,
    proposed: Proposed,
    visits: &mut Tally,
) -> Result<Proposed, AllocError> {
    let tree = rows.tree();
    let grounds = grounds(alloc, tree, frame)?;
    let claims = all_claims(alloc, tree, frame)?;
    let aliases = all_loop_aliases(alloc, tree, &grounds.pairs, &claims)?;
    // The checker takes no program of more variables than have numbers, whatever is found of it.
    let declared = all_declared(alloc, tree)?.unwrap_or(Vec::new(alloc));
    let state = State::of_types(alloc, grounds.version, rows);
    let walk = Walk::new(state, grounds, &claims, &aliases);
    let mut analysis = Analysis::new(alloc, walk, course, &declared, proposed)?;
    analysis.run(visits);
    analysis.take(alloc)
}
