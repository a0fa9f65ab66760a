//! The checker: which sites of a program may err, told from a certificate in one walk over the typed tree.
#![tactic(auto)]

ghost use Rattle.std.specs.Prelude.{◌≡◌, IfErr, IfOk, length};
ghost use Rattle.typed_tree.specs.Entries.{AreNumbered, entries_of};
ghost use Rattle.typed_tree.specs.Ids.{AreInOrder};
ghost use Rattle.typed_tree.specs.WellFormed.{IsWellFormed};
ghost use Rattle.cert_checker.specs.Promise.{CallsChangeWhatTheyList, ClosedNeverErr, IsRefusedFor, LinksEntries};
ghost use Rattle.cert_checker.specs.Promise.{StatesHold, Valid};

mod assignments;
pub mod blocks;
mod increments;
pub mod laws;
pub mod loops;
mod names;
mod open_sites;
pub mod program;
mod reached;
mod reads;
mod stores;
mod visits;
pub mod walk;

use certificate::Certificate;
use checker_expressions::CheckFault;
use checker_rows::Rows;
pub use increments::Valued;
use names::is_known;
use open_sites::open_sites;
use program::program;
use std::alloc::Global;
use typed_tree::{Site, Tree};

/// What the checker found out of a program.
#[derive(Drop)]
pub struct Verdict {
    /// The sites of the tree that the walk leaves open, in the order of the table: those at which a run may err.
    pub open_sites: Vec<Site>,
    /// How often the walk entered a statement or an expression: as often as the program has one.
    pub visits: u64,
}

/// Checks a program by a certificate.
///
/// Each error of a run of the program is at an open site (ISO 7185:1990, 3.1), for every input and every number of
/// turns. Whenever a run enters a statement or an expression, what the walk knows there holds, and two variables share
/// a place only if they are a listed pair. A call changes what the certificate lists for its block alone.
///
/// # Errors
/// That the certificate names what the program doesn't have, or else the first rule that it breaks, with its place; a
/// certificate without claims names nothing. Or `TooLarge`, or `Memory`.
pub fn check(alloc: Global, tree: &Tree, certificate: &Certificate) -> Result<Verdict, CheckFault>
    ensures valid { IfOk result (λ verdict. Valid tree.now certificate.now verdict.open_sites.items) }
    ensures refused { IfErr result (IsRefusedFor tree.now certificate.now) }

    // One pass: states are linked to the entries of the program, each once, and so many entries were counted.
    ensures entries { LinksEntries tree.now certificate.now }
    ensures visits { IfOk result (λ verdict. verdict.visits ≡ length (entries_of tree.now)) }

    // The runs of a well formed tree.
    ensures closed_never_err { IfOk result (λ verdict. IsWellFormed tree.now → AreInOrder tree.now.sites.items
        → ClosedNeverErr tree.now verdict.open_sites.items) }
    ensures states_hold { IfOk result (λ _. IsWellFormed tree.now → AreNumbered tree.now
        → StatesHold tree.now certificate.now) }
    ensures calls_change { IfOk result (λ _. IsWellFormed tree.now
        → CallsChangeWhatTheyList tree.now certificate.now) }
{
    let rows = Rows::of(alloc, tree)?;
    if !is_known(&rows, certificate) {
        return Err(CheckFault::Foreign);
    }
    let found = program(alloc, &rows, certificate)?;
    Ok(Verdict {
        open_sites: open_sites(alloc, &tree.sites, found.open_ids)?,
        visits: found.visits,
    })
}
