//! The widest certificate of a program: it has no facts, and lists each pair and each change that it may.
#![tactic(auto)]

ghost use Rattle.std.specs.Prelude.{◌≡◌, IfOk, true};
ghost use Rattle.certificate.specs.Contents.{are_in_order, contents};
ghost use Rattle.checker_calls.specs.Names.{is_known};
ghost use Rattle.checker_calls.specs.Plain.{HasNoFacts, ListsAll};
ghost use Rattle.plain_certificate.specs.Widest.{HasNumbers};
ghost use Rattle.typed_tree.specs.WellFormed.{IsWellFormed};

mod loops;
mod pairs;
mod roots;
mod sections;

use certificate::Certificate;
use domain::Version;
use roots::has_numbers;
use sections::sections;
use std::alloc::{AllocError, Global};
use typed_tree::Tree;

/// The widest certificate of a program, which the checker accepts (see `cert_checker::laws::plain_is_accepted`).
/// Sections, and in each of them pairs, changes and loops, are in ascending order; what lists nothing is left out. So
/// what is written of it is read again.
///
/// A program with more than 1,000,000 variables, loops or blocks, for which a certificate has no numbers, gets one that
/// lists nothing.
///
/// # Errors
/// No memory.
pub fn widest(alloc: Global, tree: &Tree) -> Result<Certificate, AllocError>
    ensures lists { IfOk result (λ certificate. (is_known tree.now certificate ≡ true)
        × HasNoFacts certificate × (HasNumbers tree.now → ListsAll tree.now certificate)) }
    // A well formed program has no more than there are numbers.
    ensures well_formed { IsWellFormed tree.now → IfOk result (λ certificate. (is_known tree.now certificate ≡ true)
        × HasNoFacts certificate × ListsAll tree.now certificate) }
    ensures in_order { IfOk result (λ certificate. are_in_order certificate.version (contents certificate) ≡ true) }
{
    if !has_numbers(tree) {
        return Ok(Certificate {
            version: Version::Three,
            sections: Vec::new(alloc),
        });
    }
    Ok(Certificate {
        version: Version::Three,
        sections: sections(alloc, tree)?,
    })
}
