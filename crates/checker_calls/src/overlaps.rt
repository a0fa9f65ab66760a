ghost use Rattle.std.specs.Prelude.{◌≡◌, ◌∷◌, ℕ, List, IfOk, slice_get};
ghost use Rattle.std.specs.List.{list_all};
ghost use Rattle.std.specs.Option.{unwrap_or};
ghost use Rattle.typed_tree.specs.declared.tree.PathStep.{PathStep};
ghost use Rattle.typed_tree.specs.Accesses.{origin_of};
ghost use Rattle.checker_loops.specs.Pairs.{aliases_in};
ghost use Rattle.checker_calls.specs.Overlaps.{are_parted, are_separate, is_actual_listed, is_actual_separate};
ghost use Rattle.checker_calls.specs.Overlaps.{is_declared_in, is_listed_round, is_listed_with, may_overlap};
ghost use Rattle.checker_calls.specs.View.{said_actual, said_bindings, said_way};

use crate::{AccessWay, Actual, Bindings};
use checker_loops::Pairs;
use std::alloc::{AllocError, Global};
use typed_tree::{Access, PathStep, Tree};

/// Whether what is passed in one block to another, round which there are some, makes listed aliases alone
/// (ISO 7185:1990, 6.6.3.3).
pub fn are_separate(
    alloc: Global,
    pairs: &Pairs,
    caller: u32,
    around: &[u32],
    bindings: Bindings,
) -> Result<bool, AllocError>
    ensures { IfOk result
        (λ are. are ≡ are_separate pairs.now caller around.now (said_bindings bindings.entry)) }
{
    let roots = bindings.roots;
    let actuals = bindings.actuals;
    for i in 0..roots.len().min(actuals.len()) {
        let others = Bindings {
            roots: &roots[i + 1..],
            actuals: &actuals[i + 1..],
        };
        if !is_separate(alloc, pairs, caller, around, others, roots[i], &actuals[i])? {
            return Ok(false);
        }
    }
    Ok(true)
}

// Whether this holds of what is passed to a formal parameter, behind which there are others.
#[tactic(auto, using(crate::proofs::Origins::root_is))]
fn is_separate(
    alloc: Global,
    pairs: &Pairs,
    caller: u32,
    around: &[u32],
    others: Bindings,
    formal: u32,
    actual: &Actual,
) -> Result<bool, AllocError>
    ensures { IfOk result (λ is. is
        ≡ is_actual_separate pairs.now caller around.now (said_bindings others.entry) formal (said_actual actual.now)) }
{
    match actual {
        Actual::Value { .. } => Ok(true),
        Actual::Rows(_) => Ok(true),
        Actual::Variable { access, .. } => {
            Ok(
                are_listed_round(alloc, pairs, caller, around, formal, access.root)?
                    && are_listed_with(pairs, formal, access, others),
            )
        }
    }
}

// Whether a variable parameter is a listed pair with a variable and with each alias of it in the calling block that is
// declared round the called one.
fn are_listed_round(
    alloc: Global,
    pairs: &Pairs,
    caller: u32,
    around: &[u32],
    formal: u32,
    root: u32,
) -> Result<bool, AllocError>
    ensures { IfOk result (λ are. are
        ≡ list_all (is_listed_round pairs.now.pairs pairs.now.tree around.now formal)
        (root ∷ aliases_in pairs.now caller root)) }
{
    let aliases = pairs.aliases_in(alloc, caller, root)?;
    Ok(is_listed_round(pairs, around, formal, root) && are_listed(pairs, around, formal, &aliases))
}

// The same of some variables.
fn are_listed(pairs: &Pairs, around: &[u32], formal: u32, roots: &[u32]) -> bool
    ensures { result ≡ list_all (is_listed_round pairs.now.pairs pairs.now.tree around.now formal) roots.now }
{
    roots
        .iter()
        .all(|root| is_listed_round(pairs, around, formal, *root))
}

fn is_listed_round(pairs: &Pairs, around: &[u32], formal: u32, root: u32) -> bool
    ensures { result ≡ is_listed_round pairs.now.pairs pairs.now.tree around.now formal root }
{
    !is_declared_in(pairs.tree(), around, root) || pairs.has(formal, root)
}

/// Whether a variable is declared in one of some blocks.
pub fn is_declared_in(tree: &Tree, blocks: &[u32], root: u32) -> bool
    ensures { (pairs : List (ℕ × ℕ))
        → result ≡ is_declared_in pairs blocks.now (slice_get tree.now.variables.items root) }
{
    match tree.variables.get(root as usize) {
        None => false,
        Some(variable) => blocks.contains(&variable.block),
    }
}

// Whether a variable parameter is a listed pair with each of some others whose variable may share a place with its
// own.
fn are_listed_with(pairs: &Pairs, formal: u32, access: &Access, others: Bindings) -> bool
    ensures { result
        ≡ list_all (is_listed_with pairs.now.pairs formal (origin_of access.now) access.now.selectors.items)
        (said_bindings others.entry) }
{
    let roots = others.roots;
    let actuals = others.actuals;
    for i in 0..roots.len().min(actuals.len()) {
        if !is_listed_with(pairs, formal, access, roots[i], &actuals[i]) {
            return false;
        }
    }
    true
}

fn is_listed_with(pairs: &Pairs, formal: u32, access: &Access, other: u32, actual: &Actual) -> bool
    ensures { result ≡ is_actual_listed pairs.now.pairs formal (origin_of access.now) access.now.selectors.items other
        (said_actual actual.now) }
{
    match actual {
        Actual::Value { .. } => true,
        Actual::Rows(_) => true,
        Actual::Variable {
            access: other_access,
            ..
        } => !may_overlap(pairs, access, other_access) || pairs.has(formal, other),
    }
}

/// Whether two variables that are accessed may share a place.
#[tactic(auto, using(crate::proofs::Origins::root_is))]
pub fn may_overlap(pairs: &Pairs, one: &Access, other: &Access) -> bool
    ensures { result ≡ may_overlap pairs.now.pairs (origin_of one.now) one.now.selectors.items (origin_of other.now)
        other.now.selectors.items }
{
    one.root == other.root && !are_parted(AccessWay::of(one), AccessWay::of(other))
        || pairs.has(one.root, other.root)
}

// Whether ways from one variable lead to different fields of a record.
fn are_parted(mut one: AccessWay, mut other: AccessWay) -> bool
    ensures { result ≡ are_parted (said_way one.entry) (said_way other.entry) }
{
    while let Some((step, way)) = one.split_first() {
        let Some((other_step, other_way)) = other.split_first() else {
            return false;
        };
        if let Some(parted) = parted_by(step, other_step) {
            return parted;
        }
        one = way;
        other = other_way;
    }
    false
}

// Whether they do by two steps, if these tell it.
fn parted_by(one: PathStep, other: PathStep) -> Option<bool>
    ensures { (more others : List PathStep)
        → are_parted (one ∷ more) (other ∷ others) ≡ unwrap_or result (are_parted more others) }
{
    match (one, other) {
        (PathStep::Element, PathStep::Element) => None,
        (PathStep::Field(position), PathStep::Field(other)) => {
            if position == other { None } else { Some(true) }
        }
        _ => Some(false),
    }
}
