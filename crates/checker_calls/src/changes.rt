ghost use Rattle.std.specs.Prelude.{◌≡◌, ◌++◌, [], IfOk, flat_map, map};
ghost use Rattle.std.specs.List.{cons_option};
ghost use Rattle.checker_rows.specs.View.{numbers};
ghost use Rattle.checker_state.specs.Stores.{entire};
ghost use Rattle.checker_state.specs.View.{said_reach};
ghost use Rattle.checker_calls.specs.Actuals.{Reached, actual_of};
ghost use Rattle.checker_calls.specs.Exit.{changes_of, root_changed, roots_changed, rows_changed};
ghost use Rattle.checker_calls.specs.View.{said_bindings, said_found};
ghost use Rattle.checker_calls.specs.ExitView.{said_change};

use crate::{Actual, Bindings, ExitClaims};
use checker_rows::Span;
use checker_state::{Indexes, Reach};
use domain::Interval;
use std::alloc::{AllocError, Global};
use types::TypeId;

/// A leaf of a variable that a callee may change.
#[derive(Clone, Copy)]
pub(crate) struct Change {
    /// What bears it for the caller: what is reached in a row.
    pub(crate) row: usize,
    pub(crate) reach: Reach,
    /// Its type, if that is there.
    pub(crate) type_id: Option<TypeId>,
    /// Where its values lie where the callee ends.
    pub(crate) range: Interval,
}

/// The variable that the caller knows by a root of the callee's; what is passed as a value is not the caller's.
#[tactic(auto, using(crate::proofs::Origins::root_is))]
pub fn root_changed(root: u32, actual: Option<&Actual>) -> Option<u32>
    ensures { cons_option result [] ≡ root_changed root (said_found actual.entry) }
{
    match actual {
        None => Some(root),
        Some(Actual::Variable { access, .. }) => Some(access.root),
        Some(Actual::Value { .. } | Actual::Rows(_)) => None,
    }
}

/// The variables of the caller that a call may change, by those that the callee lists.
pub(crate) fn roots_changed(
    alloc: Global,
    bindings: Bindings,
    listed: &[u32],
) -> Result<Vec<u32>, AllocError>
    ensures { IfOk result (λ roots. roots.items ≡ roots_changed (said_bindings bindings.entry) listed.now) }
{
    let mut roots = Vec::new(alloc);
    for root in listed {
        if let Some(changed) = root_changed(*root, bindings.actual(*root)) {
            roots.push(changed)?;
        }
    }
    Ok(roots)
}

/// The leaves of the variables that the callee lists, by what is claimed of its end.
pub(crate) fn all_changes(
    alloc: Global,
    claims: &ExitClaims,
    bindings: Bindings,
    listed: &[u32],
) -> Result<Vec<Change>, AllocError>
    ensures { IfOk result (λ found. map said_change found.items ≡ flat_map (λ root. changes_of claims.now.tree
        claims.now.facts root (actual_of (said_bindings bindings.entry) root)) listed.now) }
{
    let mut found = Vec::new(alloc);
    for root in listed {
        add_changes(&mut found, claims, *root, bindings.actual(*root))?;
    }
    Ok(found)
}

// Adds the leaves of a variable that the callee lists, which perhaps is a formal parameter.
fn add_changes(
    found: &mut Vec<Change>,
    claims: &ExitClaims,
    root: u32,
    actual: Option<&Actual>,
) -> Result<(), AllocError>
    ensures { IfOk result (λ _. map said_change found.new.items ≡ map said_change found.old.items
        ++ changes_of claims.now.tree claims.now.facts root (said_found actual.entry)) }
{
    let rows = claims.rows();
    let own = rows.of_variable(root);
    match actual {
        None => add_leaves(found, claims, own, own, &entire()),
        Some(Actual::Value { .. } | Actual::Rows(_)) => Ok(()),
        Some(Actual::Variable { access, reach }) => {
            add_leaves(found, claims, own, rows.accessed(access), reach)
        }
    }
}

// Adds the leaves of a variable of the callee, which what is reached in rows bears.
fn add_leaves(
    found: &mut Vec<Change>,
    claims: &ExitClaims,
    own: Span,
    borne: Span,
    reach: &Reach,
) -> Result<(), AllocError>
    ensures { IfOk result (λ _. map said_change found.new.items ≡ map said_change found.old.items
        ++ rows_changed claims.now.tree claims.now.facts (numbers own)
        (map (λ row. Reached row (said_reach reach.now)) (numbers borne))) }
{
    for place in 0..own.count.min(borne.count) {
        let leaf = own.first + place;
        found.push(Change {
            row: borne.first + place,
            reach: *reach,
            type_id: claims.rows().type_id(leaf),
            range: claims.range(leaf),
        })?;
    }
    Ok(())
}

// All of each row.
fn entire() -> Reach
    ensures { said_reach result ≡ entire }
{
    Reach {
        indexes: Indexes::Entire,
        is_all: true,
    }
}
