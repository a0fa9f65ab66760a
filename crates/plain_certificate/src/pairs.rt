//! The pairs of variables that may be listed of a block (ISO 7185:1990, 6.6.3.3).
ghost use Rattle.std.specs.Prelude.{◌≡◌, ◌++◌, IfOk, OnOk};
ghost use Rattle.plain_certificate.specs.Widest.{HasNumbers, block_pairs, pairs_with};

use crate::roots::{paired_roots, parameters_of};
use certificate::AliasPair;
use checker_calls::is_variable_parameter;
use std::alloc::{AllocError, Global};
use typed_tree::Tree;

/// The pairs of a block, in ascending order.
pub(crate) fn block_pairs(
    alloc: Global,
    tree: &Tree,
    block: u32,
) -> Result<Vec<AliasPair>, AllocError>
    requires { HasNumbers tree.now }
    ensures { IfOk result (λ pairs. pairs.items ≡ block_pairs tree.now block) }
{
    let paired = paired_roots(alloc, tree, block)?;
    let parameters = parameters_of(alloc, tree, block)?;
    let mut pairs = Vec::new(alloc);
    for first in &paired {
        let others = if is_variable_parameter(tree, block, *first) {
            &paired
        } else {
            &parameters
        };
        add_pairs(&mut pairs, *first, others)?;
    }
    Ok(pairs)
}

/// Adds a variable in pairs with those of others that come behind it.
fn add_pairs(pairs: &mut Vec<AliasPair>, first: u32, others: &[u32]) -> Result<(), AllocError>
    ensures { OnOk result (pairs.new.items ≡ pairs.old.items ++ pairs_with first others.now) }
{
    for second in others {
        if first < *second {
            pairs.push(AliasPair {
                first,
                second: *second,
            })?;
        }
    }
    Ok(())
}
