//! What is reached of a variable where a value is stored to what was accessed (ISO 7185:1990, 6.8.2.2).
ghost use Rattle.std.specs.Prelude.{◌≡◌};
ghost use Rattle.checker_state.specs.View.{said_indexes, said_reach};
ghost use Rattle.checker_expressions.specs.Walk.{index_pieces};
ghost use Rattle.cert_checker.specs.View.{context_of};
ghost use Rattle.cert_checker.specs.Walk.{ends_at_index, is_some_index, reach_of_store, reach_stored};

use crate::walk::Walk;
use checker_state::{Indexes, Reach};
use domain::Extension;
use typed_tree::{Expr, Selector};

impl<'a> Walk<'a> {
    /// What is reached where these selectors are stored to, and expressions were evaluated behind them.
    pub(crate) fn reach_stored(&self, selectors: &[Selector], later: &[Expr], reach: Reach) -> Reach
        ensures { said_reach result
            ≡ reach_stored (context_of self.now) selectors.now (index_pieces later.now) (said_reach reach) }
    {
        let reach = self.flow.reach_before(later, reach);
        if self.flow.grounds.version.has(Extension::Boxes) {
            reach
        } else {
            reach_of_store(selectors, reach)
        }
    }
}

/// A component of an element isn't all that there is of an index.
fn reach_of_store(selectors: &[Selector], reach: Reach) -> Reach
    ensures { said_reach result ≡ reach_of_store selectors.now (said_reach reach) }
{
    if is_some_index(reach.indexes) && !ends_at_index(selectors) {
        Reach {
            indexes: reach.indexes,
            is_all: false,
        }
    } else {
        reach
    }
}

fn is_some_index(indexes: Indexes) -> bool
    ensures { result ≡ is_some_index (said_indexes indexes) }
{
    match indexes {
        Indexes::Entire => false,
        Indexes::One(_) | Indexes::Two(_, _) => true,
    }
}

/// Whether an index comes last.
fn ends_at_index(selectors: &[Selector]) -> bool
    ensures { result ≡ ends_at_index selectors.now }
{
    match selectors.last() {
        Some(Selector::Element { .. }) => true,
        _ => false,
    }
}
