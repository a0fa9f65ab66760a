ghost use Rattle.std.specs.Prelude.{◌≡◌, [], slice_get};
ghost use Rattle.typed_tree.specs.WellFormed.{of_one};
ghost use Rattle.checker_loops.specs.Starts.{is_own};
ghost use Rattle.checker_expressions.specs.View.{context_of};
ghost use Rattle.checker_expressions.specs.Walk.{block_lists, may_change};

use crate::Flow;
use checker_loops::{BlockSection, Pairs, Round, all_list, block_claims_at, is_own};
use domain::Version;

/// What a walk goes by. What is claimed of loops stands beside it: nothing here depends on that.
#[derive(Drop)]
pub struct Grounds<'a> {
    /// The version of the certificate, by whose rules the walk goes.
    pub version: Version,
    /// What the certificate claims of each block, by its number.
    pub sections: Vec<BlockSection<'a>>,
    /// The variables that may share a place, as they are listed.
    pub pairs: Pairs<'a>,
    /// The number of the block.
    pub block: u32,
    /// The loops round the walk, the outermost first.
    pub rounds: Vec<Round<'a>>,
}

impl<'a> Flow<'a> {
    /// Whether a variable may be changed: each loop round the walk lists it, and so does the block, unless it is a
    /// variable of its variable declaration part, or its result.
    pub fn may_change(&self, root: u32) -> bool
        ensures { result ≡ may_change (context_of self.now []) root }
    {
        all_list(&self.grounds.rounds, root) && (self.is_own(root) || self.lists(root))
    }

    /// Whether a variable is one of the block's variable declaration part, or its result.
    fn is_own(&self, root: u32) -> bool
        ensures { result ≡ of_one (is_own self.now.grounds.block)
            (slice_get self.now.state.table.now.variables.items root) }
    {
        match self.state.table().tree().variables.get(root as usize) {
            None => false,
            Some(variable) => is_own(self.grounds.block, *variable),
        }
    }

    /// Whether the block lists a variable among those that it changes.
    fn lists(&self, root: u32) -> bool
        ensures { result ≡ block_lists (context_of self.now []) root }
    {
        let claims = block_claims_at(&self.grounds.sections, self.grounds.block);
        claims.changes.has(root)
    }
}
