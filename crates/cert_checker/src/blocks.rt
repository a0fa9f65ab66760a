ghost use Rattle.std.specs.Prelude.{◌≡◌, ◌≤◌, ◌^◌, IsSome, MatchOption, length, map};
ghost use Rattle.typed_tree.specs.Entries.{entries_of, entries_of_block};
ghost use Rattle.typed_tree.specs.WellFormed.{IsWellFormed};
ghost use Rattle.checker_state.specs.State.{of_types};
ghost use Rattle.checker_trail.specs.Trail.{Moves};
ghost use Rattle.checker_known.specs.View.{type_rows};
ghost use Rattle.checker_loops.specs.Starts.{all_declared};
ghost use Rattle.checker_expressions.specs.View.{FlowGoes as FlowGoes, state_of};
ghost use Rattle.checker_expressions.specs.Visits.{all_counted};
ghost use Rattle.cert_checker.specs.View.{Begins, WalkGoes, Passes, block_walk_here, exit_here, start_of};
ghost use Rattle.cert_checker.specs.Walk.{block_walk, blocks_walk, result_use};

use crate::walk::Walk;
use checker_expressions::{Count, Flow, Rule};
use checker_loops::{begin_block, block_claims_at, gives_facts};
use checker_state::Bound;
use place::Place;
use std::mem;
use typed_tree::{Block, FunctionResult, Tree};

// Blocks, one after another.
impl<'a> Walk<'a> {
    /// The blocks of a program, of which there are so many, by the variables that each declares.
    pub(crate) fn blocks<C: Count>(
        &mut self,
        tree: &Tree,
        count: u32,
        declared: &[Vec<u32>],
        visits: &mut C,
    )
        requires { count ≡ length tree.now.blocks.items }
        ensures goes { Passes (blocks_walk 0 tree.now.blocks.items) declared.now self.old self.new }
        ensures counts { visits.new ≡ all_counted C.counted (entries_of tree.now) visits.old }
    {
        for number in 0..count {
            let block = &tree.blocks[number as usize];
            self.block(number, block, declared, visits);
        }
    }

    /// A block of a number. The walk is in no block before it and behind it.
    fn block<C: Count>(&mut self, number: u32, block: &Block, declared: &[Vec<u32>], visits: &mut C)
        ensures goes { Passes (block_walk number block.now) declared.now self.old self.new }
        ensures counts { visits.new ≡ all_counted C.counted (entries_of_block block.now) visits.old }
    {
        let before = mem::replace(&mut self.flow.grounds.block, number);
        let mark = self.flow.state.mark();
        self.block_inside(number, block, declared, visits);
        let _end = self.flow.state.leave(mark);
        self.flow.grounds.block = before;
    }

    /// A block from its start to its end, where its exit facts have to be given.
    fn block_inside<C: Count>(
        &mut self,
        number: u32,
        block: &Block,
        declared: &[Vec<u32>],
        visits: &mut C,
    )
        ensures goes { Begins (block_walk_here number block.now) declared.now self.old self.new }
        ensures counts { visits.new ≡ all_counted C.counted (entries_of_block block.now) visits.old }
    {
        begin(&mut self.flow, number, declared);
        self.statement(&block.body, visits);
        self.use_result(block.heading.result);
        ask_exit(&mut self.flow, number, block.end);
    }

    /// Where a function ends, it has a result.
    pub fn use_result(&mut self, function: Option<FunctionResult>)
        ensures { WalkGoes (result_use function) self.old self.new tt }
    {
        if let Some(own) = function {
            let closed = self.flow.state.has_value(Bound::plus(own.root, 0));
            self.flow.open_unless(closed, own.defined);
            let range = self.flow.state.range(own.root);
            self.flow.state.unless_empty(range);
        }
    }
}

/// WalkGoes on where a block of a number begins, by what is claimed of it.
pub fn begin(flow: &mut Flow, number: u32, declared: &[Vec<u32>])
    ensures only { flow.new ≡ record (flow.old) { state = flow.new.state } }
    ensures long { flow.new.state.refused ≡ None → flow.old.state.refused ≡ None }
    ensures begins { map (λ row. row.items) declared.now ≡ all_declared flow.old.state.table.now
        → state_of flow.old ≡ of_types flow.old.grounds.version (type_rows flow.old.state.table.now)
        → Moves (λ _. start_of number flow.old) flow.old.state flow.new.state }
{
    let claims = block_claims_at(&flow.grounds.sections, number);
    begin_block(&mut flow.state, declared, number, claims.start);
}

/// The exit facts of a block of a number have to be given at its end.
fn ask_exit(flow: &mut Flow, number: u32, end: Place)
    ensures { FlowGoes (exit_here number end) flow.old flow.new tt }
{
    let claims = block_claims_at(&flow.grounds.sections, number);
    let given = gives_facts(&flow.state, claims.end);
    flow.ask(given, Rule::Exit, end);
}

/// How many blocks there are, if 32 bits hold their number, as of each well formed tree.
pub(crate) fn block_count(tree: &Tree) -> Option<u32>
    ensures count { MatchOption result (2 ^ 32 ≤ length tree.now.blocks.items)
        (λ count. count ≡ length tree.now.blocks.items) }
    ensures few { IsWellFormed tree.now → IsSome result }
{
    let count = tree.blocks.len();
    if count > u32::MAX as usize {
        return None;
    }
    Some(count as u32)
}
