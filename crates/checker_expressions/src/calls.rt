//! Calls from their actual parameters on, which enter nothing more (ISO 7185:1990, 6.7.3, 6.8.2.3).
ghost use Rattle.std.specs.Prelude.{◌≡◌, [], map};
ghost use Rattle.std.specs.List.{list_all};
ghost use Rattle.checker_calls.specs.Actuals.{actual_of, bound_to};
ghost use Rattle.checker_calls.specs.Exit.{root_changed};
ghost use Rattle.checker_calls.specs.View.{said_actual, said_bindings, said_found};
ghost use Rattle.checker_expressions.specs.View.{FlowGoes, block_called, call_range, claims_called, context_of};
ghost use Rattle.checker_expressions.specs.View.{found_block};
ghost use Rattle.checker_expressions.specs.Walk.{around_of, call_aliases, call_change, call_entry, call_with};
ghost use Rattle.checker_expressions.specs.Walk.{called, called_block, may_change, parameters_of, result_of};
ghost use Rattle.checker_expressions.specs.Walk.{result_walk};

use crate::{Flow, Rule};
use checker_calls::changes::root_changed;
use checker_calls::exit::{self, result_range};
use checker_calls::overlaps::are_separate;
use checker_calls::{Actual, Bindings, are_given, settle};
use checker_loops::block_claims_at;
use checker_rows::Rows;
use checker_state::Known;
use domain::Interval;
use typed_tree::{Block, Call, FunctionResult};

impl<'a> Flow<'a> {
    /// A call from its actual parameters on, of which one may hold a call.
    pub(crate) fn called(&mut self, call: Call, holds_call: bool, actuals: Vec<Actual>)
        ensures { FlowGoes (called call holds_call (map said_actual actuals.entry.items)) self.old self.new tt }
    {
        let mut actuals = actuals;
        settle(holds_call, &mut actuals);
        let rows = self.state.table();
        self.call_with(call, parameters(rows, call), &actuals);
    }

    /// A call with these formal and actual parameters.
    fn call_with<'b>(&mut self, call: Call, roots: &'b [u32], actuals: &'b [Actual])
        ensures { FlowGoes (λ context. call_with call (claims_called context call)
            (bound_to roots.now (map said_actual actuals.now)) context) self.old self.new tt }
    {
        let bindings = Bindings { roots, actuals };
        self.ask_aliases(call, bindings);
        self.ask_entry(call, bindings);
        self.ask_change(call, bindings);
        let grounds = &self.grounds;
        let claims = block_claims_at(&grounds.sections, call.block);
        exit::call(
            &mut self.state,
            &grounds.pairs,
            grounds.block,
            call.block,
            bindings,
            claims,
        );
    }

    /// What is passed makes listed aliases alone.
    fn ask_aliases(&mut self, call: Call, bindings: Bindings)
        ensures { FlowGoes (call_aliases call (said_bindings bindings.entry)) self.old self.new tt }
    {
        let alloc = *self.open_ids.allocator();
        let around = around(self.state.table(), call);
        match are_separate(
            alloc,
            &self.grounds.pairs,
            self.grounds.block,
            around,
            bindings,
        ) {
            Ok(separate) => self.ask(separate, Rule::Aliases, call.name),
            Err(error) => self.state.run_short(error.into()),
        }
    }

    /// The facts are given that hold where the callee begins.
    fn ask_entry(&mut self, call: Call, bindings: Bindings)
        ensures { FlowGoes (λ context. call_entry call (said_bindings bindings.entry) (claims_called context call)
            context)
            self.old self.new tt }
    {
        let claims = block_claims_at(&self.grounds.sections, call.block);
        let given = are_given(bindings, &self.state, claims.start);
        self.ask(given, Rule::CallEntry, call.name);
    }

    /// The call changes what it may, by the variables that the callee lists.
    fn ask_change(&mut self, call: Call, bindings: Bindings)
        ensures { FlowGoes (λ context. call_change call.name (said_bindings bindings.entry) (claims_called context call)
            context) self.old self.new tt }
    {
        let claims = block_claims_at(&self.grounds.sections, call.block);
        let may = self.may_call(bindings, claims.changes.listed);
        self.ask(may, Rule::Changes, call.name);
    }

    fn may_call(&self, bindings: Bindings, listed: &[u32]) -> bool
        ensures { result ≡ list_all (λ root. list_all (may_change (context_of self.now []))
            (root_changed root (actual_of (said_bindings bindings.entry) root))) listed.now }
    {
        listed
            .iter()
            .all(|root| self.may_change_for(*root, bindings.actual(*root)))
    }

    /// Whether what the caller knows by a root that the callee lists may be changed.
    fn may_change_for(&self, root: u32, actual: Option<&Actual>) -> bool
        ensures { result
            ≡ list_all (may_change (context_of self.now [])) (root_changed root (said_found actual.entry)) }
    {
        match root_changed(root, actual) {
            None => true,
            Some(changed) => self.may_change(changed),
        }
    }

    /// The value of a function that was called: no run goes on from an empty range.
    pub(crate) fn result(&mut self, call: Call) -> Known
        ensures { FlowGoes (λ context. result_walk call (result_of (called_block context call)) context)
            self.old self.new result }
    {
        let range = self.result_range(call);
        self.state.unless_empty(range);
        Known::Ordinal(range)
    }

    /// Where it lies.
    fn result_range(&self, call: Call) -> Interval
        ensures { result ≡ call_range (context_of self.now []) call }
    {
        let rows = self.state.table();
        match result_of(rows, call) {
            None => Interval::INTEGER,
            Some(own) => result_range(
                rows,
                block_claims_at(&self.grounds.sections, call.block),
                own.root,
            ),
        }
    }
}

/// The block that is called, if it is there.
fn block<'b>(rows: &'b Rows, call: Call) -> Option<&'b Block>
    ensures { found_block result ≡ block_called rows.now call }
{
    rows.tree().blocks.get(call.block as usize)
}

/// The root numbers of its formal parameters.
pub(crate) fn parameters<'b>(rows: &'b Rows, call: Call) -> &'b [u32]
    ensures { result.now ≡ parameters_of (block_called rows.now call) }
{
    match block(rows, call) {
        None => &[],
        Some(block) => &block.heading.parameters,
    }
}

/// The numbers of the blocks round it.
fn around<'b>(rows: &'b Rows, call: Call) -> &'b [u32]
    ensures { result.now ≡ around_of (block_called rows.now call) }
{
    match block(rows, call) {
        None => &[],
        Some(block) => &block.heading.around,
    }
}

/// Its result, if it is a function.
fn result_of(rows: &Rows, call: Call) -> Option<FunctionResult>
    ensures { result ≡ result_of (block_called rows.now call) }
{
    match block(rows, call) {
        None => None,
        Some(block) => block.heading.result,
    }
}
