//! Calls: what is known comes to where the called block begins, which is walked at once where it is due.

use crate::spots::Spot;
use crate::{Analysis, Tally};
use analyser_claims::Event;
use cert_checker::blocks::begin;
use checker_calls::{Bindings, settle};
use checker_trail::{Mark, State};
use std::alloc::AllocError;
use std::mem;
use typed_tree::{Call, FunctionResult, Passed, actuals_hold_call};

/// How many statements may stand in one another where a walk begins from a call: more than a block's may, of which at
/// most 128 do.
pub(crate) const WALK: u32 = 400;

/// Where the walk was before it came to a block from a call.
#[derive(Drop)]
struct Caller<'a> {
    /// What is known there.
    state: State<'a>,
    /// The block there.
    block: u32,
    /// Where the walk over the called block began.
    mark: Mark,
}

impl<'a> Analysis<'a> {
    /// Goes through the calls among events, if there was memory for these, and gives whether all of them come back, as
    /// far as is known. What is known where the walk is stays as it was.
    #[cycle(statement)]
    pub(crate) fn calls_among(
        &mut self,
        events: Result<Vec<Event>, AllocError>,
        left: u32,
        visits: &mut Tally,
    ) -> bool {
        let mark = self.state().mark();
        match events {
            Ok(events) => self.calls(&events, left, visits),
            Err(error) => self.walk.flow.state.run_short(error.into()),
        }
        let come_back = !self.state().is_dead();
        self.go_back(mark);
        come_back
    }

    #[cycle(statement)]
    fn calls(&mut self, events: &[Event], left: u32, visits: &mut Tally) {
        for event in events {
            if let Event::Call { call, actuals } = event {
                self.enter(*call, actuals, left, visits);
                self.leave_call(*call, actuals, visits);
            }
        }
    }

    // What is known comes to where a called block begins.
    #[cycle(statement)]
    fn enter(&mut self, call: Call, actuals: &[Passed], left: u32, visits: &mut Tally) {
        let is_due = self.come_to(call, actuals, visits);
        match left.checked_sub(WALK) {
            Some(left) if is_due => self.visit(call.block, left, visits),
            _ => {}
        }
    }

    // The same, without a walk there. Whether the block has to be walked.
    fn come_to(&mut self, call: Call, actuals: &[Passed], visits: &mut Tally) -> bool {
        let mut passed = self.walk.flow.actuals(actuals, visits);
        settle(actuals_hold_call(actuals), &mut passed);
        let roots = self.parameters(call);
        let bindings = Bindings {
            roots,
            actuals: &passed,
        };
        let spot = Spot::Entry(call.block);
        let has_moved = self.arrive(spot, Some(bindings), true);
        self.follow(spot, has_moved);
        self.is_due(call.block as usize)
    }

    // Goes on behind a call. No run comes behind that of a block whose end isn't reached yet.
    fn leave_call(&mut self, call: Call, actuals: &[Passed], visits: &mut Tally) {
        self.walk.flow.call(call, actuals, visits);
        if let Some(table) = self.places.exits.get(call.block as usize) {
            let is_reached = table.is_reached;
            self.die_unless(is_reached);
        }
    }

    /// Walks over a block, from what is known where it begins.
    #[cycle(statement)]
    pub(crate) fn visit(&mut self, number: u32, left: u32, visits: &mut Tally) {
        let Some(block) = self.block(number) else {
            return;
        };
        let caller = self.begin_visit(number);
        self.statement(&block.body, left, visits);
        self.end_visit(number, block.heading.result, caller);
    }

    // Goes on where a block begins. Where the walk was before.
    fn begin_visit(&mut self, number: u32) -> Caller<'a> {
        let spare = self.spare_state();
        self.set_walked(number as usize, true);
        let flow = &mut self.walk.flow;
        let state = mem::replace(&mut flow.state, spare);
        let block = mem::replace(&mut flow.grounds.block, number);
        let mark = flow.state.mark();
        begin(flow, number, self.declared);
        Caller { state, block, mark }
    }

    // What is known comes to the end of a block, and the walk goes on where it was before.
    fn end_visit(&mut self, number: u32, function: Option<FunctionResult>, caller: Caller<'a>) {
        self.walk.use_result(function);
        let spot = Spot::Exit(number);
        let counts = matches!(self.course.is_recursive.get(number as usize), Some(true));
        let has_moved = self.arrive(spot, None, counts);
        self.follow(spot, has_moved);
        self.go_back(caller.mark);
        self.set_walked(number as usize, false);
        let flow = &mut self.walk.flow;
        flow.grounds.block = caller.block;
        let spare = mem::replace(&mut flow.state, caller.state);
        self.give_back(spare);
    }

    // Whether a block has to be walked and isn't being walked.
    fn is_due(&self, number: usize) -> bool {
        matches!(self.due.get(number), Some(true)) && matches!(self.walked.get(number), Some(false))
    }

    // A block is being walked from here on, and isn't due any longer; or the walk over it ended.
    fn set_walked(&mut self, number: usize, is_walked: bool) {
        if let Some(walked) = self.walked.get_mut(number) {
            *walked = is_walked;
        }
        if let Some(due) = self.due.get_mut(number) {
            *due = *due && !is_walked;
        }
    }

    // The root numbers of the formal parameters of a routine that is called.
    fn parameters(&self, call: Call) -> &'a [u32] {
        match self.block(call.block) {
            None => &[],
            Some(block) => &block.heading.parameters,
        }
    }

    // A state in which nothing is known but by types.
    fn spare_state(&mut self) -> State<'a> {
        let spare = self.spare.pop();
        let state = self.state();
        spare.unwrap_or_else(|| State::of_types(state.alloc(), state.rules(), state.table()))
    }

    // A state that was walked in. What it lacks of memory, all lack.
    fn give_back(&mut self, state: State<'a>) {
        self.walk.flow.open_ids.clear();
        if let Some(refused) = state.refusal() {
            return self.walk.flow.state.run_short(refused);
        }
        if let Err(error) = self.spare.push(state) {
            self.walk.flow.state.run_short(error.into());
        }
    }
}
