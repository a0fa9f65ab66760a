use crate::spots::Spot;
use crate::{Analysis, Tally};
use checker_expressions::Count;
use checker_loops::{Round, Turns};
use checker_trail::Mark;
use checker_ways::ways::Way;
use std::slice;
use typed_tree::{ForHead, LoopHead, Stmt};

// How often a loop is walked again at once, since a turn moved what is known at its head. One that has others inside
// waits for the next walk over its block: else the innermost would be walked as often as all that stand round it.
const REPEATS: u32 = 16;

// Loops: what is known comes to their heads from outside and from the ends of turns.
impl<'a> Analysis<'a> {
    /// The turns of a loop, which has a way if it is a for, and the way out.
    #[cycle(statement)]
    pub(crate) fn turns(&mut self, one: &Stmt, way: &Option<Way>, left: u32, visits: &mut Tally) {
        self.begun = self.begun.saturating_add(1);
        let begun = self.begun;
        for repeats in 0..=REPEATS {
            let mark = self.state().mark();
            let moved = self.turn(one, way, left, visits);
            if !moved || repeats == REPEATS || self.begun > begun {
                return self.follow(Spot::Entry(self.walk.flow.grounds.block), moved);
            }
            self.go_back(mark);
        }
    }

    // One turn, and the way out. Whether the turn moved what is known at the head.
    #[cycle(statement)]
    fn turn(&mut self, one: &Stmt, way: &Option<Way>, left: u32, visits: &mut Tally) -> bool {
        match (one, way) {
            (Stmt::While { head, body }, _) => {
                self.tested_turn(head, &[], slice::from_ref(body), true, left, visits)
            }
            (Stmt::Repeat { head, statements }, _) => {
                self.tested_turn(head, statements, &[], false, left, visits)
            }
            (Stmt::For { head, body }, Some(way)) => {
                visits.tick(head.number);
                self.enter_loop(head.loop_number, Some(way));
                self.statement(body, left, visits);
                self.end_turn(head.loop_number, way)
            }
            _ => false,
        }
    }

    // Those of a while or a repeat: of statements before the condition and behind it, which is so where turns go on.
    #[cycle(statement)]
    fn tested_turn(
        &mut self,
        head: &LoopHead,
        before: &[Stmt],
        behind: &[Stmt],
        goes_on: bool,
        left: u32,
        visits: &mut Tally,
    ) -> bool {
        visits.tick(head.number);
        self.enter_loop(head.loop_number, None);
        self.statements(before, left, visits);
        let valued = self.condition(&head.condition, left, visits);
        let mark = self.state().mark();
        self.walk.go_where(&head.condition, &valued, goes_on);
        self.statements(behind, left, visits);
        let moved = self.leave_turn(head.loop_number, mark);
        self.walk.go_where(&head.condition, &valued, !goes_on);
        moved
    }

    /// A for.
    #[cycle(statement)]
    pub(crate) fn for_loop(&mut self, one: &Stmt, head: &ForHead, left: u32, visits: &mut Tally) {
        let from = self.value(&head.first.value, left, visits);
        let to = self.value(&head.last.value, left, visits);
        let way = Way::of(self.state().rules(), self.state().table(), head, from, to);
        let mark = self.state().mark();
        let steady = self.begin_turns(head.loop_number, &way);
        self.turns(one, &Some(steady), left, visits);
        self.leave_turns(mark, &way);
    }

    // Goes on where a for has turns. The way of these.
    fn begin_turns(&mut self, number: u32, way: &Way) -> Way {
        self.depth = self.depth.saturating_add(1);
        let walk = &mut self.walk;
        way.relate(&mut walk.flow.state, true);
        let tested = walk.tested_way(way);
        walk.begin_way(&tested);
        let steady = walk.steady_in(number, &tested);
        if let Some(table) = self.places.loops.get_mut(number as usize) {
            table.most = steady.most();
        }
        steady
    }

    // Goes on behind a for, from the ends of its turns and from where it has none.
    fn leave_turns(&mut self, mark: Mark, way: &Way) {
        self.depth = self.depth.saturating_sub(1);
        let state = &mut self.walk.flow.state;
        let turns = state.leave(mark);
        way.relate(state, false);
        state.join_behind(mark, &turns);
        state.undefine(way.control);
    }

    // Goes on behind a for, from the end of a turn. Whether that moved what is known at its head.
    fn end_turn(&mut self, number: u32, way: &Way) -> bool {
        let mark = self.state().mark();
        way.end_turn(&mut self.walk.flow.state);
        let moved = self.leave_turn(number, mark);
        let round = self.walk.round(number, None);
        let state = &mut self.walk.flow.state;
        state.end_turns(self.depth, round.changes.listed);
        way.leave(state);
        moved
    }

    // A turn ends, and the walk goes back to a mark. Whether it moved what is known at the loop's head.
    fn leave_turn(&mut self, number: u32, mark: Mark) -> bool {
        let moved = self.arrive(Spot::Loop(number), None, true);
        self.go_back(mark);
        moved
    }

    // Goes on at the head of a loop, by what is known there so far, and where a turn begins, if it is a for.
    fn enter_loop(&mut self, number: u32, way: Option<&Way>) {
        let _moved = self.arrive(Spot::Loop(number), None, false);
        let round = self.walk.round(number, way.map(|way| way.control));
        let state = &mut self.walk.flow.state;
        if let Some(facts) = self.places.heads.get(number as usize) {
            let round = Round { facts, ..round };
            round.head(state);
            if let Some(way) = way {
                let (depth, most) = (self.depth, way.most());
                way.begin_turn(state);
                Turns { round, depth, most }.begin(state);
            }
        }
    }
}
