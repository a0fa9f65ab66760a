//! The way into statements.

use crate::{Cause, Seer, Uncounted};
use analyser_claims::events_of;
use checker_loops::Round;
use checker_state::entire;
use checker_trail::Mark;
use checker_ways::cases::begin_arm;
use checker_ways::ways::Way;
use domain::Interval;
use place::Place;
use typed_tree::{CaseHead, Expr, ForHead, LoopHead, Stmt};

impl<'a> Seer<'a> {
    /// Goes into a statement, and then over it.
    #[cycle(statement)]
    pub(crate) fn statement(&mut self, statement: &Stmt) {
        let mark = self.state().mark();
        let rounds = self.walk.flow.grounds.rounds.len();
        self.inside(statement);
        self.walk.flow.grounds.rounds.truncate(rounds);
        self.go_back(mark);
        let told = change(statement);
        if told.is_some() {
            self.keep(None);
        }
        self.walk.statement(statement, &mut Uncounted);
        self.walk.flow.open_ids.clear();
        if told.is_some() {
            self.keep(told);
        }
    }

    #[cycle(statement)]
    fn inside(&mut self, statement: &Stmt) {
        match statement {
            Stmt::Compound { statements, .. } => self.statements(statements),
            Stmt::If {
                condition,
                consequence,
                alternative,
                ..
            } => {
                self.see_expression(condition);
                let mark = self.go_where(condition, true);
                self.statement(consequence);
                self.go_back(mark);
                if let Some(other) = alternative {
                    self.go_where(condition, false);
                    self.statement(other);
                }
            }
            Stmt::While { head, body } => {
                self.enter_loop(head);
                self.see_expression(&head.condition);
                self.go_where(&head.condition, true);
                self.statement(body);
            }
            Stmt::Repeat { head, statements } => {
                self.enter_loop(head);
                self.statements(statements);
                self.see_expression(&head.condition);
            }
            Stmt::For { head, body } => {
                self.begin_turns(head);
                self.statement(body);
            }
            Stmt::Case { head, arms } => self.arms(head, arms),
            Stmt::With { head, body } => {
                for one in &head.records {
                    for index in &one.indexes {
                        self.see_expression(index);
                    }
                    self.see_access(&one.access, &one.indexes);
                    self.walk.record_of(one, &mut Uncounted);
                }
                self.statement(body);
            }
            _ => self.see_all(events_of(self.state().alloc(), statement)),
        }
    }

    #[cycle(statement)]
    fn statements(&mut self, statements: &[Stmt]) {
        for statement in statements {
            self.statement(statement);
        }
    }

    // Goes on where a condition has a truth value. Where the walk was before.
    fn go_where(&mut self, condition: &Expr, truth: bool) -> Mark {
        let mark = self.state().mark();
        let valued = self.walk.condition(condition, &mut Uncounted);
        self.walk.go_where(condition, &valued, truth);
        mark
    }

    fn go_back(&mut self, mark: Mark) {
        let _way = self.walk.flow.state.leave(mark);
    }

    #[cycle(statement)]
    fn arms(&mut self, head: &CaseHead, arms: &[Stmt]) {
        self.see_expression(&head.index);
        self.test(head.site, &head.index, Interval::EMPTY);
        let known = self.walk.expression(&head.index, &mut Uncounted);
        self.walk.test_index(head, arms.len(), known.range());
        let index = entire(self.state().table(), &head.index);
        for number in 0..arms.len() {
            let mark = self.state().mark();
            begin_arm(&mut self.walk.flow.state, index, &head.constants, number);
            self.statement(&arms[number]);
            self.go_back(mark);
        }
    }

    fn enter_loop(&mut self, head: &LoopHead) {
        let round = self.walk.round(head.loop_number, None);
        self.enter(round, head.place);
    }

    // Goes on at the head of a loop.
    fn enter(&mut self, round: Round<'a>, at: Place) {
        self.keep(None);
        round.head(&mut self.walk.flow.state);
        self.keep(Some((Cause::Loop, at)));
        if let Err(error) = self.walk.flow.grounds.rounds.push(round) {
            self.walk.flow.state.run_short(error.into());
        }
    }

    // Goes on where a turn of a for begins.
    fn begin_turns(&mut self, head: &ForHead) {
        for bound in [&head.first, &head.last] {
            self.see_expression(&bound.value);
            self.fit(bound.fits, &bound.value);
        }
        let from = self.walk.expression(&head.first.value, &mut Uncounted);
        let to = self.walk.expression(&head.last.value, &mut Uncounted);
        let way = Way::of(self.state().rules(), self.state().table(), head, from, to);
        way.relate(&mut self.walk.flow.state, true);
        let way = self.walk.tested_way(&way);
        self.walk.begin_way(&way);
        let steady = self.walk.steady_in(head.loop_number, &way);
        let turns = self.walk.turns_in(head.loop_number, &way);
        self.enter(turns.round, head.place);
        steady.begin_turn(&mut self.walk.flow.state);
        turns.begin(&mut self.walk.flow.state);
    }
}

// What may change variables on its way, and where it stands.
fn change(statement: &Stmt) -> Option<(Cause, Place)> {
    match statement {
        Stmt::While { head, .. } | Stmt::Repeat { head, .. } => Some((Cause::Loop, head.place)),
        Stmt::For { head, .. } => Some((Cause::Loop, head.place)),
        Stmt::Call(one) => Some((Cause::Call, one.call.name)),
        _ => None,
    }
}
