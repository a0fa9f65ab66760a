use crate::{Analysis, Tally};
use analyser_claims::{events_of, expression_events};
use cert_checker::Valued;
use checker_expressions::Count;
use checker_state::{Known, entire};
use checker_ways::cases::begin_arm;
use typed_tree::tree::{CaseHead, Expr, Stmt, WithHead, WriteParameter, Written};
use typed_tree::{hold_call, holds_call, passed_holds_call, whole_holds_call};

// Statements, of which so many more may stand in one another.
impl<'a> Analysis<'a> {
    /// A statement. One that stands too deep is taken as one that never ends.
    #[cycle(statement)]
    pub(crate) fn statement(&mut self, statement: &Stmt, left: u32, visits: &mut Tally) {
        let Some(left) = left.checked_sub(1) else {
            return self.walk.flow.state.die();
        };
        match statement {
            Stmt::Empty { number } => visits.tick(*number),
            Stmt::Compound { number, statements } => {
                visits.tick(*number);
                self.statements(statements, left, visits)
            }
            Stmt::If {
                number,
                condition,
                consequence,
                alternative,
            } => {
                visits.tick(*number);
                let valued = self.condition(condition, left, visits);
                let mark = self.state().mark();
                self.walk.go_where(condition, &valued, true);
                self.statement(consequence, left, visits);
                let first = self.walk.flow.state.leave(mark);
                self.walk.go_where(condition, &valued, false);
                if let Some(other) = alternative {
                    self.statement(other, left, visits);
                }
                self.walk.flow.state.join_behind(mark, &first);
            }
            Stmt::While { .. } | Stmt::Repeat { .. } => self.turns(statement, &None, left, visits),
            Stmt::For { head, .. } => self.for_loop(statement, head, left, visits),
            Stmt::Case { head, arms } => self.case(head, arms, left, visits),
            Stmt::With { head, body } => {
                self.records(head, left, visits);
                self.statement(body, left, visits);
            }
            _ => self.simple(statement, left, visits),
        }
    }

    /// Statements, one after another.
    #[cycle(statement)]
    pub(crate) fn statements(&mut self, statements: &[Stmt], left: u32, visits: &mut Tally) {
        for statement in statements {
            self.statement(statement, left, visits);
        }
    }

    // A case.
    #[cycle(statement)]
    fn case(&mut self, head: &CaseHead, arms: &[Stmt], left: u32, visits: &mut Tally) {
        visits.tick(head.number);
        let known = self.value(&head.index, left, visits);
        self.walk.test_index(head, arms.len(), known.range());
        let index = entire(self.state().table(), &head.index);
        let mark = self.state().mark();
        self.walk.flow.state.die();
        let mut behind = self.walk.flow.state.leave(mark);
        for number in 0..arms.len() {
            begin_arm(&mut self.walk.flow.state, index, &head.constants, number);
            self.statement(&arms[number], left, visits);
            self.walk.flow.state.join_behind(mark, &behind);
            behind = self.walk.flow.state.leave(mark);
        }
        self.walk.flow.state.go(&behind);
    }

    // The records of a with.
    #[cycle(statement)]
    fn records(&mut self, head: &WithHead, left: u32, visits: &mut Tally) {
        visits.tick(head.number);
        for record in &head.records {
            for index in &record.indexes {
                if holds_call(index) {
                    self.value(index, left, visits);
                }
            }
            self.walk.record_of(record, visits);
        }
    }

    // A statement that holds no others.
    #[cycle(statement)]
    fn simple(&mut self, statement: &Stmt, left: u32, visits: &mut Tally) {
        let alloc = self.state().alloc();
        let comes_back = !statement_holds_call(statement)
            || self.calls_among(events_of(alloc, statement), left, visits);
        self.walk.statement(statement, visits);
        self.die_unless(comes_back);
    }

    /// What is known of the value of an expression.
    #[cycle(statement)]
    pub(crate) fn value(&mut self, expression: &Expr, left: u32, visits: &mut Tally) -> Known {
        let comes_back = self.comes_back(expression, left, visits);
        let known = self.walk.expression(expression, visits);
        self.die_unless(comes_back);
        known
    }

    /// The same of a condition, whose operands may tell something of one another.
    #[cycle(statement)]
    pub(crate) fn condition(&mut self, condition: &Expr, left: u32, visits: &mut Tally) -> Valued {
        let comes_back = self.comes_back(condition, left, visits);
        let valued = self.walk.condition(condition, visits);
        self.die_unless(comes_back);
        valued
    }

    // Whether the calls in an expression come back.
    #[cycle(statement)]
    fn comes_back(&mut self, expression: &Expr, left: u32, visits: &mut Tally) -> bool {
        let alloc = self.state().alloc();
        !holds_call(expression)
            || self.calls_among(expression_events(alloc, expression), left, visits)
    }
}

// Whether a statement that holds no others holds a call.
fn statement_holds_call(statement: &Stmt) -> bool {
    match statement {
        Stmt::Assign(assignment) => hold_call(&assignment.indexes) || holds_call(&assignment.value),
        Stmt::Copy(copying) => {
            hold_call(&copying.indexes) || whole_holds_call(&copying.value, &copying.value_indexes)
        }
        Stmt::Write(writing) => writing.parameters.iter().any(parameter_holds_call),
        Stmt::Read(reading) => reading.variables.iter().any(|one| hold_call(&one.indexes)),
        _ => true,
    }
}

fn parameter_holds_call(parameter: &WriteParameter) -> bool {
    let value = match &parameter.value {
        Written::Ordinal { value, .. } => holds_call(value),
        Written::String { value, indexes } => whole_holds_call(value, indexes),
    };
    let width = parameter.width.as_ref();
    value || width.is_some_and(|width| holds_call(&width.value))
}
