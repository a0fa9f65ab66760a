//! A statement laid out as a list of what happens in it, in the order of evaluation (ISO 7185:1990, 6.7, 6.8).

use crate::Memory;
use place::Place;
use std::alloc::{AllocError, Global};
use typed_tree::{
    Access, Assignment, Call, CaseHead, Copying, Expr, ForHead, Passed, ReadVariable, Stmt, Whole,
    Width, WriteParameter, Written,
};

/// Something that happens, behind what its parts do.
#[derive(Clone, Copy)]
pub enum Event<'t> {
    /// A variable is accessed (6.5.1): it is used, stored to or passed, or a record of a with.
    Access {
        access: &'t Access,
        indexes: &'t [Expr],
    },
    /// An expression that isn't a constant has its value (6.7).
    Evaluate(&'t Expr),
    Assign(&'t Assignment),
    Copy(&'t Copying),
    Read(&'t ReadVariable),
    /// A value has to be written in so many columns (6.9.3.1).
    Widen(&'t Width),
    Call {
        call: Call,
        actuals: &'t [Passed],
    },
    /// An arm is chosen (6.8.3.5).
    Case(&'t CaseHead),
    /// A loop begins: a for behind its bounds, a while or a repeat before its condition.
    Enter {
        number: u32,
        place: Place,
        head: Option<&'t ForHead>,
    },
    /// The last loop that began and hasn't ended ends.
    Leave,
}

/// What happens, as far as memory suffices.
#[derive(Drop)]
struct Events<'t> {
    list: Vec<Event<'t>>,
    memory: Memory,
}

/// What happens in a statement.
///
/// # Errors
/// No memory.
pub fn events_of<'t>(alloc: Global, statement: &'t Stmt) -> Result<Vec<Event<'t>>, AllocError> {
    let mut events = Events::none(alloc);
    events.statement(statement);
    events.finish()
}

/// What happens in an expression.
///
/// # Errors
/// No memory.
pub fn expression_events<'t>(
    alloc: Global,
    expression: &'t Expr,
) -> Result<Vec<Event<'t>>, AllocError> {
    let mut events = Events::none(alloc);
    events.expression(expression);
    events.finish()
}

impl<'t> Events<'t> {
    fn none(alloc: Global) -> Events<'t> {
        Events {
            list: Vec::new(alloc),
            memory: Memory::of(alloc),
        }
    }

    fn finish(self) -> Result<Vec<Event<'t>>, AllocError> {
        self.memory.finish()?;
        Ok(self.list)
    }

    fn push(&mut self, event: Event<'t>) {
        self.memory.push(&mut self.list, event);
    }
}

// Statements.
impl<'t> Events<'t> {
    #[cycle(statement)]
    fn statement(&mut self, statement: &'t Stmt) {
        match statement {
            Stmt::Empty { .. } => {}
            Stmt::Assign(assignment) => {
                self.access(&assignment.target, &assignment.indexes);
                self.expression(&assignment.value);
                self.push(Event::Assign(assignment));
            }
            Stmt::Copy(copying) => {
                self.access(&copying.target, &copying.indexes);
                self.whole(&copying.value, &copying.value_indexes);
                self.push(Event::Copy(copying));
            }
            Stmt::Write(writing) => self.written(&writing.parameters),
            Stmt::Read(reading) => self.read(&reading.variables),
            Stmt::Call(called) => self.call(called.call, &called.actuals),
            Stmt::Compound { statements, .. } => self.statements(statements),
            Stmt::If {
                condition,
                consequence,
                alternative,
                ..
            } => {
                self.expression(condition);
                self.statement(consequence);
                if let Some(alternative) = alternative {
                    self.statement(alternative);
                }
            }
            Stmt::While { head, body } => {
                self.enter(head.loop_number, head.place, None);
                self.expression(&head.condition);
                self.statement(body);
                self.push(Event::Leave);
            }
            Stmt::Repeat { head, statements } => {
                self.enter(head.loop_number, head.place, None);
                self.statements(statements);
                self.expression(&head.condition);
                self.push(Event::Leave);
            }
            Stmt::For { head, body } => {
                self.expression(&head.first.value);
                self.expression(&head.last.value);
                self.enter(head.loop_number, head.place, Some(head));
                self.statement(body);
                self.push(Event::Leave);
            }
            Stmt::Case { head, arms } => {
                self.expression(&head.index);
                self.push(Event::Case(head));
                self.statements(arms);
            }
            Stmt::With { head, body } => {
                for record in &head.records {
                    self.access(&record.access, &record.indexes);
                }
                self.statement(body);
            }
        }
    }

    #[cycle(statement)]
    fn statements(&mut self, statements: &'t [Stmt]) {
        for statement in statements {
            self.statement(statement);
        }
    }

    fn enter(&mut self, number: u32, place: Place, head: Option<&'t ForHead>) {
        self.push(Event::Enter {
            number,
            place,
            head,
        });
    }

    fn written(&mut self, parameters: &'t [WriteParameter]) {
        for parameter in parameters {
            match &parameter.value {
                Written::Ordinal { value, .. } => self.expression(value),
                Written::String { value, indexes } => self.whole(value, indexes),
            }
            if let Some(width) = &parameter.width {
                self.expression(&width.value);
                self.push(Event::Widen(width));
            }
        }
    }

    fn read(&mut self, variables: &'t [ReadVariable]) {
        for variable in variables {
            self.access(&variable.access, &variable.indexes);
            self.push(Event::Read(variable));
        }
    }
}

// Expressions.
impl<'t> Events<'t> {
    #[cycle(expression)]
    fn expression(&mut self, expression: &'t Expr) {
        match expression {
            Expr::Constant { .. } => return,
            Expr::Input { .. } => {}
            Expr::Variable {
                access,
                indexes,
                ..
            } => self.access(access, indexes),
            Expr::Set { members, .. } => self.expressions(members),
            Expr::Monadic { operand, .. } => self.expression(operand),
            Expr::Chain { first, rest } => {
                self.expression(first);
                for link in rest {
                    self.expression(&link.operand);
                }
            }
            Expr::Compare {
                left,
                left_indexes,
                right,
                right_indexes,
                ..
            } => {
                self.whole(left, left_indexes);
                self.whole(right, right_indexes);
            }
            Expr::Call { call, actuals } => self.call(*call, actuals),
        }
        self.push(Event::Evaluate(expression));
    }

    #[cycle(expression)]
    fn expressions(&mut self, expressions: &'t [Expr]) {
        for expression in expressions {
            self.expression(expression);
        }
    }

    #[cycle(expression)]
    fn access(&mut self, access: &'t Access, indexes: &'t [Expr]) {
        self.expressions(indexes);
        self.push(Event::Access { access, indexes });
    }

    #[cycle(expression)]
    fn whole(&mut self, value: &'t Whole, indexes: &'t [Expr]) {
        match value {
            Whole::Text { .. } => {}
            Whole::Variable { access, .. } => self.access(access, indexes),
        }
    }

    #[cycle(expression)]
    fn call(&mut self, call: Call, actuals: &'t [Passed]) {
        for actual in actuals {
            match actual {
                Passed::Value { value, .. } => self.expression(value),
                Passed::Whole { value, indexes, .. } => self.whole(value, indexes),
                Passed::Reference {
                    access,
                    indexes,
                    ..
                } => self.access(access, indexes),
            }
        }
        self.push(Event::Call { call, actuals });
    }
}
