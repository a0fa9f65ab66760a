ghost use Rattle.std.specs.Prelude.{◌+◌, ℕ};
ghost use Rattle.interpreter_state.specs.declared.work.Rounds.TheVariants.{Between, Behind};
ghost use Rattle.interpreter.specs.Pending.{RunDoes, assigning, assigning_row, counting_on, forgetting, line_ending};
ghost use Rattle.interpreter.specs.Pending.{performing, repeating, resumed, turning_inside, whiling, writing};
ghost use Rattle.interpreter.specs.Pending.{writing_one, writing_row};
ghost use Rattle.interpreter.specs.Size.{Adds, Lightens, size_of_assignment, size_of_copying, size_of_expression};
ghost use Rattle.interpreter.specs.Size.{size_of_parameter, size_of_procedure, size_of_whole, size_of_width};

use crate::interpreter::{Progress, Run};
use interpreter_state::arms::arm_at;
use interpreter_state::ordinals::{
    positive_width, tested_bounds, truth_of, value_toward, width_by_default,
};
use interpreter_state::rows::length_of;
use interpreter_state::text::{write_ordinal, write_row, write_row_in};
use interpreter_state::{Caller, Rounds, Work, put};
use meaning::{Ending, Ordinal, Value};
use std::mem;
use typed_tree::{
    Assignment, CaseHead, Copying, Expr, ForHead, LoopHead, ProcedureCall, Representation, Stmt,
    Whole, Width, WithRecord, WriteParameter, Written,
};

// The steps of statements.
impl<'t> Run<'t, '_> {
    pub(crate) fn statements(&mut self, statements: &'t [Stmt]) -> Progress
        ensures fewer { Lightens (Work.Statements statements.entry) self.old result self.new }
        ensures does { RunDoes (λ env. resumed env (Work.Statements statements.entry)) self.old result self.new }
    {
        match statements.split_first() {
            Some((first, rest)) => self.plan(Work::Statement(first), Work::Statements(rest)),
            None => Ok(None),
        }
    }

    pub(crate) fn statement(&mut self, statement: &'t Stmt) -> Progress
        ensures fewer { Lightens (Work.Statement statement.entry) self.old result self.new }
        ensures does { RunDoes (λ env. resumed env (Work.Statement statement.entry)) self.old result self.new }
    {
        match statement {
            Stmt::Empty { .. } => Ok(None),
            Stmt::Assign(assignment) => self.assignment(assignment),
            Stmt::Copy(copying) => self.copying(copying),
            Stmt::Write(writing) => self.parameters(&writing.parameters, writing.ends_line),
            Stmt::Read(reading) => self.variables(&reading.variables, reading.line),
            Stmt::Call(procedure) => self.procedure(procedure),
            Stmt::Compound { statements, .. } => self.statements(statements),
            Stmt::If {
                condition,
                consequence,
                alternative,
                ..
            } => self.plan(
                Work::Value(condition),
                Work::Choose {
                    consequence,
                    alternative,
                },
            ),
            Stmt::While { head, body } => self.while_round(head, body),
            Stmt::Repeat { head, statements } => self.repeat_round(head, statements),
            Stmt::For { head, body } => self.plan_values(
                &head.first.value,
                &head.last.value,
                Work::For {
                    head,
                    rounds: Rounds::Between,
                    body,
                },
            ),
            Stmt::Case { head, arms } => {
                self.plan(Work::Value(&head.index), Work::Case { head, arms })
            }
            Stmt::With { head, body } => self.with(&head.records, body),
        }
    }

    // The place of the target and the value, which is stored there.
    fn assignment(&mut self, assignment: &'t Assignment) -> Progress
        ensures size { Adds (size_of_assignment assignment.now) self.old result self.new }
        ensures does { RunDoes (λ env. assigning env assignment.now) self.old result self.new }
    {
        put(&mut self.pending, Work::Store(assignment.fits))?;
        self.access(
            &assignment.target,
            &assignment.indexes,
            Work::Value(&assignment.value),
        )
    }

    // The place of the target and the row of the value, which is stored there.
    fn copying(&mut self, copying: &'t Copying) -> Progress
        ensures size { Adds (size_of_copying copying.now) self.old result self.new }
        ensures does { RunDoes (λ env. assigning_row env copying.now) self.old result self.new }
    {
        put(&mut self.pending, Work::StoreRow(copying.type_id))?;
        self.access(
            &copying.target,
            &copying.indexes,
            Work::Whole {
                value: &copying.value,
                indexes: &copying.value_indexes,
            },
        )
    }

    // A call whose value is dropped.
    fn procedure(&mut self, procedure: &'t ProcedureCall) -> Progress
        ensures size { Adds (size_of_procedure procedure.now) self.old result self.new }
        ensures does { RunDoes (λ env. performing env procedure.now) self.old result self.new }
    {
        put(&mut self.pending, Work::Discard)?;
        self.call(&procedure.call, &procedure.actuals)
    }

    pub(crate) fn choose(
        &mut self,
        consequence: &'t Box<Stmt>,
        alternative: &'t Option<Box<Stmt>>,
    ) -> Progress
        ensures fewer { Lightens (Work.Choose consequence.entry alternative.entry) self.old result self.new }
        ensures does { RunDoes (λ env. resumed env (Work.Choose consequence.entry alternative.entry))
            self.old result self.new }
    {
        if truth_of(self.popped()) {
            self.do_next(Work::Statement(consequence))
        } else if let Some(statement) = alternative {
            self.do_next(Work::Statement(statement))
        } else {
            Ok(None)
        }
    }

    // The rounds of a while.
    fn while_round(&mut self, head: &'t LoopHead, body: &'t Stmt) -> Progress
        ensures size { Adds (2 + size_of_expression head.now.condition) self.old result self.new }
        ensures does { RunDoes (λ env. whiling env head.now body.now) self.old result self.new }
    {
        self.plan(Work::Value(&head.condition), Work::WhileTurn { head, body })
    }

    pub(crate) fn while_turn(&mut self, head: &'t LoopHead, body: &'t Stmt) -> Progress
        ensures fewer { Lightens (Work.WhileTurn head.entry body.entry) self.old result self.new }
        ensures does { RunDoes (λ env. resumed env (Work.WhileTurn head.entry body.entry)) self.old result self.new }
    {
        if truth_of(self.popped()) {
            self.tested_turn(
                Work::Statement(body),
                &head.condition,
                Work::WhileTurn { head, body },
            )
        } else {
            Ok(None)
        }
    }

    // The rounds of a repeat.
    fn repeat_round(&mut self, head: &'t LoopHead, statements: &'t Vec<Stmt>) -> Progress
        ensures size { Adds 0 self.old result self.new }
        ensures does { RunDoes (λ env. repeating env head.now statements.now.items) self.old result self.new }
    {
        self.tested_turn(
            Work::Statements(statements),
            &head.condition,
            Work::Unless { head, statements },
        )
    }

    pub(crate) fn unless(&mut self, head: &'t LoopHead, statements: &'t Vec<Stmt>) -> Progress
        ensures fewer { Lightens (Work.Unless head.entry statements.entry) self.old result self.new }
        ensures does { RunDoes (λ env. resumed env (Work.Unless head.entry statements.entry)) self.old result self.new }
    {
        if truth_of(self.popped()) {
            Ok(None)
        } else {
            self.repeat_round(head, statements)
        }
    }

    pub(crate) fn rounds(&mut self, head: &'t ForHead, rounds: Rounds, body: &'t Stmt) -> Progress
        ensures fewer { Lightens (Work.For head.entry rounds body.entry) self.old result self.new }
        ensures does { RunDoes (λ env. resumed env (Work.For head.entry rounds body.entry)) self.old result self.new }
    {
        match rounds {
            Rounds::Between => self.bounds(head, body),
            Rounds::Behind { first, value, last } => {
                self.next_round(head, first, value, last, body)
            }
        }
    }

    // The rounds of a for between its bounds.
    fn bounds(&mut self, head: &'t ForHead, body: &'t Stmt) -> Progress
        ensures fewer { Lightens (Work.For head.entry Between body.entry) self.old result self.new }
        ensures does { RunDoes (λ env. resumed env (Work.For head.entry Between body.entry)) self.old result self.new }
    {
        let last = self.popped_number();
        let first = self.popped_number();
        match tested_bounds(head, first, last) {
            Ok(Some((value, last))) => self.for_round(head, value, value, last, body),
            Ok(None) => self.forget(head.control),
            Err(site) => Ok(Some(Ending::Error(site))),
        }
    }

    // The rounds of a for with this first value, from a value of its control variable on.
    fn for_round(
        &mut self,
        head: &'t ForHead,
        first: i32,
        value: i32,
        last: i32,
        body: &'t Stmt,
    ) -> Progress
        ensures size { Adds 0 self.old result self.new }
        ensures does { RunDoes (λ env. counting_on env head.now first value last body.now) self.old result self.new }
    {
        let place = self.place(head.control)?;
        self.keep(place, Value::Number(Ordinal::new(value)))?;
        self.for_turn(
            body,
            Work::For {
                head,
                rounds: Rounds::Behind { first, value, last },
                body,
            },
        )
    }

    // A turn of a for, while what stands behind it waits; with none left the run ends.
    fn for_turn(&mut self, body: &'t Stmt, later: Work<'t>) -> Progress
        ensures size { Adds 0 self.old result self.new }
        ensures does { (finished : ℕ) → RunDoes (λ env. turning_inside env finished body.now later.entry)
            self.old result self.new }
    {
        if self.turns == 0 {
            return Ok(Some(Ending::More));
        }
        self.turns -= 1;
        put(&mut self.pending, later)?;
        let pending = mem::replace(&mut self.pending, Vec::new(self.alloc));
        self.callers.push(Caller::For { pending })?;
        self.do_next(Work::Statement(body))
    }

    // The rounds of a for behind that with a value of its control variable.
    fn next_round(
        &mut self,
        head: &'t ForHead,
        first: i32,
        value: i32,
        last: i32,
        body: &'t Stmt,
    ) -> Progress
        ensures fewer { Lightens (Work.For head.entry (Behind first value last) body.entry) self.old result self.new }
        ensures does { RunDoes (λ env. resumed env (Work.For head.entry (Behind first value last) body.entry))
            self.old result self.new }
    {
        match value_toward(head.direction, last, value) {
            Some(value) => self.for_round(head, first, value, last, body),
            None => self.forget(head.control),
        }
    }

    // Behind a for its control variable is undefined.
    fn forget(&mut self, control: u32) -> Progress
        ensures size { Adds 0 self.old result self.new }
        ensures does { RunDoes (λ env. forgetting (env.visible.variables control)) self.old result self.new }
    {
        let place = self.place(control)?;
        self.lose(&place);
        Ok(None)
    }

    pub(crate) fn case(&mut self, head: &'t CaseHead, arms: &'t Vec<Stmt>) -> Progress
        ensures fewer { Lightens (Work.Case head.entry arms.entry) self.old result self.new }
        ensures does { RunDoes (λ env. resumed env (Work.Case head.entry arms.entry)) self.old result self.new }
    {
        let index = self.popped_number();
        match arm_at(&head.constants, arms, index) {
            Some(arm) => self.do_next(Work::Statement(arm)),
            None => Ok(Some(Ending::Error(head.site))),
        }
    }

    // The records of a with, one after another, and then its statement.
    pub(crate) fn with(&mut self, records: &'t [WithRecord], body: &'t Box<Stmt>) -> Progress
        ensures fewer { Lightens (Work.With records.entry body.entry) self.old result self.new }
        ensures does { RunDoes (λ env. resumed env (Work.With records.entry body.entry)) self.old result self.new }
    {
        match records.split_first() {
            Some((first, rest)) => self.access(
                &first.access,
                &first.indexes,
                Work::Within {
                    records: rest,
                    body,
                },
            ),
            None => self.do_next(Work::Statement(body)),
        }
    }

    // The record whose place is topmost, and in it further ones and the statement; what is pending waits for these.
    pub(crate) fn within(&mut self, records: &'t [WithRecord], body: &'t Box<Stmt>) -> Progress
        ensures fewer { Lightens (Work.Within records.entry body.entry) self.old result self.new }
        ensures does { RunDoes (λ env. resumed env (Work.Within records.entry body.entry)) self.old result self.new }
    {
        let place = self.popped_place();
        self.activation.open(place)?;
        let pending = mem::replace(&mut self.pending, Vec::new(self.alloc));
        self.callers.push(Caller::With { pending })?;
        self.do_next(Work::With { records, body })
    }

    pub(crate) fn parameters(
        &mut self,
        parameters: &'t [WriteParameter],
        ends_line: bool,
    ) -> Progress
        ensures fewer { Lightens (Work.Parameters parameters.entry ends_line) self.old result self.new }
        ensures does { RunDoes (λ env. resumed env (Work.Parameters parameters.entry ends_line)) self.old result
            self.new }
    {
        match parameters.split_first() {
            Some((first, rest)) => {
                put(
                    &mut self.pending,
                    Work::Parameters {
                        parameters: rest,
                        ends_line,
                    },
                )?;
                self.parameter(first)
            }
            None => self.line_end(ends_line),
        }
    }

    // A value that is written.
    fn parameter(&mut self, parameter: &'t WriteParameter) -> Progress
        ensures size { Adds (size_of_parameter parameter.now) self.old result self.new }
        ensures does { RunDoes (λ env. writing_one env parameter.now) self.old result self.new }
    {
        match &parameter.value {
            Written::Ordinal {
                value,
                representation,
            } => self.ordinal(value, *representation, &parameter.width),
            Written::String { value, indexes } => self.string(value, indexes, &parameter.width),
        }
    }

    // An ordinal that is written: its value, and then its width.
    fn ordinal(
        &mut self,
        value: &'t Expr,
        representation: Representation,
        width: &'t Option<Width>,
    ) -> Progress
        ensures size { Adds (3 + size_of_expression value.now + size_of_width width.now) self.old result self.new }
        ensures does { RunDoes (λ env. writing env value.now representation width.now) self.old result self.new }
    {
        put(&mut self.pending, Work::Write(representation))?;
        self.plan(
            Work::Value(value),
            Work::Width {
                width,
                representation,
            },
        )
    }

    // A string that is written: its components, and then its width, or its length.
    fn string(
        &mut self,
        value: &'t Whole,
        indexes: &'t [Expr],
        width: &'t Option<Width>,
    ) -> Progress
        ensures size { Adds (2 + size_of_whole value.now indexes.now + size_of_width width.now)
            self.old result self.new }
        ensures does { RunDoes (λ env. writing_row env value.now indexes.now width.now) self.old result self.new }
    {
        match width {
            Some(width) => {
                put(&mut self.pending, Work::WriteRow)?;
                put(&mut self.pending, Work::WidthTest { site: width.site })?;
                self.plan(Work::Whole { value, indexes }, Work::Value(&width.value))
            }
            None => self.plan(
                Work::Whole { value, indexes },
                Work::WriteRowIn {
                    places: length_of(value),
                },
            ),
        }
    }

    pub(crate) fn width(
        &mut self,
        width: &'t Option<Width>,
        representation: Representation,
    ) -> Progress
        ensures fewer { Lightens (Work.Width width.entry representation) self.old result self.new }
        ensures does { RunDoes (λ env. resumed env (Work.Width width.entry representation)) self.old result self.new }
    {
        match width {
            Some(width) => self.plan(
                Work::Value(&width.value),
                Work::WidthTest { site: width.site },
            ),
            None => self.go_on_with(Ok(width_by_default(representation))),
        }
    }

    pub(crate) fn width_test(&mut self, site: u32) -> Progress
        ensures fewer { Lightens (Work.WidthTest site) self.old result self.new }
        ensures does { RunDoes (λ env. resumed env (Work.WidthTest site)) self.old result self.new }
    {
        let width = self.popped_number();
        self.go_on_with(positive_width(width, site))
    }

    pub(crate) fn write(&mut self, representation: Representation) -> Progress
        ensures fewer { Lightens (Work.Write representation) self.old result self.new }
        ensures does { RunDoes (λ env. resumed env (Work.Write representation)) self.old result self.new }
    {
        let width = self.popped_number();
        let number = self.popped_number();
        write_ordinal(self.alloc, &mut self.output, representation, number, width)?;
        Ok(None)
    }

    pub(crate) fn write_row(&mut self) -> Progress
        ensures fewer { Lightens Work.WriteRow self.old result self.new }
        ensures does { RunDoes (λ env. resumed env Work.WriteRow) self.old result self.new }
    {
        let width = self.popped_number();
        let row = self.popped_row();
        write_row(&mut self.output, &row, width)?;
        Ok(None)
    }

    pub(crate) fn write_row_in(&mut self, places: usize) -> Progress
        ensures fewer { Lightens (Work.WriteRowIn places) self.old result self.new }
        ensures does { RunDoes (λ env. resumed env (Work.WriteRowIn places)) self.old result self.new }
    {
        let row = self.popped_row();
        write_row_in(&mut self.output, &row, places)?;
        Ok(None)
    }

    fn line_end(&mut self, ends_line: bool) -> Progress
        ensures size { Adds 0 self.old result self.new }
        ensures does { RunDoes (λ env. line_ending ends_line) self.old result self.new }
    {
        if ends_line {
            self.output.push(b'\n')?;
        }
        Ok(None)
    }
}
