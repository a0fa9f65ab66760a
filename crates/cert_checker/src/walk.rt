ghost use Rattle.std.specs.Prelude.{◌≡◌, ◌++◌, ◌∷◌, IfOk, flat_map, map};
ghost use Rattle.typed_tree.specs.Entries.{access_entries, call_entries, entries_of_expression, entries_of_parameter};
ghost use Rattle.typed_tree.specs.Entries.{entries_of_passed, entries_of_record, entries_of_statement, index_entries};
ghost use Rattle.typed_tree.specs.Entries.{whole_entries};
ghost use Rattle.domain.specs.Interval.{common};
ghost use Rattle.domain.specs.Numbers.{hull, is_covered};
ghost use Rattle.checker_state.specs.View.{said_reach};
ghost use Rattle.checker_loops.specs.Cases.{constants_before};
ghost use Rattle.checker_ways.specs.View.{said_way};
ghost use Rattle.checker_expressions.specs.Visits.{all_counted};
ghost use Rattle.checker_expressions.specs.Walk.{access_walk, call_walk, changed_by, index_pieces, parameter_walk};
ghost use Rattle.checker_expressions.specs.Walk.{passed_piece_of, tested, value_walk, whole_walk};
ghost use Rattle.cert_checker.specs.StepsView.{said_valued};
ghost use Rattle.cert_checker.specs.View.{WalkGoes, arms_from_here, else_entries, else_walk, statements_entries};
ghost use Rattle.cert_checker.specs.Walk.{all_of, bounds_walk, choice_walk, condition_walk, for_turns, for_walk};
ghost use Rattle.cert_checker.specs.Walk.{from_entry};
ghost use Rattle.cert_checker.specs.Walk.{index_walk, record_walk, with_walk};
ghost use Rattle.cert_checker.specs.Walk.{repeat_walk, rounds_of, statement_walk, where_so, while_walk};

use crate::increments::Valued;
use checker_expressions::{Count, Flow};
use checker_loops::loops::Claims;
use checker_sides::sides::meet_sides;
use checker_state::{Known, Reach, entire};
use checker_ways::cases::{begin_arm, constants_before, covers};
use checker_ways::ways::Way;
use domain::{Domain, Extension, Interval};
use std::alloc::{AllocError, Global};
use typed_tree::{
    Access, CaseHead, Expr, ForHead, LoopHead, ProcedureCall, Stmt, Whole, WithHead, WithRecord,
    Writing,
};

/// A walk over the statements of a program, in the order in which they stand. The counter of entries is lent to it.
#[derive(Drop)]
pub struct Walk<'a> {
    /// What the certificate claims of the loops, by their numbers.
    pub claims: &'a [Claims<'a>],
    /// The aliases of what each loop changes, by the numbers of the loops.
    pub aliases: &'a [Vec<u32>],
    /// What it goes by, what is known where the walk is, which sites it left open, and the first rule that is broken.
    pub flow: Flow<'a>,
}

impl<'a> Walk<'a> {
    /// A statement (ISO 7185:1990, 6.8).
    #[cycle(statement)]
    pub fn statement<C: Count>(&mut self, statement: &Stmt, visits: &mut C)
        ensures goes { WalkGoes (statement_walk statement.now) self.old self.new tt }
        ensures counts { visits.new ≡ all_counted C.counted (entries_of_statement statement.now) visits.old }
    {
        match statement {
            Stmt::Empty { number } => visits.tick(*number),
            Stmt::Assign(assignment) => self.assignment(assignment, visits),
            Stmt::Copy(copying) => self.copying(copying, visits),
            Stmt::Write(writing) => self.write(writing, visits),
            Stmt::Read(reading) => self.read(reading, visits),
            Stmt::Call(calling) => self.call(calling, visits),
            Stmt::Compound { number, statements } => {
                visits.tick(*number);
                self.statements(statements, visits);
            }
            Stmt::If {
                number,
                condition,
                consequence,
                alternative,
            } => {
                visits.tick(*number);
                let valued = self.condition(condition, visits);
                let mark = self.flow.state.mark();
                self.go_where(condition, &valued, true);
                self.statement(consequence, visits);
                let first = self.flow.state.leave(mark);
                self.go_where(condition, &valued, false);
                self.alternative(alternative, visits);
                self.flow.state.join_behind(mark, &first);
            }
            Stmt::While { head, body } => self.while_loop(head, body, visits),
            Stmt::Repeat { head, statements } => self.repeat_loop(head, statements, visits),
            Stmt::For { head, body } => self.for_loop(head, body, visits),
            Stmt::Case { head, arms } => self.case(head, arms, visits),
            Stmt::With { head, body } => self.with_statement(head, body, visits),
        }
    }

    /// Statements, one after another.
    #[cycle(statement)]
    fn statements<C: Count>(&mut self, statements: &[Stmt], visits: &mut C)
        ensures goes { WalkGoes (all_of (map statement_walk statements.now)) self.old self.new tt }
        ensures counts { visits.new ≡ all_counted C.counted (statements_entries statements.now) visits.old }
    {
        for statement in statements {
            self.statement(statement, visits);
        }
    }

    /// The statement behind `else`, if there is one.
    #[cycle(statement)]
    fn alternative<C: Count>(&mut self, alternative: &Option<Box<Stmt>>, visits: &mut C)
        ensures goes { WalkGoes (else_walk alternative.now) self.old self.new tt }
        ensures counts { visits.new ≡ all_counted C.counted (else_entries alternative.now) visits.old }
    {
        match alternative {
            None => {}
            Some(statement) => self.statement(statement, visits),
        }
    }

    /// A while.
    #[cycle(statement)]
    fn while_loop<C: Count>(&mut self, head: &LoopHead, body: &Stmt, visits: &mut C)
        ensures goes { WalkGoes (from_entry head.now.number (while_walk head.now (statement_walk body.now)))
            self.old self.new tt }
        ensures counts { visits.new ≡ all_counted C.counted (head.now.number
            ∷ (entries_of_expression head.now.condition ++ entries_of_statement body.now)) visits.old }
    {
        visits.tick(head.number);
        self.enter_loop(head.loop_number, head.place, None);
        let valued = self.condition(&head.condition, visits);
        let mark = self.flow.state.mark();
        self.go_where(&head.condition, &valued, true);
        self.statement(body, visits);
        self.leave_loop(head.loop_number, head.place);
        let _turn = self.flow.state.leave(mark);
        self.go_where(&head.condition, &valued, false);
    }

    /// A repeat.
    #[cycle(statement)]
    fn repeat_loop<C: Count>(&mut self, head: &LoopHead, statements: &[Stmt], visits: &mut C)
        ensures goes { WalkGoes (from_entry head.now.number
            (repeat_walk head.now (all_of (map statement_walk statements.now)))) self.old self.new tt }
        ensures counts { visits.new ≡ all_counted C.counted (head.now.number
            ∷ (statements_entries statements.now ++ entries_of_expression head.now.condition)) visits.old }
    {
        visits.tick(head.number);
        self.enter_loop(head.loop_number, head.place, None);
        self.statements(statements, visits);
        let valued = self.condition(&head.condition, visits);
        let mark = self.flow.state.mark();
        self.go_where(&head.condition, &valued, false);
        self.leave_loop(head.loop_number, head.place);
        let _turn = self.flow.state.leave(mark);
        self.go_where(&head.condition, &valued, true);
    }

    /// A for.
    #[cycle(statement)]
    fn for_loop<C: Count>(&mut self, head: &ForHead, body: &Stmt, visits: &mut C)
        ensures goes { WalkGoes (from_entry head.now.number (bounds_walk head.now (statement_walk body.now)))
            self.old self.new tt }
        ensures counts { visits.new ≡ all_counted C.counted (head.now.number
            ∷ (entries_of_expression head.now.first.value
            ++ (entries_of_expression head.now.last.value ++ entries_of_statement body.now))) visits.old }
    {
        visits.tick(head.number);
        let from = self.expression(&head.first.value, visits);
        let to = self.expression(&head.last.value, visits);
        let way = Way::of(
            self.flow.grounds.version,
            self.flow.state.table(),
            head,
            from,
            to,
        );
        self.for_statement(head, body, &way, visits);
    }

    /// A for, from the values of its bounds: where there are any, and where there are none.
    #[cycle(statement)]
    fn for_statement<C: Count>(&mut self, head: &ForHead, body: &Stmt, way: &Way, visits: &mut C)
        ensures goes { WalkGoes (for_walk head.now (statement_walk body.now) (said_way way.now)) self.old self.new tt }
        ensures counts { visits.new ≡ all_counted C.counted (entries_of_statement body.now) visits.old }
    {
        let mark = self.flow.state.mark();
        way.relate(&mut self.flow.state, true);
        self.for_turns(head, body, way, visits);
        let turns = self.flow.state.leave(mark);
        way.relate(&mut self.flow.state, false);
        self.flow.state.join_behind(mark, &turns);
        self.flow.state.undefine(way.control);
    }

    /// A for where there are values.
    #[cycle(statement)]
    fn for_turns<C: Count>(&mut self, head: &ForHead, body: &Stmt, way: &Way, visits: &mut C)
        ensures goes { WalkGoes (for_turns head.now (statement_walk body.now) (said_way way.now)) self.old self.new tt }
        ensures counts { visits.new ≡ all_counted C.counted (entries_of_statement body.now) visits.old }
    {
        let tested = self.tested_way(way);
        self.begin_way(&tested);
        self.turns(head, body, &tested, visits);
    }

    /// The turns of a for.
    #[cycle(statement)]
    fn turns<C: Count>(&mut self, head: &ForHead, body: &Stmt, way: &Way, visits: &mut C)
        ensures goes { WalkGoes (rounds_of head.now (statement_walk body.now) (said_way way.now)) self.old self.new tt }
        ensures counts { visits.new ≡ all_counted C.counted (entries_of_statement body.now) visits.old }
    {
        let steady = self.steady_in(head.loop_number, way);
        let turns = self.turns_in(head.loop_number, way);
        self.enter_turns(&turns, head.place);
        self.enter_loop(head.loop_number, head.place, Some(steady.control));
        self.begin_turn(&steady, &turns);
        self.statement(body, visits);
        let mark = self.flow.state.mark();
        self.end_turn(&steady, &turns, head.place);
        self.leave_loop(head.loop_number, head.place);
        let _turn = self.flow.state.leave(mark);
        turns.end(&mut self.flow.state);
        steady.leave(&mut self.flow.state);
    }

    /// A case.
    #[cycle(statement)]
    fn case<C: Count>(&mut self, head: &CaseHead, arms: &[Stmt], visits: &mut C)
        ensures goes { WalkGoes (from_entry head.now.number (index_walk head.now (map statement_walk arms.now)))
            self.old self.new tt }
        ensures counts { visits.new ≡ all_counted C.counted (head.now.number
            ∷ (entries_of_expression head.now.index ++ statements_entries arms.now)) visits.old }
    {
        visits.tick(head.number);
        let known = self.expression(&head.index, visits);
        self.test_index(head, arms.len(), known.range());
        let index = entire(self.flow.state.table(), &head.index);
        self.arms(arms, index, &head.constants, visits);
    }

    /// The arms of a case, each from here. No way behind it is known before the first.
    #[cycle(statement)]
    fn arms<C: Count>(
        &mut self,
        arms: &[Stmt],
        index: Option<u32>,
        constants: &[Vec<i32>],
        visits: &mut C,
    )
        ensures goes { WalkGoes (arms_from_here index constants.now (map statement_walk arms.now)) self.old self.new
            tt }
        ensures counts { visits.new ≡ all_counted C.counted (statements_entries arms.now) visits.old }
    {
        let mark = self.flow.state.mark();
        self.flow.state.die();
        let mut behind = self.flow.state.leave(mark);
        for number in 0..arms.len() {
            begin_arm(&mut self.flow.state, index, constants, number);
            self.statement(&arms[number], visits);
            self.flow.state.join_behind(mark, &behind);
            behind = self.flow.state.leave(mark);
        }
        self.flow.state.go(&behind);
    }

    /// A with (ISO 7185:1990, 6.8.3.10).
    #[cycle(statement)]
    fn with_statement<C: Count>(&mut self, head: &WithHead, body: &Stmt, visits: &mut C)
        ensures goes { WalkGoes (from_entry head.now.number (with_walk head.now (statement_walk body.now)))
            self.old self.new tt }
        ensures counts { visits.new ≡ all_counted C.counted (head.now.number
            ∷ (flat_map entries_of_record head.now.records.items ++ entries_of_statement body.now)) visits.old }
    {
        visits.tick(head.number);
        self.records(&head.records, visits);
        self.statement(body, visits);
    }

    /// The records of a with, each of which is accessed once.
    fn records<C: Count>(&mut self, records: &[WithRecord], visits: &mut C)
        ensures goes { WalkGoes (all_of (map record_walk records.now)) self.old self.new tt }
        ensures counts { visits.new ≡ all_counted C.counted (flat_map entries_of_record records.now) visits.old }
    {
        for one in records {
            self.record_of(one, visits);
        }
    }

    /// A record of a with.
    pub fn record_of<C: Count>(&mut self, one: &WithRecord, visits: &mut C)
        ensures goes { WalkGoes (record_walk one.now) self.old self.new tt }
        ensures counts { visits.new ≡ all_counted C.counted (entries_of_record one.now) visits.old }
    {
        let _reach = self.access(&one.access, &one.indexes, visits);
    }

    /// A call of a procedure.
    fn call<C: Count>(&mut self, calling: &ProcedureCall, visits: &mut C)
        ensures goes { WalkGoes (call_walk calling.now.call (map passed_piece_of calling.now.actuals.items))
            self.old self.new tt }
        ensures counts { visits.new ≡ all_counted C.counted (call_entries calling.now.call
            (map entries_of_passed calling.now.actuals.items)) visits.old }
    {
        self.flow.call(calling.call, &calling.actuals, visits);
    }

    /// A write.
    fn write<C: Count>(&mut self, writing: &Writing, visits: &mut C)
        ensures goes { WalkGoes (from_entry writing.now.number (all_of
            (map parameter_walk writing.now.parameters.items)))
            self.old self.new tt }
        ensures counts { visits.new ≡ all_counted C.counted (writing.now.number
            ∷ flat_map entries_of_parameter writing.now.parameters.items) visits.old }
    {
        visits.tick(writing.number);
        for parameter in &writing.parameters {
            self.flow.parameter(parameter, visits);
        }
    }

    /// What is known of an expression's value.
    pub fn expression<C: Count>(&mut self, expression: &Expr, visits: &mut C) -> Known
        ensures goes { WalkGoes (value_walk expression.now) self.old self.new result }
        ensures counts { visits.new ≡ all_counted C.counted (entries_of_expression expression.now) visits.old }
    {
        self.flow.expression(expression, visits)
    }

    /// A condition, whose operands may tell something of one another.
    pub fn condition<C: Count>(&mut self, condition: &Expr, visits: &mut C) -> Valued
        ensures goes { WalkGoes (condition_walk condition.now) self.old self.new (said_valued result) }
        ensures counts { visits.new ≡ all_counted C.counted (entries_of_expression condition.now) visits.old }
    {
        self.noted_where(Extension::Sides, condition, visits)
    }

    /// A variable access.
    pub(crate) fn access<C: Count>(
        &mut self,
        access: &Access,
        indexes: &[Expr],
        visits: &mut C,
    ) -> Reach
        ensures goes { WalkGoes (access_walk access.now (index_pieces indexes.now)) self.old self.new
            (said_reach result) }
        ensures counts { visits.new ≡ all_counted C.counted (access_entries access.now (index_entries indexes.now))
            visits.old }
    {
        self.flow.access(access, indexes, visits)
    }

    /// A whole value.
    pub(crate) fn whole_value<C: Count>(
        &mut self,
        value: &Whole,
        indexes: &[Expr],
        visits: &mut C,
    ) -> Vec<Interval>
        ensures goes { WalkGoes (whole_walk value.now (index_pieces indexes.now)) self.old self.new result.items }
        ensures counts { visits.new ≡ all_counted C.counted (whole_entries value.now (index_entries indexes.now))
            visits.old }
    {
        self.flow.whole_value(value, indexes, visits)
    }

    /// WalkGoes on where a condition has a truth value.
    pub fn go_where(&mut self, condition: &Expr, valued: &Valued, truth: bool)
        ensures { WalkGoes (changed_by (where_so self.old.flow.state.table.now truth condition.now
            (said_valued valued.now))) self.old self.new tt }
    {
        let state = &mut self.flow.state;
        state.branch(condition, valued.known.range(), truth);
        meet_sides(state, condition, truth, &valued.notes);
    }
}

// What a case does with its index.
impl<'a> Walk<'a> {
    /// The test of an index, of a case with so many arms: it is one of the constants.
    pub fn test_index(&mut self, head: &CaseHead, arms: usize, range: Interval)
        ensures { WalkGoes (tested (is_covered range (constants_before arms head.now.constants.items)) head.now.site
            (common range (hull (constants_before arms head.now.constants.items)))) self.old self.new
            (common range (hull (constants_before arms head.now.constants.items))) }
    {
        match Tested::of(self.flow.state.alloc(), head, arms, range) {
            Ok(tested) => {
                self.flow.test(tested.is_closed, head.site, tested.passed);
            }
            Err(error) => self.flow.state.run_short(error.into()),
        }
    }
}

/// What is known of an index that is tested.
#[derive(Clone, Copy)]
struct Tested {
    /// Whether it surely is one of the constants.
    is_closed: bool,
    /// Where it lies then.
    passed: Interval,
}

impl Tested {
    /// The index of a case with so many arms, whose value lies in a range.
    fn of(
        alloc: Global,
        head: &CaseHead,
        arms: usize,
        range: Interval,
    ) -> Result<Tested, AllocError>
        ensures closed { IfOk result (λ tested. tested.is_closed
            ≡ is_covered range (constants_before arms head.now.constants.items)) }
        ensures passed { IfOk result (λ tested. tested.passed
            ≡ common range (hull (constants_before arms head.now.constants.items))) }
    {
        let constants = constants_before(alloc, arms, &head.constants)?;
        Ok(Tested {
            is_closed: covers(alloc, &constants, range)?,
            passed: range.meet(&Interval::hull(&constants)),
        })
    }
}
