ghost use Rattle.std.specs.Prelude.{◌≡◌, ◌+◌, ◌<◌, IfOk, None, Ok};
ghost use Rattle.meaning.specs.Meaning.{meaning};
ghost use Rattle.interpreter.specs.Pending.{Advances, RunDoes, Executes, Finishes, evaluating, resumed, turning_tested};
ghost use Rattle.interpreter.specs.Size.{Adds, Lightens, Shrinks, size_of, size_of_expression};

use interpreter_state::activation::Activation;
use interpreter_state::input::Input;
use interpreter_state::{Caller, Operand, Place, Work, put};
use meaning::{Ending, Outcome, Value};
use std::alloc::{AllocError, Global};
use std::collections::BTreeMap;
use typed_tree::{Expr, Tree};

/// What a program writes and how it ends, from an input and for a number of turns: each start of a
/// loop's body or of a routine's block uses one.
pub fn interpret(
    alloc: Global,
    tree: &Tree,
    input: &[u8],
    turns: u64,
) -> Result<Outcome, AllocError>
    ensures { IfOk result (λ o.
        (o.output.items ≡ (meaning tree.now input.now turns).output)
        × (o.ending ≡ (meaning tree.now input.now turns).ending)) }
{
    let mut run = Run {
        alloc,
        tree,
        store: BTreeMap::new(alloc),
        input: Input::new(input),
        output: Vec::new(alloc),
        turns,
        called: 0,
        activation: Activation::outside(alloc, turns),
        callers: Vec::new(alloc),
        operands: Vec::new(alloc),
        pending: Vec::new(alloc),
    };
    let ending = run.execute()?;
    Ok(Outcome {
        output: run.output,
        ending,
    })
}

// A run: what it has made so far, its activations, its operands, and the work that is left, the next on top.
#[derive(Drop)]
pub(crate) struct Run<'t, 'i> {
    pub(crate) alloc: Global,
    pub(crate) tree: &'t Tree,
    pub(crate) store: BTreeMap<Place, Value>,
    // What is left of the input.
    pub(crate) input: Input<'i>,
    pub(crate) output: Vec<u8>,
    // How many turns are left.
    pub(crate) turns: u64,
    // How many activations of routines there were; the last one has this number, the program's own has 0.
    pub(crate) called: u64,
    // The activation whose work is done.
    pub(crate) activation: Activation,
    // What waits for the work that is pending, the latest last.
    pub(crate) callers: Vec<Caller<'t>>,
    pub(crate) operands: Vec<Operand>,
    pub(crate) pending: Vec<Work<'t>>,
}

// What a step answers: nothing where the run goes on, or how it ends. An error means that memory ran out.
pub(crate) type Progress = Result<Option<Ending>, AllocError>;

impl<'t> Run<'t, '_> {
    // Does the statement of the program's block, in the first activation.
    fn execute(&mut self) -> Result<Ending, AllocError>
        ensures { Executes self.old result self.new }
    {
        match self.tree.blocks.first() {
            Some(block) => {
                let mut activation = self
                    .activation
                    .inner(self.alloc, 0, &block.heading, 0, &[])?;
                // Those inside it use a turn each, and it uses none itself.
                activation.depth = self.turns;
                self.activation = activation;
                put(&mut self.pending, Work::Statement(&block.body))?;
                self.finish()
            }
            None => Ok(Ending::Finished),
        }
    }

    // Does the work that is left.
    fn finish(&mut self) -> Result<Ending, AllocError>
        ensures { Finishes self.old result self.new }
    {
        loop {
            if let Some(ending) = self.work_in_turn()? {
                return Ok(ending);
            }
        }
    }

    // Does the work that is left until a turn is used or the run ends.
    fn work_in_turn(&mut self) -> Progress
        ensures fewer { result ≡ Ok None → self.new.turns < self.old.turns }
        ensures does { Advances self.old result self.new }
    {
        let turns = self.turns;
        loop {
            if let Some(ending) = self.advance()? {
                return Ok(Some(ending));
            }
            if self.turns < turns {
                return Ok(None);
            }
        }
    }

    // Does the next piece of work; where none is left the activation ends, and with the program's own the run.
    fn advance(&mut self) -> Progress
        ensures fewer { Shrinks self.old result self.new }
        ensures does { Advances self.old result self.new }
    {
        if let Some(work) = self.pending.pop() {
            self.step(work)
        } else if self.callers.is_empty() {
            Ok(Some(Ending::Finished))
        } else {
            self.leave()
        }
    }

    fn step(&mut self, work: Work<'t>) -> Progress
        ensures fewer { Lightens work.entry self.old result self.new }
        ensures does { RunDoes (λ env. resumed env work.entry) self.old result self.new }
    {
        match work {
            Work::Statements(statements) => self.statements(statements),
            Work::Statement(statement) => self.statement(statement),
            Work::Choose {
                consequence,
                alternative,
            } => self.choose(consequence, alternative),
            Work::WhileTurn { head, body } => self.while_turn(head, body),
            Work::Unless { head, statements } => self.unless(head, statements),
            Work::For { head, rounds, body } => self.rounds(head, rounds, body),
            Work::Case { head, arms } => self.case(head, arms),
            Work::Parameters {
                parameters,
                ends_line,
            } => self.parameters(parameters, ends_line),
            Work::Variables { variables, line } => self.variables(variables, line),
            Work::Read(variable) => self.read(variable),
            Work::Width {
                width,
                representation,
            } => self.width(width, representation),
            Work::WidthTest { site } => self.width_test(site),
            Work::Write(representation) => self.write(representation),
            Work::WriteRow => self.write_row(),
            Work::WriteRowIn { places } => self.write_row_in(places),
            Work::Store(fits) => self.store(fits),
            Work::StoreRow(type_id) => self.store_row(type_id),
            Work::Select { selectors, indexes } => self.select(selectors, indexes),
            Work::Index(fits) => self.index(fits),
            Work::Fetch { defined } => self.fetch(defined),
            Work::Whole { value, indexes } => self.whole(value, indexes),
            Work::FetchRow { type_id, defined } => self.fetch_row(type_id, defined),
            Work::Value(expression) => self.value(expression),
            Work::Monadic(operation) => self.monadic(operation),
            Work::Links(links) => self.links(links),
            Work::Combine(operation) => self.combine(operation),
            Work::RightSide {
                number,
                relation,
                right,
                indexes,
            } => self.right_side(number, relation, right, indexes),
            Work::Compare(relation) => self.compare(relation),
            Work::Pass(actuals) => self.pass(actuals),
            Work::Test(fits) => self.test(fits),
            Work::Activate { block, count } => self.activate(block, count),
            Work::Discard => self.discard(),
            Work::Gather {
                designators,
                members,
            } => self.gather(designators, members),
            Work::AddMember { site } => self.add_member(site),
            Work::AddRange { site } => self.add_range(site),
            Work::With { records, body } => self.with(records, body),
            Work::Within { records, body } => self.within(records, body),
        }
    }

    // What is done next.
    pub(crate) fn do_next(&mut self, next: Work<'t>) -> Progress
        ensures size { Adds (1 + size_of next.entry) self.old result self.new }
        ensures does { RunDoes (λ env. resumed env next.entry) self.old result self.new }
    {
        put(&mut self.pending, next)?;
        Ok(None)
    }

    // What is done next, and what is done after it.
    pub(crate) fn plan(&mut self, next: Work<'t>, later: Work<'t>) -> Progress
        ensures size { Adds (2 + size_of next.entry + size_of later.entry) self.old result self.new }
        ensures does { RunDoes (λ env rest. resumed env next.entry (resumed env later.entry rest))
            self.old result self.new }
    {
        put(&mut self.pending, later)?;
        put(&mut self.pending, next)?;
        Ok(None)
    }

    // Two values, and what is done with them.
    pub(crate) fn plan_values(
        &mut self,
        first: &'t Expr,
        second: &'t Expr,
        later: Work<'t>,
    ) -> Progress
        ensures size { Adds (3 + size_of_expression first.now + size_of_expression second.now + size_of later.entry)
            self.old result self.new }
        ensures does { RunDoes (λ env. evaluating env first.now second.now later.entry) self.old result self.new }
    {
        put(&mut self.pending, later)?;
        self.plan(Work::Value(first), Work::Value(second))
    }

    // A turn, a condition behind what is done in it, and what is done with that; with none left the run ends.
    pub(crate) fn tested_turn(
        &mut self,
        next: Work<'t>,
        condition: &'t Expr,
        later: Work<'t>,
    ) -> Progress
        ensures size { Adds 0 self.old result self.new }
        ensures does { RunDoes (λ env. turning_tested env next.entry condition.now later.entry)
            self.old result self.new }
    {
        if self.turns == 0 {
            return Ok(Some(Ending::More));
        }
        self.turns -= 1;
        put(&mut self.pending, later)?;
        self.plan(next, Work::Value(condition))
    }
}
