ghost use Rattle.std.specs.Prelude.{◌+◌, ◌∷◌};
ghost use Rattle.interpreter.specs.Pending.{RunDoes, constructing, gathering, resumed};
ghost use Rattle.interpreter.specs.Size.{Adds, Lightens, size_of_gather};

use crate::interpreter::{Progress, Run};
use interpreter_state::ordinals::operated_number;
use interpreter_state::rows::compared_number;
use interpreter_state::sets::{operated_value, with_one, with_range};
use interpreter_state::{Operand, Work, put};
use meaning::{Ending, Ordinal, Value};
use typed_tree::{Designator, Dyadic, Expr, Link, Monadic, Relation, Whole};

// The steps of expressions.
impl<'t> Run<'t, '_> {
    pub(crate) fn value(&mut self, expression: &'t Expr) -> Progress
        ensures fewer { Lightens (Work.Value expression.entry) self.old result self.new }
        ensures does { RunDoes (λ env. resumed env (Work.Value expression.entry)) self.old result self.new }
    {
        match expression {
            Expr::Constant { value, .. } => self.go_on(Ok(Value::Number(Ordinal::new(*value)))),
            Expr::Variable {
                access,
                indexes,
                defined,
                ..
            } => self.access(access, indexes, Work::Fetch { defined: *defined }),
            Expr::Monadic {
                operation,
                operand,
                ..
            } => self.plan(Work::Value(operand), Work::Monadic(*operation)),
            Expr::Chain { first, rest } => self.plan(Work::Value(first), Work::Links(rest)),
            Expr::Compare {
                number,
                relation,
                left,
                left_indexes,
                right,
                right_indexes,
            } => self.plan(
                Work::Whole {
                    value: left,
                    indexes: left_indexes,
                },
                Work::RightSide {
                    number: *number,
                    relation: *relation,
                    right,
                    indexes: right_indexes,
                },
            ),
            Expr::Input { asks, .. } => self.asked(*asks),
            Expr::Set {
                designators,
                members,
                ..
            } => self.constructor(designators, members),
            Expr::Call { call, actuals } => self.call(call, actuals),
        }
    }

    pub(crate) fn monadic(&mut self, operation: Monadic) -> Progress
        ensures fewer { Lightens (Work.Monadic operation) self.old result self.new }
        ensures does { RunDoes (λ env. resumed env (Work.Monadic operation)) self.old result self.new }
    {
        let operand = self.popped_number();
        self.go_on_with(operated_number(operation, operand))
    }

    pub(crate) fn links(&mut self, links: &'t [Link]) -> Progress
        ensures fewer { Lightens (Work.Links links.entry) self.old result self.new }
        ensures does { RunDoes (λ env. resumed env (Work.Links links.entry)) self.old result self.new }
    {
        match links.split_first() {
            Some((first, rest)) => {
                put(&mut self.pending, Work::Links(rest))?;
                self.plan(Work::Value(&first.operand), Work::Combine(first.operation))
            }
            None => Ok(None),
        }
    }

    pub(crate) fn combine(&mut self, operation: Dyadic) -> Progress
        ensures fewer { Lightens (Work.Combine operation) self.old result self.new }
        ensures does { RunDoes (λ env. resumed env (Work.Combine operation)) self.old result self.new }
    {
        let right = self.popped();
        let left = self.popped();
        self.go_on(operated_value(operation, left, right))
    }

    // A set constructor, whose members are added to the empty set.
    fn constructor(&mut self, designators: &'t [Designator], members: &'t [Expr]) -> Progress
        ensures size { Adds (1 + size_of_gather designators.now members.now) self.old result self.new }
        ensures does { RunDoes (λ env. constructing env designators.now members.now) self.old result self.new }
    {
        self.push(Operand::Value(Value::Members(0)))?;
        self.do_next(Work::Gather {
            designators,
            members,
        })
    }

    pub(crate) fn gather(&mut self, designators: &'t [Designator], members: &'t [Expr]) -> Progress
        ensures fewer { Lightens (Work.Gather designators.entry members.entry) self.old result self.new }
        ensures does { RunDoes (λ env. resumed env (Work.Gather designators.entry members.entry))
            self.old result self.new }
    {
        match designators.split_first() {
            Some((Designator::Single { site }, rest)) => self.single(*site, rest, members),
            Some((Designator::Range { site }, rest)) => self.range(*site, rest, members),
            None => Ok(None),
        }
    }

    // A single member, and then the rest of the designators.
    fn single(&mut self, site: u32, rest: &'t [Designator], members: &'t [Expr]) -> Progress
        ensures size { Adds (2 + size_of_gather rest.now members.now) self.old result self.new }
        ensures does { RunDoes (λ env. gathering env (Designator.Single site ∷ rest.now) members.now)
            self.old result self.new }
    {
        match members.split_first() {
            Some((member, others)) => {
                put(
                    &mut self.pending,
                    Work::Gather {
                        designators: rest,
                        members: others,
                    },
                )?;
                self.plan(Work::Value(member), Work::AddMember { site })
            }
            None => Ok(None),
        }
    }

    // Several members, and then the rest of the designators.
    fn range(&mut self, site: u32, rest: &'t [Designator], members: &'t [Expr]) -> Progress
        ensures size { Adds (2 + size_of_gather rest.now members.now) self.old result self.new }
        ensures does { RunDoes (λ env. gathering env (Designator.Range site ∷ rest.now) members.now)
            self.old result self.new }
    {
        let Some((first, behind)) = members.split_first() else {
            return Ok(None);
        };
        match behind.split_first() {
            Some((last, others)) => {
                put(
                    &mut self.pending,
                    Work::Gather {
                        designators: rest,
                        members: others,
                    },
                )?;
                self.plan_values(first, last, Work::AddRange { site })
            }
            None => Ok(None),
        }
    }

    // Adds the topmost value to the set below it.
    pub(crate) fn add_member(&mut self, site: u32) -> Progress
        ensures fewer { Lightens (Work.AddMember site) self.old result self.new }
        ensures does { RunDoes (λ env. resumed env (Work.AddMember site)) self.old result self.new }
    {
        let member = self.popped_number();
        let set = self.popped_set();
        self.go_on_with_set(with_one(site, member, set))
    }

    // Adds all from the second topmost value to the topmost one to the set below them.
    pub(crate) fn add_range(&mut self, site: u32) -> Progress
        ensures fewer { Lightens (Work.AddRange site) self.old result self.new }
        ensures does { RunDoes (λ env. resumed env (Work.AddRange site)) self.old result self.new }
    {
        let last = self.popped_number();
        let first = self.popped_number();
        let set = self.popped_set();
        self.go_on_with_set(with_range(site, first, last, set))
    }

    // The right side of a relation whose left side is topmost.
    pub(crate) fn right_side(
        &mut self,
        number: u32,
        relation: Relation,
        right: &'t Whole,
        indexes: &'t [Expr],
    ) -> Progress
        ensures fewer { Lightens (Work.RightSide number relation right.entry indexes.entry) self.old result self.new }
        ensures does { RunDoes (λ env. resumed env (Work.RightSide number relation right.entry indexes.entry))
            self.old result self.new }
    {
        self.plan(
            Work::Whole {
                value: right,
                indexes,
            },
            Work::Compare(relation),
        )
    }

    pub(crate) fn compare(&mut self, relation: Relation) -> Progress
        ensures fewer { Lightens (Work.Compare relation) self.old result self.new }
        ensures does { RunDoes (λ env. resumed env (Work.Compare relation)) self.old result self.new }
    {
        let right = self.popped_row();
        let left = self.popped_row();
        self.go_on_with(Ok(compared_number(relation, &left, &right)))
    }
}
