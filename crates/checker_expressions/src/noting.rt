//! What a walk over an expression notes of the operands of its operators, for what asks where they lie behind it.
ghost use Rattle.std.specs.Prelude.{◌≡◌, ◌++◌, ◌∷◌, [], map};
ghost use Rattle.std.specs.List.{list_all};
ghost use Rattle.typed_tree.specs.Entries.{entries_of_expression, joined};
ghost use Rattle.checker_expressions.specs.View.{FlowGoes, entries_of_link};
ghost use Rattle.checker_expressions.specs.Visits.{all_counted};
ghost use Rattle.checker_expressions.specs.Walk.{first_noted, give, in_turn, joint_of, joins, link_walk, noting_walk};
ghost use Rattle.checker_expressions.specs.Walk.{operand_noted, piece_of, turns_noted, value_walk, with_noted};

use crate::{Count, Flow};
use checker_state::Known;
use typed_tree::{Dyadic, Expr, Link};

/// What is known of both operands of an operator, each behind its own sites.
#[derive(Clone, Copy)]
pub struct Noted {
    /// The operand to its left: of a chain, all that stands there.
    pub left: Known,
    /// The operand to its right.
    pub right: Known,
}

impl<'a> Flow<'a> {
    /// What is known of an expression's value. Behind what was noted before, the operands of its operators are noted,
    /// in their order: of `and` and `or`, and of an operator with one operand, those inside the operands instead.
    #[cycle(noting)]
    pub fn noting<C: Count>(
        &mut self,
        expression: &Expr,
        noted: &mut Vec<Noted>,
        visits: &mut C,
    ) -> Known
        ensures goes { FlowGoes (noting_walk noted.old.items expression.now) self.old self.new
            (record { known = result; noted = noted.new.items }) }
        ensures counts { visits.new ≡ all_counted C.counted (entries_of_expression expression.now) visits.old }
    {
        match expression {
            Expr::Monadic {
                number,
                operation,
                operand,
            } => {
                visits.tick(*number);
                let known = self.noting(operand, noted, visits);
                self.operated(*operation, known)
            }
            Expr::Chain { first, rest } => {
                let inside = join(rest);
                let known = self.noting_first(inside, first, noted, visits);
                self.noting_in_turn(inside, rest, known, noted, visits)
            }
            Expr::Constant { .. } => self.expression(expression, visits),
            Expr::Variable { .. } => self.expression(expression, visits),
            Expr::Set { .. } => self.expression(expression, visits),
            Expr::Compare { .. } => self.expression(expression, visits),
            Expr::Call { .. } => self.expression(expression, visits),
            Expr::Input { .. } => self.expression(expression, visits),
        }
    }

    /// The first operand of a chain; perhaps what is inside is noted.
    #[cycle(noting)]
    fn noting_first<C: Count>(
        &mut self,
        inside: bool,
        first: &Expr,
        noted: &mut Vec<Noted>,
        visits: &mut C,
    ) -> Known
        ensures goes { FlowGoes (with_noted noted.old.items (first_noted inside (piece_of first.now))
            (value_walk first.now)) self.old self.new (record { known = result; noted = noted.new.items }) }
        ensures counts { visits.new ≡ all_counted C.counted (entries_of_expression first.now) visits.old }
    {
        if inside {
            self.noting(first, noted, visits)
        } else {
            self.expression(first, visits)
        }
    }

    /// Operators with their right operands, from left to right, behind what is known of the first one. The operands are
    /// noted, or what is inside of them.
    #[cycle(noting)]
    fn noting_in_turn<C: Count>(
        &mut self,
        inside: bool,
        links: &[Link],
        left: Known,
        noted: &mut Vec<Noted>,
        visits: &mut C,
    ) -> Known
        ensures goes { FlowGoes (with_noted noted.old.items (turns_noted inside (map joint_of links.now) left)
            (in_turn (map link_walk links.now) left)) self.old self.new
            (record { known = result; noted = noted.new.items }) }
        ensures counts { visits.new ≡ all_counted C.counted (joined (map entries_of_link links.now)) visits.old }
    {
        let mut known = left;
        for link in links {
            known = self.noting_link(inside, link, known, noted, visits);
        }
        known
    }

    /// An operator and its right operand, by what is known to its left.
    #[cycle(noting)]
    fn noting_link<C: Count>(
        &mut self,
        inside: bool,
        link: &Link,
        left: Known,
        noted: &mut Vec<Noted>,
        visits: &mut C,
    ) -> Known
        ensures goes { FlowGoes (with_noted noted.old.items (operand_noted inside left (piece_of link.now.operand))
            (link_walk link.now left)) self.old self.new (record { known = result; noted = noted.new.items }) }
        ensures counts { visits.new ≡ all_counted C.counted (entries_of_link link.now) visits.old }
    {
        visits.tick(link.number);
        let right = self.noting_operand(inside, &left, &link.operand, noted, visits);
        self.combined(link.operation, left, right)
    }

    /// The right operand of an operator, by what is known to its left: both are noted, or what is inside of this one.
    #[cycle(noting)]
    fn noting_operand<C: Count>(
        &mut self,
        inside: bool,
        left: &Known,
        operand: &Expr,
        noted: &mut Vec<Noted>,
        visits: &mut C,
    ) -> Known
        ensures goes { FlowGoes (with_noted noted.old.items (operand_noted inside left.now (piece_of operand.now))
            (value_walk operand.now)) self.old self.new (record { known = result; noted = noted.new.items }) }
        ensures counts { visits.new ≡ all_counted C.counted (entries_of_expression operand.now) visits.old }
    {
        if inside {
            return self.noting(operand, noted, visits);
        }
        let right = self.expression(operand, visits);
        self.note(left, &right, noted);
        right
    }

    /// Notes the operands of an operator behind others.
    fn note(&mut self, left: &Known, right: &Known, noted: &mut Vec<Noted>)
        ensures { FlowGoes (give (noted.old.items ++ record { left = left.now; right = right.now } ∷ [])) self.old
            self.new
            noted.new.items }
    {
        let one = Noted {
            left: *left,
            right: *right,
        };
        if let Err(error) = noted.push(one) {
            self.state.run_short(error.into());
        }
    }
}

/// Whether all of these operators join conditions.
pub fn join(links: &[Link]) -> bool
    ensures { result ≡ list_all (λ link. joins link.operation) links.now }
{
    links.iter().all(|link| joins(link.operation))
}

/// `and` and `or` join conditions.
fn joins(operation: Dyadic) -> bool
    ensures { result ≡ joins operation }
{
    matches!(operation, Dyadic::And | Dyadic::Or)
}
