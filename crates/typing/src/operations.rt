use crate::{Made, Typer};
use place::Place;
use syntax_tree::Operator;
use typed_tree::{Dyadic, SiteKind};
use typing_rules::{Typed, set_operation_behind};

impl Typer {
    ghost use Rattle.typing.specs.Outcomes.{TypingTakes};
    ghost use Rattle.typing.specs.Expressions as spec;

    /// The leading site at an expression's first token, if there is one.
    #[tactic(auto, unfolding(crate::specs::Expressions::behind))]
    pub fn behind(&mut self, lead: Option<SiteKind>, place: Place) -> Made<Option<u32>>
        ensures { TypingTakes (spec.behind lead place self.old) result self.new }
    {
        match lead {
            None => Ok(None),
            Some(kind) => Ok(Some(self.site(kind, place)?)),
        }
    }

    /// The operation of an operator behind a left operand (6.7.2): that of sets, which has no site, behind a set, and
    /// else one with its site.
    #[tactic(auto, unfolding(crate::specs::Expressions::operation_or))]
    pub fn operation_behind(
        &mut self,
        operator: Operator,
        place: Place,
        left: Typed,
    ) -> Made<Dyadic>
        ensures { TypingTakes (spec.operation_behind operator place left self.old) result self.new }
    {
        match set_operation_behind(operator, left.value) {
            Some(operation) => Ok(operation),
            None => self.operation(operator, place),
        }
    }

    /// The operation of an operator, with its site (6.7.2).
    #[tactic(auto, unfolding(crate::specs::Expressions::operation, crate::specs::Expressions::tested))]
    fn operation(&mut self, operator: Operator, place: Place) -> Made<Dyadic>
        ensures { TypingTakes (spec.operation operator place self.old) result self.new }
    {
        Ok(match operator {
            Operator::Plus => Dyadic::Plus {
                overflow: self.site(SiteKind::Overflow, place)?,
            },
            Operator::Minus => Dyadic::Minus {
                overflow: self.site(SiteKind::Overflow, place)?,
            },
            Operator::Times => Dyadic::Times {
                overflow: self.site(SiteKind::Overflow, place)?,
            },
            Operator::Div => Dyadic::Div {
                by_zero: self.site(SiteKind::DivisionByZero, place)?,
            },
            Operator::Mod => Dyadic::Mod {
                by_zero_or_less: self.site(SiteKind::ModByZeroOrLess, place)?,
            },
            Operator::And => Dyadic::And,
            Operator::Or => Dyadic::Or,
        })
    }
}
