ghost use Rattle.std.specs.Prelude.{◌≡◌};
ghost use Rattle.reading.specs.Outline.{operator_level};
ghost use Rattle.reading.specs.Reading.{operator_in, relational_in};
ghost use Rattle.token_cursor.specs.Level.{level_number};

use lexer::token::{Kind, Symbol, Word};
use place::Place;
use syntax_tree::{Operator, RelationalOperator};

/// The operators of one precedence in a chain (6.7.2.1).
#[derive(Clone, Copy, PartialEq, Eq)]
pub enum Level {
    Sum,
    Product,
}

/// The operator of a chain that a token of this kind is, if it is one.
pub fn operator_of(kind: Kind) -> Option<Operator>
    ensures { result ≡ operator_in kind }
{
    match kind {
        Kind::Symbol(Symbol::Plus) => Some(Operator::Plus),
        Kind::Symbol(Symbol::Minus) => Some(Operator::Minus),
        Kind::Word(Word::Or) => Some(Operator::Or),
        Kind::Symbol(Symbol::Times) => Some(Operator::Times),
        Kind::Word(Word::Div) => Some(Operator::Div),
        Kind::Word(Word::Mod) => Some(Operator::Mod),
        Kind::Word(Word::And) => Some(Operator::And),
        _ => None,
    }
}

/// The level of an operator.
pub fn level_of(operator: Operator) -> Level
    ensures { level_number result ≡ operator_level operator }
{
    match operator {
        Operator::Plus | Operator::Minus | Operator::Or => Level::Sum,
        Operator::Times | Operator::Div | Operator::Mod | Operator::And => Level::Product,
    }
}

/// The relational operator that a token of this kind at a place is, if it is one, with its place.
pub fn relational_at(kind: Kind, place: Place) -> Option<(RelationalOperator, Place)>
    ensures { result ≡ relational_in kind place }
{
    let operator = match kind {
        Kind::Symbol(Symbol::Equal) => RelationalOperator::Equal,
        Kind::Symbol(Symbol::NotEqual) => RelationalOperator::NotEqual,
        Kind::Symbol(Symbol::Less) => RelationalOperator::Less,
        Kind::Symbol(Symbol::Greater) => RelationalOperator::Greater,
        Kind::Symbol(Symbol::LessOrEqual) => RelationalOperator::LessOrEqual,
        Kind::Symbol(Symbol::GreaterOrEqual) => RelationalOperator::GreaterOrEqual,
        Kind::Word(Word::In) => RelationalOperator::In,
        _ => return None,
    };
    Some((operator, place))
}
