ghost use Rattle.std.specs.Prelude.{◌≡◌};
ghost use Rattle.reading.specs.Expressions as spec;
ghost use Rattle.reading.specs.Expressions.{expression_below, factor_below};
ghost use Rattle.reading.specs.Reading.{separated};
ghost use Rattle.reading.specs.Trees.{actual_outline, expr_outline};
ghost use Rattle.token_cursor.specs.Cursor.{Makes};
ghost use Rattle.expression_parser.specs.Built.{actuals_outlines, links_turns, selectors_outlines};
ghost use Rattle.expression_parser.specs.Levels.{chain_of};
ghost use Rattle.expression_parser.specs.Levels as level_spec;
ghost use Rattle.expression_parser.specs.Members.{MakesMember, MakesMembers};
ghost use Rattle.expression_parser.specs.Selecting.{is_index, Selects, SelectsIndex};

use crate::build;
use lexer::token::{Kind, Symbol, Word};
use place::Place;
use syntax_tree::{Actual, Designator, Expr, Link, Selector};
use token_cursor::operator::Level;
use token_cursor::{Cursor, Read, inside, put};

/// An expression (6.7.1), below which `levels` levels are left.
/// `expression = simple-expression [ relational-operator simple-expression ] .`
#[cycle(expression)]
#[tactic(auto, unfolding(reading::specs::Expressions::relation_of))]
pub fn expression<'a>(cursor: &mut Cursor<'_, 'a>, levels: u32) -> Read<Expr<'a>>
    ensures { Makes expr_outline (spec.expression levels cursor.old.rest.now) result cursor.new }
{
    let left = chain(cursor, levels, Level::Sum)?;
    let Some((operator, place)) = cursor.take_relational() else {
        return Ok(left);
    };
    let right = chain(cursor, levels, Level::Sum);
    build::relation(cursor.alloc, left, operator, place, right)
}

/// A simple expression or a term, by the level of its operators (6.7.1).
/// `simple-expression, term = first-operand { operator operand } .`
#[cycle(expression)]
#[tactic(auto, unfolding(reading::specs::Expressions::chain))]
fn chain<'a>(cursor: &mut Cursor<'_, 'a>, levels: u32, level: Level) -> Read<Expr<'a>>
    ensures { Makes expr_outline (chain_of level levels cursor.old.rest.now) result cursor.new }
{
    let first = first_operand(cursor, levels, level)?;
    match links(cursor, levels, level) {
        Ok(rest) => build::chain(cursor.alloc, first, rest),
        Err(refusal) => {
            drop(first);
            Err(refusal)
        }
    }
}

/// The first operand of a chain of this level.
/// `first-operand = signed | factor .`
#[cycle(expression)]
fn first_operand<'a>(cursor: &mut Cursor<'_, 'a>, levels: u32, level: Level) -> Read<Expr<'a>>
    ensures { Makes expr_outline (level_spec.first_operand level levels cursor.old.rest.now) result cursor.new }
{
    match level {
        Level::Sum => signed(cursor, levels),
        Level::Product => factor(cursor, levels),
    }
}

/// The operand behind an operator of this level.
/// `operand = term | factor .`
#[cycle(expression)]
fn operand<'a>(cursor: &mut Cursor<'_, 'a>, levels: u32, level: Level) -> Read<Expr<'a>>
    ensures { Makes expr_outline (level_spec.operand level levels cursor.old.rest.now) result cursor.new }
{
    match level {
        Level::Sum => chain(cursor, levels, Level::Product),
        Level::Product => factor(cursor, levels),
    }
}

/// The operators of this level that come next, each with the operand behind it.
/// `links = { operator operand } .`
#[cycle(expression)]
fn links<'a>(cursor: &mut Cursor<'_, 'a>, levels: u32, level: Level) -> Read<Vec<Link<'a>>>
    ensures { Makes links_turns (level_spec.links level levels cursor.old.rest.now) result cursor.new }
{
    let mut links = Vec::new(cursor.alloc);
    while let Some((operator, place)) = cursor.take_operator(level) {
        let operand = operand(cursor, levels, level)?;
        links.push(Link {
            operator,
            place,
            operand,
        })?;
    }
    Ok(links)
}

/// `signed = [ sign ] term .`
#[cycle(expression)]
#[tactic(auto, unfolding(reading::specs::Expressions::signed))]
fn signed<'a>(cursor: &mut Cursor<'_, 'a>, levels: u32) -> Read<Expr<'a>>
    ensures { Makes expr_outline (spec.signed (spec.term levels) cursor.old.rest.now) result cursor.new }
{
    let Some((sign, place)) = cursor.take_sign() else {
        return chain(cursor, levels, Level::Product);
    };
    let term = chain(cursor, levels, Level::Product);
    build::signed(cursor.alloc, sign, place, term)
}

/// `factor = unsigned-integer | character-string | named | "not" negated | "[" set | parenthesized .`
#[cycle(expression)]
#[tactic(auto, using(crate::proofs::Built::built_expressions), unfolding(reading::specs::Expressions::any_factor))]
fn factor<'a>(cursor: &mut Cursor<'_, 'a>, levels: u32) -> Read<Expr<'a>>
    ensures { Makes expr_outline (spec.factor levels cursor.old.rest.now) result cursor.new }
{
    if let Some((value, place)) = cursor.take_number() {
        return Ok(Expr::Number { value, place });
    }
    if let Some((text, place)) = cursor.take_string() {
        return Ok(Expr::String { text, place });
    }
    if let Some(Kind::Identifier) = cursor.peek() {
        return named(cursor, levels);
    }
    if let Some(place) = cursor.take_word(Word::Not) {
        return negated(cursor, levels, place);
    }
    match cursor.take_symbol(Symbol::OpenBracket) {
        Some(open) => set(cursor, levels, open),
        None => parenthesized(cursor, levels),
    }
}

/// The operand of a `not` at a place, which is a level of its own.
/// `negated = factor .`
#[cycle(expression)]
#[tactic(auto, unfolding(reading::specs::Expressions::negated))]
fn negated<'a>(cursor: &mut Cursor<'_, 'a>, levels: u32, place: Place) -> Read<Expr<'a>>
    ensures { Makes expr_outline (spec.negated (expression_below levels) (factor_below levels) place
        cursor.old.rest.now) result cursor.new }
{
    let levels = inside(levels, cursor.place())?;
    let operand = factor(cursor, levels);
    build::negated(cursor.alloc, place, operand)
}

/// A variable, a constant or the call of a function (6.5.1, 6.3, 6.7.3).
/// `named = identifier ( selectors | actual-parameters ) .`
#[cycle(expression)]
#[tactic(auto, using(crate::proofs::Built::built_expressions), unfolding(reading::specs::Expressions::named))]
fn named<'a>(cursor: &mut Cursor<'_, 'a>, levels: u32) -> Read<Expr<'a>>
    ensures { Makes expr_outline (spec.named (expression_below levels) cursor.old.rest.now) result cursor.new }
{
    let name = cursor.expect_name()?;
    let (selectors, indexes) = selectors(cursor, levels)?;
    if !selectors.is_empty() {
        return Ok(Expr::Component {
            name,
            selectors,
            indexes,
        });
    }
    drop(selectors);
    drop(indexes);
    let actuals = actuals(cursor, levels)?;
    if actuals.is_empty() {
        return Ok(Expr::Name(name));
    }
    Ok(Expr::Call { name, actuals })
}

/// The selectors of a variable (6.5.3), and the index expressions of those that are an index.
/// `selectors = { "[" index { "," index } "]" | "." identifier } .`
#[cycle(expression)]
pub fn selectors<'a>(
    cursor: &mut Cursor<'_, 'a>,
    levels: u32,
) -> Read<(Vec<Selector<'a>>, Vec<Expr<'a>>)>
    ensures { Makes selectors_outlines (spec.selectors (expression_below levels) cursor.old.rest.now)
        result cursor.new }
{
    let mut selectors = Vec::new(cursor.alloc);
    let mut indexes = Vec::new(cursor.alloc);
    let mut within = false;
    while let Some(selector) = selector(cursor, levels, within, &mut indexes)? {
        within = is_index(&selector);
        selectors.push(selector)?;
    }
    Ok((selectors, indexes))
}

/// The selector that comes next, if one does, by whether the brackets of an index are open. Its index expression is put
/// behind the others.
/// `selector = "," index | [ "]" ] unjoined .`
#[cycle(expression)]
fn selector<'a>(
    cursor: &mut Cursor<'_, 'a>,
    levels: u32,
    within: bool,
    indexes: &mut Vec<Expr<'a>>,
) -> Read<Option<Selector<'a>>>
    ensures { Selects within (spec.selector (expression_below levels) within cursor.old.rest.now) result cursor.new
        indexes.old.items indexes.new.items }
{
    if !within {
        return unjoined(cursor, levels, within, indexes);
    }
    if let Some(place) = cursor.take_symbol(Symbol::Comma) {
        return index_selector(cursor, levels, place, true, indexes);
    }
    cursor.expect_symbol(Symbol::CloseBracket)?;
    unjoined(cursor, levels, within, indexes)
}

/// The selector that comes next, if one does, where no index goes on in open brackets.
/// `unjoined = [ "[" index | "." identifier ] .`
#[cycle(expression)]
#[tactic(auto, unfolding(reading::specs::Expressions::unjoined))]
fn unjoined<'a>(
    cursor: &mut Cursor<'_, 'a>,
    levels: u32,
    within: bool,
    indexes: &mut Vec<Expr<'a>>,
) -> Read<Option<Selector<'a>>>
    ensures { Selects within (spec.unjoined (expression_below levels) within cursor.old.rest.now) result cursor.new
        indexes.old.items indexes.new.items }
{
    if let Some(place) = cursor.take_symbol(Symbol::OpenBracket) {
        return index_selector(cursor, levels, place, false, indexes);
    }
    let Some(_) = cursor.take_symbol(Symbol::Period) else {
        return Ok(None);
    };
    let name = cursor.expect_name()?;
    Ok(Some(Selector::Field(name)))
}

/// A selector that is an index: where it begins and whether it is joined to the index before it, and its index
/// expression, which is put behind the others.
/// `index-selector = index .`
#[cycle(expression)]
fn index_selector<'a>(
    cursor: &mut Cursor<'_, 'a>,
    levels: u32,
    place: Place,
    joined: bool,
    indexes: &mut Vec<Expr<'a>>,
) -> Read<Option<Selector<'a>>>
    ensures { SelectsIndex (spec.index (expression_below levels) cursor.old.rest.now) place joined result cursor.new
        indexes.old.items indexes.new.items }
{
    put(indexes, index(cursor, levels))?;
    Ok(Some(Selector::Index { place, joined }))
}

/// An index expression, which is a level of its own.
/// `index = below .`
#[cycle(expression)]
#[tactic(auto, unfolding(reading::specs::Expressions::index))]
fn index<'a>(cursor: &mut Cursor<'_, 'a>, levels: u32) -> Read<Expr<'a>>
    ensures { Makes expr_outline (spec.index (expression_below levels) cursor.old.rest.now) result cursor.new }
{
    let place = cursor.place();
    below(cursor, levels, place)
}

/// An expression that is a level of its own, which begins at a place.
/// `below = expression .`
#[cycle(expression)]
fn below<'a>(cursor: &mut Cursor<'_, 'a>, levels: u32, place: Option<Place>) -> Read<Expr<'a>>
    ensures { Makes expr_outline (expression_below levels place cursor.old.rest.now) result cursor.new }
{
    let levels = inside(levels, place)?;
    expression(cursor, levels)
}

/// `parenthesized = "(" below ")" .`
#[cycle(expression)]
#[tactic(auto, unfolding(reading::specs::Expressions::parenthesized))]
fn parenthesized<'a>(cursor: &mut Cursor<'_, 'a>, levels: u32) -> Read<Expr<'a>>
    ensures { Makes expr_outline (spec.parenthesized (expression_below levels) cursor.old.rest.now) result cursor.new }
{
    let open = cursor.expect_symbol(Symbol::OpenParenthesis)?;
    let inner = below(cursor, levels, Some(open));
    let inner = cursor.followed_by(inner, Kind::Symbol(Symbol::CloseParenthesis));
    build::parenthesized(cursor.alloc, open, inner)
}

/// A set constructor (6.7.1) behind its opening bracket.
/// `set = members .`
#[cycle(expression)]
#[tactic(auto, using(crate::proofs::Built::built_set), unfolding(reading::specs::Expressions::set))]
fn set<'a>(cursor: &mut Cursor<'_, 'a>, levels: u32, open: Place) -> Read<Expr<'a>>
    ensures { Makes expr_outline (spec.set (expression_below levels) «open» cursor.old.rest.now) result cursor.new }
{
    let (designators, members) = members(cursor, levels)?;
    Ok(Expr::Set {
        open,
        designators,
        members,
    })
}

/// The designators and the values of a set's members, and its closing bracket.
/// `members = [ member-list ] "]" .`
#[cycle(expression)]
#[tactic(auto, unfolding(reading::specs::Expressions::members))]
fn members<'a>(cursor: &mut Cursor<'_, 'a>, levels: u32) -> Read<(Vec<Designator>, Vec<Expr<'a>>)>
    ensures { MakesMembers (spec.members (expression_below levels) cursor.old.rest.now) result cursor.new }
{
    if let Some(_) = cursor.take_symbol(Symbol::CloseBracket) {
        return Ok((Vec::new(cursor.alloc), Vec::new(cursor.alloc)));
    }
    let found = member_list(cursor, levels)?;
    match cursor.expect_symbol(Symbol::CloseBracket) {
        Ok(_) => Ok(found),
        Err(refusal) => {
            drop(found);
            Err(refusal)
        }
    }
}

/// `member-list = member { "," member } .`
#[cycle(expression)]
fn member_list<'a>(
    cursor: &mut Cursor<'_, 'a>,
    levels: u32,
) -> Read<(Vec<Designator>, Vec<Expr<'a>>)>
    ensures { MakesMembers (separated Symbol.Comma (spec.member (expression_below levels)) cursor.old.rest.now)
        result cursor.new }
{
    let mut designators = Vec::new(cursor.alloc);
    let mut members = Vec::new(cursor.alloc);
    loop {
        put(&mut designators, member(cursor, levels, &mut members))?;
        let Some(_) = cursor.take_symbol(Symbol::Comma) else {
            return Ok((designators, members));
        };
    }
}

/// The designator of a set's member, whose values are put behind the others.
/// `member = index [ ".." index ] .`
#[cycle(expression)]
#[tactic(auto, unfolding(reading::specs::Expressions::member))]
fn member<'a>(
    cursor: &mut Cursor<'_, 'a>,
    levels: u32,
    members: &mut Vec<Expr<'a>>,
) -> Read<Designator>
    ensures { MakesMember (spec.member (expression_below levels) cursor.old.rest.now) result cursor.new
        members.old.items members.new.items }
{
    put(members, index(cursor, levels))?;
    let Some(_) = cursor.take_symbol(Symbol::Range) else {
        return Ok(Designator::Single);
    };
    put(members, index(cursor, levels))?;
    Ok(Designator::Range)
}

/// The actual parameters of a call (6.7.3).
/// `actual-parameters = [ "(" actual-list ")" ] .`
#[cycle(expression)]
#[tactic(auto, unfolding(reading::specs::Expressions::actuals))]
pub fn actuals<'a>(cursor: &mut Cursor<'_, 'a>, levels: u32) -> Read<Vec<Actual<'a>>>
    ensures { Makes actuals_outlines (spec.actuals (expression_below levels) cursor.old.rest.now) result cursor.new }
{
    let Some(_) = cursor.take_symbol(Symbol::OpenParenthesis) else {
        return Ok(Vec::new(cursor.alloc));
    };
    let actuals = actual_list(cursor, levels);
    cursor.followed_by(actuals, Kind::Symbol(Symbol::CloseParenthesis))
}

/// `actual-list = actual { "," actual } .`
#[cycle(expression)]
fn actual_list<'a>(cursor: &mut Cursor<'_, 'a>, levels: u32) -> Read<Vec<Actual<'a>>>
    ensures { Makes actuals_outlines (separated Symbol.Comma (spec.actual (expression_below levels))
        cursor.old.rest.now) result cursor.new }
{
    // Most lists have one parameter.
    let mut actuals = Vec::with_capacity(cursor.alloc, 1)?;
    loop {
        put(&mut actuals, actual(cursor, levels))?;
        let Some(_) = cursor.take_symbol(Symbol::Comma) else {
            return Ok(actuals);
        };
    }
}

/// `actual = index [ ":" index ] .`
#[cycle(expression)]
#[tactic(auto, unfolding(reading::specs::Expressions::actual))]
fn actual<'a>(cursor: &mut Cursor<'_, 'a>, levels: u32) -> Read<Actual<'a>>
    ensures { Makes actual_outline (spec.actual (expression_below levels) cursor.old.rest.now) result cursor.new }
{
    let value = index(cursor, levels)?;
    let Some(_) = cursor.take_symbol(Symbol::Colon) else {
        return Ok(Actual { value, width: None });
    };
    match index(cursor, levels) {
        Ok(width) => Ok(Actual {
            value,
            width: Some(width),
        }),
        Err(refusal) => {
            drop(value);
            Err(refusal)
        }
    }
}

/// Whether a selector is an index, behind which its brackets are open.
fn is_index(selector: &Selector<'_>) -> bool
    ensures { result ≡ is_index selector.now }
{
    matches!(selector, Selector::Index { .. })
}
