ghost use Rattle.reading.specs.Reading.{separated};
ghost use Rattle.reading.specs.Statements as spec;
ghost use Rattle.reading.specs.Trees.{expr_outline, record_outline, stmt_outline};
ghost use Rattle.token_cursor.specs.Cursor.{Makes};
ghost use Rattle.token_cursor.specs.Rows.{MakesRows};
ghost use Rattle.parser.specs.Built.{alternative_outline, body_outline, case_outlines, compound_outlines};
ghost use Rattle.parser.specs.Built.{control_lexeme, initial_outline, records_outlines, statements_outlines};

use crate::beside::{beside, made_beside};
use crate::constants::row;
use crate::lists::behind_arm;
use expression_parser::expression::{actuals, expression, selectors};
use lexer::token::{Kind, Symbol, Word};
use place::Place;
use reading::refusal::Refusal;
use syntax_tree::{Constant, Direction, Expr, Name, RecordVariable, Stmt};
use token_cursor::{Cursor, Read, boxed, inside, put};

/// The statements of a compound statement (6.8.3.2), and its `end`. Below it `levels` levels are
/// left.
/// `compound-statement = "begin" statements "end" .`
#[cycle(statement)]
#[tactic(auto, unfolding(reading::specs::Statements::compound))]
pub(crate) fn compound<'a>(cursor: &mut Cursor<'_, 'a>, levels: u32) -> Read<(Vec<Stmt<'a>>, Place)>
    ensures { Makes compound_outlines (spec.compound (spec.statement levels) cursor.old.rest.now) result cursor.new }
{
    cursor.expect_word(Word::Begin)?;
    let statements = statements(cursor, levels)?;
    let end = made_beside!(cursor.expect_word(Word::End), statements);
    Ok((statements, end))
}

/// `statements = statement { ";" statement } .`
#[cycle(statement)]
fn statements<'a>(cursor: &mut Cursor<'_, 'a>, levels: u32) -> Read<Vec<Stmt<'a>>>
    ensures { Makes statements_outlines (separated Symbol.Semicolon (spec.statement levels) cursor.old.rest.now) result
        cursor.new }
{
    let mut statements = Vec::new(cursor.alloc);
    loop {
        put(&mut statements, statement(cursor, levels))?;
        let Some(_) = cursor.take_symbol(Symbol::Semicolon) else {
            return Ok(statements);
        };
    }
}

/// A statement in something below which `levels` levels are left (6.8).
/// `statement = [ simple | compound-statement | if | while | repeat | for | case | with ] .`
#[cycle(statement)]
#[tactic(auto, using(crate::proofs::Built::built_statements))]
fn statement<'a>(cursor: &mut Cursor<'_, 'a>, levels: u32) -> Read<Stmt<'a>>
    ensures { Makes stmt_outline (spec.statement levels cursor.old.rest.now) result cursor.new }
{
    let levels = inside(levels, cursor.place())?;
    match cursor.peek() {
        Some(Kind::Identifier) => simple(cursor, levels),
        Some(Kind::Word(Word::Begin)) => {
            let (statements, _) = compound(cursor, levels)?;
            Ok(Stmt::Compound { statements })
        }
        Some(Kind::Word(Word::If)) => conditional(cursor, levels),
        Some(Kind::Word(Word::While)) => while_loop(cursor, levels),
        Some(Kind::Word(Word::Repeat)) => repeat_loop(cursor, levels),
        Some(Kind::Word(Word::For)) => for_loop(cursor, levels),
        Some(Kind::Word(Word::Case)) => case_of(cursor, levels),
        Some(Kind::Word(Word::With)) => with_fields(cursor, levels),
        _ => Ok(Stmt::Empty),
    }
}

/// An assignment (6.8.2.2) or the call of a procedure (6.8.2.3), below which `levels` levels are
/// left.
/// `simple = identifier ( selectors ":=" expression | actual-parameters ) .`
#[tactic(auto, using(crate::proofs::Built::built_statements), unfolding(reading::specs::Statements::simple))]
fn simple<'a>(cursor: &mut Cursor<'_, 'a>, levels: u32) -> Read<Stmt<'a>>
    ensures { Makes stmt_outline (spec.simple levels cursor.old.rest.now) result cursor.new }
{
    let name = cursor.expect_name()?;
    let (selectors, indexes) = selectors(cursor, levels)?;
    if let Some(becomes) = cursor.take_symbol(Symbol::Becomes) {
        let value = expression(cursor, levels)?;
        return Ok(Stmt::Assign {
            name,
            selectors,
            indexes,
            becomes,
            value,
        });
    }
    if !selectors.is_empty() {
        return Err(Refusal::NoProgram);
    }
    let actuals = actuals(cursor, levels)?;
    Ok(Stmt::Call { name, actuals })
}

/// An if statement (6.8.3.4), below which `levels` levels are left.
/// `if = "if" expression "then" body alternative .`
#[cycle(statement)]
#[tactic(auto, using(crate::proofs::Built::built_statements), unfolding(reading::specs::Statements::conditional))]
fn conditional<'a>(cursor: &mut Cursor<'_, 'a>, levels: u32) -> Read<Stmt<'a>>
    ensures { Makes stmt_outline (spec.conditional levels (spec.statement levels) cursor.old.rest.now)
        result cursor.new }
{
    let place = cursor.expect_word(Word::If)?;
    let condition = guard(cursor, levels, Word::Then)?;
    let consequence = made_beside!(body(cursor, levels), condition);
    let alternative = made_beside!(alternative(cursor, levels), condition, consequence);
    Ok(Stmt::If {
        place,
        condition,
        consequence,
        alternative,
    })
}

/// The `else` that comes next and its statement: it belongs to the nearest `if`.
/// `alternative = [ "else" body ] .`
#[cycle(statement)]
#[tactic(auto, unfolding(reading::specs::Statements::alternative))]
fn alternative<'a>(cursor: &mut Cursor<'_, 'a>, levels: u32) -> Read<Option<Box<Stmt<'a>>>>
    ensures { Makes alternative_outline (spec.alternative levels (spec.statement levels) cursor.old.rest.now) result
        cursor.new }
{
    let Some(_) = cursor.take_word(Word::Else) else {
        return Ok(None);
    };
    body(cursor, levels).map(Some)
}

/// A while statement (6.8.3.8), below which `levels` levels are left.
/// `while = "while" expression "do" body .`
#[cycle(statement)]
#[tactic(auto, using(crate::proofs::Built::built_statements), unfolding(reading::specs::Statements::while_loop))]
fn while_loop<'a>(cursor: &mut Cursor<'_, 'a>, levels: u32) -> Read<Stmt<'a>>
    ensures { Makes stmt_outline (spec.while_loop levels (spec.statement levels) cursor.old.rest.now)
        result cursor.new }
{
    let place = cursor.expect_word(Word::While)?;
    let condition = guard(cursor, levels, Word::Do)?;
    let body = made_beside!(body(cursor, levels), condition);
    Ok(Stmt::While {
        place,
        condition,
        body,
    })
}

/// A repeat statement (6.8.3.7), below which `levels` levels are left.
/// `repeat = "repeat" statements "until" expression .`
#[cycle(statement)]
#[tactic(auto, using(crate::proofs::Built::built_statements), unfolding(reading::specs::Statements::repeat_loop))]
fn repeat_loop<'a>(cursor: &mut Cursor<'_, 'a>, levels: u32) -> Read<Stmt<'a>>
    ensures { Makes stmt_outline (spec.repeat_loop levels (spec.statement levels) cursor.old.rest.now)
        result cursor.new }
{
    let place = cursor.expect_word(Word::Repeat)?;
    let statements = statements(cursor, levels);
    let statements = cursor.followed_by(statements, Kind::Word(Word::Until))?;
    let condition = expression(cursor, levels)?;
    Ok(Stmt::Repeat {
        place,
        statements,
        condition,
    })
}

/// A for statement (6.8.3.9), below which `levels` levels are left.
/// `for = control initial expression "do" body .`
#[cycle(statement)]
#[tactic(auto, using(crate::proofs::Built::built_statements), unfolding(reading::specs::Statements::for_loop))]
fn for_loop<'a>(cursor: &mut Cursor<'_, 'a>, levels: u32) -> Read<Stmt<'a>>
    ensures { Makes stmt_outline (spec.for_loop levels (spec.statement levels) cursor.old.rest.now) result cursor.new }
{
    let (place, variable) = control(cursor)?;
    let (first, direction) = initial(cursor, levels)?;
    let last = made_beside!(guard(cursor, levels, Word::Do), first);
    let body = made_beside!(body(cursor, levels), first, last);
    Ok(Stmt::For {
        place,
        variable,
        first,
        direction,
        last,
        body,
    })
}

/// The place of a for statement, and its control variable.
/// `control = "for" identifier ":=" .`
#[tactic(auto, unfolding(reading::specs::Statements::control))]
fn control<'a>(cursor: &mut Cursor<'_, 'a>) -> Read<(Place, Name<'a>)>
    ensures { Makes control_lexeme (spec.control cursor.old.rest.now) result cursor.new }
{
    let place = cursor.expect_word(Word::For)?;
    let variable = cursor.expect_name();
    let variable = cursor.followed_by(variable, Kind::Symbol(Symbol::Becomes))?;
    Ok((place, variable))
}

/// The first bound of a for statement, and its direction.
/// `initial = expression ( "to" | "downto" ) .`
#[tactic(auto, unfolding(reading::specs::Statements::initial))]
fn initial<'a>(cursor: &mut Cursor<'_, 'a>, levels: u32) -> Read<(Expr<'a>, Direction)>
    ensures { Makes initial_outline (spec.initial levels cursor.old.rest.now) result cursor.new }
{
    let first = expression(cursor, levels)?;
    beside(first, cursor.expect_direction())
}

/// A case statement (6.8.3.5), below which `levels` levels are left.
/// `case = "case" expression "of" arms .`
#[cycle(statement)]
#[tactic(auto, using(crate::proofs::Built::built_statements), unfolding(reading::specs::Statements::case_of))]
fn case_of<'a>(cursor: &mut Cursor<'_, 'a>, levels: u32) -> Read<Stmt<'a>>
    ensures { Makes stmt_outline (spec.case_of levels (spec.statement levels) cursor.old.rest.now) result cursor.new }
{
    let place = cursor.expect_word(Word::Case)?;
    let index = guard(cursor, levels, Word::Of)?;
    let (constants, arms, semicolon) = made_beside!(arms(cursor, levels), index);
    Ok(Stmt::Case {
        place,
        index,
        constants,
        arms,
        semicolon,
    })
}

/// The rows of constants of a case, the arm behind each, and whether a semicolon stands before the
/// `end`.
/// `arms = case-constants statement { ";" case-constants statement } [ ";" ] "end" .`
#[cycle(statement)]
fn arms<'a>(
    cursor: &mut Cursor<'_, 'a>,
    levels: u32,
) -> Read<(Vec<Vec<Constant<'a>>>, Vec<Stmt<'a>>, bool)>
    ensures { MakesRows case_outlines (spec.parts_to_end (spec.arm levels (spec.statement levels)) cursor.old.rest.now)
        result cursor.new }
{
    let mut constants = Vec::new(cursor.alloc);
    let mut arms = Vec::new(cursor.alloc);
    loop {
        put(&mut constants, row(cursor))?;
        put(&mut arms, statement(cursor, levels))?;
        if let Some(semicolon) = behind_arm(cursor)? {
            return Ok((constants, arms, semicolon));
        }
    }
}

/// A with statement (6.8.3.10), below which `levels` levels are left.
/// `with = "with" records "do" body .`
#[cycle(statement)]
#[tactic(auto, using(crate::proofs::Built::built_statements), unfolding(reading::specs::Statements::with_fields))]
fn with_fields<'a>(cursor: &mut Cursor<'_, 'a>, levels: u32) -> Read<Stmt<'a>>
    ensures { Makes stmt_outline (spec.with_fields levels (spec.statement levels) cursor.old.rest.now)
        result cursor.new }
{
    let place = cursor.expect_word(Word::With)?;
    let records = records(cursor, levels);
    let records = cursor.followed_by(records, Kind::Word(Word::Do))?;
    let body = body(cursor, levels)?;
    Ok(Stmt::With {
        place,
        records,
        body,
    })
}

/// The variables of records behind `with`.
/// `records = record-variable { "," record-variable } .`
fn records<'a>(cursor: &mut Cursor<'_, 'a>, levels: u32) -> Read<Vec<RecordVariable<'a>>>
    ensures { Makes records_outlines (separated Symbol.Comma (spec.record_variable levels) cursor.old.rest.now) result
        cursor.new }
{
    // Most have one.
    let mut records = Vec::with_capacity(cursor.alloc, 1)?;
    loop {
        put(&mut records, record_variable(cursor, levels))?;
        let Some(_) = cursor.take_symbol(Symbol::Comma) else {
            return Ok(records);
        };
    }
}

/// A variable of a record: a name and its selectors.
/// `record-variable = identifier selectors .`
#[tactic(auto, unfolding(reading::specs::Statements::record_variable))]
fn record_variable<'a>(cursor: &mut Cursor<'_, 'a>, levels: u32) -> Read<RecordVariable<'a>>
    ensures { Makes record_outline (spec.record_variable levels cursor.old.rest.now) result cursor.new }
{
    let name = cursor.expect_name()?;
    let (selectors, indexes) = selectors(cursor, levels)?;
    Ok(RecordVariable {
        name,
        selectors,
        indexes,
    })
}

/// A statement that is part of another one, below which `levels` levels are left.
/// `body = statement .`
#[cycle(statement)]
fn body<'a>(cursor: &mut Cursor<'_, 'a>, levels: u32) -> Read<Box<Stmt<'a>>>
    ensures { Makes body_outline (spec.statement levels cursor.old.rest.now) result cursor.new }
{
    boxed(cursor.alloc, statement(cursor, levels))
}

/// An expression and the word symbol behind it.
/// `guard = expression word .`
#[tactic(auto, unfolding(reading::specs::Statements::guard))]
fn guard<'a>(cursor: &mut Cursor<'_, 'a>, levels: u32, word: Word) -> Read<Expr<'a>>
    ensures { Makes expr_outline (spec.guard levels word cursor.old.rest.now) result cursor.new }
{
    let expression = expression(cursor, levels);
    cursor.followed_by(expression, Kind::Word(word))
}
