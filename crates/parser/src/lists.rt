ghost use Rattle.std.specs.Prelude.{◌≡◌, ℕ, map};
ghost use Rattle.reading.specs.Outline.{Outline};
ghost use Rattle.reading.specs.Reading as spec;
ghost use Rattle.reading.specs.Reading.{Reading, is_kind, next_kind};
ghost use Rattle.reading.specs.Declarations as declarations;
ghost use Rattle.parser.specs.Lists.{LeavesNoMore, LeavesFewer, enclosed, in_parentheses};
ghost use Rattle.reading.specs.Statements as statements;
ghost use Rattle.token_cursor.specs.Cursor.{Makes};

use lexer::token::{Kind, Symbol, Word};
use token_cursor::{Cursor, Read, put};

/// What stands in a list with a symbol between each two.
pub(crate) trait Part<'a>: Drop {
    /// How it looks.
    ghost look: { Self → Outline };

    /// The rule by which it is read.
    ghost rule: { Reading Outline };

    fn read(cursor: &mut Cursor<'_, 'a>) -> Read<Self>
        ensures { Makes look (rule cursor.old.rest.now) result cursor.new };
}

/// What stands in a part of a block behind the word symbol that begins the part: it begins with a name.
pub(crate) trait Item<'a>: Drop {
    /// How it looks.
    ghost look: { Self → Outline };

    /// The rule by which it is read, in a block below which so many levels are left.
    ghost rule: { ℕ → Reading Outline };

    fn read(cursor: &mut Cursor<'_, 'a>, levels: u32) -> Read<Self>
        ensures { Makes look (rule levels cursor.old.rest.now) result cursor.new };
}

/// One part or more, with a symbol between each two.
/// `separated = part { symbol part } .`
fn separated<'a, P: Part<'a>>(cursor: &mut Cursor<'_, 'a>, symbol: Symbol) -> Read<Vec<P>>
    requires { LeavesNoMore P.rule }
    ensures { Makes (λ found. map P.look found.items) (spec.separated symbol P.rule cursor.old.rest.now)
        result cursor.new }
{
    // Most lists have one part.
    let mut found = Vec::with_capacity(cursor.alloc, 1)?;
    loop {
        put(&mut found, P::read(cursor))?;
        let Some(_) = cursor.take_symbol(symbol) else {
            return Ok(found);
        };
    }
}

/// One part or more, with a symbol between each two, and the symbol that ends them.
/// `enclosed = separated end .`
#[tactic(auto, using(token_cursor::proofs::Keeping::followed_makes))]
pub(crate) fn enclosed<'a, P: Part<'a>>(
    cursor: &mut Cursor<'_, 'a>,
    symbol: Symbol,
    end: Symbol,
) -> Read<Vec<P>>
    requires { LeavesNoMore P.rule }
    ensures { Makes (λ found. map P.look found.items) (enclosed symbol end P.rule cursor.old.rest.now)
        result cursor.new }
{
    let found = separated(cursor, symbol);
    cursor.followed_by(found, Kind::Symbol(end))
}

/// Parts in parentheses, with a symbol between each two, or none where no parentheses come.
/// `in-parentheses = [ "(" separated ")" ] .`
pub(crate) fn in_parentheses<'a, P: Part<'a>>(
    cursor: &mut Cursor<'_, 'a>,
    symbol: Symbol,
) -> Read<Vec<P>>
    requires { LeavesNoMore P.rule }
    ensures { Makes (λ found. map P.look found.items) (in_parentheses symbol P.rule cursor.old.rest.now)
        result cursor.new }
{
    match cursor.take_symbol(Symbol::OpenParenthesis) {
        Some(_) => enclosed(cursor, symbol, Symbol::CloseParenthesis),
        None => Ok(Vec::new(cursor.alloc)),
    }
}

/// A part of a block (6.2.1), which may be left out: the word symbol that begins it, and one item or more, in a block
/// below which `levels` levels are left.
/// `block-part = [ word item { item } ] .`
pub(crate) fn block_part<'a, I: Item<'a>>(
    cursor: &mut Cursor<'_, 'a>,
    levels: u32,
    word: Word,
) -> Read<Vec<I>>
    requires { LeavesFewer (I.rule levels) }
    ensures { Makes (λ found. map I.look found.items)
        (declarations.part word (I.rule levels) cursor.old.rest.now) result cursor.new }
{
    let mut found = Vec::new(cursor.alloc);
    let Some(_) = cursor.take_word(word) else {
        return Ok(found);
    };
    loop {
        put(&mut found, I::read(cursor, levels))?;
        if !is_next(cursor, Kind::Identifier) {
            return Ok(found);
        }
    }
}

/// Whether a token of this kind comes next.
pub(crate) fn is_next(cursor: &Cursor<'_, '_>, kind: Kind) -> bool
    ensures { result ≡ is_kind kind (next_kind cursor.now.rest.now) }
{
    match cursor.peek() {
        Some(next) => next == kind,
        None => false,
    }
}

/// Behind an arm of a case, or behind fields of a record: whether a semicolon stands before the
/// `end`, or none where more arms or fields follow.
/// `behind-arm = ";" [ "end" ] | "end" .`
#[tactic(auto, unfolding(reading::specs::Statements::behind_arm))]
pub(crate) fn behind_arm(cursor: &mut Cursor<'_, '_>) -> Read<Option<bool>>
    ensures { Makes (λ found. found) (statements.behind_arm cursor.old.rest.now) result cursor.new }
{
    let Some(_) = cursor.take_symbol(Symbol::Semicolon) else {
        cursor.expect_word(Word::End)?;
        return Ok(Some(false));
    };
    match cursor.take_word(Word::End) {
        Some(_) => Ok(Some(true)),
        None => Ok(None),
    }
}
