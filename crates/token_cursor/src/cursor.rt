ghost use Rattle.std.specs.Prelude.{◌≡◌, if◌then◌else◌, Some, None};
ghost use Rattle.std.specs.Option.{option_map};
ghost use Rattle.reading.specs.Lexemes.{character_string, identifier, of_text};
ghost use Rattle.reading.specs.Reading as spec;
ghost use Rattle.reading.specs.Reading.{direction_in, is_forward, next_kind, next_place, same_kind, sign_in};
ghost use Rattle.token_cursor.specs.Level.{level_number};

use crate::operator::{Level, level_of, operator_of, relational_at};
use lexer::token::{Kind, Symbol, Token, Word};
use place::Place;
use reading::refusal::Refusal;
use std::alloc::Global;
use syntax_tree::{Direction, Name, Operator, RelationalOperator, Sign};

/// What a rule reads, or why it stops.
pub type Read<T> = Result<T, Refusal>;

/// The tokens that are left to read, and where what is made of them is kept. A rule of `reading` tells what each
/// function makes of them, and what is left then; where nothing is taken, all are left.
#[derive(Clone, Copy)]
pub struct Cursor<'t, 'a> {
    pub alloc: Global,
    pub rest: &'t [Token<'a>],
}

impl<'t, 'a> Cursor<'t, 'a> {
    ghost use Rattle.reading.specs.Declarations.{period_at_end};
    ghost use Rattle.token_cursor.specs.Cursor.{IsFollowed, Makes, CursorTakes};

    pub fn new(alloc: Global, rest: &'t [Token<'a>]) -> Self
        ensures { result.rest.now ≡ rest.now }
    {
        Cursor { alloc, rest }
    }

    /// The kind of the next token.
    pub fn peek(&self) -> Option<Kind>
        ensures { result ≡ next_kind self.now.rest.now }
    {
        Some(self.rest.first()?.kind)
    }

    /// Where the next token stands, if there is one.
    pub fn place(&self) -> Option<Place>
        ensures { result ≡ next_place self.now.rest.now }
    {
        Some(self.rest.first()?.place)
    }

    /// Takes the next token if it is of this kind, and answers its place.
    #[tactic(auto, unfolding(reading::specs::Reading::taken))]
    pub fn take(&mut self, kind: Kind) -> Option<Place>
        ensures { CursorTakes (spec.taken kind) self.old result self.new }
    {
        match self.rest {
            [token, rest @ ..] if is_of_kind(token, kind) => {
                let place = token.place;
                self.rest = rest;
                Some(place)
            }
            _ => None,
        }
    }

    pub fn take_word(&mut self, word: Word) -> Option<Place>
        ensures { CursorTakes (spec.word_taken word) self.old result self.new }
    {
        self.take(Kind::Word(word))
    }

    pub fn take_symbol(&mut self, symbol: Symbol) -> Option<Place>
        ensures { CursorTakes (spec.symbol_taken symbol) self.old result self.new }
    {
        self.take(Kind::Symbol(symbol))
    }

    pub fn expect_word(&mut self, word: Word) -> Read<Place>
        ensures { Makes (λ place. place) (spec.expect_word word self.old.rest.now) result self.new }
    {
        self.take_word(word).ok_or(Refusal::NoProgram)
    }

    pub fn expect_symbol(&mut self, symbol: Symbol) -> Read<Place>
        ensures { Makes (λ place. place) (spec.expect_symbol symbol self.old.rest.now) result self.new }
    {
        self.take_symbol(symbol).ok_or(Refusal::NoProgram)
    }

    /// What a rule read, if a token of this kind stands behind it, which is taken.
    pub fn followed_by<T: Drop>(&mut self, found: Read<T>, kind: Kind) -> Read<T>
        ensures { IsFollowed found kind self.old result self.new }
    {
        let made = found?;
        self.take(kind).ok_or(Refusal::NoProgram)?;
        Ok(made)
    }

    /// Takes the next token if it is of this kind, and answers its text and its place.
    #[tactic(auto, unfolding(reading::specs::Reading::text_taken))]
    fn take_text(&mut self, kind: Kind) -> Option<(&'a [u8], Place)>
        ensures { CursorTakes (spec.text_taken kind) self.old
            (option_map (λ taken. of_text kind taken.0.now taken.1) result) self.new }
    {
        match self.rest {
            [token, rest @ ..] if is_of_kind(token, kind) => {
                let taken = (token.text, token.place);
                self.rest = rest;
                Some(taken)
            }
            _ => None,
        }
    }

    /// Takes an identifier, if one is next.
    pub fn take_name(&mut self) -> Option<Name<'a>>
        ensures { CursorTakes (spec.text_taken Kind.Identifier) self.old (option_map identifier result) self.new }
    {
        let (text, place) = self.take_text(Kind::Identifier)?;
        Some(Name { text, place })
    }

    pub fn expect_name(&mut self) -> Read<Name<'a>>
        ensures { Makes identifier (spec.expect_name self.old.rest.now) result self.new }
    {
        self.take_name().ok_or(Refusal::NoProgram)
    }

    /// Whether the directive `forward` (6.1.4) is next, which is taken.
    #[tactic(auto, unfolding(reading::specs::Reading::forward_taken))]
    pub fn take_forward(&mut self) -> bool
        ensures { CursorTakes spec.forward_taken self.old (if result then Some tt else None) self.new }
    {
        match self.rest {
            [token, rest @ ..] if is_forward(token) => {
                self.rest = rest;
                true
            }
            _ => false,
        }
    }

    /// Takes a number, if one is next.
    #[tactic(auto, unfolding(reading::specs::Reading::number_taken))]
    pub fn take_number(&mut self) -> Option<(u32, Place)>
        ensures { CursorTakes spec.number_taken self.old result self.new }
    {
        let [token, rest @ ..] = self.rest else {
            return None;
        };
        let Kind::Number(value) = token.kind else {
            return None;
        };
        self.rest = rest;
        Some((value, token.place))
    }

    /// Takes a string, if one is next: its text with the apostrophes, and its place.
    pub fn take_string(&mut self) -> Option<(&'a [u8], Place)>
        ensures { CursorTakes (spec.text_taken Kind.Text) self.old
            (option_map (λ string. character_string string.0.now string.1) result) self.new }
    {
        self.take_text(Kind::Text)
    }

    /// Takes a sign, if one is next.
    #[tactic(auto, unfolding(reading::specs::Reading::sign_taken))]
    pub fn take_sign(&mut self) -> Option<(Sign, Place)>
        ensures { CursorTakes spec.sign_taken self.old result self.new }
    {
        let [token, rest @ ..] = self.rest else {
            return None;
        };
        let sign = sign_at(token.kind, token.place)?;
        self.rest = rest;
        Some(sign)
    }

    /// Takes the word symbol of a direction, if one is next.
    #[tactic(auto, unfolding(reading::specs::Reading::direction_taken))]
    pub fn take_direction(&mut self) -> Option<Direction>
        ensures { CursorTakes spec.direction_taken self.old result self.new }
    {
        let [token, rest @ ..] = self.rest else {
            return None;
        };
        let direction = direction_of(token.kind)?;
        self.rest = rest;
        Some(direction)
    }

    pub fn expect_direction(&mut self) -> Read<Direction>
        ensures { Makes (λ direction. direction) (spec.expect_direction self.old.rest.now) result self.new }
    {
        self.take_direction().ok_or(Refusal::NoProgram)
    }

    /// Takes a relational operator, if one is next.
    #[tactic(auto, unfolding(reading::specs::Reading::relational_taken))]
    pub fn take_relational(&mut self) -> Option<(RelationalOperator, Place)>
        ensures { CursorTakes spec.relational_taken self.old result self.new }
    {
        let [token, rest @ ..] = self.rest else {
            return None;
        };
        let operator = relational_at(token.kind, token.place)?;
        self.rest = rest;
        Some(operator)
    }

    /// Takes an operator of this level, if one is next.
    #[tactic(auto, unfolding(reading::specs::Reading::operator_taken))]
    pub fn take_operator(&mut self, level: Level) -> Option<(Operator, Place)>
        ensures { CursorTakes (spec.operator_taken (level_number level)) self.old result self.new }
    {
        let [token, rest @ ..] = self.rest else {
            return None;
        };
        let operator = operator_of(token.kind)?;
        if level_of(operator) != level {
            return None;
        }
        self.rest = rest;
        Some((operator, token.place))
    }

    /// Takes the period of a program, behind which nothing may stand.
    pub fn expect_period_at_end(&mut self) -> Read<()>
        ensures { Makes (λ end. end) (period_at_end self.old.rest.now) result self.new }
    {
        self.expect_symbol(Symbol::Period)?;
        match self.peek() {
            None => Ok(()),
            Some(_) => Err(Refusal::NoProgram),
        }
    }
}

fn is_of_kind(token: &Token<'_>, kind: Kind) -> bool
    ensures { result ≡ same_kind token.now.kind kind }
{
    token.kind == kind
}

/// Whether a token is the directive `forward`, in small or capital letters.
fn is_forward(token: &Token<'_>) -> bool
    ensures { result ≡ is_forward token.now }
{
    token.kind == Kind::Identifier && token.text.eq_ignore_ascii_case(b"forward")
}

/// The sign that a token of this kind is, if it is one, with its place.
fn sign_at(kind: Kind, place: Place) -> Option<(Sign, Place)>
    ensures { result ≡ sign_in kind place }
{
    match kind {
        Kind::Symbol(Symbol::Plus) => Some((Sign::Plus, place)),
        Kind::Symbol(Symbol::Minus) => Some((Sign::Minus, place)),
        _ => None,
    }
}

/// The direction that a token of this kind is, if it is one.
fn direction_of(kind: Kind) -> Option<Direction>
    ensures { result ≡ direction_in kind }
{
    match kind {
        Kind::Word(Word::To) => Some(Direction::To),
        Kind::Word(Word::Downto) => Some(Direction::DownTo),
        _ => None,
    }
}
