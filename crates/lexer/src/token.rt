use place::Place;

/// A word symbol (6.1.2).
#[derive(Clone, Copy, PartialEq, Eq)]
pub enum Word {
    And,
    Array,
    Begin,
    Case,
    Const,
    Div,
    Do,
    Downto,
    Else,
    End,
    File,
    For,
    Function,
    Goto,
    If,
    In,
    Label,
    Mod,
    Nil,
    Not,
    Of,
    Or,
    Packed,
    Procedure,
    Program,
    Record,
    Repeat,
    Set,
    Then,
    To,
    Type,
    Until,
    Var,
    While,
    With,
}

/// A special symbol that is no word (6.1.2), each of its spellings alike (6.1.9).
#[derive(Clone, Copy, PartialEq, Eq)]
pub enum Symbol {
    /// `+`
    Plus,
    /// `-`
    Minus,
    /// `*`
    Times,
    /// `/`
    Slash,
    /// `=`
    Equal,
    /// `<`
    Less,
    /// `>`
    Greater,
    /// `[` or `(.`
    OpenBracket,
    /// `]` or `.)`
    CloseBracket,
    /// `.`
    Period,
    /// `,`
    Comma,
    /// `:`
    Colon,
    /// `;`
    Semicolon,
    /// `(`
    OpenParenthesis,
    /// `)`
    CloseParenthesis,
    /// `<>`
    NotEqual,
    /// `<=`
    LessOrEqual,
    /// `>=`
    GreaterOrEqual,
    /// `:=`
    Becomes,
    /// `..`
    Range,
    /// `^` or `@`
    Arrow,
}

/// The class of a token (6.1.1).
#[derive(Clone, Copy, PartialEq, Eq)]
pub enum Kind {
    Word(Word),
    /// A letter, and then letters and digits (6.1.3).
    Identifier,
    /// A number and its value, at most 2147483647 (6.1.5).
    Number(u32),
    /// A character string (6.1.7); the token's text has the apostrophes.
    Text,
    Symbol(Symbol),
}

/// A token with the bytes that it is spelled by and the place of the first.
#[derive(Clone, Copy)]
pub struct Token<'a> {
    pub kind: Kind,
    pub text: &'a [u8],
    pub place: Place,
}
