ghost use Rattle.std.specs.Prelude.{◌≡◌, map};
ghost use Rattle.std.specs.Char.{to_ascii_lowercase};
ghost use Rattle.lexer.specs.Spelling.{entry, in_small_letters, word_of};

use crate::token::Word;

/// The word symbols (6.1.2).
static WORDS: [(&[u8], Word); 35] = [
    (b"and", Word::And),
    (b"array", Word::Array),
    (b"begin", Word::Begin),
    (b"case", Word::Case),
    (b"const", Word::Const),
    (b"div", Word::Div),
    (b"do", Word::Do),
    (b"downto", Word::Downto),
    (b"else", Word::Else),
    (b"end", Word::End),
    (b"file", Word::File),
    (b"for", Word::For),
    (b"function", Word::Function),
    (b"goto", Word::Goto),
    (b"if", Word::If),
    (b"in", Word::In),
    (b"label", Word::Label),
    (b"mod", Word::Mod),
    (b"nil", Word::Nil),
    (b"not", Word::Not),
    (b"of", Word::Of),
    (b"or", Word::Or),
    (b"packed", Word::Packed),
    (b"procedure", Word::Procedure),
    (b"program", Word::Program),
    (b"record", Word::Record),
    (b"repeat", Word::Repeat),
    (b"set", Word::Set),
    (b"then", Word::Then),
    (b"to", Word::To),
    (b"type", Word::Type),
    (b"until", Word::Until),
    (b"var", Word::Var),
    (b"while", Word::While),
    (b"with", Word::With),
];

/// The word symbol that these letters spell, in upper or lower case (6.1.1).
pub fn word_of(letters: &[u8]) -> Option<Word>
    ensures { result ≡ word_of letters.now }
{
    look_up(&WORDS, letters)
}

/// What a table has under these letters, in upper or lower case.
fn look_up(table: &[(&[u8], Word)], letters: &[u8]) -> Option<Word>
    ensures { result ≡ entry (in_small_letters table.now) (map to_ascii_lowercase letters.now) }
{
    for (spelling, word) in table {
        if spelling.eq_ignore_ascii_case(letters) {
            return Some(*word);
        }
    }
    None
}
