ghost use Rattle.std.specs.Prelude.{◌≡◌};
ghost use Rattle.pcode_assembler.specs.Lines as spec;

use crate::table::template;
use crate::words::positive;
use crate::{ID_LIMIT, Instr, Shape};
use text_lines::numerals::natural;
use text_lines::words::parted;

/// What a line between the first and the last says.
#[derive(Clone, Copy)]
pub(crate) enum Content {
    /// `site LINE COLUMN KIND`: the next site of the table.
    Site { line: u32, column: u32, kind: u8 },
    /// `point LINE COLUMN`: the next point.
    Point { line: u32, column: u32 },
    /// `label N`: the next instruction is where jumps with this label go.
    Label { number: u32 },
    /// An instruction; a jump's target is a label.
    Instruction(Instr),
}

/// The first word of such a line.
#[derive(Clone, Copy)]
pub(crate) enum LineWord {
    Site,
    Point,
    Label,
    /// An instruction of that word, whatever its operands.
    Instruction(Instr),
}

/// The greatest line and column of a place.
const PLACE_LIMIT: u32 = 1_048_576;

/// The greatest kind of an error.
const KIND_LIMIT: u32 = 13;

/// What the first word of a line is, if it is known.
pub(crate) fn line_word(line: &[u8]) -> Option<LineWord>
    ensures { result ≡ spec.line_word line.now }
{
    let word = first_word(line);
    if word == b"site".as_slice() {
        Some(LineWord::Site)
    } else if word == b"point".as_slice() {
        Some(LineWord::Point)
    } else if word == b"label".as_slice() {
        Some(LineWord::Label)
    } else {
        template(word).map(|instr| LineWord::Instruction(instr))
    }
}

/// What stands before the first blank.
fn first_word(line: &[u8]) -> &[u8]
    ensures { result.now ≡ spec.first_word line.now }
{
    parted(line).map_or(line, |(word, _)| word)
}

/// Whether an instruction's word stands first in a line.
pub(crate) fn is_instruction(line: &[u8]) -> bool
    ensures { result ≡ spec.is_instruction line.now }
{
    matches!(line_word(line), Some(LineWord::Instruction(_)))
}

/// The number of a label's line.
pub(crate) fn label_of(line: &[u8]) -> Option<u32>
    ensures { result ≡ spec.label_of line.now }
{
    natural(ID_LIMIT, line.strip_prefix(b"label ")?)
}

impl LineWord {
    /// The part of the text where its lines stand: sites, points, and then the rest.
    pub(crate) fn part(&self) -> u8
        ensures { result ≡ spec.part_of_word self.now }
    {
        match self {
            LineWord::Site => 0,
            LineWord::Point => 1,
            LineWord::Label | LineWord::Instruction(_) => 2,
        }
    }

    /// What a line says that begins with this word, if its operands are right.
    pub(crate) fn content(self, line: &[u8]) -> Option<Content>
        ensures { result ≡ spec.content_of self line.now }
    {
        match parted(line) {
            None => self.alone(),
            Some((_, words)) => self.with_words(words),
        }
    }

    /// What a line of this word alone says.
    fn alone(self) -> Option<Content>
        ensures { result ≡ spec.alone self }
    {
        match self {
            LineWord::Instruction(instr) if matches!(instr.shape(), Shape::Nothing) => {
                Some(Content::Instruction(instr))
            }
            _ => None,
        }
    }

    /// What a line of this word and others says.
    fn with_words(self, words: &[u8]) -> Option<Content>
        ensures { result ≡ spec.with_words self words.now }
    {
        match self {
            LineWord::Site => site(words),
            LineWord::Point => place(words).map(|(line, column)| Content::Point { line, column }),
            LineWord::Label => natural(ID_LIMIT, words).map(|number| Content::Label { number }),
            LineWord::Instruction(instr) => instr
                .with_words(words)
                .map(|i| Content::Instruction(i)),
        }
    }
}

/// A line and a column.
fn place(words: &[u8]) -> Option<(u32, u32)>
    ensures { result ≡ spec.place words.now }
{
    let (line, column) = parted(words)?;
    positive(PLACE_LIMIT, line).zip(positive(PLACE_LIMIT, column))
}

/// A line, a column and a kind.
fn site(words: &[u8]) -> Option<Content>
    ensures { result ≡ spec.site words.now }
{
    let (line, words) = parted(words)?;
    let (line, (column, kind)) = positive(PLACE_LIMIT, line).zip(column_and_kind(words))?;
    Some(Content::Site { line, column, kind })
}

fn column_and_kind(words: &[u8]) -> Option<(u32, u8)>
    ensures { result ≡ spec.column_and_kind words.now }
{
    let (column, kind) = parted(words)?;
    positive(PLACE_LIMIT, column).zip(kind_of(kind))
}

fn kind_of(word: &[u8]) -> Option<u8>
    ensures { result ≡ spec.kind_of word.now }
{
    Some(positive(KIND_LIMIT, word)? as u8)
}

impl Content {
    /// The part of the text where its line stands.
    pub(crate) fn part(&self) -> u8
        ensures { result ≡ spec.part_of self.now }
    {
        match self {
            Content::Site { .. } => 0,
            Content::Point { .. } => 1,
            Content::Label { .. } | Content::Instruction(_) => 2,
        }
    }
}
