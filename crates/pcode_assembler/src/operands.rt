//! The operands of instructions, as a line's words tell them.
ghost use Rattle.std.specs.Prelude.{◌≡◌};
ghost use Rattle.pcode_assembler.specs.Table as spec;
ghost use Rattle.pcode_assembler.specs.Writable.{check_site, jump_target, read_point};

use crate::table::RESULT_LIMIT;
use crate::words::{members, number, small};
use crate::{FRAME_LIMIT, ID_LIMIT, Instr, LENGTH_LIMIT, LEVEL_LIMIT, OFFSET_LIMIT, Shape};
use text_lines::numerals::natural;
use text_lines::words::parted;

impl Instr {
    /// The form of its operands.
    pub(crate) fn shape(&self) -> Shape
        ensures { result ≡ spec.shape_of self.now }
    {
        match self {
            Instr::LoadConstant { .. } => Shape::Number,
            Instr::LoadSet { .. } => Shape::Members,
            Instr::LoadAddress { .. } | Instr::Load { .. } | Instr::Store { .. } => Shape::Cell,
            Instr::LoadIndirect { .. } | Instr::Increase { .. } => Shape::Natural(OFFSET_LIMIT),
            Instr::LoadMany { .. }
            | Instr::StoreMany { .. }
            | Instr::Compare { .. }
            | Instr::WriteString { .. } => Shape::Natural(LENGTH_LIMIT),
            Instr::IndexAddress { .. } => Shape::Element,
            Instr::MarkStack { .. } => Shape::Small(LEVEL_LIMIT),
            Instr::Return { .. } => Shape::Small(RESULT_LIMIT),
            Instr::Enter { .. } => Shape::Pair(FRAME_LIMIT, FRAME_LIMIT),
            _ => self.naming_shape(),
        }
    }

    /// The same of an instruction that names a label, a site or a point.
    fn naming_shape(&self) -> Shape
        ensures { result ≡ spec.naming_shape self.now }
    {
        match self {
            Instr::Jump { .. }
            | Instr::JumpIfFalse { .. }
            | Instr::ReadInteger { .. }
            | Instr::ReadChar { .. }
            | Instr::ReadLine { .. }
            | Instr::EndOfLine { .. }
            | Instr::CheckZero { .. }
            | Instr::CheckSum { .. }
            | Instr::CheckDifference { .. }
            | Instr::CheckProduct { .. }
            | Instr::CheckSquare { .. }
            | Instr::CheckMembers { .. }
            | Instr::Fail { .. } => Shape::Natural(ID_LIMIT),
            Instr::CallProcedure { .. } => Shape::Pair(LENGTH_LIMIT, ID_LIMIT),
            Instr::CheckDefined { .. } => Shape::Pair(ID_LIMIT, LENGTH_LIMIT),
            Instr::CheckInput { .. } | Instr::CheckRange { .. } | Instr::CheckSet { .. } => {
                Shape::Range
            }
            _ => Shape::Nothing,
        }
    }

    /// The label, or the instruction, where it may go but to the next one.
    pub(crate) fn jump_target(&self) -> Option<u32>
        ensures { result ≡ jump_target self.now }
    {
        match self {
            Instr::Jump { target }
            | Instr::JumpIfFalse { target }
            | Instr::CallProcedure { target, .. } => Some(*target),
            _ => None,
        }
    }

    /// The point of an instruction that reads.
    pub(crate) fn read_point(&self) -> Option<u32>
        ensures { result ≡ read_point self.now }
    {
        match self {
            Instr::ReadInteger { point }
            | Instr::ReadChar { point }
            | Instr::ReadLine { point }
            | Instr::EndOfLine { point }
            | Instr::CheckInput { point, .. } => Some(*point),
            _ => None,
        }
    }

    /// The site of a check.
    pub fn check_site(&self) -> Option<u32>
        ensures { result ≡ check_site self.now }
    {
        match self {
            Instr::CheckRange { site, .. }
            | Instr::CheckZero { site }
            | Instr::CheckDefined { site, .. }
            | Instr::CheckSum { site }
            | Instr::CheckDifference { site }
            | Instr::CheckProduct { site }
            | Instr::CheckSquare { site }
            | Instr::CheckMembers { site }
            | Instr::CheckSet { site, .. }
            | Instr::Fail { site } => Some(*site),
            _ => None,
        }
    }

    /// The instruction of this word that has the operands which the words tell, if they have its form.
    pub(crate) fn with_words(self, words: &[u8]) -> Option<Instr>
        ensures { result ≡ spec.with_words self words.now }
    {
        match self.shape() {
            Shape::Nothing => None,
            Shape::Number => number(words).map(|value| Instr::LoadConstant { value }),
            Shape::Members => members(words).map(|members| Instr::LoadSet { members }),
            Shape::Natural(limit) => natural(limit, words).map(|n| self.with_natural(n)),
            Shape::Small(limit) => small(limit, words).map(|n| self.with_small(n)),
            Shape::Cell => cell(words).map(|(level, offset)| self.with_cell(level, offset)),
            Shape::Pair(a, b) => pair(a, b, words).map(|(a, b)| self.with_pair(a, b)),
            Shape::Element => element(words).map(|(low, size)| Instr::IndexAddress { low, size }),
            Shape::Range => range(words).map(|(id, (low, high))| self.with_range(id, low, high)),
        }
    }

    fn with_natural(self, n: u32) -> Instr
        ensures { result ≡ spec.with_natural self n }
    {
        match self {
            Instr::LoadIndirect { .. } => Instr::LoadIndirect { offset: n },
            Instr::Increase { .. } => Instr::Increase { offset: n },
            Instr::LoadMany { .. } => Instr::LoadMany { length: n },
            Instr::StoreMany { .. } => Instr::StoreMany { length: n },
            Instr::Compare { .. } => Instr::Compare { length: n },
            Instr::WriteString { .. } => Instr::WriteString { length: n },
            Instr::Jump { .. } => Instr::Jump { target: n },
            Instr::JumpIfFalse { .. } => Instr::JumpIfFalse { target: n },
            Instr::ReadInteger { .. } => Instr::ReadInteger { point: n },
            Instr::ReadChar { .. } => Instr::ReadChar { point: n },
            Instr::ReadLine { .. } => Instr::ReadLine { point: n },
            Instr::EndOfLine { .. } => Instr::EndOfLine { point: n },
            Instr::CheckZero { .. } => Instr::CheckZero { site: n },
            Instr::CheckSum { .. } => Instr::CheckSum { site: n },
            Instr::CheckDifference { .. } => Instr::CheckDifference { site: n },
            Instr::CheckProduct { .. } => Instr::CheckProduct { site: n },
            Instr::CheckSquare { .. } => Instr::CheckSquare { site: n },
            Instr::CheckMembers { .. } => Instr::CheckMembers { site: n },
            Instr::Fail { .. } => Instr::Fail { site: n },
            other => other,
        }
    }

    fn with_small(self, n: u8) -> Instr
        ensures { result ≡ spec.with_small self n }
    {
        match self {
            Instr::MarkStack { .. } => Instr::MarkStack { level: n },
            Instr::Return { .. } => Instr::Return { results: n },
            other => other,
        }
    }

    fn with_cell(self, level: u8, offset: u32) -> Instr
        ensures { result ≡ spec.with_cell self level offset }
    {
        match self {
            Instr::LoadAddress { .. } => Instr::LoadAddress { level, offset },
            Instr::Load { .. } => Instr::Load { level, offset },
            Instr::Store { .. } => Instr::Store { level, offset },
            other => other,
        }
    }

    fn with_pair(self, a: u32, b: u32) -> Instr
        ensures { result ≡ spec.with_pair self a b }
    {
        match self {
            Instr::CallProcedure { .. } => Instr::CallProcedure {
                length: a,
                target: b,
            },
            Instr::Enter { .. } => Instr::Enter {
                variables: a,
                evaluation: b,
            },
            Instr::CheckDefined { .. } => Instr::CheckDefined { site: a, length: b },
            other => other,
        }
    }

    fn with_range(self, id: u32, low: i32, high: i32) -> Instr
        ensures { result ≡ spec.with_range self id low high }
    {
        let (point, site) = (id, id);
        match self {
            Instr::CheckInput { .. } => Instr::CheckInput { point, low, high },
            Instr::CheckRange { .. } => Instr::CheckRange { site, low, high },
            Instr::CheckSet { .. } => Instr::CheckSet { site, low, high },
            other => other,
        }
    }
}

/// A level and an offset.
fn cell(words: &[u8]) -> Option<(u8, u32)>
    ensures { result ≡ spec.cell words.now }
{
    let (level, offset) = parted(words)?;
    small(LEVEL_LIMIT, level).zip(natural(OFFSET_LIMIT, offset))
}

/// Two natural numbers within limits.
fn pair(first_limit: u32, second_limit: u32, words: &[u8]) -> Option<(u32, u32)>
    ensures { result ≡ spec.pair first_limit second_limit words.now }
{
    let (first, second) = parted(words)?;
    natural(first_limit, first).zip(natural(second_limit, second))
}

/// The least index and the size of an element.
fn element(words: &[u8]) -> Option<(i32, u32)>
    ensures { result ≡ spec.element words.now }
{
    let (low, size) = parted(words)?;
    number(low).zip(natural(LENGTH_LIMIT, size))
}

/// An id and two numbers.
fn range(words: &[u8]) -> Option<(u32, (i32, i32))>
    ensures { result ≡ spec.range words.now }
{
    let (id, bounds) = parted(words)?;
    natural(ID_LIMIT, id).zip(ends(bounds))
}

/// Two numbers.
fn ends(words: &[u8]) -> Option<(i32, i32)>
    ensures { result ≡ spec.ends words.now }
{
    let (low, high) = parted(words)?;
    number(low).zip(number(high))
}
