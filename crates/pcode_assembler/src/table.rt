//! The table of the text's instructions: the word of each and the form of its operands, for reader and writer alike.
ghost use Rattle.std.specs.Prelude.{◌≡◌, find};
ghost use Rattle.std.specs.Str.{bytes_eq};
ghost use Rattle.pcode_assembler.specs.Table as spec;

use crate::{EMPTY, Instr};

/// The form of an instruction's operands, with the limits of its natural numbers.
#[derive(Clone, Copy)]
pub(crate) enum Shape {
    Nothing,
    /// A number of 32 bits.
    Number,
    /// A set.
    Members,
    /// A natural number up to a limit.
    Natural(u32),
    /// A number in a byte.
    Small(u8),
    /// A level and an offset.
    Cell,
    /// Two natural numbers.
    Pair(u32, u32),
    /// A number of 32 bits and a length.
    Element,
    /// An id and two numbers of 32 bits.
    Range,
}

/// How many static links there may be to follow.
pub(crate) const LEVEL_LIMIT: u8 = 15;

pub(crate) const OFFSET_LIMIT: u32 = 16_777_215;

pub(crate) const LENGTH_LIMIT: u32 = 65_536;

pub(crate) const FRAME_LIMIT: u32 = 16_777_216;

pub(crate) const RESULT_LIMIT: u8 = 1;
/// Of labels, and of sites and points, whose tables have at most 1,000,000 rows.
pub(crate) const ID_LIMIT: u32 = 999_999;

/// An instruction of each word, whatever its operands.
const TEMPLATES: [Instr; 68] = [
    Instr::LoadConstant { value: 0 },
    Instr::LoadSet { members: EMPTY },
    Instr::LoadAddress {
        level: 0,
        offset: 0,
    },
    Instr::Load {
        level: 0,
        offset: 0,
    },
    Instr::Store {
        level: 0,
        offset: 0,
    },
    Instr::LoadIndirect { offset: 0 },
    Instr::StoreIndirect,
    Instr::LoadMany { length: 0 },
    Instr::StoreMany { length: 0 },
    Instr::Increase { offset: 0 },
    Instr::IndexAddress { low: 0, size: 0 },
    Instr::Add,
    Instr::Subtract,
    Instr::Multiply,
    Instr::Divide,
    Instr::Modulo,
    Instr::Negate,
    Instr::Absolute,
    Instr::Square,
    Instr::Odd,
    Instr::Not,
    Instr::And,
    Instr::Or,
    Instr::Equal,
    Instr::NotEqual,
    Instr::Less,
    Instr::LessOrEqual,
    Instr::Greater,
    Instr::GreaterOrEqual,
    Instr::Compare { length: 0 },
    Instr::Singleton,
    Instr::SetRange,
    Instr::Union,
    Instr::Intersection,
    Instr::Difference,
    Instr::IsMember,
    Instr::SetEqual,
    Instr::SetNotEqual,
    Instr::SetInside,
    Instr::SetAround,
    Instr::Jump { target: 0 },
    Instr::JumpIfFalse { target: 0 },
    Instr::MarkStack { level: 0 },
    Instr::CallProcedure {
        length: 0,
        target: 0,
    },
    Instr::Enter {
        variables: 0,
        evaluation: 0,
    },
    Instr::Return { results: 0 },
    Instr::ReadInteger { point: 0 },
    Instr::ReadChar { point: 0 },
    Instr::ReadLine { point: 0 },
    Instr::EndOfLine { point: 0 },
    Instr::EndOfFile,
    Instr::CheckInput {
        point: 0,
        low: 0,
        high: 0,
    },
    Instr::WriteInteger,
    Instr::WriteChar,
    Instr::WriteBoolean,
    Instr::WriteString { length: 0 },
    Instr::WriteLine,
    Instr::Stop,
    Instr::CheckRange {
        site: 0,
        low: 0,
        high: 0,
    },
    Instr::CheckZero { site: 0 },
    Instr::CheckDefined { site: 0, length: 0 },
    Instr::CheckSum { site: 0 },
    Instr::CheckDifference { site: 0 },
    Instr::CheckProduct { site: 0 },
    Instr::CheckSquare { site: 0 },
    Instr::CheckMembers { site: 0 },
    Instr::CheckSet {
        site: 0,
        low: 0,
        high: 0,
    },
    Instr::Fail { site: 0 },
];

/// An instruction of this word, if there is one.
pub(crate) fn template(word: &[u8]) -> Option<Instr>
    ensures { result ≡ spec.template word.now }
{
    TEMPLATES
        .iter()
        .copied()
        .find(|instr| instr.word().as_slice() == word)
}

impl Instr {
    /// The word of an instruction.
    pub(crate) fn word(&self) -> [u8; 3]
        ensures { result ≡ spec.word_of self.now }
    {
        let first = self.cell_word().or(self.number_word());
        let second = self.set_word().or(self.flow_word());
        let third = self.text_word().or(self.check_word());
        first.or(second).or(third).unwrap_or(*b"   ")
    }

    /// The word of an instruction that moves cells.
    fn cell_word(&self) -> Option<[u8; 3]>
        ensures { result ≡ spec.cell_word self.now }
    {
        match self {
            Instr::LoadConstant { .. } => Some(*b"ldc"),
            Instr::LoadSet { .. } => Some(*b"lds"),
            Instr::LoadAddress { .. } => Some(*b"lda"),
            Instr::Load { .. } => Some(*b"lod"),
            Instr::Store { .. } => Some(*b"str"),
            Instr::LoadIndirect { .. } => Some(*b"ind"),
            Instr::StoreIndirect => Some(*b"sto"),
            Instr::LoadMany { .. } => Some(*b"ldm"),
            Instr::StoreMany { .. } => Some(*b"stm"),
            Instr::Increase { .. } => Some(*b"inc"),
            Instr::IndexAddress { .. } => Some(*b"ixa"),
            _ => None,
        }
    }

    /// The word of an instruction over numbers.
    fn number_word(&self) -> Option<[u8; 3]>
        ensures { result ≡ spec.number_word self.now }
    {
        match self {
            Instr::Add => Some(*b"adi"),
            Instr::Subtract => Some(*b"sbi"),
            Instr::Multiply => Some(*b"mpi"),
            Instr::Divide => Some(*b"dvi"),
            Instr::Modulo => Some(*b"mod"),
            Instr::Negate => Some(*b"ngi"),
            Instr::Absolute => Some(*b"abi"),
            Instr::Square => Some(*b"sqi"),
            Instr::Odd => Some(*b"odd"),
            Instr::Not => Some(*b"not"),
            Instr::And => Some(*b"and"),
            Instr::Or => Some(*b"ior"),
            Instr::Equal => Some(*b"equ"),
            Instr::NotEqual => Some(*b"neq"),
            Instr::Less => Some(*b"les"),
            Instr::LessOrEqual => Some(*b"leq"),
            Instr::Greater => Some(*b"grt"),
            Instr::GreaterOrEqual => Some(*b"geq"),
            Instr::Compare { .. } => Some(*b"cmp"),
            _ => None,
        }
    }

    /// The word of an instruction over sets.
    fn set_word(&self) -> Option<[u8; 3]>
        ensures { result ≡ spec.set_word self.now }
    {
        match self {
            Instr::Singleton => Some(*b"sgs"),
            Instr::SetRange => Some(*b"srg"),
            Instr::Union => Some(*b"uni"),
            Instr::Intersection => Some(*b"int"),
            Instr::Difference => Some(*b"dif"),
            Instr::IsMember => Some(*b"inn"),
            Instr::SetEqual => Some(*b"seq"),
            Instr::SetNotEqual => Some(*b"sne"),
            Instr::SetInside => Some(*b"sle"),
            Instr::SetAround => Some(*b"sge"),
            _ => None,
        }
    }

    /// The word of an instruction that goes elsewhere.
    fn flow_word(&self) -> Option<[u8; 3]>
        ensures { result ≡ spec.flow_word self.now }
    {
        match self {
            Instr::Jump { .. } => Some(*b"ujp"),
            Instr::JumpIfFalse { .. } => Some(*b"fjp"),
            Instr::MarkStack { .. } => Some(*b"mst"),
            Instr::CallProcedure { .. } => Some(*b"cup"),
            Instr::Enter { .. } => Some(*b"ent"),
            Instr::Return { .. } => Some(*b"ret"),
            Instr::Stop => Some(*b"stp"),
            _ => None,
        }
    }

    /// The word of an instruction that reads or writes.
    fn text_word(&self) -> Option<[u8; 3]>
        ensures { result ≡ spec.text_word self.now }
    {
        match self {
            Instr::ReadInteger { .. } => Some(*b"rdi"),
            Instr::ReadChar { .. } => Some(*b"rdc"),
            Instr::ReadLine { .. } => Some(*b"rln"),
            Instr::EndOfLine { .. } => Some(*b"eln"),
            Instr::EndOfFile => Some(*b"eof"),
            Instr::CheckInput { .. } => Some(*b"chn"),
            Instr::WriteInteger => Some(*b"wri"),
            Instr::WriteChar => Some(*b"wrc"),
            Instr::WriteBoolean => Some(*b"wrb"),
            Instr::WriteString { .. } => Some(*b"wrs"),
            Instr::WriteLine => Some(*b"wln"),
            _ => None,
        }
    }

    /// The word of a check.
    fn check_word(&self) -> Option<[u8; 3]>
        ensures { result ≡ spec.check_word self.now }
    {
        match self {
            Instr::CheckRange { .. } => Some(*b"chk"),
            Instr::CheckZero { .. } => Some(*b"ckz"),
            Instr::CheckDefined { .. } => Some(*b"ckd"),
            Instr::CheckSum { .. } => Some(*b"cka"),
            Instr::CheckDifference { .. } => Some(*b"cks"),
            Instr::CheckProduct { .. } => Some(*b"ckm"),
            Instr::CheckSquare { .. } => Some(*b"ckq"),
            Instr::CheckMembers { .. } => Some(*b"ckr"),
            Instr::CheckSet { .. } => Some(*b"ckb"),
            Instr::Fail { .. } => Some(*b"err"),
            _ => None,
        }
    }
}
