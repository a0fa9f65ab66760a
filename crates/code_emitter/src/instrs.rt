ghost use Rattle.std.specs.Prelude.{◌≡◌, pos};
ghost use Rattle.pcode_assembler.specs.declared.instr.Instr.TheVariants.{CheckRange, Load, Store};
ghost use Rattle.code_scheme.specs.Code.{asked_instr, check_positive, range_check, relation_instr, set_relation_instr};
ghost use Rattle.code_scheme.specs.Code.{value_check};

use pcode_assembler::Instr;
use typed_tree::{InputTest, RangeTest, Relation, Scalar, SetRelation};

/// The greatest value of the type integer (ISO 7185:1990, 6.4.2.2).
const MAXINT: i32 = 2147483647;

/// The push of the value of a cell of the block's own frame.
pub fn load(offset: u32) -> Instr
    ensures { result ≡ Load 0 offset }
{
    Instr::Load { level: 0, offset }
}

/// The store into one.
pub fn store(offset: u32) -> Instr
    ensures { result ≡ Store 0 offset }
{
    Instr::Store { level: 0, offset }
}

/// The test of an ordinal.
pub fn check_of(fits: RangeTest) -> Instr
    ensures { result ≡ range_check fits }
{
    check_range(fits.site, fits.range.first, fits.range.last)
}

/// The test of a value that is assigned or passed: of an ordinal, or of each member of a set.
pub fn value_check_of(fits: RangeTest) -> Instr
    ensures { result ≡ value_check fits }
{
    match fits.tests {
        Scalar::Ordinal => check_of(fits),
        Scalar::Set => Instr::CheckSet {
            site: fits.site,
            low: fits.range.first,
            high: fits.range.last,
        },
    }
}

/// A check that the number on top lies within two bounds.
pub fn check_range(site: u32, low: i32, high: i32) -> Instr
    ensures { result ≡ CheckRange site low high }
{
    Instr::CheckRange { site, low, high }
}

/// A check that the number on top is at least 1.
pub fn positive_at(site: u32) -> Instr
    ensures { result ≡ check_positive site }
{
    check_range(site, 1, MAXINT)
}

/// What compares the two values before it.
pub fn comparison_of(relation: Relation) -> Instr
    ensures { result ≡ relation_instr relation }
{
    match relation {
        Relation::Equal => Instr::Equal,
        Relation::NotEqual => Instr::NotEqual,
        Relation::Less => Instr::Less,
        Relation::Greater => Instr::Greater,
        Relation::LessOrEqual => Instr::LessOrEqual,
        Relation::GreaterOrEqual => Instr::GreaterOrEqual,
    }
}

/// What asks the input.
pub fn question_of(asks: InputTest) -> Instr
    ensures { result ≡ asked_instr asks }
{
    match asks {
        InputTest::End => Instr::EndOfFile,
        InputTest::LineEnd { point } => Instr::EndOfLine { point },
    }
}

/// What compares the two sets before it.
pub fn set_comparison_of(relation: SetRelation) -> Instr
    ensures { result ≡ set_relation_instr relation }
{
    match relation {
        SetRelation::Equal => Instr::SetEqual,
        SetRelation::NotEqual => Instr::SetNotEqual,
        SetRelation::Included => Instr::SetInside,
        SetRelation::Includes => Instr::SetAround,
    }
}
