ghost use Rattle.std.specs.Prelude.{◌≡◌, [], ◌∷◌, ◌++◌, OnOk};

use crate::activation::Activation;
use std::alloc::AllocError;
use typed_tree::{
    CaseHead, Designator, Dyadic, Expr, ForHead, Link, LoopHead, Monadic, Passed, RangeTest,
    ReadVariable, Relation, Representation, Selector, Stmt, Whole, Width, WithRecord,
    WriteParameter,
};
use types::TypeId;

/// Work that a run has still to do. What it needs lies on the stack of operands.
#[derive(Clone, Copy)]
pub enum Work<'t> {
    /// The statements of a compound statement, one after another.
    Statements(&'t [Stmt]),
    Statement(&'t Stmt),
    /// The statement of an if that the topmost value chooses.
    Choose {
        consequence: &'t Box<Stmt>,
        alternative: &'t Option<Box<Stmt>>,
    },
    /// A turn of a while, and its further rounds, if the topmost value asks for them.
    WhileTurn {
        head: &'t LoopHead,
        body: &'t Stmt,
    },
    /// Further rounds of a repeat, unless the topmost value ends it.
    Unless {
        head: &'t LoopHead,
        statements: &'t Vec<Stmt>,
    },
    /// The rounds of a for that are left.
    For {
        head: &'t ForHead,
        rounds: Rounds,
        body: &'t Stmt,
    },
    /// The arms of a case, whose index is topmost.
    Case {
        head: &'t CaseHead,
        arms: &'t Vec<Stmt>,
    },
    /// The parameters of a write, one after another, and behind them the line end of a writeln.
    Parameters {
        parameters: &'t [WriteParameter],
        ends_line: bool,
    },
    /// The width of an ordinal that is written, whose value is topmost.
    Width {
        width: &'t Option<Width>,
        representation: Representation,
    },
    /// Tests the topmost value as a width.
    WidthTest {
        site: u32,
    },
    /// Writes a value, whose width is topmost, right above it.
    Write(Representation),
    /// Writes a row of values as a string, whose width is topmost, right above it.
    WriteRow,
    /// Writes the topmost row as a string in so many places.
    WriteRowIn {
        places: usize,
    },
    /// The variables of a read, one after another, and behind them the line end of a readln, wanted at its point.
    Variables {
        variables: &'t [ReadVariable],
        line: Option<u32>,
    },
    /// Reads a variable, whose place is topmost.
    Read(&'t ReadVariable),
    /// Tests the topmost value and stores it at the place below it.
    Store(RangeTest),
    /// Stores the topmost row at the place below it, which has this type.
    StoreRow(TypeId),
    /// The selectors that lead on from the topmost place.
    Select {
        selectors: &'t [Selector],
        indexes: &'t [Expr],
    },
    /// Tests the topmost value as an index of the place below it.
    Index(RangeTest),
    /// The value at the topmost place, tested at the site.
    Fetch {
        defined: u32,
    },
    Whole {
        value: &'t Whole,
        indexes: &'t [Expr],
    },
    /// The row at the topmost place, which has this type, tested at the site.
    FetchRow {
        type_id: TypeId,
        defined: u32,
    },
    Value(&'t Expr),
    /// An operation on the topmost value.
    Monadic(Monadic),
    /// The operators of a chain whose value so far is topmost.
    Links(&'t [Link]),
    /// An operation on the two topmost values.
    Combine(Dyadic),
    /// The operator with this number and its right side, whose left side is topmost.
    RightSide {
        number: u32,
        relation: Relation,
        right: &'t Whole,
        indexes: &'t [Expr],
    },
    /// A relation of the two topmost rows.
    Compare(Relation),
    /// The actual parameters of a call, one after another.
    Pass(&'t [Passed]),
    /// Tests the topmost value.
    Test(RangeTest),
    /// An activation of the block with this number, to which so many operands are passed, the last one topmost.
    Activate {
        block: u32,
        count: usize,
    },
    /// Drops the topmost value.
    Discard,
    /// Further members of the set that is topmost, by their designators.
    Gather {
        designators: &'t [Designator],
        members: &'t [Expr],
    },
    /// Tests the topmost value as a member of a set, and adds it to the one below it.
    AddMember {
        site: u32,
    },
    /// Tests the two topmost values as the first and the last member, and adds all between them to the set below them.
    AddRange {
        site: u32,
    },
    /// The records of a with that are left, and its statement.
    With {
        records: &'t [WithRecord],
        body: &'t Box<Stmt>,
    },
    /// The record whose place is topmost, and then further ones and the statement.
    Within {
        records: &'t [WithRecord],
        body: &'t Box<Stmt>,
    },
}

/// Which rounds of a for are left.
#[derive(Clone, Copy)]
pub enum Rounds {
    /// Those between the bounds, which are topmost, the last above the first.
    Between,
    /// Those behind that with a value of the control variable, whose first value was this.
    Behind { first: i32, value: i32, last: i32 },
}

/// What waits for the work in hand, with the work that is left in it, the next on top.
#[derive(Drop)]
pub enum Caller<'t> {
    /// An activation, for one that it called.
    Call {
        activation: Activation,
        pending: Vec<Work<'t>>,
    },
    /// What stands behind a statement of a with, in the same activation.
    With {
        pending: Vec<Work<'t>>,
    },
    /// What stands behind a turn of a for, in the same activation.
    For {
        pending: Vec<Work<'t>>,
    },
}

/// Puts a piece of work on top of what is left.
pub fn put<'t>(pending: &mut Vec<Work<'t>>, work: Work<'t>) -> Result<(), AllocError>
    ensures { OnOk result (pending.new.items ≡ pending.old.items ++ work.entry ∷ []) }
{
    pending.push(work)?;
    Ok(())
}
