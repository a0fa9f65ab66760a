ghost use Rattle.std.specs.Prelude.{◌≡◌};

use crate::{Point, Site};
use place::Place;
use types::{OrdinalRange, TypeId, TypeTable};

/// A program with its names bound and its types known.
#[derive(Drop)]
pub struct Tree {
    /// By block number, in the order of their first headings, the program's block first.
    pub blocks: Vec<Block>,
    /// The block numbers in the order in which the text has their statements: a routine's stand before those of the
    /// block that declares it.
    pub bodies: Vec<u32>,
    /// By root number.
    pub variables: Vec<Variable>,
    /// By id: in the order of places and then of kinds.
    pub sites: Vec<Site>,
    /// By id: in the order of places.
    pub points: Vec<Point>,
    /// By loop number: in the order of their first words.
    pub loops: Vec<Loop>,
    pub types: TypeTable,
}

/// A repetitive statement (ISO 7185:1990, 6.8.3.6), by its number in the order of their first words over the program.
#[derive(Drop)]
pub struct Loop {
    /// The number of the block in which it stands.
    pub block: u32,
    /// The root number of its own control variable, if it is a for statement (6.8.3.9).
    pub control: Option<u32>,
    /// The root numbers of the control variables of the for statements inside it, in the order of the text.
    pub controls: Vec<u32>,
}

/// A block (ISO 7185:1990, 6.2.1): that of the program, or of a routine, which is a procedure or a function.
#[derive(Drop)]
pub struct Block {
    pub heading: Heading,
    /// Its compound statement.
    pub body: Stmt,
    /// Its last `end`.
    pub end: Place,
}

/// What the heading of a block tells (6.6.1, 6.6.2); the program's has no parameters and no result.
#[derive(Drop)]
pub struct Heading {
    /// The numbers of the blocks round it, the program's first: 15 at most.
    pub around: Vec<u32>,
    /// The root numbers of its formal parameters, in their order.
    pub parameters: Vec<u32>,
    /// A function has a result.
    pub result: Option<FunctionResult>,
}

/// The result of a function (6.6.2), an ordinal.
#[derive(Clone, Copy)]
pub struct FunctionResult {
    /// Its root number.
    pub root: u32,
    /// The site at which the function ends without a result (undefined result).
    pub defined: u32,
}

/// A declared variable, by its number in the order of declarations over the program.
#[derive(Clone, Copy)]
pub struct Variable {
    /// The number of the block that declares it.
    pub block: u32,
    pub type_id: TypeId,
    pub kind: VariableKind,
}

/// How a block declares a variable.
#[derive(Clone, Copy)]
pub enum VariableKind {
    /// In its variable declaration part (6.2.1).
    Local,
    /// As a value parameter (6.6.3.2).
    ValueParameter,
    /// As a variable parameter (6.6.3.3).
    VariableParameter,
    /// As the result of a function.
    Result,
}

/// A call of a routine (6.7.3, 6.8.2.3), an entry of its own where it is an expression.
#[derive(Clone, Copy)]
pub struct Call {
    /// Its number in the order of entry over the program.
    pub number: u32,
    /// The place of the routine's name.
    pub name: Place,
    /// The number of the routine's block.
    pub block: u32,
}

/// A variable access (ISO 7185:1990, 6.5.1): an entry of its own. Its index expressions stand beside it.
#[derive(Drop)]
pub struct Access {
    /// Its number in the order of entry over the program.
    pub number: u32,
    /// The root number of the variable at which it begins, or in which the record lies at which it begins.
    pub root: u32,
    pub base: Base,
    /// From the variable or the record to the component that is accessed; none where that is the variable itself.
    pub selectors: Vec<Selector>,
}

/// At what a variable access begins (6.5.1, 6.8.3.10).
#[derive(Drop)]
pub enum Base {
    /// At the variable.
    Variable,
    /// At a record of a `with` statement round it, whose field it names: that of this slot, and the way on which the
    /// record lies in the variable.
    Record { slot: u32, path: Vec<PathStep> },
}

/// A step from a variable towards a record in it.
#[derive(Clone, Copy)]
pub enum PathStep {
    /// To an element, at an index that isn't told.
    Element,
    /// To the field at this place from 0 in its record.
    Field(usize),
}

/// What selects a component of a structured variable (6.5.3).
#[derive(Clone, Copy)]
pub enum Selector {
    /// The element at the next index, which is tested (index); an element takes so many cells.
    Element { fits: RangeTest, cells: u32 },
    /// The field at this place from 0 in its record; the fields before it take so many cells.
    Field { position: usize, offset: u32 },
}

/// A test that what a value holds lies in the range of a type, at a site.
#[derive(Clone, Copy)]
pub struct RangeTest {
    pub site: u32,
    pub tests: Scalar,
    /// Within -2147483647 to 2147483647.
    pub range: OrdinalRange,
}

/// What a scalar value is. A test of a range is one of an ordinal, or of each member of a set.
#[derive(Clone, Copy)]
pub enum Scalar {
    Ordinal,
    Set,
}

/// A statement. Each has its number in the order of entry over the program.
#[derive(Drop)]
pub enum Stmt {
    Empty {
        number: u32,
    },
    Assign(Assignment),
    Copy(Copying),
    Write(Writing),
    Read(Reading),
    Call(ProcedureCall),
    Compound {
        number: u32,
        statements: Vec<Stmt>,
    },
    /// A Boolean condition, and the statement that is executed where it is true; perhaps one for where it is false.
    If {
        number: u32,
        condition: Expr,
        consequence: Box<Stmt>,
        alternative: Option<Box<Stmt>>,
    },
    /// The condition is tested before each execution of the body.
    While {
        head: LoopHead,
        body: Box<Stmt>,
    },
    /// The condition is tested behind each execution of the statements.
    Repeat {
        head: LoopHead,
        statements: Vec<Stmt>,
    },
    For {
        head: ForHead,
        body: Box<Stmt>,
    },
    /// The n-th row of constants of the head stands before the n-th arm.
    Case {
        head: CaseHead,
        arms: Vec<Stmt>,
    },
    /// The records of the head are accessed, and then comes the body.
    With {
        head: WithHead,
        body: Box<Stmt>,
    },
}

/// An assignment to an ordinal or a set (6.8.2.2): the target is accessed, then comes the value, then its test
/// (subrange, or of a set set member).
#[derive(Drop)]
pub struct Assignment {
    pub number: u32,
    /// The place of `:=`.
    pub becomes: Place,
    pub target: Access,
    pub indexes: Vec<Expr>,
    pub fits: RangeTest,
    pub value: Expr,
}

/// An assignment of a structured type (6.8.2.2): the target is accessed, and then comes the value, whose components are
/// copied in their order.
#[derive(Drop)]
pub struct Copying {
    pub number: u32,
    /// The place of `:=`.
    pub becomes: Place,
    pub target: Access,
    pub indexes: Vec<Expr>,
    /// The type of the target.
    pub type_id: TypeId,
    pub value: Whole,
    pub value_indexes: Vec<Expr>,
}

/// A write or writeln (6.9.3, 6.9.4): each parameter is written before the next is evaluated; a writeln ends the line
/// behind them.
#[derive(Drop)]
pub struct Writing {
    pub number: u32,
    /// The place of its name.
    pub name: Place,
    pub parameters: Vec<WriteParameter>,
    pub ends_line: bool,
}

/// A read or readln (6.9.1, 6.9.2): each variable is accessed and read before the next; a readln passes the next line
/// end behind them.
#[derive(Drop)]
pub struct Reading {
    pub number: u32,
    /// The place of its name.
    pub name: Place,
    pub variables: Vec<ReadVariable>,
    /// The point at which a readln wants a line end.
    pub line: Option<u32>,
}

/// A variable that is read, of a type whose host is integer or char.
#[derive(Drop)]
pub struct ReadVariable {
    pub access: Access,
    pub indexes: Vec<Expr>,
    pub reads: Readable,
    /// The point at which it is read.
    pub point: u32,
    /// The values of its type, within -2147483647 to 2147483647.
    pub range: OrdinalRange,
}

/// What is read of the input (6.9.1).
#[derive(Clone, Copy)]
pub enum Readable {
    Integer,
    Char,
}

/// A procedure is called (6.8.2.3): its actual parameters are passed from left to right, and then its block is
/// executed.
#[derive(Drop)]
pub struct ProcedureCall {
    pub call: Call,
    pub actuals: Vec<Passed>,
}

/// What a while or a repeat has beside statements (6.8.3.7, 6.8.3.8).
#[derive(Drop)]
pub struct LoopHead {
    pub number: u32,
    pub loop_number: u32,
    /// The place of the word `while` or `repeat`.
    pub place: Place,
    /// A Boolean.
    pub condition: Expr,
}

/// What a for has beside its statement (6.8.3.9): both bounds are evaluated once; where the body is executed at all,
/// the first and then the last is tested.
#[derive(Drop)]
pub struct ForHead {
    pub number: u32,
    pub loop_number: u32,
    /// The place of the word `for`.
    pub place: Place,
    /// The root number of the control variable.
    pub control: u32,
    pub first: Fitted,
    pub direction: Direction,
    pub last: Fitted,
}

/// A value, and the test that it fits a variable's type (subrange).
#[derive(Drop)]
pub struct Fitted {
    pub value: Expr,
    pub fits: RangeTest,
}

/// What a case has beside its arms (6.8.3.5): the arm is executed before which the value of the index stands among the
/// constants. Where there is none it is an error, at the site.
#[derive(Drop)]
pub struct CaseHead {
    pub number: u32,
    pub site: u32,
    pub index: Expr,
    pub constants: Vec<Vec<i32>>,
}

/// What a with has beside its statement (6.8.3.10): each record is accessed once, in their order, and keeps the slot of
/// its place from the first one on. So a slot is how many records stand round a place in its block.
#[derive(Drop)]
pub struct WithHead {
    pub number: u32,
    /// The slot of the first record.
    pub first_slot: u32,
    pub records: Vec<WithRecord>,
}

/// A record whose fields are named alone in the statement of a with.
#[derive(Drop)]
pub struct WithRecord {
    pub access: Access,
    pub indexes: Vec<Expr>,
}

/// The way of a control variable (6.8.3.9).
#[derive(Clone, Copy)]
pub enum Direction {
    To,
    DownTo,
}

/// A value that is written (ISO 7185:1990, 6.9.3), before its width is evaluated.
#[derive(Drop)]
pub struct WriteParameter {
    pub value: Written,
    /// The default width where there is none.
    pub width: Option<Width>,
}

/// What is written: an ordinal, or a string (6.9.3.6).
#[derive(Drop)]
pub enum Written {
    Ordinal {
        value: Expr,
        representation: Representation,
    },
    String {
        value: Whole,
        indexes: Vec<Expr>,
    },
}

/// How an ordinal is written, by its type (6.9.3.2, 6.9.3.3, 6.9.3.5).
#[derive(Clone, Copy)]
pub enum Representation {
    Char,
    Integer,
    Boolean,
}

/// A total width (6.9.3.1), tested at the site: it has to be at least 1.
#[derive(Drop)]
pub struct Width {
    pub value: Expr,
    pub site: u32,
}

/// An operation on one operand: a sign (6.7.2.2), `not` (6.7.2.3), or a required function (6.6.6.2, 6.6.6.4, 6.6.6.5).
#[derive(Clone, Copy)]
pub enum Monadic {
    /// What is calculated from the number of the operand.
    Plain(Calculation),
    /// The number has to pass the test, and then comes another of the same type.
    Tested { fits: RangeTest, does: Shift },
}

/// What is calculated from any number.
#[derive(Clone, Copy)]
pub enum Calculation {
    /// The number itself, as of `+`.
    Same,
    /// The number with the other sign.
    Negative,
    /// The other truth value.
    Complement,
    /// The number without its sign.
    Absolute,
    /// The square, tested at the site `overflow`.
    Square { overflow: u32 },
    /// Whether it is odd.
    Parity,
    /// The number itself, as of ord.
    Ordinal,
}

/// The way from a number that passed a test to the result.
#[derive(Clone, Copy)]
pub enum Shift {
    /// The number itself, as of chr.
    Same,
    /// The next one, as of succ.
    Next,
    /// The one before, as of pred.
    Previous,
}

/// An operation on two operands (6.7.2.1).
#[derive(Clone, Copy)]
pub enum Dyadic {
    /// The result is tested at the site `overflow`, as for the next two.
    Plus { overflow: u32 },
    Minus { overflow: u32 },
    Times { overflow: u32 },
    /// The divisor is tested at the site `by_zero`.
    Div { by_zero: u32 },
    /// The right operand is tested at the site `by_zero_or_less`.
    Mod { by_zero_or_less: u32 },
    And,
    Or,
    Relation(Relation),
    /// The operations of sets (6.7.2.4), which have no site, as the next two.
    Union,
    Difference,
    Intersection,
    /// A relation of two sets.
    SetRelation(SetRelation),
    /// Whether the ordinal on the left is a member of the set on the right (6.7.2.5).
    In,
}

/// A relation of two sets (6.7.2.5).
#[derive(Clone, Copy)]
pub enum SetRelation {
    Equal,
    NotEqual,
    /// Each member of the left one is a member of the right one.
    Included,
    /// Each member of the right one is a member of the left one.
    Includes,
}

/// A relation of two ordinals, or of two strings (6.7.2.5).
#[derive(Clone, Copy)]
pub enum Relation {
    Equal,
    NotEqual,
    Less,
    Greater,
    LessOrEqual,
    GreaterOrEqual,
}

/// What a member of a set constructor is given by (6.7.1), with the site of its test (set member).
#[derive(Clone, Copy)]
pub enum Designator {
    /// Its value.
    Single { site: u32 },
    /// The first and the last of several values, which are none where the first lies above the last.
    Range { site: u32 },
}

/// An expression, of an ordinal or of a set, its parentheses gone. Each factor, sign and operator has its number in the
/// order of entry over the program; an operator is entered after its left operand and before its right one.
#[cycle(expression)]
#[derive(Drop)]
pub enum Expr {
    /// A number or a constant, of -2147483647 to 2147483647; a Boolean is 0 or 1.
    Constant {
        number: u32,
        value: i32,
    },
    /// The value of a variable or of a component, which holds an ordinal or a set, tested at the site `defined`
    /// (undefined variable).
    Variable {
        access: Access,
        indexes: Vec<Expr>,
        holds: Scalar,
        defined: u32,
    },
    /// What is asked of the input.
    Input {
        number: u32,
        asks: InputTest,
    },
    /// A set constructor (6.7.1): of its members the next one for each designator that is single, the next two for each
    /// range. Those of a designator are tested before the next are evaluated: each lies in 0 to 127.
    Set {
        number: u32,
        designators: Vec<Designator>,
        members: Vec<Expr>,
    },
    Monadic {
        number: u32,
        operation: Monadic,
        operand: Box<Expr>,
    },
    /// Operators of one precedence, from left to right.
    Chain {
        first: Box<Expr>,
        rest: Vec<Link>,
    },
    /// A relation of two strings of equal length, character by character. The operator is entered after `left` and
    /// before `right`.
    Compare {
        number: u32,
        relation: Relation,
        left: Whole,
        left_indexes: Vec<Expr>,
        right: Whole,
        right_indexes: Vec<Expr>,
    },
    /// A function is called: its actual parameters are passed from left to right, and then its block is executed.
    Call {
        call: Call,
        actuals: Vec<Passed>,
    },
}

/// An actual parameter (6.6.3), as it is passed.
#[cycle(expression)]
#[derive(Drop)]
pub enum Passed {
    /// To a value parameter of an ordinal type or a set type: the value is tested (subrange, or of a set set member).
    Value {
        value: Expr,
        fits: RangeTest,
    },
    /// To a value parameter of a structured type, this one: a copy of the value.
    Whole {
        type_id: TypeId,
        value: Whole,
        indexes: Vec<Expr>,
    },
    /// To a variable parameter of this type: the variable or the component that is accessed.
    Reference {
        type_id: TypeId,
        access: Access,
        indexes: Vec<Expr>,
    },
}

/// A value of a structured type (6.4.3), an entry of its own. Its index expressions stand beside it.
#[derive(Drop)]
pub enum Whole {
    /// A string of two or more characters, 65,536 at most, each of 0 to 127; nothing counts as an index of it.
    Text {
        number: u32,
        characters: Vec<u8>,
    },
    /// The value of a variable or of a component: so many cells, one for each scalar component, all of which are tested
    /// at the site `defined` (undefined variable).
    Variable {
        access: Access,
        type_id: TypeId,
        cells: u32,
        defined: u32,
    },
}

/// What is asked of the input (6.6.6.5).
#[derive(Clone, Copy)]
pub enum InputTest {
    /// Whether nothing is left of it.
    End,
    /// Whether a line ends there; something has to be left, at this point.
    LineEnd { point: u32 },
}

/// An operator of a chain, and its right operand.
#[cycle(expression)]
#[derive(Drop)]
pub struct Link {
    pub number: u32,
    pub operation: Dyadic,
    pub operand: Expr,
}

/// The sites of a program, in the order of places and then of kinds, so in the order of their ids.
pub fn sites(tree: &Tree) -> &[Site]
    ensures { result.now ≡ tree.now.sites.items }
{
    tree.sites.as_slice()
}
