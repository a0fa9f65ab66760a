//! The syntax tree of a Pascal program (ISO 7185:1990, 6.2 to 6.10), as its tokens spell it.
#![tactic(auto)]

use place::Place;

/// An identifier where it stands (6.1.3). Upper and lower case letters are alike.
#[derive(Clone, Copy)]
pub struct Name<'a> {
    pub text: &'a [u8],
    pub place: Place,
}

/// A program (6.10).
#[derive(Drop)]
pub struct Program<'a> {
    pub name: Name<'a>,
    /// The program parameters, in order; none where no parentheses stand.
    pub parameters: Vec<Name<'a>>,
    pub block: Block<'a>,
}

/// A block (6.2.1).
#[cycle(block)]
#[derive(Drop)]
pub struct Block<'a> {
    /// The constant definitions, in order; none where no part of them stands.
    pub constants: Vec<ConstantDefinition<'a>>,
    /// The type definitions, in order; none where no part of them stands.
    pub types: Vec<TypeDefinition<'a>>,
    pub variables: Vec<VariableGroup<'a>>,
    /// The declarations of procedures and functions, in order; none where no part of them stands.
    pub routines: Vec<Routine<'a>>,
    /// The statements of its compound statement: one or more.
    pub statements: Vec<Stmt<'a>>,
    /// Its last `end`.
    pub end: Place,
}

/// The declaration of a procedure (6.6.1) or of a function (6.6.2).
#[cycle(block)]
#[derive(Drop)]
pub struct Routine<'a> {
    pub heading: Heading<'a>,
    /// Its block; none where the directive `forward` stands in its place.
    pub block: Option<Block<'a>>,
}

/// What stands before the block of a procedure or function, or before `forward`.
#[derive(Drop)]
pub enum Heading<'a> {
    /// `procedure name formals`: of a later declaration too, behind one with `forward` (6.6.1).
    Procedure {
        name: Name<'a>,
        formals: Vec<FormalGroup<'a>>,
    },
    /// `function name formals: result` (6.6.2), the name of its type last.
    Function {
        name: Name<'a>,
        formals: Vec<FormalGroup<'a>>,
        result: Name<'a>,
    },
    /// `function name` (6.6.2): the later declaration of a function, behind one with `forward`.
    Resumed {
        name: Name<'a>,
    },
}

/// Formal parameters that are declared together (6.6.3.1): one or more names, and the name of their type.
#[derive(Drop)]
pub struct FormalGroup<'a> {
    pub by: Passing,
    pub names: Vec<Name<'a>>,
    pub type_name: Name<'a>,
}

/// How actual parameters are passed.
#[derive(Clone, Copy)]
pub enum Passing {
    /// To a value parameter (6.6.3.2).
    Value,
    /// To a variable parameter (6.6.3.3), which stands behind `var`.
    Variable,
}

/// The definition of a constant (6.3): `name = value`.
#[derive(Clone, Copy)]
pub struct ConstantDefinition<'a> {
    pub name: Name<'a>,
    pub value: Constant<'a>,
}

/// A constant (6.3), with a sign or none.
#[derive(Clone, Copy)]
pub struct Constant<'a> {
    pub sign: Option<SignAt>,
    pub value: ConstantValue<'a>,
}

/// A sign where it stands.
#[derive(Clone, Copy)]
pub struct SignAt {
    pub sign: Sign,
    pub place: Place,
}

/// A constant without its sign.
#[derive(Clone, Copy)]
pub enum ConstantValue<'a> {
    /// A number up to 2147483647.
    Number { value: u32, place: Place },
    Name(Name<'a>),
    /// A string with its apostrophes (6.1.7); no sign stands before it.
    String { text: &'a [u8], place: Place },
}

/// The definition of a type (6.4.1): `name = denoter`.
#[derive(Drop)]
pub struct TypeDefinition<'a> {
    pub name: Name<'a>,
    pub denoter: TypeDenoter<'a>,
}

/// Variables that are declared together (6.5.1): one or more names.
#[derive(Drop)]
pub struct VariableGroup<'a> {
    pub names: Vec<Name<'a>>,
    pub denoter: TypeDenoter<'a>,
}

/// What denotes a type (6.4.1).
#[derive(Drop)]
pub enum TypeDenoter<'a> {
    Name(Name<'a>),
    /// The constants of an enumerated type (6.4.2.3): one or more.
    Enumerated {
        constants: Vec<Name<'a>>,
    },
    /// `first..last` (6.4.2.4), with the place of `..`.
    Subrange {
        first: Constant<'a>,
        between: Place,
        last: Constant<'a>,
    },
    /// `array [indexes] of element`, perhaps packed (6.4.3.2), with the place of the word `array`: one or more index
    /// types.
    Array {
        packed: bool,
        place: Place,
        indexes: Vec<TypeDenoter<'a>>,
        element: Box<TypeDenoter<'a>>,
    },
    /// `record` fields `end`, perhaps packed (6.4.3.3), with the place of the word `record`: groups of fields, the n-th
    /// row of one or more names before the n-th denoter, and perhaps a semicolon behind the last.
    Record {
        packed: bool,
        place: Place,
        names: Vec<Vec<Name<'a>>>,
        denoters: Vec<TypeDenoter<'a>>,
        semicolon: bool,
    },
    /// `set of base`, perhaps packed (6.4.3.4), with the place of the word `set`.
    Set {
        packed: bool,
        place: Place,
        base: Box<TypeDenoter<'a>>,
    },
}

/// What selects a component of a variable (6.5.3).
#[derive(Clone, Copy)]
pub enum Selector<'a> {
    /// An index expression, the next of those that stand beside, in brackets of its own, or joined to the index before
    /// it by a comma; with the place of the opening bracket or of the comma.
    Index { place: Place, joined: bool },
    /// The field of a name.
    Field(Name<'a>),
}

/// A statement (6.8).
#[derive(Drop)]
pub enum Stmt<'a> {
    Empty,
    /// `name selectors := value`, with the place of `:=`; an index expression for each selector that is an index.
    Assign {
        name: Name<'a>,
        selectors: Vec<Selector<'a>>,
        indexes: Vec<Expr<'a>>,
        becomes: Place,
        value: Expr<'a>,
    },
    /// The call of a procedure; no actuals where no parentheses stand.
    Call {
        name: Name<'a>,
        actuals: Vec<Actual<'a>>,
    },
    /// One or more statements.
    Compound {
        statements: Vec<Stmt<'a>>,
    },
    /// `if condition then consequence`, or with `else alternative` (6.8.3.4), with the place of the word `if`.
    If {
        place: Place,
        condition: Expr<'a>,
        consequence: Box<Stmt<'a>>,
        alternative: Option<Box<Stmt<'a>>>,
    },
    /// `while condition do body` (6.8.3.8), with the place of the word `while`.
    While {
        place: Place,
        condition: Expr<'a>,
        body: Box<Stmt<'a>>,
    },
    /// `repeat statements until condition` (6.8.3.7), with the place of the word `repeat`: one or more statements.
    Repeat {
        place: Place,
        statements: Vec<Stmt<'a>>,
        condition: Expr<'a>,
    },
    /// `for variable := first to last do body`, or with `downto` (6.8.3.9), with the place of the word `for`.
    For {
        place: Place,
        variable: Name<'a>,
        first: Expr<'a>,
        direction: Direction,
        last: Expr<'a>,
        body: Box<Stmt<'a>>,
    },
    /// `case index of` arms `end` (6.8.3.5), with the place of the word `case`: one or more arms, the n-th row of
    /// constants before the n-th of them, and perhaps a semicolon behind the last.
    Case {
        place: Place,
        index: Expr<'a>,
        constants: Vec<Vec<Constant<'a>>>,
        arms: Vec<Stmt<'a>>,
        semicolon: bool,
    },
    /// `with records do body` (6.8.3.10), with the place of the word `with`: one or more records.
    With {
        place: Place,
        records: Vec<RecordVariable<'a>>,
        body: Box<Stmt<'a>>,
    },
}

/// A variable whose fields are names in the statement behind `with` (6.8.3.10): `name selectors`, and an index
/// expression for each selector that is an index.
#[derive(Drop)]
pub struct RecordVariable<'a> {
    pub name: Name<'a>,
    pub selectors: Vec<Selector<'a>>,
    pub indexes: Vec<Expr<'a>>,
}

/// The way of a control variable (6.8.3.9).
#[derive(Clone, Copy)]
pub enum Direction {
    To,
    DownTo,
}

/// A sign (6.7.2.2).
#[derive(Clone, Copy)]
pub enum Sign {
    Plus,
    Minus,
}

/// An adding or multiplying operator between two operands (6.7.2.1).
#[derive(Clone, Copy)]
pub enum Operator {
    Plus,
    Minus,
    Or,
    Times,
    Div,
    Mod,
    And,
}

/// A relational operator (6.7.2.1).
#[derive(Clone, Copy)]
pub enum RelationalOperator {
    Equal,
    NotEqual,
    Less,
    Greater,
    LessOrEqual,
    GreaterOrEqual,
    In,
}

/// What a member of a set constructor is given by (6.7.1).
#[derive(Clone, Copy)]
pub enum Designator {
    /// Its value.
    Single,
    /// The first and the last of several values: `first..last`.
    Range,
}

/// An expression (6.7.1), its parentheses kept.
#[cycle(expression)]
#[derive(Drop)]
pub enum Expr<'a> {
    /// A number up to 2147483647.
    Number {
        value: u32,
        place: Place,
    },
    /// An entire variable, a constant or a call without actuals.
    Name(Name<'a>),
    /// A component of a variable (6.5.3): one or more selectors, and an index expression for each that is an index.
    Component {
        name: Name<'a>,
        selectors: Vec<Selector<'a>>,
        indexes: Vec<Expr<'a>>,
    },
    /// A string with its apostrophes (6.1.7).
    String {
        text: &'a [u8],
        place: Place,
    },
    /// The call of a function with its actuals: one or more.
    Call {
        name: Name<'a>,
        actuals: Vec<Actual<'a>>,
    },
    /// `( inner )`, with the place of the opening parenthesis.
    Parenthesized {
        open: Place,
        inner: Box<Expr<'a>>,
    },
    /// `[members]`, a set constructor (6.7.1), with the place of the opening bracket: none or more designators, and of
    /// the expressions the next one for each that is single, the next two for each range.
    Set {
        open: Place,
        designators: Vec<Designator>,
        members: Vec<Expr<'a>>,
    },
    /// `not operand`, with the place of the word.
    Not {
        place: Place,
        operand: Box<Expr<'a>>,
    },
    /// A sign, which covers the whole first term of a sum.
    Signed {
        sign: Sign,
        place: Place,
        term: Box<Expr<'a>>,
    },
    /// A first operand, and one or more operators of one precedence with their right operands: a term or a simple
    /// expression.
    Chain {
        first: Box<Expr<'a>>,
        rest: Vec<Link<'a>>,
    },
    /// `left operator right`, a relation, with the place of its operator.
    Relation {
        left: Box<Expr<'a>>,
        operator: RelationalOperator,
        place: Place,
        right: Box<Expr<'a>>,
    },
}

/// An operator of a chain and the operand behind it.
#[cycle(expression)]
#[derive(Drop)]
pub struct Link<'a> {
    pub operator: Operator,
    pub place: Place,
    pub operand: Expr<'a>,
}

/// An actual parameter (6.7.3); in a write or writeln it may have a total width (6.9.3.1).
#[cycle(expression)]
#[derive(Drop)]
pub struct Actual<'a> {
    pub value: Expr<'a>,
    pub width: Option<Expr<'a>>,
}
