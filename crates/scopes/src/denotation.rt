use types::TypeId;

/// What a name denotes (ISO 7185:1990, 6.2.2).
#[derive(Clone, Copy)]
pub enum Denotation {
    TypeName(TypeId),
    Constant {
        value: i32,
        type_id: TypeId,
    },
    /// A string of two or more characters (6.3), by its number among those that constants are.
    Text {
        number: usize,
        type_id: TypeId,
    },
    /// The variable with this root number.
    Variable {
        root: u32,
        type_id: TypeId,
    },
    /// A field of the record of a `with` statement round the place (6.8.3.10): by the slot of the record, the field's
    /// place from 0 there, how many cells the fields before it take, and its type.
    Field {
        slot: u32,
        position: usize,
        offset: u32,
        type_id: TypeId,
    },
    Procedure(RequiredProcedure),
    Function(RequiredFunction),
    /// A procedure, or a function, which a program declares: by the number of its block.
    Routine {
        block: u32,
        is_function: bool,
    },
    /// A required function that asks something of the input (6.6.6.5).
    InputFunction(InputFunction),
    /// A file, a program parameter (6.10).
    File(File),
}

/// A name in small letters, and what it denotes.
#[derive(Drop)]
pub struct Definition {
    pub name: Vec<u8>,
    pub denotation: Denotation,
}

/// A file that a program may have (6.10).
#[derive(Clone, Copy)]
pub enum File {
    Input,
    Output,
}

/// A required function of the file input (6.6.6.5).
#[derive(Clone, Copy)]
pub enum InputFunction {
    Eof,
    Eoln,
}

/// A required procedure (6.6.4, 6.9): it reads the input or writes the output.
#[derive(Clone, Copy)]
pub struct RequiredProcedure {
    pub file: File,
    /// A readln passes the next line end, and a writeln ends the line.
    pub ends_line: bool,
}

/// A required function of one ordinal (6.6.6), by what it takes and gives, and what it does.
#[derive(Clone, Copy)]
pub struct RequiredFunction {
    pub takes: FunctionArgument,
    pub gives: FunctionType,
    pub does: FunctionOperation,
}

/// What a required function takes.
#[derive(Clone, Copy)]
pub enum FunctionArgument {
    /// An integer (6.6.6.2, 6.6.6.4, 6.6.6.5).
    Integer,
    /// A value of any ordinal type (6.6.6.4).
    Ordinal,
}

/// The type of a required function's result.
#[derive(Clone, Copy)]
pub enum FunctionType {
    /// The type integer (6.6.6.2, 6.6.6.4).
    Integer,
    /// The type Boolean (6.6.6.5).
    Boolean,
    /// The type char (6.6.6.4).
    Char,
    /// That of the argument (6.6.6.4).
    OfArgument,
}

/// How a required function comes from the number of its argument to its result.
#[derive(Clone, Copy)]
pub enum FunctionOperation {
    /// It calculates from any number.
    Calculates(FunctionValue),
    /// It tests the number, and the test says what the result is.
    Tests(FunctionTest),
}

/// What a required function calculates.
#[derive(Clone, Copy)]
pub enum FunctionValue {
    /// The number itself (6.6.6.4).
    Same,
    /// The number without its sign (6.6.6.2).
    Absolute,
    /// The square, which has to be an integer (6.6.6.2).
    Square,
    /// Whether it is odd (6.6.6.5).
    Parity,
}

/// What a required function tests.
#[derive(Clone, Copy)]
pub enum FunctionTest {
    /// Whether it is the number of a character, which is the result (6.6.6.4).
    Character,
    /// Whether its type has a value behind it, which is the result (6.6.6.4).
    Next,
    /// Whether its type has a value before it, which is the result (6.6.6.4).
    Previous,
}
