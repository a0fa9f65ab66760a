ghost use Rattle.std.specs.Prelude.{◌≡◌, IfOk, OnOk};
ghost use Rattle.typing.specs.Names.{folded};
ghost use Rattle.typing.specs.Routines.{heading_name};

use scopes::FunctionTest::{Character, Next, Previous};
use scopes::FunctionValue::{Absolute, Parity, Same, Square};
use scopes::{
    Denotation, File, FunctionArgument, FunctionOperation, FunctionType, InputFunction,
    RequiredFunction, RequiredProcedure,
};
use std::alloc::{AllocError, Global};
use syntax_tree::{Heading, Name};
use types::{MAXINT, TypeTable};

/// A name in small letters: small and capital letters are alike (6.1.3).
pub fn folded(alloc: Global, name: &[u8]) -> Result<Vec<u8>, AllocError>
    ensures { IfOk result (λ key. key.items ≡ folded name.now) }
{
    name.iter()
        .map(|letter| letter.to_ascii_lowercase())
        .collect(alloc)
}

// The same, in place of what the key was.
pub(crate) fn fold_into(key: &mut Vec<u8>, name: &[u8]) -> Result<(), AllocError>
    ensures { OnOk result (key.new.items ≡ folded name.now) }
{
    key.clear();
    key.extend_from_slice(name)?;
    key.make_ascii_lowercase();
    Ok(())
}

/// The name of a procedure or function.
pub fn heading_name<'a>(heading: &Heading<'a>) -> Name<'a>
    ensures { result ≡ heading_name heading.now }
{
    match heading {
        Heading::Procedure { name, .. }
        | Heading::Function { name, .. }
        | Heading::Resumed { name } => *name,
    }
}

// What a required identifier denotes: a constant, a procedure, or a function with what it takes and gives.
macro_rules! denotes {
    (constant $value:expr, $type:ident) => {
        Denotation::Constant {
            value: $value,
            type_id: TypeTable::$type,
        }
    };
    (procedure $file:ident, $ends_line:expr) => {
        Denotation::Procedure(RequiredProcedure {
            file: File::$file,
            ends_line: $ends_line,
        })
    };
    ($takes:ident -> $gives:ident, $does:ident $what:ident) => {
        Denotation::Function(RequiredFunction {
            takes: FunctionArgument::$takes,
            gives: FunctionType::$gives,
            does: FunctionOperation::$does($what),
        })
    };
}

/// The required identifiers (6.2.2.10).
pub const REQUIRED: [(&[u8], Denotation); 19] = [
    (b"integer", Denotation::TypeName(TypeTable::INTEGER)),
    (b"boolean", Denotation::TypeName(TypeTable::BOOLEAN)),
    (b"char", Denotation::TypeName(TypeTable::CHAR)),
    (b"maxint", denotes!(constant MAXINT, INTEGER)),
    (b"false", denotes!(constant 0, BOOLEAN)),
    (b"true", denotes!(constant 1, BOOLEAN)),
    (b"write", denotes!(procedure Output, false)),
    (b"writeln", denotes!(procedure Output, true)),
    (b"read", denotes!(procedure Input, false)),
    (b"readln", denotes!(procedure Input, true)),
    (b"eof", Denotation::InputFunction(InputFunction::Eof)),
    (b"eoln", Denotation::InputFunction(InputFunction::Eoln)),
    (b"abs", denotes!(Integer -> Integer, Calculates Absolute)),
    (b"sqr", denotes!(Integer -> Integer, Calculates Square)),
    (b"odd", denotes!(Integer -> Boolean, Calculates Parity)),
    (b"ord", denotes!(Ordinal -> Integer, Calculates Same)),
    (b"chr", denotes!(Integer -> Char, Tests Character)),
    (b"succ", denotes!(Ordinal -> OfArgument, Tests Next)),
    (b"pred", denotes!(Ordinal -> OfArgument, Tests Previous)),
];
