//! What a name denotes, where a certain thing is needed (ISO 7185:1990, 6.2.2).
ghost use Rattle.std.specs.Prelude.{◌≡◌};
ghost use Rattle.typing_rules.specs.Checked.{told};
ghost use Rattle.typing_rules.specs.Denotations.{as_function, as_routine, as_procedure, as_file};
ghost use Rattle.typing_rules.specs.Denotations.{as_control};

use place::Place;
use scopes::{Denotation, File, RequiredFunction, RequiredProcedure, ScopeFault};
use typed_tree::TypeFault;
use types::TypeId;

/// What the scopes answer, at a place.
pub fn placed<T>(answer: Result<T, ScopeFault>, place: Place) -> Result<T, TypeFault>
    ensures { result ≡ told place answer }
{
    match answer {
        Ok(answer) => Ok(answer),
        Err(ScopeFault::Memory(refused)) => Err(TypeFault::Memory(refused)),
        Err(ScopeFault::DeclaredTwice) => Err(TypeFault::DeclaredTwice(place)),
        Err(ScopeFault::UsedBeforeDeclared) => Err(TypeFault::UsedBeforeDeclared(place)),
        Err(ScopeFault::NotDeclared) => Err(TypeFault::NotDeclared(place)),
    }
}

/// The function that a name at a place denotes: K3 where it is a procedure, K1 where it is no routine.
pub fn as_function(place: Place, denotation: Denotation) -> Result<RequiredFunction, TypeFault>
    ensures { result ≡ as_function place denotation }
{
    match denotation {
        Denotation::Function(function) => Ok(function),
        Denotation::Procedure(_) | Denotation::Routine { .. } => {
            Err(TypeFault::WrongParameters(place))
        }
        _ => Err(TypeFault::Mismatch(place)),
    }
}

/// The procedure that a name at a place denotes: K3 where it is a function, K1 where it is no routine.
pub fn as_procedure(place: Place, denotation: Denotation) -> Result<RequiredProcedure, TypeFault>
    ensures { result ≡ as_procedure place denotation }
{
    match denotation {
        Denotation::Procedure(procedure) => Ok(procedure),
        Denotation::Function(_) | Denotation::InputFunction(_) | Denotation::Routine { .. } => {
            Err(TypeFault::WrongParameters(place))
        }
        _ => Err(TypeFault::Mismatch(place)),
    }
}

/// The variable that a name at a place denotes as a control variable, by its root and its type (6.8.3.9): K5 at a field
/// of a record, which no block declares, and K2 where it denotes no variable.
pub fn as_control(place: Place, denotation: Denotation) -> Result<(u32, TypeId), TypeFault>
    ensures { result ≡ as_control place denotation }
{
    match denotation {
        Denotation::Variable { root, type_id } => Ok((root, type_id)),
        Denotation::Field { .. } => Err(TypeFault::Threatened(place)),
        _ => Err(TypeFault::NotVariable(place)),
    }
}

/// The routine that a name denotes, if a program declares it: its block, and whether it is a function.
pub fn as_routine(denotation: Denotation) -> Option<(u32, bool)>
    ensures { result ≡ as_routine denotation }
{
    match denotation {
        Denotation::Routine { block, is_function } => Some((block, is_function)),
        _ => None,
    }
}

/// The file that a name denotes, if it denotes one.
pub fn as_file(denotation: Denotation) -> Option<File>
    ensures { result ≡ as_file denotation }
{
    match denotation {
        Denotation::File(file) => Some(file),
        _ => None,
    }
}
