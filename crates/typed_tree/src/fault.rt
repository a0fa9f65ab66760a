ghost use Rattle.std.specs.Prelude.{◌≡◌};
ghost use Rattle.memory.specs.Refused.{the_refusal};
ghost use Rattle.typed_tree.specs.declared.fault.TypeFault.TheVariants.{Memory};

use memory::Refused;
use place::Place;
use std::alloc::{AllocError, AllocFailed};
use thiserror::Error;

/// Why a syntax tree has no typed tree.
#[derive(Clone, Copy, Debug, Error)]
pub enum TypeFault {
    #[error("no memory")]
    Memory(Refused),
    /// S1, at a name that is declared twice in one block.
    #[error("{0}: declared twice in one block")]
    DeclaredTwice(Place),
    /// S2, at a use in the region of a name before its declaration.
    #[error("{0}: used before its declaration")]
    UsedBeforeDeclared(Place),
    /// S3, at a name that isn't declared.
    #[error("{0}: not declared")]
    NotDeclared(Place),
    /// S4, at the name of a routine whose block would be nested over 16 deep, the program's being the first.
    #[error("{0}: blocks nested too deep")]
    NestedTooDeep(Place),
    /// K1, where types or kinds of things don't fit.
    #[error("{0}: types that don't fit")]
    Mismatch(Place),
    /// K2, at a thing that isn't a variable where one is needed.
    #[error("{0}: not a variable")]
    NotVariable(Place),
    /// K3, where the parameters of a call are wrong.
    #[error("{0}: wrong parameters")]
    WrongParameters(Place),
    /// K4, at a component of a packed variable that is passed to a variable parameter.
    #[error("{0}: a component of a packed variable as variable parameter")]
    PackedComponent(Place),
    /// K5, at the name of a control variable that is none of the variable declaration part of its block, or that the
    /// statement of its for statement or a routine of the block assigns, passes to a variable parameter, or uses as
    /// another one; or where the statement does so.
    #[error("{0}: a control variable is not local, or may be changed inside its statement")]
    Threatened(Place),
    /// K6, at a case constant that was there before, or is not of the index's type.
    #[error("{0}: a case constant that is repeated or of another type")]
    CaseConstant(Place),
    /// K7, at the name of a function whose block assigns it nowhere.
    #[error("{0}: a function is never assigned")]
    NeverAssigned(Place),
    /// K8, at a write or writeln without the program parameter output, and at another program parameter.
    #[error("{0}: input or output is no program parameter")]
    NotProgramParameter(Place),
    /// K9, at the name of a routine that is declared with the directive forward and whose block is missing.
    #[error("{0}: a routine declared forward has no block")]
    NotCompleted(Place),
    /// K10, over 1,000,000 sites, or over 4,000,000 statements and expressions.
    #[error("{0}: too many sites, statements or expressions")]
    TooMany(Place),
    /// Y1, at the `..` of a subrange whose first value lies above its last.
    #[error("{0}: a subrange's first value lies above its last")]
    FirstAboveLast(Place),
    /// Y2, at the variable with which those of a block take over 65,536 cells.
    #[error("{0}: the variables of a block take too many cells")]
    TooManyCells(Place),
    /// Y3, at the word `set` of a type whose sets may have members outside 0 to 127.
    #[error("{0}: a member of a set may lie outside 0 to 127")]
    MembersOutOfRange(Place),
}

impl TypeFault {
    ghost use Rattle.typed_tree.specs.Faults.{code_of, place_of_fault};

    /// The letter of its rule, S, K or Y, and the number behind it; 0 and 0 for `Memory`.
    pub fn code(&self) -> (u8, u8)
        ensures { result ≡ code_of self.now }
    {
        match self {
            TypeFault::Memory(_) => (0, 0),
            TypeFault::DeclaredTwice(_) => (b'S', 1),
            TypeFault::UsedBeforeDeclared(_) => (b'S', 2),
            TypeFault::NotDeclared(_) => (b'S', 3),
            TypeFault::NestedTooDeep(_) => (b'S', 4),
            TypeFault::Mismatch(_) => (b'K', 1),
            TypeFault::NotVariable(_) => (b'K', 2),
            TypeFault::WrongParameters(_) => (b'K', 3),
            TypeFault::PackedComponent(_) => (b'K', 4),
            TypeFault::Threatened(_) => (b'K', 5),
            TypeFault::CaseConstant(_) => (b'K', 6),
            TypeFault::NeverAssigned(_) => (b'K', 7),
            TypeFault::NotProgramParameter(_) => (b'K', 8),
            TypeFault::NotCompleted(_) => (b'K', 9),
            TypeFault::TooMany(_) => (b'K', 10),
            TypeFault::FirstAboveLast(_) => (b'Y', 1),
            TypeFault::TooManyCells(_) => (b'Y', 2),
            TypeFault::MembersOutOfRange(_) => (b'Y', 3),
        }
    }

    /// Where it stands in the text. `Memory` stands nowhere.
    pub fn place(&self) -> Option<Place>
        ensures { result ≡ place_of_fault self.now }
    {
        match self {
            TypeFault::Memory(_) => None,
            TypeFault::DeclaredTwice(place)
            | TypeFault::UsedBeforeDeclared(place)
            | TypeFault::NotDeclared(place)
            | TypeFault::NestedTooDeep(place)
            | TypeFault::Mismatch(place)
            | TypeFault::NotVariable(place)
            | TypeFault::WrongParameters(place)
            | TypeFault::PackedComponent(place)
            | TypeFault::Threatened(place)
            | TypeFault::CaseConstant(place)
            | TypeFault::NeverAssigned(place)
            | TypeFault::NotProgramParameter(place)
            | TypeFault::NotCompleted(place)
            | TypeFault::TooMany(place)
            | TypeFault::FirstAboveLast(place)
            | TypeFault::TooManyCells(place)
            | TypeFault::MembersOutOfRange(place) => Some(*place),
        }
    }
}

impl From<AllocError> for TypeFault {
    ghost from_gives = { λ _ e. e ≡ Memory the_refusal };

    fn from(error: AllocError) -> TypeFault {
        TypeFault::Memory(error.into())
    }
}

impl<T: Drop> From<AllocFailed<T>> for TypeFault {
    ghost from_gives = { λ _ e. e ≡ Memory the_refusal };

    fn from(error: AllocFailed<T>) -> TypeFault {
        TypeFault::Memory(error.into())
    }
}
