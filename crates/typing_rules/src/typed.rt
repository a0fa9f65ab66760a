ghost use Rattle.std.specs.Prelude.{◌≡◌};
ghost use Rattle.types.specs.Types.{is_ordinal};
ghost use Rattle.typing_rules.specs.Typed.{is_of, is_ordinal_of, is_scalar_value, ordinal_type, whole_type};

use types::{SetBase, TypeId, TypeTable};

/// What an expression is.
#[derive(Clone, Copy)]
pub struct Typed {
    pub value: TypedValue,
    /// The id of its leading site.
    pub site: Option<u32>,
}

/// The kind of an expression's value (6.4.1), with its type as far as it has one.
#[derive(Clone, Copy)]
pub enum TypedValue {
    /// An ordinal of this host type.
    Ordinal(TypeId),
    /// A set.
    Set(SetBase),
    /// A string of its own, of so many characters.
    Text { type_id: TypeId, length: usize },
    /// The value of a structured variable, of so many cells.
    Whole { type_id: TypeId, cells: usize },
}

impl TypedValue {
    /// The type of an ordinal.
    pub fn ordinal_type(self) -> Option<TypeId>
        ensures { result ≡ ordinal_type self }
    {
        match self {
            TypedValue::Ordinal(type_id) => Some(type_id),
            TypedValue::Set(_) | TypedValue::Text { .. } | TypedValue::Whole { .. } => None,
        }
    }

    /// The type of a string or of another structured value, and how many components it has.
    pub fn whole_type(self) -> Option<(TypeId, usize)>
        ensures { result ≡ whole_type self }
    {
        match self {
            TypedValue::Ordinal(_) | TypedValue::Set(_) => None,
            TypedValue::Text { type_id, length } => Some((type_id, length)),
            TypedValue::Whole { type_id, cells } => Some((type_id, cells)),
        }
    }

    /// Whether it is an ordinal or a set.
    pub fn is_scalar(self) -> bool
        ensures { result ≡ is_scalar_value self }
    {
        matches!(self, TypedValue::Ordinal(_) | TypedValue::Set(_))
    }
}

impl Typed {
    /// Whether it is an ordinal of this type.
    pub fn is_of(self, type_id: TypeId) -> bool
        ensures { result ≡ is_of type_id self }
    {
        self.value
            .ordinal_type()
            .is_some_and(|own| own.same(type_id))
    }

    /// Whether it is an ordinal, of an ordinal type (6.4.2).
    pub fn is_ordinal(self, types: &TypeTable) -> bool
        ensures { result ≡ is_ordinal_of (is_ordinal types.now) self }
    {
        self.value
            .ordinal_type()
            .is_some_and(|own| types.is_ordinal(own))
    }
}
