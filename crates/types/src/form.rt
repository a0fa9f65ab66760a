ghost use Rattle.std.specs.Prelude.{◌≡◌, ◌<◌, ◌+ℤ◌, pos};
ghost use Rattle.types.specs.Forms.{form_of};
ghost use Rattle.types.specs.declared.form.TypeKind.TheVariants.{Ordinal};
ghost use Rattle.types.specs.Types.{form_kind, form_range, is_same, kind_range, scalar_range, values_in};

use crate::SetBase;

/// What a type is made of (ISO 7185:1990, 6.4), its parts by their numbers in a table.
#[derive(Drop)]
pub enum TypeForm {
    /// The required type integer: -2147483647 to 2147483647.
    Integer,
    /// The required type Boolean: false is 0, true is 1.
    Boolean,
    /// The required type char: 0 to 127, in the order of ASCII.
    Char,
    /// An enumerated type: its constants count from 0 to the last one.
    Enumeration {
        last: i32,
    },
    /// A subrange of a host type, which is an ordinal type that is no subrange itself.
    Subrange {
        host: TypeId,
        first: i32,
        last: i32,
    },
    /// An array with an element for each value of its index type.
    Array {
        packed: bool,
        index: TypeId,
        element: TypeId,
    },
    /// A record with its fields in the order of the text.
    Record {
        packed: bool,
        fields: Vec<Field>,
    },
    /// The sets of values of a host type from the first to the last (6.4.3.4).
    Set {
        packed: bool,
        host: TypeId,
        first: i32,
        last: i32,
    },
}

impl TypeForm {
    /// The kind of the type.
    pub fn kind(&self) -> TypeKind
        ensures { result ≡ form_kind (form_of self.now) }
    {
        match self {
            TypeForm::Integer => TypeKind::ordinal(-MAXINT, MAXINT),
            TypeForm::Boolean => TypeKind::ordinal(0, 1),
            TypeForm::Char => TypeKind::ordinal(0, 127),
            TypeForm::Enumeration { last } => TypeKind::ordinal(0, *last),
            TypeForm::Subrange { first, last, .. } => TypeKind::ordinal(*first, *last),
            TypeForm::Array { .. } | TypeForm::Record { .. } => TypeKind::Structured,
            TypeForm::Set {
                packed,
                host,
                first,
                last,
            } => TypeKind::Set {
                base: SetBase {
                    host: Some(*host),
                    packed: Some(*packed),
                },
                members: OrdinalRange {
                    first: *first,
                    last: *last,
                },
            },
        }
    }

    /// The values of an ordinal type (6.4.2); none of another.
    pub fn range(&self) -> Option<OrdinalRange>
        ensures { result ≡ form_range (form_of self.now) }
    {
        self.kind().range()
    }
}

/// The kind of a type (6.4.1), by which all that asks for one of them goes.
#[derive(Clone, Copy)]
pub enum TypeKind {
    /// An ordinal type (6.4.2), with its values.
    Ordinal(OrdinalRange),
    /// A set type (6.4.3.4), by what its values are sets of and the values that their members may have.
    Set {
        base: SetBase,
        members: OrdinalRange,
    },
    /// An array or a record (6.4.3).
    Structured,
}

impl TypeKind {
    /// The kind of an ordinal type with these values.
    fn ordinal(first: i32, last: i32) -> TypeKind
        ensures { result ≡ Ordinal (record { first = first; last = last }) }
    {
        TypeKind::Ordinal(OrdinalRange { first, last })
    }

    /// The values of an ordinal type; none of another.
    pub fn range(self) -> Option<OrdinalRange>
        ensures { result ≡ kind_range self }
    {
        match self {
            TypeKind::Ordinal(range) => Some(range),
            TypeKind::Set { .. } | TypeKind::Structured => None,
        }
    }

    /// The values of a scalar type: those of an ordinal type, or those that the members of a set may have; none of a
    /// structured type.
    pub fn scalar_range(self) -> Option<OrdinalRange>
        ensures { result ≡ scalar_range self }
    {
        match self {
            TypeKind::Ordinal(range) => Some(range),
            TypeKind::Set { members, .. } => Some(members),
            TypeKind::Structured => None,
        }
    }
}

/// A field of a record (6.4.3.3), its name in small letters.
#[derive(Drop)]
pub struct Field {
    pub name: Vec<u8>,
    pub type_id: TypeId,
}

/// A field where it lies in its record.
#[derive(Clone, Copy)]
pub struct RecordField {
    /// Its place from 0 among the fields.
    pub position: usize,
    /// How many cells the fields before it take.
    pub offset: u32,
    pub type_id: TypeId,
}

/// The elements of an array: one for each value of the index type.
#[derive(Clone, Copy)]
pub struct ArrayElement {
    pub index: TypeId,
    /// The values of the index type.
    pub range: OrdinalRange,
    pub type_id: TypeId,
    /// How many cells an element takes.
    pub cells: u32,
}

/// A step from a structured value to a component of it (6.5.3).
#[derive(Clone, Copy, PartialEq, Eq, PartialOrd, Ord)]
pub enum Step {
    /// To the element at this index.
    Element(i32),
    /// To the field at this place from 0 in its record.
    Field(usize),
}

/// A type of a table, by its number there.
#[derive(Clone, Copy)]
pub struct TypeId {
    pub index: usize,
}

impl TypeId {
    /// Whether both are one type (6.4.1).
    pub fn same(self, other: TypeId) -> bool
        ensures { result ≡ is_same self other }
    {
        self.index == other.index
    }
}

/// The first and the last value of an ordinal type.
#[derive(Clone, Copy)]
pub struct OrdinalRange {
    pub first: i32,
    pub last: i32,
}

impl OrdinalRange {
    /// How many values it has.
    pub fn count(self) -> u64
        ensures { result ≡ values_in self }
    {
        if self.last < self.first {
            return 0;
        }
        (i64::from(self.last) - i64::from(self.first) + 1) as u64
    }

    /// The value so many behind the first.
    pub fn value(self, behind: u32) -> i32
        requires within { behind < values_in self }
        ensures { result ≡ self.first +ℤ pos behind }
    {
        (i64::from(self.first) + i64::from(behind)) as i32
    }
}

/// The largest number of type integer, and the value of maxint (6.4.2.2).
pub const MAXINT: i32 = 2_147_483_647;
