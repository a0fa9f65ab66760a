ghost use Rattle.std.specs.Prelude.{◌≡◌, ◌⊎◌, ◌++◌, ◌*◌, ◌∷◌, [], List, Err, IfOk, IsOk, OnErr, OnOk, map};
ghost use Rattle.std.specs.Prelude.{◌<◌, ◌^◌, Some, length, option_map, sum_by};
ghost use Rattle.types.specs.Types.{admitted, admitted_cells, cells_at, counted, few, form_at, form_cells, is_turned};
ghost use Rattle.types.specs.Types.{has_outside_members, own_field, required_forms, values_at};
ghost use Rattle.types.specs.Forms.{Form, field_form, form_of};
ghost use Rattle.types.specs.Kept.{counted_of, forms_of};
ghost use Rattle.memory.specs.Refused.{the_refusal};
ghost use Rattle.types.specs.declared.refusal.TypeRefusal.TheVariants.{Memory};

use crate::refusal::TypeRefusal;
use crate::{ArrayElement, Field, OrdinalRange, RecordField, SetBase, TypeForm, TypeId, TypeKind};
use std::alloc::{AllocError, Global};
use std::marker::Model;

/// How many cells a variable of a type takes at most.
pub const MOST_CELLS: u32 = 65_536;

// A type of the table, with the cells that a variable of it takes.
#[derive(Drop)]
struct Entry {
    form: TypeForm,
    cells: u32,
}

/// The types of a program, by number.
#[derive(Drop)]
pub struct TypeTable {
    entries: Vec<Entry>,
}

impl Model for TypeTable {
    ghost Value = { List Form };

    ghost view = { λ table. forms_of table.entries.items };

    ghost invariant = { λ table. map counted_of table.entries.items ≡ counted (forms_of table.entries.items) };
}

impl TypeTable {
    ghost use Rattle.types.specs.Types.{cells_of, element_of, field_of, host_of, is_assignable, is_compatible};
    ghost use Rattle.types.specs.Types.{is_ordinal, is_scalar, is_string, is_structured, kind_of, range_of};
    ghost use Rattle.types.specs.Types.{scalar_range_of, set_base, string_length};

    /// The type integer in each table.
    pub const INTEGER: TypeId = TypeId { index: 0 };

    /// The type Boolean in each table.
    pub const BOOLEAN: TypeId = TypeId { index: 1 };

    /// The type char in each table.
    pub const CHAR: TypeId = TypeId { index: 2 };

    /// The table of the required types.
    pub fn required(alloc: Global) -> Result<TypeTable, AllocError>
        ensures { IfOk result (λ table. table ≡ required_forms) }
    {
        let mut entries = Vec::new(alloc);
        entries.push(scalar(TypeForm::Integer))?;
        entries.push(scalar(TypeForm::Boolean))?;
        entries.push(scalar(TypeForm::Char))?;
        Ok(TypeTable { entries })
    }

    /// Puts a form over types of this table into it, as a type of its own, and answers its number. Refused by Y1, Y2 or
    /// Y3, or else for want of memory, it leaves the table as it was.
    pub fn add(&mut self, form: TypeForm) -> Result<TypeId, TypeRefusal>
        ensures added { OnOk result (self.new ≡ self.old ++ form_of form ∷ []) }
        ensures unchanged { OnErr result (self.new ≡ self.old) }
        ensures told { (result ≡ admitted self.old (form_of form))
            ⊎ (IsOk (admitted self.old (form_of form)) × (result ≡ Err (Memory the_refusal))) }
    {
        let cells = self.admit(&form)?;
        let index = self.entries.len();
        self.entries.push(Entry { form, cells })?;
        Ok(TypeId { index })
    }

    /// What a type is made of.
    pub fn form(&self, id: TypeId) -> Option<&TypeForm>
        ensures { option_map (λ form. form_of form.now) result ≡ form_at self.now id }
    {
        Some(&self.entries.get(id.index)?.form)
    }

    /// The host type of a subrange; another type itself (6.4.2.4).
    pub fn host(&self, id: TypeId) -> TypeId
        ensures { result ≡ host_of self.now id }
    {
        match self.form(id) {
            Some(TypeForm::Subrange { host, .. }) => *host,
            _ => id,
        }
    }

    /// Whether two types are compatible (6.4.5).
    pub fn compatible(&self, first: TypeId, second: TypeId) -> bool
        ensures { result ≡ is_compatible self.now first second }
    {
        self.host(first).same(self.host(second))
            || self.are_equally_long(first, second)
            || self.are_compatible_sets(first, second)
    }

    /// Whether a value of one type may be assigned to another, if it lies in its range (6.4.6).
    pub fn assignable(&self, target: TypeId, value: TypeId) -> bool
        ensures { result ≡ is_assignable self.now target value }
    {
        self.compatible(target, value)
    }

    /// The kind of a type (6.4.1).
    pub fn kind(&self, id: TypeId) -> Option<TypeKind>
        ensures { result ≡ kind_of self.now id }
    {
        Some(self.form(id)?.kind())
    }

    /// The values of an ordinal type (6.4.2); none of another.
    pub fn range(&self, id: TypeId) -> Option<OrdinalRange>
        ensures { result ≡ range_of self.now id }
    {
        self.form(id)?.range()
    }

    /// Whether a type is ordinal (6.4.2).
    pub fn is_ordinal(&self, id: TypeId) -> bool
        ensures { result ≡ is_ordinal self.now id }
    {
        self.range(id).is_some()
    }

    /// The values of a scalar type: those of an ordinal type, or those that the members of a set may have; none of
    /// another.
    pub fn scalar_range(&self, id: TypeId) -> Option<OrdinalRange>
        ensures { result ≡ scalar_range_of self.now id }
    {
        self.kind(id)?.scalar_range()
    }

    /// Whether a variable of a type has one value, an ordinal or a set.
    pub fn is_scalar(&self, id: TypeId) -> bool
        ensures { result ≡ is_scalar self.now id }
    {
        self.scalar_range(id).is_some()
    }

    /// What the values of a set type are sets of (6.4.3.4); none of another.
    pub fn set_base(&self, id: TypeId) -> Option<SetBase>
        ensures { result ≡ set_base self.now id }
    {
        match self.form(id)? {
            TypeForm::Set { packed, host, .. } => Some(SetBase {
                host: Some(*host),
                packed: Some(*packed),
            }),
            _ => None,
        }
    }

    /// Whether a type is an array or a record (6.4.3).
    pub fn is_structured(&self, id: TypeId) -> bool
        ensures { result ≡ is_structured self.now id }
    {
        matches!(self.kind(id), Some(TypeKind::Structured))
    }

    /// How many components a string type has; none, where the type is no string (6.4.3.2).
    pub fn string_length(&self, id: TypeId) -> Option<u32>
        ensures { result ≡ string_length self.now id }
    {
        match self.form(id)? {
            TypeForm::Array {
                packed: true,
                index,
                element,
            } if element.same(TypeTable::CHAR) => self.string_last(*index),
            _ => None,
        }
    }

    /// Whether a type is a string type (6.4.3.2).
    pub fn is_string(&self, id: TypeId) -> bool
        ensures { result ≡ is_string self.now id }
    {
        self.string_length(id).is_some()
    }

    /// How many cells a variable of the type takes.
    pub fn cells(&self, id: TypeId) -> u32
        ensures { result ≡ cells_of self.now id }
    {
        self.entries.get(id.index).map_or(1, |entry| entry.cells)
    }

    /// The field of a record that has this name in small letters (6.5.3.3); none, where the type has no such field, or
    /// the field's type does not stand before it in the table.
    pub fn field(&self, id: TypeId, name: &[u8]) -> Option<RecordField>
        ensures { result ≡ field_of self.now id name.now }
    {
        // An offset is no more than all the cells of the record.
        let _cells = self.cells(id);
        match self.form(id)? {
            TypeForm::Record { fields, .. } => own_field(id, self.field_among(id, fields, name)?),
            _ => None,
        }
    }

    /// The elements of an array (6.5.3.2); none, where the type is no array, or its index type or that of the elements
    /// does not stand before it in the table.
    pub fn element(&self, id: TypeId) -> Option<ArrayElement>
        ensures { result ≡ element_of self.now id }
    {
        match self.form(id)? {
            TypeForm::Array { index, element, .. } => self.elements(id, *index, *element),
            _ => None,
        }
    }
}

impl TypeTable {
    ghost use Rattle.types.specs.Types.{before, elements, field_among, have_one_base, have_one_length, range_of};
    ghost use Rattle.types.specs.Types.{set_base, string_last, string_length};

    // How many types there are.
    pub(crate) fn count(&self) -> usize
        ensures { result ≡ length self.now }
    {
        self.entries.len()
    }

    // Whether two types are strings of equal length.
    fn are_equally_long(&self, first: TypeId, second: TypeId) -> bool
        ensures { result ≡ have_one_length (string_length self.now first) (string_length self.now second) }
    {
        match (self.string_length(first), self.string_length(second)) {
            (Some(length), Some(other)) => length == other,
            _ => false,
        }
    }

    // Whether two types are sets of one host type, both packed or both not.
    fn are_compatible_sets(&self, first: TypeId, second: TypeId) -> bool
        ensures { result ≡ have_one_base (set_base self.now first) (set_base self.now second) }
    {
        match (self.set_base(first), self.set_base(second)) {
            (Some(base), Some(other)) => base.compatible(other),
            _ => false,
        }
    }

    // The last value of the index type of a string.
    fn string_last(&self, index: TypeId) -> Option<u32>
        ensures { result ≡ string_last (form_at self.now index) }
    {
        match self.form(index)? {
            TypeForm::Subrange {
                host,
                first: 1,
                last,
            } if host.same(TypeTable::INTEGER) && *last > 1 => Some(*last as u32),
            _ => None,
        }
    }

    // The cells of a form that may be a type of the table.
    fn admit(&self, form: &TypeForm) -> Result<u32, TypeRefusal>
        ensures { result ≡ admitted_cells self.now (form_of form.now) }
    {
        if is_turned(form) {
            return Err(TypeRefusal::FirstAboveLast);
        }
        if has_outside_members(form) {
            return Err(TypeRefusal::MembersOutOfRange);
        }
        self.form_cells(form).ok_or(TypeRefusal::TooManyCells)
    }

    // The cells of a form, if they are not too many.
    fn form_cells(&self, form: &TypeForm) -> Option<u32>
        ensures { result ≡ few (form_cells (counted self.now) (form_of form.now)) }
    {
        match form {
            TypeForm::Array { index, element, .. } => self.array_cells(*index, *element),
            TypeForm::Record { fields, .. } => self.record_cells(fields),
            _ => Some(1),
        }
    }

    // Those of an array: for each value of its index type the cells of an element.
    fn array_cells(&self, index: TypeId, element: TypeId) -> Option<u32>
        ensures { result ≡ few (values_at (counted self.now) index * cells_at (counted self.now) element) }
    {
        few(
            self.values(index)
                .saturating_mul(u64::from(self.cells(element))),
        )
    }

    // How many values a type has, if it is ordinal.
    #[tactic(auto, using(crate::proofs::Counts::values_counted))]
    fn values(&self, id: TypeId) -> u64
        ensures { result ≡ values_at (counted self.now) id }
    {
        self.range(id).map_or(0, |range| range.count())
    }

    // The cells of a part of a type, if it stands before it.
    #[tactic(auto, using(crate::proofs::Counts::cells_before, crate::proofs::Counts::cells_not_before))]
    pub(crate) fn part_cells(&self, id: TypeId, part: TypeId) -> u32
        ensures { result ≡ cells_at (before self.now id) part }
    {
        if part.index >= id.index {
            return 1;
        }
        self.cells(part)
    }

    // The elements of an array with these types.
    fn elements(&self, id: TypeId, index: TypeId, element: TypeId) -> Option<ArrayElement>
        ensures { result ≡ elements (before self.now id) id index element (range_of self.now index) }
    {
        let range = self.range(index)?;
        if index.index >= id.index || element.index >= id.index {
            return None;
        }
        Some(ArrayElement {
            index,
            range,
            type_id: element,
            cells: self.part_cells(id, element),
        })
    }

    // The field of a name among those of a record.
    fn field_among(&self, id: TypeId, fields: &[Field], name: &[u8]) -> Option<RecordField>
        requires { sum_by (λ field. cells_at (before self.now id) field.type_id) fields.now < 2 ^ 32 }
        ensures { result ≡ field_among (before self.now id) 0 0 (map field_form fields.now) name.now }
    {
        let mut offset = 0;
        for (position, field) in fields.iter().enumerate() {
            if field.name.as_slice() == name {
                return Some(RecordField {
                    position,
                    offset,
                    type_id: field.type_id,
                });
            }
            offset += self.part_cells(id, field.type_id);
        }
        None
    }

    // Those of a record: the cells of all its fields.
    fn record_cells(&self, fields: &[Field]) -> Option<u32>
        ensures { result ≡ few (sum_by (λ field. cells_at (counted self.now) field.type_id) fields.now) }
    {
        let mut cells = 0;
        for field in fields {
            cells = few(u64::from(cells) + u64::from(self.cells(field.type_id)))?;
        }
        Some(cells)
    }
}

// A field of a record, if its type stands before it.
fn own_field(id: TypeId, field: RecordField) -> Option<RecordField>
    ensures { result ≡ own_field id (Some field) }
{
    if field.type_id.index >= id.index {
        return None;
    }
    Some(field)
}

// Whether the first value of a subrange lies above its last.
fn is_turned(form: &TypeForm) -> bool
    ensures { result ≡ is_turned (form_of form.now) }
{
    match form {
        TypeForm::Subrange { first, last, .. } => first > last,
        _ => false,
    }
}

// Whether a member of a set may lie outside 0 to 127.
fn has_outside_members(form: &TypeForm) -> bool
    ensures { result ≡ has_outside_members (form_of form.now) }
{
    match form {
        TypeForm::Set { first, last, .. } => *first < 0 || *last > 127,
        _ => false,
    }
}

// A number of cells, if a type may take them.
fn few(cells: u64) -> Option<u32>
    ensures { result ≡ few cells }
{
    if cells > u64::from(MOST_CELLS) {
        return None;
    }
    Some(cells as u32)
}

// A scalar type with its one cell.
fn scalar(form: TypeForm) -> Entry
    ensures { result ≡ record { form = form; cells = 1 } }
{
    Entry { form, cells: 1 }
}
