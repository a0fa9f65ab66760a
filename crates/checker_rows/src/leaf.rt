ghost use Rattle.std.specs.Prelude.{◌≡◌, ◌++◌, ◌∷◌, [], IfOk, OnOk, false, map};
ghost use Rattle.types.specs.Forms.{Record, field_form, form_of};
ghost use Rattle.types.specs.Types.{range_of};
ghost use Rattle.std.specs.Option.{option_and_then};
ghost use Rattle.checker_rows.specs.Leaves.{scalar};
ghost use Rattle.checker_rows.specs.View.{capped, count_at, form_count, leaf_counts, own_type, part_leaves, ranges_on};
ghost use Rattle.checker_rows.specs.View.{way_behind};

use std::alloc::{AllocError, Global};
use types::{Field, OrdinalRange, TypeForm, TypeId, TypeTable};

/// What is known of a row by its type.
#[derive(Clone, Copy)]
pub(crate) struct RowRanges {
    /// The type of its components, if that is there.
    pub type_id: Option<TypeId>,
    /// The values of its components, or those that the members of these may have.
    pub values: Option<OrdinalRange>,
    /// The values of the first index on the way to them, and of the second.
    pub index: Option<OrdinalRange>,
    pub inner: Option<OrdinalRange>,
}

/// The way from a variable to a part of it; the values of two indexes on it are kept.
#[derive(Clone, Copy)]
pub(crate) enum Descent {
    /// By fields alone.
    Direct,
    /// By one index, or by more, if the tree doesn't tell the values of the first.
    Once(Option<OrdinalRange>),
    /// By two or more.
    Twice(OrdinalRange, Option<OrdinalRange>),
}

impl Descent {
    // On to the elements of an array.
    fn behind(self, index: Option<OrdinalRange>) -> Descent
        ensures { result ≡ way_behind self index }
    {
        match self {
            Descent::Direct => Descent::Once(index),
            Descent::Once(None) => self,
            Descent::Once(Some(first)) => Descent::Twice(first, index),
            Descent::Twice(_, _) => self,
        }
    }

    // The row of a scalar there.
    fn scalar(self, type_id: Option<TypeId>, values: Option<OrdinalRange>) -> RowRanges
        ensures { result ≡ ranges_on self (scalar type_id values) }
    {
        let (index, inner) = match self {
            Descent::Direct => (None, None),
            Descent::Once(first) => (first, None),
            Descent::Twice(first, second) => (Some(first), second),
        };
        RowRanges {
            type_id,
            values,
            index,
            inner,
        }
    }
}

/// Puts the leaves of a part behind rows.
pub(crate) fn add_leaves(
    types: &TypeTable,
    part: Option<TypeId>,
    way: Descent,
    rows: &mut Vec<RowRanges>,
) -> Result<(), AllocError>
    ensures { OnOk result (rows.new.items ≡ rows.old.items ++ map (ranges_on way) (part_leaves types.now part)) }
{
    let Some(id) = part else {
        return add_row(way.scalar(None, None), rows);
    };
    let Some(form) = types.form(id) else {
        return add_row(way.scalar(None, None), rows);
    };
    match form {
        TypeForm::Array { index, element, .. } => {
            let range = part_range(types, own_type(id, *index));
            add_leaves(types, own_type(id, *element), way.behind(range), rows)
        }
        TypeForm::Record { fields, .. } => {
            for field in fields {
                add_leaves(types, own_type(id, field.type_id), way, rows)?;
            }
            Ok(())
        }
        _ => add_row(way.scalar(part, form.kind().scalar_range()), rows),
    }
}

fn add_row(row: RowRanges, rows: &mut Vec<RowRanges>) -> Result<(), AllocError>
    ensures { OnOk result (rows.new.items ≡ rows.old.items ++ row ∷ []) }
{
    rows.push(row)?;
    Ok(())
}

/// The type of a part, if it stands before that of the whole.
pub(crate) fn own_type(whole: TypeId, part: TypeId) -> Option<TypeId>
    ensures { result ≡ own_type whole part }
{
    if part.index < whole.index {
        Some(part)
    } else {
        None
    }
}

// The values of a part, if it is ordinal.
fn part_range(types: &TypeTable, part: Option<TypeId>) -> Option<OrdinalRange>
    ensures { result ≡ option_and_then (range_of types.now) part }
{
    types.range(part?)
}

/// How many leaves each type has, or the greatest number where there are more.
pub(crate) fn leaf_counts(alloc: Global, types: &TypeTable) -> Result<Vec<usize>, AllocError>
    ensures { IfOk result (λ counts. counts.items ≡ map capped (leaf_counts types.now)) }
{
    let mut counts = Vec::new(alloc);
    while let Some(form) = types.form(TypeId {
        index: counts.len(),
    }) {
        let count = form_count(&counts, form);
        counts.push(count)?;
    }
    Ok(counts)
}

/// How many leaves a type has, by those of each.
pub(crate) fn count_at(counts: &[usize], id: TypeId) -> usize
    ensures { result ≡ count_at counts.now id }
{
    match counts.get(id.index) {
        None => 1,
        Some(count) => *count,
    }
}

// Those of a form, or the greatest number.
fn form_count(counts: &[usize], form: &TypeForm) -> usize
    ensures { result ≡ capped (form_count counts.now (form_of form.now)) }
{
    match form {
        TypeForm::Array { element, .. } => count_at(counts, *element),
        TypeForm::Record { fields, .. } => fields_count(counts, fields),
        _ => 1,
    }
}

#[tactic(auto, using(crate::proofs::Counted::kept_fields_counted))]
fn fields_count(counts: &[usize], fields: &[Field]) -> usize
    ensures { result ≡ capped (form_count counts.now (Record false (map field_form fields.now))) }
{
    let mut all: usize = 0;
    for field in fields {
        all = all.saturating_add(count_at(counts, field.type_id));
    }
    all
}
