ghost use Rattle.std.specs.Prelude.{◌≡◌, false, Some, option_map};
ghost use Rattle.types.specs.Forms.{form_of};
ghost use Rattle.typing.specs.Expressions.{is_of_packed, is_packed, is_packed_at, type_of_field, type_selected};

use crate::{Made, Typer};
use place::Place;
use typed_tree::{Selector, TypeFault};
use types::{TypeForm, TypeId, TypeTable};

impl Typer {
    ghost use Rattle.typing.specs.Expressions as spec;

    /// A component of a type, to which these selectors lead from a variable of a type, may be passed to a variable
    /// parameter (6.6.3.3): K1 at the place where that wants another type, K4 where it is one of a packed variable.
    pub fn passable(
        &self,
        wanted: TypeId,
        type_id: TypeId,
        selectors: &[Selector],
        component: TypeId,
        place: Place,
    ) -> Made<()>
        ensures { result ≡ spec.passable self.now.types wanted type_id selectors.now component place }
    {
        if !wanted.same(component) {
            return Err(TypeFault::Mismatch(place));
        }
        if is_of_packed(&self.types, type_id, selectors) {
            return Err(TypeFault::PackedComponent(place));
        }
        Ok(())
    }
}

// The last of selectors, from a value of a type on, selects from a packed value.
fn is_of_packed(types: &TypeTable, type_id: TypeId, selectors: &[Selector]) -> bool
    ensures { result ≡ is_of_packed types.now (Some type_id) false selectors.now }
{
    let mut id = Some(type_id);
    let mut packed = false;
    for selector in selectors {
        packed = is_packed_at(types, id);
        id = type_selected(types, id, *selector);
    }
    packed
}

// A type is packed.
fn is_packed_at(types: &TypeTable, id: Option<TypeId>) -> bool
    ensures { result ≡ is_packed_at types.now id }
{
    let Some(id) = id else {
        return false;
    };
    match types.form(id) {
        Some(form) => is_packed(form),
        None => false,
    }
}

// A form is that of a packed type.
fn is_packed(form: &TypeForm) -> bool
    ensures { result ≡ is_packed (Some (form_of form.now)) }
{
    match form {
        TypeForm::Array { packed, .. } | TypeForm::Record { packed, .. } => *packed,
        _ => false,
    }
}

// The type of what a selector selects from a value of a type.
fn type_selected(types: &TypeTable, id: Option<TypeId>, selector: Selector) -> Option<TypeId>
    ensures { result ≡ type_selected types.now id selector }
{
    match selector {
        Selector::Element { .. } => Some(types.element(id?)?.type_id),
        Selector::Field { position, .. } => type_of_field(types.form(id?)?, position),
    }
}

// The type of the field at a place in a record of a form.
fn type_of_field(form: &TypeForm, position: usize) -> Option<TypeId>
    ensures { result ≡ type_of_field position (Some (form_of form.now)) }
{
    match form {
        TypeForm::Record { fields, .. } => Some(fields.get(position)?.type_id),
        _ => None,
    }
}
