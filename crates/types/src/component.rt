ghost use Rattle.std.specs.Prelude.{◌≡◌, ◌<◌, ◌*◌, ◌++◌, [], false, IfSome, IsSomeAnd, MatchOption, OnOk};
ghost use Rattle.std.specs.Prelude.{map, slice_index_or, sum_by, take};
ghost use Rattle.types.specs.Components.{components_of, fields_components, form_components, laid_out};
ghost use Rattle.types.specs.Parts.{GoesOn, IsInside, steps_to};
ghost use Rattle.types.specs.Types.{before, cells_at, cells_of, values_at};
ghost use Rattle.types.specs.Forms.{Array, field_form};

use crate::{Field, Step, TypeForm, TypeId, TypeTable};
use std::alloc::AllocError;

// A place from 0 among the cells of a type, which is one of the first so many types of a table or else a scalar.
#[derive(Clone, Copy)]
struct Part {
    before: usize,
    type_id: TypeId,
    place: u32,
}

impl TypeTable {
    /// Puts the steps to the scalar component at a place, from 0 and below the cells of the type, behind `steps`. For
    /// want of memory it puts only some of them there.
    pub fn component(&self, id: TypeId, place: u32, steps: &mut Vec<Step>) -> Result<(), AllocError>
        requires inside { place < cells_of self.now id }
        ensures { OnOk result
            (steps.new.items ≡ steps.old.items ++ slice_index_or (components_of self.now id) place []) }
    {
        let mut part = Part {
            before: self.count(),
            type_id: id,
            place,
        };
        while let Some((step, inner)) = self.inner(part) {
            steps.push(step)?;
            part = inner;
        }
        Ok(())
    }

    // The step to the part that a place falls into, and the place there; none from a scalar.
    fn inner(&self, part: Part) -> Option<(Step, Part)>
        requires { IsInside self.now part }
        ensures leads { MatchOption result (steps_to self.now part ≡ [])
            (GoesOn self.now part.type_id.index (steps_to self.now part)) }
        ensures smaller { IfSome result (λ next. next.1.before < part.before) }
    {
        if part.type_id.index >= part.before {
            return None;
        }
        match self.form(part.type_id)? {
            TypeForm::Array { index, element, .. } => self.inner_element(part, *index, *element),
            TypeForm::Record { fields, .. } => self.inner_field(part, fields),
            _ => None,
        }
    }

    // The element that a place falls into, in an array that is packed or not.
    fn inner_element(&self, part: Part, index: TypeId, element: TypeId) -> Option<(Step, Part)>
        requires { part.place
            < values_at (before self.now part.type_id) index * cells_at (before self.now part.type_id) element }
        ensures { IsSomeAnd result (GoesOn self.now part.type_id.index
            (slice_index_or (form_components (laid_out (take part.type_id.index self.now)) (Array false index element))
            part.place [])) }
    {
        let range = self.range(index)?;
        let cells = self.part_cells(part.type_id, element);
        let inner = Part {
            before: part.type_id.index,
            type_id: element,
            place: part.place % cells,
        };
        Some((Step::Element(range.value(part.place / cells)), inner))
    }

    // The field that a place falls into.
    fn inner_field(&self, part: Part, fields: &[Field]) -> Option<(Step, Part)>
        requires { part.place < sum_by (λ field. cells_at (before self.now part.type_id) field.type_id) fields.now }
        ensures { IsSomeAnd result (GoesOn self.now part.type_id.index
            (slice_index_or (fields_components (laid_out (take part.type_id.index self.now)) 0
            (map field_form fields.now)) part.place [])) }
    {
        let mut place = part.place;
        for (position, field) in fields.iter().enumerate() {
            let cells = self.part_cells(part.type_id, field.type_id);
            if place < cells {
                let inner = Part {
                    before: part.type_id.index,
                    type_id: field.type_id,
                    place,
                };
                return Some((Step::Field(position), inner));
            }
            place -= cells;
        }
        None
    }
}
