ghost use Rattle.std.specs.Prelude.{◌≡◌, ◌∷◌, ◌<◌, [], IfOk, option_map, slice_index_or};
ghost use Rattle.types.specs.Components.{components_of};
ghost use Rattle.types.specs.Types.{cells_of};
ghost use Rattle.meaning.specs.Store.{part};
ghost use Rattle.interpreter_state.specs.Views.{place_seen};

use std::alloc::{AllocError, Global};
use types::{Step, TypeId, TypeTable};

/// Where a scalar or a set lies: an activation, a variable of it by its root number, and the steps
/// to a component.
#[derive(Clone, PartialEq, Eq, PartialOrd, Ord, Drop)]
pub struct Place {
    pub activation: u64,
    pub variable: u32,
    pub steps: Vec<Step>,
}

/// A place, if there is one. An error means that memory ran out.
pub type Placed = Result<Option<Place>, AllocError>;

/// The place of a part of a place, if there is one.
pub fn part(place: Option<Place>, step: Step) -> Placed
    ensures { IfOk result (λ found. option_map place_seen found ≡ part (option_map place_seen place) (step ∷ [])) }
{
    match place {
        Some(mut place) => {
            place.steps.push(step)?;
            Ok(Some(place))
        }
        None => Ok(None),
    }
}

/// The place of a component, by its place among the components of its type, which lies below their number.
pub fn component(
    alloc: Global,
    types: &TypeTable,
    place: &Option<Place>,
    type_id: TypeId,
    component: u32,
) -> Placed
    requires inside { component < cells_of types.now type_id }
    ensures { IfOk result (λ found. option_map place_seen found ≡ part (option_map place_seen place.now)
        (slice_index_or (components_of types.now type_id) component [])) }
{
    let Some(place) = place else {
        return Ok(None);
    };
    let mut steps = Vec::from_slice(alloc, &place.steps)?;
    types.component(type_id, component, &mut steps)?;
    Ok(Some(Place {
        activation: place.activation,
        variable: place.variable,
        steps,
    }))
}
