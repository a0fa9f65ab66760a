//! What holds of every table of types. Each law is the contract of a function that does nothing.
ghost use Rattle.types.specs.Laws.{ComponentsAreCells, ComponentsStandOnce, ScalarsHaveOneComponent};
ghost use Rattle.types.specs.Laws.{ElementsLieInOrder, FieldsLieInOrder};

/// A type has as many scalar components as cells.
pub fn components_are_cells()
    ensures { ComponentsAreCells }
{}

/// No component of a type is there twice.
pub fn components_stand_once()
    ensures { ComponentsStandOnce }
{}

/// A scalar type is its own component.
pub fn scalars_have_one_component()
    ensures { ScalarsHaveOneComponent }
{}

/// An element of an array has the cells of its type, and its components lie behind those of the elements before it.
pub fn elements_lie_in_order()
    ensures { ElementsLieInOrder }
{}

/// A field ends within its record, and its components lie as far on as its offset tells.
pub fn fields_lie_in_order()
    ensures { FieldsLieInOrder }
{}
