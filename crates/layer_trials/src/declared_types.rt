use crate::sources::resolved;
use std::alloc::{AllocError, Global};
use std::test::Fail;
use test_words::rows::all_hold;
use types::{Step, TypeId, TypeTable, laws};

/// The cells of a type, and the steps to the component of each.
fn components_told(alloc: Global, table: &TypeTable, id: TypeId) -> Result<String, AllocError> {
    let cells = table.cells(id);
    let mut told = format!(in alloc; "{cells}")?;
    for place in 0..cells {
        let mut steps = Vec::new(alloc);
        table.component(id, place, &mut steps)?;
        told.push_str(steps_told(alloc, &steps)?.as_str())?;
    }
    Ok(told)
}

fn steps_told(alloc: Global, steps: &[Step]) -> Result<String, AllocError> {
    let mut told = String::from_str(alloc, " ")?;
    for step in steps {
        let step = match *step {
            Step::Field(position) => format!(in alloc; ".{position}"),
            Step::Element(index) => format!(in alloc; "[{index}]"),
        };
        told.push_str(step?.as_str())?;
    }
    Ok(told)
}

fn row_told(alloc: Global, denoter: &&str) -> Result<String, Fail> {
    let source = format!(in alloc; "program p; var x: {denoter}; begin end.")?;
    let tree = resolved(alloc, source.as_str())?;
    match tree.variables.last() {
        Some(variable) => Ok(components_told(alloc, &tree.types, variable.type_id)?),
        None => Err(Fail::new("no variable")),
    }
}

/// Types by hand. A record has its fields and the cells of them all; one of no cells is stepped over. An array has its
/// elements one after another, negative indexes first.
static TYPES: [(&str, &str); 6] = [
    ("-2..0", "1 "),
    ("packed record end", "0"),
    (
        "record number: integer; row: array [Boolean] of integer end",
        "3 .0 .1[0] .1[1]",
    ),
    (
        "array [-2..0] of record number: integer; row: array [Boolean] of char end",
        "9 [-2].0 [-2].1[0] [-2].1[1] [-1].0 [-1].1[0] [-1].1[1] [0].0 [0].1[0] [0].1[1]",
    ),
    (
        "record empty: packed record end; number: integer end",
        "1 .1",
    ),
    ("set of Boolean", "1 "),
];

#[test]
fn components_lie_as_they_should(rt: HostRuntime) -> Result<(), Fail> {
    all_hold(rt.alloc(), &TYPES, row_told)
}

#[test]
fn laws_of_types_are_called(_rt: HostRuntime) -> Result<(), Fail> {
    laws::components_are_cells();
    laws::components_stand_once();
    laws::scalars_have_one_component();
    laws::elements_lie_in_order();
    laws::fields_lie_in_order();
    Ok(())
}
