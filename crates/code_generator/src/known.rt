ghost use Rattle.code_generator.specs.Known.{Known};

use meaning::laws::{
    deeper_calls_change_nothing, loops_go_round_by_round, pieces_use_turns_exactly,
};
use stack_machine::laws::{output_only_grows, read_failures_begin};
use types::laws::{
    components_are_cells, components_stand_once, elements_lie_in_order, fields_lie_in_order,
    scalars_have_one_component,
};

// The laws of the crates below on which the proof of the code rests.
pub(crate) fn known()
    ensures { Known }
{
    components_are_cells();
    components_stand_once();
    scalars_have_one_component();
    elements_lie_in_order();
    fields_lie_in_order();
    pieces_use_turns_exactly();
    loops_go_round_by_round();
    deeper_calls_change_nothing();
    output_only_grows();
    read_failures_begin();
}
