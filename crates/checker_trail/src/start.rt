ghost use Rattle.checker_state.specs.State.{of_types};
ghost use Rattle.checker_trail.specs.Trail.{Starts};

use crate::State;
use checker_known::{Knowledge, Resting};
use checker_rows::Rows;
use domain::Version;
use std::alloc::Global;

impl<'a> State<'a> {
    /// What is known by types alone, by the rules of a version of certificates.
    pub fn of_types(alloc: Global, rules: Version, table: &'a Rows<'a>) -> State<'a>
        ensures { Starts rules table.now result }
    {
        match Knowledge::of_types(alloc, rules, table) {
            Ok(known) => State {
                table,
                alloc,
                known,
                trail: Vec::new(alloc),
                refused: None,
            },
            Err(error) => State {
                table,
                alloc,
                known: Knowledge {
                    rows: Vec::new(alloc),
                    growing: Vec::new(alloc),
                    held: Vec::new(alloc),
                    disorder: 0,
                    knots: Vec::new(alloc),
                    resting: Resting::none(alloc),
                    is_dead: false,
                    rules,
                },
                trail: Vec::new(alloc),
                refused: Some(error.into()),
            },
        }
    }
}
