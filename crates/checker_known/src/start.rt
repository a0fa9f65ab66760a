ghost use Rattle.std.specs.Prelude.{◌≡◌, IfOk, map};
ghost use Rattle.checker_state.specs.State.{of_types};
ghost use Rattle.checker_known.specs.View.{said_row, type_rows};

use crate::knowledge::DEEPEST;
use crate::{Knowledge, Resting, Row};
use checker_rows::Rows;
use domain::Version;
use std::alloc::{AllocError, Global};

impl Knowledge {
    ghost use Rattle.checker_known.specs.Knowledge.{core, seen_core};

    /// What is known by types alone, by the rules of a version of certificates.
    pub fn of_types(alloc: Global, rules: Version, table: &Rows) -> Result<Knowledge, AllocError>
        ensures { IfOk result (λ known. seen_core (core known) ≡ of_types rules (type_rows table.now)) }
    {
        let rows = type_rows(alloc, table)?;
        let growing = vec![in alloc; 0; DEEPEST + 1]?;
        let knots = vec![in alloc; 0; rows.len()]?;
        let resting = Resting::of(alloc, table.variables())?;
        Ok(Knowledge {
            rows,
            growing,
            held: Vec::new(alloc),
            disorder: 0,
            knots,
            resting,
            is_dead: false,
            rules,
        })
    }
}

// What types tell of each row.
fn type_rows(alloc: Global, table: &Rows) -> Result<Vec<Row>, AllocError>
    ensures { IfOk result (λ rows. map said_row rows.items ≡ type_rows table.now) }
{
    let mut rows = Vec::new(alloc);
    for row in 0..table.count() {
        rows.push(Row {
            range: table.row_limits(row),
            is_defined: false,
            growth: None,
        })?;
    }
    Ok(rows)
}
