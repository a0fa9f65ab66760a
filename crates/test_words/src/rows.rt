ghost use Rattle.std.specs.Prelude.{All, OnOk};
ghost use Rattle.test_words.specs.Rows.{GivesText};

use std::alloc::Global;
use std::test::Fail;

/// Fails at the first row that doesn't give the text that stands beside it. Rows are numbered from 0.
pub fn all_hold<Row, E, F: Fn(Global, &Row) -> Result<String, E>>(
    alloc: Global,
    rows: &[(Row, &str)],
    told: F,
) -> Result<(), Fail>
where
    Fail: From<E>,
    requires { F.IsAlwaysCallable told }
    ensures { OnOk result (All (λ row. GivesText (F.post told alloc) row.0 row.1.now) rows.now) }
{
    for (number, (row, wanted)) in rows.iter().enumerate() {
        let found = told(alloc, row)?;
        if found.as_str() != *wanted {
            let failure = format!(in alloc; "{found} in place of {wanted} in row {number}")?;
            return Err(Fail::new(failure));
        }
    }
    Ok(())
}
