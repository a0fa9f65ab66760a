ghost use Rattle.std.specs.Prelude.{◌≡◌, ℕ, IfOk, if◌then◌else◌, map};
ghost use Rattle.certificate.specs.Contents.{said_fact};
ghost use Rattle.checker_rows.specs.View.{numbers};
ghost use Rattle.checker_state.specs.Loops.{is_among};
ghost use Rattle.domain.specs.Interval.{common};
ghost use Rattle.checker_calls.specs.Exit.{claimed_of_row, exit_range, range_at_end};
ghost use Rattle.checker_calls.specs.ExitView.{known_at};

use crate::{Ranges, has};
use certificate::Fact;
use checker_loops::rows_named;
use checker_rows::{Rows, Span};
use domain::{Domain, Interval};
use std::alloc::{AllocError, Global};
use std::marker::Model;

/// Where values lie at the end of a block, by the facts that are claimed of it.
#[derive(Drop)]
pub(crate) struct ExitClaims<'a> {
    rows: &'a Rows<'a>,
    facts: &'a [Fact],
    // Of each row that a fact names, by all facts.
    known: Ranges,
}

impl<'a> Model for ExitClaims<'a> {
    ghost use Rattle.std.specs.Coded.{codes};
    ghost use Rattle.std.specs.Prelude.{map};
    ghost use Rattle.typed_tree.specs.contracts.tree.Stmt as stmt;
    ghost use Rattle.certificate.specs.Contents.{said_fact};
    ghost use Rattle.checker_calls.specs.ExitView.{AreKnown, AtExit};

    ghost Value = { AtExit };

    ghost coded = { Prim.hlevel (codes, stmt.the_row.coded) };

    ghost view = { λ claims. record { tree = claims.rows.now; facts = map said_fact claims.facts.now } };

    ghost invariant = { λ claims. AreKnown claims.rows.now (map said_fact claims.facts.now) claims.known };
}

impl<'a> ExitClaims<'a> {
    /// By these facts.
    pub(crate) fn of(
        alloc: Global,
        rows: &'a Rows<'a>,
        facts: &'a [Fact],
    ) -> Result<ExitClaims<'a>, AllocError>
        ensures { IfOk result (λ claims. claims
            ≡ record { tree = rows.now; facts = map said_fact facts.now }) }
    {
        let mut known = Ranges::new(alloc);
        for fact in facts {
            know(&mut known, rows, fact)?;
        }
        Ok(ExitClaims { rows, facts, known })
    }

    /// Where the values of a row lie.
    pub(crate) fn range(&self, row: usize) -> Interval
        ensures { result ≡ range_at_end self.now.tree self.now.facts row }
    {
        known_at(&self.known, self.rows, row)
    }

    /// The rows of the program.
    pub(crate) fn rows(&self) -> &'a Rows<'a>
        ensures { result.now ≡ self.now.tree }
    {
        self.rows
    }
}

// Where the values of a row lie by those that are known, or else by its type.
fn known_at(known: &Ranges, rows: &Rows, row: usize) -> Interval
    ensures { result ≡ known_at rows.now known.now row }
{
    match known.at(row) {
        None => rows.row_limits(row),
        Some(range) => range,
    }
}

// A fact more is claimed.
fn know(known: &mut Ranges, rows: &Rows, fact: &Fact) -> Result<(), AllocError>
    ensures { IfOk result (λ _. (row : ℕ) → known_at rows.now known.new row
        ≡ claimed_of_row rows.now row (said_fact fact.now) (known_at rows.now known.old row)) }
{
    match fact {
        Fact::Range { path, range } => know_rows(known, rows, rows_named(rows, path), range),
        Fact::Defined { .. } => Ok(()),
        Fact::Order { .. } => Ok(()),
        Fact::Grows { .. } => Ok(()),
    }
}

// The values of some rows lie in a range.
fn know_rows(
    known: &mut Ranges,
    rows: &Rows,
    span: Span,
    range: &Interval,
) -> Result<(), AllocError>
    ensures { IfOk result (λ _. (row : ℕ) → known_at rows.now known.new row
        ≡ (if is_among row (numbers span) then common (known_at rows.now known.old row) range.now
        else known_at rows.now known.old row)) }
{
    for row in span.first..span.end() {
        let both = known_at(known, rows, row).meet(range);
        known.set(row, both)?;
    }
    Ok(())
}

/// Where the values of a row lie at the end of a block, by the facts that are claimed of it.
pub(crate) fn range_at_end(rows: &Rows, facts: &[Fact], row: usize) -> Interval
    ensures { result ≡ range_at_end rows.now (map said_fact facts.now) row }
{
    let mut known = rows.row_limits(row);
    for fact in facts {
        known = claimed_of_row(rows, row, fact, known);
    }
    known
}

// The same by one fact, where they lie in a range without it.
fn claimed_of_row(rows: &Rows, row: usize, fact: &Fact, known: Interval) -> Interval
    ensures { result ≡ claimed_of_row rows.now row (said_fact fact.now) known }
{
    match fact {
        Fact::Range { path, range } => {
            if has(rows_named(rows, path), row) {
                known.meet(range)
            } else {
                known
            }
        }
        Fact::Defined { .. } => known,
        Fact::Order { .. } => known,
        Fact::Grows { .. } => known,
    }
}
