ghost use Rattle.std.specs.Prelude.{◌≡◌, drop, map, take};
ghost use Rattle.domain.specs.Facts.{said_path};
ghost use Rattle.checker_rows.specs.Rows.{is_variable_row};
ghost use Rattle.checker_rows.specs.View.{numbers};
ghost use Rattle.checker_state.specs.Loops.{is_among};
ghost use Rattle.checker_state.specs.Stores.{is_entire};
ghost use Rattle.checker_state.specs.View.{said_index, said_reach};
ghost use Rattle.checker_calls.specs.Actuals.{actual_of, after_call, all_of_rows, bearers_at, bearers_named};
ghost use Rattle.checker_calls.specs.Actuals.{bearers_of, settled, unknown_index, unknown_reach};
ghost use Rattle.checker_calls.specs.View.{said_actual, said_bearers, said_bindings, said_found};

use checker_loops::rows_named;
use checker_rows::{Rows, Span};
use checker_state::{Bound, Index, Indexes, Reach};
use domain::{Interval, Path};
use std::slice;
use typed_tree::Access;

/// What is passed to a formal parameter (ISO 7185:1990, 6.6.3).
#[derive(Drop)]
pub enum Actual<'a> {
    /// An ordinal or a set: where it or its members lie, and its bound form, if it has one.
    Value {
        range: Interval,
        form: Option<Bound>,
    },
    /// A copy: where its components lie, leaf by leaf.
    Rows(Vec<Interval>),
    /// A variable: its access, and what that reaches.
    Variable {
        access: &'a Access,
        reach: Reach,
    },
}

impl<'a> Actual<'a> {
    // Where another actual parameter holds a call, nothing is known of the forms and indexes any longer that were
    // evaluated before it.
    fn settle(&mut self)
        ensures { said_actual self.new ≡ after_call (said_actual self.old) }
    {
        match self {
            Actual::Value { form, .. } => *form = None,
            Actual::Rows(_) => {}
            Actual::Variable { reach, .. } => *reach = unknown_reach(*reach),
        }
    }
}

/// What is reached by indexes of which nothing is known.
pub fn unknown_reach(reach: Reach) -> Reach
    ensures { said_reach result ≡ unknown_reach (said_reach reach) }
{
    let indexes = match reach.indexes {
        Indexes::Entire => Indexes::Entire,
        Indexes::One(_) => Indexes::One(unknown_index()),
        Indexes::Two(_, _) => Indexes::Two(unknown_index(), unknown_index()),
    };
    Reach {
        indexes,
        is_all: reach.is_all,
    }
}

fn unknown_index() -> Index
    ensures { said_index result ≡ unknown_index }
{
    Index {
        form: None,
        range: Interval::INTEGER,
    }
}

/// Whether all of each row is reached.
pub fn is_entire(reach: &Reach) -> bool
    ensures { result ≡ is_entire (said_reach reach.now) }
{
    match reach.indexes {
        Indexes::Entire => reach.is_all,
        Indexes::One(_) => false,
        Indexes::Two(_, _) => false,
    }
}

/// The actual parameters of a call, of which one may hold a call.
pub fn settle(holds_call: bool, actuals: &mut Vec<Actual>)
    ensures { map said_actual actuals.new.items ≡ settled holds_call (map said_actual actuals.old.items) }
{
    if !holds_call {
        return;
    }
    for i in 0..actuals.len() {
        actuals[i].settle();
    }
}

/// The formal parameters of a block with their actual ones, as far as there are both.
#[derive(Clone, Copy)]
pub struct Bindings<'b, 'a> {
    /// The root numbers of the formal parameters.
    pub roots: &'b [u32],
    pub actuals: &'b [Actual<'a>],
}

impl<'b, 'a> Bindings<'b, 'a> {
    /// The actual parameter of a formal one, if a root is that of one.
    pub fn actual(&self, root: u32) -> Option<&'b Actual<'a>>
        ensures { said_found result ≡ actual_of (said_bindings self.now) root }
    {
        let roots = self.roots;
        let actuals = self.actuals;
        for i in 0..roots.len() {
            if roots[i] == root {
                return actuals.get(i);
            }
        }
        None
    }
}

/// What has the values of some leaves of a formal parameter for the caller, leaf by leaf.
#[derive(Clone, Copy)]
pub enum Bearers<'b> {
    /// Values of their own, which lie in ranges.
    Passed(&'b [Interval]),
    /// What is reached in rows.
    Reached { rows: Span, reach: Reach },
}

impl<'b> Bearers<'b> {
    /// All of some rows.
    pub fn all_of(rows: Span) -> Bearers<'b>
        ensures { said_bearers result ≡ all_of_rows (numbers rows) }
    {
        let reach = Reach {
            indexes: Indexes::Entire,
            is_all: true,
        };
        Bearers::Reached { rows, reach }
    }

    /// What has the values of all leaves of a formal parameter, by its actual one.
    pub fn of(table: &Rows, actual: &'b Actual) -> Bearers<'b>
        ensures { said_bearers result ≡ bearers_of table.now (said_actual actual.now) }
    {
        match actual {
            Actual::Value { range, .. } => Bearers::Passed(slice::from_ref(range)),
            Actual::Rows(ranges) => Bearers::Passed(ranges.as_slice()),
            Actual::Variable { access, reach } => Bearers::Reached {
                rows: table.accessed(access),
                reach: *reach,
            },
        }
    }

    // Those of some rows among the rows of the formal parameter.
    fn at(&self, wanted: Span, all: Span) -> Bearers<'b>
        ensures { said_bearers result ≡ bearers_at (numbers wanted) (numbers all) (said_bearers self.now) }
    {
        let first = wanted.first.saturating_sub(all.first);
        let end = wanted.end().saturating_sub(all.first);
        self.between(first, end.min(all.count))
    }

    // Those from a place on and before another.
    fn between(&self, first: usize, end: usize) -> Bearers<'b>
        ensures { said_bearers result ≡ drop first (take end (said_bearers self.now)) }
    {
        match self {
            Bearers::Passed(ranges) => {
                let end = end.min(ranges.len());
                Bearers::Passed(&ranges[first.min(end)..end])
            }
            Bearers::Reached { rows, reach } => Bearers::Reached {
                rows: part(*rows, first, end),
                reach: *reach,
            },
        }
    }
}

// Of some rows those from a place on and before another.
fn part(rows: Span, first: usize, end: usize) -> Span
    ensures { numbers result ≡ drop first (take end (numbers rows)) }
{
    let end = end.min(rows.count);
    let first = first.min(end);
    Span {
        first: rows.first + first,
        count: end - first,
    }
}

/// What has the values of what a path names for the caller, as the callee knows it.
pub fn bearers_named<'b>(table: &Rows, bindings: Bindings<'b, '_>, path: &Path) -> Bearers<'b>
    ensures { said_bearers result
        ≡ bearers_named table.now (said_bindings bindings.entry) (said_path path.now) }
{
    let wanted = rows_named(table, path);
    match bindings.actual(path.root) {
        None => Bearers::all_of(wanted),
        Some(actual) => Bearers::of(table, actual).at(wanted, table.of_variable(path.root)),
    }
}

/// Whether a row is that of a variable that is there and no structured one.
pub fn is_variable_row(table: &Rows, row: usize) -> bool
    ensures { result ≡ is_variable_row table.now row }
{
    match table.tree().variables.get(row) {
        None => false,
        Some(variable) => !table.is_structured(variable.type_id),
    }
}

/// Whether a row is one of some.
pub fn has(span: Span, row: usize) -> bool
    ensures { result ≡ is_among row (numbers span) }
{
    span.first <= row && row < span.end()
}
