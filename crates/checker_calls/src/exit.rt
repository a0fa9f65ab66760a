ghost use Rattle.std.specs.Prelude.{◌≡◌, ◌∷◌, ℕ, IfOk, Some, map, not, option_map, slice_get};
ghost use Rattle.certificate.specs.Contents.{said_fact};
ghost use Rattle.checker_rows.specs.Rows.{rows_touched};
ghost use Rattle.checker_rows.specs.View.{numbers};
ghost use Rattle.checker_state.specs.Changes.{all_changed};
ghost use Rattle.checker_state.specs.Knows.{rests_on_any};
ghost use Rattle.checker_state.specs.View.{inner_spans, said_form, said_held, said_span, said_span_form};
ghost use Rattle.checker_trail.specs.Trail.{Moves};
ghost use Rattle.domain.specs.Facts.{said_bound as said_claimed, said_path, said_span as said_claimed_span};
ghost use Rattle.domain.specs.Facts.{said_spans};
ghost use Rattle.checker_loops.specs.BlockView.{said_claims};
ghost use Rattle.checker_calls.specs.Actuals.{all_of_rows};
ghost use Rattle.checker_calls.specs.Exit.{bearers_defined, behind_call, bounds_ordered, exit_bound, exit_bound_of};
ghost use Rattle.checker_calls.specs.Exit.{exit_plus, exit_span, exit_spans, is_own_path, result_range, row_behind};
ghost use Rattle.checker_calls.specs.Exit.{row_defined};
ghost use Rattle.checker_calls.specs.Exit.{rows_behind, touched_behind, untouched_form, with_exit, with_exits};
ghost use Rattle.checker_calls.specs.View.{said_actual, said_bindings, said_within};
ghost use Rattle.checker_calls.specs.ExitView.{left_behind, rows_outside, steady_at, touched_by, touches_by};

use crate::actuals::{Actual, Bearers, Bindings, bearers_named, is_entire, is_variable_row};
use crate::touches::Touches;
use crate::{ExitClaims, all_changes, is_whole, range_at_end, roots_changed};
use certificate::Fact;
use checker_loops::{BlockClaims, Pairs};
use checker_rows::{Rows, Span};
use checker_state::{Bound, Claim, Held, Order, Span as StateSpan};
use checker_trail::{State, all_of_row};
use domain::Interval;
use domain::facts::{self, Path, Spans};
use std::alloc::{AllocError, Global};
use typed_tree::Tree;

/// What is defined of a row at the end of a callee: all of it, or what lies in a span, or in two.
#[derive(Clone, Copy)]
pub enum Within {
    All,
    One(StateSpan),
    Two(StateSpan, StateSpan),
}

/// Goes on in one block behind a call of another (ISO 7185:1990, 6.7.3, 6.8.2.3), by what is claimed of that.
pub fn call(
    state: &mut State,
    pairs: &Pairs,
    caller: u32,
    block: u32,
    bindings: Bindings,
    claims: BlockClaims,
)
    ensures { Moves (behind_call state.old.table.now pairs.now caller block (said_bindings bindings.entry)
        (said_claims claims.entry)) state.old state.new }
{
    let rows = state.table();
    let listed = claims.changes.listed;
    match touches_of(
        state.alloc(),
        rows,
        pairs,
        caller,
        bindings,
        listed,
        claims.end,
    ) {
        Ok(touches) => go_behind(state, rows, block, bindings, &touches, claims.end),
        Err(error) => state.run_short(error.into()),
    }
}

/// Where the value of a function lies, by the root number of its result.
pub fn result_range(rows: &Rows, claims: BlockClaims, root: u32) -> Interval
    ensures { result ≡ result_range rows.now (said_claims claims.entry) root }
{
    range_at_end(rows, claims.end, root as usize)
}

// Goes on behind the call by what it touches, and by the facts that are claimed of the block's end.
fn go_behind(
    state: &mut State,
    rows: &Rows,
    block: u32,
    bindings: Bindings,
    touches: &Touches,
    exit: &[Fact],
)
    ensures { Moves (left_behind rows.now block (said_bindings bindings.entry) touches.now (map said_fact exit.now))
        state.old state.new }
{
    touch(state, rows, touches);
    add_exits(state, rows, block, bindings, touches, exit);
}

// ---- what is changed

// What a call touches in the block that makes it, by what the callee lists and the facts at its end.
fn touches_of(
    alloc: Global,
    rows: &Rows,
    pairs: &Pairs,
    caller: u32,
    bindings: Bindings,
    listed: &[u32],
    exit: &[Fact],
) -> Result<Touches, AllocError>
    ensures { IfOk result (λ touches. touches
        ≡ touches_by rows.now pairs.now caller (said_bindings bindings.entry) listed.now (map said_fact exit.now)) }
{
    let at_end = ExitClaims::of(alloc, rows, exit)?;
    let changes = all_changes(alloc, &at_end, bindings, listed)?;
    let touched = touched_by(alloc, pairs, caller, bindings, listed)?;
    Touches::of(alloc, touched, changes)
}

// The variables of the caller that a call may change, and their aliases there.
fn touched_by(
    alloc: Global,
    pairs: &Pairs,
    caller: u32,
    bindings: Bindings,
    listed: &[u32],
) -> Result<Vec<u32>, AllocError>
    ensures { IfOk result (λ touched. touched.items
        ≡ touched_by pairs.now caller (said_bindings bindings.entry) listed.now) }
{
    let roots = roots_changed(alloc, bindings, listed)?;
    let mut touched = Vec::from_slice(alloc, &roots)?;
    pairs.add_all_aliases(&mut touched, caller, &roots)?;
    Ok(touched)
}

// What is known of what a call touches, where nothing is claimed of its end but where values lie.
fn touch(state: &mut State, rows: &Rows, touches: &Touches)
    ensures { Moves (touched_behind rows.now touches.now.changes touches.now.touched) state.old state.new }
{
    forget(state, touches);
    touch_roots(state, rows, touches);
}

// What rests on a variable that is touched is held no longer, and none of these is known to grow.
fn forget(state: &mut State, touches: &Touches)
    ensures { Moves (all_changed touches.now.touched) state.old state.new }
{
    match kept(state.alloc(), state.held(), touches) {
        Ok(kept) => {
            state.stop_growing(touches.touched());
            state.retain(&kept);
        }
        Err(error) => state.run_short(error.into()),
    }
}

// Which of what is held rests on none of them.
fn kept(alloc: Global, held: &[Held], touches: &Touches) -> Result<Vec<bool>, AllocError>
    ensures { IfOk result (λ kept. kept.items
        ≡ map (λ one. not (rests_on_any touches.now.touched (said_held one))) held.now) }
{
    held.iter()
        .map(|one| !touches.shifts_held(one))
        .collect(alloc)
}

fn touch_roots(state: &mut State, rows: &Rows, touches: &Touches)
    ensures { Moves (rows_behind rows.now touches.now.changes (rows_touched rows.now touches.now.touched))
        state.old state.new }
{
    for root in touches.touched() {
        touch_rows(state, rows, touches, rows.of_variable(*root));
    }
}

fn touch_rows(state: &mut State, rows: &Rows, touches: &Touches, span: Span)
    ensures { Moves (rows_behind rows.now touches.now.changes (numbers span)) state.old state.new }
{
    for row in span.first..span.end() {
        touch_row(state, rows, touches, row);
    }
}

fn touch_row(state: &mut State, rows: &Rows, touches: &Touches, row: usize)
    ensures { Moves (row_behind rows.now touches.now.changes row) state.old state.new }
{
    let range = touches.behind(rows, row, state.row_range(row));
    state.set_range(row, range);
}

// ---- the facts at the end

// Facts that are claimed of the end of the block of a number are known behind the call.
fn add_exits(
    state: &mut State,
    rows: &Rows,
    block: u32,
    bindings: Bindings,
    touches: &Touches,
    exit: &[Fact],
)
    ensures { Moves (with_exits rows.now block (said_bindings bindings.entry) touches.now (map said_fact exit.now))
        state.old state.new }
{
    for fact in exit {
        add_exit(state, rows, block, bindings, touches, fact);
    }
}

fn add_exit(
    state: &mut State,
    rows: &Rows,
    block: u32,
    bindings: Bindings,
    touches: &Touches,
    fact: &Fact,
)
    ensures { Moves (with_exit rows.now block (said_bindings bindings.entry) touches.now (said_fact fact.now))
        state.old state.new }
{
    match fact {
        Fact::Range { .. } | Fact::Grows { .. } => {}
        Fact::Defined { path, spans } => {
            let outside = rows_outside(rows, block, bindings, path);
            let within = exit_spans(rows, bindings, touches, *spans);
            define_rows(state, rows, within, outside);
        }
        Fact::Order {
            root,
            other,
            number,
        } => {
            let first = exit_plus(rows, bindings, touches, *root, 0);
            let last = exit_plus(rows, bindings, touches, *other, *number);
            order(state, first, last);
        }
    }
}

// The rows of which all bears what a path names; none, where that is the callee's own.
fn rows_outside(rows: &Rows, block: u32, bindings: Bindings, path: &Path) -> Span
    ensures { numbers result ≡ rows_outside rows.now block (said_bindings bindings.entry) (said_path path.now) }
{
    if is_own_path(rows.tree(), block, bindings, path) {
        return Span::none();
    }
    match bearers_named(rows, bindings, path) {
        Bearers::Passed(_) => Span::none(),
        Bearers::Reached { rows: span, reach } => {
            if is_entire(&reach) {
                span
            } else {
                Span::none()
            }
        }
    }
}

// Whether a path names a part of a variable of the callee's own.
fn is_own_path(tree: &Tree, block: u32, bindings: Bindings, path: &Path) -> bool
    ensures { result ≡ is_own_path block (said_path path.now) (said_bindings bindings.entry)
        (slice_get tree.now.variables.items path.now.root) }
{
    match tree.variables.get(path.root as usize) {
        None => false,
        Some(variable) => variable.block == block && bindings.actual(path.root).is_none(),
    }
}

// All of each of some rows is defined, or what lies in spans; nothing, where that isn't known.
fn define_rows(state: &mut State, rows: &Rows, within: Option<Within>, span: Span)
    ensures { Moves (bearers_defined rows.now (option_map said_within within) (all_of_rows (numbers span)))
        state.old state.new }
{
    for row in span.first..span.end() {
        define_row(state, rows, within, row);
    }
}

fn define_row(state: &mut State, rows: &Rows, within: Option<Within>, row: usize)
    ensures { Moves (row_defined rows.now (option_map said_within within) row) state.old state.new }
{
    match within {
        None => {}
        Some(Within::All) => state.claim(&all_of_row(rows.index(row), row)),
        Some(Within::One(span)) => define_stretch(state, rows, row, span, None),
        Some(Within::Two(span, inner)) => define_stretch(state, rows, row, span, Some(inner)),
    }
}

fn define_stretch(
    state: &mut State,
    rows: &Rows,
    row: usize,
    span: StateSpan,
    inner: Option<StateSpan>,
)
    ensures { Moves (row_defined rows.now (Some (said_span span ∷ inner_spans inner)) row) state.old state.new }
{
    if !is_variable_row(rows, row) {
        state.claim(&Claim::in_spans(row, span, inner));
    }
}

// One bound is at most another, where both are there and have variables.
fn order(state: &mut State, first: Option<Bound>, last: Option<Bound>)
    ensures { Moves (bounds_ordered (said_form first) (said_form last)) state.old state.new }
{
    if let (Some(first), Some(last)) = (first, last) {
        if let (Some(root), Some(other)) = (first.root, last.root) {
            let number = i64::from(last.number) - i64::from(first.number);
            state.order(Order::new(root, other, number));
        }
    }
}

// ---- bounds at the end

// Spans of the callee at its end: nothing, where a bound of them isn't known.
fn exit_spans(rows: &Rows, bindings: Bindings, touches: &Touches, spans: Spans) -> Option<Within>
    ensures { option_map said_within result
        ≡ exit_spans rows.now (said_bindings bindings.entry) touches.now (said_spans spans) }
{
    match spans {
        Spans::None => Some(Within::All),
        Spans::One(span) => {
            let span = exit_span(rows, bindings, touches, span)?;
            Some(Within::One(span))
        }
        Spans::Two(span, inner) => {
            let span = exit_span(rows, bindings, touches, span)?;
            let inner = exit_span(rows, bindings, touches, inner)?;
            Some(Within::Two(span, inner))
        }
    }
}

fn exit_span(
    rows: &Rows,
    bindings: Bindings,
    touches: &Touches,
    span: facts::Span,
) -> Option<StateSpan>
    ensures { said_span_form result
        ≡ exit_span rows.now (said_bindings bindings.entry) touches.now (said_claimed_span span) }
{
    StateSpan::between(
        exit_bound(rows, bindings, touches, span.first),
        exit_bound(rows, bindings, touches, span.last),
    )
}

// A bound of the callee at its end, where it is called: it says nothing where that isn't known.
fn exit_bound(
    rows: &Rows,
    bindings: Bindings,
    touches: &Touches,
    bound: facts::Bound,
) -> Option<Bound>
    ensures { said_form result
        ≡ exit_bound rows.now (said_bindings bindings.entry) touches.now (said_claimed bound) }
{
    match bound {
        facts::Bound::Number(number) => Some(Bound::constant(number)),
        facts::Bound::Plus { root, number } => exit_plus(rows, bindings, touches, root, number),
    }
}

// The same of a variable with a number more.
fn exit_plus(
    rows: &Rows,
    bindings: Bindings,
    touches: &Touches,
    root: u32,
    number: i32,
) -> Option<Bound>
    ensures { said_form result ≡ exit_plus rows.now (said_bindings bindings.entry) touches.now root number }
{
    match bindings.actual(root) {
        None => steady(touches, root, number),
        Some(actual) => exit_of_actual(rows, touches, actual, number),
    }
}

// The same of a formal parameter.
fn exit_of_actual(rows: &Rows, touches: &Touches, actual: &Actual, number: i32) -> Option<Bound>
    ensures { (root : ℕ) → said_form result
        ≡ exit_bound_of rows.now touches.now root number (Some (said_actual actual.now)) }
{
    match actual {
        Actual::Value { form, .. } => untouched(touches, number, *form),
        Actual::Rows(_) => None,
        Actual::Variable { access, .. } => {
            if is_whole(access) && is_variable_row(rows, access.root as usize) {
                steady(touches, access.root, number)
            } else {
                None
            }
        }
    }
}

// A bound of an actual parameter with a number more, if its variable is untouched.
fn untouched(touches: &Touches, number: i32, form: Option<Bound>) -> Option<Bound>
    ensures { said_form result ≡ untouched_form touches.now number (said_form form) }
{
    let bound = form?;
    if touches.shifts_bound(bound) {
        return None;
    }
    bound.moved(i64::from(number))
}

// A variable with a number more, if it is untouched, or changed just as it is.
fn steady(touches: &Touches, root: u32, number: i32) -> Option<Bound>
    ensures { said_form result ≡ steady_at touches.now root number }
{
    if touches.is_steady(root) {
        Some(Bound::plus(root, number))
    } else {
        None
    }
}
