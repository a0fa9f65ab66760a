ghost use Rattle.std.specs.Prelude.{◌≡◌, map};
ghost use Rattle.std.specs.List.{list_all};
ghost use Rattle.certificate.specs.Contents.{said_fact};
ghost use Rattle.checker_rows.specs.Limits.{row_limits};
ghost use Rattle.checker_rows.specs.Rows.{rows_of, rows_touched};
ghost use Rattle.checker_rows.specs.View.{numbers};
ghost use Rattle.checker_state.specs.Changes.{all_changed};
ghost use Rattle.checker_state.specs.Loops.{all_forgotten, is_among, with_limits};
ghost use Rattle.checker_trail.specs.Trail.{Moves, seen};
ghost use Rattle.checker_loops.specs.Loops.{claims_at, gives_claims, head_of, round_of, touched};
ghost use Rattle.checker_loops.specs.Pairs.{Listed};
ghost use Rattle.checker_loops.specs.View.{all_loop_aliases, claims_of_round, head_round, loop_of_round, own_controls};
ghost use Rattle.checker_loops.specs.View.{said_claims};

use crate::loops::{Claims, aliases_at, changes_at, controls_inside, facts_at, is_for_statement};
use crate::{Roots, claim_facts, gives_facts};
use certificate::Fact;
use checker_rows::{Rows, Span};
use checker_trail::State;
use typed_tree::Tree;

/// A loop round the walk.
#[derive(Clone, Copy)]
pub struct Round<'a> {
    /// The variables that its claims list.
    pub changes: Roots<'a>,
    /// The facts of its claims.
    pub facts: &'a [Fact],
    /// The control variables of the for statements inside it.
    pub controls: &'a [u32],
    /// The aliases of what it changes, and of these control variables, that are visible in its block.
    pub aliases: &'a [u32],
    /// Whether it is a for statement.
    pub is_for: bool,
    /// Its own control variable, at the head of a for statement.
    pub own: Option<u32>,
}

impl<'a> Round<'a> {
    /// The loop of a number, perhaps of a for statement with a control variable, by the claims on all loops and by the
    /// aliases of what each changes.
    pub fn of<'c>(
        tree: &'a Tree,
        claims: &'a [Claims<'c>],
        aliases: &'a [Vec<u32>],
        number: u32,
        own: Option<u32>,
    ) -> Round<'a>
        ensures loop_is { (listed : Listed)
            → map (λ row. row.items) aliases.now ≡ all_loop_aliases tree.now listed (map said_claims claims.now)
            → loop_of_round result ≡ round_of tree.now listed (map said_claims claims.now) number }
        ensures claims_are { claims_of_round result ≡ claims_at (map said_claims claims.now) number }
        ensures own_is { result.own ≡ own }
    {
        Round {
            changes: changes_at(claims, number as usize),
            facts: facts_at(claims, number as usize),
            controls: controls_inside(tree, number),
            aliases: aliases_at(aliases, number),
            is_for: is_for_statement(tree, number),
            own,
        }
    }

    /// Whether a turn gives a variable another value.
    #[tactic(auto, using(crate::proofs::Touched::touched_parts))]
    pub fn touches(&self, root: u32) -> bool
        ensures { result ≡ is_among root (touched (head_round self.now)) }
    {
        is_among(self.own_controls(), root)
            || is_among(self.controls, root)
            || self.changes.has(root)
            || is_among(self.aliases, root)
    }

    /// Its own control variable, if it has one.
    fn own_controls(&self) -> &[u32]
        ensures { result.now ≡ own_controls self.now.own }
    {
        self.own.as_slice()
    }

    /// Whether a state gives its facts.
    pub fn is_given(&self, state: &State) -> bool
        ensures { result
            ≡ gives_claims state.now.table.now (seen state.now) (claims_of_round self.now).facts }
    {
        gives_facts(state, self.facts)
    }

    /// Brings a state to its head.
    pub fn head(&self, state: &mut State)
        ensures { Moves (head_of state.old.table.now (head_round self.now) (claims_of_round self.now).facts)
            state.old state.new }
    {
        let rows = state.table();
        self.change_all(state);
        self.touch_all(state, rows);
        self.forget_all(state);
        claim_facts(state, self.facts);
    }

    /// What it touches may have other values.
    fn change_all(&self, state: &mut State)
        ensures { Moves (all_changed (touched (head_round self.now))) state.old state.new }
    {
        state.change_all(self.own_controls());
        state.change_all(self.controls);
        state.change_all(self.changes.listed);
        state.change_all(self.aliases);
    }

    /// Each row of what it touches may have other values of its type.
    fn touch_all(&self, state: &mut State, rows: &Rows)
        ensures { Moves (with_limits (row_limits (rows_of rows.now))
            (rows_touched rows.now (touched (head_round self.now)))) state.old state.new }
    {
        touch_roots(state, rows, self.own_controls());
        touch_roots(state, rows, self.controls);
        touch_roots(state, rows, self.changes.listed);
        touch_roots(state, rows, self.aliases);
    }

    /// Its control variables may be undefined.
    fn forget_all(&self, state: &mut State)
        ensures { Moves (all_forgotten (head_round self.now).controls) state.old state.new }
    {
        state.forget_all(self.own_controls());
        state.forget_all(self.controls);
    }
}

/// Each row of several variables may have other values of its type.
fn touch_roots(state: &mut State, rows: &Rows, roots: &[u32])
    ensures { Moves (with_limits (row_limits (rows_of rows.now)) (rows_touched rows.now roots.now))
        state.old state.new }
{
    for root in roots {
        touch_span(state, rows, rows.of_variable(*root));
    }
}

fn touch_span(state: &mut State, rows: &Rows, span: Span)
    ensures { Moves (with_limits (row_limits (rows_of rows.now)) (numbers span)) state.old state.new }
{
    for row in span.first..span.end() {
        state.set_range(row, rows.row_limits(row));
    }
}

/// Whether a variable is among some.
fn is_among(roots: &[u32], root: u32) -> bool
    ensures { result ≡ is_among root roots.now }
{
    roots.contains(&root)
}

/// Whether each of these loops lists a variable.
pub fn all_list(rounds: &[Round], root: u32) -> bool
    ensures { result ≡ list_all (λ round. is_among root (loop_of_round round).changes) rounds.now }
{
    rounds.iter().all(|round| round.changes.has(root))
}
