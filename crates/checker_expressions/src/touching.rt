//! Which bound forms stand behind calls (ISO 7185:1990, 6.7.3): those whose variables no call touches, by the text of
//! the calls and by what is claimed of the blocks that they call.
ghost use Rattle.std.specs.Prelude.{◌≡◌, [], flat_map, map};
ghost use Rattle.std.specs.List.{cons_option, list_any};
ghost use Rattle.checker_calls.specs.Actuals.{actual_of, bound_to};
ghost use Rattle.checker_calls.specs.Exit.{root_changed};
ghost use Rattle.checker_state.specs.View.{said_form, said_index, said_indexes, said_reach};
ghost use Rattle.checker_expressions.specs.View.{any_touches, callees_at, context_of};
ghost use Rattle.checker_expressions.specs.Walk.{calls_in, form_behind, index_behind, index_pieces, is_or_pairs};
ghost use Rattle.checker_expressions.specs.Walk.{joint_of};
ghost use Rattle.checker_expressions.specs.Walk.{passed_piece_of, piece_of, reach_before, reach_behind, touches};

use crate::Flow;
use crate::calls::parameters;
use checker_calls::unknown_reach;
use checker_loops::block_claims_at;
use checker_state::{Bound, Index, Indexes, Reach};
use domain::Extension;
use typed_tree::{Call, Expr, Link, Passed, hold_call};

impl<'a> Flow<'a> {
    /// What was reached before other expressions were evaluated.
    pub fn reach_before(&self, later: &[Expr], reach: Reach) -> Reach
        ensures { said_reach result
            ≡ reach_before (context_of self.now []) (index_pieces later.now) (said_reach reach) }
    {
        if self.grounds.version.has(Extension::Calls) {
            self.reach_behind(later, reach)
        } else if hold_call(later) {
            unknown_reach(reach)
        } else {
            reach
        }
    }

    fn reach_behind(&self, later: &[Expr], reach: Reach) -> Reach
        ensures { said_reach result
            ≡ reach_behind (callees_at self.now) (calls_in (index_pieces later.now)) (said_reach reach) }
    {
        Reach {
            indexes: self.indexes_behind(later, &reach.indexes),
            is_all: reach.is_all,
        }
    }

    fn indexes_behind(&self, later: &[Expr], indexes: &Indexes) -> Indexes
        ensures { said_indexes result ≡ map (index_behind (callees_at self.now) (calls_in (index_pieces later.now)))
            (said_indexes indexes.now) }
    {
        match indexes {
            Indexes::Entire => Indexes::Entire,
            Indexes::One(index) => Indexes::One(self.index_behind(later, *index)),
            Indexes::Two(one, other) => Indexes::Two(
                self.index_behind(later, *one),
                self.index_behind(later, *other),
            ),
        }
    }

    fn index_behind(&self, later: &[Expr], index: Index) -> Index
        ensures { said_index result
            ≡ index_behind (callees_at self.now) (calls_in (index_pieces later.now)) (said_index index) }
    {
        Index {
            form: self.form_behind(later, index.form),
            range: index.range,
        }
    }

    /// A bound form, if it stands behind the calls in other expressions.
    pub(crate) fn form_behind(&self, later: &[Expr], form: Option<Bound>) -> Option<Bound>
        ensures { said_form result
            ≡ form_behind (callees_at self.now) (calls_in (index_pieces later.now)) (said_form form) }
    {
        match form?.root {
            None => form,
            Some(root) => {
                if self.are_touching(later, root) {
                    None
                } else {
                    form
                }
            }
        }
    }

    /// Whether a call in one of the expressions touches a variable.
    #[cycle(touching)]
    fn are_touching(&self, expressions: &[Expr], root: u32) -> bool
        ensures { result ≡ any_touches self.now root (calls_in (index_pieces expressions.now)) }
    {
        for expression in expressions {
            if self.is_touching(expression, root) {
                return true;
            }
        }
        false
    }

    /// Whether a call in the expression does.
    #[cycle(touching)]
    fn is_touching(&self, expression: &Expr, root: u32) -> bool
        ensures { result ≡ any_touches self.now root (piece_of expression.now).calls }
    {
        match expression {
            Expr::Constant { .. } | Expr::Input { .. } => false,
            Expr::Variable { indexes, .. } => self.are_touching(indexes.as_slice(), root),
            Expr::Set { members, .. } => self.are_touching(members.as_slice(), root),
            Expr::Monadic { operand, .. } => self.is_touching(operand, root),
            Expr::Chain { first, rest } => {
                self.is_touching(first, root) || self.links_touch(rest.as_slice(), root)
            }
            Expr::Compare {
                left_indexes,
                right_indexes,
                ..
            } => {
                self.are_touching(left_indexes.as_slice(), root)
                    || self.are_touching(right_indexes.as_slice(), root)
            }
            Expr::Call { call, actuals } => {
                self.call_touches(*call, actuals.as_slice(), root)
                    || self.actuals_touch(actuals.as_slice(), root)
            }
        }
    }

    /// Whether a call in one of the right operands does.
    #[cycle(touching)]
    fn links_touch(&self, links: &[Link], root: u32) -> bool
        ensures { result ≡ any_touches self.now root
            (flat_map (λ joint. joint.right.calls) (map joint_of links.now)) }
    {
        for link in links {
            if self.is_touching(&link.operand, root) {
                return true;
            }
        }
        false
    }

    /// Whether a call in one of the actual parameters does.
    #[cycle(touching)]
    fn actuals_touch(&self, actuals: &[Passed], root: u32) -> bool
        ensures { result ≡ any_touches self.now root
            (flat_map (λ piece. piece.calls) (map passed_piece_of actuals.now)) }
    {
        for actual in actuals {
            if self.actual_touches(actual, root) {
                return true;
            }
        }
        false
    }

    /// Whether a call in the actual parameter does.
    #[cycle(touching)]
    fn actual_touches(&self, actual: &Passed, root: u32) -> bool
        ensures { result ≡ any_touches self.now root (passed_piece_of actual.now).calls }
    {
        match actual {
            Passed::Value { value, .. } => self.is_touching(value, root),
            Passed::Whole { indexes, .. } | Passed::Reference { indexes, .. } => {
                self.are_touching(indexes.as_slice(), root)
            }
        }
    }

    /// Whether the call itself does: it may change the variable, or one that may share a place with it.
    fn call_touches(&self, call: Call, actuals: &[Passed], root: u32) -> bool
        ensures { result ≡ touches (callees_at self.now) root
            (record { call = call; actuals = map (λ piece. piece.told) (map passed_piece_of actuals.now) }) }
    {
        let parameters = parameters(self.state.table(), call);
        let claims = block_claims_at(&self.grounds.sections, call.block);
        self.listed_touch(parameters, actuals, claims.changes.listed, root)
    }

    fn listed_touch(
        &self,
        parameters: &[u32],
        actuals: &[Passed],
        listed: &[u32],
        root: u32,
    ) -> bool
        ensures { result ≡ list_any (λ one. list_any (is_or_pairs (callees_at self.now) root) (root_changed one
            (actual_of (bound_to parameters.now (map (λ piece. piece.told) (map passed_piece_of actuals.now))) one)))
            listed.now }
    {
        listed.iter().any(|one| self.is_or_pairs(root, root_told(parameters, actuals, *one)))
    }

    /// Whether what is changed, if there is one, is a variable or may share a place with it.
    fn is_or_pairs(&self, root: u32, changed: Option<u32>) -> bool
        ensures { result ≡ list_any (is_or_pairs (callees_at self.now) root) (cons_option changed []) }
    {
        match changed {
            None => false,
            Some(changed) => changed == root || self.grounds.pairs.has(changed, root),
        }
    }
}

/// The variable that the caller knows by a root that a callee lists, by the text of the actual parameters.
fn root_told(parameters: &[u32], actuals: &[Passed], root: u32) -> Option<u32>
    ensures { cons_option result [] ≡ root_changed root
        (actual_of (bound_to parameters.now (map (λ piece. piece.told) (map passed_piece_of actuals.now))) root) }
{
    for i in 0..parameters.len() {
        if parameters[i] == root {
            return match actuals.get(i) {
                None => Some(root),
                Some(Passed::Reference { access, .. }) => Some(access.root),
                Some(Passed::Value { .. } | Passed::Whole { .. }) => None,
            };
        }
    }
    Some(root)
}
