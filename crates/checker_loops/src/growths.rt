ghost use Rattle.std.specs.Prelude.{◌≡◌, map};
ghost use Rattle.certificate.specs.Contents.{said_fact};
ghost use Rattle.checker_state.specs.Growths.{without_turns};
ghost use Rattle.checker_trail.specs.Trail.{Moves, seen};
ghost use Rattle.checker_loops.specs.Growths.{all_can_begin, all_have_turned, can_begin, depth_of, growth_begun};
ghost use Rattle.checker_loops.specs.Growths.{growths_begun, has_turned};
ghost use Rattle.checker_loops.specs.Loops.{touched};
ghost use Rattle.checker_loops.specs.View.{claims_of_round, head_round, loop_of_round, said_turns};

use crate::Round;
use certificate::Fact;
use checker_rows::Rows;
use checker_state::Growing;
use checker_trail::State;

/// The turns of a for statement.
#[derive(Clone, Copy)]
pub struct Turns<'a> {
    /// The statement at its head.
    pub round: Round<'a>,
    /// How many for statements stand round it.
    pub depth: usize,
    /// How many turns it finishes at most.
    pub most: i64,
}

impl<'a> Turns<'a> {
    /// Whether the growths that are claimed are given before the first.
    pub fn can_begin(&self, state: &State) -> bool
        ensures { result ≡ all_can_begin (seen state.now) (claims_of_round self.now.round).facts }
    {
        for fact in self.round.facts {
            if !can_begin(state, fact) {
                return false;
            }
        }
        true
    }

    /// Goes on where one begins.
    pub fn begin(&self, state: &mut State)
        ensures { Moves (growths_begun state.old.table.now (said_turns self.now)
            (claims_of_round self.now.round).facts) state.old state.new }
    {
        let rows = state.table();
        for fact in self.round.facts {
            self.begin_growth(state, rows, fact);
        }
    }

    fn begin_growth(&self, state: &mut State, rows: &Rows, fact: &Fact)
        ensures { Moves (growth_begun rows.now (said_turns self.now) (said_fact fact.now)) state.old state.new }
    {
        if let Fact::Grows { root, growth } = fact {
            if rows.is_ordinal_variable(*root) && self.round.touches(*root) {
                state.grow(
                    *root,
                    Growing {
                        depth: self.depth,
                        most: self.most,
                        growth: *growth,
                    },
                );
            }
        }
    }

    /// Whether the growths that are claimed are given behind one.
    pub fn are_given(&self, state: &State) -> bool
        ensures { result
            ≡ all_have_turned (said_turns self.now) (seen state.now) (claims_of_round self.now.round).facts }
    {
        for fact in self.round.facts {
            if !self.is_given(state, fact) {
                return false;
            }
        }
        true
    }

    fn is_given(&self, state: &State, fact: &Fact) -> bool
        ensures { result ≡ has_turned (said_turns self.now) (seen state.now) (said_fact fact.now) }
    {
        match fact {
            Fact::Grows { root, growth } => {
                if self.round.touches(*root) {
                    state.has_grown(*root, self.depth, growth)
                } else {
                    state.is_dead() || growth.is_within_next(growth)
                }
            }
            _ => true,
        }
    }

    /// Goes on behind them.
    pub fn end(&self, state: &mut State)
        ensures { Moves (without_turns (said_turns self.now).depth) state.old state.new }
    {
        state.end_turns(self.depth, self.round.changes.listed);
    }
}

/// Whether a growth is given before the first turn, if a fact is one.
fn can_begin(state: &State, fact: &Fact) -> bool
    ensures { result ≡ can_begin (seen state.now) (said_fact fact.now) }
{
    match fact {
        Fact::Grows { root, growth } => state.can_grow(*root, growth),
        _ => true,
    }
}

/// How many for statements are among loops.
pub fn depth_of(rounds: &[Round]) -> usize
    ensures { result ≡ depth_of (map loop_of_round rounds.now) }
{
    let mut depth = 0;
    for round in rounds {
        if round.is_for {
            depth += 1;
        }
    }
    depth
}
