ghost use Rattle.std.specs.Prelude.{◌≡◌};
ghost use Rattle.checker_rows.specs.Limits.{limits_of};
ghost use Rattle.checker_ways.specs.View.{said_way};
ghost use Rattle.checker_loops.specs.Ways.{entered};
ghost use Rattle.checker_expressions.specs.Walk.{changed_by, within};
ghost use Rattle.checker_loops.specs.View.{claims_of_round, said_turns};
ghost use Rattle.cert_checker.specs.View.{AreLoops, EntersLoop, WalkGoes, IsLoop, LeavesLoop, claims_in, context_of};
ghost use Rattle.cert_checker.specs.Walk.{begin_way, growths_entered, steady_in, tested_way, turn_from, turn_to};
ghost use Rattle.cert_checker.specs.Walk.{turns_in};

use crate::walk::Walk;
use checker_expressions::Rule;
use checker_loops::{Round, Turns, depth_of};
use checker_rows::limits;
use checker_ways::ways::Way;
use domain::Interval;
use place::Place;
use typed_tree::RangeTest;

// Where a loop begins and ends.
impl<'a> Walk<'a> {
    /// WalkGoes on at the head of a loop, whose facts have to be given here.
    pub(crate) fn enter_loop(&mut self, number: u32, place: Place, control: Option<u32>)
        ensures { EntersLoop number place control self.old self.new }
    {
        let round = self.round(number, control);
        let given = round.is_given(&self.flow.state);
        self.flow.ask(given, Rule::LoopEntry, place);
        round.head(&mut self.flow.state);
        match self.flow.grounds.rounds.push(round) {
            Ok(()) => {}
            Err(error) => self.flow.state.run_short(error.into()),
        }
    }

    /// WalkGoes on outside a loop, whose facts have to be given where a round of it ends.
    pub(crate) fn leave_loop(&mut self, number: u32, place: Place)
        ensures { LeavesLoop number place self.old self.new }
    {
        let given = self.round(number, None).is_given(&self.flow.state);
        self.flow.ask(given, Rule::LoopTurn, place);
        self.flow.grounds.rounds.pop();
    }

    /// The loop of a number, perhaps of a for statement with a control variable.
    pub fn round(&self, number: u32, control: Option<u32>) -> Round<'a>
        ensures { AreLoops (context_of self.now) self.now.aliases.now → IsLoop number control self.now result }
    {
        Round::of(
            self.flow.state.table().tree(),
            self.claims,
            self.aliases,
            number,
            control,
        )
    }
}

// What a for does with its control variable.
impl<'a> Walk<'a> {
    /// The way behind the tests of both bounds.
    pub fn tested_way(&mut self, way: &Way) -> Way
        ensures { WalkGoes (tested_way (said_way way.now)) self.old self.new (said_way result) }
    {
        let first = way.first.met(&self.flow.state);
        let last = way.last.met(&self.flow.state);
        let first = self.tested_end(way.first.fits, first);
        let last = self.tested_end(way.last.fits, last);
        way.with_values(first, last)
    }

    /// The test of a bound whose value lies in a range.
    fn tested_end(&mut self, fits: RangeTest, range: Interval) -> Interval
        ensures { WalkGoes (within (limits_of fits.range) fits.site range) self.old self.new result }
    {
        self.flow.within(limits(fits.range), fits.site, range)
    }

    /// The control variable is the first bound, where a first turn may begin.
    pub fn begin_way(&mut self, way: &Way)
        ensures { WalkGoes (begin_way (said_way way.now)) self.old self.new tt }
    {
        self.enter_way(way);
        self.assigned(way.control, way.first.values, way.first.form, None);
    }

    /// WalkGoes on where a first turn may begin.
    fn enter_way(&mut self, way: &Way)
        ensures { WalkGoes (changed_by (entered (said_way way.now))) self.old self.new tt }
    {
        way.enter(&mut self.flow.state);
    }

    /// What the turns of a way through the loop of a number go by.
    pub fn turns_in(&self, number: u32, way: &Way) -> Turns<'a>
        ensures turns_are { AreLoops (context_of self.now) self.now.aliases.now
            → said_turns result ≡ turns_in (context_of self.now) number (said_way way.now) }
        ensures claims_are { AreLoops (context_of self.now) self.now.aliases.now
            → claims_of_round result.round ≡ claims_in number self.now }
    {
        Turns {
            round: self.round(number, Some(way.control)),
            depth: depth_of(&self.flow.grounds.rounds),
            most: way.most(),
        }
    }

    /// Growths have to be given before the first turn.
    pub(crate) fn enter_turns(&mut self, turns: &Turns, place: Place)
        ensures { WalkGoes (growths_entered place (claims_of_round turns.now.round).facts) self.old self.new tt }
    {
        let given = turns.can_begin(&self.flow.state);
        self.flow.ask(given, Rule::LoopEntry, place);
    }

    /// WalkGoes on where a turn begins.
    pub(crate) fn begin_turn(&mut self, way: &Way, turns: &Turns)
        ensures { WalkGoes (turn_from (said_turns turns.now) (claims_of_round turns.now.round).facts (said_way way.now))
            self.old self.new tt }
    {
        way.begin_turn(&mut self.flow.state);
        turns.begin(&mut self.flow.state);
    }

    /// WalkGoes on where a turn ends and another follows: growths have to be given.
    pub(crate) fn end_turn(&mut self, way: &Way, turns: &Turns, place: Place)
        ensures { WalkGoes (turn_to (said_turns turns.now) place (claims_of_round turns.now.round).facts
            (said_way way.now))
            self.old self.new tt }
    {
        way.end_turn(&mut self.flow.state);
        let grown = turns.are_given(&self.flow.state);
        self.flow.ask(grown, Rule::LoopTurn, place);
        turns.end(&mut self.flow.state);
    }

    /// The way with the forms of its bounds that the turns of its loop leave as they are.
    pub fn steady_in(&self, number: u32, way: &Way) -> Way
        ensures { AreLoops (context_of self.now) self.now.aliases.now
            → said_way result ≡ steady_in (context_of self.now) number (said_way way.now) }
    {
        way.steady(&self.round(number, Some(way.control)))
    }
}
