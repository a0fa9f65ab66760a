use crate::growths::{added, begin, begun, set, settle, steps, take_out, turn};
use crate::outcome::Outcome;
use crate::{Coming, Ladders};
use certificate::Fact;
use checker_loops::rows_named;
use checker_rows::{Rows, Span};
use domain::{Domain, Growth, Interval, Path};
use std::alloc::{AllocError, Global};
use std::mem;

/// How often an end of a range moves to what comes.
const FREE_MOVES: u8 = 3;

/// How often it moves to steps of a ladder behind that. Then it goes to the last number that it may be.
const LADDER_MOVES: u8 = 8;

/// Where so many turns moved what is known, ranges that none moved go on to their next steps, and growths that add
/// nothing yet are taken to add up to 1.
const MANY_TURNS: u32 = 9;

/// Where so many did, ranges that none moved go on to all values.
const MOST_TURNS: u32 = 24;

/// How often the number of an order goes to the least that is given. Then it skips those that are less than -1.
const ORDER_MOVES: u8 = 3;

/// The greatest number that is tried of an order: that a variable is at most one more than another.
const GREATEST_NUMBER: i32 = 1;

/// How many numbers are tried at most.
const NUMBERS: u32 = 64;

/// What is known so far of a place of facts, beside the facts themselves. These move one way, but for narrowing: ranges
/// go up from the empty one, as growths do, the numbers of orders rise, and claims fall.
#[derive(Drop)]
pub struct Table {
    /// Whether a state came to the place.
    pub is_reached: bool,
    // How many turns moved what is known here.
    turns: u32,
    /// How many turns are finished at most, if it is the head of a for, where that was last walked.
    pub most: i64,
    // Of each fact what stands beside it, in the order of the facts.
    beside: Vec<Beside>,
}

/// What stands beside a fact; of use for ranges and growths alone.
#[derive(Clone, Copy)]
struct Beside {
    // The rows of a range; none where its path names nothing.
    rows: Span,
    // How often each end moved, where this was counted; of a growth, how often what turns add did.
    first_moves: u8,
    last_moves: u8,
    // The join of what came in a round that narrows: of a growth, to where it begins.
    collected: Interval,
    // And of what turns added.
    steps: Interval,
}

/// How what comes moves what is known.
#[derive(Clone, Copy)]
pub struct Pace<'p, 'a> {
    pub rows: &'p Rows<'a>,
    /// Where the ends of ranges stop that move.
    pub ladders: &'p Ladders,
    /// Whether what comes is only collected, and nothing moves.
    pub narrows: bool,
    /// Whether moves count, others are free: at the head of a loop those don't that come from outside.
    pub counts: bool,
}

impl Table {
    /// The table of a place with these facts, to which nothing came.
    ///
    /// # Errors
    /// No memory.
    pub fn new(alloc: Global, rows: &Rows, facts: &[Fact]) -> Result<Table, AllocError> {
        Ok(Table {
            is_reached: false,
            turns: 0,
            most: 0,
            beside: facts
                .iter()
                .map(|fact| Beside::of(rows, fact))
                .collect(alloc)?,
        })
    }

    /// A state comes to the place: ranges are widened, and what it doesn't give falls and is taken out. Whether
    /// anything moved, as the first state does. A state to which no run comes moves nothing.
    pub fn arrive(&mut self, facts: &mut Vec<Fact>, coming: &Coming, pace: Pace) -> bool {
        if coming.state().is_dead() {
            return false;
        }
        if pace.narrows {
            self.collect(facts, coming, pace.counts);
            return false;
        }
        let mut has_moved = !self.is_reached;
        self.is_reached = true;
        for place in (0..facts.len()).rev() {
            let outcome = match (facts.get_mut(place), self.beside.get_mut(place)) {
                (Some(fact), Some(beside)) => pace.outcome(fact, beside, coming),
                _ => Outcome::Falls,
            };
            match outcome {
                Outcome::Stays => {}
                Outcome::Moves => has_moved = true,
                Outcome::Falls | Outcome::Fades => {
                    take_out(facts, place);
                    take_out(&mut self.beside, place);
                    has_moved = has_moved || matches!(outcome, Outcome::Falls);
                }
            }
        }
        if has_moved && pace.counts && matches!(coming, Coming::Here(_)) {
            self.turned(facts, &pace);
        }
        has_moved
    }

    // A turn moved what is known here. Where many did, nothing waits any longer for what moves it.
    fn turned(&mut self, facts: &mut [Fact], pace: &Pace) {
        self.turns = self.turns.saturating_add(1);
        if self.turns != MANY_TURNS && self.turns != MOST_TURNS {
            return;
        }
        for (fact, beside) in facts.iter_mut().zip(self.beside.iter_mut()) {
            if beside.first_moves == 0 && beside.last_moves == 0 {
                pace.hurry(fact, beside, self.turns);
            }
        }
    }

    // A state comes in a round that narrows: nothing moves yet.
    fn collect(&mut self, facts: &[Fact], coming: &Coming, counts: bool) {
        for (fact, beside) in facts.iter().zip(self.beside.iter_mut()) {
            match fact {
                Fact::Range { path, .. } => beside.come(coming.range(path, beside.rows)),
                Fact::Grows { root, growth } if counts => {
                    beside.turn(growth, coming.growth(*root));
                }
                Fact::Grows { root, .. } => beside.come(coming.state().range(*root)),
                _ => {}
            }
        }
    }

    /// The round is done: each range is met with what was collected, if anything was. Whether anything moved.
    pub fn narrow(&mut self, facts: &mut [Fact]) -> bool {
        let mut has_moved = false;
        for (fact, beside) in facts.iter_mut().zip(self.beside.iter_mut()) {
            has_moved = match fact {
                Fact::Range { range, .. } => narrowed(range, &mut beside.collected),
                Fact::Grows { growth, .. } => beside.narrow(growth),
                _ => false,
            } || has_moved;
        }
        has_moved
    }

    /// Nothing moves any longer: a range or a growth that says no more than the other one of its variable is dropped.
    pub fn settle(&self, facts: &mut Vec<Fact>, rows: &Rows) {
        settle(facts, rows, self.most);
    }
}

impl Beside {
    fn of(rows: &Rows, fact: &Fact) -> Beside {
        Beside {
            rows: match fact {
                Fact::Range { path, .. } => rows_named(rows, path),
                _ => Span::none(),
            },
            first_moves: 0,
            last_moves: 0,
            collected: Interval::EMPTY,
            steps: Interval::EMPTY,
        }
    }

    // A range comes in a round that narrows.
    fn come(&mut self, came: Interval) {
        self.collected = self.collected.join(&came);
    }

    // A turn ends, in such a round.
    fn turn(&mut self, growth: &Growth, turned: Option<Growth>) {
        if let Some(turned) = turned {
            self.steps = self.steps.join(&added(growth, &turned));
        }
    }

    // Meets where a growth begins and what turns add with what was collected. Whether anything moved.
    fn narrow(&mut self, growth: &mut Growth) -> bool {
        let (mut begun, mut steps) = (begun(growth), steps(growth));
        let begins = narrowed(&mut begun, &mut self.collected)
            && set(&mut growth.first, &mut growth.last, begun);
        let turns = narrowed(&mut steps, &mut self.steps)
            && set(&mut growth.first_step, &mut growth.last_step, steps);
        begins || turns
    }
}

// Meets a range with what was collected, which isn't any longer. Whether it moved.
fn narrowed(range: &mut Interval, collected: &mut Interval) -> bool {
    let came = mem::replace(collected, Interval::EMPTY);
    if came.is_empty() || range.leq(&came) {
        return false;
    }
    *range = range.meet(&came);
    true
}

impl<'p, 'a> Pace<'p, 'a> {
    // What becomes of a fact.
    fn outcome(&self, fact: &mut Fact, beside: &mut Beside, coming: &Coming) -> Outcome {
        match fact {
            Fact::Range { path, range } => self.widen(path, range, beside, coming),
            Fact::Defined { .. } | Fact::Order { .. } => claimed(fact, beside, coming),
            Fact::Grows { root, growth } if self.counts => {
                turn(growth, &mut beside.first_moves, coming.growth(*root))
            }
            Fact::Grows { root, growth } => begin(growth, coming.state().range(*root)),
        }
    }

    // Where the values of a row of such a type may lead at the head of a loop: a variable that grows gets no others
    // behind a turn than those that all turns lead to.
    fn leads(&self, path: &Path, limits: Interval, coming: &Coming) -> Interval {
        match coming {
            Coming::Here(state) if self.counts && path.steps.is_empty() => {
                match state.growth(path.root) {
                    None => limits,
                    Some(growing) => growing.reached().meet(&limits),
                }
            }
            _ => limits,
        }
    }

    // Widens a range by what comes. One of all values stays: it may get narrower.
    fn widen(
        &self,
        path: &Path,
        range: &mut Interval,
        beside: &mut Beside,
        coming: &Coming,
    ) -> Outcome {
        let limits = self.rows.row_limits(beside.rows.first);
        if limits.leq(range) {
            return Outcome::Stays;
        }
        let came = coming.range(path, beside.rows).meet(&limits);
        if came.leq(range) {
            return Outcome::Stays;
        }
        *range = if range.is_empty() {
            came
        } else {
            let leads = self.leads(path, limits, coming);
            self.widened(*range, came, leads, beside)
        };
        Outcome::Moves
    }

    // A range with what comes, which may lead so far, neither of which is empty, and so far beyond that as its ends
    // move.
    fn widened(
        &self,
        range: Interval,
        came: Interval,
        leads: Interval,
        beside: &mut Beside,
    ) -> Interval {
        let row = beside.rows.first;
        let limits = range.join(&came).join(&leads);
        let (mut first, mut last) = (range.first(), range.last());
        if came.first() < first {
            let step = self.ladders.below(row, came.first());
            first = self.end(&mut beside.first_moves, came.first(), step, limits.first());
        }
        if last < came.last() {
            let step = self.ladders.above(row, came.last());
            last = self.end(&mut beside.last_moves, came.last(), step, limits.last());
        }
        limits.at_least(first).at_most(last)
    }

    // Goes on with a fact that none of so many turns moved, though they moved others.
    fn hurry(&self, fact: &mut Fact, beside: &mut Beside, turns: u32) {
        match fact {
            Fact::Range { range, .. } if !range.is_empty() => {
                let beyond = self.beyond(beside.rows.first, *range, turns == MOST_TURNS);
                if !beyond.leq(range) {
                    beside.first_moves = FREE_MOVES + 1;
                    beside.last_moves = FREE_MOVES + 1;
                    *range = beyond;
                }
            }
            Fact::Grows { growth, .. } => {
                beside.first_moves = 1;
                growth.last_step = 1;
            }
            _ => {}
        }
    }

    // From the next step below a range of a row to the next one above it, where there are any; or all values.
    fn beyond(&self, row: usize, range: Interval, is_last: bool) -> Interval {
        let limits = self.rows.row_limits(row);
        if is_last {
            return limits;
        }
        let (first, last) = (range.first(), range.last());
        let below = self.ladders.below(row, first.saturating_sub(1));
        let above = self.ladders.above(row, last.saturating_add(1));
        limits
            .at_least(below.unwrap_or(first))
            .at_most(above.unwrap_or(last))
    }

    // Where an end goes that moves: to what comes, to the step of the ladder there, or to the last that it may be.
    fn end(&self, moves: &mut u8, came: i64, step: Option<i64>, limit: i64) -> i64 {
        if !self.counts {
            return came;
        }
        *moves = moves.saturating_add(1);
        if *moves <= FREE_MOVES {
            came
        } else if *moves <= FREE_MOVES + LADDER_MOVES {
            step.unwrap_or(limit)
        } else {
            limit
        }
    }
}

// What becomes of a claim. The number of an order that isn't given rises until it is.
fn claimed(fact: &mut Fact, beside: &mut Beside, coming: &Coming) -> Outcome {
    if coming.gives(fact) {
        return Outcome::Stays;
    }
    let is_free = beside.first_moves < ORDER_MOVES;
    let least = if is_free { i32::MIN } else { -1 };
    beside.first_moves = beside.first_moves.saturating_add(1);
    for _ in 0..NUMBERS {
        if rises(fact, least) && coming.gives(fact) {
            return Outcome::Moves;
        }
    }
    Outcome::Falls
}

// Raises the number of an order by one, or to the least that is tried, up to the greatest; whether it did.
fn rises(fact: &mut Fact, least: i32) -> bool {
    match fact {
        Fact::Order { number, .. } if *number < GREATEST_NUMBER => {
            *number = (*number + 1).max(least);
            true
        }
        _ => false,
    }
}
