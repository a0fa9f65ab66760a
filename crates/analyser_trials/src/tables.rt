//! Ladders, and what becomes of the facts of a place where states come to it.

use analyser_tables::{Coming, Ladders, Pace, Table, growth_of};
use certificate::Fact;
use checker_calls::{Actual, Bindings};
use checker_rows::Rows;
use checker_state::Growing;
use checker_trail::State;
use domain::{Interval, Path, Spans, Version};
use std::alloc::{AllocError, Global};
use std::test::Fail;
use test_words::rows::all_hold;
use typed_tree::{Tree, Variable, VariableKind};
use types::{TypeId, TypeTable};

/// A variable of a program's own.
fn variable(type_id: TypeId) -> Variable {
    Variable {
        block: 0,
        type_id,
        kind: VariableKind::Local,
    }
}

/// A program without statements. Its variables 0 and 1 are integers, 2 is a Boolean.
fn tree(alloc: Global) -> Result<Tree, AllocError> {
    let variables = vec![in alloc;
        variable(TypeTable::INTEGER),
        variable(TypeTable::INTEGER),
        variable(TypeTable::BOOLEAN),
    ]?;
    Ok(Tree {
        blocks: Vec::new(alloc),
        bodies: Vec::new(alloc),
        variables,
        sites: Vec::new(alloc),
        points: Vec::new(alloc),
        loops: Vec::new(alloc),
        types: TypeTable::required(alloc)?,
    })
}

fn path(alloc: Global, root: u32) -> Path {
    Path {
        root,
        steps: Vec::new(alloc),
    }
}

fn defined(alloc: Global, root: u32) -> Fact {
    Fact::Defined {
        path: path(alloc, root),
        spans: Spans::None,
    }
}

/// What a place claims: of a variable that it has a value, or its range; or how variable 0 stands to variable 1, from a
/// number on, or how it grows.
#[derive(Clone, Copy)]
enum Claim {
    Value(u32),
    Range(u32),
    Order(i32),
    Growth,
}

fn fact_of(alloc: Global, claim: Claim) -> Fact {
    match claim {
        Claim::Value(root) => defined(alloc, root),
        Claim::Range(root) => Fact::Range {
            path: path(alloc, root),
            range: Interval::EMPTY,
        },
        Claim::Order(number) => Fact::Order {
            root: 0,
            other: 1,
            number,
        },
        Claim::Growth => growth_of(0),
    }
}

fn facts_of(alloc: Global, claims: &[Claim]) -> Result<Vec<Fact>, AllocError> {
    let mut facts = Vec::with_capacity(alloc, claims.len())?;
    for claim in claims {
        facts.push(fact_of(alloc, *claim))?;
    }
    Ok(facts)
}

/// What a fact says, or the variable that has a value.
fn fact_told(alloc: Global, fact: &Fact) -> Result<String, AllocError> {
    match fact {
        Fact::Range { range, .. } => format!(in alloc; " {}..{}", range.first(), range.last()),
        Fact::Order { number, .. } => format!(in alloc; " {number}"),
        Fact::Defined {
            path,
            spans: Spans::None,
        } => format!(in alloc; " v{}", path.root),
        Fact::Defined { .. } => String::from_str(alloc, " another"),
        Fact::Grows { growth, .. } => format!(in alloc;
            " {}+{}..{}+{}",
            growth.first, growth.first_step, growth.last, growth.last_step
        ),
    }
}

/// What happens at a place.
#[derive(Clone, Copy)]
enum Event {
    /// The state comes with each of these values of a variable in turn.
    Values(u32, &'static [i32]),
    /// The same, where moves don't count.
    Uncounted(u32, &'static [i32]),
    /// States come in which variable 0 is at most variable 1 and each of these numbers in turn.
    AtMost(&'static [i32]),
    /// The state has a value of a variable from here on, and a range of it.
    Between(u32, i32, i32),
    /// The state comes, which is told by a sign: whether it moved a fact.
    Comes,
    /// Turns end in which a number of each of these ranges is added to variable 0.
    Turns(&'static [(i32, i32)]),
    /// The state is collected.
    Collects,
    /// The same, where moves don't count.
    CollectsUncounted,
    /// The end of a turn is collected in which a number of this range is added to variable 0.
    CollectsTurn(i32, i32),
    /// Facts narrow to what was collected, which is told by a sign too.
    Narrows,
    /// Nothing moves any longer.
    Settles,
}

use Claim::{Growth, Order, Range, Value};
use Event::*;

/// What a place claims, the steps of the ladder of variable 0, and what happens there.
type Row = (&'static [Claim], &'static [i64], &'static [Event]);

/// The ladders of so many rows.
fn ladders_of(alloc: Global, rows: usize, steps: &[i64]) -> Result<Ladders, AllocError> {
    let mut ladders = Ladders::new(alloc, rows)?;
    for step in steps {
        ladders.add(0, *step);
    }
    ladders.finish()?;
    Ok(ladders)
}

/// How many turns are finished at most.
const MOST: i64 = 9;

/// What facts move by.
#[derive(Drop)]
struct Basis<'a> {
    rows: Rows<'a>,
    ladders: Ladders,
}

impl<'a> Basis<'a> {
    /// States move what they come to, and their moves count.
    fn pace<'p>(&'p self) -> Pace<'p, 'a> {
        Pace {
            rows: &self.rows,
            ladders: &self.ladders,
            narrows: false,
            counts: true,
        }
    }
}

/// The facts of a place, and what is known of them.
#[derive(Drop)]
struct Place {
    facts: Vec<Fact>,
    table: Table,
}

impl Place {
    /// A state comes. Answers a sign of whether it moved a fact.
    fn meet(&mut self, state: &State, pace: Pace) -> &'static str {
        let coming = Coming::here(state);
        sign(self.table.arrive(&mut self.facts, &coming, pace))
    }

    /// An event. Answers its sign, if it has one.
    fn happen(&mut self, event: Event, state: &mut State, pace: Pace) -> &'static str {
        match event {
            Values(root, values) | Uncounted(root, values) => {
                let counts = matches!(event, Values(..));
                for value in values {
                    state.set_range(root as usize, Interval::between(*value, *value));
                    self.meet(state, Pace { counts, ..pace });
                }
            }
            AtMost(numbers) => {
                for number in numbers {
                    let mark = state.mark();
                    state.define(0);
                    state.define(1);
                    state.order(checker_state::Order::new(0, 1, i64::from(*number)));
                    self.meet(state, pace);
                    let _end = state.leave(mark);
                }
            }
            Between(root, first, last) => {
                state.define(root as usize);
                state.set_range(root as usize, Interval::between(first, last));
            }
            Turns(steps) => {
                for step in steps {
                    let mark = state.mark();
                    self.turn(state, *step);
                    self.meet(state, pace);
                    let _end = state.leave(mark);
                }
            }
            Comes => return self.meet(state, pace),
            Collects | CollectsUncounted => {
                let counts = matches!(event, Collects);
                let narrows = true;
                self.meet(
                    state,
                    Pace {
                        counts,
                        narrows,
                        ..pace
                    },
                );
            }
            CollectsTurn(least, greatest) => {
                let mark = state.mark();
                self.turn(state, (least, greatest));
                let narrows = true;
                self.meet(state, Pace { narrows, ..pace });
                let _end = state.leave(mark);
            }
            Narrows => return sign(self.table.narrow(&mut self.facts)),
            Settles => {
                self.table.most = MOST;
                self.table.settle(&mut self.facts, pace.rows);
            }
        }
        ""
    }

    /// Variable 0 is what is claimed of it, and a number of a range is added to it.
    fn turn(&self, state: &mut State, step: (i32, i32)) {
        state.define(0);
        state.set_range(0, Interval::INTEGER);
        for fact in &self.facts {
            match fact {
                Fact::Range { range, .. } => state.set_range(0, *range),
                Fact::Grows { root, growth } => {
                    let growing = Growing {
                        depth: 0,
                        most: MOST,
                        growth: *growth,
                    };
                    state.grow(*root, growing);
                }
                _ => {}
            }
        }
        let step = Interval::between(step.0, step.1);
        let range = state.range(0).add(&step);
        state.assign(0, range, None, Some(step));
    }
}

fn sign(moved: bool) -> &'static str {
    if moved { "+" } else { "-" }
}

/// Signs of what moved, and the facts that are left.
fn row_told(alloc: Global, row: &Row) -> Result<String, AllocError> {
    let (claims, steps, events) = *row;
    let tree = tree(alloc)?;
    let rows = Rows::of(alloc, &tree)?;
    let ladders = ladders_of(alloc, rows.count(), steps)?;
    let basis = Basis { rows, ladders };
    let facts = facts_of(alloc, claims)?;
    let table = Table::new(alloc, &basis.rows, &facts)?;
    let mut place = Place { facts, table };
    let mut state = State::of_types(alloc, Version::Two, &basis.rows);
    let mut told = String::new(alloc);
    for event in events {
        told.push_str(place.happen(*event, &mut state, basis.pace()))?;
    }
    for fact in &place.facts {
        told.push_str(fact_told(alloc, fact)?.as_str())?;
    }
    Ok(told)
}

/// A range that has all values of its type stays, and may get narrower.
static PLACES: [(Row, &str); 43] = [
    // The first state; three moves are free, and two that don't count.
    ((&[Range(0)], &[], &[Values(0, &[5])]), " 5..5"),
    ((&[Range(0)], &[10], &[Values(0, &[0, 1, 2, 3])]), " 0..3"),
    (
        (&[Range(0)], &[10], &[Uncounted(0, &[0, 1, 2, 3, 4, 5])]),
        " 0..5",
    ),
    // Then an end goes to the next step, which may be where it stands.
    (
        (&[Range(0)], &[100, 10], &[Values(0, &[0, 1, 2, 3, 4])]),
        " 0..10",
    ),
    (
        (&[Range(0)], &[4, 10], &[Values(0, &[0, 1, 2, 3, 4])]),
        " 0..4",
    ),
    (
        (&[Range(0)], &[100, 10], &[Values(0, &[0, 1, 2, 3, 4, 10])]),
        " 0..10",
    ),
    (
        (&[Range(0)], &[100, 10], &[Values(0, &[0, 1, 2, 3, 4, 11])]),
        " 0..100",
    ),
    (
        (&[Range(0)], &[-9, 0], &[Values(0, &[0, -1, -2, -3, -4])]),
        " -9..0",
    ),
    // Each end has moves of its own.
    (
        (
            &[Range(0)],
            &[9, -9],
            &[Values(0, &[0, 1, -1, 2, -2, 3, -3])],
        ),
        " -3..3",
    ),
    (
        (
            &[Range(0)],
            &[9, -9],
            &[Values(0, &[0, 1, -1, 2, -2, 3, -3, 4])],
        ),
        " -3..9",
    ),
    // Where no step follows, and behind eight steps, it goes to the type's end.
    (
        (&[Range(0)], &[10], &[Values(0, &[0, 1, 2, 3, 11])]),
        " 0..2147483647",
    ),
    (
        (
            &[Range(0)],
            &[4, 5, 6, 7, 8, 9, 10, 11],
            &[Values(0, &[0, 1, 2, 3, 4, 5, 6, 7, 8, 9, 10, 11])],
        ),
        " 0..11",
    ),
    (
        (
            &[Range(0)],
            &[4, 5, 6, 7, 8, 9, 10, 11, 12],
            &[Values(0, &[0, 1, 2, 3, 4, 5, 6, 7, 8, 9, 10, 11, 12])],
        ),
        " 0..2147483647",
    ),
    (
        (&[Range(0)], &[], &[Values(0, &[0, 1, 2, 3, 4, -1, -2, -3])]),
        " -3..2147483647",
    ),
    (
        (
            &[Range(0)],
            &[],
            &[Values(0, &[0, 1, 2, 3, 4, -1, -2, -3, -4])],
        ),
        " -2147483647..2147483647",
    ),
    // Where nine turns moved another variable, each end goes on to its next step, if it has one.
    (
        (
            &[Range(0), Range(1)],
            &[100],
            &[
                Between(0, 0, 0),
                Values(1, &[0, 1, 2, 3, 4, -1, -2, -3]),
                Comes,
                Values(1, &[-4]),
            ],
        ),
        "- 0..100 -2147483647..2147483647",
    ),
    (
        (
            &[Range(0), Range(1)],
            &[100],
            &[Between(0, 0, 0), Values(1, &[0, 1, 2, 3, 4, -1, -2, -3])],
        ),
        " 0..0 -3..2147483647",
    ),
    ((&[Range(2)], &[], &[Values(2, &[1])]), " 1..1"),
    ((&[Range(2)], &[], &[Values(2, &[1, 0])]), " 0..1"),
    // The number of an order grows, but not far.
    ((&[Order(-1)], &[], &[AtMost(&[-1, -2])]), " -1"),
    ((&[Order(-1)], &[], &[AtMost(&[-1, 0])]), " 0"),
    ((&[Order(-1)], &[], &[AtMost(&[1, -1])]), " 1"),
    ((&[Order(-1)], &[], &[AtMost(&[-1, 0, 1])]), " 1"),
    ((&[Order(-1)], &[], &[AtMost(&[0, 2])]), ""),
    // From further below it goes three times to what comes, and then no lower than -1.
    ((&[Order(-9)], &[], &[AtMost(&[-5, -6, -4])]), " -4"),
    ((&[Order(-9)], &[], &[AtMost(&[-6, -5, -4, -3])]), " -1"),
    // What a state doesn't give falls, and the same state moves nothing.
    (
        (
            &[Value(0), Value(1), Range(1)],
            &[],
            &[Between(1, 3, 4), Comes, Comes],
        ),
        "+- 3..4 v1",
    ),
    (
        (
            &[Range(0)],
            &[],
            &[
                Between(0, 0, 100),
                Comes,
                Between(0, 2, 101),
                Collects,
                Between(0, 7, 101),
                Collects,
                Narrows,
                Narrows,
            ],
        ),
        "++- 2..100",
    ),
    (
        (
            &[Range(0)],
            &[],
            &[
                Between(0, -2147483647, 2147483647),
                Comes,
                Comes,
                Between(0, 2, 9),
                Collects,
                Narrows,
            ],
        ),
        "+-+ 2..9",
    ),
    // A growth begins with what comes from outside, and turns add to that.
    ((&[Growth], &[], &[Uncounted(0, &[5, 3, 9])]), " 3+0..9+0"),
    (
        (
            &[Growth],
            &[],
            &[Uncounted(0, &[5]), Turns(&[(1, 3), (1, 3), (2, 2)])],
        ),
        " 5+1..5+3",
    ),
    (
        (
            &[Growth],
            &[],
            &[Uncounted(0, &[5]), Turns(&[(1, 3), (-2, 4)])],
        ),
        " 5+-2..5+4",
    ),
    (
        (
            &[Growth],
            &[],
            &[
                Uncounted(0, &[5]),
                Turns(&[(0, 0), (1, 1)]),
                Uncounted(0, &[2]),
            ],
        ),
        " 2+1..5+1",
    ),
    // It falls where a turn ends otherwise; that moves nothing, unless turns were known to add something.
    ((&[Growth], &[], &[Uncounted(0, &[5]), Comes, Comes]), "--"),
    (
        (
            &[Growth],
            &[],
            &[Uncounted(0, &[5]), Turns(&[(1, 1)]), Comes, Comes],
        ),
        "+-",
    ),
    // So it does where what turns add has no number, or moves often.
    (
        (
            &[Growth],
            &[],
            &[Uncounted(0, &[5]), Turns(&[(1, 2147483643)])],
        ),
        "",
    ),
    (
        (
            &[Growth],
            &[],
            &[
                Uncounted(0, &[0]),
                Turns(&[
                    (1, 1),
                    (1, 2),
                    (1, 3),
                    (1, 4),
                    (1, 5),
                    (1, 6),
                    (1, 7),
                    (1, 8),
                    (1, 9),
                    (1, 10),
                    (1, 11),
                ]),
            ],
        ),
        " 0+1..0+11",
    ),
    (
        (
            &[Growth],
            &[],
            &[
                Uncounted(0, &[0]),
                Turns(&[
                    (1, 1),
                    (1, 2),
                    (1, 3),
                    (1, 4),
                    (1, 5),
                    (1, 6),
                    (1, 7),
                    (1, 8),
                    (1, 9),
                    (1, 10),
                    (1, 11),
                    (1, 12),
                ]),
            ],
        ),
        "",
    ),
    // The range beside it goes no further than that leads; of both is dropped what says no more than the other.
    (
        (
            &[Range(0), Growth],
            &[],
            &[
                Uncounted(0, &[0]),
                Turns(&[(1, 100), (1, 100), (1, 100), (1, 100), (1, 100)]),
            ],
        ),
        " 0..1000 0+1..0+100",
    ),
    (
        (
            &[Range(0), Growth],
            &[],
            &[
                Uncounted(0, &[0]),
                Turns(&[(1, 100), (1, 100), (1, 100), (1, 100), (1, 100)]),
                Settles,
            ],
        ),
        " 0+1..0+100",
    ),
    (
        (
            &[Range(0), Growth],
            &[],
            &[Uncounted(0, &[0, 50]), Turns(&[(0, 0)]), Settles],
        ),
        " 0..50",
    ),
    ((&[Range(0), Growth], &[], &[Settles]), " 1..0"),
    // It narrows where it begins, and by what turns add.
    (
        (
            &[Growth],
            &[],
            &[
                Uncounted(0, &[0, 9]),
                Turns(&[(1, 8)]),
                Between(0, 0, 4),
                CollectsUncounted,
                CollectsTurn(2, 6),
                Narrows,
                Narrows,
            ],
        ),
        "+- 0+2..4+6",
    ),
];

#[test]
fn facts_move_as_states_come(rt: HostRuntime) -> Result<(), Fail> {
    all_hold(rt.alloc(), &PLACES, row_told)
}

#[test]
fn takes_what_is_passed(rt: HostRuntime) -> Result<(), Fail> {
    let alloc = rt.alloc();
    let tree = tree(alloc)?;
    let rows = Rows::of(alloc, &tree)?;
    let state = State::of_types(alloc, Version::Two, &rows);
    let range = Interval::between(3, 4);
    let actuals = vec![in alloc; Actual::Value { range, form: None }]?;
    let bindings = Bindings {
        roots: &[1],
        actuals: &actuals,
    };
    let coming = Coming::called(&state, bindings);
    let came = coming.range(&path(alloc, 1), rows.of_variable(1));
    assert!(rt; came.first() == 3 && came.last() == 4);
    assert!(rt; coming.range(&path(alloc, 2), rows.of_variable(2)).last() == 1);
    assert!(rt; coming.gives(&defined(alloc, 1)) && !coming.gives(&defined(alloc, 0)));
    Ok(())
}

#[test]
fn joined_rows_share_their_steps(rt: HostRuntime) -> Result<(), Fail> {
    let mut ladders = Ladders::new(rt.alloc(), 5)?;
    for (row, step) in [(3, 5), (1, 9), (0, 7), (4, 5), (4, 2_147_483_648)] {
        ladders.add(row, step);
    }
    ladders.join(4, 3);
    ladders.join(1, 2);
    ladders.join(4, 2);
    ladders.finish()?;
    assert!(rt; ladders.above(1, 5) == Some(5) && ladders.above(2, 6) == Some(9));
    assert!(rt; ladders.above(4, 10) == None && ladders.above(0, 8) == None);
    assert!(rt; ladders.below(3, 9) == Some(9) && ladders.below(4, 8) == Some(5));
    assert!(rt; ladders.below(2, 4) == None && ladders.below(0, 9) == Some(7));
    Ok(())
}
