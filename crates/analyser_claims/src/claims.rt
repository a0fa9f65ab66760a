//! What may hold of the variables of a block, by what stands in it.

use crate::claim::{End, Line, MANY, Way, add_all};
use crate::{Array, Claim, Event, Memory, Program, array_accessed, row};
use checker_rows::{Rows, limits};
use domain::Interval;
use typed_tree::{Access, Base, Direction, Dyadic, Expr, ForHead};

/// How many deeds of a kind count for a store at most, and how many of these from before the loop in which it stands.
const MOST_DEEDS: usize = 6;

const BEFORE: usize = 2;

/// What is done with a variable.
#[derive(Clone, Copy, PartialEq, Eq, PartialOrd, Ord)]
enum Kind {
    /// It is set to a value.
    Begins,
    /// It is set to a greater value than it had, or to a less one.
    Ascends,
    Descends,
    /// Its value is compared with a bound.
    Meets,
}

/// What is done in a block with which variable, by which event, and the value or the bound.
#[derive(Clone, Copy, PartialEq, Eq, PartialOrd, Ord)]
struct Deed {
    key: (u32, Kind, usize),
    end: End,
}

/// Where a variable begins, and where it ends.
type Ways = (Vec<End>, Vec<End>);

/// A loop by the events between which it lies, with the loop round it, and with its head if it is a for.
#[derive(Clone, Copy)]
struct Turns<'t> {
    first: usize,
    end: usize,
    outer: Option<usize>,
    head: Option<&'t ForHead>,
}

/// An element gets a value, or a part of it, by an event in a loop: of an array, or of a line of a matrix. A variable
/// plus a number selects it.
#[derive(Clone, Copy)]
struct Store {
    array: Array,
    line: Line,
    root: u32,
    by: i64,
    place: usize,
    inside: Option<usize>,
}

/// What is done in a block.
#[derive(Drop)]
struct Deeds<'t> {
    /// With variables: by these, the kinds, and the events.
    of_variables: Vec<Deed>,
    stores: Vec<Store>,
    /// Which elements of arrays get values that constants select.
    at_constants: Vec<(Array, i64)>,
    loops: Vec<Turns<'t>>,
    /// Where the walk over the events is, and in which loop.
    place: usize,
    inside: Option<usize>,
}

impl Store {
    // That the elements are defined that the variable selects from one value to another, by steps of 1 or -1.
    fn stretch(&self, step: i64, from: End, to: End) -> Claim {
        let (from, to) = (from.moved(self.by), to.moved(self.by));
        let (first, last) = if step > 0 { (from, to) } else { (to, from) };
        Claim::Defined(self.array, self.line, first, last)
    }

    // The values of the index.
    fn values(&self, rows: &Rows) -> Option<Interval> {
        let index = match self.line.way {
            Way::Row | Way::Across => rows.inner(self.array.row),
            Way::All | Way::Column => rows.index(self.array.row),
        };
        Some(limits(index?))
    }
}

impl<'t> Deeds<'t> {
    fn enter(&mut self, memory: &Memory, head: Option<&'t ForHead>) {
        let turns = Turns {
            first: self.place,
            end: usize::MAX,
            outer: self.inside,
            head,
        };
        self.inside = Some(self.loops.len());
        memory.push(&mut self.loops, turns);
    }

    fn leave(&mut self) {
        if let Some(inside) = self.inside
            && let Some(turns) = self.loops.get_mut(inside)
        {
            turns.end = self.place;
            self.inside = turns.outer;
        }
    }

    // How many deeds stand before those of a kind from an event on.
    fn before(&self, root: u32, kind: Kind, place: usize) -> usize {
        let key = (root, kind, place);
        self.of_variables.partition_point(|deed| deed.key < key)
    }

    // Those of a kind in a loop, and so many before it.
    fn among(&self, root: u32, kind: Kind, turns: &Turns, more: usize) -> &[Deed] {
        let first = self.before(root, kind, turns.first).saturating_sub(more);
        let first = first.max(self.before(root, kind, 0));
        let end = self.before(root, kind, turns.end);
        let end = end.min(first.saturating_add(MOST_DEEDS));
        self.of_variables.get(first..end).unwrap_or(&[])
    }

    // Whether a loop inside the one that steps its variable lies round a store.
    fn is_deeper(&self, store: &Store, turns: &Turns) -> bool {
        let innermost = store.inside.and_then(|place| self.loops.get(place));
        innermost.is_some_and(|inside| turns.first < inside.first)
    }

    // The innermost loop round a store that is a for over its variable, or that steps the variable; else none, at the
    // store.
    fn turns(&self, store: &Store) -> Turns<'t> {
        let mut inside = store.inside;
        for _ in &self.loops {
            let Some(turns) = inside.and_then(|place| self.loops.get(place)) else {
                break;
            };
            let rises = self.among(store.root, Kind::Ascends, turns, 0);
            let falls = self.among(store.root, Kind::Descends, turns, 0);
            let is_stepped = !(rises.is_empty() && falls.is_empty());
            if is_stepped || turns.head.is_some_and(|head| head.control == store.root) {
                return *turns;
            }
            inside = turns.outer;
        }
        Turns {
            first: store.place,
            end: store.place,
            outer: None,
            head: None,
        }
    }
}

impl<'p, 't> Program<'p, 't> {
    /// What may hold in a block; it ascends.
    pub(crate) fn claims_in(&self, block: u32) -> Vec<Claim> {
        let memory = &self.memory;
        let mut deeds = self.deeds_in(block);
        deeds.of_variables.sort_unstable();
        deeds.at_constants.sort_unstable();
        deeds.at_constants.dedup();
        let (mut claims, mut found) = (memory.none(), memory.none());
        for store in &deeds.stores {
            self.add_stretches(store, &deeds, &mut found);
            add_all(memory, &mut claims, &mut found, MANY);
        }
        for deed in &deeds.of_variables {
            let ((root, _, _), number) = (deed.key, deed.end.number);
            if let Some(other) = deed.end.root
                && other != root
            {
                let back = Claim::Order(other, root, number.saturating_neg());
                memory.put(found.extend([Claim::Order(root, other, number), back]));
            }
        }
        for run in deeds.at_constants.chunk_by(|one, next| {
            one.0 == next.0 && one.1.saturating_add(1) == next.1
        }) {
            if let Some((array, first)) = run.first()
                && let Some((_, last)) = run.last()
            {
                let (first, last) = (End::constant(*first), End::constant(*last));
                memory.push(&mut found, Claim::Defined(*array, Line::ALL, first, last));
            }
        }
        add_all(memory, &mut claims, &mut found, 0);
        claims
    }

    fn deeds_in(&self, block: u32) -> Deeds<'t> {
        let mut deeds = Deeds {
            of_variables: self.memory.none(),
            stores: self.memory.none(),
            at_constants: self.memory.none(),
            loops: self.memory.none(),
            place: 0,
            inside: None,
        };
        for (place, event) in row(&self.events, block).iter().enumerate() {
            deeds.place = place;
            self.see(event, &mut deeds);
        }
        deeds
    }

    // Notes what an event does.
    fn see(&self, event: &Event<'t>, deeds: &mut Deeds<'t>) {
        match event {
            Event::Assign(assignment) => {
                self.see_store(&assignment.target, &assignment.indexes, deeds);
                if let Some(root) = entire(&assignment.target) {
                    self.see_end(root, &assignment.value, Kind::Begins, deeds);
                }
            }
            Event::Copy(copying) => self.see_store(&copying.target, &copying.indexes, deeds),
            Event::Read(read) => self.see_store(&read.access, &read.indexes, deeds),
            Event::Enter { head, .. } => {
                if let Some(head) = head {
                    self.see_end(head.control, &head.first.value, Kind::Meets, deeds);
                    self.see_end(head.control, &head.last.value, Kind::Meets, deeds);
                }
                deeds.enter(&self.memory, *head);
            }
            Event::Leave => deeds.leave(),
            Event::Evaluate(Expr::Chain { first, rest }) => {
                if let [link] = rest.as_slice()
                    && let Dyadic::Relation(_) = link.operation
                {
                    self.see_met(first, &link.operand, deeds);
                    self.see_met(&link.operand, first, deeds);
                }
            }
            _ => {}
        }
    }

    // The value of a variable plus a number is compared with that of another expression perhaps.
    fn see_met(&self, one: &Expr, other: &Expr, deeds: &mut Deeds) {
        if let Some(one) = End::of(self.rows, one)
            && let Some(root) = one.root
            && let Some(other) = End::of(self.rows, other)
            && other.root != one.root
        {
            let end = other.moved(one.number.saturating_neg());
            self.note(root, Kind::Meets, end, deeds);
        }
    }

    // A variable is set to the value of an expression, or meets it.
    fn see_end(&self, root: u32, expression: &Expr, kind: Kind, deeds: &mut Deeds) {
        if let Some(end) = End::of(self.rows, expression) {
            let kind = match end.root {
                Some(other) if other == root && end.number < 0 => Kind::Descends,
                Some(other) if other == root => Kind::Ascends,
                _ => kind,
            };
            self.note(root, kind, end, deeds);
        }
    }

    fn note(&self, root: u32, kind: Kind, end: End, deeds: &mut Deeds) {
        let key = (root, kind, deeds.place);
        self.memory.push(&mut deeds.of_variables, Deed { key, end });
    }

    // An element gets a value perhaps, or a part of it.
    fn see_store(&self, access: &Access, indexes: &[Expr], deeds: &mut Deeds) {
        match (array_accessed(self.rows, access), indexes) {
            (Some((array, 1)), [.., index]) => self.see_index(array, Line::ALL, index, deeds),
            (Some((array, 2)), [.., row, index]) => {
                self.see_index(array, Line::ALL, row, deeds);
                self.see_index(array, Line::ACROSS, index, deeds);
                for (way, at, index) in [(Way::Row, row, index), (Way::Column, index, row)] {
                    let at = End::of(self.rows, at);
                    if at.is_some() {
                        self.see_index(array, Line { way, at }, index, deeds);
                    }
                }
            }
            _ => {}
        }
    }

    // An element gets a value at an index, or a part of the element.
    fn see_index(&self, array: Array, line: Line, index: &Expr, deeds: &mut Deeds) {
        let Some(End { root, number: by }) = End::of(self.rows, index) else {
            return;
        };
        if let Some(root) = root {
            let store = Store {
                array,
                line,
                root,
                by,
                place: deeds.place,
                inside: deeds.inside,
            };
            self.memory.push(&mut deeds.stores, store);
        } else if line == Line::ALL {
            self.memory.push(&mut deeds.at_constants, (array, by));
        }
    }

    // Stretches that a store lengthens: from where its variable begins, or from the end of the array, up to the index
    // and to where that goes, by steps of 1 or -1.
    fn add_stretches(&self, store: &Store, deeds: &Deeds, found: &mut Vec<Claim>) {
        let Some(values) = store.values(self.rows) else {
            return;
        };
        let turns = deeds.turns(store);
        // What is filled row by row is known by its rows.
        if store.line == Line::ACROSS && !deeds.is_deeper(store, &turns) {
            return;
        }
        for (step, outermost) in [(1, values.first()), (-1, values.last())] {
            let Some((mut begins, mut ends)) = self.ways(store, step, &turns, deeds) else {
                continue;
            };
            begins.retain(|begin| {
                begin.root.is_some() || values.has(begin.number.saturating_add(store.by))
            });
            let index = End::variable(store.root);
            let indexes = [index, index.moved(step.saturating_neg())];
            self.memory.put(ends.extend(indexes));
            for begin in &begins {
                let stretches = ends.iter().map(|end| store.stretch(step, *begin, *end));
                self.memory.put(found.extend(stretches));
            }
            let outermost = End::constant(outermost.saturating_sub(store.by));
            let stretches = indexes.map(|end| store.stretch(step, outermost, end));
            self.memory.put(found.extend(stretches));
        }
    }

    // From where the variable of a store goes, and up to where, if it goes by such steps. One that isn't stepped may go
    // up from where it is set, and down.
    fn ways(&self, store: &Store, step: i64, turns: &Turns, deeds: &Deeds) -> Option<Ways> {
        let memory = &self.memory;
        let (mut begins, mut ends) = (memory.none(), memory.none());
        if let Some(head) = turns.head
            && head.control == store.root
        {
            memory.put(begins.extend(End::of(self.rows, &head.first.value)));
            memory.put(ends.extend(End::of(self.rows, &head.last.value)));
            let goes = matches!(head.direction, Direction::To) == (step > 0);
            return goes.then_some((begins, ends));
        }
        let rises = deeds.among(store.root, Kind::Ascends, turns, 0);
        let falls = deeds.among(store.root, Kind::Descends, turns, 0);
        let (steps, others) = if step > 0 {
            (rises, falls)
        } else {
            (falls, rises)
        };
        let is_free = step > 0 && steps.is_empty();
        for deed in deeds.among(store.root, Kind::Begins, turns, BEFORE) {
            if is_free || steps.iter().any(|one| store.place < one.key.2) {
                memory.push(&mut begins, deed.end);
            }
            if is_free || steps.iter().any(|one| one.key.2 < store.place) {
                memory.push(&mut begins, deed.end.moved(step));
            }
        }
        for deed in deeds.among(store.root, Kind::Meets, turns, 0) {
            let before = deed.end.moved(step.saturating_neg());
            memory.put(ends.extend([deed.end, before]));
        }
        (!steps.is_empty() || others.is_empty()).then_some((begins, ends))
    }
}

/// The variable that is accessed, if it is accessed as a whole.
pub(crate) fn entire(access: &Access) -> Option<u32> {
    match access.base {
        Base::Variable if access.selectors.is_empty() => Some(access.root),
        _ => None,
    }
}
