//! What may hold in a block, told by the names of those that call it and that it calls.

use crate::claim::{End, Line, MANY, add_all, by_name};
use crate::claims::entire;
use crate::{Array, Claim, Event, Program, array_accessed, naming, number_of, row};
use checker_calls::is_visible;
use std::mem;
use typed_tree::Passed;

/// How often claims are carried to callers at most, and then to what they call.
const ROUNDS: u32 = 8;

/// What has another name, mostly in another block.
#[derive(Clone, Copy)]
enum Named {
    Value(End),
    /// A variable with so many rows under it, which is passed; by the first of these, as arrays are.
    Variable(Array, usize),
}

/// What is named in one block, and the same in another.
type Name = (Named, Named);

impl<'p, 't> Program<'p, 't> {
    /// What may hold in each block, by the variables that it names, as the outward variables are that each mentions; it
    /// ascends.
    pub fn all_claims(&self, mentions: &[Vec<u32>]) -> Vec<Vec<(u32, Claim)>> {
        let memory = &self.memory;
        let blocks = 0..number_of(self.events.len());
        let claims = blocks.map(|block| self.claims_in(block));
        let mut claims = memory.list(claims.collect(memory.alloc));
        // How many there were that each block could carry, when it last did.
        let mut carried = memory.filled(0, claims.len());
        // What is told of copies comes last, so that it pushes out nothing else; then it is carried too.
        for _ in 0..2 {
            self.carry_all(&mut claims, mentions, &mut carried);
            for (block, claims) in claims.iter_mut().enumerate() {
                self.add_copies(number_of(block), claims);
            }
        }
        let named = claims.iter().map(|claims| by_name(memory, claims));
        memory.list(named.collect(memory.alloc))
    }

    // Carries claims over all calls, back and forth, until there are no more or it was done often.
    fn carry_all(
        &self,
        claims: &mut Vec<Vec<Claim>>,
        mentions: &[Vec<u32>],
        carried: &mut [usize],
    ) {
        let bodies = &self.tree.bodies;
        for _ in 0..ROUNDS {
            let mut is_more = false;
            for caller in bodies.iter().chain(bodies.iter().rev()) {
                let count = self.count(claims, *caller);
                if let Some(known) = carried.get_mut(*caller as usize)
                    && mem::replace(known, count) != count
                {
                    is_more = true;
                    self.carry(claims, *caller, mentions);
                }
            }
            if !is_more {
                break;
            }
        }
    }

    // How many claims its calls may carry to a block and from there.
    fn count(&self, claims: &[Vec<Claim>], caller: u32) -> usize {
        let own = row(claims, caller).len();
        let calls = self.calls(caller).iter();
        calls.fold(0usize, |count, (called, _)| {
            count
                .saturating_add(own)
                .saturating_add(row(claims, *called).len())
        })
    }

    // Adds what is claimed of a variable also of those that get its value, and back.
    fn add_copies(&self, block: u32, claims: &mut Vec<Claim>) {
        let named = by_name(&self.memory, claims);
        let mut copied = self.memory.none();
        for event in row(&self.events, block) {
            if let Event::Assign(assignment) = event
                && let Some(root) = entire(&assignment.target)
                && let Some(value) = End::of(self.rows, &assignment.value)
                && let Some(other) = value.root
                && other != root
            {
                let copy = End::variable(root);
                let back = copy.moved(value.number.saturating_neg());
                self.add_named(root, value, &named, &mut copied);
                self.add_named(other, back, &named, &mut copied);
                // What goes as far as a greater value goes as far as the copy too.
                if value.number < 0 {
                    self.add_named(other, copy, &named, &mut copied);
                }
                add_all(&self.memory, claims, &mut copied, MANY);
            }
        }
        add_all(&self.memory, claims, &mut copied, 0);
    }

    // Adds claims that name a variable also of a value by its side.
    fn add_named(&self, root: u32, to: End, named: &[(u32, Claim)], copied: &mut Vec<Claim>) {
        let name = (Named::Value(End::variable(root)), Named::Value(to));
        let claims = naming(&self.memory, named, &[root]);
        let claims = claims.iter().filter_map(|claim| renamed(&[name], *claim));
        self.memory.put(copied.extend(claims));
    }

    // Carries claims of the blocks that a block calls to it, and its own to them, where they mention what these are of.
    fn carry(&self, claims: &mut Vec<Vec<Claim>>, caller: u32, all: &[Vec<u32>]) {
        let memory = &self.memory;
        let named = by_name(memory, row(claims, caller));
        let mut up = memory.none();
        for (called, actuals) in self.calls(caller) {
            let names = self.names(*called, actuals);
            self.add_carried(caller, row(claims, *called), &names, &mut up);
            self.add_to(claims, caller, &mut up, MANY);
            if named.is_empty() {
                continue;
            }
            let names = names.iter().map(|(from, to)| (*to, *from));
            let names = memory.list(names.collect(memory.alloc));
            let mentions = row(all, *called);
            let mut roots = memory.copy(mentions);
            memory.put(roots.extend(names.iter().filter_map(|(from, _)| from.root())));
            let own = naming(memory, &named, &roots);
            let mut down = memory.none();
            self.add_carried(*called, &own, &names, &mut down);
            down.retain(|claim| claim.is_of_any(mentions));
            self.add_to(claims, *called, &mut down, 0);
        }
        self.add_to(claims, caller, &mut up, 0);
    }

    // Adds what was found to the claims of a block, once it is more than so many.
    fn add_to(&self, claims: &mut [Vec<Claim>], block: u32, found: &mut Vec<Claim>, many: usize) {
        if let Some(known) = claims.get_mut(block as usize) {
            add_all(&self.memory, known, found, many);
        }
    }

    // Adds claims of another block, as they are and by other names, where a block sees all that they name.
    fn add_carried(&self, to: u32, carried: &[Claim], names: &[Name], found: &mut Vec<Claim>) {
        for claim in carried {
            if self.sees(to, claim) {
                self.memory.push(found, *claim);
            }
            if let Some(other) = renamed(names, *claim)
                && other != *claim
                && self.sees(to, &other)
            {
                self.memory.push(found, other);
            }
        }
    }

    // Whether a block sees all that a claim names.
    fn sees(&self, block: u32, claim: &Claim) -> bool {
        let roots = claim.roots();
        let mut named = roots.iter().flatten();
        named.all(|root| is_visible(self.tree, block, *root))
    }

    // What the formal parameters of a call are called in the calling block.
    fn names(&self, block: u32, actuals: &[Passed]) -> Vec<Name> {
        let passed = self.parameters(block).iter().zip(actuals.iter());
        let names = passed.filter_map(|(formal, actual)| self.name(*formal, actual));
        self.memory.list(names.collect(self.memory.alloc))
    }

    // What a formal parameter is in the calling block: a value, or a variable or part of one to which no index leads.
    fn name(&self, formal: u32, actual: &Passed) -> Option<Name> {
        let one = Named::Value(End::variable(formal));
        match actual {
            Passed::Value { value, .. } => Some((one, Named::Value(End::of(self.rows, value)?))),
            Passed::Whole { .. } => None,
            Passed::Reference { access, .. } if self.rows.is_structured_variable(formal) => {
                let rows = self.rows.of_variable(formal);
                let row = rows.first;
                let from = Named::Variable(
                    Array {
                        row,
                        ..Array::of(formal)
                    },
                    rows.count,
                );
                let (actual, indexes) = array_accessed(self.rows, access)?;
                (indexes == 0).then_some((from, Named::Variable(actual, rows.count)))
            }
            Passed::Reference { access, .. } => {
                Some((one, Named::Value(End::variable(entire(access)?))))
            }
        }
    }
}

impl Named {
    // The variable that it is of, if it is one.
    fn root(&self) -> Option<u32> {
        match self {
            Named::Value(end) => end.root,
            Named::Variable(array, _) => Some(array.root),
        }
    }
}

fn renamed(names: &[Name], claim: Claim) -> Option<Claim> {
    let renamed = |end| end_renamed(names, end);
    match claim {
        Claim::Defined(array, line, first, last) => {
            let array = array_renamed(names, array);
            let line = Line {
                at: line.at.map(|end| end_renamed(names, end)),
                ..line
            };
            Some(Claim::Defined(array, line, renamed(first), renamed(last)))
        }
        Claim::Order(root, other, least) => {
            let one = renamed(End::variable(root));
            let another = renamed(End::variable(other));
            let (root, other) = (one.root?, another.root?);
            let by = another.number.saturating_sub(one.number);
            let order = Claim::Order(root, other, least.saturating_add(by));
            (root != other).then_some(order)
        }
    }
}

fn array_renamed(names: &[Name], array: Array) -> Array {
    for name in names {
        if let (Named::Variable(from, rows), Named::Variable(to, _)) = name
            && from.root == array.root
            && let Some(by) = array.row.checked_sub(from.row)
            && by < *rows
        {
            return Array {
                root: to.root,
                row: to.row.saturating_add(by),
                is_part: array.is_part,
            };
        }
    }
    array
}

fn end_renamed(names: &[Name], end: End) -> End {
    for name in names {
        if let (Named::Value(from), Named::Value(to)) = name
            && from.root == end.root
        {
            let by = end.number.saturating_sub(from.number);
            if end.root.is_some() || by == 0 {
                return to.moved(by);
            }
        }
    }
    end
}
