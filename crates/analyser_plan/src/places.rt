//! What is proposed where blocks begin and end, and in loops.

use analyser_claims::{Claim, Program, naming, row, settle};
use analyser_tables::growth_of;
use certificate::Fact;
use checker_calls::{is_outward, is_value_parameter};
use checker_loops::Pairs;
use domain::{Interval, Spans};
use types::TypeTable;

/// How many claims are proposed at a place at most.
const MOST_CLAIMS: usize = 1000;

/// What proposals are made of, by block number, and what turns change by loop number.
#[derive(Clone, Copy)]
pub(crate) struct Grounds<'g, 'p, 't> {
    pub(crate) program: &'g Program<'p, 't>,
    pub(crate) pairs: &'g Pairs<'t>,
    pub(crate) claims: &'g [Vec<(u32, Claim)>],
    pub(crate) mentions: &'g [Vec<u32>],
    pub(crate) changes: &'g [Vec<u32>],
    pub(crate) turns: &'g [Vec<u32>],
}

impl<'g, 'p, 't> Grounds<'g, 'p, 't> {
    /// What may hold where a block begins: also that those variables are defined which only claims name.
    pub(crate) fn entry(&self, block: u32) -> Vec<Fact> {
        let memory = &self.program.memory;
        let mentions = row(self.mentions, block);
        let (mut facts, mut named) = (memory.none(), memory.copy(mentions));
        self.add_ranges(mentions, &mut facts);
        let mut claims = self.naming(block, mentions);
        claims.retain(|claim| claim.is_of_any(mentions) && self.may_stand(block, claim, &[]));
        for claim in &claims {
            memory.put(named.extend(claim.roots().iter().flatten().copied()));
        }
        self.add_claims(&claims, &mut facts);
        settle(&mut named);
        self.add_defined(&self.lasting(block, &named), &mut facts);
        facts
    }

    /// What may hold where it ends.
    pub(crate) fn exit(&self, block: u32) -> Vec<Fact> {
        let memory = &self.program.memory;
        let mut facts = memory.none();
        let changes = row(self.changes, block);
        let mut ranges = self.lasting(block, changes);
        memory.put(ranges.extend(self.program.result(block)));
        self.add_ranges(&ranges, &mut facts);
        self.add_defined(&self.lasting(block, row(self.mentions, block)), &mut facts);
        let mut claims = self.naming(block, changes);
        claims.retain(|claim| self.may_stand(block, claim, changes));
        self.add_claims(&claims, &mut facts);
        facts
    }

    /// What may hold whenever a turn of a loop begins. What a for gives its control variable lies between its bounds:
    /// it gets no range here, which would grow turn by turn and move the ranges of all that is stored.
    pub(crate) fn turn(&self, number: u32) -> Vec<Fact> {
        let memory = &self.program.memory;
        let mut facts = memory.none();
        let Some(one) = self.program.tree.loops.get(number as usize) else {
            return facts;
        };
        let changes = row(self.turns, number);
        let mut touched = memory.copy(changes);
        for root in changes {
            let aliases = self.pairs.aliases_in(memory.alloc, one.block, *root);
            memory.put(touched.extend(memory.list(aliases)));
        }
        settle(&mut touched);
        self.add_ranges(&touched, &mut facts);
        if one.control.is_some() {
            self.add_growths(changes, &mut facts);
        }
        let mut claims = self.naming(one.block, changes);
        claims.retain(|claim| {
            claim
                .roots()
                .iter()
                .flatten()
                .all(|root| !one.controls.contains(root))
        });
        self.add_claims(&claims, &mut facts);
        facts
    }

    // The claims of a block that name one of some variables.
    fn naming(&self, block: u32, roots: &[u32]) -> Vec<Claim> {
        let mut claims = naming(&self.program.memory, row(self.claims, block), roots);
        claims.sort_unstable();
        claims.dedup();
        claims.truncate(MOST_CLAIMS);
        claims
    }

    // Those of some variables that no block has by value.
    fn lasting(&self, block: u32, roots: &[u32]) -> Vec<u32> {
        let mut lasting = self.program.memory.copy(roots);
        lasting.retain(|root| !is_value_parameter(self.program.tree, block, *root));
        lasting
    }

    // Whether callers may know all that a claim names, where some variables are changed.
    fn may_stand(&self, block: u32, claim: &Claim, changes: &[u32]) -> bool {
        let tree = self.program.tree;
        claim.roots().iter().flatten().all(|root| {
            is_outward(tree, block, *root)
                && !(is_value_parameter(tree, block, *root) && changes.binary_search(root).is_ok())
        })
    }

    // A range for each scalar part of some variables: none of its values is known yet.
    fn add_ranges(&self, roots: &[u32], facts: &mut Vec<Fact>) {
        let (memory, types) = (&self.program.memory, &self.program.tree.types);
        for part in roots.iter().flat_map(|root| self.program.parts(*root)) {
            if types.is_scalar(part.type_id) {
                let (path, range) = (part.path(memory), Interval::EMPTY);
                memory.push(facts, Fact::Range { path, range });
            }
        }
    }

    // How each of some variables that is an integer grows with the turns of a for. Which of them grow by steps alone is
    // seen in the first turn, where the others fall.
    fn add_growths(&self, roots: &[u32], facts: &mut Vec<Fact>) {
        let tree = self.program.tree;
        for root in roots {
            if let Some(variable) = tree.variables.get(*root as usize)
                && tree.types.host(variable.type_id).same(TypeTable::INTEGER)
            {
                self.program.memory.push(facts, growth_of(*root));
            }
        }
    }

    // That each part of some variables is defined that has no index.
    fn add_defined(&self, roots: &[u32], facts: &mut Vec<Fact>) {
        let memory = &self.program.memory;
        for part in roots.iter().flat_map(|root| self.program.parts(*root)) {
            if part.is_direct() {
                let (path, spans) = (part.path(memory), Spans::None);
                memory.push(facts, Fact::Defined { path, spans });
            }
        }
    }

    // Claims, as far as certificates can tell them.
    fn add_claims(&self, claims: &[Claim], facts: &mut Vec<Fact>) {
        let told = claims.iter().filter_map(|claim| claim.fact(self.program));
        self.program.memory.put(facts.extend(told));
    }
}
