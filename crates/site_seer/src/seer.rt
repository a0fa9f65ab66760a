//! The walk of the checker, and what is seen where it is.

use crate::{Cause, Loss, Sight, Sights};
use cert_checker::blocks::begin;
use cert_checker::program::grounds;
use cert_checker::walk::Walk;
use certificate::Certificate;
use checker_expressions::Count;
use checker_loops::all_declared;
use checker_loops::loops::{all_claims, all_loop_aliases};
use checker_rows::Rows;
use checker_trail::State;
use domain::{Domain, Interval};
use place::Place;
use std::alloc::{AllocError, Global};
use std::mem;
use typed_tree::{Access, Block, Tree};

/// Counts nothing.
#[derive(Drop)]
pub(crate) struct Uncounted;

impl Count for Uncounted {
    ghost counted = { λ _ it. it };

    fn tick(&mut self, _number: u32) {}
}

/// The walk by a certificate, which goes into each statement and then over it.
#[derive(Drop)]
pub(crate) struct Seer<'a> {
    pub(crate) walk: Walk<'a>,
    pub(crate) sights: Sights,
    // What is known of each row, and where more was known.
    ranges: Vec<Interval>,
    pub(crate) losses: Vec<Option<Loss>>,
}

/// What the walk by a certificate sees in a program.
///
/// # Errors
/// No memory.
pub fn see_sites(
    alloc: Global,
    tree: &Tree,
    certificate: &Certificate,
) -> Result<Sights, AllocError> {
    let rows = Rows::of(alloc, tree)?;
    see_rows(alloc, &rows, certificate)
}

fn see_rows<'a>(
    alloc: Global,
    rows: &'a Rows<'a>,
    certificate: &'a Certificate,
) -> Result<Sights, AllocError> {
    let tree = rows.tree();
    let declared = all_declared(alloc, tree)?.unwrap_or(Vec::new(alloc));
    let grounds = grounds(alloc, tree, certificate)?;
    let claims = all_claims(alloc, tree, certificate)?;
    let aliases = all_loop_aliases(alloc, tree, &grounds.pairs, &claims)?;
    let ranges = vec![in alloc; Interval::EMPTY; rows.count()]?;
    let losses = vec![in alloc; None; rows.count()]?;
    let mut sights = Sights {
        seen: Vec::new(alloc),
        uses: vec![in alloc; None; tree.variables.len()]?,
        given: vec![in alloc; None; rows.count()]?,
    };
    sights.seen.resize(tree.sites.len(), Sight::Nothing)?;
    let state = State::of_types(alloc, grounds.version, rows);
    let mut seer = Seer {
        walk: Walk::new(state, grounds, &claims, &aliases),
        sights,
        ranges,
        losses,
    };
    for (number, block) in (0..u32::MAX).zip(tree.blocks.iter()) {
        seer.block(number, block, &declared);
    }
    match seer.state().refusal() {
        Some(refused) => Err(refused.into()),
        None => Ok(seer.sights),
    }
}

impl<'a> Seer<'a> {
    fn block(&mut self, number: u32, block: &Block, declared: &[Vec<u32>]) {
        let mark = self.state().mark();
        self.walk.flow.grounds.block = number;
        begin(&mut self.walk.flow, number, declared);
        self.losses.fill(None);
        self.statement(&block.body);
        let _end = self.walk.flow.state.leave(mark);
    }

    /// What is known where the walk is.
    pub(crate) fn state(&self) -> &State<'a> {
        &self.walk.flow.state
    }

    /// The first row of what is accessed.
    pub(crate) fn row(&self, access: &Access) -> usize {
        self.state().table().accessed(access).first
    }

    /// Keeps what is seen at a site, unless a value was seen there before that doesn't fit.
    pub(crate) fn put(&mut self, site: u32, sight: Sight) {
        if let Some(seen) = self.sights.seen.get_mut(site as usize)
            && fits(*seen)
        {
            *seen = sight;
        }
    }

    /// Keeps what is known of each row. If it is told what stands here, that lost what was known better before.
    pub(crate) fn keep(&mut self, told: Option<(Cause, Place)>) {
        let state = &self.walk.flow.state;
        let rows = self.ranges.iter_mut().zip(self.losses.iter_mut());
        for (row, (range, loss)) in rows.enumerate() {
            let now = state.row_range(row);
            let was = mem::replace(range, now);
            if let Some((by, at)) = told
                && !now.leq(&was)
            {
                *loss = Some(Loss { was, by, at });
            }
        }
    }

    /// No more was known of what is read.
    pub(crate) fn forget(&mut self, access: &Access) {
        let row = self.row(access);
        if let Some(loss) = self.losses.get_mut(row) {
            *loss = None;
        }
    }
}

fn fits(sight: Sight) -> bool {
    match sight {
        Sight::Nothing => true,
        Sight::Value(value, None, range) => value.range.leq(&range),
        _ => false,
    }
}
