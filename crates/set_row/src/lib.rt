//! The members of sets beside the cells of a store.
#![tactic(auto)]

ghost use Rattle.std.specs.Prelude.{◌≡◌, ◌+◌, ◌-◌, ◌<◌, ◌≤◌, ℕ, List, ◌++◌, length, replicate, slice_index, slice_set};
ghost use Rattle.std.specs.Prelude.{IfOk, vec_len, vec_capacity};
ghost use Rattle.std.specs.List.{copy_within};
ghost use Rattle.set_row.specs.Empty.{with_empty};

use std::alloc::{AllocError, Global};
use std::marker::Model;

/// The members beside each cell of a row. It has the room for all from the beginning, but those behind the last that
/// was put there aren't written: so many cells are soon made, and a program without sets never touches their memory.
#[derive(Drop)]
pub struct SetRow {
    written: Vec<u128>,
    count: usize,
}

impl Model for SetRow {
    ghost Value = { List ℕ };

    ghost view = { λ row. with_empty row.written.items row.count };

    ghost invariant = { λ row. (length row.written.items ≤ row.count) × (row.count ≤ vec_capacity row.written) };
}

impl SetRow {
    /// So many sets, which are empty.
    pub fn new(alloc: Global, count: usize) -> Result<SetRow, AllocError>
        ensures { IfOk result (λ row. row ≡ replicate count 0) }
    {
        Ok(SetRow {
            written: Vec::with_capacity(alloc, count)?,
            count,
        })
    }

    /// The set at this place.
    pub fn get(&self, place: usize) -> u128
        ensures { result ≡ slice_index self.now place }
    {
        if place < self.written.len() {
            self.written[place]
        } else {
            0
        }
    }

    /// Puts a set at this place.
    pub fn put(&mut self, place: usize, members: u128)
        requires { place < length self.old }
        ensures { self.new ≡ slice_set self.old place members }
    {
        reach(&mut self.written, place + 1);
        self.written[place] = members;
    }

    /// Copies so many sets from one place to another.
    pub fn copy_within(&mut self, from: usize, count: usize, to: usize)
        requires from_within { from + count ≤ length self.old }
        requires to_within { to + count ≤ length self.old }
        ensures { self.new ≡ copy_within self.old from (from + count) to }
    {
        reach(&mut self.written, from + count);
        reach(&mut self.written, to + count);
        self.written.copy_within(from..from + count, to);
    }
}

/// Writes empty sets behind the last one where there are fewer than so many.
fn reach(row: &mut Vec<u128>, end: usize)
    requires { end ≤ vec_capacity row.old }
    ensures items { row.new.items ≡ with_empty row.old.items end }
    ensures capacity { vec_capacity row.old ≤ vec_capacity row.new }
{
    if row.len() < end {
        let _ = row.resize(end, 0);
    }
}
