ghost use Rattle.std.specs.Prelude.{◌≡◌, ℕ, ◌+◌, ◌-◌, ◌^◌, ◌<◌, ◌≤◌, ◌++◌, length, take, drop, IfOk};
ghost use Rattle.std.specs.Prelude.{MatchResult, Some, Ok, Err};
ghost use Rattle.stack_machine.specs.Calls as calls;
ghost use Rattle.stack_machine.specs.Calls.{called};

use crate::store::{LINKS, address_of};
use crate::{Cell, MachineFault, Store};

/// Where a return goes.
#[derive(Clone, Copy)]
pub struct Caller {
    /// Where the caller's frame begins.
    frame: usize,
    /// The index of the instruction behind the call.
    place: usize,
    /// Where the caller's pushes end.
    limit: usize,
}

impl Store {
    ghost use Rattle.stack_machine.specs.View.{Acts, view};

    /// `mst`
    pub fn mark(&mut self, level: u8) -> Result<(), MachineFault>
        ensures { Acts result (view self.old) (view self.new) (calls.marked level (view self.old)) }
    {
        let first = self.used;
        if first + LINKS > self.limit {
            return Err(MachineFault::OutOfBounds);
        }
        let outer = self.base(level, first)?;
        self.cells.put_number(first, outer as i32);
        self.cells.put_number(first + 1, self.frame as i32);
        self.cells.undefine(first + 2, first + 3);
        self.cells.put_number(first + 3, self.limit as i32);
        self.used = first + LINKS;
        Ok(())
    }

    /// `cup`: the frame begins whose links lie below so many cells; the next instruction is its return.
    pub fn call(&mut self, count: u32, next: usize) -> Result<(), MachineFault>
        ensures value { MatchResult result
            (λ _. (target : ℕ) → called count target next (view self.old) ≡ Ok (view self.new, target))
            (λ fault. (target : ℕ) → called count target next (view self.old) ≡ Err fault) }
        ensures size { self.new.size ≡ self.old.size }
    {
        let count = count as usize + LINKS;
        self.has(count)?;
        self.frame = self.used - count;
        self.cells.put_number(self.frame + 2, index_number(next));
        Ok(())
    }

    /// `ret`: leaves the frame and takes so many cells along, which may be of any kind. Answers where code of so many
    /// instructions goes on.
    pub fn leave(&mut self, results: u8, count: usize) -> Result<usize, MachineFault>
        ensures value { MatchResult result
            (λ place. calls.left results count (view self.old) ≡ Ok (view self.new, place))
            (λ fault. calls.left results count (view self.old) ≡ Err fault) }
        ensures size { self.new.size ≡ self.old.size }
    {
        let results = results as usize;
        self.has(results)?;
        let caller = self.caller(count)?;
        self.take_along(results);
        self.used = self.frame + results;
        self.frame = caller.frame;
        self.limit = caller.limit;
        Ok(caller.place)
    }

    /// Where this frame was called from, in code of so many instructions. A number outside is told before a link that
    /// is no number. Kept out of the run loop, whose registers it would take.
    #[inline(never)]
    fn caller(&self, count: usize) -> Result<Caller, MachineFault>
        ensures within { IfOk result (λ caller. (caller.frame + 4 ≤ self.now.frame) × (caller.limit ≤ self.now.size)) }
        ensures value { result ≡ calls.caller count self.now.size self.now.frame (view self.now).cells }
    {
        let (back, backs) = (self.cells.get(self.frame + 1), self.frame.saturating_sub(3));
        let place = self.cells.get(self.frame + 2);
        let (limit, limits) = (self.cells.get(self.frame + 3), self.size + 1);
        not_outside(back, backs)?;
        not_outside(place, count)?;
        not_outside(limit, limits)?;
        Ok(Caller {
            frame: link_below(back, backs)?,
            place: link_below(place, count)?,
            limit: link_below(limit, limits)?,
        })
    }

    /// Copies so many of the topmost cells to where the frame begins.
    fn take_along(&mut self, results: usize)
        requires { self.old.frame + 4 + results ≤ self.old.used }
        ensures cells { take (self.old.frame + results) self.new.cells
            ≡ take self.old.frame self.old.cells
            ++ take results (drop (self.old.used - results) self.old.cells) }
        ensures length { length self.new.cells ≡ length self.old.cells }
        ensures used { self.new.used ≡ self.old.used }
        ensures frame { self.new.frame ≡ self.old.frame }
        ensures size { self.new.size ≡ self.old.size }
    {
        let first = self.used - results;
        for offset in 0..results {
            self.cells.copy(first + offset, self.frame + offset);
        }
    }
}

/// The index of an instruction as a number of 32 bits.
fn index_number(place: usize) -> i32
    ensures { result ≡ calls.index_number place }
{
    ((place % (1 << 32)) as u32).cast_signed()
}

/// A fault where a link is a number that doesn't lie below this bound.
fn not_outside(link: Cell, bound: usize) -> Result<(), MachineFault>
    ensures { result ≡ calls.not_outside bound (Some link) }
{
    match link {
        Cell::Number(number) => address_of(number, bound).map(|_| ()),
        Cell::Undefined | Cell::Set(_) => Ok(()),
    }
}

/// The number in a link, which lies below this bound.
fn link_below(link: Cell, bound: usize) -> Result<usize, MachineFault>
    ensures within { IfOk result (λ place. place < bound) }
    ensures value { result ≡ calls.link_below bound (Some link) }
{
    match link {
        Cell::Number(number) => address_of(number, bound),
        Cell::Undefined | Cell::Set(_) => Err(MachineFault::WrongKind),
    }
}
