ghost use Rattle.std.specs.Prelude.{◌≡◌, ◌+◌, ◌-◌, ◌<◌, ◌≤◌, nat_le, if◌then◌else◌, length, take, IfOk};
ghost use Rattle.std.specs.Prelude.{MatchResult, Ok, Err, slice_index_or};
ghost use Rattle.stack_machine.specs.declared.cell.Cell.TheVariants.{Number, Undefined};
ghost use Rattle.stack_machine.specs.Frames as frames;
ghost use Rattle.stack_machine.specs.Cells.{values};
ghost use Rattle.stack_machine.specs.Rows as rows;

mod addresses;
mod calls;
mod hastening;
mod sets;

use crate::rows::order;
use crate::{Cells, MachineFault};
use machine_arithmetic::arithmetic::{Dyadic, Monadic, is_true, product};
use std::alloc::{AllocError, Global};

/// The greatest value of the type integer (ISO 7185:1990, 6.4.2.2); the least is its negation.
const MAXINT: i64 = 2147483647;

/// How many cells a frame has before its parameters and variables: its static link, its dynamic link, the
/// return, and the caller's limit.
const LINKS: usize = 4;

/// The cells of a machine, and the frame that a run is in.
#[derive(Drop)]
pub struct Store {
    /// At least as many as the first frame's links.
    cells: Cells,
    /// How many of them a run may use.
    size: usize,
    /// How many cells are in use, from the first.
    used: usize,
    /// Where the frame begins.
    frame: usize,
    /// Where the frame's pushes end.
    limit: usize,
    ghost small: { length cells ≤ 16777216 },
    ghost size_in_store: { size ≤ length cells },
    ghost used_in_store: { used ≤ length cells },
    ghost limit_in_store: { limit ≤ length cells },
    ghost frame_in_use: { frame + 4 ≤ used },
}

impl Store {
    ghost use Rattle.stack_machine.specs.View.{Acts, view};

    /// A store of so many cells.
    pub fn new(alloc: Global, cells: u32) -> Result<Store, AllocError>
        requires { cells ≤ 16777216 }
        ensures { IfOk result (λ store. store.size ≡ cells) }
    {
        let size = cells as usize;
        Ok(Store {
            cells: Cells::new(alloc, size.max(LINKS))?,
            size,
            used: LINKS,
            frame: 0,
            limit: LINKS,
        })
    }

    /// The store as a run begins: the program's frame with its links alone. Answers whether that fits.
    pub fn begin(&mut self) -> bool
        ensures fits { result ≡ nat_le 4 self.old.size }
        ensures frames { view self.new ≡ frames.first_frames self.old.size }
        ensures size { self.new.size ≡ self.old.size }
    {
        self.cells.put_number(0, 0);
        self.cells.put_number(1, 0);
        self.cells.undefine(2, LINKS);
        self.frame = 0;
        self.used = LINKS;
        self.limit = LINKS;
        self.size >= LINKS
    }

    /// `ent`: so many undefined cells, and the limit further than they reach. Answers whether that fits.
    pub fn enter(&mut self, variables: u32, evaluation: u32) -> bool
        ensures value { frames.entered variables evaluation (view self.old)
            ≡ (if result then Some (view self.new) else None) }
        ensures size { self.new.size ≡ self.old.size }
    {
        let first = self.used;
        let end = first + variables as usize;
        let limit = end + evaluation as usize;
        if limit > self.size {
            return false;
        }
        self.cells.undefine(first, end);
        self.used = end;
        self.limit = limit;
        true
    }

    /// A fault where one more cell has no room.
    pub fn has_room(&self) -> Result<(), MachineFault>
        ensures room { IfOk result (λ _. self.now.used < self.now.limit) }
        ensures value { result ≡ frames.has_room_after 0 (view self.now) }
    {
        self.has_room_after(0)
    }

    /// Pushes a number for which there is room.
    pub fn push(&mut self, number: i32)
        requires { self.old.used < self.old.limit }
        ensures value { view self.new ≡ frames.pushed (Number number) (view self.old) }
        ensures size { self.new.size ≡ self.old.size }
    {
        self.replace_by_number(0, number);
    }

    /// `ldc`
    pub fn load_constant(&mut self, value: i32) -> Result<(), MachineFault>
        ensures { Acts result (view self.old) (view self.new) (frames.load_constant value (view self.old)) }
    {
        self.has_room()?;
        self.push(value);
        Ok(())
    }

    /// `lod`: its cell may be of any kind.
    pub fn load(&mut self, level: u8, offset: u32) -> Result<(), MachineFault>
        ensures { Acts result (view self.old) (view self.new) (frames.load level offset (view self.old)) }
    {
        self.has_room_after(0)?;
        let used = self.used;
        let address = self.address(level, offset, used)?;
        self.replace_by_copy(0, address);
        Ok(())
    }

    /// `str`: the cell that it pops is out of use when the address is looked for.
    pub fn store(&mut self, level: u8, offset: u32) -> Result<(), MachineFault>
        ensures { Acts result (view self.old) (view self.new) (frames.store level offset (view self.old)) }
    {
        self.has(1)?;
        let used = self.used - 1;
        let address = self.address(level, offset, used)?;
        self.cells.copy(used, address);
        self.used = used;
        Ok(())
    }

    /// A number gives way to what the operator gives of it.
    pub fn on_one(&mut self, operator: Monadic) -> Result<(), MachineFault>
        ensures { Acts result (view self.old) (view self.new) (frames.on_one (frames.of_one operator) (view self.old)) }
    {
        self.has(1)?;
        self.has_room_after(1)?;
        let value = self.number_at(1)?;
        self.replace_by_number(1, operator.of(value));
        Ok(())
    }

    /// Two numbers give way to what the operator gives of them.
    pub fn on_two(&mut self, operator: Dyadic) -> Result<(), MachineFault>
        ensures { Acts result (view self.old) (view self.new) (frames.on_two (frames.of_two operator) (view self.old)) }
    {
        let (left, right) = self.operands()?;
        self.replace_by_number(2, operator.of(left, right));
        Ok(())
    }

    /// `dvi`: cuts toward zero; -2147483648 by -1 is -2147483648 (ISO 7185:1990, 6.7.2.2).
    pub fn divide(&mut self) -> Result<(), MachineFault>
        ensures { Acts result (view self.old) (view self.new) (frames.divide (view self.old)) }
    {
        let (left, right) = self.operands()?;
        if right == 0 {
            return Err(MachineFault::WrongDivisor);
        }
        self.replace_by_number(2, left.wrapping_div(right));
        Ok(())
    }

    /// `mod`: from 0 to below the divisor (ISO 7185:1990, 6.7.2.2).
    pub fn modulo(&mut self) -> Result<(), MachineFault>
        ensures { Acts result (view self.old) (view self.new) (frames.modulo (view self.old)) }
    {
        let (left, right) = self.operands()?;
        if right < 1 {
            return Err(MachineFault::WrongDivisor);
        }
        self.replace_by_number(2, left.rem_euclid(right));
        Ok(())
    }

    /// `cmp`: two rows of so many numbers give way to their order.
    pub fn compare(&mut self, length: u32) -> Result<(), MachineFault>
        ensures { Acts result (view self.old) (view self.new) (rows.compared length (view self.old)) }
    {
        let length = length as usize;
        self.has(2 * length)?;
        self.has_room_after(2 * length)?;
        let left = self.numbers(2 * length, length)?;
        let right = self.numbers(length, length)?;
        let order = order(left, right);
        self.replace_by_number(2 * length, order);
        Ok(())
    }

    /// `wrs`: the string on top, so many characters, and the width above it.
    pub fn string(&self, length: u32) -> Result<(&[u64], i32), MachineFault>
        ensures within { IfOk result (λ _. self.now.frame + 4 + (length + 1) ≤ self.now.used) }
        ensures value { MatchResult result
            (λ found. rows.string length (view self.now) ≡ Ok (values found.0.now, found.1))
            (λ fault. rows.string length (view self.now) ≡ Err fault) }
    {
        let length = length as usize;
        self.has(length + 1)?;
        let characters = self.numbers(length + 1, length)?;
        let width = self.number_at(1)?;
        Ok((characters, width))
    }

    /// Pops so many cells.
    pub fn pop(&mut self, count: usize)
        requires { self.old.frame + 4 + count ≤ self.old.used }
        ensures value { view self.new ≡ frames.popped count (view self.old) }
        ensures size { self.new.size ≡ self.old.size }
    {
        self.used -= count;
    }

    /// `chk`: whether the number on top lies in the range.
    pub fn is_in_range(&self, low: i32, high: i32) -> Result<bool, MachineFault>
        ensures { result ≡ frames.top_is_in_range low high (view self.now) }
    {
        self.has(1)?;
        let value = self.number_at(1)?;
        Ok(low <= value && value <= high)
    }

    /// `ckz`: whether the number on top isn't zero.
    pub fn is_not_zero(&self) -> Result<bool, MachineFault>
        ensures within { IfOk result (λ _. self.now.frame + 5 ≤ self.now.used) }
        ensures value { result ≡ frames.top_is_not_zero (view self.now) }
    {
        self.has(1)?;
        let value = self.number_at(1)?;
        Ok(is_true(value))
    }

    /// `ckd`: whether each of the topmost cells is defined.
    pub fn are_defined(&self, length: u32) -> Result<bool, MachineFault>
        ensures { result ≡ frames.top_is_defined length (view self.now) }
    {
        let length = length as usize;
        self.has(length)?;
        Ok(self.cells.all_defined(self.used - length, length))
    }

    /// `cka`: whether the sum of the topmost two numbers is an integer.
    pub fn sum_fits(&self) -> Result<bool, MachineFault>
        ensures { result ≡ frames.sum_is_integer (view self.now) }
    {
        let (left, right) = self.top_two()?;
        Ok(fits(i64::from(left) + i64::from(right)))
    }

    /// `cks`: whether the difference of the topmost two numbers is an integer.
    pub fn difference_fits(&self) -> Result<bool, MachineFault>
        ensures { result ≡ frames.difference_is_integer (view self.now) }
    {
        let (left, right) = self.top_two()?;
        Ok(fits(i64::from(left) - i64::from(right)))
    }

    /// `ckm`: whether the product of the topmost two numbers is an integer.
    pub fn product_fits(&self) -> Result<bool, MachineFault>
        ensures { result ≡ frames.product_is_integer (view self.now) }
    {
        let (left, right) = self.top_two()?;
        Ok(fits(product(left, right)))
    }

    /// `ckq`: whether the square of the number on top is an integer.
    pub fn square_fits(&self) -> Result<bool, MachineFault>
        ensures { result ≡ frames.square_is_integer (view self.now) }
    {
        self.has(1)?;
        let value = self.number_at(1)?;
        Ok(fits(product(value, value)))
    }

    /// A fault where one of the topmost cells, so many, is one of the frame's links.
    fn has(&self, count: usize) -> Result<(), MachineFault>
        ensures within { IfOk result (λ _. self.now.frame + 4 + count ≤ self.now.used) }
        ensures value { result ≡ frames.has count (view self.now) }
    {
        if self.used - self.frame - LINKS < count {
            return Err(MachineFault::Underflow);
        }
        Ok(())
    }

    /// A fault where a push after so many pops would be at the limit or past it.
    fn has_room_after(&self, count: usize) -> Result<(), MachineFault>
        requires { count ≤ self.now.used }
        ensures room { IfOk result (λ _. self.now.used < self.now.limit + count) }
        ensures value { result ≡ frames.has_room_after count (view self.now) }
    {
        if self.used - count >= self.limit {
            return Err(MachineFault::OutOfBounds);
        }
        Ok(())
    }

    /// The number in a cell, so many from the top; the top is the first.
    fn number_at(&self, count: usize) -> Result<i32, MachineFault>
        requires some { 1 ≤ count }
        requires in_use { count ≤ self.now.used }
        ensures { result ≡ frames.number_at count (view self.now) }
    {
        self.cells.number(self.used - count)
    }

    /// The words of so many cells, the first of which is so many from the top; they have to be numbers. Kept out of the
    /// run loop, whose registers it would take.
    #[inline(never)]
    fn numbers(&self, place: usize, count: usize) -> Result<&[u64], MachineFault>
        requires in_use { place ≤ self.now.used }
        requires within { count ≤ place }
        ensures { MatchResult result
            (λ words. rows.numbers (rows.row place count (view self.now)) ≡ Ok (values words.now))
            (λ fault. rows.numbers (rows.row place count (view self.now)) ≡ Err fault) }
    {
        self.cells.numbers(self.used - place, count)
    }

    /// The topmost two numbers, which another may replace.
    fn operands(&self) -> Result<(i32, i32), MachineFault>
        ensures within { IfOk result
            (λ _. (self.now.frame + 6 ≤ self.now.used) × (self.now.used < self.now.limit + 2)) }
        ensures value { result ≡ frames.operands (view self.now) }
    {
        self.has(2)?;
        self.has_room_after(2)?;
        self.two_numbers()
    }

    /// The topmost two numbers, above the frame's links.
    pub fn top_two(&self) -> Result<(i32, i32), MachineFault>
        ensures within { IfOk result (λ _. self.now.frame + 6 ≤ self.now.used) }
        ensures value { result ≡ frames.top_two (view self.now) }
    {
        self.has(2)?;
        self.two_numbers()
    }

    /// The numbers in the topmost two cells, the lower one first.
    fn two_numbers(&self) -> Result<(i32, i32), MachineFault>
        requires { 2 ≤ self.now.used }
        ensures { result ≡ frames.two_numbers (view self.now) }
    {
        let left = self.number_at(2)?;
        let right = self.number_at(1)?;
        Ok((left, right))
    }

    /// Pops so many cells and pushes this number.
    fn replace_by_number(&mut self, count: usize, number: i32)
        requires above_links { self.old.frame + 4 + count ≤ self.old.used }
        requires below_limit { self.old.used < self.old.limit + count }
        ensures value { view self.new ≡ frames.pushed (Number number) (frames.popped count (view self.old)) }
        ensures size { self.new.size ≡ self.old.size }
    {
        let place = self.used - count;
        self.cells.put_number(place, number);
        self.used = place + 1;
    }

    /// Pops so many cells and pushes the cell at this address.
    fn replace_by_copy(&mut self, count: usize, address: usize)
        requires above_links { self.old.frame + 4 + count ≤ self.old.used }
        requires below_limit { self.old.used < self.old.limit + count }
        requires in_use { address < self.old.used }
        ensures value { view self.new
            ≡ frames.pushed (slice_index_or self.old.cells address Undefined) (frames.popped count (view self.old)) }
        ensures size { self.new.size ≡ self.old.size }
    {
        let place = self.used - count;
        self.cells.copy(address, place);
        self.used = place + 1;
    }

    /// The address of a variable while so many cells are in use: so far beyond where the frame begins that
    /// the static links lead to.
    fn address(&self, level: u8, offset: u32, used: usize) -> Result<usize, MachineFault>
        requires in_use { used ≤ self.now.used }
        requires in_frame { self.now.frame < used }
        ensures within { IfOk result (λ address. address < used) }
        ensures value { result ≡ frames.variable level offset
            (record (view self.now) { cells = take used self.now.cells }) }
    {
        let base = self.base(level, used)?;
        in_use(base + offset as usize, used)
    }

    /// Where so many static links lead to while so many cells are in use.
    fn base(&self, level: u8, used: usize) -> Result<usize, MachineFault>
        requires in_use { used ≤ self.now.used }
        requires in_frame { self.now.frame < used }
        ensures within { IfOk result (λ base. base < used) }
        ensures value { result ≡ frames.base level self.now.frame (take used self.now.cells) }
    {
        let mut base = self.frame;
        for _link in 0..level {
            base = self.linked(base, used)?;
        }
        Ok(base)
    }

    /// Where the static link of this frame leads to.
    fn linked(&self, frame: usize, used: usize) -> Result<usize, MachineFault>
        requires in_use { used ≤ self.now.used }
        requires in_frame { frame < used }
        ensures within { IfOk result (λ base. base < used) }
        ensures value { result ≡ frames.linked frame (take used self.now.cells) }
    {
        let link = self.cells.number(frame)?;
        address_of(link, used)
    }
}

/// A number as the address of a cell, of which so many are in use.
fn address_of(number: i32, used: usize) -> Result<usize, MachineFault>
    ensures within { IfOk result (λ address. address < used) }
    ensures value { result ≡ frames.address_of number used }
{
    match usize::try_from(number) {
        Ok(address) => in_use(address, used),
        Err(_) => Err(MachineFault::OutOfBounds),
    }
}

/// The address of a cell, of which so many are in use.
fn in_use(address: usize, used: usize) -> Result<usize, MachineFault>
    ensures within { IfOk result (λ place. place < used) }
    ensures value { result ≡ frames.in_use address used }
{
    if address >= used {
        return Err(MachineFault::OutOfBounds);
    }
    Ok(address)
}

/// Whether the number is of the type integer.
fn fits(number: i64) -> bool
    ensures { result ≡ frames.is_integer number }
{
    -MAXINT <= number && number <= MAXINT
}
