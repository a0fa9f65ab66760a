ghost use Rattle.std.specs.Prelude.{◌≡◌, ◌+◌, ◌<◌, ◌≤◌, IfOk};
ghost use Rattle.members.specs.Members as members;
ghost use Rattle.stack_machine.specs.declared.cell.Cell.TheVariants.{Set};
ghost use Rattle.stack_machine.specs.Frames.{popped, pushed};
ghost use Rattle.stack_machine.specs.Sets as sets;

use crate::{MachineFault, Store};
use machine_arithmetic::arithmetic::truth;
use members::sets::{Operator, Relation, has, is_within, of_one, of_range, range_fits};

impl Store {
    ghost use Rattle.stack_machine.specs.View.{Acts, view};

    /// `lds`
    pub fn load_set(&mut self, members: u128) -> Result<(), MachineFault>
        ensures { Acts result (view self.old) (view self.new) (sets.load_set members (view self.old)) }
    {
        self.has_room_after(0)?;
        self.replace_by_set(0, members);
        Ok(())
    }

    /// `sgs`: a number gives way to the set of it alone.
    pub fn singleton(&mut self) -> Result<(), MachineFault>
        ensures { Acts result (view self.old) (view self.new) (sets.singleton (view self.old)) }
    {
        self.has(1)?;
        self.has_room_after(1)?;
        let member = self.number_at(1)?;
        self.replace_by_set(1, of_one(member));
        Ok(())
    }

    /// `srg`: two numbers give way to the set of those from the lower one to that on top.
    pub fn set_range(&mut self) -> Result<(), MachineFault>
        ensures { Acts result (view self.old) (view self.new) (sets.set_range (view self.old)) }
    {
        let (low, high) = self.operands()?;
        self.replace_by_set(2, of_range(low, high));
        Ok(())
    }

    /// Two sets give way to what the operator gives of them.
    pub fn on_sets(&mut self, operator: Operator) -> Result<(), MachineFault>
        ensures { Acts result (view self.old) (view self.new)
            (sets.on_sets (members.of_two operator) (view self.old)) }
    {
        let (left, right) = self.set_operands()?;
        self.replace_by_set(2, operator.of(left, right));
        Ok(())
    }

    /// Two sets give way to whether they stand so.
    pub fn relate(&mut self, relation: Relation) -> Result<(), MachineFault>
        ensures { Acts result (view self.old) (view self.new)
            (sets.related (members.stand relation) (view self.old)) }
    {
        let (left, right) = self.set_operands()?;
        self.replace_by_number(2, truth(relation.holds(left, right)));
        Ok(())
    }

    /// `inn`: a number and the set on it give way to whether it is a member.
    pub fn is_member(&mut self) -> Result<(), MachineFault>
        ensures { Acts result (view self.old) (view self.new) (sets.is_member (view self.old)) }
    {
        self.has(2)?;
        self.has_room_after(2)?;
        let (number, set) = self.number_and_set()?;
        self.replace_by_number(2, truth(has(set, number)));
        Ok(())
    }

    /// `ckr`: whether the topmost two numbers are those of an empty range, or can both be members.
    pub fn range_fits(&self) -> Result<bool, MachineFault>
        ensures { result ≡ sets.range_fits (view self.now) }
    {
        let (low, high) = self.top_two()?;
        Ok(range_fits(low, high))
    }

    /// `ckb`: whether each member of the set on top lies in the range.
    pub fn top_set_is_within(&self, low: i32, high: i32) -> Result<bool, MachineFault>
        ensures { result ≡ sets.top_set_is_within low high (view self.now) }
    {
        self.has(1)?;
        let set = self.set_at(1)?;
        Ok(is_within(set, low, high))
    }

    /// The topmost two sets, which another cell may replace.
    fn set_operands(&self) -> Result<(u128, u128), MachineFault>
        ensures within { IfOk result
            (λ _. (self.now.frame + 6 ≤ self.now.used) × (self.now.used < self.now.limit + 2)) }
        ensures value { result ≡ sets.set_operands (view self.now) }
    {
        self.has(2)?;
        self.has_room_after(2)?;
        self.two_sets()
    }

    /// The sets in the topmost two cells, the lower one first.
    fn two_sets(&self) -> Result<(u128, u128), MachineFault>
        requires { 2 ≤ self.now.used }
        ensures { result ≡ sets.two_sets (view self.now) }
    {
        let left = self.set_at(2)?;
        let right = self.set_at(1)?;
        Ok((left, right))
    }

    /// The number in the second cell from the top, and the set on it.
    fn number_and_set(&self) -> Result<(i32, u128), MachineFault>
        requires { 2 ≤ self.now.used }
        ensures { result ≡ sets.number_and_set (view self.now) }
    {
        let number = self.number_at(2)?;
        let set = self.set_at(1)?;
        Ok((number, set))
    }

    /// Pops so many cells and pushes this set.
    fn replace_by_set(&mut self, count: usize, members: u128)
        requires above_links { self.old.frame + 4 + count ≤ self.old.used }
        requires below_limit { self.old.used < self.old.limit + count }
        ensures value { view self.new ≡ pushed (Set members) (popped count (view self.old)) }
        ensures size { self.new.size ≡ self.old.size }
    {
        let place = self.used - count;
        self.cells.put_set(place, members);
        self.used = place + 1;
    }

    /// The set in a cell, so many from the top; the top is the first.
    fn set_at(&self, count: usize) -> Result<u128, MachineFault>
        requires some { 1 ≤ count }
        requires in_use { count ≤ self.now.used }
        ensures { result ≡ sets.set_at count (view self.now) }
    {
        self.cells.set(self.used - count)
    }
}
