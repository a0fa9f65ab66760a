ghost use Rattle.std.specs.Prelude.{◌≡◌, ◌+◌, ◌<◌, ◌≤◌, IfOk};
ghost use Rattle.stack_machine.specs.Addresses as addresses;
ghost use Rattle.stack_machine.specs.Frames as frames;

use crate::store::{address_of, in_use};
use crate::{MachineFault, Store};

impl Store {
    ghost use Rattle.stack_machine.specs.View.{Acts, view};

    /// `lda`: the address may be that of no cell.
    pub fn load_address(&mut self, level: u8, offset: u32) -> Result<(), MachineFault>
        ensures { Acts result (view self.old) (view self.new) (addresses.load_address level offset (view self.old)) }
    {
        self.has_room_after(0)?;
        let frame = self.base(level, self.used)? as i32;
        self.replace_by_number(0, frame.wrapping_add_unsigned(offset));
        Ok(())
    }

    /// `inc`
    pub fn increase(&mut self, offset: u32) -> Result<(), MachineFault>
        ensures { Acts result (view self.old) (view self.new)
            (frames.on_one (addresses.further offset) (view self.old)) }
    {
        self.has(1)?;
        self.has_room_after(1)?;
        let address = self.number_at(1)?;
        self.replace_by_number(1, address.wrapping_add_unsigned(offset));
        Ok(())
    }

    /// `ixa`
    pub fn index(&mut self, low: i32, size: u32) -> Result<(), MachineFault>
        ensures { Acts result (view self.old) (view self.new)
            (frames.on_two (addresses.element low size) (view self.old)) }
    {
        let (address, index) = self.operands()?;
        let distance = index.wrapping_sub(low).wrapping_mul(size.cast_signed());
        self.replace_by_number(2, address.wrapping_add(distance));
        Ok(())
    }

    /// `ind`: the cell may be of any kind.
    pub fn load_indirect(&mut self, offset: u32) -> Result<(), MachineFault>
        ensures { Acts result (view self.old) (view self.new) (addresses.load_indirect offset (view self.old)) }
    {
        self.has(1)?;
        self.has_room_after(1)?;
        let address = self.number_at(1)?;
        let place = address_of(address.wrapping_add_unsigned(offset), self.used - 1)?;
        self.replace_by_copy(1, place);
        Ok(())
    }

    /// `sto`: the cells that it pops are out of use when the address is looked for.
    pub fn store_indirect(&mut self) -> Result<(), MachineFault>
        ensures { Acts result (view self.old) (view self.new) (addresses.store_indirect (view self.old)) }
    {
        self.has(2)?;
        let used = self.used - 2;
        let address = self.number_at(2)?;
        let place = address_of(address, used)?;
        self.cells.copy(used + 1, place);
        self.used = used;
        Ok(())
    }

    /// `ldm`: so many cells, which may be of any kind.
    pub fn load_many(&mut self, count: u32) -> Result<(), MachineFault>
        ensures { Acts result (view self.old) (view self.new) (addresses.load_many count (view self.old)) }
    {
        let count = count as usize;
        self.has(1)?;
        let used = self.used - 1;
        if count > 0 && used + count > self.limit {
            return Err(MachineFault::OutOfBounds);
        }
        let address = self.number_at(1)?;
        let place = row_place(address, count, used)?;
        self.cells.copy_row(place, count, used);
        self.used = used + count;
        Ok(())
    }

    /// `stm`: the cells that it pops are out of use when the address is looked for.
    pub fn store_many(&mut self, count: u32) -> Result<(), MachineFault>
        ensures { Acts result (view self.old) (view self.new) (addresses.store_many count (view self.old)) }
    {
        let count = count as usize;
        self.has(count + 1)?;
        let first = self.used - count;
        let address = self.number_at(count + 1)?;
        let place = row_place(address, count, first - 1)?;
        self.cells.copy_row(first, count, place);
        self.used = first - 1;
        Ok(())
    }
}

/// Where a row of so many cells begins, of which all are among those in use, so many; an empty row is anywhere.
fn row_place(address: i32, count: usize, used: usize) -> Result<usize, MachineFault>
    requires { count < 4294967296 }
    ensures within { IfOk result (λ place. place + count ≤ used) }
    ensures value { result ≡ addresses.row_place address count used }
{
    if count == 0 {
        return Ok(0);
    }
    let place = address_of(address, used)?;
    in_use(place + (count - 1), used)?;
    Ok(place)
}
