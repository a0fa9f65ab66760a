ghost use Rattle.std.specs.Prelude.{◌≡◌, slice_get};
ghost use Rattle.code_scheme.specs.Code.{numbered};
ghost use Rattle.code_scheme.specs.Frames.{AreCounted};
ghost use Rattle.code_scheme.specs.Scopes.{block_scope, home_or_none, homes_of};
ghost use Rattle.code_scheme.specs.Scopes.{behind_fields as behind, fields_offset as offset_of_fields};
ghost use Rattle.code_scheme.specs.Scopes.{selectors_from as from};
ghost use Rattle.code_scheme.specs.Sizes.{capped};

use crate::{Frame, Home, Routine, frame_at, level_of};
use std::marker::Model;
use typed_tree::{Access, Base, Block, Selector, Tree};

/// The most cells that a frame has for variables, that may be held above them, or that an evaluation is given.
pub const MOST_CELLS: u32 = 16777216;

/// The greatest offset that an instruction may have.
pub const GREATEST_OFFSET: u32 = 16777215;

/// The most static links that an instruction may follow.
pub const MOST_LINKS: u8 = 15;

/// How many cells a frame has before its variables.
pub const LINKS: u32 = 4;

/// Where nothing lies.
const NO_HOME: Home = Home {
    level: 0,
    start: 0,
    refers: false,
};

/// What a call of no block would lead to.
const NO_ROUTINE: Routine = Routine {
    level: 0,
    cells: 0,
    place: 0,
};

/// Where the code of a statement or an expression runs.
#[derive(Drop)]
pub struct Scope<'s> {
    // Where the variables lie, by root number.
    homes: &'s [Home],
    // The blocks, and their frames, by number.
    blocks: &'s [Block],
    frames: &'s [Frame],
    // The level of the block.
    level: usize,
    // Where in its frame the next cell lies that is held above its variables.
    next: u32,
    // Where the addresses lie of the records of `with` statements round it, by slot.
    records: &'s [Home],
}

impl<'s> Model for Scope<'s> {
    ghost use Rattle.std.specs.Prelude.{◌≤◌};
    ghost use Rattle.code_scheme.specs.Scopes.{Scope};

    ghost Value = { Scope };

    ghost use Rattle.code_scheme.specs.Frames.{routines_by};

    ghost view = { λ s. record {
      homes = s.homes.now;
      routines = routines_by s.blocks.now s.frames.now 0 s.blocks.now;
      level = s.level;
      next = s.next;
      records = s.records.now;
    } };

    ghost invariant = { λ s. s.next ≤ 16777216 };
}

impl<'s> Scope<'s> {
    ghost use Rattle.std.specs.Prelude.{◌+◌, ◌≤◌, true};
    ghost use Rattle.code_scheme.specs.Scopes.{access_home, access_offset, called_routine, count, held_offset, holding};
    ghost use Rattle.code_scheme.specs.Scopes.{links_to, variable_home};

    /// The scope of the block with this number, where its statements run, if so the variables lie and these are the
    /// frames of the blocks. Each routine has the number of its block for its place.
    pub fn of_block(
        tree: &'s Tree,
        homes: &'s [Home],
        frames: &'s [Frame],
        number: usize,
    ) -> Scope<'s>
        ensures { homes.now ≡ homes_of tree.now → AreCounted tree.now.types tree.now.variables.items frames.now
            → result ≡ block_scope tree.now (numbered tree.now) number }
    {
        let frame = frame_at(frames, number);
        let next = LINKS
            .saturating_add(frame.parameters)
            .saturating_add(frame.others)
            .min(MOST_CELLS);
        Scope {
            homes,
            blocks: tree.blocks.as_slice(),
            frames,
            level: level_of(tree.blocks.as_slice(), number),
            next,
            records: &homes[..0],
        }
    }

    /// Where the variable lies.
    pub fn home(&self, root: u32) -> Home
        ensures { result ≡ variable_home self.now root }
    {
        home_at(self.homes, root)
    }

    /// Where what an access begins at lies, or its address.
    pub fn begun(&self, access: &Access) -> Home
        ensures { result ≡ access_home self.now access.now }
    {
        match access.base {
            Base::Variable => home_at(self.homes, access.root),
            Base::Record { slot, .. } => home_at(self.records, slot),
        }
    }

    /// The routine whose block has this number.
    pub fn routine(&self, block: u32) -> Routine
        ensures { result ≡ called_routine self.now block }
    {
        let number = block as usize;
        if number >= self.blocks.len() {
            return NO_ROUTINE;
        }
        Routine {
            level: level_of(self.blocks, number).saturating_sub(1),
            cells: frame_at(self.frames, number).parameters.min(MOST_CELLS),
            place: block,
        }
    }

    /// How many static links lead to the frame of a block of this level, or the most.
    pub fn links_to(&self, level: usize) -> u8
        ensures { result ≡ links_to self.now level }
    {
        let links = self.level.saturating_sub(level);
        u8::try_from(links).unwrap_or(MOST_LINKS).min(MOST_LINKS)
    }

    /// Where the component begins that the fields before the first index select, if the variable is no variable
    /// parameter.
    pub fn access_offset(&self, access: &Access) -> u32
        ensures { result ≡ access_offset self.now access.now }
    {
        let start = self.begun(access).start;
        let fields = fields_offset(access.selectors.as_slice());
        start.saturating_add(fields).min(GREATEST_OFFSET)
    }

    /// Where the n-th cell lies that is held above those that are held already, or the greatest offset.
    pub fn held_offset(&self, n: u32) -> u32
        ensures { result ≡ held_offset self.now n }
    {
        self.next.saturating_add(n).min(GREATEST_OFFSET)
    }

    /// The scope of code that runs while so many cells more are held.
    pub fn holding(&self, cells: u32) -> Scope<'_>
        ensures { result ≡ holding cells self.now }
    {
        self.among(self.records, cells)
    }

    /// The records of `with` statements round it.
    pub fn records(&self) -> &[Home]
        ensures records { result.now ≡ self.now.records }
        ensures few { self.now.next ≤ 16777216 }
    {
        self.records
    }

    /// Where the address of one record more would be held.
    pub fn next_record(&self) -> Home
        ensures { result ≡ record { level = self.now.level; start = held_offset self.now 0; refers = true } }
    {
        Home {
            level: self.level,
            start: self.held_offset(0),
            refers: true,
        }
    }

    /// The scope of code that runs while so many cells more are held, and these records stand round it.
    pub fn among<'r>(&'r self, records: &'r [Home], cells: u32) -> Scope<'r>
        ensures scope { result ≡ record self.now { next = count (self.now.next + cells); records = records.now } }
        ensures few { self.now.next ≤ 16777216 }
    {
        Scope {
            homes: self.homes,
            blocks: self.blocks,
            frames: self.frames,
            level: self.level,
            next: self.next.saturating_add(cells).min(MOST_CELLS),
            records,
        }
    }
}

// Where what has this number among some lies.
fn home_at(homes: &[Home], number: u32) -> Home
    ensures { result ≡ home_or_none (slice_get homes.now number) }
{
    homes.get(number as usize).copied().unwrap_or(NO_HOME)
}

// How many cells lie before the component that the fields before the first index select, or the greatest number of 32
// bits.
fn fields_offset(selectors: &[Selector]) -> u32
    ensures { result ≡ capped (offset_of_fields selectors.now) }
{
    let mut offset = 0u32;
    let mut rest = selectors;
    while let Some((Selector::Field { offset: before, .. }, others)) = rest.split_first() {
        offset = offset.saturating_add(*before);
        rest = others;
    }
    offset
}

/// The selectors from the first index on.
pub fn behind_fields<'t>(selectors: &'t [Selector]) -> &'t [Selector]
    ensures { result.now ≡ behind selectors.now }
{
    let mut rest = selectors;
    while let Some((Selector::Field { .. }, others)) = rest.split_first() {
        rest = others;
    }
    rest
}

/// The selectors from which code goes on over an address: from that of a variable parameter's actual one all of them,
/// else those from the first index on.
pub fn selectors_from<'t>(refers: bool, selectors: &'t [Selector]) -> &'t [Selector]
    ensures { result.now ≡ from refers selectors.now }
{
    if refers {
        return selectors;
    }
    behind_fields(selectors)
}
