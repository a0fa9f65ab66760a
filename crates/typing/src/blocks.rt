ghost use Rattle.std.specs.Prelude.{◌≡◌, ◌≤◌, [], ◌∷◌, ◌++◌, Ok, IfOk, MatchResult, map};
ghost use Rattle.memory.specs.Refused.{the_refusal};
ghost use Rattle.typed_tree.specs.declared.fault.TypeFault.TheVariants.{Memory};
ghost use Rattle.types.specs.Types.{most_cells};

use crate::{MOST_BLOCKS, MOST_NUMBERED, Made, Typer};
use indexmap::IndexMap;
use place::Place;
use scopes::{Region, copied};
use std::alloc::Global;
use std::mem;
use typed_tree::{FunctionResult, SiteKind, TypeFault};

/// A heading that was passed (ISO 7185:1990, 6.6.1, 6.6.2).
#[derive(Drop)]
pub(crate) struct PassedHeading {
    // The numbers of the blocks round its block, the program's first.
    pub(crate) around: Vec<u32>,
    // By root number.
    pub(crate) parameters: Vec<u32>,
    // By root number, if it is a function's.
    pub(crate) result: Option<u32>,
    // That of its parameters.
    pub(crate) region: Region,
    // Those that all of these take.
    pub(crate) cells: u32,
    ghost few_cells: { cells ≤ most_cells },
}

impl PassedHeading {
    ghost use Rattle.typing.specs.Steps.{program_heading};
    ghost use Rattle.typing.specs.View.{headed_of};

    // A copy of it.
    fn copied(&self, alloc: Global) -> Made<PassedHeading>
        ensures { MatchResult result (λ copy. headed_of copy ≡ headed_of self.now) (λ why. why ≡ Memory the_refusal) }
    {
        Ok(PassedHeading {
            around: Vec::from_slice(alloc, &self.around)?,
            parameters: Vec::from_slice(alloc, &self.parameters)?,
            result: self.result,
            region: copied(&self.region)?,
            cells: self.cells,
        })
    }

    /// That of the program's block.
    pub(crate) fn nothing(alloc: Global) -> PassedHeading
        ensures { headed_of result ≡ program_heading }
    {
        PassedHeading {
            around: Vec::new(alloc),
            parameters: Vec::new(alloc),
            result: None,
            region: IndexMap::new(alloc),
            cells: 0,
        }
    }
}

/// A block that is passed (6.2.1).
#[derive(Drop)]
pub struct EnclosingBlock {
    // Its number.
    pub(crate) block: u32,
    // The numbers of the blocks round it, the program's first.
    pub(crate) around: Vec<u32>,
    // Those that its variables take so far.
    pub(crate) cells: u32,
    // The routines that it declared with the directive forward, or whose blocks came, by block number: each with the
    // place of its name while it waits for its block.
    pub(crate) waiting: IndexMap<u32, Option<Place>>,
    ghost few_cells: { cells ≤ most_cells },
}

impl EnclosingBlock {
    ghost use Rattle.typing.specs.Steps.{program_block};
    ghost use Rattle.typing.specs.View.{enclosing_of};

    /// The program's.
    pub(crate) fn of_program(alloc: Global) -> EnclosingBlock
        ensures { enclosing_of result ≡ program_block }
    {
        EnclosingBlock {
            block: 0,
            around: Vec::new(alloc),
            cells: 0,
            waiting: IndexMap::new(alloc),
        }
    }
}

/// A block that began, and its heading.
#[derive(Drop)]
pub struct BegunBlock {
    /// The block round it.
    pub round: EnclosingBlock,
    /// The numbers of the blocks round it, the program's first.
    pub around: Vec<u32>,
    /// The root numbers of its formal parameters.
    pub parameters: Vec<u32>,
    /// The root number of its result, if it is a function's.
    pub root: Option<u32>,
}

/// What is called: a procedure or a function that a program declares.
#[derive(Drop)]
pub struct Callee {
    /// The root numbers of its formal parameters.
    pub parameters: Vec<u32>,
    /// The root number of its result, if it is a function.
    pub root: Option<u32>,
}

impl Typer {
    ghost use Rattle.std.specs.Prelude.{Err, IsOk, length, get_or};
    ghost use Rattle.scopes.specs.Scopes.{region_of};
    ghost use Rattle.typing.specs.Blocks.{heading_ends, block_begins, block_ends, BeginsBlock, FindsCallee};
    ghost use Rattle.typing.specs.Names.{folded};
    ghost use Rattle.typing.specs.Expressions.{are_as_many};
    ghost use Rattle.typing.specs.Outcomes.{TypingTakes, Tells};
    ghost use Rattle.typing.specs.Passing.{after};
    ghost use Rattle.typing.specs.Routines as spec;
    ghost use Rattle.typing.specs.Steps as step;
    ghost use Rattle.typing.specs.View.{enclosing_of, headed_of};

    /// A routine may be declared in the block round the place: S4 at its name where its block is nested too deep.
    #[tactic(auto, unfolding(crate::specs::Steps::may_nest))]
    pub fn may_nest(&self, place: Place) -> Made<()>
        ensures { Tells (step.may_nest place self.now) result self.now }
    {
        if self.enclosing.around.len() + 1 >= MOST_BLOCKS {
            return Err(TypeFault::NestedTooDeep(place));
        }
        Ok(())
    }

    /// The number of the next block, whose name stands at the place: K10 there where there are too many.
    #[tactic(auto, unfolding(crate::specs::Steps::next_block))]
    pub fn next_block(&self, place: Place) -> Made<u32>
        ensures { Tells (step.next_block place self.now) result self.now }
    {
        if self.headings.len() >= MOST_NUMBERED {
            return Err(TypeFault::TooMany(place));
        }
        Ok(self.headings.len() as u32)
    }

    /// A heading begins, whose cells are counted from none. It tells those of the block round it.
    #[tactic(auto, unfolding(crate::specs::Steps::with_enclosing))]
    pub fn begin_heading(&mut self) -> u32
        ensures passed { step.with_enclosing (record (self.old.enclosing) { cells = 0 }) self.old
            ≡ Ok (after tt [] self.new) }
        ensures cells { result ≡ self.old.enclosing.cells }
        ensures few { result ≤ most_cells }
    {
        let cells = self.enclosing.cells;
        self.enclosing.cells = 0;
        cells
    }

    /// It ends, with these parameters and this result; the block round it has so many cells so far.
    pub fn end_heading(&mut self, cells: u32, parameters: Vec<u32>, root: Option<u32>) -> Made<()>
        requires few { cells ≤ most_cells }
        ensures { TypingTakes (heading_ends (record (self.old.enclosing) { cells = cells }) parameters.items root
            self.old)
            result self.new }
    {
        let mut around = Vec::from_slice(self.alloc, &self.enclosing.around)?;
        around.push(self.enclosing.block)?;
        let heading = PassedHeading {
            around,
            parameters,
            result: root,
            region: self.close_block(),
            cells: self.enclosing.cells,
        };
        self.enclosing.cells = cells;
        self.headings.push(heading)?;
        Ok(())
    }

    /// A block begins, behind the heading of its number, which defines these names, in small letters.
    pub fn begin_block(&mut self, number: u32, names: &[Vec<u8>]) -> Made<BegunBlock>
        ensures { BeginsBlock (block_begins number (map (λ name. name.items) names.now) self.old) result self.new }
    {
        let heading = self.copied_heading(number)?;
        self.scopes.open_beside(heading.region, names)?;
        let begun = EnclosingBlock {
            block: number,
            around: Vec::from_slice(self.alloc, &heading.around)?,
            cells: heading.cells,
            waiting: IndexMap::new(self.alloc),
        };
        Ok(BegunBlock {
            round: mem::replace(&mut self.enclosing, begun),
            around: heading.around,
            parameters: heading.parameters,
            root: heading.result,
        })
    }

    // A copy of the heading of a number.
    fn copied_heading(&self, number: u32) -> Made<PassedHeading>
        ensures { MatchResult result
            (λ copy. headed_of copy ≡ get_or self.now.headings number step.program_heading)
            (λ why. why ≡ Memory the_refusal) }
    {
        match self.headings.get(number as usize) {
            None => Ok(PassedHeading::nothing(self.alloc)),
            Some(heading) => heading.copied(self.alloc),
        }
    }

    /// It ends, and the block round it goes on.
    pub fn end_block(&mut self, round: EnclosingBlock)
        ensures { block_ends (enclosing_of round) self.old ≡ Ok (after tt [] self.new) }
    {
        self.close_block();
        self.enclosing = round;
    }

    /// The result of a function at the end of its block, with the site of its test: K7 at its name where it is assigned
    /// nowhere.
    #[tactic(auto, unfolding(crate::specs::Routines::result_at_end))]
    pub fn result_at_end(
        &mut self,
        name: Place,
        end: Place,
        root: Option<u32>,
    ) -> Made<Option<FunctionResult>>
        ensures { TypingTakes (spec.result_at_end name end root self.old) result self.new }
    {
        let Some(root) = root else {
            return Ok(None);
        };
        self.is_assigned(name, root)?;
        let defined = self.site(SiteKind::UndefinedResult, end)?;
        Ok(Some(FunctionResult { root, defined }))
    }

    // A result is assigned somewhere before.
    #[tactic(auto, unfolding(crate::specs::Steps::is_assigned))]
    fn is_assigned(&self, place: Place, root: u32) -> Made<()>
        ensures { Tells (step.is_assigned place root self.now) result self.now }
    {
        if !self.assigned.contains(&root) {
            return Err(TypeFault::NeverAssigned(place));
        }
        Ok(())
    }

    /// What is called by the number of its block, with so many actual parameters: K3 at the place where it has not as
    /// many formal ones.
    pub fn callee(&self, number: u32, count: usize, place: Place) -> Made<Callee>
        ensures found { FindsCallee (get_or self.now.headings number step.program_heading) place count result }
        ensures memory { result ≡ Err (Memory the_refusal) → IsOk (are_as_many place count
            (length (get_or self.now.headings number step.program_heading).parameters)) }
    {
        let heading = self.headings.get(number as usize);
        let formals = heading.map_or(0, |heading| heading.parameters.len());
        if count != formals {
            return Err(TypeFault::WrongParameters(place));
        }
        match heading {
            None => Ok(Callee {
                parameters: Vec::new(self.alloc),
                root: None,
            }),
            Some(heading) => Ok(Callee {
                parameters: Vec::from_slice(self.alloc, &heading.parameters)?,
                root: heading.result,
            }),
        }
    }
}
