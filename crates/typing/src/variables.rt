ghost use Rattle.scopes.specs.Scopes.{Knows};
ghost use Rattle.memory.specs.Refused.{the_refusal};
ghost use Rattle.typed_tree.specs.declared.fault.TypeFault.TheVariants.{Memory};
ghost use Rattle.typing.specs.Names.{folded};

use crate::{MOST_NUMBERED, Made, Typer};
use place::Place;
use scopes::Denotation;
use syntax_tree::Name;
use typed_tree::{TypeFault, Variable, VariableKind};
use types::{MOST_CELLS, TypeId};

impl Typer {
    ghost use Rattle.std.specs.Prelude.{◌≡◌, Err, IsOk, slice_get};
    ghost use Rattle.typing.specs.Outcomes.{TypingTakes, Tells};
    ghost use Rattle.typing.specs.Steps as step;
    ghost use Rattle.typing.specs.Routines as spec;

    /// A variable of a type, which a block declares so, by its number (K10 where there are too many), its definition
    /// (S1 where it comes twice), and then its cells (Y2 where there is no room).
    #[tactic(auto, unfolding(crate::specs::Routines::declared))]
    pub fn variable(&mut self, block: u32, kind: VariableKind, id: TypeId, name: &Name) -> Made<u32>
        requires known { Knows self.old.regions (folded name.now.text.now) }
        ensures { TypingTakes (spec.declared block kind id name.now self.old) result self.new }
    {
        let root = self.next_root(name.place)?;
        self.declare(name, Denotation::Variable { root, type_id: id })?;
        self.reserve(name.place, block, kind, id)?;
        Ok(root)
    }

    /// One of the variable declaration part of the block round the place.
    #[tactic(auto, unfolding(crate::specs::Routines::local, crate::specs::Steps::enclosing_now))]
    pub fn local(&mut self, type_id: TypeId, name: &Name) -> Made<()>
        requires known { Knows self.old.regions (folded name.now.text.now) }
        ensures { TypingTakes (spec.local type_id name.now self.old) result self.new }
    {
        let block = self.enclosing.block;
        self.variable(block, VariableKind::Local, type_id, name)?;
        Ok(())
    }

    /// The result of a block's function, if it is one, at the place of its name.
    #[tactic(auto, unfolding(crate::specs::Routines::result))]
    pub fn result(&mut self, block: u32, place: Place, type_id: Option<TypeId>) -> Made<Option<u32>>
        ensures { TypingTakes (spec.result block place type_id self.old) result self.new }
    {
        let Some(type_id) = type_id else {
            return Ok(None);
        };
        let root = self.next_root(place)?;
        self.reserve(place, block, VariableKind::Result, type_id)?;
        Ok(Some(root))
    }

    /// The variable of a root.
    pub fn variable_at(&self, root: u32) -> Option<Variable>
        ensures { result ≡ slice_get self.now.variables root }
    {
        self.variables.get(root as usize).copied()
    }

    // The root number of the next variable.
    #[tactic(auto, unfolding(crate::specs::Steps::next_root))]
    fn next_root(&self, place: Place) -> Made<u32>
        ensures { Tells (step.next_root place self.now) result self.now }
    {
        if self.variables.len() >= MOST_NUMBERED {
            return Err(TypeFault::TooMany(place));
        }
        Ok(self.variables.len() as u32)
    }

    // The cells of one variable more of a block.
    #[tactic(auto, unfolding(crate::specs::Steps::reserve))]
    fn reserve(&mut self, place: Place, block: u32, kind: VariableKind, type_id: TypeId) -> Made<()>
        ensures taken { TypingTakes (step.reserve place block kind type_id self.old) result self.new }
        ensures memory { result ≡ Err (Memory the_refusal) → IsOk (step.reserve place block kind type_id self.old) }
    {
        let cells = self.types.cells(type_id);
        if cells > MOST_CELLS - self.enclosing.cells {
            return Err(TypeFault::TooManyCells(place));
        }
        self.variables.push(Variable {
            block,
            type_id,
            kind,
        })?;
        self.enclosing.cells += cells;
        Ok(())
    }
}
