ghost use Rattle.std.specs.Prelude.{◌≡◌, ◌∷◌, None, get_or, if◌then◌else◌, slice_get};
ghost use Rattle.typing.specs.Blocks.{place_of};
ghost use Rattle.typed_tree.specs.WellFormed.{is_one_of};
ghost use Rattle.typing.specs.Routines.{first_waiting};

use crate::{Made, Typer, fold_into};
use indexmap::IndexMap;
use place::Place;
use scopes::Denotation;
use syntax_tree::Name;
use typed_tree::TypeFault;
use types::TypeId;

impl Typer {
    ghost use Rattle.typing.specs.Outcomes.{TypingTakes, Tells};
    ghost use Rattle.typing.specs.Routines as spec;
    ghost use Rattle.typing.specs.Statements as statements;
    ghost use Rattle.typing.specs.Steps as step;

    /// The block of a function, or of a procedure, of this name, if the block round the place declared it with the
    /// directive forward and its block didn't come yet (6.6.1, 6.6.2).
    #[tactic(auto, unfolding(crate::specs::Routines::waiting_for))]
    pub fn waiting_for(&mut self, is_function: bool, name: &Name) -> Made<Option<u32>>
        ensures { TypingTakes (spec.waiting_for is_function name.now self.old) result self.new }
    {
        fold_into(&mut self.key, name.text)?;
        let says = self.scopes.innermost_says(&self.key);
        Ok(self.waits(is_function, says))
    }

    // The block of a routine that waits for it.
    fn waits(&self, is_function: bool, says: Option<Option<Denotation>>) -> Option<u32>
        ensures { result ≡ spec.waits is_function self.now.enclosing.waiting says }
    {
        match says {
            Some(
                Some(
                    Denotation::Routine {
                        block,
                        is_function: of_function,
                    },
                ),
            ) => {
                let waits = matches!(self.enclosing.waiting.get(&block), Some(Some(_)));
                (waits && is_function == of_function).then_some(block)
            }
            _ => None,
        }
    }

    /// A routine of the block waits for its block, by the place of its name, or no longer.
    pub fn told_waiting(&mut self, number: u32, place: Option<Place>) -> Made<()>
        ensures { TypingTakes (spec.told_waiting number place self.old) result self.new }
    {
        self.enclosing.waiting.insert(number, place)?;
        Ok(())
    }

    /// No routine of the block waits: K9 at the name of the first that does.
    #[tactic(auto, unfolding(crate::specs::Routines::all_came, crate::specs::Steps::enclosing_now))]
    pub fn all_came(&self) -> Made<()>
        ensures { Tells (spec.all_came self.now) result self.now }
    {
        match first_waiting(&self.enclosing.waiting) {
            None => Ok(()),
            Some(place) => Err(TypeFault::NotCompleted(place)),
        }
    }

    /// The variable that is assigned by the name of a function, which is its result, inside its block alone (6.8.2.2):
    /// K2 at the place elsewhere, and where the routine is a procedure.
    pub fn function_target(&mut self, place: Place, block: u32) -> Made<(u32, TypeId)>
        ensures { TypingTakes (statements.function_target place block self.old) result self.new }
    {
        let root = self
            .result_inside(block)
            .ok_or(TypeFault::NotVariable(place))?;
        self.assigned.insert(root)?;
        let variable = self.variable_at(root).ok_or(TypeFault::NotVariable(place))?;
        Ok((root, variable.type_id))
    }

    // The root of the result of a function, inside its block.
    fn result_inside(&self, block: u32) -> Option<u32>
        ensures { result ≡ (if is_one_of (self.now.enclosing.block ∷ self.now.enclosing.around) block
            then (get_or self.now.headings block step.program_heading).result else None) }
    {
        let inside = self.enclosing.block == block || self.enclosing.around.contains(&block);
        if !inside {
            return None;
        }
        self.headings.get(block as usize)?.result
    }
}

// The place of the first routine that waits.
fn first_waiting(waiting: &IndexMap<u32, Option<Place>>) -> Option<Place>
    ensures { result ≡ first_waiting waiting.now.entries }
{
    for index in 0..waiting.len() {
        let place = place_at(waiting, index);
        if place.is_some() {
            return place;
        }
    }
    None
}

// The place of the routine at an index, if it waits.
fn place_at(waiting: &IndexMap<u32, Option<Place>>, index: usize) -> Option<Place>
    ensures { result ≡ place_of (slice_get waiting.now.entries index) }
{
    let (_, place) = waiting.get_index(index)?;
    *place
}
