ghost use Rattle.std.specs.Prelude.{◌≡◌, [], Ok, Err, IfErr, IsOk, MatchResult, map, nat_eq, slice_get};
ghost use Rattle.std.specs.List.{list_any};
ghost use Rattle.scopes.specs.Scopes.{Knows, region_of};
ghost use Rattle.typing.specs.Names.{folded};
ghost use Rattle.memory.specs.Refused.{the_refusal};
ghost use Rattle.typed_tree.specs.declared.fault.TypeFault.TheVariants.{Memory};
ghost use Rattle.typing.specs.Passing.{after};

use crate::{MOST_ENTRIES, MOST_NUMBERED, MOST_SITES, Made, REQUIRED, Typer, fold_into, folded};
use place::Place;
use scopes::{Denotation, File, Region};
use syntax_tree::Name;
use typed_tree::{Point, Site, SiteKind, TypeFault, VariableKind};
use typing_rules::placed;

impl Typer {
    ghost use Rattle.typing.specs.Outcomes.{TypingTakes, Tells};
    ghost use Rattle.typing.specs.Steps as spec;

    /// A token that the syntax tree tells was passed.
    #[tactic(auto, unfolding(crate::specs::Steps::pass))]
    pub fn pass(&mut self, place: Place)
        ensures { spec.pass place self.old ≡ Ok (after tt [] self.new) }
    {
        self.latest = place;
    }

    /// The number of the statement or expression that is entered.
    #[tactic(auto, unfolding(crate::specs::Steps::enter))]
    pub fn enter(&mut self) -> Made<u32>
        ensures { Tells (spec.enter self.old) result self.new }
    {
        if self.entries >= MOST_ENTRIES {
            return Err(TypeFault::TooMany(self.latest));
        }
        let number = self.entries;
        self.entries += 1;
        Ok(number)
    }

    /// The numbers of the loop that is entered: among the statements and expressions, and among the loops.
    #[tactic(auto, unfolding(crate::specs::Steps::begin_loop, crate::specs::Steps::enter))]
    pub fn enter_loop(&mut self) -> Made<(u32, u32)>
        ensures { Tells (spec.begin_loop self.old) result self.new }
    {
        let number = self.enter()?;
        if self.loops as usize >= MOST_NUMBERED {
            return Err(TypeFault::TooMany(self.latest));
        }
        let loop_number = self.loops;
        self.loops += 1;
        Ok((number, loop_number))
    }

    /// The id of a new site. Sites come in the order of their tokens.
    #[tactic(auto, using(crate::proofs::Rows::one_site_more), unfolding(crate::specs::Steps::site))]
    pub fn site(&mut self, kind: SiteKind, place: Place) -> Made<u32>
        ensures taken { TypingTakes (spec.site kind place self.old) result self.new }
        ensures memory { result ≡ Err (Memory the_refusal) → IsOk (spec.site kind place self.old) }
    {
        if self.sites.len() >= MOST_SITES {
            return Err(TypeFault::TooMany(place));
        }
        let id = self.sites.len() as u32;
        self.sites.push(Site { id, kind, place })?;
        self.latest = place;
        Ok(id)
    }

    /// A point, by its id.
    #[tactic(auto, using(crate::proofs::Rows::one_point_more), unfolding(crate::specs::Steps::point))]
    pub fn point(&mut self, place: Place) -> Made<u32>
        ensures taken { TypingTakes (spec.point place self.old) result self.new }
        ensures memory { result ≡ Err (Memory the_refusal) → IsOk (spec.point place self.old) }
    {
        if self.points.len() >= MOST_SITES {
            return Err(TypeFault::TooMany(place));
        }
        let id = self.points.len() as u32;
        self.points.push(Point { id, place })?;
        self.latest = place;
        Ok(id)
    }

    /// What a name denotes.
    #[tactic(auto, unfolding(crate::specs::Steps::find))]
    pub fn find(&mut self, name: &Name) -> Made<Denotation>
        ensures { TypingTakes (spec.find name.now self.old) result self.new }
    {
        fold_into(&mut self.key, name.text)?;
        let denotation = placed(self.scopes.find(&self.key), name.place)?;
        self.latest = name.place;
        Ok(denotation)
    }

    /// A variable may be changed, if it isn't the control variable of a for statement round the place (6.8.3.9); else
    /// it is K5 at its name. One of a block round this block is no control variable from here on.
    #[tactic(auto, unfolding(crate::specs::Steps::may_change))]
    pub fn may_change(&mut self, place: Place, root: u32) -> Made<()>
        ensures taken { TypingTakes (spec.may_change place root self.old) result self.new }
        ensures memory { result ≡ Err (Memory the_refusal) → IsOk (spec.may_change place root self.old) }
    {
        if self.is_control(root) {
            return Err(TypeFault::Threatened(place));
        }
        self.threaten(root)
    }

    // A variable is the control variable of a for statement round the place.
    fn is_control(&self, root: u32) -> bool
        ensures { result ≡ list_any (λ control. nat_eq control root) self.now.controls }
    {
        self.controls.contains(&root)
    }

    // A variable is no control variable from here on, if it is one of a block round this block.
    fn threaten(&mut self, root: u32) -> Made<()>
        ensures { MatchResult result (λ _. self.new ≡ spec.with_threatened root self.old)
            (λ why. why ≡ Memory the_refusal) }
    {
        if !self.is_own(root) {
            self.threatened.insert(root)?;
        }
        Ok(())
    }

    // The block round the place declares a variable.
    fn is_own(&self, root: u32) -> bool
        ensures { result ≡ spec.is_own self.now.enclosing.block (slice_get self.now.variables root) }
    {
        match self.variables.get(root as usize) {
            None => false,
            Some(variable) => variable.block == self.enclosing.block,
        }
    }

    /// A variable may be a control variable: one of the variable declaration part of the block that no routine of the
    /// block changes (6.8.3.9); else it is K5 at its name.
    #[tactic(auto, unfolding(crate::specs::Steps::may_control))]
    pub fn may_control(&self, place: Place, root: u32) -> Made<()>
        ensures { Tells (spec.may_control place root self.now) result self.now }
    {
        if !self.is_local(root) || self.threatened.contains(&root) {
            return Err(TypeFault::Threatened(place));
        }
        Ok(())
    }

    // A variable is one of the variable declaration part of the block round the place.
    fn is_local(&self, root: u32) -> bool
        ensures { result ≡ spec.is_local self.now.enclosing.block (slice_get self.now.variables root) }
    {
        match self.variables.get(root as usize) {
            None => false,
            Some(variable) => {
                variable.block == self.enclosing.block
                    && matches!(variable.kind, VariableKind::Local)
            }
        }
    }

    /// The statement of a for begins, of this control variable.
    #[tactic(auto, unfolding(crate::specs::Steps::begin_control))]
    pub fn begin_control(&mut self, root: u32) -> Made<()>
        ensures { TypingTakes (spec.begin_control root self.old) result self.new }
    {
        self.controls.push(root)?;
        Ok(())
    }

    /// It ends.
    #[tactic(auto, unfolding(crate::specs::Steps::end_control))]
    pub fn end_control(&mut self)
        ensures { spec.end_control self.old ≡ Ok (after tt [] self.new) }
    {
        let _ = self.controls.pop();
    }

    /// Begins the region of the required identifiers, which stands round the program (6.2.2.10).
    #[tactic(auto, unfolding(crate::specs::Steps::open_required, crate::specs::Names::required_region))]
    pub fn open_required(&mut self) -> Made<()>
        ensures { TypingTakes (spec.open_required self.old) result self.new }
    {
        self.scopes.open_defined(self.alloc, &REQUIRED)?;
        Ok(())
    }

    /// Begins the region of a block that defines these names, which are in small letters.
    #[tactic(auto, unfolding(crate::specs::Steps::open_block))]
    pub fn open_block(&mut self, names: &[Vec<u8>]) -> Made<()>
        ensures { TypingTakes (spec.open_block (map (λ name. name.items) names.now) self.old) result self.new }
    {
        self.scopes.open(self.alloc, names)?;
        Ok(())
    }

    /// The innermost region ends.
    #[tactic(auto, unfolding(crate::specs::Steps::close_block))]
    pub fn close_block(&mut self) -> Region
        ensures { spec.close_block self.old ≡ Ok (after (region_of result) [] self.new) }
    {
        self.scopes.close(self.alloc)
    }

    /// Passes the definition of a name of the innermost block.
    #[tactic(auto, unfolding(crate::specs::Steps::declare))]
    pub fn declare(&mut self, name: &Name, denotation: Denotation) -> Made<()>
        requires known { Knows self.old.regions (folded name.now.text.now) }
        ensures { TypingTakes (spec.declare name.now denotation self.old) result self.new }
    {
        let key = folded(self.alloc, name.text)?;
        placed(self.scopes.declare(key, denotation), name.place)
    }

    /// A file is a program parameter.
    #[tactic(auto, unfolding(crate::specs::Steps::give_file))]
    pub fn give_file(&mut self, file: File)
        ensures { spec.give_file file self.old ≡ Ok (after tt [] self.new) }
    {
        match file {
            File::Input => self.has_input = true,
            File::Output => self.has_output = true,
        }
    }

    /// What uses a file needs it as a program parameter; K8 at the place where it is none.
    #[tactic(auto, unfolding(crate::specs::Steps::wants_file))]
    pub fn wants_file(&self, file: File, place: Place) -> Made<()>
        ensures { Tells (spec.wants_file file place self.now) result self.now }
    {
        let given = match file {
            File::Input => self.has_input,
            File::Output => self.has_output,
        };
        if !given {
            return Err(TypeFault::NotProgramParameter(place));
        }
        Ok(())
    }
}
