ghost use Rattle.std.specs.Prelude.{◌≡◌, ◌++◌, ◌∷◌, IfOk};
ghost use Rattle.typed_tree.specs.Accesses.{origin_of};
ghost use Rattle.typed_tree.specs.Entries.{access_entries, entries_of_expression, index_entries, whole_entries};
ghost use Rattle.checker_state.specs.View.{said_form, said_reach};
ghost use Rattle.checker_expressions.specs.Visits.{all_counted};
ghost use Rattle.cert_checker.specs.Steps.{noted_where};
ghost use Rattle.cert_checker.specs.StepsView.{said_valued};
ghost use Rattle.cert_checker.specs.StoresView.{said_stores};
ghost use Rattle.cert_checker.specs.View.{WalkGoes, context_of};
ghost use Rattle.cert_checker.specs.Walk.{aliases_here, assign, assign_component, assign_to, assign_value};
ghost use Rattle.cert_checker.specs.Walk.{assignment_walk};
ghost use Rattle.cert_checker.specs.Walk.{change, copy_to, copying_walk, from_entry, is_whole_variable, store_to};
ghost use Rattle.cert_checker.specs.Walk.{stores_made};

use crate::increments::{Valued, value_step};
use crate::stores::{Stores, assign};
use crate::walk::Walk;
use checker_expressions::noting::Noted;
use checker_expressions::{Count, Rule};
use checker_state::{Bound, Known, Reach, bound_form};
use domain::{Extension, Interval};
use place::Place;
use std::alloc::AllocError;
use std::slice;
use typed_tree::{Access, Assignment, Base, Copying, Expr};

// What statements store to variables and to components.
impl<'a> Walk<'a> {
    /// The value has to lie in the range of the target's type.
    pub(crate) fn assignment<C: Count>(&mut self, assignment: &Assignment, visits: &mut C)
        ensures goes { WalkGoes (from_entry assignment.now.number (assignment_walk assignment.now)) self.old self.new
            tt }
        ensures counts { visits.new ≡ all_counted C.counted (assignment.now.number
            ∷ (access_entries assignment.now.target (index_entries assignment.now.indexes.items)
            ++ entries_of_expression assignment.now.value)) visits.old }
    {
        visits.tick(assignment.number);
        let target = &assignment.target;
        let reach = self.access(target, &assignment.indexes, visits);
        let valued = self.noted_where(Extension::Growths, &assignment.value, visits);
        let passed = self.flow.fitting(assignment.fits, valued.known);
        let later = slice::from_ref(&assignment.value);
        let reach = self.reach_stored(&target.selectors, later, reach);
        self.assign_value(assignment, reach, &valued.notes, passed);
    }

    /// A value: its operands are noted where certificates have an extension.
    pub(crate) fn noted_where<C: Count>(
        &mut self,
        extension: Extension,
        value: &Expr,
        visits: &mut C,
    ) -> Valued
        ensures goes { WalkGoes (noted_where extension value.now) self.old self.new (said_valued result) }
        ensures counts { visits.new ≡ all_counted C.counted (entries_of_expression value.now) visits.old }
    {
        let mut notes = Vec::new(self.flow.state.alloc());
        if self.flow.grounds.version.has(extension) {
            let known = self.flow.noting(value, &mut notes, visits);
            Valued { known, notes }
        } else {
            let known = self.flow.expression(value, visits);
            Valued { known, notes }
        }
    }

    /// An assignment of a whole value.
    pub(crate) fn copying<C: Count>(&mut self, copying: &Copying, visits: &mut C)
        ensures goes { WalkGoes (from_entry copying.now.number (copying_walk copying.now)) self.old self.new tt }
        ensures counts { visits.new ≡ all_counted C.counted (copying.now.number
            ∷ (access_entries copying.now.target (index_entries copying.now.indexes.items)
            ++ whole_entries copying.now.value (index_entries copying.now.value_indexes.items))) visits.old }
    {
        visits.tick(copying.number);
        let reach = self.access(&copying.target, &copying.indexes, visits);
        let ranges = self.whole_value(&copying.value, &copying.value_indexes, visits);
        let later = copying.value_indexes.as_slice();
        let reach = self.reach_stored(&copying.target.selectors, later, reach);
        self.copy_to(copying, reach, &ranges);
    }

    /// What is accessed gets the value of an expression, of which this was noted.
    fn assign_value(
        &mut self,
        assignment: &Assignment,
        reach: Reach,
        notes: &[Noted],
        passed: Known,
    )
        ensures { WalkGoes (assign_value assignment.now (said_reach reach) notes.now passed) self.old self.new tt }
    {
        let rows = self.flow.state.table();
        let form = bound_form(self.flow.grounds.version, rows, &assignment.value);
        let step = value_step(rows, assignment.target.root, &assignment.value, notes);
        self.assign_to(
            assignment.becomes,
            &assignment.target,
            reach,
            passed.range(),
            form,
            step,
        );
    }

    /// What is accessed gets a value of a range, perhaps of a bound form, and perhaps by a step.
    pub(crate) fn assign_to(
        &mut self,
        place: Place,
        target: &Access,
        reach: Reach,
        range: Interval,
        form: Option<Bound>,
        step: Option<Interval>,
    )
        ensures { WalkGoes (assign_to place (origin_of target.now) target.now.selectors.items (said_reach reach)
            (said_form form) step range) self.old self.new tt }
    {
        if is_whole_variable(target) {
            self.change(place, target.root);
            self.assigned(target.root, range, form, step);
        } else {
            self.assign_component(place, target, reach, range);
        }
    }

    /// A component gets a value.
    fn assign_component(&mut self, place: Place, target: &Access, reach: Reach, range: Interval)
        ensures { WalkGoes (assign_component place (origin_of target.now) target.now.selectors.items
            (said_reach reach) range) self.old self.new tt }
    {
        let rows = self.flow.state.table().accessed(target);
        let stores = Stores::Alike { rows, range };
        self.store_to(place, target.root, reach, &stores);
    }

    /// Components of these ranges are copied to what is accessed.
    fn copy_to(&mut self, copying: &Copying, reach: Reach, ranges: &[Interval])
        ensures { WalkGoes (copy_to copying.now.becomes (origin_of copying.now.target)
            copying.now.target.selectors.items (said_reach reach) ranges.now) self.old self.new tt }
    {
        let target = &copying.target;
        let rows = self.flow.state.table().accessed(target);
        let stores = Stores::Paired { rows, ranges };
        self.store_to(copying.becomes, target.root, reach, &stores);
    }

    /// Values are stored to what is reached of a variable.
    fn store_to(&mut self, place: Place, root: u32, reach: Reach, stores: &Stores)
        ensures { WalkGoes (store_to place root (said_reach reach) (said_stores stores.now)) self.old self.new tt }
    {
        self.change(place, root);
        self.store(root, reach, stores);
    }

    /// A variable is changed: each loop round the walk has to list it, and the block, if need be.
    fn change(&mut self, place: Place, root: u32)
        ensures { WalkGoes (change place root) self.old self.new tt }
    {
        let may = self.flow.may_change(root);
        self.flow.ask(may, Rule::Changes, place);
    }

    /// Values are stored to rows, and aliases may have them. What is known of the variables where it is done counts for
    /// each row.
    fn store(&mut self, root: u32, reach: Reach, stores: &Stores)
        ensures { WalkGoes (stores_made root (said_reach reach) (said_stores stores.now)) self.old self.new tt }
    {
        match self.aliases(root) {
            Ok(aliases) => stores.make(&mut self.flow.state, &aliases, reach),
            Err(error) => self.flow.state.run_short(error.into()),
        }
    }

    /// A variable gets a value of a range, perhaps of a bound form, and perhaps by a step; its aliases may have it.
    pub(crate) fn assigned(
        &mut self,
        root: u32,
        range: Interval,
        form: Option<Bound>,
        step: Option<Interval>,
    )
        ensures { WalkGoes (assign root (said_form form) step range) self.old self.new tt }
    {
        match self.aliases(root) {
            Ok(aliases) => assign(&mut self.flow.state, &aliases, root, range, form, step),
            Err(error) => self.flow.state.run_short(error.into()),
        }
    }

    /// The aliases of a variable that are visible in the block.
    fn aliases(&self, root: u32) -> Result<Vec<u32>, AllocError>
        ensures { IfOk result (λ aliases. aliases.items ≡ aliases_here (context_of self.now) root) }
    {
        let grounds = &self.flow.grounds;
        let alloc = self.flow.state.alloc();
        grounds.pairs.aliases_in(alloc, grounds.block, root)
    }
}

/// Whether a variable is accessed as a whole.
fn is_whole_variable(access: &Access) -> bool
    ensures { result ≡ is_whole_variable (origin_of access.now) access.now.selectors.items }
{
    match &access.base {
        Base::Variable => access.selectors.is_empty(),
        Base::Record { path, .. } => path.is_empty() && access.selectors.is_empty(),
    }
}
