ghost use Rattle.std.specs.Prelude.{◌≡◌, Some, map, slice_set};
ghost use Rattle.std.specs.List.{filter_map, remove};
ghost use Rattle.checker_state.specs.Changes.{all_changed, assigned, with_change, with_equal, with_equal_to, with_some};
ghost use Rattle.checker_state.specs.State.{with_more};
ghost use Rattle.checker_known.specs.Longer.{without};
ghost use Rattle.checker_trail.specs.Trail.{Moves, over_held};
ghost use Rattle.checker_known.specs.Knowledge.{changed_at, kept_by};
ghost use Rattle.checker_known.specs.Resting.{AreChanging};
ghost use Rattle.checker_state.specs.View.{held_by, said_form, said_held, said_ordered};

use crate::State;
use checker_known::Change;
use checker_state::{Bound, Held, Order, Rebinding};
use domain::Interval;

impl<'a> State<'a> {
    /// A variable has a value of a range from here on, perhaps of a bound form, and perhaps the one that it had plus a
    /// number of a step.
    pub fn assign(
        &mut self,
        root: u32,
        range: Interval,
        form: Option<Bound>,
        step: Option<Interval>,
    )
        ensures { Moves (assigned root range (said_form form) step) self.old self.new }
    {
        let growth = self.stepped_growth(root, step);
        self.change(root, form);
        self.set_range(root as usize, range);
        self.define(root as usize);
        self.equate(root, form);
        self.go_on_growing(root, growth);
    }

    /// A variable got a value, perhaps of a bound form.
    pub fn change(&mut self, root: u32, form: Option<Bound>)
        ensures { Moves (with_change root (said_form form)) self.old self.new }
    {
        self.set_growth(root as usize, None);
        self.rebind(Rebinding::Changed { root, form });
    }

    /// Several variables may have other values.
    pub fn change_all(&mut self, roots: &[u32])
        ensures { Moves (all_changed roots.now) self.old self.new }
    {
        for root in roots {
            self.change(*root, None);
        }
    }

    // A variable is another plus a number, if it got a value of such a form.
    fn equate(&mut self, root: u32, form: Option<Bound>)
        ensures { Moves (with_equal root (said_form form)) self.old self.new }
    {
        if let Some(form) = form {
            self.equate_to(root, form);
        }
    }

    fn equate_to(&mut self, root: u32, form: Bound)
        ensures { Moves (with_equal_to root form.root form.number) self.old self.new }
    {
        let Some(other) = form.root else {
            return;
        };
        if root == other {
            return;
        }
        let number = i64::from(form.number);
        self.order(Order::new(root, other, number));
        self.order(Order::new(other, root, -number));
    }

    /// Two variables are in an order, if there is one.
    pub fn order(&mut self, order: Option<Order>)
        ensures { Moves (with_some (said_ordered order)) self.old self.new }
    {
        if let Some(order) = order {
            self.hold(order.held());
        }
    }

    /// Something more is held, unless it is already.
    pub fn hold(&mut self, held: Held)
        ensures { Moves (with_some (Some (said_held held))) self.old self.new }
    {
        if self.known.is_dead {
            return;
        }
        if let Some(place) = self.known.place(&held) {
            self.make(&Change::Inserted { place, held });
        }
    }

    /// More is held, one after another.
    pub fn hold_all(&mut self, more: &[Held])
        ensures { Moves (over_held (with_more (map said_held more.now))) self.old self.new }
    {
        for held in more {
            self.hold(*held);
        }
    }

    /// What becomes of what is held: what may change stands at some places, where they are known.
    pub(crate) fn rebind(&mut self, how: Rebinding)
        ensures { Moves (over_held (filter_map (held_by how))) self.old self.new }
    {
        match self.known.changing(self.alloc, how) {
            Err(error) => self.run_short(error.into()),
            Ok(None) => self.rebind_all(how),
            Ok(Some(places)) => self.rebind_each(&places, how),
        }
    }

    // The same, where what may change may stand anywhere.
    fn rebind_all(&mut self, how: Rebinding)
        ensures { Moves (over_held (filter_map (held_by how))) self.old self.new }
    {
        for place in (0..self.known.held.len()).rev() {
            self.rebind_at(place, how);
        }
    }

    // The same, where it stands at places.
    fn rebind_each(&mut self, places: &[usize], how: Rebinding)
        requires { AreChanging how (map said_held self.old.known.held.items) places.now }
        ensures { Moves (over_held (filter_map (held_by how))) self.old self.new }
    {
        for i in (0..places.len()).rev() {
            self.rebind_at(places[i], how);
        }
    }

    // What becomes of what stands at a place.
    fn rebind_at(&mut self, place: usize, how: Rebinding)
        ensures { Moves (over_held (changed_at (held_by how) place)) self.old self.new }
    {
        if place >= self.known.held.len() {
            return;
        }
        match self.known.held[place].by(how) {
            None => self.remove(place),
            Some(now) => self.replace(place, now),
        }
    }

    // Something else is held at a place, unless it is the same.
    fn replace(&mut self, place: usize, now: Held)
        ensures { Moves (over_held (λ held. slice_set held place (said_held now))) self.old self.new }
    {
        if self.known.is_dead {
            return;
        }
        if place >= self.known.held.len() {
            return;
        }
        let was = self.known.held[place];
        if now.is_same(&was) {
            return;
        }
        self.make(&Change::Replaced { place, was, now });
    }

    /// Those of what is held that stand where this says so, and those behind.
    pub fn retain(&mut self, kept: &[bool])
        ensures { Moves (over_held (kept_by kept.now)) self.old self.new }
    {
        for place in (0..kept.len()).rev() {
            if !kept[place] {
                self.remove(place);
            }
        }
    }

    /// What stands at places is held no longer.
    pub(crate) fn remove_all(&mut self, places: &[usize])
        ensures { Moves (over_held (without places.now)) self.old self.new }
    {
        for i in (0..places.len()).rev() {
            self.remove(places[i]);
        }
    }

    // What stands at a place is held no longer.
    pub(crate) fn remove(&mut self, place: usize)
        ensures { Moves (over_held (λ held. remove held place)) self.old self.new }
    {
        if self.known.is_dead {
            return;
        }
        if place >= self.known.held.len() {
            return;
        }
        let held = self.known.held[place];
        self.make(&Change::Removed { place, held });
    }
}
