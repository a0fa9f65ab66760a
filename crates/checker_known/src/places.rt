ghost use Rattle.std.specs.Prelude.{◌≡◌, IfOk, IfSome, map};
ghost use Rattle.checker_state.specs.View.{said_held};
ghost use Rattle.checker_known.specs.Knowledge.{AllGrew, core};
ghost use Rattle.checker_known.specs.Resting.{AreChanging, AreFound, HasAllAt, HaveAll, IsFound, listed};

use crate::{Knowledge, Test, edge};
use checker_state::{Held, Rebinding};
use std::alloc::{AllocError, Global};
use std::cmp::Ordering;

impl Knowledge {
    /// Where what a rebinding may change stands, each place behind the one before. `None`: it may stand anywhere.
    ///
    /// # Errors
    /// No memory.
    pub fn changing(
        &mut self,
        alloc: Global,
        how: Rebinding,
    ) -> Result<Option<Vec<usize>>, AllocError>
        ensures same { core self.new ≡ core self.old }
        ensures places { IfOk result (λ found. IfSome found
            (λ places. AreChanging how (map said_held self.old.held.items) places.items)) }
        ensures told { AllGrew self.new → AllGrew self.old }
    {
        if self.disorder > 0 || !self.resting.is_whole {
            return Ok(None);
        }
        let root = how.root() as usize;
        if root >= self.resting.lists.len() {
            return Ok(None);
        }
        let places = self.places_of(alloc, &self.resting.lists[root])?;
        if places.len() < self.resting.lists[root].len() {
            self.relist(alloc, root, &places)?;
        }
        Ok(Some(places))
    }

    // Where those of a list are held, each place behind the one before.
    fn places_of(&self, alloc: Global, list: &[Held]) -> Result<Vec<usize>, AllocError>
        requires { self.now.disorder ≡ 0 }
        ensures { IfOk result (λ places.
            HaveAll (map said_held list.now) (map said_held self.now.held.items) places.items) }
    {
        let mut places = self.found_places(alloc, list)?;
        places.sort_unstable();
        places.dedup();
        Ok(places)
    }

    // The place of each one of a list that is held.
    fn found_places(&self, alloc: Global, list: &[Held]) -> Result<Vec<usize>, AllocError>
        requires { self.now.disorder ≡ 0 }
        ensures { IfOk result (λ places.
            AreFound (map said_held list.now) (map said_held self.now.held.items) places.items) }
    {
        let mut places = Vec::new(alloc);
        for one in list {
            let Some(place) = self.found(one) else {
                continue;
            };
            places.push(place)?;
        }
        Ok(places)
    }

    // Where something is held, by halves. `None`: it is not.
    fn found(&self, one: &Held) -> Option<usize>
        requires { self.now.disorder ≡ 0 }
        ensures { IsFound (said_held one.now) (map said_held self.now.held.items) result }
    {
        let place = edge(&self.held, Test::Below(*one), 0, self.held.len());
        if place >= self.held.len() {
            return None;
        }
        match one.compare(&self.held[place]) {
            Ordering::Equal => Some(place),
            _ => None,
        }
    }

    // Lists by a variable what stands at places alone.
    fn relist(&mut self, alloc: Global, root: usize, places: &[usize]) -> Result<(), AllocError>
        requires { HaveAll (listed self.old.resting.lists.items root) (map said_held self.old.held.items) places.now }
        ensures same { core self.new ≡ core self.old }
        ensures told { AllGrew self.new → AllGrew self.old }
    {
        let list = self.held_at(alloc, places)?;
        if let Some(found) = self.resting.lists.get_mut(root) {
            *found = list;
        }
        Ok(())
    }

    // What is held at places.
    fn held_at(&self, alloc: Global, places: &[usize]) -> Result<Vec<Held>, AllocError>
        ensures { IfOk result (λ list.
            HasAllAt places.now (map said_held self.now.held.items) (map said_held list.items)) }
    {
        let mut list = Vec::new(alloc);
        for place in places {
            let Some(one) = self.held.get(*place) else {
                continue;
            };
            list.push(*one)?;
        }
        Ok(list)
    }
}
