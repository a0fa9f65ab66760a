ghost use Rattle.std.specs.Prelude.{◌≡◌, IfOk, OnOk, option_map, slice_get};
ghost use Rattle.types.specs.Components.{components_of};
ghost use Rattle.meaning.specs.Store.{Store, forgotten, held, kept};
ghost use Rattle.typed_tree.specs.Accesses.{origin_of};
ghost use Rattle.interpreter_state.specs.Views.{place_of, place_seen, start_of, visible_in};
ghost use Rattle.interpreter.specs.Pending.{StoreAgrees, held_all, items_of, kept_all};

use crate::interpreter::Run;
use interpreter_state::{Place, Placed, component as component_of};
use meaning::Value;
use std::alloc::AllocError;
use typed_tree::Access;
use types::TypeId;

// The variables and their components.
impl Run<'_, '_> {
    // Where a variable lies, if it is visible.
    pub(crate) fn place(&self, root: u32) -> Placed
        ensures { IfOk result (λ place. option_map place_seen place
            ≡ place_of (visible_in self.now.activation) root (slice_get self.now.tree.now.variables.items root)) }
    {
        self.activation
            .place(self.alloc, &self.tree.variables, root)
    }

    // The place at which an access begins, if there is one.
    pub(crate) fn start(&self, access: &Access) -> Placed
        ensures { IfOk result (λ place. option_map place_seen place
            ≡ start_of self.now.activation self.now.tree.now.variables.items (origin_of access.now)) }
    {
        self.activation
            .start(self.alloc, &self.tree.variables, access)
    }

    // What a place holds, if there is one and it is defined.
    pub(crate) fn found(&self, place: &Option<Place>) -> Option<Value>
        ensures { (s : Store) → StoreAgrees self.now.store s → result ≡ held s (option_map place_seen place.now) }
    {
        match place {
            Some(place) => self.store.get(place).copied(),
            None => None,
        }
    }

    // Keeps a value at a place, if there is one.
    pub(crate) fn keep(&mut self, place: Option<Place>, value: Value) -> Result<(), AllocError>
        ensures same { self.new ≡ record self.old { store = self.new.store } }
        ensures agrees { OnOk result ((s : Store) → StoreAgrees self.old.store s
            → StoreAgrees self.new.store (kept s (option_map place_seen place) value)) }
    {
        if let Some(place) = place {
            self.store.insert(place, value)?;
        }
        Ok(())
    }

    // Makes a place undefined, if there is one.
    pub(crate) fn lose(&mut self, place: &Option<Place>)
        ensures same { self.new ≡ record self.old { store = self.new.store } }
        ensures agrees { (s : Store) → StoreAgrees self.old.store s
            → StoreAgrees self.new.store (forgotten s (option_map place_seen place.now)) }
    {
        if let Some(place) = place {
            self.store.remove(place);
        }
    }

    // The values of the components of a place, if all of them are defined.
    pub(crate) fn row(
        &self,
        place: &Option<Place>,
        type_id: TypeId,
    ) -> Result<Option<Vec<Value>>, AllocError>
        ensures { IfOk result (λ row. (s : Store) → StoreAgrees self.now.store s → option_map items_of row
            ≡ held_all s (option_map place_seen place.now) (components_of self.now.tree.now.types type_id)) }
    {
        let mut row = Vec::new(self.alloc);
        for component in 0..self.tree.types.cells(type_id) {
            let part = component_of(self.alloc, &self.tree.types, place, type_id, component)?;
            match self.found(&part) {
                Some(value) => row.push(value)?,
                None => return Ok(None),
            }
        }
        Ok(Some(row))
    }

    // Keeps values at the components of a place, if there is one.
    pub(crate) fn keep_row(
        &mut self,
        place: &Option<Place>,
        type_id: TypeId,
        row: &[Value],
    ) -> Result<(), AllocError>
        ensures same { self.new ≡ record self.old { store = self.new.store } }
        ensures agrees { OnOk result ((s : Store) → StoreAgrees self.old.store s → StoreAgrees self.new.store
            (kept_all s (option_map place_seen place.now) (components_of self.old.tree.now.types type_id) row.now)) }
    {
        for component in 0..self.tree.types.cells(type_id) {
            let Some(value) = row.get(component as usize) else {
                break;
            };
            let part = component_of(self.alloc, &self.tree.types, place, type_id, component)?;
            self.keep(part, *value)?;
        }
        Ok(())
    }
}
