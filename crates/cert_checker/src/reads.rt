ghost use Rattle.std.specs.Prelude.{◌≡◌, ◌∷◌, None, false, flat_map, map};
ghost use Rattle.typed_tree.specs.Entries.{entries_of_read};
ghost use Rattle.checker_state.specs.View.{said_reach};
ghost use Rattle.checker_expressions.specs.Visits.{all_counted};
ghost use Rattle.cert_checker.specs.View.{WalkGoes};
ghost use Rattle.cert_checker.specs.Walk.{all_of, from_entry, point_place, read_value, read_walk};

use crate::walk::Walk;
use checker_expressions::Count;
use checker_rows::limits;
use checker_state::Reach;
use place::Place;
use typed_tree::{ReadVariable, Reading, Tree};

// What is read (ISO 7185:1990, 6.9.1, 6.9.2).
impl<'a> Walk<'a> {
    /// A read or readln. That a readln passes a line end changes nothing that is known.
    pub(crate) fn read<C: Count>(&mut self, reading: &Reading, visits: &mut C)
        ensures goes { WalkGoes (from_entry reading.now.number
            (all_of (map (read_walk reading.now.name) reading.now.variables.items))) self.old self.new tt }
        ensures counts { visits.new ≡ all_counted C.counted (reading.now.number
            ∷ flat_map entries_of_read reading.now.variables.items) visits.old }
    {
        visits.tick(reading.number);
        for one in &reading.variables {
            self.read_variable(reading.name, one, visits);
        }
    }

    /// A variable that is read by a procedure whose name stands at a place.
    fn read_variable<C: Count>(&mut self, name: Place, one: &ReadVariable, visits: &mut C)
        ensures goes { WalkGoes (read_walk name one.now) self.old self.new tt }
        ensures counts { visits.new ≡ all_counted C.counted (entries_of_read one.now) visits.old }
    {
        let reach = self.access(&one.access, &one.indexes, visits);
        self.read_value(name, one, reach);
    }

    /// What is accessed gets any value of its type.
    fn read_value(&mut self, name: Place, one: &ReadVariable, reach: Reach)
        ensures { WalkGoes (read_value name one.now (said_reach reach)) self.old self.new tt }
    {
        let place = point_place(self.flow.state.table().tree(), one.point, name);
        let reach = self.reach_stored(&one.access.selectors, &[], reach);
        self.assign_to(place, &one.access, reach, limits(one.range), None, None);
    }
}

/// The place of a point of a program, or else another.
fn point_place(tree: &Tree, number: u32, other: Place) -> Place
    ensures { result ≡ point_place tree.now number other }
{
    match tree.points.get(number as usize) {
        Some(point) => point.place,
        None => other,
    }
}
