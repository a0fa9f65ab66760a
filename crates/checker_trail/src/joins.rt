ghost use Rattle.std.specs.Prelude.{◌≡◌, ℕ, List, false, length};
ghost use Rattle.checker_trail.specs.declared.state.State.{State as Kept};
ghost use Rattle.checker_state.specs.Joins.{joined_states};
ghost use Rattle.checker_state.specs.State.{table_of};
ghost use Rattle.checker_trail.specs.Meets.{AreAlike, Joins, JoinsBehind, with_rows};
ghost use Rattle.checker_known.specs.Told.{AreTold};
ghost use Rattle.checker_known.specs.Knowledge.{Core, core, seen_core};
ghost use Rattle.checker_trail.specs.Trail.{EndsAt, TrailGoes, Moves};

use crate::{Mark, State};
use checker_known::{Branch, Row, Told};

impl<'a> State<'a> {
    /// What is known where the way since a mark meets a branch that began there.
    pub fn join(&mut self, mark: Mark, other: &Branch)
        ensures long { self.new.refused ≡ None → self.old.refused ≡ None }
        ensures meets { (start : Kept) (end : Core) → mark.length ≡ length start.trail.items
            → TrailGoes start self.old → EndsAt (core start.known) other.now end → Joins start end self.old self.new }
    {
        self.come_together(mark, other);
        self.shorten(mark);
    }

    /// What is known where the way since a mark meets a branch that began there and was walked before it.
    pub fn join_behind(&mut self, mark: Mark, first: &Branch)
        ensures long { self.new.refused ≡ None → self.old.refused ≡ None }
        ensures meets { (start : Kept) (end : Core) → mark.length ≡ length start.trail.items
            → TrailGoes start self.old → EndsAt (core start.known) first.now end
            → JoinsBehind start end self.old self.new }
    {
        let here = self.leave(mark);
        self.go(first);
        self.join(mark, &here);
    }

    // The same, on a way that may go over all that both did.
    fn come_together(&mut self, mark: Mark, other: &Branch)
        ensures long { self.new.refused ≡ None → self.old.refused ≡ None }
        ensures meets { (start : Kept) (end : Core) → mark.length ≡ length start.trail.items
            → TrailGoes start self.old → EndsAt (core start.known) other.now end → Joins start end self.old self.new }
    {
        if other.is_dead {
            return;
        }
        if self.known.is_dead {
            let _dead = self.leave(mark);
            return self.go(other);
        }
        self.meet(mark, other);
    }

    // The same where runs come to the ends of both.
    fn meet(&mut self, mark: Mark, other: &Branch)
        ensures long { self.new.refused ≡ None → self.old.refused ≡ None }
        ensures meets { (start : Kept) (end : Core) → mark.length ≡ length start.trail.items
            → TrailGoes start self.old → EndsAt (core start.known) other.now end → self.old.known.is_dead ≡ false
            → end.is_dead ≡ false → Joins start end self.old self.new }
    {
        let asked = match self.known.asked(self.alloc) {
            Ok(asked) => asked,
            Err(error) => return self.run_short(error.into()),
        };
        let here = self.leave(mark);
        self.go(other);
        let told = match self
            .known
            .tell(self.alloc, self.table, &asked, &here, other)
        {
            Ok(told) => told,
            Err(error) => return self.run_short(error.into()),
        };
        let _there = self.leave(mark);
        self.go(&here);
        self.settle(&told);
    }

    // What is known here and at the end of another way, which tells of what is held here.
    fn settle(&mut self, told: &Told)
        ensures long { self.new.refused ≡ None → self.old.refused ≡ None }
        ensures meets { (there : Core) (rows : List ℕ) → self.old.known.is_dead ≡ false → there.is_dead ≡ false
            → AreTold (table_of self.old.table.now) there self.old.known.held.items rows told.now
            → AreAlike rows (core self.old.known) there
            → Moves (λ state. joined_states (table_of self.old.table.now) state (seen_core there))
            self.old self.new }
    {
        let more = match self.known.given(self.alloc, self.table, &told.held) {
            Ok(more) => more,
            Err(error) => return self.run_short(error.into()),
        };
        let rows = match self.known.joined(self.alloc, self.table, &told.rows) {
            Ok(rows) => rows,
            Err(error) => return self.run_short(error.into()),
        };
        self.retain(&told.kept);
        self.hold_all(&more);
        self.set_rows(&rows);
    }

    /// Something else is known of rows.
    pub(crate) fn set_rows(&mut self, rows: &[(usize, Row)])
        ensures { Moves (with_rows rows.now) self.old self.new }
    {
        for (row, known) in rows {
            self.set_row(*row, *known);
        }
    }
}
