ghost use Rattle.std.specs.Prelude.{◌≡◌, [], map};
ghost use Rattle.checker_rows.specs.Limits.{row_limits};
ghost use Rattle.checker_rows.specs.Rows.{rows_of};
ghost use Rattle.checker_state.specs.Loops.{after_turns, all_forgotten, gives_all, head, replaced, with_claim};
ghost use Rattle.checker_state.specs.Loops.{with_claims, with_forgotten, with_limits, with_undefined};
ghost use Rattle.checker_state.specs.State.{state_gives, with_more};
ghost use Rattle.checker_trail.specs.Trail.{Moves, over_held, seen};
ghost use Rattle.checker_state.specs.View.{said_claim, said_form};
ghost use Rattle.checker_state.specs.State.{table_of};

use crate::State;
use checker_state::{Bound, Claim, Rebinding};
use domain::{Domain, Interval};

impl<'a> State<'a> {
    /// What is known at the head of a loop: what any number of turns leaves, and the claims of a certificate.
    pub fn head(&mut self, roots: &[u32], rows: &[usize], controls: &[u32], claims: &[Claim])
        ensures { Moves (head (row_limits (rows_of self.old.table.now)) roots.now rows.now controls.now
            (map said_claim claims.now)) self.old self.new }
    {
        self.turn(roots, rows, controls);
        self.claim_all(claims);
    }

    /// What is known after turns that give variables other values, which have these rows, and that leave control
    /// variables undefined.
    pub fn turn(&mut self, roots: &[u32], rows: &[usize], controls: &[u32])
        ensures { Moves (after_turns (row_limits (rows_of self.old.table.now)) roots.now rows.now controls.now)
            self.old self.new }
    {
        self.change_all(roots);
        self.touch_all(rows);
        self.forget_all(controls);
    }

    /// The components of rows may have other values of their types.
    pub fn touch_all(&mut self, rows: &[usize])
        ensures { Moves (with_limits (row_limits (rows_of self.old.table.now)) rows.now) self.old self.new }
    {
        for row in rows {
            self.set_range(*row, self.table.row_limits(*row));
        }
    }

    /// Variables may be undefined.
    pub fn forget_all(&mut self, roots: &[u32])
        ensures { Moves (all_forgotten roots.now) self.old self.new }
    {
        for root in roots {
            self.forget(*root);
        }
    }

    /// A variable may be undefined.
    pub fn forget(&mut self, root: u32)
        ensures { Moves (with_forgotten root) self.old self.new }
    {
        let mut known = self.known.row(root as usize);
        known.is_defined = false;
        self.set_row(root as usize, known);
    }

    /// A claim is known: a range beside that which is known.
    pub fn claim(&mut self, claim: &Claim)
        ensures { Moves (with_claim (said_claim claim.now)) self.old self.new }
    {
        match claim {
            Claim::Range { row, range } => {
                let both = self.row_range(*row).meet(range);
                self.set_range(*row, both);
            }
            Claim::Defined { row } => self.define(*row),
            Claim::Holds(held) => self.hold(*held),
        }
    }

    /// Claims are known, one after another.
    pub fn claim_all(&mut self, claims: &[Claim])
        ensures { Moves (with_claims (map said_claim claims.now)) self.old self.new }
    {
        for claim in claims {
            self.claim(claim);
        }
    }

    /// Whether a claim is given; a dead state gives each.
    pub fn gives(&self, claim: &Claim) -> bool
        ensures { result ≡ state_gives (table_of self.now.table.now) (seen self.now) (said_claim claim.now) }
    {
        self.known.is_dead || self.known.gives_claim(self.table, claim)
    }

    /// Whether each of some claims is.
    pub fn gives_all(&self, claims: &[Claim]) -> bool
        ensures { result ≡ gives_all (table_of self.now.table.now) (seen self.now) (map said_claim claims.now) }
    {
        for claim in claims {
            if !self.gives(claim) {
                return false;
            }
        }
        true
    }

    /// What is known of a variable is known of its bound in its place, if it has one.
    pub fn replace_root(&mut self, root: u32, own: Option<Bound>)
        ensures { Moves (replaced root (said_form own)) self.old self.new }
    {
        let Some(own) = own else {
            return;
        };
        self.rebind(Rebinding::InPlace { root, own });
        self.order_anew();
    }

    // What is held stands in its order from here on.
    fn order_anew(&mut self)
        ensures { Moves (over_held (λ held. with_more held [])) self.old self.new }
    {
        if self.known.disorder == 0 {
            return;
        }
        match Vec::from_slice(self.alloc, &self.known.held) {
            Ok(held) => {
                self.retain_none();
                self.hold_all(&held);
            }
            Err(error) => self.run_short(error.into()),
        }
    }

    // Nothing is held any longer.
    fn retain_none(&mut self)
        ensures { Moves (over_held (λ held. [])) self.old self.new }
    {
        for place in (0..self.known.held.len()).rev() {
            self.remove(place);
        }
    }

    /// A variable is undefined from here on.
    pub fn undefine(&mut self, root: u32)
        ensures { Moves (with_undefined root) self.old self.new }
    {
        self.change(root, None);
        self.set_range(root as usize, Interval::EMPTY);
        self.forget(root);
    }
}
