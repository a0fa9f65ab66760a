ghost use Rattle.std.specs.Prelude.{◌≡◌, ◌<◌, IfOk, None, OnOk, length, map, nat_eq, true};
ghost use Rattle.checker_state.specs.Changes.{bound_rests_on, span_rests_on};
ghost use Rattle.checker_state.specs.View.{said_bound, said_held, said_span};
ghost use Rattle.checker_known.specs.Resting.{Lists, ListsMore, Puts};

use checker_state::{Bound, Held, Span};
use memory::Refused;
use std::alloc::{AllocError, AllocFailed, Global};

/// What is held, by the number of each variable on whose value it rests. A list may have what is held no longer, and
/// the same twice.
#[derive(Drop)]
pub struct Resting {
    /// Each in the order in which it came to be held.
    pub(crate) lists: Vec<Vec<Held>>,
    /// `false`: something that is held may be in no list.
    pub(crate) is_whole: bool,
    /// That a list couldn't grow.
    pub(crate) refused: Option<Refused>,
}

impl Resting {
    /// Lists for no variable.
    pub fn none(alloc: Global) -> Resting
        ensures { length result.lists.items ≡ 0 }
    {
        Resting {
            lists: Vec::new(alloc),
            is_whole: true,
            refused: None,
        }
    }

    /// A list for each variable, of which there are so many.
    pub(crate) fn of(alloc: Global, variables: usize) -> Result<Resting, AllocError>
        ensures { IfOk result (λ resting. length resting.lists.items ≡ variables) }
    {
        let mut lists = Vec::new(alloc);
        for _variable in 0..variables {
            lists.push(Vec::new(alloc))?;
        }
        Ok(Resting {
            lists,
            is_whole: true,
            refused: None,
        })
    }

    /// Lists what is held from here on.
    pub(crate) fn list(&mut self, held: &Held)
        ensures lists { self.new.is_whole ≡ true → ListsMore (said_held held.now) self.old self.new }
        ensures told { self.new.refused ≡ None → self.old.refused ≡ None }
    {
        if !held.is_settled() {
            self.is_whole = false;
            return;
        }
        let (span, inner) = held.ends();
        self.list_span(span, held);
        if let Some(inner) = inner {
            self.list_span(inner, held);
        }
    }

    /// Whether no list was refused its growth.
    pub(crate) fn end(&self) -> Result<(), AllocError>
        ensures { OnOk result (self.now.refused ≡ None) }
    {
        match self.refused {
            Some(refused) => Err(refused.into()),
            None => Ok(()),
        }
    }

    fn list_span(&mut self, span: Span, held: &Held)
        ensures lists { self.new.is_whole ≡ true → Lists (λ root. span_rests_on root (said_span span))
            (said_held held.now) self.old self.new }
        ensures told { self.new.refused ≡ None → self.old.refused ≡ None }
    {
        self.list_bound(span.first, held);
        self.list_bound(span.last, held);
    }

    fn list_bound(&mut self, bound: Bound, held: &Held)
        ensures lists { self.new.is_whole ≡ true → Lists (λ root. bound_rests_on root (said_bound bound))
            (said_held held.now) self.old self.new }
        ensures told { self.new.refused ≡ None → self.old.refused ≡ None }
    {
        if let Some(root) = bound.root {
            self.list_at(root, held);
        }
    }

    // Lists something by a variable. If that has a list and this isn't refused its growth, nothing is left out.
    fn list_at(&mut self, root: u32, held: &Held)
        ensures lists { self.new.is_whole ≡ true → Lists (λ other. nat_eq other root) (said_held held.now)
            self.old self.new }
        ensures told { self.new.refused ≡ None → self.old.refused ≡ None }
        ensures grown { self.new.refused ≡ None → root < length self.old.lists.items
            → self.new.is_whole ≡ self.old.is_whole }
    {
        match self.lists.get_mut(root as usize) {
            None => self.is_whole = false,
            Some(list) => match put(list, held) {
                Ok(()) => {}
                Err(error) => {
                    self.is_whole = false;
                    self.refused = Some(error.into());
                }
            },
        }
    }
}

// Puts something behind a list, unless it is its last.
fn put(list: &mut Vec<Held>, held: &Held) -> Result<(), AllocFailed<Held>>
    ensures { OnOk result (Puts (said_held held.now) (map said_held list.old.items) (map said_held list.new.items)) }
{
    match list.last() {
        Some(last) if last.is_same(held) => Ok(()),
        _ => list.push(*held),
    }
}
