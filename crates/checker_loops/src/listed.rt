ghost use Rattle.std.specs.Prelude.{◌≡◌, [], IfOk};
ghost use Rattle.checker_state.specs.Loops.{is_among};
ghost use Rattle.checker_loops.specs.Listed.{AreSame, Ascends};

use std::alloc::{AllocError, Global};
use std::marker::Model;

/// Root numbers, each of which is found by halves.
#[derive(Clone, Copy)]
pub struct Roots<'a> {
    /// As they are listed.
    pub listed: &'a [u32],
    sorted: &'a [u32],
    ghost same: { AreSame listed.now sorted.now },
    ghost ascends: { Ascends sorted.now },
}

impl<'a> Roots<'a> {
    /// None.
    pub fn none() -> Roots<'a>
        ensures { result.listed.now ≡ [] }
    {
        Roots {
            listed: &[],
            sorted: &[],
        }
    }

    /// Whether one is among them.
    pub fn has(&self, root: u32) -> bool
        ensures { result ≡ is_among root self.now.listed.now }
    {
        self.sorted.binary_search(&root).is_ok()
    }
}

/// The variables that a certificate lists as changed, with a copy in ascending order.
#[derive(Drop)]
pub struct Changes<'a> {
    listed: &'a [u32],
    sorted: Vec<u32>,
}

impl<'a> Model for Changes<'a> {
    ghost use Rattle.std.specs.Prelude.{List, ℕ};
    ghost use Rattle.checker_loops.specs.Listed.{AreSame, Ascends};

    ghost Value = { List ℕ };

    ghost view = { λ changes. changes.listed.now };

    ghost invariant = { λ changes. AreSame changes.listed.now changes.sorted.items × Ascends changes.sorted.items };
}

impl<'a> Changes<'a> {
    /// The variables of a list.
    pub fn of(alloc: Global, listed: &'a [u32]) -> Result<Changes<'a>, AllocError>
        ensures { IfOk result (λ changes. changes ≡ listed.now) }
    {
        let mut sorted = Vec::from_slice(alloc, listed)?;
        sorted.sort_unstable();
        Ok(Changes { listed, sorted })
    }

    /// Their root numbers.
    pub fn roots(&self) -> Roots<'_>
        ensures { result.listed.now ≡ self.now }
    {
        Roots {
            listed: self.listed,
            sorted: &self.sorted,
        }
    }
}
