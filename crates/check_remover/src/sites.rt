ghost use Rattle.std.specs.Prelude.{◌≡◌, List, IfOk};
ghost use Rattle.pcode_assembler.specs.declared.code.Site.{Site};
ghost use Rattle.check_remover.specs.Open.{AreFlagsOf};
ghost use Rattle.check_remover.specs.Strip.{is_among, stays};

use pcode_assembler::{Instr, Site};
use std::alloc::{AllocError, Global};
use std::marker::Model;

/// Open sites, found by their ids: at once where the id is below the length of a table, else one by one.
#[derive(Drop)]
pub struct OpenSites<'s> {
    sites: &'s [Site],
    // By id.
    flags: Vec<bool>,
    ghost flagged: { AreFlagsOf sites.now flags.items },
}

impl<'s> Model for OpenSites<'s> {
    ghost Value = { List Site };

    ghost view = { λ s. s.sites.now };
}

impl<'s> OpenSites<'s> {
    /// The sites, where a table has this length.
    pub fn new(alloc: Global, sites: &'s [Site], length: usize) -> Result<OpenSites<'s>, AllocError>
        ensures { IfOk result (λ made. made ≡ sites.now) }
    {
        let flags = flags_of(alloc, sites, length)?;
        Ok(OpenSites { sites, flags })
    }

    /// Whether one of the sites has this id.
    fn has(&self, id: u32) -> bool
        ensures { result ≡ is_among self.now id }
    {
        let place = id as usize;
        if place < self.flags.len() {
            return self.flags[place];
        }
        self.sites.iter().any(|site| site.id == id)
    }

    /// Whether the instruction is no check, or the check of an open site.
    pub fn keep(&self, instr: &Instr) -> bool
        ensures { result ≡ stays (is_among self.now) instr.now }
    {
        match instr.check_site() {
            Some(site) => self.has(site),
            None => true,
        }
    }
}

// For each id below a length, whether one of the sites has it.
fn flags_of(alloc: Global, sites: &[Site], length: usize) -> Result<Vec<bool>, AllocError>
    ensures { IfOk result (λ flags. AreFlagsOf sites.now flags.items) }
{
    let mut flags = vec![in alloc; false; length]?;
    for site in sites {
        let place = site.id as usize;
        if place < flags.len() {
            flags[place] = true;
        }
    }
    Ok(flags)
}
