ghost use Rattle.std.specs.Prelude.{◌≡◌, ◌⊎◌, ◌∷◌, List, [], Ok, Err, OnOk, OnErr, IfOk, IfErr, IsOk};
ghost use Rattle.std.specs.Prelude.{drop, map, nat_eq, reverse};
ghost use Rattle.std.specs.Cmp.Lexicographic.{pointwise};
ghost use Rattle.std.specs.HashMap.{get_by};
ghost use Rattle.scopes.specs.Scopes.{Region, innermost, is_defined, listing, opened, opened_beside, opened_with};
ghost use Rattle.scopes.specs.Scopes.{outer};
ghost use Rattle.scopes.specs.Scopes.{region_of, said};
ghost use Rattle.memory.specs.Refused.{the_refusal};
ghost use Rattle.scopes.specs.declared.fault.ScopeFault.TheVariants.{Memory};

use crate::{Definition, Denotation, ScopeFault};
use indexmap::IndexMap;
use std::alloc::{AllocError, Global};
use std::marker::Model;

/// A region's names, in lower case, each with what it denotes once its definition was passed.
pub type Region = IndexMap<Vec<u8>, Option<Denotation>>;

/// The regions round a place of a program, the innermost first in its model. Names are in lower case.
#[derive(Drop)]
pub struct Scopes {
    blocks: Vec<Region>,
}

impl Model for Scopes {
    ghost Value = { List Region };

    ghost view = { λ s. reverse (map region_of s.blocks.items) };
}

impl Scopes {
    ghost use Rattle.scopes.specs.Scopes.{Knows, define, found};

    /// No region.
    pub fn new(alloc: Global) -> Scopes
        ensures { result ≡ [] }
    {
        Scopes {
            blocks: Vec::new(alloc),
        }
    }

    /// Begins a region with all names that its block will define, each once. Without memory none begins.
    pub fn open(&mut self, alloc: Global, names: &[Vec<u8>]) -> Result<(), AllocError>
        ensures opened { OnOk result (self.new ≡ opened (map (λ name. name.items) names.now) ∷ self.old) }
        ensures unchanged { OnErr result (self.new ≡ self.old) }
    {
        let region = region(alloc, names)?;
        self.blocks.push(region)?;
        Ok(())
    }

    /// Begins a region whose names are all defined. Without memory none begins.
    pub fn open_defined(
        &mut self,
        alloc: Global,
        definitions: &[(&[u8], Denotation)],
    ) -> Result<(), AllocError>
        ensures opened { OnOk result (self.new ≡ opened_with (map (λ d. (d.0.now, d.1)) definitions.now) ∷ self.old) }
        ensures unchanged { OnErr result (self.new ≡ self.old) }
    {
        let region = defined_region(alloc, definitions)?;
        self.blocks.push(region)?;
        Ok(())
    }

    /// Begins a region whose names are those of the fields of a record, all of them defined. Without memory none
    /// begins.
    pub fn open_fields(&mut self, alloc: Global, fields: &[Definition]) -> Result<(), AllocError>
        ensures opened { OnOk result
            (self.new ≡ opened_with (map (λ d. (d.name.items, d.denotation)) fields.now) ∷ self.old) }
        ensures unchanged { OnErr result (self.new ≡ self.old) }
    {
        let region = fields_region(alloc, fields)?;
        self.blocks.push(region)?;
        Ok(())
    }

    /// Begins a region with the names of parameters, as they are defined, and beside them with all names that its block
    /// will define, each once. Without memory none begins.
    pub fn open_beside(&mut self, parameters: Region, names: &[Vec<u8>]) -> Result<(), AllocError>
        ensures opened { OnOk result
            (self.new ≡ opened_beside (region_of parameters) (map (λ name. name.items) names.now) ∷ self.old) }
        ensures unchanged { OnErr result (self.new ≡ self.old) }
    {
        let region = region_beside(parameters, names)?;
        self.blocks.push(region)?;
        Ok(())
    }

    /// Ends the innermost region; an empty one is told where there is none.
    pub fn close(&mut self, alloc: Global) -> Region
        ensures region { region_of result ≡ innermost self.old }
        ensures closed { self.new ≡ outer self.old }
    {
        match self.blocks.pop() {
            Some(region) => region,
            None => IndexMap::new(alloc),
        }
    }

    /// What the innermost region says of a name: nothing where it doesn't list it.
    pub fn innermost_says(&self, name: &[u8]) -> Option<Option<Denotation>>
        ensures { result ≡ said (innermost self.now) name.now }
    {
        let region = self.blocks.last()?;
        region.get(name).copied()
    }

    /// Passes the definition of a name that the innermost region lists: once, or it is `DeclaredTwice`. A refusal
    /// leaves all regions as they were, and want of memory is told of a first definition alone.
    pub fn declare(&mut self, name: Vec<u8>, denotation: Denotation) -> Result<(), ScopeFault>
        requires known { Knows self.old name.items }
        ensures defined { OnOk result (define name.items denotation self.old ≡ Ok self.new) }
        ensures refused { IfErr result
            (λ fault. (fault ≡ Memory the_refusal) ⊎ (define name.items denotation self.old ≡ Err fault)) }
        ensures memory { result ≡ Err (Memory the_refusal) → IsOk (define name.items denotation self.old) }
        ensures unchanged { OnErr result (self.new ≡ self.old) }
    {
        let Some(region) = self.blocks.last_mut() else {
            return Err(ScopeFault::NotDeclared);
        };
        if is_defined(region, &name) {
            return Err(ScopeFault::DeclaredTwice);
        }
        region.insert(name, Some(denotation))?;
        Ok(())
    }

    /// What a name denotes: its innermost region decides.
    pub fn find(&self, name: &[u8]) -> Result<Denotation, ScopeFault>
        ensures { result ≡ found self.now name.now }
    {
        let mut regions = self.blocks.as_slice();
        while let Some((innermost, outer)) = regions.split_last() {
            if let Some(says) = innermost.get(name) {
                return says.ok_or(ScopeFault::UsedBeforeDeclared);
            }
            regions = outer;
        }
        Err(ScopeFault::NotDeclared)
    }
}

/// A region with the same names, which say the same.
pub fn copied(names: &Region) -> Result<Region, AllocError>
    ensures { IfOk result (λ region. region_of region ≡ region_of names.now) }
{
    Ok(names.clone()?)
}

// The region of a block that defines these names.
fn region(alloc: Global, names: &[Vec<u8>]) -> Result<Region, AllocError>
    ensures { IfOk result
        (λ region. region_of region ≡ opened (map (λ name. name.items) names.now)) }
{
    let mut region = IndexMap::new(alloc);
    for name in names {
        region.insert(name.clone()?, None)?;
    }
    Ok(region)
}

// The region of a block that defines these names beside parameters.
fn region_beside(parameters: Region, names: &[Vec<u8>]) -> Result<Region, AllocError>
    ensures { IfOk result
        (λ region. region_of region ≡ opened_beside (region_of parameters) (map (λ name. name.items) names.now)) }
{
    let mut region = parameters;
    for name in names {
        list(&mut region, name)?;
    }
    Ok(region)
}

// Lists a name too.
fn list(region: &mut Region, name: &Vec<u8>) -> Result<(), AllocError>
    ensures { IfOk result
        (λ _. region_of region.new ≡ listing (region_of region.old) name.now.items) }
{
    if !region.contains_key(name.as_slice()) {
        region.insert(name.clone()?, None)?;
    }
    Ok(())
}

// A region whose names are all defined.
fn defined_region(alloc: Global, definitions: &[(&[u8], Denotation)]) -> Result<Region, AllocError>
    ensures { IfOk result
        (λ region. region_of region ≡ opened_with (map (λ d. (d.0.now, d.1)) definitions.now)) }
{
    let mut region = IndexMap::new(alloc);
    for definition in definitions {
        region.insert(key(alloc, definition.0)?, Some(definition.1))?;
    }
    Ok(region)
}

// The same of fields.
fn fields_region(alloc: Global, fields: &[Definition]) -> Result<Region, AllocError>
    ensures { IfOk result
        (λ region. region_of region ≡ opened_with (map (λ d. (d.name.items, d.denotation)) fields.now)) }
{
    let mut region = IndexMap::new(alloc);
    for field in fields {
        region.insert(key(alloc, &field.name)?, Some(field.denotation))?;
    }
    Ok(region)
}

// A name as the key of a region.
fn key(alloc: Global, name: &[u8]) -> Result<Vec<u8>, AllocError>
    ensures { IfOk result (λ key. key.items ≡ name.now) }
{
    name.iter().copied().collect(alloc)
}

// Whether the definition of a name was passed in a region.
fn is_defined(region: &Region, name: &[u8]) -> bool
    ensures { result ≡ is_defined (get_by (λ key. pointwise nat_eq name.now key.items) region.now) }
{
    matches!(region.get(name), Some(Some(_)))
}
