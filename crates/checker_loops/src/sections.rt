ghost use Rattle.std.specs.Prelude.{◌≡◌, ◌∷◌, [], IfOk, map};
ghost use Rattle.certificate.specs.Contents.{said_fact};
ghost use Rattle.checker_loops.specs.Sections.{all_block_claims, all_pairs, block_claims_at, pair_of};
ghost use Rattle.checker_loops.specs.BlockView.{AreFound, first_on, found_claims, said_claims, said_facts};
ghost use Rattle.checker_loops.specs.BlockView.{said_section};

use crate::{Changes, Roots};
use certificate::{AliasPair, Certificate, Fact, Section};
use std::alloc::{AllocError, Global};
use typed_tree::Tree;

/// What a certificate claims of a block.
#[derive(Clone, Copy)]
pub struct BlockClaims<'a> {
    /// The variables that a call of it may change.
    pub changes: Roots<'a>,
    /// What holds where it begins.
    pub start: &'a [Fact],
    /// What holds where it ends.
    pub end: &'a [Fact],
}

/// Facts of a block.
#[derive(Drop)]
pub enum Facts<'a> {
    /// Those that a certificate lists.
    Listed(&'a [Fact]),
    /// Others, which stand in no certificate yet.
    Kept(Vec<Fact>),
}

impl<'a> Facts<'a> {
    /// The facts.
    pub fn as_slice(&self) -> &[Fact]
        ensures { map said_fact result.now ≡ said_facts self.now }
    {
        match self {
            Facts::Listed(facts) => facts,
            Facts::Kept(facts) => facts.as_slice(),
        }
    }
}

/// What is claimed of a block, as it is kept for each.
#[derive(Drop)]
pub struct BlockSection<'a> {
    changes: Changes<'a>,
    /// What holds where it begins.
    pub start: Facts<'a>,
    /// What holds where it ends.
    pub end: Facts<'a>,
}

impl<'a> BlockSection<'a> {
    // The claims of a section, if there is one.
    fn of(alloc: Global, section: Option<&'a Section>) -> Result<BlockSection<'a>, AllocError>
        ensures { IfOk result (λ kept. said_section kept ≡ found_claims section.entry) }
    {
        let (listed, start, end): (&[u32], &[Fact], &[Fact]) = match section {
            None => (&[], &[], &[]),
            Some(section) => (&section.changes, &section.entry, &section.exit),
        };
        Ok(BlockSection {
            changes: Changes::of(alloc, listed)?,
            start: Facts::Listed(start),
            end: Facts::Listed(end),
        })
    }

    // What it claims.
    fn claims(&self) -> BlockClaims<'_>
        ensures { said_claims result ≡ said_section self.now }
    {
        BlockClaims {
            changes: self.changes.roots(),
            start: self.start.as_slice(),
            end: self.end.as_slice(),
        }
    }
}

/// What a certificate claims of each block of a program, by the numbers of the blocks: nothing where no section is on
/// one. Sections on a block that the program doesn't have are passed over.
///
/// # Errors
/// No memory.
pub fn all_block_claims<'a>(
    alloc: Global,
    tree: &Tree,
    certificate: &'a Certificate,
) -> Result<Vec<BlockSection<'a>>, AllocError>
    ensures { IfOk result (λ kept. map said_section kept.items ≡ all_block_claims tree.now certificate.now) }
{
    let mut kept = Vec::new(alloc);
    for section in &all_sections(alloc, tree, certificate)? {
        kept.push(BlockSection::of(alloc, *section)?)?;
    }
    Ok(kept)
}

// The first section on each block of a program, by the numbers of the blocks.
fn all_sections<'a>(
    alloc: Global,
    tree: &Tree,
    certificate: &'a Certificate,
) -> Result<Vec<Option<&'a Section>>, AllocError>
    ensures { IfOk result (λ found. map found_claims found.items ≡ all_block_claims tree.now certificate.now) }
{
    let mut found = vec![in alloc; None; tree.blocks.len()]?;
    for section in &certificate.sections {
        enter(&mut found, section);
    }
    Ok(found)
}

// Enters a section by the number of its block: the first one counts.
fn enter<'a>(found: &mut [Option<&'a Section>], section: &'a Section)
    ensures { AreFound found.old found.new (λ number. first_on number (section.now ∷ [])) }
{
    let number = section.block as usize;
    if let Some(None) = found.get(number) {
        found[number] = Some(section);
    }
}

/// The claims on the block of a number by those on all; none where there is no such block.
pub fn block_claims_at<'b>(sections: &'b [BlockSection], number: u32) -> BlockClaims<'b>
    ensures { said_claims result ≡ block_claims_at (map said_section sections.now) number }
{
    match sections.get(number as usize) {
        None => BlockClaims {
            changes: Roots::none(),
            start: &[],
            end: &[],
        },
        Some(section) => section.claims(),
    }
}

/// The pairs of variables that a certificate lists, section by section.
///
/// # Errors
/// No memory.
pub fn all_pairs(alloc: Global, certificate: &Certificate) -> Result<Vec<AliasPair>, AllocError>
    ensures { IfOk result (λ pairs. map pair_of pairs.items ≡ all_pairs certificate.now) }
{
    let mut pairs = Vec::new(alloc);
    for section in &certificate.sections {
        pairs.extend_from_slice(&section.aliases)?;
    }
    Ok(pairs)
}
