ghost use Rattle.std.specs.Prelude.{◌≡◌, OnOk, map};
ghost use Rattle.certificate.specs.Building.{added, begun, in_block, in_loop, in_section, said_content, with_claim};
ghost use Rattle.certificate.specs.Building.{word_claim};
ghost use Rattle.certificate.specs.Contents.{loop_of, section_of};

use crate::claim::{ClaimLine, Content};
use crate::{LoopClaims, Section};
use std::alloc::{AllocError, Global};

/// Adds what a line says to the sections that the lines above it say.
pub(crate) fn add(
    alloc: Global,
    sections: &mut Vec<Section>,
    content: &Content<'_>,
) -> Result<(), AllocError>
    ensures { OnOk result
        (map section_of sections.new.items ≡ added (said_content content.now) (map section_of sections.old.items)) }
{
    if let Content::Block(block) = content {
        sections.push(Section::begun(alloc, *block))?;
        return Ok(());
    }
    match sections.last_mut() {
        Some(section) => section.add(alloc, content),
        None => Ok(()),
    }
}

impl Section {
    // The section of a block, of which nothing is said.
    fn begun(alloc: Global, block: u32) -> Section
        ensures { section_of result ≡ begun block }
    {
        Section {
            block,
            aliases: Vec::new(alloc),
            changes: Vec::new(alloc),
            entry: Vec::new(alloc),
            exit: Vec::new(alloc),
            loops: Vec::new(alloc),
        }
    }

    // Adds a new loop, or a claim.
    fn add(&mut self, alloc: Global, content: &Content<'_>) -> Result<(), AllocError>
        ensures { OnOk result (section_of self.new ≡ in_section (said_content content.now) (section_of self.old)) }
    {
        match content {
            Content::Block(_) => Ok(()),
            Content::Loop(number) => {
                self.loops.push(LoopClaims {
                    number: *number,
                    changes: Vec::new(alloc),
                    facts: Vec::new(alloc),
                })?;
                Ok(())
            }
            Content::Claimed(claim) => self.add_claim(alloc, claim),
        }
    }

    // Adds a claim to the last loop, or to the block itself where there is none yet.
    fn add_claim(&mut self, alloc: Global, claim: &ClaimLine<'_>) -> Result<(), AllocError>
        ensures { OnOk result (section_of self.new ≡ with_claim (word_claim claim.now) (section_of self.old)) }
    {
        if self.loops.is_empty() {
            return self.add_to_block(alloc, claim);
        }
        match self.loops.last_mut() {
            Some(claims) => claims.add(alloc, claim),
            None => Ok(()),
        }
    }

    // Adds a claim to those of the block itself.
    fn add_to_block(&mut self, alloc: Global, claim: &ClaimLine<'_>) -> Result<(), AllocError>
        ensures { OnOk result (section_of self.new ≡ in_block (word_claim claim.now) (section_of self.old)) }
    {
        match claim {
            ClaimLine::Alias(pair) => self.aliases.push(*pair)?,
            ClaimLine::Change(root) => self.changes.push(*root)?,
            ClaimLine::Entry(fact) => self.entry.push(fact.kept(alloc)?)?,
            ClaimLine::Exit(fact) => self.exit.push(fact.kept(alloc)?)?,
            ClaimLine::Fact(_) => {}
        }
        Ok(())
    }
}

impl LoopClaims {
    // Adds a claim.
    fn add(&mut self, alloc: Global, claim: &ClaimLine<'_>) -> Result<(), AllocError>
        ensures { OnOk result (loop_of self.new ≡ in_loop (word_claim claim.now) (loop_of self.old)) }
    {
        match claim {
            ClaimLine::Change(root) => self.changes.push(*root)?,
            ClaimLine::Fact(fact) => self.facts.push(fact.kept(alloc)?)?,
            ClaimLine::Alias(_) | ClaimLine::Entry(_) | ClaimLine::Exit(_) => {}
        }
        Ok(())
    }
}
