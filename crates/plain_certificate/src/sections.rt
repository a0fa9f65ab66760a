//! Sections of a certificate, block by block.
ghost use Rattle.std.specs.Prelude.{◌≡◌, IfOk, map};
ghost use Rattle.certificate.specs.Contents.{section_of as contents_of};
ghost use Rattle.plain_certificate.specs.Widest.{HasNumbers, is_vacant, section_of, widest};

use crate::loops::block_loops;
use crate::pairs::block_pairs;
use crate::roots::{count, outward_roots};
use certificate::Section;
use std::alloc::{AllocError, Global};
use typed_tree::Tree;

/// The sections of all blocks, without those that list nothing.
pub(crate) fn sections(alloc: Global, tree: &Tree) -> Result<Vec<Section>, AllocError>
    requires { HasNumbers tree.now }
    ensures { IfOk result (λ sections. map contents_of sections.items ≡ widest tree.now) }
{
    let mut sections = Vec::new(alloc);
    for block in 0..count(tree.blocks.len()) {
        let section = section_of(alloc, tree, block)?;
        if !is_vacant(&section) {
            sections.push(section)?;
        }
    }
    Ok(sections)
}

/// The section of a block.
fn section_of(alloc: Global, tree: &Tree, block: u32) -> Result<Section, AllocError>
    requires { HasNumbers tree.now }
    ensures { IfOk result (λ section. contents_of section ≡ section_of tree.now block) }
{
    let mut section = Section {
        block,
        aliases: Vec::new(alloc),
        changes: Vec::new(alloc),
        entry: Vec::new(alloc),
        exit: Vec::new(alloc),
        loops: block_loops(alloc, tree, block)?,
    };
    if block != 0 {
        section.aliases = block_pairs(alloc, tree, block)?;
        section.changes = outward_roots(alloc, tree, block)?;
    }
    Ok(section)
}

/// Whether a section lists nothing.
fn is_vacant(section: &Section) -> bool
    ensures { result ≡ is_vacant (contents_of section.now) }
{
    section.aliases.is_empty() && section.changes.is_empty() && section.loops.is_empty()
}
