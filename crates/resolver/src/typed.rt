use typed_tree::{Block, Loop};

/// A block that was made, by its number.
#[derive(Drop)]
pub(crate) struct MadeBlock {
    pub(crate) number: u32,
    pub(crate) block: Block,
}

/// The blocks of a program as its tree has them.
#[derive(Drop)]
pub(crate) struct LaidBlocks {
    /// By number.
    pub(crate) blocks: Vec<Block>,
    /// Their numbers, in the order of the text.
    pub(crate) bodies: Vec<u32>,
    /// The table of the loops in them.
    pub(crate) loops: Vec<Loop>,
}
