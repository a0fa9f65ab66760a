/// A routine, as its calls need it.
#[derive(Clone, Copy)]
pub struct Routine {
    /// The level of the block that declares it.
    pub level: usize,
    /// How many cells its parameters take in its frame, or the most cells of a frame.
    pub cells: u32,
    /// The place of its first instruction; the number of its block, until places are known.
    pub place: u32,
}
