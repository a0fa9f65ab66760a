/// Where a variable lies in the frame of its block.
#[derive(Clone, Copy)]
pub struct Home {
    /// The level of its block: how many blocks stand round that.
    pub level: usize,
    /// Where it begins there, in cells, or the greatest offset.
    pub start: u32,
    /// Whether it is a variable parameter (ISO 7185:1990, 6.6.3.3), whose one cell has the address of its actual one.
    pub refers: bool,
}
