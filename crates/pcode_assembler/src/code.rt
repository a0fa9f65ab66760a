use crate::Instr;

/// A place of the source at which a run may commit an error, in plain numbers.
#[derive(Clone, Copy)]
pub struct Site {
    /// Its place in the table, from 0.
    pub id: u32,
    /// From 1 to 1,048,576.
    pub line: u32,
    /// From 1 to 1,048,576.
    pub column: u32,
    /// From 1 (index) to 13 (set member).
    pub kind: u8,
}

/// A place of the source at which a run may stop for its input, in plain numbers.
#[derive(Clone, Copy)]
pub struct Point {
    /// Its place in the table, from 0.
    pub id: u32,
    /// From 1 to 1,048,576.
    pub line: u32,
    /// From 1 to 1,048,576.
    pub column: u32,
}

/// The code of a program.
#[derive(Drop)]
pub struct Code {
    /// In order of id.
    pub sites: Vec<Site>,
    /// In order of id.
    pub points: Vec<Point>,
    /// At most 1,000,000.
    pub instructions: Vec<Instr>,
}
