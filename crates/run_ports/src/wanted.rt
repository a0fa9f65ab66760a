/// What a run wants of its input.
#[derive(Clone, Copy)]
pub enum Wanted {
    /// An integer, behind blanks and line ends (ISO 7185:1990, 6.9.1).
    Integer,
    /// The number of a character: of a blank at the end of a line, which is passed (ISO 7185:1990, 6.9.1).
    Character,
    /// 1 where a line ends here, else 0 (ISO 7185:1990, 6.6.6.5).
    LineEnd,
    /// 0, with the next line end passed and what stands before it (ISO 7185:1990, 6.9.2).
    NextLine,
    /// 1 where nothing is left, else 0 (ISO 7185:1990, 6.6.6.5).
    End,
}
