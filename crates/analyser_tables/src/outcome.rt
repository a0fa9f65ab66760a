/// What becomes of a fact where a state comes.
#[derive(Clone, Copy)]
pub(crate) enum Outcome {
    Stays,
    Moves,
    /// It doesn't hold, and it said more than other facts.
    Falls,
    /// It doesn't hold, and it said no more than other facts.
    Fades,
}
