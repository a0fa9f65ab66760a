/// A cell of the store.
#[derive(Clone, Copy)]
pub enum Cell {
    /// What a variable holds before its first assignment.
    Undefined,
    Number(i32),
    /// A bit for each member: m is bit m.
    Set(u128),
}
