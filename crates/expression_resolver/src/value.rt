use typed_tree::{Access, Expr};
use types::{SetBase, TypeId};

/// What stands for the value of an expression (ISO 7185:1990, 6.4.1), with its type as far as it has one.
#[derive(Drop)]
pub enum Value {
    /// An ordinal of this host type.
    Ordinal {
        type_id: TypeId,
        value: Expr,
    },
    Set {
        base: SetBase,
        value: Expr,
    },
    /// A string of its own.
    Text {
        type_id: TypeId,
        number: u32,
        characters: Vec<u8>,
    },
    /// The value of a structured variable, of so many cells, with its index expressions; it is tested at the site
    /// `defined`.
    Variable {
        type_id: TypeId,
        access: Access,
        indexes: Vec<Expr>,
        cells: u32,
        defined: u32,
    },
}
