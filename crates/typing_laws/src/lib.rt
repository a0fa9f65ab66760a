//! Laws of typing: how the tree of a typed program looks, and what is known behind the program (ISO 7185:1990, 6.2 to
//! 6.10).
#![tactic(auto)]

ghost use Rattle.typing_laws.specs.Lawful.{TypedProgramsAreLawful};

/// Each typed program has its entries numbered in the order of the text, each block once, forms that are well formed in
/// their blocks, headings that stand where their blocks do, few enough entries, variables, cells of a block's
/// variables, sites and points, the required types before its own, and its sites by place. A variable that controls a
/// for statement is changed in its block alone, each access begins at a variable or at a record of a with statement
/// that is open there, and each result of a function is assigned.
pub fn typed_programs_are_lawful()
    ensures { TypedProgramsAreLawful }
{}
