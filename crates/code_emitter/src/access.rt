ghost use Rattle.std.specs.Prelude.{◌≡◌, ℕ, List, IsSome};
ghost use Rattle.pcode_assembler.specs.declared.instr.Instr.{Instr};
ghost use Rattle.code_scheme.specs.Code.{reached};
ghost use Rattle.code_scheme.specs.Depth.{access_depth};
ghost use Rattle.code_emitter.specs.Reaching.{address_instr, cell_of};

use code_scheme::{Scope, behind_fields};
use pcode_assembler::Instr;
use typed_tree::Access;

/// A cell at an offset in a frame behind so many static links.
#[derive(Clone, Copy)]
pub struct Cell {
    pub level: u8,
    pub offset: u32,
}

/// The cell of what is accessed, where that lies at an offset in a frame: fields alone select it, and from no variable
/// parameter and no record of a `with`.
pub fn cell_in_frame(scope: &Scope, access: &Access) -> Option<Cell>
    ensures cell { (codes : List (List Instr)) → result ≡ cell_of (reached scope.now access.now codes) }
    ensures needs { (indexes : List ℕ) → IsSome result → access_depth access.now.selectors.items indexes ≡ 1 }
{
    let home = scope.begun(access);
    if home.refers || !behind_fields(access.selectors.as_slice()).is_empty() {
        return None;
    }
    let level = scope.links_to(home.level);
    let offset = scope.access_offset(access);
    Some(Cell { level, offset })
}

/// What pushes the address from which the code of the selectors goes on: that in the cell of a variable parameter or of
/// a record of a `with`, else that of the component which the fields before the first index select.
pub fn address_in(scope: &Scope, access: &Access) -> Instr
    ensures { result ≡ address_instr scope.now access.now }
{
    let home = scope.begun(access);
    let level = scope.links_to(home.level);
    if home.refers {
        let offset = home.start;
        return Instr::Load { level, offset };
    }
    let offset = scope.access_offset(access);
    Instr::LoadAddress { level, offset }
}
