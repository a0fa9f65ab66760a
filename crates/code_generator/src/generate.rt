ghost use Rattle.std.specs.Prelude.{◌≡◌, false, true, IfOk};
ghost use Rattle.std.specs.List.{list_all};
ghost use Rattle.pcode_assembler.specs.Bounds.{in_bounds};
ghost use Rattle.pcode_assembler.specs.Contents.{HasText};
ghost use Rattle.pcode_assembler.specs.Writable.{EndsInNoCheck};
ghost use Rattle.code_scheme.specs.Code.{program_code};
ghost use Rattle.code_generator.specs.Follows.{Follows};
ghost use Rattle.code_generator.specs.Tables.{IsNumbered, has_no_code, point_table, site_table};
ghost use Rattle.typed_tree.specs.WellFormed.{IsWellFormed};

use crate::fault::GenFault;
use crate::known::known;
use crate::tables::{has_room, points_of, sites_of};
use code_emitter::program::instructions_of;
use pcode_assembler::Code;
use std::alloc::Global;
use typed_tree::Tree;

/// The code of the program: its instructions, and the tables of the tree's sites and points. Each check has its site,
/// and the text of a code has room for each operand. If the tree is well formed, the code follows the program, for
/// every input and every number of cells; and it has a text, if the tree's sites and points are numbered.
///
/// # Errors
/// Want of memory; or code that is too large, or for whose sites and points a text has no room. Where it is, memory may
/// run out first.
pub fn generate(alloc: Global, tree: &Tree) -> Result<Code, GenFault>
    ensures instructions { IfOk result (λ code. code.instructions.items ≡ program_code tree.now) }
    ensures too_large { result ≡ Err GenFault.TooLarge → has_no_code tree.now ≡ true }
    ensures small { IfOk result (λ _. has_no_code tree.now ≡ false) }
    ensures in_bounds { IfOk result (λ code. list_all in_bounds code.instructions.items ≡ true) }
    ensures sites { IfOk result (λ code. code.sites.items ≡ site_table tree.now.sites.items) }
    ensures points { IfOk result (λ code. code.points.items ≡ point_table tree.now.points.items) }
    ensures last { IfOk result (λ code. EndsInNoCheck code.instructions.items) }
    ensures text { IfOk result (λ code. IsWellFormed tree.now → IsNumbered tree.now → HasText code) }
    ensures follows { IfOk result (λ code. IsWellFormed tree.now → Follows code tree.now) }
{
    known();
    if !has_room(tree) {
        return Err(GenFault::TooLarge);
    }
    let instructions = instructions_of(alloc, tree)?;
    Ok(Code {
        sites: sites_of(alloc, tree.sites.as_slice())?,
        points: points_of(alloc, tree.points.as_slice())?,
        instructions,
    })
}
