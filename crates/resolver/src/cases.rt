ghost use Rattle.std.specs.Prelude.{◌≡◌, ◌∷◌, [], ◌++◌, IfOk};
ghost use Rattle.typing.specs.Outcomes.{TypingTakes};
ghost use Rattle.typing.specs.Statements as spec;
ghost use Rattle.resolver.specs.Made.{MakesConstants};

use declarations::Typed;
use indexmap::IndexSet;
use syntax_tree::Constant;
use typed_tree::TypeFault;
use types::TypeId;
use typing::{Typer, constant_place};

/// The constants before an arm, one after another.
pub(crate) fn constant_row(
    typer: &mut Typer,
    type_id: TypeId,
    written: &[Constant],
    seen: &mut IndexSet<i32>,
) -> Typed<Vec<i32>>
    ensures { MakesConstants seen.old.keys seen.new.keys
        (spec.constant_row type_id seen.old.keys [] written.now typer.old) result typer.new }
{
    let mut row = Vec::with_capacity(typer.alloc, written.len())?;
    for next in written {
        row.push_reserved(case_constant(typer, type_id, next, seen)?);
    }
    Ok(row)
}

// A constant before an arm, an ordinal, which is of the index's type and none of those before it.
#[tactic(auto, unfolding(typing::specs::Statements::case_constant))]
fn case_constant(
    typer: &mut Typer,
    type_id: TypeId,
    written: &Constant,
    seen: &mut IndexSet<i32>,
) -> Typed<i32>
    ensures typed { TypingTakes (spec.case_constant type_id seen.old.keys written.now typer.old) result typer.new }
    ensures seen { IfOk result (λ value. seen.new.keys ≡ seen.old.keys ++ value ∷ []) }
{
    let fault = TypeFault::CaseConstant(constant_place(written));
    let (value, own) = typer.ordinal_constant(written)?.ok_or(fault)?;
    if !typer.types().compatible(type_id, own) {
        return Err(fault);
    }
    if !seen.insert(value)? {
        return Err(fault);
    }
    Ok(value)
}
