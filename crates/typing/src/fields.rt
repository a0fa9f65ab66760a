ghost use Rattle.std.specs.Prelude.{◌≡◌, ◌⊎◌, Ok, Err, MatchResult, map, nat_eq};
ghost use Rattle.std.specs.List.{list_any};
ghost use Rattle.std.specs.Cmp.Lexicographic.{pointwise};
ghost use Rattle.types.specs.Forms.{field_form};
ghost use Rattle.memory.specs.Refused.{the_refusal};
ghost use Rattle.typed_tree.specs.declared.fault.TypeFault.TheVariants.{Memory};
ghost use Rattle.typing.specs.Denoters.{named_fields};

use crate::folded;
use std::alloc::Global;
use syntax_tree::Name;
use typed_tree::TypeFault;
use types::{Field, TypeId};

/// Puts fields of a type behind those of a record (6.4.3.3): S1 at a name that one before it has.
#[tactic(auto, using(crate::proofs::NamedFields::fields_left))]
pub fn add_fields(
    alloc: Global,
    fields: &mut Vec<Field>,
    type_id: TypeId,
    names: &[Name],
) -> Result<(), TypeFault>
    ensures { MatchResult result
        (λ _. named_fields (map field_form fields.old.items) type_id names.now ≡ Ok (map field_form fields.new.items))
        (λ why. (why ≡ Memory the_refusal)
        ⊎ (named_fields (map field_form fields.old.items) type_id names.now ≡ Err why)) }
{
    for written in names {
        let name = folded(alloc, written.text)?;
        if has_field(fields, &name) {
            return Err(TypeFault::DeclaredTwice(written.place));
        }
        fields.push(Field { name, type_id })?;
    }
    Ok(())
}

// Whether one of the fields has this name, which is in small letters.
fn has_field(fields: &[Field], name: &[u8]) -> bool
    ensures { result ≡ list_any (λ field. pointwise nat_eq field.name.items name.now) fields.now }
{
    fields.iter().any(|field| field.name.as_slice() == name)
}
