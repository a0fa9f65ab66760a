use crate::{Made, Typer, fold_into};
use place::Place;
use syntax_tree::Name;
use typed_tree::TypeFault;
use types::{ArrayElement, RecordField, TypeForm, TypeId};

impl Typer {
    ghost use Rattle.std.specs.Prelude.{◌≡◌};
    ghost use Rattle.types.specs.Types.{element_of};
    ghost use Rattle.typing.specs.Expressions as spec;
    ghost use Rattle.typing.specs.Outcomes.{TypingTakes};
    ghost use Rattle.typing.specs.Passing.{by_types};
    ghost use Rattle.typing_rules.specs.Checked.{or_mismatch};

    /// The field of a name in a value of a type (6.5.3.3): K1 at the name where the type is no record, S3 where it has
    /// no such field.
    pub fn field_named(&mut self, id: TypeId, name: &Name) -> Made<RecordField>
        ensures { TypingTakes (by_types (λ types. spec.field_named types id name.now) self.old) result self.new }
    {
        fold_into(&mut self.key, name.text)?;
        let Some(TypeForm::Record { .. }) = self.types.form(id) else {
            return Err(TypeFault::Mismatch(name.place));
        };
        self.types
            .field(id, &self.key)
            .ok_or(TypeFault::NotDeclared(name.place))
    }

    /// The elements of a value of a type (6.5.3.2): K1 at the place where the type is no array.
    pub fn element(&self, id: TypeId, place: Place) -> Made<ArrayElement>
        ensures { result ≡ or_mismatch place (element_of self.now.types id) }
    {
        self.types.element(id).ok_or(TypeFault::Mismatch(place))
    }
}
