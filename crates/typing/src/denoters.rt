ghost use Rattle.std.specs.Prelude.{◌≡◌, Ok, Err, IsOk, MatchResult, option_map};
ghost use Rattle.types.specs.Forms.{form_of};
ghost use Rattle.typing.specs.Steps.{refused, value_of};
ghost use Rattle.memory.specs.Refused.{the_refusal};
ghost use Rattle.typed_tree.specs.declared.fault.TypeFault.TheVariants.{Memory};
ghost use Rattle.typing.specs.Denoters.{named_type};

use crate::{Made, Typer, fold_into};
use place::Place;
use scopes::{Denotation, ScopeFault};
use syntax_tree::Name;
use typed_tree::TypeFault;
use types::{TypeForm, TypeId, TypeRefusal};

impl Typer {
    ghost use Rattle.typing.specs.Outcomes.{TypingTakes};
    ghost use Rattle.typing.specs.Steps as step;
    ghost use Rattle.typing.specs.Denoters as spec;

    /// The type that a name denotes: K1 at the name where it denotes anything else.
    #[tactic(auto, unfolding(crate::specs::Denoters::type_of_name))]
    pub fn type_of_name(&mut self, name: &Name) -> Made<TypeId>
        ensures { TypingTakes (spec.type_of_name name.now self.old) result self.new }
    {
        fold_into(&mut self.key, name.text)?;
        let type_id = named_type(name, self.scopes.find(&self.key))?;
        self.latest = name.place;
        Ok(type_id)
    }

    /// A type of its own, by its form; the rule that the form breaks is told at the place (Y1, Y2, Y3).
    #[tactic(auto, unfolding(crate::specs::Steps::add_type))]
    pub fn add_type(&mut self, place: Place, form: TypeForm) -> Made<TypeId>
        ensures taken { TypingTakes (step.add_type place (form_of form) self.old) result self.new }
        ensures memory { result ≡ Err (Memory the_refusal) → IsOk (step.add_type place (form_of form) self.old) }
    {
        self.types.add(form).map_err(|rule| refused(rule, place))
    }

    /// An array of elements of a type, over its index types: behind the first it is one of arrays, packed as it is
    /// (6.4.3.2). A rule that one of them breaks is told at the place (Y2).
    #[tactic(auto, using(crate::proofs::DenoterRows::arrays_left))]
    pub fn arrays(
        &mut self,
        packed: bool,
        place: Place,
        indexes: &[TypeId],
        element: TypeId,
    ) -> Made<TypeId>
        ensures { TypingTakes (spec.arrays packed place indexes.now element self.old) result self.new }
    {
        let mut left = indexes;
        let mut element = element;
        while let Some((index, before)) = left.split_last() {
            element = self.add_type(
                place,
                TypeForm::Array {
                    packed,
                    index: *index,
                    element,
                },
            )?;
            left = before;
        }
        Ok(element)
    }

    /// The form of a subrange between constants, which are of one ordinal type: K1 at the place where they aren't.
    pub fn between(
        &self,
        place: Place,
        first: Option<(i32, TypeId)>,
        last: Option<(i32, TypeId)>,
    ) -> Made<TypeForm>
        ensures { MatchResult result
            (λ form. spec.between self.now.types place first last ≡ Ok (form_of form))
            (λ why. spec.between self.now.types place first last ≡ Err why) }
    {
        let (Some(first), Some(last)) = (first, last) else {
            return Err(TypeFault::Mismatch(place));
        };
        let host = self.types.host(first.1);
        if !host.same(self.types.host(last.1)) || !self.types.is_ordinal(first.1) {
            return Err(TypeFault::Mismatch(place));
        }
        let (first, last) = (first.0, last.0);
        Ok(TypeForm::Subrange { host, first, last })
    }

    /// The form of a set type over a base (6.4.3.4); none where that is not ordinal.
    pub fn set_form(&self, packed: bool, base: TypeId) -> Option<TypeForm>
        ensures { option_map form_of result ≡ spec.set_form self.now.types packed base }
    {
        let range = self.types.range(base)?;
        Some(TypeForm::Set {
            packed,
            host: self.types.host(base),
            first: range.first,
            last: range.last,
        })
    }

    /// The place of the latest token that was passed.
    pub fn latest(&self) -> Place
        ensures { result ≡ self.now.latest }
    {
        self.latest
    }
}

/// A number as a value, which is at most maxint: K1 at the place where it isn't.
pub fn value_of(number: usize, place: Place) -> Made<i32>
    ensures { result ≡ value_of number place }
{
    i32::try_from(number).map_err(|_| TypeFault::Mismatch(place))
}

// A rule that the form of a type breaks, at its place.
fn refused(rule: TypeRefusal, place: Place) -> TypeFault
    ensures { result ≡ refused rule place }
{
    match rule {
        TypeRefusal::Memory(refused) => TypeFault::Memory(refused),
        TypeRefusal::FirstAboveLast => TypeFault::FirstAboveLast(place),
        TypeRefusal::TooManyCells => TypeFault::TooManyCells(place),
        TypeRefusal::MembersOutOfRange => TypeFault::MembersOutOfRange(place),
    }
}

// The type that a name denotes, by what the scopes answer of it.
fn named_type(name: &Name, answer: Result<Denotation, ScopeFault>) -> Made<TypeId>
    ensures { result ≡ named_type name.now answer }
{
    match answer {
        Ok(Denotation::TypeName(type_id)) => Ok(type_id),
        Ok(_) => Err(TypeFault::Mismatch(name.place)),
        Err(ScopeFault::UsedBeforeDeclared) => Err(TypeFault::UsedBeforeDeclared(name.place)),
        Err(ScopeFault::NotDeclared) => Err(TypeFault::NotDeclared(name.place)),
        Err(ScopeFault::DeclaredTwice) => Err(TypeFault::DeclaredTwice(name.place)),
        Err(ScopeFault::Memory(refused)) => Err(TypeFault::Memory(refused)),
    }
}
