ghost use Rattle.std.specs.Prelude.{◌≡◌, true};
ghost use Rattle.typed_tree.specs.WellFormed.{is_whole};
ghost use Rattle.typing.specs.Constants.{as_constant, as_ordinal, behind_sign, signed_value, constant_place};

use crate::{Made, Typer, characters};
use place::Place;
use scopes::Denotation;
use syntax_tree::{Constant, ConstantValue, Sign, SignAt};
use typed_tree::TypeFault;
use types::{MAXINT, TypeId, TypeTable};

impl Typer {
    ghost use Rattle.typing.specs.Outcomes.{TypingTakes};
    ghost use Rattle.typing.specs.Constants as spec;

    /// What a name denotes that is defined by a constant (6.3).
    #[tactic(auto, unfolding(crate::specs::Constants::constant))]
    pub fn constant(&mut self, written: &Constant) -> Made<Denotation>
        ensures { TypingTakes (spec.constant written.now self.old) result self.new }
    {
        let denotation = self.unsigned_constant(&written.value)?;
        behind_sign(written.sign, denotation)
    }

    /// The value and the type of an ordinal constant; none of a string.
    #[tactic(auto, unfolding(crate::specs::Constants::ordinal_constant))]
    pub fn ordinal_constant(&mut self, written: &Constant) -> Made<Option<(i32, TypeId)>>
        ensures { TypingTakes (spec.ordinal_constant written.now self.old) result self.new }
    {
        Ok(as_ordinal(self.constant(written)?))
    }

    // A constant without its sign: a number, which is at most maxint, a string, or a name.
    #[tactic(auto, unfolding(crate::specs::Constants::unsigned_constant))]
    fn unsigned_constant(&mut self, written: &ConstantValue) -> Made<Denotation>
        ensures { TypingTakes (spec.unsigned_constant written.now self.old) result self.new }
    {
        match written {
            ConstantValue::Number { value, place } => {
                self.pass(*place);
                let Ok(value) = i32::try_from(*value) else {
                    return Err(TypeFault::Mismatch(*place));
                };
                Ok(Denotation::Constant {
                    value,
                    type_id: TypeTable::INTEGER,
                })
            }
            ConstantValue::String { text, place } => {
                self.pass(*place);
                let characters = characters(self.alloc, *place, text)?;
                self.string_constant(*place, characters)
            }
            ConstantValue::Name(name) => {
                let denotation = self.find(name)?;
                as_constant(name.place, denotation)
            }
        }
    }
}

// The constant that a name at a place denotes: K1 where it denotes none.
fn as_constant(place: Place, denotation: Denotation) -> Made<Denotation>
    ensures { result ≡ as_constant place denotation }
{
    match denotation {
        Denotation::Constant { .. } | Denotation::Text { .. } => Ok(denotation),
        _ => Err(TypeFault::Mismatch(place)),
    }
}

// The value and the type of an ordinal constant.
fn as_ordinal(constant: Denotation) -> Option<(i32, TypeId)>
    ensures { result ≡ as_ordinal constant }
{
    match constant {
        Denotation::Constant { value, type_id } => Some((value, type_id)),
        _ => None,
    }
}

// A sign stands before an integer: K1 at the sign where it doesn't.
fn behind_sign(sign: Option<SignAt>, constant: Denotation) -> Made<Denotation>
    ensures { result ≡ behind_sign sign constant }
{
    let Some(SignAt { sign, place }) = sign else {
        return Ok(constant);
    };
    match constant {
        Denotation::Constant { value, type_id }
            if type_id.same(TypeTable::INTEGER) && value >= -MAXINT => {
            Ok(Denotation::Constant {
                value: signed_value(sign, value),
                type_id: TypeTable::INTEGER,
            })
        }
        _ => Err(TypeFault::Mismatch(place)),
    }
}

// The value behind a sign.
fn signed_value(sign: Sign, value: i32) -> i32
    requires whole { is_whole value ≡ true }
    ensures { result ≡ signed_value sign value }
{
    match sign {
        Sign::Plus => value,
        Sign::Minus => -value,
    }
}

/// Where a constant begins.
pub fn constant_place(written: &Constant) -> Place
    ensures { result ≡ constant_place written.now }
{
    match (written.sign, written.value) {
        (Some(sign), _) => sign.place,
        (None, ConstantValue::Number { place, .. } | ConstantValue::String { place, .. }) => place,
        (None, ConstantValue::Name(name)) => name.place,
    }
}
