ghost use Rattle.std.specs.Prelude.{◌≡◌, true};
ghost use Rattle.typed_tree.specs.Kinds.{are_ordinal_indexes, is_ordinal_expr};
ghost use Rattle.expression_resolver.specs.Values.{are_held_actuals, is_held_as_told};

use crate::Value;
use crate::owned::made_beside;
use place::Place;
use std::alloc::Global;
use typed_tree::tree::{
    Access, Base, Call, Designator, Dyadic, Expr, Link, Passed, Selector, Whole,
};
use typed_tree::{SiteKind, TypeFault};
use types::TypeId;
use typing::Made;
use typing_rules::{Typed, TypedValue};

/// An expression, and the id of its leading site.
#[derive(Drop)]
pub struct TypedExpr {
    pub value: Value,
    pub site: Option<u32>,
    pub ghost held: { is_held_as_told value ≡ true },
}

impl TypedExpr {
    ghost use Rattle.std.specs.Prelude.{Some, Ok, Err, IfOk, IsOk, MatchResult, false, is_some};
    ghost use Rattle.typed_tree.specs.declared.fault.TypeFault.TheVariants.{Mismatch};
    ghost use Rattle.typed_tree.specs.Kinds.{held_by, is_held, is_held_value};
    ghost use Rattle.typed_tree.specs.Look.{look_expr, look_whole};
    ghost use Rattle.typing_rules.specs.Typed.{is_of, is_scalar_value};
    ghost use Rattle.typing_rules.specs.Targets.{whole_copy};
    ghost use Rattle.expression_resolver.specs.Made.{typed_of};
    ghost use Rattle.expression_resolver.specs.Values.{IsScalarOf, IsWholeOf, copy_of, look_value, scalar_of};
    ghost use Rattle.expression_resolver.specs.Values.{value_of};

    /// What it is.
    pub fn typed(&self) -> Typed
        ensures { result ≡ typed_of self.now }
    {
        Typed {
            value: self.typed_value(),
            site: self.site,
        }
    }

    // What its value is.
    fn typed_value(&self) -> TypedValue
        ensures { result ≡ value_of self.now.value }
    {
        match &self.value {
            Value::Ordinal { type_id, .. } => TypedValue::Ordinal(*type_id),
            Value::Set { base, .. } => TypedValue::Set(*base),
            Value::Text {
                type_id,
                characters,
                ..
            } => TypedValue::Text {
                type_id: *type_id,
                length: characters.len(),
            },
            Value::Variable { type_id, cells, .. } => TypedValue::Whole {
                type_id: *type_id,
                cells: *cells as usize,
            },
        }
    }

    /// The ordinal or the set that it is.
    pub fn into_scalar(self) -> Expr
        requires scalar { is_scalar_value (value_of self.value) ≡ true }
        ensures looks { look_value self.value ≡ look_expr result }
        ensures held { is_held (scalar_of (value_of self.value)) (held_by result) ≡ true }
    {
        let TypedExpr { value, .. } = self;
        match value {
            Value::Ordinal { value, .. } => value,
            Value::Set { value, .. } => value,
            Value::Text { .. } | Value::Variable { .. } => unreachable!(),
        }
    }

    /// The structured value that it is, with its index expressions.
    pub fn into_whole(self, alloc: Global) -> (Whole, Vec<Expr>)
        requires structured { is_some (whole_copy (value_of self.value)) ≡ true }
        ensures copy { whole_copy (value_of self.value) ≡ Some (copy_of result) }
        ensures looks { look_value self.value ≡ look_whole result.0 (result.1).items }
        ensures held { is_held_value result.0 (result.1).items ≡ true }
    {
        let TypedExpr { value, .. } = self;
        match value {
            Value::Text {
                number,
                characters,
                ..
            } => (Whole::Text { number, characters }, Vec::new(alloc)),
            Value::Variable {
                type_id,
                access,
                indexes,
                cells,
                defined,
            } => {
                let value = Whole::Variable {
                    access,
                    type_id,
                    cells,
                    defined,
                };
                (value, indexes)
            }
            Value::Ordinal { .. } | Value::Set { .. } => unreachable!(),
        }
    }

    /// The ordinal or the set that it is, with what is told of it, unless that is refused.
    pub(crate) fn scalar_with<T: Drop>(self, told: Made<T>) -> Made<(T, Expr)>
        requires scalar { IfOk told (λ one. is_scalar_value (value_of self.value) ≡ true) }
        ensures { MatchResult result (λ made. (told ≡ Ok made.0) × IsScalarOf self.value made.1)
            (λ why. told ≡ Err why) }
    {
        let told = made_beside!(told, self);
        Ok((told, self.into_scalar()))
    }

    /// The structured value that it is, with its index expressions, unless what is told of it is refused.
    pub(crate) fn whole_with<T: Drop>(
        self,
        alloc: Global,
        told: Made<T>,
    ) -> Made<(Whole, Vec<Expr>)>
        requires structured { IfOk told (λ one. is_some (whole_copy (value_of self.value)) ≡ true) }
        ensures { MatchResult result (λ made. IsOk told × IsWholeOf self.value made) (λ why. told ≡ Err why) }
    {
        made_beside!(told, self);
        Ok(self.into_whole(alloc))
    }

    /// The ordinal that it is, of this type: K1 at the place where it is none.
    pub fn of(self, type_id: TypeId, place: Place) -> Made<Expr>
        ensures typed { MatchResult result
            (λ made. (is_of type_id (typed_of self) ≡ true) × (look_value self.value ≡ look_expr made))
            (λ why. (is_of type_id (typed_of self) ≡ false) × (why ≡ Mismatch place)) }
        ensures held { IfOk result (λ made. is_ordinal_expr made ≡ true) }
    {
        if !self.typed().is_of(type_id) {
            drop(self);
            return Err(TypeFault::Mismatch(place));
        }
        Ok(self.into_scalar())
    }
}

/// The call of a routine: with its actual parameters, and the root of its result, if it is a function.
#[derive(Drop)]
pub struct TypedCall {
    pub call: Call,
    pub actuals: Vec<Passed>,
    pub root: Option<u32>,
    pub ghost held: { are_held_actuals actuals.items ≡ true },
}

/// The operators of a chain with their right operands, and what they make of its first one.
#[derive(Drop)]
pub(crate) struct TypedLinks {
    pub(crate) links: Vec<Link>,
    pub(crate) typed: Typed,
}

/// The right operand of a relation, with its number and its operation.
#[derive(Drop)]
pub(crate) struct RightOperand {
    pub(crate) number: u32,
    pub(crate) operation: Dyadic,
    pub(crate) operand: TypedExpr,
}

/// The selectors of an access with their index expressions, and the type of the component to which they lead
/// (6.5.3).
#[derive(Drop)]
pub(crate) struct Selection {
    pub(crate) selectors: Vec<Selector>,
    pub(crate) indexes: Vec<Expr>,
    pub(crate) type_id: TypeId,
    ghost held: { are_ordinal_indexes indexes.items ≡ true },
}

/// The designators of a set constructor with the values of its members, and the host type of these, if there is one
/// (6.7.1).
#[derive(Drop)]
pub(crate) struct Members {
    pub(crate) designators: Vec<Designator>,
    pub(crate) values: Vec<Expr>,
    pub(crate) host: Option<TypeId>,
    ghost held: { are_ordinal_indexes values.items ≡ true },
}

/// A member of a set that stands alone, or first in a range: the site of its test, its host type, and its value.
#[derive(Drop)]
pub(crate) struct SitedMember {
    pub(crate) site: u32,
    pub(crate) type_id: TypeId,
    pub(crate) value: Expr,
    ghost held: { is_ordinal_expr value ≡ true },
}

/// What is accessed: its access with its index expressions, and the type of what is accessed.
#[derive(Drop)]
pub struct Reached {
    pub access: Access,
    pub indexes: Vec<Expr>,
    pub type_id: TypeId,
    pub ghost held: { are_ordinal_indexes indexes.items ≡ true },
}

/// The kind of the site that leads an expression, if there is one.
pub type Lead = Option<SiteKind>;

/// An expression that is entered.
#[derive(Clone, Copy)]
pub(crate) struct Begun {
    pub(crate) number: u32,
    /// The id of its leading site.
    pub(crate) site: Option<u32>,
}

/// A variable that is entered in an expression, before its selectors.
#[derive(Drop)]
pub(crate) struct Entered {
    pub(crate) number: u32,
    /// The root number of the variable, and at what the access begins.
    pub(crate) root: u32,
    pub(crate) base: Base,
    /// The site of its test (undefined variable).
    pub(crate) defined: u32,
    /// The id of the leading site.
    pub(crate) site: Option<u32>,
}
