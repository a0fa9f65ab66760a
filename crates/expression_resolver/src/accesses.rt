ghost use Rattle.std.specs.Prelude.{◌≡◌, [], ◌∷◌, true, length, Ok, IfOk};
ghost use Rattle.typed_tree.specs.Accesses.{index_count, origin_by, origin_of};
ghost use Rattle.typed_tree.specs.Kinds.{are_ordinal_indexes, held_by, is_held};
ghost use Rattle.typed_tree.specs.Look as look;
ghost use Rattle.typed_tree.specs.Look.{Constant, look_access, look_expr};
ghost use Rattle.typing_rules.specs.Typed.{typed};
ghost use Rattle.typing.specs.Passing.{after};
ghost use Rattle.typing.specs.View.{denoted_of};
ghost use Rattle.expression_resolver.specs.Accesses.{IsCounted, MakesEntered, MakesVariable, SelectsField};
ghost use Rattle.expression_resolver.specs.Accesses.{begun, named_variable, valued};
ghost use Rattle.expression_resolver.specs.Made.{IsSetOf, MakesBegun, MakesTyped, text_entered, typed_of};
ghost use Rattle.expression_resolver.specs.Values.{look_value};

use crate::typed::{Begun, Entered, Members, Selection};
use crate::{Lead, TypedExpr, Value};
use place::Place;
use std::alloc::Global;
use syntax_tree::Name;
use typed_tree::{Access, Base, Expr, Scalar, Selector, SiteKind};
use types::{SetBase, TypeId, TypeKind};
use typing::{DenotedVariable, Made, Typer};

impl Selection {
    ghost use Rattle.expression_resolver.specs.Accesses.{IsBegunBy};

    /// The selectors to what a name denotes, a value of a type.
    pub(crate) fn begun(alloc: Global, selectors: Vec<Selector>, type_id: TypeId) -> Selection
        ensures { IsBegunBy selectors.items type_id result }
    {
        Selection {
            selectors,
            indexes: Vec::new(alloc),
            type_id,
        }
    }
}

impl Members {
    ghost use Rattle.std.specs.Prelude.{◌+◌, ◌<◌, ◌≤◌, None, IfErr, vec_len, vec_capacity};
    ghost use Rattle.memory.specs.Refused.{the_refusal};
    ghost use Rattle.typed_tree.specs.declared.fault.TypeFault.TheVariants.{Memory};

    /// No members.
    pub(crate) fn none(alloc: Global) -> Members
        ensures designators { result.designators.items ≡ [] }
        ensures values { result.values.items ≡ [] }
        ensures host { result.host ≡ None }
    {
        Members {
            designators: Vec::new(alloc),
            values: Vec::new(alloc),
            host: None,
        }
    }

    /// There is room for one more, of so many values.
    pub(crate) fn make_room(&mut self, values: usize) -> Made<()>
        ensures designators { self.new.designators.items ≡ self.old.designators.items }
        ensures values { self.new.values.items ≡ self.old.values.items }
        ensures host { self.new.host ≡ self.old.host }
        ensures room { IfOk result (λ _. (vec_len self.new.designators < vec_capacity self.new.designators)
            × (vec_len self.new.values + values ≤ vec_capacity self.new.values)) }
        ensures refused { IfErr result (λ why. why ≡ Memory the_refusal) }
    {
        self.designators.reserve(1)?;
        self.values.reserve(values)?;
        Ok(())
    }
}

/// An expression is entered, behind the site that leads it.
pub(crate) fn begin(typer: &mut Typer, lead: Lead, place: Place) -> Made<Begun>
    ensures { MakesBegun lead place typer.old result typer.new }
{
    let site = typer.behind(lead, place)?;
    let number = typer.enter()?;
    Ok(Begun { number, site })
}

/// The value of a constant of an ordinal type.
#[tactic(auto, using(crate::proofs::HeldForms::held_constant))]
pub(crate) fn constant(begun: Begun, value: i32, type_id: TypeId) -> TypedExpr
    ensures is { typed_of result ≡ typed type_id begun.site }
    ensures looks { look_value result.value ≡ Constant begun.number value ∷ [] }
{
    let Begun { number, site } = begun;
    let value = Value::Ordinal {
        type_id,
        value: Expr::Constant { number, value },
    };
    TypedExpr { value, site }
}

/// The value of a string of a type, which is entered behind its leading site.
pub(crate) fn text(
    typer: &mut Typer,
    site: Option<u32>,
    type_id: TypeId,
    characters: Vec<u8>,
) -> Made<TypedExpr>
    ensures { MakesTyped (text_entered site type_id characters.items typer.old) result typer.new }
{
    let number = typer.enter()?;
    let value = Value::Text {
        type_id,
        number,
        characters,
    };
    Ok(TypedExpr { value, site })
}

/// A set of members (6.7.1), which is entered.
#[tactic(auto, using(crate::proofs::HeldForms::held_set, typed_tree::proofs::Looks::look_set))]
pub(crate) fn set(begun: Begun, members: Members) -> TypedExpr
    ensures { IsSetOf begun members result }
{
    let Begun { number, site } = begun;
    let (host, packed) = (members.host, None);
    let base = SetBase { host, packed };
    let value = Expr::Set {
        number,
        designators: members.designators,
        members: members.values,
    };
    let value = Value::Set { base, value };
    TypedExpr { value, site }
}

/// The variable, or the field of a record of a with, that a name denotes: K2 where it denotes none.
#[tactic(auto, using(crate::proofs::Selecting::plain_variable))]
pub fn named_variable(typer: &mut Typer, name: &Name) -> Made<DenotedVariable>
    ensures made { MakesVariable (named_variable name.now typer.old) result typer.new }
    ensures plain { IfOk result (λ made. index_count made.selectors.items ≡ 0) }
{
    let denotation = typer.find(name)?;
    typer.variable_of(name.place, denotation)
}

/// A variable is entered, at the place of its name: its test, the leading site, and its number.
#[tactic(auto, unfolding(crate::specs::Accesses::begun))]
pub(crate) fn enter(
    typer: &mut Typer,
    root: u32,
    base: Base,
    place: Place,
    lead: Lead,
) -> Made<Entered>
    ensures { MakesEntered (origin_by root base) (begun place lead typer.old) result typer.new }
{
    let defined = typer.site(SiteKind::UndefinedVariable, place)?;
    let Begun { number, site } = begin(typer, lead, place)?;
    Ok(Entered {
        number,
        root,
        base,
        defined,
        site,
    })
}

/// The field of a name of what was selected so far (6.5.3.3).
pub(crate) fn select_field(typer: &mut Typer, name: &Name, selection: &mut Selection) -> Made<()>
    ensures { SelectsField name.now typer.old selection.old result selection.new typer.new }
{
    typer.pass(name.place);
    let field = typer.field_named(selection.type_id, name)?;
    selection.selectors.push(Selector::Field {
        position: field.position,
        offset: field.offset,
    })?;
    selection.type_id = field.type_id;
    Ok(())
}

/// The value of what is selected of a variable: an ordinal, which is of the host type (6.7.1), a set, or a structured
/// value.
pub(crate) fn accessed_value(typer: &Typer, entered: Entered, selection: Selection) -> TypedExpr
    requires counted { IsCounted selection }
    ensures { valued entered selection typer.now ≡ Ok (after (typed_of result) (look_value result.value) typer.now) }
{
    let (defined, site) = (entered.defined, entered.site);
    let (indexes, type_id) = (selection.indexes, selection.type_id);
    let access = Access {
        number: entered.number,
        root: entered.root,
        base: entered.base,
        selectors: selection.selectors,
    };
    let kind = typer.types().kind(type_id);
    if let Some(TypeKind::Structured) = kind {
        let cells = typer.types().cells(type_id);
        let value = Value::Variable {
            type_id,
            access,
            indexes,
            cells,
            defined,
        };
        return TypedExpr { value, site };
    }
    if let Some(TypeKind::Set { base, .. }) = kind {
        let value = read(access, indexes, Scalar::Set, defined);
        let value = Value::Set { base, value };
        return TypedExpr { value, site };
    }
    let type_id = typer.types().host(type_id);
    let value = read(access, indexes, Scalar::Ordinal, defined);
    let value = Value::Ordinal { type_id, value };
    TypedExpr { value, site }
}

// What an ordinal or a set variable holds, which is tested at a site.
#[tactic(auto, using(crate::proofs::HeldForms::read_forms))]
fn read(access: Access, indexes: Vec<Expr>, holds: Scalar, defined: u32) -> Expr
    requires held { are_ordinal_indexes indexes.items ≡ true }
    ensures looks { look_expr result ≡ look_access access indexes.items
        (look.Value (origin_of access) access.selectors.items (length indexes.items) holds defined) }
    ensures held { is_held holds (held_by result) ≡ true }
{
    Expr::Variable {
        access,
        indexes,
        holds,
        defined,
    }
}
