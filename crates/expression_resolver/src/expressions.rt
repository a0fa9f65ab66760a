ghost use Rattle.std.specs.Prelude.{◌≡◌, ℕ, true, [], ◌∷◌, Ok, Err, IfOk, MatchResult, length, map};
ghost use Rattle.syntax_tree.specs.Places.{members_of};
ghost use Rattle.types.specs.Types.{kind_of};
ghost use Rattle.typed_tree.specs.Accesses.{index_count, origin_of};
ghost use Rattle.typed_tree.specs.Kinds.{held_by, is_held, is_held_passed, is_held_value, is_ordinal_expr};
ghost use Rattle.typed_tree.specs.declared.tree.Scalar.TheVariants as scalar;
ghost use Rattle.typed_tree.specs.Look.{Begins};
ghost use Rattle.typed_tree.specs.WellFormed.{members_wanted};
ghost use Rattle.typing.specs.Passing.{behind_marks};
ghost use Rattle.typing.specs.Expressions as spec;
ghost use Rattle.typing.specs.Expressions.{result_variable};
ghost use Rattle.typing.specs.View.{denoted_of};
ghost use Rattle.expression_resolver.specs.Made.{IsHostOf, MakesActuals, MakesCall, MakesPassed};
ghost use Rattle.expression_resolver.specs.Made.{MakesCopied, MakesFitted, copied, fitted};
ghost use Rattle.expression_resolver.specs.Made.{AreHeldLinks, MakesTyped, MakesLink, MakesLinks, MakesRight};
ghost use Rattle.expression_resolver.specs.Made.{is_alone, relates, typed_of};
ghost use Rattle.expression_resolver.specs.Made.{MakesFirst, MakesLast, MakesMembers, TakesMember, range_behind};
ghost use Rattle.expression_resolver.specs.Accesses.{MakesSelection, MakesIndex, SelectsElement, SelectsOne, IsCounted};
ghost use Rattle.expression_resolver.specs.Accesses.{MakesReached, component_of, entire_value, reached};
ghost use Rattle.expression_resolver.specs.Values.{AreTestedAlike, are_held_actuals, look_value, tested_as, value_of};

use crate::accesses::{accessed_value, begin, constant, enter, select_field, set, text};
use crate::forms::{fits, only};
use crate::input::{input_call, input_value};
use crate::operators::{self, monadic};
use crate::owned::made_beside;
use crate::typed::{Begun, Members, RightOperand, Selection, SitedMember, TypedLinks};
use crate::{Lead, Reached, TypedCall, TypedExpr, Value, first_place, named_variable};
use place::Place;
use scopes::Denotation;
use syntax_tree::{Actual, Designator, Expr, Link, Name, RelationalOperator, Selector};
use typed_tree::tree::{
    self, Access, Calculation, Call, Fitted, Monadic, Passed, RangeTest, Scalar, VariableKind,
    Whole,
};
use typed_tree::{SiteKind, TypeFault};
use types::{ArrayElement, TypeId, TypeKind, TypeTable};
use typing::{DenotedVariable, Made, Typer, characters};
use typing_rules::{
    Typed, as_function, copying, fitting, may_index, may_relate, member_of, member_with_site,
    members_test, relation_behind, result_of, sign_operation, test_kind,
};

/// An expression, by the kind of its leading site.
#[cycle(expressions)]
#[tactic(auto, using(typing::proofs::Written::written_expressions))]
pub fn expression(typer: &mut Typer, written: &Expr, lead: Lead) -> Made<TypedExpr>
    ensures { MakesTyped ((spec.expression written.now).typing lead typer.old) result typer.new }
{
    match written {
        Expr::Number { value, place } => number(typer, *value, *place, lead),
        Expr::Name(name) => {
            let denotation = typer.find(name)?;
            if let Denotation::Routine { block, is_function } = denotation {
                return function_value(typer, block, is_function, name.place, &[], lead);
            }
            denoted(typer, denotation, name.place, lead)
        }
        Expr::Component {
            name,
            selectors,
            indexes,
        } => component(typer, name, selectors, indexes, lead),
        Expr::String { text, place } => string(typer, text, *place, lead),
        Expr::Set {
            open,
            designators,
            members,
        } => constructed(typer, *open, designators, members, lead),
        Expr::Call { name, actuals } => call(typer, name, actuals, lead),
        Expr::Parenthesized { open, inner } => parenthesized(typer, *open, inner, lead),
        Expr::Not { place, operand } => negation(typer, *place, operand, lead),
        Expr::Signed { sign, place, term } => {
            prefixed(
                typer,
                TypeTable::INTEGER,
                sign_operation(*sign),
                *place,
                term,
                lead,
            )
        }
        Expr::Chain { first, rest } => {
            let place = first_place(first);
            let left = expression(typer, first, lead)?;
            chain(typer, place, left, rest)
        }
        Expr::Relation {
            left,
            operator,
            place,
            right,
        } => {
            let left = expression(typer, left, lead)?;
            relation(typer, left, *operator, *place, right)
        }
    }
}

// A number, which is at most maxint.
#[tactic(auto, unfolding(typing::specs::Expressions::number))]
fn number(typer: &mut Typer, value: u32, place: Place, lead: Lead) -> Made<TypedExpr>
    ensures { MakesTyped (spec.number value place lead typer.old) result typer.new }
{
    typer.pass(place);
    let Ok(value) = i32::try_from(value) else {
        return Err(TypeFault::Mismatch(place));
    };
    let begun = begin(typer, lead, place)?;
    Ok(constant(begun, value, TypeTable::INTEGER))
}

// A string (6.1.7).
#[tactic(auto, unfolding(typing::specs::Expressions::string))]
fn string(typer: &mut Typer, text: &[u8], place: Place, lead: Lead) -> Made<TypedExpr>
    ensures { MakesTyped (spec.string text.now place lead typer.old) result typer.new }
{
    typer.pass(place);
    let site = typer.behind(lead, place)?;
    let characters = characters(typer.alloc, place, text)?;
    spelled(typer, place, site, characters)
}

// The value of a string: one character is a constant of type char, more are a string of a type of its own.
#[tactic(auto, unfolding(typing::specs::Expressions::spelled))]
fn spelled(typer: &mut Typer, place: Place, site: Option<u32>, spelling: Vec<u8>) -> Made<TypedExpr>
    ensures { MakesTyped (spec.spelled place site spelling.items typer.old) result typer.new }
{
    if let [character] = spelling.as_slice() {
        let value = i32::from(*character);
        let number = typer.enter()?;
        let begun = Begun { number, site };
        return Ok(constant(begun, value, TypeTable::CHAR));
    }
    let type_id = typer.string_type(place, spelling.len())?;
    text(typer, site, type_id, spelling)
}

// What a name denotes that is no routine of the program, as an expression: a constant, a variable, or a field of a
// record of a with.
#[tactic(auto, unfolding(typing::specs::Expressions::denoted))]
fn denoted(typer: &mut Typer, denotation: Denotation, place: Place, lead: Lead) -> Made<TypedExpr>
    requires { is_alone denotation ≡ true }
    ensures { MakesTyped (spec.denoted denotation place lead typer.old) result typer.new }
{
    match denotation {
        Denotation::Constant { value, type_id } => {
            let begun = begin(typer, lead, place)?;
            Ok(constant(begun, value, type_id))
        }
        Denotation::Text { number, type_id } => {
            let site = typer.behind(lead, place)?;
            let characters = typer.text_at(number)?;
            text(typer, site, type_id, characters)
        }
        Denotation::Variable { .. } | Denotation::Field { .. } => {
            entire(typer, denotation, place, lead)
        }
        Denotation::Procedure(_) | Denotation::Function(_) => {
            Err(TypeFault::WrongParameters(place))
        }
        Denotation::InputFunction(function) => input_value(typer, function, place, lead),
        Denotation::TypeName(_) | Denotation::File(_) => Err(TypeFault::Mismatch(place)),
        Denotation::Routine { .. } => unreachable!(),
    }
}

// The value of a variable, or of a field of a record of a with.
fn entire(typer: &mut Typer, denotation: Denotation, place: Place, lead: Lead) -> Made<TypedExpr>
    ensures { MakesTyped (entire_value denotation place lead typer.old) result typer.new }
{
    let DenotedVariable {
        root,
        base,
        selectors,
        type_id,
        ..
    } = typer.variable_of(place, denotation)?;
    let entered = enter(typer, root, base, place, lead)?;
    let selection = Selection::begun(typer.alloc, selectors, type_id);
    Ok(accessed_value(typer, entered, selection))
}

// A component of a variable (6.5.1, 6.5.3).
#[cycle(expressions)]
#[tactic(auto, unfolding(typing::specs::Expressions::component))]
fn component(
    typer: &mut Typer,
    name: &Name,
    selectors: &[Selector],
    indexes: &[Expr],
    lead: Lead,
) -> Made<TypedExpr>
    ensures { MakesTyped (spec.component name.now selectors.now (map spec.expression indexes.now) lead typer.old) result
        typer.new }
{
    let variable = named_variable(typer, name)?;
    let DenotedVariable {
        root,
        base,
        selectors: before,
        type_id,
        ..
    } = variable;
    let entered = enter(typer, root, base, name.place, lead)?;
    let selection = selected(typer, before, type_id, selectors, indexes)?;
    Ok(accessed_value(typer, entered, selection))
}

// The selectors of an access, behind those before, from a value of a type, with their index expressions (6.5.3): K1
// where one is none of the type before it, S3 at a name that is no field.
#[cycle(expressions)]
fn selected(
    typer: &mut Typer,
    before: Vec<tree::Selector>,
    type_id: TypeId,
    selectors: &[Selector],
    indexes: &[Expr],
) -> Made<Selection>
    requires plain { index_count before.items ≡ 0 }
    ensures made { MakesSelection (spec.selected before.items type_id selectors.now (map spec.expression indexes.now)
        typer.old) result typer.new }
    ensures counted { IfOk result IsCounted }
{
    let mut selection = Selection::begun(typer.alloc, before, type_id);
    for selector in selectors {
        select(typer, selector, indexes, &mut selection)?;
    }
    Ok(selection)
}

// One selector more: an index takes the next index expression.
#[cycle(expressions)]
fn select(
    typer: &mut Typer,
    selector: &Selector,
    indexes: &[Expr],
    selection: &mut Selection,
) -> Made<()>
    ensures { SelectsOne selector.now indexes.now typer.old selection.old result selection.new typer.new }
{
    match selector {
        Selector::Field(name) => select_field(typer, name, selection),
        Selector::Index { place, .. } => {
            let Some(index) = indexes.get(selection.indexes.len()) else {
                return Err(TypeFault::Mismatch(*place));
            };
            select_element(typer, *place, index, selection)
        }
    }
}

// An element of what was selected so far, by its index (6.5.3.2).
#[cycle(expressions)]
fn select_element(
    typer: &mut Typer,
    place: Place,
    written: &Expr,
    selection: &mut Selection,
) -> Made<()>
    ensures { SelectsElement place (spec.expression written.now) typer.old selection.old result selection.new
        typer.new }
{
    typer.pass(place);
    let element = typer.element(selection.type_id, place)?;
    let (site, index) = index(typer, element, written)?;
    let fits = RangeTest {
        site,
        tests: Scalar::Ordinal,
        range: element.range,
    };
    let cells = element.cells;
    selection
        .selectors
        .push(tree::Selector::Element { fits, cells })?;
    selection.indexes.push(index)?;
    selection.type_id = element.type_id;
    Ok(())
}

// An index of elements, by the id of its site, which stands before those of its first token.
#[cycle(expressions)]
#[tactic(auto, unfolding(typing::specs::Expressions::index))]
fn index(typer: &mut Typer, element: ArrayElement, written: &Expr) -> Made<(u32, tree::Expr)>
    ensures made { MakesIndex (spec.index element (spec.expression written.now) typer.old) result typer.new }
    ensures held { IfOk result (λ made. is_ordinal_expr made.1 ≡ true) }
{
    let place = first_place(written);
    let site = typer.site(SiteKind::Index, place)?;
    let made = expression(typer, written, None)?;
    let site = fits(may_index(typer.types(), element, made.typed()), place, site);
    made.scalar_with(site)
}

#[cycle(expressions)]
#[tactic(auto, unfolding(typing::specs::Expressions::parenthesized))]
fn parenthesized(typer: &mut Typer, bracket: Place, inner: &Expr, lead: Lead) -> Made<TypedExpr>
    ensures { MakesTyped (spec.parenthesized bracket (spec.expression inner.now) lead typer.old) result typer.new }
{
    typer.pass(bracket);
    let site = typer.behind(lead, bracket)?;
    let inner = expression(typer, inner, None)?;
    let value = inner.value;
    Ok(TypedExpr { value, site })
}

// `not` and its operand (6.7.2.3).
#[cycle(expressions)]
fn negation(typer: &mut Typer, place: Place, operand: &Expr, lead: Lead) -> Made<TypedExpr>
    ensures { MakesTyped (spec.negation place (spec.expression operand.now) lead typer.old) result typer.new }
{
    let operation = Monadic::Plain(Calculation::Complement);
    prefixed(typer, TypeTable::BOOLEAN, operation, place, operand, lead)
}

// An operation before an operand of a type, which its result is of too.
#[cycle(expressions)]
#[tactic(auto, unfolding(typing::specs::Expressions::prefixed))]
fn prefixed(
    typer: &mut Typer,
    type_id: TypeId,
    operation: Monadic,
    place: Place,
    operand: &Expr,
    lead: Lead,
) -> Made<TypedExpr>
    ensures { MakesTyped (spec.prefixed type_id operation place (spec.expression operand.now) lead typer.old) result
        typer.new }
{
    typer.pass(place);
    let begun = begin(typer, lead, place)?;
    let operand = expression(typer, operand, None)?.of(type_id, place)?;
    monadic(typer.alloc, begun, operation, operand, type_id)
}

// A chain of operators behind its first operand, which begins at the place.
#[cycle(expressions)]
fn chain(typer: &mut Typer, place: Place, left: TypedExpr, rest: &[Link]) -> Made<TypedExpr>
    ensures { MakesTyped (behind_marks (Begins ∷ look_value left.value) (spec.chain_behind place (map spec.written_link
        rest.now) (typed_of left) typer.old)) result typer.new }
{
    let rest = links(typer, left.typed(), rest);
    operators::chain(typer.alloc, place, left, rest)
}

// The operators of a chain, behind what stands to their left.
#[cycle(expressions)]
fn links(typer: &mut Typer, left: Typed, rest: &[Link]) -> Made<TypedLinks>
    ensures made { MakesLinks (spec.links left (map spec.written_link rest.now) typer.old) result typer.new }
    ensures held { IfOk result (λ made. AreHeldLinks left.value made.typed.value made.links.items) }
{
    let mut links = Vec::with_capacity(typer.alloc, rest.len())?;
    let mut typed = left;
    for written in rest {
        let (link, now) = link(typer, typed, written)?;
        links.push_reserved(link);
        typed = now;
    }
    Ok(TypedLinks { links, typed })
}

// An operator and its right operand, and what they make of what stands to their left.
#[cycle(expressions)]
#[tactic(auto, using(typing::proofs::Written::typing_link), unfolding(typing::specs::Expressions::link))]
fn link(typer: &mut Typer, left: Typed, written: &Link) -> Made<(tree::Link, Typed)>
    ensures made { MakesLink (spec.written_link written.now left typer.old) result typer.new }
    ensures held { IfOk result (λ made. AreHeldLinks left.value (made.1).value (made.0 ∷ [])) }
{
    let place = written.place;
    let operation = typer.operation_behind(written.operator, place, left)?;
    let number = typer.enter()?;
    let right = expression(typer, &written.operand, None)?;
    let value = result_of(written.operator, left.value, right.typed().value).ok_or(
        TypeFault::Mismatch(place),
    );
    let (value, operand) = right.scalar_with(value)?;
    let link = tree::Link {
        number,
        operation,
        operand,
    };
    let site = left.site;
    Ok((link, Typed { value, site }))
}

// A relation behind its left operand (6.7.2.5).
#[cycle(expressions)]
fn relation(
    typer: &mut Typer,
    left: TypedExpr,
    operator: RelationalOperator,
    place: Place,
    right: &Expr,
) -> Made<TypedExpr>
    ensures { MakesTyped (behind_marks (Begins ∷ look_value left.value) (spec.relation_behind operator place
        (spec.expression right.now) (typed_of left) typer.old)) result typer.new }
{
    let right = right_operand(typer, left.typed(), operator, place, right);
    operators::relation(typer.alloc, left, right)
}

// The right operand of a relation, behind the left one: K1 at its operator where it doesn't relate its operands.
#[cycle(expressions)]
#[tactic(auto, using(crate::proofs::Operands::compares_look))]
fn right_operand(
    typer: &mut Typer,
    left: Typed,
    operator: RelationalOperator,
    place: Place,
    written: &Expr,
) -> Made<RightOperand>
    ensures made { MakesRight left (spec.relation_behind operator place (spec.expression written.now) left typer.old)
        result typer.new }
    ensures related { IfOk result (λ made. relates made.operation left.value (value_of made.operand.value) ≡ true) }
{
    let operation = relation_behind(operator, left.value).ok_or(TypeFault::Mismatch(place))?;
    let number = typer.enter()?;
    let operand = expression(typer, written, None)?;
    if !may_relate(typer.types(), operator, left, operand.typed()) {
        drop(operand);
        return Err(TypeFault::Mismatch(place));
    }
    Ok(RightOperand {
        number,
        operation,
        operand,
    })
}

// A set constructor (6.7.1).
#[cycle(expressions)]
#[tactic(auto, unfolding(typing::specs::Expressions::constructed))]
fn constructed(
    typer: &mut Typer,
    bracket: Place,
    designators: &[Designator],
    values: &[Expr],
    lead: Lead,
) -> Made<TypedExpr>
    ensures { MakesTyped (spec.constructed bracket (members_of designators.now (map spec.expression values.now)) lead
        typer.old) result typer.new }
{
    typer.pass(bracket);
    let begun = begin(typer, lead, bracket)?;
    let members = members(typer, designators, values)?;
    Ok(set(begun, members))
}

// The members of a set constructor, one after another.
#[cycle(expressions)]
fn members(typer: &mut Typer, designators: &[Designator], values: &[Expr]) -> Made<Members>
    ensures made { MakesMembers (spec.members [] None (members_of designators.now (map spec.expression values.now))
        typer.old) result typer.new }
    ensures counted { IfOk result (λ made. members_wanted made.designators.items ≡ length made.values.items) }
{
    let mut made = Members::none(typer.alloc);
    for designator in designators {
        let taken = made.values.len();
        let Some(first) = values.get(taken) else {
            return Ok(made);
        };
        match designator {
            Designator::Single => single(typer, first, &mut made)?,
            Designator::Range => {
                let Some(last) = values.get(taken + 1) else {
                    return Ok(made);
                };
                let first = first_member(typer, made.host, first)?;
                range(typer, first, last, &mut made)?;
            }
        }
    }
    Ok(made)
}

// A member by its value.
#[cycle(expressions)]
#[tactic(auto, unfolding(typing::specs::Expressions::member))]
fn single(typer: &mut Typer, written: &Expr, made: &mut Members) -> Made<()>
    ensures { TakesMember 1 (spec.member made.old.host (spec.expression written.now) None typer.old) made.old result
        made.new typer.new }
{
    made.make_room(1)?;
    let first = first_member(typer, made.host, written)?;
    made.values.push_reserved(first.value);
    let site = first.site;
    made.designators
        .push_reserved(tree::Designator::Single { site });
    made.host = Some(first.type_id);
    Ok(())
}

// Members by the first and the last of their values.
#[cycle(expressions)]
fn range(typer: &mut Typer, first: SitedMember, last: &Expr, made: &mut Members) -> Made<()>
    ensures { TakesMember 2 (range_behind first (spec.expression last.now) typer.old) made.old result made.new
        typer.new }
{
    made_beside!(made.make_room(2), first);
    let site = first.site;
    let (type_id, last) = made_beside!(last_member(typer, Some(first.type_id), last), first);
    made.values.push_reserved(first.value);
    made.values.push_reserved(last);
    made.designators
        .push_reserved(tree::Designator::Range { site });
    made.host = Some(type_id);
    Ok(())
}

// A member that stands alone, or first in a range, by the host type of those before it: K1 at its first token where it
// is no ordinal of that type.
#[cycle(expressions)]
#[tactic(auto, unfolding(typing::specs::Expressions::first_member))]
fn first_member(typer: &mut Typer, host: Option<TypeId>, written: &Expr) -> Made<SitedMember>
    ensures { MakesFirst (spec.first_member host (spec.expression written.now) typer.old) result typer.new }
{
    let made = expression(typer, written, Some(SiteKind::SetMember))?;
    let member = member_with_site(host, first_place(written), made.typed());
    let ((site, type_id), value) = made.scalar_with(member)?;
    Ok(SitedMember {
        site,
        type_id,
        value,
    })
}

// The last member of a range.
#[cycle(expressions)]
#[tactic(auto, unfolding(typing::specs::Expressions::last_member))]
fn last_member(
    typer: &mut Typer,
    host: Option<TypeId>,
    written: &Expr,
) -> Made<(TypeId, tree::Expr)>
    ensures made { MakesLast (spec.last_member host (spec.expression written.now) typer.old) result typer.new }
    ensures held { IfOk result (λ made. is_ordinal_expr made.1 ≡ true) }
{
    let made = expression(typer, written, None)?;
    let type_id = member_of(host, first_place(written), made.typed());
    made.scalar_with(type_id)
}

// The call of a function: of one that the program declares, or of a required one.
#[cycle(expressions)]
#[tactic(auto, unfolding(typing::specs::Expressions::call))]
fn call(typer: &mut Typer, name: &Name, actuals: &[Actual], lead: Lead) -> Made<TypedExpr>
    ensures { MakesTyped (spec.call name.now (map spec.written_actual actuals.now) lead typer.old) result typer.new }
{
    let denotation = typer.find(name)?;
    match denotation {
        Denotation::Routine { block, is_function } => {
            function_value(typer, block, is_function, name.place, actuals, lead)
        }
        Denotation::InputFunction(function) => {
            input_call(typer, function, name.place, actuals, lead)
        }
        _ => required_call(typer, denotation, name, actuals, lead),
    }
}

// The call of a required function (6.6.6).
#[cycle(expressions)]
#[tactic(auto, unfolding(typing::specs::Expressions::required_call))]
fn required_call(
    typer: &mut Typer,
    denotation: Denotation,
    name: &Name,
    actuals: &[Actual],
    lead: Lead,
) -> Made<TypedExpr>
    ensures { MakesTyped (spec.required_call denotation name.now (map spec.written_actual actuals.now) lead typer.old)
        result typer.new }
{
    let function = as_function(name.place, denotation)?;
    let does = typer.begin_function(function.does, name.place)?;
    let begun = begin(typer, lead, name.place)?;
    let actual = only(name.place, actuals)?;
    let place = first_place(actual);
    let argument = expression(typer, actual, None)?;
    let applied = typer.applied(function, does, place, argument.typed());
    let ((operation, type_id), operand) = argument.scalar_with(applied)?;
    monadic(typer.alloc, begun, operation, operand, type_id)
}

// The value of a function that the program declares (6.7.3), which is of the host type: K3 at the name of a procedure.
#[cycle(expressions)]
#[tactic(auto, using(crate::proofs::HeldForms::held_call), unfolding(typing::specs::Expressions::function_value))]
fn function_value(
    typer: &mut Typer,
    block: u32,
    is_function: bool,
    place: Place,
    actuals: &[Actual],
    lead: Lead,
) -> Made<TypedExpr>
    ensures { MakesTyped (spec.function_value block is_function place (map spec.written_actual actuals.now) lead
        typer.old) result typer.new }
{
    if !is_function {
        return Err(TypeFault::WrongParameters(place));
    }
    typer.pass(place);
    let site = typer.behind(lead, place)?;
    let made = routine_call(typer, true, block, place, actuals)?;
    let type_id = made_beside!(result_type(typer, place, made.root), made);
    let value = tree::Expr::Call {
        call: made.call,
        actuals: made.actuals,
    };
    Ok(TypedExpr {
        value: Value::Ordinal { type_id, value },
        site,
    })
}

// The type of a function's result, by its root: the host type.
#[tactic(auto)]
fn result_type(typer: &Typer, place: Place, root: Option<u32>) -> Made<TypeId>
    ensures { IsHostOf (result_variable root typer.now) place result typer.now }
{
    let Some(root) = root else {
        return Err(TypeFault::WrongParameters(place));
    };
    let Some(variable) = typer.variable_at(root) else {
        return Err(TypeFault::WrongParameters(place));
    };
    Ok(typer.types().host(variable.type_id))
}

/// The call of a block, a function's or a procedure's, at the place of its name: K3 where the number of actual
/// parameters is wrong.
#[cycle(expressions)]
#[tactic(auto, unfolding(typing::specs::Expressions::routine_call))]
pub fn routine_call(
    typer: &mut Typer,
    is_function: bool,
    block: u32,
    place: Place,
    actuals: &[Actual],
) -> Made<TypedCall>
    ensures { MakesCall is_function (spec.routine_call is_function block place (map spec.written_actual actuals.now)
        typer.old) result typer.new }
{
    let number = typer.enter()?;
    let found = typer.callee(block, actuals.len(), place)?;
    let passed = actuals_for(typer, &found.parameters, actuals)?;
    Ok(TypedCall {
        call: Call {
            number,
            name: place,
            block,
        },
        actuals: passed,
        root: found.root,
    })
}

// Actual parameters for as many formal ones, by the roots of these.
#[cycle(expressions)]
fn actuals_for(typer: &mut Typer, roots: &[u32], actuals: &[Actual]) -> Made<Vec<Passed>>
    requires { length actuals.now ≡ length roots.now }
    ensures counted { IfOk result (λ made. length made.items ≡ length actuals.now) }
    ensures held { IfOk result (λ made. are_held_actuals made.items ≡ true) }
    ensures made { (callee : ℕ) → MakesActuals callee (spec.actuals_for roots.now (map spec.written_actual actuals.now)
        callee 0 typer.old) result typer.new }
{
    let mut made = Vec::with_capacity(typer.alloc, actuals.len())?;
    for i in 0..actuals.len() {
        made.push_reserved(actual(typer, roots[i], &actuals[i])?);
    }
    Ok(made)
}

// An actual parameter, by what the formal one is, which has this root.
#[cycle(expressions)]
#[tactic(auto, unfolding(typing::specs::Expressions::actual))]
fn actual(typer: &mut Typer, root: u32, written: &Actual) -> Made<Passed>
    ensures made { MakesPassed (spec.actual (spec.written_actual written.now) root) typer.old result typer.new }
    ensures held { IfOk result (λ made. is_held_passed made ≡ true) }
{
    let place = first_place(&written.value);
    if written.width.is_some() {
        return Err(TypeFault::WrongParameters(place));
    }
    match typer.variable_at(root) {
        None => Err(TypeFault::WrongParameters(place)),
        Some(formal) => match formal.kind {
            VariableKind::VariableParameter => {
                passed_variable(typer, formal.type_id, &written.value)
            }
            _ => passed_value(typer, formal.type_id, &written.value),
        },
    }
}

// A variable for a variable parameter of a type (6.6.3.3): K2 at the first token of what is none.
#[cycle(expressions)]
#[tactic(auto, using(typing::proofs::Written::written_expressions), unfolding(typing::specs::Expressions::no_variable))]
fn passed_variable(typer: &mut Typer, wanted: TypeId, written: &Expr) -> Made<Passed>
    ensures made { MakesPassed ((spec.expression written.now).passing wanted) typer.old result typer.new }
    ensures held { IfOk result (λ made. is_held_passed made ≡ true) }
{
    match written {
        Expr::Name(name) => passed_access(typer, wanted, name, &[], &[]),
        Expr::Component {
            name,
            selectors,
            indexes,
        } => passed_access(typer, wanted, name, selectors, indexes),
        Expr::Number { place, .. }
        | Expr::String { place, .. }
        | Expr::Not { place, .. }
        | Expr::Signed { place, .. } => Err(TypeFault::NotVariable(*place)),
        Expr::Set { open, .. } => Err(TypeFault::NotVariable(*open)),
        Expr::Call { name, .. } => Err(TypeFault::NotVariable(name.place)),
        Expr::Parenthesized { open, .. } => Err(TypeFault::NotVariable(*open)),
        Expr::Chain { first, .. } => Err(TypeFault::NotVariable(first_place(first))),
        Expr::Relation { left, .. } => Err(TypeFault::NotVariable(first_place(left))),
    }
}

// What is accessed for a variable parameter of a type.
#[cycle(expressions)]
#[tactic(auto, using(crate::proofs::HeldForms::held_access), unfolding(typing::specs::Expressions::passed_variable))]
fn passed_access(
    typer: &mut Typer,
    wanted: TypeId,
    name: &Name,
    selectors: &[Selector],
    indexes: &[Expr],
) -> Made<Passed>
    ensures made { MakesPassed (spec.passed_variable name.now selectors.now (map spec.expression indexes.now) wanted)
        typer.old result typer.new }
    ensures held { IfOk result (λ made. is_held_passed made ≡ true) }
{
    let variable = named_variable(typer, name)?;
    let from = variable.from;
    let reached = reach(typer, name.place, variable, selectors, indexes)?;
    let selected = &reached.access.selectors;
    made_beside!(
        typer.passable(wanted, from, selected, reached.type_id, name.place),
        reached
    );
    Ok(Passed::Reference {
        type_id: wanted,
        access: reached.access,
        indexes: reached.indexes,
    })
}

/// What is accessed of a variable that may be changed, by what its name at the place denotes.
#[cycle(expressions)]
#[tactic(auto, unfolding(crate::specs::Accesses::reached))]
pub fn reach(
    typer: &mut Typer,
    place: Place,
    variable: DenotedVariable,
    selectors: &[Selector],
    indexes: &[Expr],
) -> Made<Reached>
    requires plain { index_count variable.selectors.items ≡ 0 }
    ensures made { MakesReached (reached place (denoted_of variable) selectors.now (map spec.expression indexes.now)
        typer.old) result typer.new }
    ensures origin { IfOk result (λ made. origin_of made.access ≡ (denoted_of variable).origin) }
    ensures counted { IfOk result (λ made. index_count made.access.selectors.items ≡ length made.indexes.items) }
{
    typer.may_change(place, variable.root)?;
    access(typer, variable, selectors, indexes)
}

/// What is accessed of what a name denotes.
#[cycle(expressions)]
#[tactic(auto, unfolding(crate::specs::Accesses::component_of))]
pub fn access(
    typer: &mut Typer,
    variable: DenotedVariable,
    selectors: &[Selector],
    indexes: &[Expr],
) -> Made<Reached>
    requires plain { index_count variable.selectors.items ≡ 0 }
    ensures made { MakesReached (component_of (denoted_of variable) selectors.now (map spec.expression indexes.now)
        typer.old) result typer.new }
    ensures origin { IfOk result (λ made. origin_of made.access ≡ (denoted_of variable).origin) }
    ensures counted { IfOk result (λ made. index_count made.access.selectors.items ≡ length made.indexes.items) }
{
    let number = typer.enter()?;
    let DenotedVariable {
        root,
        base,
        selectors: before,
        type_id,
        ..
    } = variable;
    let Selection {
        selectors,
        indexes,
        type_id,
    } = selected(typer, before, type_id, selectors, indexes)?;
    let access = Access {
        number,
        root,
        base,
        selectors,
    };
    Ok(Reached {
        access,
        indexes,
        type_id,
    })
}

// A value for a value parameter of a type (6.6.3.2).
#[cycle(expressions)]
#[tactic(auto, unfolding(typing::specs::Expressions::passed_value))]
fn passed_value(typer: &mut Typer, type_id: TypeId, written: &Expr) -> Made<Passed>
    ensures made { MakesPassed (spec.passed_value type_id (spec.expression written.now)) typer.old result typer.new }
    ensures held { IfOk result (λ made. is_held_passed made ≡ true) }
{
    match typer.types().kind(type_id) {
        Some(TypeKind::Structured) => passed_whole(typer, type_id, written),
        Some(TypeKind::Set { .. }) => passed_set(typer, type_id, written),
        Some(TypeKind::Ordinal(_)) => passed_ordinal(typer, type_id, written),
        None => passed_ordinal(typer, type_id, written),
    }
}

// A value of a set type, whose site is the leading one.
#[cycle(expressions)]
#[tactic(auto, using(crate::proofs::HeldForms::held_passed_value), unfolding(typing::specs::Expressions::passed_set))]
fn passed_set(typer: &mut Typer, type_id: TypeId, written: &Expr) -> Made<Passed>
    requires { tested_as (kind_of typer.old.types type_id) ≡ scalar.Set }
    ensures made { MakesPassed (spec.passed_set type_id (spec.expression written.now)) typer.old result typer.new }
    ensures held { IfOk result (λ made. is_held_passed made ≡ true) }
{
    let made = expression(typer, written, Some(SiteKind::SetMember))?;
    let fits = members_test(typer.types(), type_id, first_place(written), made.typed());
    let (fits, value) = made.scalar_with(fits)?;
    Ok(Passed::Value { value, fits })
}

// A value of an ordinal type.
#[cycle(expressions)]
#[tactic(auto, using(crate::proofs::HeldForms::held_passed_value))]
fn passed_ordinal(typer: &mut Typer, type_id: TypeId, written: &Expr) -> Made<Passed>
    requires { tested_as (kind_of typer.old.types type_id) ≡ scalar.Ordinal }
    ensures made { MakesPassed (spec.passed_ordinal type_id (spec.expression written.now)) typer.old result typer.new }
    ensures held { IfOk result (λ made. is_held_passed made ≡ true) }
{
    let Fitted { value, fits } = fitted(typer, type_id, first_place(written), written)?;
    Ok(Passed::Value { value, fits })
}

// A value of a structured type.
#[cycle(expressions)]
#[tactic(auto, using(crate::proofs::HeldForms::held_passed_whole), unfolding(typing::specs::Expressions::passed_whole))]
fn passed_whole(typer: &mut Typer, type_id: TypeId, written: &Expr) -> Made<Passed>
    ensures made { MakesPassed (spec.passed_whole type_id (spec.expression written.now)) typer.old result typer.new }
    ensures held { IfOk result (λ made. is_held_passed made ≡ true) }
{
    let (value, indexes) = copied(typer, type_id, first_place(written), written)?;
    Ok(Passed::Whole {
        type_id,
        value,
        indexes,
    })
}

/// A value that is assigned to an ordinal type or a set type, with its test, whose site stands at the place (6.4.6).
#[cycle(expressions)]
#[tactic(auto, unfolding(crate::specs::Made::fitted))]
pub fn fitted(typer: &mut Typer, type_id: TypeId, place: Place, written: &Expr) -> Made<Fitted>
    ensures made { MakesFitted (fitted (tested_as (kind_of typer.old.types type_id)) type_id place
        (spec.expression written.now) typer.old) result typer.new }
    ensures tests { IfOk result (λ made. made.fits.tests ≡ tested_as (kind_of typer.old.types type_id)) }
    ensures held { IfOk result (λ made. is_held made.fits.tests (held_by made.value) ≡ true) }
    ensures kept { IfOk result (λ made. AreTestedAlike typer.old.types typer.new.types) }
{
    let tests = tested_as(typer.types().kind(type_id));
    let site = typer.site(test_kind(tests), place)?;
    let made = expression(typer, written, None)?;
    let range = fitting(typer.types(), type_id, made.typed()).ok_or(TypeFault::Mismatch(place));
    let (range, value) = made.scalar_with(range)?;
    let fits = RangeTest { site, tests, range };
    Ok(Fitted { value, fits })
}

// What is assigned to a target of a kind.
fn tested_as(kind: Option<TypeKind>) -> Scalar
    ensures { result ≡ tested_as kind }
{
    match kind {
        Some(TypeKind::Set { .. }) => Scalar::Set,
        _ => Scalar::Ordinal,
    }
}

/// A value that is copied to a structured type, with its index expressions: K1 at the place where it may not be
/// (6.4.6).
#[cycle(expressions)]
pub fn copied(
    typer: &mut Typer,
    type_id: TypeId,
    place: Place,
    written: &Expr,
) -> Made<(Whole, Vec<tree::Expr>)>
    ensures made { MakesCopied (copied type_id place (spec.expression written.now) typer.old) result typer.new }
    ensures held { IfOk result (λ made. is_held_value made.0 (made.1).items ≡ true) }
{
    let made = expression(typer, written, None)?;
    let copy = copying(typer.types(), type_id, made.typed()).ok_or(TypeFault::Mismatch(place));
    made.whole_with(typer.alloc, copy)
}
