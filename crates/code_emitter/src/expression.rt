ghost use Rattle.std.specs.Prelude.{◌≡◌, false, pos, [], ◌∷◌, ◌++◌, map};
ghost use Rattle.pcode_assembler.specs.declared.instr.Instr.TheVariants.{CallProcedure, CheckDefined, Compare};
ghost use Rattle.pcode_assembler.specs.declared.instr.Instr.TheVariants.{IndexAddress, LoadConstant, LoadMany};
ghost use Rattle.code_scheme.specs.Code.{address_code, calculation_code, call_code, dyadic_code, expr_code};
ghost use Rattle.code_scheme.specs.Code.{fetch_code, field_code, index_codes, link_code, monadic_code, passed_code};
ghost use Rattle.code_scheme.specs.Code.{range_check, reached, relation_instr, selectors_code, set_code, shift_code};
ghost use Rattle.code_scheme.specs.Code.{designators_code, single_code, span_code, union_code, variable_code};
ghost use Rattle.code_scheme.specs.Code.{whole_code};
ghost use Rattle.code_scheme.specs.Depth.{access_depth, call_depth, designators_depth, expr_depth, index_depths};
ghost use Rattle.code_scheme.specs.Depth.{link_depth, monadic_depth, passed_depth, shift_depth, whole_depth};
ghost use Rattle.code_scheme.specs.Scopes.{row_length as length_of_row};
ghost use Rattle.code_scheme.specs.Sizes.{capped};
ghost use Rattle.typed_tree.specs.WellFormed.{length_of};
ghost use Rattle.code_emitter.specs.Emitted.{Gets};

use crate::instrs::{comparison_of, question_of, set_comparison_of, value_check_of};
use crate::{Cell, Emitter, address_in, cell_in_frame, check_of, check_range, positive_at};
use code_scheme::{GREATEST_OFFSET, LINKS, Routine, Scope, selectors_from};
use pcode_assembler::{EMPTY, Instr};
use typed_tree::{
    Access, Calculation, Call, Designator, Dyadic, Expr, Link, Monadic, Passed, RangeTest,
    Relation, Selector, Shift, Whole,
};

/// The greatest member that a set may have.
const GREATEST_MEMBER: i32 = 127;

/// The greatest length that an instruction may have.
const GREATEST_LENGTH: u32 = 65536;

/// The instructions of an expression: its value is pushed.
#[cycle(emit_expr)]
pub fn emit_expr(code: &mut Emitter, scope: &Scope, expr: &Expr) -> u32
    ensures emits { Gets code.old code.new (expr_code scope.now expr.now) }
    ensures needs { result ≡ capped (expr_depth expr.now) }
{
    match expr {
        Expr::Constant { value, .. } => {
            code.put(Instr::LoadConstant { value: *value });
            1
        }
        Expr::Variable {
            access,
            indexes,
            defined,
            ..
        } => emit_variable(code, scope, access, indexes.as_slice(), *defined),
        Expr::Monadic {
            operation,
            operand,
            ..
        } => {
            let depth = emit_expr(code, scope, operand);
            depth.max(emit_monadic(code, *operation))
        }
        Expr::Chain { first, rest } => {
            let mut depth = emit_expr(code, scope, first);
            for link in rest {
                depth = depth.max(emit_link(code, scope, link));
            }
            depth
        }
        Expr::Compare {
            relation,
            left,
            left_indexes,
            right,
            right_indexes,
            ..
        } => {
            let first = emit_whole(code, scope, left, left_indexes.as_slice());
            let second = emit_whole(code, scope, right, right_indexes.as_slice());
            emit_order(code, *relation, row_length(left));
            first.max(second.saturating_add(cells_of_whole(left)).max(2))
        }
        Expr::Call { call, actuals } => emit_call(code, scope, *call, actuals.as_slice()),
        Expr::Input { asks, .. } => {
            code.put(question_of(*asks));
            1
        }
        Expr::Set {
            designators,
            members,
            ..
        } => emit_set(code, scope, designators.as_slice(), members.as_slice()),
    }
}

/// A set constructor: the empty set, or that of each designator, joined to the one before it.
#[cycle(emit_expr)]
fn emit_set(code: &mut Emitter, scope: &Scope, designators: &[Designator], members: &[Expr]) -> u32
    ensures emits { Gets code.old code.new (set_code designators.now (index_codes scope.now members.now)) }
    ensures needs { result ≡ capped (designators_depth 0 designators.now (index_depths members.now)) }
{
    if designators.is_empty() {
        code.put(Instr::LoadSet { members: EMPTY });
        1
    } else {
        emit_designators(code, scope, designators, members)
    }
}

/// The sets of designators, each joined to the one before it: the members of each are evaluated beside that. One
/// without its members ends them.
#[cycle(emit_expr)]
fn emit_designators(
    code: &mut Emitter,
    scope: &Scope,
    designators: &[Designator],
    members: &[Expr],
) -> u32
    ensures emits { Gets code.old code.new
        (designators_code false designators.now (index_codes scope.now members.now)) }
    ensures needs { result ≡ capped (designators_depth 0 designators.now (index_depths members.now)) }
{
    let mut next = 0;
    let mut some = false;
    let mut depth = 1u32;
    for designator in designators {
        let Some(first) = members.get(next) else {
            return depth;
        };
        let held = u32::from(some);
        match *designator {
            Designator::Single { site } => {
                let value = emit_expr(code, scope, first);
                emit_single(code, site, some);
                depth = depth.max(value.saturating_add(held));
                next += 1;
            }
            Designator::Range { site } => {
                let Some(last) = members.get(next + 1) else {
                    return depth;
                };
                let begin = emit_expr(code, scope, first);
                let end = emit_expr(code, scope, last);
                emit_span(code, site, some);
                depth = depth.max(begin.max(end.saturating_add(1)).saturating_add(held));
                next += 2;
            }
        }
        some = true;
    }
    depth
}

/// A call: the links of a new frame, behind them the actual parameters, and the jump to the routine.
#[cycle(emit_expr)]
pub fn emit_call(code: &mut Emitter, scope: &Scope, call: Call, actuals: &[Passed]) -> u32
    ensures emits { Gets code.old code.new (call_code scope.now call (map (passed_code scope.now) actuals.now)) }
    ensures needs { result ≡ capped (call_depth (map passed_depth actuals.now)) }
{
    let routine = scope.routine(call.block);
    let level = scope.links_to(routine.level);
    code.put(Instr::MarkStack { level });
    let mut held = LINKS;
    let mut depth = 0;
    for actual in actuals {
        depth = depth.max(held.saturating_add(emit_passed(code, scope, actual)));
        held = held.saturating_add(cells_of_passed(actual));
    }
    code.put(call_of(routine));
    depth.max(held)
}

/// An actual parameter: a value and its test, the components of a copy, or the address of a variable.
#[cycle(emit_expr)]
fn emit_passed(code: &mut Emitter, scope: &Scope, actual: &Passed) -> u32
    ensures emits { Gets code.old code.new (passed_code scope.now actual.now) }
    ensures needs { result ≡ capped (passed_depth actual.now).depth }
{
    match actual {
        Passed::Value { value, fits } => {
            let depth = emit_expr(code, scope, value);
            code.put(value_check_of(*fits));
            depth
        }
        Passed::Whole { value, indexes, .. } => emit_whole(code, scope, value, indexes.as_slice()),
        Passed::Reference {
            access,
            indexes,
            ..
        } => emit_address(code, scope, access, indexes.as_slice()),
    }
}

/// The right operand, beside the value to its left, and the operation.
#[cycle(emit_expr)]
fn emit_link(code: &mut Emitter, scope: &Scope, link: &Link) -> u32
    ensures emits { Gets code.old code.new (link_code scope.now link.now) }
    ensures needs { result ≡ capped (link_depth link.now) }
{
    let depth = emit_expr(code, scope, &link.operand);
    emit_dyadic(code, link.operation);
    depth.saturating_add(1)
}

/// The value of what is accessed, an ordinal, and its check.
#[cycle(emit_expr)]
fn emit_variable(
    code: &mut Emitter,
    scope: &Scope,
    access: &Access,
    indexes: &[Expr],
    site: u32,
) -> u32
    ensures emits { Gets code.old code.new
        (variable_code scope.now access.now (index_codes scope.now indexes.now) site) }
    ensures needs { result ≡ capped (access_depth access.now.selectors.items (index_depths indexes.now)) }
{
    let depth = emit_fetch(code, scope, access, indexes);
    code.put(Instr::CheckDefined { site, length: 1 });
    depth
}

/// The value of what is accessed: that of a cell of a frame, or what stands at its address.
#[cycle(emit_expr)]
fn emit_fetch(code: &mut Emitter, scope: &Scope, access: &Access, indexes: &[Expr]) -> u32
    ensures emits { Gets code.old code.new
        (fetch_code (reached scope.now access.now (index_codes scope.now indexes.now))) }
    ensures needs { result ≡ capped (access_depth access.now.selectors.items (index_depths indexes.now)) }
{
    match cell_in_frame(scope, access) {
        Some(Cell { level, offset }) => {
            code.put(Instr::Load { level, offset });
            1
        }
        None => {
            let depth = emit_address(code, scope, access, indexes);
            code.put(Instr::LoadIndirect { offset: 0 });
            depth
        }
    }
}

/// A value of several components: each of them, the first one first; those of a variable checked.
#[cycle(emit_expr)]
pub fn emit_whole(code: &mut Emitter, scope: &Scope, value: &Whole, indexes: &[Expr]) -> u32
    ensures emits { Gets code.old code.new
        (whole_code scope.now value.now (index_codes scope.now indexes.now)) }
    ensures needs { result ≡ capped (whole_depth value.now (index_depths indexes.now)) }
{
    match value {
        Whole::Text { characters, .. } => {
            emit_characters(code, characters.as_slice());
            cells_of_whole(value)
        }
        Whole::Variable {
            access,
            cells,
            defined,
            ..
        } => {
            let depth = emit_address(code, scope, access, indexes);
            emit_cells(code, *cells, *defined);
            depth.max(*cells)
        }
    }
}

/// The address of what is accessed.
#[cycle(emit_expr)]
pub fn emit_address(code: &mut Emitter, scope: &Scope, access: &Access, indexes: &[Expr]) -> u32
    ensures emits { Gets code.old code.new
        (address_code scope.now access.now (index_codes scope.now indexes.now)) }
    ensures needs { result ≡ capped (access_depth access.now.selectors.items (index_depths indexes.now)) }
{
    code.put(address_in(scope, access));
    let refers = scope.begun(access).refers;
    let selectors = selectors_from(refers, access.selectors.as_slice());
    emit_selectors(code, scope, selectors, indexes)
}

/// From an address to what is selected from it: each index is evaluated beside it.
#[cycle(emit_expr)]
fn emit_selectors(
    code: &mut Emitter,
    scope: &Scope,
    selectors: &[Selector],
    indexes: &[Expr],
) -> u32
    ensures emits { Gets code.old code.new (selectors_code selectors.now (index_codes scope.now indexes.now)) }
    ensures needs { result ≡ capped (access_depth selectors.now (index_depths indexes.now)) }
{
    let mut next = 0;
    let mut depth = 1u32;
    for selector in selectors {
        match selector {
            Selector::Field { offset, .. } => emit_field(code, *offset),
            Selector::Element { fits, cells } => {
                if let Some(index) = indexes.get(next) {
                    depth = depth.max(emit_expr(code, scope, index).saturating_add(1));
                    emit_element(code, *fits, *cells);
                    next += 1;
                }
            }
        }
    }
    depth
}

/// From the address of a record to a field behind so many of its cells.
fn emit_field(code: &mut Emitter, offset: u32)
    ensures { Gets code.old code.new (field_code offset) }
{
    if offset > 0 {
        let offset = offset.min(GREATEST_OFFSET);
        code.put(Instr::Increase { offset });
    }
}

/// From the address of an array, with an index on top, to an element of so many cells.
fn emit_element(code: &mut Emitter, fits: RangeTest, cells: u32)
    ensures { Gets code.old code.new
        (range_check fits ∷ IndexAddress fits.range.first (length_of_row cells) ∷ []) }
{
    let low = fits.range.first;
    let size = cells.min(GREATEST_LENGTH);
    code.put_all(&[check_of(fits), Instr::IndexAddress { low, size }]);
}

/// So many cells from an address on, all checked.
fn emit_cells(code: &mut Emitter, cells: u32, site: u32)
    ensures { Gets code.old code.new
        (LoadMany (length_of_row cells) ∷ CheckDefined site (length_of_row cells) ∷ []) }
{
    let length = cells.min(GREATEST_LENGTH);
    let check = Instr::CheckDefined { site, length };
    code.put_all(&[Instr::LoadMany { length }, check]);
}

/// Each character, as its number.
fn emit_characters(code: &mut Emitter, characters: &[u8])
    ensures { Gets code.old code.new (map (λ c. LoadConstant (pos c)) characters.now) }
{
    for character in characters {
        let value = i32::from(*character);
        code.put(Instr::LoadConstant { value });
    }
}

/// Behind two values of so many components: what their order is to 0.
fn emit_order(code: &mut Emitter, relation: Relation, length: u32)
    ensures { Gets code.old code.new (Compare length ∷ LoadConstant (pos 0) ∷ relation_instr relation ∷ []) }
{
    let order = Instr::Compare { length };
    let zero = Instr::LoadConstant { value: 0 };
    code.put_all(&[order, zero, comparison_of(relation)]);
}

/// The jump to a routine.
fn call_of(routine: Routine) -> Instr
    ensures { result ≡ CallProcedure (length_of_row routine.cells) routine.place }
{
    let length = routine.cells.min(GREATEST_LENGTH);
    let target = routine.place;
    Instr::CallProcedure { length, target }
}

/// How many cells an actual parameter leaves: that of a value or of an address, or one for each component of a copy.
fn cells_of_passed(actual: &Passed) -> u32
    ensures { result ≡ capped (passed_depth actual.now).cells }
{
    match actual {
        Passed::Whole { value, .. } => cells_of_whole(value),
        Passed::Value { .. } | Passed::Reference { .. } => 1,
    }
}

/// How many cells a whole value has: one for each of its components.
pub fn cells_of_whole(value: &Whole) -> u32
    ensures { result ≡ capped (length_of value.now) }
{
    match value {
        Whole::Text { characters, .. } => u32::try_from(characters.len()).unwrap_or(u32::MAX),
        Whole::Variable { cells, .. } => *cells,
    }
}

/// How many components a value has, or the greatest length.
pub fn row_length(value: &Whole) -> u32
    ensures { result ≡ length_of_row (length_of value.now) }
{
    cells_of_whole(value).min(GREATEST_LENGTH)
}

/// What an operation does to the value before it.
fn emit_monadic(code: &mut Emitter, operation: Monadic) -> u32
    ensures emits { Gets code.old code.new (monadic_code operation) }
    ensures needs { result ≡ monadic_depth operation }
{
    match operation {
        Monadic::Plain(does) => {
            emit_calculation(code, does);
            1
        }
        Monadic::Tested { fits, does } => {
            code.put(check_of(fits));
            emit_shift(code, does)
        }
    }
}

/// What is calculated from the value before it, checked where it may be no integer.
fn emit_calculation(code: &mut Emitter, does: Calculation)
    ensures { Gets code.old code.new (calculation_code does) }
{
    match does {
        Calculation::Same | Calculation::Ordinal => {}
        Calculation::Negative => code.put(Instr::Negate),
        Calculation::Complement => code.put(Instr::Not),
        Calculation::Absolute => code.put(Instr::Absolute),
        Calculation::Square { overflow: site } => {
            code.put_all(&[Instr::CheckSquare { site }, Instr::Square])
        }
        Calculation::Parity => code.put(Instr::Odd),
    }
}

/// From a value that passed a test to the result: the next number and the one before come with a 1 beside it.
fn emit_shift(code: &mut Emitter, does: Shift) -> u32
    ensures emits { Gets code.old code.new (shift_code does) }
    ensures needs { result ≡ shift_depth does }
{
    let step = match does {
        Shift::Same => return 1,
        Shift::Next => Instr::Add,
        Shift::Previous => Instr::Subtract,
    };
    code.put_all(&[Instr::LoadConstant { value: 1 }, step]);
    2
}

/// What an operation does to the two values before it, checked.
fn emit_dyadic(code: &mut Emitter, operation: Dyadic)
    ensures { Gets code.old code.new (dyadic_code operation) }
{
    let (check, does) = match operation {
        Dyadic::Plus { overflow: site } => (Instr::CheckSum { site }, Instr::Add),
        Dyadic::Minus { overflow: site } => (Instr::CheckDifference { site }, Instr::Subtract),
        Dyadic::Times { overflow: site } => (Instr::CheckProduct { site }, Instr::Multiply),
        Dyadic::Div { by_zero: site } => (Instr::CheckZero { site }, Instr::Divide),
        Dyadic::Mod { by_zero_or_less } => (positive_at(by_zero_or_less), Instr::Modulo),
        Dyadic::And => return code.put(Instr::And),
        Dyadic::Or => return code.put(Instr::Or),
        Dyadic::Relation(relation) => return code.put(comparison_of(relation)),
        Dyadic::Union => return code.put(Instr::Union),
        Dyadic::Difference => return code.put(Instr::Difference),
        Dyadic::Intersection => return code.put(Instr::Intersection),
        Dyadic::SetRelation(relation) => return code.put(set_comparison_of(relation)),
        Dyadic::In => return code.put(Instr::IsMember),
    };
    code.put_all(&[check, does]);
}

/// Behind the value of a member: its test, and its set, joined to the one before it if there is one.
fn emit_single(code: &mut Emitter, site: u32, joins: bool)
    ensures { Gets code.old code.new (single_code site ++ union_code joins) }
{
    code.put_all(&[check_range(site, 0, GREATEST_MEMBER), Instr::Singleton]);
    emit_union(code, joins);
}

/// Behind the first and the last of a range: their test, and their set, joined to the one before it if there is one.
fn emit_span(code: &mut Emitter, site: u32, joins: bool)
    ensures { Gets code.old code.new (span_code site ++ union_code joins) }
{
    code.put_all(&[Instr::CheckMembers { site }, Instr::SetRange]);
    emit_union(code, joins);
}

/// A set is joined to the one before it, if there is one.
fn emit_union(code: &mut Emitter, joins: bool)
    ensures { Gets code.old code.new (union_code joins) }
{
    if joins {
        code.put(Instr::Union);
    }
}
