//! The rules of what takes a value (ISO 7185:1990, 6.4.6, 6.8.3 and 6.9.3).
ghost use Rattle.std.specs.Prelude.{◌≡◌, ◌&&◌, nat_eq, option_map};
ghost use Rattle.types.specs.Types.{cells_of, is_assignable};
ghost use Rattle.typing_rules.specs.Typed.{ordinal_type};
ghost use Rattle.typing_rules.specs.Targets.{way, test_kind, fitting_members, fitting, copying, members_test, read_as};
ghost use Rattle.typing_rules.specs.Targets.{readable_host};
ghost use Rattle.typing_rules.specs.Targets.{representation_of, ordinal_of};

use crate::{Typed, TypedValue};
use place::Place;
use typed_tree::{Direction, RangeTest, Readable, Representation, Scalar, SiteKind, TypeFault};
use types::{OrdinalRange, SetBase, TypeForm, TypeId, TypeKind, TypeTable};

/// The kind of the site of a test, by what is tested.
pub fn test_kind(tested: Scalar) -> SiteKind
    ensures { result ≡ test_kind tested }
{
    match tested {
        Scalar::Ordinal => SiteKind::Subrange,
        Scalar::Set => SiteKind::SetMember,
    }
}

/// The values of a target's type, or those that its members may have, if a scalar value may be assigned to it (6.4.6).
pub fn fitting(types: &TypeTable, target: TypeId, value: Typed) -> Option<OrdinalRange>
    ensures { result ≡ fitting types.now target value }
{
    match value.value {
        TypedValue::Ordinal(type_id) => {
            if !types.assignable(target, type_id) {
                return None;
            }
            types.range(target)
        }
        TypedValue::Set(base) => fitting_members(base, types.kind(target)),
        TypedValue::Text { .. } | TypedValue::Whole { .. } => None,
    }
}

// The values that members may have, if sets may be assigned to a target of a kind.
fn fitting_members(base: SetBase, target: Option<TypeKind>) -> Option<OrdinalRange>
    ensures { result ≡ fitting_members base target }
{
    match target {
        Some(
            TypeKind::Set {
                base: target,
                members,
            },
        ) if target.compatible(base) => Some(members),
        _ => None,
    }
}

/// The test of a set for a target of a type, at its leading site (6.4.6): K1 at the place where it may not be assigned.
pub fn members_test(
    types: &TypeTable,
    target: TypeId,
    place: Place,
    value: Typed,
) -> Result<RangeTest, TypeFault>
    ensures { result ≡ members_test types.now target place value }
{
    match (fitting(types, target, value), value.site) {
        (Some(range), Some(site)) => Ok(RangeTest {
            site,
            tests: Scalar::Set,
            range,
        }),
        _ => Err(TypeFault::Mismatch(place)),
    }
}

/// The source of a structured value that may be assigned to a target of a type (6.4.6), which has as many cells: the
/// type of the variable whose value it is, which a string has none of; and its cells.
pub fn copying(types: &TypeTable, target: TypeId, value: Typed) -> Option<(Option<TypeId>, usize)>
    ensures { result ≡ option_map (λ copy. (copy.source, copy.cells)) (copying types.now target value) }
{
    match value.value {
        TypedValue::Ordinal(_) | TypedValue::Set(_) => None,
        TypedValue::Text { type_id, length } => {
            may_copy(types, target, type_id, length).then_some((None, length))
        }
        TypedValue::Whole { type_id, cells } => {
            may_copy(types, target, type_id, cells).then_some((Some(type_id), cells))
        }
    }
}

// Whether a structured value of a type, of so many cells, may be assigned to a target of a type.
fn may_copy(types: &TypeTable, target: TypeId, type_id: TypeId, cells: usize) -> bool
    ensures { result ≡ (is_assignable types.now target type_id && nat_eq (cells_of types.now target) cells) }
{
    types.assignable(target, type_id) && types.cells(target) as usize == cells
}

/// The type of an ordinal: K1 at the place where it is none (6.8.3.5).
pub fn ordinal_of(types: &TypeTable, place: Place, value: Typed) -> Result<TypeId, TypeFault>
    ensures { result ≡ ordinal_of types.now place (ordinal_type value.value) }
{
    match value.value.ordinal_type() {
        Some(type_id) if types.is_ordinal(type_id) => Ok(type_id),
        _ => Err(TypeFault::Mismatch(place)),
    }
}

/// The way of a control variable (6.8.3.9).
pub fn way(direction: syntax_tree::Direction) -> Direction
    ensures { result ≡ way direction }
{
    match direction {
        syntax_tree::Direction::To => Direction::To,
        syntax_tree::Direction::DownTo => Direction::DownTo,
    }
}

/// What is read into a variable of a type, and the values that it may have (6.9.1): K1 at the place where the host type
/// is neither integer nor char.
pub fn read_as(
    types: &TypeTable,
    place: Place,
    id: TypeId,
) -> Result<(Readable, OrdinalRange), TypeFault>
    ensures { result ≡ read_as types.now place id }
{
    match (readable_host(types.host(id)), types.range(id)) {
        (Some(reads), Some(range)) => Ok((reads, range)),
        _ => Err(TypeFault::Mismatch(place)),
    }
}

// What is read of a host type.
fn readable_host(host: TypeId) -> Option<Readable>
    ensures { result ≡ readable_host host }
{
    if host.same(TypeTable::INTEGER) {
        Some(Readable::Integer)
    } else if host.same(TypeTable::CHAR) {
        Some(Readable::Char)
    } else {
        None
    }
}

/// How an ordinal of a type is written (6.9.3).
pub fn representation(types: &TypeTable, id: TypeId) -> Option<Representation>
    ensures { result ≡ representation_of types.now id }
{
    match types.form(id)? {
        TypeForm::Integer => Some(Representation::Integer),
        TypeForm::Boolean => Some(Representation::Boolean),
        TypeForm::Char => Some(Representation::Char),
        _ => None,
    }
}
