ghost use Rattle.std.specs.Prelude.{◌≡◌, ◌≤◌, ◌+◌, [], ◌∷◌, ◌++◌, length, max};
ghost use Rattle.code_scheme.specs.Code.{records_code, release_code, stmt_code, with_code};
ghost use Rattle.code_scheme.specs.Depth.{access_depth, index_depths, records_depth, stmt_depth};
ghost use Rattle.code_scheme.specs.Scopes.{with_record, with_records};
ghost use Rattle.code_scheme.specs.Sizes.{capped};
ghost use Rattle.code_emitter.specs.Emitted.{place_of, Gets, IsKept};
ghost use Rattle.code_emitter.specs.Pieces.{among, record_code};

use crate::{Emitter, emit_address, emit_stmt};
use code_scheme::{Home, Scope};
use pcode_assembler::Instr;
use typed_tree::{Stmt, WithHead, WithRecord};

/// A `with` statement: the addresses of its records, which are held while its statement runs, that statement, and what
/// takes the addresses away.
#[cycle(emit_stmt)]
pub fn emit_with(code: &mut Emitter, scope: &Scope, head: &WithHead, body: &Stmt) -> u32
    ensures emits { Gets code.old code.new
        (with_code head.now.records.items (stmt_code body.now) scope.now (place_of code.old)) }
    ensures needs { result ≡ capped
        (max (records_depth head.now.records.items) (stmt_depth body.now + length head.now.records.items)) }
{
    let mut held = held_records(code, &*scope);
    let records = head.records.as_slice();
    let depth = emit_records(code, &*scope, &mut held, records);
    let cells = u32::try_from(records.len()).unwrap_or(u32::MAX);
    let inside = emit_within(code, &*scope, held.as_slice(), cells, body);
    emit_release(code, records.len());
    depth.max(inside.saturating_add(cells))
}

/// A statement, where the addresses of so many records more are held, and the row tells where all lie.
#[cycle(emit_stmt)]
fn emit_within(code: &mut Emitter, scope: &Scope, held: &[Home], cells: u32, body: &Stmt) -> u32
    ensures emits { Gets code.old code.new
        (stmt_code body.now (among scope.now held.now cells) (place_of code.old)) }
    ensures needs { result ≡ capped (stmt_depth body.now) }
{
    let inside = (&*scope).among(held, cells);
    emit_stmt(code, &inside, body)
}

/// Where the addresses of the records lie that stand round a scope; a row that takes more.
fn held_records(code: &mut Emitter, scope: &Scope) -> Vec<Home>
    ensures emits { Gets code.old code.new [] }
    ensures held { IsKept code.new → result.items ≡ scope.now.records }
    ensures few { scope.now.next ≤ 16777216 }
{
    let mut held = Vec::new(code.alloc());
    if let Err(error) = held.extend_from_slice(scope.records()) {
        code.lose(error.into());
    }
    held
}

/// The addresses of records, each of which stands round those behind it, if the row tells where those lie that stand
/// round the scope; it tells then where each lies.
fn emit_records(
    code: &mut Emitter,
    scope: &Scope,
    held: &mut Vec<Home>,
    records: &[WithRecord],
) -> u32
    ensures emits { (IsKept code.old → held.old.items ≡ scope.now.records)
        → Gets code.old code.new (records_code scope.now records.now) }
    ensures held { (IsKept code.old → held.old.items ≡ scope.now.records)
        → IsKept code.new → held.new.items ≡ (with_records (length records.now) scope.now).records }
    ensures needs { result ≡ capped (records_depth records.now) }
{
    let mut cells = 0u32;
    let mut depth = 0u32;
    for one in records {
        let address = emit_record(code, scope, held, cells, one);
        depth = depth.max(address.saturating_add(cells));
        cells = cells.saturating_add(1);
    }
    depth
}

/// The address of a record behind so many others, whose addresses the row tells; it tells this one then as well.
fn emit_record(
    code: &mut Emitter,
    scope: &Scope,
    held: &mut Vec<Home>,
    cells: u32,
    one: &WithRecord,
) -> u32
    ensures emits { Gets code.old code.new (record_code (among scope.now held.old.items cells) one.now) }
    ensures held { IsKept code.new
        → held.new.items ≡ (with_record (among scope.now held.old.items cells)).records }
    ensures few { scope.now.next ≤ 16777216 }
    ensures needs { result ≡ capped (access_depth one.now.access.selectors.items (index_depths one.now.indexes.items)) }
{
    let inside = (&*scope).among(held.as_slice(), cells);
    let depth = emit_address(code, &inside, &one.access, one.indexes.as_slice());
    let home = inside.next_record();
    keep_record(code, held, home);
    depth
}

/// One record more, whose address lies here.
fn keep_record(code: &mut Emitter, held: &mut Vec<Home>, home: Home)
    ensures emits { Gets code.old code.new [] }
    ensures held { IsKept code.new → held.new.items ≡ held.old.items ++ home ∷ [] }
{
    if let Err(error) = held.push(home) {
        code.lose(error.into());
    }
}

/// So many addresses are taken away, each by a conditional jump to the next instruction.
fn emit_release(code: &mut Emitter, records: usize)
    ensures { Gets code.old code.new (release_code records (place_of code.old)) }
{
    for _ in 0..records {
        let target = code.place() + 1;
        code.put(Instr::JumpIfFalse { target });
    }
}
