//! Calls that are made once more where memory was refused. With an allocation refused, as by
//! `rt try --test --fail-alloc N`, the first call says so; the second one has memory, and answers over the same values
//! as if there had been no call before it.

use interpreter::interpret;
use lexer::tokens;
use meaning::Ending;
use parser::parse;
use report::compile::compile;
use report::fault::Fault;
use report::text::open_lines;
use resolver::resolve;
use scopes::{Denotation, ScopeFault, Scopes};
use std::alloc::{AllocError, Global};
use std::slice;
use std::test::Fail;
use types::{TypeForm, TypeTable};

fn subrange(last: u8) -> TypeForm {
    TypeForm::Subrange {
        host: TypeTable::INTEGER,
        first: 0,
        last: i32::from(last),
    }
}

// There are three required types before the first one.
#[test]
fn a_type_is_added_by_a_second_call(rt: HostRuntime) -> Result<(), Fail> {
    let mut table = TypeTable::required(rt.alloc())?;
    for last in 0..40u8 {
        let added = match table.add(subrange(last)) {
            Err(_) => table.add(subrange(last)),
            first => first,
        };
        let Ok(id) = added else {
            return Err(Fail::new("a second call is refused"));
        };
        assert!(rt; id.index == 3 + usize::from(last));
        assert!(rt;
            table
                .range(id)
                .is_some_and(|range| range.first == 0 && range.last == i32::from(last))
        );
    }
    Ok(())
}

#[test]
fn a_region_is_opened_by_a_second_call(rt: HostRuntime) -> Result<(), Fail> {
    let alloc = rt.alloc();
    let name = Vec::from_slice(alloc, b"x")?;
    let mut scopes = Scopes::new(alloc);
    for _ in 0..40 {
        let opened = match scopes.open(alloc, slice::from_ref(&name)) {
            Err(_) => scopes.open(alloc, slice::from_ref(&name)),
            first => first,
        };
        assert!(rt; opened.is_ok());
        assert!(rt; matches!(scopes.innermost_says(b"x"), Some(None)));
    }
    for _ in 0..40 {
        assert!(rt; scopes.close(alloc).len() == 1);
    }
    assert!(rt; scopes.close(alloc).is_empty());
    Ok(())
}

// 40 names, all of them different.
fn names(alloc: Global) -> Result<Vec<Vec<u8>>, AllocError> {
    let mut names = Vec::new(alloc);
    for number in 0..40u8 {
        names.push(Vec::from_slice(alloc, &[b'n', b'0' + number])?)?;
    }
    Ok(names)
}

// Passes the definition of a name as a constant of this value, where the innermost region lists it.
fn declare(alloc: Global, scopes: &mut Scopes, name: &[u8], value: i32) -> Result<(), ScopeFault> {
    if scopes.innermost_says(name).is_none() {
        return Err(ScopeFault::NotDeclared);
    }
    let name = Vec::from_slice(alloc, name)?;
    let type_id = TypeTable::INTEGER;
    scopes.declare(name, Denotation::Constant { value, type_id })
}

// Whether a name denotes a constant of this value.
fn is_constant(scopes: &Scopes, name: &[u8], wanted: i32) -> bool {
    match scopes.find(name) {
        Ok(Denotation::Constant { value, .. }) => value == wanted,
        _ => false,
    }
}

#[test]
fn a_name_is_declared_by_a_second_call(rt: HostRuntime) -> Result<(), Fail> {
    let alloc = rt.alloc();
    let names = names(alloc)?;
    let mut scopes = Scopes::new(alloc);
    scopes.open(alloc, &names)?;
    let mut value = 0i32;
    for name in &names {
        assert!(rt; matches!(scopes.innermost_says(name), Some(None)));
        let declared = match declare(alloc, &mut scopes, name, value) {
            Err(_) => declare(alloc, &mut scopes, name, value),
            first => first,
        };
        assert!(rt; declared.is_ok() && is_constant(&scopes, name, value));
        value = value.wrapping_add(1);
    }
    Ok(())
}

const RESOLVED: &[u8] =
    b"program p(output); type t = 1..3; var x: integer; r: array [t] of record y: t end;
    procedure q(var v: integer); begin v := v + 3 end;
    begin
      for x := 1 to 3 do r[x].y := 4 - x;
      x := 0; while x < 9 do q(x);
      write(x: 1, r[1].y: 1, r[3].y: 1)
    end.";

// By hand: two blocks, the variables x, r and v, and two loops; and q takes x from 0 to 9 by threes.
#[test]
fn a_program_is_resolved_by_a_second_call(rt: HostRuntime) -> Result<(), Fail> {
    let alloc = rt.alloc();
    let list = tokens(alloc, RESOLVED)?;
    let program = parse(alloc, &list)?;
    let resolved = match resolve(alloc, &program) {
        Err(_) => resolve(alloc, &program),
        first => first,
    };
    let Ok(tree) = resolved else {
        return Err(Fail::new("a second call is refused"));
    };
    assert!(rt; tree.blocks.len() == 2 && tree.variables.len() == 3 && tree.loops.len() == 2);
    let outcome = interpret(alloc, &tree, b"", 60)?;
    assert!(rt; outcome.output.as_slice() == b"931".as_slice());
    assert!(rt; matches!(outcome.ending, Ending::Finished));
    Ok(())
}

const SOURCE: &[u8] = b"program p; var x: integer; begin x := 2147483647; x := x + 1 end.";

#[test]
fn a_source_is_compiled_by_a_second_call(rt: HostRuntime) -> Result<(), Fail> {
    let alloc = rt.alloc();
    let compiled = match compile(alloc, SOURCE, None) {
        Err(Fault::Memory(_)) => compile(alloc, SOURCE, None),
        first => first,
    }?;
    let told = open_lines(alloc, &compiled.verdict.open_sites)?;
    assert!(rt; told.as_slice() == b"1:58: possible error: overflow\n".as_slice());
    Ok(())
}
