use crate::sources::{resolved, tree_of};
use code_generator::generate::generate;
use code_generator::laws;
use std::alloc::Global;
use std::test::Fail;
use test_words::machines::run_told;
use test_words::rows::all_hold;

/// What the run of a program with two variables writes in a store of so many cells, and behind it how it stops.
fn code_run_told(alloc: Global, row: &(&str, u32)) -> Result<String, Fail> {
    let code = generate(alloc, &tree_of(alloc, "a, b: integer", row.0)?)?;
    run_told(alloc, &code, row.1.max(1).min(9), 1000)
}

/// Programs and the cells of the store, of which a width beside its value takes one, and so does what is assigned to.
static RUNS: [((&str, u32), &str); 4] = [
    (
        ("a := 7; b := a - 10; writeln(a + b, -a)", 9),
        "         4        -7\n",
    ),
    (("a := 7; b := a - 10; writeln(a + b, -a)", 8), "full"),
    (("write(1 : 1 + 2)", 9), "  1"),
    (("write(1 : 1 + 2)", 8), "full"),
];

#[test]
fn code_runs(rt: HostRuntime) -> Result<(), Fail> {
    all_hold(rt.alloc(), &RUNS, code_run_told)
}

/// The same of a program that passes a variable of this type to a procedure which does nothing.
fn passing_run_told(alloc: Global, row: &(&str, u32)) -> Result<String, Fail> {
    let denoter = row.0;
    let source = format!(in alloc;
        "program p; type t = {denoter}; var r: t; procedure q(var x: t); begin end; begin q(r) end."
    )?;
    let code = generate(alloc, &resolved(alloc, source.as_str())?)?;
    run_told(alloc, &code, row.1.max(1).min(11), 1000)
}

/// Types and the cells of the store: four for the program's frame, those of the variable, four for the procedure's
/// frame and one for the address, which a variable without cells has too.
static PASSINGS: [((&str, u32), &str); 6] = [
    (("record end", 9), ""),
    (("record end", 8), "full"),
    (("array [Boolean] of record end", 9), ""),
    (("array [Boolean] of record end", 8), "full"),
    (("array [Boolean] of char", 11), ""),
    (("array [Boolean] of char", 10), "full"),
];

#[test]
fn variables_without_cells_are_passed(rt: HostRuntime) -> Result<(), Fail> {
    all_hold(rt.alloc(), &PASSINGS, passing_run_told)
}

#[test]
fn laws_of_code_are_called(_rt: HostRuntime) -> Result<(), Fail> {
    laws::stripped_follows();
    laws::frames_fit();
    laws::errors_come();
    Ok(())
}
