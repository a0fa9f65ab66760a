use check_remover::remove::remove;
use pcode_assembler::{Code, Instr, Site};
use std::alloc::{AllocError, Global};
use std::test::Fail;
use test_words::assembling::assembled;
use test_words::machines::run_told;
use test_words::rows::all_hold;

const OVERFLOW: Site = Site {
    id: 0,
    line: 1,
    column: 1,
    kind: 11,
};

const FITS: Site = Site {
    id: 1,
    line: 1,
    column: 2,
    kind: 2,
};

/// The instructions of a code with these two sites, and the open ones.
type Row = (&'static str, &'static [Site]);

fn code_of(alloc: Global, instructions: &str) -> Result<Code, Fail> {
    let lines = format!(in alloc; "site 1 1 11; site 1 2 2; {instructions}")?;
    assembled(alloc, lines.as_str())
}

/// A number that neither check lets pass: with the range's check gone the sum's stops the run, and with both gone the
/// sum is written.
const WHOLE: &str = "ent 0 2; ldc 2147483647; chk 1 1 9; ldc 2; cka 0; adi; ldc 1; wri; stp";

/// A range whose end can't be a member, and a set that is too large: with the first check gone the second stops the
/// run, and with both gone the set is that of the members alone.
const SETS: &str = "ent 0 2; ldc 1; ldc 200; ckr 0; srg; ckb 1 0 9; \
    lds fffffffffffffffffffffffffffffffe; seq; ldc 1; wri; stp";

/// A routine, behind a check, that writes its own return.
const RETURN_SHOWN: &str =
    "ent 0 7; ldc 5; chk 1 1 9; mst 0; cup 0 1; stp; label 1; lod 0 2; ldc 1; wri; ret 0";

/// How many instructions are left, and what they do.
fn rest_told(alloc: Global, row: &Row) -> Result<String, Fail> {
    let rest = remove(alloc, &code_of(alloc, row.0)?, row.1)?;
    let told = run_told(alloc, &rest, 11, 100)?;
    Ok(format!(in alloc; "{} {told}", rest.instructions.len())?)
}

static RUNS: [(Row, &str); 10] = [
    ((WHOLE, &[OVERFLOW, FITS]), "9 another stop"),
    ((WHOLE, &[FITS]), "8 another stop"),
    ((WHOLE, &[OVERFLOW]), "8 error"),
    ((WHOLE, &[]), "7 -2147483647"),
    ((SETS, &[OVERFLOW, FITS]), "11 error"),
    ((SETS, &[FITS]), "10 another stop"),
    ((SETS, &[OVERFLOW]), "10 error"),
    ((SETS, &[]), "9 1"),
    // A return is a place of the code that is run.
    ((RETURN_SHOWN, &[FITS]), "10 5"),
    ((RETURN_SHOWN, &[]), "9 4"),
];

#[test]
fn checks_of_open_sites_stay(rt: HostRuntime) -> Result<(), Fail> {
    all_hold(rt.alloc(), &RUNS, rest_told)
}

/// Two checks with a jump or a call to the second of them, or to just past it. A text has no such code, so there is an
/// instruction more, which is taken away.
const TO_LAST: &str = "ujp 2; cka 0; label 2; chk 1 1 9; stp";

const CALL_OF_LAST: &str = "cup 3 2; cka 0; label 2; chk 1 1 9; stp";

const PAST_LAST: &str = "ujp 3; cka 0; chk 1 1 9; label 3; stp";

const BRANCH_PAST_LAST: &str = "fjp 3; cka 0; chk 1 1 9; label 3; stp";

const CALL_PAST_LAST: &str = "cup 3 3; cka 0; chk 1 1 9; label 3; stp";

/// What is left of the last checks and the jump or the call.
fn last_told(alloc: Global, row: &Row) -> Result<String, Fail> {
    let mut code = code_of(alloc, row.0)?;
    code.instructions.truncate(3);
    let rest = remove(alloc, &code, row.1)?;
    let mut told = String::new(alloc);
    for instruction in &rest.instructions {
        told.push_str(instruction_told(alloc, *instruction)?.as_str())?;
    }
    Ok(told)
}

fn instruction_told(alloc: Global, instruction: Instr) -> Result<String, AllocError> {
    match instruction {
        Instr::Jump { target } => format!(in alloc; "jump to {target}; "),
        Instr::JumpIfFalse { target } => format!(in alloc; "branch to {target}; "),
        Instr::CallProcedure { length: 3, target } => format!(in alloc; "call of {target}; "),
        Instr::CheckSum { site: 0 } => String::from_str(alloc, "sum; "),
        Instr::CheckRange { site: 1, .. } => String::from_str(alloc, "range; "),
        _ => String::from_str(alloc, "another; "),
    }
}

static JUMPS: [(Row, &str); 13] = [
    ((TO_LAST, &[OVERFLOW]), "jump to 2; sum; "),
    ((TO_LAST, &[FITS]), "jump to 1; range; "),
    ((TO_LAST, &[]), "jump to 1; "),
    ((CALL_OF_LAST, &[OVERFLOW]), "call of 2; sum; "),
    ((CALL_OF_LAST, &[FITS]), "call of 1; range; "),
    ((CALL_OF_LAST, &[]), "call of 1; "),
    // What goes to just past the last instruction still does.
    ((PAST_LAST, &[OVERFLOW, FITS]), "jump to 3; sum; range; "),
    ((PAST_LAST, &[OVERFLOW]), "jump to 2; sum; "),
    ((PAST_LAST, &[FITS]), "jump to 2; range; "),
    ((PAST_LAST, &[]), "jump to 1; "),
    ((BRANCH_PAST_LAST, &[FITS]), "branch to 2; range; "),
    ((CALL_PAST_LAST, &[OVERFLOW]), "call of 2; sum; "),
    ((CALL_PAST_LAST, &[]), "call of 1; "),
];

#[test]
fn jumps_are_moved_over_removed_checks(rt: HostRuntime) -> Result<(), Fail> {
    all_hold(rt.alloc(), &JUMPS, last_told)
}
