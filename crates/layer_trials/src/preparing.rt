use pcode_assembler::Code;
use prepared_steps::{Deed, Prepared, SetDeed};
use preparer::prepare::prepare;
use stack_machine::Machine;
use stack_machine::bytes::Counted;
use std::alloc::Global;
use std::test::Fail;
use test_words::assembling::assembled;
use test_words::machines::word_of;
use test_words::rows::all_hold;

/// `n := 3; while n <> 0 do n := n - 1`.
const LOOP: &str =
    "ent 1 2; ldc 3; str 0 4; label 1; lod 0 4; fjp 2; lod 0 4; ldc 1; sbi; str 0 4; ujp 1; label 2; stp";

/// `7` in a width of 3, and a line end.
const LINE: &str = "ent 0 2; ldc 7; ldc 3; wri; wln; stp";

/// `x := 1; y := x + 2; x := y`, where the sum has all checks and the last value is one from 0 to 9.
const CHECKED: &str =
    "site 1 1 1; ent 2 4; ldc 1; str 0 4; lod 0 4; ldc 2; cka 0; adi; chk 0 -2147483647 2147483647; str 0 5; \
    lod 0 5; chk 0 0 9; str 0 4; stp";

/// `i := 1; i := a[i + 1]`.
const INDEXED: &str =
    "ent 5 4; ldc 1; str 0 8; lda 0 4; lod 0 8; ldc 1; adi; ixa 0 1; ind 0; str 0 8; stp";

/// `for i := 1 to 3 do`, whose variable is in a cell of its own.
const ROUND: &str =
    "ent 3 4; ldc 1; str 0 4; ldc 3; str 0 5; label 1; lod 0 4; str 0 6; lod 0 4; lod 0 5; neq; fjp 2; \
    lod 0 4; ldc 1; adi; str 0 4; ujp 1; label 2; stp";

/// `s := [] + [1] + [1..3]; if (s = s) and (2 in s) then begin t := s - s; s := [1] end`, where `s` is reached by its
/// address first in the difference, and last.
const SETS: &str =
    "ent 2 4; lds 00000000000000000000000000000000; ldc 1; sgs; uni; ldc 1; ldc 3; srg; uni; str 0 4; \
    lod 0 4; lod 0 4; seq; fjp 1; ldc 2; lod 0 4; inn; fjp 1; lda 0 4; ind 0; lod 0 4; dif; str 0 5; \
    lda 0 4; ldc 1; sgs; sto; label 1; stp";

/// `x := 1; p(x); q(x, x - 1); r(x, x, x)`.
const CALLS: &str =
    "ent 1 8; ldc 1; str 0 4; mst 0; lod 0 4; cup 1 1; mst 0; lod 0 4; lod 0 4; ldc 1; sbi; cup 2 2; \
    mst 0; lod 0 4; lod 0 4; lod 0 4; cup 3 3; stp; \
    label 1; ent 0 4; ret 0; label 2; ent 0 4; ret 0; label 3; ent 0 4; ret 0";

/// What stands behind a loop whose variable becomes undefined.
const LOOP_END: &str =
    "ent 1 4; ldc 1; ldc 2; ujp 1; label 1; str 0 4; str 0 4; lod 0 2; str 0 4; stp";

/// The mark of a step: how many numbers a whole call passes, `u` where a variable becomes undefined, a letter for each
/// deed with sets, and else `s`.
fn mark_of(deed: &Deed) -> &'static str {
    match *deed {
        Deed::CallWith(..) => "1",
        Deed::CallWithTwo(..) => "2",
        Deed::CallWithThree(..) => "3",
        Deed::Undefine(..) => "u",
        Deed::Set(deed) => mark_of_set(deed),
        _ => "s",
    }
}

fn mark_of_set(deed: SetDeed) -> &'static str {
    match deed {
        SetDeed::Empty(_) => "e",
        SetDeed::One(_) => "o",
        SetDeed::Range(_) => "r",
        SetDeed::Two(..) => "t",
        SetDeed::Stand(..) => "w",
        SetDeed::Has(_) => "h",
        SetDeed::Copy(..) => "c",
        SetDeed::Load(..) => "l",
        SetDeed::Store(_) => "p",
    }
}

/// The mark of the step that begins at a place and does something, or `.` if none does.
fn mark_at(prepared: &Prepared, place: usize) -> &'static str {
    for (step, origin) in prepared.steps.iter().zip(&prepared.origins) {
        if origin.place as usize == place && !matches!(step.deed, Deed::Leave) {
            return mark_of(&step.deed);
        }
    }
    "."
}

/// A mark for each instruction.
fn marks(alloc: Global, code: &Code) -> Result<String, Fail> {
    let prepared = prepare(alloc, code)?;
    let mut told = String::new(alloc);
    for place in 0..code.instructions.len() {
        told.push_str(mark_at(&prepared, place))?;
    }
    Ok(told)
}

fn row_told(alloc: Global, lines: &&str) -> Result<String, Fail> {
    marks(alloc, &assembled(alloc, lines)?)
}

static ROWS: [(&str, &str); 8] = [
    (LOOP, ".s.s.s....."),
    (LINE, ".ss..."),
    // A check is part of the step of its value.
    (CHECKED, ".s.s.....s..."),
    (INDEXED, ".s.s......."),
    (ROUND, ".s.s.s.s........."),
    (SETS, ".esotssrtcccwsschsslctcssop."),
    (CALLS, ".s.1..2.....3......s.s.s"),
    (LOOP_END, ".ss.u...."),
];

#[test]
fn instructions_have_steps(rt: HostRuntime) -> Result<(), Fail> {
    all_hold(rt.alloc(), &ROWS, row_told)
}

/// A code and a budget.
type RunRow = (&'static str, u64);

/// `n := 3; while n <> 0 do n := n - 1; write(n : 1)`.
const DOWN: &str =
    "ent 1 2; ldc 3; str 0 4; label 1; lod 0 4; fjp 2; lod 0 4; ldc 1; sbi; str 0 4; ujp 1; \
    label 2; lod 0 4; ldc 1; wri; stp";

/// `write(f : 2)`, where `f` gives 42.
const CALL: &str = "ent 0 6; mst 0; cup 0 1; ldc 2; wri; stp; label 1; ent 0 1; ldc 42; ret 1";

/// `i := 0; repeat a[i] := i; i := i + 1 until i > 3; write(a[3] : 1)`, where `a` has indices from 0 to 3.
const ROW: &str =
    "site 1 1 1; ent 5 4; ldc 0; str 0 8; label 1; lda 0 4; lod 0 8; chk 0 0 3; ixa 0 1; lod 0 8; sto; \
    lod 0 8; ldc 1; adi; str 0 8; lod 0 8; ldc 3; grt; fjp 1; lod 0 7; ldc 1; wri; stp";

/// What a run of a code by its steps writes, and behind it how it stops.
fn run_told(alloc: Global, row: &RunRow) -> Result<String, Fail> {
    let code = assembled(alloc, row.0)?;
    let prepared = prepare(alloc, &code)?;
    let mut machine = Machine::new(alloc, 40)?;
    let input: &[u8] = &[];
    let mut reader = Counted::new(input);
    let mut writer = Counted::new(Vec::new(alloc));
    let stop = machine.run_prepared(&code, &prepared, &mut reader, &mut writer, row.1);
    let mut told = String::from_utf8(writer.into_inner())?;
    told.push_str(word_of(stop))?;
    Ok(told)
}

/// Runs and what budgets leave of them.
static RUNS: [(RunRow, &str); 7] = [
    // 3 instructions, 7 for each of three rounds, 2 for the last, and 4 behind it.
    ((DOWN, 30), "0"),
    ((DOWN, 29), "0more"),
    ((DOWN, 6), "more"),
    ((CALL, 9), "42"),
    ((CALL, 5), "more"),
    // 3 instructions, 14 for each of four rounds, and 4 behind them.
    ((ROW, 63), "3"),
    ((ROW, 62), "3more"),
];

#[test]
fn steps_go_on_as_far_as_the_budget(rt: HostRuntime) -> Result<(), Fail> {
    all_hold(rt.alloc(), &RUNS, run_told)
}
