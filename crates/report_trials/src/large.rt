use crate::shown::{CELLS, agreed_told, repeated, show, shown_told, visits};
use report::fault::Fault;
use std::alloc::Global;
use std::test::Fail;
use test_words::rows::all_hold;

// The parts of a source, and how often each stands in it.
type Parts = &'static [(&'static str, usize)];

// Sources, and what each does on the machine and by the interpreter. A long chain, a long compound and activations deep
// in one another use no stack, and output passes its piece.
static LONG: [(Parts, Parts); 4] = [
    (
        &[
            ("program p(output); begin writeln(0", 1),
            ("+1-1", 50_000),
            (") end.", 1),
        ],
        &[("|         0\n||0", 1)],
    ),
    (
        &[("program p; begin ", 1), (";", 100_000), (" end.", 1)],
        &[("|||0", 1)],
    ),
    (
        &[
            ("program p(output); begin writeln(1)", 1),
            ("; writeln(1)", 999),
            (" end.", 1),
        ],
        &[("|", 1), ("         1\n", 1_000), ("||0", 1)],
    ),
    // Each activation takes five cells.
    (
        &[(
            "program p(output); procedure q(n: integer); begin if n > 0 then q(n - 1) end;
            begin q(20000); writeln(1) end.",
            1,
        )],
        &[("|         1\n||0", 1)],
    ),
];

// Whether a source does what it should.
fn does(alloc: Global, source: Parts, wanted: Parts) -> Result<bool, Fail> {
    let told = agreed_told(alloc, &repeated(alloc, source)?)?;
    Ok(told.as_bytes() == repeated(alloc, wanted)?.as_slice())
}

#[test]
fn long_sources_run(rt: HostRuntime) -> Result<(), Fail> {
    for (source, wanted) in &LONG {
        if !does(rt.alloc(), source, wanted)? {
            return Err(Fail::new("a long source does something else"));
        }
    }
    Ok(())
}

// Sources, and how many statements and expressions they have.
static VISITS: [(&str, &str); 10] = [
    // 4 statements, 2 targets, 6 factors, 2 operators and 1 sign.
    (
        "program p(output); var x, y: integer; begin x := 7; y := x - 10; writeln(x + y, -x) end.",
        "15",
    ),
    ("program p; begin end.", "2"),
    // 2 statements, 2 values and 1 width.
    ("program p(output); begin write(1:2, true) end.", "5"),
    // 2 statements, and `not`, `odd`, a sign and a number.
    ("program p(output); begin write(not odd(-1)) end.", "6"),
    // 6 statements, a condition of 3 entries and two of 1, however often they are executed.
    (
        "program p; begin while 1 > 2 do repeat until true; if false then end.",
        "11",
    ),
    // 3 statements and 2 bounds: a control variable isn't entered.
    (
        "program p; var i: integer; begin for i := 1 to 9 do end.",
        "5",
    ),
    // 4 statements, and what is passed.
    (
        "program p; procedure q(n: integer); begin end; begin q(1) end.",
        "5",
    ),
    // 4 statements and the index.
    ("program p; begin case 1 of 1: ; 2: end end.", "5"),
    // 3 statements and the variable.
    (
        "program p(input); var x: integer; begin read(x); readln end.",
        "4",
    ),
    // 5 statements and 2 conditions.
    (
        "program p(input); begin if eof then; if eoln(input) then end.",
        "7",
    ),
];

fn visits_told(alloc: Global, source: &&str) -> Result<String, Fault> {
    let visits = visits(alloc, source.as_bytes(), None)?;
    Ok(format!(in alloc; "{visits}")?)
}

#[test]
fn each_entry_is_visited_once(rt: HostRuntime) -> Result<(), Fail> {
    all_hold(rt.alloc(), &VISITS, visits_told)
}

// A source, the cells of the store and a budget.
type Row = (&'static str, u32, u64);

const ONE: &str = "program p(output); var x: integer; begin x := 1; writeln(x) end.";

const ENDLESS: &str = "program p(output); begin while true do write(1:1) end.";

const THREE_TURNS: &str =
    "program p(output); var i: integer; begin for i := 1 to 3 do write(i:1) end.";

// Runs, and their output, the line of the stop and the status.
static RUNS: [(Row, &str); 13] = [
    // The frame takes four cells, the variable one, and the value and its width two more.
    ((ONE, 3, u64::MAX), "||store full\n|6"),
    ((ONE, 6, u64::MAX), "||store full\n|6"),
    ((ONE, 7, u64::MAX), "|         1\n||0"),
    ((ONE, 7, 0), "||budget used up\n|3"),
    // The first instruction enters the block. A turn of the while takes 6, and the 5th of them writes.
    ((ENDLESS, CELLS, 5), "||budget used up\n|3"),
    ((ENDLESS, CELLS, 6), "|1|budget used up\n|3"),
    ((ENDLESS, CELLS, 29), "|1111|budget used up\n|3"),
    ((ENDLESS, CELLS, 30), "|11111|budget used up\n|3"),
    // The for takes 8 before its turns and 14 a turn, of which the 5th writes; the last turn takes 9, and then come 4
    // that end the loop, and the end of the run.
    ((THREE_TURNS, CELLS, 13), "||budget used up\n|3"),
    ((THREE_TURNS, CELLS, 14), "|1|budget used up\n|3"),
    ((THREE_TURNS, CELLS, 42), "|123|budget used up\n|3"),
    ((THREE_TURNS, CELLS, 50), "|123|budget used up\n|3"),
    ((THREE_TURNS, CELLS, 51), "|123||0"),
];

fn limited_told(alloc: Global, row: &Row) -> Result<String, Fault> {
    let (source, cells, budget) = *row;
    let shown = show(alloc, source.as_bytes(), cells.clamp(1, CELLS), budget)?;
    Ok(shown_told(alloc, &shown)?)
}

#[test]
fn cells_and_budget_run_out(rt: HostRuntime) -> Result<(), Fail> {
    all_hold(rt.alloc(), &RUNS, limited_told)
}
