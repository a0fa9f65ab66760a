use stack_machine::bytes::{Counted, Feed};
use stack_machine::{Machine, laws};
use std::alloc::{AllocError, Global};
use std::io;
use std::test::Fail;
use test_words::assembling::assembled;
use test_words::machines::{run_told, word_of};
use test_words::rows::all_hold;

/// A code, the cells of the store and a budget.
type RunRow = (&'static str, u32, u64);

/// What a run of a code without input writes, and behind it how it stops.
fn row_told(alloc: Global, row: &RunRow) -> Result<String, Fail> {
    let code = assembled(alloc, row.0)?;
    run_told(alloc, &code, row.1.max(1).min(4194304), row.2)
}

/// `7` in a width of 3, and a line end.
const LINE: &str = "ent 0 2; ldc 7; ldc 3; wri; wln; stp";

/// `procedure down(n); begin write(n); if n <> 0 then down(n - 1) end`, and a call of it with 3.
const DOWN: &str = "ent 0 6; mst 0; ldc 3; cup 1 1; stp; \
    label 1; ent 0 6; lod 0 4; ldc 1; wri; lod 0 4; fjp 2; mst 1; lod 0 4; ldc 1; sbi; cup 1 1; label 2; ret 0";

/// A call that is the last instruction.
const LAST: &str =
    "ent 0 6; ujp 2; label 1; ent 0 2; ldc 7; ldc 1; wri; ret 0; label 2; mst 0; cup 0 1";

/// A routine that calls itself for ever, in frames of 4 cells.
const ENDLESS: &str = "ent 0 4; mst 0; cup 0 1; label 1; ent 0 4; mst 1; cup 0 1";

/// Runs and what budgets leave of them.
static BUDGETS: [(RunRow, &str); 8] = [
    ((LINE, 6, 6), "  7\n"),
    ((LINE, 6, 5), "  7\nmore"),
    ((LINE, 3, 0), "full"),
    // 4 instructions, 12 for each of three calls, 7 for the last, and the last of the program.
    ((DOWN, 30, 48), "3210"),
    ((DOWN, 30, 47), "3210more"),
    ((LAST, 20, 9), "7M2"),
    ((LAST, 20, 8), "7more"),
    ((ENDLESS, 4000100, 300), "more"),
];

#[test]
fn stops_where_a_budget_ends(rt: HostRuntime) -> Result<(), Fail> {
    all_hold(rt.alloc(), &BUDGETS, row_told)
}

/// A call to no instruction, which no text has: the one that it goes to is taken away.
fn call_told(alloc: Global, budget: &u64) -> Result<String, Fail> {
    let mut code = assembled(alloc, "ent 0 4; mst 0; cup 0 1; label 1; stp")?;
    code.instructions.truncate(3);
    run_told(alloc, &code, 20, *budget)
}

#[test]
fn call_to_no_instruction_is_no_fault_itself(rt: HostRuntime) -> Result<(), Fail> {
    all_hold(rt.alloc(), &[(3, "more"), (4, "M2")], call_told)
}

/// Takes so many bytes at a time, and fails once it has so many in all.
#[derive(Drop)]
struct Narrow {
    at_once: usize,
    in_all: usize,
    taken: Vec<u8>,
    /// How many bytes each call offered.
    offered: Vec<usize>,
}

impl io::Write for Narrow {
    fn write(&mut self, piece: &[u8]) -> io::Result<usize> {
        self.offered.push(piece.len())?;
        if self.taken.len() >= self.in_all {
            return Ok(0);
        }
        let count = piece.len().min(self.at_once);
        self.taken.extend_from_slice(&piece[..count])?;
        Ok(count)
    }

    fn flush(&mut self) -> io::Result<()> {
        Ok(())
    }
}

/// What is run, and how many bytes the writer takes at a time and in all.
type NarrowRow = (&'static str, usize, usize);

/// Runs a code over a narrow writer, and tells how the run stops.
fn run_to(
    alloc: Global,
    text: &str,
    narrow: Narrow,
) -> Result<(Counted<Narrow>, &'static str), Fail> {
    let code = assembled(alloc, text)?;
    let mut machine = Machine::new(alloc, 6)?;
    let mut reader = Counted::new(io::empty());
    let mut writer = Counted::new(narrow);
    let stop = machine.run(&code, &mut reader, &mut writer, 100);
    Ok((writer, word_of(stop)))
}

/// How many bytes were taken, and the last of them, what each call offered, how often the writer failed, and the stop.
fn narrow_told(alloc: Global, row: &NarrowRow) -> Result<String, Fail> {
    let narrow = Narrow {
        at_once: row.1,
        in_all: row.2,
        taken: Vec::new(alloc),
        offered: Vec::new(alloc),
    };
    let (writer, word) = run_to(alloc, row.0, narrow)?;
    Ok(writer_told(alloc, &writer, word)?)
}

fn writer_told(alloc: Global, writer: &Counted<Narrow>, word: &str) -> Result<String, AllocError> {
    let failures = writer.failures();
    let narrow = writer.inner();
    let (count, last, offered) = (narrow.taken.len(), narrow.taken.last(), &narrow.offered);
    format!(in alloc; "{count} {last:?} of {offered:?}, failures: {failures} {word}")
}

/// `7` in a width of 5000, and of 10000.
const WIDE: &str = "ent 0 2; ldc 7; ldc 5000; wri; stp";

const WIDER: &str = "ent 0 2; ldc 7; ldc 10000; wri; stp";

const ONE_LINE: &str = "ent 0 2; wln; stp";

const TWO_LINES: &str = "ent 0 2; wln; wln; stp";

/// The machine writes in pieces of 4096 bytes and the rest at the stop; what a call leaves is offered again.
static NARROW: [(NarrowRow, &str); 5] = [
    (
        (WIDE, 1000, 10000),
        "5000 Some(55) of [4096, 3096, 2096, 1096, 96, 904], failures: 0 ",
    ),
    (
        (WIDER, 10000, 20000),
        "10000 Some(55) of [4096, 4096, 1808], failures: 0 ",
    ),
    (
        (WIDE, 1000, 2000),
        "2000 Some(32) of [4096, 3096, 2096], failures: 1 failed",
    ),
    ((ONE_LINE, 1000, 0), "0 None of [1], failures: 1 failed"),
    ((TWO_LINES, 1000, 2), "2 Some(10) of [2], failures: 0 "),
];

#[test]
fn writes_in_pieces_until_the_writer_fails(rt: HostRuntime) -> Result<(), Fail> {
    all_hold(rt.alloc(), &NARROW, narrow_told)
}

#[test]
fn counts_the_failures_of_a_reader(rt: HostRuntime) {
    let mut reader = Counted::new(b"ab".as_slice());
    let mut piece = [0u8; 4];
    let first = reader.read(&mut piece).ok();
    let second = reader.read(&mut piece).ok();
    assert!(rt; first == Some(2) && second == Some(0));
    assert!(rt; reader.failures() == 0 && reader.inner().is_empty());
}

#[test]
fn laws_are_called(_rt: HostRuntime) -> Result<(), Fail> {
    laws::runs_compose();
    laws::output_only_grows();
    laws::runs_on_bytes();
    laws::read_failures_begin();
    Ok(())
}
