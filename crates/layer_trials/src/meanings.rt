use crate::sources::resolved;
use interpreter::interpret;
use meaning::{Ending, Outcome, laws};
use std::alloc::{AllocError, Global};
use std::test::Fail;
use test_words::rows::all_hold;

/// Declarations, statements and turns.
type Row = (&'static str, &'static str, u64);

fn row_told(alloc: Global, row: &Row) -> Result<String, Fail> {
    let (declarations, statements, turns) = *row;
    let source = format!(in alloc; "program p(output); {declarations} begin {statements} end.")?;
    let tree = resolved(alloc, source.as_str())?;
    Ok(outcome_told(alloc, &interpret(alloc, &tree, b"", turns)?)?)
}

/// What a run of a program writes, and behind it how it ends: nothing where it finishes, `!0` where it errs at its
/// first site, ` more` where its turns are used up.
fn outcome_told(alloc: Global, outcome: &Outcome) -> Result<String, AllocError> {
    let written = str::from_utf8(&outcome.output).unwrap_or("no text");
    let word = match outcome.ending {
        Ending::Finished => "",
        Ending::Error(0) => "!0",
        Ending::More => " more",
        _ => " another ending",
    };
    format!(in alloc; "{written}{word}")
}

const DIGIT: &str = "procedure digit(n: integer); begin write(n:1) end;";

const DOWN: &str = "procedure down(n: integer); begin if n <> 0 then down(n - 1) end;";

/// The product of the numbers up to n.
const PRODUCT: &str = "function product(n: integer): integer;
    begin if n = 0 then product := 1 else product := n * product(n - 1) end;";

/// Each activation has an n of its own, and the q that it declares finds that.
const OWN: &str = "procedure own(n: integer);
    procedure q; begin write(n:1) end;
    begin if n <> 0 then own(n - 1); q end;";

const FAILS: &str = "procedure fails; begin write(1 div 0:1) end;";

/// By hand. Each activation of a routine uses a turn, and so a run whose calls are deeper in one another than its turns
/// ends there.
static CALLS: [(Row, &str); 14] = [
    ((DIGIT, "", 0), ""),
    ((DIGIT, "digit(1)", 0), " more"),
    ((DIGIT, "digit(1)", 1), "1"),
    ((DIGIT, "digit(1); digit(2)", 1), "1 more"),
    ((DIGIT, "digit(1); digit(2)", 2), "12"),
    ((DIGIT, "while true do digit(1)", 3), "1 more"),
    ((DIGIT, "while true do digit(1)", 4), "11 more"),
    ((PRODUCT, "write(product(5):1)", 6), "120"),
    ((PRODUCT, "write(product(5):1)", 5), " more"),
    ((OWN, "own(2)", 6), "012"),
    ((OWN, "own(2)", 5), "01 more"),
    ((DOWN, "down(1000); write(1:1)", 1001), "1"),
    ((DOWN, "down(1000); write(1:1)", 1000), " more"),
    ((FAILS, "write(1:1); fails; write(2:1)", 1), "1!0"),
];

#[test]
fn calls_use_turns(rt: HostRuntime) -> Result<(), Fail> {
    all_hold(rt.alloc(), &CALLS, row_told)
}

/// So deep in one another that a stack of the host would overflow. (This takes long where each access is tested.)
static DEEP: [(Row, &str); 1] = [((DOWN, "down(1000000); write(1:1)", 1000001), "1")];

#[test]
fn a_million_activations_stand_in_one_another(rt: HostRuntime) -> Result<(), Fail> {
    all_hold(rt.alloc(), &DEEP, row_told)
}

#[test]
fn laws_are_called(_rt: HostRuntime) -> Result<(), Fail> {
    laws::turns_go_on();
    laws::turns_extend_the_output();
    laws::endings_stay();
    laws::depths_are_enough();
    laws::calls_return();
    laws::statements_use_turns_exactly();
    laws::chains_go_left_to_right();
    laws::deeper_calls_change_nothing();
    laws::pieces_use_turns_exactly();
    laws::loops_go_round_by_round();
    Ok(())
}
