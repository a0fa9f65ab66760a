//! Programs that look random: what the checker accepts errs at open sites alone, and the interpreter, the code with all
//! checks and the code that is run agree.

use crate::generated::{certificate, input, program};
use crate::numbers::Numbers;
use crate::shown::{Ran, is_same_end, run};
use analyser::find;
use interpreter::interpret;
use meaning::{Ending, Outcome};
use report::compile::{Compiled, compile};
use report::fault::Fault;
use std::alloc::Global;
use std::test::Fail;

// Turns of the interpreter, and more instructions than these take.
const TURNS: u64 = 60;

const BUDGET: u64 = 100_000;

// As many cells as so many activations need.
const CELLS: u32 = 4_000;

// What became of the programs.
#[derive(Clone, Copy, Default)]
struct Counts {
    refused: u32,
    finished: u32,
    erred: u32,
    starved: u32,
    unended: u32,
}

// Whether a run does what the interpreter does; where the interpreter used up its turns, whether it wrote a beginning.
fn is_meant(outcome: &Outcome, ran: &Ran) -> bool {
    match outcome.ending {
        Ending::More => ran.output.starts_with(outcome.output.as_slice()),
        ending => {
            outcome.output.as_slice() == ran.output.as_slice() && is_same_end(ran.stop, ending)
        }
    }
}

// Whether a site is among the open ones.
fn is_open(compiled: &Compiled, id: u32) -> bool {
    compiled.verdict.open_sites.iter().any(|site| site.id == id)
}

// What the interpreter does with a program and an input. Fails where a code does something else, or a closed site errs.
fn agreed(alloc: Global, compiled: &Compiled, input: &[u8]) -> Result<Ending, Fail> {
    let outcome = interpret(alloc, &compiled.tree, input, TURNS)?;
    for code in [&compiled.full, &compiled.stripped] {
        if !is_meant(&outcome, &run(alloc, code, input, CELLS, BUDGET)?) {
            return Err(Fail::new("the machine does something else than the interpreter"));
        }
    }
    match outcome.ending {
        Ending::Error(id) if !is_open(compiled, id) => {
            Err(Fail::new("an error at a site that isn't open"))
        }
        ending => Ok(ending),
    }
}

// Counts what becomes of a program with a certificate and an input; refused are certificates alone.
fn count(
    alloc: Global,
    source: &[u8],
    claims: &[u8],
    input: &[u8],
    counts: &mut Counts,
) -> Result<(), Fail> {
    let compiled = match compile(alloc, source, Some(claims)) {
        Ok(compiled) => compiled,
        Err(Fault::Check(_)) => {
            counts.refused = counts.refused.saturating_add(1);
            return Ok(());
        }
        Err(fault) => return Err(fault.into()),
    };
    let counter = match agreed(alloc, &compiled, input)? {
        Ending::Finished => &mut counts.finished,
        Ending::Error(_) => &mut counts.erred,
        Ending::Input { .. } => &mut counts.starved,
        Ending::More => &mut counts.unended,
    };
    *counter = counter.saturating_add(1);
    Ok(())
}

// Whether a certificate that is found is accepted as it was found. Fails where the machine and the interpreter differ,
// or a closed site errs.
fn is_found_at_once(alloc: Global, source: &[u8], input: &[u8]) -> Result<bool, Fail> {
    let compiled = compile(alloc, source, None)?;
    agreed(alloc, &compiled, input)?;
    Ok(find(alloc, &compiled.tree)?.refusals == 0)
}

#[test]
fn certificates_of_generated_programs_are_found_at_once(rt: HostRuntime) -> Result<(), Fail> {
    let alloc = rt.alloc();
    let mut numbers = Numbers { state: 1990 };
    for _ in 0..200 {
        let source = program(alloc, &mut numbers)?;
        let input = input(alloc, &mut numbers)?;
        assert!(rt; is_found_at_once(alloc, &source, &input)?);
    }
    Ok(())
}

#[test]
fn generated_programs_agree_and_err_at_open_sites_alone(rt: HostRuntime) -> Result<(), Fail> {
    let alloc = rt.alloc();
    let mut numbers = Numbers { state: 7185 };
    let mut counts = Counts::default();
    for _ in 0..600 {
        let source = program(alloc, &mut numbers)?;
        let claims = certificate(alloc, &mut numbers, &source)?;
        let input = input(alloc, &mut numbers)?;
        count(alloc, &source, &claims, &input, &mut counts)?;
    }
    // Each comes often.
    let Counts {
        refused,
        finished,
        erred,
        starved,
        unended,
    } = counts;
    assert!(rt; refused > 90 && finished > 60 && erred > 140 && starved > 20 && unended > 8);
    Ok(())
}
