//! Runs of a code with prepared steps and without them.

ghost use Rattle.std.specs.Prelude.{◌≤◌, option_map};
ghost use Rattle.stack_machine.specs.Stands.{StandsIf};

use pcode_assembler::{Code, assemble};
use prepared_steps::Prepared;
use preparer::prepare::prepare;
use report_text::text::{Line, stop_text};
use stack_machine::Machine;
use stack_machine::bytes::Counted;
use std::alloc::{AllocError, Global};
use std::io::Read;
use std::{fs, io};

/// The most cells that a machine has.
const MOST_CELLS: u32 = 16_777_216;

/// What a run wrote, and how it stopped.
#[derive(Drop)]
struct Ran {
    output: Vec<u8>,
    stop: Line,
}

/// Runs a code with its prepared steps and without them, on so many cells and on what standard input gives, once for
/// each budget of instructions, and tells each budget at which both differ.
pub(crate) fn pairs(rt: &HostRuntime, words: &[String]) -> io::Result<()> {
    let [path, cells, budgets @ ..] = words else {
        return println!(rt; "no code, or no cells");
    };
    let text = fs::read(rt, path.as_str())?;
    let Ok(code) = assemble(rt.alloc(), &text) else {
        return println!(rt; "refused");
    };
    let mut input = Vec::new(rt.alloc());
    rt.stdin().read_to_end(&mut input)?;
    let prepared = prepare(rt.alloc(), &code)?;
    let cells = cells
        .as_str()
        .parse::<u32>()
        .unwrap_or(1)
        .clamp(1, MOST_CELLS);
    let mut others = 0_u64;
    for word in budgets {
        let budget = word.as_str().parse::<u64>().unwrap_or(u64::MAX);
        let single = run(rt.alloc(), &code, None, &input, cells, budget)?;
        let hastened = run(rt.alloc(), &code, Some(&prepared), &input, cells, budget)?;
        if !is_same(&single, &hastened) {
            others = others.saturating_add(1);
            println!(rt; "budget {budget}")?;
        }
    }
    println!(rt; "{} pairs, {others} differ", budgets.len())
}

/// A run of the code by the steps that are prepared for it, if there are any, or instruction by instruction.
fn run(
    alloc: Global,
    code: &Code,
    prepared: Option<&Prepared>,
    input: &[u8],
    cells: u32,
    budget: u64,
) -> Result<Ran, AllocError>
    requires cells { (1 ≤ cells) × (cells ≤ 16777216) }
    requires stands { StandsIf code.now.instructions.items (option_map (λ p. p.now) prepared) }
{
    let mut machine = Machine::new(alloc, cells)?;
    let mut reader = Counted::new(input);
    let mut writer = Counted::new(Vec::new(alloc));
    let stop = match prepared {
        Some(prepared) => machine.run_prepared(code, prepared, &mut reader, &mut writer, budget),
        None => machine.run(code, &mut reader, &mut writer, budget),
    };
    Ok(Ran {
        output: writer.into_inner(),
        stop: stop_text(alloc, &stop).0,
    })
}

fn is_same(left: &Ran, right: &Ran) -> bool {
    left.output == right.output && left.stop.as_slice() == right.stop.as_slice()
}
