//! Runs of a code of 999,999 straight-line instructions.

use pcode_assembler::{Code, Instr, Site};
use stack_machine::bytes::Counted;
use stack_machine::{Machine, Stop};
use std::alloc::{AllocError, Global};
use std::io;

/// How many instructions the code has.
const LENGTH: usize = 999_999;

/// The cells of the store.
const CELLS: u32 = 1_000_000;

/// The site of each check.
const SITE: Site = Site {
    id: 0,
    line: 1,
    column: 1,
    kind: 11,
};

const A: Instr = Instr::Load {
    level: 0,
    offset: 4,
};

const B: Instr = Instr::Load {
    level: 0,
    offset: 5,
};

const DEFINED: Instr = Instr::CheckDefined { site: 0, length: 1 };

/// `a := a mod 7 + b * 2; b := abs(a - b); c := a < b`, with checks in the first of them.
const STATEMENTS: [Instr; 22] = [
    A,
    DEFINED,
    Instr::LoadConstant { value: 7 },
    Instr::CheckRange {
        site: 0,
        low: 1,
        high: 2147483647,
    },
    Instr::Modulo,
    B,
    DEFINED,
    Instr::LoadConstant { value: 2 },
    Instr::CheckProduct { site: 0 },
    Instr::Multiply,
    Instr::CheckSum { site: 0 },
    Instr::Add,
    Instr::Store {
        level: 0,
        offset: 4,
    },
    A,
    B,
    Instr::Subtract,
    Instr::Absolute,
    Instr::Store {
        level: 0,
        offset: 5,
    },
    A,
    B,
    Instr::Less,
    Instr::Store {
        level: 0,
        offset: 6,
    },
];

/// What stands before the statements: `a := 1; b := 1`.
const START: [Instr; 5] = [
    Instr::Enter {
        variables: 3,
        evaluation: 3,
    },
    Instr::LoadConstant { value: 1 },
    Instr::Store {
        level: 0,
        offset: 4,
    },
    Instr::LoadConstant { value: 1 },
    Instr::Store {
        level: 0,
        offset: 5,
    },
];

/// Runs the code so many times, and tells how the last run stopped.
pub(crate) fn bench(rt: &HostRuntime, words: &[String]) -> io::Result<()> {
    let runs = match words.first() {
        Some(word) => word.as_str().parse::<u32>().unwrap_or(1),
        None => 1,
    };
    let code = straight_line(rt.alloc())?;
    let mut machine = Machine::new(rt.alloc(), CELLS)?;
    let mut word = "not run";
    for _run in 0..runs {
        word = run(&mut machine, &code);
    }
    println!(rt; "{word}")
}

/// The start, then the statements in turn, and then the end of the run.
fn straight_line(alloc: Global) -> Result<Code, AllocError> {
    let mut instructions = START.to_vec(alloc)?;
    for place in START.len()..LENGTH - 1 {
        instructions.push(STATEMENTS[(place - START.len()) % STATEMENTS.len()])?;
    }
    instructions.push(Instr::Stop)?;
    Ok(Code {
        sites: vec![in alloc; SITE]?,
        points: Vec::new(alloc),
        instructions,
    })
}

fn run(machine: &mut Machine, code: &Code) -> &'static str {
    let mut reader = Counted::new(io::empty());
    let mut writer = Counted::new(io::sink());
    match machine.run(code, &mut reader, &mut writer, u64::MAX) {
        Stop::Finished => "finished",
        _ => "stopped",
    }
}
