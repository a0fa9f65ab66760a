//! A program that measures and compares, by its first word: `bench RUNS` runs a code of 999,999 straight-line
//! instructions so many times, `visits SOURCE ..` tells of each source what it takes to find its certificate,
//! `pairs CODE CELLS BUDGET ..` compares the runs of a code with its prepared steps and without them, and
//! `shares CODE BUDGET` tells how many instructions of a run are taken singly.
#![tactic(auto)]

mod bench;
mod pairs;
mod shares;
mod visits;

use std::{env, io};

fn main(rt: HostRuntime) -> io::Result<()> {
    let words = env::args(&rt)?.collect::<Vec<String>>(rt.alloc())?;
    match words.as_slice() {
        [_, word, more @ ..] => measure(&rt, word.as_str(), more),
        _ => println!(rt; "no measure"),
    }
}

fn measure(rt: &HostRuntime, word: &str, more: &[String]) -> io::Result<()> {
    match word {
        "bench" => bench::bench(rt, more),
        "visits" => visits::visits(rt, more),
        "pairs" => pairs::pairs(rt, more),
        "shares" => shares::shares(rt, more),
        _ => println!(rt; "no such measure"),
    }
}
