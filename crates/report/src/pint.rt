ghost use Rattle.std.specs.Prelude.{◌≤◌, MatchResult, map};
ghost use Rattle.pcode_assembler.specs.Contents.{Says};
ghost use Rattle.report.specs.Courses.{CourseGoes};
ghost use Rattle.report.specs.Pint.{IsCodeRefusal, assembles, by_words, pint};
ghost use Rattle.report.specs.Ready.{IsReady};

use crate::ready::Ready;
use crate::telling::{cannot_read, refuse, run_code, untaken};
use command_line::{PintWords, pint_words};
use outside::Outside;
use pcode_assembler::{Code, assemble};
use report_text::fault::Fault;
use std::alloc::Global;

/// The program `pint` by the words of its command, the program's name first. Answers its status.
///
/// It reads the text of a code, assembles it, and runs the code on the cells that the words say for at most `u64::MAX`
/// instructions. All that takes memory is made before anything is told. The first fault ends it.
pub fn pint<O: Outside>(alloc: Global, words: &[&str], outside: &mut O) -> u8
    ensures acts { CourseGoes (O.acts outside.old) (O.acts outside.new) result (pint (map (λ w. w.now) words.now)) }
{
    match pint_words(alloc, words) {
        Ok(words) => by_words(alloc, words, outside),
        Err(fault) => untaken(alloc, fault, outside),
    }
}

fn by_words<O: Outside>(alloc: Global, words: PintWords<'_>, outside: &mut O) -> u8
    requires { (1 ≤ words.cells) × (words.cells ≤ 16777216) }
    ensures { CourseGoes (O.acts outside.old) (O.acts outside.new) result (by_words words.entry) }
{
    match outside.read_file(words.code) {
        Some(text) => by_text(alloc, words.cells, &text, outside),
        None => cannot_read(words.code, outside),
    }
}

fn by_text<O: Outside>(alloc: Global, cells: u32, text: &[u8], outside: &mut O) -> u8
    requires { (1 ≤ cells) × (cells ≤ 16777216) }
    ensures { CourseGoes (O.acts outside.old) (O.acts outside.new) result (assembles cells text.now) }
{
    match assembled(alloc, cells, text) {
        Ok((code, mut ready)) => run_code(alloc, &code, &mut ready, true, 0, outside),
        Err(fault) => refuse(alloc, &fault, outside),
    }
}

// The code of a text, and what is made for its run.
fn assembled(alloc: Global, cells: u32, text: &[u8]) -> Result<(Code, Ready), Fault>
    requires { (1 ≤ cells) × (cells ≤ 16777216) }
    ensures { MatchResult result (λ made. Says text.now made.0 × IsReady made.0 cells made.1) (IsCodeRefusal text.now) }
{
    let code = assemble(alloc, text)?;
    let ready = Ready::for_code(alloc, &code, cells)?;
    Ok((code, ready))
}
