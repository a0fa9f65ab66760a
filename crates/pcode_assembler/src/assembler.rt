ghost use Rattle.std.specs.Prelude.{◌≡◌, ◌≢◌, ◌==◌, [], Err, IfOk, OnOk, Some};
ghost use Rattle.std.specs.Result.{result_err, result_map_both};
ghost use Rattle.pcode_assembler.specs.declared.code.Code.{Code as SaidCode};
ghost use Rattle.memory.specs.Refused.{the_refusal};
ghost use Rattle.pcode_assembler.specs.declared.fault.AsmFault.{AsmFault as SaidFault};
ghost use Rattle.pcode_assembler.specs.declared.fault.AsmFault.TheVariants.{Memory};
ghost use Rattle.pcode_assembler.specs.Contents.{IsReadAs, Says};
ghost use Rattle.pcode_assembler.specs.Reading.{Adds, Holds, IsBelow, IsRead, seen_by};
ghost use Rattle.pcode_assembler.specs.Lines.{content_of};
ghost use Rattle.pcode_assembler.specs.Text as spec;
ghost use Rattle.pcode_assembler.specs.Text.{body, first_fault, frame_fault};

use crate::content::{Content, LineWord, line_word};
use crate::labels::Labels;
use crate::{Above, AsmFault, AsmRule, Code, Point, Site, check_end, next_above_last};
use std::alloc::{AllocError, Global};

const HEADING: &[u8] = b"pcode 1";

/// Reads the text of a code, of any length.
///
/// # Errors
/// A6 where the last line isn't `end` with its line end, at that line, or 1 of an empty text. Otherwise the first
/// faulty line, and of its faults the first of A1, A2, A5, A4 and A3. Or `Memory`.
pub fn assemble(alloc: Global, text: &[u8]) -> Result<Code, AsmFault>
    // The text's lines say the code.
    ensures exact { IfOk result (Says text.now) }
    // A text that says a code is read as that, unless memory runs out.
    ensures spelled { (code : SaidCode) → Says text.now code → IsReadAs code result }
    ensures fault { result_err result ≢ Some (Memory the_refusal) → result_err result ≡ first_fault text.now }
    // A fault of its end or of its first line is told where memory is short too.
    ensures frame { (fault : SaidFault) → frame_fault text.now ≡ Some fault → result ≡ Err fault }
{
    check_end(text)?;
    let below = below_heading(text)?;
    let labels = Labels::of(alloc, text)?;
    let mut code = lines_below(alloc, &labels, below)?;
    labels.resolve_all(code.instructions.as_mut_slice());
    Ok(code)
}

/// What follows the first line, which has to name the version.
fn below_heading(text: &[u8]) -> Result<&[u8], AsmFault>
    ensures { IsBelow (body text.now) (result_map_both (λ below. body below.now) (λ fault. fault) result) }
{
    match next_above_last(text) {
        Some((first, below)) if *first == *HEADING => Ok(below),
        _ => Err(AsmFault::Refused {
            rule: AsmRule::UnknownLine,
            line: 1,
        }),
    }
}

/// What the lines below the first say, jumps still to labels.
fn lines_below(alloc: Global, labels: &Labels, below: &[u8]) -> Result<Code, AsmFault>
    ensures { IsRead (seen_by labels.now) (body below.now) result }
{
    let mut code = empty(alloc);
    let mut above = Above {
        sites: 0,
        points: 0,
        instructions: 0,
        part: 0,
    };
    let mut number = 2;
    let mut rest = below;
    while let Some((line, more)) = next_above_last(rest) {
        let content = match reading(labels, &above, number, line) {
            Ok(content) => content,
            Err(rule) => return Err(AsmFault::Refused { rule, line: number }),
        };
        add(&mut code, &above, &content)?;
        above = above.below(&content);
        number += 1;
        rest = more;
    }
    Ok(code)
}

/// What a line says, or the first of the rules that it breaks.
fn reading(labels: &Labels, above: &Above, number: u64, line: &[u8]) -> Result<Content, AsmRule>
    ensures { result ≡ spec.reading (seen_by labels.now) above.now number line.now }
{
    match line_word(line) {
        Some(word) if above.part <= word.part() => said(labels, above, number, word, line),
        _ => Err(AsmRule::UnknownLine),
    }
}

/// What a line says that begins with a word, or the first of the rules that it breaks.
fn said(
    labels: &Labels,
    above: &Above,
    number: u64,
    word: LineWord,
    line: &[u8],
) -> Result<Content, AsmRule>
    ensures { result ≡ spec.said_or_rule (seen_by labels.now) above.now number (content_of word line.now) }
{
    let Some(content) = word.content(line) else {
        return Err(AsmRule::Operand);
    };
    match labels.rule_at(above, number, &content) {
        None => Ok(content),
        Some(rule) => Err(rule),
    }
}

/// Puts what a line says into the tables of a code.
fn add(code: &mut Code, above: &Above, content: &Content) -> Result<(), AllocError>
    ensures { OnOk result (Adds above.now content.now code.old code.new) }
{
    match content {
        Content::Site { line, column, kind } => code.sites.push(Site {
            id: above.sites,
            line: *line,
            column: *column,
            kind: *kind,
        })?,
        Content::Point { line, column } => code.points.push(Point {
            id: above.points,
            line: *line,
            column: *column,
        })?,
        Content::Label { .. } => {}
        Content::Instruction(instr) => code.instructions.push(*instr)?,
    }
    Ok(())
}

/// A code without anything.
fn empty(alloc: Global) -> Code
    ensures { Holds [] result }
{
    Code {
        sites: Vec::new(alloc),
        points: Vec::new(alloc),
        instructions: Vec::new(alloc),
    }
}
