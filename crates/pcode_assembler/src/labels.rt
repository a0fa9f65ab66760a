ghost use Rattle.std.specs.Prelude.{◌≡◌, ◌+◌, ◌^◌, ◌<◌, IfOk, map};
ghost use Rattle.pcode_assembler.specs.Writable.{is_below};

use crate::content::{Content, is_instruction, label_of};
use crate::{Above, AsmRule, Instr, next_above_last};
use std::alloc::{AllocError, Global};
use std::collections::HashMap;

/// A text has at most so many sites, points and instructions.
const MOST: u32 = 1_000_000;

/// Where a label stands first: the number of its line, and how many instructions stand above it.
#[derive(Clone, Copy)]
pub(crate) struct Label {
    pub(crate) line: u64,
    pub(crate) place: u64,
}

/// All labels of a text, and how many instructions it has.
#[derive(Drop)]
pub(crate) struct Labels {
    first: HashMap<u32, Label>,
    instructions: u64,
}

impl Labels {
    ghost use Rattle.pcode_assembler.specs.Reading.{Notes, NotesLabel, seen_by};
    ghost use Rattle.pcode_assembler.specs.Contents.{going_to, named};
    ghost use Rattle.pcode_assembler.specs.Text.{body, instruction_rule, is_followed, reaches, rule_at, seen_in};
    ghost use Rattle.pcode_assembler.specs.Text.{stands_at};

    /// Those of a text, whose lines count by their first words.
    pub(crate) fn of(alloc: Global, text: &[u8]) -> Result<Labels, AllocError>
        ensures { IfOk result (λ labels. seen_by labels ≡ seen_in (body text.now)) }
    {
        let mut labels = Labels {
            first: HashMap::new(alloc),
            instructions: 0,
        };
        let mut number = 1;
        let mut rest = text;
        while let Some((line, more)) = next_above_last(rest) {
            labels.note(number, line)?;
            number += 1;
            rest = more;
        }
        Ok(labels)
    }

    /// Notes a line at its number.
    fn note(&mut self, number: u64, line: &[u8]) -> Result<(), AllocError>
        requires { self.old.instructions + 1 < 2 ^ 64 }
        ensures { IfOk result (λ _. Notes number line.now self.old self.new) }
    {
        self.note_label(label_of(line), number)?;
        if is_instruction(line) {
            self.instructions += 1;
        }
        Ok(())
    }

    /// Notes a label, if there is one that isn't known yet, in the line of this number.
    fn note_label(&mut self, label: Option<u32>, line: u64) -> Result<(), AllocError>
        ensures { IfOk result (λ _. NotesLabel label line self.old self.new) }
    {
        let Some(label) = label else { return Ok(()) };
        if self.first.get(&label).is_none() {
            let place = self.instructions;
            self.first.insert(label, Label { line, place })?;
        }
        Ok(())
    }

    /// The rule that a line breaks which says something, at the line's number.
    pub(crate) fn rule_at(&self, above: &Above, line: u64, content: &Content) -> Option<AsmRule>
        ensures { result ≡ rule_at (seen_by self.now) above.now line content.now }
    {
        match content {
            Content::Site { .. } => AsmRule::Operand.unless(above.sites < MOST),
            Content::Point { .. } => AsmRule::Operand.unless(above.points < MOST),
            Content::Label { number } => AsmRule::LabelTwice.unless(self.stands_at(line, *number)),
            Content::Instruction(instr) => self.instruction_rule(above, instr),
        }
    }

    /// Whether a label stands first in the line of this number.
    fn stands_at(&self, line: u64, label: u32) -> bool
        ensures { result ≡ stands_at line ((seen_by self.now).first label) }
    {
        let first = self.first.get(&label);
        first.is_some_and(|first| first.line == line)
    }

    fn instruction_rule(&self, above: &Above, instr: &Instr) -> Option<AsmRule>
        ensures { result ≡ instruction_rule (seen_by self.now) above.now instr.now }
    {
        if !is_below(above.points, instr.read_point())
            || !is_below(above.sites, instr.check_site())
        {
            Some(AsmRule::Operand)
        } else if above.instructions >= MOST {
            Some(AsmRule::TooMany)
        } else {
            AsmRule::Target.unless(self.reaches(instr.jump_target()))
        }
    }

    /// Whether a jump goes to a label that is there and has an instruction behind it.
    fn reaches(&self, target: Option<u32>) -> bool
        ensures { result ≡ reaches (seen_by self.now) target }
    {
        let Some(label) = target else { return true };
        let first = self.first.get(&label);
        first.is_some_and(|first| first.place < self.instructions)
    }

    /// Turns the jumps to labels into jumps to instructions.
    pub(crate) fn resolve_all(&self, instructions: &mut [Instr])
        ensures { instructions.new ≡ map (going_to (named (seen_by self.now))) instructions.old }
    {
        for instr in instructions.iter_mut() {
            self.resolve(instr);
        }
    }

    fn resolve(&self, instr: &mut Instr)
        ensures { instr.new ≡ going_to (named (seen_by self.now)) instr.old }
    {
        match instr {
            Instr::Jump { target } => *target = self.named(*target),
            Instr::JumpIfFalse { target } => *target = self.named(*target),
            Instr::CallProcedure { target, .. } => *target = self.named(*target),
            _ => {}
        }
    }

    /// The instruction behind a label.
    fn named(&self, label: u32) -> u32
        ensures { result ≡ named (seen_by self.now) label }
    {
        match self.first.get(&label) {
            None => label,
            Some(first) => first.place.min(u64::from(u32::MAX)) as u32,
        }
    }
}

/// Whether what is named, if anything, is one of the first.
fn is_below(bound: u32, named: Option<u32>) -> bool
    ensures { result ≡ is_below bound named }
{
    named.is_none_or(|id| id < bound)
}
