//! The text of a code, line by line.
ghost use Rattle.std.specs.Prelude.{◌≡◌, ◌∷◌, ◌++◌, ◌<◌, ℕ, [], IfOk, decimal, length, map, slice_index_or, true};
ghost use Rattle.std.specs.Prelude.{false};
ghost use Rattle.std.specs.Fmt.{signed_decimal};
ghost use Rattle.std.specs.List.{list_any};
ghost use Rattle.text_lines.specs.Lines.{ended};
ghost use Rattle.text_lines.specs.Writing.{Appends};
ghost use Rattle.pcode_assembler.specs.Contents.{HasText, Says, body_lines, goes_to, point_line, site_line, spelling};
ghost use Rattle.pcode_assembler.specs.Lines.{has_numbers, label_line, words_behind};
ghost use Rattle.pcode_assembler.specs.Table.{operand_words};
ghost use Rattle.pcode_assembler.specs.Words.{hexadecimal_digit, hexadecimal_digits, set_digits};
ghost use Rattle.pcode_assembler.specs.Writing.{AppendsLines, Marks, have_numbers, instruction_line, label_if};
ghost use Rattle.pcode_assembler.specs.Writing.{natural_words, placed, single_words};

use crate::{Code, Instr, Point, Site};
use std::alloc::{AllocError, Global};
use text_lines::writer::Writer;

impl Code {
    /// Writes the text that `assemble` reads as this code, if it has one: `HasText` says which codes have. There is a
    /// label only where a jump goes, and its number is the instruction's.
    ///
    /// # Errors
    /// `AllocError` where memory runs out.
    pub fn write(&self, alloc: Global) -> Result<Vec<u8>, AllocError>
        ensures exact { IfOk result (λ text. text.items ≡ spelling self.now) }
        ensures reads { HasText self.now → IfOk result (λ text. Says text.items self.now) }
    {
        let targets = targets(alloc, &self.instructions)?;
        let mut writer = Writer::new(alloc);
        writer.append(b"pcode 1\n");
        put_sites(&mut writer, &self.sites);
        put_points(&mut writer, &self.points);
        put_instructions(&mut writer, &targets, &self.instructions);
        writer.append(b"end\n");
        writer.finish()
    }
}

/// For each place of a code whether a jump goes there.
fn targets(alloc: Global, code: &[Instr]) -> Result<Vec<bool>, AllocError>
    ensures { IfOk result (λ targets. Marks code.now code.now targets.items) }
{
    let mut targets = vec![in alloc; false; code.len()]?;
    for instr in code {
        if let Some(target) = instr.jump_target() {
            mark(&mut targets, target as usize);
        }
    }
    Ok(targets)
}

/// Marks a place, if there is such a one.
fn mark(places: &mut [bool], place: usize)
    ensures { (k : ℕ) → k < length places.old
        → slice_index_or places.new k false ≡ placed k place (slice_index_or places.old k false) }
{
    if place < places.len() {
        places[place] = true;
    }
}

fn put_sites(writer: &mut Writer, sites: &[Site])
    ensures { AppendsLines (map site_line sites.now) writer.old writer.new }
{
    for site in sites {
        writer.append(b"site");
        put_pair(writer, site.line, site.column);
        put_natural(writer, u32::from(site.kind));
        writer.append(b"\n");
    }
}

fn put_points(writer: &mut Writer, points: &[Point])
    ensures { AppendsLines (map point_line points.now) writer.old writer.new }
{
    for point in points {
        writer.append(b"point");
        put_pair(writer, point.line, point.column);
        writer.append(b"\n");
    }
}

/// The instructions of a code, with a label before each that a jump goes to.
fn put_instructions(writer: &mut Writer, targets: &[bool], code: &[Instr])
    requires { Marks code.now code.now targets.now }
    ensures lines { AppendsLines (body_lines code.now 0 code.now) writer.old writer.new }
    ensures numbers { have_numbers code.now ≡ true }
{
    for (place, instr) in code.iter().enumerate() {
        put_label(writer, targets[place], place);
        put_instruction(writer, instr);
    }
}

/// A place's label, if it is the target of a jump.
fn put_label(writer: &mut Writer, is_target: bool, place: usize)
    ensures { AppendsLines (label_if is_target place) writer.old writer.new }
{
    if is_target {
        writer.natural(b"label ", place as u64);
        writer.append(b"\n");
    }
}

fn put_instruction(writer: &mut Writer, instr: &Instr)
    ensures line { Appends (ended (instruction_line instr.now)) writer.old writer.new }
    ensures numbers { has_numbers instr.now ≡ true }
{
    writer.append(instr.word().as_slice());
    put_operands(writer, instr);
    writer.append(b"\n");
}

fn put_operands(writer: &mut Writer, instr: &Instr)
    ensures words { Appends (words_behind (operand_words instr.now)) writer.old writer.new }
    ensures numbers { has_numbers instr.now ≡ true }
{
    match instr {
        Instr::LoadConstant { value } => put_number(writer, *value),
        Instr::LoadSet { members } => put_members(writer, members.number()),
        Instr::IndexAddress { low, size } => {
            put_number(writer, *low);
            put_natural(writer, *size);
        }
        Instr::CheckInput { point, low, high } => put_range(writer, *point, *low, *high),
        Instr::CheckRange { site, low, high } | Instr::CheckSet { site, low, high } => {
            put_range(writer, *site, *low, *high);
        }
        _ => put_naturals(writer, instr),
    }
}

/// The operands of an instruction that has natural numbers alone.
fn put_naturals(writer: &mut Writer, instr: &Instr)
    ensures { Appends (natural_words instr.now) writer.old writer.new }
{
    match instr {
        Instr::LoadAddress { level, offset }
        | Instr::Load { level, offset }
        | Instr::Store { level, offset } => put_pair(writer, u32::from(*level), *offset),
        Instr::MarkStack { level: n } | Instr::Return { results: n } => {
            put_natural(writer, u32::from(*n));
        }
        Instr::CallProcedure { length, target } => put_pair(writer, *length, *target),
        Instr::Enter {
            variables,
            evaluation,
        } => put_pair(writer, *variables, *evaluation),
        Instr::CheckDefined { site, length } => put_pair(writer, *site, *length),
        _ => put_single(writer, instr),
    }
}

/// The operand of an instruction that has one natural number, if it has any.
fn put_single(writer: &mut Writer, instr: &Instr)
    ensures { Appends (single_words instr.now) writer.old writer.new }
{
    match instr {
        Instr::LoadIndirect { offset: n }
        | Instr::Increase { offset: n }
        | Instr::LoadMany { length: n }
        | Instr::StoreMany { length: n }
        | Instr::Compare { length: n }
        | Instr::WriteString { length: n }
        | Instr::Jump { target: n }
        | Instr::JumpIfFalse { target: n }
        | Instr::ReadInteger { point: n }
        | Instr::ReadChar { point: n }
        | Instr::ReadLine { point: n }
        | Instr::EndOfLine { point: n }
        | Instr::CheckZero { site: n }
        | Instr::CheckSum { site: n }
        | Instr::CheckDifference { site: n }
        | Instr::CheckProduct { site: n }
        | Instr::CheckSquare { site: n }
        | Instr::CheckMembers { site: n }
        | Instr::Fail { site: n } => put_natural(writer, *n),
        _ => {}
    }
}

// The functions from here on write operands, each behind a blank.

fn put_range(writer: &mut Writer, id: u32, low: i32, high: i32)
    ensures { Appends (words_behind (decimal id ∷ signed_decimal low ∷ signed_decimal high ∷ []))
        writer.old writer.new }
{
    put_natural(writer, id);
    put_number(writer, low);
    put_number(writer, high);
}

fn put_pair(writer: &mut Writer, first: u32, second: u32)
    ensures { Appends (words_behind (decimal first ∷ decimal second ∷ [])) writer.old writer.new }
{
    put_natural(writer, first);
    put_natural(writer, second);
}

fn put_natural(writer: &mut Writer, n: u32)
    ensures { Appends (32 ∷ decimal n) writer.old writer.new }
{
    writer.natural(b" ", u64::from(n));
}

fn put_number(writer: &mut Writer, n: i32)
    ensures { Appends (32 ∷ signed_decimal n) writer.old writer.new }
{
    writer.number(b" ", i64::from(n));
}

fn put_members(writer: &mut Writer, members: u128)
    ensures { Appends (32 ∷ set_digits members) writer.old writer.new }
{
    writer.append(b" ");
    put_hexadecimal(writer, 32, members);
}

/// So many digits of a number, the least ones.
fn put_hexadecimal(writer: &mut Writer, count: u8, number: u128)
    ensures { Appends (hexadecimal_digits count number) writer.old writer.new }
{
    if count > 0 {
        put_hexadecimal(writer, count - 1, number / 16);
        writer.append(&[hexadecimal_digit((number % 16) as u8)]);
    }
}

/// The digit of a value below 16.
fn hexadecimal_digit(value: u8) -> u8
    requires { value < 16 }
    ensures { result ≡ hexadecimal_digit value }
{
    if value < 10 {
        b'0' + value
    } else {
        b'a' - 10 + value
    }
}
