//! The spelling of a certificate, line by line.
ghost use Rattle.std.specs.Prelude.{◌≡◌, [], ◌∷◌, ◌++◌, IfOk, IsTrue, decimal, map};
ghost use Rattle.std.specs.Fmt.{signed_decimal};
ghost use Rattle.std.specs.List.{flat_map};
ghost use Rattle.domain.specs.Facts.{said_bound, said_path, said_span, said_spans, said_step};
ghost use Rattle.text_lines.specs.Lines.{ended};
ghost use Rattle.text_lines.specs.Writing.{Appends};
ghost use Rattle.certificate.specs.Bounds.{bound_words, offset, span_words};
ghost use Rattle.certificate.specs.Contents.{IsReadAs, Spells, are_in_order, contents, heading, loop_of};
ghost use Rattle.certificate.specs.Contents.{said_fact, section_of, spelling};
ghost use Rattle.certificate.specs.Lines.{fact_words, growth_words};
ghost use Rattle.certificate.specs.Paths.{path_words, step_words};
ghost use Rattle.certificate.specs.Words.{variable};
ghost use Rattle.certificate.specs.Writing.{alias_line, change_line, fact_line, loop_text, section_text};

use crate::reader::heading;
use crate::{AliasPair, Certificate, Fact, LoopClaims, ReadFault, Section, read};
use domain::{Bound, Growth, Path, Span, Spans, Step, Version};
use std::alloc::{AllocError, Global};
use text_lines::writer::Writer;

/// Writes the text that `read` reads as this certificate, if the certificate is in order.
///
/// # Errors
/// `AllocError` where memory runs out.
pub fn write(alloc: Global, certificate: &Certificate) -> Result<Vec<u8>, AllocError>
    // What is written is the one spelling of what the certificate says.
    ensures exact { IfOk result (λ text. text.items ≡ spelling certificate.now.version (contents certificate.now)) }
    // A certificate in order is read from it, as `read` promises.
    ensures spells { IsTrue (are_in_order certificate.now.version (contents certificate.now))
        → IfOk result (λ text. Spells text.items certificate.now) }
{
    let mut writer = Writer::new(alloc);
    put_heading(&mut writer, certificate.version);
    put_sections(&mut writer, &certificate.sections);
    writer.finish()
}

/// Reads again what is written of a certificate.
///
/// # Errors
/// `Memory`, and no other where the certificate is in order.
pub fn read_again(alloc: Global, certificate: &Certificate) -> Result<Certificate, ReadFault>
    ensures { IsTrue (are_in_order certificate.now.version (contents certificate.now))
        → IsReadAs certificate.now.version (contents certificate.now) result }
{
    let text = write(alloc, certificate)?;
    read(alloc, &text)
}

fn put_heading(writer: &mut Writer, version: Version)
    ensures { Appends (ended (heading version)) writer.old writer.new }
{
    writer.append(heading(version));
    writer.append(b"\n");
}

fn put_sections(writer: &mut Writer, sections: &[Section])
    ensures { Appends (flat_map section_text (map section_of sections.now)) writer.old writer.new }
{
    for section in sections {
        put_section(writer, section);
    }
}

fn put_section(writer: &mut Writer, section: &Section)
    ensures { Appends (section_text (section_of section.now)) writer.old writer.new }
{
    put_number_line(writer, b"proc ", section.block);
    put_aliases(writer, &section.aliases);
    put_changes(writer, &section.changes);
    put_facts(writer, b"entry ", &section.entry);
    put_facts(writer, b"exit ", &section.exit);
    put_loops(writer, &section.loops);
}

fn put_loops(writer: &mut Writer, loops: &[LoopClaims])
    ensures { Appends (flat_map loop_text (map loop_of loops.now)) writer.old writer.new }
{
    for claims in loops {
        put_loop_claims(writer, claims);
    }
}

fn put_loop_claims(writer: &mut Writer, claims: &LoopClaims)
    ensures { Appends (loop_text (loop_of claims.now)) writer.old writer.new }
{
    put_number_line(writer, b"loop ", claims.number);
    put_changes(writer, &claims.changes);
    put_facts(writer, b"fact ", &claims.facts);
}

fn put_number_line(writer: &mut Writer, word: &[u8], number: u32)
    ensures { Appends (ended (word.now ++ decimal number)) writer.old writer.new }
{
    writer.natural(word, u64::from(number));
    writer.append(b"\n");
}

fn put_aliases(writer: &mut Writer, pairs: &[AliasPair])
    ensures { Appends (flat_map alias_line pairs.now) writer.old writer.new }
{
    for pair in pairs {
        put_variable(writer, b"alias ", pair.first);
        put_variable(writer, b" ", pair.second);
        writer.append(b"\n");
    }
}

fn put_changes(writer: &mut Writer, roots: &[u32])
    ensures { Appends (flat_map change_line roots.now) writer.old writer.new }
{
    for root in roots {
        put_variable(writer, b"change ", *root);
        writer.append(b"\n");
    }
}

fn put_facts(writer: &mut Writer, word: &[u8], facts: &[Fact])
    ensures { Appends (flat_map (fact_line word.now) (map said_fact facts.now)) writer.old writer.new }
{
    for fact in facts {
        writer.append(word);
        put_fact(writer, fact);
        writer.append(b"\n");
    }
}

fn put_fact(writer: &mut Writer, fact: &Fact)
    ensures { Appends (fact_words (said_fact fact.now)) writer.old writer.new }
{
    match fact {
        Fact::Range { path, range } => {
            put_path(writer, b"range ", path);
            writer.number(b" ", range.first());
            writer.number(b" ", range.last());
        }
        Fact::Defined { path, spans } => {
            put_path(writer, b"defined ", path);
            put_spans(writer, *spans);
        }
        Fact::Order {
            root,
            other,
            number,
        } => {
            put_variable(writer, b"order ", *root);
            put_variable(writer, b" ", *other);
            writer.number(b" ", i64::from(*number));
        }
        Fact::Grows { root, growth } => {
            put_variable(writer, b"grow ", *root);
            put_growth(writer, growth);
        }
    }
}

fn put_growth(writer: &mut Writer, growth: &Growth)
    ensures { Appends (32 ∷ growth_words growth.now) writer.old writer.new }
{
    put_numbers(writer, growth.first, growth.first_step);
    put_numbers(writer, growth.last, growth.last_step);
}

fn put_numbers(writer: &mut Writer, first: i32, second: i32)
    ensures { Appends (32 ∷ (signed_decimal first ++ 32 ∷ signed_decimal second)) writer.old writer.new }
{
    writer.number(b" ", i64::from(first));
    writer.number(b" ", i64::from(second));
}

fn put_spans(writer: &mut Writer, spans: Spans)
    ensures { Appends (flat_map span_words (said_spans spans)) writer.old writer.new }
{
    match spans {
        Spans::None => {}
        Spans::One(span) => put_span(writer, span),
        Spans::Two(span, inner) => {
            put_span(writer, span);
            put_span(writer, inner);
        }
    }
}

fn put_span(writer: &mut Writer, span: Span)
    ensures { Appends (span_words (said_span span)) writer.old writer.new }
{
    put_bound(writer, b" ", span.first);
    put_bound(writer, b" ", span.last);
}

// The functions from here on write what stands before, and then a word of a line.

fn put_path(writer: &mut Writer, before: &[u8], path: &Path)
    ensures { Appends (before.now ++ path_words (said_path path.now)) writer.old writer.new }
{
    put_variable(writer, before, path.root);
    put_steps(writer, &path.steps);
}

fn put_steps(writer: &mut Writer, steps: &[Step])
    ensures { Appends (flat_map step_words (map said_step steps.now)) writer.old writer.new }
{
    for step in steps {
        put_step(writer, step);
    }
}

fn put_step(writer: &mut Writer, step: &Step)
    ensures { Appends (step_words (said_step step.now)) writer.old writer.new }
{
    match step {
        Step::Element => writer.append(b"[]"),
        Step::Field { name } => {
            writer.append(b".");
            writer.append(name);
        }
    }
}

fn put_bound(writer: &mut Writer, before: &[u8], bound: Bound)
    ensures { Appends (before.now ++ bound_words (said_bound bound)) writer.old writer.new }
{
    match bound {
        Bound::Number(number) => writer.number(before, i64::from(number)),
        Bound::Plus { root, number } => {
            put_variable(writer, before, root);
            put_offset(writer, number);
        }
    }
}

/// A number behind its sign.
fn put_offset(writer: &mut Writer, number: i32)
    ensures { Appends (offset number) writer.old writer.new }
{
    let sign = if number < 0 { "" } else { "+" };
    writer.number(sign.as_bytes(), i64::from(number));
}

fn put_variable(writer: &mut Writer, before: &[u8], root: u32)
    ensures { Appends (before.now ++ variable root) writer.old writer.new }
{
    writer.append(before);
    writer.natural(b"v", u64::from(root));
}
