ghost use Rattle.std.specs.Prelude.{◌≡◌, ◌≢◌, IsTrue, List, IfOk};
ghost use Rattle.std.specs.Result.{result_err};
ghost use Rattle.text_lines.specs.Lines.{lines};
ghost use Rattle.certificate.specs.Building.{AreRead, IsContentAt, said_above, said_content};
ghost use Rattle.certificate.specs.Contents.{IsReadAs, Section as Said, Spells, are_in_order, heading, spelling};
ghost use Rattle.certificate.specs.Text.{first_fault, has_below, is_heading, version_of};
ghost use Rattle.domain.specs.declared.versions.Version.{Version as TextVersion};
ghost use Rattle.memory.specs.Refused.{the_refusal};
ghost use Rattle.certificate.specs.declared.fault.ReadFault.TheVariants.{Memory};

use crate::building::add;
use crate::claim::{Content, reading};
use crate::order::Above;
use crate::{Certificate, LineFault, ReadFault, Section};
use domain::Version;
use std::alloc::Global;
use text_lines::lines::{Line, next_line};
use text_lines::numerals::is_number;

/// Reads a certificate text of any length.
///
/// # Errors
/// The first faulty line, and of its faults the first of these: F5 where it lacks its end, F1 where it is the first and
/// no heading, F2 where no certificate of its version has such a line, F4 where a number is out of its range, F3 where
/// the line may not stand here or a heading has nothing below it. A text without lines is F1 at line 1. Or `Memory`.
pub fn read(alloc: Global, text: &[u8]) -> Result<Certificate, ReadFault>
    // The certificate is in order, and the text is its spelling.
    ensures exact { IfOk result (Spells text.now) }
    // A text that spells sections in order is read as these, and as of their version, unless memory runs out.
    ensures only { (version : TextVersion) (sections : List Said) → IsTrue (are_in_order version sections)
        → text.now ≡ spelling version sections → IsReadAs version sections result }
    ensures fault { result_err result ≢ Some (Memory the_refusal) → result_err result ≡ first_fault text.now }
{
    let Some((first, below)) = next_line(text) else {
        return Err(ReadFault::FirstLine { line: 1 });
    };
    let version = version_of(first)?;
    let sections = sections(alloc, version, below)?;
    Ok(Certificate { version, sections })
}

/// The first line of a certificate of a version.
pub(crate) fn heading(version: Version) -> &'static [u8]
    ensures { result.now ≡ heading version }
{
    match version {
        Version::One => b"pcert 1",
        Version::Two => b"pcert 2",
        Version::Three => b"pcert 3",
    }
}

/// The version that a first line names.
fn version_of(line: Line<'_>) -> Result<Version, ReadFault>
    ensures { result ≡ version_of (record { bytes = line.entry.bytes.now; ended = line.entry.ended }) }
{
    if !line.ended {
        return Err(ReadFault::Unended { line: 1 });
    }
    if line.bytes == heading(Version::One) {
        return Ok(Version::One);
    }
    if line.bytes == heading(Version::Two) {
        return Ok(Version::Two);
    }
    if line.bytes == heading(Version::Three) {
        return Ok(Version::Three);
    }
    Err(ReadFault::FirstLine { line: 1 })
}

/// What the lines below the heading of a version say.
fn sections(alloc: Global, version: Version, below: &[u8]) -> Result<Vec<Section>, ReadFault>
    ensures { AreRead version result (lines below.now) }
{
    let mut sections = Vec::new(alloc);
    let mut above = Above {
        block: None,
        loop_number: None,
        claim: None,
    };
    let mut number = 2;
    let mut rest = below;
    while let Some((line, more)) = next_line(rest) {
        let content = content_at(version, number, &above, line, more)?;
        above = above.below(&content);
        add(alloc, &mut sections, &content)?;
        number += 1;
        rest = more;
    }
    Ok(sections)
}

/// What a line below the heading says, which has more lines below it.
fn content_at<'a>(
    version: Version,
    number: u64,
    above: &Above<'_>,
    line: Line<'a>,
    more: &[u8],
) -> Result<Content<'a>, ReadFault>
    ensures { IsContentAt version result number (said_above above.now)
        (record { bytes = line.entry.bytes.now; ended = line.entry.ended }) (lines more.now) }
{
    if !line.ended {
        return Err(ReadFault::Unended { line: number });
    }
    if line.bytes == heading(version) {
        return Err(ReadFault::OutOfOrder { line: number });
    }
    match reading(version, line.bytes) {
        Err(LineFault::NotInGrammar) => Err(ReadFault::NotInGrammar { line: number }),
        Err(LineFault::OutOfRange) => Err(ReadFault::OutOfRange { line: number }),
        Ok(content) => {
            if above.admits(&content) && has_below(&content, more) {
                Ok(content)
            } else {
                Err(ReadFault::OutOfOrder { line: number })
            }
        }
    }
}

/// Whether the text below a line has the line that this one needs there.
fn has_below(content: &Content<'_>, text: &[u8]) -> bool
    ensures { result ≡ has_below (said_content content.now) (lines text.now) }
{
    match content {
        Content::Claimed(_) => true,
        Content::Block(_) => match next_line(text) {
            None => false,
            Some((next, _)) => !is_heading(b"proc ", next),
        },
        Content::Loop(_) => match next_line(text) {
            None => false,
            Some((next, _)) => !is_heading(b"proc ", next) && !is_heading(b"loop ", next),
        },
    }
}

/// Whether a line is a heading of the word, whatever its number.
fn is_heading(word: &[u8], line: Line<'_>) -> bool
    ensures { result ≡ is_heading word.now (record { bytes = line.entry.bytes.now; ended = line.entry.ended }) }
{
    line.ended
        && line
            .bytes
            .strip_prefix(word)
            .is_some_and(|number| is_number(number))
}
