ghost use Rattle.std.specs.Prelude.{map};
ghost use Rattle.report.specs.Courses.{CourseGoes};
ghost use Rattle.report.specs.Pcom.{by_source, by_words, compiles, pcom};
ghost use Rattle.report.specs.Refusals.{given};

use crate::prepared::prepare;
use crate::telling::{cannot_read, refuse, untaken};
use command_line::{PcomWords, pcom_words};
use outside::Outside;
use std::alloc::Global;

/// The program `pcom` by the words of its command, the program's name first. Answers its status.
///
/// It reads the source and then the certificate, where one is named, compiles, writes the certificate that was used,
/// where a file is named for it, tells the open sites, and then, under `--go`, runs the code on 1,000,000 cells for at
/// most `u64::MAX` instructions. All that takes memory is made before a file is written. The first fault ends it: where
/// the source is refused no file is written, and where a file doesn't take its text nothing more is written or run.
/// Once standard error has failed it gets nothing more; the status tells the same.
pub fn pcom<O: Outside>(alloc: Global, words: &[&str], outside: &mut O) -> u8
    ensures acts { CourseGoes (O.acts outside.old) (O.acts outside.new) result (pcom (map (λ w. w.now) words.now)) }
{
    match pcom_words(alloc, words) {
        Ok(words) => by_words(alloc, words, outside),
        Err(fault) => untaken(alloc, fault, outside),
    }
}

fn by_words<O: Outside>(alloc: Global, words: PcomWords<'_>, outside: &mut O) -> u8
    ensures { CourseGoes (O.acts outside.old) (O.acts outside.new) result (by_words words.entry) }
{
    match outside.read_file(words.source) {
        Some(source) => by_source(alloc, words, &source, outside),
        None => cannot_read(words.source, outside),
    }
}

fn by_source<O: Outside>(alloc: Global, words: PcomWords<'_>, source: &[u8], outside: &mut O) -> u8
    ensures { CourseGoes (O.acts outside.old) (O.acts outside.new) result (by_source words.entry source.now) }
{
    let Some(path) = words.cert else {
        return by_texts(alloc, words, source, None, outside);
    };
    match outside.read_file(path) {
        Some(text) => by_texts(alloc, words, source, Some(&text), outside),
        None => cannot_read(path, outside),
    }
}

fn by_texts<O: Outside>(
    alloc: Global,
    words: PcomWords<'_>,
    source: &[u8],
    certificate: Option<&[u8]>,
    outside: &mut O,
) -> u8
    ensures { CourseGoes (O.acts outside.old) (O.acts outside.new) result
        (compiles words.entry source.now (given certificate.entry)) }
{
    match prepare(alloc, words, source, certificate) {
        Ok(prepared) => prepared.put_out(alloc, words, outside),
        Err(fault) => refuse(alloc, &fault, outside),
    }
}
