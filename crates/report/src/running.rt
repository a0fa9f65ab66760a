ghost use Rattle.std.specs.Prelude.{◌≡◌, ◌≤◌, ◌<◌, ◌-◌, ◌^◌, MatchResult};
ghost use Rattle.outside.specs.Acts.{streams};
ghost use Rattle.report.specs.Refusals.{IsRefusal, given};
ghost use Rattle.report.specs.Whole.{IsRunOf};

use crate::compile::compile;
use crate::ready::Ready;
use cert_checker::Verdict;
use report_text::fault::Fault;
use stack_machine::Stop;
use stack_machine::bytes::{Feed, Sink};
use std::alloc::Global;

/// Compiles a source, with the text of a certificate or with one that is found, and runs the code without the checks of
/// the sites that aren't open, on 1 to 16,777,216 cells and for at most `budget` instructions. Answers the checker's
/// verdict and how the run stopped.
///
/// # Errors
/// Those of `compile`, and want of memory; then nothing is read or written.
pub fn go<R: Feed, W: Sink>(
    alloc: Global,
    source: &[u8],
    certificate: Option<&[u8]>,
    reader: &mut R,
    writer: &mut W,
    cells: u32,
    budget: u64,
) -> Result<(Verdict, Stop), Fault>
    requires cells { (1 ≤ cells) × (cells ≤ 16777216) }
    requires reader_counts { (R.fed reader.old).failures < 2 ^ 64 - 1 }
    requires writer_counts { (W.got writer.old).failures < 2 ^ 64 - 1 }
    ensures runs { MatchResult result
        (λ done. IsRunOf source.now (given certificate.entry) cells budget done.0 done.1
        (streams (R.fed reader.old) (W.got writer.old))
        (streams (R.fed reader.new) (W.got writer.new)))
        (λ fault. IsRefusal source.now (given certificate.entry) fault
        × (reader.new ≡ reader.old) × (writer.new ≡ writer.old)) }
{
    let compiled = compile(alloc, source, certificate)?;
    let mut ready = Ready::for_code(alloc, &compiled.stripped, cells)?;
    let stop = ready
        .machine
        .run_prepared(&compiled.stripped, &ready.steps, reader, writer, budget);
    Ok((compiled.verdict, stop))
}
