ghost use Rattle.std.specs.Prelude.{◌≡◌, None, IfErr, IfOk, IsOk};
ghost use Rattle.pcode_assembler.specs.Contents.{spelling};
ghost use Rattle.report.specs.Courses.{CourseGoes, writes_if};
ghost use Rattle.report.specs.Pcom.{code_of, report_status, reports, spelled, writes_code};
ghost use Rattle.report.specs.Prepared.{IsPrepared, IsThereFor};
ghost use Rattle.report.specs.Refusals.{IsRefusal, given};
ghost use Rattle.report.specs.Whole.{IsCompiled};

use crate::compile::{Compiled, compile};
use crate::ready::Ready;
use crate::telling::{cannot_write, run_code, write_to};
use crate::text::open_lines;
use analyser::trimming::trimmed;
use command_line::PcomWords;
use outside::Outside;
use pcode_assembler::Code;
use report_text::fault::Fault;
use std::alloc::{AllocError, Global};
use typed_tree::Site;

/// How many cells a run has.
const CELLS: u32 = 1_000_000;

/// A source that is compiled, with all that takes memory, before anything is written or told of it.
#[derive(Drop)]
pub(crate) struct Prepared {
    compiled: Compiled,
    /// The lines of the open sites.
    report: Vec<u8>,
    /// The spelling of the certificate that was used, empty where it isn't to be written.
    certificate: Vec<u8>,
    /// The text of the code, empty where it isn't to be written.
    code: Vec<u8>,
    /// None where the code isn't to be run.
    ready: Option<Ready>,
}

/// Compiles a source, with the text of a certificate or with one that is found, and makes all that takes memory.
///
/// # Errors
/// Those of `compile`, and want of memory.
pub(crate) fn prepare(
    alloc: Global,
    words: PcomWords<'_>,
    source: &[u8],
    certificate: Option<&[u8]>,
) -> Result<Prepared, Fault>
    ensures compiled { IfOk result (λ it. IsCompiled source.now (given certificate.entry) it.compiled) }
    ensures prepared { IfOk result (IsPrepared words.entry) }
    ensures refused { IfErr result (IsRefusal source.now (given certificate.entry)) }
{
    let compiled = compiled(alloc, source, certificate, words.write_cert.is_some())?;
    let report = open_lines(alloc, &compiled.verdict.open_sites)?;
    let certificate = certificate_for(alloc, words.write_cert, &compiled)?;
    let chosen = chosen(&compiled, words.keep_checks);
    let code = code_for(alloc, words.code, chosen)?;
    let ready = if words.go {
        Some(Ready::for_code(alloc, chosen, CELLS)?)
    } else {
        None
    };
    Ok(Prepared {
        compiled,
        report,
        certificate,
        code,
        ready,
    })
}

// A source that is compiled; a certificate that is found and is to be written without facts that no site needs.
fn compiled(
    alloc: Global,
    source: &[u8],
    certificate: Option<&[u8]>,
    is_to_be_written: bool,
) -> Result<Compiled, Fault>
    ensures compiled { IfOk result (IsCompiled source.now (given certificate.entry)) }
    ensures refused { IfErr result (IsRefusal source.now (given certificate.entry)) }
{
    let mut compiled = compile(alloc, source, certificate)?;
    if !is_to_be_written || certificate.is_some() {
        return Ok(compiled);
    }
    match trimmed(
        alloc,
        &compiled.tree,
        &compiled.certificate,
        &compiled.verdict,
    )? {
        None => Ok(compiled),
        Some(less) => {
            compiled.certificate = less;
            Ok(compiled)
        }
    }
}

// The spelling of the certificate that was used, where it is to be written to a path.
fn certificate_for(
    alloc: Global,
    path: Option<&str>,
    compiled: &Compiled,
) -> Result<Vec<u8>, AllocError>
    ensures text { IfOk result (λ text. IsThereFor (given path.entry) (spelled compiled.now) text.items) }
    ensures unasked { path.entry ≡ None → IsOk result }
{
    match path {
        Some(_) => certificate::write(alloc, &compiled.certificate),
        None => Ok(Vec::new(alloc)),
    }
}

// The text of a code, where it is to be written to a path.
fn code_for(alloc: Global, path: Option<&str>, code: &Code) -> Result<Vec<u8>, AllocError>
    ensures text { IfOk result (λ text. IsThereFor (given path.entry) (spelling code.now) text.items) }
    ensures unasked { path.entry ≡ None → IsOk result }
{
    match path {
        Some(_) => code.write(alloc),
        None => Ok(Vec::new(alloc)),
    }
}

// The code that is written and run.
fn chosen(compiled: &Compiled, keep_checks: bool) -> &Code
    ensures { result.now ≡ code_of keep_checks compiled.now }
{
    if keep_checks {
        &compiled.full
    } else {
        &compiled.stripped
    }
}

impl Prepared {
    /// Writes the certificate and the code to the files that are named for them, tells the report, and runs the code
    /// where that was asked for. Answers the status.
    pub(crate) fn put_out<O: Outside>(
        self,
        alloc: Global,
        words: PcomWords<'_>,
        outside: &mut O,
    ) -> u8
        requires { IsPrepared words self }
        ensures { CourseGoes (O.acts outside.old) (O.acts outside.new) result (writes_if (given words.entry.write_cert)
            (spelled self.compiled) (writes_code words.entry self.compiled)) }
    {
        match write_to(words.write_cert, &self.certificate, outside) {
            Ok(()) => self.put_out_code(alloc, words, outside),
            Err(path) => cannot_write(path, outside),
        }
    }

    // The same behind the certificate.
    fn put_out_code<O: Outside>(self, alloc: Global, words: PcomWords<'_>, outside: &mut O) -> u8
        requires { IsPrepared words self }
        ensures { CourseGoes (O.acts outside.old) (O.acts outside.new) result (writes_code words.entry self.compiled) }
    {
        match write_to(words.code, &self.code, outside) {
            Ok(()) => self.report_to(alloc, words, outside),
            Err(path) => cannot_write(path, outside),
        }
    }

    // Tells the report, and then runs the code, where all is ready for it.
    fn report_to<O: Outside>(self, alloc: Global, words: PcomWords<'_>, outside: &mut O) -> u8
        requires { IsPrepared words self }
        ensures { CourseGoes (O.acts outside.old) (O.acts outside.new) result (reports words.entry self.compiled) }
    {
        let Prepared {
            compiled,
            report,
            certificate: _,
            code: _,
            ready,
        } = self;
        let told = outside.tell(&[report.as_slice()]);
        let status = report_status(&compiled.verdict.open_sites);
        match ready {
            None => status,
            Some(mut ready) => {
                let code = chosen(&compiled, words.keep_checks);
                run_code(alloc, code, &mut ready, told, status, outside)
            }
        }
    }
}

/// The status of a report: 1 where a site is open.
fn report_status(open_sites: &[Site]) -> u8
    ensures { result ≡ report_status open_sites.now }
{
    u8::from(!open_sites.is_empty())
}
