ghost use Rattle.std.specs.Prelude.{◌≡◌, ℕ, List, Option, None, false, length, map, IfOk, IfErr, IfSome};
ghost use Rattle.std.specs.Prelude.{MatchResult};
ghost use Rattle.analyser.specs.Verdicts.{IsVerdict};
ghost use Rattle.certificate.specs.declared.Certificate.{Certificate as CertificateRead};
ghost use Rattle.cert_checker.specs.Promise.{CallsChangeWhatTheyList, StatesHold, Valid};
ghost use Rattle.code_scheme.specs.Code.{program_code};
ghost use Rattle.pcode_assembler.specs.Contents.{HasText};
ghost use Rattle.code_generator.specs.Follows.{Follows};
ghost use Rattle.code_generator.specs.Tables.{site_table, point_table};
ghost use Rattle.report.specs.Headline.{Headline, IsTypedTreeOf};
ghost use Rattle.report.specs.Refusals.{IsRefusal, Serves, given, is_of_certificate};
ghost use Rattle.report.specs.Steps.{AreCodes, IsJudgement, IsSoundTreeOf, IsWhole};
ghost use Rattle.typed_tree.specs.Entries.{entries_of};
ghost use Rattle.typed_tree.specs.Ids.{AreByPlace};
ghost use Rattle.typing.specs.Sound.{stands};
ghost use Rattle.report.specs.Whole.{IsStripped};

use analyser::{Found, guess};
use cert_checker::{Verdict, check};
use certificate::Certificate;
use check_remover::remove::remove;
use code_generator::generate::generate;
use code_generator::laws::stripped_follows;
use lexer::tokens;
use parser::{parse, release};
use pcode_assembler::{Code, Site};
use report_text::fault::Fault;
use resolver::resolve;
use std::alloc::{AllocError, Global};
use typed_tree::Tree;

/// What compiling a source gives.
#[derive(Drop)]
pub struct Compiled {
    pub tree: Tree,
    /// The certificate that was used.
    pub certificate: Certificate,
    pub verdict: Verdict,
    /// The code with all its checks.
    pub full: Code,
    /// The code without the checks of the sites that aren't open.
    pub stripped: Code,
}

/// Compiles a source, with the text of a certificate, or with one that the analyser finds.
///
/// # Errors
/// The fault of the first layer that refuses: tokens, syntax, names and types, certificate, its rules, code. A
/// certificate that was found is never refused.
pub fn compile(alloc: Global, source: &[u8], certificate: Option<&[u8]>) -> Result<Compiled, Fault>
    // The tree is the typed tree of the source, and the certificate is the one that the text spells, or without a
    // text one that the checker accepts.
    ensures typed { IfOk result (λ c. IsTypedTreeOf c.tree source.now) }
    ensures certificate { IfOk result (λ c. Serves (given certificate.entry) c.tree c.certificate) }

    // Its sites stand in the table by place and then by kind.
    ensures by_place { IfOk result (λ c. AreByPlace (map stands c.tree.sites.items)) }

    // A source is refused for what the first layer that refuses it says, and for nothing else but memory.
    ensures refused { IfErr result (IsRefusal source.now (given certificate.entry)) }

    // Without a text it is never refused for a certificate.
    ensures guessed { certificate.entry ≡ None → IfErr result (λ fault. is_of_certificate fault ≡ false) }

    // The list of open sites is the checker's, and it counted as many entries as the program has statements and
    // expressions.
    ensures checked { IfOk result (λ c. Valid c.tree c.certificate c.verdict.open_sites.items) }
    ensures visits { IfOk result (λ c. c.verdict.visits ≡ length (entries_of c.tree)) }

    // The headline: for every input and every number of turns the program's meaning commits no error at another
    // site, and the stripped code writes what that meaning writes and stops as it stops.
    ensures headline { IfOk result (λ c. Headline c.tree c.verdict.open_sites.items c.stripped) }
    ensures states_hold { IfOk result (λ c. StatesHold c.tree c.certificate) }
    ensures calls_change { IfOk result (λ c. CallsChangeWhatTheyList c.tree c.certificate) }

    // With all its checks the code follows the program too.
    ensures follows { IfOk result (λ c. Follows c.full c.tree) }

    // Both codes have a text, which is read again as the same code.
    ensures text { IfOk result (λ c. HasText c.full) }
    ensures stripped_text { IfOk result (λ c. HasText c.stripped) }

    // The code is that of the tree, and the stripped code is without the checks of the sites that aren't open.
    ensures full { IfOk result (λ c. c.full.instructions.items ≡ program_code c.tree) }
    ensures sites { IfOk result (λ c. c.full.sites.items ≡ site_table c.tree.sites.items) }
    ensures points { IfOk result (λ c. c.full.points.items ≡ point_table c.tree.points.items) }
    ensures stripped { IfOk result (λ c. IsStripped c.tree c.verdict.open_sites.items c.stripped) }
{
    whole(alloc, source, certificate)
}

// All steps, one behind the other, with one clause over what they give.
fn whole(alloc: Global, source: &[u8], certificate: Option<&[u8]>) -> Result<Compiled, Fault>
    ensures { MatchResult result (IsWhole source.now (given certificate.entry))
        (IsRefusal source.now (given certificate.entry)) }
{
    let tree = typed(alloc, source)?;
    let (certificate, verdict) = judged(alloc, &tree, certificate)?;
    let (full, stripped) = coded(alloc, &tree, &verdict)?;
    Ok(Compiled {
        tree,
        certificate,
        verdict,
        full,
        stripped,
    })
}

// The typed tree of a source, whatever its certificate.
fn typed(alloc: Global, source: &[u8]) -> Result<Tree, Fault>
    ensures { MatchResult result (IsSoundTreeOf source.now)
        (λ fault. (text : Option (List ℕ)) → IsRefusal source.now text fault) }
{
    let tokens = tokens(alloc, source)?;
    let program = parse(alloc, &tokens)?;
    let resolved = resolve(alloc, &program);
    release(program);
    let tree = resolved?;
    Ok(tree)
}

// The certificate and the verdict by it.
fn judged(
    alloc: Global,
    tree: &Tree,
    certificate: Option<&[u8]>,
) -> Result<(Certificate, Verdict), Fault>
    ensures { (source : List ℕ) → IsSoundTreeOf source tree.now
        → MatchResult result (λ judged. IsJudgement tree.now (given certificate.entry) judged.0 judged.1)
        (IsRefusal source (given certificate.entry)) }
{
    let Found {
        certificate,
        verdict,
    } = serving(alloc, tree, certificate)?;
    match verdict {
        Some(verdict) => Ok((certificate, verdict)),
        None => {
            let verdict = check(alloc, tree, &certificate)?;
            Ok((certificate, verdict))
        }
    }
}

// The certificate that a text spells, or without one a certificate that is found for the tree, and its verdict where
// the search for it has made that already.
fn serving(alloc: Global, tree: &Tree, text: Option<&[u8]>) -> Result<Found, Fault>
    ensures { (source : List ℕ) → IsSoundTreeOf source tree.now
        → MatchResult result (λ found. Serves (given text.entry) tree.now found.certificate
        × IfSome found.verdict (IsVerdict tree.now found.certificate)) (IsRefusal source (given text.entry)) }
{
    match text {
        Some(text) => Ok(Found {
            certificate: certificate::read(alloc, text)?,
            verdict: None,
        }),
        None => Ok(guess(alloc, tree)?),
    }
}

// The code with all its checks, and the code without those of the sites that aren't open.
fn coded(alloc: Global, tree: &Tree, verdict: &Verdict) -> Result<(Code, Code), Fault>
    ensures { (source : List ℕ) (text : Option (List ℕ)) (certificate : CertificateRead)
        → IsSoundTreeOf source tree.now → IsJudgement tree.now text certificate verdict.now
        → MatchResult result (λ codes. AreCodes tree.now verdict.now.open_sites.items codes.0 codes.1)
        (IsRefusal source text) }
{
    let full = generate(alloc, tree)?;
    let open_sites = code_sites(alloc, verdict)?;
    let stripped = remove(alloc, &full, &open_sites)?;
    stripped_follows();
    Ok((full, stripped))
}

// The open sites, as the code names them.
fn code_sites(alloc: Global, verdict: &Verdict) -> Result<Vec<Site>, AllocError>
    ensures { IfOk result (λ sites. sites.items ≡ site_table verdict.now.open_sites.items) }
{
    verdict
        .open_sites
        .iter()
        .map(|site| Site {
            id: site.id,
            line: site.place.line,
            column: site.place.column,
            kind: site.kind.number(),
        })
        .collect(alloc)
}
