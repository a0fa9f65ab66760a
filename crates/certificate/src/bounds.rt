ghost use Rattle.std.specs.Prelude.{◌≡◌, ◌≤◌, [], ◌∷◌, length, position};
ghost use Rattle.std.specs.List.{position_or_len};
ghost use Rattle.std.specs.Result.{result_map_both};
ghost use Rattle.domain.specs.Facts.{said_bound, said_span, said_spans};
ghost use Rattle.certificate.specs.Bounds as spec;
ghost use Rattle.certificate.specs.Bounds.{is_sign};

use crate::words::{
    LineFault, Told, both, constant_of, lowered_of, parted, positive_of, variable_of,
};
use domain::{Bound, Extension, Span, Spans, Version};
use text_lines::words::blank;

/// The spans that words tell in a certificate of a version: one, or two where the version has blocks.
pub(crate) fn spans_of(version: Version, words: &[u8]) -> Told<Spans>
    ensures { result_map_both said_spans (λ fault. fault) result ≡ spec.spans_of version words.now }
{
    let (first, words) = parted(words)?;
    match blank(words) {
        None => Ok(Spans::One(span_of(first, words)?)),
        Some(end) if version.has(Extension::Blocks) => {
            two_spans(first, &words[..end], &words[end + 1..])
        }
        Some(_) => Err(LineFault::NotInGrammar),
    }
}

/// The spans of a first index and of the second.
fn two_spans(first: &[u8], last: &[u8], inner: &[u8]) -> Told<Spans>
    ensures { result_map_both said_spans (λ fault. fault) result
        ≡ spec.span_and (spec.span_of first.now last.now) (spec.spans_up_to 1 inner.now) }
{
    let (span, inner) = both(span_of(first, last), inner_span(inner))?;
    Ok(Spans::Two(span, inner))
}

/// The span of the second index, behind which none may stand.
fn inner_span(words: &[u8]) -> Told<Span>
    ensures { result_map_both (λ span. said_span span ∷ []) (λ fault. fault) result ≡ spec.spans_up_to 1 words.now }
{
    let (first, last) = parted(words)?;
    match blank(last) {
        None => span_of(first, last),
        Some(_) => Err(LineFault::NotInGrammar),
    }
}

/// The span between the bounds that two words tell.
fn span_of(first: &[u8], last: &[u8]) -> Told<Span>
    ensures { result_map_both said_span (λ fault. fault) result ≡ spec.span_of first.now last.now }
{
    let (first, last) = both(bound_of(first), bound_of(last))?;
    Ok(Span { first, last })
}

/// The bound that a word tells: a number, or a variable and a number with its sign.
fn bound_of(word: &[u8]) -> Told<Bound>
    ensures { result_map_both said_bound (λ fault. fault) result ≡ spec.bound_of word.now }
{
    match word.strip_prefix(b"v") {
        Some(_) => plus_at(word, sign_place(word)),
        None => Ok(Bound::Number(constant_of(word)?)),
    }
}

/// A variable before a place, and a number from there on.
fn plus_at(word: &[u8], place: usize) -> Told<Bound>
    requires { place ≤ length word.now }
    ensures { result_map_both said_bound (λ fault. fault) result ≡ spec.plus_at word.now place }
{
    let root = variable_of(&word[..place]);
    let (root, number) = both(root, offset_of(&word[place..]))?;
    Ok(Bound::Plus { root, number })
}

/// Where the first sign stands; the end, where there is none.
#[tactic(auto, using(crate::proofs::Pieces::place_found, crate::proofs::Pieces::place_missed))]
fn sign_place(word: &[u8]) -> usize
    ensures place { result ≡ position_or_len is_sign word.now }
    ensures within { result ≤ length word.now }
{
    sign_position(word).unwrap_or(word.len())
}

fn sign_position(word: &[u8]) -> Option<usize>
    ensures { result ≡ position is_sign word.now }
{
    word.iter().position(|byte| is_sign(*byte))
}

fn is_sign(byte: u8) -> bool
    ensures { result ≡ is_sign byte }
{
    byte == b'+' || byte == b'-'
}

/// A number behind its sign.
fn offset_of(word: &[u8]) -> Told<i32>
    ensures { result ≡ spec.offset_of word.now }
{
    if let Some(digits) = word.strip_prefix(b"+") {
        return positive_of(digits);
    }
    lowered_of(word.strip_prefix(b"-").ok_or(LineFault::NotInGrammar)?)
}
