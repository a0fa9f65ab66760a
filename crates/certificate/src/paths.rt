ghost use Rattle.std.specs.Prelude.{◌≡◌, ◌∷◌, ◌<◌, ◌≤◌, [], IfOk, MatchOption, length, map, position};
ghost use Rattle.std.specs.Cmp.Lexicographic.{slice_cmp};
ghost use Rattle.std.specs.List.{list_all, position_or_len};
ghost use Rattle.std.specs.Result.{result_map_both};
ghost use Rattle.domain.specs.Facts.{path_order, said_path, said_step, step_order};
ghost use Rattle.certificate.specs.Building.{pieces, steps_in, word_path};
ghost use Rattle.certificate.specs.Paths.{begins_step, is_name, is_name_byte, is_piece, step_in};
ghost use Rattle.certificate.specs.Paths as spec;

use crate::{LineFault, Told, variable_of};
use domain::{Path, Step};
use std::alloc::{AllocError, Global};
use std::cmp::Ordering;

/// A path as a word of a line tells it.
#[derive(Clone, Copy)]
pub(crate) struct PathWord<'a> {
    root: u32,
    /// The steps as they stand in the word, without the variable before them.
    steps: &'a [u8],
}

impl<'a> PathWord<'a> {
    /// How the path stands to another in the order of paths.
    pub(crate) fn compare(&self, other: &PathWord<'_>) -> Ordering
        ensures { result ≡ path_order (word_path self.now) (word_path other.now) }
    {
        self.root
            .cmp(&other.root)
            .then(compare_steps(self.steps, other.steps))
    }

    /// The path itself.
    pub(crate) fn kept(&self, alloc: Global) -> Result<Path, AllocError>
        ensures { IfOk result (λ path. said_path path ≡ word_path self.now) }
    {
        let steps = kept_steps(alloc, self.steps)?;
        Ok(Path {
            root: self.root,
            steps,
        })
    }
}

/// The path that a word tells, with steps to elements where these may stand.
pub(crate) fn path_of(elements: bool, word: &[u8]) -> Told<PathWord<'_>>
    ensures { result_map_both word_path (λ fault. fault) result ≡ spec.path_of elements word.now }
{
    let end = step_place(word);
    let (variable, steps) = (&word[..end], &word[end..]);
    if !are_steps(elements, steps) {
        return Err(LineFault::NotInGrammar);
    }
    let root = variable_of(variable)?;
    Ok(PathWord { root, steps })
}

/// Where the first step begins; the end, where there is none.
#[tactic(auto, using(crate::proofs::Pieces::place_found, crate::proofs::Pieces::place_missed))]
fn step_place(text: &[u8]) -> usize
    ensures place { result ≡ position_or_len begins_step text.now }
    ensures within { result ≤ length text.now }
{
    step_position(text).unwrap_or(text.len())
}

fn step_position(text: &[u8]) -> Option<usize>
    ensures { result ≡ position begins_step text.now }
{
    text.iter().position(|byte| begins_step(*byte))
}

/// Whether the byte begins a step.
fn begins_step(byte: u8) -> bool
    ensures { result ≡ begins_step byte }
{
    byte == b'.' || byte == b'['
}

/// The words of the first step of some, and what follows it.
fn first_piece(steps: &[u8]) -> Option<(&[u8], &[u8])>
    ensures { MatchOption result (pieces steps.now ≡ [])
        (λ r. (pieces steps.now ≡ r.0.now ∷ pieces r.1.now) × (length r.1.now < length steps.now)) }
{
    if steps.is_empty() {
        return None;
    }
    let end = step_place(&steps[1..]) + 1;
    Some((&steps[..end], &steps[end..]))
}

/// Whether these are the words of steps.
fn are_steps(elements: bool, steps: &[u8]) -> bool
    ensures { result ≡ list_all (is_piece elements) (pieces steps.now) }
{
    let mut rest = steps;
    while let Some((piece, more)) = first_piece(rest) {
        if !is_piece(elements, piece) {
            return false;
        }
        rest = more;
    }
    true
}

/// Whether these are the words of a step.
fn is_piece(elements: bool, piece: &[u8]) -> bool
    ensures { result ≡ is_piece elements piece.now }
{
    match piece.strip_prefix(b".") {
        None => elements && piece == b"[]".as_slice(),
        Some(name) => is_name(name),
    }
}

/// Whether this is a name: a small letter, and then small letters and digits.
fn is_name(name: &[u8]) -> bool
    ensures { result ≡ is_name name.now }
{
    match name {
        [] => false,
        [first, more @ ..] => first.is_ascii_lowercase() && are_name_bytes(more),
    }
}

fn are_name_bytes(bytes: &[u8]) -> bool
    ensures { result ≡ list_all is_name_byte bytes.now }
{
    bytes.iter().all(|byte| is_name_byte(*byte))
}

fn is_name_byte(byte: u8) -> bool
    ensures { result ≡ is_name_byte byte }
{
    byte.is_ascii_lowercase() || byte.is_ascii_digit()
}

/// How steps stand to others: the first ones that differ decide, and then which end first.
fn compare_steps(steps: &[u8], others: &[u8]) -> Ordering
    ensures { result ≡ slice_cmp step_order (steps_in steps.now) (steps_in others.now) }
{
    let mut rest = steps;
    let mut other_rest = others;
    while let Some((piece, more)) = first_piece(rest) {
        let Some((other, other_more)) = first_piece(other_rest) else {
            return Ordering::Greater;
        };
        let order = compare_pieces(piece, other);
        if order.is_ne() {
            return order;
        }
        rest = more;
        other_rest = other_more;
    }
    if other_rest.is_empty() {
        Ordering::Equal
    } else {
        Ordering::Less
    }
}

/// How a step stands to another: all elements before fields, and fields by their names.
fn compare_pieces(piece: &[u8], other: &[u8]) -> Ordering
    ensures { result ≡ step_order (step_in piece.now) (step_in other.now) }
{
    match (piece.strip_prefix(b"."), other.strip_prefix(b".")) {
        (None, None) => Ordering::Equal,
        (None, Some(_)) => Ordering::Less,
        (Some(_), None) => Ordering::Greater,
        (Some(name), Some(other)) => name.cmp(other),
    }
}

/// The steps themselves.
fn kept_steps(alloc: Global, steps: &[u8]) -> Result<Vec<Step>, AllocError>
    ensures { IfOk result (λ kept. map said_step kept.items ≡ steps_in steps.now) }
{
    let mut kept = Vec::new(alloc);
    let mut rest = steps;
    while let Some((piece, more)) = first_piece(rest) {
        kept.push(kept_step(alloc, piece)?)?;
        rest = more;
    }
    Ok(kept)
}

fn kept_step(alloc: Global, piece: &[u8]) -> Result<Step, AllocError>
    ensures { IfOk result (λ step. said_step step ≡ step_in piece.now) }
{
    match piece.strip_prefix(b".") {
        None => Ok(Step::Element),
        Some(name) => {
            let name = Vec::from_slice(alloc, name)?;
            Ok(Step::Field { name })
        }
    }
}
