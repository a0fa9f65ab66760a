ghost use Rattle.std.specs.Prelude.{◌≡◌};
ghost use Rattle.std.specs.Result.{result_map_both};
ghost use Rattle.certificate.specs.Building.{said_content, word_claim};
ghost use Rattle.certificate.specs.Contents.{claim_order, may_stand, order_in_word, word_place};
ghost use Rattle.certificate.specs.Lines as spec;

use crate::fact_words::{FactWords, fact_of};
use crate::{AliasPair, LineFault, Told, both, number_of, parted, variable_of};
use domain::Version;
use std::cmp::Ordering;

/// What is claimed of a block itself, or of a loop.
#[derive(Clone, Copy)]
pub(crate) enum ClaimLine<'a> {
    /// `alias V V`: both variables may share a place in the block.
    Alias(AliasPair),
    /// `change V`: the block or the loop changes the variable of that root number.
    Change(u32),
    /// `entry ..`: the fact holds where the block begins.
    Entry(FactWords<'a>),
    /// `exit ..`: the fact holds where the block ends.
    Exit(FactWords<'a>),
    /// `fact ..`: the fact holds whenever a turn of the loop begins.
    Fact(FactWords<'a>),
}

/// What a line below the heading says.
#[derive(Clone, Copy)]
pub(crate) enum Content<'a> {
    /// `proc N`: the lines below it are of the block of that number.
    Block(u32),
    /// `loop N`: the lines below it are of the loop of that number.
    Loop(u32),
    /// Something is claimed of the last of these.
    Claimed(ClaimLine<'a>),
}

impl<'a> ClaimLine<'a> {
    /// How the claim stands to another in the order of claims: by their words, and then by what they say something of.
    pub(crate) fn compare(&self, other: &ClaimLine<'_>) -> Ordering
        ensures { result ≡ claim_order (word_claim self.now) (word_claim other.now) }
    {
        self.word_place()
            .cmp(&other.word_place())
            .then(self.compare_in_word(other))
    }

    /// The place of the claim's word among the words.
    fn word_place(&self) -> u8
        ensures { result ≡ word_place (word_claim self.now) }
    {
        match self {
            ClaimLine::Alias(_) => 0,
            ClaimLine::Change(_) => 1,
            ClaimLine::Entry(_) => 2,
            ClaimLine::Exit(_) => 3,
            ClaimLine::Fact(_) => 4,
        }
    }

    /// How claims of one word stand to each other.
    fn compare_in_word(&self, other: &ClaimLine<'_>) -> Ordering
        ensures { result ≡ order_in_word (word_claim self.now) (word_claim other.now) }
    {
        match (self, other) {
            (ClaimLine::Alias(a), ClaimLine::Alias(b)) => a
                .first
                .cmp(&b.first)
                .then(a.second.cmp(&b.second)),
            (ClaimLine::Change(a), ClaimLine::Change(b)) => a.cmp(b),
            (ClaimLine::Entry(a), ClaimLine::Entry(b)) => a.compare_subjects(b),
            (ClaimLine::Exit(a), ClaimLine::Exit(b)) => a.compare_subjects(b),
            (ClaimLine::Fact(a), ClaimLine::Fact(b)) => a.compare_subjects(b),
            _ => Ordering::Equal,
        }
    }

    /// Whether it may stand below a loop's heading, or else below a block's before its loops.
    pub(crate) fn may_stand(&self, in_loop: bool) -> bool
        ensures { result ≡ may_stand in_loop (word_claim self.now) }
    {
        match self {
            ClaimLine::Alias(pair) => !in_loop && pair.first < pair.second,
            ClaimLine::Change(_) => true,
            ClaimLine::Entry(_) | ClaimLine::Exit(_) => !in_loop,
            ClaimLine::Fact(_) => in_loop,
        }
    }
}

/// What a line below the heading of a version says.
pub(crate) fn reading(version: Version, line: &[u8]) -> Told<Content<'_>>
    ensures { result_map_both said_content (λ fault. fault) result ≡ spec.reading version line.now }
{
    if let Some(number) = line.strip_prefix(b"proc ") {
        return Ok(Content::Block(number_of(number)?));
    }
    if let Some(number) = line.strip_prefix(b"loop ") {
        return Ok(Content::Loop(number_of(number)?));
    }
    let claim = claim_of(version, line)?;
    Ok(Content::Claimed(claim))
}

/// What a line claims, by the word that it begins with.
fn claim_of(version: Version, line: &[u8]) -> Told<ClaimLine<'_>>
    ensures { result_map_both word_claim (λ fault. fault) result ≡ spec.claim_of version line.now }
{
    if let Some(pair) = line.strip_prefix(b"alias ") {
        return Ok(ClaimLine::Alias(pair_of(pair)?));
    }
    if let Some(root) = line.strip_prefix(b"change ") {
        return Ok(ClaimLine::Change(variable_of(root)?));
    }
    if let Some(words) = line.strip_prefix(b"entry ") {
        return Ok(ClaimLine::Entry(fact_of(version, words)?));
    }
    if let Some(words) = line.strip_prefix(b"exit ") {
        return Ok(ClaimLine::Exit(fact_of(version, words)?));
    }
    if let Some(words) = line.strip_prefix(b"fact ") {
        return Ok(ClaimLine::Fact(fact_of(version, words)?));
    }
    Err(LineFault::NotInGrammar)
}

/// The pair that two variables tell.
fn pair_of(words: &[u8]) -> Told<AliasPair>
    ensures { result ≡ spec.pair_of words.now }
{
    let (first, second) = parted(words)?;
    let (first, second) = both(variable_of(first), variable_of(second))?;
    Ok(AliasPair { first, second })
}
