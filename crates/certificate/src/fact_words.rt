ghost use Rattle.std.specs.Prelude.{◌≡◌, IfOk};
ghost use Rattle.std.specs.Result.{result_map_both};
ghost use Rattle.domain.specs.Facts.{subject_order};
ghost use Rattle.certificate.specs.Building.{word_fact, word_path};
ghost use Rattle.certificate.specs.Contents.{said_fact};
ghost use Rattle.certificate.specs.Lines as spec;

use crate::bounds::spans_of;
use crate::paths::{PathWord, path_of};
use crate::{Fact, LineFault, Told, both, constant_of, parted, variable_of};
use domain::{Extension, Growth, Interval, Spans, Version};
use std::alloc::{AllocError, Global};
use std::cmp::Ordering;
use text_lines::words::blank;

/// A fact as the words of a line tell it.
#[derive(Clone, Copy)]
pub(crate) enum FactWords<'a> {
    /// `range P C C`: the range from the first number to the last.
    Range {
        path: PathWord<'a>,
        first: i32,
        last: i32,
    },
    /// `defined P`, or `defined P B B`, or in version 2 `defined P B B B B`.
    Defined {
        path: PathWord<'a>,
        spans: Spans,
    },
    /// `order V V C`.
    Order {
        root: u32,
        other: u32,
        number: i32,
    },
    /// In version 2 `grow V C C C C`: the lower number and its step, and then the upper ones.
    Grows {
        root: u32,
        growth: Growth,
    },
}

impl<'a> FactWords<'a> {
    /// How the fact stands to another in the order of facts, the numbers of ranges, orders and growths aside.
    pub(crate) fn compare_subjects(&self, other: &FactWords<'_>) -> Ordering
        ensures { result ≡ subject_order (word_fact self.now) (word_fact other.now) }
    {
        match (self, other) {
            (FactWords::Range { path: p, .. }, FactWords::Range { path: q, .. }) => p.compare(q),
            (FactWords::Defined { path: p, spans: a }, FactWords::Defined { path: q, spans: b }) =>
                { a.compare(*b, p.compare(q)) }
            (
                FactWords::Order {
                    root: v,
                    other: a,
                    ..
                },
                FactWords::Order {
                    root: w,
                    other: b,
                    ..
                },
            ) => v.cmp(w).then(a.cmp(b)),
            (FactWords::Grows { root: v, .. }, FactWords::Grows { root: w, .. }) => v.cmp(w),
            (FactWords::Range { .. }, _) | (_, FactWords::Grows { .. }) => Ordering::Less,
            (_, FactWords::Range { .. }) | (FactWords::Grows { .. }, _) => Ordering::Greater,
            (FactWords::Defined { .. }, _) => Ordering::Less,
            (FactWords::Order { .. }, _) => Ordering::Greater,
        }
    }

    /// The fact itself.
    pub(crate) fn kept(&self, alloc: Global) -> Result<Fact, AllocError>
        ensures { IfOk result (λ fact. said_fact fact ≡ word_fact self.now) }
    {
        match self {
            FactWords::Range { path, first, last } => {
                let path = path.kept(alloc)?;
                let range = Interval::between(*first, *last);
                Ok(Fact::Range { path, range })
            }
            FactWords::Defined { path, spans } => {
                let path = path.kept(alloc)?;
                Ok(Fact::Defined {
                    path,
                    spans: *spans,
                })
            }
            FactWords::Order {
                root,
                other,
                number,
            } => Ok(Fact::Order {
                root: *root,
                other: *other,
                number: *number,
            }),
            FactWords::Grows { root, growth } => Ok(Fact::Grows {
                root: *root,
                growth: *growth,
            }),
        }
    }
}

/// The fact that the words behind `fact` tell in a certificate of a version.
pub(crate) fn fact_of(version: Version, words: &[u8]) -> Told<FactWords<'_>>
    ensures { result_map_both word_fact (λ fault. fault) result ≡ spec.fact_of version words.now }
{
    if let Some(words) = words.strip_prefix(b"defined ") {
        return defined_fact(version, words);
    }
    if let Some(words) = words.strip_prefix(b"range ") {
        return range_fact(words);
    }
    if let Some(words) = words.strip_prefix(b"order ") {
        return order_fact(words);
    }
    if let Some(words) = words.strip_prefix(b"grow ") {
        return grow_fact(version, words);
    }
    Err(LineFault::NotInGrammar)
}

/// The fact that a path and two numbers tell.
fn range_fact(words: &[u8]) -> Told<FactWords<'_>>
    ensures { result_map_both word_fact (λ fault. fault) result ≡ spec.range_fact words.now }
{
    let (path, words) = parted(words)?;
    let (first, last) = parted(words)?;
    let ends = both(constant_of(first), constant_of(last));
    let (path, (first, last)) = both(path_of(true, path), ends)?;
    range_of(path, first, last)
}

/// A range fact: a range without a number is written 1 0.
fn range_of(path: PathWord<'_>, first: i32, last: i32) -> Told<FactWords<'_>>
    ensures { result_map_both word_fact (λ fault. fault) result ≡ spec.range_of (word_path path.entry, (first, last)) }
{
    if last < first && (first, last) != (1, 0) {
        return Err(LineFault::OutOfRange);
    }
    Ok(FactWords::Range { path, first, last })
}

/// The fact that a path tells, alone or with spans.
fn defined_fact(version: Version, words: &[u8]) -> Told<FactWords<'_>>
    ensures { result_map_both word_fact (λ fault. fault) result ≡ spec.defined_fact version words.now }
{
    match blank(words) {
        None => {
            let path = defined_path(version, words)?;
            let spans = Spans::None;
            Ok(FactWords::Defined { path, spans })
        }
        Some(end) => spanned_fact(version, &words[..end], &words[end + 1..]),
    }
}

/// The path that a word tells, with steps to elements in a version with boxes.
fn defined_path(version: Version, word: &[u8]) -> Told<PathWord<'_>>
    ensures { result_map_both word_path (λ fault. fault) result ≡ spec.defined_path version word.now }
{
    path_of(version.has(Extension::Boxes), word)
}

/// The fact that a path and spans tell.
fn spanned_fact<'a>(version: Version, path: &'a [u8], spans: &[u8]) -> Told<FactWords<'a>>
    ensures { result_map_both word_fact (λ fault. fault) result ≡ spec.spanned_fact version path.now spans.now }
{
    let (path, spans) = both(defined_path(version, path), spans_of(version, spans))?;
    Ok(FactWords::Defined { path, spans })
}

/// The fact that two variables and a number tell.
fn order_fact(words: &[u8]) -> Told<FactWords<'_>>
    ensures { result_map_both word_fact (λ fault. fault) result ≡ spec.order_fact words.now }
{
    let (root, words) = parted(words)?;
    let (other, number) = parted(words)?;
    let bound = both(variable_of(other), constant_of(number));
    let (root, (other, number)) = both(variable_of(root), bound)?;
    Ok(FactWords::Order {
        root,
        other,
        number,
    })
}

/// The fact that a variable and a growth tell, in a version that has growths.
fn grow_fact(version: Version, words: &[u8]) -> Told<FactWords<'_>>
    ensures { result_map_both word_fact (λ fault. fault) result ≡ spec.grow_fact version words.now }
{
    if !version.has(Extension::Growths) {
        return Err(LineFault::NotInGrammar);
    }
    let (root, numbers) = parted(words)?;
    let (root, growth) = both(variable_of(root), growth_of(numbers))?;
    Ok(FactWords::Grows { root, growth })
}

/// The growth that four numbers tell.
fn growth_of(words: &[u8]) -> Told<Growth>
    ensures { result ≡ spec.growth_of words.now }
{
    let (first, words) = parted(words)?;
    let (first_step, words) = parted(words)?;
    let lower = both(constant_of(first), constant_of(first_step));
    let (lower, upper) = both(lower, numbers_of(words))?;
    growth_between(lower, upper)
}

/// Two numbers.
fn numbers_of(words: &[u8]) -> Told<(i32, i32)>
    ensures { result ≡ spec.numbers_of words.now }
{
    let (first, second) = parted(words)?;
    both(constant_of(first), constant_of(second))
}

/// The growth between lower and upper numbers, of which none of the lower is above the upper one.
fn growth_between(lower: (i32, i32), upper: (i32, i32)) -> Told<Growth>
    ensures { result ≡ spec.growth_between (lower, upper) }
{
    let (first, first_step) = lower;
    let (last, last_step) = upper;
    if first > last || first_step > last_step {
        return Err(LineFault::OutOfRange);
    }
    Ok(Growth {
        first,
        first_step,
        last,
        last_step,
    })
}
