ghost use Rattle.std.specs.Prelude.{◌≡◌, ◌∷◌, [], IfOk, get_or, map};
ghost use Rattle.certificate.specs.Contents.{loop_of, said_fact};
ghost use Rattle.checker_loops.specs.Loops.{all_claims, claims_at, controls_inside, found_among, is_for_statement};
ghost use Rattle.checker_loops.specs.View.{AreFound, all_loop_aliases, claims_found};
ghost use Rattle.checker_loops.specs.View.{loop_aliases, said_claims};

use crate::{Changes, Pairs, Roots};
use certificate::{Certificate, Fact, LoopClaims};
use std::alloc::{AllocError, Global};
use typed_tree::Tree;

/// What a certificate claims of a loop.
#[derive(Drop)]
pub struct Claims<'a> {
    /// The variables that it changes.
    pub changes: Changes<'a>,
    /// What holds whenever a turn of it begins.
    pub facts: &'a [Fact],
}

impl<'a> Claims<'a> {
    /// The claims that were found, if any were.
    fn of(alloc: Global, found: Option<&'a LoopClaims>) -> Result<Claims<'a>, AllocError>
        ensures { IfOk result (λ claims. said_claims claims ≡ claims_found found.entry) }
    {
        let (roots, facts): (&[u32], &[Fact]) = match found {
            None => (&[], &[]),
            Some(claims) => (&claims.changes, &claims.facts),
        };
        Ok(Claims {
            changes: Changes::of(alloc, roots)?,
            facts,
        })
    }
}

/// What a certificate claims of each loop of a program, by the numbers of the loops: nothing where it doesn't speak of
/// one. Claims on a loop that the program doesn't have are passed over.
pub fn all_claims<'a>(
    alloc: Global,
    tree: &Tree,
    certificate: &'a Certificate,
) -> Result<Vec<Claims<'a>>, AllocError>
    ensures { IfOk result (λ claims. map said_claims claims.items ≡ all_claims tree.now certificate.now) }
{
    let mut claims = Vec::new(alloc);
    for found in &all_found(alloc, tree, certificate)? {
        claims.push(Claims::of(alloc, *found)?)?;
    }
    Ok(claims)
}

/// The lines of a certificate on each loop of a program.
fn all_found<'a>(
    alloc: Global,
    tree: &Tree,
    certificate: &'a Certificate,
) -> Result<Vec<Option<&'a LoopClaims>>, AllocError>
    ensures { IfOk result (λ found. map claims_found found.items ≡ all_claims tree.now certificate.now) }
{
    let mut found = vec![in alloc; None; tree.loops.len()]?;
    for section in &certificate.sections {
        enter_all(&mut found, &section.loops);
    }
    Ok(found)
}

/// Enters claims by the numbers of their loops.
fn enter_all<'a>(found: &mut [Option<&'a LoopClaims>], loops: &'a [LoopClaims])
    ensures { AreFound found.old found.new (λ number. found_among number (map loop_of loops.now)) }
{
    for claims in loops {
        enter(found, claims);
    }
}

/// Enters the claims on a loop: the first ones count.
fn enter<'a>(found: &mut [Option<&'a LoopClaims>], claims: &'a LoopClaims)
    ensures { AreFound found.old found.new (λ number. found_among number (loop_of claims.now ∷ [])) }
{
    let number = claims.number as usize;
    if let Some(None) = found.get(number) {
        found[number] = Some(claims);
    }
}

/// The control variables of the for statements inside the loop of a number.
pub fn controls_inside(tree: &Tree, number: u32) -> &[u32]
    ensures { result.now ≡ controls_inside tree.now number }
{
    match tree.loops.get(number as usize) {
        None => &[],
        Some(row) => &row.controls,
    }
}

/// Whether the loop of a number is a for statement.
pub fn is_for_statement(tree: &Tree, number: u32) -> bool
    ensures { result ≡ is_for_statement tree.now number }
{
    match tree.loops.get(number as usize) {
        None => false,
        Some(row) => row.control.is_some(),
    }
}

/// The aliases of what each loop of a program changes, by the numbers of the loops.
pub fn all_loop_aliases(
    alloc: Global,
    tree: &Tree,
    pairs: &Pairs,
    claims: &[Claims],
) -> Result<Vec<Vec<u32>>, AllocError>
    ensures { IfOk result (λ found. map (λ row. row.items) found.items
        ≡ all_loop_aliases tree.now pairs.now (map said_claims claims.now)) }
{
    let mut found = Vec::new(alloc);
    for number in 0..tree.loops.len() {
        found.push(loop_aliases(alloc, tree, pairs, claims, number)?)?;
    }
    Ok(found)
}

/// The aliases of what the loop of a number changes.
fn loop_aliases(
    alloc: Global,
    tree: &Tree,
    pairs: &Pairs,
    claims: &[Claims],
    number: usize,
) -> Result<Vec<u32>, AllocError>
    ensures { IfOk result (λ aliases. aliases.items
        ≡ loop_aliases tree.now pairs.now (map said_claims claims.now) number) }
{
    let mut aliases = Vec::new(alloc);
    if let Some(row) = tree.loops.get(number) {
        pairs.add_all_aliases(&mut aliases, row.block, &row.controls)?;
        pairs.add_all_aliases(&mut aliases, row.block, changes_at(claims, number).listed)?;
    }
    Ok(aliases)
}

/// The variables that the claims on the loop of a number list.
pub(crate) fn changes_at<'a, 'b>(claims: &'b [Claims<'a>], number: usize) -> Roots<'b>
    ensures { result.listed.now ≡ (claims_at (map said_claims claims.now) number).changes }
{
    match claims.get(number) {
        None => Roots::none(),
        Some(found) => found.changes.roots(),
    }
}

/// The facts of the claims on the loop of a number.
pub(crate) fn facts_at<'a, 'b>(claims: &'b [Claims<'a>], number: usize) -> &'a [Fact]
    ensures { map said_fact result.now ≡ (claims_at (map said_claims claims.now) number).facts }
{
    match claims.get(number) {
        None => &[],
        Some(found) => found.facts,
    }
}

/// The aliases of what the loop of a number changes by those of each.
pub(crate) fn aliases_at(aliases: &[Vec<u32>], number: u32) -> &[u32]
    ensures { result.now ≡ get_or (map (λ row. row.items) aliases.now) number [] }
{
    match aliases.get(number as usize) {
        None => &[],
        Some(found) => found.as_slice(),
    }
}
