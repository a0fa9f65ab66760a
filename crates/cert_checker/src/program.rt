ghost use Rattle.std.specs.Prelude.{◌≡◌, [], IfOk, MatchResult, length};
ghost use Rattle.typed_tree.specs.Entries.{entries_of};
ghost use Rattle.cert_checker.specs.View.{AreGrounds, IsBegun, IsFaultOf, IsUnbroken};
ghost use Rattle.cert_checker.specs.Promise.{IsGivenUpFor};
ghost use Rattle.cert_checker.specs.Walk.{program_walk};

use crate::blocks::block_count;
use crate::visits::Visits;
use crate::walk::Walk;
use certificate::Certificate;
use checker_expressions::{Breach, CheckFault, Flow, Grounds};
use checker_loops::loops::{Claims, all_claims, all_loop_aliases};
use checker_loops::{Pairs, all_block_claims, all_declared, all_pairs};
use checker_rows::Rows;
use checker_trail::State;
use std::alloc::{AllocError, Global};
use typed_tree::Tree;

/// What a walk over a program found out.
#[derive(Drop)]
pub(crate) struct Found {
    /// The ids of the sites that it left open.
    pub(crate) open_ids: Vec<u32>,
    /// How many entries were counted.
    pub(crate) visits: u64,
}

/// Walks over a program, block by block.
pub(crate) fn program<'a>(
    alloc: Global,
    rows: &'a Rows<'a>,
    certificate: &'a Certificate,
) -> Result<Found, CheckFault>
    ensures sites { IfOk result (λ found. found.open_ids.items ≡ (program_walk rows.now certificate.now).open_ids) }
    ensures visits { IfOk result (λ found. found.visits ≡ length (entries_of rows.now)) }
    ensures rules { MatchResult result (λ _. (program_walk rows.now certificate.now).broken ≡ [])
        (IsGivenUpFor rows.now certificate.now) }
{
    let tree = rows.tree();
    let Some(count) = block_count(tree) else {
        return Err(CheckFault::TooLarge);
    };
    let Some(declared) = all_declared(alloc, tree)? else {
        return Err(CheckFault::TooLarge);
    };
    let grounds = grounds(alloc, tree, certificate)?;
    let claims = all_claims(alloc, tree, certificate)?;
    let aliases = all_loop_aliases(alloc, tree, &grounds.pairs, &claims)?;
    let state = State::of_types(alloc, grounds.version, rows);
    let mut walk = Walk::new(state, grounds, &claims, &aliases);
    let mut visits = Visits::new();
    walk.blocks(tree, count, &declared, &mut visits);
    let Some(visits) = visits.finish(tree) else {
        return Err(CheckFault::TooLarge);
    };
    let open_ids = walk.end()?;
    Ok(Found { open_ids, visits })
}

/// What a walk goes by before the first block.
pub fn grounds<'a>(
    alloc: Global,
    tree: &'a Tree,
    certificate: &'a Certificate,
) -> Result<Grounds<'a>, AllocError>
    ensures { IfOk result (AreGrounds tree.now certificate.now) }
{
    let pairs = all_pairs(alloc, certificate)?;
    Ok(Grounds {
        version: certificate.version,
        sections: all_block_claims(alloc, tree, certificate)?,
        pairs: Pairs::of(alloc, tree, pairs)?,
        block: 0,
        rounds: Vec::new(alloc),
    })
}

impl<'a> Walk<'a> {
    /// Before the first block.
    pub fn new(
        state: State<'a>,
        grounds: Grounds<'a>,
        claims: &'a [Claims<'a>],
        aliases: &'a [Vec<u32>],
    ) -> Walk<'a>
        ensures { IsBegun state.entry grounds.entry claims.now aliases.now result }
    {
        let open_ids = Vec::new(state.alloc());
        Walk {
            claims,
            aliases,
            flow: Flow {
                grounds,
                state,
                open_ids,
                broken: None,
            },
        }
    }

    /// The ids of the sites that it left open, if memory sufficed and no rule is broken.
    fn end(self) -> Result<Vec<u32>, CheckFault>
        ensures { MatchResult result (λ ids. IsUnbroken self.entry ids.items) (IsFaultOf self.entry) }
    {
        if let Some(refused) = self.flow.state.refusal() {
            return Err(CheckFault::Memory(refused));
        }
        match self.flow.broken {
            Some(Breach { rule, place }) => Err(CheckFault::Broken { rule, place }),
            None => {
                let flow = self.flow;
                Ok(flow.open_ids)
            }
        }
    }
}
